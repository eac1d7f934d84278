ghost use Rattle.std.specs.Prelude.{◌≡◌, ◌<◌, length, map, replicate, IfOk};
ghost use Rattle.qc_terms.specs.Cells.{row_of, cell_of, with_cell, HasCell};

use std::alloc::{AllocError, Global};
use std::marker::Model;

/// The cells of each space, in order. Contracts see them as a list of rows of words.
#[derive(Debug, Drop)]
pub struct Cells {
    rows: Vec<Vec<u64>>,
}

impl Model for Cells {
    ghost use Rattle.std.specs.Prelude.{List, ℕ, map};

    ghost Value = { List (List ℕ) };

    ghost view = { λ c. map (λ r. r.items) c.rows.items };
}

impl Cells {
    /// Spaces with these numbers of cells, all 0.
    pub fn zeroed(alloc: Global, counts: &[u32]) -> Result<Cells, AllocError>
        ensures { IfOk result (λ c. c ≡ map (λ n. replicate n 0) counts.now) }
    {
        let mut rows = Vec::new(alloc);
        for count in counts {
            rows.push(vec![in alloc; 0; *count as usize]?)?;
        }
        Ok(Cells { rows })
    }

    /// The word of a cell.
    pub fn read(&self, space: u32, index: u64) -> u64
        requires { HasCell self.now space index }
        ensures { result ≡ cell_of self.now space index }
    {
        self.rows[space as usize][index as usize]
    }

    /// Sets the word of a cell.
    pub fn write(&mut self, space: u32, index: u64, word: u64)
        requires { HasCell self.old space index }
        ensures { self.new ≡ with_cell self.old space index word }
    {
        let row = &mut self.rows[space as usize];
        row[index as usize] = word;
    }
}

//! Symbol tables: names with numbers.
ghost use Rattle.std.specs.Prelude.{◌≡◌, [], OnOk, OnErr, IfOk, is_some};
ghost use Rattle.qc_names.specs.Tables.{number_at, entered};

use indexmap::IndexMap;
use std::alloc::{AllocError, Global};
use std::marker::Model;

/// Names, each with a number. Contracts see them as the list of their entries, in the order in which they came.
#[derive(Debug, Drop)]
pub struct NameTable {
    numbers: IndexMap<Vec<u8>, usize>,
}

impl Model for NameTable {
    ghost use Rattle.std.specs.Prelude.{List, ℕ, map};

    ghost Value = { List (List ℕ × ℕ) };

    ghost view = { λ t. map (λ e. (e.0.items, e.1)) t.numbers.entries };
}

impl NameTable {
    /// A table of no names.
    pub fn new(alloc: Global) -> NameTable
        ensures { result ≡ [] }
    {
        NameTable {
            numbers: IndexMap::new(alloc),
        }
    }

    /// The number of a name.
    pub fn number(&self, name: &[u8]) -> Option<usize>
        ensures { result ≡ number_at self.now name.now }
    {
        self.numbers.get(name).copied()
    }

    /// Enters a name with a number, unless the name is there. Answers whether it was there.
    pub fn enter(&mut self, alloc: Global, name: &[u8], number: usize) -> Result<bool, AllocError>
        ensures was { IfOk result (λ was. was ≡ is_some (number_at self.old name.now)) }
        ensures after { OnOk result (self.new ≡ entered self.old name.now number) }
        ensures kept { OnErr result (self.new ≡ self.old) }
    {
        if self.number(name).is_some() {
            return Ok(true);
        }
        self.numbers.insert(Vec::from_slice(alloc, name)?, number)?;
        Ok(false)
    }
}

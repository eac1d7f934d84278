use crate::cells::Cells;
use qc_words::Width;
use sqlite_items::Items;

/// The order of a word's bytes in memory.
#[derive(Clone, Copy, Debug, PartialEq, Eq)]
pub enum Order {
    Little,
    Big,
}

/// What register transfer lists need to know of a machine: its word, its byte order, and the cell that always
/// reads 0, as its space's number and its index, if there is one.
#[derive(Clone, Copy, Debug, PartialEq, Eq)]
pub struct Facts {
    pub word: Width,
    pub order: Order,
    pub zero: Option<(u32, u32)>,
}

impl Facts {
    ghost use Rattle.std.specs.Prelude.{◌≡◌};
    ghost use Rattle.qc_terms.specs.State.{is_zero_cell};

    /// Whether this cell is the one that always reads 0.
    pub fn is_zero_cell(self, space: u32, index: u64) -> bool
        ensures { result ≡ is_zero_cell self.zero space index }
    {
        match self.zero {
            Some((zero_space, zero_index)) => zero_space == space && u64::from(zero_index) == index,
            None => false,
        }
    }
}

/// What one step shows: nothing, a word put out, the end with a code, or a trap with a code.
#[derive(Clone, Copy, Debug, PartialEq, Eq)]
pub enum Event {
    Quiet,
    Out { word: u64 },
    Ended { code: u64 },
    Trapped { code: u64 },
}

/// The state of a machine. `ending` is the event with which it stopped, or none while it runs.
///
/// Each space has a width and a row of `cells`; `taken` counts the words of `input` that were read.
#[derive(Debug, Drop)]
pub struct State {
    pub facts: Facts,
    pub widths: Items<Width>,
    pub cells: Cells,
    pub memory: Items<u8>,
    pub pc: u64,
    pub input: Items<u64>,
    pub taken: usize,
    pub ending: Option<Event>,
}

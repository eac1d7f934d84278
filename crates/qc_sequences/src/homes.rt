use qc_code::Slot;
use sqlite_items::Items;

/// The register that a node's value is for: a parameter of the tile, a scratch, or a cell.
#[derive(Clone, Copy, Debug, PartialEq, Eq)]
pub(crate) enum Home {
    Param { number: u32 },
    Scratch { number: u32 },
    Cell { index: u32 },
}

/// Slots of a node's operands, the registers that its children have as their own, and the number of the next scratch.
#[derive(Debug, Drop)]
pub(crate) struct Row {
    pub(crate) slots: Items<Slot>,
    pub(crate) homes: Items<Home>,
    pub(crate) next: u32,
}

/// Lines of a sequence, and the number of the next scratch.
#[derive(Debug, Drop)]
pub(crate) struct Made {
    pub(crate) lines: Items<(u32, Items<Slot>)>,
    pub(crate) next: u32,
}

use qc_terms::Term;
use sqlite_items::Items;

/// What stands for an operand of an instruction in a template.
///
/// `Param` is the tile's register parameter of this number. `Scratch` is a cell that the template needs besides, `Cell` a
/// cell by its index, `Constant` the value of a term over the tile's constants, and `Target` the tile's target.
#[derive(Debug, Drop)]
pub enum Slot {
    Param { number: u32 },
    Scratch { number: u32 },
    Cell { index: u32 },
    Constant { term: Term },
    Target,
}

/// A sequence of instructions that does what a tile does. Each line is the number of an instruction in the description,
/// with a slot for each of its operands. `scratches` is how many scratches the lines need, numbered from 0.
#[derive(Debug, Drop)]
pub struct Template {
    pub instances: Items<(u32, Items<Slot>)>,
    pub scratches: u32,
}

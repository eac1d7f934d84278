use sqlite_items::Items;

/// A program that puts out constants, in order, and ends with one.
#[derive(Debug, Drop)]
pub struct ConstantProgram {
    pub outputs: Items<u32>,
    pub returned: u32,
}

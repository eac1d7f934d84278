use qc_equations::Law;
use sqlite_items::Items;

/// The use of a law at a place of a term: the numbers of the operands on the way from the root to what the law turns. The
/// address of a memory access is its operand 0.
#[derive(Debug, Drop)]
pub struct Step {
    pub law: Law,
    pub place: Items<u32>,
}

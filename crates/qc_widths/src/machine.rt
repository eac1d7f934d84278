use qc_descr::{Given, Operation, Space};
use qc_text::Text;
use sqlite_items::Items;

/// What a machine's text means: the facts that it gives, its spaces, and what each instruction does.
#[derive(Debug, Drop)]
pub struct Machine {
    pub name: Text,
    pub given: Given,
    pub spaces: Items<Space>,
    pub operations: Items<Operation>,
}

use crate::description::OperandKind;
use qc_terms::{Order, Rtl};
use qc_text::Text;
use qc_words::Width;
use sqlite_items::Items;

/// The facts of a machine that its text gives, each where the text has it. A pair names a cell by its space's number and
/// its index, and `allocatable` is a space with its first and its last cell that a compiler may use. Sizes and alignment
/// are in bytes.
#[derive(Clone, Copy, Debug, PartialEq, Eq)]
pub struct Given {
    pub word: Option<Width>,
    pub order: Option<Order>,
    pub align: Option<u64>,
    pub slot_bits: Option<u64>,
    pub frame: Option<(u32, u32)>,
    pub link: Option<(u32, u32)>,
    pub zero: Option<(u32, u32)>,
    pub allocatable: Option<(u32, u32, u32)>,
    pub memory: Option<u64>,
    pub code_end: Option<u64>,
    pub data_end: Option<u64>,
}

/// What an instruction does: its operands by name, and its register transfer list.
#[derive(Debug, Drop)]
pub struct Operation {
    pub name: Text,
    pub operands: Items<(Text, OperandKind)>,
    pub rtl: Rtl,
}

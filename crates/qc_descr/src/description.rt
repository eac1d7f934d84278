use crate::coding::Coding;
use qc_terms::{Facts, Rtl};
use qc_text::Text;
use qc_words::Width;
use smallvec::SmallVec;
use sqlite_items::Items;

/// What an operand is: the number of a register of a space, an immediate number, or an address of code, which is a word
/// of the machine.
#[derive(Clone, Copy, Debug, PartialEq, Eq)]
pub enum OperandKind {
    Register { space: u32 },
    Imm { width: Width },
    Addr,
}

/// A space of cells. The cells of a space of flags have one bit and are not allocated.
#[derive(Debug, Drop)]
pub struct Space {
    pub name: Text,
    pub cells: u32,
    pub width: Width,
    pub flags: bool,
}

/// An instruction: its operands by name, what it does, and how it is encoded.
#[derive(Debug, Drop)]
pub struct Instruction {
    pub name: Text,
    pub operands: Items<(Text, OperandKind)>,
    pub rtl: Rtl,
    pub coding: Coding,
}

/// A machine. A pair names a cell by its space's number and its index. `allocatable` is a space, of which a compiler
/// may use the cells from `first` to `last`.
///
/// The memory's `memory` bytes have three parts: code below `code_end`, then data below `data_end`, and then the stack.
/// `align` is in bytes, and `slot_bits` is the width of a frame offset in bits.
#[derive(Debug, Drop)]
pub struct Description {
    pub name: Text,
    pub facts: Facts,
    pub spaces: Items<Space>,
    pub align: u64,
    pub slot_bits: u8,
    pub frame: (u32, u32),
    pub link: (u32, u32),
    pub first: u32,
    pub last: u32,
    pub allocatable: u32,
    pub memory: u64,
    pub code_end: u64,
    pub data_end: u64,
    pub instructions: Items<Instruction>,
}

/// The operands of an instance, in order. Up to eight stand inline.
pub type Operands = SmallVec<u64, 8>;

/// An instruction, by its number in the description, with its operands: numbers of registers, immediates and addresses.
#[derive(Debug, Drop)]
pub struct Instance {
    pub instruction: u32,
    pub operands: Operands,
}

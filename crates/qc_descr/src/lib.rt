//! Descriptions of machines: what each instruction does, and which bits encode it.
//!
//! The encodings are those of Ramsey and Fernandez, "Specifying representations of machine instructions",
//! TOPLAS 1997.
#![tactic(auto)]

mod coding;
mod coding_bytes;
mod coding_faults;
mod description;
mod faults;
mod laws;
mod layout;
mod making;
mod overlaps;
mod parts;
mod sketch;

pub use coding::{Bit, Coding, Reach};
pub use coding_bytes::{byte_value, coding_size, memory_byte};
pub use coding_faults::{operand_size, operand_sizes, pieces_among};
pub use description::{Description, Instance, Instruction, OperandKind, Operands, Space};
pub use faults::{DescrEnd, DescrFault, Part};
pub use laws::{
    descriptions_are_valid, example_of_branch, one_instance, one_outcome, one_run,
    operands_have_one_place, pieces_stand, some_outcome, some_run, step_tells_ending,
    valid_parts_have_no_fault,
};
pub use parts::{Given, Operation};
pub use sketch::{Claim, Parts, Sketch};

//! What a machine's text declares before any function: the width of its words, its spaces and their cells; which of its
//! numbers are widths, the operators that have names, and the faults that are told of a text.
#![tactic(auto)]

mod facts;
mod faults;
mod numbers;
mod operators;
mod spaces;

pub use facts::{Facts, Local, OperandFacts, SpaceFacts, Target};
pub use faults::{WidthEnd, WidthFault};
pub use numbers::{access_fault, access_width, clash, literal_fault, width_fault, width_in};
pub use operators::{operands_of, operator_named, operator_names};

//! Programs of constants: their texts, and their code for machines that have the instructions for it.
//!
//! They stand for the language and for the tables of a machine as long as `compile` has neither. Nothing else is to stand on
//! this crate, which goes away then.
#![tactic(auto)]

mod code;
mod instructions;
mod laws;
mod numeral;
mod program;
mod reader;

pub use code::compile;
pub use instructions::has_constants;
pub use laws::{example_of_seven, images_agree, one_decoding, one_program, run_of_seven};
pub use program::ConstantProgram;
pub use reader::read_program;

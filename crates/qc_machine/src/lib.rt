//! Machines that run images, and the files of their input.
#![tactic(auto)]

mod cache;
mod input_file;
mod laws;
mod machine;

pub use cache::DecodeCache;
pub use input_file::{InputEnd, read_input};
pub use laws::{input_is_not_bad, one_bad_input, one_input};
pub use machine::Machine;

//! The check of derivations: whether one is valid for a tile on a machine, and the sequence of instructions that it is.
#![tactic(auto)]

mod checked;
mod height;
mod laws;
mod walk;

pub use checked::{CheckEnd, Checked, check, check_within};
pub use laws::derivations_without_fault_are_valid;

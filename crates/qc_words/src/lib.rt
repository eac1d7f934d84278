//! Words of 1 to 64 bits and the operators on them.
#![tactic(auto)]

pub mod laws;
mod operator;
mod width;

pub use operator::{Op, accepts, apply, result_width};
pub use width::Width;

//! The sequence of a derivation: its instructions in order, with slots for their operands.
#![tactic(auto)]

mod homes;
mod lines;
mod sequence;

pub use sequence::sequence_of;

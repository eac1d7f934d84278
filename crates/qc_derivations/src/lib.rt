//! Derivations: how a tile is made from a machine's instructions, with what it means that one is valid.
//!
//! A derivation is a tree of instructions, each with laws that rewrite what it is to compute until its own register
//! transfer list matches, as in Dias and Ramsey, "Automatically generating instruction selectors using declarative machine
//! descriptions", POPL 2010.
#![tactic(auto)]

mod derivation;
mod laws;

pub use derivation::{Binding, Bounds, Derivation, Leaf};
pub use laws::examples_are_worked;

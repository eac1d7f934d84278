//! Terms in a region of their own: each term is there once, and has a number.
#![tactic(auto)]

mod node;
mod region;

pub use node::{Mark, Node, TermId};
pub use region::Pool;

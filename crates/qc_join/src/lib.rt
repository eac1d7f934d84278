//! Descriptions from a machine and the text of its coding: patterns are expanded, and each instruction gets the coding of
//! its constructor.
//!
//! The texts are after SLED (Ramsey and Fernandez, "Specifying representations of machine instructions", TOPLAS 1997).
#![tactic(auto)]

mod alternative;
mod constructors;
mod expand;
mod expanded;
mod faults;
mod fields;
mod joining;
mod laws;
mod name_faults;
mod names;
mod patterns;
mod scope;
mod seen;
mod sketches;
mod values;

pub use faults::{JoinEnd, JoinFault};
pub use joining::join;

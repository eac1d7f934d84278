//! Laws of lists and powers that are of no subject of this compiler, and that several crates cite.
//!
//! It has no code: what it gives stands in `specs/Law`. Laws of booleans and options are the standard library's.
#![tactic(auto)]

//! Rows by hand for the rules of C-- programs: which fault is told of a procedure.
//!
//! This crate has no code beside its tests.
#![tactic(auto)]

#[cfg(test)]
mod procedures;
#[cfg(test)]
mod widths;

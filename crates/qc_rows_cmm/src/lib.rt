//! Rows by hand for C-- programs: their trees, their faults, and what is printed for them.
//!
//! Each module walks over tables with public calls of the crates below. This crate has no code beside its tests.
#![tactic(auto)]

#[cfg(test)]
mod faults;
#[cfg(test)]
mod outline;
#[cfg(test)]
mod programs;
#[cfg(test)]
mod trees;

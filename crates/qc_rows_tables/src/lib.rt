//! Rows by hand for texts of tables: their trees, their faults, and what is printed for them.
//!
//! Each module walks over tables with public calls of the crates below. This crate has no code beside its tests.
#![tactic(auto)]

#[cfg(test)]
mod faults;
#[cfg(test)]
mod names;
#[cfg(test)]
mod outline;
#[cfg(test)]
mod printed;
#[cfg(test)]
mod trees;

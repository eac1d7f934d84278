//! Rows of elaboration: texts of machines and of codings, and what `elaborate` and `join` answer to them. A crate of its
//! own has them, so that the crates below are proved once and not a second time with their tests.
#![tactic(auto)]

#[cfg(test)]
mod coding_names;
#[cfg(test)]
mod codings;
#[cfg(test)]
mod descriptions;
#[cfg(test)]
mod layouts;
#[cfg(test)]
mod machines;
#[cfg(test)]
mod name_tables;
#[cfg(test)]
mod overlaps;
#[cfg(test)]
mod risc_v;
#[cfg(test)]
mod width_faults;

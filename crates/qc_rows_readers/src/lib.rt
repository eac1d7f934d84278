//! Rows by hand for tokens, grammars, and the texts of machines, codings and the sample language.
//!
//! Each module walks over tables with public calls of the crates below. This crate has no code beside its tests.
#![tactic(auto)]

#[cfg(test)]
mod blocks;
#[cfg(test)]
mod coding_texts;
#[cfg(test)]
mod grammars;
#[cfg(test)]
mod machine_texts;
#[cfg(test)]
mod pieces;
#[cfg(test)]
mod sample;
#[cfg(test)]
mod tokens;

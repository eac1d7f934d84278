//! Rows by hand for words, commands, codings, files of images and inputs, and the shelf and the output in memory.
//!
//! Each module walks over tables with public calls of the crates below. This crate has no code beside its tests.
#![tactic(auto)]

#[cfg(test)]
mod codings;
#[cfg(test)]
mod commands;
#[cfg(test)]
mod constants;
#[cfg(test)]
mod images;
#[cfg(test)]
mod inputs;
#[cfg(test)]
mod outside;
#[cfg(test)]
mod shipped;
#[cfg(test)]
mod words;

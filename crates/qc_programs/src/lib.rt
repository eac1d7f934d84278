//! What typed programs do: their expressions and statements with names as numbers, the states of a run, and its steps.
//!
//! A state has the list of the statements that are still to do, as in the small-step semantics of Cminor (Leroy, JAR 2009),
//! but flat: a block is put before the rest when it is entered, and a `goto` goes on with the body from its label.
#![tactic(auto)]

mod laws;

pub use laws::{ended_runs_stay, procedures_have_bodies, runs_are_worked, runs_show_more};

//! Register transfer lists of one instance in a form that runs fast: operators in a row, with the instance's operands,
//! all widths and all cells filled in.
#![tactic(auto)]

mod chain;
mod effect;
mod flattening;
mod run;
mod terms;
mod words;

pub use chain::{Chain, Link, Source};
pub use effect::{FlatDest, FlatEffect, FlatEffects};
pub use flattening::flatten;
pub use run::run_flat;

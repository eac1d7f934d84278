//! The names of a machine's text resolved once: expressions, effects and what is declared as trees without names.
#![tactic(auto)]

mod bodies;
mod effect;
mod expression;
mod laws;
mod standing;

pub use bodies::{Context, ResolvedActs, ResolvedBody, bodies_of, instruction_acts};
pub use laws::two_passes;
pub use standing::Own;

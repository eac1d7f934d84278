//! Whether two register transfer lists, instructions or descriptions are equal in every part.
//!
//! `compile` compares its description with that of tin32 by these, as long as it has no tables of its own. Nothing else is to
//! stand on this crate, which goes away then.
#![tactic(auto)]

mod description;
mod equal;
mod term;

pub use description::{same_description, same_instruction};
pub use term::same_rtl;

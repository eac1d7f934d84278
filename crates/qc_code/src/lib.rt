//! Code that a compiler makes: templates, which are sequences of instructions that do what tiles do.
//!
//! Tiles, and sequences of a machine's instructions that do what they do, are those of Dias and Ramsey, "Automatically
//! generating instruction selectors using declarative machine descriptions", POPL 2010.
#![tactic(auto)]

mod laws;
mod template;
mod templates;

pub use laws::{examples_of_broken_templates, examples_of_templates, one_line_holds};
pub use template::{Slot, Template};
pub use templates::{NoMemory, Templates};

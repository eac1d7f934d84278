//! Machines from their texts: names are resolved, named functions are replaced by their bodies, and widths are found.
//!
//! The texts are after lambda-RTL (Ramsey and Davidson, "Machine descriptions to build tools for embedded systems",
//! LCTES 1998).
#![tactic(auto)]

mod acts;
mod bodies;
mod context;
mod elaboration;
mod evaluate;
mod gather;
mod given;
mod items;
mod limits;
mod machine;
mod nodes;
mod operations;
mod progress;
mod repeated;
mod scope;
mod terms;
mod value;

pub use elaboration::elaborate;
pub use machine::Machine;
pub use qc_facts::{WidthEnd, WidthFault};

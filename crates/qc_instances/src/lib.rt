//! What functions that get functions come to: each of them is made once for each tuple of functions that it gets.
#![tactic(auto)]

mod closing;
mod instance;
mod instances;
mod table;

pub use instance::{Declared, Instance, Site};
pub use instances::Instances;
pub use table::Table;

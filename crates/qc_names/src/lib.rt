//! Names of texts: tables in which they have numbers, what they stand for, those that are declared twice, and which of
//! several faults is reported. The faults are of the caller's own type.
#![tactic(auto)]

mod declared;
mod fault;
pub mod laws;
mod name_table;
mod seen;

pub use declared::Declared;
pub use fault::{TokenFault, earlier, known_or};
pub use name_table::NameTable;
pub use seen::Seen;

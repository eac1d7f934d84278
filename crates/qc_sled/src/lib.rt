//! Coding texts: their trees, the reader, and the printer.
#![tactic(auto)]

mod fields;
mod items;
mod laws;
mod params;
mod patterns;
mod reader;
mod syntax;
mod writer;

pub use laws::same_trees_have_the_same_words;
pub use reader::read_sled;
pub use syntax::{Field, Item, Param, Pattern, RawCoding, Reach, Value};
pub use writer::write_sled;

//! Texts of tables, which say for each tile of a machine by which instructions its work is done: their trees, the reader
//! and the printer.
#![tactic(auto)]

mod bindings;
mod derivation_writer;
mod entries;
mod expression_writer;
mod expressions;
mod heads;
mod laws;
mod reader;
mod steps;
mod syntax;
mod words;
mod writer;

pub use laws::{is_written_so, same_trees_have_the_same_words};
pub use reader::read_table_text;
pub use syntax::{RawBinding, RawDerivation, RawStep, RawTables, StepPlace, TileEntry, Version};
pub use writer::write_table_text;

//! A small language, read and written by its grammar. It is the example of a reader and a printer.
#![tactic(auto)]

mod block_writer;
mod blocks;
mod expressions;
mod laws;
mod reader;
mod syntax;
mod writer;

pub use block_writer::write_block;
pub use blocks::{Assignment, Block, Declaration, read_block};
pub use laws::{same_blocks_have_the_same_words, same_trees_have_the_same_words};
pub use reader::read_sample;
pub use syntax::{Expr, Program, Statement};
pub use writer::write_sample;

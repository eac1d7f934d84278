//! Machine texts in the manner of lambda-RTL (Ramsey and Davidson, "Machine descriptions to build tools for embedded
//! systems", LCTES 1998): their trees, the reader and the printer.
#![tactic(auto)]

mod effect_writer;
mod effects;
mod expressions;
mod items;
mod laws;
mod params;
mod reader;
mod syntax;
mod writer;

pub use laws::same_trees_have_the_same_words;
pub use reader::read_lrtl;
pub use syntax::{
    ByteOrder, Effect, Expr, Guard, Item, Operand, OperandKind, Param, RawMachine, Simple,
};
pub use writer::write_lrtl;

//! C-- programs: their syntax tree, its reader and its printer.
#![tactic(auto)]

mod expression_writer;
mod expressions;
mod laws;
mod parts;
mod procedures;
mod reader;
mod statement_writer;
mod statements;
mod syntax;
mod words;
mod writer;

pub use laws::{is_written_so, same_trees_have_the_same_words};
pub use parts::{begins_part, read_part};
pub use reader::{read_cmm, read_target};
pub use syntax::{
    BodyItem, ByteOrder, Datum, Declaration, Expr, Literal, Param, Part, Procedure, Program,
    Source, Statement, Target, WordType,
};
pub use writer::{write_cmm, write_target};

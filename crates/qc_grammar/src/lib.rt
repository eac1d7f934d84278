//! Grammars, and how a reader goes through the tokens of a text by a grammar.
//!
//! A reader is predictive: the next token tells which phrase comes (LL(1); Lewis and Stearns, "Syntax-directed
//! transduction", JACM 1968).
#![tactic(auto)]

mod answers;
mod brackets;
mod classes;
mod cursor;
mod laws;
mod lists;
mod printer;

pub use answers::{ReadTextEnd, ReadTextFault, answer, scan};
pub use brackets::{begin, settle};
pub use classes::{ClassedToken, Vocabulary, is_reserved};
pub use cursor::{Cursor, Ident, Number, ReadError, Stop};
pub use laws::printed_tokens_are_tokens;
pub use lists::{
    Beginning, ItemOrLast, Phrase, UntilLast, read_many, read_many_by, read_others, read_others_by,
    read_separated, read_separated_by, read_until_last,
};
pub use printer::{Printed, put, put_number, write_many, write_separated};

//! Texts: their bytes, their tokens, and the numbers that numerals stand for.
#![tactic(auto)]

mod laws;
mod number;
mod piece;
mod run;
mod scanner;
mod text;
mod token;

pub use laws::{
    one_bad_byte, one_end, one_token_list, spans_in_order, texts_of_their_kinds, words_are_tokens,
};
pub use number::number_value;
pub use scanner::{TextEnd, tokens};
pub use text::{NoMemory, Text};
pub use token::{Kind, Token, text_of};

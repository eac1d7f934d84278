//! The words of a machine's input, from a file.
ghost use Rattle.std.specs.Prelude.{◌≡◌, ◌<◌, ◌≤◌, ◌^◌, All, IfErr, IfNone, IfOk, IfSome, length};
ghost use Rattle.qc_text.specs.Pieces.{AreTokens};
ghost use Rattle.qc_machine.specs.InputFile.{IsInput, IsInputRefused, IsWordToken};
ghost use Rattle.qc_machine.specs.InputFile.{number_in as number_of_token};

use qc_text::{Kind, TextEnd, Token, number_value, one_end, spans_in_order, text_of, tokens};
use qc_words::Width;
use std::alloc::Global;

/// Why a file is none of an input.
#[derive(Clone, Copy, Debug, PartialEq, Eq)]
pub enum InputEnd {
    /// The byte at `at` begins no token, or the first token that is no word of the machine.
    BadInput {
        /// The number of bytes before it.
        at: usize,
    },
    /// Memory ran out.
    NoMemory,
}

/// The number of a token that is a word of this width.
fn word_in(bytes: &[u8], token: &Token, word: Width) -> Option<u64>
    requires order { token.now.start ≤ token.now.end }
    requires inside { token.now.end ≤ length bytes.now }
    ensures some { IfSome result (λ number.
        (number ≡ number_of_token bytes.now token.now) × IsWordToken word bytes.now token.now) }
    ensures none { IfNone result (IsWordToken word bytes.now token.now → ⊥) }
{
    if token.kind != Kind::Number {
        return None;
    }
    let number = number_value(text_of(bytes, token));
    if number < 1u128 << word.bits() {
        Some(number as u64)
    } else {
        None
    }
}

/// The words of a file that has these tokens.
fn words_in(
    alloc: Global,
    bytes: &[u8],
    tokens: &[Token],
    word: Width,
) -> Result<Vec<u64>, InputEnd>
    requires { AreTokens bytes.now tokens.now }
    ensures input { IfOk result (λ words. IsInput word bytes.now words.items) }
    ensures words { IfOk result (λ words. All (λ number. number < 2 ^ word) words.items) }
    ensures bad { IfErr result (IsInputRefused word bytes.now) }
{
    spans_in_order();
    one_end();
    let mut words = Vec::new(alloc);
    let Some((_, front)) = tokens.split_last() else {
        unreachable!()
    };
    for token in front {
        let Some(number) = word_in(bytes, token, word) else {
            return Err(InputEnd::BadInput { at: token.start });
        };
        match words.push(number) {
            Ok(()) => {}
            Err(_) => return Err(InputEnd::NoMemory),
        }
    }
    Ok(words)
}

/// The words of an input's file, for a machine of words of this width.
///
/// # Errors
///
/// The first byte that begins no token, or the first token that is no word, or want of memory.
pub fn read_input(alloc: Global, bytes: &[u8], word: Width) -> Result<Vec<u64>, InputEnd>
    ensures input { IfOk result (λ words. IsInput word bytes.now words.items) }
    ensures words { IfOk result (λ words. All (λ number. number < 2 ^ word) words.items) }
    ensures bad { IfErr result (IsInputRefused word bytes.now) }
{
    match tokens(alloc, bytes) {
        Ok(tokens) => words_in(alloc, bytes, tokens.as_slice(), word),
        Err(TextEnd::BadByte { at }) => Err(InputEnd::BadInput { at }),
        Err(TextEnd::NoMemory) => Err(InputEnd::NoMemory),
    }
}

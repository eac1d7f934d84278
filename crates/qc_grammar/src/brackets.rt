//! The limit on open brackets, which stands outside the grammars.
ghost use Rattle.std.specs.Prelude.{◌≡◌, ◌<◌, ◌≤◌, length, IfSome};
ghost use Rattle.qc_grammar.specs.Lexeme.{lexemes_from};
ghost use Rattle.qc_grammar.specs.TokenSpans.{InSource};
ghost use Rattle.qc_grammar.specs.Brackets.{first_too_deep as first_deep, next_open};
ghost use Rattle.qc_grammar.specs.Answer.{cut as front_of, settled};

use crate::classes::ClassedToken;
use crate::cursor::{Cursor, ReadError, Stop};

const MOST_OPEN: usize = 200;

/// How many brackets are open after the next token.
fn opened(cursor: &Cursor<'_>, before: usize) -> usize
    requires few { before ≤ 200 }
    requires more { 0 < length cursor.now }
    ensures { result ≡ next_open before cursor.now }
{
    if cursor.opens() {
        before + 1
    } else if cursor.closes() {
        before.saturating_sub(1)
    } else {
        before
    }
}

/// The number of the first bracket with which more than 200 would be open.
fn first_too_deep(source: &[u8], tokens: &[ClassedToken]) -> Option<usize>
    requires { InSource (length source.now) tokens.now }
    ensures { result ≡ first_deep 0 (lexemes_from source.now 0 tokens.now) }
{
    let mut cursor = Cursor::new(source, tokens);
    let mut open = 0;
    let mut number = 0;
    while cursor.left() > 0 {
        open = opened(&cursor, open);
        if open > MOST_OPEN {
            return Some(number);
        }
        let _ = cursor.take();
        number += 1;
    }
    None
}

/// The tokens up to and with the one of this number.
fn front(tokens: &[ClassedToken], last: Option<usize>) -> &[ClassedToken]
    requires { IfSome last (λ k. k < length tokens.now) }
    ensures { result.now ≡ front_of last tokens.now }
{
    match last {
        None => tokens,
        Some(last) => &tokens[..last + 1],
    }
}

/// A reader's place at the first token, with the tokens up to and with the first bracket that is too deep, and the
/// number of that bracket.
pub fn begin<'a>(source: &'a [u8], tokens: &'a [ClassedToken]) -> (Cursor<'a>, Option<usize>)
    requires { InSource (length source.now) tokens.now }
    ensures deep { result.1 ≡ first_deep 0 (lexemes_from source.now 0 tokens.now) }
    ensures given { result.0 ≡ front_of result.1 (lexemes_from source.now 0 tokens.now) }
{
    let deep = first_too_deep(source, tokens);
    let given = front(tokens, deep);
    (Cursor::new(source, given), deep)
}

/// The answer of a reader, which was given so many tokens, with `deep` as the last, if there is one, and left so many.
pub fn settle<T: Drop>(
    read: Result<T, Stop>,
    deep: Option<usize>,
    given: usize,
    left: usize,
) -> Result<T, ReadError>
    ensures { result ≡ settled read deep given left }
{
    match read {
        Ok(tree) => {
            if left > 0 {
                Err(ReadError::Syntax {
                    token: given.saturating_sub(left),
                })
            } else {
                match deep {
                    None => Ok(tree),
                    Some(token) => Err(ReadError::TooDeep { token }),
                }
            }
        }
        Err(Stop::At(left)) => match deep {
            Some(token) if left == 0 => Err(ReadError::TooDeep { token }),
            _ => Err(ReadError::Syntax {
                token: given.saturating_sub(left),
            }),
        },
        Err(Stop::NoMemory) => Err(ReadError::NoMemory),
    }
}

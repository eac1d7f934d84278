//! The piece at the front of some bytes: a token, a comment or a blank.
ghost use Rattle.std.specs.Prelude.{◌≡◌, ◌≢◌, ◌+◌, ◌<◌, ◌≤◌, ◌∷◌, ℕ, true, length, slice_index, IfSome, IsNone, IsTrue};
ghost use Rattle.std.specs.Char.{is_ascii_digit};
ghost use Rattle.qc_text.specs.Tokens as spec;
ghost use Rattle.qc_text.specs.Inner.Scanning as answers;
ghost use Rattle.qc_text.specs.Inner.Scanning.{IsFront};

use crate::run::{Class, is_name_start, run_length};
use crate::token::Kind;

/// The kind of token that a piece is, if it is one, and the number of its bytes.
#[derive(Clone, Copy)]
pub(crate) struct Front {
    pub(crate) kind: Option<Kind>,
    pub(crate) length: usize,
}

const SLASH: Front = Front {
    kind: Some(Kind::Punct),
    length: 1,
};

const PUNCTUATION: &[u8] = b"()[]{},;:=|&/.'-@";

fn is_blank(byte: u8) -> bool
    ensures { result ≡ spec.is_blank byte }
{
    byte == b' ' || byte == b'\t' || byte == b'\r' || byte == b'\n'
}

fn is_punctuation(byte: u8) -> bool
    ensures { result ≡ spec.is_punctuation byte }
{
    PUNCTUATION.contains(&byte)
}

fn is_pair(first: u8, second: u8) -> bool
    ensures { result ≡ answers.is_pair first second }
{
    matches!((first, second), (b':', b'=') | (b'=', b'>') | (b'.', b'.'))
}

/// Whether the byte and the one behind it are punctuation of two characters.
fn begins_pair(first: u8, rest: &[u8]) -> bool
    ensures { result ≡ answers.begins_pair first rest.now }
{
    match rest.split_first() {
        Some((second, _)) => is_pair(first, *second),
        None => false,
    }
}

/// A name, behind its first byte.
fn name(first: u8, rest: &[u8]) -> Option<Front>
    requires { spec.is_name_start first ≡ true }
    ensures { IsFront (first ∷ rest.now) result }
{
    let length = 1 + run_length(rest, Class::NamePart);
    Some(Front {
        kind: Some(Kind::Name),
        length,
    })
}

/// How many digits follow the `0x` at the front, if there is one.
fn hexadecimal_run(first: u8, rest: &[u8]) -> usize
    ensures value { result ≡ answers.hexadecimal_run first rest.now }
    ensures within { result ≤ length rest.now }
{
    match rest {
        [b'x', digits @ ..] if first == b'0' => run_length(digits, Class::Hexadecimal),
        _ => 0,
    }
}

/// A number, behind its first digit.
fn number(first: u8, rest: &[u8]) -> Option<Front>
    requires { is_ascii_digit first ≡ true }
    ensures { IsFront (first ∷ rest.now) result }
{
    let hexadecimal = hexadecimal_run(first, rest);
    if hexadecimal == 0 {
        let length = 1 + run_length(rest, Class::Decimal);
        return Some(Front {
            kind: Some(Kind::Number),
            length,
        });
    }
    Some(Front {
        kind: Some(Kind::Number),
        length: 2 + hexadecimal,
    })
}

/// A prim, behind its percent sign.
fn prim(rest: &[u8]) -> Option<Front>
    ensures { IsFront (37 ∷ rest.now) result }
{
    let (first, more) = rest.split_first()?;
    if !is_name_start(*first) {
        return None;
    }
    let length = 2 + run_length(more, Class::NamePart);
    Some(Front {
        kind: Some(Kind::Prim),
        length,
    })
}

/// A string, behind its first quote.
fn string(rest: &[u8]) -> Option<Front>
    ensures { IsFront (34 ∷ rest.now) result }
{
    let inner = run_length(rest, Class::StringByte);
    if inner < rest.len() && rest[inner] == b'"' {
        Some(Front {
            kind: Some(Kind::Str),
            length: 2 + inner,
        })
    } else {
        None
    }
}

/// Where the first `*/` stands.
fn close(bytes: &[u8]) -> Option<usize>
    ensures inside { IfSome result (λ at. at + 1 < length bytes.now) }
    ensures star { IfSome result (λ at. slice_index bytes.now at ≡ 42) }
    ensures slash { IfSome result (λ at. slice_index bytes.now (at + 1) ≡ 47) }
    ensures first { IfSome result (λ at. (k : ℕ) → k < at → slice_index bytes.now k ≡ 42
        → slice_index bytes.now (k + 1) ≢ 47) }
    ensures none { IsNone result → (k : ℕ) → k + 1 < length bytes.now → slice_index bytes.now k ≡ 42
        → slice_index bytes.now (k + 1) ≢ 47 }
{
    let mut at = 1;
    while at < bytes.len() {
        if bytes[at - 1] == b'*' && bytes[at] == b'/' {
            return Some(at - 1);
        }
        at += 1;
    }
    None
}

/// A comment of one line, behind its two slashes.
fn line_comment(line: &[u8]) -> Option<Front>
    ensures { IsFront (47 ∷ 47 ∷ line.now) result }
{
    let length = 2 + run_length(line, Class::LineByte);
    Some(Front { kind: None, length })
}

/// A comment, behind its slash and star.
fn block_comment(inner: &[u8]) -> Option<Front>
    ensures { IsFront (47 ∷ 42 ∷ inner.now) result }
{
    match close(inner) {
        Some(at) => Some(Front {
            kind: None,
            length: 4 + at,
        }),
        None => None,
    }
}

/// A comment, or the punctuation, behind its slash.
fn slash(rest: &[u8]) -> Option<Front>
    ensures { IsFront (47 ∷ rest.now) result }
{
    let Some((second, more)) = rest.split_first() else {
        return Some(SLASH);
    };
    match second {
        b'/' => line_comment(more),
        b'*' => block_comment(more),
        _ => Some(SLASH),
    }
}

/// Punctuation other than the slash, behind its first byte.
fn punctuation(first: u8, rest: &[u8]) -> Option<Front>
    requires some { spec.is_punctuation first ≡ true }
    requires other { first ≢ 47 }
    ensures { IsFront (first ∷ rest.now) result }
{
    let length = if begins_pair(first, rest) { 2 } else { 1 };
    Some(Front {
        kind: Some(Kind::Punct),
        length,
    })
}

/// The piece at the front of a byte and the rest.
fn front_behind(first: u8, rest: &[u8]) -> Option<Front>
    ensures { IsFront (first ∷ rest.now) result }
{
    if is_name_start(first) {
        name(first, rest)
    } else if first.is_ascii_digit() {
        number(first, rest)
    } else if first == b'%' {
        prim(rest)
    } else if first == b'"' {
        string(rest)
    } else if first == b'/' {
        slash(rest)
    } else if is_blank(first) {
        Some(Front {
            kind: None,
            length: 1,
        })
    } else if is_punctuation(first) {
        punctuation(first, rest)
    } else {
        None
    }
}

/// The piece at the front.
pub(crate) fn first_piece(bytes: &[u8]) -> Option<Front>
    ensures { IsFront bytes.now result }
{
    let (first, rest) = bytes.split_first()?;
    front_behind(*first, rest)
}

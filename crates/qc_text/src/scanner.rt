//! The tokens of a file.
ghost use Rattle.std.specs.Prelude.{◌≡◌, ◌++◌, MatchResult, OnOk};
ghost use Rattle.qc_text.specs.Pieces.{AreTokens, IsCause, token_at};

use crate::piece::first_piece;
use crate::text::NoMemory;
use crate::token::{Kind, Token};
use std::alloc::Global;

/// Why a file has no tokens.
#[derive(Clone, Copy, Debug, PartialEq, Eq)]
pub enum TextEnd {
    /// The byte at `at` begins no token, comment or blank, and all before it are whole ones.
    BadByte {
        /// The number of bytes before it.
        at: usize,
    },
    /// Memory ran out.
    NoMemory,
}

/// Adds the token of a kind that stands at a place, if the kind is one.
fn push_token(
    found: &mut Vec<Token>,
    start: usize,
    kind: Option<Kind>,
    end: usize,
) -> Result<(), NoMemory>
    ensures { OnOk result (found.new.items ≡ found.old.items ++ token_at start kind end) }
{
    match kind {
        Some(kind) => Ok(found.push(Token { kind, start, end })?),
        None => Ok(()),
    }
}

/// The tokens of a file, in order, and then its end.
pub fn tokens(alloc: Global, bytes: &[u8]) -> Result<Vec<Token>, TextEnd>
    ensures { MatchResult result (λ found. AreTokens bytes.now found.items) (IsCause bytes.now) }
{
    let mut found = Vec::new(alloc);
    let mut at = 0;
    let mut rest = bytes;
    while let Some(piece) = first_piece(rest) {
        let end = at + piece.length;
        match push_token(&mut found, at, piece.kind, end) {
            Ok(()) => {}
            Err(_) => return Err(TextEnd::NoMemory),
        }
        at = end;
        rest = rest.split_at(piece.length).1;
    }
    if !rest.is_empty() {
        return Err(TextEnd::BadByte { at });
    }
    match push_token(&mut found, at, Some(Kind::End), at) {
        Ok(()) => Ok(found),
        Err(_) => Err(TextEnd::NoMemory),
    }
}

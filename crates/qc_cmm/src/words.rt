//! The words of C-- programs.
ghost use Rattle.std.specs.Prelude.{◌≡◌};
ghost use Rattle.qc_cmm.specs.Vocabulary.{is_reserved_prim as is_reserved_so};

use qc_grammar::{Vocabulary, is_reserved};
use qc_text::{Kind, Token};

const RESERVED: [&[u8]; 14] = [
    b"target",
    b"byteorder",
    b"little",
    b"big",
    b"wordsize",
    b"section",
    b"bits8",
    b"bits16",
    b"bits32",
    b"bits64",
    b"goto",
    b"return",
    b"if",
    b"else",
];

const PRIMS: [&[u8]; 2] = [b"%in", b"%out"];

fn is_reserved_prim(kind: Kind, text: &[u8]) -> bool
    ensures { result ≡ is_reserved_so kind text.now }
{
    match kind {
        Kind::Prim => PRIMS.contains(&text),
        Kind::Name | Kind::Number | Kind::Str | Kind::Punct | Kind::End => false,
    }
}

/// Which tokens are words of C-- programs.
pub(crate) struct CmmWords;

impl Vocabulary for CmmWords {
    ghost use Rattle.qc_cmm.specs.Vocabulary.{vocabulary as words};

    ghost vocabulary = { words };

    fn is_word(_source: &[u8], _before: &[Token], kind: Kind, text: &[u8]) -> bool {
        is_reserved_prim(kind, text) || is_reserved(&RESERVED, kind, text)
    }
}

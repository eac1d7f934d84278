//! The words of texts of tables.
ghost use Rattle.std.specs.Prelude.{◌≡◌, length};
ghost use Rattle.std.specs.List.{list_any};
ghost use Rattle.std.specs.Str.{bytes_eq};
ghost use Rattle.qc_text.specs.Tokens.{token_text};
ghost use Rattle.qc_text.specs.PrintedWords.{words_in};
ghost use Rattle.qc_tabletext.specs.Vocabulary.{reserved, introduces as introduces_so, is_introduced as introduced};
ghost use Rattle.qc_tabletext.specs.Vocabulary.{last_two, is_bound_word as bound_word, is_front_number as front_number};

use qc_grammar::Vocabulary;
use qc_text::{Kind, Token};

const RESERVED: [&[u8]; 15] = [
    b"tables", b"tile", b"missing", b"e", b"own", b"par", b"cell", b"const", b"spare", b"after",
    b"input", b"mem", b"zx", b"sx", b"slice",
];

const INTRODUCING: [&[u8]; 3] = [b"tables", b"tile", b"cell"];

fn is_reserved(text: &[u8]) -> bool
    ensures { result ≡ list_any (λ word. bytes_eq word text.now) reserved }
{
    RESERVED.contains(&text)
}

/// A name comes after a token of this kind and this text, unless that is a name itself.
fn introduces(kind: Kind, text: &[u8]) -> bool
    ensures { result ≡ introduces_so kind text.now }
{
    match kind {
        Kind::Name => INTRODUCING.contains(&text),
        Kind::Prim | Kind::Number | Kind::Str | Kind::Punct | Kind::End => false,
    }
}

/// The text of a token, as much of it as the source has.
fn text_in<'a>(source: &'a [u8], token: &Token) -> &'a [u8]
    ensures { result.now ≡ token_text source.now token.now }
{
    let end = token.end.min(source.len());
    let start = token.start.min(end);
    &source[start..end]
}

fn token_introduces(source: &[u8], token: &Token) -> bool
    ensures { result ≡ introduces_so token.now.kind (token_text source.now token.now) }
{
    introduces(token.kind, text_in(source, token))
}

/// A name comes after these tokens, which are the last two, or all.
fn is_introduced_by(source: &[u8], tokens: &[Token]) -> bool
    ensures { result ≡ introduced (words_in source.now tokens.now) }
{
    match tokens.split_first() {
        None => false,
        Some((first, others)) => match others.split_first() {
            None => token_introduces(source, first),
            Some((second, _)) => {
                token_introduces(source, second) && !token_introduces(source, first)
            }
        },
    }
}

/// A name comes after these tokens.
fn is_introduced(source: &[u8], before: &[Token]) -> bool
    ensures { result ≡ introduced (last_two (words_in source.now before.now)) }
{
    is_introduced_by(source, &before[before.len().saturating_sub(2)..])
}

fn is_bound_word(before: usize, text: &[u8]) -> bool
    ensures { result ≡ bound_word before text.now }
{
    (before == 3 && text == b"height".as_slice()) || (before == 5 && text == b"laws".as_slice())
}

fn is_front_number(before: usize) -> bool
    ensures { result ≡ front_number before }
{
    before == 2 || before == 4 || before == 6
}

/// Which tokens are words or numbers of texts of tables.
pub(crate) struct TableWords;

impl Vocabulary for TableWords {
    ghost use Rattle.qc_tabletext.specs.Vocabulary.{vocabulary as words};

    ghost vocabulary = { words };

    fn is_word(source: &[u8], before: &[Token], kind: Kind, text: &[u8]) -> bool {
        match kind {
            Kind::Name => {
                (is_reserved(text) || is_bound_word(before.len(), text))
                    && !is_introduced(source, before)
            }
            Kind::Number => is_front_number(before.len()),
            Kind::Punct => true,
            Kind::Prim | Kind::Str | Kind::End => false,
        }
    }
}

//! The reader of whole texts.
ghost use Rattle.std.specs.Prelude.{◌≡◌, length};
ghost use Rattle.qc_grammar.specs.TokenSpans.{InSource, IsEnded};
ghost use Rattle.qc_grammar.specs.Lexeme.{lexemes_from};
ghost use Rattle.qc_grammar.specs.ReaderResult.{Gives};
ghost use Rattle.qc_grammar.specs.Reading.{reads};
ghost use Rattle.qc_grammar.specs.Grammar.{text};
ghost use Rattle.qc_grammar.specs.Answer.{Answers};
ghost use Rattle.qc_grammar.specs.TextAnswer.{AnswersText};
ghost use Rattle.qc_sled.specs.Sled.{sled, vocabulary, coding};

use crate::items::read_items;
use crate::syntax::RawCoding;
use qc_grammar::{
    ClassedToken, Cursor, ReadError, ReadTextEnd, Stop, Vocabulary, answer, begin, is_reserved,
    scan, settle,
};
use qc_text::{Kind, Token};
use std::alloc::Global;

const RESERVED: [&[u8]; 7] = [
    b"coding",
    b"fields",
    b"pattern",
    b"is",
    b"constructor",
    b"rel",
    b"abs",
];

/// Which tokens are words of coding texts.
struct SledWords;

impl Vocabulary for SledWords {
    ghost use Rattle.qc_sled.specs.Sled.{vocabulary as words};

    ghost vocabulary = { words };

    fn is_word(_source: &[u8], _before: &[Token], kind: Kind, text: &[u8]) -> bool {
        is_reserved(&RESERVED, kind, text)
    }
}

#[tactic(auto, unfolding(crate::specs::Sled::coding))]
fn read_coding(alloc: Global, cursor: &mut Cursor<'_>) -> Result<RawCoding, Stop>
    ensures { Gives result cursor.old cursor.new (reads sled coding) }
{
    cursor.word(b"coding")?;
    let name = cursor.ident(alloc, Kind::Name)?;
    let items = read_items(alloc, cursor)?;
    Ok(RawCoding { name, items })
}

fn read_whole(alloc: Global, cursor: &mut Cursor<'_>) -> Result<RawCoding, Stop>
    ensures { Gives result cursor.old cursor.new (reads sled (text coding)) }
{
    let coding = read_coding(alloc, cursor)?;
    cursor.end()?;
    Ok(coding)
}

/// The tree that the tokens of a source spell.
fn read_tokens(
    alloc: Global,
    source: &[u8],
    tokens: &[ClassedToken],
) -> Result<RawCoding, ReadError>
    requires inside { InSource (length source.now) tokens.now }
    requires ended { IsEnded tokens.now }
    ensures { Answers sled coding (lexemes_from source.now 0 tokens.now) result }
{
    let (mut cursor, deep) = begin(source, tokens);
    let given = cursor.left();
    let read = read_whole(alloc, &mut cursor);
    settle(read, deep, given, cursor.left())
}

/// The tree of a coding's text.
pub fn read_sled(alloc: Global, bytes: &[u8]) -> Result<RawCoding, ReadTextEnd>
    ensures { AnswersText sled coding vocabulary bytes.now result }
{
    match scan::<SledWords>(alloc, bytes) {
        Ok(tokens) => answer(read_tokens(alloc, bytes, tokens.as_slice())),
        Err(end) => Err(end),
    }
}

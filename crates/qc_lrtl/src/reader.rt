//! The reader of whole texts.
ghost use Rattle.std.specs.Prelude.{◌≡◌, length, IfOk};
ghost use Rattle.qc_grammar.specs.TokenSpans.{InSource, IsEnded};
ghost use Rattle.qc_grammar.specs.Lexeme.{lexemes_from};
ghost use Rattle.qc_grammar.specs.ReaderResult.{Gives};
ghost use Rattle.qc_grammar.specs.Reading.{reads};
ghost use Rattle.qc_grammar.specs.Grammar.{text};
ghost use Rattle.qc_grammar.specs.Answer.{Answers};
ghost use Rattle.qc_grammar.specs.TextAnswer.{AnswersText};
ghost use Rattle.qc_lrtl.specs.LambdaRtl.{lambda_rtl, vocabulary, machine};
ghost use Rattle.qc_lrtl.specs.Named.{AreNamed};

use crate::items::read_items;
use crate::syntax::RawMachine;
use qc_grammar::{
    ClassedToken, Cursor, ReadError, ReadTextEnd, Stop, Vocabulary, answer, begin, is_reserved,
    scan, settle,
};
use qc_text::{Kind, Token, texts_of_their_kinds};
use std::alloc::Global;

const RESERVED: [&[u8]; 34] = [
    b"machine",
    b"word",
    b"byteorder",
    b"little",
    b"big",
    b"align",
    b"slotbits",
    b"memory",
    b"code",
    b"data",
    b"space",
    b"cells",
    b"bits",
    b"flags",
    b"zero",
    b"frame",
    b"link",
    b"allocatable",
    b"fun",
    b"eff",
    b"instr",
    b"imm",
    b"addr",
    b"when",
    b"pc",
    b"out",
    b"halt",
    b"trap",
    b"mem",
    b"input",
    b"after",
    b"zx",
    b"sx",
    b"slice",
];

/// Which tokens are words of machine texts.
struct LambdaRtlWords;

impl Vocabulary for LambdaRtlWords {
    ghost use Rattle.qc_lrtl.specs.LambdaRtl.{vocabulary as words};

    ghost vocabulary = { words };

    fn is_word(_source: &[u8], _before: &[Token], kind: Kind, text: &[u8]) -> bool {
        is_reserved(&RESERVED, kind, text)
    }
}

#[tactic(auto, unfolding(crate::specs::LambdaRtl::machine))]
fn read_machine(alloc: Global, cursor: &mut Cursor<'_>) -> Result<RawMachine, Stop>
    ensures { Gives result cursor.old cursor.new (reads lambda_rtl machine) }
{
    cursor.word(b"machine")?;
    let name = cursor.ident(alloc, Kind::Name)?;
    cursor.word(b";")?;
    let items = read_items(alloc, cursor)?;
    Ok(RawMachine { name, items })
}

fn read_whole(alloc: Global, cursor: &mut Cursor<'_>) -> Result<RawMachine, Stop>
    ensures { Gives result cursor.old cursor.new (reads lambda_rtl (text machine)) }
{
    let machine = read_machine(alloc, cursor)?;
    cursor.end()?;
    Ok(machine)
}

/// The tree that the tokens of a source spell.
fn read_tokens(
    alloc: Global,
    source: &[u8],
    tokens: &[ClassedToken],
) -> Result<RawMachine, ReadError>
    requires inside { InSource (length source.now) tokens.now }
    requires ended { IsEnded tokens.now }
    ensures { Answers lambda_rtl machine (lexemes_from source.now 0 tokens.now) result }
{
    let (mut cursor, deep) = begin(source, tokens);
    let given = cursor.left();
    let read = read_whole(alloc, &mut cursor);
    settle(read, deep, given, cursor.left())
}

/// The tree of a machine's text, with numbers of tokens counted from 0. A text has at most 200 open brackets. The names
/// that it declares are names: no reserved words.
pub fn read_lrtl(alloc: Global, bytes: &[u8]) -> Result<RawMachine, ReadTextEnd>
    ensures answer { AnswersText lambda_rtl machine vocabulary bytes.now result }
    ensures named { IfOk result AreNamed }
{
    texts_of_their_kinds();
    match scan::<LambdaRtlWords>(alloc, bytes) {
        Ok(tokens) => answer(read_tokens(alloc, bytes, tokens.as_slice())),
        Err(end) => Err(end),
    }
}

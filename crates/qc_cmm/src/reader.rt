//! The reader of whole texts.
ghost use Rattle.std.specs.Prelude.{◌≡◌, ◌≤◌, length, IfOk};
ghost use Rattle.qc_grammar.specs.TokenSpans.{InSource, IsEnded};
ghost use Rattle.qc_grammar.specs.Lexeme.{lexemes_from};
ghost use Rattle.qc_grammar.specs.ReaderResult.{Gives};
ghost use Rattle.qc_grammar.specs.Reading.{reads};
ghost use Rattle.qc_grammar.specs.Grammar.{text};
ghost use Rattle.qc_grammar.specs.Answer.{Answers};
ghost use Rattle.qc_grammar.specs.TextAnswer.{AnswersText};
ghost use Rattle.qc_cmm.specs.Cmm.{cmm, order, target, program};
ghost use Rattle.qc_cmm.specs.Vocabulary.{vocabulary};
ghost use Rattle.qc_cmm.specs.Weight.{weight};

use crate::syntax::{ByteOrder, Part, Program, Target};
use crate::words::CmmWords;
use qc_grammar::{
    ClassedToken, Cursor, ReadError, ReadTextEnd, Stop, answer, begin, read_many, scan, settle,
};
use std::alloc::Global;

#[tactic(auto, unfolding(crate::specs::Cmm::order))]
fn read_order(cursor: &mut Cursor<'_>) -> Result<ByteOrder, Stop>
    ensures { Gives result cursor.old cursor.new (reads cmm order) }
{
    if cursor.is_word(b"little") {
        let token = cursor.word(b"little")?;
        Ok(ByteOrder::Little { token })
    } else {
        let token = cursor.word(b"big")?;
        Ok(ByteOrder::Big { token })
    }
}

/// Reads what machine a program is for.
#[tactic(auto, unfolding(crate::specs::Cmm::target))]
pub fn read_target(cursor: &mut Cursor<'_>) -> Result<Target, Stop>
    ensures { Gives result cursor.old cursor.new (reads cmm target) }
{
    let token = cursor.word(b"target")?;
    cursor.word(b"byteorder")?;
    let order = read_order(cursor)?;
    cursor.word(b"wordsize")?;
    let word_size = cursor.number()?;
    cursor.word(b";")?;
    Ok(Target {
        token,
        order,
        word_size,
    })
}

#[tactic(auto, unfolding(crate::specs::Cmm::program, crate::specs::Cmm::parts))]
fn read_program(alloc: Global, cursor: &mut Cursor<'_>) -> Result<Program, Stop>
    ensures { Gives result cursor.old cursor.new (reads cmm program) }
{
    let target = read_target(cursor)?;
    let parts = read_many::<Part>(alloc, cursor)?;
    Ok(Program { target, parts })
}

fn read_whole(alloc: Global, cursor: &mut Cursor<'_>) -> Result<Program, Stop>
    ensures { Gives result cursor.old cursor.new (reads cmm (text program)) }
{
    let program = read_program(alloc, cursor)?;
    cursor.end()?;
    Ok(program)
}

/// The tree that the tokens of a source spell.
fn read_tokens(alloc: Global, source: &[u8], tokens: &[ClassedToken]) -> Result<Program, ReadError>
    requires inside { InSource (length source.now) tokens.now }
    requires ended { IsEnded tokens.now }
    ensures { Answers cmm program (lexemes_from source.now 0 tokens.now) result }
{
    let (mut cursor, deep) = begin(source, tokens);
    let given = cursor.left();
    let read = read_whole(alloc, &mut cursor);
    settle(read, deep, given, cursor.left())
}

/// The tree of a program's text, with numbers of tokens counted from 0. A text has at most 200 open brackets. The program
/// weighs no more than the text has bytes.
pub fn read_cmm(alloc: Global, bytes: &[u8]) -> Result<Program, ReadTextEnd>
    ensures answer { AnswersText cmm program vocabulary bytes.now result }
    ensures light { IfOk result (λ p. weight p ≤ length bytes.now) }
{
    match scan::<CmmWords>(alloc, bytes) {
        Ok(tokens) => answer(read_tokens(alloc, bytes, tokens.as_slice())),
        Err(end) => Err(end),
    }
}

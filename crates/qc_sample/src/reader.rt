//! The reader of whole texts.
ghost use Rattle.std.specs.Prelude.{◌≡◌, length};
ghost use Rattle.qc_grammar.specs.TokenSpans.{InSource, IsEnded};
ghost use Rattle.qc_grammar.specs.Lexeme.{lexemes_from};
ghost use Rattle.qc_grammar.specs.ReaderResult.{Gives};
ghost use Rattle.qc_grammar.specs.Reading.{reads, first, next_in};
ghost use Rattle.qc_grammar.specs.Grammar.{nonterminal, onto};
ghost use Rattle.qc_grammar.specs.Grammar.{text};
ghost use Rattle.qc_grammar.specs.Answer.{Answers};
ghost use Rattle.qc_grammar.specs.TextAnswer.{AnswersText};
ghost use Rattle.qc_sample.specs.Sample.{sample, vocabulary, any_statement, type_of, simple, statement, statements};
ghost use Rattle.qc_sample.specs.Sample.{program};

use crate::expressions::{read_any_expr, read_arguments, read_exprs};
use crate::syntax::{Program, Statement};
use qc_grammar::{
    ClassedToken, Cursor, Ident, ReadError, ReadTextEnd, Stop, Vocabulary, answer, begin,
    is_reserved, read_many_by, scan, settle,
};
use qc_text::{Kind, Token};
use sqlite_items::Items;
use std::alloc::Global;

const RESERVED: [&[u8]; 4] = [b"program", b"let", b"print", b"not"];

/// Which tokens are words of the sample language.
pub(crate) struct SampleWords;

impl Vocabulary for SampleWords {
    ghost use Rattle.qc_sample.specs.Sample.{vocabulary as words};

    ghost vocabulary = { words };

    fn is_word(_source: &[u8], _before: &[Token], kind: Kind, text: &[u8]) -> bool {
        is_reserved(&RESERVED, kind, text)
    }
}

#[tactic(auto, unfolding(crate::specs::Sample::type_of))]
fn read_type(alloc: Global, cursor: &mut Cursor<'_>) -> Result<Option<Ident>, Stop>
    ensures { Gives result cursor.old cursor.new (reads sample type_of) }
{
    if cursor.is_word(b":") {
        cursor.word(b":")?;
        let name = cursor.ident(alloc, Kind::Name)?;
        Ok(Some(name))
    } else {
        Ok(None)
    }
}

#[tactic(auto, unfolding(crate::specs::Sample::simple))]
fn read_simple(alloc: Global, cursor: &mut Cursor<'_>, name: Ident) -> Result<Statement, Stop>
    ensures { Gives result cursor.old cursor.new (reads sample (onto name simple)) }
{
    if cursor.is_word(b"=") {
        cursor.word(b"=")?;
        let value = read_any_expr(alloc, cursor)?;
        Ok(Statement::Set { name, value })
    } else {
        cursor.word(b"(")?;
        let args = read_arguments(alloc, cursor)?;
        Ok(Statement::Do { name, args })
    }
}

#[cycle(statements)]
fn read_any_statement(alloc: Global, cursor: &mut Cursor<'_>) -> Result<Statement, Stop>
    ensures { Gives result cursor.old cursor.new (reads sample (nonterminal any_statement)) }
{
    read_statement(alloc, cursor)
}

#[tactic(auto, unfolding(crate::specs::Sample::statement))]
#[cycle(statements)]
fn read_statement(alloc: Global, cursor: &mut Cursor<'_>) -> Result<Statement, Stop>
    ensures { Gives result cursor.old cursor.new (reads sample statement) }
{
    if cursor.is_word(b"let") {
        cursor.word(b"let")?;
        let name = cursor.ident(alloc, Kind::Name)?;
        let type_of = read_type(alloc, cursor)?;
        cursor.word(b"=")?;
        let value = read_any_expr(alloc, cursor)?;
        cursor.word(b";")?;
        Ok(Statement::Let {
            name,
            type_of,
            value,
        })
    } else if cursor.is_word(b"print") {
        cursor.word(b"print")?;
        let values = read_exprs(alloc, cursor)?;
        cursor.word(b";")?;
        Ok(Statement::Print { values })
    } else if cursor.is_word(b"{") {
        cursor.word(b"{")?;
        let body = read_statements(alloc, cursor)?;
        cursor.word(b"}")?;
        Ok(Statement::Block { body })
    } else {
        let name = cursor.ident(alloc, Kind::Name)?;
        let simple = read_simple(alloc, cursor, name)?;
        cursor.word(b";")?;
        Ok(simple)
    }
}

#[tactic(auto, unfolding(crate::specs::Sample::statement))]
fn begins_statement(cursor: &Cursor<'_>) -> bool
    ensures { result ≡ next_in (first sample (nonterminal any_statement)) cursor.now }
{
    cursor.is_word(b"let")
        || cursor.is_word(b"print")
        || cursor.is_word(b"{")
        || cursor.is_any(Kind::Name)
}

#[tactic(auto, unfolding(crate::specs::Sample::statements))]
#[cycle(statements)]
fn read_statements(alloc: Global, cursor: &mut Cursor<'_>) -> Result<Items<Statement>, Stop>
    ensures { Gives result cursor.old cursor.new (reads sample statements) }
{
    read_many_by(
        alloc,
        cursor,
        |next: &Cursor<'_>| -> bool
            ensures { result ≡ next_in (first sample (nonterminal any_statement)) next.now }
        { begins_statement(next) },
        |next: &mut Cursor<'_>| -> Result<Statement, Stop>
            ensures { Gives result next.old next.new (reads sample (nonterminal any_statement)) }
        { read_any_statement(alloc, next) },
    )
}

#[tactic(auto, unfolding(crate::specs::Sample::program))]
fn read_program(alloc: Global, cursor: &mut Cursor<'_>) -> Result<Program, Stop>
    ensures { Gives result cursor.old cursor.new (reads sample program) }
{
    cursor.word(b"program")?;
    let name = cursor.ident(alloc, Kind::Name)?;
    cursor.word(b";")?;
    let body = read_statements(alloc, cursor)?;
    Ok(Program { name, body })
}

fn read_whole(alloc: Global, cursor: &mut Cursor<'_>) -> Result<Program, Stop>
    ensures { Gives result cursor.old cursor.new (reads sample (text program)) }
{
    let program = read_program(alloc, cursor)?;
    cursor.end()?;
    Ok(program)
}

/// The tree that the tokens of a source spell.
fn read_tokens(alloc: Global, source: &[u8], tokens: &[ClassedToken]) -> Result<Program, ReadError>
    requires inside { InSource (length source.now) tokens.now }
    requires ended { IsEnded tokens.now }
    ensures { Answers sample program (lexemes_from source.now 0 tokens.now) result }
{
    let (mut cursor, deep) = begin(source, tokens);
    let given = cursor.left();
    let read = read_whole(alloc, &mut cursor);
    settle(read, deep, given, cursor.left())
}

/// The tree of a program's text, with numbers of tokens counted from 0. A text has at most 200 open brackets.
pub fn read_sample(alloc: Global, bytes: &[u8]) -> Result<Program, ReadTextEnd>
    ensures { AnswersText sample program vocabulary bytes.now result }
{
    match scan::<SampleWords>(alloc, bytes) {
        Ok(tokens) => answer(read_tokens(alloc, bytes, tokens.as_slice())),
        Err(end) => Err(end),
    }
}

//! The reader of whole texts.
ghost use Rattle.std.specs.Prelude.{◌≡◌, length, IfOk};
ghost use Rattle.qc_grammar.specs.TokenSpans.{InSource, IsEnded};
ghost use Rattle.qc_grammar.specs.Lexeme.{lexemes_from};
ghost use Rattle.qc_grammar.specs.ReaderResult.{Gives};
ghost use Rattle.qc_grammar.specs.Reading.{reads};
ghost use Rattle.qc_grammar.specs.Grammar.{text};
ghost use Rattle.qc_grammar.specs.Answer.{Answers};
ghost use Rattle.qc_grammar.specs.TextAnswer.{AnswersText};
ghost use Rattle.qc_tabletext.specs.TableText.{table_text, tables};
ghost use Rattle.qc_tabletext.specs.Vocabulary.{vocabulary};
ghost use Rattle.qc_tabletext.specs.Bounded.{IsBounded};

use crate::entries::{read_entries, read_version};
use crate::syntax::RawTables;
use crate::words::TableWords;
use qc_grammar::{ClassedToken, Cursor, ReadError, ReadTextEnd, Stop, answer, begin, scan, settle};
use qc_text::{Kind, texts_of_their_kinds};
use std::alloc::Global;

#[tactic(auto, unfolding(crate::specs::TableText::tables))]
fn read_tables(alloc: Global, cursor: &mut Cursor<'_>) -> Result<RawTables, Stop>
    ensures { Gives result cursor.old cursor.new (reads table_text tables) }
{
    cursor.word(b"tables")?;
    let machine = cursor.ident(alloc, Kind::Name)?;
    let version = read_version(cursor)?;
    cursor.word(b";")?;
    let entries = read_entries(alloc, cursor)?;
    Ok(RawTables {
        machine,
        version,
        entries,
    })
}

fn read_whole(alloc: Global, cursor: &mut Cursor<'_>) -> Result<RawTables, Stop>
    ensures { Gives result cursor.old cursor.new (reads table_text (text tables)) }
{
    let raw = read_tables(alloc, cursor)?;
    cursor.end()?;
    Ok(raw)
}

/// The tree that the tokens of a source spell.
fn read_tokens(
    alloc: Global,
    source: &[u8],
    tokens: &[ClassedToken],
) -> Result<RawTables, ReadError>
    requires inside { InSource (length source.now) tokens.now }
    requires ended { IsEnded tokens.now }
    ensures { Answers table_text tables (lexemes_from source.now 0 tokens.now) result }
{
    let (mut cursor, deep) = begin(source, tokens);
    let given = cursor.left();
    let read = read_whole(alloc, &mut cursor);
    settle(read, deep, given, cursor.left())
}

/// The tree of a text of tables, with numbers of tokens counted from 0. A text has at most 200 open brackets. Whether its
/// names stand for anything, and whether its derivations do the work of their tiles, is not asked.
pub fn read_table_text(alloc: Global, bytes: &[u8]) -> Result<RawTables, ReadTextEnd>
    ensures answer { AnswersText table_text tables vocabulary bytes.now result }
    ensures bounded { IfOk result IsBounded }
{
    texts_of_their_kinds();
    match scan::<TableWords>(alloc, bytes) {
        Ok(tokens) => answer(read_tokens(alloc, bytes, tokens.as_slice())),
        Err(end) => Err(end),
    }
}

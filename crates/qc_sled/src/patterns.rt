//! The reader of patterns.
ghost use Rattle.std.specs.Prelude.{◌≡◌};
ghost use Rattle.qc_grammar.specs.ReaderResult.{Gives};
ghost use Rattle.qc_grammar.specs.Reading.{reads};
ghost use Rattle.qc_grammar.specs.Grammar.{nonterminal, onto};
ghost use Rattle.qc_sled.specs.Sled.{sled, any_pattern, bits, value, after_atom, atom, atoms};
ghost use Rattle.qc_sled.specs.Sled.{conjunction, conjunctions};
ghost use Rattle.qc_sled.specs.Sled.{sequence, sequences, pattern};

use crate::syntax::{Pattern, Value};
use qc_grammar::{Cursor, Ident, Stop, read_separated_by};
use qc_text::Kind;
use sqlite_items::{Boxed, Items};
use std::alloc::Global;

#[tactic(auto, unfolding(crate::specs::Sled::bits))]
fn read_bits(cursor: &mut Cursor<'_>, name: Ident) -> Result<Value, Stop>
    ensures { Gives result cursor.old cursor.new (reads sled (onto name bits)) }
{
    if cursor.is_word(b"{") {
        cursor.word(b"{")?;
        let high = cursor.number()?;
        cursor.word(b"..")?;
        let low = cursor.number()?;
        cursor.word(b"}")?;
        Ok(Value::Bits { name, high, low })
    } else {
        Ok(Value::Operand { name })
    }
}

#[tactic(auto, unfolding(crate::specs::Sled::value))]
fn read_value(alloc: Global, cursor: &mut Cursor<'_>) -> Result<Value, Stop>
    ensures { Gives result cursor.old cursor.new (reads sled value) }
{
    if cursor.is_any(Kind::Number) {
        let value = cursor.number()?;
        Ok(Value::Number { value })
    } else {
        let name = cursor.ident(alloc, Kind::Name)?;
        read_bits(cursor, name)
    }
}

#[tactic(auto, unfolding(crate::specs::Sled::after_atom))]
fn read_after_atom(alloc: Global, cursor: &mut Cursor<'_>, name: Ident) -> Result<Pattern, Stop>
    ensures { Gives result cursor.old cursor.new (reads sled (onto name after_atom)) }
{
    if cursor.is_word(b"=") {
        cursor.word(b"=")?;
        let value = Boxed::new(alloc, read_value(alloc, cursor)?)?;
        Ok(Pattern::Equal { field: name, value })
    } else {
        Ok(Pattern::Name { name })
    }
}

#[cycle(patterns)]
pub(crate) fn read_any_pattern(alloc: Global, cursor: &mut Cursor<'_>) -> Result<Pattern, Stop>
    ensures { Gives result cursor.old cursor.new (reads sled (nonterminal any_pattern)) }
{
    read_pattern(alloc, cursor)
}

#[tactic(auto, unfolding(crate::specs::Sled::pattern))]
#[cycle(patterns)]
fn read_pattern(alloc: Global, cursor: &mut Cursor<'_>) -> Result<Pattern, Stop>
    ensures { Gives result cursor.old cursor.new (reads sled pattern) }
{
    let parts = read_sequences(alloc, cursor)?;
    Ok(Pattern::Alternatives { parts })
}

#[tactic(auto, unfolding(crate::specs::Sled::sequences))]
#[cycle(patterns)]
fn read_sequences(alloc: Global, cursor: &mut Cursor<'_>) -> Result<Items<Pattern>, Stop>
    ensures { Gives result cursor.old cursor.new (reads sled sequences) }
{
    read_separated_by(
        alloc,
        cursor,
        b"|",
        |next: &mut Cursor<'_>| -> Result<Pattern, Stop>
            ensures { Gives result next.old next.new (reads sled sequence) }
        { read_sequence(alloc, next) },
    )
}

#[tactic(auto, unfolding(crate::specs::Sled::sequence))]
#[cycle(patterns)]
fn read_sequence(alloc: Global, cursor: &mut Cursor<'_>) -> Result<Pattern, Stop>
    ensures { Gives result cursor.old cursor.new (reads sled sequence) }
{
    let parts = read_conjunctions(alloc, cursor)?;
    Ok(Pattern::Sequence { parts })
}

#[tactic(auto, unfolding(crate::specs::Sled::conjunctions))]
#[cycle(patterns)]
fn read_conjunctions(alloc: Global, cursor: &mut Cursor<'_>) -> Result<Items<Pattern>, Stop>
    ensures { Gives result cursor.old cursor.new (reads sled conjunctions) }
{
    read_separated_by(
        alloc,
        cursor,
        b";",
        |next: &mut Cursor<'_>| -> Result<Pattern, Stop>
            ensures { Gives result next.old next.new (reads sled conjunction) }
        { read_conjunction(alloc, next) },
    )
}

#[tactic(auto, unfolding(crate::specs::Sled::conjunction))]
#[cycle(patterns)]
fn read_conjunction(alloc: Global, cursor: &mut Cursor<'_>) -> Result<Pattern, Stop>
    ensures { Gives result cursor.old cursor.new (reads sled conjunction) }
{
    let parts = read_atoms(alloc, cursor)?;
    Ok(Pattern::Conjunction { parts })
}

#[tactic(auto, unfolding(crate::specs::Sled::atoms))]
#[cycle(patterns)]
fn read_atoms(alloc: Global, cursor: &mut Cursor<'_>) -> Result<Items<Pattern>, Stop>
    ensures { Gives result cursor.old cursor.new (reads sled atoms) }
{
    read_separated_by(
        alloc,
        cursor,
        b"&",
        |next: &mut Cursor<'_>| -> Result<Pattern, Stop>
            ensures { Gives result next.old next.new (reads sled atom) }
        { read_atom(alloc, next) },
    )
}

#[tactic(auto, unfolding(crate::specs::Sled::atom))]
#[cycle(patterns)]
fn read_atom(alloc: Global, cursor: &mut Cursor<'_>) -> Result<Pattern, Stop>
    ensures { Gives result cursor.old cursor.new (reads sled atom) }
{
    if cursor.is_any(Kind::Name) {
        let name = cursor.ident(alloc, Kind::Name)?;
        read_after_atom(alloc, cursor, name)
    } else {
        let token = cursor.word(b"(")?;
        let inner = Boxed::new(alloc, read_any_pattern(alloc, cursor)?)?;
        cursor.word(b")")?;
        Ok(Pattern::Group { token, inner })
    }
}

//! The reader of sections of data, and of the parts of a program.
ghost use Rattle.std.specs.Prelude.{◌≡◌};
ghost use Rattle.qc_grammar.specs.ReaderResult.{Gives};
ghost use Rattle.qc_grammar.specs.Reading.{reads, first, next_in};
ghost use Rattle.qc_grammar.specs.Grammar.{onto};
ghost use Rattle.qc_cmm.specs.Cmm.{cmm, elements, typed_data, datum, section, procedure, part};

use crate::expressions::{begins_type, read_type};
use crate::procedures::read_procedure;
use crate::syntax::{Datum, Literal, Part, WordType};
use qc_grammar::{Beginning, Cursor, Phrase, Stop, read_many, read_separated};
use qc_text::Kind;
use std::alloc::Global;

#[tactic(auto, unfolding(crate::specs::Cmm::elements))]
fn read_elements(alloc: Global, cursor: &mut Cursor<'_>, element: WordType) -> Result<Datum, Stop>
    ensures { Gives result cursor.old cursor.new (reads cmm (onto element elements)) }
{
    if cursor.is_word(b"[") {
        cursor.word(b"[")?;
        let count = cursor.number()?;
        cursor.word(b"]")?;
        cursor.word(b";")?;
        Ok(Datum::Zeros { element, count })
    } else {
        cursor.word(b"{")?;
        let values = read_separated::<Literal>(alloc, cursor, b",")?;
        cursor.word(b"}")?;
        cursor.word(b";")?;
        Ok(Datum::Values { element, values })
    }
}

#[tactic(auto, unfolding(crate::specs::Cmm::typed_data))]
fn read_typed_data(alloc: Global, cursor: &mut Cursor<'_>) -> Result<Datum, Stop>
    ensures { Gives result cursor.old cursor.new (reads cmm typed_data) }
{
    let element = read_type(cursor)?;
    read_elements(alloc, cursor, element)
}

#[tactic(auto, unfolding(crate::specs::Cmm::datum))]
fn read_datum(alloc: Global, cursor: &mut Cursor<'_>) -> Result<Datum, Stop>
    ensures { Gives result cursor.old cursor.new (reads cmm datum) }
{
    if cursor.is_any(Kind::Name) {
        let name = cursor.ident(alloc, Kind::Name)?;
        cursor.word(b":")?;
        Ok(Datum::Label { name })
    } else {
        read_typed_data(alloc, cursor)
    }
}

#[tactic(auto, unfolding(crate::specs::Cmm::datum, crate::specs::Cmm::typed_data, crate::specs::Cmm::type_of))]
fn begins_datum(cursor: &Cursor<'_>) -> bool
    ensures { result ≡ next_in (first cmm datum) cursor.now }
{
    cursor.is_any(Kind::Name) || begins_type(cursor)
}

impl Phrase for Datum {
    ghost use Rattle.qc_grammar.specs.Reading.{reads};
    ghost use Rattle.qc_cmm.specs.Cmm.{cmm, datum, datum_shortens};

    ghost reading = { reads cmm datum };

    ghost shortens = { datum_shortens };

    fn read(alloc: Global, cursor: &mut Cursor<'_>) -> Result<Datum, Stop> {
        read_datum(alloc, cursor)
    }
}

impl Beginning for Datum {
    ghost use Rattle.qc_grammar.specs.Reading.{first};
    ghost use Rattle.qc_cmm.specs.Cmm.{cmm, datum};

    ghost classes = { first cmm datum };

    fn begins(cursor: &Cursor<'_>) -> bool {
        begins_datum(cursor)
    }
}

#[tactic(auto, unfolding(crate::specs::Cmm::section))]
fn read_section(alloc: Global, cursor: &mut Cursor<'_>) -> Result<Part, Stop>
    ensures { Gives result cursor.old cursor.new (reads cmm section) }
{
    let token = cursor.word(b"section")?;
    let name = cursor.ident(alloc, Kind::Str)?;
    cursor.word(b"{")?;
    let data = read_many::<Datum>(alloc, cursor)?;
    cursor.word(b"}")?;
    Ok(Part::Section { token, name, data })
}

#[tactic(auto, unfolding(crate::specs::Cmm::section))]
fn begins_section(cursor: &Cursor<'_>) -> bool
    ensures { result ≡ next_in (first cmm section) cursor.now }
{
    cursor.is_word(b"section")
}

#[tactic(auto, unfolding(crate::specs::Cmm::procedure))]
fn begins_procedure(cursor: &Cursor<'_>) -> bool
    ensures { result ≡ next_in (first cmm procedure) cursor.now }
{
    cursor.is_any(Kind::Name)
}

/// Reads a section or a procedure.
#[tactic(auto, unfolding(crate::specs::Cmm::part))]
pub fn read_part(alloc: Global, cursor: &mut Cursor<'_>) -> Result<Part, Stop>
    ensures { Gives result cursor.old cursor.new (reads cmm part) }
{
    if begins_section(cursor) {
        read_section(alloc, cursor)
    } else {
        let procedure = read_procedure(alloc, cursor)?;
        Ok(Part::Procedure { procedure })
    }
}

/// A section or a procedure begins with the next token.
#[tactic(auto, unfolding(crate::specs::Cmm::part))]
pub fn begins_part(cursor: &Cursor<'_>) -> bool
    ensures { result ≡ next_in (first cmm part) cursor.now }
{
    begins_section(cursor) || begins_procedure(cursor)
}

impl Phrase for Part {
    ghost use Rattle.qc_grammar.specs.Reading.{reads};
    ghost use Rattle.qc_cmm.specs.Cmm.{cmm, part, part_shortens};

    ghost reading = { reads cmm part };

    ghost shortens = { part_shortens };

    fn read(alloc: Global, cursor: &mut Cursor<'_>) -> Result<Part, Stop> {
        read_part(alloc, cursor)
    }
}

impl Beginning for Part {
    ghost use Rattle.qc_grammar.specs.Reading.{first};
    ghost use Rattle.qc_cmm.specs.Cmm.{cmm, part};

    ghost classes = { first cmm part };

    fn begins(cursor: &Cursor<'_>) -> bool {
        begins_part(cursor)
    }
}

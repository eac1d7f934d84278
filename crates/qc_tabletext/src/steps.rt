//! The reader of the laws that a derivation uses.
ghost use Rattle.std.specs.Prelude.{◌≡◌, codes};
ghost use Rattle.qc_grammar.specs.ReaderResult.{Gives};
ghost use Rattle.qc_grammar.specs.Reading.{reads, read_number};
ghost use Rattle.qc_grammar.specs.Grammar.{number, separated};
ghost use Rattle.qc_tabletext.specs.TableText.{table_text, place, step, steps};

use crate::syntax::{RawStep, StepPlace};
use qc_grammar::{Cursor, Number, Phrase, Stop, read_separated, read_separated_by};
use qc_text::Kind;
use sqlite_items::Items;
use std::alloc::Global;

/// Numbers with full stops between them.
fn read_path(alloc: Global, cursor: &mut Cursor<'_>) -> Result<Items<Number>, Stop>
    ensures { Gives result cursor.old cursor.new (reads table_text (separated number (codes "."))) }
{
    read_separated_by(
        alloc,
        cursor,
        b".",
        |next: &mut Cursor<'_>| -> Result<Number, Stop>
            ensures { Gives result next.old next.new read_number }
        { next.number() },
    )
}

#[tactic(auto, unfolding(crate::specs::TableText::place))]
fn read_place(alloc: Global, cursor: &mut Cursor<'_>) -> Result<StepPlace, Stop>
    ensures { Gives result cursor.old cursor.new (reads table_text place) }
{
    if cursor.is_word(b"e") {
        let token = cursor.word(b"e")?;
        Ok(StepPlace::Whole { token })
    } else {
        let path = read_path(alloc, cursor)?;
        Ok(StepPlace::Part { path })
    }
}

#[tactic(auto, unfolding(crate::specs::TableText::step))]
fn read_step(alloc: Global, cursor: &mut Cursor<'_>) -> Result<RawStep, Stop>
    ensures { Gives result cursor.old cursor.new (reads table_text step) }
{
    let law = cursor.ident(alloc, Kind::Name)?;
    cursor.word(b"@")?;
    let place = read_place(alloc, cursor)?;
    Ok(RawStep { law, place })
}

impl Phrase for RawStep {
    ghost use Rattle.qc_grammar.specs.Reading.{reads};
    ghost use Rattle.qc_tabletext.specs.TableText.{table_text, step, step_shortens};

    ghost reading = { reads table_text step };

    ghost shortens = { step_shortens };

    fn read(alloc: Global, cursor: &mut Cursor<'_>) -> Result<RawStep, Stop> {
        read_step(alloc, cursor)
    }
}

#[tactic(auto, unfolding(crate::specs::TableText::steps))]
pub(crate) fn read_steps(alloc: Global, cursor: &mut Cursor<'_>) -> Result<Items<RawStep>, Stop>
    ensures { Gives result cursor.old cursor.new (reads table_text steps) }
{
    if cursor.is_word(b"]") {
        cursor.word(b"]")?;
        Ok(Items::new(alloc))
    } else {
        let steps = read_separated::<RawStep>(alloc, cursor, b",")?;
        cursor.word(b"]")?;
        Ok(steps)
    }
}

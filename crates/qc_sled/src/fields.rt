//! The reader of the fields of a token.
ghost use Rattle.std.specs.Prelude.{◌≡◌};
ghost use Rattle.qc_grammar.specs.ReaderResult.{Gives};
ghost use Rattle.qc_grammar.specs.Reading.{reads};
ghost use Rattle.qc_sled.specs.Sled.{sled, field, fields};

use crate::syntax::Field;
use qc_grammar::{Cursor, Phrase, Stop, read_separated};
use qc_text::Kind;
use sqlite_items::Items;
use std::alloc::Global;

#[tactic(auto, unfolding(crate::specs::Sled::field))]
fn read_field(alloc: Global, cursor: &mut Cursor<'_>) -> Result<Field, Stop>
    ensures { Gives result cursor.old cursor.new (reads sled field) }
{
    let name = cursor.ident(alloc, Kind::Name)?;
    let high = cursor.number()?;
    cursor.word(b":")?;
    let low = cursor.number()?;
    Ok(Field { name, high, low })
}

impl Phrase for Field {
    ghost use Rattle.qc_grammar.specs.Reading.{reads};
    ghost use Rattle.qc_sled.specs.Sled.{sled, field, field_shortens};

    ghost reading = { reads sled field };

    ghost shortens = { field_shortens };

    fn read(alloc: Global, cursor: &mut Cursor<'_>) -> Result<Field, Stop> {
        read_field(alloc, cursor)
    }
}

#[tactic(auto, unfolding(crate::specs::Sled::fields))]
pub(crate) fn read_fields(alloc: Global, cursor: &mut Cursor<'_>) -> Result<Items<Field>, Stop>
    ensures { Gives result cursor.old cursor.new (reads sled fields) }
{
    cursor.word(b"(")?;
    let fields = read_separated::<Field>(alloc, cursor, b",")?;
    cursor.word(b")")?;
    Ok(fields)
}

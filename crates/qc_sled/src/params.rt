//! The reader of the parameters of a constructor.
ghost use Rattle.std.specs.Prelude.{◌≡◌};
ghost use Rattle.qc_grammar.specs.ReaderResult.{Gives};
ghost use Rattle.qc_grammar.specs.Reading.{reads};
ghost use Rattle.qc_sled.specs.Sled.{sled, reach, reach_of, param, params};

use crate::syntax::{Param, Reach};
use qc_grammar::{Cursor, Phrase, Stop, read_separated};
use qc_text::Kind;
use sqlite_items::Items;
use std::alloc::Global;

#[tactic(auto, unfolding(crate::specs::Sled::reach))]
fn read_reach(cursor: &mut Cursor<'_>) -> Result<Reach, Stop>
    ensures { Gives result cursor.old cursor.new (reads sled reach) }
{
    if cursor.is_word(b"rel") {
        let token = cursor.word(b"rel")?;
        let bits = cursor.number()?;
        Ok(Reach::Relative { token, bits })
    } else {
        let token = cursor.word(b"abs")?;
        let bits = cursor.number()?;
        Ok(Reach::Absolute { token, bits })
    }
}

#[tactic(auto, unfolding(crate::specs::Sled::reach_of))]
fn read_reach_of(cursor: &mut Cursor<'_>) -> Result<Option<Reach>, Stop>
    ensures { Gives result cursor.old cursor.new (reads sled reach_of) }
{
    if cursor.is_word(b":") {
        cursor.word(b":")?;
        let reach = read_reach(cursor)?;
        Ok(Some(reach))
    } else {
        Ok(None)
    }
}

#[tactic(auto, unfolding(crate::specs::Sled::param))]
fn read_param(alloc: Global, cursor: &mut Cursor<'_>) -> Result<Param, Stop>
    ensures { Gives result cursor.old cursor.new (reads sled param) }
{
    let name = cursor.ident(alloc, Kind::Name)?;
    let reach = read_reach_of(cursor)?;
    Ok(Param { name, reach })
}

impl Phrase for Param {
    ghost use Rattle.qc_grammar.specs.Reading.{reads};
    ghost use Rattle.qc_sled.specs.Sled.{sled, param, param_shortens};

    ghost reading = { reads sled param };

    ghost shortens = { param_shortens };

    fn read(alloc: Global, cursor: &mut Cursor<'_>) -> Result<Param, Stop> {
        read_param(alloc, cursor)
    }
}

#[tactic(auto, unfolding(crate::specs::Sled::params))]
pub(crate) fn read_params(alloc: Global, cursor: &mut Cursor<'_>) -> Result<Items<Param>, Stop>
    ensures { Gives result cursor.old cursor.new (reads sled params) }
{
    cursor.word(b"(")?;
    if cursor.is_word(b")") {
        cursor.word(b")")?;
        Ok(Items::new(alloc))
    } else {
        let params = read_separated::<Param>(alloc, cursor, b",")?;
        cursor.word(b")")?;
        Ok(params)
    }
}

//! The reader of items.
ghost use Rattle.std.specs.Prelude.{◌≡◌};
ghost use Rattle.qc_grammar.specs.ReaderResult.{Gives};
ghost use Rattle.qc_grammar.specs.Reading.{reads, first, next_in};
ghost use Rattle.qc_grammar.specs.Grammar.{nonterminal};
ghost use Rattle.qc_sled.specs.Sled.{sled, item, items};

use crate::fields::read_fields;
use crate::params::read_params;
use crate::patterns::read_any_pattern;
use crate::syntax::Item;
use qc_grammar::{Beginning, Cursor, Phrase, Stop, read_many};
use qc_text::Kind;
use sqlite_items::Items;
use std::alloc::Global;

#[tactic(auto, unfolding(crate::specs::Sled::item))]
fn begins_item(cursor: &Cursor<'_>) -> bool
    ensures { result ≡ next_in (first sled item) cursor.now }
{
    cursor.is_word(b"fields") || cursor.is_word(b"pattern") || cursor.is_word(b"constructor")
}

#[tactic(auto, unfolding(crate::specs::Sled::item))]
fn read_item(alloc: Global, cursor: &mut Cursor<'_>) -> Result<Item, Stop>
    ensures { Gives result cursor.old cursor.new (reads sled item) }
{
    if cursor.is_word(b"fields") {
        let token = cursor.word(b"fields")?;
        let name = cursor.ident(alloc, Kind::Name)?;
        let bits = cursor.number()?;
        let fields = read_fields(alloc, cursor)?;
        Ok(Item::Fields {
            token,
            name,
            bits,
            fields,
        })
    } else if cursor.is_word(b"pattern") {
        let token = cursor.word(b"pattern")?;
        let name = cursor.ident(alloc, Kind::Name)?;
        cursor.word(b"is")?;
        let body = read_any_pattern(alloc, cursor)?;
        Ok(Item::Pattern { token, name, body })
    } else {
        let token = cursor.word(b"constructor")?;
        let name = cursor.ident(alloc, Kind::Name)?;
        let params = read_params(alloc, cursor)?;
        cursor.word(b"is")?;
        let body = read_any_pattern(alloc, cursor)?;
        Ok(Item::Constructor {
            token,
            name,
            params,
            body,
        })
    }
}

impl Phrase for Item {
    ghost use Rattle.qc_grammar.specs.Reading.{reads};
    ghost use Rattle.qc_sled.specs.Sled.{sled, item, item_shortens};

    ghost reading = { reads sled item };

    ghost shortens = { item_shortens };

    fn read(alloc: Global, cursor: &mut Cursor<'_>) -> Result<Item, Stop> {
        read_item(alloc, cursor)
    }
}

impl Beginning for Item {
    ghost use Rattle.qc_grammar.specs.Reading.{first};
    ghost use Rattle.qc_sled.specs.Sled.{sled, item};

    ghost classes = { first sled item };

    fn begins(cursor: &Cursor<'_>) -> bool {
        begins_item(cursor)
    }
}

#[tactic(auto, unfolding(crate::specs::Sled::items))]
pub(crate) fn read_items(alloc: Global, cursor: &mut Cursor<'_>) -> Result<Items<Item>, Stop>
    ensures { Gives result cursor.old cursor.new (reads sled items) }
{
    read_many::<Item>(alloc, cursor)
}

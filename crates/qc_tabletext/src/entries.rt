//! The reader of a text's version and of what it has for each tile.
ghost use Rattle.std.specs.Prelude.{◌≡◌};
ghost use Rattle.qc_grammar.specs.ReaderResult.{Gives};
ghost use Rattle.qc_grammar.specs.Reading.{reads, first, next_in};
ghost use Rattle.qc_tabletext.specs.TableText.{table_text, bound_number, height, laws, version, entry, entries};

use crate::bindings::read_derivation;
use crate::syntax::{TileEntry, Version};
use qc_grammar::{Beginning, Cursor, Number, Phrase, Stop, read_many};
use qc_text::Kind;
use sqlite_items::Items;
use std::alloc::Global;

/// This number of the grammar.
fn read_bound_number(cursor: &mut Cursor<'_>, value: u64) -> Result<Number, Stop>
    ensures { Gives result cursor.old cursor.new (reads table_text (bound_number value)) }
{
    let token = cursor.value(value)?;
    Ok(Number {
        token,
        value: u128::from(value),
    })
}

#[tactic(auto, unfolding(crate::specs::TableText::height))]
fn read_height(cursor: &mut Cursor<'_>) -> Result<Number, Stop>
    ensures { Gives result cursor.old cursor.new (reads table_text height) }
{
    if cursor.is_value(1) {
        read_bound_number(cursor, 1)
    } else if cursor.is_value(2) {
        read_bound_number(cursor, 2)
    } else if cursor.is_value(3) {
        read_bound_number(cursor, 3)
    } else {
        read_bound_number(cursor, 4)
    }
}

#[tactic(auto, unfolding(crate::specs::TableText::laws))]
fn read_laws(cursor: &mut Cursor<'_>) -> Result<Number, Stop>
    ensures { Gives result cursor.old cursor.new (reads table_text laws) }
{
    if cursor.is_value(0) {
        read_bound_number(cursor, 0)
    } else if cursor.is_value(1) {
        read_bound_number(cursor, 1)
    } else if cursor.is_value(2) {
        read_bound_number(cursor, 2)
    } else {
        read_bound_number(cursor, 3)
    }
}

#[tactic(auto, unfolding(crate::specs::TableText::version))]
pub(crate) fn read_version(cursor: &mut Cursor<'_>) -> Result<Version, Stop>
    ensures { Gives result cursor.old cursor.new (reads table_text version) }
{
    if cursor.is_value(1) {
        let token = cursor.value(1)?;
        Ok(Version::First { token })
    } else {
        let token = cursor.value(2)?;
        cursor.word(b"height")?;
        let height = read_height(cursor)?;
        cursor.word(b"laws")?;
        let laws = read_laws(cursor)?;
        Ok(Version::Second {
            token,
            height,
            laws,
        })
    }
}

#[tactic(auto, unfolding(crate::specs::TableText::entry, crate::specs::TableText::after_tile))]
fn read_entry(alloc: Global, cursor: &mut Cursor<'_>) -> Result<TileEntry, Stop>
    ensures { Gives result cursor.old cursor.new (reads table_text entry) }
{
    let token = cursor.word(b"tile")?;
    let tile = cursor.ident(alloc, Kind::Name)?;
    if cursor.is_word(b"=") {
        cursor.word(b"=")?;
        let derivation = read_derivation(alloc, cursor)?;
        cursor.word(b";")?;
        Ok(TileEntry::Found {
            token,
            tile,
            derivation,
        })
    } else {
        cursor.word(b"missing")?;
        cursor.word(b";")?;
        Ok(TileEntry::Missing { token, tile })
    }
}

#[tactic(auto, unfolding(crate::specs::TableText::entry))]
fn begins_entry(cursor: &Cursor<'_>) -> bool
    ensures { result ≡ next_in (first table_text entry) cursor.now }
{
    cursor.is_word(b"tile")
}

impl Phrase for TileEntry {
    ghost use Rattle.qc_grammar.specs.Reading.{reads};
    ghost use Rattle.qc_tabletext.specs.TableText.{table_text, entry, entry_shortens};

    ghost reading = { reads table_text entry };

    ghost shortens = { entry_shortens };

    fn read(alloc: Global, cursor: &mut Cursor<'_>) -> Result<TileEntry, Stop> {
        read_entry(alloc, cursor)
    }
}

impl Beginning for TileEntry {
    ghost use Rattle.qc_grammar.specs.Reading.{first};
    ghost use Rattle.qc_tabletext.specs.TableText.{table_text, entry};

    ghost classes = { first table_text entry };

    fn begins(cursor: &Cursor<'_>) -> bool {
        begins_entry(cursor)
    }
}

#[tactic(auto, unfolding(crate::specs::TableText::entries))]
pub(crate) fn read_entries(alloc: Global, cursor: &mut Cursor<'_>) -> Result<Items<TileEntry>, Stop>
    ensures { Gives result cursor.old cursor.new (reads table_text entries) }
{
    read_many::<TileEntry>(alloc, cursor)
}

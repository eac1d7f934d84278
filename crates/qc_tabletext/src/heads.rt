//! Reserved words that are read as names, since a bracket comes after them.
ghost use Rattle.std.specs.Prelude.{◌≡◌, IfOk};
ghost use Rattle.qc_grammar.specs.ReaderResult.{Gives};
ghost use Rattle.qc_grammar.specs.Reading.{reads, first, next_in};
ghost use Rattle.qc_tabletext.specs.TableText.{table_text, reserved_name, table_word, binding_word, term_word};
ghost use Rattle.qc_tabletext.specs.TableText.{space_word, plain_head, instruction};

use qc_grammar::{Cursor, Ident, Stop};
use qc_text::Kind;
use sqlite_items::Items;
use std::alloc::{AllocError, Global};

/// A reserved word that is read as a name.
pub(crate) fn named(alloc: Global, token: usize, word: &[u8]) -> Result<Ident, AllocError>
    ensures { IfOk result (λ name. name ≡ record { token = token; text = word.now }) }
{
    let text = Items::from_slice(alloc, word)?;
    Ok(Ident { token, text })
}

/// This reserved word, as a name.
fn read_reserved_name(alloc: Global, cursor: &mut Cursor<'_>, word: &[u8]) -> Result<Ident, Stop>
    ensures { Gives result cursor.old cursor.new (reads table_text (reserved_name word.now)) }
{
    let token = cursor.word(word)?;
    let name = named(alloc, token, word)?;
    Ok(name)
}

#[tactic(auto, unfolding(crate::specs::TableText::table_word))]
fn begins_table_word(cursor: &Cursor<'_>) -> bool
    ensures { result ≡ next_in (first table_text table_word) cursor.now }
{
    cursor.is_word(b"tables")
        || cursor.is_word(b"tile")
        || cursor.is_word(b"missing")
        || cursor.is_word(b"e")
}

#[tactic(auto, unfolding(crate::specs::TableText::table_word))]
fn read_table_word(alloc: Global, cursor: &mut Cursor<'_>) -> Result<Ident, Stop>
    ensures { Gives result cursor.old cursor.new (reads table_text table_word) }
{
    if cursor.is_word(b"tables") {
        read_reserved_name(alloc, cursor, b"tables")
    } else if cursor.is_word(b"tile") {
        read_reserved_name(alloc, cursor, b"tile")
    } else if cursor.is_word(b"missing") {
        read_reserved_name(alloc, cursor, b"missing")
    } else {
        read_reserved_name(alloc, cursor, b"e")
    }
}

#[tactic(auto, unfolding(crate::specs::TableText::term_word))]
fn begins_term_word(cursor: &Cursor<'_>) -> bool
    ensures { result ≡ next_in (first table_text term_word) cursor.now }
{
    cursor.is_word(b"after")
        || cursor.is_word(b"input")
        || cursor.is_word(b"mem")
        || cursor.is_word(b"zx")
        || cursor.is_word(b"sx")
        || cursor.is_word(b"slice")
}

#[tactic(auto, unfolding(crate::specs::TableText::term_word))]
fn read_term_word(alloc: Global, cursor: &mut Cursor<'_>) -> Result<Ident, Stop>
    ensures { Gives result cursor.old cursor.new (reads table_text term_word) }
{
    if cursor.is_word(b"after") {
        read_reserved_name(alloc, cursor, b"after")
    } else if cursor.is_word(b"input") {
        read_reserved_name(alloc, cursor, b"input")
    } else if cursor.is_word(b"mem") {
        read_reserved_name(alloc, cursor, b"mem")
    } else if cursor.is_word(b"zx") {
        read_reserved_name(alloc, cursor, b"zx")
    } else if cursor.is_word(b"sx") {
        read_reserved_name(alloc, cursor, b"sx")
    } else {
        read_reserved_name(alloc, cursor, b"slice")
    }
}

#[tactic(auto, unfolding(crate::specs::TableText::binding_word))]
fn read_binding_word(alloc: Global, cursor: &mut Cursor<'_>) -> Result<Ident, Stop>
    ensures { Gives result cursor.old cursor.new (reads table_text binding_word) }
{
    if cursor.is_word(b"own") {
        read_reserved_name(alloc, cursor, b"own")
    } else if cursor.is_word(b"par") {
        read_reserved_name(alloc, cursor, b"par")
    } else if cursor.is_word(b"cell") {
        read_reserved_name(alloc, cursor, b"cell")
    } else if cursor.is_word(b"const") {
        read_reserved_name(alloc, cursor, b"const")
    } else {
        read_reserved_name(alloc, cursor, b"spare")
    }
}

#[tactic(auto, unfolding(crate::specs::TableText::binding_word))]
fn begins_binding_word(cursor: &Cursor<'_>) -> bool
    ensures { result ≡ next_in (first table_text binding_word) cursor.now }
{
    cursor.is_word(b"own")
        || cursor.is_word(b"par")
        || cursor.is_word(b"cell")
        || cursor.is_word(b"const")
        || cursor.is_word(b"spare")
}

#[tactic(auto, unfolding(crate::specs::TableText::space_word, crate::specs::TableText::table_word, crate::specs::TableText::binding_word))]
pub(crate) fn begins_space_word(cursor: &Cursor<'_>) -> bool
    ensures { result ≡ next_in (first table_text space_word) cursor.now }
{
    begins_table_word(cursor) || begins_binding_word(cursor)
}

#[tactic(auto, unfolding(crate::specs::TableText::space_word))]
pub(crate) fn read_space_word(alloc: Global, cursor: &mut Cursor<'_>) -> Result<Ident, Stop>
    ensures { Gives result cursor.old cursor.new (reads table_text space_word) }
{
    if begins_table_word(cursor) {
        read_table_word(alloc, cursor)
    } else {
        read_binding_word(alloc, cursor)
    }
}

#[tactic(auto, unfolding(crate::specs::TableText::plain_head, crate::specs::TableText::table_word, crate::specs::TableText::term_word))]
pub(crate) fn begins_plain_head(cursor: &Cursor<'_>) -> bool
    ensures { result ≡ next_in (first table_text plain_head) cursor.now }
{
    cursor.is_any(Kind::Name) || begins_table_word(cursor) || begins_term_word(cursor)
}

#[tactic(auto, unfolding(crate::specs::TableText::plain_head))]
pub(crate) fn read_plain_head(alloc: Global, cursor: &mut Cursor<'_>) -> Result<Ident, Stop>
    ensures { Gives result cursor.old cursor.new (reads table_text plain_head) }
{
    if cursor.is_any(Kind::Name) {
        cursor.ident(alloc, Kind::Name)
    } else if begins_table_word(cursor) {
        read_table_word(alloc, cursor)
    } else {
        read_term_word(alloc, cursor)
    }
}

#[tactic(auto, unfolding(crate::specs::TableText::instruction))]
pub(crate) fn read_instruction(alloc: Global, cursor: &mut Cursor<'_>) -> Result<Ident, Stop>
    ensures { Gives result cursor.old cursor.new (reads table_text instruction) }
{
    if begins_plain_head(cursor) {
        read_plain_head(alloc, cursor)
    } else {
        read_binding_word(alloc, cursor)
    }
}

//! The reader of procedures.
ghost use Rattle.std.specs.Prelude.{◌≡◌};
ghost use Rattle.qc_grammar.specs.ReaderResult.{Gives, GivesAfter};
ghost use Rattle.qc_grammar.specs.Reading.{reads, first, next_in};
ghost use Rattle.qc_grammar.specs.Grammar.{nonterminal, onto, repetition};
ghost use Rattle.qc_cmm.specs.Cmm.{cmm, any_body, after_label, untyped, body_item, body_items, declared, first_stored};
ghost use Rattle.qc_cmm.specs.Cmm.{untyped_items, untyped_first, typed_next, next_of_body, param, params, procedure};

use crate::expressions::{begins_type, read_type};
use crate::statements::{begins_keyed, read_keyed, read_named, read_store, read_stored};
use crate::syntax::{BodyItem, Declaration, Param, Procedure, WordType};
use qc_grammar::{
    Cursor, Ident, ItemOrLast, Phrase, Stop, UntilLast, read_separated, read_until_last,
};
use qc_text::Kind;
use sqlite_items::Items;
use std::alloc::Global;

#[tactic(auto, unfolding(crate::specs::Cmm::after_label))]
fn read_after_label(alloc: Global, cursor: &mut Cursor<'_>, name: Ident) -> Result<BodyItem, Stop>
    ensures { Gives result cursor.old cursor.new (reads cmm (onto name after_label)) }
{
    if cursor.is_word(b":") {
        cursor.word(b":")?;
        Ok(BodyItem::Label { name })
    } else {
        let statement = read_named(alloc, cursor, name)?;
        Ok(BodyItem::Statement { statement })
    }
}

#[tactic(auto, unfolding(crate::specs::Cmm::untyped))]
fn read_untyped(alloc: Global, cursor: &mut Cursor<'_>) -> Result<BodyItem, Stop>
    ensures { Gives result cursor.old cursor.new (reads cmm untyped) }
{
    if cursor.is_any(Kind::Name) {
        let name = cursor.ident(alloc, Kind::Name)?;
        read_after_label(alloc, cursor, name)
    } else {
        let statement = read_keyed(alloc, cursor)?;
        Ok(BodyItem::Statement { statement })
    }
}

#[tactic(auto, unfolding(crate::specs::Cmm::untyped))]
fn begins_untyped(cursor: &Cursor<'_>) -> bool
    ensures { result ≡ next_in (first cmm untyped) cursor.now }
{
    cursor.is_any(Kind::Name) || begins_keyed(cursor)
}

#[tactic(auto, unfolding(crate::specs::Cmm::body_item))]
fn read_body_item(alloc: Global, cursor: &mut Cursor<'_>) -> Result<BodyItem, Stop>
    ensures { Gives result cursor.old cursor.new (reads cmm body_item) }
{
    if begins_untyped(cursor) {
        read_untyped(alloc, cursor)
    } else {
        let statement = read_store(alloc, cursor)?;
        Ok(BodyItem::Statement { statement })
    }
}

#[tactic(auto, unfolding(crate::specs::Cmm::body_item, crate::specs::Cmm::untyped, crate::specs::Cmm::keyed, crate::specs::Cmm::conditional, crate::specs::Cmm::store, crate::specs::Cmm::type_of))]
fn begins_body_item(cursor: &Cursor<'_>) -> bool
    ensures { result ≡ next_in (first cmm body_item) cursor.now }
{
    begins_untyped(cursor) || begins_type(cursor)
}

/// The first item of a body, and as many others as come.
fn read_items_after(
    alloc: Global,
    cursor: &mut Cursor<'_>,
    first: BodyItem,
) -> Result<Items<BodyItem>, Stop>
    ensures { GivesAfter first result cursor.old cursor.new (reads cmm (repetition body_item)) }
{
    let mut items = Items::new(alloc);
    items.push(first)?;
    while begins_body_item(cursor) {
        match read_body_item(alloc, cursor) {
            Ok(item) => items.push(item)?,
            Err(stop) => return Err(stop),
        }
    }
    Ok(items)
}

#[tactic(auto, unfolding(crate::specs::Cmm::first_stored, crate::specs::Cmm::body_items))]
fn read_first_stored(
    alloc: Global,
    cursor: &mut Cursor<'_>,
    type_of: WordType,
) -> Result<Items<BodyItem>, Stop>
    ensures { Gives result cursor.old cursor.new (reads cmm (onto type_of first_stored)) }
{
    let statement = read_stored(alloc, cursor, type_of)?;
    let items = read_items_after(alloc, cursor, BodyItem::Statement { statement })?;
    cursor.word(b"}")?;
    Ok(items)
}

#[tactic(auto, unfolding(crate::specs::Cmm::untyped_items, crate::specs::Cmm::body_items))]
fn read_untyped_items(alloc: Global, cursor: &mut Cursor<'_>) -> Result<Items<BodyItem>, Stop>
    ensures { Gives result cursor.old cursor.new (reads cmm untyped_items) }
{
    let item = read_untyped(alloc, cursor)?;
    let items = read_items_after(alloc, cursor, item)?;
    cursor.word(b"}")?;
    Ok(items)
}

#[tactic(auto, unfolding(crate::specs::Cmm::untyped_items, crate::specs::Cmm::untyped, crate::specs::Cmm::keyed, crate::specs::Cmm::conditional))]
fn begins_untyped_items(cursor: &Cursor<'_>) -> bool
    ensures { result ≡ next_in (first cmm untyped_items) cursor.now }
{
    begins_untyped(cursor)
}

#[tactic(auto, unfolding(crate::specs::Cmm::untyped_first))]
fn read_untyped_first(alloc: Global, cursor: &mut Cursor<'_>) -> Result<Items<BodyItem>, Stop>
    ensures { Gives result cursor.old cursor.new (reads cmm untyped_first) }
{
    if begins_untyped_items(cursor) {
        read_untyped_items(alloc, cursor)
    } else {
        cursor.word(b"}")?;
        Ok(Items::new(alloc))
    }
}

#[tactic(auto, unfolding(crate::specs::Cmm::declared))]
fn read_declared(
    alloc: Global,
    cursor: &mut Cursor<'_>,
    type_of: WordType,
) -> Result<Declaration, Stop>
    ensures { Gives result cursor.old cursor.new (reads cmm (onto type_of declared)) }
{
    let names = read_separated::<Ident>(alloc, cursor, b",")?;
    cursor.word(b";")?;
    Ok(Declaration { type_of, names })
}

#[tactic(auto, unfolding(crate::specs::Cmm::declared))]
fn begins_declared(cursor: &Cursor<'_>) -> bool
    ensures { result ≡ next_in (first cmm declared) cursor.now }
{
    cursor.is_any(Kind::Name)
}

#[tactic(auto, unfolding(crate::specs::Cmm::typed_next))]
fn read_typed_next(
    alloc: Global,
    cursor: &mut Cursor<'_>,
) -> Result<ItemOrLast<Declaration, Items<BodyItem>>, Stop>
    ensures { Gives result cursor.old cursor.new (reads cmm typed_next) }
{
    let type_of = read_type(cursor)?;
    if begins_declared(cursor) {
        let item = read_declared(alloc, cursor, type_of)?;
        Ok(ItemOrLast::Item { item })
    } else {
        let last = read_first_stored(alloc, cursor, type_of)?;
        Ok(ItemOrLast::Last { last })
    }
}

#[tactic(auto, unfolding(crate::specs::Cmm::typed_next, crate::specs::Cmm::type_of))]
fn begins_typed_next(cursor: &Cursor<'_>) -> bool
    ensures { result ≡ next_in (first cmm typed_next) cursor.now }
{
    begins_type(cursor)
}

/// A declaration, or all statements and labels of a body, and its end.
#[tactic(auto, unfolding(crate::specs::Cmm::next_of_body))]
fn read_next(
    alloc: Global,
    cursor: &mut Cursor<'_>,
) -> Result<ItemOrLast<Declaration, Items<BodyItem>>, Stop>
    ensures { Gives result cursor.old cursor.new (reads cmm next_of_body) }
{
    if begins_typed_next(cursor) {
        read_typed_next(alloc, cursor)
    } else {
        let last = read_untyped_first(alloc, cursor)?;
        Ok(ItemOrLast::Last { last })
    }
}

impl UntilLast for Declaration {
    ghost use Rattle.qc_grammar.specs.Reading.{reads};
    ghost use Rattle.qc_cmm.specs.Cmm.{cmm, next_of_body, next_of_body_shortens};

    type Last = Items<BodyItem>;

    ghost reading = { reads cmm next_of_body };

    ghost shortens = { next_of_body_shortens };

    fn read(
        alloc: Global,
        cursor: &mut Cursor<'_>,
    ) -> Result<ItemOrLast<Declaration, Items<BodyItem>>, Stop> {
        read_next(alloc, cursor)
    }
}

fn read_body(
    alloc: Global,
    cursor: &mut Cursor<'_>,
) -> Result<(Items<Declaration>, Items<BodyItem>), Stop>
    ensures { Gives result cursor.old cursor.new (reads cmm (nonterminal any_body)) }
{
    read_until_last::<Declaration>(alloc, cursor)
}

#[tactic(auto, unfolding(crate::specs::Cmm::param))]
fn read_param(alloc: Global, cursor: &mut Cursor<'_>) -> Result<Param, Stop>
    ensures { Gives result cursor.old cursor.new (reads cmm param) }
{
    let type_of = read_type(cursor)?;
    let name = cursor.ident(alloc, Kind::Name)?;
    Ok(Param { type_of, name })
}

impl Phrase for Param {
    ghost use Rattle.qc_grammar.specs.Reading.{reads};
    ghost use Rattle.qc_cmm.specs.Cmm.{cmm, param, param_shortens};

    ghost reading = { reads cmm param };

    ghost shortens = { param_shortens };

    fn read(alloc: Global, cursor: &mut Cursor<'_>) -> Result<Param, Stop> {
        read_param(alloc, cursor)
    }
}

#[tactic(auto, unfolding(crate::specs::Cmm::params))]
fn read_params(alloc: Global, cursor: &mut Cursor<'_>) -> Result<Items<Param>, Stop>
    ensures { Gives result cursor.old cursor.new (reads cmm params) }
{
    cursor.word(b"(")?;
    if cursor.is_word(b")") {
        cursor.word(b")")?;
        Ok(Items::new(alloc))
    } else {
        let params = read_separated::<Param>(alloc, cursor, b",")?;
        cursor.word(b")")?;
        Ok(params)
    }
}

#[tactic(auto, unfolding(crate::specs::Cmm::procedure))]
pub(crate) fn read_procedure(alloc: Global, cursor: &mut Cursor<'_>) -> Result<Procedure, Stop>
    ensures { Gives result cursor.old cursor.new (reads cmm procedure) }
{
    let name = cursor.ident(alloc, Kind::Name)?;
    let params = read_params(alloc, cursor)?;
    cursor.word(b"{")?;
    let (variables, body) = read_body(alloc, cursor)?;
    Ok(Procedure {
        name,
        params,
        variables,
        body,
    })
}

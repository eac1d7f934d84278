//! Lists in texts: what is read again and again, with a separator between two or with none.
ghost use Rattle.std.specs.Prelude.{◌≡◌, ◌<◌, ◌≤◌, ◌∷◌, [], List, length, IfOk, Ok, OnOk};
ghost use Rattle.qc_text.specs.PrintedWords.{Words, joined, spaced};
ghost use Rattle.qc_grammar.specs.Lexeme.{Class, Word, Lexeme};
ghost use Rattle.qc_grammar.specs.Reading.{Read, next_in};
ghost use Rattle.qc_grammar.specs.ReaderResult.{Gives, GivesAfter, IsReadBy};
ghost use Rattle.qc_grammar.specs.Lists.{Shortens, many, next_reading, separated_reading, items_then_last_reading};
ghost use Rattle.qc_grammar.specs.declared.lists.ItemOrLast.{ItemOrLast};
ghost use Rattle.qc_grammar.specs.declared.lists.ItemOrLast.TheVariants.{Item};

use crate::cursor::{Cursor, Ident, Stop};
use qc_text::Kind;
use sqlite_items::Items;
use std::alloc::{AllocError, Global};

/// A phrase that a list has any number of.
pub trait Phrase: Sized {
    /// What reading by the phrase's grammar gives.
    ghost reading: { List Lexeme → Read Self };

    /// Reads one phrase.
    fn read(alloc: Global, cursor: &mut Cursor<'_>) -> Result<Self, Stop>
        ensures { Gives result cursor.old cursor.new reading };

    /// A phrase has a token.
    ghost shortens: { (tokens : List Lexeme) (x : Self × List Lexeme) → reading tokens ≡ Ok x
        → length x.1 < length tokens };
}

impl Phrase for Ident {
    ghost use Rattle.qc_text.specs.declared.token.Kind.TheVariants.{Name};
    ghost use Rattle.qc_grammar.specs.Reading.{read_ident};
    ghost use Rattle.qc_grammar.specs.Law.Lists.{name_shortens};

    ghost reading = { read_ident Name };

    ghost shortens = { name_shortens };

    fn read(alloc: Global, cursor: &mut Cursor<'_>) -> Result<Ident, Stop> {
        cursor.ident(alloc, Kind::Name)
    }
}

/// A phrase of which the next token tells whether one comes.
pub trait Beginning: Phrase {
    /// The classes of the tokens that begin one.
    ghost classes: { List Class };

    /// The next token begins one.
    fn begins(cursor: &Cursor<'_>) -> bool
        ensures { result ≡ next_in classes cursor.now };
}

/// One phrase or several, with this word between two.
pub fn read_separated<T: Phrase + Drop>(
    alloc: Global,
    cursor: &mut Cursor<'_>,
    separator: &[u8],
) -> Result<Items<T>, Stop>
    ensures { Gives result cursor.old cursor.new (separated_reading T.reading separator.now) }
{
    let first = T::read(alloc, cursor)?;
    read_others(alloc, cursor, first, separator)
}

/// The first phrase of a list, and as many others as come, each with this word before it.
pub fn read_others<T: Phrase + Drop>(
    alloc: Global,
    cursor: &mut Cursor<'_>,
    first: T,
    separator: &[u8],
) -> Result<Items<T>, Stop>
    ensures { GivesAfter first result cursor.old cursor.new
        (many (next_reading T.reading separator.now) (Word separator.now ∷ [])) }
{
    read_others_by(alloc, cursor, first, separator, |next| T::read(alloc, next))
}

/// One phrase or several, with this word between two, where a function reads each phrase.
pub fn read_separated_by<'a, T: Drop, F: Fn(&mut Cursor<'a>) -> Result<T, Stop>>(
    alloc: Global,
    cursor: &mut Cursor<'a>,
    separator: &[u8],
    read: F,
) -> Result<Items<T>, Stop>
    requires callable { (next : _) → length next.now ≤ length cursor.old → F.pre read next }
    requires shorter { (next : _) (item : _) (after : _) → F.post read next (Ok item) after
        → length after.now ≤ length next.now }
    ensures { (reading : List Lexeme → Read T) → Shortens reading → IsReadBy (F.post read) (λ next. next.now) reading
        → Gives result cursor.old cursor.new (separated_reading reading separator.now) }
{
    let first = read(cursor)?;
    read_others_by(alloc, cursor, first, separator, read)
}

/// The first phrase of a list, and as many others as come, each with this word before it, where a function reads each
/// phrase. So are phrases read that have such lists inside: the function may call the one that reads this list, since it
/// is called only after a separator, where fewer tokens are left.
pub fn read_others_by<'a, T: Drop, F: Fn(&mut Cursor<'a>) -> Result<T, Stop>>(
    alloc: Global,
    cursor: &mut Cursor<'a>,
    first: T,
    separator: &[u8],
    read: F,
) -> Result<Items<T>, Stop>
    requires callable { (next : _) → length next.now < length cursor.old → F.pre read next }
    requires shorter { (next : _) (item : _) (after : _) → F.post read next (Ok item) after
        → length after.now ≤ length next.now }
    ensures { (reading : List Lexeme → Read T) → Shortens reading → IsReadBy (F.post read) (λ next. next.now) reading
        → GivesAfter first result cursor.old cursor.new
        (many (next_reading reading separator.now) (Word separator.now ∷ [])) }
{
    let mut items = only(alloc, first)?;
    while cursor.is_word(separator) {
        match read_next_by(cursor, separator, &read) {
            Ok(item) => items.push(item)?,
            Err(stop) => return Err(stop),
        }
    }
    Ok(items)
}

/// A list of one phrase, with room for no other: most lists stay that long.
fn only<T: Drop>(alloc: Global, phrase: T) -> Result<Items<T>, AllocError>
    ensures { IfOk result (λ items. items ≡ phrase ∷ []) }
{
    let mut items = Vec::with_capacity(alloc, 1)?;
    items.push(phrase)?;
    Ok(Items::from_vec(items))
}

/// The separator, and a phrase.
fn read_next_by<'a, T: Drop, F: Fn(&mut Cursor<'a>) -> Result<T, Stop>>(
    cursor: &mut Cursor<'a>,
    separator: &[u8],
    read: &F,
) -> Result<T, Stop>
    requires callable { (next : _) → length next.now < length cursor.old → F.pre read.now next }
    requires shorter { (next : _) (item : _) (after : _) → F.post read.now next (Ok item) after
        → length after.now ≤ length next.now }
    ensures shorter { OnOk result (length cursor.new < length cursor.old) }
    ensures gives { (reading : List Lexeme → Read T) → IsReadBy (F.post read.now) (λ next. next.now) reading
        → Gives result cursor.old cursor.new (next_reading reading separator.now) }
{
    cursor.word(separator)?;
    read(cursor)
}

/// Any number of phrases, one after another.
pub fn read_many<T: Beginning + Drop>(
    alloc: Global,
    cursor: &mut Cursor<'_>,
) -> Result<Items<T>, Stop>
    ensures { Gives result cursor.old cursor.new (many T.reading T.classes) }
{
    read_many_by(
        alloc,
        cursor,
        |next| T::begins(next),
        |next: &mut Cursor<'_>| -> Result<T, Stop>
            ensures { Gives result next.old next.new T.reading }
        { T::read(alloc, next) },
    )
}

/// Any number of phrases, one after another, where one function tells whether a phrase comes, and another one reads it.
pub fn read_many_by<
    'a,
    T: Drop,
    B: Fn(&Cursor<'a>) -> bool,
    F: Fn(&mut Cursor<'a>) -> Result<T, Stop>,
>(alloc: Global, cursor: &mut Cursor<'a>, begins: B, read: F) -> Result<Items<T>, Stop>
    requires asked { B.IsAlwaysCallable begins }
    requires callable { (next : _) → length next.now ≤ length cursor.old → F.pre read next }
    requires shorter { (next : _) (item : _) (after : _) → F.post read next (Ok item) after
        → length after.now < length next.now }
    ensures { (reading : List Lexeme → Read T) (classes : List Class) → Shortens reading
        → IsReadBy (F.post read) (λ next. next.now) reading
        → ((next : _) (comes : _) → B.post begins next comes → comes ≡ next_in classes next.now)
        → Gives result cursor.old cursor.new (many reading classes) }
{
    let mut items = Items::new(alloc);
    while begins(cursor) {
        match read_one_by(cursor, &read) {
            Ok(item) => items.push(item)?,
            Err(stop) => return Err(stop),
        }
    }
    Ok(items)
}

/// A phrase, which has a token.
fn read_one_by<'a, T: Drop, F: Fn(&mut Cursor<'a>) -> Result<T, Stop>>(
    cursor: &mut Cursor<'a>,
    read: &F,
) -> Result<T, Stop>
    requires callable { (next : _) → length next.now ≤ length cursor.old → F.pre read.now next }
    requires shorter { (next : _) (item : _) (after : _) → F.post read.now next (Ok item) after
        → length after.now < length next.now }
    ensures shorter { OnOk result (length cursor.new < length cursor.old) }
    ensures gives { (reading : List Lexeme → Read T) → IsReadBy (F.post read.now) (λ next. next.now) reading
        → Gives result cursor.old cursor.new reading }
{
    read(cursor)
}

/// What comes next in a list of items that goes on until a phrase which may begin as an item does.
pub enum ItemOrLast<T, U> {
    /// One more item.
    Item { item: T },
    /// The phrase that ends the list.
    Last { last: U },
}

/// An item of a list that ends with a phrase which may begin as the item does.
pub trait UntilLast: Sized {
    /// The phrase that ends the list.
    type Last;

    /// What reading gives: one more item, or the phrase that ends the list.
    ghost reading: { List Lexeme → Read (ItemOrLast Self Self.Last) };

    /// Reads one more item, or the phrase that ends the list.
    fn read(alloc: Global, cursor: &mut Cursor<'_>) -> Result<ItemOrLast<Self, Self::Last>, Stop>
        ensures { Gives result cursor.old cursor.new reading };

    /// An item has a token.
    ghost shortens: { (tokens rest : List Lexeme) (x : Self) → reading tokens ≡ Ok (Item x, rest)
        → length rest < length tokens };
}

/// Any number of items, and the phrase that ends them.
pub fn read_until_last<T: UntilLast + Drop>(
    alloc: Global,
    cursor: &mut Cursor<'_>,
) -> Result<(Items<T>, T::Last), Stop>
where
    T::Last: Drop,
    ensures { Gives result cursor.old cursor.new (items_then_last_reading T.reading) }
{
    let mut items = Items::new(alloc);
    loop {
        match T::read(alloc, cursor) {
            Ok(ItemOrLast::Item { item }) => items.push(item)?,
            Ok(ItemOrLast::Last { last }) => return Ok((items, last)),
            Err(stop) => return Err(stop),
        }
    }
}

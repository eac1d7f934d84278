//! The reader of expressions, and of lists of them.
ghost use Rattle.std.specs.Prelude.{◌≡◌, IfOk};
ghost use Rattle.qc_grammar.specs.ReaderResult.{Gives};
ghost use Rattle.qc_grammar.specs.Reading.{reads, first, next_in};
ghost use Rattle.qc_grammar.specs.Grammar.{nonterminal, onto};
ghost use Rattle.qc_cmm.specs.Cmm.{cmm, any_expr, type_of, literal, address, operands, input, prim, load, applied_prim};
ghost use Rattle.qc_cmm.specs.Cmm.{applied_input, plain, expr, arguments};

use crate::syntax::{Expr, Literal, WordType};
use qc_grammar::{Cursor, Ident, Phrase, Stop, read_separated};
use qc_text::Kind;
use sqlite_items::{Boxed, Items};
use std::alloc::{AllocError, Global};

#[tactic(auto, unfolding(crate::specs::Cmm::type_of))]
pub(crate) fn begins_type(cursor: &Cursor<'_>) -> bool
    ensures { result ≡ next_in (first cmm type_of) cursor.now }
{
    cursor.is_word(b"bits8")
        || cursor.is_word(b"bits16")
        || cursor.is_word(b"bits32")
        || cursor.is_word(b"bits64")
}

#[tactic(auto, unfolding(crate::specs::Cmm::type_of))]
pub(crate) fn read_type(cursor: &mut Cursor<'_>) -> Result<WordType, Stop>
    ensures { Gives result cursor.old cursor.new (reads cmm type_of) }
{
    if cursor.is_word(b"bits8") {
        let token = cursor.word(b"bits8")?;
        Ok(WordType::Bits8 { token })
    } else if cursor.is_word(b"bits16") {
        let token = cursor.word(b"bits16")?;
        Ok(WordType::Bits16 { token })
    } else if cursor.is_word(b"bits32") {
        let token = cursor.word(b"bits32")?;
        Ok(WordType::Bits32 { token })
    } else {
        let token = cursor.word(b"bits64")?;
        Ok(WordType::Bits64 { token })
    }
}

#[tactic(auto, unfolding(crate::specs::Cmm::literal))]
fn begins_literal(cursor: &Cursor<'_>) -> bool
    ensures { result ≡ next_in (first cmm literal) cursor.now }
{
    cursor.is_any(Kind::Number) || cursor.is_word(b"-")
}

#[tactic(auto, unfolding(crate::specs::Cmm::literal))]
fn read_literal(cursor: &mut Cursor<'_>) -> Result<Literal, Stop>
    ensures { Gives result cursor.old cursor.new (reads cmm literal) }
{
    if cursor.is_any(Kind::Number) {
        let value = cursor.number()?;
        Ok(Literal::Plain { value })
    } else {
        let token = cursor.word(b"-")?;
        let value = cursor.number()?;
        Ok(Literal::Negative { token, value })
    }
}

impl Phrase for Literal {
    ghost use Rattle.qc_grammar.specs.Reading.{reads};
    ghost use Rattle.qc_cmm.specs.Cmm.{cmm, literal, literal_shortens};

    ghost reading = { reads cmm literal };

    ghost shortens = { literal_shortens };

    fn read(_alloc: Global, cursor: &mut Cursor<'_>) -> Result<Literal, Stop> {
        read_literal(cursor)
    }
}

/// A word of the grammar that is read as a Prim.
fn word_as_prim(alloc: Global, token: usize, word: &[u8]) -> Result<Ident, AllocError>
    ensures { IfOk result (λ prim. prim ≡ record { token = token; text = word.now }) }
{
    let text = Items::from_slice(alloc, word)?;
    Ok(Ident { token, text })
}

#[tactic(auto, unfolding(crate::specs::Cmm::input))]
pub(crate) fn read_input(alloc: Global, cursor: &mut Cursor<'_>) -> Result<Ident, Stop>
    ensures { Gives result cursor.old cursor.new (reads cmm input) }
{
    let token = cursor.word(b"%in")?;
    let prim = word_as_prim(alloc, token, b"%in")?;
    Ok(prim)
}

#[tactic(auto, unfolding(crate::specs::Cmm::prim))]
fn read_prim(alloc: Global, cursor: &mut Cursor<'_>) -> Result<Ident, Stop>
    ensures { Gives result cursor.old cursor.new (reads cmm prim) }
{
    if cursor.is_any(Kind::Prim) {
        cursor.ident(alloc, Kind::Prim)
    } else {
        let token = cursor.word(b"%out")?;
        let prim = word_as_prim(alloc, token, b"%out")?;
        Ok(prim)
    }
}

#[tactic(auto, unfolding(crate::specs::Cmm::load, crate::specs::Cmm::type_of))]
fn begins_load(cursor: &Cursor<'_>) -> bool
    ensures { result ≡ next_in (first cmm load) cursor.now }
{
    begins_type(cursor)
}

#[tactic(auto, unfolding(crate::specs::Cmm::applied_input, crate::specs::Cmm::input))]
fn begins_applied_input(cursor: &Cursor<'_>) -> bool
    ensures { result ≡ next_in (first cmm applied_input) cursor.now }
{
    cursor.is_word(b"%in")
}

#[cycle(expressions)]
pub(crate) fn read_any_expr(alloc: Global, cursor: &mut Cursor<'_>) -> Result<Expr, Stop>
    ensures { Gives result cursor.old cursor.new (reads cmm (nonterminal any_expr)) }
{
    read_expr(alloc, cursor)
}

#[tactic(auto, unfolding(crate::specs::Cmm::expr))]
#[cycle(expressions)]
fn read_expr(alloc: Global, cursor: &mut Cursor<'_>) -> Result<Expr, Stop>
    ensures { Gives result cursor.old cursor.new (reads cmm expr) }
{
    if cursor.is_any(Kind::Name) {
        let name = cursor.ident(alloc, Kind::Name)?;
        Ok(Expr::Name { name })
    } else if begins_applied_input(cursor) {
        read_applied_input(alloc, cursor)
    } else {
        read_plain(alloc, cursor)
    }
}

#[tactic(auto, unfolding(crate::specs::Cmm::plain))]
#[cycle(expressions)]
pub(crate) fn read_plain(alloc: Global, cursor: &mut Cursor<'_>) -> Result<Expr, Stop>
    ensures { Gives result cursor.old cursor.new (reads cmm plain) }
{
    if begins_literal(cursor) {
        let value = read_literal(cursor)?;
        Ok(Expr::Literal { value })
    } else if begins_load(cursor) {
        read_load(alloc, cursor)
    } else {
        read_applied_prim(alloc, cursor)
    }
}

#[tactic(auto, unfolding(crate::specs::Cmm::load))]
#[cycle(expressions)]
fn read_load(alloc: Global, cursor: &mut Cursor<'_>) -> Result<Expr, Stop>
    ensures { Gives result cursor.old cursor.new (reads cmm load) }
{
    let type_of = read_type(cursor)?;
    let address = Boxed::new(alloc, read_address(alloc, cursor)?)?;
    Ok(Expr::Load { type_of, address })
}

#[tactic(auto, unfolding(crate::specs::Cmm::applied_prim))]
#[cycle(expressions)]
fn read_applied_prim(alloc: Global, cursor: &mut Cursor<'_>) -> Result<Expr, Stop>
    ensures { Gives result cursor.old cursor.new (reads cmm applied_prim) }
{
    let prim = read_prim(alloc, cursor)?;
    cursor.word(b"(")?;
    read_operands(alloc, cursor, prim)
}

#[tactic(auto, unfolding(crate::specs::Cmm::applied_input))]
#[cycle(expressions)]
fn read_applied_input(alloc: Global, cursor: &mut Cursor<'_>) -> Result<Expr, Stop>
    ensures { Gives result cursor.old cursor.new (reads cmm applied_input) }
{
    let prim = read_input(alloc, cursor)?;
    cursor.word(b"(")?;
    read_operands(alloc, cursor, prim)
}

#[tactic(auto, unfolding(crate::specs::Cmm::address))]
#[cycle(expressions)]
pub(crate) fn read_address(alloc: Global, cursor: &mut Cursor<'_>) -> Result<Expr, Stop>
    ensures { Gives result cursor.old cursor.new (reads cmm address) }
{
    cursor.word(b"[")?;
    let address = read_any_expr(alloc, cursor)?;
    cursor.word(b"]")?;
    Ok(address)
}

#[tactic(auto, unfolding(crate::specs::Cmm::operands, crate::specs::Cmm::after_operand))]
#[cycle(expressions)]
pub(crate) fn read_operands(
    alloc: Global,
    cursor: &mut Cursor<'_>,
    prim: Ident,
) -> Result<Expr, Stop>
    ensures { Gives result cursor.old cursor.new (reads cmm (onto prim operands)) }
{
    let first = Boxed::new(alloc, read_any_expr(alloc, cursor)?)?;
    if cursor.is_word(b",") {
        cursor.word(b",")?;
        let second = Boxed::new(alloc, read_any_expr(alloc, cursor)?)?;
        cursor.word(b")")?;
        Ok(Expr::Binary {
            prim,
            left: first,
            right: second,
        })
    } else {
        cursor.word(b")")?;
        Ok(Expr::Unary { prim, arg: first })
    }
}

impl Phrase for Expr {
    ghost use Rattle.qc_grammar.specs.Reading.{reads};
    ghost use Rattle.qc_grammar.specs.Grammar.{nonterminal};
    ghost use Rattle.qc_cmm.specs.Cmm.{cmm, any_expr, expr_shortens};

    ghost reading = { reads cmm (nonterminal any_expr) };

    ghost shortens = { expr_shortens };

    fn read(alloc: Global, cursor: &mut Cursor<'_>) -> Result<Expr, Stop> {
        read_any_expr(alloc, cursor)
    }
}

#[tactic(auto, unfolding(crate::specs::Cmm::arguments))]
pub(crate) fn read_arguments(alloc: Global, cursor: &mut Cursor<'_>) -> Result<Items<Expr>, Stop>
    ensures { Gives result cursor.old cursor.new (reads cmm arguments) }
{
    if cursor.is_word(b")") {
        cursor.word(b")")?;
        Ok(Items::new(alloc))
    } else {
        let args = read_separated::<Expr>(alloc, cursor, b",")?;
        cursor.word(b")")?;
        Ok(args)
    }
}

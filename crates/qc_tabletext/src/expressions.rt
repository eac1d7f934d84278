//! The reader of expressions, which constants are.
ghost use Rattle.std.specs.Prelude.{◌≡◌};
ghost use Rattle.qc_grammar.specs.ReaderResult.{Gives};
ghost use Rattle.qc_grammar.specs.Reading.{reads, first, next_in};
ghost use Rattle.qc_grammar.specs.Grammar.{nonterminal, onto};
ghost use Rattle.qc_tabletext.specs.TableText.{table_text, any_expr, exprs, arguments, address, argument, cell, cell_of};
ghost use Rattle.qc_tabletext.specs.TableText.{after_name, space_cell, leaf, loaded, zero_extended, sign_extended, sliced};
ghost use Rattle.qc_tabletext.specs.TableText.{sized, expr, space_word};

use crate::heads::{begins_space_word, named, read_space_word};
use qc_grammar::{Cursor, Ident, Number, Stop, read_separated_by};
use qc_lrtl::Expr;
use qc_text::Kind;
use sqlite_items::{Boxed, Items};
use std::alloc::Global;

#[tactic(auto, unfolding(crate::specs::TableText::cell))]
fn read_cell(cursor: &mut Cursor<'_>) -> Result<Number, Stop>
    ensures { Gives result cursor.old cursor.new (reads table_text cell) }
{
    cursor.word(b"[")?;
    let number = cursor.number()?;
    cursor.word(b"]")?;
    Ok(number)
}

/// The number of a cell, after a reserved word that is its space's name.
#[tactic(auto, unfolding(crate::specs::TableText::cell_of))]
fn read_cell_of(
    alloc: Global,
    cursor: &mut Cursor<'_>,
    token: usize,
    word: &[u8],
) -> Result<Expr, Stop>
    ensures { Gives result cursor.old cursor.new (reads table_text (onto token (cell_of word.now))) }
{
    let cell = read_cell(cursor)?;
    let space = named(alloc, token, word)?;
    Ok(Expr::Cell { space, cell })
}

#[tactic(auto, unfolding(crate::specs::TableText::space_cell))]
fn read_space_cell(alloc: Global, cursor: &mut Cursor<'_>) -> Result<Expr, Stop>
    ensures { Gives result cursor.old cursor.new (reads table_text space_cell) }
{
    let space = read_space_word(alloc, cursor)?;
    let cell = read_cell(cursor)?;
    Ok(Expr::Cell { space, cell })
}

#[tactic(auto, unfolding(crate::specs::TableText::space_cell, crate::specs::TableText::space_word, crate::specs::TableText::table_word, crate::specs::TableText::binding_word))]
fn begins_space_cell(cursor: &Cursor<'_>) -> bool
    ensures { result ≡ next_in (first table_text space_cell) cursor.now }
{
    begins_space_word(cursor)
}

#[tactic(auto, unfolding(crate::specs::TableText::leaf))]
fn begins_leaf(cursor: &Cursor<'_>) -> bool
    ensures { result ≡ next_in (first table_text leaf) cursor.now }
{
    cursor.is_word(b"input") || cursor.is_word(b"after")
}

#[tactic(auto, unfolding(crate::specs::TableText::leaf, crate::specs::TableText::cell_of, crate::specs::TableText::cell))]
fn read_leaf(alloc: Global, cursor: &mut Cursor<'_>) -> Result<Expr, Stop>
    ensures { Gives result cursor.old cursor.new (reads table_text leaf) }
{
    if cursor.is_word(b"input") {
        let token = cursor.word(b"input")?;
        if cursor.is_word(b"[") {
            read_cell_of(alloc, cursor, token, b"input")
        } else {
            Ok(Expr::Input { token })
        }
    } else {
        let token = cursor.word(b"after")?;
        if cursor.is_word(b"[") {
            read_cell_of(alloc, cursor, token, b"after")
        } else {
            Ok(Expr::After { token })
        }
    }
}

#[cycle(expressions)]
pub(crate) fn read_any_expr(alloc: Global, cursor: &mut Cursor<'_>) -> Result<Expr, Stop>
    ensures { Gives result cursor.old cursor.new (reads table_text (nonterminal any_expr)) }
{
    read_expr(alloc, cursor)
}

#[tactic(auto, unfolding(crate::specs::TableText::expr))]
#[cycle(expressions)]
fn read_expr(alloc: Global, cursor: &mut Cursor<'_>) -> Result<Expr, Stop>
    ensures { Gives result cursor.old cursor.new (reads table_text expr) }
{
    if cursor.is_any(Kind::Number) {
        let value = cursor.number()?;
        cursor.word(b"'")?;
        let bits = cursor.number()?;
        Ok(Expr::Literal { value, bits })
    } else if cursor.is_any(Kind::Name) {
        let name = cursor.ident(alloc, Kind::Name)?;
        read_after_name(alloc, cursor, name)
    } else if begins_space_cell(cursor) {
        read_space_cell(alloc, cursor)
    } else if begins_leaf(cursor) {
        read_leaf(alloc, cursor)
    } else {
        read_sized(alloc, cursor)
    }
}

#[tactic(auto, unfolding(crate::specs::TableText::after_name, crate::specs::TableText::cell))]
#[cycle(expressions)]
fn read_after_name(alloc: Global, cursor: &mut Cursor<'_>, name: Ident) -> Result<Expr, Stop>
    ensures { Gives result cursor.old cursor.new (reads table_text (onto name after_name)) }
{
    if cursor.is_word(b"(") {
        cursor.word(b"(")?;
        let args = read_arguments(alloc, cursor)?;
        Ok(Expr::Call { name, args })
    } else if cursor.is_word(b"[") {
        let cell = read_cell(cursor)?;
        Ok(Expr::Cell { space: name, cell })
    } else {
        Ok(Expr::Name { name })
    }
}

#[tactic(auto, unfolding(crate::specs::TableText::sized))]
#[cycle(expressions)]
fn read_sized(alloc: Global, cursor: &mut Cursor<'_>) -> Result<Expr, Stop>
    ensures { Gives result cursor.old cursor.new (reads table_text sized) }
{
    if cursor.is_word(b"mem") {
        let token = cursor.word(b"mem")?;
        read_loaded(alloc, cursor, token)
    } else if cursor.is_word(b"zx") {
        let token = cursor.word(b"zx")?;
        read_zero_extended(alloc, cursor, token)
    } else if cursor.is_word(b"sx") {
        let token = cursor.word(b"sx")?;
        read_sign_extended(alloc, cursor, token)
    } else {
        let token = cursor.word(b"slice")?;
        read_sliced(alloc, cursor, token)
    }
}

#[tactic(auto, unfolding(crate::specs::TableText::loaded, crate::specs::TableText::cell_of, crate::specs::TableText::cell))]
#[cycle(expressions)]
fn read_loaded(alloc: Global, cursor: &mut Cursor<'_>, token: usize) -> Result<Expr, Stop>
    ensures { Gives result cursor.old cursor.new (reads table_text (onto token loaded)) }
{
    if cursor.is_word(b"[") {
        read_cell_of(alloc, cursor, token, b"mem")
    } else {
        let bits = cursor.number()?;
        let address = Boxed::new(alloc, read_address(alloc, cursor)?)?;
        Ok(Expr::Mem {
            token,
            bits,
            address,
        })
    }
}

#[tactic(auto, unfolding(crate::specs::TableText::zero_extended, crate::specs::TableText::cell_of, crate::specs::TableText::cell))]
#[cycle(expressions)]
fn read_zero_extended(alloc: Global, cursor: &mut Cursor<'_>, token: usize) -> Result<Expr, Stop>
    ensures { Gives result cursor.old cursor.new (reads table_text (onto token zero_extended)) }
{
    if cursor.is_word(b"[") {
        read_cell_of(alloc, cursor, token, b"zx")
    } else {
        let bits = cursor.number()?;
        let arg = Boxed::new(alloc, read_argument(alloc, cursor)?)?;
        Ok(Expr::Zx { token, bits, arg })
    }
}

#[tactic(auto, unfolding(crate::specs::TableText::sign_extended, crate::specs::TableText::cell_of, crate::specs::TableText::cell))]
#[cycle(expressions)]
fn read_sign_extended(alloc: Global, cursor: &mut Cursor<'_>, token: usize) -> Result<Expr, Stop>
    ensures { Gives result cursor.old cursor.new (reads table_text (onto token sign_extended)) }
{
    if cursor.is_word(b"[") {
        read_cell_of(alloc, cursor, token, b"sx")
    } else {
        let bits = cursor.number()?;
        let arg = Boxed::new(alloc, read_argument(alloc, cursor)?)?;
        Ok(Expr::Sx { token, bits, arg })
    }
}

#[tactic(auto, unfolding(crate::specs::TableText::sliced, crate::specs::TableText::cell_of, crate::specs::TableText::cell))]
#[cycle(expressions)]
fn read_sliced(alloc: Global, cursor: &mut Cursor<'_>, token: usize) -> Result<Expr, Stop>
    ensures { Gives result cursor.old cursor.new (reads table_text (onto token sliced)) }
{
    if cursor.is_word(b"[") {
        read_cell_of(alloc, cursor, token, b"slice")
    } else {
        let low = cursor.number()?;
        let bits = cursor.number()?;
        let arg = Boxed::new(alloc, read_argument(alloc, cursor)?)?;
        Ok(Expr::Slice {
            token,
            low,
            bits,
            arg,
        })
    }
}

#[tactic(auto, unfolding(crate::specs::TableText::address))]
#[cycle(expressions)]
fn read_address(alloc: Global, cursor: &mut Cursor<'_>) -> Result<Expr, Stop>
    ensures { Gives result cursor.old cursor.new (reads table_text address) }
{
    cursor.word(b"[")?;
    let address = read_any_expr(alloc, cursor)?;
    cursor.word(b"]")?;
    Ok(address)
}

#[tactic(auto, unfolding(crate::specs::TableText::argument))]
#[cycle(expressions)]
fn read_argument(alloc: Global, cursor: &mut Cursor<'_>) -> Result<Expr, Stop>
    ensures { Gives result cursor.old cursor.new (reads table_text argument) }
{
    cursor.word(b"(")?;
    let arg = read_any_expr(alloc, cursor)?;
    cursor.word(b")")?;
    Ok(arg)
}

#[tactic(auto, unfolding(crate::specs::TableText::arguments))]
#[cycle(expressions)]
fn read_arguments(alloc: Global, cursor: &mut Cursor<'_>) -> Result<Items<Expr>, Stop>
    ensures { Gives result cursor.old cursor.new (reads table_text arguments) }
{
    if cursor.is_word(b")") {
        cursor.word(b")")?;
        Ok(Items::new(alloc))
    } else {
        let args = read_exprs(alloc, cursor)?;
        cursor.word(b")")?;
        Ok(args)
    }
}

#[tactic(auto, unfolding(crate::specs::TableText::exprs))]
#[cycle(expressions)]
fn read_exprs(alloc: Global, cursor: &mut Cursor<'_>) -> Result<Items<Expr>, Stop>
    ensures { Gives result cursor.old cursor.new (reads table_text exprs) }
{
    read_separated_by(
        alloc,
        cursor,
        b",",
        |next: &mut Cursor<'_>| -> Result<Expr, Stop>
            ensures { Gives result next.old next.new (reads table_text (nonterminal any_expr)) }
        { read_any_expr(alloc, next) },
    )
}

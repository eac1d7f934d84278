//! The reader of expressions.
ghost use Rattle.std.specs.Prelude.{◌≡◌};
ghost use Rattle.qc_grammar.specs.ReaderResult.{Gives};
ghost use Rattle.qc_grammar.specs.Reading.{reads};
ghost use Rattle.qc_grammar.specs.Grammar.{nonterminal, onto};
ghost use Rattle.qc_lrtl.specs.LambdaRtl.{lambda_rtl, any_expr, exprs, arguments, address, argument};
ghost use Rattle.qc_lrtl.specs.LambdaRtl.{cell, after_name, resized, built, expr, assigned};

use crate::syntax::Expr;
use qc_grammar::{Cursor, Ident, Number, Stop, read_separated_by};
use qc_text::Kind;
use sqlite_items::{Boxed, Items};
use std::alloc::Global;

#[tactic(auto, unfolding(crate::specs::LambdaRtl::cell))]
pub(crate) fn read_cell(cursor: &mut Cursor<'_>) -> Result<Number, Stop>
    ensures { Gives result cursor.old cursor.new (reads lambda_rtl cell) }
{
    cursor.word(b"[")?;
    let number = cursor.number()?;
    cursor.word(b"]")?;
    Ok(number)
}

#[cycle(expressions)]
pub(crate) fn read_any_expr(alloc: Global, cursor: &mut Cursor<'_>) -> Result<Expr, Stop>
    ensures { Gives result cursor.old cursor.new (reads lambda_rtl (nonterminal any_expr)) }
{
    read_expr(alloc, cursor)
}

#[tactic(auto, unfolding(crate::specs::LambdaRtl::expr))]
#[cycle(expressions)]
fn read_expr(alloc: Global, cursor: &mut Cursor<'_>) -> Result<Expr, Stop>
    ensures { Gives result cursor.old cursor.new (reads lambda_rtl expr) }
{
    if cursor.is_any(Kind::Number) {
        let value = cursor.number()?;
        cursor.word(b"'")?;
        let bits = cursor.number()?;
        Ok(Expr::Literal { value, bits })
    } else if cursor.is_any(Kind::Name) {
        let name = cursor.ident(alloc, Kind::Name)?;
        read_after_name(alloc, cursor, name)
    } else {
        read_built(alloc, cursor)
    }
}

#[tactic(auto, unfolding(crate::specs::LambdaRtl::after_name, crate::specs::LambdaRtl::cell))]
#[cycle(expressions)]
fn read_after_name(alloc: Global, cursor: &mut Cursor<'_>, name: Ident) -> Result<Expr, Stop>
    ensures { Gives result cursor.old cursor.new (reads lambda_rtl (onto name after_name)) }
{
    if cursor.is_word(b"(") {
        cursor.word(b"(")?;
        let args = read_arguments(alloc, cursor)?;
        Ok(Expr::Call { name, args })
    } else if cursor.is_word(b"[") {
        let cell = read_cell(cursor)?;
        Ok(Expr::Cell { space: name, cell })
    } else {
        Ok(Expr::Name { name })
    }
}

#[tactic(auto, unfolding(crate::specs::LambdaRtl::built))]
#[cycle(expressions)]
fn read_built(alloc: Global, cursor: &mut Cursor<'_>) -> Result<Expr, Stop>
    ensures { Gives result cursor.old cursor.new (reads lambda_rtl built) }
{
    if cursor.is_word(b"input") {
        let token = cursor.word(b"input")?;
        Ok(Expr::Input { token })
    } else if cursor.is_word(b"after") {
        let token = cursor.word(b"after")?;
        Ok(Expr::After { token })
    } else if cursor.is_word(b"mem") {
        let token = cursor.word(b"mem")?;
        let bits = cursor.number()?;
        let address = Boxed::new(alloc, read_address(alloc, cursor)?)?;
        Ok(Expr::Mem {
            token,
            bits,
            address,
        })
    } else {
        read_resized(alloc, cursor)
    }
}

#[tactic(auto, unfolding(crate::specs::LambdaRtl::resized))]
#[cycle(expressions)]
fn read_resized(alloc: Global, cursor: &mut Cursor<'_>) -> Result<Expr, Stop>
    ensures { Gives result cursor.old cursor.new (reads lambda_rtl resized) }
{
    if cursor.is_word(b"zx") {
        let token = cursor.word(b"zx")?;
        let bits = cursor.number()?;
        let arg = Boxed::new(alloc, read_argument(alloc, cursor)?)?;
        Ok(Expr::Zx { token, bits, arg })
    } else if cursor.is_word(b"sx") {
        let token = cursor.word(b"sx")?;
        let bits = cursor.number()?;
        let arg = Boxed::new(alloc, read_argument(alloc, cursor)?)?;
        Ok(Expr::Sx { token, bits, arg })
    } else {
        let token = cursor.word(b"slice")?;
        let low = cursor.number()?;
        let bits = cursor.number()?;
        let arg = Boxed::new(alloc, read_argument(alloc, cursor)?)?;
        Ok(Expr::Slice {
            token,
            low,
            bits,
            arg,
        })
    }
}

#[tactic(auto, unfolding(crate::specs::LambdaRtl::address))]
#[cycle(expressions)]
pub(crate) fn read_address(alloc: Global, cursor: &mut Cursor<'_>) -> Result<Expr, Stop>
    ensures { Gives result cursor.old cursor.new (reads lambda_rtl address) }
{
    cursor.word(b"[")?;
    let address = read_any_expr(alloc, cursor)?;
    cursor.word(b"]")?;
    Ok(address)
}

#[tactic(auto, unfolding(crate::specs::LambdaRtl::argument))]
#[cycle(expressions)]
fn read_argument(alloc: Global, cursor: &mut Cursor<'_>) -> Result<Expr, Stop>
    ensures { Gives result cursor.old cursor.new (reads lambda_rtl argument) }
{
    cursor.word(b"(")?;
    let arg = read_any_expr(alloc, cursor)?;
    cursor.word(b")")?;
    Ok(arg)
}

#[tactic(auto, unfolding(crate::specs::LambdaRtl::arguments))]
#[cycle(expressions)]
pub(crate) fn read_arguments(alloc: Global, cursor: &mut Cursor<'_>) -> Result<Items<Expr>, Stop>
    ensures { Gives result cursor.old cursor.new (reads lambda_rtl arguments) }
{
    if cursor.is_word(b")") {
        cursor.word(b")")?;
        Ok(Items::new(alloc))
    } else {
        let args = read_exprs(alloc, cursor)?;
        cursor.word(b")")?;
        Ok(args)
    }
}

#[tactic(auto, unfolding(crate::specs::LambdaRtl::exprs))]
#[cycle(expressions)]
fn read_exprs(alloc: Global, cursor: &mut Cursor<'_>) -> Result<Items<Expr>, Stop>
    ensures { Gives result cursor.old cursor.new (reads lambda_rtl exprs) }
{
    read_separated_by(
        alloc,
        cursor,
        b",",
        |next: &mut Cursor<'_>| -> Result<Expr, Stop>
            ensures { Gives result next.old next.new (reads lambda_rtl (nonterminal any_expr)) }
        { read_any_expr(alloc, next) },
    )
}

#[tactic(auto, unfolding(crate::specs::LambdaRtl::assigned))]
pub(crate) fn read_assigned(alloc: Global, cursor: &mut Cursor<'_>) -> Result<Expr, Stop>
    ensures { Gives result cursor.old cursor.new (reads lambda_rtl assigned) }
{
    cursor.word(b":=")?;
    read_any_expr(alloc, cursor)
}

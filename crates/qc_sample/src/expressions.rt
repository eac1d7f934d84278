//! The reader of expressions.
ghost use Rattle.std.specs.Prelude.{◌≡◌};
ghost use Rattle.qc_grammar.specs.ReaderResult.{Gives};
ghost use Rattle.qc_grammar.specs.Reading.{reads};
ghost use Rattle.qc_grammar.specs.Grammar.{nonterminal, onto};
ghost use Rattle.qc_sample.specs.Sample.{sample, any_expr, exprs, arguments, after_name, expr};

use crate::syntax::Expr;
use qc_grammar::{Cursor, Ident, Stop, read_separated_by};
use qc_text::Kind;
use sqlite_items::{Boxed, Items};
use std::alloc::Global;

#[cycle(expressions)]
pub(crate) fn read_any_expr(alloc: Global, cursor: &mut Cursor<'_>) -> Result<Expr, Stop>
    ensures { Gives result cursor.old cursor.new (reads sample (nonterminal any_expr)) }
{
    read_expr(alloc, cursor)
}

#[tactic(auto, unfolding(crate::specs::Sample::expr))]
#[cycle(expressions)]
fn read_expr(alloc: Global, cursor: &mut Cursor<'_>) -> Result<Expr, Stop>
    ensures { Gives result cursor.old cursor.new (reads sample expr) }
{
    if cursor.is_any(Kind::Number) {
        let value = cursor.number()?;
        Ok(Expr::Number { value })
    } else if cursor.is_word(b"not") {
        let token = cursor.word(b"not")?;
        let arg = Boxed::new(alloc, read_any_expr(alloc, cursor)?)?;
        Ok(Expr::Not { token, arg })
    } else if cursor.is_any(Kind::Name) {
        let name = cursor.ident(alloc, Kind::Name)?;
        read_after_name(alloc, cursor, name)
    } else {
        cursor.word(b"(")?;
        let inner = Boxed::new(alloc, read_any_expr(alloc, cursor)?)?;
        cursor.word(b")")?;
        Ok(Expr::Group { inner })
    }
}

#[tactic(auto, unfolding(crate::specs::Sample::after_name))]
#[cycle(expressions)]
fn read_after_name(alloc: Global, cursor: &mut Cursor<'_>, name: Ident) -> Result<Expr, Stop>
    ensures { Gives result cursor.old cursor.new (reads sample (onto name after_name)) }
{
    if cursor.is_word(b"(") {
        cursor.word(b"(")?;
        let args = read_arguments(alloc, cursor)?;
        Ok(Expr::Call { name, args })
    } else if cursor.is_word(b"[") {
        cursor.word(b"[")?;
        let at = Boxed::new(alloc, read_any_expr(alloc, cursor)?)?;
        cursor.word(b"]")?;
        Ok(Expr::Index { name, at })
    } else {
        Ok(Expr::Name { name })
    }
}

#[tactic(auto, unfolding(crate::specs::Sample::arguments))]
#[cycle(expressions)]
pub(crate) fn read_arguments(alloc: Global, cursor: &mut Cursor<'_>) -> Result<Items<Expr>, Stop>
    ensures { Gives result cursor.old cursor.new (reads sample arguments) }
{
    if cursor.is_word(b")") {
        cursor.word(b")")?;
        Ok(Items::new(alloc))
    } else {
        let args = read_exprs(alloc, cursor)?;
        cursor.word(b")")?;
        Ok(args)
    }
}

#[tactic(auto, unfolding(crate::specs::Sample::exprs))]
#[cycle(expressions)]
pub(crate) fn read_exprs(alloc: Global, cursor: &mut Cursor<'_>) -> Result<Items<Expr>, Stop>
    ensures { Gives result cursor.old cursor.new (reads sample exprs) }
{
    read_separated_by(
        alloc,
        cursor,
        b",",
        |next: &mut Cursor<'_>| -> Result<Expr, Stop>
            ensures { Gives result next.old next.new (reads sample (nonterminal any_expr)) }
        { read_any_expr(alloc, next) },
    )
}

//! The printer of expressions: each word, and a blank after it.
ghost use Rattle.std.specs.Prelude.{◌≡◌, ◌++◌, ◌∷◌, [], ◌<◌, length, drop, codes, OnOk};
ghost use Rattle.std.specs.List.{flat_map};
ghost use Rattle.qc_text.specs.PrintedWords.{spaced};
ghost use Rattle.qc_grammar.specs.Printing.{digits, next_words, separated_words};
ghost use Rattle.qc_lrtl.specs.Printed.{expr_words};

use qc_grammar::{Ident, Number, put, put_number};
use qc_lrtl::Expr;
use sqlite_items::Boxed;
use std::alloc::{AllocError, Global};

#[tactic(auto, using(crate::proofs::Writing::writing))]
#[cycle(expressions)]
pub(crate) fn write_expr(alloc: Global, out: &mut Vec<u8>, expr: &Expr) -> Result<(), AllocError>
    ensures { OnOk result (out.new.items ≡ out.old.items ++ spaced (expr_words expr.now)) }
{
    match expr {
        Expr::Literal { value, bits } => {
            put_number(alloc, out, value)?;
            put(out, b"'")?;
            put_number(alloc, out, bits)
        }
        Expr::Input { .. } => put(out, b"input"),
        Expr::After { .. } => put(out, b"after"),
        Expr::Mem { bits, address, .. } => write_memory(alloc, out, bits, address.get()),
        Expr::Zx { bits, arg, .. } => {
            put(out, b"zx")?;
            put_number(alloc, out, bits)?;
            write_argument(alloc, out, arg)
        }
        Expr::Sx { bits, arg, .. } => {
            put(out, b"sx")?;
            put_number(alloc, out, bits)?;
            write_argument(alloc, out, arg)
        }
        Expr::Slice { low, bits, arg, .. } => {
            put(out, b"slice")?;
            put_number(alloc, out, low)?;
            put_number(alloc, out, bits)?;
            write_argument(alloc, out, arg)
        }
        Expr::Name { name } => put(out, name.text.as_slice()),
        Expr::Call { name, args } => write_call(alloc, out, name, args.as_slice()),
        Expr::Cell { space, cell } => write_cell(alloc, out, space, cell),
    }
}

/// The word of so many bits at an address.
#[tactic(auto, using(crate::proofs::Writing::writing))]
#[cycle(expressions)]
fn write_memory(
    alloc: Global,
    out: &mut Vec<u8>,
    bits: &Number,
    address: &Expr,
) -> Result<(), AllocError>
    ensures { OnOk result (out.new.items ≡ out.old.items
        ++ spaced (codes "mem" ∷ digits bits.now ∷ codes "[" ∷ (expr_words address.now ++ codes "]" ∷ []))) }
{
    put(out, b"mem")?;
    put_number(alloc, out, bits)?;
    put(out, b"[")?;
    write_expr(alloc, out, address)?;
    put(out, b"]")
}

/// A cell of a space.
#[tactic(auto, using(crate::proofs::Writing::writing))]
fn write_cell(
    alloc: Global,
    out: &mut Vec<u8>,
    space: &Ident,
    cell: &Number,
) -> Result<(), AllocError>
    ensures { OnOk result (out.new.items ≡ out.old.items
        ++ spaced (space.now.text ∷ codes "[" ∷ digits cell.now ∷ codes "]" ∷ [])) }
{
    put(out, space.text.as_slice())?;
    put(out, b"[")?;
    put_number(alloc, out, cell)?;
    put(out, b"]")
}

/// A name with its arguments.
#[tactic(auto, using(crate::proofs::Writing::writing))]
#[cycle(expressions)]
fn write_call(
    alloc: Global,
    out: &mut Vec<u8>,
    name: &Ident,
    args: &[Expr],
) -> Result<(), AllocError>
    ensures { OnOk result (out.new.items ≡ out.old.items
        ++ spaced (name.now.text ∷ codes "(" ∷ (separated_words (codes ",") expr_words args.now ++ codes ")" ∷ []))) }
{
    put(out, name.text.as_slice())?;
    put(out, b"(")?;
    write_exprs(alloc, out, args)?;
    put(out, b")")
}

/// An expression between parentheses.
#[tactic(auto, using(crate::proofs::Writing::writing))]
#[cycle(expressions)]
fn write_argument(alloc: Global, out: &mut Vec<u8>, arg: &Boxed<Expr>) -> Result<(), AllocError>
    ensures { OnOk result (out.new.items
        ≡ out.old.items ++ spaced (codes "(" ∷ (expr_words arg.now ++ codes ")" ∷ []))) }
{
    put(out, b"(")?;
    write_expr(alloc, out, arg.get())?;
    put(out, b")")
}

#[cycle(expressions)]
fn write_exprs(alloc: Global, out: &mut Vec<u8>, exprs: &[Expr]) -> Result<(), AllocError>
    ensures { OnOk result (out.new.items ≡ out.old.items ++ spaced (separated_words (codes ",") expr_words exprs.now)) }
{
    if exprs.is_empty() {
        return Ok(());
    }
    write_expr(alloc, out, &exprs[0])?;
    write_more_exprs(alloc, out, exprs)
}

/// The expressions after the first, each with a comma before it.
#[tactic(auto, unfolding(qc_grammar::specs::Printing::next_words), using(crate::proofs::Writing::writing))]
#[cycle(expressions)]
fn write_more_exprs(alloc: Global, out: &mut Vec<u8>, exprs: &[Expr]) -> Result<(), AllocError>
    requires { 0 < length exprs.now }
    ensures { OnOk result (out.new.items
        ≡ out.old.items ++ spaced (flat_map (next_words (codes ",") expr_words) (drop 1 exprs.now))) }
{
    for place in 1..exprs.len() {
        put(out, b",")?;
        write_expr(alloc, out, &exprs[place])?;
    }
    Ok(())
}

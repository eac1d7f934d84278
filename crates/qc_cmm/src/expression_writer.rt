//! The printer of expressions: each word, and a blank after it.
ghost use Rattle.std.specs.Prelude.{◌≡◌, ◌++◌, ◌∷◌, [], codes, OnOk};
ghost use Rattle.qc_text.specs.PrintedWords.{spaced};
ghost use Rattle.qc_grammar.specs.Printing.{separated_words};
ghost use Rattle.qc_cmm.specs.Printed.{type_words, literal_words, indexed, applied_to, expr_words};
ghost use Rattle.qc_cmm.specs.Printed.{arguments_words, call_words};

use crate::syntax::{Expr, Literal, WordType};
use qc_grammar::{Ident, Printed, put, put_number, write_separated};
use sqlite_items::Boxed;
use std::alloc::{AllocError, Global};

pub(crate) fn write_type(out: &mut Vec<u8>, type_of: WordType) -> Result<(), AllocError>
    ensures { OnOk result (out.new.items ≡ out.old.items ++ spaced (type_words type_of)) }
{
    match type_of {
        WordType::Bits8 { .. } => put(out, b"bits8"),
        WordType::Bits16 { .. } => put(out, b"bits16"),
        WordType::Bits32 { .. } => put(out, b"bits32"),
        WordType::Bits64 { .. } => put(out, b"bits64"),
    }
}

#[tactic(auto, using(crate::proofs::Writing::writing))]
fn write_literal(alloc: Global, out: &mut Vec<u8>, literal: &Literal) -> Result<(), AllocError>
    ensures { OnOk result (out.new.items ≡ out.old.items ++ spaced (literal_words literal.now)) }
{
    match literal {
        Literal::Plain { value } => put_number(alloc, out, value),
        Literal::Negative { value, .. } => {
            put(out, b"-")?;
            put_number(alloc, out, value)
        }
    }
}

impl Printed for Literal {
    ghost use Rattle.qc_cmm.specs.Printed.{literal_words};

    ghost words = { literal_words };

    fn write(&self, alloc: Global, out: &mut Vec<u8>) -> Result<(), AllocError> {
        write_literal(alloc, out, self)
    }
}

#[tactic(auto, using(crate::proofs::Writing::writing))]
#[cycle(expressions)]
pub(crate) fn write_expr(alloc: Global, out: &mut Vec<u8>, expr: &Expr) -> Result<(), AllocError>
    ensures { OnOk result (out.new.items ≡ out.old.items ++ spaced (expr_words expr.now)) }
{
    match expr {
        Expr::Literal { value } => write_literal(alloc, out, value),
        Expr::Name { name } => put(out, name.text.as_slice()),
        Expr::Load { type_of, address } => {
            write_type(out, *type_of)?;
            write_indexed(alloc, out, address.get())
        }
        Expr::Unary { prim, arg } => {
            put(out, prim.text.as_slice())?;
            write_applied(alloc, out, arg)
        }
        Expr::Binary { prim, left, right } => {
            put(out, prim.text.as_slice())?;
            put(out, b"(")?;
            write_expr(alloc, out, left.get())?;
            put(out, b",")?;
            write_expr(alloc, out, right.get())?;
            put(out, b")")
        }
    }
}

/// An expression between brackets.
#[tactic(auto, using(crate::proofs::Writing::writing))]
#[cycle(expressions)]
pub(crate) fn write_indexed(
    alloc: Global,
    out: &mut Vec<u8>,
    address: &Expr,
) -> Result<(), AllocError>
    ensures { OnOk result (out.new.items ≡ out.old.items ++ spaced (indexed (expr_words address.now))) }
{
    put(out, b"[")?;
    write_expr(alloc, out, address)?;
    put(out, b"]")
}

/// An operand between parentheses.
#[tactic(auto, using(crate::proofs::Writing::writing))]
#[cycle(expressions)]
fn write_applied(alloc: Global, out: &mut Vec<u8>, arg: &Boxed<Expr>) -> Result<(), AllocError>
    ensures { OnOk result (out.new.items ≡ out.old.items ++ spaced (applied_to (expr_words arg.now))) }
{
    put(out, b"(")?;
    write_expr(alloc, out, arg.get())?;
    put(out, b")")
}

impl Printed for Expr {
    ghost use Rattle.qc_cmm.specs.Printed.{expr_words};

    ghost words = { expr_words };

    fn write(&self, alloc: Global, out: &mut Vec<u8>) -> Result<(), AllocError> {
        write_expr(alloc, out, self)
    }
}

/// Expressions, and the bracket that closes them.
#[tactic(auto, using(crate::proofs::Writing::writing))]
pub(crate) fn write_arguments(
    alloc: Global,
    out: &mut Vec<u8>,
    args: &[Expr],
) -> Result<(), AllocError>
    ensures { OnOk result (out.new.items ≡ out.old.items ++ spaced (arguments_words args.now)) }
{
    write_separated(alloc, out, b",", args)?;
    put(out, b")")
}

/// A name with its arguments.
#[tactic(auto, using(crate::proofs::Writing::writing))]
pub(crate) fn write_call(
    alloc: Global,
    out: &mut Vec<u8>,
    name: &Ident,
    args: &[Expr],
) -> Result<(), AllocError>
    ensures { OnOk result (out.new.items ≡ out.old.items ++ spaced (call_words name.now args.now)) }
{
    put(out, name.text.as_slice())?;
    put(out, b"(")?;
    write_arguments(alloc, out, args)
}

//! The printer of statements: each word, and a blank after it.
ghost use Rattle.std.specs.Prelude.{◌≡◌, ◌++◌, ◌∷◌, [], codes, OnOk};
ghost use Rattle.std.specs.List.{flat_map};
ghost use Rattle.qc_text.specs.PrintedWords.{spaced};
ghost use Rattle.qc_grammar.specs.Printing.{separated_words};
ghost use Rattle.qc_cmm.specs.Printed.{expr_words, type_word, indexed, name_words, source_words, statement_words, block_words};

use crate::expression_writer::{
    write_arguments, write_call, write_expr, write_indexed, write_type,
};
use crate::syntax::{Expr, Source, Statement, WordType};
use qc_grammar::{Ident, put, write_separated};
use std::alloc::{AllocError, Global};

#[tactic(auto, unfolding(crate::specs::Printed::source_words), using(crate::proofs::Writing::writing))]
fn write_source(alloc: Global, out: &mut Vec<u8>, source: &Source) -> Result<(), AllocError>
    ensures { OnOk result (out.new.items ≡ out.old.items ++ spaced (source_words source.now)) }
{
    match source {
        Source::Input { .. } => {
            put(out, b"%in")?;
            put(out, b"(")?;
            put(out, b")")
        }
        Source::Value { value } => write_expr(alloc, out, value),
        Source::Call { name, args } => write_call(alloc, out, name, args.as_slice()),
    }
}

/// Targets, and what is assigned to them.
#[tactic(auto, using(crate::proofs::Writing::writing))]
fn write_assignment(
    alloc: Global,
    out: &mut Vec<u8>,
    targets: &[Ident],
    source: &Source,
) -> Result<(), AllocError>
    ensures { OnOk result (out.new.items ≡ out.old.items ++ spaced
        (separated_words (codes ",") name_words targets.now
        ++ codes "=" ∷ (source_words source.now ++ codes ";" ∷ []))) }
{
    write_separated(alloc, out, b",", targets)?;
    put(out, b"=")?;
    write_source(alloc, out, source)?;
    put(out, b";")
}

/// A store of a type's word at an address.
#[tactic(auto, using(crate::proofs::Writing::writing))]
fn write_store(
    alloc: Global,
    out: &mut Vec<u8>,
    type_of: WordType,
    address: &Expr,
    value: &Expr,
) -> Result<(), AllocError>
    ensures { OnOk result (out.new.items ≡ out.old.items ++ spaced (type_word type_of
        ∷ (indexed (expr_words address.now) ++ codes "=" ∷ (expr_words value.now ++ codes ";" ∷ [])))) }
{
    write_type(out, type_of)?;
    write_indexed(alloc, out, address)?;
    put(out, b"=")?;
    write_expr(alloc, out, value)?;
    put(out, b";")
}

#[tactic(auto, using(crate::proofs::Writing::writing))]
#[cycle(statements)]
pub(crate) fn write_statement(
    alloc: Global,
    out: &mut Vec<u8>,
    statement: &Statement,
) -> Result<(), AllocError>
    ensures { OnOk result (out.new.items ≡ out.old.items ++ spaced (statement_words statement.now)) }
{
    match statement {
        Statement::Goto { label, .. } => {
            put(out, b"goto")?;
            put(out, label.text.as_slice())?;
            put(out, b";")
        }
        Statement::Return { results, .. } => {
            put(out, b"return")?;
            put(out, b"(")?;
            write_arguments(alloc, out, results.as_slice())?;
            put(out, b";")
        }
        Statement::If {
            condition,
            body,
            ..
        } => {
            put(out, b"if")?;
            write_expr(alloc, out, condition)?;
            write_block(alloc, out, body.as_slice())
        }
        Statement::IfElse {
            condition,
            body,
            otherwise,
            ..
        } => {
            put(out, b"if")?;
            write_expr(alloc, out, condition)?;
            write_block(alloc, out, body.as_slice())?;
            put(out, b"else")?;
            write_block(alloc, out, otherwise.as_slice())
        }
        Statement::Out { value, .. } => {
            put(out, b"%out")?;
            put(out, b"(")?;
            write_expr(alloc, out, value)?;
            put(out, b")")?;
            put(out, b";")
        }
        Statement::Store {
            type_of,
            address,
            value,
        } => write_store(alloc, out, *type_of, address, value),
        Statement::Call { name, args } => {
            write_call(alloc, out, name, args.as_slice())?;
            put(out, b";")
        }
        Statement::Assign { targets, source } => {
            write_assignment(alloc, out, targets.as_slice(), source)
        }
    }
}

#[tactic(auto, using(crate::proofs::Writing::writing))]
#[cycle(statements)]
fn write_block(alloc: Global, out: &mut Vec<u8>, statements: &[Statement]) -> Result<(), AllocError>
    ensures { OnOk result (out.new.items ≡ out.old.items ++ spaced (block_words statements.now)) }
{
    put(out, b"{")?;
    write_statements(alloc, out, statements)?;
    put(out, b"}")
}

#[tactic(auto, using(crate::proofs::Writing::writing))]
#[cycle(statements)]
fn write_statements(
    alloc: Global,
    out: &mut Vec<u8>,
    statements: &[Statement],
) -> Result<(), AllocError>
    ensures { OnOk result (out.new.items ≡ out.old.items ++ spaced (flat_map statement_words statements.now)) }
{
    for statement in statements {
        write_statement(alloc, out, statement)?;
    }
    Ok(())
}

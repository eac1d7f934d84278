//! The printer of derivations: each word, and a blank after it.
ghost use Rattle.std.specs.Prelude.{◌≡◌, ◌++◌, ◌∷◌, [], ◌<◌, length, drop, codes, OnOk};
ghost use Rattle.std.specs.List.{flat_map};
ghost use Rattle.qc_text.specs.PrintedWords.{spaced};
ghost use Rattle.qc_grammar.specs.Printing.{digits, next_words, separated_words};
ghost use Rattle.qc_tabletext.specs.Printed.{number_words, path_words, place_words, step_words, steps_words};
ghost use Rattle.qc_tabletext.specs.Printed.{binding_words, bindings_words, derivation_words, flag_words};

use crate::expression_writer::write_expr;
use crate::syntax::{RawBinding, RawDerivation, RawStep, StepPlace};
use qc_grammar::{Ident, Number, Printed, put, put_number, write_separated};
use sqlite_items::Boxed;
use std::alloc::{AllocError, Global};

fn write_path(alloc: Global, out: &mut Vec<u8>, path: &[Number]) -> Result<(), AllocError>
    ensures { OnOk result (out.new.items ≡ out.old.items ++ spaced (path_words path.now)) }
{
    if path.is_empty() {
        return Ok(());
    }
    put_number(alloc, out, &path[0])?;
    write_path_on(alloc, out, path)
}

/// The numbers after the first, each with a full stop before it.
#[tactic(auto, unfolding(qc_grammar::specs::Printing::next_words), using(crate::proofs::Writing::writing))]
fn write_path_on(alloc: Global, out: &mut Vec<u8>, path: &[Number]) -> Result<(), AllocError>
    requires { 0 < length path.now }
    ensures { OnOk result (out.new.items
        ≡ out.old.items ++ spaced (flat_map (next_words (codes ".") number_words) (drop 1 path.now))) }
{
    for place in 1..path.len() {
        put(out, b".")?;
        put_number(alloc, out, &path[place])?;
    }
    Ok(())
}

#[tactic(auto, using(crate::proofs::Writing::writing))]
fn write_place(alloc: Global, out: &mut Vec<u8>, place: &StepPlace) -> Result<(), AllocError>
    ensures { OnOk result (out.new.items ≡ out.old.items ++ spaced (place_words place.now)) }
{
    match place {
        StepPlace::Whole { .. } => put(out, b"e"),
        StepPlace::Part { path } => write_path(alloc, out, path.as_slice()),
    }
}

#[tactic(auto, unfolding(crate::specs::Printed::step_words), using(crate::proofs::Writing::writing))]
fn write_step(alloc: Global, out: &mut Vec<u8>, step: &RawStep) -> Result<(), AllocError>
    ensures { OnOk result (out.new.items ≡ out.old.items ++ spaced (step_words step.now)) }
{
    put(out, step.law.text.as_slice())?;
    put(out, b"@")?;
    write_place(alloc, out, &step.place)
}

impl Printed for RawStep {
    ghost use Rattle.qc_tabletext.specs.Printed.{step_words};

    ghost words = { step_words };

    fn write(&self, alloc: Global, out: &mut Vec<u8>) -> Result<(), AllocError> {
        write_step(alloc, out, self)
    }
}

/// Laws, and the bracket that closes them.
#[tactic(auto, using(crate::proofs::Writing::writing))]
fn write_steps(alloc: Global, out: &mut Vec<u8>, steps: &[RawStep]) -> Result<(), AllocError>
    ensures { OnOk result (out.new.items ≡ out.old.items ++ spaced (steps_words steps.now)) }
{
    write_separated(alloc, out, b",", steps)?;
    put(out, b"]")
}

/// A cell of a space that stands for an operand.
#[tactic(auto, using(crate::proofs::Writing::writing))]
fn write_bound_cell(
    alloc: Global,
    out: &mut Vec<u8>,
    space: &Ident,
    cell: &Number,
) -> Result<(), AllocError>
    ensures { OnOk result (out.new.items
        ≡ out.old.items ++ spaced (codes "cell" ∷ space.now.text ∷ digits cell.now ∷ [])) }
{
    put(out, b"cell")?;
    put(out, space.text.as_slice())?;
    put_number(alloc, out, cell)
}

#[tactic(auto, using(crate::proofs::Writing::writing))]
#[cycle(derivations)]
fn write_binding(alloc: Global, out: &mut Vec<u8>, binding: &RawBinding) -> Result<(), AllocError>
    ensures { OnOk result (out.new.items ≡ out.old.items ++ spaced (binding_words binding.now)) }
{
    match binding {
        RawBinding::Own { .. } => put(out, b"own"),
        RawBinding::Parameter { number, .. } => {
            put(out, b"par")?;
            put_number(alloc, out, number)
        }
        RawBinding::Cell { space, cell, .. } => write_bound_cell(alloc, out, space, cell),
        RawBinding::Constant { value, .. } => {
            put(out, b"const")?;
            write_expr(alloc, out, value)
        }
        RawBinding::Spare { .. } => put(out, b"spare"),
        RawBinding::Child { node } => write_derivation(alloc, out, node.get()),
    }
}

/// What stands for operands, between parentheses.
#[tactic(auto, using(crate::proofs::Writing::writing))]
#[cycle(derivations)]
fn write_bindings(
    alloc: Global,
    out: &mut Vec<u8>,
    bindings: &[RawBinding],
) -> Result<(), AllocError>
    ensures { OnOk result (out.new.items ≡ out.old.items ++ spaced (bindings_words bindings.now)) }
{
    put(out, b"(")?;
    write_several(alloc, out, bindings)?;
    put(out, b")")
}

#[cycle(derivations)]
fn write_several(
    alloc: Global,
    out: &mut Vec<u8>,
    bindings: &[RawBinding],
) -> Result<(), AllocError>
    ensures { OnOk result
        (out.new.items ≡ out.old.items ++ spaced (separated_words (codes ",") binding_words bindings.now)) }
{
    if bindings.is_empty() {
        return Ok(());
    }
    write_binding(alloc, out, &bindings[0])?;
    write_more(alloc, out, bindings)
}

/// The bindings after the first, each with a comma before it.
#[tactic(auto, unfolding(qc_grammar::specs::Printing::next_words), using(crate::proofs::Writing::writing))]
#[cycle(derivations)]
fn write_more(alloc: Global, out: &mut Vec<u8>, bindings: &[RawBinding]) -> Result<(), AllocError>
    requires { 0 < length bindings.now }
    ensures { OnOk result (out.new.items
        ≡ out.old.items ++ spaced (flat_map (next_words (codes ",") binding_words) (drop 1 bindings.now))) }
{
    for place in 1..bindings.len() {
        put(out, b",")?;
        write_binding(alloc, out, &bindings[place])?;
    }
    Ok(())
}

/// The derivation that computes a flag, if there is one.
#[tactic(auto, using(crate::proofs::Writing::writing))]
#[cycle(derivations)]
fn write_flag(
    alloc: Global,
    out: &mut Vec<u8>,
    after: &Option<Boxed<RawDerivation>>,
) -> Result<(), AllocError>
    ensures { OnOk result (out.new.items ≡ out.old.items ++ spaced (flag_words after.now)) }
{
    match after {
        None => Ok(()),
        Some(derivation) => {
            put(out, b"after")?;
            write_derivation(alloc, out, derivation.get())
        }
    }
}

#[tactic(auto, using(crate::proofs::Writing::writing))]
#[cycle(derivations)]
pub(crate) fn write_derivation(
    alloc: Global,
    out: &mut Vec<u8>,
    derivation: &RawDerivation,
) -> Result<(), AllocError>
    ensures { OnOk result (out.new.items ≡ out.old.items ++ spaced (derivation_words derivation.now)) }
{
    put(out, derivation.instruction.text.as_slice())?;
    put(out, b"[")?;
    write_steps(alloc, out, derivation.steps.as_slice())?;
    write_bindings(alloc, out, derivation.bindings.as_slice())?;
    write_flag(alloc, out, &derivation.after)
}

//! What effects come to where they are written.
ghost use Rattle.std.specs.Prelude.{◌≡◌, ◌≤◌, None, IfOk, length, map};
ghost use Rattle.qc_widths.specs.TextFaults.{acts_of_instruction as instruction_acts};
ghost use Rattle.qc_resolve.specs.Declarations.{function_items, meanings_in};
ghost use Rattle.qc_resolve.specs.Effects.{acts_of, acts_of_effect, acts_of_meaning, acts_of_simple, acts_of_use};
ghost use Rattle.qc_widths.specs.Inner.Elaboration.{AreActs, IsContext};
ghost use Rattle.qc_widths.specs.Inner.KeptValues.{IsScope, IsSettled};
ghost use Rattle.qc_resolve.specs.Expressions.{expression_of};
ghost use Rattle.qc_widths.specs.Inner.KeptEffects.{IsActs};
ghost use Rattle.qc_resolve.specs.Scopes.{Scope as SpecScope, meaning_in};
ghost use Rattle.qc_resolve.specs.FunctionTables.{IsTableOf};

use crate::acts::{Acts, act_on_register, act_on_word, guarded_acts, joined, no_acts, one_act};
use crate::context::Context;
use crate::evaluate::{declared, evaluate, evaluate_bindings, target_of_name};
use crate::scope::{Found, Locals, Scope};
use qc_facts::{Facts, operator_named};
use qc_grammar::Ident;
use qc_lrtl::{Effect, Expr, Item, Operand, Simple};
use qc_resolve::Functions;
use qc_terms::Dest;
use qc_words::Width;
use std::alloc::{AllocError, Global};

/// What effects come to.
#[cycle(gathering)]
pub(crate) fn acts_of_effects(
    alloc: Global,
    scope: &Scope<'_>,
    effects: &[Effect],
) -> Result<Acts, AllocError>
    requires { IsSettled scope.now }
    ensures { (spec : SpecScope) → IsScope scope.now spec → IfOk result (λ a. IsActs a (acts_of spec effects.now)) }
{
    let mut acts = no_acts(alloc);
    for effect in effects {
        let more = acts_of_one(alloc, scope, effect)?;
        acts = joined(acts, more)?;
        if acts.is_huge() {
            return Ok(Acts::Huge);
        }
    }
    Ok(acts)
}

/// What an effect comes to.
#[tactic(auto, unfolding(qc_resolve::specs::Effects::acts_of_effect))]
#[cycle(gathering)]
fn acts_of_one(alloc: Global, scope: &Scope<'_>, effect: &Effect) -> Result<Acts, AllocError>
    requires { IsSettled scope.now }
    ensures { (spec : SpecScope) → IsScope scope.now spec
        → IfOk result (λ a. IsActs a (acts_of_effect spec effect.now)) }
{
    let acts = acts_of_plain(alloc, scope, &effect.simple)?;
    match &effect.guard {
        None => Ok(acts),
        Some(guard) => {
            let guard = evaluate(alloc, scope, &guard.condition)?;
            guarded_acts(alloc, &guard, acts)
        }
    }
}

/// What an effect without its guard comes to.
#[cycle(gathering)]
fn acts_of_plain(alloc: Global, scope: &Scope<'_>, simple: &Simple) -> Result<Acts, AllocError>
    requires { IsSettled scope.now }
    ensures { (spec : SpecScope) → IsScope scope.now spec
        → IfOk result (λ a. IsActs a (acts_of_simple spec simple.now)) }
{
    match simple {
        Simple::Pc { value, .. } => {
            let value = evaluate(alloc, scope, value)?;
            one_act(alloc, Dest::Pc, value, scope.facts.word())
        }
        Simple::Out { value, .. } => {
            let value = evaluate(alloc, scope, value)?;
            one_act(alloc, Dest::Out, value, scope.facts.word())
        }
        Simple::Halt { value, .. } => {
            let value = evaluate(alloc, scope, value)?;
            one_act(alloc, Dest::Halt, value, scope.facts.word())
        }
        Simple::Trap { value, .. } => {
            let value = evaluate(alloc, scope, value)?;
            one_act(alloc, Dest::Trap, value, Width::new(8))
        }
        Simple::Mem {
            bits,
            address,
            value,
            ..
        } => {
            let address = evaluate(alloc, scope, address)?;
            let value = evaluate(alloc, scope, value)?;
            act_on_word(alloc, scope.facts, bits, address, value)
        }
        Simple::Name { name, value } => {
            let value = evaluate(alloc, scope, value)?;
            act_on_register(alloc, target_of_name(scope, name), value)
        }
        Simple::Cell { space, cell, value } => {
            let value = evaluate(alloc, scope, value)?;
            act_on_register(alloc, scope.facts.cell(space, cell), value)
        }
        Simple::Use { name, args } => acts_of_named(alloc, scope, name, args.as_slice()),
    }
}

/// What a use of named effects comes to.
#[cycle(gathering)]
fn acts_of_named(
    alloc: Global,
    scope: &Scope<'_>,
    name: &Ident,
    args: &[Expr],
) -> Result<Acts, AllocError>
    requires { IsSettled scope.now }
    ensures { (spec : SpecScope) → IsScope scope.now spec
        → IfOk result (λ a. IsActs a (acts_of_use spec name.now args.now)) }
{
    match scope.find(name.text.as_slice()) {
        Found::Absent => match operator_named(name.text.as_slice()) {
            Some(_) => Ok(no_acts(alloc)),
            None => acts_of_declared(alloc, scope, name, args),
        },
        Found::Bound { .. } => Ok(no_acts(alloc)),
        Found::Operand { .. } => Ok(no_acts(alloc)),
    }
}

/// What a use of declared effects comes to.
#[cycle(gathering)]
fn acts_of_declared(
    alloc: Global,
    scope: &Scope<'_>,
    name: &Ident,
    args: &[Expr],
) -> Result<Acts, AllocError>
    requires { IsSettled scope.now }
    ensures { (spec : SpecScope) → IsScope scope.now spec
        → IfOk result (λ a. IsActs a
        (acts_of_meaning spec None None (meaning_in spec name.now.text) (map expression_of args.now))) }
{
    match declared(scope, name) {
        Some((number, item)) => match item {
            Item::Effects { params, body, .. } => {
                if params.len() != args.len() {
                    return Ok(no_acts(alloc));
                }
                let bounds = evaluate_bindings(alloc, scope, params.as_slice(), args)?;
                let inner = Scope {
                    facts: scope.facts,
                    items: scope.items,
                    functions: scope.functions,
                    level: number,
                    ceiling: scope.ceiling,
                    locals: Locals::Params {
                        params: params.as_slice(),
                        bounds: bounds.as_slice(),
                    },
                };
                acts_of_effects(alloc, &inner, body.as_slice())
            }
            _ => Ok(no_acts(alloc)),
        },
        None => Ok(no_acts(alloc)),
    }
}

/// The number of functions and named effects.
fn count_functions(items: &[Item]) -> usize
    ensures { result ≡ length (function_items items.now) }
{
    let mut count = 0;
    for item in items {
        match item {
            Item::Function { .. } | Item::Effects { .. } => {
                count += 1;
            }
            _ => {}
        }
    }
    count
}

/// What an instruction's effects come to.
pub(crate) fn acts_of_instruction(
    alloc: Global,
    facts: &Facts,
    items: &[Item],
    functions: &Functions,
    operands: &[Operand],
    body: &[Effect],
) -> Result<Acts, AllocError>
    requires table { IsTableOf items.now functions.now }
    requires operands { length operands.now ≤ 8 }
    ensures { IfOk result (λ a. IsActs a
        (instruction_acts facts.now (meanings_in facts.now items.now) operands.now body.now)) }
{
    let count = count_functions(items);
    let scope = Scope {
        facts,
        items,
        functions,
        level: count,
        ceiling: count,
        locals: Locals::Operands { operands },
    };
    acts_of_effects(alloc, &scope, body)
}

/// What an instruction's effects come to, in the context of a machine.
#[tactic(auto, using(crate::proofs::KeptActs::kept_acts))]
pub(crate) fn acts_in(
    alloc: Global,
    context: &Context<'_>,
    operands: &[Operand],
    body: &[Effect],
) -> Result<Acts, AllocError>
    requires context { IsContext context.now }
    requires few { length operands.now ≤ 8 }
    ensures { IfOk result (λ acts. AreActs (instruction_acts context.now.facts.now
        (meanings_in context.now.facts.now context.now.items.now) operands.now body.now) acts) }
{
    let (facts, items, functions) = (context.facts, context.items, context.functions);
    acts_of_instruction(alloc, facts, items, functions, operands, body)
}

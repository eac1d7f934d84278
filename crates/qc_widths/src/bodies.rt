//! The faults of bodies among names.
ghost use Rattle.std.specs.Prelude.{◌≡◌, ◌≤◌, ◌++◌, length, drop, map, take};
ghost use Rattle.std.specs.List.{flat_map};
ghost use Rattle.qc_facts.specs.declared.faults.WidthFault.TheVariants.{TwiceNamed};
ghost use Rattle.qc_facts.specs.Faults.{reported};
ghost use Rattle.qc_resolve.specs.Expressions.{faults_in};
ghost use Rattle.qc_resolve.specs.Effects.{effect_faults, effect_events};
ghost use Rattle.qc_resolve.specs.Declarations.{names_for};
ghost use Rattle.qc_resolve.specs.KeptNames.{names_at, locals_in, IsReady};
ghost use Rattle.qc_widths.specs.Inner.Elaboration.{IsContext, names_of_params, names_of_operands, all_signatures};

use crate::context::Context;
use qc_facts::WidthFault;
use qc_lrtl::{Effect, Expr, Operand, Param};
use qc_names::earlier;
use qc_resolve::{Locals, Names, body_fault, expression_fault, twice_fault};

/// The names of a body that uses the first functions of this number.
fn names_in<'a>(context: &Context<'a>, level: usize, locals: Locals<'a>) -> Names<'a>
    requires context { IsContext context.now }
    requires level { level ≤ length (all_signatures context.now) }
    ensures ready { IsReady result }
    ensures names { names_at result
        ≡ names_for context.now.facts.now (take level (all_signatures context.now)) (locals_in locals.entry) }
{
    Names {
        facts: context.facts,
        items: context.items,
        functions: context.functions,
        signatures: &context.signatures[..level],
        locals,
    }
}

/// The fault of a function's body, which uses the first functions of this number.
#[tactic(auto, unfolding(crate::specs::Inner::Elaboration::names_of_params))]
pub(crate) fn function_fault(
    context: &Context<'_>,
    level: usize,
    params: &[Param],
    body: &Expr,
) -> Option<WidthFault>
    requires context { IsContext context.now }
    requires level { level ≤ length (all_signatures context.now) }
    ensures { result ≡ reported (faults_in (names_of_params context.now level params.now) body.now) }
{
    expression_fault(&names_in(context, level, Locals::Params(params)), body)
}

/// The fault of the body of named effects, which uses the first functions of this number.
#[tactic(auto, unfolding(crate::specs::Inner::Elaboration::names_of_params))]
pub(crate) fn effects_fault(
    context: &Context<'_>,
    level: usize,
    params: &[Param],
    body: &[Effect],
) -> Option<WidthFault>
    requires context { IsContext context.now }
    requires level { level ≤ length (all_signatures context.now) }
    ensures { result ≡ reported (flat_map (effect_faults (names_of_params context.now level params.now)) body.now) }
{
    body_fault(&names_in(context, level, Locals::Params(params)), body)
}

/// The fault of an instruction's body among names, and of second effects that show something.
pub(crate) fn instruction_fault(
    context: &Context<'_>,
    operands: &[Operand],
    body: &[Effect],
) -> Option<WidthFault>
    requires { IsContext context.now }
    ensures { result ≡ reported (flat_map (effect_faults (names_of_operands context.now operands.now)) body.now
        ++ map TwiceNamed (drop 1 (flat_map (effect_events (names_of_operands context.now operands.now)) body.now))) }
{
    let names = names_in(
        context,
        context.signatures.len(),
        Locals::Operands(operands),
    );
    earlier(body_fault(&names, body), twice_fault(&names, body))
}

//! Items, one after the other: their faults, and the operations that they declare.
ghost use Rattle.std.specs.Prelude.{◌≡◌, ◌++◌, ◌+◌, ◌≤◌, length, take, None, IfOk, OnOk};
ghost use Rattle.std.specs.List.{flat_map};
ghost use Rattle.qc_facts.specs.Faults.{reported};
ghost use Rattle.qc_resolve.specs.Expressions.{faults_in};
ghost use Rattle.qc_resolve.specs.Effects.{effect_faults};
ghost use Rattle.qc_widths.specs.TextFaults.{params_faults};
ghost use Rattle.qc_resolve.specs.Declarations.{meanings_in, function_name, instruction_name, space_name};
ghost use Rattle.qc_widths.specs.Machine.{operation_of_item};
ghost use Rattle.qc_widths.specs.Inner.Elaboration.{IsContext, OperationUnless, all_signatures, faults_of_item};
ghost use Rattle.qc_widths.specs.Inner.Elaboration.{names_of_params, operations_of_item};

use crate::bodies::{effects_fault, function_fault};
use crate::context::Context;
use crate::limits::space_fault;
use crate::operations::{Outcome, instruction};
use crate::repeated::params_fault;
use qc_facts::{WidthFault, width_fault};
use qc_lrtl::{Effect, Expr, Item, Param};
use qc_names::earlier;
use std::alloc::{AllocError, Global};

/// How many functions, instructions and spaces stand before an item.
#[derive(Clone, Copy, Debug, PartialEq, Eq)]
pub(crate) struct Counts {
    pub functions: usize,
    pub instructions: usize,
    pub spaces: usize,
}

fn no_operation(fault: Option<WidthFault>) -> Outcome
    ensures { result ≡ record { fault = fault; operation = None } }
{
    Outcome {
        fault,
        operation: None,
    }
}

/// The fault of a function behind so many others: of its parameters, or of its body.
#[tactic(auto, using(qc_names::specs::Law::Reported::reported_parts))]
fn function_item_fault(
    alloc: Global,
    context: &Context<'_>,
    level: usize,
    params: &[Param],
    body: &Expr,
) -> Result<Option<WidthFault>, AllocError>
    requires context { IsContext context.now }
    requires level { level ≤ length (all_signatures context.now) }
    ensures { IfOk result (λ fault. fault ≡ reported (params_faults params.now
        ++ faults_in (names_of_params context.now level params.now) body.now)) }
{
    let names = params_fault(alloc, params)?;
    Ok(earlier(names, function_fault(context, level, params, body)))
}

/// The fault of named effects behind so many functions: of their parameters, or of their body.
#[tactic(auto, using(qc_names::specs::Law::Reported::reported_parts))]
fn effects_item_fault(
    alloc: Global,
    context: &Context<'_>,
    level: usize,
    params: &[Param],
    body: &[Effect],
) -> Result<Option<WidthFault>, AllocError>
    requires context { IsContext context.now }
    requires level { level ≤ length (all_signatures context.now) }
    ensures { IfOk result (λ fault. fault ≡ reported (params_faults params.now
        ++ flat_map (effect_faults (names_of_params context.now level params.now)) body.now)) }
{
    let names = params_fault(alloc, params)?;
    Ok(earlier(names, effects_fault(context, level, params, body)))
}

/// An item behind so many others.
#[tactic(auto, unfolding(crate::specs::Inner::Elaboration::names_of_params, crate::specs::Inner::Elaboration::all_signatures), using(qc_names::specs::Law::Reported::reported_parts))]
pub(crate) fn elaborate_item(
    alloc: Global,
    context: &Context<'_>,
    counts: Counts,
    item: &Item,
) -> Result<Outcome, AllocError>
    requires context { IsContext context.now }
    requires level { counts.functions ≤ length (all_signatures context.now) }
    ensures fault { IfOk result (λ r. r.fault ≡ reported (faults_of_item context.now counts item.now)) }
    ensures operation { IfOk result (λ r. OperationUnless r.fault r.operation (operations_of_item context.now
        item.now)) }
{
    let level = counts.functions;
    match item {
        Item::Word { bits, .. } => Ok(no_operation(width_fault(bits))),
        Item::Space {
            token,
            cells,
            bits,
            ..
        } => Ok(no_operation(space_fault(*token, cells, bits, counts.spaces))),
        Item::Zero { space, cell, .. }
        | Item::Frame { space, cell, .. }
        | Item::Link { space, cell, .. } => {
            Ok(no_operation(context.facts.cell_fault(space, cell)))
        }
        Item::Allocatable {
            space,
            first,
            last,
            ..
        } => {
            let first = context.facts.cell_fault(space, first);
            Ok(no_operation(earlier(first, context.facts.cell_fault(space, last))))
        }
        Item::Function { params, body, .. } => {
            let fault = function_item_fault(alloc, context, level, params.as_slice(), body)?;
            Ok(no_operation(fault))
        }
        Item::Effects { params, body, .. } => {
            let body = body.as_slice();
            let fault = effects_item_fault(alloc, context, level, params.as_slice(), body)?;
            Ok(no_operation(fault))
        }
        Item::Instruction {
            token,
            name,
            operands,
            body,
        } => {
            instruction(
                alloc,
                context,
                counts.instructions,
                *token,
                name,
                operands.as_slice(),
                body.as_slice(),
            )
        }
        Item::ByteOrder { .. }
        | Item::Align { .. }
        | Item::SlotBits { .. }
        | Item::Memory { .. }
        | Item::Code { .. }
        | Item::Data { .. } => Ok(no_operation(None)),
    }
}

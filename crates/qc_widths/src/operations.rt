//! Instructions: their faults, and the operations that they are.
ghost use Rattle.std.specs.Prelude.{◌≡◌, map, IfOk};
ghost use Rattle.std.specs.List.{flat_map};
ghost use Rattle.qc_facts.specs.Facts.{kind_faults, facts_of_operand};
ghost use Rattle.qc_widths.specs.TextFaults.{instruction_faults};
ghost use Rattle.qc_facts.specs.Faults.{reported};
ghost use Rattle.qc_resolve.specs.Declarations.{meanings_in};
ghost use Rattle.qc_widths.specs.Machine.{operation_of_item, kind_of as kind_of_facts};
ghost use Rattle.qc_widths.specs.Inner.Elaboration.{IsContext, OperationUnless};
ghost use Rattle.qc_lrtl.specs.declared.syntax.Item.TheVariants.{Instruction};

use crate::bodies::instruction_fault;
use crate::context::Context;
use crate::limits::acts_within;
use crate::nodes::bits_of;
use crate::repeated::operand_names_fault;
use qc_descr::{OperandKind, Operation};
use qc_facts::{Facts, OperandFacts, WidthFault};
use qc_grammar::Ident;
use qc_lrtl::{Effect, Operand};
use qc_names::earlier;
use qc_terms::Rtl;
use qc_text::Text;
use sqlite_items::Items;
use std::alloc::{AllocError, Global};

/// The fault that is reported of an item, and the operation that it is, if it is an instruction without a fault.
#[derive(Debug, Drop)]
pub(crate) struct Outcome {
    pub fault: Option<WidthFault>,
    pub operation: Option<Operation>,
}

fn kind_of(facts: OperandFacts) -> OperandKind
    ensures { result ≡ kind_of_facts facts }
{
    match facts {
        OperandFacts::Register { space, .. } => OperandKind::Register { space },
        OperandFacts::Immediate { width } => OperandKind::Imm {
            width: bits_of(&width),
        },
        OperandFacts::Address => OperandKind::Addr,
    }
}

/// The operands by name.
fn operands_of(
    alloc: Global,
    facts: &Facts,
    operands: &[Operand],
) -> Result<Items<(Text, OperandKind)>, AllocError>
    ensures { IfOk result (λ r. r
        ≡ map (λ o. (o.name.text, kind_of_facts (facts_of_operand facts.now o.kind))) operands.now) }
{
    let mut found = Items::new(alloc);
    for operand in operands {
        let name = Text::new(alloc, operand.name.text.as_slice())?;
        found.push((name, kind_of(facts.operand(&operand.kind))))?;
    }
    Ok(found)
}

/// The fault of the operands' kinds.
fn kinds_fault(facts: &Facts, operands: &[Operand]) -> Option<WidthFault>
    ensures { result ≡ reported (flat_map (λ o. kind_faults facts.now o.kind) operands.now) }
{
    let mut fault = None;
    for operand in operands {
        fault = earlier(fault, facts.kind_fault(&operand.kind));
    }
    fault
}

/// An instruction with so many instructions before it.
pub(crate) fn instruction(
    alloc: Global,
    context: &Context<'_>,
    number: usize,
    token: usize,
    name: &Ident,
    operands: &[Operand],
    body: &[Effect],
) -> Result<Outcome, AllocError>
    requires { IsContext context.now }
    ensures fault { IfOk result (λ r. r.fault ≡ reported (instruction_faults context.now.facts.now
        (meanings_in context.now.facts.now context.now.items.now) number token operands.now body.now)) }
    ensures operation { IfOk result (λ r. OperationUnless r.fault r.operation (operation_of_item context.now.facts.now
        (meanings_in context.now.facts.now context.now.items.now) (Instruction token name.now operands.now body.now))) }
{
    let kinds = kinds_fault(context.facts, operands);
    let names = operand_names_fault(alloc, operands)?;
    let effects = instruction_fault(context, operands, body);
    let (limit, acts) = acts_within(alloc, context, number, token, operands, body)?;
    let fault = earlier(kinds, earlier(names, earlier(effects, limit)));
    match fault {
        Some(fault) => Ok(Outcome {
            fault: Some(fault),
            operation: None,
        }),
        None => Ok(Outcome {
            fault: None,
            operation: Some(Operation {
                name: Text::new(alloc, name.text.as_slice())?,
                operands: operands_of(alloc, context.facts, operands)?,
                rtl: Rtl { effects: acts },
            }),
        }),
    }
}

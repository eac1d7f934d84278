//! Limits, and the acts of instructions within them.
ghost use Rattle.std.specs.Prelude.{◌≡◌, ◌++◌, suc, IfOk};
ghost use Rattle.qc_widths.specs.TextFaults.{more_than as faults_above, limit_faults, clashes_within};
ghost use Rattle.qc_widths.specs.TextFaults.{acts_of_instruction as all_acts};
ghost use Rattle.qc_descr.specs.Limits.{most_cells, most_spaces};
ghost use Rattle.qc_facts.specs.Faults.{reported};
ghost use Rattle.qc_resolve.specs.Declarations.{meanings_in};
ghost use Rattle.qc_facts.specs.Numbers.{width_faults};
ghost use Rattle.qc_widths.specs.Inner.Elaboration.{IsContext, EffectsUnless};

use crate::acts::Acts;
use crate::context::Context;
use crate::gather::acts_in;
use crate::value::MOST_NODES;
use qc_facts::{WidthFault, width_fault};
use qc_grammar::Number;
use qc_lrtl::Operand;
use qc_names::earlier;
use qc_terms::Effect;
use sqlite_items::Items;
use std::alloc::{AllocError, Global};

const MOST_INSTRUCTIONS: u32 = 256;

const MOST_OPERANDS: u32 = 8;

const MOST_EFFECTS: u32 = 16;

const MOST_SPACES: u32 = 8;

const MOST_CELLS: u32 = 64;

/// The fault of more than so many of something.
fn more_than(limit: u32, token: usize, count: u128) -> Option<WidthFault>
    ensures { result ≡ reported (faults_above limit token count) }
{
    if count > u128::from(limit) {
        Some(WidthFault::TooMany { token, limit })
    } else {
        None
    }
}

/// The fault of a space with so many spaces before it.
#[tactic(auto, using(qc_names::specs::Law::Reported::reported_parts))]
pub(crate) fn space_fault(
    token: usize,
    cells: &Number,
    bits: &Number,
    spaces: usize,
) -> Option<WidthFault>
    ensures { result
        ≡ reported (width_faults bits.now ++ (faults_above most_spaces token (suc spaces) ++ faults_above most_cells token cells.now.value)) }
{
    let count = more_than(MOST_SPACES, token, spaces as u128 + 1);
    earlier(
        width_fault(bits),
        earlier(count, more_than(MOST_CELLS, token, cells.value)),
    )
}

/// An instruction's effects, and the fault of its limits, or else of its widths. It is the one of this number.
pub(crate) fn acts_within(
    alloc: Global,
    context: &Context<'_>,
    number: usize,
    token: usize,
    operands: &[Operand],
    body: &[qc_lrtl::Effect],
) -> Result<(Option<WidthFault>, Items<Effect>), AllocError>
    requires { IsContext context.now }
    ensures fault { IfOk result (λ r. let acts = all_acts context.now.facts.now
        (meanings_in context.now.facts.now context.now.items.now) operands.now body.now in
        let limits = limit_faults number token operands.now acts in r.0 ≡ reported (limits ++ clashes_within limits acts)) }
    ensures effects { IfOk result (λ r. EffectsUnless r.0 r.1 (all_acts context.now.facts.now
        (meanings_in context.now.facts.now context.now.items.now) operands.now body.now)) }
{
    if number >= MOST_INSTRUCTIONS as usize {
        return Ok((
            Some(WidthFault::TooMany {
                token,
                limit: MOST_INSTRUCTIONS,
            }),
            Items::new(alloc),
        ));
    }
    if operands.len() > MOST_OPERANDS as usize {
        return Ok((
            Some(WidthFault::TooMany {
                token,
                limit: MOST_OPERANDS,
            }),
            Items::new(alloc),
        ));
    }
    match acts_in(alloc, context, operands, body)? {
        Acts::Huge => Ok((
            Some(WidthFault::TooMany {
                token,
                limit: MOST_NODES,
            }),
            Items::new(alloc),
        )),
        Acts::Known { effects, clash, .. } => {
            if effects.len() > MOST_EFFECTS as usize {
                Ok((
                    Some(WidthFault::TooMany {
                        token,
                        limit: MOST_EFFECTS,
                    }),
                    effects,
                ))
            } else {
                Ok((clash, effects))
            }
        }
    }
}

//! What the children of a node are to compute.
ghost use Rattle.std.specs.Prelude.{◌≡◌, slice_get, IfOk, IfSome};
ghost use Rattle.std.specs.Option.{option_copied, option_map};
ghost use Rattle.qc_derivations.specs.Forest.{node_of};
ghost use Rattle.qc_derivations.specs.Machine.{form_of, machine_of};
ghost use Rattle.qc_derivations.specs.Goals.{goals_after, goals_of, is_root};
ghost use Rattle.qc_derivations.specs.Nodes.{children_of};
ghost use Rattle.qc_nodes.specs.Inner.Steps.{needs_after};
ghost use Rattle.qc_nodes.specs.Inner.Views.{assignments_in};
ghost use Rattle.qc_nodes.specs.Needs.{NeedHasWidths, NeedsHaveWidths, need_of, needs_in};
ghost use Rattle.qc_nodes.specs.Tasks.{task_in};

use crate::goals::{goals_after, goals_of};
use crate::job::Job;
use crate::matching::all_pairs;
use crate::need::Need;
use crate::node::{keeps_rules, needs_of};
use qc_derivations::Derivation;
use qc_descr::{Description, Instruction};
use qc_terms::Effect;
use sqlite_items::Items;
use std::alloc::{AllocError, Global};

/// What the children of a node with this instruction are to compute, where its goals after laws are these.
#[tactic(auto, unfolding(crate::specs::Inner::Steps::all_allowed, crate::specs::Inner::Steps::all_leaves_meet, crate::specs::Inner::Steps::all_met_once))]
fn needs_after(
    alloc: Global,
    descr: &Description,
    job: Job,
    root: bool,
    derivation: &Derivation,
    instruction: &Instruction,
    goals: &[Effect],
) -> Result<Option<Items<Need>>, AllocError>
    ensures { IfOk result (λ found. option_map needs_in found ≡ needs_after (task_in descr.now job) root (node_of derivation.now) (form_of instruction.now) (assignments_in goals.now)) }
{
    let bindings = derivation.bindings.as_slice();
    let effects = instruction.rtl.effects.as_slice();
    match all_pairs(alloc, root, bindings, goals, effects)? {
        Some(pairs) => {
            if keeps_rules(descr, job, root, derivation, instruction, goals, &pairs) {
                needs_of(alloc, descr, derivation, &pairs)
            } else {
                Ok(None)
            }
        }
        None => Ok(None),
    }
}

/// Whether the need is what a tile does.
fn is_root(need: &Need) -> bool
    ensures { result ≡ is_root (need_of need.now) }
{
    matches!(need, Need::Tile { .. })
}

/// The instruction of this number, if there is one.
fn instruction_at(descr: &Description, number: u32) -> Option<&Instruction>
    ensures { option_map form_of (option_copied result) ≡ slice_get (machine_of descr.now).forms number }
{
    descr.instructions.as_slice().get(number as usize)
}

/// What is to be done for a need after the node's laws, if these match at their places.
fn rewritten_goals(
    alloc: Global,
    need: &Need,
    derivation: &Derivation,
) -> Result<Option<Items<Effect>>, AllocError>
    requires { NeedHasWidths (need_of need.now) }
    ensures { IfOk result (λ new. option_map assignments_in new ≡ goals_after (is_root (need_of need.now)) (node_of derivation.now).steps (goals_of (need_of need.now))) }
{
    let goals = goals_of(alloc, need)?;
    let root = is_root(need);
    goals_after(alloc, root, derivation.steps.as_slice(), goals)
}

/// What the children of the derivation's node are to compute, or none where the node breaks a rule.
#[tactic(auto, unfolding(qc_derivations::specs::Nodes::children_for))]
fn node_needs(
    alloc: Global,
    descr: &Description,
    job: Job,
    need: &Need,
    derivation: &Derivation,
) -> Result<Option<Items<Need>>, AllocError>
    requires { NeedHasWidths (need_of need.now) }
    ensures { IfOk result (λ found. option_map needs_in found ≡ children_of (task_in descr.now job) (need_of need.now) (node_of derivation.now)) }
{
    let Some(instruction) = instruction_at(descr, derivation.instruction) else {
        return Ok(None);
    };
    let found = rewritten_goals(alloc, need, derivation)?;
    let Some(goals) = found else {
        return Ok(None);
    };
    let goals = goals.as_slice();
    let root = is_root(need);
    needs_after(alloc, descr, job, root, derivation, instruction, goals)
}

/// What the children of the derivation's node are to compute, in order, that of a flag last, where the node is for the
/// need. There is none where the node breaks a rule.
///
/// The rules are those of Dias and Ramsey's search, "Automatically generating instruction selectors using declarative
/// machine descriptions", POPL 2010: the node's laws are used in what it is to compute, and its instruction has to meet
/// that, each operand by what stands for it.
pub fn children_of(
    alloc: Global,
    descr: &Description,
    job: Job,
    need: &Need,
    derivation: &Derivation,
) -> Result<Option<Items<Need>>, AllocError>
    requires { NeedHasWidths (need_of need.now) }
    ensures children { IfOk result (λ found. option_map needs_in found ≡ children_of (task_in descr.now job) (need_of need.now) (node_of derivation.now)) }
    ensures widths { IfOk result (λ found. IfSome found (λ needs. NeedsHaveWidths (needs_in needs))) }
{
    let found = node_needs(alloc, descr, job, need, derivation)?;
    Ok(found)
}

//! When a node of a derivation keeps the rules, and what its children are to compute.
ghost use Rattle.std.specs.Prelude.{◌≡◌, ◌+◌, ◌<◌, ◌^◌, ◌∷◌, [], length, map, min, sum, count_by, ◌&&◌, not, nat_le, IfOk};
ghost use Rattle.std.specs.List.{list_all, list_any};
ghost use Rattle.std.specs.Option.{option_map, option_copied};
ghost use Rattle.qc_terms.specs.Tree.{tree_of};
ghost use Rattle.qc_derivations.specs.Forest.{is_there, node_of};
ghost use Rattle.qc_derivations.specs.Machine.{assignment_of, destination_of, form_of, machine_of};
ghost use Rattle.qc_derivations.specs.Matching.{meets};
ghost use Rattle.qc_derivations.specs.Nodes.{agree, child_needs, flag_need, inputs_in_destination, inputs_in_goal, inputs_in_guard, is_allowed, is_child, keeps_single, need_before, needs_of, stands_spare, takes_one_input, writes_flag};
ghost use Rattle.qc_derivations.specs.Rules.{addresses_reach, flag_pair};
ghost use Rattle.qc_nodes.specs.Inner.Steps.{all_allowed, all_leaves_meet, all_met_once, effects_keep_rules, met_once, operands_keep_rules, rules_kept};
ghost use Rattle.qc_nodes.specs.Inner.Views.{assignments_in, pair_of, pairs_in, stands_in};
ghost use Rattle.qc_nodes.specs.Needs.{needs_in};
ghost use Rattle.qc_nodes.specs.Tasks.{task_in};

use crate::job::Job;
use crate::matching::{Pair, goal_met, meets};
use crate::need::Need;
use crate::operands::{addresses_reach, is_harmless, operands_suit};
use crate::rules::{flag_pair, is_flag, leaves_meet, register_part};
use crate::trees::{copied, inputs_in, two_at_most};
use qc_derivations::{Binding, Derivation, Leaf};
use qc_descr::{Description, Instruction};
use qc_terms::{Dest, Effect, Place, Term};
use sqlite_items::Items;
use std::alloc::{AllocError, Global};

/// How often the input is read in a guard, at most twice being told.
fn inputs_in_guard(guard: &Option<Term>) -> u8
    ensures { result ≡ min 2 (inputs_in_guard (option_map tree_of guard.now)) }
{
    match guard {
        None => 0,
        Some(guard) => inputs_in(guard),
    }
}

/// How often the input is read in the address of a destination, at most twice being told.
fn inputs_in_destination(to: &Dest) -> u8
    ensures { result ≡ min 2 (inputs_in_destination (destination_of to.now)) }
{
    match to {
        Dest::Mem { address, .. } => inputs_in(address),
        _ => 0,
    }
}

/// How often the input is read in an assignment, at most twice being told.
fn inputs_in_goal(goal: &Effect) -> u8
    ensures { result ≡ min 2 (inputs_in_goal (assignment_of goal.now)) }
{
    let rest = two_at_most(inputs_in_destination(&goal.to), inputs_in(&goal.value));
    two_at_most(inputs_in_guard(&goal.guard), rest)
}

/// How often the input is read in assignments, at most twice being told.
fn inputs_in_goals(goals: &[Effect]) -> u8
    ensures { result ≡ min 2 (sum (map inputs_in_goal (assignments_in goals.now))) }
{
    match goals {
        [] => 0,
        [goal, goals @ ..] => two_at_most(inputs_in_goal(goal), inputs_in_goals(goals)),
    }
}

/// How many assignments of the instruction meet a goal, at most two being told.
fn times_met(root: bool, bindings: &[Binding], effects: &[Effect], goal: &Dest) -> u8
    ensures { result ≡ min 2 (count_by (λ a. meets root (stands_in bindings.now) (destination_of goal.now) a.to) (assignments_in effects.now)) }
{
    match effects {
        [] => 0,
        [effect, effects @ ..] => {
            let others = times_met(root, bindings, effects, goal);
            if meets(root, bindings, goal, &effect.to) {
                two_at_most(1, others)
            } else {
                others
            }
        }
    }
}

/// Whether one assignment of the instruction meets the goal.
#[tactic(auto, unfolding(crate::specs::Inner::Steps::met_once))]
fn is_met_once(root: bool, bindings: &[Binding], effects: &[Effect], goal: &Effect) -> bool
    ensures { result ≡ met_once root (stands_in bindings.now) (assignments_in effects.now) (assignment_of goal.now) }
{
    times_met(root, bindings, effects, &goal.to) == 1
}

/// Whether one assignment of the instruction meets each of these goals.
fn are_met_once(root: bool, bindings: &[Binding], effects: &[Effect], goals: &[Effect]) -> bool
    ensures { result ≡ list_all (met_once root (stands_in bindings.now) (assignments_in effects.now)) (assignments_in goals.now) }
{
    match goals {
        [] => true,
        [goal, goals @ ..] => {
            is_met_once(root, bindings, effects, goal)
                && are_met_once(root, bindings, effects, goals)
        }
    }
}

/// Whether one assignment of the instruction meets each goal.
#[tactic(auto, unfolding(crate::specs::Inner::Steps::all_met_once, crate::specs::Inner::Steps::met_once))]
fn all_met_once(root: bool, bindings: &[Binding], effects: &[Effect], goals: &[Effect]) -> bool
    ensures { result ≡ all_met_once root (stands_in bindings.now) (assignments_in effects.now) (assignments_in goals.now) }
{
    are_met_once(root, bindings, effects, goals)
}

/// Whether an assignment meets a goal, or is harmless.
fn is_allowed(
    descr: &Description,
    root: bool,
    bindings: &[Binding],
    goals: &[Effect],
    effect: &Effect,
) -> bool
    ensures { result ≡ is_allowed (machine_of descr.now) root (stands_in bindings.now) (assignments_in goals.now) (assignment_of effect.now) }
{
    goal_met(root, bindings, goals, effect).is_some() || is_harmless(descr, bindings, effect)
}

/// Whether each assignment meets a goal, or is harmless.
#[tactic(auto, unfolding(crate::specs::Inner::Steps::all_allowed))]
fn are_allowed(
    descr: &Description,
    root: bool,
    bindings: &[Binding],
    goals: &[Effect],
    effects: &[Effect],
) -> bool
    ensures { result ≡ all_allowed (machine_of descr.now) root (stands_in bindings.now) (assignments_in goals.now) (assignments_in effects.now) }
{
    match effects {
        [] => true,
        [effect, effects @ ..] => {
            is_allowed(descr, root, bindings, goals, effect)
                && are_allowed(descr, root, bindings, goals, effects)
        }
    }
}

/// Whether a child stands for some operand.
fn has_child(bindings: &[Binding]) -> bool
    ensures { result ≡ list_any is_child (stands_in bindings.now) }
{
    match bindings {
        [] => false,
        [Binding::Child { .. }, ..] => true,
        [_, bindings @ ..] => has_child(bindings),
    }
}

/// Whether a spare register stands for some operand.
fn has_spare(bindings: &[Binding]) -> bool
    ensures { result ≡ list_any stands_spare (stands_in bindings.now) }
{
    match bindings {
        [] => false,
        [Binding::Spare, ..] => true,
        [_, bindings @ ..] => has_spare(bindings),
    }
}

/// Whether an assignment is to a flag.
fn writes_flag(descr: &Description, effect: &Effect) -> bool
    ensures { result ≡ writes_flag (machine_of descr.now) (assignment_of effect.now) }
{
    match &effect.to {
        Dest::Reg { place } => is_flag(descr, *place),
        _ => false,
    }
}

/// Whether some assignment is to a flag.
fn write_flag(descr: &Description, effects: &[Effect]) -> bool
    ensures { result ≡ list_any (writes_flag (machine_of descr.now)) (assignments_in effects.now) }
{
    match effects {
        [] => false,
        [effect, effects @ ..] => writes_flag(descr, effect) || write_flag(descr, effects),
    }
}

/// Whether a node of a tile of one instruction has no child, and of one that changes nothing beside the goal no spare
/// register and no flag that is written.
fn keeps_single(
    descr: &Description,
    job: Job,
    derivation: &Derivation,
    instruction: &Instruction,
) -> bool
    ensures { result ≡ keeps_single (task_in descr.now job) (node_of derivation.now) (form_of instruction.now) }
{
    let bindings = derivation.bindings.as_slice();
    (!job.single || derivation.flag.is_none() && !has_child(bindings))
        && (!job.bare
            || !has_spare(bindings) && !write_flag(descr, instruction.rtl.effects.as_slice()))
}

/// Whether both tests hold, or neither does.
fn agree(test: bool, other: bool) -> bool
    ensures { result ≡ agree test other }
{
    test == other
}

/// Whether the input is read in one place at most.
fn takes_one_input(goals: &[Effect]) -> bool
    ensures { result ≡ takes_one_input (assignments_in goals.now) }
{
    inputs_in_goals(goals) <= 1
}

/// Whether the node has at most so many steps.
fn has_few_steps(derivation: &Derivation, laws: u32) -> bool
    ensures { result ≡ nat_le (length (node_of derivation.now).steps) laws }
{
    derivation.steps.len() <= laws as usize
}

/// Whether a child computes a flag exactly where the instruction reads one.
fn flags_agree(descr: &Description, derivation: &Derivation, pairs: &[Pair]) -> bool
    ensures { result ≡ agree (node_of derivation.now).flag (is_there (flag_pair (machine_of descr.now) (pairs_in pairs.now))) }
{
    agree(derivation.flag.is_some(), flag_pair(descr, pairs).is_some())
}

/// Whether the node's addresses reach: in a branch a relative one stands in the root alone.
fn node_reaches(descr: &Description, job: Job, root: bool, instruction: &Instruction) -> bool
    ensures { result ≡ addresses_reach descr.now.align (job.branch && not root) instruction.now.coding 0 (form_of instruction.now).kinds }
{
    let near = job.branch && !root;
    addresses_reach(
        descr.align,
        near,
        &instruction.coding,
        0,
        instruction.operands.as_slice(),
    )
}

/// Whether something fitting stands for each operand; a child computes a flag exactly where one is read; addresses reach;
/// and the rule of tiles of one instruction is kept.
fn operands_keep_rules(
    descr: &Description,
    job: Job,
    root: bool,
    derivation: &Derivation,
    instruction: &Instruction,
    pairs: &[Pair],
) -> bool
    ensures { result ≡ operands_keep_rules (task_in descr.now job) root (node_of derivation.now) (form_of instruction.now) (pairs_in pairs.now) }
{
    let bindings = derivation.bindings.as_slice();
    let effects = instruction.rtl.effects.as_slice();
    let operands = instruction.operands.as_slice();
    operands_suit(
        descr, job.target, root, effects, pairs, bindings, 0, operands,
    ) && flags_agree(descr, derivation, pairs)
        && node_reaches(descr, job, root, instruction)
        && (!root || keeps_single(descr, job, derivation, instruction))
}

/// Whether each leaf meets its part of the goal.
#[tactic(auto, unfolding(crate::specs::Inner::Steps::all_leaves_meet))]
fn all_leaves_meet(
    descr: &Description,
    target: Option<usize>,
    bindings: &[Binding],
    pairs: &[Pair],
) -> bool
    ensures { result ≡ all_leaves_meet (machine_of descr.now) target (stands_in bindings.now) (pairs_in pairs.now) }
{
    leaves_meet(descr, target, bindings, pairs, pairs)
}

/// Whether each assignment meets a goal or is harmless, each leaf meets its part of the goal, and what
/// `operands_keep_rules` says.
fn effects_keep_rules(
    descr: &Description,
    job: Job,
    root: bool,
    derivation: &Derivation,
    instruction: &Instruction,
    goals: &[Effect],
    pairs: &[Pair],
) -> bool
    ensures { result ≡ effects_keep_rules (task_in descr.now job) root (node_of derivation.now) (record { form = form_of instruction.now; goals = assignments_in goals.now; pairs = pairs_in pairs.now }) }
{
    let bindings = derivation.bindings.as_slice();
    let effects = instruction.rtl.effects.as_slice();
    if !are_allowed(descr, root, bindings, goals, effects) {
        return false;
    }
    all_leaves_meet(descr, job.target, bindings, pairs)
        && operands_keep_rules(descr, job, root, derivation, instruction, pairs)
}

/// Whether a node keeps the rules: few laws; the input read once; one assignment for each goal; and what
/// `effects_keep_rules` says.
pub(crate) fn keeps_rules(
    descr: &Description,
    job: Job,
    root: bool,
    derivation: &Derivation,
    instruction: &Instruction,
    goals: &[Effect],
    pairs: &Items<Pair>,
) -> bool
    ensures { result ≡ rules_kept (task_in descr.now job) root (node_of derivation.now) (record { form = form_of instruction.now; goals = assignments_in goals.now; pairs = pairs_in pairs.now }) }
{
    let bindings = derivation.bindings.as_slice();
    let effects = instruction.rtl.effects.as_slice();
    let pairs = pairs.as_slice();
    if !has_few_steps(derivation, job.laws) {
        return false;
    }
    if !takes_one_input(goals) {
        return false;
    }
    all_met_once(root, bindings, effects, goals)
        && effects_keep_rules(descr, job, root, derivation, instruction, goals, pairs)
}

/// What a flag's child is to compute, if there is one.
fn flag_need(alloc: Global, pair: Option<&Pair>) -> Result<Items<Need>, AllocError>
    ensures { IfOk result (λ needs. needs_in needs ≡ flag_need (option_map pair_of (option_copied pair.entry))) }
{
    let mut needs = Items::new(alloc);
    if let Some(pair) = pair {
        if let Leaf::Register { place, .. } = pair.leaf {
            if let Place::Cell { space, index } = place {
                let value = copied(alloc, &pair.part)?;
                needs.push(Need::Flag {
                    space,
                    index,
                    value,
                })?;
            }
        }
    }
    Ok(needs)
}

/// The need of a value in a register, before others, if both are there.
fn need_before(
    alloc: Global,
    part: Option<&Term>,
    others: Option<Items<Need>>,
) -> Result<Option<Items<Need>>, AllocError>
    ensures { IfOk result (λ needs. option_map needs_in needs ≡ need_before (option_map tree_of (option_copied part.entry)) (option_map needs_in others)) }
{
    match part {
        Some(part) => match others {
            Some(others) => {
                let mut needs = Items::new(alloc);
                needs.push(Need::Register {
                    value: copied(alloc, part)?,
                })?;
                needs.append(others)?;
                Ok(Some(needs))
            }
            None => Ok(None),
        },
        None => Ok(None),
    }
}

/// What the children at operands are to compute, from the operand of one number on. There is none where one of these
/// operands meets no part of the goal.
fn child_needs(
    alloc: Global,
    number: usize,
    bindings: &[Binding],
    pairs: &[Pair],
) -> Result<Option<Items<Need>>, AllocError>
    requires { number + length bindings.now < 2 ^ 64 }
    ensures { IfOk result (λ needs. option_map needs_in needs ≡ child_needs number (stands_in bindings.now) (pairs_in pairs.now)) }
{
    match bindings {
        [] => Ok(Some(Items::new(alloc))),
        [Binding::Child { .. }, bindings @ ..] => {
            let others = child_needs(alloc, number + 1, bindings, pairs)?;
            need_before(alloc, register_part(number, pairs), others)
        }
        [_, bindings @ ..] => child_needs(alloc, number + 1, bindings, pairs),
    }
}

/// What the children are to compute, in order, the flag last.
pub(crate) fn needs_of(
    alloc: Global,
    descr: &Description,
    derivation: &Derivation,
    pairs: &Items<Pair>,
) -> Result<Option<Items<Need>>, AllocError>
    ensures { IfOk result (λ found. option_map needs_in found ≡ needs_of (machine_of descr.now) (node_of derivation.now) (pairs_in pairs.now)) }
{
    let pairs = pairs.as_slice();
    let bindings = derivation.bindings.as_slice();
    let flag = flag_need(alloc, flag_pair(descr, pairs))?;
    match child_needs(alloc, 0, bindings, pairs)? {
        Some(mut needs) => {
            needs.append(flag)?;
            Ok(Some(needs))
        }
        None => Ok(None),
    }
}

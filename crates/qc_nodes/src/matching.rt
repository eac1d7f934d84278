//! Where an instruction meets what a node is to compute: the parts of the goal at the leaves of its terms.
ghost use Rattle.std.specs.Prelude.{◌≡◌, [], map, slice_get, IfOk, Some, None};
ghost use Rattle.std.specs.Option.{option_map, option_copied};
ghost use Rattle.qc_terms.specs.Tree.{tree_of};
ghost use Rattle.qc_derivations.specs.Forest.{stand_of};
ghost use Rattle.qc_derivations.specs.Machine.{assignment_of, destination_of};
ghost use Rattle.qc_derivations.specs.Matching.{all_pairs, assignment_pairs, both, destination_pairs, extended, goal_met, guard_pairs, is_place_of, meets, none_if, pair, pairs_at, pairs_of, takes_goal};
ghost use Rattle.qc_nodes.specs.Inner.Views.{assignments_in, pairs_in, stands_in};

use crate::trees::{
    copied, is_address_after, is_next_input, is_number, operand_of, same_op, same_place,
};
use qc_derivations::{Binding, Leaf};
use qc_terms::{Dest, Effect, Place, Term};
use qc_words::Op;
use sqlite_items::Items;
use std::alloc::{AllocError, Global};

/// A leaf of an instruction's term, and the part of the goal that stands there.
#[derive(Debug, Drop)]
pub(crate) struct Pair {
    pub(crate) leaf: Leaf,
    pub(crate) part: Term,
}

/// What stands for the operand of this number, if something does.
pub(crate) fn binding_at(bindings: &[Binding], number: usize) -> Option<&Binding>
    ensures { option_map stand_of (option_copied result) ≡ slice_get (stands_in bindings.now) number }
{
    bindings.get(number)
}

/// The list of one pair.
fn one_pair(alloc: Global, leaf: Leaf, part: &Term) -> Result<Option<Items<Pair>>, AllocError>
    ensures { IfOk result (λ found. option_map pairs_in found ≡ Some (pair leaf (tree_of part.now))) }
{
    let mut pairs = Items::new(alloc);
    pairs.push(Pair {
        leaf,
        part: copied(alloc, part)?,
    })?;
    Ok(Some(pairs))
}

/// No pairs, if the test holds.
fn none_if(alloc: Global, test: bool) -> Option<Items<Pair>>
    ensures { option_map pairs_in result ≡ none_if test }
{
    if test { Some(Items::new(alloc)) } else { None }
}

/// Both lists, one after the other, if both are there.
fn both(
    first: Option<Items<Pair>>,
    second: Option<Items<Pair>>,
) -> Result<Option<Items<Pair>>, AllocError>
    ensures { IfOk result (λ found. option_map pairs_in found ≡ both (option_map pairs_in first) (option_map pairs_in second)) }
{
    match first {
        Some(mut pairs) => match second {
            Some(more) => {
                pairs.append(more)?;
                Ok(Some(pairs))
            }
            None => Ok(None),
        },
        None => Ok(None),
    }
}

/// The pair of an operator over an immediate, where a number stands.
fn extended(
    alloc: Global,
    op: Op,
    arg: &Term,
    part: &Term,
) -> Result<Option<Items<Pair>>, AllocError>
    ensures { IfOk result (λ found. option_map pairs_in found ≡ extended op (tree_of arg.now) (tree_of part.now)) }
{
    match arg {
        Term::Imm { operand, width } => match part {
            Term::Num { .. } => {
                let leaf = Leaf::Extended {
                    op,
                    operand: *operand,
                    width: *width,
                };
                one_pair(alloc, leaf, part)
            }
            _ => Ok(None),
        },
        _ => Ok(None),
    }
}

/// The pairs of a term of an instruction and another one, where operators, widths and numbers agree.
fn pairs_of(
    alloc: Global,
    root: bool,
    pattern: &Term,
    term: &Term,
) -> Result<Option<Items<Pair>>, AllocError>
    ensures { IfOk result (λ found. option_map pairs_in found ≡ pairs_of root (tree_of pattern.now) (tree_of term.now)) }
{
    match pattern {
        Term::Num { value, width } => Ok(none_if(alloc, is_number(*value, *width, term))),
        Term::Un { op, arg } => match extended(alloc, *op, arg.get(), term)? {
            Some(pairs) => Ok(Some(pairs)),
            None => match operand_of(*op, term) {
                Some(part) => pairs_of(alloc, root, arg.get(), part),
                None => Ok(None),
            },
        },
        Term::Bin { op, left, right } => match term {
            Term::Bin {
                op: o,
                left: first,
                right: second,
            } => {
                if same_op(*op, *o) {
                    let first = pairs_of(alloc, root, left.get(), first.get())?;
                    let second = pairs_of(alloc, root, right.get(), second.get())?;
                    both(first, second)
                } else {
                    Ok(None)
                }
            }
            _ => Ok(None),
        },
        Term::Reg { place, width } => {
            let leaf = Leaf::Register {
                place: *place,
                width: *width,
            };
            one_pair(alloc, leaf, term)
        }
        Term::Imm { operand, width } => {
            let leaf = Leaf::Immediate {
                operand: *operand,
                width: *width,
            };
            one_pair(alloc, leaf, term)
        }
        Term::Mem { width, address } => match term {
            Term::Mem {
                width: w,
                address: part,
            } => {
                if width.bits() == w.bits() {
                    pairs_of(alloc, root, address.get(), part.get())
                } else {
                    Ok(None)
                }
            }
            _ => Ok(None),
        },
        Term::Input { width } => Ok(none_if(alloc, is_next_input(*width, term))),
        Term::After { width } => Ok(none_if(alloc, root && is_address_after(*width, term))),
    }
}

/// The pairs of two guards: a guard meets a guard, and none meets none.
fn guard_pairs(
    alloc: Global,
    root: bool,
    guard: &Option<Term>,
    goal: &Option<Term>,
) -> Result<Option<Items<Pair>>, AllocError>
    ensures { IfOk result (λ found. option_map pairs_in found ≡ guard_pairs root (option_map tree_of guard.now) (option_map tree_of goal.now)) }
{
    match guard {
        None => match goal {
            None => Ok(Some(Items::new(alloc))),
            Some(_) => Ok(None),
        },
        Some(guard) => match goal {
            None => Ok(None),
            Some(goal) => pairs_of(alloc, root, guard, goal),
        },
    }
}

/// The pairs of two destinations of one kind: stores meet in their widths and addresses.
fn destination_pairs(
    alloc: Global,
    root: bool,
    to: &Dest,
    goal: &Dest,
) -> Result<Option<Items<Pair>>, AllocError>
    ensures { IfOk result (λ found. option_map pairs_in found ≡ destination_pairs root (destination_of to.now) (destination_of goal.now)) }
{
    match to {
        Dest::Mem { width, address } => match goal {
            Dest::Mem {
                width: w,
                address: part,
            } => {
                if width.bits() == w.bits() {
                    pairs_of(alloc, root, address, part)
                } else {
                    Ok(None)
                }
            }
            _ => Ok(Some(Items::new(alloc))),
        },
        _ => Ok(Some(Items::new(alloc))),
    }
}

/// The pairs of an assignment of an instruction and the one to be done.
fn assignment_pairs(
    alloc: Global,
    root: bool,
    effect: &Effect,
    goal: &Effect,
) -> Result<Option<Items<Pair>>, AllocError>
    ensures { IfOk result (λ found. option_map pairs_in found ≡ assignment_pairs root (assignment_of effect.now) (assignment_of goal.now)) }
{
    let guard = guard_pairs(alloc, root, &effect.guard, &goal.guard)?;
    let to = destination_pairs(alloc, root, &effect.to, &goal.to)?;
    let value = pairs_of(alloc, root, &effect.value, &goal.value)?;
    let rest = both(to, value)?;
    both(guard, rest)
}

/// Whether the operand is the place of a goal.
fn takes_goal(root: bool, goal: Place, binding: Option<&Binding>) -> bool
    ensures { result ≡ takes_goal root goal (option_map stand_of (option_copied binding.entry)) }
{
    match binding {
        Some(Binding::Own) | Some(Binding::Child { .. }) => match goal {
            Place::Operand { .. } => true,
            Place::Cell { .. } => root,
        },
        _ => false,
    }
}

/// Whether the place of an instruction's assignment is that of a goal.
fn is_place_of(root: bool, bindings: &[Binding], goal: Place, place: Place) -> bool
    ensures { result ≡ is_place_of root (stands_in bindings.now) goal place }
{
    match place {
        Place::Operand { number, .. } => takes_goal(
            root,
            goal,
            binding_at(bindings, number as usize),
        ),
        Place::Cell { .. } => same_place(goal, place),
    }
}

/// Whether the destination of an instruction's assignment is that of the goal, but for what stands at operands and addresses.
pub(crate) fn meets(root: bool, bindings: &[Binding], goal: &Dest, to: &Dest) -> bool
    ensures { result ≡ meets root (stands_in bindings.now) (destination_of goal.now) (destination_of to.now) }
{
    match goal {
        Dest::Reg { place: goal } => match to {
            Dest::Reg { place } => is_place_of(root, bindings, *goal, *place),
            _ => false,
        },
        Dest::Mem { .. } => matches!(to, Dest::Mem { .. }),
        Dest::Pc => matches!(to, Dest::Pc),
        Dest::Out => matches!(to, Dest::Out),
        Dest::Halt => matches!(to, Dest::Halt),
        Dest::Trap => matches!(to, Dest::Trap),
    }
}

/// The first goal that the assignment meets.
pub(crate) fn goal_met<'a>(
    root: bool,
    bindings: &[Binding],
    goals: &'a [Effect],
    effect: &Effect,
) -> Option<&'a Effect>
    ensures { option_map assignment_of (option_copied result) ≡ goal_met root (stands_in bindings.now) (assignments_in goals.now) (assignment_of effect.now) }
{
    match goals {
        [] => None,
        [goal, goals @ ..] => {
            if meets(root, bindings, &goal.to, &effect.to) {
                Some(goal)
            } else {
                goal_met(root, bindings, goals, effect)
            }
        }
    }
}

/// The pairs of an assignment and the goal that it meets. One that meets none has none.
fn pairs_at(
    alloc: Global,
    root: bool,
    effect: &Effect,
    goal: Option<&Effect>,
) -> Result<Option<Items<Pair>>, AllocError>
    ensures { IfOk result (λ found. option_map pairs_in found ≡ pairs_at root (assignment_of effect.now) (option_map assignment_of (option_copied goal.entry))) }
{
    match goal {
        None => Ok(Some(Items::new(alloc))),
        Some(goal) => assignment_pairs(alloc, root, effect, goal),
    }
}

/// The pairs of an instruction and the goals.
pub(crate) fn all_pairs(
    alloc: Global,
    root: bool,
    bindings: &[Binding],
    goals: &[Effect],
    effects: &[Effect],
) -> Result<Option<Items<Pair>>, AllocError>
    ensures { IfOk result (λ found. option_map pairs_in found ≡ all_pairs root (stands_in bindings.now) (assignments_in goals.now) (assignments_in effects.now)) }
{
    match effects {
        [] => Ok(Some(Items::new(alloc))),
        [effect, effects @ ..] => {
            let first = pairs_at(alloc, root, effect, goal_met(root, bindings, goals, effect))?;
            let others = all_pairs(alloc, root, bindings, goals, effects)?;
            both(first, others)
        }
    }
}

//! What a node is to compute, as assignments, and what laws at places make of them.
ghost use Rattle.std.specs.Prelude.{◌≡◌, ◌∷◌, [], ◌<◌, length, map, slice_get, slice_set, IfOk, OnSome};
ghost use Rattle.std.specs.Option.{option_map, option_copied};
ghost use Rattle.qc_terms.specs.Tree.{Binary, Load, Unary, tree_of};
ghost use Rattle.qc_pool.specs.Widths.{HasWidths};
ghost use Rattle.qc_equations.specs.Steps.{rewritten};
ghost use Rattle.qc_equations.specs.Table.{gives};
ghost use Rattle.qc_derivations.specs.Forest.{step_of};
ghost use Rattle.qc_derivations.specs.Goals.{AsTile, gets, goals_after, goals_of, with_address, with_guard, with_part, whole_place, with_place, with_value};
ghost use Rattle.qc_derivations.specs.Machine.{ToPlace, assignment_of, assignments_of};
ghost use Rattle.qc_nodes.specs.Inner.Views.{assignments_in};
ghost use Rattle.qc_nodes.specs.Needs.{GoalHasWidths, GoalsHaveWidths, need_of};

use crate::need::Need;
use crate::trees::copied;
use qc_equations::Law;
use qc_laws::{Step, law_gives};
use qc_pool::Pool;
use qc_terms::{Dest, Effect, Place, Term};
use qc_tiles::Tile;
use qc_words::{Op, Width};
use sqlite_items::{Boxed, Items};
use std::alloc::{AllocError, Global};

/// What a law gives for a term, if it matches the term.
fn given(alloc: Global, law: Law, term: &Term) -> Result<Option<Term>, AllocError>
    requires { HasWidths (tree_of term.now) }
    ensures { IfOk result (λ given. option_map tree_of given ≡ gives law (tree_of term.now)) }
{
    let mut pool = Pool::new(alloc)?;
    let id = pool.intern(term)?;
    match law_gives(&mut pool, law, id)? {
        Some(id) => Ok(Some(pool.tree(alloc, id)?)),
        None => Ok(None),
    }
}

/// An operator over its only operand, if there is one.
fn over(alloc: Global, op: Op, arg: Option<Term>) -> Result<Option<Term>, AllocError>
    ensures { IfOk result (λ term. option_map tree_of term ≡ option_map (Unary op) (option_map tree_of arg)) }
{
    match arg {
        Some(arg) => Ok(Some(Term::Un {
            op,
            arg: Boxed::new(alloc, arg)?,
        })),
        None => Ok(None),
    }
}

/// An operator over a new first operand, if there is one, and a copy of the second one.
fn over_left(
    alloc: Global,
    op: Op,
    left: Option<Term>,
    right: &Term,
) -> Result<Option<Term>, AllocError>
    ensures { IfOk result (λ term. option_map tree_of term ≡ option_map (λ t. Binary op t (tree_of right.now)) (option_map tree_of left)) }
{
    match left {
        Some(left) => Ok(Some(Term::Bin {
            op,
            left: Boxed::new(alloc, left)?,
            right: Boxed::new(alloc, copied(alloc, right)?)?,
        })),
        None => Ok(None),
    }
}

/// An operator over a copy of the first operand and a new second one, if there is one.
fn over_right(
    alloc: Global,
    op: Op,
    left: &Term,
    right: Option<Term>,
) -> Result<Option<Term>, AllocError>
    ensures { IfOk result (λ term. option_map tree_of term ≡ option_map (Binary op (tree_of left.now)) (option_map tree_of right)) }
{
    match right {
        Some(right) => Ok(Some(Term::Bin {
            op,
            left: Boxed::new(alloc, copied(alloc, left)?)?,
            right: Boxed::new(alloc, right)?,
        })),
        None => Ok(None),
    }
}

/// The word of memory at a new address, if there is one.
fn load_at(alloc: Global, width: Width, address: Option<Term>) -> Result<Option<Term>, AllocError>
    ensures { IfOk result (λ term. option_map tree_of term ≡ option_map (Load width) (option_map tree_of address)) }
{
    match address {
        Some(address) => Ok(Some(Term::Mem {
            width,
            address: Boxed::new(alloc, address)?,
        })),
        None => Ok(None),
    }
}

/// The term where a law is used at a place, if the place is there and the law matches what stands there.
fn rewritten(
    alloc: Global,
    law: Law,
    place: &[u32],
    term: &Term,
) -> Result<Option<Term>, AllocError>
    requires { HasWidths (tree_of term.now) }
    ensures { IfOk result (λ new. option_map tree_of new ≡ rewritten law place.now (tree_of term.now)) }
{
    match place {
        [] => given(alloc, law, term),
        [number, place @ ..] => match term {
            Term::Un { op, arg } if *number == 0 => {
                let arg = rewritten(alloc, law, place, arg.get())?;
                over(alloc, *op, arg)
            }
            Term::Bin { op, left, right } if *number == 0 => {
                let left = rewritten(alloc, law, place, left.get())?;
                over_left(alloc, *op, left, right.get())
            }
            Term::Bin { op, left, right } if *number == 1 => {
                let right = rewritten(alloc, law, place, right.get())?;
                over_right(alloc, *op, left.get(), right)
            }
            Term::Mem { width, address } if *number == 0 => {
                let address = rewritten(alloc, law, place, address.get())?;
                load_at(alloc, *width, address)
            }
            _ => Ok(None),
        },
    }
}

/// The assignment where a law is used in its guard.
fn with_guard(
    alloc: Global,
    law: Law,
    place: &[u32],
    effect: &Effect,
) -> Result<Option<Effect>, AllocError>
    requires { GoalHasWidths (assignment_of effect.now) }
    ensures { IfOk result (λ new. option_map assignment_of new ≡ with_guard law place.now (assignment_of effect.now)) }
{
    match &effect.guard {
        Some(guard) => match rewritten(alloc, law, place, guard)? {
            Some(guard) => Ok(Some(Effect {
                guard: Some(guard),
                to: copied_destination(alloc, &effect.to)?,
                value: copied(alloc, &effect.value)?,
            })),
            None => Ok(None),
        },
        None => Ok(None),
    }
}

/// The assignment where a law is used in the address of its destination.
fn with_address(
    alloc: Global,
    law: Law,
    place: &[u32],
    effect: &Effect,
) -> Result<Option<Effect>, AllocError>
    requires { GoalHasWidths (assignment_of effect.now) }
    ensures { IfOk result (λ new. option_map assignment_of new ≡ with_address law place.now (assignment_of effect.now)) }
{
    match &effect.to {
        Dest::Mem { width, address } => match rewritten(alloc, law, place, address)? {
            Some(address) => Ok(Some(Effect {
                guard: copied_guard(alloc, &effect.guard)?,
                to: Dest::Mem {
                    width: *width,
                    address,
                },
                value: copied(alloc, &effect.value)?,
            })),
            None => Ok(None),
        },
        _ => Ok(None),
    }
}

/// The assignment where a law is used in its value.
fn with_value(
    alloc: Global,
    law: Law,
    place: &[u32],
    effect: &Effect,
) -> Result<Option<Effect>, AllocError>
    requires { GoalHasWidths (assignment_of effect.now) }
    ensures { IfOk result (λ new. option_map assignment_of new ≡ with_value law place.now (assignment_of effect.now)) }
{
    match rewritten(alloc, law, place, &effect.value)? {
        Some(value) => Ok(Some(Effect {
            guard: copied_guard(alloc, &effect.guard)?,
            to: copied_destination(alloc, &effect.to)?,
            value,
        })),
        None => Ok(None),
    }
}

/// The assignment where a law is used in its guard (part 0), its address (1) or its value (2).
fn with_part(
    alloc: Global,
    law: Law,
    part: u32,
    place: &[u32],
    effect: &Effect,
) -> Result<Option<Effect>, AllocError>
    requires { GoalHasWidths (assignment_of effect.now) }
    ensures { IfOk result (λ new. option_map assignment_of new ≡ with_part law part place.now (assignment_of effect.now)) }
{
    match part {
        0 => with_guard(alloc, law, place, effect),
        1 => with_address(alloc, law, place, effect),
        2 => with_value(alloc, law, place, effect),
        _ => Ok(None),
    }
}

/// A copy of a guard.
fn copied_guard(alloc: Global, guard: &Option<Term>) -> Result<Option<Term>, AllocError>
    ensures { IfOk result (λ copy. copy ≡ guard.now) }
{
    match guard {
        Some(guard) => Ok(Some(copied(alloc, guard)?)),
        None => Ok(None),
    }
}

/// A copy of a destination.
fn copied_destination(alloc: Global, to: &Dest) -> Result<Dest, AllocError>
    ensures { IfOk result (λ copy. copy ≡ to.now) }
{
    match to {
        Dest::Reg { place } => Ok(Dest::Reg { place: *place }),
        Dest::Mem { width, address } => Ok(Dest::Mem {
            width: *width,
            address: copied(alloc, address)?,
        }),
        Dest::Pc => Ok(Dest::Pc),
        Dest::Out => Ok(Dest::Out),
        Dest::Halt => Ok(Dest::Halt),
        Dest::Trap => Ok(Dest::Trap),
    }
}

/// A copy of an effect.
fn copied_effect(alloc: Global, effect: &Effect) -> Result<Effect, AllocError>
    ensures { IfOk result (λ copy. copy ≡ effect.now) }
{
    Ok(Effect {
        guard: copied_guard(alloc, &effect.guard)?,
        to: copied_destination(alloc, &effect.to)?,
        value: copied(alloc, &effect.value)?,
    })
}

/// A copy of a list of effects.
pub(crate) fn copied_effects(alloc: Global, effects: &[Effect]) -> Result<Items<Effect>, AllocError>
    ensures { IfOk result (λ copy. copy ≡ effects.now) }
{
    let mut copies = Items::new(alloc);
    for effect in effects {
        copies.push(copied_effect(alloc, effect)?)?;
    }
    Ok(copies)
}

/// What is to be done, as assignments.
pub(crate) fn goals_of(alloc: Global, need: &Need) -> Result<Items<Effect>, AllocError>
    ensures { IfOk result (λ goals. assignments_in goals ≡ goals_of (need_of need.now)) }
{
    let (place, value) = match need {
        Need::Register { value } => (
            Place::Operand {
                space: 0,
                number: 0,
            },
            value,
        ),
        Need::Flag {
            space,
            index,
            value,
        } => (
            Place::Cell {
                space: *space,
                index: *index,
            },
            value,
        ),
        Need::Tile { effects } => return copied_effects(alloc, effects.as_slice()),
    };
    gets(alloc, place, value)
}

/// The one assignment that puts a value into a place.
fn gets(alloc: Global, place: Place, value: &Term) -> Result<Items<Effect>, AllocError>
    ensures { IfOk result (λ goals. assignments_in goals ≡ gets (ToPlace place) (tree_of value.now) ∷ []) }
{
    let mut goals = Items::new(alloc);
    goals.push(Effect {
        guard: None,
        to: Dest::Reg { place },
        value: copied(alloc, value)?,
    })?;
    Ok(goals)
}

/// The assignment of this number, if there is one.
fn goal_at(goals: &[Effect], number: usize) -> Option<&Effect>
    ensures goal { option_map assignment_of (option_copied result) ≡ slice_get (assignments_in goals.now) number }
    ensures within { OnSome result (number < length goals.now) }
{
    goals.get(number)
}

/// The assignments where another one is put at a number.
fn with_goal(goals: Items<Effect>, number: usize, goal: Effect) -> Items<Effect>
    requires { number < length goals }
    ensures { assignments_in result ≡ slice_set (assignments_in goals) number (assignment_of goal) }
{
    let mut goals = goals;
    goals.set(number, goal);
    goals
}

/// The assignments where a law is used at a place of a part of the assignment of this number.
fn with_place_at(
    alloc: Global,
    law: Law,
    number: u32,
    part: u32,
    place: &[u32],
    goals: Items<Effect>,
) -> Result<Option<Items<Effect>>, AllocError>
    requires { GoalsHaveWidths (assignments_in goals) }
    ensures { IfOk result (λ new. option_map assignments_in new ≡ with_place law (number ∷ part ∷ place.now) (assignments_in goals)) }
{
    let number = number as usize;
    match goal_at(goals.as_slice(), number) {
        Some(effect) => match with_part(alloc, law, part, place, effect)? {
            Some(effect) => Ok(Some(with_goal(goals, number, effect))),
            None => Ok(None),
        },
        None => Ok(None),
    }
}

/// The assignments after a step, a law at a place. A place in a child's value is one in the value of its one assignment.
fn with_step(
    alloc: Global,
    root: bool,
    step: &Step,
    goals: Items<Effect>,
) -> Result<Option<Items<Effect>>, AllocError>
    requires { GoalsHaveWidths (assignments_in goals) }
    ensures { IfOk result (λ new. option_map assignments_in new ≡ with_place step.now.law (whole_place root step.now.place) (assignments_in goals)) }
{
    let place = step.place.as_slice();
    if root {
        match place {
            [number, part, place @ ..] => {
                with_place_at(alloc, step.law, *number, *part, place, goals)
            }
            _ => Ok(None),
        }
    } else {
        with_place_at(alloc, step.law, 0, 2, place, goals)
    }
}

/// The assignments after some steps, each a law and a place.
pub(crate) fn goals_after(
    alloc: Global,
    root: bool,
    steps: &[Step],
    goals: Items<Effect>,
) -> Result<Option<Items<Effect>>, AllocError>
    requires { GoalsHaveWidths (assignments_in goals) }
    ensures { IfOk result (λ new. option_map assignments_in new ≡ goals_after root (map step_of steps.now) (assignments_in goals)) }
{
    match steps {
        [] => Ok(Some(goals)),
        [step, steps @ ..] => match with_step(alloc, root, step, goals)? {
            Some(goals) => goals_after(alloc, root, steps, goals),
            None => Ok(None),
        },
    }
}

/// What the root of a derivation of the tile is to compute.
pub fn tile_need(alloc: Global, tile: &Tile) -> Result<Need, AllocError>
    ensures { IfOk result (λ need. need_of need ≡ AsTile (assignments_of tile.now.rtl)) }
{
    Ok(Need::Tile {
        effects: copied_effects(alloc, tile.rtl.effects.as_slice())?,
    })
}

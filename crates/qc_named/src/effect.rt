//! Effects whose names are resolved.
ghost use Rattle.std.specs.Prelude.{◌≡◌, ◌++◌, Option, Some, None, IfOk, OnOk, map};
ghost use Rattle.std.specs.Option.{option_map, option_to_list};
ghost use Rattle.qc_bodies.specs.Trees.{core_of};
ghost use Rattle.qc_bodies.specs.Law.Acts.{Assign, act_of, goal_of};
ghost use Rattle.qc_facts.specs.Facts as known;
ghost use Rattle.qc_named.specs.Inner.Scopes.{IsSettled, like_kept, standing_at};
ghost use Rattle.qc_named.specs.Resolved as spec;
ghost use Rattle.qc_named.specs.ResolvedEffects as acting;
ghost use Rattle.qc_named.specs.Standing as stands;

use crate::expression::{aim_of_cell, aim_of_name, arguments_of, tree_of};
use crate::standing::{Scope, own_in, placed_in, takes};
use qc_bodies::{Act, Aim, Callee, Does, Goal, Target, Tree};
use qc_facts::{access_width, operator_named};
use qc_grammar::{Ident, Number};
use qc_lrtl::{Effect, Expr, Guard, Simple};
use qc_resolve::Signature;
use qc_terms::Place;
use qc_words::{Op, Width};
use sqlite_items::Items;
use std::alloc::{AllocError, Global};

/// Names types that stand inside an effect, which a function has to do that adds one.
fn name_types(_op: Op, _width: Option<Width>, _target: Option<Target>, _place: Option<Place>) {}

/// The guard of an effect, if it has one.
fn guard_tree(
    alloc: Global,
    scope: &Scope<'_>,
    guard: &Option<Guard>,
) -> Result<Option<Tree>, AllocError>
    requires { IsSettled scope.now }
    ensures { IfOk result (λ tree. option_map core_of tree
        ≡ acting.guard_tree (standing_at scope.now.names) guard.now) }
{
    match guard {
        None => Ok(None),
        Some(guard) => Ok(Some(tree_of(alloc, scope, &guard.condition)?)),
    }
}

/// An effect that gives something a value.
fn assigned(
    alloc: Global,
    scope: &Scope<'_>,
    guard: Option<Tree>,
    to: Goal,
    value: &Expr,
) -> Result<Act, AllocError>
    requires { IsSettled scope.now }
    ensures { IfOk result (λ act. act_of act ≡ Assign (option_map core_of guard) (goal_of to)
        (spec.tree_in (standing_at scope.now.names) value.now)) }
{
    let value = tree_of(alloc, scope, value)?;
    Ok(Act {
        guard,
        does: Does::Assign { to, value },
    })
}

/// An effect on memory.
#[tactic(auto, unfolding(crate::specs::Inner::Scopes::standing_at))]
fn stored(
    alloc: Global,
    scope: &Scope<'_>,
    guard: Option<Tree>,
    bits: &Number,
    address: &Expr,
    value: &Expr,
) -> Result<Act, AllocError>
    requires { IsSettled scope.now }
    ensures { IfOk result (λ act. act_of act ≡ acting.stored (standing_at scope.now.names)
        (option_map core_of guard) bits.now address.now value.now) }
{
    let width = access_width(scope.names.facts.word(), bits);
    let address = tree_of(alloc, scope, address)?;
    let act = assigned(alloc, scope, guard, Goal::Memory { width, address }, value)?;
    Ok(act)
}

/// The use of named effects, if it is one.
#[tactic(auto, using(crate::proofs::Cores::counts))]
fn used(
    alloc: Global,
    scope: &Scope<'_>,
    guard: Option<Tree>,
    placed: Option<(usize, &Signature)>,
    args: &[Expr],
) -> Result<Option<Act>, AllocError>
    requires { IsSettled scope.now }
    ensures { IfOk result (λ act. map act_of (option_to_list act)
        ≡ acting.acts_of_placed (standing_at scope.now.names) (option_map core_of guard) None None
        (like_kept (option_map (λ p. (p.0, p.1.now)) placed.entry)) (map spec.resolved args.now)) }
{
    match placed {
        None => Ok(None),
        Some((number, signature)) => {
            if takes(true, signature, args.len()) {
                let found = arguments_of(alloc, scope, signature.params.as_slice(), args)?;
                Ok(Some(Act {
                    guard,
                    does: Does::Use {
                        number,
                        callees: found.callees,
                        aims: found.aims,
                        args: found.values,
                    },
                }))
            } else {
                Ok(None)
            }
        }
    }
}

/// The use of a name as named effects, which are hidden by an own name or an operator of their name.
fn use_of(
    alloc: Global,
    scope: &Scope<'_>,
    guard: Option<Tree>,
    name: &Ident,
    args: &[Expr],
) -> Result<Option<Act>, AllocError>
    requires { IsSettled scope.now }
    ensures { IfOk result (λ act. map act_of (option_to_list act)
        ≡ acting.acts_of_use (standing_at scope.now.names) (option_map core_of guard) name.now args.now) }
{
    if own_in(scope, name.text.as_slice()).is_some() {
        return Ok(None);
    }
    if operator_named(name.text.as_slice()).is_some() {
        return Ok(None);
    }
    let placed = placed_in(scope, name.text.as_slice());
    let act = used(alloc, scope, guard, placed, args)?;
    Ok(act)
}

/// What one effect does under a guard. The use of what is no named effects is nothing.
#[tactic(auto, unfolding(crate::specs::Inner::Scopes::standing_at))]
fn act_of_simple(
    alloc: Global,
    scope: &Scope<'_>,
    guard: Option<Tree>,
    simple: &Simple,
) -> Result<Option<Act>, AllocError>
    requires { IsSettled scope.now }
    ensures { IfOk result (λ act. map act_of (option_to_list act)
        ≡ acting.acts_of_simple (standing_at scope.now.names) (option_map core_of guard) simple.now) }
{
    match simple {
        Simple::Pc { value, .. } => Ok(Some(assigned(alloc, scope, guard, Goal::Pc, value)?)),
        Simple::Out { value, .. } => Ok(Some(assigned(alloc, scope, guard, Goal::Out, value)?)),
        Simple::Halt { value, .. } => Ok(Some(assigned(alloc, scope, guard, Goal::Halt, value)?)),
        Simple::Trap { value, .. } => Ok(Some(assigned(alloc, scope, guard, Goal::Trap, value)?)),
        Simple::Mem {
            bits,
            address,
            value,
            ..
        } => Ok(Some(stored(alloc, scope, guard, bits, address, value)?)),
        Simple::Name { name, value } => {
            let aim = aim_of_name(scope, name);
            let to = Goal::Register { aim };
            Ok(Some(assigned(alloc, scope, guard, to, value)?))
        }
        Simple::Cell { space, cell, value } => {
            let aim = aim_of_cell(scope.names.facts.cell(space, cell));
            let to = Goal::Register { aim };
            Ok(Some(assigned(alloc, scope, guard, to, value)?))
        }
        Simple::Use { name, args } => use_of(alloc, scope, guard, name, args.as_slice()),
    }
}

/// What one effect does.
#[tactic(auto, unfolding(crate::specs::ResolvedEffects::acts_of_effect))]
fn act_of_effect(
    alloc: Global,
    scope: &Scope<'_>,
    effect: &Effect,
) -> Result<Option<Act>, AllocError>
    requires { IsSettled scope.now }
    ensures { IfOk result (λ act. map act_of (option_to_list act)
        ≡ acting.acts_of_effect (standing_at scope.now.names) effect.now) }
{
    let guard = guard_tree(alloc, scope, &effect.guard)?;
    let act = act_of_simple(alloc, scope, guard, &effect.simple)?;
    Ok(act)
}

/// Adds an effect, if there is one.
#[tactic(auto, using(crate::proofs::Cores::lists))]
fn add(found: &mut Items<Act>, act: Option<Act>) -> Result<(), AllocError>
    ensures { OnOk result (found.new ≡ found.old ++ option_to_list act) }
{
    name_types(Op::Add, None, None, None);
    match act {
        None => Ok(()),
        Some(act) => found.push(act),
    }
}

/// What effects do, in order.
pub(crate) fn acts_of(
    alloc: Global,
    scope: &Scope<'_>,
    effects: &[Effect],
) -> Result<Items<Act>, AllocError>
    requires { IsSettled scope.now }
    ensures { IfOk result (λ acts. map act_of acts
        ≡ acting.acts_of (standing_at scope.now.names) effects.now) }
{
    name_types(Op::Add, None, None, None);
    let mut found = Items::new(alloc);
    for effect in effects {
        let act = act_of_effect(alloc, scope, effect)?;
        add(&mut found, act)?;
    }
    Ok(found)
}

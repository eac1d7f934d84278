//! What effects come to, where their terms are not too large.
ghost use Rattle.std.specs.Prelude.{◌≡◌, ◌++◌, ◌∷◌, [], Option, None, Some, List, IfOk, map, min};
ghost use Rattle.qc_descr.specs.Valid.{nodes_of_dest};
ghost use Rattle.qc_terms.specs.declared.term.Dest.TheVariants as dest;
ghost use Rattle.qc_resolve.specs.Effects.{act_of, act_on, act_on_memory, guarded, joined as joined_of};
ghost use Rattle.qc_widths.specs.Inner.KeptValues.{IsValue};
ghost use Rattle.qc_widths.specs.Inner.KeptEffects.{IsActs, more_under, nodes_under, under};
ghost use Rattle.qc_resolve.specs.Scopes.{Act};
ghost use Rattle.qc_facts.specs.Values as values;

use crate::nodes::{bits_of, mismatch};
use crate::terms::copy_term;
use crate::value::{MOST_NODES, Value};
use qc_facts::{Facts, Target, WidthFault, access_width};
use qc_grammar::Number;
use qc_names::earlier;
use qc_terms::{Dest, Effect, Term};
use qc_words::{Op, Width};
use sqlite_items::{Boxed, Items};
use std::alloc::{AllocError, Global};

/// What effects come to. Of effects with more nodes than the limit nothing else is kept.
#[derive(Debug, Drop)]
pub(crate) enum Acts {
    Huge,
    Known {
        effects: Items<Effect>,
        nodes: u32,
        clash: Option<WidthFault>,
    },
}

impl Acts {
    ghost use Rattle.std.specs.Prelude.{◌≡◌, ◌↔◌, IsTrue};
    ghost use Rattle.qc_widths.specs.declared.acts.Acts.TheVariants.{Huge};

    /// Whether the effects passed the limit.
    pub(crate) fn is_huge(&self) -> bool
        ensures { IsTrue result ↔ (self.now ≡ Huge) }
    {
        match self {
            Acts::Huge => true,
            Acts::Known { .. } => false,
        }
    }
}

/// No effects.
#[tactic(auto, unfolding(crate::specs::Inner::KeptEffects::seen_acts))]
pub(crate) fn no_acts(alloc: Global) -> Acts
    ensures { IsActs result [] }
{
    Acts::Known {
        effects: Items::new(alloc),
        nodes: 0,
        clash: None,
    }
}

/// One effect without a guard, that gives no place in memory a value of this width.
pub(crate) fn one_act(
    alloc: Global,
    to: Dest,
    value: Value,
    wanted: Option<Width>,
) -> Result<Acts, AllocError>
    requires { nodes_of_dest to ≡ 0 }
    ensures { (spec : values.Value) → IsValue value spec → IfOk result (λ a. IsActs a (act_of to [] spec wanted ∷ [])) }
{
    match value {
        Value::Huge => Ok(Acts::Huge),
        Value::Known {
            token,
            term,
            nodes,
            width,
            sound: _,
            clash,
        } => {
            let mut effects = Items::new(alloc);
            let effect = Effect {
                guard: None,
                to,
                value: term,
            };
            effects.push(effect)?;
            let clash = earlier(clash, mismatch(token, width, wanted));
            Ok(Acts::Known {
                effects,
                nodes,
                clash,
            })
        }
    }
}

/// One effect without a guard on a register, if there is one.
pub(crate) fn act_on_register(
    alloc: Global,
    target: Option<Target>,
    value: Value,
) -> Result<Acts, AllocError>
    ensures { (spec : values.Value) → IsValue value spec → IfOk result (λ a. IsActs a (act_on target spec ∷ [])) }
{
    match target {
        None => one_act(alloc, Dest::Pc, value, None),
        Some(target) => {
            let to = Dest::Reg {
                place: target.place,
            };
            one_act(alloc, to, value, target.width)
        }
    }
}

/// One effect without a guard on memory.
pub(crate) fn act_on_word(
    alloc: Global,
    facts: &Facts,
    bits: &Number,
    address: Value,
    value: Value,
) -> Result<Acts, AllocError>
    ensures { (one two : values.Value) → IsValue address one → IsValue value two
        → IfOk result (λ a. IsActs a (act_on_memory facts.now.word bits.now one two ∷ [])) }
{
    match address {
        Value::Huge => Ok(Acts::Huge),
        Value::Known {
            token: start,
            term: place,
            nodes,
            width,
            sound: _,
            clash,
        } => match value {
            Value::Huge => Ok(Acts::Huge),
            Value::Known {
                token,
                term,
                nodes: more,
                width: found,
                sound: _,
                clash: later,
            } => {
                let nodes = nodes.saturating_add(more);
                if nodes > MOST_NODES {
                    return Ok(Acts::Huge);
                }
                let first = earlier(clash, mismatch(start, width, facts.word()));
                let second = earlier(
                    later,
                    mismatch(token, found, access_width(facts.word(), bits)),
                );
                let access = access_width(facts.word(), bits);
                let to = Dest::Mem {
                    width: bits_of(&access),
                    address: place,
                };
                let mut effects = Items::new(alloc);
                let effect = Effect {
                    guard: None,
                    to,
                    value: term,
                };
                effects.push(effect)?;
                Ok(Acts::Known {
                    effects,
                    nodes,
                    clash: earlier(first, second),
                })
            }
        },
    }
}

/// Effects, and more of them behind.
pub(crate) fn joined(first: Acts, second: Acts) -> Result<Acts, AllocError>
    ensures { (one two : List Act) → IsActs first one → IsActs second two → IfOk result (λ a. IsActs a (one ++ two)) }
{
    match first {
        Acts::Huge => Ok(Acts::Huge),
        Acts::Known {
            mut effects,
            nodes,
            clash,
        } => match second {
            Acts::Huge => Ok(Acts::Huge),
            Acts::Known {
                effects: more,
                nodes: rest,
                clash: later,
            } => {
                let nodes = nodes.saturating_add(rest);
                if nodes > MOST_NODES {
                    return Ok(Acts::Huge);
                }
                effects.append(more)?;
                let clash = earlier(clash, later);
                Ok(Acts::Known {
                    effects,
                    nodes,
                    clash,
                })
            }
        },
    }
}

/// A copy of a destination.
fn copy_dest(alloc: Global, to: &Dest) -> Result<Dest, AllocError>
    ensures { IfOk result (λ copy. copy ≡ to.now) }
{
    match to {
        Dest::Reg { place } => Ok(Dest::Reg { place: *place }),
        Dest::Mem { width, address } => {
            let address = copy_term(alloc, address)?;
            Ok(Dest::Mem {
                width: *width,
                address,
            })
        }
        Dest::Pc => Ok(Dest::Pc),
        Dest::Out => Ok(Dest::Out),
        Dest::Halt => Ok(Dest::Halt),
        Dest::Trap => Ok(Dest::Trap),
    }
}

/// The guard of a use, and that of an effect of it.
fn joined_guard(alloc: Global, guard: &Term, inner: &Option<Term>) -> Result<Term, AllocError>
    ensures { IfOk result (λ t. t ≡ joined_of guard.now inner.now) }
{
    let outer = copy_term(alloc, guard)?;
    match inner {
        None => Ok(outer),
        Some(inner) => {
            let right = Boxed::new(alloc, copy_term(alloc, inner)?)?;
            let left = Boxed::new(alloc, outer)?;
            Ok(Term::Bin {
                op: Op::And,
                left,
                right,
            })
        }
    }
}

/// A copy of an effect, with one more guard.
fn guarded_copy(alloc: Global, guard: &Term, effect: &Effect) -> Result<Effect, AllocError>
    ensures { IfOk result (λ e. e ≡ under guard.now effect.now) }
{
    let guard = joined_guard(alloc, guard, &effect.guard)?;
    let to = copy_dest(alloc, &effect.to)?;
    let value = copy_term(alloc, &effect.value)?;
    Ok(Effect {
        guard: Some(guard),
        to,
        value,
    })
}

/// Copies of effects, with one more guard each.
fn guarded_copies(
    alloc: Global,
    guard: &Term,
    effects: &[Effect],
) -> Result<Items<Effect>, AllocError>
    ensures { IfOk result (λ es. es ≡ map (under guard.now) effects.now) }
{
    let mut copies = Items::new(alloc);
    for effect in effects {
        let copy = guarded_copy(alloc, guard, effect)?;
        copies.push(copy)?;
    }
    Ok(copies)
}

/// The nodes that a guard of so many adds to an effect.
fn more_nodes(guard: u32, inner: &Option<Term>) -> u32
    ensures { result ≡ min (more_under guard inner.now) 4294967295 }
{
    match inner {
        None => guard,
        Some(_) => guard.saturating_add(1),
    }
}

/// The nodes of effects that have so many, with a guard of so many nodes more each.
fn guarded_nodes(nodes: u32, guard: u32, effects: &[Effect]) -> u32
    ensures { result ≡ min (nodes_under nodes guard effects.now) 4294967295 }
{
    let mut total = nodes;
    for effect in effects {
        total = total.saturating_add(more_nodes(guard, &effect.guard));
    }
    total
}

/// Effects under a guard.
pub(crate) fn guarded_acts(alloc: Global, guard: &Value, acts: Acts) -> Result<Acts, AllocError>
    ensures { (spec : values.Value) (one : List Act) → IsValue guard.now spec → IsActs acts one
        → IfOk result (λ a. IsActs a (map (guarded spec) one)) }
{
    match acts {
        Acts::Huge => Ok(Acts::Huge),
        Acts::Known {
            effects,
            nodes,
            clash,
        } => {
            if effects.is_empty() {
                return Ok(no_acts(alloc));
            }
            match guard {
                Value::Huge => Ok(Acts::Huge),
                Value::Known {
                    token,
                    term,
                    nodes: more,
                    width,
                    sound: _,
                    clash: first,
                } => {
                    let nodes = guarded_nodes(nodes, *more, effects.as_slice());
                    if nodes > MOST_NODES {
                        return Ok(Acts::Huge);
                    }
                    let own = earlier(*first, mismatch(*token, *width, Some(Width::ONE)));
                    let effects = guarded_copies(alloc, term, effects.as_slice())?;
                    Ok(Acts::Known {
                        effects,
                        nodes,
                        clash: earlier(own, clash),
                    })
                }
            }
        }
    }
}

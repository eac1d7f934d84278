//! Flat effects from register transfer lists.
ghost use Rattle.std.specs.Prelude.{◌≡◌, ◌<◌, ◌^◌, ℕ, All, IfSome, IsTrue};
ghost use Rattle.std.specs.Option.{is_some};
ghost use Rattle.qc_flat.specs.Flat.{AreFlatOf, IsFlatListOf, IsFlatOf, has_flat_dest, has_flat_effect, has_flat_form, has_flat_guard, have_flat_effects};
ghost use Rattle.qc_terms.specs.State.{context_of};
ghost use Rattle.qc_terms.specs.Tree.{tree_of, width_of};
ghost use Rattle.qc_terms.specs.Typing.{DestFits, EffectFits, IsTyped, IsTypedEffect, IsTypedRtl, OperandsFit, RtlFits, TakesWidth};
ghost use Rattle.qc_flat.specs.Inner.Parts.{IsDestOf, IsGuardOf};

use crate::chain::Chain;
use crate::effect::{FlatDest, FlatEffect, FlatEffects};
use crate::terms::{cell_index, chain_of};
use arrayvec::ArrayVec;
use qc_terms::{Dest, Effect, Rtl, State, Term};

/// The chain of a guard, or none for an effect without one.
fn flat_guard(
    guard: &Option<Term>,
    operands: &[u64],
    after: u64,
    state: &State,
) -> Option<Option<Chain>>
    requires typed { IfSome guard.now (λ g. IsTyped (context_of state.now) (tree_of g)) }
    requires fits { IfSome guard.now (λ g. OperandsFit (context_of state.now) operands.now (tree_of g)) }
    requires after { after < 2 ^ state.now.facts.word }
    ensures guard { IfSome result (IsGuardOf (context_of state.now) state.now.facts.zero operands.now after guard.now) }
    ensures exactly { is_some result ≡ has_flat_guard guard.now }
{
    match guard {
        Some(guard) => Some(Some(chain_of(guard, operands, after, state)?)),
        None => Some(None),
    }
}

/// The destination with its operands filled in, where it is none that shows something.
fn flat_dest(to: &Dest, operands: &[u64], after: u64, state: &State) -> Option<FlatDest>
    requires typed { (width : ℕ) × TakesWidth (context_of state.now) to.now width }
    requires fits { DestFits (context_of state.now) operands.now to.now }
    requires after { after < 2 ^ state.now.facts.word }
    ensures dest { IfSome result (IsDestOf (context_of state.now) state.now.facts.zero operands.now after to.now) }
    ensures exactly { is_some result ≡ has_flat_dest to.now }
{
    match to {
        Dest::Reg { place } => Some(FlatDest::Cell {
            space: place.space(),
            index: cell_index(*place, operands),
        }),
        Dest::Mem { width, address } => Some(FlatDest::Memory {
            count: width.bits() / 8,
            address: chain_of(address, operands, after, state)?,
        }),
        Dest::Pc => Some(FlatDest::Counter),
        Dest::Out | Dest::Halt | Dest::Trap => None,
    }
}

#[tactic(auto, unfolding(crate::specs::Flat::has_flat_effect))]
/// The effect with its operands filled in, where its terms are chains and it shows nothing.
fn flat_effect(effect: &Effect, operands: &[u64], after: u64, state: &State) -> Option<FlatEffect>
    requires typed { IsTypedEffect (context_of state.now) effect.now }
    requires fits { EffectFits (context_of state.now) operands.now effect.now }
    requires after { after < 2 ^ state.now.facts.word }
    ensures effect { IfSome result (IsFlatOf (context_of state.now) state.now.facts.zero operands.now after effect.now) }
    ensures exactly { is_some result ≡ has_flat_effect effect.now }
{
    let guard = flat_guard(&effect.guard, operands, after, state)?;
    let to = flat_dest(&effect.to, operands, after, state)?;
    let value = chain_of(&effect.value, operands, after, state)?;
    Some(FlatEffect { guard, to, value })
}

/// The effects with their operands filled in, where there is room for all of them and each is flat.
fn flat_effects(
    effects: &[Effect],
    operands: &[u64],
    after: u64,
    state: &State,
) -> Option<FlatEffects>
    requires typed { All (IsTypedEffect (context_of state.now)) effects.now }
    requires fits { All (EffectFits (context_of state.now) operands.now) effects.now }
    requires after { after < 2 ^ state.now.facts.word }
    ensures effects { IfSome result (λ flat. AreFlatOf (context_of state.now) state.now.facts.zero operands.now after effects.now flat.items) }
    ensures exactly { is_some result ≡ have_flat_effects effects.now }
{
    match effects {
        [] => Some(ArrayVec::new()),
        [front @ .., last] => {
            let mut flat = flat_effects(front, operands, after, state)?;
            if flat.is_full() {
                return None;
            }
            flat.push(flat_effect(last, operands, after, state)?);
            Some(flat)
        }
    }
}

/// A register transfer list with the operands of an instance and the address after it filled in. There is one exactly where
/// the list reads no input, shows nothing, has at most three effects, and each of its terms is a chain.
pub fn flatten(rtl: &Rtl, operands: &[u64], after: u64, state: &State) -> Option<FlatEffects>
    requires typed { IsTypedRtl (context_of state.now) rtl.now }
    requires operands { RtlFits (context_of state.now) operands.now rtl.now }
    requires after { after < 2 ^ state.now.facts.word }
    ensures flat { IfSome result (λ flat. IsFlatListOf (context_of state.now) state.now.facts.zero rtl.now operands.now after flat.items) }
    ensures exactly { is_some result ≡ has_flat_form rtl.now }
{
    if rtl.has_input() {
        return None;
    }
    flat_effects(rtl.effects.as_slice(), operands, after, state)
}

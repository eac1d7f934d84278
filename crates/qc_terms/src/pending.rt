ghost use Rattle.std.specs.Prelude.{ℕ, ◌≡◌, ◌<◌, ◌≤◌, ◌^◌, [], ◌∷◌, All, IfSome, IsTrue, length};
ghost use Rattle.std.specs.List.{list_any};
ghost use Rattle.std.specs.Option.{option_map};
ghost use Rattle.qc_terms.specs.Effects.{after_writes, dest_has_input, effect_has_input, event_of, guard_has_input, guard_of, store_at, write_of, writes_of, writes_of_effect};
ghost use Rattle.qc_terms.specs.Inner.Pending.{IsPendingWrite, writes_of_all, writes_of_pending};
ghost use Rattle.qc_terms.specs.State.{Context, IsState, context_of};
ghost use Rattle.qc_terms.specs.Tree.{has_input, tree_of, width_of};
ghost use Rattle.qc_terms.specs.Typing.{DestFits, EffectFits, IsTyped, IsTypedEffect, OperandsFit, TakesWidth};

use crate::evaluate::{cell_index, value};
use crate::memory::store;
use crate::state::{Event, State};
use crate::term::{Dest, Effect, Term};
use arrayvec::ArrayVec;

/// What an effect comes to once all that it needs is read. `Skipped` is one whose guard is false.
#[derive(Clone, Copy, Default)]
pub(crate) enum PendingWrite {
    #[default]
    Skipped,
    ToCell { space: u32, index: u64, word: u64 },
    ToMemory { address: u64, count: u8, word: u64 },
    ToCounter { word: u64 },
    ToOutput { word: u64 },
    ToHalt { code: u64 },
    ToTrap { code: u64 },
}

/// The guard's value, or 1 for an effect without a guard.
fn guard_word(guard: &Option<Term>, operands: &[u64], after: u64, state: &State) -> Option<u64>
    requires state { IsState state.now }
    requires typed { IfSome guard.now (λ g. IsTyped (context_of state.now) (tree_of g)) }
    requires fits { IfSome guard.now (λ g. OperandsFit (context_of state.now) operands.now (tree_of g)) }
    requires after { after < 2 ^ state.now.facts.word }
    requires input { IsTrue (guard_has_input guard.now) → state.now.taken < length state.now.input }
    ensures { result ≡ guard_of guard.now operands.now after state.now }
{
    match guard {
        Some(guard) => value(guard, operands, after, state),
        None => Some(1),
    }
}

/// The store of so many bytes at an address, or none unless all of them are inside the memory.
fn pending_store(memory: &[u8], count: u8, word: u64, address: u64) -> Option<PendingWrite>
    requires { count ≤ 8 }
    ensures value { option_map writes_of_pending result ≡ option_map (λ w. w ∷ []) (store_at memory.now count word address) }
    ensures fits { IfSome result (λ p. (context : Context) → IsPendingWrite context (length memory.now) p) }
{
    let end = (address as usize).checked_add(usize::from(count))?;
    if end > memory.len() {
        return None;
    }
    Some(PendingWrite::ToMemory {
        address,
        count,
        word,
    })
}

#[tactic(auto, unfolding(crate::specs::Effects::effect_has_input))]
/// The write of this word by an effect, or none where a store has no address or isn't wholly inside the memory.
fn pending_write(
    effect: &Effect,
    operands: &[u64],
    after: u64,
    state: &State,
    word: u64,
) -> Option<PendingWrite>
    requires state { IsState state.now }
    requires typed { IsTypedEffect (context_of state.now) effect.now }
    requires fits { EffectFits (context_of state.now) operands.now effect.now }
    requires after { after < 2 ^ state.now.facts.word }
    requires input { IsTrue (effect_has_input effect.now) → state.now.taken < length state.now.input }
    requires word { word < 2 ^ width_of (tree_of effect.now.value) }
    ensures value { option_map writes_of_pending result
        ≡ option_map (λ w. w ∷ []) (write_of effect.now.to operands.now after state.now word) }
    ensures fits { IfSome result (IsPendingWrite (context_of state.now) (length state.now.memory)) }
{
    match &effect.to {
        Dest::Reg { place } => Some(PendingWrite::ToCell {
            space: place.space(),
            index: cell_index(*place, operands),
            word,
        }),
        Dest::Mem { width, address } => {
            let start = value(address, operands, after, state)?;
            pending_store(state.memory.as_slice(), width.bits() / 8, word, start)
        }
        Dest::Pc => Some(PendingWrite::ToCounter { word }),
        Dest::Out => Some(PendingWrite::ToOutput { word }),
        Dest::Halt => Some(PendingWrite::ToHalt { code: word }),
        Dest::Trap => Some(PendingWrite::ToTrap { code: word }),
    }
}

#[tactic(auto, unfolding(crate::specs::Effects::effect_has_input, crate::specs::Effects::writes_of_effect))]
/// Reads what one effect needs. There is none where that has no value.
pub(crate) fn pending_effect(
    effect: &Effect,
    operands: &[u64],
    after: u64,
    state: &State,
) -> Option<PendingWrite>
    requires state { IsState state.now }
    requires typed { IsTypedEffect (context_of state.now) effect.now }
    requires fits { EffectFits (context_of state.now) operands.now effect.now }
    requires after { after < 2 ^ state.now.facts.word }
    requires input { IsTrue (effect_has_input effect.now) → state.now.taken < length state.now.input }
    ensures value { option_map writes_of_pending result ≡ writes_of_effect effect.now operands.now after state.now }
    ensures fits { IfSome result (IsPendingWrite (context_of state.now) (length state.now.memory)) }
{
    if guard_word(&effect.guard, operands, after, state)? == 0 {
        return Some(PendingWrite::Skipped);
    }
    let word = value(&effect.value, operands, after, state)?;
    pending_write(effect, operands, after, state, word)
}

/// Reads what the effects need. There is none where one of them needs what has no value.
pub(crate) fn pending_writes(
    effects: &[Effect],
    operands: &[u64],
    after: u64,
    state: &State,
) -> Option<ArrayVec<PendingWrite, 16>>
    requires few { length effects.now ≤ 16 }
    requires state { IsState state.now }
    requires typed { All (IsTypedEffect (context_of state.now)) effects.now }
    requires fits { All (EffectFits (context_of state.now) operands.now) effects.now }
    requires after { after < 2 ^ state.now.facts.word }
    requires input { IsTrue (list_any effect_has_input effects.now) → state.now.taken < length state.now.input }
    ensures value { option_map (λ p. writes_of_all p.items) result ≡ writes_of effects.now operands.now after state.now }
    ensures fits { IfSome result (λ p. All (IsPendingWrite (context_of state.now) (length state.now.memory)) p.items) }
{
    let mut writes = ArrayVec::new();
    for effect in effects {
        writes.push(pending_effect(effect, operands, after, state)?);
    }
    Some(writes)
}

/// Performs one write.
fn perform(write: PendingWrite, state: &mut State)
    requires fits { IsPendingWrite (context_of state.old) (length state.old.memory) write }
    requires state { IsState state.old }
    ensures state { state.new ≡ after_writes (writes_of_pending write) state.old }
    ensures kept { IsState state.new }
    ensures context { context_of state.new ≡ context_of state.old }
    ensures size { length state.new.memory ≡ length state.old.memory }
{
    match write {
        PendingWrite::Skipped | PendingWrite::ToOutput { .. } | PendingWrite::ToTrap { .. } => {}
        PendingWrite::ToCell { space, index, word } => {
            if !state.facts.is_zero_cell(space, index) {
                state.cells.write(space, index, word);
            }
        }
        PendingWrite::ToMemory {
            address,
            count,
            word,
        } => store(state.facts.order, &mut state.memory, count, address, word),
        PendingWrite::ToCounter { word } => state.pc = word,
        PendingWrite::ToHalt { code } => state.ending = Some(Event::Ended { code }),
    }
}

/// Performs the writes in order.
pub(crate) fn perform_all(writes: &[PendingWrite], state: &mut State)
    requires fits { All (IsPendingWrite (context_of state.old) (length state.old.memory)) writes.now }
    requires state { IsState state.old }
    ensures state { state.new ≡ after_writes (writes_of_all writes.now) state.old }
    ensures kept { IsState state.new }
    ensures context { context_of state.new ≡ context_of state.old }
    ensures size { length state.new.memory ≡ length state.old.memory }
{
    for write in writes {
        perform(*write, state);
    }
}

/// What the writes show.
pub(crate) fn event(writes: &[PendingWrite]) -> Event
    ensures { result ≡ event_of (writes_of_all writes.now) }
{
    for write in writes {
        match *write {
            PendingWrite::ToOutput { word } => return Event::Out { word },
            PendingWrite::ToHalt { code } => return Event::Ended { code },
            PendingWrite::ToTrap { code } => return Event::Trapped { code },
            PendingWrite::Skipped
            | PendingWrite::ToCell { .. }
            | PendingWrite::ToMemory { .. }
            | PendingWrite::ToCounter { .. } => {}
        }
    }
    Event::Quiet
}

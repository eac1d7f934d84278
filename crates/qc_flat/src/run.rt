//! What flat effects do to a state.
ghost use Rattle.std.specs.Prelude.{ℕ, ◌≡◌, ◌<◌, ◌≤◌, ◌^◌, [], ◌∷◌, All, IfSome, length};
ghost use Rattle.std.specs.Option.{option_map};
ghost use Rattle.qc_flat.specs.Chain.{IsTypedChain};
ghost use Rattle.qc_flat.specs.Flat.{IsTypedFlatDest, IsTypedFlatEffect, flat_guard_of, flat_write_of, outcome_of_flat, writes_of_flat, writes_of_flat_effect};
ghost use Rattle.qc_flat.specs.Inner.Pending.{IsPendingWrite, writes_of_all, writes_of_pending};
ghost use Rattle.qc_terms.specs.Effects.{after_writes, outcome_of_trap, store_at};
ghost use Rattle.qc_terms.specs.State.{Context, IsState, context_of};

use crate::chain::Chain;
use crate::effect::{FlatDest, FlatEffect};
use crate::words::store;
use arrayvec::ArrayVec;
use qc_terms::{Event, State};

/// What an effect comes to once all that it needs is read. `Skipped` is one whose guard is false.
#[derive(Clone, Copy, Default)]
pub(crate) enum PendingWrite {
    #[default]
    Skipped,
    ToCell { space: u32, index: u64, word: u64 },
    ToMemory { address: u64, count: u8, word: u64 },
    ToCounter { word: u64 },
}

/// The guard's value, or 1 for an effect without a guard.
fn guard_word(guard: &Option<Chain>, state: &State) -> Option<u64>
    requires state { IsState state.now }
    requires typed { IfSome guard.now (IsTypedChain (context_of state.now)) }
    ensures { result ≡ flat_guard_of guard.now state.now }
{
    match guard {
        Some(guard) => guard.value(state),
        None => Some(1),
    }
}

/// The store of so many bytes at an address, or none unless all of them are inside the memory.
fn pending_store(memory: &[u8], count: u8, word: u64, address: u64) -> Option<PendingWrite>
    ensures value { option_map writes_of_pending result ≡ option_map (λ w. w ∷ []) (store_at memory.now count word address) }
    ensures fits { IfSome result (λ p. (context : Context) → IsPendingWrite context (length memory.now) p) }
{
    let end = (address as usize).checked_add(usize::from(count))?;
    if end > memory.len() {
        return None;
    }
    Some(PendingWrite::ToMemory {
        address,
        count,
        word,
    })
}

/// The write of this word by an effect, or none where a store has no address or isn't wholly inside the memory.
fn pending_write(effect: &FlatEffect, state: &State, word: u64) -> Option<PendingWrite>
    requires state { IsState state.now }
    requires typed { IsTypedFlatEffect (context_of state.now) effect.now }
    requires word { word < 2 ^ effect.now.value.width }
    ensures value { option_map writes_of_pending result
        ≡ option_map (λ w. w ∷ []) (flat_write_of effect.now.to state.now word) }
    ensures fits { IfSome result (IsPendingWrite (context_of state.now) (length state.now.memory)) }
{
    match &effect.to {
        FlatDest::Cell { space, index } => Some(PendingWrite::ToCell {
            space: *space,
            index: *index,
            word,
        }),
        FlatDest::Memory { count, address } => {
            pending_store(state.memory.as_slice(), *count, word, address.value(state)?)
        }
        FlatDest::Counter => Some(PendingWrite::ToCounter { word }),
    }
}

#[tactic(auto, unfolding(crate::specs::Flat::writes_of_flat_effect))]
/// Reads what one effect needs. There is none where that has no value.
fn pending_effect(effect: &FlatEffect, state: &State) -> Option<PendingWrite>
    requires state { IsState state.now }
    requires typed { IsTypedFlatEffect (context_of state.now) effect.now }
    ensures value { option_map writes_of_pending result ≡ writes_of_flat_effect effect.now state.now }
    ensures fits { IfSome result (IsPendingWrite (context_of state.now) (length state.now.memory)) }
{
    if guard_word(&effect.guard, state)? == 0 {
        return Some(PendingWrite::Skipped);
    }
    let word = effect.value.value(state)?;
    pending_write(effect, state, word)
}

/// Reads what the effects need. There is none where one of them needs what has no value.
fn pending_writes(effects: &[FlatEffect], state: &State) -> Option<ArrayVec<PendingWrite, 3>>
    requires few { length effects.now ≤ 3 }
    requires state { IsState state.now }
    requires typed { All (IsTypedFlatEffect (context_of state.now)) effects.now }
    ensures value { option_map (λ p. writes_of_all p.items) result ≡ writes_of_flat effects.now state.now }
    ensures fits { IfSome result (λ p. All (IsPendingWrite (context_of state.now) (length state.now.memory)) p.items) }
{
    let mut writes = ArrayVec::new();
    for effect in effects {
        writes.push(pending_effect(effect, state)?);
    }
    Some(writes)
}

/// Performs one write.
fn perform(write: PendingWrite, state: &mut State)
    requires fits { IsPendingWrite (context_of state.old) (length state.old.memory) write }
    requires state { IsState state.old }
    ensures state { state.new ≡ after_writes (writes_of_pending write) state.old }
    ensures kept { IsState state.new }
    ensures context { context_of state.new ≡ context_of state.old }
    ensures size { length state.new.memory ≡ length state.old.memory }
{
    match write {
        PendingWrite::Skipped => {}
        PendingWrite::ToCell { space, index, word } => {
            if !state.facts.is_zero_cell(space, index) {
                state.cells.write(space, index, word);
            }
        }
        PendingWrite::ToMemory {
            address,
            count,
            word,
        } => store(state.facts.order, &mut state.memory, count, address, word),
        PendingWrite::ToCounter { word } => state.pc = word,
    }
}

/// Performs the writes in order.
fn perform_all(writes: &[PendingWrite], state: &mut State)
    requires fits { All (IsPendingWrite (context_of state.old) (length state.old.memory)) writes.now }
    requires state { IsState state.old }
    ensures state { state.new ≡ after_writes (writes_of_all writes.now) state.old }
    ensures kept { IsState state.new }
    ensures context { context_of state.new ≡ context_of state.old }
    ensures size { length state.new.memory ≡ length state.old.memory }
{
    for write in writes {
        perform(*write, state);
    }
}

/// Ends the run where a memory access isn't wholly inside the memory.
fn end_outside(state: &mut State) -> Event
    ensures state { state.new ≡ (outcome_of_trap 1 state.old).state }
    ensures event { result ≡ (outcome_of_trap 1 state.old).event }
{
    let trap = Event::Trapped { code: 1 };
    state.ending = Some(trap);
    trap
}

/// What `run_flat` does, sooner for one effect.
#[inline(always)]
fn run_one(effect: &FlatEffect, after: u64, state: &mut State) -> Event
    requires running { state.old.ending ≡ None }
    requires state { IsState state.old }
    requires typed { IsTypedFlatEffect (context_of state.old) effect.now }
    requires after { after < 2 ^ state.old.facts.word }
    ensures state { state.new ≡ (outcome_of_flat (effect.now ∷ []) after state.old).state }
    ensures event { result ≡ (outcome_of_flat (effect.now ∷ []) after state.old).event }
    ensures kept { IsState state.new }
    ensures context { context_of state.new ≡ context_of state.old }
{
    match pending_effect(effect, state) {
        Some(write) => {
            state.pc = after;
            perform(write, state);
            Event::Quiet
        }
        None => end_outside(state),
    }
}

/// Performs flat effects on a running state, and says what that shows: nothing, or a trap with code 1 where a memory access
/// isn't wholly inside the memory.
pub fn run_flat(effects: &[FlatEffect], after: u64, state: &mut State) -> Event
    requires running { state.old.ending ≡ None }
    requires state { IsState state.old }
    requires typed { All (IsTypedFlatEffect (context_of state.old)) effects.now }
    requires few { length effects.now ≤ 3 }
    requires after { after < 2 ^ state.old.facts.word }
    ensures state { state.new ≡ (outcome_of_flat effects.now after state.old).state }
    ensures event { result ≡ (outcome_of_flat effects.now after state.old).event }
    ensures kept { IsState state.new }
    ensures context { context_of state.new ≡ context_of state.old }
{
    if let [effect] = effects {
        return run_one(effect, after, state);
    }
    let Some(writes) = pending_writes(effects, state) else {
        return end_outside(state);
    };
    state.pc = after;
    perform_all(writes.as_slice(), state);
    Event::Quiet
}

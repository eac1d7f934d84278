ghost use Rattle.std.specs.Prelude.{◌≡◌, ◌<◌, ◌≤◌, ◌^◌, None, length};
ghost use Rattle.qc_terms.specs.Effects.{outcome_of, outcome_of_trap};
ghost use Rattle.qc_terms.specs.State.{IsState, context_of};
ghost use Rattle.qc_terms.specs.Typing.{IsTypedRtl, RtlFits};

use crate::pending::{event, pending_writes, perform_all};
use crate::state::{Event, State};
use crate::term::Rtl;

/// A register transfer list that reads the input where no word of it is left.
const INPUT_IS_OVER: u64 = 5;

/// A memory access that isn't wholly inside the memory.
const OUTSIDE_MEMORY: u64 = 1;

/// Ends the run with the code of a trap.
fn trap(code: u64, state: &mut State) -> Event
    ensures state { state.new ≡ (outcome_of_trap code state.old).state }
    ensures event { result ≡ (outcome_of_trap code state.old).event }
{
    let event = Event::Trapped { code };
    state.ending = Some(event);
    event
}

/// Performs the effects of a register transfer list on a running state, and says what that shows.
///
/// The program counter comes to the address after the instruction unless an effect sets it, and one word of the input is
/// taken if the list reads it. The code of a trap is 5 where the list reads the input at its end, else 1 where a memory
/// access isn't wholly inside the memory, else that of an effect on `Trap`; a trap changes nothing but the ending.
pub fn apply_rtl(rtl: &Rtl, operands: &[u64], after: u64, state: &mut State) -> Event
    requires running { state.old.ending ≡ None }
    requires state { IsState state.old }
    requires typed { IsTypedRtl (context_of state.old) rtl.now }
    requires few { length rtl.now.effects ≤ 16 }
    requires operands { RtlFits (context_of state.old) operands.now rtl.now }
    requires after { after < 2 ^ state.old.facts.word }
    ensures state { state.new ≡ (outcome_of rtl.now operands.now after state.old).state }
    ensures event { result ≡ (outcome_of rtl.now operands.now after state.old).event }
    ensures kept { IsState state.new }
    ensures context { context_of state.new ≡ context_of state.old }
{
    let takes_input = rtl.has_input();
    if takes_input && state.taken >= state.input.len() {
        return trap(INPUT_IS_OVER, state);
    }
    let Some(writes) = pending_writes(rtl.effects.as_slice(), operands, after, state) else {
        return trap(OUTSIDE_MEMORY, state);
    };
    let event = event(writes.as_slice());
    if let Event::Trapped { code } = event {
        return trap(code, state);
    }
    state.pc = after;
    if takes_input {
        state.taken += 1;
    }
    perform_all(writes.as_slice(), state);
    event
}

ghost use Rattle.std.specs.Prelude.{◌≡◌, ◌<◌, ◌^◌, Option, IfSome, IsTrue, length};
ghost use Rattle.std.specs.Option.{option_map};
ghost use Rattle.qc_terms.specs.Cells.{HasCell};
ghost use Rattle.qc_terms.specs.State.{IsState, context_of};
ghost use Rattle.qc_terms.specs.Tree.{has_input, tree_of, width_of};
ghost use Rattle.qc_terms.specs.Typing.{HasOperand, IsTyped, OperandsFit};
ghost use Rattle.qc_terms.specs.Value.{index_of, next_input_of, read_of, space_of, value_of};

use crate::memory::load;
use crate::state::State;
use crate::term::{Place, Term};
use qc_words::{Width, apply, result_width};

/// The number of the cell that a place is.
pub(crate) fn cell_index(place: Place, operands: &[u64]) -> u64
    requires { HasOperand operands.now place }
    ensures { result ≡ index_of place operands.now }
{
    match place {
        Place::Cell { space: _, index } => index,
        Place::Operand { space: _, number } => operands[number as usize],
    }
}

/// The word that a place reads as.
fn read(place: Place, operands: &[u64], state: &State) -> u64
    requires operand { HasOperand operands.now place }
    requires cell { HasCell state.now.cells (space_of place) (index_of place operands.now) }
    ensures { result ≡ read_of state.now (space_of place) (index_of place operands.now) }
{
    let space = place.space();
    let index = cell_index(place, operands);
    if state.facts.is_zero_cell(space, index) {
        0
    } else {
        state.cells.read(space, index)
    }
}

/// The next word of the input.
fn next_input(state: &State) -> u64
    requires { state.now.taken < length state.now.input }
    ensures { result ≡ next_input_of state.now }
{
    state.input.as_slice()[state.taken]
}

/// The value of a term and its width.
fn word_of(term: &Term, operands: &[u64], after: u64, state: &State) -> Option<(u64, Width)>
    requires state { IsState state.now }
    requires typed { IsTyped (context_of state.now) (tree_of term.now) }
    requires operands { OperandsFit (context_of state.now) operands.now (tree_of term.now) }
    requires after { after < 2 ^ state.now.facts.word }
    requires input { IsTrue (has_input (tree_of term.now)) → state.now.taken < length state.now.input }
    ensures value { option_map (λ p. p.0) result ≡ value_of (tree_of term.now) operands.now after state.now }
    ensures word { IfSome result (λ p. p.0 < 2 ^ width_of (tree_of term.now)) }
    ensures width { IfSome result (λ p. p.1 ≡ width_of (tree_of term.now)) }
{
    match term {
        Term::Num { value, width } => Some((*value, *width)),
        Term::Un { op, arg } => {
            let (word, width) = word_of(arg.get(), operands, after, state)?;
            Some((apply(*op, width, word, 0), result_width(*op, width)))
        }
        Term::Bin { op, left, right } => {
            let (first, width) = word_of(left.get(), operands, after, state)?;
            let (second, _) = word_of(right.get(), operands, after, state)?;
            Some((apply(*op, width, first, second), result_width(*op, width)))
        }
        Term::Reg { place, width } => Some((read(*place, operands, state), *width)),
        Term::Imm { operand, width } => Some((operands[*operand as usize], *width)),
        Term::Mem { width, address } => {
            let (start, _) = word_of(address.get(), operands, after, state)?;
            let word = load(
                state.facts.order,
                state.memory.as_slice(),
                width.bits() / 8,
                start,
            )?;
            Some((word, *width))
        }
        Term::Input { width } => Some((next_input(state), *width)),
        Term::After { width } => Some((after, *width)),
    }
}

/// The value of a term in a state, for an instruction's operands and the address after it, or none where a memory access
/// isn't wholly inside the memory. A term that reads the input asks that a word of it is left.
pub fn value(term: &Term, operands: &[u64], after: u64, state: &State) -> Option<u64>
    requires state { IsState state.now }
    requires typed { IsTyped (context_of state.now) (tree_of term.now) }
    requires operands { OperandsFit (context_of state.now) operands.now (tree_of term.now) }
    requires after { after < 2 ^ state.now.facts.word }
    requires input { IsTrue (has_input (tree_of term.now)) → state.now.taken < length state.now.input }
    ensures value { result ≡ value_of (tree_of term.now) operands.now after state.now }
    ensures word { IfSome result (λ v. v < 2 ^ width_of (tree_of term.now)) }
{
    word_of(term, operands, after, state).map(|(word, _)| word)
}

//! Chains from terms.
ghost use Rattle.std.specs.Prelude.{◌≡◌, ◌<◌, ◌^◌, [], ◌∷◌, ℕ, false, length, IfSome};
ghost use Rattle.std.specs.Option.{is_some};
ghost use Rattle.qc_words.specs.Operators.{Accepts, result_width_of};
ghost use Rattle.qc_flat.specs.Chain.{IsChainOf, IsTypedSource, is_number, link_count, one_link_more, word_of_source};
ghost use Rattle.qc_flat.specs.Inner.Links.{IsLinked, IsUnaryChain, is_number_alone, links_after_one, links_of};
ghost use Rattle.qc_terms.specs.declared.state.State.{State};
ghost use Rattle.qc_terms.specs.State.{context_of};
ghost use Rattle.qc_terms.specs.Tree.{tree_of};
ghost use Rattle.qc_terms.specs.Typing.{HasOperand, IsRegister, IsTyped, OperandsFit, PlaceFits};
ghost use Rattle.qc_terms.specs.Value.{index_of, read_of, space_of};

use crate::chain::{Chain, Link, Source};
use arrayvec::ArrayVec;
use qc_terms::{Place, State, Term};
use qc_words::{Op, Width, apply, result_width};

/// The number of the cell that a place is.
pub(crate) fn cell_index(place: Place, operands: &[u64]) -> u64
    requires { HasOperand operands.now place }
    ensures { result ≡ index_of place operands.now }
{
    match place {
        Place::Cell { space: _, index } => index,
        Place::Operand { space: _, number } => operands[number as usize],
    }
}

/// The word at hand that a place reads as.
fn source_of(place: Place, operands: &[u64], state: &State) -> Source
    requires { HasOperand operands.now place }
    ensures value { (s : State) → s.facts.zero ≡ state.now.facts.zero →
        word_of_source result s ≡ read_of s (space_of place) (index_of place operands.now) }
    ensures typed { (width : ℕ) → IsRegister (context_of state.now) place width → PlaceFits (context_of state.now) operands.now place →
        IsTypedSource (context_of state.now) width result }
    ensures cell { is_number_alone result [] ≡ false }
{
    let space = place.space();
    let index = cell_index(place, operands);
    if state.facts.is_zero_cell(space, index) {
        Source::Zero
    } else {
        Source::Cell { space, index }
    }
}

/// The chain of a word at hand.
fn unlinked(start: Source, width: Width) -> Chain
    ensures start { result.start ≡ start }
    ensures links { result.links.items ≡ [] }
    ensures width { result.width ≡ width }
{
    Chain {
        start,
        links: ArrayVec::new(),
        width,
    }
}

/// A chain and one link more, where it has room for it.
fn linked(start: Source, mut links: ArrayVec<Link, 4>, link: Link, width: Width) -> Option<Chain>
    ensures chain { IfSome result (IsLinked start links.items link width) }
    ensures links { links_of result ≡ one_link_more (length links.items) }
{
    if links.is_full() {
        return None;
    }
    links.push(link);
    Some(Chain {
        start,
        links,
        width,
    })
}

/// The number that a word at hand with these links is, where it is one.
fn number_of(start: Source, links: &[Link]) -> Option<u64>
    ensures number { IfSome result (λ value. (start ≡ Source.Number value) × (links.now ≡ [])) }
    ensures exactly { is_some result ≡ is_number_alone start links.now }
{
    match start {
        Source::Number { value } => { if links.is_empty() { Some(value) } else { None } }
        Source::Cell { .. } | Source::Zero => None,
    }
}

/// The chain of an operator at a chain and a second word.
fn applied(
    op: &Op,
    start: Source,
    links: ArrayVec<Link, 4>,
    width: Width,
    second: Source,
) -> Option<Chain>
    ensures chain { IfSome result (IsLinked start links.items (Link.Apply op.now width second) (result_width_of op.now width)) }
    ensures links { links_of result ≡ one_link_more (length links.items) }
{
    let made = result_width(*op, width);
    let link = Link::Apply {
        op: *op,
        width,
        second,
    };
    linked(start, links, link, made)
}

/// The chain of an operator of one operand. That of a number is a number.
fn applied_to_one(op: &Op, start: Source, links: ArrayVec<Link, 4>, width: Width) -> Option<Chain>
    requires accepted { Accepts op.now width }
    requires number { (value : ℕ) → start ≡ Source.Number value → links.items ≡ [] → value < 2 ^ width }
    ensures chain { IfSome result (IsUnaryChain op.now start links.items width) }
    ensures links { links_of result ≡ links_after_one start links.items }
    ensures number { IfSome result (λ c. is_number_alone c.start c.links.items ≡ is_number_alone start links.items) }
{
    if let Some(value) = number_of(start, links.as_slice()) {
        let made = result_width(*op, width);
        let value = apply(*op, width, value, 0);
        return Some(unlinked(Source::Number { value }, made));
    }
    applied(op, start, links, width, Source::Number { value: 0 })
}

/// The chain of a term of an instance, where the term is one: each second operand of an operator is a number or a cell,
/// and there are as few operators as a chain has room for. Operators on numbers alone are applied.
pub fn chain_of(term: &Term, operands: &[u64], after: u64, state: &State) -> Option<Chain>
    requires typed { IsTyped (context_of state.now) (tree_of term.now) }
    requires operands { OperandsFit (context_of state.now) operands.now (tree_of term.now) }
    requires after { after < 2 ^ state.now.facts.word }
    ensures chain { IfSome result (IsChainOf (context_of state.now) state.now.facts.zero operands.now after (tree_of term.now)) }
    ensures links { links_of result ≡ link_count (tree_of term.now) }
    ensures number { IfSome result (λ c. is_number_alone c.start c.links.items ≡ is_number (tree_of term.now)) }
{
    match term {
        Term::Num { value, width } => Some(unlinked(Source::Number { value: *value }, *width)),
        Term::Reg { place, width } => Some(unlinked(source_of(*place, operands, state), *width)),
        Term::Imm { operand, width } => {
            let value = operands[*operand as usize];
            Some(unlinked(Source::Number { value }, *width))
        }
        Term::After { width } => Some(unlinked(Source::Number { value: after }, *width)),
        Term::Input { .. } => None,
        Term::Un { op, arg } => {
            let Chain {
                start,
                links,
                width,
            } = chain_of(arg.get(), operands, after, state)?;
            applied_to_one(op, start, links, width)
        }
        Term::Bin { op, left, right } => {
            let second = chain_of(right.get(), operands, after, state)?;
            if !second.links.is_empty() {
                return None;
            }
            let Chain {
                start,
                links,
                width,
            } = chain_of(left.get(), operands, after, state)?;
            applied(op, start, links, width, second.start)
        }
        Term::Mem { width, address } => {
            let Chain {
                start,
                links,
                width: operand,
            } = chain_of(address.get(), operands, after, state)?;
            let link = Link::Load {
                width: operand,
                count: width.bits() / 8,
            };
            linked(start, links, link, *width)
        }
    }
}

//! Terms as chains: a word that is at hand, and then operators, each of which takes the word that was made last.
ghost use Rattle.std.specs.Prelude.{◌≡◌, ◌<◌, ◌^◌, ℕ, IfSome};
ghost use Rattle.qc_flat.specs.Chain.{AreTypedLinks, IsTypedChain, IsTypedLink, IsTypedSource, after_link, after_links, value_of_chain, width_before, width_made, width_taken, word_of_source};
ghost use Rattle.qc_flat.specs.Inner.Links.{IsThere};
ghost use Rattle.qc_terms.specs.State.{IsState, context_of};

use crate::words::load;
use arrayvec::ArrayVec;
use qc_terms::State;
use qc_words::{Op, Width, apply};

/// A word that is at hand: a number, the one in a cell, or that of the cell which always reads 0.
#[derive(Clone, Copy, Debug)]
pub enum Source {
    Number { value: u64 },
    Cell { space: u32, index: u64 },
    Zero,
}

/// What is done with the word that was made last, which has `width` bits: an operator is applied to it and to a second
/// word, or it is the address of a load of so many bytes.
#[derive(Clone, Copy, Debug)]
pub enum Link {
    Apply {
        op: Op,
        width: Width,
        second: Source,
    },
    Load {
        width: Width,
        count: u8,
    },
}

impl Default for Link {
    ghost is_default = { λ link. Unit {0} };

    fn default() -> Link {
        Link::Load {
            width: Width::ONE,
            count: 0,
        }
    }
}

/// A term of a list's instance. Its value has `width` bits.
#[derive(Debug, Drop)]
pub struct Chain {
    pub start: Source,
    pub links: ArrayVec<Link, 4>,
    pub width: Width,
}

/// The word at hand.
fn word_at_hand(source: Source, state: &State) -> u64
    requires state { IsState state.now }
    requires there { IsThere (context_of state.now) source }
    ensures value { result ≡ word_of_source source state.now }
    ensures word { (width : ℕ) → IsTypedSource (context_of state.now) width source → result < 2 ^ width }
{
    match source {
        Source::Number { value } => value,
        Source::Cell { space, index } => state.cells.read(space, index),
        Source::Zero => 0,
    }
}

/// The word that a link makes of another, or none where a load isn't wholly inside the memory.
#[inline(always)]
fn word_of_link(link: &Link, word: u64, state: &State) -> Option<u64>
    requires state { IsState state.now }
    requires typed { IsTypedLink (context_of state.now) link.now }
    requires word { word < 2 ^ width_taken link.now }
    ensures value { result ≡ after_link link.now word state.now }
    ensures word { IfSome result (λ v. v < 2 ^ width_made link.now) }
{
    match link {
        Link::Apply { op, width, second } => {
            Some(apply(*op, *width, word, word_at_hand(*second, state)))
        }
        Link::Load { width: _, count } => {
            load(state.facts.order, state.memory.as_slice(), *count, word)
        }
    }
}

/// The word after these links, or none where a load isn't wholly inside the memory.
fn word_after(links: &[Link], width: Width, word: u64, state: &State) -> Option<u64>
    requires state { IsState state.now }
    requires typed { AreTypedLinks (context_of state.now) width links.now }
    requires word { word < 2 ^ width_before width links.now }
    ensures value { result ≡ after_links links.now word state.now }
    ensures word { IfSome result (λ v. v < 2 ^ width) }
{
    let mut made = word;
    for link in links {
        made = word_of_link(link, made, state)?;
    }
    Some(made)
}

impl Chain {
    /// The value of the chain in a state, or none where a load isn't wholly inside the memory.
    pub fn value(&self, state: &State) -> Option<u64>
        requires state { IsState state.now }
        requires typed { IsTypedChain (context_of state.now) self.now }
        ensures value { result ≡ value_of_chain self.now state.now }
        ensures word { IfSome result (λ v. v < 2 ^ self.now.width) }
    {
        word_after(
            self.links.as_slice(),
            self.width,
            word_at_hand(self.start, state),
            state,
        )
    }
}

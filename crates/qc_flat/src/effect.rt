//! Effects whose terms are chains.

use crate::chain::{Chain, Source};
use arrayvec::ArrayVec;
use qc_words::Width;

impl Default for Chain {
    ghost is_default = { λ chain. Unit {0} };

    fn default() -> Chain {
        Chain {
            start: Source::Number { value: 0 },
            links: ArrayVec::new(),
            width: Width::ONE,
        }
    }
}

/// What an effect changes: a cell, so many bytes at an address, or the program counter.
#[derive(Debug, Default, Drop)]
pub enum FlatDest {
    Cell { space: u32, index: u64 },
    Memory { count: u8, address: Chain },
    #[default]
    Counter,
}

/// One assignment. It takes place where it has no guard, or one whose value isn't 0.
#[derive(Debug, Default, Drop)]
pub struct FlatEffect {
    pub guard: Option<Chain>,
    pub to: FlatDest,
    pub value: Chain,
}

/// Effects that all read the state before any of them is written.
pub type FlatEffects = ArrayVec<FlatEffect, 3>;

//! That what a valid derivation makes of a tile does what the tile does.
//!
//! A derivation's sequence leaves each goal's value where it is to be, by one induction over the forest of its nodes; its
//! children are that induction. The idea of derivations is that of Dias and Ramsey, "Automatically generating instruction
//! selectors using declarative machine descriptions", POPL 2010.
#![tactic(auto)]

mod laws;

pub use laws::valid_derivations_hold;

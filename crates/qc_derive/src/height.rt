//! Whether derivations are within a height.
ghost use Rattle.std.specs.Prelude.{◌≡◌, nat_le};
ghost use Rattle.qc_derivations.specs.Forest.{children_in, forest_of, height_of};

use qc_derivations::{Binding, Derivation};
use qc_nodes::child_of;
use sqlite_items::Boxed;

/// Whether the derivation is at most so high. One without children has height 1.
#[cycle(height)]
#[tactic(auto, using(crate::proofs::Walks::within_none, crate::proofs::Walks::within_tree, qc_sequences::specs::Law::Weights::tree_weight))]
pub(crate) fn is_within(derivation: &Derivation, height: u32) -> bool
    ensures { result ≡ nat_le (height_of (forest_of derivation.now)) height }
{
    if height == 0 {
        false
    } else {
        let bindings = derivation.bindings.as_slice();
        are_within(bindings, &derivation.flag, height - 1)
    }
}

/// Whether the children of bindings, and then that of a flag, are at most so high.
#[cycle(height)]
#[tactic(auto, using(crate::proofs::Walks::within_before, qc_sequences::specs::Law::Weights::before_weight))]
fn are_within(bindings: &[Binding], flag: &Option<Boxed<Derivation>>, height: u32) -> bool
    ensures { result ≡ nat_le (height_of (children_in bindings.now flag.now)) height }
{
    match bindings {
        [] => match flag {
            Some(flag) => is_within(flag.get(), height),
            None => true,
        },
        [binding, bindings @ ..] => match child_of(binding) {
            Some(child) => is_within(child, height) && are_within(bindings, flag, height),
            None => are_within(bindings, flag, height),
        },
    }
}

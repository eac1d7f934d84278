//! The least number of instructions of a valid derivation, and that it is a recursion on the height.
//!
//! What a node's children are to compute is all that the rest of a derivation sees of it. So the least number of
//! instructions for a need is one more than the least sum over what children of one of its nodes are to compute: the
//! principle of optimality, as in Bellman, "Dynamic Programming", 1957.
#![tactic(auto)]

mod laws;

pub use laws::{
    counts_bound_heights, derivations_have_counts, least_by_limits, least_counts_are_a_recursion,
    least_selections_are_sums, limits_cut_least_counts, the_recursion_tells_of_derivations,
};

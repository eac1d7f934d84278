//! That the sequence of a valid derivation meets the further conditions on templates, beside doing what its tile does.
//!
//! Each condition is one on all lines, and so goes by one induction over the forest of the derivation's nodes.
#![tactic(auto)]

mod laws;

pub use laws::sequences_are_templates;

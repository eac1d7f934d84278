//! Equations between terms: the laws by which a selector rewrites what it wants to compute, and that the terms on
//! both sides of each are alike.
//!
//! A law goes from left to right. It matches a term whose root has the law's form, and gives another term.
#![tactic(auto)]

mod form;
mod laws;
mod names;

pub use form::{Left, Literal, Operator};
pub use laws::{
    each_law_matches_its_form, laws_keep_terms_alike, laws_turn_left_into_right,
    steps_keep_terms_alike,
};
pub use names::Law;

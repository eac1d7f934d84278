//! The rules of one node of a derivation: whether an instruction stands for what is to be computed, and what its children
//! are to compute then.
#![tactic(auto)]

mod binding;
mod children;
mod goals;
mod job;
mod matching;
mod need;
mod node;
mod operands;
mod rules;
mod trees;

pub use binding::child_of;
pub use children::children_of;
pub use goals::tile_need;
pub use job::Job;
pub use need::Need;
pub use operands::is_written;

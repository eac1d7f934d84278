//! Laws at places of terms, and all terms that they lead to.
#![tactic(auto)]

mod parts;
mod place;
mod places;
mod reached;
mod table;

pub use place::rewrite_at;
pub use reached::closure;

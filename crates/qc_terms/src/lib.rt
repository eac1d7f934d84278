//! Register transfer lists over the cells and the memory of a machine, and what they do.
//!
//! The meaning of an instruction is a list of guarded effects (Ramsey and Davidson, "Machine descriptions to
//! build tools for embedded systems", LCTES 1998).
#![tactic(auto)]

mod apply;
mod cells;
mod evaluate;
mod image;
mod laws;
mod memory;
mod pending;
mod state;
mod term;
mod typing;

pub use apply::apply_rtl;
pub use cells::Cells;
pub use evaluate::value;
pub use image::Image;
pub use laws::{
    events_tell_endings, stored_words_are_loaded, typed_terms_have_no_clash, typed_values_are_words,
};
pub use state::{Event, Facts, Order, State};
pub use term::{Dest, Effect, Place, Rtl, Term};
pub use typing::{WidthClash, width_of};

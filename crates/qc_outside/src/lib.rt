//! What lies outside of the program: files, and an output for lines.
#![tactic(auto)]

mod calls;
mod memory_files;
mod memory_out;
mod outside;

pub use memory_files::MemShelf;
pub use memory_out::MemOut;
pub use outside::{NoMemory, Out, ReadEnd, Shelf, StoreEnd, is_too_long, wanted_after};

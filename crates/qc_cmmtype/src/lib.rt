//! The rules of C-- programs on names, widths, numbers of operands, ends and room; which fault is told of a procedure that breaks
//! them; and the measures of programs.
#![tactic(auto)]

mod endings;
mod expressions;
mod faults;
mod laws;
mod prims;
mod procedures;
mod scope;
mod statements;
mod types;

pub use endings::{body_ends, results_of};
pub use expressions::{expression_fault, own_width};
pub use faults::{ProgramEnd, ProgramFault};
pub use laws::faultless_programs_are_typed;
pub use prims::{Prim, operands_of, prim_named};
pub use procedures::{is_main, procedure_fault};
pub use scope::{Globals, Ground, Scope, Signature};
pub use statements::body_fault;
pub use types::{token_of_type, width_of_type};

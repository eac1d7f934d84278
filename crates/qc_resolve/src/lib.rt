//! The names of a machine's text: the functions and the named effects that it declares, what is known of them without
//! their uses, and the faults of the names in their bodies and in those of instructions.
#![tactic(auto)]

mod functions;
mod names;
mod signatures;

pub use functions::{Functions, name_of_function};
pub use names::effects::{body_fault, twice_fault};
pub use names::expressions::expression_fault;
pub use names::{Locals, Names};
pub use signatures::{Signature, declared_signatures};

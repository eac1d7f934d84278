//! Instances into bytes: by the coding of its instruction, and by the address at which it is to stand.
//!
//! The encodings are those of Ramsey and Fernandez, "Specifying representations of machine instructions",
//! TOPLAS 1997.
#![tactic(auto)]

mod encoding;
mod operands;

pub use encoding::encode;
pub use operands::OutOfReach;

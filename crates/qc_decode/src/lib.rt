//! Instances from bytes: which instance of a description stands in a memory at an address.
//!
//! The encodings are those of Ramsey and Fernandez, "Specifying representations of machine instructions",
//! TOPLAS 1997.
#![tactic(auto)]

mod bytes;
mod decoder;
mod instance_range;
mod laws;
mod operands;

pub use decoder::Decoder;
pub use instance_range::is_instance;
pub use laws::{decoded_is_encoded, encoded_is_decoded};

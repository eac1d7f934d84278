//! What names stand for where a pattern is expanded.
use crate::expanded::{Expanded, FieldPlace};
use qc_names::Declared;

/// The tables of fields, of the patterns before, and of operands, each with its number and its number of bits, if it has
/// one.
#[derive(Drop)]
pub(crate) struct ScopeTables<'a> {
    pub(crate) fields: &'a Declared<FieldPlace>,
    pub(crate) patterns: &'a Declared<Expanded>,
    pub(crate) operands: &'a Declared<(u32, Option<u8>)>,
}

//! What is looked up while items are elaborated.
use qc_facts::Facts;
use qc_lrtl::Item;
use qc_resolve::{Functions, Signature};

/// The items of a machine, the facts and the functions that they declare, and what is known of these without their uses.
#[derive(Clone, Copy)]
pub(crate) struct Context<'a> {
    pub facts: &'a Facts,
    pub items: &'a [Item],
    pub functions: &'a Functions,
    pub signatures: &'a [Signature],
}

use crate::coding::{Bit, Reach};
use crate::description::Space;
use crate::parts::{Given, Operation};
use qc_text::Text;
use sqlite_items::Items;

/// What the pattern of an instruction says of a bit of a token: nothing, what stands there, or several things at once. Of
/// several, a bit of an operand is listed as often as it stands there, or twice where it stands there more often.
#[derive(Debug, Drop)]
pub enum Claim {
    Free,
    Once { bit: Bit },
    Several { bits: Items<Bit> },
}

/// One alternative of an instruction's pattern: the size of each token in bits, a claim for each bit of each token, from
/// the lowest one, tokens in order, and the reach of each operand. `misfit` tells that something in the pattern doesn't
/// fit, beside bits of which several things are said; then the other fields are of no account but for the reaches.
#[derive(Debug, Drop)]
pub struct Sketch {
    pub tokens: Items<u8>,
    pub claims: Items<Claim>,
    pub reaches: Items<Reach>,
    pub misfit: bool,
}

/// What a description is made of. `sketches` has for each operation the alternatives of its pattern, and none where no
/// pattern is there, or its operands are not the operation's; of many alternatives two tell enough.
#[derive(Debug, Drop)]
pub struct Parts {
    pub name: Text,
    pub given: Given,
    pub spaces: Items<Space>,
    pub operations: Items<Operation>,
    pub sketches: Items<Items<Sketch>>,
}

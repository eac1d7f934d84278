use sqlite_items::Items;

/// A bit of an encoding: always 0 or 1, or a bit of an operand, counted from the lowest one.
#[derive(Clone, Copy, Debug, PartialEq, Eq)]
pub enum Bit {
    Fixed { one: bool },
    Piece { operand: u32, bit: u8 },
}

/// How an operand's value is coded. A register or an immediate is coded as it is. An address is coded as the number of
/// bytes from the instruction's first byte to it, in two's complement, or as it is; `bits` is how many bits either has.
#[derive(Clone, Copy, Debug, PartialEq, Eq)]
pub enum Reach {
    Plain,
    Relative { bits: u8 },
    Absolute { bits: u8 },
}

/// How an instruction is encoded: the size of each of its tokens in bits, each token's bits from the lowest one, tokens
/// in order, and the reach of each operand.
#[derive(Debug, Drop)]
pub struct Coding {
    pub tokens: Items<u8>,
    pub bits: Items<Bit>,
    pub reaches: Items<Reach>,
}

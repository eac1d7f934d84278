use qc_descr::Claim;
use sqlite_items::Items;

/// A token of a pattern: the number of its declaration among the items of the text, and its bits.
#[derive(Clone, Copy, Debug, PartialEq, Eq)]
pub(crate) struct TokenUse {
    pub(crate) declaration: usize,
    pub(crate) bits: u8,
}

/// What a pattern comes to: several alternatives, or one in which something doesn't fit, or one that is a list of
/// tokens and has a claim for each of their bits.
#[derive(Debug, Drop)]
pub(crate) enum Expanded {
    Several,
    Unfit,
    Fit {
        tokens: Items<TokenUse>,
        claims: Items<Claim>,
    },
}

/// Where a field is declared: the number of the item, its token's number of bits, and its highest and lowest bit. All
/// are as in the text.
#[derive(Clone, Copy, Debug, PartialEq, Eq)]
pub(crate) struct FieldPlace {
    pub(crate) declaration: usize,
    pub(crate) bits: u128,
    pub(crate) high: u128,
    pub(crate) low: u128,
}

/// How patterns are put together: at once, or one after the other.
#[derive(Clone, Copy, Debug, PartialEq, Eq)]
pub(crate) enum Joint {
    AtOnce,
    InTurn,
}

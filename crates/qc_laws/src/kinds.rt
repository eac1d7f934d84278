//! The laws as types of one value each.

mod bits;
mod comparison;
mod logic;
mod neutral;
mod order;

pub use bits::{AndZx, Part8, Part12, Part16, Split8, Split12, Split16, SxShifts, ZxAnd, ZxCom};
pub use comparison::{EqLtu, EqNe, GeLt, GeuLtu, LtGe, LtLtu, LtuGeu, LtuLt, NeEq, NeLtu};
pub use logic::{
    AddSub, AndOr, ComNeg, ComSub, ComXor, NegCom, NegSub, OrAnd, OrXorAnd, SubCom, SubNeg,
    XorOrAnd,
};
pub use neutral::{
    AddZero, AddZeroDrop, AndOnesDrop, OrZero, OrZeroDrop, ShlZeroDrop, XorZeroDrop,
};
pub use order::{AddLeft, AddRight, AddSwap, AndSwap, EqSwap, MulSwap, NeSwap, OrSwap, XorSwap};

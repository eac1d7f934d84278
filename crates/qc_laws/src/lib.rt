//! The laws of equations at work in a pool: which terms they match, and what they give.
#![tactic(auto)]

mod kinds;
mod law;
mod left;
mod names;
mod right;
mod sides;
mod step;

pub use kinds::{
    AddLeft, AddRight, AddSub, AddSwap, AddZero, AddZeroDrop, AndOnesDrop, AndOr, AndSwap, AndZx,
    ComNeg, ComSub, ComXor, EqLtu, EqNe, EqSwap, GeLt, GeuLtu, LtGe, LtLtu, LtuGeu, LtuLt, MulSwap,
    NeEq, NeLtu, NeSwap, NegCom, NegSub, OrAnd, OrSwap, OrXorAnd, OrZero, OrZeroDrop, Part8,
    Part12, Part16, ShlZeroDrop, Split8, Split12, Split16, SubCom, SubNeg, SxShifts, XorOrAnd,
    XorSwap, XorZeroDrop, ZxAnd, ZxCom,
};
pub use law::{AlgLaw, law_gives, law_matches};
pub use names::{LAWS, law_by_name, law_name, law_table_name};
pub use qc_equations::Law;
pub use step::Step;

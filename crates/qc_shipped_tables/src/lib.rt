//! The tables, written by hand, of machines that come with the program.
#![tactic(auto)]

mod cc16;
mod rv32im;
mod tin32;

pub use cc16::CC16_TAB;
pub use rv32im::RV32IM_TAB;
pub use tin32::TIN32_TAB;

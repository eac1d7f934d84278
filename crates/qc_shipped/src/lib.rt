//! The texts of the machines that come with the program.
#![tactic(auto)]

mod by_name;
mod cc16;
mod rv32i;
mod rv32im;
mod tin32;

pub use by_name::{Texts, shipped};
pub use cc16::{CC16_LRTL, CC16_SLED};
pub use rv32i::{RV32I_LRTL, RV32I_SLED};
pub use rv32im::{RV32IM_LRTL, RV32IM_SLED};
pub use tin32::{TIN32_LRTL, TIN32_SLED};

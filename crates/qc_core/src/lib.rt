//! The commands of the program, and the one call that does them.
#![tactic(auto)]

mod answer;
mod checking;
mod command;
mod compiling;
mod descriptions;
mod inputs;
mod laws;
mod lines;
mod reporting;
mod running;
mod simulation;

pub use answer::{Fault, Status};
pub use command::quick;
pub use laws::{
    commands_name_their_files, faultless_commands, machine_runs, made_is_not_refused,
    one_compilation, one_description, one_refusal, one_setting, read_is_not_refused,
    read_unless_refused, refused_commands, valid_descriptions_have_names,
};
pub use qc_constants::{ConstantProgram, compile};
pub use qc_join::JoinFault;
pub use qc_layout::{ImageEnd, read_image, write_image};
pub use qc_machine::Machine;
pub use qc_outside::{MemOut, MemShelf, Out, ReadEnd, Shelf, StoreEnd, is_too_long, wanted_after};
pub use qc_shipped::{
    CC16_LRTL, CC16_SLED, RV32I_LRTL, RV32I_SLED, RV32IM_LRTL, RV32IM_SLED, TIN32_LRTL, TIN32_SLED,
};
pub use qc_text::NoMemory;
pub use qc_widths::WidthFault;

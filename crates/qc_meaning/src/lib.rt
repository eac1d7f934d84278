//! What code means: code of tiles, code of instructions, and code of which all registers have homes, as lines that are run at
//! addresses.
#![tactic(auto)]

mod laws;
mod lines;

pub use laws::{
    code_keeps_the_machine_invariant, examples_of_code, homed_code_has_the_procedures,
    machines_turn_in_time, one_state_before_a_turn, tame_code_means_the_same, turns_come_in_time,
};
pub use lines::{Code, Line, Placed, TileCode, TileLine};

//! The program: it takes its words, and calls `qc_core::quick` over the files and the output of the system.
#![tactic(auto)]

mod arguments;
mod files;
mod output;
mod program;

use std::process::ExitCode;

fn main(rt: HostRuntime) -> ExitCode {
    ExitCode::from(program::exit_code(&rt, rt.alloc()))
}

//! What the program does over a runtime.
ghost use Rattle.std.specs.Prelude.{◌≡◌};
ghost use Rattle.quick.specs.ExitCode.{exit_code_of as code_of};

use crate::arguments::words;
use crate::files::FileShelf;
use crate::output::StandardOut;
use qc_core::Status;
use std::alloc::Global;
use std::rt::{Env, Files};

/// The exit code that tells a status.
fn exit_code_of(status: Status) -> u8
    ensures { result ≡ code_of status }
{
    match status {
        Status::Done => 0,
        Status::Refused { .. } => 1,
        Status::Usage { .. } => 2,
        Status::ReadFault { .. } => 3,
        Status::WriteFault => 4,
        Status::OutFault => 5,
        Status::NoMemory => 6,
    }
}

/// Takes the runtime's words, calls `qc_core::quick` once over its files and its output, and answers the exit code.
pub(crate) fn exit_code<R: Env + Files + Print>(rt: &R, alloc: Global) -> u8 {
    let status = match words(rt, alloc) {
        Ok(words) => {
            let mut shelf = FileShelf::new(rt);
            let mut out = StandardOut::new(rt);
            qc_core::quick(alloc, &words, &mut shelf, &mut out)
        }
        Err(_) => Status::NoMemory,
    };
    exit_code_of(status)
}

#[cfg(test)]
mod tests;

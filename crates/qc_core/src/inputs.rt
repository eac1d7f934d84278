//! The files that a command reads.
ghost use Rattle.std.specs.Prelude.{◌≡◌, ◌≤◌, length, string_bytes};
ghost use Rattle.qc_command.specs.Command.{texts_of};
ghost use Rattle.qc_core.specs.Inner.Reading.{ReadsBytes};
ghost use Rattle.qc_outside.specs.Files.{name_of};

use crate::answer::{Fault, Status};
use qc_outside::{ReadEnd, Shelf};
use std::alloc::Global;

/// The word that names the file of this number, which is counted from 1.
pub(crate) fn file_word(names: &[String], file: usize) -> &String
    requires first { 1 ≤ file }
    requires last { file ≤ length names.now }
    ensures { string_bytes result.now ≡ name_of (texts_of names.now) file }
{
    &names[file - 1]
}

/// The content of the file of this number.
pub(crate) fn read_file<S: Shelf>(
    alloc: Global,
    names: &[String],
    shelf: &mut S,
    file: usize,
) -> Result<Vec<u8>, Status>
    requires first { 1 ≤ file }
    requires last { file ≤ length names.now }
    ensures { ReadsBytes (texts_of names.now) file (λ bytes. bytes.items) result
        (S.files shelf.old) (S.files shelf.new) (S.faults shelf.old) (S.faults shelf.new) }
{
    match shelf.read(alloc, file_word(names, file)) {
        Ok(bytes) => Ok(bytes),
        Err(ReadEnd::Failed) => Err(Status::ReadFault { file }),
        Err(ReadEnd::TooLong) => Err(Status::Refused {
            fault: Fault::TooLong { file },
        }),
        Err(ReadEnd::NoMemory) => Err(Status::NoMemory),
    }
}

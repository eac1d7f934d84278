//! The files of the system.
ghost use Rattle.std.specs.Prelude.{◌≡◌, ◌≢◌, ◌<◌, ◌≤◌, ◌++◌, ℕ, List, [], IfErr, IfOk, IfSome, IsErr, IsErrOf, OnOk};
ghost use Rattle.std.specs.Prelude.{None, length, if◌then◌else◌};
ghost use Rattle.std.specs.Io.KnownBytes.{Appends};
ghost use Rattle.qc_outside.specs.Files.{file_limit};
ghost use Rattle.qc_outside.specs.FaultCounts.{next_count};

use qc_outside::{ReadEnd, Shelf, StoreEnd, is_too_long, wanted_after};
use std::alloc::Global;
use std::fs;
use std::io::{Read, Write};
use std::rt::Files;

/// Reads to the end, or until there is one byte more than a file may have.
pub(crate) fn read_to_limit<F: Read>(alloc: Global, file: &mut F) -> Result<Vec<u8>, ReadEnd>
    ensures limit { IfOk result (λ bytes. length bytes.items ≤ file_limit) }
    ensures whole { IfOk result (λ bytes. IfSome (F.remaining file.old) (λ held. bytes.items ≡ held)) }
    ensures too_long { IsErrOf result ReadEnd.TooLong → IfSome (F.remaining file.old) (λ held.
        file_limit < length held) }
{
    let mut bytes = Vec::new(alloc);
    let mut buffer = [0u8; 4096];
    while !is_too_long(bytes.len()) {
        let room = wanted_after(bytes.len()).min(buffer.len());
        let count = match file.read(&mut buffer[..room]) {
            Ok(0) => return Ok(bytes),
            Ok(count) => count,
            Err(_) => return Err(ReadEnd::Failed),
        };
        match bytes.extend_from_slice(&buffer[..count]) {
            Ok(()) => {}
            Err(_) => return Err(ReadEnd::NoMemory),
        }
    }
    Err(ReadEnd::TooLong)
}

/// Writes the bytes. A write that takes none of them fails. After a failure a prefix of them may have been written, but
/// not all.
pub(crate) fn write_whole<W: Write>(writer: &mut W, bytes: &[u8]) -> Result<(), StoreEnd>
    ensures whole { OnOk result (Appends (W.contents writer.old) (W.contents writer.new) bytes.now) }
    ensures prefix { (part more : List ℕ) × (bytes.now ≡ part ++ more)
        × Appends (W.contents writer.old) (W.contents writer.new) part × (IsErr result → more ≢ []) }
    ensures err { IfErr result (λ end. end ≡ StoreEnd.Failed) }
{
    let mut rest = bytes;
    while !rest.is_empty() {
        match writer.write(rest) {
            Ok(0) => return Err(StoreEnd::Failed),
            Ok(count) => rest = &rest[count..],
            Err(_) => return Err(StoreEnd::Failed),
        }
    }
    Ok(())
}

/// One more, where a call failed. The count stands still at its last value.
pub(crate) fn counted(faults: u64, failed: bool) -> u64
    ensures value { result ≡ (if failed then next_count faults else faults) }
    ensures later { faults ≤ result }
{
    if failed {
        faults.saturating_add(1)
    } else {
        faults
    }
}

/// The files of the system, of which nothing is known but the faults.
#[derive(Drop)]
pub(crate) struct FileShelf<'a, R> {
    rt: &'a R,
    faults: u64,
}

impl<'a, R: Files> FileShelf<'a, R> {
    pub(crate) fn new(rt: &'a R) -> FileShelf<'a, R>
        ensures { result.faults ≡ 0 }
    {
        FileShelf { rt, faults: 0 }
    }
}

impl<'a, R: Files> Shelf for FileShelf<'a, R> {
    ghost files = { λ _. None };

    ghost faults = { λ shelf. shelf.faults };

    fn read(&mut self, alloc: Global, name: &String) -> Result<Vec<u8>, ReadEnd> {
        let read = match fs::open(self.rt, name) {
            Ok(mut file) => read_to_limit(alloc, &mut file),
            Err(_) => Err(ReadEnd::Failed),
        };
        self.faults = counted(self.faults, matches!(read, Err(ReadEnd::Failed)));
        read
    }

    fn write(&mut self, _alloc: Global, name: &String, bytes: &[u8]) -> Result<(), StoreEnd> {
        let written = match fs::create(self.rt, name) {
            Ok(mut file) => write_whole(&mut file, bytes),
            Err(_) => Err(StoreEnd::Failed),
        };
        self.faults = counted(self.faults, matches!(written, Err(StoreEnd::Failed)));
        written
    }
}

#[cfg(test)]
mod tests;

//! Files that lie in memory.
ghost use Rattle.std.specs.Prelude.{◌≡◌, ◌<◌, ◌≤◌, ◌↔◌, ℕ, Some, IsTrue, IfOk, IsErrOf, OnOk, OnErr, IfSome, IsNone};
ghost use Rattle.std.specs.Prelude.{length, string_bytes, option_copied};
ghost use Rattle.std.specs.FinMap.{get, insert};
ghost use Rattle.qc_outside.specs.Calls.{NextFails, calls_of, failing_of, faults_of};
ghost use Rattle.qc_outside.specs.FaultCounts.{next_count};
ghost use Rattle.qc_outside.specs.Files.{content_of, file_limit, OthersStay};
ghost use Rattle.qc_outside.specs.MemoryFiles.{files_from, files_of, FailsToRead, NoneBefore, IsFirst};

use crate::calls::Calls;
use crate::outside::{NoMemory, ReadEnd, Shelf, StoreEnd, is_too_long};
use std::alloc::Global;

/// The place of the first pair of the name, from 0.
fn place_of(files: &Vec<(String, Vec<u8>)>, name: &String) -> Option<usize>
    ensures some { IfSome result (IsFirst files.now.items (string_bytes name.now)) }
    ensures none { IsNone result → NoneBefore files.now.items (string_bytes name.now) (length files.now.items) }
{
    for (place, file) in files.iter().enumerate() {
        if file.0 == *name {
            return Some(place);
        }
    }
    None
}

fn content<'a>(files: &'a Vec<(String, Vec<u8>)>, name: &String) -> Option<&'a [u8]>
    ensures { option_copied result ≡ get (files_from files.now.items) (string_bytes name.now) }
{
    match place_of(files, name) {
        Some(place) => Some(files[place].1.as_slice()),
        None => None,
    }
}

/// Binds the name to the bytes, in the first pair of the name or in a new one at the end.
fn bind(
    files: &mut Vec<(String, Vec<u8>)>,
    alloc: Global,
    name: &String,
    bytes: &[u8],
) -> Result<(), NoMemory>
    ensures ok { OnOk result (files_from files.new.items
        ≡ insert (files_from files.old.items) (string_bytes name.now) bytes.now) }
    ensures err { OnErr result (files.new.items ≡ files.old.items) }
{
    let copy = Vec::from_slice(alloc, bytes)?;
    match place_of(files, name) {
        Some(place) => files[place].1 = copy,
        None => files.push((name.clone()?, copy))?,
    }
    Ok(())
}

/// Files in memory, of which chosen calls fail.
///
/// Reads and writes are counted together, from 1. A call whose number is among those that are to fail is a fault, and
/// so is the read of a file that isn't there.
#[derive(Debug, Drop)]
pub struct MemShelf {
    files: Vec<(String, Vec<u8>)>,
    calls: Calls,
}

impl MemShelf {
    /// A shelf of these files, a name and a content each, before its first call. A name's content is that of its first
    /// pair. `failing` are the numbers of the calls that are to fail.
    pub fn new(files: Vec<(String, Vec<u8>)>, failing: Vec<u64>) -> MemShelf
        ensures files { files_of result ≡ files_from files.items }
        ensures faults { faults_of result.calls ≡ 0 }
        ensures failing { failing_of result.calls ≡ failing.items }
        ensures calls { calls_of result.calls ≡ 0 }
    {
        MemShelf {
            files,
            calls: Calls::new(failing),
        }
    }

    /// The content of a file.
    pub fn file(&self, name: &String) -> Option<&[u8]>
        ensures { option_copied result ≡ get (files_of self.now) (string_bytes name.now) }
    {
        content(&self.files, name)
    }
}

impl Shelf for MemShelf {
    ghost files = { λ shelf. Some (files_of shelf) };

    ghost faults = { λ shelf. faults_of shelf.calls };

    fn read(&mut self, alloc: Global, name: &String) -> Result<Vec<u8>, ReadEnd>
        ensures limit { IfOk result (λ bytes. length bytes.items ≤ file_limit) }
        ensures content { IfOk result (λ bytes. get (files_of self.old) (string_bytes name.now) ≡ Some bytes.items) }
        ensures too_long { IsErrOf result ReadEnd.TooLong →
            file_limit < length (content_of (files_of self.old) (string_bytes name.now)) }
        ensures fails { IsErrOf result ReadEnd.Failed ↔ FailsToRead self.old (string_bytes name.now) }
        ensures failed { IsErrOf result ReadEnd.Failed →
            faults_of self.new.calls ≡ next_count (faults_of self.old.calls) }
        ensures kept { (IsErrOf result ReadEnd.Failed → ⊥) → faults_of self.new.calls ≡ faults_of self.old.calls }
        ensures files { files_of self.new ≡ files_of self.old }
        ensures failing { failing_of self.new.calls ≡ failing_of self.old.calls }
        ensures calls { calls_of self.new.calls ≡ next_count (calls_of self.old.calls) }
        ensures later { faults_of self.old.calls ≤ faults_of self.new.calls }
    {
        if self.calls.begin_fails() {
            return Err(ReadEnd::Failed);
        }
        match content(&self.files, name) {
            None => {
                self.calls.fail();
                Err(ReadEnd::Failed)
            }
            Some(bytes) if is_too_long(bytes.len()) => Err(ReadEnd::TooLong),
            Some(bytes) => match Vec::from_slice(alloc, bytes) {
                Ok(copy) => Ok(copy),
                Err(_) => Err(ReadEnd::NoMemory),
            },
        }
    }

    fn write(&mut self, alloc: Global, name: &String, bytes: &[u8]) -> Result<(), StoreEnd>
        ensures ok { OnOk result (files_of self.new ≡ insert (files_of self.old) (string_bytes name.now) bytes.now) }
        ensures err { OnErr result (files_of self.new ≡ files_of self.old) }
        ensures others { OthersStay (string_bytes name.now) (files_of self.old) (files_of self.new) }
        ensures no_memory { IsErrOf result StoreEnd.NoMemory → files_of self.new ≡ files_of self.old }
        ensures fails { IsErrOf result StoreEnd.Failed
            ↔ NextFails (failing_of self.old.calls) (calls_of self.old.calls) }
        ensures failed { IsErrOf result StoreEnd.Failed →
            faults_of self.new.calls ≡ next_count (faults_of self.old.calls) }
        ensures kept { (IsErrOf result StoreEnd.Failed → ⊥) → faults_of self.new.calls ≡ faults_of self.old.calls }
        ensures failing { failing_of self.new.calls ≡ failing_of self.old.calls }
        ensures calls { calls_of self.new.calls ≡ next_count (calls_of self.old.calls) }
        ensures later { faults_of self.old.calls ≤ faults_of self.new.calls }
    {
        if self.calls.begin_fails() {
            return Err(StoreEnd::Failed);
        }
        match bind(&mut self.files, alloc, name, bytes) {
            Ok(()) => Ok(()),
            Err(_) => Err(StoreEnd::NoMemory),
        }
    }
}

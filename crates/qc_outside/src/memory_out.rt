//! An output that lies in memory.
ghost use Rattle.std.specs.Prelude.{◌≡◌, map};
ghost use Rattle.std.specs.List.{concat};

use crate::calls::Calls;
use crate::outside::{NoMemory, Out, StoreEnd};
use std::alloc::Global;

/// An output in memory, of which chosen calls fail.
///
/// Calls are counted from 1. A call whose number is among those that are to fail is a fault, and puts nothing.
#[derive(Debug, Drop)]
pub struct MemOut {
    pieces: Vec<Vec<u8>>,
    written: Vec<u8>,
    calls: Calls,
    ghost joined: { written.items ≡ concat (map (λ piece. piece.items) pieces.items) },
}

impl MemOut {
    ghost use Rattle.std.specs.Prelude.{◌++◌, ◌∷◌, [], OnOk, OnErr};
    ghost use Rattle.qc_outside.specs.Calls.{calls_of, failing_of, faults_of};
    ghost use Rattle.qc_outside.specs.MemoryOut.{bytes_of, pieces_of, written_of};

    /// An output with no byte, before its first call. `failing` are the numbers of the calls that are to fail.
    pub fn new(alloc: Global, failing: Vec<u64>) -> MemOut
        ensures pieces { pieces_of result ≡ [] }
        ensures written { written_of result ≡ [] }
        ensures faults { faults_of result.calls ≡ 0 }
        ensures failing { failing_of result.calls ≡ failing.items }
        ensures calls { calls_of result.calls ≡ 0 }
    {
        MemOut {
            pieces: Vec::new(alloc),
            written: Vec::new(alloc),
            calls: Calls::new(failing),
        }
    }

    /// The bytes so far.
    pub fn written(&self) -> &[u8]
        ensures { result.now ≡ written_of self.now }
    {
        self.written.as_slice()
    }

    /// The pieces so far, one for each call that put its piece.
    pub fn pieces(&self) -> &[Vec<u8>]
        ensures { bytes_of result.now ≡ pieces_of self.now }
    {
        self.pieces.as_slice()
    }

    /// Adds the piece to the pieces and to the bytes, or to none of them where memory is wanting.
    fn add(&mut self, alloc: Global, piece: &[u8]) -> Result<(), NoMemory>
        ensures pieces { OnOk result (pieces_of self.new ≡ pieces_of self.old ++ piece.now ∷ []) }
        ensures written { OnOk result (written_of self.new ≡ written_of self.old ++ piece.now) }
        ensures no_piece { OnErr result (pieces_of self.new ≡ pieces_of self.old) }
        ensures none_written { OnErr result (written_of self.new ≡ written_of self.old) }
        ensures calls { self.new.calls ≡ self.old.calls }
    {
        let copy = Vec::from_slice(alloc, piece)?;
        self.pieces.push(copy)?;
        match self.written.extend_from_slice(piece) {
            Ok(()) => Ok(()),
            Err(out_of_memory) => {
                let _ = self.pieces.pop();
                Err(out_of_memory)
            }
        }
    }
}

impl Out for MemOut {
    ghost use Rattle.std.specs.Prelude.{◌≤◌, ◌↔◌, ◌++◌, ◌∷◌, [], Some, OnOk, OnErr, IsErrOf};
    ghost use Rattle.std.proofs.Common.{ap};
    ghost use Rattle.qc_outside.specs.Calls.{NextFails, calls_of, failing_of, faults_of};
    ghost use Rattle.qc_outside.specs.FaultCounts.{next_count};
    ghost use Rattle.qc_outside.specs.MemoryOut.{pieces_of, written_of};

    ghost pieces = { λ out. Some (pieces_of out) };

    ghost written = { λ out. Some (written_of out) };

    ghost faults = { λ out. faults_of out.calls };

    ghost joined = { λ out. ap Some out.joined };

    fn put(&mut self, alloc: Global, piece: &[u8]) -> Result<(), StoreEnd>
        ensures ok { OnOk result (written_of self.new ≡ written_of self.old ++ piece.now) }
        ensures whole { OnOk result (pieces_of self.new ≡ pieces_of self.old ++ piece.now ∷ []) }
        ensures err { OnErr result (written_of self.new ≡ written_of self.old) }
        ensures no_piece { OnErr result (pieces_of self.new ≡ pieces_of self.old) }
        ensures no_memory { IsErrOf result StoreEnd.NoMemory → written_of self.new ≡ written_of self.old }
        ensures fails { IsErrOf result StoreEnd.Failed
            ↔ NextFails (failing_of self.old.calls) (calls_of self.old.calls) }
        ensures failed { IsErrOf result StoreEnd.Failed →
            faults_of self.new.calls ≡ next_count (faults_of self.old.calls) }
        ensures kept { (IsErrOf result StoreEnd.Failed → ⊥) → faults_of self.new.calls ≡ faults_of self.old.calls }
        ensures failing { failing_of self.new.calls ≡ failing_of self.old.calls }
        ensures calls { calls_of self.new.calls ≡ next_count (calls_of self.old.calls) }
        ensures later { faults_of self.old.calls ≤ faults_of self.new.calls }
    {
        if self.calls.begin_fails() {
            return Err(StoreEnd::Failed);
        }
        match self.add(alloc, piece) {
            Ok(()) => Ok(()),
            Err(_) => Err(StoreEnd::NoMemory),
        }
    }
}

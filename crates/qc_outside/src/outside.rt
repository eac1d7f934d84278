ghost use Rattle.std.specs.Prelude.{◌≡◌, ◌≤◌, ◌<◌, ◌+◌, ◌-◌, ◌++◌, ℕ, List, Option, length};
ghost use Rattle.std.specs.Prelude.{string_bytes, IfOk, IfSome, IsTrue, OnOk, OnErr, IsErrOf, ◌↔◌};
ghost use Rattle.std.specs.List.{concat};
ghost use Rattle.std.specs.Option.{option_map};
ghost use Rattle.std.specs.FinMap.{insert};
ghost use Rattle.qc_outside.specs.FaultCounts.{next_count};
ghost use Rattle.qc_outside.specs.Files.{Files, content_of, file_limit, OthersStayKnown};
ghost use Rattle.qc_outside.specs.OutputPieces.{AddsPiece, AddsPart};

use std::alloc::{AllocError, Global};

/// Memory was wanting.
pub type NoMemory = AllocError;

/// The most bytes that a file may have.
const FILE_LIMIT: usize = 4_194_304;

/// Whether so many bytes are more than a file may have.
#[tactic(auto, unfolding(crate::specs::Files::file_limit))]
pub fn is_too_long(len: usize) -> bool
    ensures { IsTrue result ↔ (file_limit < len) }
{
    len > FILE_LIMIT
}

/// How many bytes are wanted after the first `len` of a file: one more than it may have in all, which tells whether it
/// is too long.
#[tactic(auto, unfolding(crate::specs::Files::file_limit))]
pub fn wanted_after(len: usize) -> usize
    ensures { result ≡ file_limit + 1 - len }
{
    (FILE_LIMIT + 1).saturating_sub(len)
}

/// Why a file was not read.
#[derive(Clone, Copy, Debug, PartialEq, Eq)]
pub enum ReadEnd {
    /// The file is not there, or could not be read to its end. This is a fault, and counted.
    Failed,
    /// The file has more than 4,194,304 bytes.
    TooLong,
    /// Memory was wanting.
    NoMemory,
}

/// Why bytes were not stored.
#[derive(Clone, Copy, Debug, PartialEq, Eq)]
pub enum StoreEnd {
    /// The bytes could not be stored, or not all of them. This is a fault, and counted.
    Failed,
    /// Memory was wanting.
    NoMemory,
}

/// Files by name.
///
/// The files of a shelf may be known, as a map from names to contents. A shelf counts its faults: each call that fails
/// raises the count by one, and no other call changes it. At its last value, that of 64 bits, it stands still.
pub trait Shelf {
    /// The files, where they are known.
    ghost files: { Self → Option Files };

    /// How many calls have failed.
    ghost faults: { Self → ℕ };

    /// The content of a file.
    fn read(&mut self, alloc: Global, name: &String) -> Result<Vec<u8>, ReadEnd>
        ensures limit { IfOk result (λ bytes. length bytes.items ≤ file_limit) }
        ensures content { IfOk result (λ bytes. IfSome (files self.old) (λ f.
            bytes.items ≡ content_of f (string_bytes name.now))) }
        ensures too_long { IsErrOf result ReadEnd.TooLong → IfSome (files self.old) (λ f.
            file_limit < length (content_of f (string_bytes name.now))) }
        ensures failed { IsErrOf result ReadEnd.Failed → faults self.new ≡ next_count (faults self.old) }
        ensures files { files self.new ≡ files self.old }
        ensures kept { (IsErrOf result ReadEnd.Failed → ⊥) → faults self.new ≡ faults self.old }
        ensures later { faults self.old ≤ faults self.new };

    /// Binds the name to the bytes.
    fn write(&mut self, alloc: Global, name: &String, bytes: &[u8]) -> Result<(), StoreEnd>
        ensures ok { OnOk result (files self.new
            ≡ option_map (λ f. insert f (string_bytes name.now) bytes.now) (files self.old)) }
        ensures failed { IsErrOf result StoreEnd.Failed → faults self.new ≡ next_count (faults self.old) }
        ensures others { OthersStayKnown (string_bytes name.now) (files self.old) (files self.new) }
        ensures no_memory { IsErrOf result StoreEnd.NoMemory → files self.new ≡ files self.old }
        ensures kept { (IsErrOf result StoreEnd.Failed → ⊥) → faults self.new ≡ faults self.old }
        ensures later { faults self.old ≤ faults self.new };
}

/// Where lines are put.
///
/// What an output was given may be known: pieces of bytes, one for each call that put one, and the bytes of all of them
/// in a row. An output counts its faults as a shelf does.
pub trait Out {
    /// The pieces so far, where they are known.
    ghost pieces: { Self → Option (List (List ℕ)) };

    /// The bytes so far, where they are known.
    ghost written: { Self → Option (List ℕ) };

    /// How many calls have failed.
    ghost faults: { Self → ℕ };

    /// Puts the piece after the bytes so far. Where this fails, a prefix of the piece may have been put.
    fn put(&mut self, alloc: Global, piece: &[u8]) -> Result<(), StoreEnd>
        ensures ok { OnOk result (written self.new ≡ option_map (λ w. w ++ piece.now) (written self.old)) }
        ensures whole { OnOk result (AddsPiece piece.now (pieces self.old) (pieces self.new)) }
        ensures failed { IsErrOf result StoreEnd.Failed → faults self.new ≡ next_count (faults self.old) }
        ensures prefix { (part more : List ℕ) × (piece.now ≡ part ++ more)
            × (written self.new ≡ option_map (λ w. w ++ part) (written self.old)) }
        ensures part { OnErr result (AddsPart piece.now (pieces self.old) (pieces self.new)) }
        ensures no_memory { IsErrOf result StoreEnd.NoMemory → written self.new ≡ written self.old }
        ensures no_piece { IsErrOf result StoreEnd.NoMemory → pieces self.new ≡ pieces self.old }
        ensures kept { (IsErrOf result StoreEnd.Failed → ⊥) → faults self.new ≡ faults self.old }
        ensures later { faults self.old ≤ faults self.new };

    /// The bytes are those of the pieces, in their order.
    ghost joined: { (out : Self) → written out ≡ option_map concat (pieces out) };
}

//! The further conditions on sequences of derivations. The function here does nothing: its contract is the law.

ghost use Rattle.std.specs.Prelude.{Contains};
ghost use Rattle.qc_descr.specs.declared.description.Description.{Description};
ghost use Rattle.qc_descr.specs.Valid.{IsValid};
ghost use Rattle.qc_tiles.specs.declared.tile.Tile.{Tile};
ghost use Rattle.qc_tiles.specs.Sound.{facts_of};
ghost use Rattle.qc_tiles.specs.Tiles.{tiles_of};
ghost use Rattle.qc_code.specs.Reach.{BranchesLast, HasAlignedAddresses};
ghost use Rattle.qc_code.specs.Registers.{WritesAsTile};
ghost use Rattle.qc_code.specs.SpecialTiles.{MovesLinkAtOnce, MovesSlotsAtOnce};
ghost use Rattle.qc_derivations.specs.declared.derivation.Bounds.{Bounds};
ghost use Rattle.qc_derivations.specs.declared.derivation.Derivation.{Derivation};
ghost use Rattle.qc_derivations.specs.Sequence.{sequence_of};
ghost use Rattle.qc_derivations.specs.Valid.{IsValidDerivation};

/// For each valid description, each tile, and each derivation that is valid for the tile within any bounds: the sequence
/// of a tile that saves or loads the link is one instruction; that of a spill or a reload is one without a scratch, and
/// writes no flag cell; each multiple of the alignment can be an address in each line, as to the bits that codings leave
/// out; in the sequence of a branch a relative operand stands in the last line alone; and each line writes scratches, flag
/// cells and the zero cell alone, but the last one also what the tile writes.
pub fn sequences_are_templates()
    ensures link { (d : Description) (t : Tile) (bounds : Bounds) (derivation : Derivation) →
        IsValidDerivation d t bounds derivation → MovesLinkAtOnce t (sequence_of d t derivation) }
    ensures slots { (d : Description) (t : Tile) (bounds : Bounds) (derivation : Derivation) → IsValid d →
        IsValidDerivation d t bounds derivation → MovesSlotsAtOnce d t (sequence_of d t derivation) }
    ensures aligned { (d : Description) (t : Tile) (bounds : Bounds) (derivation : Derivation) → IsValid d →
        IsValidDerivation d t bounds derivation → HasAlignedAddresses d (sequence_of d t derivation) }
    ensures branches { (d : Description) (t : Tile) (bounds : Bounds) (derivation : Derivation) → IsValid d →
        IsValidDerivation d t bounds derivation → BranchesLast d t (sequence_of d t derivation) }
    ensures writes { (d : Description) (t : Tile) (bounds : Bounds) (derivation : Derivation) → IsValid d →
        Contains (tiles_of (facts_of d)) t → IsValidDerivation d t bounds derivation → WritesAsTile d t (sequence_of d t derivation) }
{}

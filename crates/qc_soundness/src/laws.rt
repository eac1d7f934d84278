//! The theorem of derivations. The function here does nothing: its contract is the law.

ghost use Rattle.std.specs.Prelude.{Contains};
ghost use Rattle.qc_descr.specs.declared.description.Description.{Description};
ghost use Rattle.qc_descr.specs.Valid.{IsValid};
ghost use Rattle.qc_tiles.specs.declared.tile.Tile.{Tile};
ghost use Rattle.qc_tiles.specs.Sound.{facts_of};
ghost use Rattle.qc_tiles.specs.Tiles.{tiles_of};
ghost use Rattle.qc_code.specs.TileHolds.{TileHolds};
ghost use Rattle.qc_derivations.specs.declared.derivation.Bounds.{Bounds};
ghost use Rattle.qc_derivations.specs.declared.derivation.Derivation.{Derivation};
ghost use Rattle.qc_derivations.specs.Sequence.{sequence_of};
ghost use Rattle.qc_derivations.specs.Valid.{IsValidDerivation};

use qc_equations::steps_keep_terms_alike;

/// For each valid description, each tile of it, and each derivation that is valid for the tile within any bounds, the
/// tile holds of the derivation's sequence: wherever it is used, its lines do what the tile does but for scratches and
/// flags, they trap with the same code exactly where the tile does, and none but the last leaves the sequence.
pub fn valid_derivations_hold()
    ensures { (d : Description) (t : Tile) (bounds : Bounds) (derivation : Derivation) → IsValid d →
        Contains (tiles_of (facts_of d)) t → IsValidDerivation d t bounds derivation → TileHolds d t (sequence_of d t derivation) }
{
    steps_keep_terms_alike();
}

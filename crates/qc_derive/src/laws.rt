//! Laws of derivations. Each function here does nothing: its contract is the law.

ghost use Rattle.std.specs.Prelude.{◌≡◌, None};
ghost use Rattle.qc_descr.specs.declared.description.Description.{Description};
ghost use Rattle.qc_tiles.specs.declared.tile.Tile.{Tile};
ghost use Rattle.qc_derivations.specs.declared.derivation.Bounds.{Bounds};
ghost use Rattle.qc_derivations.specs.declared.derivation.Derivation.{Derivation};
ghost use Rattle.qc_derivations.specs.Valid.{IsValidDerivation, fault_of};

/// A derivation is valid exactly where it has no first node that breaks a rule.
pub fn derivations_without_fault_are_valid()
    ensures valid { (d : Description) (t : Tile) (bounds : Bounds) (derivation : Derivation) →
        fault_of d t bounds derivation ≡ None → IsValidDerivation d t bounds derivation }
    ensures whole { (d : Description) (t : Tile) (bounds : Bounds) (derivation : Derivation) →
        IsValidDerivation d t bounds derivation → fault_of d t bounds derivation ≡ None }
{}

//! Facts about the definitions. A caller of one of these functions has its `ensures`; no code runs.
ghost use Rattle.std.specs.Prelude.{◌≡◌, ◌↔◌, None};
ghost use Rattle.qc_cmm.specs.declared.syntax.Program.{Program};
ghost use Rattle.qc_cmmtype.specs.declared.scope.Ground.{Ground};
ghost use Rattle.qc_cmmtype.specs.Typed.{IsTyped, fault_of};

/// A program is typed exactly if no fault is told of it.
pub fn faultless_programs_are_typed()
    ensures { (g : Ground) (program : Program) → (fault_of g program ≡ None) ↔ IsTyped g program }
{}

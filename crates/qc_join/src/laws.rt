//! Facts about what machines and texts make. A caller of one of these functions has its `ensures`; no code runs.
ghost use Rattle.std.specs.Prelude.{List};
ghost use Rattle.qc_descr.specs.Making.{AreWholeParts};
ghost use Rattle.qc_descr.specs.Parts.{AreParts};
ghost use Rattle.qc_widths.specs.declared.machine.Machine.{Machine};
ghost use Rattle.qc_join.specs.Joining.{parts_of};
ghost use Rattle.qc_sled.specs.declared.syntax.Item.{Item};

/// The parts of a machine with the codings that a text gives them are whole.
pub(crate) fn parts_are_whole()
    ensures { (machine : Machine) (items : List Item) → AreParts machine.name machine.given machine.spaces machine.operations → AreWholeParts (parts_of machine items) }
{}

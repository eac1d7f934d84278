//! The command `check`.
ghost use Rattle.std.specs.Prelude.{◌≡◌, length};
ghost use Rattle.qc_command.specs.Command.{texts_of};
ghost use Rattle.qc_command.specs.declared.words.Command.TheVariants as command;
ghost use Rattle.qc_core.specs.Inner.Counting.{CountsFaults};
ghost use Rattle.qc_core.specs.Answer.{CommandLeaves};
ghost use Rattle.qc_core.specs.Leaves.{outside_of};

use crate::answer::Status;
use crate::descriptions::read_description;
use crate::reporting::{report_description, report_stop};
use qc_outside::{Out, Shelf};
use std::alloc::Global;

/// Reports the description that the two files make, or why they make none.
pub(crate) fn check_command<S: Shelf, O: Out>(
    alloc: Global,
    names: &[String],
    shelf: &mut S,
    out: &mut O,
) -> Status
    requires { length names.now ≡ 2 }
    ensures counts { CountsFaults result (S.faults shelf.old) (S.faults shelf.new) (O.faults out.old) (O.faults out.new) }
    ensures leaves { CommandLeaves command.Check (texts_of names.now)
        (outside_of (S.files shelf.old) (S.faults shelf.old) (O.pieces out.old) (O.faults out.old))
        (outside_of (S.files shelf.new) (S.faults shelf.new) (O.pieces out.new) (O.faults out.new))
        result }
{
    match read_description(alloc, names, shelf) {
        Ok(descr) => report_description(alloc, out, &descr),
        Err(status) => report_stop(alloc, out, status),
    }
}

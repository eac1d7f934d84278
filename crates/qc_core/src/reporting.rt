//! What is reported of a command by lines.
ghost use Rattle.std.specs.Prelude.{◌≡◌, ◌∷◌, [], IfErr, OnOk};
ghost use Rattle.qc_core.specs.Inner.Counting.{CountsOutFaults, CountsPutFaults};
ghost use Rattle.qc_core.specs.Inner.Reading.{Puts, ReportsStop, StopsToPut};
ghost use Rattle.qc_core.specs.Lines as lines;
ghost use Rattle.qc_core.specs.Puts.{ArePut, output_of};

use crate::answer::{Fault, Status};
use crate::lines::{checked_line, compiled_line, refusal_line};
use qc_descr::Description;
use qc_outside::{Out, StoreEnd};
use qc_terms::Image;
use std::alloc::Global;

/// Puts a line.
pub(crate) fn put_line<O: Out>(alloc: Global, out: &mut O, line: &[u8]) -> Result<(), Status>
    ensures put { OnOk result (ArePut (line.now ∷ [])
        (output_of (O.pieces out.old) (O.faults out.old)) (output_of (O.pieces out.new) (O.faults out.new))) }
    ensures stops { IfErr result (StopsToPut (line.now ∷ [])
        (output_of (O.pieces out.old) (O.faults out.old)) (output_of (O.pieces out.new) (O.faults out.new))) }
    ensures counts { CountsPutFaults result (O.faults out.old) (O.faults out.new) }
{
    match out.put(alloc, line) {
        Ok(()) => Ok(()),
        Err(StoreEnd::Failed) => Err(Status::OutFault),
        Err(StoreEnd::NoMemory) => Err(Status::NoMemory),
    }
}

/// Puts a line that tells what was done.
fn report_line<O: Out>(alloc: Global, out: &mut O, line: &[u8]) -> Status
    ensures puts { Puts (line.now ∷ [])
        (output_of (O.pieces out.old) (O.faults out.old)) (output_of (O.pieces out.new) (O.faults out.new)) result }
    ensures counts { CountsOutFaults result (O.faults out.old) (O.faults out.new) }
{
    match put_line(alloc, out, line) {
        Ok(()) => Status::Done,
        Err(status) => status,
    }
}

/// Puts the line of an image that was compiled.
pub(crate) fn report_image<O: Out>(alloc: Global, out: &mut O, image: &Image) -> Status
    ensures puts { Puts (lines.compiled_line image.now ∷ [])
        (output_of (O.pieces out.old) (O.faults out.old)) (output_of (O.pieces out.new) (O.faults out.new)) result }
    ensures counts { CountsOutFaults result (O.faults out.old) (O.faults out.new) }
{
    match compiled_line(alloc, image) {
        Ok(line) => report_line(alloc, out, line.as_bytes()),
        Err(_) => Status::NoMemory,
    }
}

/// Puts the line of a description that was checked.
pub(crate) fn report_description<O: Out>(alloc: Global, out: &mut O, descr: &Description) -> Status
    ensures puts { Puts (lines.checked_line descr.now ∷ [])
        (output_of (O.pieces out.old) (O.faults out.old)) (output_of (O.pieces out.new) (O.faults out.new)) result }
    ensures counts { CountsOutFaults result (O.faults out.old) (O.faults out.new) }
{
    match checked_line(alloc, descr) {
        Ok(line) => report_line(alloc, out, line.as_slice()),
        Err(_) => Status::NoMemory,
    }
}

/// Puts the line of a refusal. Where this fails the refusal stands.
fn report_refusal<O: Out>(alloc: Global, out: &mut O, fault: Fault) -> Status
    ensures reports { ReportsStop (Status.Refused fault)
        (output_of (O.pieces out.old) (O.faults out.old)) (output_of (O.pieces out.new) (O.faults out.new)) result }
    ensures counts { CountsOutFaults result (O.faults out.old) (O.faults out.new) }
{
    let line = match refusal_line(alloc, fault) {
        Ok(line) => line,
        Err(_) => return Status::NoMemory,
    };
    match out.put(alloc, line.as_bytes()) {
        Ok(()) => Status::Refused { fault },
        Err(StoreEnd::Failed) => Status::Refused { fault },
        Err(StoreEnd::NoMemory) => Status::NoMemory,
    }
}

/// Puts what is reported of the status with which the reading of files stopped: the line of a refusal, and nothing of all
/// else.
pub(crate) fn report_stop<O: Out>(alloc: Global, out: &mut O, status: Status) -> Status
    ensures reports { ReportsStop status
        (output_of (O.pieces out.old) (O.faults out.old)) (output_of (O.pieces out.new) (O.faults out.new)) result }
    ensures counts { CountsOutFaults result (O.faults out.old) (O.faults out.new) }
{
    match status {
        Status::Refused { fault } => report_refusal(alloc, out, fault),
        _ => status,
    }
}

//! The run of a machine, and its lines.
ghost use Rattle.std.specs.Prelude.{◌≡◌, ◌∷◌, [], IfErr, IfOk, IsFalse, IsTrue, None, OnOk};
ghost use Rattle.qc_core.specs.Inner.Counting.{CountsOutFaults, CountsPutFaults};
ghost use Rattle.qc_core.specs.Inner.Reading.{StopsToPut};
ghost use Rattle.qc_core.specs.Inner.Running.{IsOver, PutsRun, PutsStep, PutsWords, StopsStep, StopsWords};
ghost use Rattle.qc_core.specs.Lines.{word_line as line_of_word};
ghost use Rattle.qc_core.specs.Puts.{ArePut, output_of};
ghost use Rattle.qc_core.specs.Runs.{machine_process};
ghost use Rattle.qc_descr.specs.Machine.{IsMachineOf};
ghost use Rattle.qc_descr.specs.Valid.{IsValid};
ghost use Rattle.qc_machine.specs.Cache.{IsCacheOf};

use crate::answer::Status;
use crate::lines::{ending_line, word_line};
use crate::reporting::put_line;
use qc_descr::{Description, some_outcome, step_tells_ending};
use qc_machine::{DecodeCache, Machine};
use qc_outside::Out;
use qc_terms::Event;
use std::alloc::Global;

/// Puts the line of a word.
fn put_word<O: Out>(alloc: Global, out: &mut O, word: u64) -> Result<(), Status>
    ensures put { OnOk result (ArePut (line_of_word word ∷ [])
        (output_of (O.pieces out.old) (O.faults out.old)) (output_of (O.pieces out.new) (O.faults out.new))) }
    ensures stops { IfErr result (StopsToPut (line_of_word word ∷ [])
        (output_of (O.pieces out.old) (O.faults out.old)) (output_of (O.pieces out.new) (O.faults out.new))) }
    ensures counts { CountsPutFaults result (O.faults out.old) (O.faults out.new) }
{
    match word_line(alloc, word) {
        Ok(line) => put_line(alloc, out, line.as_bytes()),
        Err(_) => Err(Status::NoMemory),
    }
}

/// One step of a machine that goes on, and the line of the word that it puts out. Tells whether the machine still goes
/// on.
fn put_step<O: Out>(
    alloc: Global,
    out: &mut O,
    descr: &Description,
    cache: &mut DecodeCache,
    machine: &mut Machine,
) -> Result<bool, Status>
    requires valid { IsValid descr.now }
    requires made { IsMachineOf descr.now machine.old }
    requires running { machine.old.ending ≡ None }
    requires cached { IsCacheOf descr.now cache.old }
    ensures goes_on { IfOk result (λ goes_on. IsTrue goes_on →
        PutsStep (machine_process descr.now) machine.old machine.new
        (output_of (O.pieces out.old) (O.faults out.old)) (output_of (O.pieces out.new) (O.faults out.new))
        (λ ending. ending ≡ None)) }
    ensures ends { IfOk result (λ goes_on. IsFalse goes_on →
        PutsStep (machine_process descr.now) machine.old machine.new
        (output_of (O.pieces out.old) (O.faults out.old)) (output_of (O.pieces out.new) (O.faults out.new)) IsOver) }
    ensures stops { IfErr result (StopsStep (machine_process descr.now) machine.old machine.new
        (output_of (O.pieces out.old) (O.faults out.old)) (output_of (O.pieces out.new) (O.faults out.new))) }
    ensures made { IsMachineOf descr.now machine.new }
    ensures cache { IsCacheOf descr.now cache.new }
    ensures counts { CountsPutFaults result (O.faults out.old) (O.faults out.new) }
{
    step_tells_ending();
    match machine.step_cached(descr, cache) {
        Event::Quiet => Ok(true),
        Event::Out { word } => match put_word(alloc, out, word) {
            Ok(()) => Ok(true),
            Err(status) => Err(status),
        },
        Event::Ended { .. } | Event::Trapped { .. } => Ok(false),
    }
}

/// So many steps of a machine, and the lines of the words that it puts out, each as it comes.
fn put_words<O: Out>(
    alloc: Global,
    out: &mut O,
    descr: &Description,
    machine: &mut Machine,
    steps: u64,
) -> Result<(), Status>
    requires valid { IsValid descr.now }
    requires made { IsMachineOf descr.now machine.old }
    requires running { machine.old.ending ≡ None }
    ensures words { OnOk result (PutsWords (machine_process descr.now) machine.old machine.new steps
        (output_of (O.pieces out.old) (O.faults out.old)) (output_of (O.pieces out.new) (O.faults out.new))) }
    ensures stops { IfErr result (StopsWords (machine_process descr.now) machine.old steps
        (output_of (O.pieces out.old) (O.faults out.old)) (output_of (O.pieces out.new) (O.faults out.new))) }
    ensures counts { CountsPutFaults result (O.faults out.old) (O.faults out.new) }
{
    some_outcome();
    let mut cache = DecodeCache::new(alloc);
    for _step in 0..steps {
        match put_step(alloc, out, descr, &mut cache, machine) {
            Ok(true) => {}
            Ok(false) => return Ok(()),
            Err(status) => return Err(status),
        }
    }
    Ok(())
}

/// So many steps of a machine, and its lines: one for each word that it puts out, as it comes, and then how it stands.
pub(crate) fn show_run<O: Out>(
    alloc: Global,
    out: &mut O,
    descr: &Description,
    machine: &mut Machine,
    steps: u64,
) -> Status
    requires valid { IsValid descr.now }
    requires made { IsMachineOf descr.now machine.old }
    requires running { machine.old.ending ≡ None }
    ensures run { PutsRun (machine_process descr.now) machine.old steps
        (output_of (O.pieces out.old) (O.faults out.old)) (output_of (O.pieces out.new) (O.faults out.new)) result }
    ensures counts { CountsOutFaults result (O.faults out.old) (O.faults out.new) }
{
    if let Err(status) = put_words(alloc, out, descr, machine, steps) {
        return status;
    }
    let line = match ending_line(alloc, machine.state().ending) {
        Ok(line) => line,
        Err(_) => return Status::NoMemory,
    };
    match put_line(alloc, out, line.as_bytes()) {
        Ok(()) => Status::Done,
        Err(status) => status,
    }
}

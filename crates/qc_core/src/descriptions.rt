//! Descriptions from the two texts that the first files of a command are: that of a machine, and that of its coding.
ghost use Rattle.std.specs.Prelude.{◌≡◌, ◌≤◌, length, IfOk, IfErr, IfSome};
ghost use Rattle.qc_command.specs.Command.{texts_of};
ghost use Rattle.qc_descr.specs.Parts.{AreParts};
ghost use Rattle.qc_descr.specs.Valid.{IsValid};
ghost use Rattle.qc_core.specs.Inner.Reading.{ReadsFiles, StopsFor};
ghost use Rattle.qc_core.specs.Texts.{IsCodingFault, IsMachineFault, MeansDescription, MeansMachine};
ghost use Rattle.qc_core.specs.Texts.{description_reading, fault_of_text, machine_reading};

use crate::answer::{Fault, Status};
use crate::inputs::read_file;
use qc_descr::Description;
use qc_grammar::{ReadTextEnd, ReadTextFault};
use qc_join::{JoinEnd, join};
use qc_lrtl::read_lrtl;
use qc_outside::Shelf;
use qc_sled::read_sled;
use qc_widths::{Machine, WidthEnd, elaborate};
use std::alloc::Global;

/// The number of the machine's text among the files.
const MACHINE: usize = 1;

/// The number of the coding's text among the files.
const CODING: usize = 2;

/// The fault of the file of this number, which is no text of its grammar.
fn text_fault(file: usize, fault: ReadTextFault) -> Fault
    ensures { result ≡ fault_of_text file fault }
{
    match fault {
        ReadTextFault::BadByte { at } => Fault::BadByte { file, at },
        ReadTextFault::Syntax { token } => Fault::Syntax { file, token },
        ReadTextFault::TooDeep { token } => Fault::TooDeep { file, token },
    }
}

/// The machine of a text.
pub(crate) fn machine_in(alloc: Global, bytes: &[u8]) -> Result<Machine, Status>
    ensures machine { IfOk result (MeansMachine bytes.now) }
    ensures parts { IfOk result (λ machine. AreParts machine.name machine.given machine.spaces machine.operations) }
    ensures stops { IfErr result (StopsFor (IsMachineFault 1 bytes.now)) }
{
    match read_lrtl(alloc, bytes) {
        Ok(raw) => match elaborate(alloc, &raw) {
            Ok(machine) => Ok(machine),
            Err(WidthEnd::Fault { fault }) => Err(Status::Refused {
                fault: Fault::Names { fault },
            }),
            Err(WidthEnd::NoMemory) => Err(Status::NoMemory),
        },
        Err(ReadTextEnd::Fault { fault }) => Err(Status::Refused {
            fault: text_fault(MACHINE, fault),
        }),
        Err(ReadTextEnd::NoMemory) => Err(Status::NoMemory),
    }
}

/// The description of a machine and a coding's text.
pub(crate) fn description_in(
    alloc: Global,
    machine: Machine,
    bytes: &[u8],
) -> Result<Description, Status>
    requires { AreParts machine.name machine.given machine.spaces machine.operations }
    ensures description { IfOk result (MeansDescription machine bytes.now) }
    ensures valid { IfOk result IsValid }
    ensures stops { IfErr result (StopsFor (IsCodingFault machine 2 bytes.now)) }
{
    match read_sled(alloc, bytes) {
        Ok(raw) => match join(alloc, machine, &raw) {
            Ok(descr) => Ok(descr),
            Err(JoinEnd::Fault { fault }) => Err(Status::Refused {
                fault: Fault::Join { fault },
            }),
            Err(JoinEnd::NoMemory) => Err(Status::NoMemory),
        },
        Err(ReadTextEnd::Fault { fault }) => Err(Status::Refused {
            fault: text_fault(CODING, fault),
        }),
        Err(ReadTextEnd::NoMemory) => Err(Status::NoMemory),
    }
}

/// The machine of the first file.
fn read_machine<S: Shelf>(alloc: Global, names: &[String], shelf: &mut S) -> Result<Machine, Status>
    requires { 1 ≤ length names.now }
    ensures reads { ReadsFiles (machine_reading (texts_of names.now)) (λ machine. machine) result
        (S.files shelf.old) (S.files shelf.new) (S.faults shelf.old) (S.faults shelf.new) }
    ensures parts { IfOk result (λ machine. AreParts machine.name machine.given machine.spaces machine.operations) }
{
    match read_file(alloc, names, shelf, MACHINE) {
        Ok(bytes) => machine_in(alloc, bytes.as_slice()),
        Err(status) => Err(status),
    }
}

/// The description of a machine, which the first file is, and of the second file.
fn read_coding<S: Shelf>(
    alloc: Global,
    names: &[String],
    shelf: &mut S,
    machine: Machine,
) -> Result<Description, Status>
    requires two { 2 ≤ length names.now }
    requires parts { AreParts machine.name machine.given machine.spaces machine.operations }
    requires read { IfSome (S.files shelf.old) (λ files. (machine_reading (texts_of names.now)).Means files machine) }
    ensures reads { ReadsFiles (description_reading (texts_of names.now)) (λ descr. descr) result
        (S.files shelf.old) (S.files shelf.new) (S.faults shelf.old) (S.faults shelf.new) }
    ensures valid { IfOk result IsValid }
{
    match read_file(alloc, names, shelf, CODING) {
        Ok(bytes) => description_in(alloc, machine, bytes.as_slice()),
        Err(status) => Err(status),
    }
}

/// The description that the first two files of a command make. The second is read once the first is a machine.
pub(crate) fn read_description<S: Shelf>(
    alloc: Global,
    names: &[String],
    shelf: &mut S,
) -> Result<Description, Status>
    requires { 2 ≤ length names.now }
    ensures reads { ReadsFiles (description_reading (texts_of names.now)) (λ descr. descr) result
        (S.files shelf.old) (S.files shelf.new) (S.faults shelf.old) (S.faults shelf.new) }
    ensures valid { IfOk result IsValid }
{
    match read_machine(alloc, names, shelf) {
        Ok(machine) => read_coding(alloc, names, shelf, machine),
        Err(status) => Err(status),
    }
}

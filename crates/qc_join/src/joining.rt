//! Descriptions from a machine and a coding's text.
ghost use Rattle.std.specs.Prelude.{◌≡◌, IfOk};
ghost use Rattle.qc_descr.specs.Making.{AnswersParts, AreWholeParts};
ghost use Rattle.qc_descr.specs.Parts.{AreParts};
ghost use Rattle.qc_descr.specs.Valid.{IsValid};
ghost use Rattle.qc_join.specs.Faults.{fault_of_name};
ghost use Rattle.qc_join.specs.Joining.{Joins, JoinsParts, parts_of};

use crate::faults::{JoinEnd, JoinFault, NameFault};
use crate::laws::parts_are_whole;
use crate::name_faults::name_fault;
use crate::sketches::sketches;
use qc_descr::{DescrEnd, Description, Parts};
use qc_sled::RawCoding;
use qc_widths::Machine;
use std::alloc::{AllocError, Global};

impl From<AllocError> for JoinEnd {
    ghost use Rattle.std.specs.Prelude.{◌≡◌};
    ghost use Rattle.qc_join.specs.declared.faults.JoinEnd.TheVariants.{NoMemory};

    ghost from_gives = { λ _ e. e ≡ NoMemory };

    fn from(_: AllocError) -> JoinEnd {
        JoinEnd::NoMemory
    }
}

/// A fault among names as one of the text.
fn fault_of_name(fault: NameFault) -> JoinFault
    ensures { result ≡ fault_of_name fault }
{
    match fault {
        NameFault::Unknown { token } => JoinFault::UnknownName { token },
        NameFault::Twice { token } => JoinFault::TwiceNamed { token },
    }
}

/// The description of parts, or what is wrong with them.
fn described(alloc: Global, parts: Parts) -> Result<Description, JoinEnd>
    requires { AreWholeParts parts }
    ensures answer { JoinsParts parts result }
    ensures valid { IfOk result IsValid }
{
    match Description::new(alloc, parts) {
        Ok(description) => Ok(description),
        Err(DescrEnd::NoMemory) => Err(JoinEnd::NoMemory),
        Err(DescrEnd::Fault { fault }) => Err(JoinEnd::Fault {
            fault: JoinFault::Descr { fault },
        }),
    }
}

/// The description of a machine whose codings are those of a text without faults among names.
fn coded(alloc: Global, machine: Machine, coding: &RawCoding) -> Result<Description, JoinEnd>
    requires { AreParts machine.name machine.given machine.spaces machine.operations }
    ensures answer { JoinsParts (parts_of machine coding.now.items) result }
    ensures valid { IfOk result IsValid }
{
    parts_are_whole();
    let sketches = sketches(alloc, &machine, coding.items.as_slice())?;
    let Machine {
        name,
        given,
        spaces,
        operations,
    } = machine;
    described(
        alloc,
        Parts {
            name,
            given,
            spaces,
            operations,
            sketches,
        },
    )
}

/// The description of a machine whose codings are those of the text, or the fault that is reported: one among names, else
/// that of the description.
pub fn join(alloc: Global, machine: Machine, coding: &RawCoding) -> Result<Description, JoinEnd>
    requires { AreParts machine.name machine.given machine.spaces machine.operations }
    ensures answer { Joins machine coding.now result }
    ensures valid { IfOk result IsValid }
{
    let operations = machine.operations.as_slice();
    match name_fault(alloc, machine.name.bytes(), operations, coding)? {
        Some(fault) => Err(JoinEnd::Fault {
            fault: fault_of_name(fault),
        }),
        None => coded(alloc, machine, coding),
    }
}

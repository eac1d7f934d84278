//! Machines from their texts.
ghost use Rattle.std.specs.Prelude.{◌≡◌, map, None, IfOk};
ghost use Rattle.qc_widths.specs.TextFaults.{faults_of};
ghost use Rattle.qc_descr.specs.Parts.{AreParts};
ghost use Rattle.qc_lrtl.specs.Named.{AreNamed};
ghost use Rattle.qc_facts.specs.Facts.{facts_in};
ghost use Rattle.qc_resolve.specs.Declarations.{signatures_in};
ghost use Rattle.qc_facts.specs.Faults.{reported};
ghost use Rattle.qc_widths.specs.Machine.{Elaborates, machine_of};
ghost use Rattle.qc_widths.specs.Inner.Elaboration.{OperationsUnless, faults_in_items, operations_in};
ghost use Rattle.qc_resolve.specs.FunctionTables.{IsTableOf};
ghost use Rattle.qc_resolve.specs.KeptSignatures.{summary};

use crate::context::Context;
use crate::given::{given, spaces_given};
use crate::machine::Machine;
use crate::progress::{Progress, elaborate_items};
use crate::repeated::second_names;
use qc_descr::Operation;
use qc_facts::{Facts, WidthEnd, WidthFault};
use qc_lrtl::{Item, RawMachine};
use qc_names::earlier;
use qc_resolve::{Functions, Signature, declared_signatures};
use qc_text::Text;
use sqlite_items::Items;
use std::alloc::{AllocError, Global};

/// The fault that is reported of all items, and their operations, which are whole where no fault is reported.
fn fault_with_functions<'a>(
    alloc: Global,
    facts: &'a Facts,
    items: &'a [Item],
    functions: &'a Functions,
    signatures: &'a [Signature],
) -> Result<(Option<WidthFault>, Items<Operation>), AllocError>
    requires facts { facts.now ≡ facts_in items.now }
    requires functions { IsTableOf items.now functions.now }
    requires signatures { signatures.now ≡ map summary (signatures_in facts.now items.now) }
    ensures fault { IfOk result (λ r. r.0 ≡ reported (faults_in_items items.now)) }
    ensures operations { IfOk result (λ r. OperationsUnless r.0 r.1 (operations_in items.now)) }
{
    let context = Context {
        facts,
        items,
        functions,
        signatures,
    };
    let second = second_names(alloc, items)?;
    let Progress {
        fault,
        operations,
        ..
    } = elaborate_items(alloc, &context)?;
    Ok((earlier(second, fault), operations))
}

/// The same, with the functions that the items declare.
fn fault_and_operations<'a>(
    alloc: Global,
    facts: &'a Facts,
    items: &'a [Item],
) -> Result<(Option<WidthFault>, Items<Operation>), AllocError>
    requires { facts.now ≡ facts_in items.now }
    ensures fault { IfOk result (λ r. r.0 ≡ reported (faults_in_items items.now)) }
    ensures operations { IfOk result (λ r. OperationsUnless r.0 r.1 (operations_in items.now)) }
{
    match Functions::new(alloc, items) {
        Err(error) => Err(error),
        Ok(functions) => {
            let signatures = declared_signatures(alloc, facts, items, &functions)?;
            fault_with_functions(alloc, facts, items, &functions, signatures.as_slice())
        }
    }
}

/// The machine of a text without a fault.
fn machine(
    alloc: Global,
    raw: &RawMachine,
    facts: &Facts,
    operations: Items<Operation>,
) -> Result<Machine, AllocError>
    requires facts { facts.now ≡ facts_in raw.now.items }
    requires operations { operations ≡ operations_in raw.now.items }
    requires fault { reported (faults_of raw.now) ≡ None }
    ensures { IfOk result (λ machine. machine ≡ machine_of raw.now) }
{
    Ok(Machine {
        name: Text::new(alloc, raw.name.text.as_slice())?,
        given: given(facts, raw.items.as_slice()),
        spaces: spaces_given(alloc, facts)?,
        operations,
    })
}

/// The machine that a text means, or the fault that is reported of it.
pub fn elaborate(alloc: Global, raw: &RawMachine) -> Result<Machine, WidthEnd>
    requires named { AreNamed raw.now }
    ensures answer { Elaborates raw.now result }
    ensures keeps { IfOk result (λ machine. AreParts machine.name machine.given machine.spaces machine.operations) }
{
    let items = raw.items.as_slice();
    let facts = Facts::new(alloc, items)?;
    let (fault, operations) = fault_and_operations(alloc, &facts, items)?;
    match fault {
        Some(fault) => Err(WidthEnd::Fault { fault }),
        None => Ok(machine(alloc, raw, &facts, operations)?),
    }
}

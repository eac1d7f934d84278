//! All items, one after the other.
ghost use Rattle.std.specs.Prelude.{◌≡◌, ◌++◌, ◌≤◌, ◌<◌, ◌^◌, [], length, IfOk, OnOk};
ghost use Rattle.std.specs.List.{flat_map};
ghost use Rattle.std.specs.Option.{option_to_list};
ghost use Rattle.qc_facts.specs.Faults.{reported, reported_of_both};
ghost use Rattle.qc_widths.specs.Inner.Elaboration.{IsContext, OperationsUnless, all_signatures, counts_behind};
ghost use Rattle.qc_widths.specs.Inner.Elaboration.{faults_of_item, operations_of_item, faults_of_items};

use crate::context::Context;
use crate::items::{Counts, elaborate_item};
use qc_descr::Operation;
use qc_facts::WidthFault;
use qc_lrtl::Item;
use qc_names::earlier;
use sqlite_items::Items;
use std::alloc::{AllocError, Global};

/// What is known behind some items: their counts, the fault that is reported of them, and their operations, which are whole
/// while no fault is reported.
#[derive(Debug, Drop)]
pub(crate) struct Progress {
    pub counts: Counts,
    pub fault: Option<WidthFault>,
    pub operations: Items<Operation>,
}

fn counts_after(counts: Counts, item: &Item) -> Counts
    requires functions { counts.functions < 2 ^ 63 }
    requires instructions { counts.instructions < 2 ^ 63 }
    requires spaces { counts.spaces < 2 ^ 63 }
    ensures { result ≡ counts_behind counts item.now }
{
    let mut counts = counts;
    match item {
        Item::Function { .. } | Item::Effects { .. } => counts.functions += 1,
        Item::Instruction { .. } => counts.instructions += 1,
        Item::Space { .. } => counts.spaces += 1,
        _ => {}
    }
    counts
}

/// Adds an operation, if there is one.
fn add_operation(
    operations: &mut Items<Operation>,
    operation: Option<Operation>,
) -> Result<(), AllocError>
    ensures { OnOk result (operations.new ≡ operations.old ++ option_to_list operation) }
{
    match operation {
        None => Ok(()),
        Some(operation) => operations.push(operation),
    }
}

/// Goes on behind one more item.
fn advance(
    alloc: Global,
    context: &Context<'_>,
    progress: Progress,
    item: &Item,
) -> Result<Progress, AllocError>
    requires context { IsContext context.now }
    requires level { progress.counts.functions ≤ length (all_signatures context.now) }
    requires functions { progress.counts.functions < 2 ^ 63 }
    requires instructions { progress.counts.instructions < 2 ^ 63 }
    requires spaces { progress.counts.spaces < 2 ^ 63 }
    ensures counts { IfOk result (λ r. r.counts ≡ counts_behind progress.counts item.now) }
    ensures fault { IfOk result (λ r. r.fault
        ≡ reported_of_both progress.fault (reported (faults_of_item context.now progress.counts item.now))) }
    ensures operations { IfOk result (λ r. OperationsUnless r.fault r.operations
        (progress.operations ++ operations_of_item context.now item.now)) }
{
    let Progress {
        counts,
        fault,
        operations,
    } = progress;
    let mut operations = operations;
    let outcome = elaborate_item(alloc, context, counts, item)?;
    let fault = earlier(fault, outcome.fault);
    if fault.is_none() {
        add_operation(&mut operations, outcome.operation)?;
    }
    Ok(Progress {
        counts: counts_after(counts, item),
        fault,
        operations,
    })
}

/// The operations that the items declare, and the fault that is reported of them but for names that stand twice.
pub(crate) fn elaborate_items(alloc: Global, context: &Context<'_>) -> Result<Progress, AllocError>
    requires { IsContext context.now }
    ensures fault { IfOk result (λ r. r.fault ≡ reported (faults_of_items context.now)) }
    ensures operations { IfOk result (λ r. OperationsUnless r.fault r.operations
        (flat_map (operations_of_item context.now) context.now.items.now)) }
{
    let items = context.items;
    let mut progress = Progress {
        counts: Counts {
            functions: 0,
            instructions: 0,
            spaces: 0,
        },
        fault: None,
        operations: Items::new(alloc),
    };
    for item in items {
        progress = advance(alloc, context, progress, item)?;
    }
    Ok(progress)
}

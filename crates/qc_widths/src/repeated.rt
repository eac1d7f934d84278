//! Names that repeat one of the same text.
ghost use Rattle.std.specs.Prelude.{◌≡◌, [], map, None, IfOk, OnOk};
ghost use Rattle.std.specs.List.{flat_map};
ghost use Rattle.std.specs.Option.{option_copied, option_to_list};
ghost use Rattle.qc_widths.specs.TextFaults.{repeated_after, single_item, number_of_single, second_singles};
ghost use Rattle.qc_widths.specs.TextFaults.{params_faults, repeated as repeated_names};
ghost use Rattle.qc_widths.specs.TextFaults.{second_declarations as all_second_declarations};
ghost use Rattle.qc_names.specs.Tables.{HasNames};
ghost use Rattle.qc_facts.specs.Faults.{reported};
ghost use Rattle.qc_widths.specs.Inner.Repeated.{known_names, names_of, noted_all, single_name};

use qc_facts::{WidthFault, operator_names};
use qc_grammar::Ident;
use qc_lrtl::{Item, Operand, Param};
use qc_names::{Seen, earlier};
use qc_resolve::name_of_function;
use std::alloc::{AllocError, Global};

/// The kinds of names that a text declares, each of which may stand once.
#[derive(Clone, Copy, Debug, PartialEq, Eq)]
pub(crate) enum Kind {
    Space,
    Function,
    Instruction,
}

/// The sorts of items each of which may stand once.
#[derive(Clone, Copy, Debug, PartialEq, Eq)]
pub(crate) enum Single {
    Word,
    ByteOrder,
    Align,
    SlotBits,
    Memory,
    Code,
    Data,
    Zero,
    Frame,
    Link,
    Allocatable,
}

/// The token of an item that may stand once, and its sort.
fn single_of(item: &Item) -> Option<(usize, Single)>
    ensures { option_to_list result ≡ single_item item.now }
{
    match item {
        Item::Word { token, .. } => Some((*token, Single::Word)),
        Item::ByteOrder { token, .. } => Some((*token, Single::ByteOrder)),
        Item::Align { token, .. } => Some((*token, Single::Align)),
        Item::SlotBits { token, .. } => Some((*token, Single::SlotBits)),
        Item::Memory { token, .. } => Some((*token, Single::Memory)),
        Item::Code { token, .. } => Some((*token, Single::Code)),
        Item::Data { token, .. } => Some((*token, Single::Data)),
        Item::Zero { token, .. } => Some((*token, Single::Zero)),
        Item::Frame { token, .. } => Some((*token, Single::Frame)),
        Item::Link { token, .. } => Some((*token, Single::Link)),
        Item::Allocatable { token, .. } => Some((*token, Single::Allocatable)),
        _ => None,
    }
}

/// The place of a sort among all of them.
fn number_of(single: Single) -> u8
    ensures { result ≡ number_of_single single }
{
    match single {
        Single::Word => 0,
        Single::ByteOrder => 1,
        Single::Align => 2,
        Single::SlotBits => 3,
        Single::Memory => 4,
        Single::Code => 5,
        Single::Data => 6,
        Single::Zero => 7,
        Single::Frame => 8,
        Single::Link => 9,
        Single::Allocatable => 10,
    }
}

/// Sees an item that may stand once, by the number of its sort.
fn see_single(alloc: Global, seen: &mut Seen<WidthFault>, item: &Item) -> Result<(), AllocError>
    ensures { OnOk result (seen.new ≡ noted_all seen.old (single_name item.now)) }
{
    match single_of(item) {
        None => Ok(()),
        Some((token, single)) => seen.see_text(alloc, token, &[number_of(single)]),
    }
}

/// The fault of the items that repeat a sort.
fn second_single(alloc: Global, items: &[Item]) -> Result<Option<WidthFault>, AllocError>
    ensures { IfOk result (λ r. r ≡ reported (second_singles [] (flat_map single_item items.now))) }
{
    let mut seen = Seen::new(alloc);
    for item in items {
        see_single(alloc, &mut seen, item)?;
    }
    Ok(seen.fault)
}

/// The name of a kind that an item declares.
fn name_of(kind: Kind, item: &Item) -> Option<&Ident>
    ensures { option_to_list (option_copied result) ≡ names_of kind item.now }
{
    match kind {
        Kind::Space => match item {
            Item::Space { name, .. } => Some(name),
            _ => None,
        },
        Kind::Function => name_of_function(item),
        Kind::Instruction => match item {
            Item::Instruction { name, .. } => Some(name),
            _ => None,
        },
    }
}

/// What was seen before the names of a kind: operators before functions.
fn seen_before(alloc: Global, kind: Kind) -> Result<Seen<WidthFault>, AllocError>
    ensures names { IfOk result (λ seen. HasNames seen.names (known_names kind)) }
    ensures fault { IfOk result (λ seen. seen.fault ≡ None) }
{
    match kind {
        Kind::Function => Ok(Seen {
            names: operator_names(alloc)?,
            fault: None,
        }),
        Kind::Space | Kind::Instruction => Ok(Seen::new(alloc)),
    }
}

fn see_item(
    alloc: Global,
    seen: &mut Seen<WidthFault>,
    kind: Kind,
    item: &Item,
) -> Result<(), AllocError>
    ensures { OnOk result (seen.new ≡ noted_all seen.old (names_of kind item.now)) }
{
    match name_of(kind, item) {
        None => Ok(()),
        Some(name) => seen.see(alloc, name),
    }
}

/// The fault of the names of a kind.
fn second_name(alloc: Global, kind: Kind, items: &[Item]) -> Result<Option<WidthFault>, AllocError>
    ensures { IfOk result (λ r. r ≡ reported (repeated_after (known_names kind) (flat_map (names_of kind) items.now))) }
{
    let mut seen = seen_before(alloc, kind)?;
    for item in items {
        see_item(alloc, &mut seen, kind, item)?;
    }
    Ok(seen.fault)
}

/// The fault of the names that stand twice.
pub(crate) fn second_names(alloc: Global, items: &[Item]) -> Result<Option<WidthFault>, AllocError>
    ensures { IfOk result (λ r. r ≡ reported (all_second_declarations items.now)) }
{
    let single = second_single(alloc, items)?;
    let spaces = second_name(alloc, Kind::Space, items)?;
    let functions = second_name(alloc, Kind::Function, items)?;
    let instructions = second_name(alloc, Kind::Instruction, items)?;
    Ok(earlier(single, earlier(spaces, earlier(functions, instructions))))
}

/// The fault of the names of parameters.
pub(crate) fn params_fault(
    alloc: Global,
    params: &[Param],
) -> Result<Option<WidthFault>, AllocError>
    ensures { IfOk result (λ r. r ≡ reported (params_faults params.now)) }
{
    let mut seen = Seen::new(alloc);
    for param in params {
        seen.see(alloc, &param.name)?;
    }
    Ok(seen.fault)
}

/// The fault of the names of operands.
pub(crate) fn operand_names_fault(
    alloc: Global,
    operands: &[Operand],
) -> Result<Option<WidthFault>, AllocError>
    ensures { IfOk result (λ r. r ≡ reported (repeated_names (map (λ o. o.name) operands.now))) }
{
    let mut seen = Seen::new(alloc);
    for operand in operands {
        seen.see(alloc, &operand.name)?;
    }
    Ok(seen.fault)
}

//! The faults of whole texts among names.
ghost use Rattle.std.specs.Prelude.{◌≡◌, ◌++◌, [], map, OnOk, IfOk};
ghost use Rattle.std.specs.List.{flat_map};
ghost use Rattle.qc_names.specs.Seen.{texts_of};
ghost use Rattle.qc_names.specs.Tables.{names_in, HasNames};
ghost use Rattle.qc_join.specs.Faults.{reported};
ghost use Rattle.qc_join.specs.Names.{pattern_names, field_names, second_names, pattern_faults, item_faults, items_faults, repeats, name_faults};
ghost use Rattle.qc_join.specs.Inner.KeptNames.{names_of, constructor_faults};

use crate::faults::NameFault;
use crate::names::{Tables, pattern_fault, use_fault};
use crate::seen::{Kind, seen_in_items, seen_in_params};
use qc_descr::Operation;
use qc_grammar::Ident;
use qc_names::{NameTable, earlier, known_or};
use qc_sled::{Item, Param, Pattern, RawCoding};
use std::alloc::{AllocError, Global};

/// The names that an item may use, a table for each kind.
#[derive(Clone, Copy)]
struct Known<'a> {
    operations: &'a NameTable,
    fields: &'a NameTable,
    patterns: &'a NameTable,
}

/// The fault of a body without operands.
fn body_fault(alloc: Global, known: &Known<'_>, body: &Pattern) -> Option<NameFault>
    ensures { result ≡ reported (pattern_faults body.now (record {
      fields = names_in known.now.fields.now;
      patterns = names_in known.now.patterns.now;
      operands = [];
    })) }
{
    let operands = NameTable::new(alloc);
    let names = Tables {
        fields: known.fields,
        patterns: known.patterns,
        operands: &operands,
    };
    pattern_fault(&names, body)
}

/// The fault of a constructor, whose parameters are the operands of its body.
fn constructor_fault(
    alloc: Global,
    known: &Known<'_>,
    name: &Ident,
    params: &[Param],
    body: &Pattern,
) -> Result<Option<NameFault>, AllocError>
    ensures { IfOk result (λ fault. fault ≡ reported (constructor_faults (names_in known.now.operations.now) (record {
      fields = names_in known.now.fields.now;
      patterns = names_in known.now.patterns.now;
      operands = map (λ p. p.name.text) params.now;
    }) name.now params.now body.now)) }
{
    let operands = seen_in_params(alloc, params)?;
    let names = Tables {
        fields: known.fields,
        patterns: known.patterns,
        operands: &operands.names,
    };
    let inner = earlier(operands.fault, pattern_fault(&names, body));
    Ok(earlier(use_fault(known.operations, name), inner))
}

/// The fault of an item's own names.
fn item_fault(
    alloc: Global,
    known: &Known<'_>,
    item: &Item,
) -> Result<Option<NameFault>, AllocError>
    ensures { IfOk result (λ fault. fault ≡ reported (item_faults (names_in known.now.operations.now)
        (names_in known.now.fields.now) (names_in known.now.patterns.now) item.now)) }
{
    match item {
        Item::Fields { .. } => Ok(None),
        Item::Pattern { body, .. } => Ok(body_fault(alloc, known, body)),
        Item::Constructor {
            name,
            params,
            body,
            ..
        } => constructor_fault(alloc, known, name, params.as_slice(), body),
    }
}

/// Enters the name of an item that is a pattern.
fn enter_pattern(alloc: Global, patterns: &mut NameTable, item: &Item) -> Result<(), AllocError>
    ensures { OnOk result
        (HasNames patterns.new (names_in patterns.old ++ texts_of (pattern_names item.now))) }
{
    match item {
        Item::Pattern { name, .. } => {
            patterns.enter(alloc, name.text.as_slice(), 0)?;
        }
        Item::Fields { .. } | Item::Constructor { .. } => {}
    }
    Ok(())
}

/// The fault of items, each of which may use the patterns before it.
fn items_fault(
    alloc: Global,
    operations: &NameTable,
    fields: &NameTable,
    items: &[Item],
) -> Result<Option<NameFault>, AllocError>
    ensures { IfOk result (λ fault. fault
        ≡ reported (items_faults (names_in operations.now) (names_in fields.now) [] items.now)) }
{
    let mut patterns = NameTable::new(alloc);
    let mut found = None;
    for item in items {
        let known = Known {
            operations,
            fields,
            patterns: &patterns,
        };
        found = earlier(found, item_fault(alloc, &known, item)?);
        enter_pattern(alloc, &mut patterns, item)?;
    }
    Ok(found)
}

/// The fault of the second declarations of a kind.
fn second_name(alloc: Global, kind: Kind, items: &[Item]) -> Result<Option<NameFault>, AllocError>
    ensures { IfOk result (λ fault. fault ≡ reported (second_names [] (flat_map (names_of kind) items.now))) }
{
    let seen = seen_in_items(alloc, kind, items)?;
    Ok(seen.fault)
}

/// The fault of all second declarations, by that of fields.
fn repeat_fault(
    alloc: Global,
    fields: Option<NameFault>,
    items: &[Item],
) -> Result<Option<NameFault>, AllocError>
    requires { fields ≡ reported (second_names [] (flat_map field_names items.now)) }
    ensures { IfOk result (λ fault. fault ≡ reported (repeats items.now)) }
{
    let tokens = second_name(alloc, Kind::Token, items)?;
    let patterns = second_name(alloc, Kind::Pattern, items)?;
    let constructors = second_name(alloc, Kind::Constructor, items)?;
    Ok(earlier(tokens, earlier(fields, earlier(patterns, constructors))))
}

/// The fault of all items among operations of the names in a table.
fn fault_of_items(
    alloc: Global,
    operations: &NameTable,
    items: &[Item],
) -> Result<Option<NameFault>, AllocError>
    ensures { IfOk result (λ fault. fault ≡ reported (repeats items.now
        ++ items_faults (names_in operations.now) (texts_of (flat_map field_names items.now)) [] items.now)) }
{
    let fields = seen_in_items(alloc, Kind::Field, items)?;
    let repeated = repeat_fault(alloc, fields.fault, items)?;
    let uses = items_fault(alloc, operations, &fields.names, items)?;
    Ok(earlier(repeated, uses))
}

/// The names of operations.
fn operation_names(alloc: Global, operations: &[Operation]) -> Result<NameTable, AllocError>
    ensures { IfOk result (λ names. HasNames names (map (λ o. o.name) operations.now)) }
{
    let mut names = NameTable::new(alloc);
    for operation in operations {
        names.enter(alloc, operation.name.bytes(), 0)?;
    }
    Ok(names)
}

/// The fault that is reported of a text, for a machine of this name with these operations.
pub(crate) fn name_fault(
    alloc: Global,
    machine: &[u8],
    operations: &[Operation],
    raw: &RawCoding,
) -> Result<Option<NameFault>, AllocError>
    ensures { IfOk result (λ fault. fault
        ≡ reported (name_faults machine.now (map (λ o. o.name) operations.now) raw.now)) }
{
    let known = operation_names(alloc, operations)?;
    let items = fault_of_items(alloc, &known, raw.items.as_slice())?;
    let own = known_or(*raw.name.text.as_slice() == *machine, raw.name.token);
    Ok(earlier(own, items))
}

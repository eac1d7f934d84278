//! The fields of a coding's text.
ghost use Rattle.std.specs.Prelude.{◌++◌, [], ◌∷◌, List, ℕ, IfOk, OnOk};
ghost use Rattle.qc_join.specs.declared.expanded.FieldPlace.{FieldPlace as SpecFieldPlace};
ghost use Rattle.qc_join.specs.Expansion.{places_of, fields_from, fields_of};
ghost use Rattle.qc_names.specs.ValueTables.{IsTableOf};

use crate::expanded::FieldPlace;
use qc_names::Declared;
use qc_sled::{Field, Item};
use std::alloc::{AllocError, Global};

/// Declares the fields of the item of this number, whose token has so many bits.
fn declare_fields(
    alloc: Global,
    table: &mut Declared<FieldPlace>,
    declaration: usize,
    bits: u128,
    fields: &[Field],
) -> Result<(), AllocError>
    ensures { OnOk result ((pairs : List (List ℕ × SpecFieldPlace)) → IsTableOf pairs table.old.values table.old.numbers
        → IsTableOf (pairs ++ places_of declaration bits fields.now) table.new.values table.new.numbers) }
{
    for field in fields {
        let place = FieldPlace {
            declaration,
            bits,
            high: field.high.value,
            low: field.low.value,
        };
        table.push(alloc, field.name.text.as_slice(), place)?;
    }
    Ok(())
}

/// Declares the fields of the item of this number, if it has some.
fn declare_fields_of(
    alloc: Global,
    table: &mut Declared<FieldPlace>,
    number: usize,
    item: &Item,
) -> Result<(), AllocError>
    ensures { OnOk result ((pairs : List (List ℕ × SpecFieldPlace)) → IsTableOf pairs table.old.values table.old.numbers
        → IsTableOf (pairs ++ fields_from number (item.now ∷ [])) table.new.values table.new.numbers) }
{
    match item {
        Item::Fields { bits, fields, .. } => {
            declare_fields(alloc, table, number, bits.value, fields.as_slice())
        }
        Item::Pattern { .. } | Item::Constructor { .. } => Ok(()),
    }
}

/// The table of all fields of the items.
pub(crate) fn fields(alloc: Global, items: &[Item]) -> Result<Declared<FieldPlace>, AllocError>
    ensures { IfOk result (λ table. IsTableOf (fields_of items.now) table.values table.numbers) }
{
    let mut table = Declared::new(alloc);
    for number in 0..items.len() {
        declare_fields_of(alloc, &mut table, number, &items[number])?;
    }
    Ok(table)
}

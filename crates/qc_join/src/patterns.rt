//! The patterns of a coding's text.
ghost use Rattle.std.specs.Prelude.{◌≡◌, ◌++◌, [], List, ℕ, IfOk, OnOk};
ghost use Rattle.qc_join.specs.declared.expanded.Expanded.{Expanded as SpecExpanded};
ghost use Rattle.qc_join.specs.declared.expanded.FieldPlace.{FieldPlace as SpecFieldPlace};
ghost use Rattle.qc_join.specs.Expansion.{Scope, expanded, fields_of, patterns_in, patterns_of};
ghost use Rattle.qc_names.specs.ValueTables.{IsTableOf};

use crate::expand::expanded;
use crate::expanded::{Expanded, FieldPlace};
use crate::scope::ScopeTables;
use qc_names::Declared;
use qc_sled::{Item, Pattern};
use std::alloc::{AllocError, Global};

/// What a pattern comes to where names stand for what these tables have.
pub(crate) fn expanded_with(
    alloc: Global,
    fields: &Declared<FieldPlace>,
    patterns: &Declared<Expanded>,
    operands: &Declared<(u32, Option<u8>)>,
    pattern: &Pattern,
) -> Result<Expanded, AllocError>
    ensures { IfOk result (λ e. (spec : Scope) → IsTableOf spec.fields fields.now.values fields.now.numbers
        → IsTableOf spec.patterns patterns.now.values patterns.now.numbers
        → IsTableOf spec.operands operands.now.values operands.now.numbers
        → e ≡ expanded pattern.now spec) }
{
    let scope = ScopeTables {
        fields,
        patterns,
        operands,
    };
    expanded(alloc, &scope, pattern)
}

/// Declares an item's pattern, if it is one, behind those before it.
fn declare_pattern(
    alloc: Global,
    fields: &Declared<FieldPlace>,
    operands: &Declared<(u32, Option<u8>)>,
    table: &mut Declared<Expanded>,
    item: &Item,
) -> Result<(), AllocError>
    requires { IsTableOf [] operands.now.values operands.now.numbers }
    ensures { OnOk result ((names : List (List ℕ × SpecFieldPlace)) (pairs : List (List ℕ × SpecExpanded))
        → IsTableOf names fields.now.values fields.now.numbers
        → IsTableOf pairs table.old.values table.old.numbers
        → IsTableOf (pairs ++ patterns_in names pairs item.now) table.new.values table.new.numbers) }
{
    match item {
        Item::Pattern { name, body, .. } => {
            let pattern = expanded_with(alloc, fields, table, operands, body)?;
            table.push(alloc, name.text.as_slice(), pattern)
        }
        Item::Fields { .. } | Item::Constructor { .. } => Ok(()),
    }
}

/// The table of all patterns of the items with what each comes to.
pub(crate) fn patterns(
    alloc: Global,
    items: &[Item],
    fields: &Declared<FieldPlace>,
) -> Result<Declared<Expanded>, AllocError>
    requires { IsTableOf (fields_of items.now) fields.now.values fields.now.numbers }
    ensures { IfOk result (λ table. IsTableOf (patterns_of items.now) table.values table.numbers) }
{
    let operands = Declared::new(alloc);
    let mut table = Declared::new(alloc);
    for item in items {
        declare_pattern(alloc, fields, &operands, &mut table, item)?;
    }
    Ok(table)
}

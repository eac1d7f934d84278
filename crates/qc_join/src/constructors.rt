//! The constructors of a coding's text.
ghost use Rattle.std.specs.Prelude.{◌≡◌, ◌++◌, [], ◌∷◌, List, ℕ, IfOk, OnOk};
ghost use Rattle.std.specs.List.{flat_map};
ghost use Rattle.std.specs.Option.{option_copied};
ghost use Rattle.qc_join.specs.Inner.Constructors.{constructor_of, constructor_places};
ghost use Rattle.qc_names.specs.ValueTables.{IsTableOf};
ghost use Rattle.qc_names.specs.Tables.{named};
ghost use Rattle.qc_join.specs.Joining.{constructors_in};

use qc_names::Declared;
use qc_sled::Item;
use std::alloc::{AllocError, Global};

/// Declares the item of this number, if it is a constructor.
fn declare_constructor(
    alloc: Global,
    table: &mut Declared<usize>,
    number: usize,
    item: &Item,
) -> Result<(), AllocError>
    ensures { OnOk result ((pairs : List (List ℕ × ℕ)) → IsTableOf pairs table.old.values table.old.numbers
        → IsTableOf (pairs ++ constructor_places number (item.now ∷ [])) table.new.values table.new.numbers) }
{
    match item {
        Item::Constructor { name, .. } => table.push(alloc, name.text.as_slice(), number),
        Item::Fields { .. } | Item::Pattern { .. } => Ok(()),
    }
}

/// The table of the places of all constructors among the items.
pub(crate) fn constructors(alloc: Global, items: &[Item]) -> Result<Declared<usize>, AllocError>
    ensures { IfOk result (λ table. IsTableOf (constructor_places 0 items.now) table.values table.numbers) }
{
    let mut table = Declared::new(alloc);
    for number in 0..items.len() {
        declare_constructor(alloc, &mut table, number, &items[number])?;
    }
    Ok(table)
}

/// The item that is the first constructor of a name.
pub(crate) fn constructor_named<'a>(
    items: &'a [Item],
    table: &Declared<usize>,
    name: &[u8],
) -> Option<&'a Item>
    requires { IsTableOf (constructor_places 0 items.now) table.now.values table.now.numbers }
    ensures { constructor_of (option_copied result) ≡ named (flat_map constructors_in items.now) name.now }
{
    match table.get(name) {
        Some(number) => items.get(*number),
        None => None,
    }
}

//! The symbol table of functions and named effects.
ghost use Rattle.std.specs.Prelude.{◌≡◌, ◌<◌, ◌+◌, length, OnOk};
ghost use Rattle.std.specs.Option.{option_copied, option_to_list};
ghost use Rattle.qc_resolve.specs.Declarations.{function_name};
ghost use Rattle.qc_resolve.specs.Inner.Numbering.{HasFirst};

use qc_grammar::Ident;
use qc_lrtl::Item;
use qc_names::NameTable;
use sqlite_items::{Items, at};
use std::alloc::{AllocError, Global};

/// The places among the items of functions and named effects, in order, with a table of their names.
#[derive(Debug, Drop)]
pub struct Functions {
    declared: Items<usize>,
    numbers: NameTable,
}

/// The name of a function or of named effects.
pub fn name_of_function(item: &Item) -> Option<&Ident>
    ensures { option_to_list (option_copied result) ≡ function_name item.now }
{
    match item {
        Item::Function { name, .. } | Item::Effects { name, .. } => Some(name),
        _ => None,
    }
}

/// Adds the item at a place, if it is a function or named effects.
fn declare(
    alloc: Global,
    declared: &mut Items<usize>,
    numbers: &mut NameTable,
    items: &[Item],
    place: usize,
) -> Result<(), AllocError>
    requires place { place < length items.now }
    requires first { HasFirst items.now place declared.old numbers.old }
    ensures { OnOk result (HasFirst items.now (place + 1) declared.new numbers.new) }
{
    match name_of_function(&items[place]) {
        None => Ok(()),
        Some(name) => {
            numbers.enter(alloc, name.text.as_slice(), declared.len())?;
            declared.push(place)
        }
    }
}

impl Functions {
    ghost use Rattle.std.specs.Prelude.{◌≡◌, ◌<◌, Some, length, slice_get, IfOk};
    ghost use Rattle.qc_resolve.specs.Declarations.{function_items, place_of_function};
    ghost use Rattle.qc_resolve.specs.FunctionTables.{IsTableOf};

    /// The functions and named effects that the items declare.
    pub fn new(alloc: Global, items: &[Item]) -> Result<Functions, AllocError>
        ensures { IfOk result (λ functions. IsTableOf items.now functions) }
    {
        let mut declared = Items::new(alloc);
        let mut numbers = NameTable::new(alloc);
        for place in 0..items.len() {
            declare(alloc, &mut declared, &mut numbers, items, place)?;
        }
        Ok(Functions { declared, numbers })
    }

    /// The number of the first function or named effects of a name.
    pub fn find(&self, items: &[Item], name: &[u8]) -> Option<usize>
        requires { IsTableOf items.now self.now }
        ensures { result ≡ place_of_function items.now name.now }
    {
        self.numbers.number(name)
    }

    /// The function or named effects of a number.
    pub fn item<'a>(&self, items: &'a [Item], number: usize) -> &'a Item
        requires table { IsTableOf items.now self.now }
        requires within { number < length (function_items items.now) }
        ensures { slice_get (function_items items.now) number ≡ Some result.now }
    {
        match at(items, self.declared.as_slice()[number]) {
            Some(item) => item,
            None => unreachable!(),
        }
    }

    /// How many there are.
    pub fn count(&self, items: &[Item]) -> usize
        requires { IsTableOf items.now self.now }
        ensures { result ≡ length (function_items items.now) }
    {
        self.declared.len()
    }
}

//! Tables of what names stand for.
ghost use Rattle.std.specs.Prelude.{◌≡◌, List, ℕ, [], ◌∷◌, ◌++◌, IfOk, OnOk};
ghost use Rattle.std.specs.Option.{option_copied};
ghost use Rattle.qc_names.specs.Tables.{named};
ghost use Rattle.qc_names.specs.ValueTables.{IsTableOf};

use crate::laws::entered_names_have_their_places;
use crate::name_table::NameTable;
use sqlite_items::Items;
use std::alloc::{AllocError, Global};

/// Values, each declared by a name, and of each name the place of the first value.
#[derive(Debug, Drop)]
pub struct Declared<T> {
    pub values: Items<T>,
    pub numbers: NameTable,
}

impl<T: Drop> Declared<T> {
    /// A table of no names.
    pub fn new(alloc: Global) -> Declared<T>
        ensures { IsTableOf [] result.values result.numbers }
    {
        Declared {
            values: Items::new(alloc),
            numbers: NameTable::new(alloc),
        }
    }

    /// Declares a name with what it stands for. Where it is there, the first declaration counts.
    pub fn push(&mut self, alloc: Global, name: &[u8], value: T) -> Result<(), AllocError>
        ensures { OnOk result ((pairs : List (List ℕ × T)) → IsTableOf pairs self.old.values self.old.numbers
            → IsTableOf (pairs ++ (name.now, value) ∷ []) self.new.values self.new.numbers) }
    {
        entered_names_have_their_places();
        self.numbers.enter(alloc, name, self.values.len())?;
        self.values.push(value)?;
        Ok(())
    }
}

impl<T> Declared<T> {
    /// What a name stands for.
    pub fn get(&self, name: &[u8]) -> Option<&T>
        ensures { (pairs : List (List ℕ × T)) → IsTableOf pairs self.now.values self.now.numbers
            → option_copied result ≡ named pairs name.now }
    {
        match self.numbers.number(name) {
            Some(number) => self.values.get(number),
            None => None,
        }
    }
}

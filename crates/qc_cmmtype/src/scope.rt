//! What a program is checked for, and what its names stand for.
ghost use Rattle.std.specs.Prelude.{◌≡◌};
ghost use Rattle.std.specs.Option.{option_copied};
ghost use Rattle.qc_cmmtype.specs.Scopes as scopes;
ghost use Rattle.qc_cmmtype.specs.Expressions as spec;
ghost use Rattle.qc_cmmtype.specs.Tables.{globals_at, scope_at, looked_up};

use qc_names::{Declared, NameTable};
use qc_terms::Order;
use qc_words::Width;
use sqlite_items::Items;

/// What a program knows of a machine: the width of words, their byte order, and the first address of the data region and
/// the one after its last.
#[derive(Clone, Copy, Debug, PartialEq, Eq)]
pub struct Ground {
    pub word: Width,
    pub order: Order,
    pub data_start: u64,
    pub data_end: u64,
}

/// The widths of a procedure's parameters, and how many results its calls have.
#[derive(Debug, Drop)]
pub struct Signature {
    pub params: Items<Width>,
    pub results: usize,
}

/// What a program declares for all its procedures.
#[derive(Debug, Drop)]
pub struct Globals {
    pub word: Width,
    pub procedures: Declared<Signature>,
    pub data_names: NameTable,
}

/// What the names in a procedure's body stand for, and how many results its returns have.
#[derive(Clone, Copy)]
pub struct Scope<'a> {
    pub globals: &'a Globals,
    pub variables: &'a Declared<Width>,
    pub labels: &'a NameTable,
    pub results: usize,
}

/// The procedure of a name.
pub fn callee_in<'a>(globals: &'a Globals, name: &[u8]) -> Option<&'a Signature>
    ensures { option_copied result ≡ (globals_at globals.now).callee name.now }
{
    match globals.procedures.numbers.number(name) {
        Some(number) => globals.procedures.values.get(number),
        None => None,
    }
}

/// Whether a name is that of a procedure or of data.
pub fn is_global(globals: &Globals, name: &[u8]) -> bool
    ensures { result ≡ scopes.is_global (globals_at globals.now) name.now }
{
    globals.data_names.number(name).is_some() || callee_in(globals, name).is_some()
}

/// The width of a parameter or variable.
pub fn variable_in(variables: &Declared<Width>, name: &[u8]) -> Option<Width>
    ensures { result ≡ looked_up variables.now.values variables.now.numbers name.now }
{
    match variables.numbers.number(name) {
        Some(number) => variables.values.get(number).copied(),
        None => None,
    }
}

/// The width of the value that a name has in an expression.
pub fn width_of_name(scope: &Scope<'_>, name: &[u8]) -> Option<Width>
    ensures { result ≡ spec.width_of_name (scope_at scope.now) name.now }
{
    match variable_in(scope.variables, name) {
        Some(width) => Some(width),
        None => {
            if scope.globals.data_names.number(name).is_some() {
                Some(scope.globals.word)
            } else {
                None
            }
        }
    }
}

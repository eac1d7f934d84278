//! What names stand for in a body, without what that comes to.
ghost use Rattle.std.specs.Prelude.{◌≡◌, ℕ, cond, false, true, is_some, map};
ghost use Rattle.std.specs.List.{list_all};
ghost use Rattle.std.specs.Option.{option_map};
ghost use Rattle.qc_resolve.specs.Scopes as scopes;
ghost use Rattle.qc_resolve.specs.KeptSignatures.{signature_like};
ghost use Rattle.qc_named.specs.Standing as stands;
ghost use Rattle.qc_named.specs.Inner.Scopes.{IsSettled, kept_of, standing_at};

use qc_facts::OperandFacts;
use qc_names::Declared;
use qc_resolve::{Names, Signature};
use sqlite_items::at;

/// What a name of a body itself is: a parameter that is a value, or one that is a function of so many values, each by its
/// number among those of its sort, or an operand by its number.
#[derive(Clone, Copy, Debug, PartialEq, Eq)]
pub enum Own {
    Value { number: usize },
    Function { number: usize, arity: u128 },
    Operand { number: u32, facts: OperandFacts },
}

fn all_plain(params: &[Option<u128>]) -> bool
    ensures { result ≡ list_all (λ p. cond (is_some p) false true) params.now }
{
    for param in params {
        if param.is_some() {
            return false;
        }
    }
    true
}

/// A function of so many plain arguments.
pub(crate) fn is_plain(signature: &Signature, arity: u128) -> bool
    ensures { result ≡ scopes.is_plain (signature_like signature.now) arity }
{
    !signature.effects
        && signature.params.len() as u128 == arity
        && all_plain(signature.params.as_slice())
}

/// A function, or named effects, with so many parameters.
pub(crate) fn takes(effects: bool, signature: &Signature, count: usize) -> bool
    ensures { result ≡ scopes.takes effects (signature_like signature.now) count }
{
    signature.effects == effects && signature.params.len() == count
}

/// Where the names of a body are looked up, its own ones in a table.
#[derive(Clone, Copy)]
pub(crate) struct Scope<'a> {
    pub names: Names<'a>,
    pub own: &'a Declared<Own>,
}

/// What a name of the body itself is.
pub(crate) fn own_in(scope: &Scope<'_>, name: &[u8]) -> Option<Own>
    requires { IsSettled scope.now }
    ensures { result ≡ stands.own_in (standing_at scope.now.names) name.now }
{
    scope.own.get(name).copied()
}

/// The first function or named effects of a name that may be used, with its number.
pub(crate) fn placed_in<'a>(scope: &Scope<'a>, name: &[u8]) -> Option<(usize, &'a Signature)>
    requires { IsSettled scope.now }
    ensures { option_map (λ p. (p.0, p.1.now)) result
        ≡ kept_of (stands.placed_in (standing_at scope.now.names) name.now) }
{
    match scope.names.functions.find(scope.names.items, name) {
        None => None,
        Some(place) => match at(scope.names.signatures, place) {
            None => None,
            Some(signature) => Some((place, signature)),
        },
    }
}

//! The expansion of patterns.
ghost use Rattle.std.specs.Prelude.{◌≡◌, ◌<◌, [], ◌∷◌, length, drop, IfOk};
ghost use Rattle.std.specs.Option.{option_copied, IfSome};
ghost use Rattle.qc_names.specs.Tables.{named};
ghost use Rattle.qc_join.specs.Alternatives.{all_joined, joined, joined_with, one_of};
ghost use Rattle.qc_join.specs.Expansion.{Scope, expanded, pattern_named, field_equal};
ghost use Rattle.qc_join.specs.Inner.Expanding.{IsScopeOf, all_expanded};

use crate::alternative::{conjoined, copied, sequenced};
use crate::expanded::{Expanded, Joint};
use crate::scope::ScopeTables;
use crate::values::field_equal;
use qc_grammar::Ident;
use qc_sled::{Pattern, Value};
use std::alloc::{AllocError, Global};

/// What the pattern of a name came to.
fn named_pattern(
    alloc: Global,
    scope: &ScopeTables<'_>,
    name: &Ident,
) -> Result<Expanded, AllocError>
    ensures { IfOk result (λ e. (spec : Scope) → IsScopeOf scope.now spec
        → e ≡ pattern_named (named spec.patterns name.now.text)) }
{
    match scope.patterns.get(name.text.as_slice()) {
        None => Ok(Expanded::Unfit),
        Some(used) => copied(alloc, used),
    }
}

/// The name of which a pattern consists, if it is nothing else.
#[tactic(auto, using(crate::proofs::Parts::expanding))]
#[cycle(names)]
fn name_alone(pattern: &Pattern) -> Option<&Ident>
    ensures { IfSome (option_copied result) (λ name. (spec : Scope)
        → expanded pattern.now spec ≡ pattern_named (named spec.patterns name.text)) }
{
    match pattern {
        Pattern::Name { name } => Some(name),
        Pattern::Equal { .. } => None,
        Pattern::Group { token: _, inner } => name_alone(inner.get()),
        Pattern::Conjunction { parts } => name_of_only(parts.as_slice()),
        Pattern::Sequence { parts } => name_of_only(parts.as_slice()),
        Pattern::Alternatives { parts } => name_of_only(parts.as_slice()),
    }
}

/// The same of the only part.
#[tactic(auto, using(crate::proofs::Parts::expanding))]
#[cycle(names)]
fn name_of_only(parts: &[Pattern]) -> Option<&Ident>
    ensures { IfSome (option_copied result) (λ name. (spec : Scope)
        → all_expanded spec parts.now ≡ pattern_named (named spec.patterns name.text) ∷ []) }
{
    match parts {
        [part] => name_alone(part),
        _ => None,
    }
}

/// A field of this name that is equal to a value.
fn named_field(
    alloc: Global,
    scope: &ScopeTables<'_>,
    field: &Ident,
    value: &Value,
) -> Result<Expanded, AllocError>
    ensures { IfOk result (λ e. (spec : Scope) → IsScopeOf scope.now spec
        → e ≡ field_equal spec (named spec.fields field.now.text) value.now) }
{
    match scope.fields.get(field.text.as_slice()) {
        None => Ok(Expanded::Unfit),
        Some(place) => field_equal(alloc, scope, *place, value),
    }
}

/// Two patterns that are put together.
fn joined(
    alloc: Global,
    how: Joint,
    first: Expanded,
    second: &Expanded,
) -> Result<Expanded, AllocError>
    ensures { IfOk result (λ e. e ≡ joined how first second.now) }
{
    match how {
        Joint::AtOnce => conjoined(alloc, first, second),
        Joint::InTurn => sequenced(alloc, first, second),
    }
}

/// A pattern and one more that are put together. One that only names a pattern is not copied.
#[tactic(auto, using(crate::proofs::Parts::expanding))]
#[cycle(expanding)]
fn joined_part(
    alloc: Global,
    scope: &ScopeTables<'_>,
    how: Joint,
    first: Expanded,
    part: &Pattern,
) -> Result<Expanded, AllocError>
    ensures { IfOk result (λ e. (spec : Scope) → IsScopeOf scope.now spec
        → e ≡ joined how first (expanded part.now spec)) }
{
    match name_alone(part) {
        Some(name) => match scope.patterns.get(name.text.as_slice()) {
            Some(used) => joined(alloc, how, first, used),
            None => joined(alloc, how, first, &Expanded::Unfit),
        },
        None => {
            let second = expanded(alloc, scope, part)?;
            joined(alloc, how, first, &second)
        }
    }
}

/// The first pattern, expanded, with all parts after it.
#[tactic(auto, using(crate::proofs::Parts::expanding))]
#[cycle(expanding)]
fn joined_parts(
    alloc: Global,
    scope: &ScopeTables<'_>,
    how: Joint,
    first: Expanded,
    parts: &[Pattern],
) -> Result<Expanded, AllocError>
    requires { 0 < length parts.now }
    ensures { IfOk result (λ e. (spec : Scope) → IsScopeOf scope.now spec
        → e ≡ joined_with how first (all_expanded spec (drop 1 parts.now))) }
{
    let mut whole = first;
    for place in 1..parts.len() {
        whole = joined_part(alloc, scope, how, whole, &parts[place])?;
    }
    Ok(whole)
}

/// All parts put together.
#[tactic(auto, using(crate::proofs::Parts::expanding))]
#[cycle(expanding)]
fn all_joined(
    alloc: Global,
    scope: &ScopeTables<'_>,
    how: Joint,
    parts: &[Pattern],
) -> Result<Expanded, AllocError>
    ensures { IfOk result (λ e. (spec : Scope) → IsScopeOf scope.now spec
        → e ≡ all_joined how (all_expanded spec parts.now)) }
{
    if parts.is_empty() {
        return Ok(Expanded::Unfit);
    }
    let first = expanded(alloc, scope, &parts[0])?;
    joined_parts(alloc, scope, how, first, parts)
}

/// One of the parts. Of two or more none is looked at.
#[tactic(auto, using(crate::proofs::Parts::expanding))]
#[cycle(expanding)]
fn choice(alloc: Global, scope: &ScopeTables<'_>, parts: &[Pattern]) -> Result<Expanded, AllocError>
    ensures { IfOk result (λ e. (spec : Scope) → IsScopeOf scope.now spec
        → e ≡ one_of (all_expanded spec parts.now)) }
{
    match parts {
        [] => Ok(Expanded::Unfit),
        [part] => expanded(alloc, scope, part),
        _ => Ok(Expanded::Several),
    }
}

/// What a pattern comes to where names stand for what the tables have.
#[tactic(auto, using(crate::proofs::Parts::expanding))]
#[cycle(expanding)]
pub(crate) fn expanded(
    alloc: Global,
    scope: &ScopeTables<'_>,
    pattern: &Pattern,
) -> Result<Expanded, AllocError>
    ensures { IfOk result (λ e. (spec : Scope) → IsScopeOf scope.now spec → e ≡ expanded pattern.now spec) }
{
    match pattern {
        Pattern::Name { name } => named_pattern(alloc, scope, name),
        Pattern::Equal { field, value } => named_field(alloc, scope, field, value.get()),
        Pattern::Group { token: _, inner } => expanded(alloc, scope, inner.get()),
        Pattern::Conjunction { parts } => all_joined(alloc, scope, Joint::AtOnce, parts.as_slice()),
        Pattern::Sequence { parts } => all_joined(alloc, scope, Joint::InTurn, parts.as_slice()),
        Pattern::Alternatives { parts } => choice(alloc, scope, parts.as_slice()),
    }
}

//! The faults of patterns among names.
ghost use Rattle.std.specs.Prelude.{◌≡◌};
ghost use Rattle.std.specs.List.{flat_map};
ghost use Rattle.qc_names.specs.Tables.{names_in, is_among};
ghost use Rattle.qc_join.specs.Faults.{reported};
ghost use Rattle.qc_join.specs.Names.{unknown_unless, value_faults, pattern_faults};
ghost use Rattle.qc_join.specs.Inner.KeptNames.{names_at};

use crate::faults::NameFault;
use qc_grammar::Ident;
use qc_names::{NameTable, earlier, known_or};
use qc_sled::{Pattern, Value};

/// The names that a pattern may use, a table for each kind.
#[derive(Clone, Copy)]
pub(crate) struct Tables<'a> {
    pub(crate) fields: &'a NameTable,
    pub(crate) patterns: &'a NameTable,
    pub(crate) operands: &'a NameTable,
}

/// Whether a table has a name.
#[tactic(auto, using(qc_names::specs::Law::Tables::names_known))]
fn is_known(names: &NameTable, name: &[u8]) -> bool
    ensures { result ≡ is_among (names_in names.now) name.now }
{
    names.number(name).is_some()
}

/// The fault of a use of a name that is to be in a table.
pub(crate) fn use_fault(names: &NameTable, name: &Ident) -> Option<NameFault>
    ensures { result ≡ reported (unknown_unless (is_among (names_in names.now) name.now.text) name.now.token) }
{
    known_or(is_known(names, name.text.as_slice()), name.token)
}

/// The fault of what a field is to be.
fn value_fault(names: &Tables<'_>, value: &Value) -> Option<NameFault>
    ensures { result ≡ reported (value_faults (names_at names.now) value.now) }
{
    match value {
        Value::Number { .. } => None,
        Value::Operand { name } | Value::Bits { name, .. } => use_fault(names.operands, name),
    }
}

/// The fault of a pattern that may use these names.
#[tactic(auto, using(crate::proofs::PatternFaults::faults))]
#[cycle(patterns)]
pub(crate) fn pattern_fault(names: &Tables<'_>, pattern: &Pattern) -> Option<NameFault>
    ensures { result ≡ reported (pattern_faults pattern.now (names_at names.now)) }
{
    match pattern {
        Pattern::Name { name } => use_fault(names.patterns, name),
        Pattern::Equal { field, value } => earlier(
            use_fault(names.fields, field),
            value_fault(names, value.get()),
        ),
        Pattern::Group { inner, .. } => pattern_fault(names, inner.get()),
        Pattern::Conjunction { parts }
        | Pattern::Sequence { parts }
        | Pattern::Alternatives { parts } => parts_fault(names, parts.as_slice()),
    }
}

/// The fault of the parts of a pattern.
#[tactic(auto, using(qc_names::specs::Law::Reported::reported_parts))]
#[cycle(patterns)]
fn parts_fault(names: &Tables<'_>, parts: &[Pattern]) -> Option<NameFault>
    ensures { result ≡ reported (flat_map (λ p. pattern_faults p (names_at names.now)) parts.now) }
{
    let mut found = None;
    for part in parts {
        found = earlier(found, pattern_fault(names, part));
    }
    found
}

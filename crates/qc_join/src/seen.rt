//! Second declarations among names of one kind.
ghost use Rattle.std.specs.Prelude.{◌≡◌, map, OnOk, IfOk};
ghost use Rattle.std.specs.List.{flat_map};
ghost use Rattle.qc_names.specs.Seen.{none_seen};
ghost use Rattle.qc_join.specs.Inner.KeptNames.{names_of, noted_all};

use crate::faults::NameFault;
use qc_names::Seen;
use qc_sled::{Field, Item, Param};
use std::alloc::{AllocError, Global};

/// The kinds of names that items declare, each of which may stand once.
#[derive(Clone, Copy, Debug, PartialEq, Eq)]
pub(crate) enum Kind {
    Token,
    Field,
    Pattern,
    Constructor,
}

/// Sees the names of fields.
fn see_fields(alloc: Global, seen: &mut Seen<NameFault>, fields: &[Field]) -> Result<(), AllocError>
    ensures { OnOk result (seen.new ≡ noted_all seen.old (map (λ f. f.name) fields.now)) }
{
    for field in fields {
        seen.see(alloc, &field.name)?;
    }
    Ok(())
}

/// Sees the names of a kind that an item declares.
fn see_item(
    alloc: Global,
    seen: &mut Seen<NameFault>,
    kind: Kind,
    item: &Item,
) -> Result<(), AllocError>
    ensures { OnOk result (seen.new ≡ noted_all seen.old (names_of kind item.now)) }
{
    match (kind, item) {
        (Kind::Field, Item::Fields { fields, .. }) => see_fields(alloc, seen, fields.as_slice()),
        (Kind::Token, Item::Fields { name, .. })
        | (Kind::Pattern, Item::Pattern { name, .. })
        | (Kind::Constructor, Item::Constructor { name, .. }) => seen.see(alloc, name),
        _ => Ok(()),
    }
}

/// The names of a kind that items declare.
pub(crate) fn seen_in_items(
    alloc: Global,
    kind: Kind,
    items: &[Item],
) -> Result<Seen<NameFault>, AllocError>
    ensures { IfOk result (λ seen. seen ≡ noted_all none_seen (flat_map (names_of kind) items.now)) }
{
    let mut seen = Seen::new(alloc);
    for item in items {
        see_item(alloc, &mut seen, kind, item)?;
    }
    Ok(seen)
}

/// The names of parameters.
pub(crate) fn seen_in_params(alloc: Global, params: &[Param]) -> Result<Seen<NameFault>, AllocError>
    ensures { IfOk result (λ seen. seen ≡ noted_all none_seen (map (λ p. p.name) params.now)) }
{
    let mut seen = Seen::new(alloc);
    for param in params {
        seen.see(alloc, &param.name)?;
    }
    Ok(seen)
}

//! The places of terms.
ghost use Rattle.std.specs.Prelude.{◌≡◌, ◌<◌, ◌++◌, ◌∷◌, [], length, IfOk, OnOk};
ghost use Rattle.qc_pool.specs.Nodes.{term_at};
ghost use Rattle.qc_rewrite.specs.Inner.Places.{places_from};

use qc_pool::{Node, Pool, TermId};
use sqlite_items::Items;
use std::alloc::{AllocError, Global};

/// The way to a part of what the way leads to.
fn below(alloc: Global, way: &[u32], number: u32) -> Result<Items<u32>, AllocError>
    ensures { IfOk result (λ longer. longer ≡ way.now ++ number ∷ []) }
{
    let mut longer = Items::from_slice(alloc, way)?;
    longer.push(number)?;
    Ok(longer)
}

/// Puts the places of a term behind those in the list, each after the way to the term.
fn put_places(
    alloc: Global,
    pool: &Pool,
    id: TermId,
    way: &[u32],
    places: &mut Items<Items<u32>>,
) -> Result<(), AllocError>
    requires { id < length pool.now }
    ensures { OnOk result (places.new ≡ places.old ++ places_from way.now (term_at pool.now id)) }
{
    places.push(Items::from_slice(alloc, way)?)?;
    match &pool.node(id) {
        Node::Un { arg, .. } => {
            let first = below(alloc, way, 0)?;
            put_places(alloc, pool, *arg, first.as_slice(), places)
        }
        Node::Bin { left, right, .. } => {
            let first = below(alloc, way, 0)?;
            put_places(alloc, pool, *left, first.as_slice(), places)?;
            let second = below(alloc, way, 1)?;
            put_places(alloc, pool, *right, second.as_slice(), places)
        }
        Node::Mem { address, .. } => {
            let first = below(alloc, way, 0)?;
            put_places(alloc, pool, *address, first.as_slice(), places)
        }
        _ => Ok(()),
    }
}

/// The places of a term.
pub(crate) fn places(
    alloc: Global,
    pool: &Pool,
    id: TermId,
) -> Result<Items<Items<u32>>, AllocError>
    requires { id < length pool.now }
    ensures { IfOk result (λ places. places ≡ places_from [] (term_at pool.now id)) }
{
    let mut places = Items::new(alloc);
    put_places(alloc, pool, id, &[], &mut places)?;
    Ok(places)
}

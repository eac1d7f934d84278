//! All terms that steps lead to.
ghost use Rattle.std.specs.Prelude.{ℕ, List, ◌≡◌, ◌<◌, ◌≤◌, length, IfOk, OnOk, OnErr, [], slice_index_or};
ghost use Rattle.qc_terms.specs.Tree.{Tree};
ghost use Rattle.qc_equations.specs.declared.names.Law.{Law as AntLaw};
ghost use Rattle.qc_pool.specs.Nodes.{term_at};
ghost use Rattle.qc_pool.specs.Regions.{Keeps};
ghost use Rattle.qc_rewrite.specs.Closure.{IsClosure, traces_of};
ghost use Rattle.qc_rewrite.specs.Inner.Growing.{Covers, Grows, IsSearch, trace_at};
ghost use Rattle.qc_rewrite.specs.Closure.{AreThere};
ghost use Rattle.qc_rewrite.specs.Inner.Tables.{IsTable, traces_in};

use crate::place::rewrite_at;
use crate::places::places;
use crate::table::Table;
use qc_laws::{LAWS, Law, Step};
use qc_pool::{Pool, TermId};
use sqlite_items::Items;
use std::alloc::{AllocError, Global};

/// Adds what a law makes of a term of the table at a place.
fn try_law(
    alloc: Global,
    pool: &mut Pool,
    table: &mut Table,
    at: usize,
    law: Law,
    place: &[u32],
) -> Result<(), AllocError>
    requires at { at < length table.old.found.items }
    requires table { IsTable pool.old table.old }
    ensures kept { Keeps pool.old pool.new }
    ensures table { OnOk result (IsTable pool.new table.new) }
    ensures grown { OnOk result (Grows (trace_at (traces_in pool.old table.old) at) (traces_in pool.old table.old) (traces_in pool.new table.new)) }
    ensures covered { OnOk result (Covers (traces_in pool.new table.new) (trace_at (traces_in pool.old table.old) at) law place.now) }
{
    match rewrite_at(pool, law, table.term(at), place)? {
        None => Ok(()),
        Some(given) => {
            let _count = pool.len();
            table.add(alloc, at, given, law, place)?;
            Ok(())
        }
    }
}

/// Adds what each law makes of a term of the table at a place.
fn try_laws(
    alloc: Global,
    pool: &mut Pool,
    table: &mut Table,
    at: usize,
    place: &[u32],
) -> Result<(), AllocError>
    requires at { at < length table.old.found.items }
    requires table { IsTable pool.old table.old }
    ensures kept { Keeps pool.old pool.new }
    ensures table { OnOk result (IsTable pool.new table.new) }
    ensures grown { OnOk result (Grows (trace_at (traces_in pool.old table.old) at) (traces_in pool.old table.old) (traces_in pool.new table.new)) }
    ensures covered { OnOk result ((law : AntLaw) → Covers (traces_in pool.new table.new) (trace_at (traces_in pool.old table.old) at) law place.now) }
{
    for law in &LAWS {
        try_law(alloc, pool, table, at, *law, place)?;
    }
    Ok(())
}

/// Adds what each law makes of a term of the table at each of its places.
fn expand(alloc: Global, pool: &mut Pool, table: &mut Table, at: usize) -> Result<(), AllocError>
    requires at { at < length table.old.found.items }
    requires table { IsTable pool.old table.old }
    ensures kept { Keeps pool.old pool.new }
    ensures table { OnOk result (IsTable pool.new table.new) }
    ensures grown { OnOk result (Grows (trace_at (traces_in pool.old table.old) at) (traces_in pool.old table.old) (traces_in pool.new table.new)) }
    ensures covered { OnOk result ((law : AntLaw) (place : List ℕ) → Covers (traces_in pool.new table.new) (trace_at (traces_in pool.old table.old) at) law place) }
{
    let places = places(alloc, pool, table.term(at))?;
    for place in places.as_slice() {
        try_laws(alloc, pool, table, at, place.as_slice())?;
    }
    Ok(())
}

/// Adds what each law makes of the terms of the table from one index up to another.
fn expand_all(
    alloc: Global,
    pool: &mut Pool,
    table: &mut Table,
    next: usize,
    edge: usize,
) -> Result<(), AllocError>
    requires next { next ≤ edge }
    requires edge { edge ≤ length table.old.found.items }
    requires table { IsTable pool.old table.old }
    ensures kept { Keeps pool.old pool.new }
    ensures table { OnOk result (IsTable pool.new table.new) }
    ensures longer { OnOk result (length table.old.found.items ≤ length table.new.found.items) }
    ensures searched { OnOk result ((t : Tree) (round : ℕ) → IsSearch t round next edge (traces_in pool.old table.old) → IsSearch t round edge edge (traces_in pool.new table.new)) }
{
    for at in next..edge {
        expand(alloc, pool, table, at)?;
    }
    Ok(())
}

/// `closure`, which leaves in the pool what it had added where memory is refused.
fn closure_within(
    alloc: Global,
    pool: &mut Pool,
    id: TermId,
    steps: u32,
) -> Result<Vec<(TermId, Items<Step>)>, AllocError>
    requires { id < length pool.old }
    ensures there { IfOk result (λ found. AreThere pool.new found.items) }
    ensures closed { IfOk result (λ found. IsClosure (term_at pool.old id) steps (traces_of pool.new found.items)) }
    ensures kept { Keeps pool.old pool.new }
{
    let mut table = Table::new(alloc, id)?;
    let mut next = 0;
    for _round in 0..steps {
        let edge = table.found.len();
        expand_all(alloc, pool, &mut table, next, edge)?;
        next = edge;
    }
    let Table { found, .. } = table;
    Ok(found)
}

/// All terms that at most so many steps make of a term, each step a law at a place. Each of them is there once, with the
/// steps of a shortest way to it, and those with shorter ways come first: so the term itself, with none. All terms of the
/// pool keep their ids. Where memory is refused nothing changes.
///
/// The search goes breadth first, in rounds: the n-th round adds what one more step makes of the terms of the one before.
pub fn closure(
    alloc: Global,
    pool: &mut Pool,
    id: TermId,
    steps: u32,
) -> Result<Vec<(TermId, Items<Step>)>, AllocError>
    requires { id < length pool.old }
    ensures there { IfOk result (λ found. AreThere pool.new found.items) }
    ensures closed { IfOk result (λ found. IsClosure (term_at pool.old id) steps (traces_of pool.new found.items)) }
    ensures kept { Keeps pool.old pool.new }
    ensures refused { OnErr result (pool.new ≡ pool.old) }
{
    let mark = pool.mark();
    match closure_within(alloc, pool, id, steps) {
        Ok(found) => Ok(found),
        Err(refused) => {
            pool.release(mark);
            Err(refused)
        }
    }
}

//! Terms that steps led to, each once, with its path.
ghost use Rattle.std.specs.Prelude.{◌≡◌, ◌<◌, ◌++◌, ◌∷◌, [], length, slice_index_or, slice_get, IfOk, OnOk, Some};
ghost use Rattle.qc_rewrite.specs.Inner.Tables.{AreMatched, IsFound, IsNoted, found_at};

use indexmap::IndexSet;
use qc_laws::{Law, Step};
use qc_pool::TermId;
use sqlite_items::Items;
use std::alloc::{AllocError, Global};

/// Terms with their paths, and the numbers of these terms.
#[derive(Drop)]
pub(crate) struct Table {
    pub(crate) found: Vec<(TermId, Items<Step>)>,
    pub(crate) seen: IndexSet<usize>,
}

/// Puts a number into the set. The answer is whether it is a new one.
fn note(seen: &mut IndexSet<usize>, number: usize) -> Result<bool, AllocError>
    ensures { IfOk result (λ fresh. IsNoted seen.old.keys seen.new.keys number fresh) }
{
    match seen.insert_full(number) {
        Ok((_, fresh)) => Ok(fresh),
        Err(_) => Err(AllocError),
    }
}

/// A path with one more step.
fn longer(alloc: Global, path: &[Step], law: Law, place: &[u32]) -> Result<Items<Step>, AllocError>
    ensures { IfOk result (λ more. more ≡ path.now ++ record { law = law; place = place.now } ∷ []) }
{
    let mut more = Items::new(alloc);
    for step in path {
        more.push(Step {
            law: step.law,
            place: Items::from_slice(alloc, step.place.as_slice())?,
        })?;
    }
    more.push(Step {
        law,
        place: Items::from_slice(alloc, place)?,
    })?;
    Ok(more)
}

impl Table {
    /// One term, with no steps.
    pub(crate) fn new(alloc: Global, id: TermId) -> Result<Table, AllocError>
        ensures found { IfOk result (λ table. table.found.items ≡ (id, []) ∷ []) }
        ensures matched { IfOk result (λ table. AreMatched table.seen.keys table.found.items) }
    {
        let mut seen = IndexSet::new(alloc);
        let _ = note(&mut seen, id.number())?;
        let mut found = Vec::new(alloc);
        found.push((id, Items::new(alloc)))?;
        Ok(Table { found, seen })
    }

    /// The term at an index.
    pub(crate) fn term(&self, at: usize) -> TermId
        requires { at < length self.now.found.items }
        ensures { result ≡ (found_at self.now.found.items at).0 }
    {
        self.found[at].0
    }

    /// Puts a term behind the others, unless it is there, with the path at an index and one more step.
    pub(crate) fn add(
        &mut self,
        alloc: Global,
        at: usize,
        id: TermId,
        law: Law,
        place: &[u32],
    ) -> Result<(), AllocError>
        requires at { at < length self.old.found.items }
        requires matched { AreMatched self.old.seen.keys self.old.found.items }
        ensures found { OnOk result (IsFound self.old.found.items self.new.found.items id ((found_at self.old.found.items at).1 ++ record { law = law; place = place.now } ∷ [])) }
        ensures matched { OnOk result (AreMatched self.new.seen.keys self.new.found.items) }
    {
        let fresh = note(&mut self.seen, id.number())?;
        if !fresh {
            return Ok(());
        }
        let path = longer(alloc, self.found[at].1.as_slice(), law, place)?;
        self.found.push((id, path))?;
        Ok(())
    }
}

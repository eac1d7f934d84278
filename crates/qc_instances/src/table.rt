//! The instances that are made, and where to look for one.
ghost use Rattle.std.specs.Prelude.{◌≡◌, ◌++◌, ◌∷◌, [], Some, IfSome, OnOk, slice_get};

use crate::instance::{Instance, are_same};
use qc_bodies::Callee;
use qc_words::{Op, Width};
use sqlite_items::{Items, at};
use std::alloc::{AllocError, Global};

/// How many chains of instances there are.
const CHAINS: usize = 65_536;

/// No place.
const NOWHERE: usize = usize::MAX;

/// Instances in the order in which they were made. Those that have the same chain are linked: `last` has the place of the
/// last one of each chain, and `before` that of the one before each. Both are hints: what is found is compared.
#[derive(Debug, Drop)]
pub struct Table {
    pub made: Items<Instance>,
    last: Items<usize>,
    before: Items<usize>,
}

/// Names types that stand inside an instance, which a function has to do that adds one.
fn name_types(_op: Op, _width: Option<Width>) {}

/// A number for what is handed on.
fn trace_of(callee: &Callee) -> usize {
    match callee {
        Callee::Nowhere => 1,
        Callee::Operator { .. } => 2,
        Callee::Declared { number } => number.wrapping_add(7),
        Callee::Given { number } => number.wrapping_add(5),
    }
}

/// The chain of an instance.
fn chain_of(instance: &Instance) -> usize {
    let mut trace = instance.number;
    for callee in instance.given.as_slice() {
        trace = trace.wrapping_mul(31).wrapping_add(trace_of(callee));
    }
    trace.wrapping_mul(0x9E37_79B9_7F4A_7C15) / 0x1_0000_0000_0000
}

/// So many places of nothing.
fn no_places(alloc: Global, count: usize) -> Result<Items<usize>, AllocError> {
    let mut places = Items::new(alloc);
    for _ in 0..count {
        places.push(NOWHERE)?;
    }
    Ok(places)
}

impl Table {
    ghost use Rattle.std.specs.Prelude.{IfOk};

    /// No instances.
    pub(crate) fn new(alloc: Global) -> Result<Table, AllocError>
        ensures { IfOk result (λ table. table.made ≡ []) }
    {
        Ok(Table {
            made: Items::new(alloc),
            last: no_places(alloc, CHAINS)?,
            before: Items::new(alloc),
        })
    }

    /// The place of an instance, if it is found.
    pub(crate) fn find(&self, instance: &Instance) -> Option<usize>
        ensures { IfSome result (λ place. slice_get self.now.made place ≡ Some instance.now) }
    {
        let mut place = place_at(&self.last, chain_of(instance));
        for _ in 0..self.made.len() {
            match at(self.made.as_slice(), place) {
                Some(there) => {
                    if are_same(there, instance) {
                        return Some(place);
                    }
                }
                None => return None,
            }
            place = place_at(&self.before, place);
        }
        None
    }

    /// Adds an instance.
    pub(crate) fn add(&mut self, instance: Instance) -> Result<(), AllocError>
        ensures { OnOk result (self.new.made ≡ self.old.made ++ instance ∷ []) }
    {
        name_types(Op::Add, None);
        let chain = chain_of(&instance);
        self.before.push(place_at(&self.last, chain))?;
        if chain < self.last.len() {
            self.last.set(chain, self.made.len());
        }
        self.made.push(instance)
    }
}

/// The place that stands in a list, or none.
fn place_at(places: &Items<usize>, index: usize) -> usize {
    match at(places.as_slice(), index) {
        Some(place) => *place,
        None => NOWHERE,
    }
}

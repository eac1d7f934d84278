//! Laws that change the order of operands.
ghost use Rattle.qc_equations.specs.Table.{gives as given_by};
ghost use Rattle.qc_equations.specs.declared.names.Law.TheVariants as law;

use crate::law::{AlgLaw, law_matches, law_result};
use qc_equations::Law;
use qc_pool::{Pool, TermId};
use std::alloc::AllocError;

/// `add-swap`: `add(a, b)` becomes `add(b, a)`.
#[derive(Drop)]
pub struct AddSwap;

impl AlgLaw for AddSwap {
    ghost gives = { given_by law.AddSwap };

    fn matches(&self, pool: &Pool, id: TermId) -> bool {
        law_matches(pool, Law::AddSwap, id)
    }

    fn result(&self, pool: &mut Pool, id: TermId) -> Result<TermId, AllocError> {
        law_result(pool, Law::AddSwap, id)
    }
}

/// `and-swap`: `and(a, b)` becomes `and(b, a)`.
#[derive(Drop)]
pub struct AndSwap;

impl AlgLaw for AndSwap {
    ghost gives = { given_by law.AndSwap };

    fn matches(&self, pool: &Pool, id: TermId) -> bool {
        law_matches(pool, Law::AndSwap, id)
    }

    fn result(&self, pool: &mut Pool, id: TermId) -> Result<TermId, AllocError> {
        law_result(pool, Law::AndSwap, id)
    }
}

/// `or-swap`: `or(a, b)` becomes `or(b, a)`.
#[derive(Drop)]
pub struct OrSwap;

impl AlgLaw for OrSwap {
    ghost gives = { given_by law.OrSwap };

    fn matches(&self, pool: &Pool, id: TermId) -> bool {
        law_matches(pool, Law::OrSwap, id)
    }

    fn result(&self, pool: &mut Pool, id: TermId) -> Result<TermId, AllocError> {
        law_result(pool, Law::OrSwap, id)
    }
}

/// `xor-swap`: `xor(a, b)` becomes `xor(b, a)`.
#[derive(Drop)]
pub struct XorSwap;

impl AlgLaw for XorSwap {
    ghost gives = { given_by law.XorSwap };

    fn matches(&self, pool: &Pool, id: TermId) -> bool {
        law_matches(pool, Law::XorSwap, id)
    }

    fn result(&self, pool: &mut Pool, id: TermId) -> Result<TermId, AllocError> {
        law_result(pool, Law::XorSwap, id)
    }
}

/// `eq-swap`: `eq(a, b)` becomes `eq(b, a)`.
#[derive(Drop)]
pub struct EqSwap;

impl AlgLaw for EqSwap {
    ghost gives = { given_by law.EqSwap };

    fn matches(&self, pool: &Pool, id: TermId) -> bool {
        law_matches(pool, Law::EqSwap, id)
    }

    fn result(&self, pool: &mut Pool, id: TermId) -> Result<TermId, AllocError> {
        law_result(pool, Law::EqSwap, id)
    }
}

/// `ne-swap`: `ne(a, b)` becomes `ne(b, a)`.
#[derive(Drop)]
pub struct NeSwap;

impl AlgLaw for NeSwap {
    ghost gives = { given_by law.NeSwap };

    fn matches(&self, pool: &Pool, id: TermId) -> bool {
        law_matches(pool, Law::NeSwap, id)
    }

    fn result(&self, pool: &mut Pool, id: TermId) -> Result<TermId, AllocError> {
        law_result(pool, Law::NeSwap, id)
    }
}

/// `mul-swap`: `mul(a, b)` becomes `mul(b, a)`.
#[derive(Drop)]
pub struct MulSwap;

impl AlgLaw for MulSwap {
    ghost gives = { given_by law.MulSwap };

    fn matches(&self, pool: &Pool, id: TermId) -> bool {
        law_matches(pool, Law::MulSwap, id)
    }

    fn result(&self, pool: &mut Pool, id: TermId) -> Result<TermId, AllocError> {
        law_result(pool, Law::MulSwap, id)
    }
}

/// `add-left`: `add(a, add(b, c))` becomes `add(add(a, b), c)`.
#[derive(Drop)]
pub struct AddLeft;

impl AlgLaw for AddLeft {
    ghost gives = { given_by law.AddLeft };

    fn matches(&self, pool: &Pool, id: TermId) -> bool {
        law_matches(pool, Law::AddLeft, id)
    }

    fn result(&self, pool: &mut Pool, id: TermId) -> Result<TermId, AllocError> {
        law_result(pool, Law::AddLeft, id)
    }
}

/// `add-right`: `add(add(a, b), c)` becomes `add(a, add(b, c))`.
#[derive(Drop)]
pub struct AddRight;

impl AlgLaw for AddRight {
    ghost gives = { given_by law.AddRight };

    fn matches(&self, pool: &Pool, id: TermId) -> bool {
        law_matches(pool, Law::AddRight, id)
    }

    fn result(&self, pool: &mut Pool, id: TermId) -> Result<TermId, AllocError> {
        law_result(pool, Law::AddRight, id)
    }
}

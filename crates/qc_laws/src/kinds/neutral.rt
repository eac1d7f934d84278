//! Laws that add or leave out a literal that changes nothing.
ghost use Rattle.qc_equations.specs.Table.{gives as given_by};
ghost use Rattle.qc_equations.specs.declared.names.Law.TheVariants as law;

use crate::law::{AlgLaw, law_matches, law_result};
use qc_equations::Law;
use qc_pool::{Pool, TermId};
use std::alloc::AllocError;

/// `add-zero`: `a` becomes `add(a, 0)`.
#[derive(Drop)]
pub struct AddZero;

impl AlgLaw for AddZero {
    ghost gives = { given_by law.AddZero };

    fn matches(&self, pool: &Pool, id: TermId) -> bool {
        law_matches(pool, Law::AddZero, id)
    }

    fn result(&self, pool: &mut Pool, id: TermId) -> Result<TermId, AllocError> {
        law_result(pool, Law::AddZero, id)
    }
}

/// `or-zero`: `a` becomes `or(a, 0)`.
#[derive(Drop)]
pub struct OrZero;

impl AlgLaw for OrZero {
    ghost gives = { given_by law.OrZero };

    fn matches(&self, pool: &Pool, id: TermId) -> bool {
        law_matches(pool, Law::OrZero, id)
    }

    fn result(&self, pool: &mut Pool, id: TermId) -> Result<TermId, AllocError> {
        law_result(pool, Law::OrZero, id)
    }
}

/// `add-zero-drop`: `add(a, 0)` becomes `a`.
#[derive(Drop)]
pub struct AddZeroDrop;

impl AlgLaw for AddZeroDrop {
    ghost gives = { given_by law.AddZeroDrop };

    fn matches(&self, pool: &Pool, id: TermId) -> bool {
        law_matches(pool, Law::AddZeroDrop, id)
    }

    fn result(&self, pool: &mut Pool, id: TermId) -> Result<TermId, AllocError> {
        law_result(pool, Law::AddZeroDrop, id)
    }
}

/// `or-zero-drop`: `or(a, 0)` becomes `a`.
#[derive(Drop)]
pub struct OrZeroDrop;

impl AlgLaw for OrZeroDrop {
    ghost gives = { given_by law.OrZeroDrop };

    fn matches(&self, pool: &Pool, id: TermId) -> bool {
        law_matches(pool, Law::OrZeroDrop, id)
    }

    fn result(&self, pool: &mut Pool, id: TermId) -> Result<TermId, AllocError> {
        law_result(pool, Law::OrZeroDrop, id)
    }
}

/// `xor-zero-drop`: `xor(a, 0)` becomes `a`.
#[derive(Drop)]
pub struct XorZeroDrop;

impl AlgLaw for XorZeroDrop {
    ghost gives = { given_by law.XorZeroDrop };

    fn matches(&self, pool: &Pool, id: TermId) -> bool {
        law_matches(pool, Law::XorZeroDrop, id)
    }

    fn result(&self, pool: &mut Pool, id: TermId) -> Result<TermId, AllocError> {
        law_result(pool, Law::XorZeroDrop, id)
    }
}

/// `shl-zero-drop`: `shl(a, 0)` becomes `a`.
#[derive(Drop)]
pub struct ShlZeroDrop;

impl AlgLaw for ShlZeroDrop {
    ghost gives = { given_by law.ShlZeroDrop };

    fn matches(&self, pool: &Pool, id: TermId) -> bool {
        law_matches(pool, Law::ShlZeroDrop, id)
    }

    fn result(&self, pool: &mut Pool, id: TermId) -> Result<TermId, AllocError> {
        law_result(pool, Law::ShlZeroDrop, id)
    }
}

/// `and-ones-drop`: `and(a, ones)` becomes `a`.
#[derive(Drop)]
pub struct AndOnesDrop;

impl AlgLaw for AndOnesDrop {
    ghost gives = { given_by law.AndOnesDrop };

    fn matches(&self, pool: &Pool, id: TermId) -> bool {
        law_matches(pool, Law::AndOnesDrop, id)
    }

    fn result(&self, pool: &mut Pool, id: TermId) -> Result<TermId, AllocError> {
        law_result(pool, Law::AndOnesDrop, id)
    }
}

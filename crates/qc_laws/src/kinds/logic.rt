//! Laws between arithmetic and logic.
ghost use Rattle.qc_equations.specs.Table.{gives as given_by};
ghost use Rattle.qc_equations.specs.declared.names.Law.TheVariants as law;

use crate::law::{AlgLaw, law_matches, law_result};
use qc_equations::Law;
use qc_pool::{Pool, TermId};
use std::alloc::AllocError;

/// `sub-neg`: `sub(a, b)` becomes `add(a, neg(b))`.
#[derive(Drop)]
pub struct SubNeg;

impl AlgLaw for SubNeg {
    ghost gives = { given_by law.SubNeg };

    fn matches(&self, pool: &Pool, id: TermId) -> bool {
        law_matches(pool, Law::SubNeg, id)
    }

    fn result(&self, pool: &mut Pool, id: TermId) -> Result<TermId, AllocError> {
        law_result(pool, Law::SubNeg, id)
    }
}

/// `neg-sub`: `neg(a)` becomes `sub(0, a)`.
#[derive(Drop)]
pub struct NegSub;

impl AlgLaw for NegSub {
    ghost gives = { given_by law.NegSub };

    fn matches(&self, pool: &Pool, id: TermId) -> bool {
        law_matches(pool, Law::NegSub, id)
    }

    fn result(&self, pool: &mut Pool, id: TermId) -> Result<TermId, AllocError> {
        law_result(pool, Law::NegSub, id)
    }
}

/// `neg-com`: `neg(a)` becomes `add(com(a), 1)`.
#[derive(Drop)]
pub struct NegCom;

impl AlgLaw for NegCom {
    ghost gives = { given_by law.NegCom };

    fn matches(&self, pool: &Pool, id: TermId) -> bool {
        law_matches(pool, Law::NegCom, id)
    }

    fn result(&self, pool: &mut Pool, id: TermId) -> Result<TermId, AllocError> {
        law_result(pool, Law::NegCom, id)
    }
}

/// `com-xor`: `com(a)` becomes `xor(a, ones)`.
#[derive(Drop)]
pub struct ComXor;

impl AlgLaw for ComXor {
    ghost gives = { given_by law.ComXor };

    fn matches(&self, pool: &Pool, id: TermId) -> bool {
        law_matches(pool, Law::ComXor, id)
    }

    fn result(&self, pool: &mut Pool, id: TermId) -> Result<TermId, AllocError> {
        law_result(pool, Law::ComXor, id)
    }
}

/// `com-sub`: `com(a)` becomes `sub(ones, a)`.
#[derive(Drop)]
pub struct ComSub;

impl AlgLaw for ComSub {
    ghost gives = { given_by law.ComSub };

    fn matches(&self, pool: &Pool, id: TermId) -> bool {
        law_matches(pool, Law::ComSub, id)
    }

    fn result(&self, pool: &mut Pool, id: TermId) -> Result<TermId, AllocError> {
        law_result(pool, Law::ComSub, id)
    }
}

/// `com-neg`: `com(a)` becomes `sub(neg(a), 1)`.
#[derive(Drop)]
pub struct ComNeg;

impl AlgLaw for ComNeg {
    ghost gives = { given_by law.ComNeg };

    fn matches(&self, pool: &Pool, id: TermId) -> bool {
        law_matches(pool, Law::ComNeg, id)
    }

    fn result(&self, pool: &mut Pool, id: TermId) -> Result<TermId, AllocError> {
        law_result(pool, Law::ComNeg, id)
    }
}

/// `xor-or-and`: `xor(a, b)` becomes `sub(or(a, b), and(a, b))`.
#[derive(Drop)]
pub struct XorOrAnd;

impl AlgLaw for XorOrAnd {
    ghost gives = { given_by law.XorOrAnd };

    fn matches(&self, pool: &Pool, id: TermId) -> bool {
        law_matches(pool, Law::XorOrAnd, id)
    }

    fn result(&self, pool: &mut Pool, id: TermId) -> Result<TermId, AllocError> {
        law_result(pool, Law::XorOrAnd, id)
    }
}

/// `or-xor-and`: `or(a, b)` becomes `add(xor(a, b), and(a, b))`.
#[derive(Drop)]
pub struct OrXorAnd;

impl AlgLaw for OrXorAnd {
    ghost gives = { given_by law.OrXorAnd };

    fn matches(&self, pool: &Pool, id: TermId) -> bool {
        law_matches(pool, Law::OrXorAnd, id)
    }

    fn result(&self, pool: &mut Pool, id: TermId) -> Result<TermId, AllocError> {
        law_result(pool, Law::OrXorAnd, id)
    }
}

/// `and-or`: `and(a, b)` becomes `com(or(com(a), com(b)))`.
#[derive(Drop)]
pub struct AndOr;

impl AlgLaw for AndOr {
    ghost gives = { given_by law.AndOr };

    fn matches(&self, pool: &Pool, id: TermId) -> bool {
        law_matches(pool, Law::AndOr, id)
    }

    fn result(&self, pool: &mut Pool, id: TermId) -> Result<TermId, AllocError> {
        law_result(pool, Law::AndOr, id)
    }
}

/// `or-and`: `or(a, b)` becomes `com(and(com(a), com(b)))`.
#[derive(Drop)]
pub struct OrAnd;

impl AlgLaw for OrAnd {
    ghost gives = { given_by law.OrAnd };

    fn matches(&self, pool: &Pool, id: TermId) -> bool {
        law_matches(pool, Law::OrAnd, id)
    }

    fn result(&self, pool: &mut Pool, id: TermId) -> Result<TermId, AllocError> {
        law_result(pool, Law::OrAnd, id)
    }
}

/// `sub-com`: `sub(a, b)` becomes `com(add(com(a), b))`.
#[derive(Drop)]
pub struct SubCom;

impl AlgLaw for SubCom {
    ghost gives = { given_by law.SubCom };

    fn matches(&self, pool: &Pool, id: TermId) -> bool {
        law_matches(pool, Law::SubCom, id)
    }

    fn result(&self, pool: &mut Pool, id: TermId) -> Result<TermId, AllocError> {
        law_result(pool, Law::SubCom, id)
    }
}

/// `add-sub`: `add(a, b)` becomes `sub(a, neg(b))`.
#[derive(Drop)]
pub struct AddSub;

impl AlgLaw for AddSub {
    ghost gives = { given_by law.AddSub };

    fn matches(&self, pool: &Pool, id: TermId) -> bool {
        law_matches(pool, Law::AddSub, id)
    }

    fn result(&self, pool: &mut Pool, id: TermId) -> Result<TermId, AllocError> {
        law_result(pool, Law::AddSub, id)
    }
}

//! Laws of comparisons.
ghost use Rattle.qc_equations.specs.Table.{gives as given_by};
ghost use Rattle.qc_equations.specs.declared.names.Law.TheVariants as law;

use crate::law::{AlgLaw, law_matches, law_result};
use qc_equations::Law;
use qc_pool::{Pool, TermId};
use std::alloc::AllocError;

/// `eq-ltu`: `eq(a, b)` becomes `ltu(xor(a, b), 1)`.
#[derive(Drop)]
pub struct EqLtu;

impl AlgLaw for EqLtu {
    ghost gives = { given_by law.EqLtu };

    fn matches(&self, pool: &Pool, id: TermId) -> bool {
        law_matches(pool, Law::EqLtu, id)
    }

    fn result(&self, pool: &mut Pool, id: TermId) -> Result<TermId, AllocError> {
        law_result(pool, Law::EqLtu, id)
    }
}

/// `ne-ltu`: `ne(a, b)` becomes `ltu(0, xor(a, b))`.
#[derive(Drop)]
pub struct NeLtu;

impl AlgLaw for NeLtu {
    ghost gives = { given_by law.NeLtu };

    fn matches(&self, pool: &Pool, id: TermId) -> bool {
        law_matches(pool, Law::NeLtu, id)
    }

    fn result(&self, pool: &mut Pool, id: TermId) -> Result<TermId, AllocError> {
        law_result(pool, Law::NeLtu, id)
    }
}

/// `lt-ltu`: `lt(a, b)` becomes `ltu(xor(a, least), xor(b, least))`.
#[derive(Drop)]
pub struct LtLtu;

impl AlgLaw for LtLtu {
    ghost gives = { given_by law.LtLtu };

    fn matches(&self, pool: &Pool, id: TermId) -> bool {
        law_matches(pool, Law::LtLtu, id)
    }

    fn result(&self, pool: &mut Pool, id: TermId) -> Result<TermId, AllocError> {
        law_result(pool, Law::LtLtu, id)
    }
}

/// `ltu-lt`: `ltu(a, b)` becomes `lt(xor(a, least), xor(b, least))`.
#[derive(Drop)]
pub struct LtuLt;

impl AlgLaw for LtuLt {
    ghost gives = { given_by law.LtuLt };

    fn matches(&self, pool: &Pool, id: TermId) -> bool {
        law_matches(pool, Law::LtuLt, id)
    }

    fn result(&self, pool: &mut Pool, id: TermId) -> Result<TermId, AllocError> {
        law_result(pool, Law::LtuLt, id)
    }
}

/// `eq-ne`: `eq(a, b)` becomes `com(ne(a, b))`.
#[derive(Drop)]
pub struct EqNe;

impl AlgLaw for EqNe {
    ghost gives = { given_by law.EqNe };

    fn matches(&self, pool: &Pool, id: TermId) -> bool {
        law_matches(pool, Law::EqNe, id)
    }

    fn result(&self, pool: &mut Pool, id: TermId) -> Result<TermId, AllocError> {
        law_result(pool, Law::EqNe, id)
    }
}

/// `ne-eq`: `ne(a, b)` becomes `com(eq(a, b))`.
#[derive(Drop)]
pub struct NeEq;

impl AlgLaw for NeEq {
    ghost gives = { given_by law.NeEq };

    fn matches(&self, pool: &Pool, id: TermId) -> bool {
        law_matches(pool, Law::NeEq, id)
    }

    fn result(&self, pool: &mut Pool, id: TermId) -> Result<TermId, AllocError> {
        law_result(pool, Law::NeEq, id)
    }
}

/// `lt-ge`: `lt(a, b)` becomes `com(ge(a, b))`.
#[derive(Drop)]
pub struct LtGe;

impl AlgLaw for LtGe {
    ghost gives = { given_by law.LtGe };

    fn matches(&self, pool: &Pool, id: TermId) -> bool {
        law_matches(pool, Law::LtGe, id)
    }

    fn result(&self, pool: &mut Pool, id: TermId) -> Result<TermId, AllocError> {
        law_result(pool, Law::LtGe, id)
    }
}

/// `ge-lt`: `ge(a, b)` becomes `com(lt(a, b))`.
#[derive(Drop)]
pub struct GeLt;

impl AlgLaw for GeLt {
    ghost gives = { given_by law.GeLt };

    fn matches(&self, pool: &Pool, id: TermId) -> bool {
        law_matches(pool, Law::GeLt, id)
    }

    fn result(&self, pool: &mut Pool, id: TermId) -> Result<TermId, AllocError> {
        law_result(pool, Law::GeLt, id)
    }
}

/// `ltu-geu`: `ltu(a, b)` becomes `com(geu(a, b))`.
#[derive(Drop)]
pub struct LtuGeu;

impl AlgLaw for LtuGeu {
    ghost gives = { given_by law.LtuGeu };

    fn matches(&self, pool: &Pool, id: TermId) -> bool {
        law_matches(pool, Law::LtuGeu, id)
    }

    fn result(&self, pool: &mut Pool, id: TermId) -> Result<TermId, AllocError> {
        law_result(pool, Law::LtuGeu, id)
    }
}

/// `geu-ltu`: `geu(a, b)` becomes `com(ltu(a, b))`.
#[derive(Drop)]
pub struct GeuLtu;

impl AlgLaw for GeuLtu {
    ghost gives = { given_by law.GeuLtu };

    fn matches(&self, pool: &Pool, id: TermId) -> bool {
        law_matches(pool, Law::GeuLtu, id)
    }

    fn result(&self, pool: &mut Pool, id: TermId) -> Result<TermId, AllocError> {
        law_result(pool, Law::GeuLtu, id)
    }
}

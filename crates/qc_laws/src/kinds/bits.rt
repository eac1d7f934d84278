//! Laws that take words apart, and put them together.
ghost use Rattle.qc_equations.specs.Table.{gives as given_by};
ghost use Rattle.qc_equations.specs.declared.names.Law.TheVariants as law;

use crate::law::{AlgLaw, law_matches, law_result};
use qc_equations::Law;
use qc_pool::{Pool, TermId};
use std::alloc::AllocError;

/// `zx-com`: `zx n (com(a)), a of one bit` becomes `xor(zx n (a), 1)`.
#[derive(Drop)]
pub struct ZxCom;

impl AlgLaw for ZxCom {
    ghost gives = { given_by law.ZxCom };

    fn matches(&self, pool: &Pool, id: TermId) -> bool {
        law_matches(pool, Law::ZxCom, id)
    }

    fn result(&self, pool: &mut Pool, id: TermId) -> Result<TermId, AllocError> {
        law_result(pool, Law::ZxCom, id)
    }
}

/// `split8`: `a constant a, 8 < w` becomes `add(shl(zx w (slice 8 (w - 8) (sub(a, sx w (slice 0 8 (a))))), 8), sx w
/// (slice 0 8 (a)))`.
#[derive(Drop)]
pub struct Split8;

impl AlgLaw for Split8 {
    ghost gives = { given_by law.Split8 };

    fn matches(&self, pool: &Pool, id: TermId) -> bool {
        law_matches(pool, Law::Split8, id)
    }

    fn result(&self, pool: &mut Pool, id: TermId) -> Result<TermId, AllocError> {
        law_result(pool, Law::Split8, id)
    }
}

/// `split12`: `a constant a, 12 < w` becomes `add(shl(zx w (slice 12 (w - 12) (sub(a, sx w (slice 0 12 (a))))), 12), sx
/// w (slice 0 12 (a)))`.
#[derive(Drop)]
pub struct Split12;

impl AlgLaw for Split12 {
    ghost gives = { given_by law.Split12 };

    fn matches(&self, pool: &Pool, id: TermId) -> bool {
        law_matches(pool, Law::Split12, id)
    }

    fn result(&self, pool: &mut Pool, id: TermId) -> Result<TermId, AllocError> {
        law_result(pool, Law::Split12, id)
    }
}

/// `split16`: `a constant a, 16 < w` becomes `add(shl(zx w (slice 16 (w - 16) (sub(a, sx w (slice 0 16 (a))))), 16), sx
/// w (slice 0 16 (a)))`.
#[derive(Drop)]
pub struct Split16;

impl AlgLaw for Split16 {
    ghost gives = { given_by law.Split16 };

    fn matches(&self, pool: &Pool, id: TermId) -> bool {
        law_matches(pool, Law::Split16, id)
    }

    fn result(&self, pool: &mut Pool, id: TermId) -> Result<TermId, AllocError> {
        law_result(pool, Law::Split16, id)
    }
}

/// `part8`: `a constant a, 8 < w` becomes `or(shl(zx w (slice 8 (w - 8) (a)), 8), zx w (slice 0 8 (a)))`.
#[derive(Drop)]
pub struct Part8;

impl AlgLaw for Part8 {
    ghost gives = { given_by law.Part8 };

    fn matches(&self, pool: &Pool, id: TermId) -> bool {
        law_matches(pool, Law::Part8, id)
    }

    fn result(&self, pool: &mut Pool, id: TermId) -> Result<TermId, AllocError> {
        law_result(pool, Law::Part8, id)
    }
}

/// `part12`: `a constant a, 12 < w` becomes `or(shl(zx w (slice 12 (w - 12) (a)), 12), zx w (slice 0 12 (a)))`.
#[derive(Drop)]
pub struct Part12;

impl AlgLaw for Part12 {
    ghost gives = { given_by law.Part12 };

    fn matches(&self, pool: &Pool, id: TermId) -> bool {
        law_matches(pool, Law::Part12, id)
    }

    fn result(&self, pool: &mut Pool, id: TermId) -> Result<TermId, AllocError> {
        law_result(pool, Law::Part12, id)
    }
}

/// `part16`: `a constant a, 16 < w` becomes `or(shl(zx w (slice 16 (w - 16) (a)), 16), zx w (slice 0 16 (a)))`.
#[derive(Drop)]
pub struct Part16;

impl AlgLaw for Part16 {
    ghost gives = { given_by law.Part16 };

    fn matches(&self, pool: &Pool, id: TermId) -> bool {
        law_matches(pool, Law::Part16, id)
    }

    fn result(&self, pool: &mut Pool, id: TermId) -> Result<TermId, AllocError> {
        law_result(pool, Law::Part16, id)
    }
}

/// `zx-and`: `zx w (slice 0 m (a))` becomes `and(a, 2 ^ m - 1)`.
#[derive(Drop)]
pub struct ZxAnd;

impl AlgLaw for ZxAnd {
    ghost gives = { given_by law.ZxAnd };

    fn matches(&self, pool: &Pool, id: TermId) -> bool {
        law_matches(pool, Law::ZxAnd, id)
    }

    fn result(&self, pool: &mut Pool, id: TermId) -> Result<TermId, AllocError> {
        law_result(pool, Law::ZxAnd, id)
    }
}

/// `and-zx`: `and(a, 2 ^ m - 1), 0 < m < w` becomes `zx w (slice 0 m (a))`.
#[derive(Drop)]
pub struct AndZx;

impl AlgLaw for AndZx {
    ghost gives = { given_by law.AndZx };

    fn matches(&self, pool: &Pool, id: TermId) -> bool {
        law_matches(pool, Law::AndZx, id)
    }

    fn result(&self, pool: &mut Pool, id: TermId) -> Result<TermId, AllocError> {
        law_result(pool, Law::AndZx, id)
    }
}

/// `sx-shifts`: `sx w (slice 0 m (a))` becomes `shra(shl(a, w - m), w - m)`.
#[derive(Drop)]
pub struct SxShifts;

impl AlgLaw for SxShifts {
    ghost gives = { given_by law.SxShifts };

    fn matches(&self, pool: &Pool, id: TermId) -> bool {
        law_matches(pool, Law::SxShifts, id)
    }

    fn result(&self, pool: &mut Pool, id: TermId) -> Result<TermId, AllocError> {
        law_result(pool, Law::SxShifts, id)
    }
}

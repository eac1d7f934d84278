//! Laws over a pool: whether one matches a term, and what it gives.
ghost use Rattle.std.specs.Prelude.{◌≡◌, ◌<◌, length, is_some, IsSome, IfOk, OnErr, Option, None, Some};
ghost use Rattle.qc_terms.specs.Tree.{Tree, width_of};
ghost use Rattle.qc_equations.specs.Alike.{AreAlike};
ghost use Rattle.qc_equations.specs.Table.{gives};
ghost use Rattle.qc_pool.specs.Nodes.{term_at};
ghost use Rattle.qc_pool.specs.Regions.{Keeps};
ghost use Rattle.qc_laws.specs.Given.{IsGiven};

use crate::left::parts;
use crate::right::make;
use crate::sides::{left_of, right_of};
use qc_equations::{Law, laws_keep_terms_alike};
use qc_pool::{Pool, TermId};
use std::alloc::AllocError;

/// Whether a law matches a term.
pub fn law_matches(pool: &Pool, law: Law, id: TermId) -> bool
    requires { id < length pool.now }
    ensures { result ≡ is_some (gives law (term_at pool.now id)) }
{
    parts(pool, left_of(law), id).is_some()
}

/// What a law gives for a term, if it matches the term. All terms of the pool keep their ids. Where the law doesn't match,
/// and where memory is refused, nothing changes.
pub fn law_gives(pool: &mut Pool, law: Law, id: TermId) -> Result<Option<TermId>, AllocError>
    requires { id < length pool.old }
    ensures given { IfOk result (λ given. IsGiven pool.new given (gives law (term_at pool.old id))) }
    ensures kept { Keeps pool.old pool.new }
    ensures unmatched { IfOk result (λ given. given ≡ None → pool.new ≡ pool.old) }
    ensures refused { OnErr result (pool.new ≡ pool.old) }
{
    let _count = pool.len();
    match parts(pool, left_of(law), id) {
        None => Ok(None),
        Some(ids) => {
            let mark = pool.mark();
            match make(pool, &ids, right_of(law).as_slice(), 0) {
                Ok(made) => Ok(Some(made.id)),
                Err(refused) => {
                    pool.release(mark);
                    Err(refused)
                }
            }
        }
    }
}

/// What a law gives for a term that it matches. Where memory is refused nothing changes.
pub(crate) fn law_result(pool: &mut Pool, law: Law, id: TermId) -> Result<TermId, AllocError>
    requires there { id < length pool.old }
    requires matches { IsSome (gives law (term_at pool.old id)) }
    ensures given { IfOk result (λ u. IsGiven pool.new (Some u) (gives law (term_at pool.old id))) }
    ensures alike { IfOk result (λ u. AreAlike (term_at pool.old id) (term_at pool.new u)) }
    ensures width { IfOk result (λ u. width_of (term_at pool.new u) ≡ width_of (term_at pool.old id)) }
    ensures kept { Keeps pool.old pool.new }
    ensures refused { OnErr result (pool.new ≡ pool.old) }
{
    let _width = pool.width(id);
    laws_keep_terms_alike();
    match law_gives(pool, law, id)? {
        Some(given) => Ok(given),
        None => unreachable!(),
    }
}

/// A law over a pool. What it gives is of a term, perhaps a term: it matches a term exactly where it gives one.
pub trait AlgLaw {
    ghost gives: { Tree → Option Tree };

    /// Whether the law matches a term.
    fn matches(&self, pool: &Pool, id: TermId) -> bool
        requires { id < length pool.now }
        ensures { result ≡ is_some (gives (term_at pool.now id)) };

    /// What the law gives for a term that it matches: a term alike, of the same width. All terms of the pool keep their
    /// ids. Where memory is refused nothing changes.
    fn result(&self, pool: &mut Pool, id: TermId) -> Result<TermId, AllocError>
        requires there { id < length pool.old }
        requires matches { IsSome (gives (term_at pool.old id)) }
        ensures given { IfOk result (λ u. IsGiven pool.new (Some u) (gives (term_at pool.old id))) }
        ensures alike { IfOk result (λ u. AreAlike (term_at pool.old id) (term_at pool.new u)) }
        ensures width { IfOk result (λ u. width_of (term_at pool.new u) ≡ width_of (term_at pool.old id)) }
        ensures kept { Keeps pool.old pool.new }
        ensures refused { OnErr result (pool.new ≡ pool.old) };
}

//! Laws at places of terms.
ghost use Rattle.std.specs.Prelude.{◌≡◌, ◌<◌, length, IfOk, OnErr, None};
ghost use Rattle.qc_equations.specs.Steps.{rewritten};
ghost use Rattle.qc_pool.specs.Nodes.{term_at};
ghost use Rattle.qc_pool.specs.Regions.{Keeps};
ghost use Rattle.qc_laws.specs.Given.{IsGiven};

use crate::parts::{part, put_part};
use qc_laws::{Law, law_gives};
use qc_pool::{Pool, TermId};
use std::alloc::AllocError;

/// `rewrite_at`, which leaves in the pool what it had added where memory is refused.
fn rewrite_within(
    pool: &mut Pool,
    law: Law,
    id: TermId,
    place: &[u32],
) -> Result<Option<TermId>, AllocError>
    requires { id < length pool.old }
    ensures given { IfOk result (λ given. IsGiven pool.new given (rewritten law place.now (term_at pool.old id))) }
    ensures kept { Keeps pool.old pool.new }
    ensures unmatched { IfOk result (λ given. given ≡ None → pool.new ≡ pool.old) }
{
    match place {
        [] => law_gives(pool, law, id),
        [number, below @ ..] => match part(pool, id, *number) {
            None => Ok(None),
            Some(old) => {
                let _width = pool.width(old);
                match rewrite_within(pool, law, old, below)? {
                    None => Ok(None),
                    Some(new) => Ok(Some(put_part(pool, id, *number, new)?)),
                }
            }
        },
    }
}

/// The term in which the law is used at a place: the numbers of the parts on the way from the root to it, where the
/// address of a memory access is its part 0. There is none exactly where the place isn't in the term or the law doesn't
/// match there, and then nothing changes, as where memory is refused. All terms of the pool keep their ids.
pub fn rewrite_at(
    pool: &mut Pool,
    law: Law,
    id: TermId,
    place: &[u32],
) -> Result<Option<TermId>, AllocError>
    requires { id < length pool.old }
    ensures given { IfOk result (λ given. IsGiven pool.new given (rewritten law place.now (term_at pool.old id))) }
    ensures kept { Keeps pool.old pool.new }
    ensures unmatched { IfOk result (λ given. given ≡ None → pool.new ≡ pool.old) }
    ensures refused { OnErr result (pool.new ≡ pool.old) }
{
    let mark = pool.mark();
    match rewrite_within(pool, law, id, place) {
        Ok(given) => Ok(given),
        Err(refused) => {
            pool.release(mark);
            Err(refused)
        }
    }
}

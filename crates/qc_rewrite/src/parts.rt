//! The parts of terms by their numbers.
ghost use Rattle.std.specs.Prelude.{◌≡◌, ◌<◌, length, IfOk, IfSome, OnErr, Some};
ghost use Rattle.std.specs.Option.{option_map};
ghost use Rattle.qc_terms.specs.Tree.{width_of};
ghost use Rattle.qc_pool.specs.Nodes.{NodeFits, term_at, term_of};
ghost use Rattle.qc_pool.specs.Regions.{IsAdded};
ghost use Rattle.qc_rewrite.specs.Inner.Parts.{HasWidthOf, part_of, with_part};

use qc_pool::{Node, Pool, TermId};
use std::alloc::AllocError;

/// The part of a term that has a number. The address of a memory access is its part 0.
pub(crate) fn part(pool: &Pool, id: TermId, number: u32) -> Option<TermId>
    requires { id < length pool.now }
    ensures part { option_map (term_at pool.now) result ≡ part_of (term_at pool.now id) number }
    ensures there { IfSome result (λ p. p < length pool.now) }
{
    match &pool.node(id) {
        Node::Un { arg, .. } if number == 0 => Some(*arg),
        Node::Bin { left, .. } if number == 0 => Some(*left),
        Node::Bin { right, .. } if number == 1 => Some(*right),
        Node::Mem { address, .. } if number == 0 => Some(*address),
        _ => None,
    }
}

/// The root of a term over another part in place of the one that has the number.
fn node_with(pool: &Pool, id: TermId, number: u32, part: TermId) -> Node
    requires id { id < length pool.now }
    requires part { part < length pool.now }
    requires width { HasWidthOf (term_at pool.now part) (part_of (term_at pool.now id) number) }
    ensures term { term_of pool.now result ≡ with_part number (term_at pool.now part) (term_at pool.now id) }
    ensures fits { NodeFits pool.now result }
{
    let _width = pool.width(id);
    match &pool.node(id) {
        Node::Un { op, .. } => Node::Un { op: *op, arg: part },
        Node::Bin { op, left, right } => {
            if number == 0 {
                Node::Bin {
                    op: *op,
                    left: part,
                    right: *right,
                }
            } else {
                Node::Bin {
                    op: *op,
                    left: *left,
                    right: part,
                }
            }
        }
        Node::Mem { width, .. } => Node::Mem {
            width: *width,
            address: part,
        },
        other => *other,
    }
}

/// The id of a term with another part in place of the one that has the number. Where memory is refused nothing changes.
pub(crate) fn put_part(
    pool: &mut Pool,
    id: TermId,
    number: u32,
    part: TermId,
) -> Result<TermId, AllocError>
    requires id { id < length pool.old }
    requires part { part < length pool.old }
    requires width { HasWidthOf (term_at pool.old part) (part_of (term_at pool.old id) number) }
    ensures added { IfOk result (λ new. IsAdded pool.old pool.new (with_part number (term_at pool.old part) (term_at pool.old id)) new) }
    ensures refused { OnErr result (pool.new ≡ pool.old) }
{
    let node = node_with(pool, id, number, part);
    pool.add(node)
}

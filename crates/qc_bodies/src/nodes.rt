//! Expressions that share their parts.
ghost use Rattle.std.specs.Prelude.{◌≡◌, IfOk, OnOk};
ghost use Rattle.qc_bodies.specs.Nodes.{IsAt, Keeps, node_over, written_in};

use crate::tree::{Leaf, Wrap};
use qc_words::{Op, Width};
use sqlite_items::Items;
use std::alloc::AllocError;

/// A node of an expression in which nothing is used. Its parts are the nodes at places before it.
#[derive(Clone, Copy, Debug, PartialEq, Eq)]
pub enum Node {
    Leaf {
        token: usize,
        leaf: Leaf,
        width: Option<Width>,
    },
    Absent {
        token: usize,
    },
    Wrap {
        token: usize,
        wrap: Wrap,
        width: Option<Width>,
        part: usize,
    },
    Unary {
        token: usize,
        op: Op,
        arg: usize,
    },
    Binary {
        token: usize,
        op: Op,
        left: usize,
        right: usize,
    },
}

/// Names types that stand inside a node, which a function has to do that adds one.
fn name_types(_op: Op, _width: Option<Width>) {}

/// Adds a node, and gives its place.
#[tactic(auto, using(crate::proofs::Placed::added_place, crate::proofs::Placed::added_keeps))]
pub(crate) fn add(nodes: &mut Items<Node>, node: Node) -> Result<usize, AllocError>
    ensures place { IfOk result (λ place. IsAt nodes.new place (node_over (written_in nodes.old) node)) }
    ensures keeps { OnOk result (Keeps nodes.old nodes.new) }
{
    name_types(Op::Add, None);
    let place = nodes.len();
    nodes.push(node)?;
    Ok(place)
}

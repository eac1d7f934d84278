//! The walk through a derivation, node by node in preorder, that finds the first one that breaks a rule.
ghost use Rattle.std.specs.Prelude.{◌≡◌, ◌+◌, ◌∷◌, [], IfOk};
ghost use Rattle.qc_derivations.specs.Forest.{children_in, forest_of, grows_of, grows_of_flag, nodes_of};
ghost use Rattle.qc_derivations.specs.Valid.{first_fault};
ghost use Rattle.qc_nodes.specs.Needs.{NeedHasWidths, NeedsHaveWidths, need_of, needs_in};
ghost use Rattle.qc_nodes.specs.Tasks.{task_in};
ghost use Rattle.qc_derive.specs.Inner.Walks.{walked};

use qc_derivations::{Binding, Derivation};
use qc_descr::Description;
use qc_nodes::{Job, Need, child_of, children_of};
use sqlite_items::Boxed;
use std::alloc::{AllocError, Global};

/// What a walk through trees answers: the number of the first node that breaks a rule, or where there is none, that of the
/// node after the trees.
#[derive(Clone, Copy, Debug, PartialEq, Eq)]
pub(crate) enum Walked {
    Fault { node: u32 },
    Next { node: u32 },
}

/// The number after a node's. A derivation with a node that has none would not fit into memory.
fn next(node: u32) -> Result<u32, AllocError>
    ensures { IfOk result (λ next. next ≡ node + 1) }
{
    node.checked_add(1).ok_or(AllocError)
}

/// The walk through a derivation for a need, whose root has this number.
#[cycle(walk)]
#[tactic(auto, using(crate::proofs::Walks::tree_none, crate::proofs::Walks::tree_some, qc_sequences::specs::Law::Weights::tree_weight))]
pub(crate) fn tree(
    alloc: Global,
    descr: &Description,
    job: Job,
    need: &Need,
    derivation: &Derivation,
    node: u32,
) -> Result<Walked, AllocError>
    requires { NeedHasWidths (need_of need.now) }
    ensures { IfOk result (λ answer. answer ≡ walked (first_fault (task_in descr.now job) node (forest_of derivation.now) (need_of need.now ∷ [])) (node + nodes_of (forest_of derivation.now))) }
{
    match children_of(alloc, descr, job, need, derivation)? {
        Some(needs) => {
            let bindings = derivation.bindings.as_slice();
            let first = next(node)?;
            trees(
                alloc,
                descr,
                job,
                needs.as_slice(),
                bindings,
                &derivation.flag,
                first,
            )
        }
        None => Ok(Walked::Fault { node }),
    }
}

/// The walk through the children of bindings, and then that of a flag, each for a need in order.
#[cycle(walk)]
#[tactic(auto, using(qc_sequences::specs::Law::Weights::before_weight))]
fn trees(
    alloc: Global,
    descr: &Description,
    job: Job,
    needs: &[Need],
    bindings: &[Binding],
    flag: &Option<Boxed<Derivation>>,
    node: u32,
) -> Result<Walked, AllocError>
    requires { NeedsHaveWidths (needs_in needs.now) }
    ensures { IfOk result (λ answer. answer ≡ walked (first_fault (task_in descr.now job) node (children_in bindings.now flag.now) (needs_in needs.now)) (node + nodes_of (children_in bindings.now flag.now))) }
{
    match bindings {
        [] => last(alloc, descr, job, needs, flag, node),
        [binding, bindings @ ..] => match child_of(binding) {
            Some(child) => first_tree(alloc, descr, job, needs, child, bindings, flag, node),
            None => trees(alloc, descr, job, needs, bindings, flag, node),
        },
    }
}

/// The walk through a child, and then through those of bindings and that of a flag, each for a need in order.
#[cycle(walk)]
#[tactic(auto, using(crate::proofs::Walks::fault_before, crate::proofs::Walks::next_before, qc_sequences::specs::Law::Weights::before_weight, qc_sequences::specs::Law::Weights::tree_weight))]
fn first_tree(
    alloc: Global,
    descr: &Description,
    job: Job,
    needs: &[Need],
    child: &Derivation,
    bindings: &[Binding],
    flag: &Option<Boxed<Derivation>>,
    node: u32,
) -> Result<Walked, AllocError>
    requires { NeedsHaveWidths (needs_in needs.now) }
    ensures { IfOk result (λ answer. answer ≡ walked (first_fault (task_in descr.now job) node (grows_of child.now (children_in bindings.now flag.now)) (needs_in needs.now)) (node + nodes_of (grows_of child.now (children_in bindings.now flag.now)))) }
{
    match needs {
        [] => Ok(Walked::Fault { node }),
        [need, needs @ ..] => match tree(alloc, descr, job, need, child, node)? {
            Walked::Fault { node } => Ok(Walked::Fault { node }),
            Walked::Next { node } => trees(alloc, descr, job, needs, bindings, flag, node),
        },
    }
}

/// The walk through the child of a flag, for the only need that is left.
#[cycle(walk)]
#[tactic(auto, using(crate::proofs::Walks::fault_before, crate::proofs::Walks::next_before))]
fn last(
    alloc: Global,
    descr: &Description,
    job: Job,
    needs: &[Need],
    flag: &Option<Boxed<Derivation>>,
    node: u32,
) -> Result<Walked, AllocError>
    requires { NeedsHaveWidths (needs_in needs.now) }
    ensures { IfOk result (λ answer. answer ≡ walked (first_fault (task_in descr.now job) node (grows_of_flag flag.now) (needs_in needs.now)) (node + nodes_of (grows_of_flag flag.now))) }
{
    match flag {
        None => match needs {
            [] => Ok(Walked::Next { node }),
            [_, ..] => Ok(Walked::Fault { node }),
        },
        Some(child) => match needs {
            [] => Ok(Walked::Fault { node }),
            [need, needs @ ..] => match tree(alloc, descr, job, need, child.get(), node)? {
                Walked::Fault { node } => Ok(Walked::Fault { node }),
                Walked::Next { node } => match needs {
                    [] => Ok(Walked::Next { node }),
                    [_, ..] => Ok(Walked::Fault { node }),
                },
            },
        },
    }
}

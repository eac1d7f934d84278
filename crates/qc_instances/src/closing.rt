//! Expressions for the functions that they get: each use of what is declared becomes that of an instance.
ghost use Rattle.std.specs.Prelude.{◌≡◌, ◌<◌, ◌≤◌, IfOk, OnOk, length, map, slice_get};
ghost use Rattle.qc_bodies.specs.declared.tree.Callee.TheVariants as callee;
ghost use Rattle.qc_bodies.specs.Meanings.{value_or};
ghost use Rattle.qc_bodies.specs.Plains.{plain_of};
ghost use Rattle.qc_bodies.specs.Trees.{core_of};
ghost use Rattle.qc_instances.specs.Instances.{closed};
ghost use Rattle.qc_instances.specs.Inner.Closing.{IsApplied, IsUseOf, SamePlain, SamePlains};

use crate::instance::Instance;
use crate::table::Table;
use qc_bodies::{Callee, Plain, Tree};
use qc_words::{Op, Width};
use sqlite_items::{Boxed, Items, at};
use std::alloc::{AllocError, Global};

/// Where an expression stands: so much is declared, of which it may use what is below the level, and its parameters that
/// are functions are these. The table has the instances that are made.
#[derive(Drop)]
pub(crate) struct Place<'a> {
    pub table: &'a Table,
    pub count: usize,
    pub level: usize,
    pub given: &'a [Callee],
}

/// The instances that were not found, and how many nodes may still be looked at.
#[derive(Debug, Drop)]
pub(crate) struct Work {
    pub wanted: Items<Instance>,
    pub left: usize,
}

/// Names types that stand inside an expression, which a function has to do that adds one.
fn name_types(_op: Op, _width: Option<Width>) {}

/// The function that a parameter is.
fn given_at(place: &Place<'_>, number: usize) -> Callee
    ensures { result ≡ value_or callee.Nowhere (slice_get place.now.given.now number) }
{
    match at(place.given, number) {
        Some(given) => *given,
        None => Callee::Nowhere,
    }
}

/// A function that is handed on, where those that the expression got itself are known.
fn close(place: &Place<'_>, callee: &Callee) -> Callee
    ensures { result ≡ closed place.now.level place.now.given.now callee.now }
{
    match callee {
        Callee::Nowhere => Callee::Nowhere,
        Callee::Operator { op } => Callee::Operator { op: *op },
        Callee::Declared { number } => {
            if *number < place.level {
                Callee::Declared { number: *number }
            } else {
                Callee::Nowhere
            }
        }
        Callee::Given { number } => given_at(place, *number),
    }
}

/// Several of them.
fn close_all(
    alloc: Global,
    place: &Place<'_>,
    callees: &[Callee],
) -> Result<Items<Callee>, AllocError>
    ensures { IfOk result (λ all. all ≡ map (closed place.now.level place.now.given.now) callees.now) }
{
    let mut all = Items::new(alloc);
    for callee in callees {
        all.push(close(place, callee))?;
    }
    Ok(all)
}

/// The use of an instance, which is wanted if it isn't made yet.
fn use_of(
    table: &Table,
    token: usize,
    instance: Instance,
    args: Items<Plain>,
    work: &mut Work,
) -> Result<Plain, AllocError>
    ensures plain { IfOk result (λ p. length work.new.wanted ≡ 0
        → IsUseOf table.now.made token instance (map plain_of args) (plain_of p)) }
    ensures before { OnOk result (length work.new.wanted ≡ 0 → length work.old.wanted ≡ 0) }
{
    name_types(Op::Add, None);
    match table.find(&instance) {
        Some(number) => Ok(Plain::Use {
            token,
            number,
            args,
        }),
        None => {
            work.wanted.push(instance)?;
            Ok(Plain::Absent { token })
        }
    }
}

/// The use of a function that was handed on, which gets no functions itself.
fn apply(
    alloc: Global,
    place: &Place<'_>,
    token: usize,
    callee: Callee,
    args: Items<Plain>,
    work: &mut Work,
) -> Result<Plain, AllocError>
    ensures plain { IfOk result (λ p. length work.new.wanted ≡ 0
        → IsApplied place.now token callee (map plain_of args) (plain_of p)) }
    ensures before { OnOk result (length work.new.wanted ≡ 0 → length work.old.wanted ≡ 0) }
{
    match callee {
        Callee::Nowhere => Ok(Plain::Absent { token }),
        Callee::Operator { op } => Ok(Plain::Operate { token, op, args }),
        Callee::Declared { number } => {
            if number < place.count {
                let instance = Instance {
                    number,
                    given: Items::new(alloc),
                };
                use_of(place.table, token, instance, args, work)
            } else {
                Ok(Plain::Absent { token })
            }
        }
        Callee::Given { .. } => Ok(Plain::Absent { token }),
    }
}

/// Counts a node that is looked at.
fn look(work: &mut Work) -> Result<(), AllocError>
    ensures { OnOk result (work.new.wanted ≡ work.old.wanted) }
{
    if work.left == 0 {
        return Err(AllocError);
    }
    work.left -= 1;
    Ok(())
}

/// An expression as one in which no function is handed on.
#[cycle(closing)]
pub(crate) fn plain_in(
    alloc: Global,
    place: &Place<'_>,
    tree: &Tree,
    work: &mut Work,
) -> Result<Plain, AllocError>
    ensures plain { IfOk result (λ p. length work.new.wanted ≡ 0 → SamePlain place.now (core_of tree.now) (plain_of p)) }
    ensures before { OnOk result (length work.new.wanted ≡ 0 → length work.old.wanted ≡ 0) }
{
    look(work)?;
    match tree {
        Tree::Leaf { token, leaf, width } => Ok(Plain::Leaf {
            token: *token,
            leaf: *leaf,
            width: *width,
        }),
        Tree::Absent { token } => Ok(Plain::Absent { token: *token }),
        Tree::Param { number } => Ok(Plain::Param { number: *number }),
        Tree::Wrap {
            token,
            wrap,
            width,
            part,
        } => {
            let part = plain_in(alloc, place, part.get(), work)?;
            let part = Boxed::new(alloc, part)?;
            Ok(Plain::Wrap {
                token: *token,
                wrap: *wrap,
                width: *width,
                part,
            })
        }
        Tree::Operate { token, op, args } => {
            let args = plains_in(alloc, place, args.as_slice(), work)?;
            Ok(Plain::Operate {
                token: *token,
                op: *op,
                args,
            })
        }
        Tree::Use {
            token,
            number,
            callees,
            args,
        } => {
            let args = plains_in(alloc, place, args.as_slice(), work)?;
            if *number < place.level {
                let given = close_all(alloc, place, callees.as_slice())?;
                let instance = Instance {
                    number: *number,
                    given,
                };
                use_of(place.table, *token, instance, args, work)
            } else {
                Ok(Plain::Absent { token: *token })
            }
        }
        Tree::Apply {
            token,
            number,
            args,
        } => {
            let args = plains_in(alloc, place, args.as_slice(), work)?;
            let callee = given_at(place, *number);
            apply(alloc, place, *token, callee, args, work)
        }
    }
}

/// Several expressions.
#[cycle(closing)]
fn plains_in(
    alloc: Global,
    place: &Place<'_>,
    trees: &[Tree],
    work: &mut Work,
) -> Result<Items<Plain>, AllocError>
    ensures plains { IfOk result (λ ps. length work.new.wanted ≡ 0
        → SamePlains place.now (map core_of trees.now) (map plain_of ps)) }
    ensures before { OnOk result (length work.new.wanted ≡ 0 → length work.old.wanted ≡ 0) }
{
    name_types(Op::Add, None);
    let mut plains = Items::new(alloc);
    for tree in trees {
        let plain = plain_in(alloc, place, tree, work)?;
        plains.push(plain)?;
    }
    Ok(plains)
}

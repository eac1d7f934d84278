//! Expressions and functions, and what they are written out as.
ghost use Rattle.std.specs.Prelude.{◌≤◌, length, OnOk};
ghost use Rattle.qc_instances.specs.Instances.{AreInstances, bodies_of};

use qc_bodies::{Body, Callee, Leaf, Node, Tree};
use qc_instances::{Declared, Instances, Site};
use qc_words::{Op, Width};
use sqlite_items::Items;
use std::alloc::{AllocError, Global};

/// Names types that stand inside an expression, which a function has to do that adds one.
pub fn name_types(_op: Op, _width: Option<Width>) {}

pub fn list_of_one(alloc: Global, tree: Tree) -> Result<Items<Tree>, AllocError> {
    name_types(Op::Add, None);
    let mut list = Items::new(alloc);
    list.push(tree)?;
    Ok(list)
}

pub fn list_of_two(alloc: Global, left: Tree, right: Tree) -> Result<Items<Tree>, AllocError> {
    let mut list = list_of_one(alloc, left)?;
    list.push(right)?;
    Ok(list)
}

/// The next word of the input.
pub fn word() -> Tree {
    Tree::Leaf {
        token: 9,
        leaf: Leaf::Input,
        width: None,
    }
}

pub fn param(number: usize) -> Tree {
    Tree::Param { number }
}

pub fn unary(alloc: Global, op: Op, arg: Tree) -> Result<Tree, AllocError> {
    let args = list_of_one(alloc, arg)?;
    Ok(Tree::Operate { token: 1, op, args })
}

pub fn sum(alloc: Global, left: Tree, right: Tree) -> Result<Tree, AllocError> {
    let args = list_of_two(alloc, left, right)?;
    Ok(Tree::Operate {
        token: 1,
        op: Op::Add,
        args,
    })
}

/// The use of a function.
pub fn used(alloc: Global, number: usize, args: Items<Tree>) -> Tree {
    Tree::Use {
        token: 2,
        number,
        callees: Items::new(alloc),
        args,
    }
}

pub fn used_at_one(alloc: Global, number: usize, arg: Tree) -> Result<Tree, AllocError> {
    let args = list_of_one(alloc, arg)?;
    Ok(used(alloc, number, args))
}

/// The use of a function that gets functions.
pub fn used_with(
    alloc: Global,
    number: usize,
    callees: Items<Callee>,
    arg: Tree,
) -> Result<Tree, AllocError> {
    let args = list_of_one(alloc, arg)?;
    Ok(Tree::Use {
        token: 2,
        number,
        callees,
        args,
    })
}

/// The use of a parameter that is a function.
pub fn applied(alloc: Global, number: usize, arg: Tree) -> Result<Tree, AllocError> {
    let args = list_of_one(alloc, arg)?;
    Ok(Tree::Apply {
        token: 3,
        number,
        args,
    })
}

pub fn declare(declared: &mut Declared, value: Tree) -> Result<(), AllocError> {
    name_types(Op::Add, None);
    declared.bodies.push(Body::Function { value })
}

/// What an expression is written out as: its size, and the nodes, of which the last is the whole expression.
#[derive(Debug, Drop)]
pub struct Outcome {
    pub size: u32,
    pub nodes: Items<Node>,
    pub place: usize,
}

/// The size of an expression that may use all that is declared.
pub fn size(alloc: Global, declared: &Declared, tree: &Tree) -> Result<u32, AllocError> {
    let mut instances = Instances::new(alloc)?;
    let site = Site {
        level: declared.bodies.len(),
        given: &[],
    };
    instances.size_of(alloc, declared, &site, tree, &[])
}

/// What an expression is that may use all that is declared.
pub fn written_out(alloc: Global, declared: &Declared, tree: &Tree) -> Result<Outcome, AllocError> {
    let mut instances = Instances::new(alloc)?;
    let site = Site {
        level: declared.bodies.len(),
        given: &[],
    };
    let size = instances.size_of(alloc, declared, &site, tree, &[])?;
    let mut nodes = Items::new(alloc);
    let place = instances.write_out(alloc, declared, &site, tree, &[], &mut nodes)?;
    Ok(Outcome { size, nodes, place })
}

/// How many nodes there are in all where an expression is written out so many times.
pub fn repeated(
    alloc: Global,
    declared: &Declared,
    tree: &Tree,
    times: usize,
) -> Result<usize, AllocError> {
    let mut instances = Instances::new(alloc)?;
    let mut count: usize = 0;
    for _time in 0..times {
        let nodes = write_again(alloc, &mut instances, declared, tree)?;
        count = count.saturating_add(nodes);
    }
    Ok(count)
}

fn write_again(
    alloc: Global,
    instances: &mut Instances,
    declared: &Declared,
    tree: &Tree,
) -> Result<usize, AllocError>
    requires { AreInstances (bodies_of declared.now) instances.old }
    ensures { OnOk result (AreInstances (bodies_of declared.now) instances.new) }
{
    let site = Site {
        level: declared.bodies.len(),
        given: &[],
    };
    let mut nodes = Items::new(alloc);
    let _place = instances.write_out(alloc, declared, &site, tree, &[], &mut nodes)?;
    Ok(nodes.len())
}

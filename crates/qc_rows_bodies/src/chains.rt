//! Chains of functions: long ones, those that double each other, those that get functions, and deep ones.
use crate::made::{
    Outcome, applied, declare, list_of_two, name_types, param, repeated, size, sum, unary, used,
    used_at_one, used_with, word, written_out,
};
use qc_bodies::{Callee, Leaf, Node};
use qc_instances::Declared;
use qc_words::Op;
use sqlite_items::Items;
use std::alloc::{AllocError, Global};

fn nothing(alloc: Global) -> Declared {
    Declared {
        bodies: Items::new(alloc),
    }
}

/// `f0 x = neg x`, and so many functions more, each of which is a use of the one before.
fn renamings(alloc: Global, count: usize) -> Result<Declared, AllocError> {
    let mut declared = nothing(alloc);
    declare(&mut declared, unary(alloc, Op::Neg, param(0))?)?;
    for number in 0..count {
        declare(&mut declared, used_at_one(alloc, number, param(0))?)?;
    }
    Ok(declared)
}

/// `f0 x = x`, and so many functions more that each put `neg` round the one before.
fn negations(alloc: Global, count: usize) -> Result<Declared, AllocError> {
    let mut declared = nothing(alloc);
    declare(&mut declared, param(0))?;
    for number in 0..count {
        let inner = used_at_one(alloc, number, param(0))?;
        declare(&mut declared, unary(alloc, Op::Neg, inner)?)?;
    }
    Ok(declared)
}

/// `f0 x = x`, and so many functions more that each add the one before to itself.
fn doublings(alloc: Global, count: usize) -> Result<Declared, AllocError> {
    let mut declared = nothing(alloc);
    declare(&mut declared, param(0))?;
    for number in 0..count {
        let left = used_at_one(alloc, number, param(0))?;
        let right = used_at_one(alloc, number, param(0))?;
        declare(&mut declared, sum(alloc, left, right)?)?;
    }
    Ok(declared)
}

/// `f0 x y = x`, and so many functions more: `f x y = g (g x y) (g y x)` with the one before as `g`.
fn projections(alloc: Global, count: usize) -> Result<Declared, AllocError> {
    let mut declared = nothing(alloc);
    declare(&mut declared, param(0))?;
    for number in 0..count {
        let first = used(alloc, number, list_of_two(alloc, param(0), param(1))?);
        let second = used(alloc, number, list_of_two(alloc, param(1), param(0))?);
        let whole = used(alloc, number, list_of_two(alloc, first, second)?);
        declare(&mut declared, whole)?;
    }
    Ok(declared)
}

/// The eight functions that a function got, turned by one.
fn turned(alloc: Global) -> Result<Items<Callee>, AllocError> {
    name_types(Op::Add, None);
    let mut callees = Items::new(alloc);
    for number in 1..8 {
        callees.push(Callee::Given { number })?;
    }
    callees.push(Callee::Given { number: 0 })?;
    Ok(callees)
}

/// `neg`, a function `com`, and again both, four times in turn.
fn eight(alloc: Global) -> Result<Items<Callee>, AllocError> {
    let mut callees = Items::new(alloc);
    for _ in 0..4 {
        callees.push(Callee::Operator { op: Op::Neg })?;
        callees.push(Callee::Declared { number: 0 })?;
    }
    Ok(callees)
}

/// `com`, a function that applies the first two of eight functions, and so many functions more, each of which hands them on
/// to the one before, turned by one.
fn handing_on(alloc: Global, count: usize) -> Result<Declared, AllocError> {
    let mut declared = nothing(alloc);
    declare(&mut declared, unary(alloc, Op::Com, param(0))?)?;
    let inner = applied(alloc, 1, param(0))?;
    declare(&mut declared, applied(alloc, 0, inner)?)?;
    for number in 0..count {
        let callees = turned(alloc)?;
        declare(
            &mut declared,
            used_with(alloc, number.saturating_add(1), callees, param(0))?,
        )?;
    }
    Ok(declared)
}

const WORD: Node = Node::Leaf {
    token: 9,
    leaf: Leaf::Input,
    width: None,
};

fn unary_node(op: Op, token: usize, arg: usize) -> Node {
    Node::Unary { token, op, arg }
}

#[test]
fn sixty_thousand_renamings(rt: HostRuntime) {
    let alloc = rt.alloc();
    let declared = renamings(alloc, 60_000).expect(&rt, "memory");
    let tree = used_at_one(alloc, 60_000, word()).expect(&rt, "memory");
    let Outcome { size, nodes, place } = written_out(alloc, &declared, &tree).expect(&rt, "memory");
    assert_eq!(rt; size, 2);
    assert_eq!(rt;
        nodes.as_slice(),
        [WORD, unary_node(Op::Neg, 1, 0)].as_slice()
    );
    assert_eq!(rt; place, 1);
    assert_eq!(rt;
        repeated(alloc, &declared, &tree, 256).expect(&rt, "memory"),
        512
    );
}

#[test]
fn doubled_sizes_are_told(rt: HostRuntime) {
    let alloc = rt.alloc();
    let declared = doublings(alloc, 40).expect(&rt, "memory");
    // 2 to the power of so many words, and one addition fewer
    for (number, wanted) in [
        (0, 1),
        (1, 3),
        (2, 7),
        (10, 2047),
        (11, 4095),
        (12, 4097),
        (40, 4097),
    ] {
        let tree = used_at_one(alloc, number, word()).expect(&rt, "memory");
        assert_eq!(rt;
            size(alloc, &declared, &tree).expect(&rt, "memory"),
            wanted,
            "{number}"
        );
    }
    let tree = used_at_one(alloc, 11, word()).expect(&rt, "memory");
    let Outcome {
        size: _,
        nodes,
        place: _,
    } = written_out(alloc, &declared, &tree).expect(&rt, "memory");
    // all additions, and the one word that is shared
    assert_eq!(rt; nodes.len(), 2048);
}

#[test]
fn doubled_projections_are_one_word(rt: HostRuntime) {
    let alloc = rt.alloc();
    let declared = projections(alloc, 60).expect(&rt, "memory");
    let both = list_of_two(alloc, word(), param(5)).expect(&rt, "memory");
    let tree = used(alloc, 60, both);
    let Outcome { size, nodes, place } = written_out(alloc, &declared, &tree).expect(&rt, "memory");
    assert_eq!(rt; size, 1);
    assert_eq!(rt; nodes.as_slice(), [WORD].as_slice());
    assert_eq!(rt; place, 0);
}

#[test]
fn eight_functions_are_handed_on(rt: HostRuntime) {
    let alloc = rt.alloc();
    let declared = handing_on(alloc, 30_001).expect(&rt, "memory");
    let callees = eight(alloc).expect(&rt, "memory");
    // 30,000 turns are none, so the first two are `neg` and `com`; one turn more, and they are `com` and `neg`
    let tree = used_with(alloc, 30_001, callees, word()).expect(&rt, "memory");
    let Outcome {
        size,
        nodes,
        place: _,
    } = written_out(alloc, &declared, &tree).expect(&rt, "memory");
    assert_eq!(rt; size, 3);
    assert_eq!(rt;
        nodes.as_slice(),
        [WORD, unary_node(Op::Com, 1, 0), unary_node(Op::Neg, 3, 1)].as_slice()
    );
    let callees = eight(alloc).expect(&rt, "memory");
    let tree = used_with(alloc, 30_002, callees, word()).expect(&rt, "memory");
    let Outcome {
        size: _,
        nodes,
        place: _,
    } = written_out(alloc, &declared, &tree).expect(&rt, "memory");
    assert_eq!(rt;
        nodes.as_slice(),
        [WORD, unary_node(Op::Neg, 3, 0), unary_node(Op::Com, 1, 1)].as_slice()
    );
}

#[test]
fn four_thousand_nodes_deep(rt: HostRuntime) {
    let alloc = rt.alloc();
    let declared = negations(alloc, 4_095).expect(&rt, "memory");
    let tree = used_at_one(alloc, 4_095, word()).expect(&rt, "memory");
    let Outcome { size, nodes, place } = written_out(alloc, &declared, &tree).expect(&rt, "memory");
    assert_eq!(rt; size, 4_096);
    assert_eq!(rt; nodes.len(), 4_096);
    assert_eq!(rt; place, 4_095);
    assert_eq!(rt;
        nodes.as_slice().last(),
        Some(&unary_node(Op::Neg, 1, 4_094))
    );
}

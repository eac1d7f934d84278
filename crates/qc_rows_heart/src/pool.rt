//! Rows on pools: ids of terms that come and go.

use crate::terms::{put, term, width};
use qc_pool::{Mark, Node, Pool, TermId};
use qc_words::Op;
use std::alloc::Global;
use std::process::Abort;

/// The id of a number of 32 bits.
fn number(rt: &impl Abort, pool: &mut Pool, value: u64) -> TermId {
    let width = width(rt, 32);
    put(rt, pool, Node::Num { value, width })
}

/// Takes out what came after a mark that isn't past the pool's end.
fn release(rt: &impl Abort, pool: &mut Pool, mark: Mark) {
    assert!(rt; mark.number() <= pool.len());
    pool.release(mark);
}

/// The text of the tree of an id.
fn text(rt: &impl Abort, alloc: Global, pool: &Pool, id: TermId) -> String {
    assert!(rt; id.number() < pool.len());
    let tree = pool.tree(alloc, id).ok().expect(rt, "memory");
    format!(in alloc; "{tree:?}").expect(rt, "memory")
}

#[test]
fn numbers_and_a_sum(rt: HostRuntime) {
    let alloc = rt.alloc();
    let mut pool = Pool::new(alloc).ok().expect(&rt, "memory");
    let five = number(&rt, &mut pool, 5);
    assert_eq!(rt; five.number(), 0);
    assert_eq!(rt; number(&rt, &mut pool, 5), five);
    let six = number(&rt, &mut pool, 6);
    assert_eq!(rt; six.number(), 1);
    let mark = pool.mark();
    let sum = put(
        &rt,
        &mut pool,
        Node::Bin {
            op: Op::Add,
            left: five,
            right: six,
        },
    );
    assert_eq!(rt; sum.number(), 2);
    release(&rt, &mut pool, mark);
    assert_eq!(rt; pool.len(), 2);
    let seven = number(&rt, &mut pool, 7);
    assert_eq!(rt; seven.number(), 2);
    let tree = text(&rt, alloc, &pool, seven);
    assert_eq!(rt; tree.as_str(), "Num { value: 7, width: Width(32) }");
    let end = pool.mark();
    release(&rt, &mut pool, end);
    assert_eq!(rt; pool.len(), 3);
    assert_eq!(rt; number(&rt, &mut pool, 7), seven);
}

#[test]
fn equal_numbers_of_two_widths(rt: HostRuntime) {
    let alloc = rt.alloc();
    let mut pool = Pool::new(alloc).ok().expect(&rt, "memory");
    let wide = term(&rt, alloc, &mut pool, "1'32");
    let narrow = term(&rt, alloc, &mut pool, "1'16");
    assert!(rt; wide != narrow);
    assert_eq!(rt; pool.len(), 2);
}

/// A thousand numbers that go leave no trace.
#[test]
fn numbers_come_again(rt: HostRuntime) {
    let mut pool = Pool::new(rt.alloc()).ok().expect(&rt, "memory");
    number(&rt, &mut pool, 5);
    let mark = pool.mark();
    for value in 1000..2000 {
        number(&rt, &mut pool, value);
    }
    assert_eq!(rt; pool.len(), 1001);
    release(&rt, &mut pool, mark);
    assert_eq!(rt; number(&rt, &mut pool, 1000).number(), mark.number());
}

/// A sum of three equal registers has three different terms.
#[test]
fn terms_are_shared(rt: HostRuntime) {
    let alloc = rt.alloc();
    let mut other = Pool::new(alloc).ok().expect(&rt, "memory");
    number(&rt, &mut other, 5);
    let there = term(&rt, alloc, &mut other, "a a a add add");
    assert!(rt; there.number() < other.len());
    let width = other.width(there);
    assert_eq!(rt; width.bits(), 32);
    let sum = other.tree(alloc, there).ok().expect(&rt, "memory");
    let mut pool = Pool::new(alloc).ok().expect(&rt, "memory");
    let id = pool.intern(&sum).ok().expect(&rt, "memory");
    assert_eq!(rt; pool.len(), 3);
    assert_eq!(rt; id.number(), 2);
    assert_eq!(rt; term(&rt, alloc, &mut pool, "a a a add add"), id);
}

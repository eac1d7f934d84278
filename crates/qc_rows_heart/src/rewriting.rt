//! Rows on laws at places, and on all terms that they lead to.

use crate::terms::term;
use qc_laws::law_by_name;
use qc_pool::Pool;
use qc_rewrite::{closure, rewrite_at};
use std::alloc::Global;
use std::process::Abort;

/// A law, a place, a term, and the term where the law is used there: nothing where it can't be.
static ROWS: [(&str, &[u32], &str, &str); 14] = [
    ("sub-neg", &[], "a b add", ""),
    ("sub-neg", &[], "a b sub", "a b neg add"),
    ("sub-neg", &[0], "a b sub c add", "a b neg add c add"),
    ("sub-neg", &[1], "a b sub c add", ""),
    ("sub-neg", &[1], "c a b sub add", "c a b neg add add"),
    ("sub-neg", &[2], "c a b sub add", ""),
    ("sub-neg", &[0, 0], "a b sub neg com", "a b neg add neg com"),
    ("sub-neg", &[0, 1], "a b sub neg com", ""),
    ("sub-neg", &[0, 0, 0], "a b sub neg com", ""),
    (
        "add-zero",
        &[0, 0, 1],
        "a b sub neg com",
        "a b 0'32 add sub neg com",
    ),
    ("add-swap", &[0], "a 4'32 add 8 load", "4'32 a add 8 load"),
    ("add-swap", &[1], "a 4'32 add 8 load", ""),
    ("add-swap", &[], "a 4'32 add 8 load", ""),
    (
        "or-zero",
        &[],
        "a 4'32 add 8 load",
        "a 4'32 add 8 load 0'8 or",
    ),
];

/// Terms, and how many others at most one step, and at most two, make of them, as a program of its own counts them
/// (compare/closures.py). The term itself counts.
static CLOSURES: [(&str, usize, usize); 15] = [
    ("a", 3, 28),
    ("bit", 3, 16),
    ("a b add", 9, 115),
    ("a a add", 8, 107),
    ("a b sub", 9, 126),
    ("a 0'32 add", 15, 670),
    ("a neg", 7, 93),
    ("bit com 32 zx", 11, 124),
    ("a b eq", 10, 125),
    ("k", 9, 564),
    ("300'9", 5, 114),
    ("a 255'32 and", 16, 711),
    ("a b ltu 32 zx", 11, 172),
    ("a b add c add", 16, 255),
    ("a 4'32 add 8 load", 17, 739),
];

/// A row holds in a new pool.
fn expect_row(rt: &impl Abort, alloc: Global, row: &(&str, &[u32], &str, &str)) {
    let (name, place, text, wanted) = *row;
    let law = law_by_name(name.as_bytes()).expect(rt, "a law");
    let mut pool = Pool::new(alloc).ok().expect(rt, "memory");
    let id = term(rt, alloc, &mut pool, text);
    assert!(rt; id.number() < pool.len());
    let given = rewrite_at(&mut pool, law, id, place)
        .ok()
        .expect(rt, "memory");
    match given {
        None => assert_eq!(rt; wanted, "", "{name} in {text}"),
        Some(given) => {
            let wanted = term(rt, alloc, &mut pool, wanted);
            assert_eq!(rt; given.number(), wanted.number(), "{name} in {text}");
        }
    }
}

#[test]
fn rows(rt: HostRuntime) {
    for row in &ROWS {
        expect_row(&rt, rt.alloc(), row);
    }
}

/// The number of terms that at most so many steps make of the term of a text.
fn count(rt: &impl Abort, alloc: Global, text: &str, steps: u32) -> usize {
    let mut pool = Pool::new(alloc).ok().expect(rt, "memory");
    let id = term(rt, alloc, &mut pool, text);
    assert!(rt; id.number() < pool.len());
    let found = closure(alloc, &mut pool, id, steps)
        .ok()
        .expect(rt, "memory");
    found.len()
}

#[test]
fn closures(rt: HostRuntime) {
    for (text, one, two) in &CLOSURES {
        assert_eq!(rt; count(&rt, rt.alloc(), text, 0), 1, "{text}");
        assert_eq!(rt; count(&rt, rt.alloc(), text, 1), *one, "{text}");
        assert_eq!(rt; count(&rt, rt.alloc(), text, 2), *two, "{text}");
    }
}

/// With no steps there is the term alone.
#[test]
fn no_steps(rt: HostRuntime) {
    let mut pool = Pool::new(rt.alloc()).ok().expect(&rt, "memory");
    let id = term(&rt, rt.alloc(), &mut pool, "a b sub");
    assert!(rt; id.number() < pool.len());
    let found = closure(rt.alloc(), &mut pool, id, 0)
        .ok()
        .expect(&rt, "memory");
    assert_eq!(rt; found.len(), 1);
    let (only, path) = &found[0];
    assert_eq!(rt; only.number(), id.number());
    assert!(rt; path.is_empty());
}

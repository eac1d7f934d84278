//! Rows on laws: for each one a term that it matches, with what it gives, and one that it just misses.

use crate::terms::{put, term, width};
use qc_laws::{AddSwap, AddZero, AlgLaw, LAWS, law_by_name, law_gives, law_matches, law_name};
use qc_pool::{Node, Pool, TermId};
use qc_terms::Place;
use qc_words::Op;
use std::alloc::Global;
use std::process::Abort;

/// A law, a term, and what the law gives for it: nothing where it doesn't match.
static ROWS: [(&str, &str, &str); 112] = [
    ("add-zero", "a", "a 0'32 add"),
    ("add-zero", "bit", "bit 0'1 add"),
    ("or-zero", "a", "a 0'32 or"),
    ("or-zero", "bit", "bit 0'1 or"),
    ("add-zero-drop", "a 0'32 add", "a"),
    ("add-zero-drop", "a 1'32 add", ""),
    ("add-zero-drop", "0'32 a add", ""),
    ("or-zero-drop", "a 0'32 or", "a"),
    ("or-zero-drop", "a 0'32 add", ""),
    ("xor-zero-drop", "a 0'32 xor", "a"),
    ("xor-zero-drop", "0'32 a xor", ""),
    ("shl-zero-drop", "a 0'32 shl", "a"),
    ("shl-zero-drop", "a 0'32 shrl", ""),
    ("and-ones-drop", "a 4294967295'32 and", "a"),
    ("and-ones-drop", "a 4294967294'32 and", ""),
    ("and-ones-drop", "bit 1'1 and", "bit"),
    ("add-swap", "a b add", "b a add"),
    ("add-swap", "a b sub", ""),
    ("and-swap", "a b and", "b a and"),
    ("and-swap", "a b or", ""),
    ("or-swap", "a b or", "b a or"),
    ("or-swap", "a b xor", ""),
    ("xor-swap", "a b xor", "b a xor"),
    ("xor-swap", "a b and", ""),
    ("eq-swap", "a b eq", "b a eq"),
    ("eq-swap", "a b ne", ""),
    ("ne-swap", "a b ne", "b a ne"),
    ("ne-swap", "a b lt", ""),
    ("mul-swap", "a b mul", "b a mul"),
    ("mul-swap", "a b divu", ""),
    ("add-left", "a b c add add", "a b add c add"),
    ("add-left", "a b add c add", ""),
    ("add-right", "a b add c add", "a b c add add"),
    ("add-right", "a b sub c add", ""),
    ("sub-neg", "a b sub", "a b neg add"),
    ("sub-neg", "a b add", ""),
    ("neg-sub", "a neg", "0'32 a sub"),
    ("neg-sub", "a com", ""),
    ("neg-com", "a neg", "a com 1'32 add"),
    ("neg-com", "a", ""),
    ("com-xor", "a com", "a 4294967295'32 xor"),
    ("com-xor", "a neg", ""),
    ("com-sub", "a com", "4294967295'32 a sub"),
    ("com-sub", "a neg", ""),
    ("com-neg", "bit com", "bit neg 1'1 sub"),
    ("com-neg", "a neg", ""),
    ("xor-or-and", "a b xor", "a b or a b and sub"),
    ("xor-or-and", "a b or", ""),
    ("or-xor-and", "a b or", "a b xor a b and add"),
    ("or-xor-and", "a b and", ""),
    ("and-or", "a b and", "a com b com or com"),
    ("and-or", "a b or", ""),
    ("or-and", "a b or", "a com b com and com"),
    ("or-and", "a b and", ""),
    ("sub-com", "a b sub", "a com b add com"),
    ("sub-com", "a b add", ""),
    ("add-sub", "a b add", "a b neg sub"),
    ("add-sub", "a b sub", ""),
    ("eq-ltu", "a b eq", "a b xor 1'32 ltu"),
    ("eq-ltu", "a b ne", ""),
    ("ne-ltu", "a b ne", "0'32 a b xor ltu"),
    ("ne-ltu", "a b eq", ""),
    (
        "lt-ltu",
        "a b lt",
        "a 2147483648'32 xor b 2147483648'32 xor ltu",
    ),
    ("lt-ltu", "a b ltu", ""),
    (
        "ltu-lt",
        "a b ltu",
        "a 2147483648'32 xor b 2147483648'32 xor lt",
    ),
    ("ltu-lt", "a b lt", ""),
    ("eq-ne", "a b eq", "a b ne com"),
    ("eq-ne", "a b ne", ""),
    ("ne-eq", "a b ne", "a b eq com"),
    ("ne-eq", "a b eq", ""),
    ("lt-ge", "a b lt", "a b ge com"),
    ("lt-ge", "a b ge", ""),
    ("ge-lt", "a b ge", "a b lt com"),
    ("ge-lt", "a b lt", ""),
    ("ltu-geu", "a b ltu", "a b geu com"),
    ("ltu-geu", "a b lt", ""),
    ("geu-ltu", "a b geu", "a b ltu com"),
    ("geu-ltu", "a b ge", ""),
    ("zx-com", "bit com 32 zx", "bit 32 zx 1'32 xor"),
    ("zx-com", "a com 64 zx", ""),
    ("zx-com", "bit com 32 sx", ""),
    (
        "split8",
        "305419896'32",
        "305419896'32 305419896'32 0 8 slice 32 sx sub 8 24 slice 32 zx 8'32 shl 305419896'32 0 8 slice 32 sx add",
    ),
    ("split8", "a", ""),
    ("split8", "5'8", ""),
    (
        "split12",
        "305419896'32",
        "305419896'32 305419896'32 0 12 slice 32 sx sub 12 20 slice 32 zx 12'32 shl 305419896'32 0 12 slice 32 sx add",
    ),
    ("split12", "a", ""),
    ("split12", "5'12", ""),
    (
        "split16",
        "305419896'32",
        "305419896'32 305419896'32 0 16 slice 32 sx sub 16 16 slice 32 zx 16'32 shl 305419896'32 0 16 slice 32 sx add",
    ),
    ("split16", "a", ""),
    ("split16", "5'16", ""),
    (
        "part8",
        "305419896'32",
        "305419896'32 8 24 slice 32 zx 8'32 shl 305419896'32 0 8 slice 32 zx or",
    ),
    ("part8", "input", ""),
    ("part8", "5'8", ""),
    (
        "part12",
        "305419896'32",
        "305419896'32 12 20 slice 32 zx 12'32 shl 305419896'32 0 12 slice 32 zx or",
    ),
    ("part12", "input", ""),
    ("part12", "5'12", ""),
    (
        "part16",
        "305419896'32",
        "305419896'32 16 16 slice 32 zx 16'32 shl 305419896'32 0 16 slice 32 zx or",
    ),
    ("part16", "input", ""),
    ("part16", "5'16", ""),
    (
        "split12",
        "k",
        "k k 0 12 slice 32 sx sub 12 20 slice 32 zx 12'32 shl k 0 12 slice 32 sx add",
    ),
    (
        "part8",
        "k 1'32 add",
        "k 1'32 add 8 24 slice 32 zx 8'32 shl k 1'32 add 0 8 slice 32 zx or",
    ),
    ("zx-and", "a 0 8 slice 32 zx", "a 255'32 and"),
    ("zx-and", "a 0 32 slice 32 zx", "a 4294967295'32 and"),
    ("zx-and", "a 1 8 slice 32 zx", ""),
    ("zx-and", "a 0 8 slice 16 zx", ""),
    ("and-zx", "a 255'32 and", "a 0 8 slice 32 zx"),
    ("and-zx", "a 254'32 and", ""),
    ("and-zx", "a 4294967295'32 and", ""),
    ("and-zx", "a 0'32 and", ""),
    ("sx-shifts", "a 0 8 slice 32 sx", "a 24'32 shl 24'32 shra"),
    ("sx-shifts", "a 0 32 slice 32 sx", "a 0'32 shl 0'32 shra"),
    ("sx-shifts", "a 8 8 slice 32 sx", ""),
];

/// A row holds in a new pool.
fn expect_row(rt: &impl Abort, alloc: Global, name: &str, text: &str, wanted: &str) {
    let law = law_by_name(name.as_bytes()).expect(rt, "a law");
    let mut pool = Pool::new(alloc).ok().expect(rt, "memory");
    let id = term(rt, alloc, &mut pool, text);
    assert!(rt; id.number() < pool.len());
    let matches = law_matches(&pool, law, id);
    assert_eq!(rt; matches, wanted != "", "{name} at {text}");
    let given = law_gives(&mut pool, law, id).ok().expect(rt, "memory");
    match given {
        None => assert!(rt; !matches),
        Some(given) => {
            let wanted = term(rt, alloc, &mut pool, wanted);
            assert_eq!(rt; given.number(), wanted.number(), "{name} at {text}");
        }
    }
}

#[test]
fn rows(rt: HostRuntime) {
    for (name, text, wanted) in &ROWS {
        expect_row(&rt, rt.alloc(), name, text, wanted);
    }
}

#[test]
fn names(rt: HostRuntime) {
    for law in LAWS {
        assert_eq!(&rt; law_by_name(law_name(law)), Some(law));
    }
    assert_eq!(rt; law_by_name(b"xor_or_and"), law_by_name(b"xor-or-and"));
    assert!(rt; law_by_name(b"xor_or_and").is_some());
    for name in [b"split9".as_slice(), b"xor_or-and", b"add-zer", b""] {
        assert_eq!(rt; law_by_name(name), None);
    }
}

/// The node of a term whose number is below the pool's.
fn node(rt: &impl Abort, pool: &Pool, id: TermId) -> Node {
    assert!(rt; id.number() < pool.len());
    pool.node(id)
}

/// Sixty sums of the last term with itself, after the first one.
fn doubled(rt: &impl Abort, pool: &mut Pool, first: TermId) -> TermId {
    let mut last = first;
    for _ in 0..60 {
        let (left, right) = (last, last);
        let op = Op::Add;
        last = put(rt, pool, Node::Bin { op, left, right });
    }
    last
}

/// A number, and sixty sums of the last term with itself: they are constant, and a law gives eight terms for the last one.
#[test]
fn shared_constants(rt: HostRuntime) {
    let mut pool = Pool::new(rt.alloc()).ok().expect(&rt, "memory");
    let width = width(&rt, 32);
    let one = put(&rt, &mut pool, Node::Num { value: 1, width });
    let last = doubled(&rt, &mut pool, one);
    assert_eq!(rt; pool.len(), 61);
    assert!(rt; last.number() < pool.len());
    assert!(rt; pool.is_constant(last));
    let law = law_by_name(b"split12").expect(&rt, "a law");
    let given = law_gives(&mut pool, law, last).ok().expect(&rt, "memory");
    assert_eq!(rt; given.expect(&rt, "a term").number(), 68);
    assert_eq!(rt; pool.len(), 69);
}

/// A register, and sixty sums of the last term with itself: what two laws give for the last one.
#[test]
fn shared_sums(rt: HostRuntime) {
    let mut pool = Pool::new(rt.alloc()).ok().expect(&rt, "memory");
    let width = width(&rt, 32);
    let place = Place::Cell { space: 0, index: 1 };
    let register = put(&rt, &mut pool, Node::Reg { place, width });
    let last = doubled(&rt, &mut pool, register);
    assert_eq!(rt; pool.len(), 61);
    assert_eq!(rt; last.number(), 60);
    assert!(rt; last.number() < pool.len());
    assert!(rt; AddSwap.matches(&pool, last));
    let swapped = AddSwap.result(&mut pool, last).ok().expect(&rt, "memory");
    assert_eq!(rt; swapped.number(), 60);
    assert!(rt; last.number() < pool.len());
    assert!(rt; AddZero.matches(&pool, last));
    let sum = AddZero.result(&mut pool, last).ok().expect(&rt, "memory");
    let zero = put(&rt, &mut pool, Node::Num { value: 0, width });
    assert_eq!(rt;
        node(&rt, &pool, sum),
        Node::Bin {
            op: Op::Add,
            left: last,
            right: zero
        }
    );
}

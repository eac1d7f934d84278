//! Names of a coding's text.
use crate::descriptions::{INSTRUCTIONS, ONE, Row, WORD, expect_rows, fault_with};
use qc_join::JoinFault;
use std::alloc::Global;
use std::process::Abort;

/// Texts behind the coding's name, in which a name is unknown, with its token. Each text's first token is number 2.
const UNKNOWN_NAMES: [(&[u8], usize); 15] = [
    (b"fields t 8 (x 7:0) constructor j(a) is x = a", 12),
    (b"fields t 8 (x 7:0) constructor i(a) is y = a", 17),
    (b"fields t 8 (x 7:0) constructor i(a) is x = b", 19),
    (b"fields t 8 (x 7:0) constructor i(a) is x = b{1 .. 0}", 19),
    (b"fields t 8 (x 7:0) constructor i(a) is p", 17),
    (b"fields t 8 (x 7:0) constructor i(a) is x", 17),
    (b"fields t 8 (x 7:0) constructor i(a) is a = 1", 17),
    (
        b"fields t 8 (x 7:0) constructor i(a) is p pattern p is x = 1",
        17,
    ),
    (b"fields t 8 (x 7:0) pattern p is p", 14),
    (b"fields t 8 (x 7:0) pattern p is x = a", 16),
    (b"fields t 8 (x 7:0) pattern p is x = p", 16),
    (
        b"fields t 8 (x 7:0) pattern p is x = 1 constructor i(a) is (x = 1 | (p ; q & p))",
        31,
    ),
    (
        b"fields t 8 (x 7:0) constructor i(a) is x = 1 & z = a & y = a",
        21,
    ),
    (
        b"fields t 8 (x 7:0) constructor i(a) is z = 1 fields t 8 (x 7:0)",
        17,
    ),
    (b"constructor j() is y = 1 constructor j() is y = 1", 3),
];

/// The same with a second declaration.
const TWICE_NAMED: [(&[u8], usize); 9] = [
    (b"fields t 8 (a 7:0) fields t 8 (b 7:0)", 12),
    (b"fields t 8 (a 7:4, a 3:0)", 11),
    (b"fields t 8 (a 7:0) fields u 8 (a 7:0)", 15),
    (
        b"fields t 8 (x 7:0) pattern p is x = 1 pattern p is x = 2",
        18,
    ),
    (
        b"fields t 8 (x 7:0) constructor i(a) is x = 1 constructor i(a) is x = 2",
        21,
    ),
    (b"fields t 8 (x 7:0) constructor i(a, a) is x = 1", 16),
    (b"fields t 8 (a 7:4, a 3:0) constructor j() is a = 1", 11),
    (b"fields t 8 (x 7:0) constructor i(a, b, a) is y = 1", 18),
    (
        b"fields t 8 (a 7:0, b 7:0, c 7:0) fields u 8 (d 7:0, c 7:0)",
        30,
    ),
];

fn expect_name_fault(rt: &impl Abort, alloc: Global, items: &[u8], fault: JoinFault) {
    let mut sled = Vec::from_slice(alloc, b"coding m ").expect(rt, "memory");
    sled.extend_from_slice(items).expect(rt, "memory");
    // Another fault, of the layout, doesn't count.
    let reported = fault_with(rt, alloc, WORD, b"", sled.as_slice());
    assert_eq!(rt; reported, Some(fault), "of {items:?}");
}

#[test]
fn unknown_names(rt: HostRuntime) {
    for &(items, token) in &UNKNOWN_NAMES {
        expect_name_fault(&rt, rt.alloc(), items, JoinFault::UnknownName { token });
    }
}

#[test]
fn second_declarations(rt: HostRuntime) {
    for &(items, token) in &TWICE_NAMED {
        expect_name_fault(&rt, rt.alloc(), items, JoinFault::TwiceNamed { token });
    }
}

/// Names that stand for things of several kinds.
const SEVERAL_KINDS: [Row; 2] = [
    (
        ONE,
        b"constructor i(a) is op = 1 & a = a fields i 8 (op 5:0, a 7:6)",
        None,
    ),
    (
        ONE,
        b"fields a 8 (op 5:0, a 7:6) pattern a is op = 1 constructor i(a) is a & a = a",
        None,
    ),
];

#[test]
fn names_of_several_kinds(rt: HostRuntime) {
    let reported = fault_with(&rt, rt.alloc(), INSTRUCTIONS, ONE, b"coding n");
    assert_eq!(rt; reported, Some(JoinFault::UnknownName { token: 1 }));
    expect_rows(&rt, rt.alloc(), SEVERAL_KINDS.as_slice());
}

//! Codings that leave bits open, and what doesn't fit into fields and tokens.
use crate::descriptions::{FIELD_RANGE, JUMP, NUMBER, ONE, Row, TWO, UNCOVERED, expect_rows};

const CODINGS_THAT_LEAVE_BITS_OPEN: [Row; 28] = [
    (ONE, b"", UNCOVERED),
    (
        ONE,
        b"fields t 8 (op 5:0, a 7:6) constructor i() is op = 1",
        UNCOVERED,
    ),
    (
        ONE,
        b"fields t 8 (op 5:0, a 7:6) constructor i(b) is op = 1 & a = b",
        UNCOVERED,
    ),
    (
        ONE,
        b"fields t 8 (op 5:0, a 7:6) constructor i(a, b) is op = 1 & a = a",
        UNCOVERED,
    ),
    (
        TWO,
        b"fields t 8 (z 3:0, a 5:4, b 7:6) constructor i(a, b) is z = 1 & a = a & b = b",
        None,
    ),
    (
        TWO,
        b"fields t 8 (z 3:0, a 5:4, b 7:6) constructor i(b, a) is z = 1 & a = a & b = b",
        UNCOVERED,
    ),
    (
        JUMP,
        b"fields t 16 (x 15:0) constructor i(t) is x = t",
        UNCOVERED,
    ),
    (
        JUMP,
        b"fields t 16 (x 15:0) constructor i(t: abs 16) is x = t",
        None,
    ),
    (
        ONE,
        b"fields t 8 (op 5:0, a 7:6) constructor i(a: rel 2) is op = 1 & a = a",
        UNCOVERED,
    ),
    (
        ONE,
        b"fields t 8 (op 5:0, a 7:6) constructor i(a: abs 2) is op = 64 & a = a",
        UNCOVERED,
    ),
    (
        ONE,
        b"fields t 8 (op 5:0, a 7:6) constructor i(a) is op = 1 & a = a | op = 2 & a = a",
        UNCOVERED,
    ),
    (
        ONE,
        b"fields t 8 (op 5:0, a 7:6) pattern p is op = 1 | op = 2 constructor i(a) is p & a = a",
        UNCOVERED,
    ),
    (
        ONE,
        b"fields t 8 (op 5:0, a 7:6) constructor i(a) is (op = 64 | op = 65) & a = 4",
        UNCOVERED,
    ),
    (
        ONE,
        b"fields t 8 (op 5:0, a 7:6) constructor i(a) is (op = 64 ; (op = 1 | op = 2))",
        UNCOVERED,
    ),
    (
        ONE,
        b"fields t 8 (op 5:0, a 7:6) constructor i(a) is ((op = 1) & ((a = a)))",
        None,
    ),
    (
        ONE,
        b"fields t 8 (op 5:0, a 7:6) constructor i(a) is a = a",
        UNCOVERED,
    ),
    (
        ONE,
        b"fields t 8 (op 4:0, a 7:6) constructor i(a) is op = 1 & a = a",
        UNCOVERED,
    ),
    (
        ONE,
        b"fields t 8 (op 5:0, a 7:6) constructor i(a) is op = 1 & a = 0",
        UNCOVERED,
    ),
    (
        ONE,
        b"fields t 8 (op 5:0, lo 6:6, hi 7:7) constructor i(a) is op = 1 & lo = 0 & hi = a{1 .. 1}",
        UNCOVERED,
    ),
    (
        ONE,
        b"fields t 8 (op 5:0, lo 6:6, hi 7:7) constructor i(a) is op = 1 & lo = a{0 .. 0} & hi = a{1..1}",
        None,
    ),
    (
        ONE,
        b"fields t 8 (op 3:0, a 5:4, b 7:6) constructor i(a) is op = 1 & a = a & b = a",
        UNCOVERED,
    ),
    (
        ONE,
        b"fields t 8 (op 5:0, lo 0:0, a 7:6) constructor i(a) is op = 1 & lo = a{0..0} & a = a",
        UNCOVERED,
    ),
    (
        NUMBER,
        b"fields t 8 (op 4:0, k 7:5) constructor i(k) is op = 1 & k = k{3 .. 1}",
        UNCOVERED,
    ),
    (
        JUMP,
        b"fields t 8 (op 3:0, d 7:4) constructor i(t: rel 6) is op = 5 & d = t{5 .. 2}",
        None,
    ),
    (
        JUMP,
        b"fields t 8 (op 3:0, d 7:4) constructor i(t: rel 6) is op = 5 & d = t{4 .. 1}",
        UNCOVERED,
    ),
    (
        JUMP,
        b"fields t 8 (op 3:0, b 5:4, d 7:6) constructor i(t: rel 6) is op = 5 & b = t{1 .. 0} & d = t{5 .. 4}",
        UNCOVERED,
    ),
    (
        JUMP,
        b"fields t 8 (op 7:0) constructor i(t: abs 3) is op = 5",
        None,
    ),
    (
        b"instr i(x: o) = out := x; ",
        b"fields t 8 (op 7:0) constructor i(x) is op = 5",
        None,
    ),
];

#[test]
fn codings_that_leave_bits_open(rt: HostRuntime) {
    expect_rows(&rt, rt.alloc(), CODINGS_THAT_LEAVE_BITS_OPEN.as_slice());
}

const FIELDS_THAT_DO_NOT_FIT: [Row; 20] = [
    (
        ONE,
        b"fields t 8 (op 5:0, a 7:6) constructor i(a) is op = 63 & a = a",
        None,
    ),
    (
        ONE,
        b"fields t 8 (op 5:0, a 7:6) constructor i(a) is op = 64 & a = a",
        FIELD_RANGE,
    ),
    (
        ONE,
        b"fields t 8 (op 5:0, a 7:6) constructor i(a) is op = 0x10000000000000000",
        FIELD_RANGE,
    ),
    (
        ONE,
        b"fields t 8 (op 5:0, lo 0:0, a 7:6) constructor i(a) is op = 1 & lo = 1 & a = a",
        FIELD_RANGE,
    ),
    (
        ONE,
        b"fields t 8 (op 4:0, lo 0:0, a 7:6) constructor i(a) is op = 1 & lo = 1 & a = a",
        UNCOVERED,
    ),
    (
        ONE,
        b"fields t 8 (op 5:0, a 7:6) constructor i(a) is op = a & a = a",
        FIELD_RANGE,
    ),
    (
        ONE,
        b"fields t 8 (op 5:0, a 7:6) constructor i(a) is op = 1 & a = a{2 .. 1}",
        FIELD_RANGE,
    ),
    (
        ONE,
        b"fields t 8 (op 5:0, a 7:6) constructor i(a) is op = 1 & a = a{0 .. 1}",
        FIELD_RANGE,
    ),
    (
        ONE,
        b"fields t 8 (op 6:0, a 7:7) constructor i(a) is op = 1 & a = a",
        FIELD_RANGE,
    ),
    (
        ONE,
        b"fields t 8 (op 5:0, a 8:7) constructor i(a) is op = 1 & a = a",
        FIELD_RANGE,
    ),
    (
        ONE,
        b"fields t 8 (op 0:5, a 7:6) constructor i(a) is op = 1 & a = a",
        FIELD_RANGE,
    ),
    (
        ONE,
        b"fields t 8 (op 5:0, a 7:6, y 9:8, z 0:1) constructor i(a) is op = 1 & a = a",
        None,
    ),
    (
        JUMP,
        b"fields t 8 (op 7:0) constructor i(t: rel 0) is op = 1",
        FIELD_RANGE,
    ),
    (
        JUMP,
        b"fields t 8 (op 7:0) constructor i(t: rel 16) is op = 1",
        None,
    ),
    (
        JUMP,
        b"fields t 8 (op 7:0) constructor i(t: abs 17) is op = 1",
        FIELD_RANGE,
    ),
    (
        JUMP,
        b"fields t 8 (op 7:0) constructor i(t: abs 272) is op = 1",
        FIELD_RANGE,
    ),
    (
        b"instr i(x: q) = out := x; ",
        b"fields t 8 (op 5:0, a 7:6) constructor i(x) is op = 1 & a = x",
        FIELD_RANGE,
    ),
    (
        b"instr i(x: q) = out := x; ",
        b"fields t 8 (op 7:0) constructor i(x) is op = 1",
        FIELD_RANGE,
    ),
    (
        b"instr i(x: q) = out := x; ",
        b"fields t 8 (op 7:0) constructor i(x) is op = 1 | op = 2",
        UNCOVERED,
    ),
    (
        NUMBER,
        b"fields t 8 (op 3:0, k 7:4) constructor i(k) is op = 16",
        FIELD_RANGE,
    ),
];

#[test]
fn fields_that_do_not_fit(rt: HostRuntime) {
    expect_rows(&rt, rt.alloc(), FIELDS_THAT_DO_NOT_FIT.as_slice());
}

const TOKENS_THAT_DO_NOT_FIT: [Row; 14] = [
    (
        ONE,
        b"fields t 8 (op 5:0, a 7:6) fields u 8 (b 7:0) constructor i(a) is op = 1 & a = a & b = 0",
        FIELD_RANGE,
    ),
    (
        ONE,
        b"fields t 8 (op 5:0, a 7:6) fields u 8 (b 7:0) constructor i(a) is op = 1 & a = a ; b = 0",
        None,
    ),
    (
        ONE,
        b"fields t 8 (op 5:0, a 7:6) fields u 8 (b 7:4, c 3:0) constructor i(a) is (op = 1 ; b = 2) & (a = a ; c = 0)",
        None,
    ),
    (
        ONE,
        b"fields t 8 (op 5:0, a 7:6) fields u 8 (b 7:4, c 3:0) constructor i(a) is (op = 1 ; b = 2) & (c = 0 ; a = a)",
        FIELD_RANGE,
    ),
    (
        ONE,
        b"fields t 8 (op 5:0, a 7:6) fields u 8 (b 7:0) constructor i(a) is (op = 1 ; b = 2) & a = a",
        FIELD_RANGE,
    ),
    (
        ONE,
        b"fields t 12 (op 9:0, a 11:10) constructor i(a) is op = 1 & a = a",
        FIELD_RANGE,
    ),
    (
        ONE,
        b"fields t 24 (op 21:0, a 23:22) constructor i(a) is op = 1 & a = a",
        FIELD_RANGE,
    ),
    (
        ONE,
        b"fields t 264 (op 5:0, a 7:6) constructor i(a) is op = 1 & a = a",
        FIELD_RANGE,
    ),
    (
        ONE,
        b"fields t 8 (op 5:0, a 7:6) fields u 7 (b 6:0) constructor i(a) is op = 1 & a = a",
        None,
    ),
    (
        ONE,
        b"fields t 32 (op 29:0, a 31:30) constructor i(a) is op = 1073741823 & a = a",
        None,
    ),
    (
        ONE,
        b"fields t 8 (op 5:0, a 7:6) fields u 8 (b 7:0) constructor i(a) is op = 1 & a = a ; b = 1 ; b = 2 ; b = 3",
        None,
    ),
    (
        ONE,
        b"fields t 8 (op 5:0, a 7:6) fields u 8 (b 7:0) constructor i(a) is op = 1 & a = a ; b = 1 ; b = 2 ; b = 3 ; b = 4",
        FIELD_RANGE,
    ),
    (
        ONE,
        b"fields t 8 (op 5:0, a 7:6) pattern z is op = 64 & a = 4 constructor i(a) is op = 1 & a = a",
        None,
    ),
    (
        ONE,
        b"fields t 8 (op 5:0, a 7:6) pattern z is op = 64 constructor i(a) is z & a = a",
        FIELD_RANGE,
    ),
];

#[test]
fn tokens_that_do_not_fit(rt: HostRuntime) {
    expect_rows(&rt, rt.alloc(), TOKENS_THAT_DO_NOT_FIT.as_slice());
}

//! The machine of 16 bits with two operands in an instruction and with condition codes.

use super::{Format, Layout, Row, SpaceRow, Table};
use qc_terms::Order;

/// One token of 16 bits: the number of the instruction at 15..10, registers at 9..7 and 6..4, and 0 at 3..0.
const SHORT: &[u8] = &[16];

/// Another one with a constant or target.
const LONG: &[u8] = &[16, 16];

const NONE: Format = (SHORT, &[]);

const ONE: Format = (SHORT, &[(7, 3, 0, 0)]);

const TWO: Format = (SHORT, &[(7, 3, 0, 0), (4, 3, 1, 0)]);

const CONSTANT: Format = (LONG, &[(16, 16, 0, 0)]);

const ONE_AND_CONSTANT: Format = (LONG, &[(7, 3, 0, 0), (16, 16, 1, 0)]);

/// A code in the lowest 8 bits of the second token.
const CODE: Format = (LONG, &[(16, 8, 0, 0)]);

/// The instructions in the order of their numbers.
const INSTRUCTIONS: [Row; 36] = [
    ("mov", "a: r, b: r", 1 << 10, TWO, "a := b"),
    (
        "ldi",
        "a: r, i: imm 16",
        2 << 10,
        ONE_AND_CONSTANT,
        "a := i",
    ),
    ("add", "a: r, b: r", 3 << 10, TWO, "a := add(a, b)"),
    ("sub", "a: r, b: r", 4 << 10, TWO, "a := sub(a, b)"),
    ("and", "a: r, b: r", 5 << 10, TWO, "a := and(a, b)"),
    ("or", "a: r, b: r", 6 << 10, TWO, "a := or(a, b)"),
    ("xor", "a: r, b: r", 7 << 10, TWO, "a := xor(a, b)"),
    ("shl", "a: r, b: r", 8 << 10, TWO, "a := shl(a, b)"),
    ("shr", "a: r, b: r", 9 << 10, TWO, "a := shrl(a, b)"),
    ("sar", "a: r, b: r", 10 << 10, TWO, "a := shra(a, b)"),
    ("not", "a: r", 11 << 10, ONE, "a := com(a)"),
    (
        "cmp",
        "a: r, b: r",
        12 << 10,
        TWO,
        "f[0] := eq(a, b) | f[1] := lt(a, b) | f[2] := ltu(a, b)",
    ),
    (
        "bz",
        "t: rel 16",
        13 << 10,
        CONSTANT,
        "when f[0] => pc := t",
    ),
    (
        "bnz",
        "t: rel 16",
        14 << 10,
        CONSTANT,
        "when com(f[0]) => pc := t",
    ),
    (
        "bl",
        "t: rel 16",
        15 << 10,
        CONSTANT,
        "when f[1] => pc := t",
    ),
    (
        "bnl",
        "t: rel 16",
        16 << 10,
        CONSTANT,
        "when com(f[1]) => pc := t",
    ),
    (
        "blo",
        "t: rel 16",
        17 << 10,
        CONSTANT,
        "when f[2] => pc := t",
    ),
    (
        "bnlo",
        "t: rel 16",
        18 << 10,
        CONSTANT,
        "when com(f[2]) => pc := t",
    ),
    ("sz", "a: r", 19 << 10, ONE, "a := zx 16 (f[0])"),
    ("snz", "a: r", 20 << 10, ONE, "a := zx 16 (com(f[0]))"),
    ("sl", "a: r", 21 << 10, ONE, "a := zx 16 (f[1])"),
    ("slo", "a: r", 22 << 10, ONE, "a := zx 16 (f[2])"),
    ("lb", "a: r, b: r", 23 << 10, TWO, "a := zx 16 (mem 8 [b])"),
    ("lw", "a: r, b: r", 24 << 10, TWO, "a := mem 16 [b]"),
    (
        "sb",
        "a: r, b: r",
        25 << 10,
        TWO,
        "mem 8 [b] := slice 0 8 (a)",
    ),
    ("sw", "a: r, b: r", 26 << 10, TWO, "mem 16 [b] := a"),
    (
        "lds",
        "a: r, i: imm 16",
        27 << 10,
        ONE_AND_CONSTANT,
        "a := mem 16 [add(r[7], i)]",
    ),
    (
        "sts",
        "a: r, i: imm 16",
        28 << 10,
        ONE_AND_CONSTANT,
        "mem 16 [add(r[7], i)] := a",
    ),
    (
        "adds",
        "i: imm 16",
        29 << 10,
        CONSTANT,
        "r[7] := add(r[7], i)",
    ),
    ("jmp", "t: abs 16", 30 << 10, CONSTANT, "pc := t"),
    (
        "jsr",
        "t: abs 16",
        31 << 10,
        CONSTANT,
        "r[6] := after | pc := t",
    ),
    ("rts", "", 32 << 10, NONE, "pc := and(r[6], 65534'16)"),
    ("inp", "a: r", 33 << 10, ONE, "a := input"),
    ("outp", "a: r", 34 << 10, ONE, "out := a"),
    ("hlt", "a: r", 35 << 10, ONE, "halt := a"),
    ("trp", "i: imm 8", 36 << 10, CODE, "trap := i"),
];

const LAYOUT: Layout = (
    (16, Order::Big, 2, 16),
    (None, (0, 6), (0, 7)),
    (0, 0, 5),
    (0x1_0000, 0x6000, 0xC000),
);

const SPACES: [SpaceRow; 2] = [("r", 8, 16, false), ("f", 3, 1, true)];

pub(super) const CC16: Table = ("cc16", &LAYOUT, &SPACES, &[&INSTRUCTIONS]);

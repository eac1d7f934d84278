//! The machine with one instruction for each tile, of the tile's name and number.

use super::{Format, Layout, Row, SpaceRow, Table};
use qc_terms::Order;

/// Two tokens of 32 bits. The number of the instruction is at 7..0 of the first one, registers are at 11..8, 15..12 and
/// 19..16, and a constant or target is the second one.
const TOKENS: &[u8] = &[32, 32];

const NONE: Format = (TOKENS, &[]);

const ONE: Format = (TOKENS, &[(8, 4, 0, 0)]);

const TWO: Format = (TOKENS, &[(8, 4, 0, 0), (12, 4, 1, 0)]);

const THREE: Format = (TOKENS, &[(8, 4, 0, 0), (12, 4, 1, 0), (16, 4, 2, 0)]);

const CONSTANT: Format = (TOKENS, &[(32, 32, 0, 0)]);

const ONE_AND_CONSTANT: Format = (TOKENS, &[(8, 4, 0, 0), (32, 32, 1, 0)]);

const TWO_AND_CONSTANT: Format = (TOKENS, &[(8, 4, 0, 0), (12, 4, 1, 0), (32, 32, 2, 0)]);

/// A code in the lowest 8 bits of the second token.
const CODE: Format = (TOKENS, &[(32, 8, 0, 0)]);

/// The instructions in the order of their numbers, which are their fixed bits.
const INSTRUCTIONS: [Row; 45] = [
    ("move", "d: r, a: r", 1, TWO, "d := a"),
    ("const", "d: r, k: imm 32", 2, ONE_AND_CONSTANT, "d := k"),
    ("add", "d: r, a: r, b: r", 3, THREE, "d := add(a, b)"),
    ("sub", "d: r, a: r, b: r", 4, THREE, "d := sub(a, b)"),
    ("neg", "d: r, a: r", 5, TWO, "d := neg(a)"),
    ("and", "d: r, a: r, b: r", 6, THREE, "d := and(a, b)"),
    ("or", "d: r, a: r, b: r", 7, THREE, "d := or(a, b)"),
    ("xor", "d: r, a: r, b: r", 8, THREE, "d := xor(a, b)"),
    ("com", "d: r, a: r", 9, TWO, "d := com(a)"),
    ("shl", "d: r, a: r, b: r", 10, THREE, "d := shl(a, b)"),
    ("shrl", "d: r, a: r, b: r", 11, THREE, "d := shrl(a, b)"),
    ("shra", "d: r, a: r, b: r", 12, THREE, "d := shra(a, b)"),
    (
        "seteq",
        "d: r, a: r, b: r",
        13,
        THREE,
        "d := zx 32 (eq(a, b))",
    ),
    (
        "setne",
        "d: r, a: r, b: r",
        14,
        THREE,
        "d := zx 32 (ne(a, b))",
    ),
    (
        "setlt",
        "d: r, a: r, b: r",
        15,
        THREE,
        "d := zx 32 (lt(a, b))",
    ),
    (
        "setltu",
        "d: r, a: r, b: r",
        16,
        THREE,
        "d := zx 32 (ltu(a, b))",
    ),
    (
        "breq",
        "a: r, b: r, t: abs 32",
        17,
        TWO_AND_CONSTANT,
        "when eq(a, b) => pc := t",
    ),
    (
        "brne",
        "a: r, b: r, t: abs 32",
        18,
        TWO_AND_CONSTANT,
        "when ne(a, b) => pc := t",
    ),
    (
        "brlt",
        "a: r, b: r, t: abs 32",
        19,
        TWO_AND_CONSTANT,
        "when lt(a, b) => pc := t",
    ),
    (
        "brge",
        "a: r, b: r, t: abs 32",
        20,
        TWO_AND_CONSTANT,
        "when ge(a, b) => pc := t",
    ),
    (
        "brltu",
        "a: r, b: r, t: abs 32",
        21,
        TWO_AND_CONSTANT,
        "when ltu(a, b) => pc := t",
    ),
    (
        "brgeu",
        "a: r, b: r, t: abs 32",
        22,
        TWO_AND_CONSTANT,
        "when geu(a, b) => pc := t",
    ),
    ("ldb", "d: r, a: r", 23, TWO, "d := zx 32 (mem 8 [a])"),
    ("ldh", "d: r, a: r", 24, TWO, "d := zx 32 (mem 16 [a])"),
    ("ldw", "d: r, a: r", 25, TWO, "d := mem 32 [a]"),
    ("stb", "a: r, s: r", 26, TWO, "mem 8 [a] := slice 0 8 (s)"),
    ("sth", "a: r, s: r", 27, TWO, "mem 16 [a] := slice 0 16 (s)"),
    ("stw", "a: r, s: r", 28, TWO, "mem 32 [a] := s"),
    ("goto", "t: abs 32", 29, CONSTANT, "pc := t"),
    (
        "call",
        "t: abs 32",
        30,
        CONSTANT,
        "r[15] := after | pc := t",
    ),
    ("ret", "", 31, NONE, "pc := and(r[15], 4294967288'32)"),
    (
        "savelink",
        "k: imm 32",
        32,
        CONSTANT,
        "mem 32 [add(r[14], k)] := r[15]",
    ),
    (
        "loadlink",
        "k: imm 32",
        33,
        CONSTANT,
        "r[15] := mem 32 [add(r[14], k)]",
    ),
    (
        "spill",
        "a: r, k: imm 32",
        34,
        ONE_AND_CONSTANT,
        "mem 32 [add(r[14], k)] := a",
    ),
    (
        "reload",
        "d: r, k: imm 32",
        35,
        ONE_AND_CONSTANT,
        "d := mem 32 [add(r[14], k)]",
    ),
    (
        "op_frame",
        "k: imm 32",
        36,
        CONSTANT,
        "r[14] := add(r[14], k)",
    ),
    ("in", "d: r", 37, ONE, "d := input"),
    ("op_out", "a: r", 38, ONE, "out := a"),
    ("op_halt", "a: r", 39, ONE, "halt := a"),
    ("op_trap", "k: imm 8", 40, CODE, "trap := k"),
    ("mul", "d: r, a: r, b: r", 41, THREE, "d := mul(a, b)"),
    ("divu", "d: r, a: r, b: r", 42, THREE, "d := divu(a, b)"),
    ("modu", "d: r, a: r, b: r", 43, THREE, "d := modu(a, b)"),
    ("quot", "d: r, a: r, b: r", 44, THREE, "d := quot(a, b)"),
    ("rem", "d: r, a: r, b: r", 45, THREE, "d := rem(a, b)"),
];

const LAYOUT: Layout = (
    (32, Order::Little, 8, 32),
    (None, (0, 15), (0, 14)),
    (0, 0, 13),
    (0x100_0000, 0x8_0000, 0x80_0000),
);

const SPACES: [SpaceRow; 1] = [("r", 16, 32, false)];

pub(super) const TIN32: Table = ("tin32", &LAYOUT, &SPACES, &[&INSTRUCTIONS]);

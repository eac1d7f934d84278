//! RISC-V's instructions of 32 bits, and four more for input, output and the end of a run.

use super::{Format, Layout, Row, SpaceRow, Table};
use qc_terms::Order;

/// One token of 32 bits.
const TOKEN: &[u8] = &[32];

/// rd at 11..7, and a constant at 31..12.
const UPPER: Format = (TOKEN, &[(7, 5, 0, 0), (12, 20, 1, 0)]);

/// rd; the target's bit 20 at 31, 10..1 at 30..21, 11 at 20, and 19..12 at 19..12.
const JUMP: Format = (
    TOKEN,
    &[
        (7, 5, 0, 0),
        (31, 1, 1, 20),
        (21, 10, 1, 1),
        (20, 1, 1, 11),
        (12, 8, 1, 12),
    ],
);

/// rd, rs1 at 19..15, and a constant at 31..20.
const IMMEDIATE: Format = (TOKEN, &[(7, 5, 0, 0), (15, 5, 1, 0), (20, 12, 2, 0)]);

/// rs1, rs2 at 24..20; the target's bit 12 at 31, 10..5 at 30..25, 4..1 at 11..8, and 11 at 7.
const BRANCH: Format = (
    TOKEN,
    &[
        (15, 5, 0, 0),
        (20, 5, 1, 0),
        (31, 1, 2, 12),
        (25, 6, 2, 5),
        (8, 4, 2, 1),
        (7, 1, 2, 11),
    ],
);

/// rs1, rs2; the constant's bits 11..5 at 31..25, and 4..0 at 11..7.
const STORE: Format = (
    TOKEN,
    &[(15, 5, 0, 0), (20, 5, 1, 0), (25, 7, 2, 5), (7, 5, 2, 0)],
);

/// rd, rs1, and rs2 or the bits of a shift.
const THREE: Format = (TOKEN, &[(7, 5, 0, 0), (15, 5, 1, 0), (20, 5, 2, 0)]);

const SOURCE: Format = (TOKEN, &[(15, 5, 0, 0)]);

const DESTINATION: Format = (TOKEN, &[(7, 5, 0, 0)]);

/// A code at 27..20.
const CODE: Format = (TOKEN, &[(20, 8, 0, 0)]);

/// The instructions of both machines, but for those at the end.
const BASE: [Row; 36] = [
    (
        "lui",
        "rd: r, i: imm 20",
        0x00000037,
        UPPER,
        "rd := shl(zx 32 (i), 12'32)",
    ),
    (
        "jal",
        "rd: r, t: rel 21",
        0x0000006F,
        JUMP,
        "rd := after | pc := t",
    ),
    (
        "jalr",
        "rd: r, rs1: r, i: imm 12",
        0x00000067,
        IMMEDIATE,
        "rd := after | pc := and(add(rs1, sx 32 (i)), 4294967294'32)",
    ),
    (
        "beq",
        "rs1: r, rs2: r, t: rel 13",
        0x00000063,
        BRANCH,
        "when eq(rs1, rs2) => pc := t",
    ),
    (
        "bne",
        "rs1: r, rs2: r, t: rel 13",
        0x00001063,
        BRANCH,
        "when ne(rs1, rs2) => pc := t",
    ),
    (
        "blt",
        "rs1: r, rs2: r, t: rel 13",
        0x00004063,
        BRANCH,
        "when lt(rs1, rs2) => pc := t",
    ),
    (
        "bge",
        "rs1: r, rs2: r, t: rel 13",
        0x00005063,
        BRANCH,
        "when ge(rs1, rs2) => pc := t",
    ),
    (
        "bltu",
        "rs1: r, rs2: r, t: rel 13",
        0x00006063,
        BRANCH,
        "when ltu(rs1, rs2) => pc := t",
    ),
    (
        "bgeu",
        "rs1: r, rs2: r, t: rel 13",
        0x00007063,
        BRANCH,
        "when geu(rs1, rs2) => pc := t",
    ),
    (
        "lb",
        "rd: r, rs1: r, i: imm 12",
        0x00000003,
        IMMEDIATE,
        "rd := sx 32 (mem 8 [add(rs1, sx 32 (i))])",
    ),
    (
        "lh",
        "rd: r, rs1: r, i: imm 12",
        0x00001003,
        IMMEDIATE,
        "rd := sx 32 (mem 16 [add(rs1, sx 32 (i))])",
    ),
    (
        "lw",
        "rd: r, rs1: r, i: imm 12",
        0x00002003,
        IMMEDIATE,
        "rd := mem 32 [add(rs1, sx 32 (i))]",
    ),
    (
        "lbu",
        "rd: r, rs1: r, i: imm 12",
        0x00004003,
        IMMEDIATE,
        "rd := zx 32 (mem 8 [add(rs1, sx 32 (i))])",
    ),
    (
        "lhu",
        "rd: r, rs1: r, i: imm 12",
        0x00005003,
        IMMEDIATE,
        "rd := zx 32 (mem 16 [add(rs1, sx 32 (i))])",
    ),
    (
        "sb",
        "rs1: r, rs2: r, i: imm 12",
        0x00000023,
        STORE,
        "mem 8 [add(rs1, sx 32 (i))] := slice 0 8 (rs2)",
    ),
    (
        "sh",
        "rs1: r, rs2: r, i: imm 12",
        0x00001023,
        STORE,
        "mem 16 [add(rs1, sx 32 (i))] := slice 0 16 (rs2)",
    ),
    (
        "sw",
        "rs1: r, rs2: r, i: imm 12",
        0x00002023,
        STORE,
        "mem 32 [add(rs1, sx 32 (i))] := rs2",
    ),
    (
        "addi",
        "rd: r, rs1: r, i: imm 12",
        0x00000013,
        IMMEDIATE,
        "rd := add(rs1, sx 32 (i))",
    ),
    (
        "slti",
        "rd: r, rs1: r, i: imm 12",
        0x00002013,
        IMMEDIATE,
        "rd := zx 32 (lt(rs1, sx 32 (i)))",
    ),
    (
        "sltiu",
        "rd: r, rs1: r, i: imm 12",
        0x00003013,
        IMMEDIATE,
        "rd := zx 32 (ltu(rs1, sx 32 (i)))",
    ),
    (
        "xori",
        "rd: r, rs1: r, i: imm 12",
        0x00004013,
        IMMEDIATE,
        "rd := xor(rs1, sx 32 (i))",
    ),
    (
        "ori",
        "rd: r, rs1: r, i: imm 12",
        0x00006013,
        IMMEDIATE,
        "rd := or(rs1, sx 32 (i))",
    ),
    (
        "andi",
        "rd: r, rs1: r, i: imm 12",
        0x00007013,
        IMMEDIATE,
        "rd := and(rs1, sx 32 (i))",
    ),
    (
        "slli",
        "rd: r, rs1: r, s: imm 5",
        0x00001013,
        THREE,
        "rd := shl(rs1, zx 32 (s))",
    ),
    (
        "srli",
        "rd: r, rs1: r, s: imm 5",
        0x00005013,
        THREE,
        "rd := shrl(rs1, zx 32 (s))",
    ),
    (
        "srai",
        "rd: r, rs1: r, s: imm 5",
        0x40005013,
        THREE,
        "rd := shra(rs1, zx 32 (s))",
    ),
    (
        "add",
        "rd: r, rs1: r, rs2: r",
        0x00000033,
        THREE,
        "rd := add(rs1, rs2)",
    ),
    (
        "sub",
        "rd: r, rs1: r, rs2: r",
        0x40000033,
        THREE,
        "rd := sub(rs1, rs2)",
    ),
    (
        "sll",
        "rd: r, rs1: r, rs2: r",
        0x00001033,
        THREE,
        "rd := shl(rs1, rs2)",
    ),
    (
        "slt",
        "rd: r, rs1: r, rs2: r",
        0x00002033,
        THREE,
        "rd := zx 32 (lt(rs1, rs2))",
    ),
    (
        "sltu",
        "rd: r, rs1: r, rs2: r",
        0x00003033,
        THREE,
        "rd := zx 32 (ltu(rs1, rs2))",
    ),
    (
        "xor",
        "rd: r, rs1: r, rs2: r",
        0x00004033,
        THREE,
        "rd := xor(rs1, rs2)",
    ),
    (
        "srl",
        "rd: r, rs1: r, rs2: r",
        0x00005033,
        THREE,
        "rd := shrl(rs1, rs2)",
    ),
    (
        "sra",
        "rd: r, rs1: r, rs2: r",
        0x40005033,
        THREE,
        "rd := shra(rs1, rs2)",
    ),
    (
        "or",
        "rd: r, rs1: r, rs2: r",
        0x00006033,
        THREE,
        "rd := or(rs1, rs2)",
    ),
    (
        "and",
        "rd: r, rs1: r, rs2: r",
        0x00007033,
        THREE,
        "rd := and(rs1, rs2)",
    ),
];

/// Multiplication and division.
const MULTIPLICATION: [Row; 5] = [
    (
        "mul",
        "rd: r, rs1: r, rs2: r",
        0x02000033,
        THREE,
        "rd := mul(rs1, rs2)",
    ),
    (
        "div",
        "rd: r, rs1: r, rs2: r",
        0x02004033,
        THREE,
        "rd := quot(rs1, rs2)",
    ),
    (
        "divu",
        "rd: r, rs1: r, rs2: r",
        0x02005033,
        THREE,
        "rd := divu(rs1, rs2)",
    ),
    (
        "rem",
        "rd: r, rs1: r, rs2: r",
        0x02006033,
        THREE,
        "rd := rem(rs1, rs2)",
    ),
    (
        "remu",
        "rd: r, rs1: r, rs2: r",
        0x02007033,
        THREE,
        "rd := modu(rs1, rs2)",
    ),
];

/// Output, input and the two ways to end.
const ENDS: [Row; 4] = [
    ("op_out", "rs1: r", 0x0000000B, SOURCE, "out := rs1"),
    ("in", "rd: r", 0x0000100B, DESTINATION, "rd := input"),
    ("op_halt", "rs1: r", 0x0000200B, SOURCE, "halt := rs1"),
    ("op_trap", "c: imm 8", 0x0000300B, CODE, "trap := c"),
];

const LAYOUT: Layout = (
    (32, Order::Little, 2, 12),
    (Some((0, 0)), (0, 1), (0, 2)),
    (0, 5, 31),
    (0x100_0000, 0x8_0000, 0x80_0000),
);

const SPACES: [SpaceRow; 1] = [("r", 32, 32, false)];

pub(super) const RV32IM: Table = ("rv32im", &LAYOUT, &SPACES, &[&BASE, &MULTIPLICATION, &ENDS]);

pub(super) const RV32I: Table = ("rv32i", &LAYOUT, &SPACES, &[&BASE, &ENDS]);

//! Faults of machine texts, each with its token, and texts without one.
use crate::machines::elaborated;
use qc_widths::{WidthEnd, WidthFault};
use std::alloc::{AllocError, Global};
use std::process::Abort;

/// Texts with a name that has no declaration, or none that fits, and the name's token.
const UNKNOWN_NAMES: [(&[u8], usize); 45] = [
    (b"machine m; fun f(a) = g(a);", 9),
    (b"machine m; fun f(a) = f(a);", 9),
    (b"machine m; fun f(a) = b;", 9),
    (b"machine m; fun f(a) = add(a, b);", 13),
    (b"machine m; fun g() = 1'8; fun f(a) = g;", 18),
    (b"machine m; fun g() = 1'8; fun f(a) = g(a);", 18),
    (b"machine m; fun f(add) = add(1'8, 2'8);", 9),
    (b"machine m; fun f(a) = a(1'8);", 9),
    (b"machine m; fun f(g / 1) = g;", 11),
    (b"machine m; fun f(g / 1) = g(1'8, 2'8);", 11),
    (b"machine m; fun f(g / 1) = g(1'8); fun h() = f(add);", 25),
    (b"machine m; fun f(g / 1) = g(1'8); fun h() = f(1'8);", 25),
    (b"machine m; fun f(g / 1) = g(1'8); fun h() = f(300'8);", 25),
    (
        b"machine m; fun f(g / 1) = g(1'8); fun k(a) = a; fun h() = f(k(1'8));",
        33,
    ),
    (
        b"machine m; fun f(g / 2) = g(1'8, 2'8); fun k(h / 1, a) = h(a); fun h() = f(k);",
        44,
    ),
    (b"machine m; fun f(g / 1) = g(1'8); fun h(a) = f(a);", 26),
    (
        b"machine m; fun f(g / 1) = g(1'8); fun h(g / 2) = f(g);",
        28,
    ),
    (b"machine m; eff e(a) = out := a; fun h(a) = e(a);", 19),
    (
        b"machine m; eff e(a) = out := a; fun f(g / 1) = g(1'8); fun h() = f(e);",
        35,
    ),
    (b"machine m; fun f(a) = a; instr i() = f(1'32);", 16),
    (b"machine m; instr i() = add(1'32, 2'32);", 8),
    (b"machine m; eff e() = e();", 8),
    (b"machine m; instr i() = x := 1'8;", 8),
    (b"machine m; instr i(a: imm 8) = a := 1'8;", 12),
    (b"machine m; instr i(a: addr) = a := 1'32;", 11),
    (b"machine m; fun f(a) = a; instr i() = f := 1'8;", 16),
    (b"machine m; eff e(g / 1) = g := 1'8;", 11),
    (b"machine m; eff e(a) = b := 1'8;", 9),
    (
        b"machine m; space r 4 cells 8 bits; eff e(d) = d := 1'8; instr i(a: imm 8) = e(a);",
        16,
    ),
    (
        b"machine m; space r 4 cells 8 bits; eff e(d) = d := 1'8; instr i(a: r) = e(com(a));",
        16,
    ),
    (
        b"machine m; space r 4 cells 8 bits; eff e(d) = d := 1'8; instr i() = e(r[0]);",
        16,
    ),
    (
        b"machine m; eff e(d) = d := 1'8; eff f(x) = e(x); instr i(a: imm 8) = f(a);",
        9,
    ),
    (
        b"machine m; eff e(d) = d := 1'8; eff f(x) = e(add(x, x));",
        9,
    ),
    (b"machine m; instr i(e: addr) = e(e);", 11),
    (b"machine m; instr i(a: q) = pc := 1'32;", 8),
    (b"machine m; instr i() = q[0] := 1'8;", 8),
    (
        b"machine m; space r 4 cells 8 bits; instr i() = r[4] := 1'8;",
        17,
    ),
    (
        b"machine m; space r 4 cells 8 bits; instr i() = out := zx 32 (r[9]);",
        22,
    ),
    (b"machine m; instr i() = out := r[0];", 10),
    (b"machine m; zero r 0;", 4),
    (b"machine m; space r 4 cells 32 bits; frame r 4;", 12),
    (
        b"machine m; space r 4 cells 32 bits; link r 0x10000000000000000;",
        12,
    ),
    (
        b"machine m; space r 4 cells 32 bits; allocatable r 0 .. 4;",
        14,
    ),
    (
        b"machine m; space r 4 cells 32 bits; allocatable r 4 .. 5;",
        12,
    ),
    (b"machine m; allocatable r 0 .. 1;", 4),
];

/// Texts with a second declaration, or a second effect that shows something, and its token.
const TWICE_NAMED: [(&[u8], usize); 20] = [
    (b"machine m; fun f(a, a) = a;", 8),
    (b"machine m; fun f() = 1'8; fun f() = 1'8;", 13),
    (b"machine m; fun add(a, b) = a;", 4),
    (b"machine m; eff geu() = pc := 1'32;", 4),
    (b"machine m; fun f() = 1'8; eff f() = out := 1'32;", 13),
    (
        b"machine m; space r 1 cells 8 bits; space r 1 cells 8 bits;",
        11,
    ),
    (
        b"machine m; instr i() = out := 1'32; instr i() = out := 1'32;",
        15,
    ),
    (b"machine m; instr i(a: addr, a: addr) = out := 1'32;", 10),
    (b"machine m; eff e(a, b / 1, a) = out := a;", 12),
    (b"machine m; word 32; word 32;", 6),
    (b"machine m; memory 1; word 32; memory 2;", 9),
    (b"machine m; byteorder little; byteorder big;", 6),
    (
        b"machine m; space r 4 cells 32 bits; link r 0; frame r 0; zero r 0; zero r 0;",
        22,
    ),
    (b"machine m; instr i() = out := 1'32 | halt := 1'32;", 14),
    (
        b"machine m; instr i() = out := 1'32 | when 1'1 => trap := 1'8;",
        19,
    ),
    (
        b"machine m; eff e() = out := 1'32; instr i() = halt := 1'32 | e();",
        8,
    ),
    (
        b"machine m; eff e() = out := 1'32; instr i() = e() | halt := 1'32;",
        23,
    ),
    (
        b"machine m; eff e() = out := 1'32 | out := 2'32; instr i() = e();",
        14,
    ),
    (
        b"machine m; eff e() = out := 1'32; instr i() = e() | e();",
        8,
    ),
    (
        b"machine m; eff e() = out := 1'32; eff f() = e() | halt := 1'32; instr i() = f();",
        23,
    ),
];

/// Texts with a width that clashes: its token, the width, and the wanted one.
const CLASHES: [(&[u8], usize, u8, u8); 44] = [
    (
        b"machine m; instr i(i: imm 5) = out := add(i, 1'6);",
        18,
        6,
        5,
    ),
    (b"machine m; instr i() = out := 1'8;", 10, 8, 32),
    (
        b"machine m; fun f(a) = a; instr i() = out := f(1'8);",
        20,
        8,
        32,
    ),
    (b"machine m; word 16; instr i() = out := 1'32;", 13, 32, 16),
    (b"machine m; fun f() = 256'8;", 8, 9, 8),
    (b"machine m; fun f() = 2'1;", 8, 2, 1),
    (b"machine m; fun f() = 0x10000000000000000'64;", 8, 65, 64),
    (b"machine m; fun f() = 1'0;", 10, 0, 64),
    (b"machine m; fun f() = 1'65;", 10, 65, 64),
    (b"machine m; fun f() = 1'300;", 10, 65, 64),
    (b"machine m; fun f(a) = zx 0 (a);", 10, 0, 64),
    (b"machine m; fun f(a) = sx 70 (a);", 10, 65, 64),
    (b"machine m; fun f(a) = slice 0 0 (a);", 11, 0, 64),
    (b"machine m; instr i() = out := zx 32 (1'64);", 13, 64, 32),
    (b"machine m; instr i() = out := sx 32 (1'33);", 13, 33, 32),
    (
        b"machine m; instr i() = trap := zx 8 (slice 29 4 (input));",
        17,
        32,
        33,
    ),
    (
        b"machine m; instr i() = trap := zx 8 (slice 0xffff 4 (input));",
        17,
        32,
        65,
    ),
    (b"machine m; instr i() = when 2'2 => out := 1'32;", 9, 2, 1),
    (b"machine m; instr i() = trap := 1'32;", 10, 32, 8),
    (b"machine m; instr i() = mem 12 [1'32] := 1'8;", 9, 12, 64),
    (b"machine m; instr i() = mem 64 [1'32] := 1'64;", 9, 64, 32),
    (b"machine m; instr i() = mem 0 [1'32] := 1'8;", 9, 0, 64),
    (b"machine m; fun f(a) = mem 99 [a];", 10, 65, 64),
    (b"machine m; instr i() = out := mem 32 [1'8];", 13, 8, 32),
    (b"machine m; instr i() = mem 8 [1'16] := 1'8;", 11, 16, 32),
    (b"machine m; instr i() = mem 8 [1'32] := 1'16;", 16, 16, 8),
    (
        b"machine m; space r 4 cells 8 bits; instr i(d: r) = d := 1'16;",
        20,
        16,
        8,
    ),
    (
        b"machine m; space r 4 cells 8 bits; instr i() = r[1] := 1'16;",
        20,
        16,
        8,
    ),
    (
        b"machine m; space r 4 cells 8 bits; eff e(d) = d := 1'16; instr i(a: r) = e(a);",
        18,
        16,
        8,
    ),
    (b"machine m; instr i(a: imm 0) = out := a;", 9, 0, 64),
    (
        b"machine m; space r 4 cells 65 bits; instr i(a: r) = out := a;",
        7,
        65,
        64,
    ),
    (
        b"machine m; fun f(a) = add(a, 1'6); instr i(x: imm 5) = out := f(x);",
        13,
        6,
        5,
    ),
    (
        b"machine m; fun f(a) = add(1'6, a); instr i(x: imm 5) = out := f(x);",
        31,
        5,
        6,
    ),
    (
        b"machine m; fun f(a, b) = a; instr i() = out := f(1'32, 300'8);",
        26,
        9,
        8,
    ),
    (b"machine m; word 0; instr i() = out := 1'8;", 4, 0, 64),
    (b"machine m; word 32; fun f() = 3'1;", 11, 2, 1),
    (
        b"machine m; fun f(a) = add(a, 1'6); instr i(x: imm 5) = out := f(x); instr j(x: imm 8) = out := f(x);",
        13,
        6,
        5,
    ),
    (b"machine m; instr i() = out := 1'8 | halt := h;", 10, 8, 32),
    (
        b"machine m; fun f(g / 2, a, b) = g(a, b); instr i() = out := f(xor, 1'32, 1'8);",
        37,
        8,
        32,
    ),
    (
        b"machine m; instr i() = out := zx 32 (eq(1'8, 1'9));",
        19,
        9,
        8,
    ),
    (b"machine m; instr i() = out := eq(1'8, 1'8);", 10, 1, 32),
    (
        b"machine m; eff e(a) = out := a; instr i() = when input => e(1'32);",
        19,
        32,
        1,
    ),
    (
        b"machine m; eff e(a) = when 2'3 => out := a; instr i() = when 1'1 => e(1'32);",
        10,
        3,
        1,
    ),
    (
        b"machine m; instr i(t: addr) = pc := t | out := zx 32 (ltu(t, 1'16));",
        24,
        16,
        32,
    ),
];

/// Texts that pass a limit: the token of the item, and the limit.
const TOO_MANY: [(&[u8], usize, u32); 9] = [
    (
        b"machine m; fun f1(a) = add(a, a); fun f2(a) = add(f1(a), f1(a)); fun f3(a) = add(f2(a), f2(a)); fun f4(a) = add(f3(a), f3(a)); fun f5(a) = add(f4(a), f4(a)); fun f6(a) = add(f5(a), f5(a)); fun f7(a) = add(f6(a), f6(a)); fun f8(a) = add(f7(a), f7(a)); fun f9(a) = add(f8(a), f8(a)); fun f10(a) = add(f9(a), f9(a)); fun f11(a) = add(f10(a), f10(a)); fun f12(a) = add(f11(a), f11(a)); instr i() = out := f12(1'32);",
        225,
        4096,
    ),
    (
        b"machine m; fun f1(a) = add(a, a); fun f2(a) = add(f1(a), f1(a)); fun f3(a) = add(f2(a), f2(a)); fun f4(a) = add(f3(a), f3(a)); fun f5(a) = add(f4(a), f4(a)); fun f6(a) = add(f5(a), f5(a)); fun f7(a) = add(f6(a), f6(a)); fun f8(a) = add(f7(a), f7(a)); fun f9(a) = add(f8(a), f8(a)); fun f10(a) = add(f9(a), f9(a)); fun f11(a) = add(f10(a), f10(a)); instr i() = out := com(com(f11(1'32)));",
        206,
        4096,
    ),
    (
        b"machine m; instr i(a0: addr, a1: addr, a2: addr, a3: addr, a4: addr, a5: addr, a6: addr, a7: addr, a8: addr) = out := 1'32;",
        3,
        8,
    ),
    (
        b"machine m; space s0 1 cells 8 bits; space s1 1 cells 8 bits; space s2 1 cells 8 bits; space s3 1 cells 8 bits; space s4 1 cells 8 bits; space s5 1 cells 8 bits; space s6 1 cells 8 bits; space s7 1 cells 8 bits; space r 1 cells 8 bits;",
        59,
        8,
    ),
    (b"machine m; space r 65 cells 8 bits;", 3, 64),
    (
        b"machine m; instr i() = pc := 1'32 | pc := 1'32 | pc := 1'32 | pc := 1'32 | pc := 1'32 | pc := 1'32 | pc := 1'32 | pc := 1'32 | pc := 1'32 | pc := 1'32 | pc := 1'32 | pc := 1'32 | pc := 1'32 | pc := 1'32 | pc := 1'32 | pc := 1'32 | pc := 1'32;",
        3,
        16,
    ),
    (
        b"machine m; eff e1() = pc := 1'32; eff e2() = e1() | e1(); eff e3() = e2() | e2(); eff e4() = e3() | e3(); eff e5() = e4() | e4(); instr i() = e5() | pc := 1'32;",
        66,
        16,
    ),
    (
        b"machine m; fun f1(a) = add(a, a); fun f2(a) = add(f1(a), f1(a)); fun f3(a) = add(f2(a), f2(a)); fun f4(a) = add(f3(a), f3(a)); fun f5(a) = add(f4(a), f4(a)); fun f6(a) = add(f5(a), f5(a)); fun f7(a) = add(f6(a), f6(a)); fun f8(a) = add(f7(a), f7(a)); fun f9(a) = add(f8(a), f8(a)); fun f10(a) = add(f9(a), f9(a)); fun f11(a) = add(f10(a), f10(a)); fun f12(a) = add(f11(a), f11(a)); instr i(a0: addr, a1: addr, a2: addr, a3: addr, a4: addr, a5: addr, a6: addr, a7: addr, a8: addr) = out := f12(1'32);",
        225,
        8,
    ),
    (
        b"machine m; fun f1(a) = add(a, a); fun f2(a) = add(f1(a), f1(a)); fun f3(a) = add(f2(a), f2(a)); fun f4(a) = add(f3(a), f3(a)); fun f5(a) = add(f4(a), f4(a)); fun f6(a) = add(f5(a), f5(a)); fun f7(a) = add(f6(a), f6(a)); fun f8(a) = add(f7(a), f7(a)); fun f9(a) = add(f8(a), f8(a)); fun f10(a) = add(f9(a), f9(a)); fun f11(a) = add(f10(a), f10(a)); fun f12(a) = add(f11(a), f11(a)); instr i() = out := f12(1'32) | halt := x;",
        225,
        4096,
    ),
];

/// Texts without a fault.
const FAULTLESS: [&[u8]; 23] = [
    b"machine m; ",
    b"machine m; space f 1 cells 8 bits; fun f() = 1'8; instr f() = out := 1'32;",
    b"machine m; zero r 3; space r 4 cells 32 bits;",
    b"machine m; instr i() = out := f(); fun f() = 1'32;",
    b"machine m; eff e() = out := 1'32 | halt := 2'32;",
    b"machine m; space r 4 cells 8 bits; eff e(d) = d := 1'8; eff f(x) = e(x); instr i(a: r) = f(a);",
    b"machine m; fun f(a, b) = a; instr i() = out := f(1'32, add(1'8, 1'9));",
    b"machine m; instr i() = out := zx 32 (eq(1'8, 1'8));",
    b"machine m; fun f1(a) = add(a, a); fun f2(a) = add(f1(a), f1(a)); fun f3(a) = add(f2(a), f2(a)); fun f4(a) = add(f3(a), f3(a)); fun f5(a) = add(f4(a), f4(a)); fun f6(a) = add(f5(a), f5(a)); fun f7(a) = add(f6(a), f6(a)); fun f8(a) = add(f7(a), f7(a)); fun f9(a) = add(f8(a), f8(a)); fun f10(a) = add(f9(a), f9(a)); instr i() = out := f10(1'32);",
    b"machine m; fun f1(a) = add(a, a); fun f2(a) = add(f1(a), f1(a)); fun f3(a) = add(f2(a), f2(a)); fun f4(a) = add(f3(a), f3(a)); fun f5(a) = add(f4(a), f4(a)); fun f6(a) = add(f5(a), f5(a)); fun f7(a) = add(f6(a), f6(a)); fun f8(a) = add(f7(a), f7(a)); fun f9(a) = add(f8(a), f8(a)); fun f10(a) = add(f9(a), f9(a)); fun f11(a) = add(f10(a), f10(a)); instr i() = out := com(f11(1'32));",
    b"machine m; instr i(a0: addr, a1: addr, a2: addr, a3: addr, a4: addr, a5: addr, a6: addr, a7: addr) = out := 1'32;",
    b"machine m; space s0 1 cells 8 bits; space s1 1 cells 8 bits; space s2 1 cells 8 bits; space s3 1 cells 8 bits; space s4 1 cells 8 bits; space s5 1 cells 8 bits; space s6 1 cells 8 bits; space s7 1 cells 8 bits; ",
    b"machine m; space r 64 cells 8 bits;",
    b"machine m; instr i() = pc := 1'32 | pc := 1'32 | pc := 1'32 | pc := 1'32 | pc := 1'32 | pc := 1'32 | pc := 1'32 | pc := 1'32 | pc := 1'32 | pc := 1'32 | pc := 1'32 | pc := 1'32 | pc := 1'32 | pc := 1'32 | pc := 1'32 | pc := 1'32;",
    b"machine m; eff e1() = pc := 1'32; eff e2() = e1() | e1(); eff e3() = e2() | e2(); eff e4() = e3() | e3(); eff e5() = e4() | e4(); instr i() = e5();",
    b"machine m; fun twice(g / 1, a) = g(g(a)); instr i() = out := twice(com, 1'32);",
    b"machine m; fun f(g / 1, a) = g(a); fun h(g / 1, a) = f(g, a); instr i() = out := h(neg, input);",
    b"machine m; fun f1(a) = add(a, a); fun f2(a) = add(f1(a), f1(a)); fun f3(a) = add(f2(a), f2(a)); fun f4(a) = add(f3(a), f3(a)); fun f5(a) = add(f4(a), f4(a)); fun f6(a) = add(f5(a), f5(a)); fun f7(a) = add(f6(a), f6(a)); fun f8(a) = add(f7(a), f7(a)); fun f9(a) = add(f8(a), f8(a)); fun f10(a) = add(f9(a), f9(a)); fun f11(a) = add(f10(a), f10(a)); fun f12(a) = add(f11(a), f11(a)); fun k(a, b) = a; instr i() = out := k(1'32, f12(1'32));",
    b"machine m; word 64; instr i() = mem 64 [1'64] := 0xffffffffffffffff'64;",
    b"machine m; word 16; instr i() = out := 65535'16;",
    b"machine m; memory 0x10000000000000000;",
    b"machine m; instr i(t: addr) = pc := t;",
    b"machine m; fun f() = 0'1; fun g() = 255'8; fun h() = 0xffffffffffffffff'64;",
];

fn expect_fault(rt: &impl Abort, alloc: Global, text: &[u8], fault: WidthFault) {
    let Err(end) = elaborated(rt, alloc, text) else {
        panic!(rt; "{text:?} has no fault");
    };
    assert_eq!(rt; end, WidthEnd::Fault { fault }, "of {text:?}");
}

#[test]
fn unknown_names(rt: HostRuntime) {
    for &(text, token) in &UNKNOWN_NAMES {
        expect_fault(&rt, rt.alloc(), text, WidthFault::UnknownName { token });
    }
}

#[test]
fn second_declarations(rt: HostRuntime) {
    for &(text, token) in &TWICE_NAMED {
        expect_fault(&rt, rt.alloc(), text, WidthFault::TwiceNamed { token });
    }
}

#[test]
fn widths_that_clash(rt: HostRuntime) {
    for &(text, token, found, wanted) in &CLASHES {
        let fault = WidthFault::WidthClash {
            token,
            found,
            wanted,
        };
        expect_fault(&rt, rt.alloc(), text, fault);
    }
}

#[test]
fn limits_that_are_passed(rt: HostRuntime) {
    for &(text, token, limit) in &TOO_MANY {
        expect_fault(&rt, rt.alloc(), text, WidthFault::TooMany { token, limit });
    }
}

#[test]
fn texts_without_a_fault(rt: HostRuntime) {
    for &text in &FAULTLESS {
        assert!(rt;
            elaborated(&rt, rt.alloc(), text).is_ok(),
            "{text:?} has a fault"
        );
    }
}

/// A machine with so many instructions of one effect.
fn many_instructions(alloc: Global, count: usize) -> Result<Vec<u8>, AllocError> {
    let mut text = Vec::from_slice(alloc, b"machine m;")?;
    for number in 0..count {
        let instruction = format!(in alloc; "instr i{number}()=pc:=1'32;")?;
        text.extend_from_slice(instruction.as_bytes())?;
    }
    Ok(text)
}

#[test]
fn instructions_up_to_the_limit(rt: HostRuntime) {
    let text = many_instructions(rt.alloc(), 256).expect(&rt, "memory");
    let machine = elaborated(&rt, rt.alloc(), text.as_slice()).expect(&rt, "a machine");
    assert_eq!(rt; machine.operations.len(), 256);
    let text = many_instructions(rt.alloc(), 257).expect(&rt, "memory");
    // Each instruction has 11 tokens.
    let fault = WidthFault::TooMany {
        token: 3 + 256 * 11,
        limit: 256,
    };
    expect_fault(&rt, rt.alloc(), text.as_slice(), fault);
}

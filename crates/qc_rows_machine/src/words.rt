//! Values of the operators, by hand.
use qc_words::{Op, Width, accepts, apply, result_width};
use std::process::Abort;

/// An operator, whose width stands as a number.
#[derive(Clone, Copy, Debug)]
enum Form {
    Add,
    Sub,
    Mul,
    Divu,
    Modu,
    Quot,
    Rem,
    And,
    Or,
    Xor,
    Com,
    Neg,
    Shl,
    Shrl,
    Shra,
    Eq,
    Ne,
    Lt,
    Ge,
    Ltu,
    Geu,
    Zx(u8),
    Sx(u8),
    /// A slice from this bit, of this width.
    Slice(u8, u8),
}

/// An operator, its operands, and the word that it gives. An operator of one operand ignores the second.
type Row = (Form, u64, u64, u64);

/// The greatest word of 64 bits, which is the signed number -1.
const ONES: u64 = 0xFFFF_FFFF_FFFF_FFFF;

/// The word of 64 bits for the least signed number.
const LEAST: u64 = 0x8000_0000_0000_0000;

/// The greatest word of 63 bits, which is the signed number -1.
const ONES_63: u64 = 0x7FFF_FFFF_FFFF_FFFF;

/// The word of 63 bits for the least signed number.
const LEAST_63: u64 = 0x4000_0000_0000_0000;

// The word 1 is the signed number -1.
const ONE: &[Row] = &[
    (Form::Lt, 1, 0, 1),
    (Form::Lt, 0, 1, 0),
    (Form::Ge, 0, 1, 1),
    (Form::Ltu, 0, 1, 1),
    (Form::Add, 1, 1, 0),
    (Form::Sub, 0, 1, 1),
    (Form::Mul, 1, 1, 1),
    (Form::Neg, 1, 0, 1),
    (Form::Com, 1, 0, 0),
    (Form::Divu, 0, 0, 1),
    (Form::Quot, 1, 1, 1),
    (Form::Quot, 0, 0, 1),
    (Form::Rem, 1, 1, 0),
    (Form::Shl, 1, 1, 1),
    (Form::Shra, 1, 1, 1),
    (Form::Sx(64), 1, 0, 0xFFFF_FFFF_FFFF_FFFF),
    (Form::Zx(64), 1, 0, 1),
    (Form::Sx(5), 1, 0, 31),
    (Form::Sx(31), 1, 0, 0x7FFF_FFFF),
    (Form::Sx(63), 1, 0, 0x7FFF_FFFF_FFFF_FFFF),
    (Form::Sx(64), 1, 0, 0xFFFF_FFFF_FFFF_FFFF),
    (Form::Sx(31), 0, 0, 0),
    (Form::Sx(1), 1, 0, 1),
    (Form::Zx(63), 1, 0, 1),
    (Form::Slice(0, 1), 1, 0, 1),
];

// The word 16 is the signed number -16, and 31 is -1.
const FIVE: &[Row] = &[
    (Form::Shl, 0b11111, 7, 0b11100),
    (Form::Shra, 0b10010, 7, 0b11100),
    (Form::Add, 31, 1, 0),
    (Form::Add, 16, 16, 0),
    (Form::Sub, 0, 1, 31),
    (Form::Sub, 16, 1, 15),
    (Form::Mul, 31, 31, 1),
    (Form::Mul, 16, 2, 0),
    (Form::Divu, 31, 4, 7),
    (Form::Divu, 9, 0, 31),
    (Form::Modu, 31, 4, 3),
    (Form::Modu, 9, 0, 9),
    (Form::Quot, 16, 31, 16),
    (Form::Quot, 25, 2, 29),
    (Form::Quot, 7, 30, 29),
    (Form::Quot, 9, 0, 31),
    (Form::Rem, 16, 31, 0),
    (Form::Rem, 25, 2, 31),
    (Form::Rem, 7, 30, 1),
    (Form::Rem, 9, 0, 9),
    (Form::Com, 16, 9, 15),
    (Form::Neg, 16, 9, 16),
    (Form::Neg, 1, 9, 31),
    (Form::And, 12, 10, 8),
    (Form::Or, 12, 10, 14),
    (Form::Xor, 12, 10, 6),
    (Form::Xor, 31, 16, 15),
    (Form::Shl, 3, 4, 16),
    (Form::Shl, 3, 5, 3),
    (Form::Shl, 3, 6, 6),
    (Form::Shrl, 16, 4, 1),
    (Form::Shrl, 16, 5, 16),
    (Form::Shra, 16, 4, 31),
    (Form::Shra, 16, 5, 16),
    (Form::Shra, 16, 6, 24),
    (Form::Shra, 15, 1, 7),
    (Form::Eq, 31, 31, 1),
    (Form::Eq, 31, 16, 0),
    (Form::Ne, 31, 16, 1),
    (Form::Ne, 31, 31, 0),
    (Form::Lt, 16, 15, 1),
    (Form::Lt, 15, 16, 0),
    (Form::Ge, 16, 15, 0),
    (Form::Ge, 16, 16, 1),
    (Form::Ltu, 16, 15, 0),
    (Form::Ltu, 15, 16, 1),
    (Form::Geu, 16, 15, 1),
    (Form::Geu, 15, 16, 0),
    (Form::Zx(63), 31, 0, 31),
    (Form::Sx(63), 16, 0, 0x7FFF_FFFF_FFFF_FFF0),
    (Form::Sx(63), 15, 0, 15),
    (Form::Sx(5), 16, 0, 16),
    (Form::Slice(0, 1), 19, 0, 1),
    (Form::Slice(4, 1), 17, 0, 1),
    (Form::Slice(4, 1), 15, 0, 0),
    (Form::Slice(0, 5), 21, 0, 21),
];

const EIGHT: &[Row] = &[
    (Form::Zx(16), 0x80, 9, 0x80),
    (Form::Sx(16), 0x80, 9, 0xFF80),
    (Form::Sx(16), 0x7F, 9, 0x7F),
    (Form::Sx(8), 0x80, 9, 0x80),
];

const SIXTEEN: &[Row] = &[
    (Form::Slice(4, 8), 0xABCD, 9, 0xBC),
    (Form::Slice(0, 16), 0xABCD, 9, 0xABCD),
    (Form::Add, 0xFFFF, 2, 1),
    (Form::Sub, 1, 2, 0xFFFF),
    (Form::Mul, 0x8001, 0x8001, 1),
    (Form::Divu, 0xFFFF, 0, 0xFFFF),
    (Form::Modu, 0xFFFF, 0, 0xFFFF),
    (Form::Quot, 0x8000, 0xFFFF, 0x8000),
    (Form::Quot, 0x8000, 3, 0xD556),
    (Form::Rem, 0x8000, 0xFFFF, 0),
    (Form::Rem, 0x8000, 3, 0xFFFE),
    (Form::Neg, 5, 0, 0xFFFB),
    (Form::Com, 255, 0, 0xFF00),
    (Form::Shl, 0xFFFF, 20, 0xFFF0),
    (Form::Shrl, 0xFFFF, 36, 0xFFF),
    (Form::Shra, 0x8000, 0xFFFF, 0xFFFF),
    (Form::Lt, 0xFFFF, 0, 1),
    (Form::Ltu, 0xFFFF, 0, 0),
    (Form::Zx(63), 0x8000, 0, 0x8000),
    (Form::Sx(63), 0x8000, 0, 0x7FFF_FFFF_FFFF_8000),
    (Form::Slice(8, 8), 0x8005, 0, 128),
    (Form::Slice(0, 8), 0x8105, 0, 5),
];

const THIRTY_ONE: &[Row] = &[
    (Form::Add, 0x7FFF_FFFF, 2, 1),
    (Form::Sub, 1, 2, 0x7FFF_FFFF),
    (Form::Mul, 0x4000_0001, 0x4000_0001, 1),
    (Form::Divu, 0x7FFF_FFFF, 0, 0x7FFF_FFFF),
    (Form::Modu, 0x7FFF_FFFF, 0, 0x7FFF_FFFF),
    (Form::Quot, 0x4000_0000, 0x7FFF_FFFF, 0x4000_0000),
    (Form::Quot, 0x4000_0000, 3, 0x6AAA_AAAB),
    (Form::Rem, 0x4000_0000, 0x7FFF_FFFF, 0),
    (Form::Rem, 0x4000_0000, 3, 0x7FFF_FFFF),
    (Form::Neg, 5, 0, 0x7FFF_FFFB),
    (Form::Com, 255, 0, 0x7FFF_FF00),
    (Form::Shl, 0x7FFF_FFFF, 35, 0x7FFF_FFF0),
    (Form::Shrl, 0x7FFF_FFFF, 66, 0x7FF_FFFF),
    (Form::Shra, 0x4000_0000, 0x7FFF_FFFF, 0x6000_0000),
    (Form::Lt, 0x7FFF_FFFF, 0, 1),
    (Form::Ltu, 0x7FFF_FFFF, 0, 0),
    (Form::Zx(63), 0x4000_0000, 0, 0x4000_0000),
    (Form::Sx(63), 0x4000_0000, 0, 0x7FFF_FFFF_C000_0000),
    (Form::Slice(23, 8), 0x4000_0005, 0, 128),
    (Form::Slice(0, 8), 0x4000_0105, 0, 5),
];

const THIRTY_TWO: &[Row] = &[
    (Form::Add, 0xFFFF_FFFF, 1, 0),
    (Form::Add, 0xFFFF_FFFF, 0xFFFF_FFFF, 0xFFFF_FFFE),
    (Form::Sub, 0, 1, 0xFFFF_FFFF),
    (Form::Mul, 0x1_0000, 0x1_0000, 0),
    (Form::Mul, 0xFFFF_FFFF, 3, 0xFFFF_FFFD),
    (Form::Divu, 0xFFFF_FFF9, 2, 0x7FFF_FFFC),
    (Form::Divu, 5, 0, 4294967295),
    (Form::Modu, 0xFFFF_FFF9, 2, 1),
    (Form::Modu, 5, 0, 5),
    (Form::Quot, 5, 0, 4294967295),
    (Form::Quot, 0x8000_0000, 0xFFFF_FFFF, 0x8000_0000),
    (Form::Quot, 0xFFFF_FFF9, 2, 0xFFFF_FFFD),
    (Form::Quot, 7, 0xFFFF_FFFE, 0xFFFF_FFFD),
    (Form::Quot, 0xFFFF_FFF9, 0xFFFF_FFFE, 3),
    (Form::Rem, 5, 0, 5),
    (Form::Rem, 0x8000_0000, 0xFFFF_FFFF, 0),
    (Form::Rem, 0xFFFF_FFF9, 2, 0xFFFF_FFFF),
    (Form::Rem, 7, 0xFFFF_FFFE, 1),
    (Form::Neg, 1, 9, 0xFFFF_FFFF),
    (Form::Neg, 0x8000_0000, 9, 0x8000_0000),
    (Form::Neg, 0, 9, 0),
    (Form::And, 0b1100, 0b1010, 0b1000),
    (Form::Or, 0b1100, 0b1010, 0b1110),
    (Form::Xor, 0b1100, 0b1010, 0b0110),
    (Form::Com, 0x0F, 9, 0xFFFF_FFF0),
    (Form::Shl, 1, 33, 2),
    (Form::Shl, 0x8000_0001, 1, 2),
    (Form::Shrl, 0x8000_0000, 31, 1),
    (Form::Shrl, 0x8000_0000, 32, 0x8000_0000),
    (Form::Shrl, 0x8000_0000, 36, 0x0800_0000),
    (Form::Shra, 0x8000_0000, 4, 0xF800_0000),
    (Form::Shra, 0x8000_0000, 31, 0xFFFF_FFFF),
    (Form::Shra, 0x8000_0000, 36, 0xF800_0000),
    (Form::Shra, 0x4000_0000, 4, 0x0400_0000),
    (Form::Eq, 3, 3, 1),
    (Form::Eq, 3, 4, 0),
    (Form::Ne, 3, 3, 0),
    (Form::Ne, 3, 4, 1),
    (Form::Lt, 0xFFFF_FFFF, 0, 1),
    (Form::Lt, 5, 5, 0),
    (Form::Ge, 0xFFFF_FFFF, 0, 0),
    (Form::Ge, 5, 5, 1),
    (Form::Ltu, 0xFFFF_FFFF, 0, 0),
    (Form::Ltu, 5, 5, 0),
    (Form::Ltu, 4, 5, 1),
    (Form::Geu, 0xFFFF_FFFF, 0, 1),
    (Form::Geu, 5, 5, 1),
    (Form::Geu, 4, 5, 0),
];

const SIXTY_THREE: &[Row] = &[
    (Form::Add, ONES_63, 1, 0),
    (Form::Add, LEAST_63, LEAST_63, 0),
    (Form::Sub, 0, 1, ONES_63),
    (Form::Sub, LEAST_63, 1, 0x3FFF_FFFF_FFFF_FFFF),
    (Form::Mul, ONES_63, ONES_63, 1),
    (Form::Mul, LEAST_63, 2, 0),
    (Form::Divu, ONES_63, 4, 0x1FFF_FFFF_FFFF_FFFF),
    (Form::Divu, 9, 0, ONES_63),
    (Form::Modu, ONES_63, 4, 3),
    (Form::Modu, 9, 0, 9),
    (Form::Quot, LEAST_63, ONES_63, LEAST_63),
    (Form::Quot, 0x7FFF_FFFF_FFFF_FFF9, 2, 0x7FFF_FFFF_FFFF_FFFD),
    (Form::Quot, 7, 0x7FFF_FFFF_FFFF_FFFE, 0x7FFF_FFFF_FFFF_FFFD),
    (Form::Quot, 9, 0, ONES_63),
    (Form::Rem, LEAST_63, ONES_63, 0),
    (Form::Rem, 0x7FFF_FFFF_FFFF_FFF9, 2, ONES_63),
    (Form::Rem, 7, 0x7FFF_FFFF_FFFF_FFFE, 1),
    (Form::Rem, 9, 0, 9),
    (Form::Com, LEAST_63, 9, 0x3FFF_FFFF_FFFF_FFFF),
    (Form::Neg, LEAST_63, 9, LEAST_63),
    (Form::Neg, 1, 9, ONES_63),
    (Form::And, 12, 10, 8),
    (Form::Or, 12, 10, 14),
    (Form::Xor, 12, 10, 6),
    (Form::Xor, ONES_63, LEAST_63, 0x3FFF_FFFF_FFFF_FFFF),
    (Form::Shl, 3, 62, LEAST_63),
    (Form::Shl, 3, 63, 3),
    (Form::Shl, 3, 64, 6),
    (Form::Shrl, LEAST_63, 62, 1),
    (Form::Shrl, LEAST_63, 63, LEAST_63),
    (Form::Shra, LEAST_63, 62, ONES_63),
    (Form::Shra, LEAST_63, 63, LEAST_63),
    (Form::Shra, LEAST_63, 64, 0x6000_0000_0000_0000),
    (Form::Shra, 0x3FFF_FFFF_FFFF_FFFF, 1, 0x1FFF_FFFF_FFFF_FFFF),
    (Form::Eq, ONES_63, ONES_63, 1),
    (Form::Eq, ONES_63, LEAST_63, 0),
    (Form::Ne, ONES_63, LEAST_63, 1),
    (Form::Ne, ONES_63, ONES_63, 0),
    (Form::Lt, LEAST_63, 0x3FFF_FFFF_FFFF_FFFF, 1),
    (Form::Lt, 0x3FFF_FFFF_FFFF_FFFF, LEAST_63, 0),
    (Form::Ge, LEAST_63, 0x3FFF_FFFF_FFFF_FFFF, 0),
    (Form::Ge, LEAST_63, LEAST_63, 1),
    (Form::Ltu, LEAST_63, 0x3FFF_FFFF_FFFF_FFFF, 0),
    (Form::Ltu, 0x3FFF_FFFF_FFFF_FFFF, LEAST_63, 1),
    (Form::Geu, LEAST_63, 0x3FFF_FFFF_FFFF_FFFF, 1),
    (Form::Geu, 0x3FFF_FFFF_FFFF_FFFF, LEAST_63, 0),
    (Form::Zx(64), ONES_63, 0, ONES_63),
    (Form::Sx(64), LEAST_63, 0, 0xC000_0000_0000_0000),
    (
        Form::Sx(64),
        0x3FFF_FFFF_FFFF_FFFF,
        0,
        0x3FFF_FFFF_FFFF_FFFF,
    ),
    (Form::Sx(63), LEAST_63, 0, LEAST_63),
    (Form::Slice(0, 1), 0x4000_0000_0000_0002, 0, 0),
    (Form::Slice(62, 1), LEAST_63, 0, 1),
    (Form::Slice(58, 5), 0x7BFF_FFFF_FFFF_FFFF, 0, 30),
    (
        Form::Slice(0, 63),
        0x4000_0000_0000_0005,
        0,
        0x4000_0000_0000_0005,
    ),
];

const SIXTY_FOUR: &[Row] = &[
    (Form::Add, ONES, 1, 0),
    (Form::Add, ONES, ONES, 0xFFFF_FFFF_FFFF_FFFE),
    (Form::Sub, 0, ONES, 1),
    (Form::Sub, 0, LEAST, LEAST),
    (Form::Mul, ONES, ONES, 1),
    (Form::Divu, ONES, 0, ONES),
    (Form::Divu, ONES, 2, 0x7FFF_FFFF_FFFF_FFFF),
    (Form::Modu, ONES, 0, ONES),
    (Form::Modu, ONES, 2, 1),
    (Form::Quot, LEAST, ONES, LEAST),
    (Form::Quot, LEAST, 2, 0xC000_0000_0000_0000),
    (Form::Quot, ONES, 0, ONES),
    (Form::Rem, LEAST, ONES, 0),
    (Form::Rem, LEAST, 0x7FFF_FFFF_FFFF_FFFF, ONES),
    (Form::Neg, LEAST, 0, LEAST),
    (Form::Neg, ONES, 0, 1),
    (Form::And, ONES, LEAST, LEAST),
    (Form::Or, ONES, LEAST, ONES),
    (Form::Xor, ONES, LEAST, 0x7FFF_FFFF_FFFF_FFFF),
    (Form::Com, 0, 0, ONES),
    (Form::Shl, ONES, 63, LEAST),
    (Form::Shl, 1, 64, 1),
    (Form::Shrl, ONES, 63, 1),
    (Form::Shra, LEAST, 63, ONES),
    (Form::Shra, LEAST, ONES, ONES),
    (Form::Eq, ONES, ONES, 1),
    (Form::Ne, ONES, LEAST, 1),
    (Form::Lt, LEAST, 0x7FFF_FFFF_FFFF_FFFF, 1),
    (Form::Ge, 0x7FFF_FFFF_FFFF_FFFF, LEAST, 1),
    (Form::Ltu, LEAST, ONES, 1),
    (Form::Geu, ONES, 0, 1),
    (Form::Zx(64), ONES, 0, ONES),
    (Form::Sx(64), LEAST, 0, LEAST),
    (Form::Slice(0, 64), ONES, 0, ONES),
    (Form::Slice(63, 1), LEAST, 0, 1),
];

fn width(rt: &impl Abort, bits: u8) -> Width {
    Width::new(bits).expect(rt, "a width")
}

fn operator(rt: &impl Abort, form: Form) -> Op {
    match form {
        Form::Add => Op::Add,
        Form::Sub => Op::Sub,
        Form::Mul => Op::Mul,
        Form::Divu => Op::Divu,
        Form::Modu => Op::Modu,
        Form::Quot => Op::Quot,
        Form::Rem => Op::Rem,
        Form::And => Op::And,
        Form::Or => Op::Or,
        Form::Xor => Op::Xor,
        Form::Com => Op::Com,
        Form::Neg => Op::Neg,
        Form::Shl => Op::Shl,
        Form::Shrl => Op::Shrl,
        Form::Shra => Op::Shra,
        Form::Eq => Op::Eq,
        Form::Ne => Op::Ne,
        Form::Lt => Op::Lt,
        Form::Ge => Op::Ge,
        Form::Ltu => Op::Ltu,
        Form::Geu => Op::Geu,
        Form::Zx(to) => Op::Zx { to: width(rt, to) },
        Form::Sx(to) => Op::Sx { to: width(rt, to) },
        Form::Slice(low, to) => Op::Slice {
            low,
            to: width(rt, to),
        },
    }
}

fn expect_row(rt: &impl Abort, w: Width, row: Row) {
    let (form, a, b, want) = row;
    let op = operator(rt, form);
    assert!(rt; accepts(op, w), "{op:?} at {w:?}");
    assert!(rt; w.holds(a), "{a} at {w:?}");
    assert!(rt; w.holds(b), "{b} at {w:?}");
    assert_eq!(rt; apply(op, w, a, b), want, "{op:?} of {a} and {b} at {w:?}");
}

fn expect_rows(rt: &impl Abort, bits: u8, rows: &[Row]) {
    let w = width(rt, bits);
    for row in rows {
        expect_row(rt, w, *row);
    }
}

#[test]
fn values_of_operators(rt: HostRuntime) {
    expect_rows(&rt, 1, ONE);
    expect_rows(&rt, 5, FIVE);
    expect_rows(&rt, 8, EIGHT);
    expect_rows(&rt, 16, SIXTEEN);
    expect_rows(&rt, 31, THIRTY_ONE);
    expect_rows(&rt, 32, THIRTY_TWO);
    expect_rows(&rt, 63, SIXTY_THREE);
    expect_rows(&rt, 64, SIXTY_FOUR);
}

/// Operators that don't take words of a width.
const NOT_ACCEPTED: [(Form, u8); 3] = [
    (Form::Zx(8), 16),
    (Form::Sx(8), 16),
    (Form::Slice(9, 8), 16),
];

/// Operators, the width of their operands, and the width of what they give.
const WIDTHS: [(Form, u8, u8); 3] = [
    (Form::Slice(4, 8), 16, 8),
    (Form::Lt, 16, 1),
    (Form::Add, 16, 16),
];

/// Numbers, and whether there are words of so many bits.
const EXISTS: [(u8, bool); 4] = [(0, false), (1, true), (64, true), (65, false)];

fn expect_width(rt: &impl Abort, row: (Form, u8, u8)) {
    let (form, bits, want) = row;
    let op = operator(rt, form);
    let found = result_width(op, width(rt, bits));
    assert_eq!(rt; found, width(rt, want), "{op:?} at {bits}");
}

#[test]
fn widths_of_operators(rt: HostRuntime) {
    for (form, bits) in NOT_ACCEPTED {
        let accepted = accepts(operator(&rt, form), width(&rt, bits));
        assert!(rt; !accepted, "at {bits}");
    }
    for row in WIDTHS {
        expect_width(&rt, row);
    }
    for (bits, exists) in EXISTS {
        assert_eq!(rt; Width::new(bits).is_some(), exists, "at {bits}");
    }
    assert!(rt; Width::ONE.holds(1));
    assert!(rt; !Width::ONE.holds(2));
}

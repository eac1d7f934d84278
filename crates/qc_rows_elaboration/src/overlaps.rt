//! Codings that overlap, and the bits of one coding.
use crate::descriptions::{
    FIELD_RANGE, INSTRUCTIONS, ITEMS, JUMP, ORDER, Row, description, expect_rows, machine_text,
};
use qc_descr::{Bit, DescrFault, Reach};
use std::alloc::Global;
use std::process::Abort;

const PAIR: &[u8] = b"instr i(a: r) = out := a; instr j() = pc := 0'16; ";

const TRIPLE: &[u8] = b"instr i() = pc := 0'16; instr j() = pc := 1'16; instr k() = pc := 2'16; ";

const CODINGS_THAT_OVERLAP: [Row; 9] = [
    (
        PAIR,
        b"fields t 8 (op 5:0, a 7:6, all 7:0) constructor i(a) is op = 1 & a = a constructor j() is all = 1",
        Some(DescrFault::Overlap { a: 0, b: 1 }),
    ),
    (
        PAIR,
        b"fields t 8 (op 5:0, a 7:6, all 7:0) constructor i(a) is op = 1 & a = a constructor j() is all = 2",
        None,
    ),
    (
        PAIR,
        b"fields t 8 (op 5:0, a 7:6, all 7:0) constructor i(a) is op = 1 & a = a constructor j() is all = 0xC1",
        Some(DescrFault::Overlap { a: 0, b: 1 }),
    ),
    (
        PAIR,
        b"fields t 8 (op 5:0, a 7:6, all 7:0) fields u 8 (b 7:0) constructor j() is all = 1 ; b = 7 constructor i(a) is op = 1 & a = a",
        Some(DescrFault::Overlap { a: 0, b: 1 }),
    ),
    (
        PAIR,
        b"fields t 8 (op 5:0, a 7:6, all 7:0) constructor i(a) is op = 64 & a = a constructor j() is op = 1",
        FIELD_RANGE,
    ),
    (
        PAIR,
        b"fields t 8 (op 5:0, a 7:6, all 7:0) constructor i(a) is op = 1 & a = a constructor j() is op = 1",
        Some(DescrFault::Uncovered { instruction: 1 }),
    ),
    (
        TRIPLE,
        b"fields t 8 (op 7:0) constructor i() is op = 1 constructor j() is op = 2 constructor k() is op = 1",
        Some(DescrFault::Overlap { a: 0, b: 2 }),
    ),
    (
        TRIPLE,
        b"fields t 8 (op 7:0) constructor i() is op = 1 constructor j() is op = 2 constructor k() is op = 2",
        Some(DescrFault::Overlap { a: 1, b: 2 }),
    ),
    (
        TRIPLE,
        b"fields t 8 (op 7:0) constructor i() is op = 1 constructor j() is op = 1 constructor k() is op = 1",
        Some(DescrFault::Overlap { a: 0, b: 1 }),
    ),
];

#[test]
fn codings_that_overlap(rt: HostRuntime) {
    expect_rows(&rt, rt.alloc(), CODINGS_THAT_OVERLAP.as_slice());
}

/// Instructions of a byte and of a wider token, in both byte orders.
fn overlaps_in(rt: &impl Abort, alloc: Global, order: &[u8], sled: &[u8]) -> bool {
    let mut items = Vec::from_slice(alloc, order).expect(rt, "memory");
    items
        .extend_from_slice(b"instr i() = pc := 0'16; instr j() = pc := 1'16; ")
        .expect(rt, "memory");
    let mut lrtl = Vec::from_slice(alloc, b"machine m; ").expect(rt, "memory");
    for (number, own) in ITEMS.iter().enumerate() {
        if number == ORDER {
            lrtl.extend_from_slice(items.as_slice())
                .expect(rt, "memory");
        } else if number != INSTRUCTIONS {
            lrtl.extend_from_slice(*own).expect(rt, "memory");
        }
    }
    description(rt, alloc, lrtl.as_slice(), sled).is_err()
}

#[test]
fn overlaps_by_places_in_memory(rt: HostRuntime) {
    let alloc = rt.alloc();
    // The byte 1 is the highest of the wider token, or the lowest.
    let highest: &[u8] =
        b"coding m fields t 8 (op 7:0) fields u 16 (all 15:0) constructor i() is op = 1 constructor j() is all = 0x0102";
    let lowest: &[u8] =
        b"coding m fields t 8 (op 7:0) fields u 32 (all 31:0) constructor j() is all = 0x02030401 constructor i() is op = 1";
    assert!(rt; overlaps_in(&rt, alloc, b"byteorder big; ", highest));
    assert!(rt; !overlaps_in(&rt, alloc, b"byteorder little; ", highest));
    assert!(rt; !overlaps_in(&rt, alloc, b"byteorder big; ", lowest));
    assert!(rt; overlaps_in(&rt, alloc, b"byteorder little; ", lowest));
}

#[test]
fn the_coding_of_a_jump(rt: HostRuntime) {
    let lrtl = machine_text(rt.alloc(), INSTRUCTIONS, JUMP).expect(&rt, "memory");
    let sled: &[u8] =
        b"coding m fields t 8 (op 3:0, d 7:4) constructor i(t: rel 6) is op = 5 & d = t{5 .. 2}";
    let machine = description(&rt, rt.alloc(), lrtl.as_slice(), sled).expect(&rt, "a description");
    assert_eq!(rt; machine.instructions.len(), 1);
    let coding = &machine.instructions.as_slice()[0].coding;
    assert_eq!(rt; coding.tokens.as_slice(), [8].as_slice());
    assert_eq!(rt;
        coding.reaches.as_slice(),
        [Reach::Relative { bits: 6 }].as_slice()
    );
    let bits = [
        Bit::Fixed { one: true },
        Bit::Fixed { one: false },
        Bit::Fixed { one: true },
        Bit::Fixed { one: false },
        Bit::Piece { operand: 0, bit: 2 },
        Bit::Piece { operand: 0, bit: 3 },
        Bit::Piece { operand: 0, bit: 4 },
        Bit::Piece { operand: 0, bit: 5 },
    ];
    assert_eq!(rt; coding.bits.as_slice(), bits.as_slice());
    assert_eq!(rt;
        (machine.align, machine.slot_bits, machine.frame),
        (1, 8, (0, 0))
    );
    assert_eq!(rt;
        (machine.allocatable, machine.first, machine.last),
        (0, 2, 3)
    );
    assert_eq!(rt;
        (machine.memory, machine.code_end, machine.data_end),
        (0x1000, 0x100, 0x200)
    );
}

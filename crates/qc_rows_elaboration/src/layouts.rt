//! Parts of a machine's layout that don't fit.
use crate::descriptions::{
    ALIGN, ALLOCATABLE, CODE, CODING, DATA, FRAME, INSTRUCTIONS, LINK, MEMORY, ORDER, SLOT_BITS,
    SPACES, WORD, ZERO, fault_with,
};
use qc_descr::{DescrFault, Part};
use qc_join::JoinFault;
use std::alloc::Global;
use std::process::Abort;

fn expect_layout(rt: &impl Abort, alloc: Global, place: usize, item: &[u8], part: Option<Part>) {
    let fault = part.map(|part| JoinFault::Descr {
        fault: DescrFault::BadLayout { part },
    });
    assert_eq!(rt;
        fault_with(rt, alloc, place, item, CODING),
        fault,
        "of {item:?}"
    );
}

/// Items of the word and the memory, with the part of the layout that doesn't fit.
const SIZES: [(usize, &[u8], Option<Part>); 38] = [
    (WORD, b"", Some(Part::Word)),
    (WORD, b"word 8; ", Some(Part::Word)),
    (WORD, b"word 24; ", Some(Part::Word)),
    (WORD, b"word 64; ", Some(Part::Word)),
    (ORDER, b"", Some(Part::Word)),
    (ORDER, b"byteorder little; ", None),
    (MEMORY, b"", Some(Part::Memory)),
    (MEMORY, b"memory 0x10002; ", Some(Part::Memory)),
    (MEMORY, b"memory 0x10000; ", None),
    (MEMORY, b"memory 0x1001; ", Some(Part::Memory)),
    (MEMORY, b"memory 0; ", Some(Part::Data)),
    (MEMORY, b"memory 0x10000000000000000; ", Some(Part::Memory)),
    (CODE, b"", Some(Part::Code)),
    (CODE, b"code 15; ", Some(Part::Code)),
    (CODE, b"code 16; ", None),
    (CODE, b"code 0x1F8; ", None),
    (CODE, b"code 0x1F9; ", Some(Part::Data)),
    (CODE, b"code 0x1FF; ", Some(Part::Data)),
    (CODE, b"code 0x200; ", Some(Part::Code)),
    (DATA, b"", Some(Part::Data)),
    (DATA, b"data 0x100; ", Some(Part::Code)),
    (DATA, b"data 0x107; ", Some(Part::Data)),
    (DATA, b"data 0x108; ", None),
    (DATA, b"data 0xFFF; ", None),
    (DATA, b"data 0x1000; ", Some(Part::Data)),
    (ALIGN, b"", Some(Part::Align)),
    (ALIGN, b"align 0; ", Some(Part::Align)),
    (ALIGN, b"align 2; ", Some(Part::Align)),
    (ALIGN, b"align 3; ", Some(Part::Align)),
    (ALIGN, b"align 32; ", Some(Part::Align)),
    (ALIGN, b"align 0x10000000000000000; ", Some(Part::Align)),
    (SLOT_BITS, b"", Some(Part::SlotBits)),
    (SLOT_BITS, b"slotbits 3; ", Some(Part::SlotBits)),
    (SLOT_BITS, b"slotbits 4; ", None),
    (SLOT_BITS, b"slotbits 16; ", None),
    (SLOT_BITS, b"slotbits 17; ", Some(Part::SlotBits)),
    (SLOT_BITS, b"slotbits 260; ", Some(Part::SlotBits)),
    (INSTRUCTIONS, b"instr i(a: r) = out := a; ", None),
];

/// The same for cells.
const CELLS: [(usize, &[u8], Option<Part>); 26] = [
    (FRAME, b"", Some(Part::Frame)),
    (FRAME, b"frame f 0; ", Some(Part::Frame)),
    (FRAME, b"frame n 0; ", Some(Part::Frame)),
    (FRAME, b"frame q 0; ", Some(Part::Allocatable)),
    (LINK, b"", Some(Part::Link)),
    (LINK, b"link f 1; ", Some(Part::Link)),
    (LINK, b"link r 0; ", Some(Part::Link)),
    (LINK, b"link q 0; ", Some(Part::Allocatable)),
    (ZERO, b"zero n 0; ", Some(Part::Zero)),
    (ZERO, b"zero r 0; ", Some(Part::Zero)),
    (ZERO, b"zero r 1; ", Some(Part::Zero)),
    (ZERO, b"zero q 0; ", None),
    (ZERO, b"zero r 2; ", Some(Part::Allocatable)),
    (ALLOCATABLE, b"", Some(Part::Allocatable)),
    (
        ALLOCATABLE,
        b"allocatable r 3 .. 2; ",
        Some(Part::Allocatable),
    ),
    (ALLOCATABLE, b"allocatable r 2 .. 2; ", None),
    (
        ALLOCATABLE,
        b"allocatable r 1 .. 2; ",
        Some(Part::Allocatable),
    ),
    (
        ALLOCATABLE,
        b"allocatable r 0 .. 3; ",
        Some(Part::Allocatable),
    ),
    (
        ALLOCATABLE,
        b"allocatable q 0 .. 1; ",
        Some(Part::Allocatable),
    ),
    (
        ALLOCATABLE,
        b"allocatable f 0 .. 1; ",
        Some(Part::Allocatable),
    ),
    (
        SPACES,
        b"space r 4 cells 16 bits; space f 2 cells 2 bits flags; ",
        Some(Part::Flags),
    ),
    (
        SPACES,
        b"space r 4 cells 16 bits; space q 2 cells 16 bits flags; ",
        Some(Part::Flags),
    ),
    (
        SPACES,
        b"space r 4 cells 16 bits flags; ",
        Some(Part::Allocatable),
    ),
    (
        SPACES,
        b"space r 4 cells 16 bits; space f 0 cells 1 bits flags; ",
        None,
    ),
    (SPACES, b"space r 4 cells 16 bits; ", None),
    (
        SPACES,
        b"space r 4 cells 16 bits; space n 2 cells 2 bits; ",
        None,
    ),
];

#[test]
fn sizes_of_a_layout(rt: HostRuntime) {
    for &(place, item, part) in &SIZES {
        expect_layout(&rt, rt.alloc(), place, item, part);
    }
}

#[test]
fn cells_of_a_layout(rt: HostRuntime) {
    for &(place, item, part) in &CELLS {
        expect_layout(&rt, rt.alloc(), place, item, part);
    }
}

//! A machine of which one item is exchanged, and what is made of it with a coding's text.
use qc_descr::{DescrFault, Description};
use qc_join::{JoinEnd, JoinFault, join};
use qc_lrtl::read_lrtl;
use qc_sled::read_sled;
use qc_widths::elaborate;
use std::alloc::{AllocError, Global};
use std::process::Abort;

/// The items of a machine, by their places in the tests below.
pub(crate) const ITEMS: [&[u8]; 13] = [
    b"word 16; ",
    b"byteorder big; ",
    b"memory 0x1000; ",
    b"code 0x100; ",
    b"data 0x200; ",
    b"align 1; ",
    b"slotbits 8; ",
    b"space r 4 cells 16 bits; space f 2 cells 1 bits flags; space n 4 cells 8 bits; space q 3 cells 16 bits; space o 1 cells 16 bits; ",
    b"frame r 0; ",
    b"link r 1; ",
    b"",
    b"allocatable r 2 .. 3; ",
    b"instr i(a: r) = a := a; ",
];

pub(crate) const WORD: usize = 0;

pub(crate) const ORDER: usize = 1;

pub(crate) const MEMORY: usize = 2;

pub(crate) const CODE: usize = 3;

pub(crate) const DATA: usize = 4;

pub(crate) const ALIGN: usize = 5;

pub(crate) const SLOT_BITS: usize = 6;

pub(crate) const SPACES: usize = 7;

pub(crate) const FRAME: usize = 8;

pub(crate) const LINK: usize = 9;

pub(crate) const ZERO: usize = 10;

pub(crate) const ALLOCATABLE: usize = 11;

pub(crate) const INSTRUCTIONS: usize = 12;

pub(crate) const CODING: &[u8] =
    b"coding m fields t 8 (op 5:0, a 7:6) constructor i(a) is op = 1 & a = a";

/// The text of the machine with another item at a place.
pub(crate) fn machine_text(
    alloc: Global,
    place: usize,
    item: &[u8],
) -> Result<Vec<u8>, AllocError> {
    let mut text = Vec::from_slice(alloc, b"machine m; ")?;
    for (number, own) in ITEMS.iter().enumerate() {
        text.extend_from_slice(if number == place { item } else { *own })?;
    }
    Ok(text)
}

pub(crate) fn description(
    rt: &impl Abort,
    alloc: Global,
    lrtl: &[u8],
    sled: &[u8],
) -> Result<Description, JoinEnd> {
    let machine = read_lrtl(alloc, lrtl).expect(rt, "a machine's text");
    let machine = elaborate(alloc, &machine).expect(rt, "a machine");
    let coding = read_sled(alloc, sled).expect(rt, "a coding's text");
    join(alloc, machine, &coding)
}

/// The fault of the machine with another item at a place, and a coding's text.
pub(crate) fn fault_with(
    rt: &impl Abort,
    alloc: Global,
    place: usize,
    item: &[u8],
    sled: &[u8],
) -> Option<JoinFault> {
    let lrtl = machine_text(alloc, place, item).expect(rt, "memory");
    match description(rt, alloc, lrtl.as_slice(), sled) {
        Ok(_) => None,
        Err(JoinEnd::Fault { fault }) => Some(fault),
        Err(JoinEnd::NoMemory) => panic!(rt; "no memory"),
    }
}

/// A row: instructions, the coding's text behind its name, and the fault of the description.
pub(crate) type Row = (&'static [u8], &'static [u8], Option<DescrFault>);

pub(crate) const UNCOVERED: Option<DescrFault> = Some(DescrFault::Uncovered { instruction: 0 });

pub(crate) const FIELD_RANGE: Option<DescrFault> = Some(DescrFault::FieldRange { instruction: 0 });

pub(crate) fn expect_rows(rt: &impl Abort, alloc: Global, rows: &[Row]) {
    for (instructions, items, fault) in rows {
        let mut sled = Vec::from_slice(alloc, b"coding m ").expect(rt, "memory");
        sled.extend_from_slice(*items).expect(rt, "memory");
        let reported = fault_with(rt, alloc, INSTRUCTIONS, *instructions, sled.as_slice());
        let fault = fault.map(|fault| JoinFault::Descr { fault });
        assert_eq!(rt; reported, fault, "of {items:?}");
    }
}

pub(crate) const ONE: &[u8] = b"instr i(a: r) = out := a; ";

pub(crate) const TWO: &[u8] = b"instr i(a: r, b: r) = a := b; ";

pub(crate) const NUMBER: &[u8] = b"instr i(k: imm 4) = out := zx 16 (k); ";

pub(crate) const JUMP: &[u8] = b"instr i(t: addr) = pc := t; ";

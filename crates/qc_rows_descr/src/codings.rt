//! Codings at the limits, and bits of which several things are said.

use qc_descr::{DescrFault, Description};
use qc_join::{JoinEnd, JoinFault, join};
use qc_lrtl::read_lrtl;
use qc_sled::read_sled;
use qc_widths::elaborate;
use std::alloc::{AllocError, Global};
use std::process::Abort;

/// A machine but for its instructions. A register of r has 2 bits, one of q has 6.
const MACHINE: &[u8] =
    b"machine m; word 16; byteorder big; memory 0x1000; code 0x100; data 0x200; align 1; slotbits 8;
space r 4 cells 16 bits; space q 64 cells 16 bits; frame r 0; link r 1; allocatable r 2 .. 3; ";

/// An instruction, its coding behind the coding's name, and the fault of the description.
type Row = (&'static [u8], &'static [u8], Option<DescrFault>);

const UNCOVERED: Option<DescrFault> = Some(DescrFault::Uncovered { instruction: 0 });

const FIELD_RANGE: Option<DescrFault> = Some(DescrFault::FieldRange { instruction: 0 });

const ONE: &[u8] = b"instr i(a: r) = out := a;";

const TWO: &[u8] = b"instr i(a: r, b: r) = out := a;";

const THREE: &[u8] = b"instr i(a: r, b: r, c: r) = out := a;";

/// Where several things are said of a bit, an operand's bit counts as often as it stands there: with one place of each the
/// field doesn't fit, with none or two of one the operand isn't covered.
const ROWS: [Row; 10] = [
    (
        THREE,
        b"fields t 8 (op 5:0, x 7:6) constructor i(a, b, c) is op = 1 & x = a & x = b & x = c",
        FIELD_RANGE,
    ),
    (
        TWO,
        b"fields t 8 (op 5:0, x 7:6) constructor i(a, b) is op = 1 & x = a & x = b & x = a",
        UNCOVERED,
    ),
    (
        TWO,
        b"fields t 8 (op 5:0, x 7:6) constructor i(a, b) is op = 1 & x = a & x = a & x = b",
        UNCOVERED,
    ),
    (
        ONE,
        b"fields t 8 (op 5:0, x 7:6) constructor i(a) is op = 1 & x = 0 & x = 0 & x = a",
        FIELD_RANGE,
    ),
    (
        ONE,
        b"fields t 8 (op 5:0, x 7:6) constructor i(a) is op = 1 & x = a & x = 0 & x = a",
        UNCOVERED,
    ),
    (
        ONE,
        b"fields t 8 (op 5:0, x 7:6) constructor i(a) is op = 1 & x = 0 & x = 1 & x = 2",
        UNCOVERED,
    ),
    (
        THREE,
        b"fields t 8 (op 5:0, x 7:6) pattern p is x = 0 & x = 0 constructor i(a, b, c) is op = 1 & p & p & x = a & x = b & x = c",
        FIELD_RANGE,
    ),
    (
        b"instr i(a: q) = out := a;",
        b"fields t 8 (op 1:0, x 7:2) constructor i(a) is op = 1 & x = a",
        None,
    ),
    (
        ONE,
        b"fields t 32 (op 29:0, x 31:30, z 31:0) constructor i(a) is op = 1 & x = a ; z = 0 ; z = 1 ; z = 2",
        None,
    ),
    (
        ONE,
        b"fields t 32 (op 29:0, x 31:30, z 31:0) constructor i(a) is op = 1 & x = a ; z = 0 ; z = 1 ; z = 2 ; z = 3",
        FIELD_RANGE,
    ),
];

fn with(alloc: Global, front: &[u8], behind: &[u8]) -> Result<Vec<u8>, AllocError> {
    let mut text = Vec::from_slice(alloc, front)?;
    text.extend_from_slice(behind)?;
    Ok(text)
}

fn description(
    rt: &impl Abort,
    alloc: Global,
    instruction: &[u8],
    items: &[u8],
) -> Result<Description, JoinEnd> {
    let lrtl = with(alloc, MACHINE, instruction).expect(rt, "memory");
    let sled = with(alloc, b"coding m ", items).expect(rt, "memory");
    let machine = read_lrtl(alloc, lrtl.as_slice()).expect(rt, "a machine's text");
    let machine = elaborate(alloc, &machine).expect(rt, "a machine");
    let coding = read_sled(alloc, sled.as_slice()).expect(rt, "a coding's text");
    join(alloc, machine, &coding)
}

fn fault_of(rt: &impl Abort, answer: Result<Description, JoinEnd>) -> Option<DescrFault> {
    match answer {
        Ok(_) => None,
        Err(
            JoinEnd::Fault {
                fault: JoinFault::Descr { fault },
            },
        ) => Some(fault),
        Err(_) => panic!(rt; "another fault"),
    }
}

#[test]
fn faults_of_codings(rt: HostRuntime) {
    for (instruction, items, fault) in ROWS {
        let answer = description(&rt, rt.alloc(), instruction, items);
        assert_eq!(rt; fault_of(&rt, answer), fault, "of {items:?}");
    }
}

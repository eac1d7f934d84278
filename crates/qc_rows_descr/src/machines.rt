//! The shipped machines as tables that were made by hand from what each machine is, compared with what its texts make.
//!
//! An instruction's coding is written as the number that its bits make where those of operands are 0, from the lowest bit
//! of the first token on, and the places of operands' bits. Its operands and effects are written as in a machine's text,
//! with spaces by their names and with nothing left out but the widths of places and operands.

mod cc16;
mod rv32;
mod text;
mod tin32;

use qc_descr::{Bit, Coding, Description, Instruction};
use qc_join::{JoinEnd, join};
use qc_lrtl::read_lrtl;
use qc_shipped::shipped;
use qc_sled::read_sled;
use qc_terms::Order;
use qc_widths::elaborate;
use std::alloc::Global;
use std::process::Abort;
use text::{effects_text, operands_text};

/// Some bits of an operand in a row: the place of the lowest one, counted from the first token's lowest bit, how many they
/// are, the operand's number, and the number of the lowest one in the operand.
type Piece = (u8, u8, u32, u8);

/// The sizes of the tokens of an instruction, and the places of its operands.
type Format = (&'static [u8], &'static [Piece]);

/// An instruction: its name, its operands, its fixed bits, its format, and its effects.
type Row = (&'static str, &'static str, u64, Format, &'static str);

/// A space: its name, the number of its cells and their width, and whether they are flags.
type SpaceRow = (&'static str, u32, u8, bool);

/// The width of a word, the order of bytes, the alignment and the bits of a slot; the zero, the link and the frame cell; the
/// space, the first and the last of the allocatable cells; and the ends of memory, code and data.
type Layout = (
    (u8, Order, u64, u8),
    (Option<(u32, u32)>, (u32, u32), (u32, u32)),
    (u32, u32, u32),
    (u64, u64, u64),
);

/// A machine: its name, its layout, its spaces, and its instructions in some lists one after another.
type Table = (
    &'static str,
    &'static Layout,
    &'static [SpaceRow],
    &'static [&'static [Row]],
);

/// Whether a bit at a place of a coding is as a row says.
fn is_expected(stands: Bit, place: usize, fixed: u64, pieces: &[Piece]) -> bool {
    for &(low, count, number, first) in pieces {
        let low = usize::from(low);
        if place >= low && place - low < usize::from(count) {
            return match stands {
                Bit::Piece { operand, bit } => {
                    operand == number && usize::from(bit) == usize::from(first) + (place - low)
                }
                Bit::Fixed { .. } => false,
            };
        }
    }
    let one = place < 64 && fixed >> place & 1 == 1;
    stands == Bit::Fixed { one }
}

/// Whether each bit of a coding is as a row says.
fn is_coded(coding: &Coding, fixed: u64, format: Format) -> bool {
    let (tokens, pieces) = format;
    for (place, bit) in coding.bits.as_slice().iter().enumerate() {
        if !is_expected(*bit, place, fixed, pieces) {
            return false;
        }
    }
    coding.tokens.as_slice() == tokens
}

fn expect_row(
    rt: &impl Abort,
    alloc: Global,
    machine: &Description,
    instruction: &Instruction,
    row: &Row,
) {
    let &(name, operands, fixed, format, effects) = row;
    assert_eq!(rt; instruction.name.bytes(), name.as_bytes());
    let found = operands_text(alloc, machine, instruction).expect(rt, "memory");
    assert_eq!(rt; found.as_slice(), operands.as_bytes(), "operands of {name}");
    assert!(rt;
        is_coded(&instruction.coding, fixed, format),
        "the coding of {name}"
    );
    let found = effects_text(alloc, machine, instruction).expect(rt, "memory");
    assert_eq!(rt; found.as_slice(), effects.as_bytes(), "effects of {name}");
}

fn expect_layout(rt: &impl Abort, machine: &Description, layout: &Layout) {
    let &((word, order, align, slot_bits), (zero, link, frame), allocatable, ends) = layout;
    assert_eq!(rt; machine.facts.word.bits(), word);
    assert_eq!(rt; machine.facts.order, order);
    assert_eq!(rt; machine.align, align);
    assert_eq!(rt; machine.slot_bits, slot_bits);
    assert_eq!(rt; machine.facts.zero, zero);
    assert_eq!(rt; machine.link, link);
    assert_eq!(rt; machine.frame, frame);
    assert_eq!(rt;
        (machine.allocatable, machine.first, machine.last),
        allocatable
    );
    assert_eq!(rt; (machine.memory, machine.code_end, machine.data_end), ends);
}

fn description(rt: &impl Abort, alloc: Global, name: &str) -> Result<Description, JoinEnd> {
    let texts = shipped(name.as_bytes()).expect(rt, "a shipped machine");
    let machine = read_lrtl(alloc, texts.lrtl).expect(rt, "a machine's text");
    let machine = elaborate(alloc, &machine).expect(rt, "a machine");
    let coding = read_sled(alloc, texts.sled).expect(rt, "a coding's text");
    join(alloc, machine, &coding)
}

fn expect_machine(rt: &impl Abort, alloc: Global, table: &Table) {
    let &(name, layout, spaces, rows) = table;
    let machine = description(rt, alloc, name).expect(rt, "a description");
    assert_eq!(rt; machine.name.bytes(), name.as_bytes());
    expect_layout(rt, &machine, layout);
    assert_eq!(rt; machine.spaces.len(), spaces.len());
    for (space, &(name, cells, width, flags)) in machine.spaces.as_slice().iter().zip(spaces) {
        assert_eq!(rt; space.name.bytes(), name.as_bytes());
        assert_eq!(rt;
            (space.cells, space.width.bits(), space.flags),
            (cells, width, flags)
        );
    }
    let mut instructions = machine.instructions.as_slice();
    for some in rows {
        for row in *some {
            let (first, rest) = instructions.split_first().expect(rt, "an instruction");
            expect_row(rt, alloc, &machine, first, row);
            instructions = rest;
        }
    }
    assert_eq!(rt; instructions.len(), 0);
}

#[test]
fn shipped_machines(rt: HostRuntime) {
    let tables: [&Table; 4] = [&rv32::RV32IM, &rv32::RV32I, &tin32::TIN32, &cc16::CC16];
    for table in tables {
        expect_machine(&rt, rt.alloc(), table);
    }
}

//! Rows of programs that run the same instructions again: where code was written over, where instructions overlap, at the
//! end of the code, and where an instruction that went well before traps.
use crate::commands::{NO_FAULT, Outcome, Text, expect, plain};
use qc_core::Status;
use qc_shipped::{CC16_LRTL, CC16_SLED, RV32IM_LRTL, RV32IM_SLED};
use std::alloc::Global;
use std::process::Abort;

/// addi a0, zero, 1; op_out a0; bne t0, zero, 32; lui s1, 0x200; addi s1, s1, 0x513; sw s1, 0(zero); addi t0, zero, 1;
/// jal zero, 0; op_halt t0. The word that is stored is addi a0, zero, 2.
const OVERWRITES: Text = (
    b"QCI1\x20\0\0\0\x24\0\0\0\0\0\0\0\
        \x13\x05\x10\0\x0b\0\x05\0\x63\x9c\x02\0\xb7\x04\x20\0\
        \x93\x84\x34\x51\x23\x20\x90\0\x93\x02\x10\0\x6f\xf0\x5f\xfe\
        \x0b\xa0\x02\0",
    b"",
    0,
    b"",
);

/// addi a0, zero, 1; op_out a0; bne t0, zero, 36; addi a1, zero, 7; lui s1, 0x800B0; addi s1, s1, 32; sw s1, 2(zero);
/// addi t0, zero, 1; jal zero, 0; op_halt a0. The word that is stored makes addi a0, zero, 2 and op_out a1 of the first two.
const CROSSES: Text = (
    b"QCI1\x20\0\0\0\x28\0\0\0\0\0\0\0\
        \x13\x05\x10\0\x0b\0\x05\0\x63\x9e\x02\0\x93\x05\x70\0\
        \xb7\x04\x0b\x80\x93\x84\x04\x02\x23\x21\x90\0\x93\x02\x10\0\
        \x6f\xf0\x1f\xfe\x0b\x20\x05\0",
    b"",
    0,
    b"",
);

/// lui t2, 0x800; add s0, s0, t2; sw t2, 0(s0); op_out s0; jal zero, 4.
const STORES_OUTSIDE: Text = (
    b"QCI1\x20\0\0\0\x14\0\0\0\0\0\0\0\
        \xb7\x03\x80\0\x33\x04\x74\0\x23\x20\x74\0\x0b\0\x04\0\
        \x6f\xf0\x5f\xff",
    b"",
    0,
    b"",
);

/// lui t2, 0x800; add s0, s0, t2; lw s1, 0(s0); op_out s0; jal zero, 4.
const LOADS_OUTSIDE: Text = (
    b"QCI1\x20\0\0\0\x14\0\0\0\0\0\0\0\
        \xb7\x03\x80\0\x33\x04\x74\0\x83\x24\x04\0\x0b\0\x04\0\
        \x6f\xf0\x5f\xff",
    b"",
    0,
    b"",
);

/// in a0; op_out a0; jal zero, 0.
const READS_ON: Text = (
    b"QCI1\x20\0\0\0\x0c\0\0\0\0\0\0\0\
        \x0b\x15\0\0\x0b\0\x05\0\x6f\xf0\x9f\xff",
    b"",
    0,
    b"",
);

/// addi a0, a0, 1; op_out a0; sw zero, 0(zero); jal zero, 0.
const CLEARS_ITSELF: Text = (
    b"QCI1\x20\0\0\0\x10\0\0\0\0\0\0\0\
        \x13\x05\x15\0\x0b\0\x05\0\x23\x20\0\0\x6f\xf0\x5f\xff",
    b"",
    0,
    b"",
);

/// Of cc16: ldi r4, 3; ldi r5, 1; at 8 ldi r0, 34816, whose last two bytes are outp r0; at 12 add r3, r5; cmp r3, r4; bz 30;
/// cmp r3, r5; bz 10; jmp 8; at 30 hlt r0.
const OVERLAPS: Text = (
    b"QCI1\x10\x01\0\0\x20\0\0\0\0\0\0\0\
        \x0a\0\0\x03\x0a\x80\0\x01\x08\0\x88\0\x0d\xd0\x31\xc0\
        \x34\0\0\x0e\x31\xd0\x34\0\xff\xf4\x78\0\0\x08\x8c\0",
    b"",
    0,
    b"",
);

/// addi t1, zero, 100; jal zero, 0x7FFF4; and in the last bytes of the code addi t0, t0, 1; bne t0, t1, 0x7FFF4; op_halt t0.
const RUNS_AT_THE_END: Text = (
    b"QCI1\x20\0\0\0\0\0\x08\0\0\0\0\0\
        \x13\x03\x40\x06\x6f\xf0\x17\x7f",
    b"\0",
    524_268,
    b"\x93\x82\x12\0\xe3\x9e\x62\xfe\x0b\xa0\x02\0",
);

/// 15,996 times addi t0, t0, 1; then addi t1, t1, 1; addi s0, zero, 10; beq t1, s0 over the next; jal zero, 0; op_out t0;
/// op_halt zero. It takes 16,000 steps ten times.
const RUNS_FAR: Text = (
    b"QCI1\x20\0\0\0\x08\xfa\0\0\0\0\0\0",
    b"\x93\x82\x12\0",
    15_996,
    b"\x13\x03\x13\0\x13\x04\xa0\0\x63\x04\x83\0\x6f\0\x4f\xe0\
        \x0b\x80\x02\0\x0b\x20\0\0",
);

/// The image, the input, and the lines.
type Row = (Text, &'static [u8], &'static str);

const RV32IM_ROWS: [Row; 8] = [
    (OVERWRITES, b"", "1\n2\nended 1\n"),
    (CROSSES, b"", "1\n7\nended 2\n"),
    (STORES_OUTSIDE, b"", "8388608\ntrapped 1\n"),
    (LOADS_OUTSIDE, b"", "8388608\ntrapped 1\n"),
    (READS_ON, b"3 4", "3\n4\ntrapped 5\n"),
    (CLEARS_ITSELF, b"", "1\ntrapped 4\n"),
    (RUNS_AT_THE_END, b"", "ended 100\n"),
    (RUNS_FAR, b"", "159960\nended 0\n"),
];

const CC16_ROWS: [Row; 1] = [(OVERLAPS, b"", "34816\nended 34816\n")];

/// Runs on the two texts of a machine.
fn expect_lines(rt: &impl Abort, alloc: Global, texts: (Text, Text), row: Row) -> Outcome {
    let (image, input, lines) = row;
    let list = &["run", "--steps=20000000", "a", "b", "c", "d"];
    let files = [texts.0, texts.1, image, plain(input)];
    expect(
        rt,
        alloc,
        list,
        files,
        NO_FAULT,
        (Status::Done, lines, false),
    )
}

#[test]
fn runs_instructions_again(rt: HostRuntime) -> Outcome {
    let rv32im = (plain(RV32IM_LRTL), plain(RV32IM_SLED));
    for row in RV32IM_ROWS {
        expect_lines(&rt, rt.alloc(), rv32im, row)?;
    }
    let cc16 = (plain(CC16_LRTL), plain(CC16_SLED));
    for row in CC16_ROWS {
        expect_lines(&rt, rt.alloc(), cc16, row)?;
    }
    Ok(())
}

//! Rows of the command `check`.
use crate::commands::{Failing, NO_BYTE, NO_FAULT, Outcome, Text, expect, plain, split_at_piece};
use qc_core::{Fault, Status};
use qc_descr::{DescrFault, Part};
use qc_join::JoinFault;
use qc_shipped::{
    CC16_LRTL, CC16_SLED, RV32I_LRTL, RV32I_SLED, RV32IM_LRTL, RV32IM_SLED, TIN32_LRTL, TIN32_SLED,
};
use qc_widths::WidthFault;
use std::alloc::Global;
use std::process::Abort;

const CHECK_WORDS: &[&str] = &["check", "a", "b"];

/// A machine of words of 16 bits with one instruction, whose coding has one token.
const MACHINE: &[u8] = b"machine m; word 16; byteorder little; align 2; slotbits 4; \
    memory 4096; code 1024; data 2048; space r 8 cells 16 bits; frame r 7; link r 6; \
    allocatable r 0 .. 5; instr put(a: r) = out := a;";

const CODING: &[u8] = b"coding m fields t 16 (op 15:3, reg 2:0) \
    constructor put(a) is op = 1 & reg = a";

/// The machine and the coding with a second instruction of the same bits.
const TWO_INSTRUCTIONS: Text = (MACHINE, b" instr again(a: r) = out := a;", 1, b"");

const TWO_CONSTRUCTORS: Text = (CODING, b" constructor again(a) is op = 1 & reg = a", 1, b"");

/// The coding with blanks behind it, with which it is too long.
const LONG_CODING: Text = (CODING, b" ", 4_194_305 - CODING.len(), b"");

/// A text in which 201 brackets are open.
const DEEP_MACHINE: Text = (b"machine m; instr i() = out := ", b"com(", 201, b"");

/// The texts of a machine and its coding.
type Texts = (Text, Text);

/// Two files that are refused, the fault, and its line.
type Refusal = (&'static [u8], &'static [u8], Fault, &'static str);

/// Checks two texts, and compares what comes of it.
fn expect_check(
    rt: &impl Abort,
    alloc: Global,
    texts: Texts,
    failing: Failing,
    want: (Status, &'static str),
) -> Outcome {
    let files = [texts.0, texts.1, NO_BYTE, NO_BYTE];
    expect(
        rt,
        alloc,
        CHECK_WORDS,
        files,
        failing,
        (want.0, want.1, false),
    )
}

/// Checks that two files are refused.
fn expect_refusal(rt: &impl Abort, alloc: Global, refusal: Refusal) -> Outcome {
    let (machine, coding, fault, line) = refusal;
    let texts: Texts = (plain(machine), plain(coding));
    expect_check(
        rt,
        alloc,
        texts,
        NO_FAULT,
        (Status::Refused { fault }, line),
    )
}

#[test]
fn refuses_what_is_no_machine(rt: HostRuntime) -> Outcome {
    let alloc = rt.alloc();
    let fault = Fault::Syntax { file: 1, token: 0 };
    expect_refusal(&rt, alloc, (b"", b"", fault, "refused: Syntax 1 0\n"))?;
    let no_line = (Status::Refused { fault }, "");
    expect_check(&rt, alloc, (NO_BYTE, NO_BYTE), (&[], &[1]), no_line)?;
    let not_read = (Status::ReadFault { file: 1 }, "");
    expect_check(&rt, alloc, (NO_BYTE, NO_BYTE), (&[1], &[]), not_read)?;
    let fault = Fault::BadByte { file: 1, at: 0 };
    expect_refusal(&rt, alloc, (b"\0", b"", fault, "refused: BadByte 1 0\n"))?;
    let fault = Fault::TooDeep {
        file: 1,
        token: 411,
    };
    let deep = (Status::Refused { fault }, "refused: TooDeep 1 411\n");
    expect_check(&rt, alloc, (DEEP_MACHINE, NO_BYTE), NO_FAULT, deep)
}

#[test]
fn checks_a_machine(rt: HostRuntime) -> Outcome {
    let alloc = rt.alloc();
    let texts: Texts = (plain(MACHINE), plain(CODING));
    let done = (Status::Done, "m: 1 instructions\n");
    expect_check(&rt, alloc, texts, NO_FAULT, done)?;
    let not_read = (Status::ReadFault { file: 2 }, "");
    expect_check(&rt, alloc, texts, (&[2], &[]), not_read)?;
    expect_check(&rt, alloc, texts, (&[], &[1]), (Status::OutFault, ""))?;
    let fault = Fault::TooLong { file: 2 };
    let too_long = (Status::Refused { fault }, "refused: TooLong 2\n");
    expect_check(&rt, alloc, (texts.0, LONG_CODING), NO_FAULT, too_long)?;
    let fault = Fault::Join {
        fault: JoinFault::Descr {
            fault: DescrFault::Overlap { a: 0, b: 1 },
        },
    };
    let overlap = (Status::Refused { fault }, "refused: Overlap 0 1\n");
    expect_check(
        &rt,
        alloc,
        (TWO_INSTRUCTIONS, TWO_CONSTRUCTORS),
        NO_FAULT,
        overlap,
    )
}

/// Faults among the names and widths of machines.
const WRONG_MACHINES: [Refusal; 4] = [
    (
        b"machine m; zero r 0;",
        b"",
        Fault::Names {
            fault: WidthFault::UnknownName { token: 4 },
        },
        "refused: UnknownName 4\n",
    ),
    (
        b"machine m; word 32; word 32;",
        b"",
        Fault::Names {
            fault: WidthFault::TwiceNamed { token: 6 },
        },
        "refused: TwiceNamed 6\n",
    ),
    (
        b"machine m; word 16; instr i() = out := 1'8;",
        b"",
        Fault::Names {
            fault: WidthFault::WidthClash {
                token: 13,
                found: 8,
                wanted: 16,
            },
        },
        "refused: WidthClash 13 8 16\n",
    ),
    (
        b"machine m; space r 65 cells 16 bits;",
        b"",
        Fault::Names {
            fault: WidthFault::TooMany {
                token: 3,
                limit: 64,
            },
        },
        "refused: TooMany 3 64\n",
    ),
];

/// Second files that make no description of a machine.
const WRONG_CODINGS: [Refusal; 6] = [
    (
        MACHINE,
        b"",
        Fault::Syntax { file: 2, token: 0 },
        "refused: Syntax 2 0\n",
    ),
    (
        MACHINE,
        b"coding m \0",
        Fault::BadByte { file: 2, at: 9 },
        "refused: BadByte 2 9\n",
    ),
    (
        MACHINE,
        b"coding n",
        Fault::Join {
            fault: JoinFault::UnknownName { token: 1 },
        },
        "refused: UnknownName 1\n",
    ),
    (
        MACHINE,
        b"coding m fields t 16 (op 15:3, op 2:0)",
        Fault::Join {
            fault: JoinFault::TwiceNamed { token: 11 },
        },
        "refused: TwiceNamed 11\n",
    ),
    (
        MACHINE,
        b"coding m",
        Fault::Join {
            fault: JoinFault::Descr {
                fault: DescrFault::Uncovered { instruction: 0 },
            },
        },
        "refused: Uncovered 0\n",
    ),
    (
        MACHINE,
        b"coding m fields t 16 (op 15:3, reg 2:0) constructor put(a) is op = 8192 & reg = a",
        Fault::Join {
            fault: JoinFault::Descr {
                fault: DescrFault::FieldRange { instruction: 0 },
            },
        },
        "refused: FieldRange 0\n",
    ),
];

#[test]
fn refuses_each_fault_of_a_description(rt: HostRuntime) -> Outcome {
    for refusal in WRONG_MACHINES {
        expect_refusal(&rt, rt.alloc(), refusal)?;
    }
    for refusal in WRONG_CODINGS {
        expect_refusal(&rt, rt.alloc(), refusal)?;
    }
    let (fields, _) = split_at_piece(TIN32_SLED, b"\nconstructor ");
    let fault = Fault::Join {
        fault: JoinFault::Descr {
            fault: DescrFault::BadLayout { part: Part::Word },
        },
    };
    let line = "refused: BadLayout Word\n";
    expect_refusal(&rt, rt.alloc(), (b"machine tin32;", fields, fault, line))
}

#[test]
fn checks_the_shipped_machines(rt: HostRuntime) -> Outcome {
    let machines: [(&[u8], &[u8], &str); 4] = [
        (TIN32_LRTL, TIN32_SLED, "tin32: 45 instructions\n"),
        (RV32IM_LRTL, RV32IM_SLED, "rv32im: 45 instructions\n"),
        (RV32I_LRTL, RV32I_SLED, "rv32i: 40 instructions\n"),
        (CC16_LRTL, CC16_SLED, "cc16: 36 instructions\n"),
    ];
    for (lrtl, sled, line) in machines {
        let texts: Texts = (plain(lrtl), plain(sled));
        expect_check(&rt, rt.alloc(), texts, NO_FAULT, (Status::Done, line))?;
    }
    Ok(())
}

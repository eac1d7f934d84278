//! Rows of the command `run`.
use crate::commands::{Failing, NO_FAULT, Outcome, Text, expect, plain};
use qc_core::{Fault, Status};
use qc_shipped::{RV32IM_LRTL, RV32IM_SLED};
use std::alloc::Global;
use std::process::Abort;

const RUN: &[&str] = &["run", "a", "b", "c", "d"];

/// The image of the instructions in a0, op_out a0 and op_halt a0 of rv32im.
const ECHO: Text = (
    b"QCI1\x20\0\0\0\x0c\0\0\0\0\0\0\0\x0b\x15\0\0\x0b\0\x05\0\x0b\x20\x05\0",
    b"",
    0,
    b"",
);

/// The image of four zeros, which are no instruction.
const ZEROS: Text = (b"QCI1\x20\0\0\0\x04\0\0\0\0\0\0\0\0\0\0\0", b"", 0, b"");

/// Runs on the texts of rv32im with an image and an input.
fn expect_run(
    rt: &impl Abort,
    alloc: Global,
    list: &[&str],
    image: Text,
    input: &'static [u8],
    failing: Failing,
    want: (Status, &'static str),
) -> Outcome {
    let files = [plain(RV32IM_LRTL), plain(RV32IM_SLED), image, plain(input)];
    expect(rt, alloc, list, files, failing, (want.0, want.1, false))
}

/// Words, an image, an input, the status and the lines.
const RUNS: [(&[&str], Text, &[u8], Status, &str); 9] = [
    (RUN, ECHO, b"9", Status::Done, "9\nended 9\n"),
    (
        RUN,
        ECHO,
        b"4294967295 /* and */ 2",
        Status::Done,
        "4294967295\nended 4294967295\n",
    ),
    (RUN, ECHO, b"", Status::Done, "trapped 5\n"),
    (RUN, ZEROS, b"", Status::Done, "trapped 4\n"),
    // 0x80000 bytes of code and 3,000,000 of data, all 1
    (
        RUN,
        (
            b"QCI1\x20\0\0\0\0\0\x08\0\xc0\xc6\x2d\0",
            b"\x01",
            3_524_288,
            b"",
        ),
        b"",
        Status::Done,
        "trapped 4\n",
    ),
    (
        &["run", "--steps=3", "a", "b", "c", "d"],
        ECHO,
        b"9",
        Status::Done,
        "9\nended 9\n",
    ),
    (
        &["run", "--steps=2", "a", "b", "c", "d"],
        ECHO,
        b"9",
        Status::Done,
        "9\nrunning\n",
    ),
    (
        &["run", "--steps=1", "a", "b", "c", "d"],
        ECHO,
        b"9",
        Status::Done,
        "running\n",
    ),
    (
        &["run", "--steps=0", "a", "b", "c", "d"],
        ECHO,
        b"9",
        Status::Done,
        "running\n",
    ),
];

/// The calls that fail where an image puts out 9 and ends with it, the status, and the lines.
const FAULTS: [(Failing, Status, &str); 6] = [
    ((&[3], &[]), Status::ReadFault { file: 3 }, ""),
    ((&[4], &[]), Status::ReadFault { file: 4 }, ""),
    ((&[], &[1]), Status::OutFault, ""),
    ((&[], &[2]), Status::OutFault, "9\n"),
    ((&[5], &[3]), Status::Done, "9\nended 9\n"),
    ((&[1], &[1]), Status::ReadFault { file: 1 }, ""),
];

#[test]
fn runs_images(rt: HostRuntime) -> Outcome {
    let alloc = rt.alloc();
    for (list, image, input, status, lines) in RUNS {
        expect_run(&rt, alloc, list, image, input, NO_FAULT, (status, lines))?;
    }
    for (failing, status, lines) in FAULTS {
        expect_run(&rt, alloc, RUN, ECHO, b"9", failing, (status, lines))?;
    }
    Ok(())
}

/// Images that are refused, the place of the fault, and the line.
const BAD_IMAGES: [(Text, usize, &str); 14] = [
    (
        (b"qCI1\x20\0\0\0\0\0\0\0\0\0\0\0", b"", 0, b""),
        0,
        "refused: BadImage 0\n",
    ),
    (
        (b"QCI1\x10\0\0\0\0\0\0\0\0\0\0\0", b"", 0, b""),
        4,
        "refused: BadImage 4\n",
    ),
    (
        (b"QCI1\x20\x01\0\0\0\0\0\0\0\0\0\0", b"", 0, b""),
        5,
        "refused: BadImage 5\n",
    ),
    (
        (b"QCI1\x20\0\x01\0\0\0\0\0\0\0\0\0", b"", 0, b""),
        6,
        "refused: BadImage 6\n",
    ),
    (
        (b"QCI1\x20\0\0\x01\0\0\0\0\0\0\0\0", b"", 0, b""),
        7,
        "refused: BadImage 7\n",
    ),
    // 0x80001 bytes of code, which are all there
    (
        (b"QCI1\x20\0\0\0\x01\0\x08\0\0\0\0\0", b"\x01", 0x80001, b""),
        8,
        "refused: BadImage 8\n",
    ),
    // 3,000,001 bytes of data, which are all there
    (
        (
            b"QCI1\x20\0\0\0\0\0\0\0\xc1\xc6\x2d\0",
            b"\x01",
            3_000_001,
            b"",
        ),
        12,
        "refused: BadImage 12\n",
    ),
    ((b"", b"", 0, b""), 0, "refused: BadImage 0\n"),
    ((b"QCI1\x20\0\0\0", b"", 0, b""), 8, "refused: BadImage 8\n"),
    (
        (b"QCI1\x20\0\0\0\x04\0\0\0\0\0\0\0\0\0\0", b"", 0, b""),
        19,
        "refused: BadImage 19\n",
    ),
    (
        (b"QCI1\x20\0\0\0\x04\0\0\0\0\0\0\0\0\0\0\0\0", b"", 0, b""),
        20,
        "refused: BadImage 20\n",
    ),
    (
        (b"QCI1\x20\0\0\0\0\0\0\0\x02\0\0\0\x01\0", b"", 0, b""),
        17,
        "refused: BadImage 17\n",
    ),
    (
        (b"QCI1\x20\0\0\0\0\0\0\0\x02\0\0\0\x01\0\0", b"", 0, b""),
        17,
        "refused: BadImage 17\n",
    ),
    (
        (b"QCI1\x20\0\0\0\0\0\0\0\0\0\0\0\0", b"", 0, b""),
        16,
        "refused: BadImage 16\n",
    ),
];

/// Inputs that are refused, the place of the fault, and the line.
const BAD_INPUTS: [(&[u8], usize, &str); 5] = [
    (b"x", 0, "refused: BadInput 0\n"),
    (b"1 4294967296", 2, "refused: BadInput 2\n"),
    (b"1 -1", 2, "refused: BadInput 2\n"),
    (b"1 $", 2, "refused: BadInput 2\n"),
    (b"1 x $", 4, "refused: BadInput 4\n"),
];

#[test]
fn refuses_images_and_inputs(rt: HostRuntime) -> Outcome {
    let alloc = rt.alloc();
    for (image, at, line) in BAD_IMAGES {
        let fault = Fault::BadImage { at };
        let want = (Status::Refused { fault }, line);
        // the input is bad too, and is not looked at
        expect_run(&rt, alloc, RUN, image, b"x", NO_FAULT, want)?;
    }
    for (input, at, line) in BAD_INPUTS {
        let fault = Fault::BadInput { at };
        let want = (Status::Refused { fault }, line);
        expect_run(&rt, alloc, RUN, ECHO, input, NO_FAULT, want)?;
    }
    Ok(())
}

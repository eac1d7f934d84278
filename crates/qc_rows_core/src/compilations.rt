//! Rows of the command `compile`, and a run of what it wrote.
use crate::commands::{
    Failing, NO_BYTE, NO_FAULT, Outcome, Text, Want, expect, expect_on, plain, shelf,
    split_at_piece,
};
use qc_core::{Fault, Status};
use qc_outside::Shelf;
use qc_shipped::{RV32IM_LRTL, RV32IM_SLED, TIN32_LRTL, TIN32_SLED};

const COMPILE: &[&str] = &["compile", "a", "b", "c", "d", "e"];

/// The words of the run of what was compiled.
const RUN_IT: &[&str] = &["run", "a", "b", "e", "f"];

const TABLES: &[u8] = b"tables tin32 1;\n";

/// The program that puts out 7.
const SEVEN: &[u8] = b"target byteorder little wordsize 32; main() { %out(7); return(0); }\n";

const COMPILED: Want = (
    Status::Done,
    "compiled 32 bytes of code, 0 bytes of data\n",
    true,
);

const TOO_LONG: Want = (
    Status::Refused {
        fault: Fault::TooLong { file: 4 },
    },
    "refused: TooLong 4\n",
    false,
);

const NOT_YET_3: Want = (
    Status::Refused {
        fault: Fault::NotYet { form: 3 },
    },
    "refused: NotYet 3\n",
    false,
);

const NOT_YET_4: Want = (
    Status::Refused {
        fault: Fault::NotYet { form: 4 },
    },
    "refused: NotYet 4\n",
    false,
);

/// A program that has another form, where the line can't be put.
const NOT_YET_4_UNTOLD: Want = (
    Status::Refused {
        fault: Fault::NotYet { form: 4 },
    },
    "",
    false,
);

const NOT_YET_5: Want = (
    Status::Refused {
        fault: Fault::NotYet { form: 5 },
    },
    "refused: NotYet 5\n",
    false,
);

/// The image's file of the program that puts out 7.
const IMAGE_OF_SEVEN: &[u8] = &[
    0x51, 0x43, 0x49, 0x31, 0x20, 0, 0, 0, 0x20, 0, 0, 0, 0, 0, 0, 0, // the head
    0x02, 0, 0, 0, 0x07, 0, 0, 0, // const of 7 into cell 0
    0x26, 0, 0, 0, 0, 0, 0, 0, // op_out of cell 0
    0x02, 0, 0, 0, 0, 0, 0, 0, // const of 0 into cell 0
    0x27, 0, 0, 0, 0, 0, 0, 0, // op_halt of cell 0
];

#[test]
fn compiles_seven_and_runs_it(rt: HostRuntime) -> Outcome {
    let alloc = rt.alloc();
    let files = [
        plain(TIN32_LRTL),
        plain(TIN32_SLED),
        plain(TABLES),
        plain(SEVEN),
    ];
    let mut shelf = shelf(alloc, files, &[])?;
    expect_on(&rt, alloc, COMPILE, &mut shelf, &[], COMPILED)?;
    let image = String::from_str(alloc, "e")?;
    assert!(rt; shelf.file(&image) == Some(IMAGE_OF_SEVEN));
    assert!(rt;
        shelf
            .write(alloc, &String::from_str(alloc, "f")?, b"")
            .is_ok()
    );
    let ran = (Status::Done, "7\nended 0\n", true);
    expect_on(&rt, alloc, RUN_IT, &mut shelf, &[], ran)
}

/// A piece in one of the texts of tin32, what stands in its place, and what comes of the program that puts out 7.
const EDITS: [(&[u8], &[u8], Want); 5] = [
    (b"memory 0x1000000", b"memory 0x2000000", NOT_YET_5),
    (
        b"machine tin32;",
        b"machine  tin32; // a machine\n",
        COMPILED,
    ),
    (b"memory 0x1000000", b"memory 16777216", COMPILED),
    (b"is op = 45 &", b"is op = 46 &", NOT_YET_5),
    (b"is op = 45 &", b"is op = 0x2D /* rem */ &", COMPILED),
];

/// A text with the first place of a piece replaced.
fn edited(text: &'static [u8], old: &'static [u8], new: &'static [u8]) -> Text {
    let (before, rest) = split_at_piece(text, old);
    match rest.strip_prefix(old) {
        Some(after) => (before, new, 1, after),
        None => plain(text),
    }
}

#[test]
fn compiles_for_tin32_alone(rt: HostRuntime) -> Outcome {
    let alloc = rt.alloc();
    let syntax_1 = Fault::Syntax { file: 1, token: 0 };
    let syntax_1 = (
        Status::Refused { fault: syntax_1 },
        "refused: Syntax 1 0\n",
        false,
    );
    let syntax_2 = Fault::Syntax { file: 2, token: 0 };
    let syntax_2 = (
        Status::Refused { fault: syntax_2 },
        "refused: Syntax 2 0\n",
        false,
    );
    let rows: [(&[u8], &[u8], &[u8], Want); 6] = [
        (RV32IM_LRTL, RV32IM_SLED, TABLES, NOT_YET_5),
        (RV32IM_LRTL, RV32IM_SLED, b"", NOT_YET_5),
        (TIN32_LRTL, TIN32_SLED, b"tables tin32 1;", NOT_YET_3),
        (TIN32_LRTL, TIN32_SLED, b"tables tin32 2;\n", NOT_YET_3),
        (b"", TIN32_SLED, TABLES, syntax_1),
        (TIN32_LRTL, b"", b"", syntax_2),
    ];
    for (lrtl, sled, tables, want) in rows {
        let files = [plain(lrtl), plain(sled), plain(tables), plain(SEVEN)];
        expect(&rt, alloc, COMPILE, files, NO_FAULT, want)?;
    }
    for (old, new, want) in EDITS {
        let lrtl = edited(TIN32_LRTL, old, new);
        let sled = edited(TIN32_SLED, old, new);
        let files = [lrtl, sled, plain(TABLES), plain(SEVEN)];
        expect(&rt, alloc, COMPILE, files, NO_FAULT, want)?;
    }
    Ok(())
}

const HEAD: &[u8] = b"target byteorder little wordsize 32; main() { ";

const END: &[u8] = b"return(0); }";

/// Programs, the calls that fail, and what comes of them.
const PROGRAMS: [(Text, Failing, Want); 14] = [
    (
        (HEAD, b"%out(1); ", 1000, END),
        NO_FAULT,
        (
            Status::Done,
            "compiled 16016 bytes of code, 0 bytes of data\n",
            true,
        ),
    ),
    ((HEAD, b"%out(1); ", 1001, END), NO_FAULT, NOT_YET_4),
    (NO_BYTE, NO_FAULT, NOT_YET_4),
    ((HEAD, b"", 0, b"return(00); }"), NO_FAULT, NOT_YET_4),
    (
        (SEVEN, b" ", 4_194_304 - SEVEN.len(), b""),
        NO_FAULT,
        NOT_YET_4,
    ),
    (
        (SEVEN, b" ", 4_194_305 - SEVEN.len(), b""),
        NO_FAULT,
        TOO_LONG,
    ),
    (
        NO_BYTE,
        (&[1], &[]),
        (Status::ReadFault { file: 1 }, "", false),
    ),
    (
        NO_BYTE,
        (&[2], &[]),
        (Status::ReadFault { file: 2 }, "", false),
    ),
    (
        NO_BYTE,
        (&[3], &[]),
        (Status::ReadFault { file: 3 }, "", false),
    ),
    (
        NO_BYTE,
        (&[4], &[]),
        (Status::ReadFault { file: 4 }, "", false),
    ),
    (NO_BYTE, (&[], &[1]), NOT_YET_4_UNTOLD),
    (
        (SEVEN, b"", 0, b""),
        (&[5], &[]),
        (Status::WriteFault, "", false),
    ),
    (
        (SEVEN, b"", 0, b""),
        (&[], &[1]),
        (Status::OutFault, "", true),
    ),
    ((SEVEN, b"", 0, b""), (&[6], &[2]), COMPILED),
];

#[test]
fn compiles_or_refuses_programs(rt: HostRuntime) -> Outcome {
    let alloc = rt.alloc();
    for (program, failing, want) in PROGRAMS {
        let files = [plain(TIN32_LRTL), plain(TIN32_SLED), plain(TABLES), program];
        expect(&rt, alloc, COMPILE, files, failing, want)?;
    }
    Ok(())
}

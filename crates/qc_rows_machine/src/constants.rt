//! Texts of programs of constants, and machines that they can be compiled for.
use crate::shipped::description;
use qc_constants::{has_constants, read_program};
use qc_text::NoMemory;
use std::alloc::Global;
use std::process::Abort;

type Outcome = Result<(), NoMemory>;

/// A text, and the outputs and the returned word of the program that it spells.
type Row = (&'static [u8], Option<(&'static [u32], u32)>);

const ROWS: [Row; 4] = [
    (
        b"target byteorder little wordsize 32; main() { %out(7); return(0); }\n",
        Some((&[7], 0)),
    ),
    (
        b"target byteorder little wordsize 32; main() { %out(1); %out(20); return(4294967295); }",
        Some((&[1, 20], 4_294_967_295)),
    ),
    (
        b"target byteorder little wordsize 32; main() { return(4294967296); }",
        None,
    ),
    (
        b"target byteorder little wordsize 32; main() { %out(07); return(0); }",
        None,
    ),
];

fn expect_row(rt: &impl Abort, alloc: Global, row: Row) -> Outcome {
    let (text, want) = row;
    match read_program(alloc, text)? {
        Some(program) => {
            let read = Some((program.outputs.as_slice(), program.returned));
            assert_eq!(rt; read, want, "{text:?}");
        }
        None => assert_eq!(rt; None, want, "{text:?}"),
    }
    Ok(())
}

#[test]
fn programs_are_read(rt: HostRuntime) -> Outcome {
    for row in ROWS {
        expect_row(&rt, rt.alloc(), row)?;
    }
    Ok(())
}

/// A machine, the end that its code is given, and whether programs can be compiled for it.
const MACHINES: [(&[u8], u64, bool); 3] = [
    (b"tin32", 16_016, true),
    (b"tin32", 16_015, false),
    (b"cc16", 16_016, false),
];

#[test]
fn machines_are_told_apart(rt: HostRuntime) -> Outcome {
    let alloc = rt.alloc();
    for (name, code_end, want) in MACHINES {
        let mut descr = description(&rt, alloc, name);
        descr.code_end = code_end;
        assert_eq!(rt; has_constants(alloc, &descr)?, want, "{code_end}");
    }
    Ok(())
}

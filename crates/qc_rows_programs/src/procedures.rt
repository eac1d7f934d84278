//! Procedures `main`, and the fault that is told of each. The numbers of tokens were counted by a program of its own.
use qc_cmm::{Part, Procedure, Program, read_cmm};
use qc_cmmtype::{Globals, ProgramFault, Signature, procedure_fault, results_of};
use qc_names::{Declared, NameTable};
use qc_words::Width;
use sqlite_items::Items;
use std::alloc::{AllocError, Global};
use std::process::Abort;

/// The ten tokens 0 to 9, which stand before the body of a row.
const MAIN: &[u8] = b"target byteorder little wordsize 32; main() {";

/// The six tokens before a row's procedure.
const TARGET: &[u8] = b"target byteorder little wordsize 32; ";

fn joined(alloc: Global, before: &[u8], text: &[u8], after: &[u8]) -> Result<Vec<u8>, AllocError> {
    let mut whole = Vec::from_slice(alloc, before)?;
    whole.extend_from_slice(text)?;
    whole.extend_from_slice(after)?;
    Ok(whole)
}

/// The one procedure of a program.
fn only_procedure<'a>(rt: &impl Abort, program: &'a Program) -> &'a Procedure {
    let Some(Part::Procedure { procedure }) = program.parts.get(0) else {
        panic!(rt; "no procedure");
    };
    procedure
}

/// What a program of this procedure alone declares, without parameters.
fn alone(alloc: Global, word: Width, procedure: &Procedure) -> Result<Globals, AllocError> {
    let signature = Signature {
        params: Items::new(alloc),
        results: results_of(procedure.body.as_slice()),
    };
    let mut procedures = Declared::new(alloc);
    procedures.push(alloc, procedure.name.text.as_slice(), signature)?;
    Ok(Globals {
        word,
        procedures,
        data_names: NameTable::new(alloc),
    })
}

fn expect_fault(
    rt: &impl Abort,
    alloc: Global,
    bits: u8,
    text: &[u8],
    fault: Option<ProgramFault>,
) -> Result<(), AllocError> {
    let program = read_cmm(alloc, text).expect(rt, "a program");
    let procedure = only_procedure(rt, &program);
    let word = Width::new(bits).expect(rt, "a width");
    let globals = alone(alloc, word, procedure)?;
    let told = procedure_fault(alloc, &globals, procedure)?;
    assert_eq!(rt; told, fault, "in {text:?}");
    Ok(())
}

pub(crate) fn expect_bodies(
    rt: &impl Abort,
    alloc: Global,
    rows: &[(&[u8], Option<ProgramFault>)],
) -> Result<(), AllocError> {
    for (body, fault) in rows {
        let text = joined(alloc, MAIN, body, b" }")?;
        expect_fault(rt, alloc, 32, text.as_slice(), *fault)?;
    }
    Ok(())
}

/// Bodies of `main` on words of 32 bits, and the fault of a name, if there is one.
const NAMES: [(&[u8], Option<ProgramFault>); 37] = [
    (
        b"x = 1; return(0);",
        Some(ProgramFault::UnknownName { token: 10 }),
    ),
    (b"return(x);", Some(ProgramFault::UnknownName { token: 12 })),
    (
        b"bits32 x; x = y; return(0);",
        Some(ProgramFault::UnknownName { token: 15 }),
    ),
    (b"goto l;", Some(ProgramFault::UnknownName { token: 11 })),
    (
        b"f(); return(0);",
        Some(ProgramFault::UnknownName { token: 10 }),
    ),
    (
        b"bits32 x; x = f(1); return(0);",
        Some(ProgramFault::UnknownName { token: 15 }),
    ),
    (
        b"return(%foo(1));",
        Some(ProgramFault::UnknownName { token: 12 }),
    ),
    (
        b"return(%zx16(1));",
        Some(ProgramFault::UnknownName { token: 12 }),
    ),
    (
        b"bits32 x; x = %in(5); return(0);",
        Some(ProgramFault::UnknownName { token: 15 }),
    ),
    (
        b"return(%out(1));",
        Some(ProgramFault::UnknownName { token: 12 }),
    ),
    (
        b"return(%lobits32(1));",
        Some(ProgramFault::UnknownName { token: 12 }),
    ),
    (
        b"return(%zx64(bits8[0]));",
        Some(ProgramFault::UnknownName { token: 12 }),
    ),
    (
        b"bits32 x; x(); return(0);",
        Some(ProgramFault::UnknownName { token: 13 }),
    ),
    (
        b"return(main);",
        Some(ProgramFault::UnknownName { token: 12 }),
    ),
    (
        b"main = 1; return(0);",
        Some(ProgramFault::UnknownName { token: 10 }),
    ),
    (
        b"l: return(l);",
        Some(ProgramFault::UnknownName { token: 14 }),
    ),
    (
        b"bits32 l; goto l;",
        Some(ProgramFault::UnknownName { token: 14 }),
    ),
    (
        b"bits8 c; return(%foo(c));",
        Some(ProgramFault::UnknownName { token: 15 }),
    ),
    (
        b"bits8 c; return(%eq(y, c));",
        Some(ProgramFault::UnknownName { token: 17 }),
    ),
    (
        b"return(0); return(x);",
        Some(ProgramFault::UnknownName { token: 17 }),
    ),
    (
        b"bits32 x, y; x, z = y; return(0);",
        Some(ProgramFault::UnknownName { token: 17 }),
    ),
    (
        b"if x { } return(0);",
        Some(ProgramFault::UnknownName { token: 11 }),
    ),
    (
        b"bits32[x] = 1; return(0);",
        Some(ProgramFault::UnknownName { token: 12 }),
    ),
    (
        b"bits32[0] = x; return(0);",
        Some(ProgramFault::UnknownName { token: 15 }),
    ),
    (
        b"%out(x); return(0);",
        Some(ProgramFault::UnknownName { token: 12 }),
    ),
    (
        b"return(bits32[x]);",
        Some(ProgramFault::UnknownName { token: 14 }),
    ),
    (
        b"if 1 { if 2 { goto l; } } return(0);",
        Some(ProgramFault::UnknownName { token: 17 }),
    ),
    (
        b"if 1 { } else { return(x); } return(0);",
        Some(ProgramFault::UnknownName { token: 18 }),
    ),
    (
        b"bits32 x, x; return(0);",
        Some(ProgramFault::TwiceNamed { token: 13 }),
    ),
    (
        b"bits32 x; bits8 x; return(0);",
        Some(ProgramFault::TwiceNamed { token: 14 }),
    ),
    (
        b"bits32 main; return(0);",
        Some(ProgramFault::TwiceNamed { token: 11 }),
    ),
    (
        b"l: l: return(0);",
        Some(ProgramFault::TwiceNamed { token: 12 }),
    ),
    (
        b"l: m: l: m: return(0);",
        Some(ProgramFault::TwiceNamed { token: 14 }),
    ),
    (b"bits32 x; x: x = 1; goto x;", None),
    (b"bits32 r; r = main(); return(r);", None),
    (b"a: b: goto a;", None),
    (b"goto l; l: return(0);", None),
];

/// The same for numbers of operands, targets and results.
const NUMBERS: [(&[u8], Option<ProgramFault>); 13] = [
    (
        b"return(%add(1));",
        Some(ProgramFault::Arity {
            token: 12,
            found: 1,
            wanted: 2,
        }),
    ),
    (
        b"return(%neg(1, 2));",
        Some(ProgramFault::Arity {
            token: 12,
            found: 2,
            wanted: 1,
        }),
    ),
    (
        b"return(%eq(1));",
        Some(ProgramFault::Arity {
            token: 12,
            found: 1,
            wanted: 2,
        }),
    ),
    (
        b"return(%com(1, 2));",
        Some(ProgramFault::Arity {
            token: 12,
            found: 2,
            wanted: 1,
        }),
    ),
    (
        b"return(%zx32(bits8[0], 1));",
        Some(ProgramFault::Arity {
            token: 12,
            found: 2,
            wanted: 1,
        }),
    ),
    (
        b"bits8 c; c = %lobits8(1, 2); return(0);",
        Some(ProgramFault::Arity {
            token: 15,
            found: 2,
            wanted: 1,
        }),
    ),
    (
        b"bits32 a, b; a, b = 1; return(0);",
        Some(ProgramFault::Arity {
            token: 17,
            found: 2,
            wanted: 1,
        }),
    ),
    (
        b"bits32 a, b, c; a, b, c = %in(); return(0);",
        Some(ProgramFault::Arity {
            token: 19,
            found: 3,
            wanted: 1,
        }),
    ),
    (
        b"bits32 a; main(); return(0);",
        Some(ProgramFault::Arity {
            token: 13,
            found: 0,
            wanted: 1,
        }),
    ),
    (
        b"bits32 a, b; a, b = main(); return(0);",
        Some(ProgramFault::Arity {
            token: 19,
            found: 2,
            wanted: 1,
        }),
    ),
    (
        b"bits32 a; a = main(1); return(0);",
        Some(ProgramFault::Arity {
            token: 15,
            found: 1,
            wanted: 0,
        }),
    ),
    (
        b"if 1 { return(1); } return(1, 2);",
        Some(ProgramFault::Arity {
            token: 19,
            found: 2,
            wanted: 1,
        }),
    ),
    (
        b"if 1 { return(1); } else { return(); }",
        Some(ProgramFault::Arity {
            token: 21,
            found: 0,
            wanted: 1,
        }),
    ),
];

/// Procedures `main`, with the faults of their ends, parameters and results.
const ENDS: [(&[u8], Option<ProgramFault>); 17] = [
    (
        b"main() { return(); }",
        Some(ProgramFault::Arity {
            token: 6,
            found: 0,
            wanted: 1,
        }),
    ),
    (
        b"main() { return(1, 2); }",
        Some(ProgramFault::Arity {
            token: 6,
            found: 2,
            wanted: 1,
        }),
    ),
    (
        b"main(bits32 a) { return(0); }",
        Some(ProgramFault::Arity {
            token: 6,
            found: 1,
            wanted: 0,
        }),
    ),
    (
        b"main(bits32 a) { return(); }",
        Some(ProgramFault::Arity {
            token: 6,
            found: 1,
            wanted: 0,
        }),
    ),
    (b"main() { l: goto l; }", None),
    (
        b"main() { %out(5); }",
        Some(ProgramFault::FallsOff { token: 6 }),
    ),
    (b"main() { }", Some(ProgramFault::FallsOff { token: 6 })),
    (b"main() { l: }", Some(ProgramFault::FallsOff { token: 6 })),
    (
        b"main() { return(0); l: }",
        Some(ProgramFault::FallsOff { token: 6 }),
    ),
    (
        b"main() { if 1 { return(0); } }",
        Some(ProgramFault::FallsOff { token: 6 }),
    ),
    (
        b"main() { if 1 { return(0); } else { } }",
        Some(ProgramFault::FallsOff { token: 6 }),
    ),
    (
        b"main() { if 1 { } else { return(0); } }",
        Some(ProgramFault::FallsOff { token: 6 }),
    ),
    (b"main() { if 1 { return(0); } else { return(1); } }", None),
    (
        b"main() { l: if 1 { return(0); } else { if 2 { return(1); } else { goto l; } } }",
        None,
    ),
    (
        b"main() { l: if 1 { return(0); } else { if 2 { return(1); } else { %out(3); } } }",
        Some(ProgramFault::FallsOff { token: 6 }),
    ),
    (b"main() { return(0); %out(1); return(1); }", None),
    (
        b"main() { return(0); %out(1); }",
        Some(ProgramFault::FallsOff { token: 6 }),
    ),
];

/// Widths of words, programs of one procedure on machines with such words, and their faults.
const WORDS: [(u8, &[u8], Option<ProgramFault>); 20] = [
    (
        32,
        b"target byteorder little wordsize 0x20; main() { return(0); }",
        None,
    ),
    (
        16,
        b"target byteorder little wordsize 16; main() { return(65535); }",
        None,
    ),
    (
        16,
        b"target byteorder little wordsize 16; main() { return(65536); }",
        Some(ProgramFault::WidthClash {
            token: 12,
            found: 17,
            wanted: 16,
        }),
    ),
    (
        16,
        b"target byteorder little wordsize 16; main() { return(%zx32(bits8[0])); }",
        Some(ProgramFault::UnknownName { token: 12 }),
    ),
    (
        16,
        b"target byteorder little wordsize 16; main() { return(%zx16(bits8[0])); }",
        None,
    ),
    (
        16,
        b"target byteorder little wordsize 16; main() { bits32 x; return(0); }",
        Some(ProgramFault::WidthClash {
            token: 10,
            found: 32,
            wanted: 16,
        }),
    ),
    (
        16,
        b"target byteorder little wordsize 16; main() { return(%zx16(1)); }",
        Some(ProgramFault::WidthClash {
            token: 14,
            found: 16,
            wanted: 8,
        }),
    ),
    (
        16,
        b"target byteorder little wordsize 16; main() { return(%lobits16(1)); }",
        Some(ProgramFault::WidthClash {
            token: 12,
            found: 16,
            wanted: 8,
        }),
    ),
    (
        16,
        b"target byteorder little wordsize 16; main() { bits8 c; c = %lobits8(1); return(%sx16(c)); }",
        None,
    ),
    (
        64,
        b"target byteorder little wordsize 64; main() { return(%zx64(%lobits32(1))); }",
        None,
    ),
    (
        64,
        b"target byteorder little wordsize 64; main() { return(bits32[0]); }",
        Some(ProgramFault::WidthClash {
            token: 12,
            found: 32,
            wanted: 64,
        }),
    ),
    (
        64,
        b"target byteorder little wordsize 64; main() { return(%zx64(5)); }",
        Some(ProgramFault::WidthClash {
            token: 14,
            found: 64,
            wanted: 32,
        }),
    ),
    (
        64,
        b"target byteorder little wordsize 64; main() { bits64 x; return(x); }",
        None,
    ),
    (
        64,
        b"target byteorder little wordsize 64; main() { return(18446744073709551615); }",
        None,
    ),
    (
        64,
        b"target byteorder little wordsize 64; main() { return(18446744073709551616); }",
        Some(ProgramFault::WidthClash {
            token: 12,
            found: 65,
            wanted: 64,
        }),
    ),
    (
        64,
        b"target byteorder little wordsize 64; main() { return(-9223372036854775808); }",
        None,
    ),
    (
        64,
        b"target byteorder little wordsize 64; main() { return(-9223372036854775809); }",
        Some(ProgramFault::WidthClash {
            token: 12,
            found: 65,
            wanted: 64,
        }),
    ),
    (
        64,
        b"target byteorder little wordsize 64; main() { bits32 x; x = %add(x, 1); return(%sx64(x)); }",
        None,
    ),
    (
        64,
        b"target byteorder little wordsize 64; main() { return(%zx32(bits8[0])); }",
        Some(ProgramFault::UnknownName { token: 12 }),
    ),
    (
        64,
        b"target byteorder little wordsize 64; main() { bits32 x; x = %lobits16(1); return(0); }",
        Some(ProgramFault::WidthClash {
            token: 15,
            found: 16,
            wanted: 32,
        }),
    ),
];

#[test]
fn names(rt: HostRuntime) -> Result<(), AllocError> {
    expect_bodies(&rt, rt.alloc(), &NAMES)
}

#[test]
fn numbers(rt: HostRuntime) -> Result<(), AllocError> {
    expect_bodies(&rt, rt.alloc(), &NUMBERS)
}

#[test]
fn ends(rt: HostRuntime) -> Result<(), AllocError> {
    for (text, fault) in ENDS {
        let whole = joined(rt.alloc(), TARGET, text, b"")?;
        expect_fault(&rt, rt.alloc(), 32, whole.as_slice(), fault)?;
    }
    Ok(())
}

#[test]
fn words(rt: HostRuntime) -> Result<(), AllocError> {
    for (bits, text, fault) in WORDS {
        expect_fault(&rt, rt.alloc(), bits, text, fault)?;
    }
    Ok(())
}

//! Texts that are no programs, and where.
use qc_cmm::read_cmm;
use qc_grammar::{ReadTextEnd, ReadTextFault};
use std::alloc::{AllocError, Global};
use std::process::Abort;

/// The ten tokens 0 to 9, which stand before each row's body.
const MAIN: &[u8] = b"target byteorder little wordsize 32; main() {";

fn expect_fault(rt: &impl Abort, alloc: Global, text: &[u8], fault: ReadTextFault) {
    let Err(end) = read_cmm(alloc, text) else {
        panic!(rt; "{text:?} has a tree");
    };
    assert_eq!(rt; end, ReadTextEnd::Fault { fault }, "in {text:?}");
}

fn after_main(alloc: Global, text: &[u8]) -> Result<Vec<u8>, AllocError> {
    let mut whole = Vec::from_slice(alloc, MAIN)?;
    whole.extend_from_slice(text)?;
    Ok(whole)
}

/// The token with this number is the first with which no text begins.
fn expect_syntax(
    rt: &impl Abort,
    alloc: Global,
    text: &[u8],
    token: usize,
) -> Result<(), AllocError> {
    let whole = after_main(alloc, text)?;
    expect_fault(rt, alloc, whole.as_slice(), ReadTextFault::Syntax { token });
    Ok(())
}

/// Texts with a fault before or between the parts of a program.
const PROGRAMS: [(&[u8], usize); 15] = [
    (b"", 0),
    (b"main() { }", 0),
    (b"target", 1),
    (b"target little", 1),
    (b"target byteorder middle", 2),
    (b"target byteorder little 32;", 3),
    (b"target byteorder little wordsize x;", 4),
    (b"target byteorder little wordsize -32;", 4),
    (b"target byteorder little wordsize 32", 5),
    (b"target byteorder little wordsize 32; ;", 6),
    (b"target byteorder little wordsize 32; \"main\"() { }", 6),
    (b"target byteorder little wordsize 32; %in() { }", 6),
    (b"target byteorder little wordsize 32; main", 7),
    (b"target byteorder little wordsize 32; main(", 8),
    (b"target byteorder little wordsize 32; main()", 9),
];

#[test]
fn syntax_of_programs(rt: HostRuntime) {
    for (text, token) in PROGRAMS {
        expect_fault(&rt, rt.alloc(), text, ReadTextFault::Syntax { token });
    }
}

/// What comes after `main() {`, whose brace is the ninth token: a body with a fault.
const BODIES: [(&[u8], usize); 55] = [
    (b"", 10),
    (b"f();", 14),
    (b"} }", 11),
    (b"a: ; }", 12),
    (b"else { } }", 10),
    (b"{ } }", 10),
    (b"; }", 10),
    (b"1; }", 10),
    (b"x; }", 11),
    (b"x 1; }", 11),
    (b"x = ; }", 12),
    (b"x = -; }", 13),
    (b"x = --1; }", 13),
    (b"x = (1); }", 12),
    (b"x = f[1]; }", 13),
    (b"x = f(1) }", 16),
    (b"x = f(1)(2); }", 16),
    (b"x = \"f\"; }", 12),
    (b"x = goto; }", 12),
    (b"x, = 1; }", 12),
    (b", x = 1; }", 10),
    (b"x, 1 = 2; }", 12),
    (b"f(,); }", 12),
    (b"f(1,); }", 14),
    (b"f(1 2); }", 13),
    (b"x = %add(); }", 14),
    (b"x = %add; }", 13),
    (b"x = %add(1, 2, 3); }", 17),
    (b"x = %in; }", 13),
    (b"x = %in(; }", 14),
    (b"x = %in(1, 2, 3); }", 17),
    (b"%in(); }", 10),
    (b"%add(1, 2); }", 10),
    (b"%out(); }", 12),
    (b"%out 5; }", 11),
    (b"%out(1, 2); }", 13),
    (b"%out(%in()); }", 14),
    (b"return; }", 11),
    (b"return(1; }", 13),
    (b"return(f(1)); }", 13),
    (b"goto 5; }", 11),
    (b"goto a }", 12),
    (b"bits8; }", 11),
    (b"bits8 x, ; }", 13),
    (b"bits8 8; }", 11),
    (b"f(); bits8 x; }", 15),
    (b"a: bits8 x; }", 13),
    (b"bits8[1] = 2; bits8 x; }", 18),
    (b"bits32[1]; }", 14),
    (b"bits32[1] = f(2); }", 16),
    (b"bits32[1] = %in(); }", 17),
    (b"if 1 { a: } }", 14),
    (b"if 1 { bits8 x; } }", 14),
    (b"if 1 { } else f(); }", 15),
    (b"if 1 { } else { } else { } }", 17),
];

#[test]
fn syntax_of_bodies(rt: HostRuntime) -> Result<(), AllocError> {
    for (text, token) in BODIES {
        expect_syntax(&rt, rt.alloc(), text, token)?;
    }
    Ok(())
}

/// What comes after an empty `main() { }`, whose closing brace is the tenth token: a part with a fault.
const PARTS: [(&[u8], usize); 19] = [
    (b"} f(x) { }", 13),
    (b"} f(bits8) { }", 14),
    (b"} f(bits8 x,) { }", 16),
    (b"} f(bits8 x bits8 y) { }", 15),
    (b"} f(bits8[x]) { }", 14),
    (b"} f() g() { }", 14),
    (b"} if() { }", 11),
    (b"} section { }", 12),
    (b"} section data { }", 12),
    (b"} section \"data\" }", 13),
    (b"} section \"data\" {", 14),
    (b"} section \"data\" { a }", 15),
    (b"} section \"data\" { bits8; }", 15),
    (b"} section \"data\" { bits8[]; }", 16),
    (b"} section \"data\" { bits8[-1]; }", 16),
    (b"} section \"data\" { bits8 { }; }", 16),
    (b"} section \"data\" { bits8 { 1, }; }", 18),
    (b"} section \"data\" { bits8 { x }; }", 16),
    (b"} section \"data\" { bits8 { 1 } }", 18),
];

#[test]
fn syntax_of_parts(rt: HostRuntime) -> Result<(), AllocError> {
    for (text, token) in PARTS {
        expect_syntax(&rt, rt.alloc(), text, token)?;
    }
    Ok(())
}

const RESERVED: [&[u8]; 14] = [
    b"target",
    b"byteorder",
    b"little",
    b"big",
    b"wordsize",
    b"section",
    b"bits8",
    b"bits16",
    b"bits32",
    b"bits64",
    b"goto",
    b"return",
    b"if",
    b"else",
];

/// What stands before and after a name in a body, and its token.
const PLACES: [(&[u8], &[u8], usize); 3] = [
    (b"goto ", b"; }", 11),
    (b"bits8 ", b"; }", 11),
    (b"x, ", b" = 1; }", 12),
];

#[test]
fn reserved_words_are_no_names(rt: HostRuntime) -> Result<(), AllocError> {
    for word in RESERVED {
        for (before, after, token) in PLACES {
            let mut text = Vec::from_slice(rt.alloc(), before)?;
            text.extend_from_slice(word)?;
            text.extend_from_slice(after)?;
            expect_syntax(&rt, rt.alloc(), text.as_slice(), token)?;
        }
    }
    Ok(())
}

/// Texts, and the byte at which no token begins.
const BAD_BYTES: [(&[u8], usize); 6] = [
    (b"\x00", 0),
    (b"target %", 7),
    (b"target byteorder little wordsize 32; /*", 37),
    (b"section \"data { }\n", 8),
    (b"((((+", 4),
    (b"else else # else", 10),
];

#[test]
fn bad_bytes(rt: HostRuntime) {
    for (text, at) in BAD_BYTES {
        expect_fault(&rt, rt.alloc(), text, ReadTextFault::BadByte { at });
    }
}

fn put_times(out: &mut Vec<u8>, text: &[u8], times: usize) -> Result<(), AllocError> {
    for _ in 0..times {
        out.extend_from_slice(text)?;
    }
    Ok(())
}

/// A body that begins so, and then has so many of a piece, and then this.
fn nested(
    alloc: Global,
    first: &[u8],
    piece: &[u8],
    times: usize,
    last: &[u8],
) -> Result<Vec<u8>, AllocError> {
    let mut text = after_main(alloc, first)?;
    put_times(&mut text, piece, times)?;
    text.extend_from_slice(last)?;
    Ok(text)
}

/// How a body begins, a piece that opens a bracket, how often it stands, what follows, and the fault. The procedure's own
/// brace is open too.
const BRACKETS: [(&[u8], &[u8], usize, &[u8], ReadTextFault); 7] = [
    (
        b"x =",
        b" bits8[",
        200,
        b"",
        ReadTextFault::TooDeep { token: 411 },
    ),
    (
        b"x =",
        b" %neg(",
        300,
        b"",
        ReadTextFault::TooDeep { token: 411 },
    ),
    (
        b"",
        b" if 1 {",
        200,
        b"",
        ReadTextFault::TooDeep { token: 609 },
    ),
    (
        b"x =",
        b" bits8[",
        199,
        b"[",
        ReadTextFault::Syntax { token: 410 },
    ),
    (
        b"x =",
        b" bits8[",
        199,
        b"%neg(",
        ReadTextFault::TooDeep { token: 411 },
    ),
    (
        b"x =",
        b" bits8[",
        199,
        b"",
        ReadTextFault::Syntax { token: 410 },
    ),
    (
        b"x = ; y =",
        b" bits8[",
        200,
        b"",
        ReadTextFault::Syntax { token: 12 },
    ),
];

#[test]
fn brackets(rt: HostRuntime) -> Result<(), AllocError> {
    for (first, piece, times, last, fault) in BRACKETS {
        let text = nested(rt.alloc(), first, piece, times, last)?;
        expect_fault(&rt, rt.alloc(), text.as_slice(), fault);
    }
    let mut deep = nested(rt.alloc(), b"x =", b" bits8[", 199, b"0")?;
    put_times(&mut deep, b"]", 199)?;
    deep.extend_from_slice(b"; }")?;
    assert!(&rt; read_cmm(rt.alloc(), deep.as_slice()).is_ok());
    Ok(())
}

//! Programs and their trees.
use crate::outline::{outline_of, outline_of_parts};
use qc_cmm::read_cmm;
use std::alloc::{AllocError, Global};
use std::process::Abort;

/// The six tokens 0 to 5, which stand before each row's part.
const TARGET: &[u8] = b"target byteorder little wordsize 32;";

/// These bytes, one after another.
fn joined(
    alloc: Global,
    before: &[u8],
    middle: &[u8],
    after: &[u8],
) -> Result<Vec<u8>, AllocError> {
    let mut text = Vec::from_slice(alloc, before)?;
    text.extend_from_slice(middle)?;
    text.extend_from_slice(after)?;
    Ok(text)
}

/// The parts of a program, and their outline.
const PARTS: [(&[u8], &[u8]); 7] = [
    (b"", b""),
    (b"section \"data\" { }", b" section@6 \"data\"@7 { }"),
    (
        b"section \"data\" { a: bits8[5]; bits16 { 1, -2 }; b: }",
        b" section@6 \"data\"@7 { label a@9; zeros bits8@11 5@13; values bits16@16 1@18 minus@20 2@21; label b@24; }",
    ),
    (
        b"section \"x y\" { bits64 { 0x10 }; bits32[0x10]; }",
        b" section@6 \"x y\"@7 { values bits64@9 16@11; zeros bits32@14 16@16; }",
    ),
    (
        b"f(bits8 a, bits32 b) { return(a, b); } g() { }",
        b" procedure f@6 ( bits8@8 a@9 bits32@11 b@12 ) { return@15(a@17, b@19); } procedure g@23 ( ) { }",
    ),
    (
        b"data(bits64 import){}section\"data\"{}",
        b" procedure data@6 ( bits64@8 import@9 ) { } section@13 \"data\"@14 { }",
    ),
    (
        b"/*\"*/ f /* { */ ( ) // }\n { // }\r\n } /**/",
        b" procedure f@6 ( ) { }",
    ),
];

/// The statements of a procedure's body, of which the first token is the tenth, and their outline.
const BODIES: [(&[u8], &[u8]); 40] = [
    (b"", b""),
    (b"a : b = 1 ;", b" label a@10; set b@12 = 1@14;"),
    (b"a: b:", b" label a@10; label b@12;"),
    (b"bits8 x;", b" var bits8@10 x@11;"),
    (b"bits8[x] = 1;", b" store bits8@10[x@12] = 1@15;"),
    (
        b"bits16 x, y; bits64 z;",
        b" var bits16@10 x@11, y@13; var bits64@15 z@16;",
    ),
    (
        b"bits8 x; bits8[x] = 1; x = 2; a:",
        b" var bits8@10 x@11; store bits8@13[x@15] = 1@18; set x@20 = 2@22; label a@24;",
    ),
    (b"x = f(1);", b" set x@10 = call f@12(1@14);"),
    (b"x, y = f();", b" set x@10, y@12 = call f@14();"),
    (b"x, y, z = 7;", b" set x@10, y@12, z@14 = 7@16;"),
    (b"f();", b" call f@10();"),
    (b"f(a, 2);", b" call f@10(a@12, 2@14);"),
    (b"x = f;", b" set x@10 = f@12;"),
    (b"x = %in();", b" set x@10 = input@12;"),
    (b"x, y = %in();", b" set x@10, y@12 = input@14;"),
    (b"x = %in(5);", b" set x@10 = %in@12(5@14);"),
    (b"x = %in(5, y);", b" set x@10 = %in@12(5@14, y@16);"),
    (b"x = %out(5);", b" set x@10 = %out@12(5@14);"),
    (b"%out(5);", b" out@10 5@12;"),
    (b"%out(%in(5));", b" out@10 %in@12(5@14);"),
    (b"x = -5;", b" set x@10 = minus@12 5@13;"),
    (b"x = -0;", b" set x@10 = minus@12 0@13;"),
    (b"x = 0x1F;", b" set x@10 = 31@12;"),
    (
        b"x = 18446744073709551615;",
        b" set x@10 = 18446744073709551615@12;",
    ),
    (
        b"x = 18446744073709551616;",
        b" set x@10 = 18446744073709551616@12;",
    ),
    (
        b"x = 99999999999999999999999;",
        b" set x@10 = 18446744073709551616@12;",
    ),
    (b"goto a;", b" goto@10 a@11;"),
    (b"return();", b" return@10();"),
    (b"return(1, x);", b" return@10(1@12, x@14);"),
    (b"if x { }", b" if@10 x@11 { };"),
    (b"if x { } else { }", b" if@10 x@11 { } else { };"),
    (
        b"if x { f(); } else { goto a; }",
        b" if@10 x@11 { call f@13(); } else { goto@20 a@21; };",
    ),
    (
        b"if x { if y { } else { f(); } }",
        b" if@10 x@11 { if@13 y@14 { } else { call f@19(); }; };",
    ),
    (
        b"if x { if y { } } else { f(); }",
        b" if@10 x@11 { if@13 y@14 { }; } else { call f@20(); };",
    ),
    (
        b"if %eq(x, 1) { x = 2; return(x); }",
        b" if@10 %eq@11(x@13, 1@15) { set x@18 = 2@20; return@22(x@24); };",
    ),
    (
        b"if 1 { bits8[2] = 3; }",
        b" if@10 1@11 { store bits8@13[2@15] = 3@18; };",
    ),
    (
        b"x = %add(1, bits32[y]);",
        b" set x@10 = %add@12(1@14, load bits32@16[y@18]);",
    ),
    (
        b"x = bits64[bits16[bits8[0]]];",
        b" set x@10 = load bits64@12[load bits16@14[load bits8@16[0@18]]];",
    ),
    (b"x = %frob(-1);", b" set x@10 = %frob@12(minus@14 1@15);"),
    (b"/*;*/ f // }\n ( /**/ ) ;", b" call f@10();"),
];

/// The outline of the parts of a text's program.
fn parts_of(rt: &impl Abort, alloc: Global, text: &[u8]) -> Result<Vec<u8>, AllocError> {
    let program = read_cmm(alloc, text).expect(rt, "a tree");
    outline_of_parts(alloc, &program)
}

#[test]
fn trees_of_parts(rt: HostRuntime) -> Result<(), AllocError> {
    for (text, wanted) in PARTS {
        let whole = joined(rt.alloc(), TARGET, text, b"")?;
        let outline = parts_of(&rt, rt.alloc(), whole.as_slice())?;
        assert_eq!(&rt; outline.as_slice(), wanted, "of {text:?}");
    }
    Ok(())
}

#[test]
fn trees_of_bodies(rt: HostRuntime) -> Result<(), AllocError> {
    for (text, inner) in BODIES {
        let before = joined(rt.alloc(), TARGET, b"main() {", text)?;
        let whole = joined(rt.alloc(), before.as_slice(), b"}", b"")?;
        let wanted = joined(rt.alloc(), b" procedure main@6 ( ) {", inner, b" }")?;
        let outline = parts_of(&rt, rt.alloc(), whole.as_slice())?;
        assert_eq!(&rt; outline.as_slice(), wanted.as_slice(), "of {text:?}");
    }
    Ok(())
}

/// Whole programs, and their outline.
const TARGETS: [(&[u8], &[u8]); 3] = [
    (
        b"target byteorder big wordsize 16;",
        b"target@0 big@2 16@4;",
    ),
    (
        b"/**/target//\nbyteorder/*big*/little wordsize 0x40;",
        b"target@0 little@2 64@4;",
    ),
    (
        b"target byteorder little wordsize 99999999999999999999; f() { }",
        b"target@0 little@2 18446744073709551616@4; procedure f@6 ( ) { }",
    ),
];

#[test]
fn trees_of_programs(rt: HostRuntime) -> Result<(), AllocError> {
    for (text, wanted) in TARGETS {
        let program = read_cmm(rt.alloc(), text).expect(&rt, "a tree");
        let outline = outline_of(rt.alloc(), &program)?;
        assert_eq!(&rt; outline.as_slice(), wanted, "of {text:?}");
    }
    Ok(())
}

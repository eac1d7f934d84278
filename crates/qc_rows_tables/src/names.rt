//! Reserved words where they are names, and where they are none.
use crate::outline::outline_of;
use qc_grammar::{ReadTextEnd, ReadTextFault};
use qc_tabletext::read_table_text;
use std::alloc::{AllocError, Global};
use std::process::Abort;

/// The reserved words.
const RESERVED: [&[u8]; 15] = [
    b"tables", b"tile", b"missing", b"after", b"e", b"own", b"par", b"cell", b"const", b"spare",
    b"input", b"mem", b"zx", b"sx", b"slice",
];

/// Words that stand at the front of a text alone.
const AT_THE_FRONT: [&[u8]; 2] = [b"height", b"laws"];

/// The bytes with the name in the place of each dollar sign.
fn with_name(alloc: Global, form: &[u8], name: &[u8]) -> Result<Vec<u8>, AllocError> {
    let mut text = Vec::new(alloc);
    for byte in form {
        if *byte == b'$' {
            text.extend_from_slice(name)?;
        } else {
            text.push(*byte)?;
        }
    }
    Ok(text)
}

/// Texts and their outlines; each dollar sign stands for a name.
const FORMS: [(&[u8], &[u8]); 9] = [
    (b"tables $ 1;", b"$@1 version 1@2"),
    (
        b"tables $ 2 height 3 laws 1;",
        b"$@1 version 2@2 height 3@4 laws 1@6",
    ),
    (
        b"tables m 1; tile $ missing;",
        b"m@1 version 1@2; tile@4 $@5 missing",
    ),
    (
        b"tables m 1; tile $ = $ [] ();",
        b"m@1 version 1@2; tile@4 $@5 = $@7[]()",
    ),
    (
        b"tables m 1; tile t = a [] ($ [x @ e] (), own);",
        b"m@1 version 1@2; tile@4 t@5 = a@7[]($@11[x@13 e@15](), own@20)",
    ),
    (
        b"tables m 1; tile t = $ [] () after $ [] () after $ [] ();",
        b"m@1 version 1@2; tile@4 t@5 = $@7[]() after $@13[]() after $@19[]()",
    ),
    (
        b"tables m 1; tile t = a [] (cell $ 3, own);",
        b"m@1 version 1@2; tile@4 t@5 = a@7[](cell@11 $@12 3@13, own@15)",
    ),
    (
        b"tables m 1; tile t = a [] (const $[3], own);",
        b"m@1 version 1@2; tile@4 t@5 = a@7[](const@11 $@12[3@14], own@17)",
    ),
    (
        b"tables m 1; tile t = a [] (const f($[3], mem 8 [$[4]]));",
        b"m@1 version 1@2; tile@4 t@5 = a@7[](const@11 f@12($@14[3@16], mem@19 8@20[$@22[4@24]]))",
    ),
];

fn expect_names(rt: &impl Abort, alloc: Global, name: &[u8]) -> Result<(), AllocError> {
    for (form, outline) in FORMS {
        let text = with_name(alloc, form, name)?;
        let wanted = with_name(alloc, outline, name)?;
        let raw = read_table_text(alloc, text.as_slice()).expect(rt, "a tree");
        assert_eq!(rt;
            outline_of(alloc, &raw)?.as_slice(),
            wanted.as_slice(),
            "of {text:?}"
        );
    }
    Ok(())
}

#[test]
fn words_as_names(rt: HostRuntime) -> Result<(), AllocError> {
    for word in RESERVED {
        expect_names(&rt, rt.alloc(), word)?;
    }
    for word in AT_THE_FRONT {
        expect_names(&rt, rt.alloc(), word)?;
    }
    expect_names(&rt, rt.alloc(), b"k")
}

/// Forms in which a reserved word is no name, with the first token with which no text begins.
const NO_NAMES: [(&[u8], usize); 2] = [
    (b"tables m 1; tile t = a [$ @ e] ();", 9),
    (b"tables m 1; tile t = a [] (const $(k));", 13),
];

#[test]
fn words_that_are_no_names(rt: HostRuntime) -> Result<(), AllocError> {
    for (form, token) in NO_NAMES {
        for word in RESERVED {
            let text = with_name(rt.alloc(), form, word)?;
            let Err(ReadTextEnd::Fault { fault }) = read_table_text(rt.alloc(), text.as_slice())
            else {
                panic!(&rt; "{text:?} has a tree");
            };
            assert_eq!(&rt; fault, ReadTextFault::Syntax { token }, "in {text:?}");
        }
        for word in AT_THE_FRONT {
            let text = with_name(rt.alloc(), form, word)?;
            assert!(&rt;
                read_table_text(rt.alloc(), text.as_slice()).is_ok(),
                "{text:?}"
            );
        }
    }
    Ok(())
}

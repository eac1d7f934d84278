//! Texts that are no texts of tables, and where.
use qc_grammar::{ReadTextEnd, ReadTextFault};
use qc_tabletext::read_table_text;
use std::alloc::{AllocError, Global};
use std::process::Abort;

fn expect_fault(rt: &impl Abort, alloc: Global, text: &[u8], fault: ReadTextFault) {
    let Err(end) = read_table_text(alloc, text) else {
        panic!(rt; "{text:?} has a tree");
    };
    assert_eq!(rt; end, ReadTextEnd::Fault { fault }, "in {text:?}");
}

/// Texts with a fault outside derivations, and the first token with which no text begins.
const TEXTS: [(&[u8], usize); 45] = [
    (b"", 0),
    (b"table m 1;", 0),
    (b"tile t missing;", 0),
    (b"tables", 1),
    (b"tables 1;", 1),
    (b"tables \"m\" 1;", 1),
    (b"tables m;", 2),
    (b"tables m n 1;", 2),
    (b"tables tables tables 1;", 2),
    (b"tables m 0;", 2),
    (b"tables m 3;", 2),
    (b"tables m 0x3;", 2),
    (b"tables m 18446744073709551617;", 2),
    (b"tables m 1", 3),
    (b"tables m 1 2;", 3),
    (b"tables rv32im 2;", 3),
    (b"tables m 2, height 3 laws 1;", 3),
    (b"tables m 1 height 3 laws 1;", 3),
    (b"tables m 2 laws 1 height 3;", 3),
    (b"tables m 2 height;", 4),
    (b"tables m 2 height 0 laws 1;", 4),
    (b"tables m 2 height 5 laws 1;", 4),
    (b"tables m 2 height laws 1;", 4),
    (b"tables m 2 height 3;", 5),
    (b"tables m 2 height 3 height 1;", 5),
    (b"tables m 2 height 3 laws;", 6),
    (b"tables m 2 height 3 laws 4;", 6),
    (b"tables m 2 height 3 laws 18446744073709551616;", 6),
    (b"tables m 2 height 3 laws 1", 7),
    (b"tables m 2 height 3 laws 1 tile t missing;", 7),
    (b"tables m 1; ;", 4),
    (b"tables m 1; t missing;", 4),
    (b"tables m 1; height t missing;", 4),
    (b"tables m 1; 4;", 4),
    (b"tables m 1; tile;", 5),
    (b"tables m 1; tile 3 missing;", 5),
    (b"tables m 1; tile t;", 6),
    (b"tables m 1; tile tile;", 6),
    (b"tables m 1; tile missing;", 6),
    (b"tables m 1; tile t u missing;", 6),
    (b"tables m 1; tile tile tile missing;", 6),
    (b"tables m 1; tile t 6;", 6),
    (b"tables m 1; tile t missing", 7),
    (b"tables m 1; tile t missing missing;", 7),
    (b"tables m 1; tile t = = a [] ();", 7),
];

#[test]
fn syntax_outside_derivations(rt: HostRuntime) {
    for (text, token) in TEXTS {
        expect_fault(&rt, rt.alloc(), text, ReadTextFault::Syntax { token });
    }
}

/// The seven tokens 0 to 6, which stand before a derivation.
const TILE: &[u8] = b"tables m 1; tile t = ";

fn after_tile(alloc: Global, text: &[u8]) -> Result<Vec<u8>, AllocError> {
    let mut whole = Vec::from_slice(alloc, TILE)?;
    whole.extend_from_slice(text)?;
    Ok(whole)
}

/// What comes after `=`, and the first token with which no text begins.
const DERIVATIONS: [(&[u8], usize); 57] = [
    (b"", 7),
    (b";", 7),
    (b"(add [] ());", 7),
    (b"3 [] ();", 7),
    (b"%add [] ();", 7),
    (b"add;", 8),
    (b"own;", 8),
    (b"own", 8),
    (b"missing;", 8),
    (b"add () [];", 8),
    (b"add [own @ e] ();", 9),
    (b"add [e @ e] ();", 9),
    (b"add [, x @ e] ();", 9),
    (b"add [];", 10),
    (b"add []", 10),
    (b"add [x] ();", 10),
    (b"add [x @] ();", 11),
    (b"add [x @ f] ();", 11),
    (b"add [x @ .0] ();", 11),
    (b"add [x @ e.1] ();", 12),
    (b"add [x @ 0..1] ();", 12),
    (b"add [x @ 0 1] ();", 12),
    (b"add [x @ 0.] ();", 13),
    (b"add [x @ e,] ();", 13),
    (b"add [x @ e, y] ();", 14),
    (b"add [] (", 11),
    (b"add [] (,);", 11),
    (b"add [] (3);", 11),
    (b"add [] (own", 12),
    (b"add [] (own own);", 12),
    (b"add [] (own,);", 13),
    (b"add [] (spare 1);", 12),
    (b"add [] (k);", 12),
    (b"add [] (tile);", 12),
    (b"add [] (par);", 12),
    (b"add [] (par x);", 12),
    (b"add [] (par 1 2);", 13),
    (b"add [] (cell 3);", 12),
    (b"add [] (cell r);", 13),
    (b"add [] (cell r [3]);", 13),
    (b"add [] (const);", 12),
    (b"add [] (const 3);", 13),
    (b"add [] (const 3'x);", 14),
    (b"add [] (const own);", 13),
    (b"add [] (const mem);", 13),
    (b"add [] (const mem 8);", 14),
    (b"add [] (const zx (k));", 13),
    (b"add [] (const slice 1 (k));", 14),
    (b"add [] (const after 3);", 13),
    (b"add [] (const k k);", 13),
    (b"add [] (const f();", 15),
    (b"add [] (const f(,));", 14),
    (b"add [] (const r[x]);", 14),
    (b"add [] () after;", 13),
    (b"add [] () after own;", 14),
    (b"add [] () add [] ();", 12),
    (b"add [] ();;", 13),
];

#[test]
fn syntax_of_derivations(rt: HostRuntime) -> Result<(), AllocError> {
    for (text, token) in DERIVATIONS {
        let whole = after_tile(rt.alloc(), text)?;
        expect_fault(
            &rt,
            rt.alloc(),
            whole.as_slice(),
            ReadTextFault::Syntax { token },
        );
    }
    Ok(())
}

/// Texts, and the byte at which no token begins.
const BAD_BYTES: [(&[u8], usize); 4] = [
    (b"\x00", 0),
    (b"3 + 3", 2),
    (b"tables /* m 1;", 7),
    (b"tables m 1; tile t = add [] (own) #", 34),
];

#[test]
fn bad_bytes(rt: HostRuntime) {
    for (text, at) in BAD_BYTES {
        expect_fault(&rt, rt.alloc(), text, ReadTextFault::BadByte { at });
    }
}

fn put_times(out: &mut Vec<u8>, text: &[u8], times: usize) -> Result<(), AllocError> {
    for _ in 0..times {
        out.extend_from_slice(text)?;
    }
    Ok(())
}

/// So many derivations, each inside the one before it, and this inside the last. Four tokens open each of them.
fn nested(alloc: Global, times: usize, last: &[u8]) -> Result<Vec<u8>, AllocError> {
    let mut text = after_tile(alloc, b"")?;
    put_times(&mut text, b"a[](", times)?;
    text.extend_from_slice(last)?;
    Ok(text)
}

/// How many derivations stand one inside the other, what the last one has inside, and the fault.
const BRACKETS: [(usize, &[u8], ReadTextFault); 8] = [
    (200, b"", ReadTextFault::Syntax { token: 807 }),
    (200, b";", ReadTextFault::Syntax { token: 807 }),
    (200, b"own", ReadTextFault::Syntax { token: 808 }),
    (200, b"own(", ReadTextFault::Syntax { token: 808 }),
    (200, b"own[", ReadTextFault::TooDeep { token: 808 }),
    (200, b"const k(", ReadTextFault::TooDeep { token: 809 }),
    (201, b"", ReadTextFault::TooDeep { token: 808 }),
    (300, b";", ReadTextFault::TooDeep { token: 808 }),
];

#[test]
fn brackets(rt: HostRuntime) -> Result<(), AllocError> {
    for (times, last, fault) in BRACKETS {
        let text = nested(rt.alloc(), times, last)?;
        expect_fault(&rt, rt.alloc(), text.as_slice(), fault);
    }
    let mut deep = nested(rt.alloc(), 200, b"own")?;
    put_times(&mut deep, b")", 200)?;
    deep.extend_from_slice(b";")?;
    assert!(&rt; read_table_text(rt.alloc(), deep.as_slice()).is_ok());
    Ok(())
}

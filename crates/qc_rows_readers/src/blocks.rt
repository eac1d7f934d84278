//! Texts of blocks: where the declarations end, and what is refused.
use qc_grammar::{ReadTextEnd, ReadTextFault};
use qc_sample::{read_block, write_block};
use std::alloc::Global;
use std::process::Abort;

/// A text, how many declarations it has, whether it has a result, and what is printed.
const BLOCKS: [(&[u8], usize, bool, &[u8]); 5] = [
    (b"{}", 0, false, b"{ } "),
    (b"{x=0x10}", 0, true, b"{ x = 16 } "),
    (b"{a:t;}", 1, false, b"{ a : t ; } "),
    (b"{a:t;x=1}", 1, true, b"{ a : t ; x = 1 } "),
    (b"{ a:t; b:u; a=2 }", 2, true, b"{ a : t ; b : u ; a = 2 } "),
];

/// A text, and the first token with which no block begins.
const FAULTS: [(&[u8], usize); 7] = [
    (b"a:t;}", 0),
    (b"{a;}", 2),
    (b"{a:t}", 4),
    (b"{a=b}", 3),
    (b"{a=1 b:t;}", 4),
    (b"{a:t;", 5),
    (b"{}}", 2),
];

fn expect_block(rt: &impl Abort, alloc: Global, row: &(&[u8], usize, bool, &[u8])) {
    let Ok(block) = read_block(alloc, row.0) else {
        panic!(rt; "{:?} has no tree", row.0);
    };
    assert_eq!(rt; block.declarations.len(), row.1, "in {:?}", row.0);
    assert_eq!(rt; block.result.is_some(), row.2, "in {:?}", row.0);
    let Ok(out) = write_block(alloc, &block) else {
        panic!(rt; "no memory");
    };
    assert_eq!(rt; out.as_slice(), row.3, "in {:?}", row.0);
}

#[test]
fn reads_and_prints_blocks(rt: HostRuntime) {
    for row in &BLOCKS {
        expect_block(&rt, rt.alloc(), row);
    }
}

fn expect_fault(rt: &impl Abort, alloc: Global, text: &[u8], token: usize) {
    let Err(end) = read_block(alloc, text) else {
        panic!(rt; "{text:?} has a tree");
    };
    let fault = ReadTextFault::Syntax { token };
    assert_eq!(rt; end, ReadTextEnd::Fault { fault }, "in {text:?}");
}

#[test]
fn refuses_what_is_no_block(rt: HostRuntime) {
    for row in &FAULTS {
        expect_fault(&rt, rt.alloc(), row.0, row.1);
    }
}

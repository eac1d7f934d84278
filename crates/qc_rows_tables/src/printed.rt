//! Texts there and back: what is printed for a tree is the tokens of its text with a blank after each, numbers in decimal.
use qc_tabletext::{read_table_text, write_table_text};
use std::alloc::Global;
use std::process::Abort;

/// The text that is written for the tree of a text.
fn rewritten(rt: &impl Abort, alloc: Global, text: &[u8]) -> Vec<u8> {
    let raw = read_table_text(alloc, text).expect(rt, "a tree");
    write_table_text(alloc, &raw).expect(rt, "memory")
}

/// Texts, and what is printed of their trees.
const PRINTED: [(&[u8], &[u8]); 6] = [
    (b"tables m 01;", b"tables m 1 ; "),
    (
        b"tables m 0x2 height 03 laws 0x0;tile a missing;",
        b"tables m 2 height 3 laws 0 ; tile a missing ; ",
    ),
    (
        b"tables m 1;tile add=add[](own,par 1,par 0x2);",
        b"tables m 1 ; tile add = add [ ] ( own , par 1 , par 2 ) ; ",
    ),
    (
        b"tables rv32im 1;tile const=addi[split12@0.2](own,lui[](own,const slice 12 20(sub(k,sx 32(slice 0 12(k))))),const slice 0 12(k));",
        b"tables rv32im 1 ; tile const = addi [ split12 @ 0 . 2 ] ( own , lui [ ] ( own , const slice 12 20 ( sub ( k , sx 32 ( slice 0 12 ( k ) ) ) ) ) , const slice 0 12 ( k ) ) ; ",
    ),
    (
        b"tables m 1;tile t=a[x@e,y@0.01.0x2](spare,cell r 0x1F,b[](),const mem 8[add(k,zx 1(1'32))])after c[z@99999999999999999999](own)after d[]();",
        b"tables m 1 ; tile t = a [ x @ e , y @ 0 . 1 . 2 ] ( spare , cell r 31 , b [ ] ( ) , const mem 8 [ add ( k , zx 1 ( 1 ' 32 ) ) ] ) after c [ z @ 18446744073709551616 ] ( own ) after d [ ] ( ) ; ",
    ),
    (
        b"tables tables 1;tile tile missing;tile cell=own[](par[](),cell cell 0,const const[1],spare[](),const after,const input[2],after[]())after e[]();",
        b"tables tables 1 ; tile tile missing ; tile cell = own [ ] ( par [ ] ( ) , cell cell 0 , const const [ 1 ] , spare [ ] ( ) , const after , const input [ 2 ] , after [ ] ( ) ) after e [ ] ( ) ; ",
    ),
];

#[test]
fn prints_and_reads_again(rt: HostRuntime) {
    for (text, printed) in PRINTED {
        assert_eq!(&rt; rewritten(&rt, rt.alloc(), text).as_slice(), printed);
        assert_eq!(&rt; rewritten(&rt, rt.alloc(), printed).as_slice(), printed);
    }
}

//! Texts of the sample language.
use qc_grammar::{ReadTextEnd, ReadTextFault};
use qc_sample::{read_sample, write_sample};
use std::alloc::Global;
use std::process::Abort;
use std::test::Fail;

#[test]
fn reads_and_prints(rt: HostRuntime) -> Result<(), Fail> {
    match read_sample(rt.alloc(), b"program a;f(0x1F,b[c]);") {
        Ok(p) => {
            assert_eq!(rt; p.name.token, 1);
            assert_eq!(rt; p.body.len(), 1);
            let out = write_sample(rt.alloc(), &p)?;
            assert_eq!(rt;
                out.as_slice(),
                b"program a ; f ( 31 , b [ c ] ) ; ".as_slice()
            );
        }
        Err(_) => assert!(rt; false),
    }
    Ok(())
}

/// The token with this number is the first with which no text begins.
fn expect_syntax(rt: &impl Abort, alloc: Global, text: &[u8], token: usize) {
    let Err(end) = read_sample(alloc, text) else {
        panic!(rt; "{text:?} has a tree");
    };
    let fault = ReadTextFault::Syntax { token };
    assert_eq!(rt; end, ReadTextEnd::Fault { fault }, "in {text:?}");
}

#[test]
fn refuses_a_comma_at_the_end(rt: HostRuntime) {
    expect_syntax(&rt, rt.alloc(), b"program a; f(1,);", 7);
}

#[test]
fn refuses_a_reserved_name(rt: HostRuntime) {
    expect_syntax(&rt, rt.alloc(), b"program program", 1);
}

#[test]
fn refuses_a_text_that_breaks_off(rt: HostRuntime) {
    expect_syntax(&rt, rt.alloc(), b"program a", 2);
}

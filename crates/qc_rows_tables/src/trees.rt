//! Texts of tables and their trees.
use crate::outline::outline_of;
use qc_grammar::{ReadTextEnd, ReadTextFault};
use qc_tabletext::read_table_text;
use qc_text::tokens;
use std::alloc::AllocError;

/// How rv32im has a constant: its upper bits by `lui`, and its lower ones by `addi`.
const CONSTANT: &[u8] = b"tables rv32im 1;
tile const = addi [split12 @ 0.2] (own,
  lui [] (own, const slice 12 20 (sub(k, sx 32 (slice 0 12 (k))))), const slice 0 12 (k));
";

/// Texts and their outlines.
const TEXTS: [(&[u8], &[u8]); 8] = [
    (b"tables m 1;", b"m@1 version 1@2"),
    (
        b"tables m 0x2 height 04 laws 0x0;",
        b"m@1 version 2@2 height 4@4 laws 0@6",
    ),
    (
        b"tables rv32im 1; tile add missing; tile add missing;",
        b"rv32im@1 version 1@2; tile@4 add@5 missing; tile@8 add@9 missing",
    ),
    (
        CONSTANT,
        b"rv32im@1 version 1@2; tile@4 const@5 = addi@7[split12@9 0@11.2@13](own@16, lui@18[](own@22, const@24 slice@25 12@26 20@27(sub@29(k@31, sx@33 32@34(slice@36 0@37 12@38(k@40))))), const@47 slice@48 0@49 12@50(k@52))",
    ),
    (
        b"tables m 1; tile t = a [x @ e, y @ 0.01.0x2] (spare, cell r 0x1F, b [] (), const mem 8 [add(k, 1'32)]) after c [z @ 3] (own);",
        b"m@1 version 1@2; tile@4 t@5 = a@7[x@9 e@11, y@13 0@15.1@17.2@19](spare@22, cell@24 r@25 31@26, b@28[](), const@34 mem@35 8@36[add@38(k@40, 1@42'32@44)]) after c@49[z@51 3@53](own@56)",
    ),
    (
        b"tables m 1; tile t = a [] (const input, const after, const r[3], const sx 8 (k), const zx 32 (f()), const slice 0 8 (g(h, i(1'1))));",
        b"m@1 version 1@2; tile@4 t@5 = a@7[](const@11 input@12, const@14 after@15, const@17 r@18[3@20], const@23 sx@24 8@25(k@27), const@30 zx@31 32@32(f@34()), const@39 slice@40 0@41 8@42(g@44(h@46, i@48(1@50'1@52))))",
    ),
    (
        b"tables m 2 height 1 laws 3; tile t = a [] () after b [] (par 7) after c [] (); tile u missing;",
        b"m@1 version 2@2 height 1@4 laws 3@6; tile@8 t@9 = a@11[]() after b@17[](par@21 7@22) after c@25[](); tile@31 u@32 missing",
    ),
    (
        b"/*t*/tables//x\nm\t1\r;tile t=a[/**/](own)//;\n;",
        b"m@1 version 1@2; tile@4 t@5 = a@7[](own@11)",
    ),
];

#[test]
fn trees(rt: HostRuntime) -> Result<(), AllocError> {
    for (text, outline) in TEXTS {
        let raw = read_table_text(rt.alloc(), text).expect(&rt, "a tree");
        assert_eq!(&rt;
            outline_of(rt.alloc(), &raw)?.as_slice(),
            outline,
            "of {text:?}"
        );
    }
    Ok(())
}

/// The token at which a part of the text of a constant stops, by how many bytes it has and how many tokens it is cut into
/// without the end. A part of the word `tables` or `tile` is no word, and any other part lacks what comes next. The first
/// line alone is a text.
fn stop_of(bytes: usize, tokens: usize) -> Option<usize> {
    match bytes {
        1..=5 => Some(0),
        16 | 17 => None,
        18..=20 => Some(4),
        _ => Some(tokens),
    }
}

#[test]
fn parts_of_a_text(rt: HostRuntime) {
    let end = CONSTANT.len() - 1;
    for bytes in 0..end {
        let part = &CONSTANT[..bytes];
        let found = tokens(rt.alloc(), part).expect(&rt, "tokens");
        match (
            read_table_text(rt.alloc(), part),
            stop_of(bytes, found.len().saturating_sub(1)),
        ) {
            (Ok(raw), None) => assert_eq!(&rt; raw.entries.len(), 0),
            (Err(ReadTextEnd::Fault { fault }), Some(token)) => {
                assert_eq!(&rt; fault, ReadTextFault::Syntax { token }, "of {part:?}");
            }
            _ => panic!(&rt; "{part:?}"),
        }
    }
}

//! Tokens of files, and the numbers of numerals.
use qc_text::Kind::{End, Name, Number, Prim, Punct, Str};
use qc_text::{Kind, NoMemory, Text, TextEnd, Token, number_value, text_of, tokens};
use std::alloc::Global;
use std::process::Abort;

/// The kind, the start and the end of each token.
type Spans<'a> = &'a [(Kind, usize, usize)];

fn expect_tokens(rt: &impl Abort, alloc: Global, rows: &[(&[u8], Spans)]) {
    for &(text, spans) in rows {
        let found = tokens(alloc, text).expect(rt, "tokens");
        assert_eq!(rt; found.len(), spans.len(), "of {text:?}");
        for (token, &(kind, start, end)) in found.iter().zip(spans) {
            assert_eq!(rt; *token, Token { kind, start, end }, "in {text:?}");
        }
    }
}

fn expect_bad_bytes(rt: &impl Abort, alloc: Global, rows: &[(&[u8], usize)]) {
    for &(text, at) in rows {
        let Err(end) = tokens(alloc, text) else {
            panic!(rt; "{text:?} has tokens");
        };
        assert_eq!(rt; end, TextEnd::BadByte { at }, "in {text:?}");
    }
}

#[test]
fn names_and_numbers(rt: HostRuntime) {
    let rows: [(&[u8], Spans); 13] = [
        (b"", &[(End, 0, 0)]),
        (b" \t\r\n", &[(End, 4, 4)]),
        (b"ab_9 _X", &[(Name, 0, 4), (Name, 5, 7), (End, 7, 7)]),
        (b"%zx32(", &[(Prim, 0, 5), (Punct, 5, 6), (End, 6, 6)]),
        (b"%_%A", &[(Prim, 0, 2), (Prim, 2, 4), (End, 4, 4)]),
        (
            b"0 007 0x1F 0xaB",
            &[
                (Number, 0, 1),
                (Number, 2, 5),
                (Number, 6, 10),
                (Number, 11, 15),
                (End, 15, 15),
            ],
        ),
        (b"0x", &[(Number, 0, 1), (Name, 1, 2), (End, 2, 2)]),
        (b"0xg", &[(Number, 0, 1), (Name, 1, 3), (End, 3, 3)]),
        (b"0X1", &[(Number, 0, 1), (Name, 1, 3), (End, 3, 3)]),
        (b"12ab", &[(Number, 0, 2), (Name, 2, 4), (End, 4, 4)]),
        (b"0x1g", &[(Number, 0, 3), (Name, 3, 4), (End, 4, 4)]),
        (b"00x1", &[(Number, 0, 2), (Name, 2, 4), (End, 4, 4)]),
        (&[b'7'; 400], &[(Number, 0, 400), (End, 400, 400)]),
    ];
    expect_tokens(&rt, rt.alloc(), &rows);
}

#[test]
fn strings_and_punctuation(rt: HostRuntime) {
    let rows: [(&[u8], Spans); 8] = [
        (b"\"\"", &[(Str, 0, 2), (End, 2, 2)]),
        (b"\" ~!\" \"a\"", &[(Str, 0, 5), (Str, 6, 9), (End, 9, 9)]),
        (
            b"()[]{}",
            &[
                (Punct, 0, 1),
                (Punct, 1, 2),
                (Punct, 2, 3),
                (Punct, 3, 4),
                (Punct, 4, 5),
                (Punct, 5, 6),
                (End, 6, 6),
            ],
        ),
        (
            b",;:=|&/",
            &[
                (Punct, 0, 1),
                (Punct, 1, 2),
                (Punct, 2, 4),
                (Punct, 4, 5),
                (Punct, 5, 6),
                (Punct, 6, 7),
                (End, 7, 7),
            ],
        ),
        (
            b".'-@:",
            &[
                (Punct, 0, 1),
                (Punct, 1, 2),
                (Punct, 2, 3),
                (Punct, 3, 4),
                (Punct, 4, 5),
                (End, 5, 5),
            ],
        ),
        (b"::=", &[(Punct, 0, 1), (Punct, 1, 3), (End, 3, 3)]),
        (b"==>", &[(Punct, 0, 1), (Punct, 1, 3), (End, 3, 3)]),
        (b"...", &[(Punct, 0, 2), (Punct, 2, 3), (End, 3, 3)]),
    ];
    expect_tokens(&rt, rt.alloc(), &rows);
}

#[test]
fn comments(rt: HostRuntime) {
    let rows: [(&[u8], Spans); 8] = [
        (b"a// b\nc", &[(Name, 0, 1), (Name, 6, 7), (End, 7, 7)]),
        (b"a//", &[(Name, 0, 1), (End, 3, 3)]),
        (b"//a\rb", &[(End, 5, 5)]),
        (b"a/**/b", &[(Name, 0, 1), (Name, 5, 6), (End, 6, 6)]),
        (b"/*/*/", &[(End, 5, 5)]),
        (b"/***/x", &[(Name, 5, 6), (End, 6, 6)]),
        (b"/* \n // */.", &[(Punct, 10, 11), (End, 11, 11)]),
        (b"/a", &[(Punct, 0, 1), (Name, 1, 2), (End, 2, 2)]),
    ];
    expect_tokens(&rt, rt.alloc(), &rows);
}

#[test]
fn bad_bytes(rt: HostRuntime) {
    let rows: [(&[u8], usize); 15] = [
        (b"\x00a", 0),
        (b"a\x80", 1),
        (b"%", 0),
        (b"a % b", 2),
        (b"%1", 0),
        (b"%%a", 0),
        (b"a\"b", 1),
        (b"\"a\nb\"", 0),
        (b"\"\\\"", 0),
        (b"\"\x7f\"", 0),
        (b":=>", 2),
        (b"a*/", 1),
        (b"/*/", 0),
        (b"a /* b", 2),
        (b"// a\n\n#", 6),
    ];
    expect_bad_bytes(&rt, rt.alloc(), &rows);
}

#[test]
fn the_text_of_a_token(rt: HostRuntime) -> Result<(), NoMemory> {
    let token = Token {
        kind: Name,
        start: 2,
        end: 4,
    };
    let text = Text::new(rt.alloc(), text_of(b"a bc d", &token))?;
    assert_eq!(rt; text.bytes(), b"bc".as_slice());
    Ok(())
}

#[test]
fn values_of_numerals(rt: HostRuntime) {
    let rows: [(&[u8], u128); 8] = [
        (b"0", 0),
        (b"00120", 120),
        (b"0x0fA9", 4009),
        (b"18446744073709551615", 18446744073709551615),
        (b"18446744073709551616", 18446744073709551616),
        (b"18446744073709551617", 18446744073709551616),
        (b"0xFFFFFFFFFFFFFFFF", 18446744073709551615),
        (&[b'9'; 400], 18446744073709551616),
    ];
    for &(text, value) in &rows {
        assert_eq!(rt; number_value(text), value, "of {text:?}");
    }
}

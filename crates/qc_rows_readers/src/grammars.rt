//! The cursor, the answer of a reader, and the limit on open brackets.
use qc_grammar::{ClassedToken, Cursor, ReadError, Stop, begin, settle};
use qc_text::{Kind, Token};
use std::test::Fail;

const SOURCE: &[u8] = b"let letter ( 12 ) 7";

/// A word, a name, a bracket, a number, a bracket, and a number of the grammar.
const TOKENS: [ClassedToken; 7] = [
    ClassedToken {
        token: Token {
            kind: Kind::Name,
            start: 0,
            end: 3,
        },
        is_word: true,
    },
    ClassedToken {
        token: Token {
            kind: Kind::Name,
            start: 4,
            end: 10,
        },
        is_word: false,
    },
    ClassedToken {
        token: Token {
            kind: Kind::Punct,
            start: 11,
            end: 12,
        },
        is_word: true,
    },
    ClassedToken {
        token: Token {
            kind: Kind::Number,
            start: 13,
            end: 15,
        },
        is_word: false,
    },
    ClassedToken {
        token: Token {
            kind: Kind::Punct,
            start: 16,
            end: 17,
        },
        is_word: true,
    },
    ClassedToken {
        token: Token {
            kind: Kind::Number,
            start: 18,
            end: 19,
        },
        is_word: true,
    },
    ClassedToken {
        token: Token {
            kind: Kind::End,
            start: 19,
            end: 19,
        },
        is_word: false,
    },
];

#[test]
fn takes_what_fits(rt: HostRuntime) -> Result<(), Fail> {
    let mut cursor = Cursor::new(SOURCE, &TOKENS);
    // A reserved word is a word and no name, and a name that begins like it is a name.
    assert!(rt; cursor.is_word(b"let") && !cursor.is_any(Kind::Name));
    assert_eq!(rt; cursor.word(b"("), Err(Stop::At(7)));
    assert_eq!(rt; cursor.word(b"let"), Ok(0));
    assert!(rt; !cursor.is_word(b"letter") && cursor.is_any(Kind::Name));
    match cursor.ident(rt.alloc(), Kind::Name) {
        Ok(name) => {
            assert_eq!(rt; name.token, 1);
            assert_eq!(rt; name.text.as_slice(), b"letter".as_slice());
        }
        Err(_) => assert!(rt; false),
    }
    assert_eq!(rt; cursor.word(b"("), Ok(2));
    assert_eq!(rt; cursor.end(), Err(Stop::At(4)));
    assert!(rt; cursor.is_any(Kind::Number) && !cursor.is_value(12));
    match cursor.number() {
        Ok(number) => assert!(rt; number.token == 3 && number.value == 12),
        Err(_) => assert!(rt; false),
    }
    assert_eq!(rt; cursor.word(b")"), Ok(4));
    // A number of the grammar is no number, and has its value.
    assert!(rt; cursor.is_value(7) && !cursor.is_any(Kind::Number));
    assert_eq!(rt; cursor.value(8), Err(Stop::At(2)));
    assert_eq!(rt; cursor.value(7), Ok(5));
    assert_eq!(rt; cursor.end(), Ok(6));
    Ok(())
}

#[test]
fn settles_by_what_is_left(rt: HostRuntime) {
    // Of nine tokens, that with three left; the bracket where none is left.
    assert_eq!(rt;
        settle(Err::<u8, Stop>(Stop::At(3)), Some(8), 9, 3),
        Err(ReadError::Syntax { token: 6 })
    );
    assert_eq!(rt;
        settle(Err::<u8, Stop>(Stop::At(0)), Some(8), 9, 0),
        Err(ReadError::TooDeep { token: 8 })
    );
    assert_eq!(rt; settle(Ok::<u8, Stop>(7), None, 9, 0), Ok(7));
    assert_eq!(rt;
        settle(Ok::<u8, Stop>(7), None, 9, 1),
        Err(ReadError::Syntax { token: 8 })
    );
}

#[test]
fn counts_200_open_brackets(rt: HostRuntime) {
    let bracket = ClassedToken {
        token: Token {
            kind: Kind::Punct,
            start: 11,
            end: 12,
        },
        is_word: true,
    };
    let few = [bracket; 200];
    let many = [bracket; 203];
    assert_eq!(rt; begin(SOURCE, &few).1, None);
    let (cursor, deep) = begin(SOURCE, &many);
    assert_eq!(rt; deep, Some(200));
    assert_eq!(rt; cursor.left(), 201);
}

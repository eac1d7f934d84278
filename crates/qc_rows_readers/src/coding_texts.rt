//! Coding texts: read, refused, and printed.
use crate::pieces::{joined, put_times};
use qc_grammar::{Ident, Number, ReadTextEnd, ReadTextFault};
use qc_sled::{Item, Param, Pattern, Reach, Value, read_sled, write_sled};
use std::alloc::{AllocError, Global};
use std::process::Abort;

const TIN32: &[u8] = b"coding tin32
fields t 32 (op 7 : 0, a 11 : 8, rest 31 : 12)
fields imm32 32 (i 31 : 0)
constructor const (d, k) is op = 2 & a = d & rest = 0 ; i = k
constructor op_out (s) is op = 38 & a = s & rest = 0 ; i = 0
constructor op_halt (s) is op = 39 & a = s & rest = 0 ; i = 0
";

/// Each text has a tree, with so many items.
fn expect_items(rt: &impl Abort, alloc: Global, rows: &[(&[u8], usize)]) {
    for &(text, items) in rows {
        let raw = read_sled(alloc, text).expect(rt, "a tree");
        assert_eq!(rt; raw.items.len(), items, "of {text:?}");
    }
}

fn expect_fault(rt: &impl Abort, alloc: Global, text: &[u8], fault: ReadTextFault) {
    let Err(end) = read_sled(alloc, text) else {
        panic!(rt; "{text:?} has a tree");
    };
    assert_eq!(rt; end, ReadTextEnd::Fault { fault }, "in {text:?}");
}

/// The token with this number is the first with which no text begins.
fn expect_syntax(rt: &impl Abort, alloc: Global, rows: &[(&[u8], usize)]) {
    for &(text, token) in rows {
        expect_fault(rt, alloc, text, ReadTextFault::Syntax { token });
    }
}

fn is_ident(ident: &Ident, token: usize, text: &[u8]) -> bool {
    ident.token == token && ident.text.as_slice() == text
}

fn is_number(number: &Number, token: usize, value: u128) -> bool {
    *number == Number { token, value }
}

/// Texts of the grammar, and their counts of items.
const TEXTS: [(&[u8], usize); 14] = [
    (b"coding c", 0),
    (b"coding _Coding9", 0),
    (b"coding c fields t 32(op 31:26)", 1),
    (b"coding c fields t 8(a 7:4,b 3:0)fields u 16(c 15:0)", 2),
    (b"coding c pattern p is a=1", 1),
    (b"coding c pattern p is q", 1),
    (b"coding c pattern p is a=1&b=2;c=3|d", 1),
    (b"coding c pattern p is(a=1|b=0x2);(c&(d;e))", 1),
    (b"coding c constructor f()is p", 1),
    (
        b"coding c constructor f(a,b:rel 16,c:abs 26)is x=a&y=b{15 .. 2};z=c",
        1,
    ),
    (
        b"coding c constructor f(a)is x=a{3..0}constructor g(b:rel 8)is p|(q)pattern r is s",
        3,
    ),
    (
        b"/*;*/ coding // fields\n c /**/ pattern /* /* */ p is // is\n a",
        1,
    ),
    (b"\t\r\ncoding codings pattern relative is isa", 1),
    (TIN32, 5),
];

#[test]
fn texts_of_the_grammar(rt: HostRuntime) {
    expect_items(&rt, rt.alloc(), &TEXTS);
}

/// Texts with a fault in an item, and the number of the first token with which no text begins.
const BAD_ITEMS: [(&[u8], usize); 24] = [
    (b"", 0),
    (b"coding", 1),
    (b"fields t 8(a 7:0)", 0),
    (b"coding \"c\"", 1),
    (b"coding %c", 1),
    (b"coding c;", 2),
    (b"coding c field t 8(a 7:0)", 2),
    (b"coding c fields t(a 7:0)", 4),
    (b"coding c fields t 8", 5),
    (b"coding c fields t 8()", 6),
    (b"coding c fields t 8(a 7:0,)", 11),
    (b"coding c fields t 8(a 7)", 8),
    (b"coding c fields t 8(a 7 .. 0)", 8),
    (b"coding c fields t 8(a 7:0", 10),
    (b"coding c pattern p a=1", 4),
    (b"coding c constructor f is p", 4),
    (b"coding c constructor f(a,)is p", 7),
    (b"coding c constructor f(a b)is p", 6),
    (b"coding c constructor f(a:)is p", 7),
    (b"coding c constructor f(a:rel)is p", 8),
    (b"coding c constructor f(a:imm 8)is p", 7),
    (b"coding c constructor f(a:abs x)is p", 8),
    (b"coding c constructor f(a)p", 7),
    (b"coding c constructor f()is p;", 9),
];

#[test]
fn syntax_of_items(rt: HostRuntime) {
    expect_syntax(&rt, rt.alloc(), &BAD_ITEMS);
}

/// Texts with a fault in a pattern, and the number of the first token with which no text begins.
const BAD_PATTERNS: [(&[u8], usize); 18] = [
    (b"coding c pattern p is", 5),
    (b"coding c pattern p is 1", 5),
    (b"coding c pattern p is a=", 7),
    (b"coding c pattern p is a==1", 7),
    (b"coding c pattern p is a=(b)", 7),
    (b"coding c pattern p is a&", 7),
    (b"coding c pattern p is a;|b", 7),
    (b"coding c pattern p is a|;b", 7),
    (b"coding c pattern p is a b", 6),
    (b"coding c pattern p is(a", 7),
    (b"coding c pattern p is()", 6),
    (b"coding c pattern p is a)", 6),
    (b"coding c pattern p is a(b)", 6),
    (b"coding c pattern p is a{3..0}", 6),
    (b"coding c pattern p is a=1{3..0}", 8),
    (b"coding c pattern p is a=b{3:0}", 10),
    (b"coding c pattern p is a=b{..0}", 9),
    (b"coding c pattern p is a=b{3..0", 12),
];

#[test]
fn syntax_of_patterns(rt: HostRuntime) {
    expect_syntax(&rt, rt.alloc(), &BAD_PATTERNS);
}

/// Texts, and the byte at which no token begins.
const BAD_BYTES: [(&[u8], usize); 6] = [
    (b"\x00coding c", 0),
    (b"coding c#", 8),
    (b"coding c\"", 8),
    (b"coding c /* fields", 9),
    (b"coding c pattern p is a=1 + b", 26),
    (b"((((%", 4),
];

#[test]
fn bad_bytes(rt: HostRuntime) {
    for (text, at) in BAD_BYTES {
        expect_fault(&rt, rt.alloc(), text, ReadTextFault::BadByte { at });
    }
}

/// A pattern with so many open brackets, and so many closed ones.
fn nested(alloc: Global, inner: &[u8], open: usize, closed: usize) -> Result<Vec<u8>, AllocError> {
    let mut text = Vec::from_slice(alloc, b"coding c pattern p is")?;
    put_times(&mut text, b"(", open)?;
    text.extend_from_slice(inner)?;
    put_times(&mut text, b")", closed)?;
    Ok(text)
}

/// What stands in so many open and so many closed brackets, and the fault.
const BRACKETS: [(&[u8], usize, usize, ReadTextFault); 6] = [
    (b"a", 201, 201, ReadTextFault::TooDeep { token: 205 }),
    (b"a", 250, 0, ReadTextFault::TooDeep { token: 205 }),
    (
        b"b=a{1..0}",
        200,
        200,
        ReadTextFault::TooDeep { token: 208 },
    ),
    (b"a", 200, 199, ReadTextFault::Syntax { token: 405 }),
    (b"a=(", 200, 200, ReadTextFault::Syntax { token: 207 }),
    (b"a a(", 200, 200, ReadTextFault::Syntax { token: 206 }),
];

#[test]
fn brackets(rt: HostRuntime) -> Result<(), AllocError> {
    let text = nested(rt.alloc(), b"a", 200, 200)?;
    expect_items(&rt, rt.alloc(), &[(text.as_slice(), 1)]);
    for (inner, open, closed, fault) in BRACKETS {
        let text = nested(rt.alloc(), inner, open, closed)?;
        expect_fault(&rt, rt.alloc(), text.as_slice(), fault);
    }
    Ok(())
}

/// The reserved words.
const RESERVED_WORDS: [&[u8]; 7] = [
    b"coding",
    b"fields",
    b"pattern",
    b"is",
    b"constructor",
    b"rel",
    b"abs",
];

#[test]
fn reserved_words_are_no_names(rt: HostRuntime) -> Result<(), AllocError> {
    for word in RESERVED_WORDS {
        let text = joined(rt.alloc(), b"coding c pattern p is a=", word, b"")?;
        let fault = ReadTextFault::Syntax { token: 7 };
        expect_fault(&rt, rt.alloc(), text.as_slice(), fault);
    }
    Ok(())
}

/// The number 7 so many times.
const SEVENS: [u8; 400] = [b'7'; 400];

/// Numerals, and their numbers; one of 65 bits stands for all that have more than 64.
const NUMBERS: [(&[u8], u128); 6] = [
    (b"0", 0),
    (b"0x0fA9", 4009),
    (b"18446744073709551615", 18446744073709551615),
    (b"0x10000000000000000", 18446744073709551616),
    (b"18446744073709551617", 18446744073709551616),
    (&SEVENS, 18446744073709551616),
];

/// A numeral has this number.
fn expect_number(rt: &impl Abort, alloc: Global, digits: &[u8], value: u128) {
    let text = joined(alloc, b"coding c fields t ", digits, b"(a 0:0)").expect(rt, "memory");
    let raw = read_sled(alloc, text.as_slice()).expect(rt, "a tree");
    let [
        Item::Fields {
            token: 2,
            name: _,
            bits,
            fields: _,
        },
    ] = raw.items.as_slice()
    else {
        panic!(rt; "another item");
    };
    assert!(rt; is_number(bits, 4, value), "of {digits:?}");
}

#[test]
fn numbers(rt: HostRuntime) {
    for (digits, value) in NUMBERS {
        expect_number(&rt, rt.alloc(), digits, value);
    }
}

fn alternatives<'a>(rt: &impl Abort, pattern: &'a Pattern) -> &'a [Pattern] {
    let Pattern::Alternatives { parts } = pattern else {
        panic!(rt; "no alternatives");
    };
    parts.as_slice()
}

fn sequence<'a>(rt: &impl Abort, pattern: &'a Pattern) -> &'a [Pattern] {
    let Pattern::Sequence { parts } = pattern else {
        panic!(rt; "no sequence");
    };
    parts.as_slice()
}

fn conjunction<'a>(rt: &impl Abort, pattern: &'a Pattern) -> &'a [Pattern] {
    let Pattern::Conjunction { parts } = pattern else {
        panic!(rt; "no conjunction");
    };
    parts.as_slice()
}

#[test]
fn the_tree_of_fields(rt: HostRuntime) {
    let text = b"coding c fields t 0x20 (op 31 : 26, a 7 : 0)";
    let raw = read_sled(rt.alloc(), text).expect(&rt, "a tree");
    assert!(rt; is_ident(&raw.name, 1, b"c"));
    let [
        Item::Fields {
            token: 2,
            name,
            bits,
            fields,
        },
    ] = raw.items.as_slice()
    else {
        panic!(&rt; "another item");
    };
    assert!(rt; is_ident(name, 3, b"t") && is_number(bits, 4, 32));
    let [first, second] = fields.as_slice() else {
        panic!(&rt; "other fields");
    };
    assert!(rt; is_ident(&first.name, 6, b"op"));
    assert!(rt; is_number(&first.high, 7, 31) && is_number(&first.low, 9, 26));
    assert!(rt; is_ident(&second.name, 11, b"a"));
    assert!(rt; is_number(&second.high, 12, 7) && is_number(&second.low, 14, 0));
}

/// The one sequence of a pattern with no alternative.
fn only_sequence<'a>(rt: &impl Abort, pattern: &'a Pattern) -> &'a [Pattern] {
    let [only] = alternatives(rt, pattern) else {
        panic!(rt; "other alternatives");
    };
    sequence(rt, only)
}

/// The conjunction `a = 1 & q`, whose first token is the 5th.
fn expect_number_and_name(rt: &impl Abort, pattern: &Pattern) {
    let [Pattern::Equal { field, value }, Pattern::Name { name }] = conjunction(rt, pattern) else {
        panic!(rt; "another conjunction");
    };
    let Value::Number { value } = value.get() else {
        panic!(rt; "no number");
    };
    assert!(rt; is_ident(field, 5, b"a") && is_number(value, 7, 1) && is_ident(name, 9, b"q"));
}

/// A conjunction of one field that is an operand.
fn expect_operand(
    rt: &impl Abort,
    pattern: &Pattern,
    of_field: (usize, &[u8]),
    of_name: (usize, &[u8]),
) {
    let [Pattern::Equal { field, value }] = conjunction(rt, pattern) else {
        panic!(rt; "another conjunction");
    };
    let Value::Operand { name } = value.get() else {
        panic!(rt; "no operand");
    };
    assert!(rt; is_ident(field, of_field.0, of_field.1));
    assert!(rt; is_ident(name, of_name.0, of_name.1));
}

/// The group `(b = d)`, whose first token is the 11th.
fn expect_group(rt: &impl Abort, pattern: &Pattern) {
    let [Pattern::Group { token: 11, inner }] = conjunction(rt, pattern) else {
        panic!(rt; "no group");
    };
    let [inner] = only_sequence(rt, inner.get()) else {
        panic!(rt; "another sequence");
    };
    expect_operand(rt, inner, (12, b"b"), (14, b"d"));
}

/// The name `r`, which is the 17th token.
fn expect_name(rt: &impl Abort, pattern: &Pattern) {
    let [only] = sequence(rt, pattern) else {
        panic!(rt; "another sequence");
    };
    let [Pattern::Name { name }] = conjunction(rt, only) else {
        panic!(rt; "another conjunction");
    };
    assert!(rt; is_ident(name, 17, b"r"));
}

#[test]
fn the_tree_of_a_pattern(rt: HostRuntime) {
    let text = b"coding c pattern p is a = 1 & q ; (b = d) | r";
    let raw = read_sled(rt.alloc(), text).expect(&rt, "a tree");
    let [
        Item::Pattern {
            token: 2,
            name,
            body,
        },
    ] = raw.items.as_slice()
    else {
        panic!(&rt; "another item");
    };
    assert!(rt; is_ident(name, 3, b"p"));
    let [first, second] = alternatives(&rt, body) else {
        panic!(&rt; "other alternatives");
    };
    let [front, back] = sequence(&rt, first) else {
        panic!(&rt; "another sequence");
    };
    expect_number_and_name(&rt, front);
    expect_group(&rt, back);
    expect_name(&rt, second);
}

/// The parameters `a, b : rel 16, k : abs 26`, whose first token is the 5th.
fn expect_params(rt: &impl Abort, params: &[Param]) {
    let [first, second, third] = params else {
        panic!(rt; "other parameters");
    };
    assert!(rt; is_ident(&first.name, 5, b"a") && first.reach.is_none());
    assert!(rt; is_ident(&second.name, 7, b"b") && is_ident(&third.name, 12, b"k"));
    let Some(Reach::Relative { token: 9, bits }) = &second.reach else {
        panic!(rt; "another second reach");
    };
    assert!(rt; is_number(bits, 10, 16));
    let Some(Reach::Absolute { token: 14, bits }) = &third.reach else {
        panic!(rt; "another third reach");
    };
    assert!(rt; is_number(bits, 15, 26));
}

/// The pattern `x = b {15 .. 2}`, whose first token is the 18th.
fn expect_bits(rt: &impl Abort, pattern: &Pattern) {
    let [only] = only_sequence(rt, pattern) else {
        panic!(rt; "another sequence");
    };
    let [Pattern::Equal { field, value }] = conjunction(rt, only) else {
        panic!(rt; "another conjunction");
    };
    let Value::Bits { name, high, low } = value.get() else {
        panic!(rt; "no bits");
    };
    assert!(rt; is_ident(field, 18, b"x") && is_ident(name, 20, b"b"));
    assert!(rt; is_number(high, 22, 15) && is_number(low, 24, 2));
}

#[test]
fn the_tree_of_a_constructor(rt: HostRuntime) {
    let text = b"coding c constructor f (a, b : rel 16, k : abs 26) is x = b {15 .. 2}";
    let raw = read_sled(rt.alloc(), text).expect(&rt, "a tree");
    let [
        Item::Constructor {
            token: 2,
            name,
            params,
            body,
        },
    ] = raw.items.as_slice()
    else {
        panic!(&rt; "another item");
    };
    assert!(rt; is_ident(name, 3, b"f"));
    expect_params(&rt, params.as_slice());
    expect_bits(&rt, body);
}

#[test]
fn the_tree_of_const_of_tin32(rt: HostRuntime) {
    let raw = read_sled(rt.alloc(), TIN32).expect(&rt, "a tree");
    let [
        _,
        _,
        Item::Constructor {
            token: 30,
            name,
            params,
            body,
        },
        _,
        _,
    ] = raw.items.as_slice()
    else {
        panic!(&rt; "another item");
    };
    assert!(rt; is_ident(name, 31, b"const"));
    assert_eq!(rt; params.len(), 2);
    let [front, back] = only_sequence(&rt, body) else {
        panic!(&rt; "another sequence");
    };
    assert_eq!(rt; conjunction(&rt, front).len(), 3);
    expect_operand(&rt, back, (50, b"i"), (52, b"k"));
}

/// The text that is written for the tree of a text.
fn rewritten(rt: &impl Abort, alloc: Global, text: &[u8]) -> Vec<u8> {
    let raw = read_sled(alloc, text).expect(rt, "a tree");
    write_sled(alloc, &raw).expect(rt, "memory")
}

/// A text is printed so, and what is printed is read and printed as the same bytes.
fn expect_printed(rt: &impl Abort, alloc: Global, text: &[u8], printed: &[u8]) {
    assert_eq!(rt; rewritten(rt, alloc, text).as_slice(), printed);
    assert_eq!(rt; rewritten(rt, alloc, printed).as_slice(), printed);
}

/// Texts, and what is printed of their trees.
const PRINTED: [(&[u8], &[u8]); 6] = [
    (b"coding c", b"coding c "),
    (
        b"coding c fields t 0x20(op 31:26,a 0x7 : 0)",
        b"coding c fields t 32 ( op 31 : 26 , a 7 : 0 ) ",
    ),
    (
        b"coding c pattern p is a=1&q;(b=k{15..2})|r",
        b"coding c pattern p is a = 1 & q ; ( b = k { 15 .. 2 } ) | r ",
    ),
    (
        b"coding c constructor f()is((x)|y)",
        b"coding c constructor f ( ) is ( ( x ) | y ) ",
    ),
    (
        b"coding c constructor f(a,b:rel 16,k:abs 26)is x=a // k",
        b"coding c constructor f ( a , b : rel 16 , k : abs 26 ) is x = a ",
    ),
    (
        b"coding c fields t 99999999999999999999(a 0:0)",
        b"coding c fields t 18446744073709551616 ( a 0 : 0 ) ",
    ),
];

#[test]
fn prints_and_reads_again(rt: HostRuntime) {
    for (text, printed) in PRINTED {
        expect_printed(&rt, rt.alloc(), text, printed);
    }
}

//! Machine texts: read, refused, and printed.
use crate::pieces::{joined, put_times};
use qc_grammar::{Ident, Number, ReadTextEnd, ReadTextFault};
use qc_lrtl::{Expr, Guard, Item, Operand, OperandKind, Param, Simple, read_lrtl, write_lrtl};
use std::alloc::{AllocError, Global};
use std::process::Abort;

/// Each text has a tree, with so many items.
fn expect_items(rt: &impl Abort, alloc: Global, rows: &[(&[u8], usize)]) {
    for &(text, items) in rows {
        let raw = read_lrtl(alloc, text).expect(rt, "a tree");
        assert_eq!(rt; raw.items.len(), items, "of {text:?}");
    }
}

fn expect_fault(rt: &impl Abort, alloc: Global, text: &[u8], fault: ReadTextFault) {
    let Err(end) = read_lrtl(alloc, text) else {
        panic!(rt; "{text:?} has a tree");
    };
    assert_eq!(rt; end, ReadTextEnd::Fault { fault }, "in {text:?}");
}

/// The token with this number is the first with which no text begins.
fn expect_syntax(rt: &impl Abort, alloc: Global, rows: &[(&[u8], usize)]) {
    for &(text, token) in rows {
        expect_fault(rt, alloc, text, ReadTextFault::Syntax { token });
    }
}

fn is_ident(ident: &Ident, token: usize, text: &[u8]) -> bool {
    ident.token == token && ident.text.as_slice() == text
}

fn is_number(number: &Number, token: usize, value: u128) -> bool {
    *number == Number { token, value }
}

/// Texts of the grammar, and their counts of items.
const TEXTS: [(&[u8], usize); 16] = [
    (b"machine m;", 0),
    (b"machine _Machine9;", 0),
    (
        b"machine m;word 32;byteorder little;align 2;slotbits 12;memory 0x1000000;code 0x80000;data 0x800000;",
        7,
    ),
    (b"machine m;byteorder big;", 1),
    (
        b"machine m;space r 32 cells 32 bits;space f 3 cells 1 bits flags;",
        2,
    ),
    (
        b"machine m;zero r 0;frame r 2;link r 1;allocatable r 5 .. 31;",
        4,
    ),
    (
        b"machine m;fun f()=input;fun g(a)=a;fun h(a,b/2)=b(a,1'32);",
        3,
    ),
    (b"machine m;eff e()=out:=after;eff d(a)=a:=1'8|pc:=a;", 2),
    (
        b"machine m;instr i()=halt:=r[0];instr j(a:r,b:imm 12,c:addr)=a:=add(b,c);",
        2,
    ),
    (
        b"machine m;instr i(a:r)=when eq(a,0'32)=>pc:=after|when a=>e(a,1'1)|e();",
        1,
    ),
    (b"machine m;instr i()=mem 8[1'32]:=slice 0 8(r[3]);", 1),
    (
        b"machine m;instr i()=r[2]:=zx 32(mem 16[sx 32(slice 20 12(x))])|trap:=1'8;",
        1,
    ),
    (
        b"machine m;fun f(a)=f(g(f(a),g()),r[0x1F],h(f(f(a)),1'1));",
        1,
    ),
    (
        b"/*;*/ machine // ;\n m /**/ ; /* /* */ word/*16*/32 ; // machine",
        1,
    ),
    (b"\t\r\nmachine words;word 1;word 1;", 2),
    (
        b"machine m;word 99999999999999999999999999999999999999999;",
        1,
    ),
];

#[test]
fn texts_of_the_grammar(rt: HostRuntime) {
    expect_items(&rt, rt.alloc(), &TEXTS);
}

/// Texts with a fault in an item, and the number of the first token with which no text begins.
const BAD_ITEMS: [(&[u8], usize); 22] = [
    (b"", 0),
    (b"machine", 1),
    (b"machine m", 2),
    (b"word 32;", 0),
    (b"machine m;word 32", 5),
    (b"machine m;word 32 word 32;", 5),
    (b"machine m;word;", 4),
    (b"machine m;word 32;;", 6),
    (b"machine m;word @ 32;", 4),
    (b"machine m;\"word\" 32;", 3),
    (b"machine m;%word 32;", 3),
    (b"machine m;16 32;", 3),
    (b"machine m;cells 32;", 3),
    (b"machine m;byteorder middle;", 4),
    (b"machine m;space r 32 cells 32;", 8),
    (b"machine m;allocatable r 5 . 31;", 6),
    (b"machine m;fun f(a,)=a;", 8),
    (b"machine m;fun f(a/)=a;", 8),
    (b"machine m;instr i(a)=pc:=a;", 7),
    (b"machine m;instr i(a:imm)=pc:=a;", 9),
    (b"machine m;instr i(a:12)=pc:=a;", 8),
    (b"machine m; /* word 8 */ word // 16", 4),
];

#[test]
fn syntax_of_items(rt: HostRuntime) {
    expect_syntax(&rt, rt.alloc(), &BAD_ITEMS);
}

/// Texts with a fault in a body, and the number of the first token with which no text begins.
const BAD_BODIES: [(&[u8], usize); 18] = [
    (b"machine m;fun f(a)=;", 9),
    (b"machine m;fun f(a)=1;", 10),
    (b"machine m;fun f(a)=a(1'8,);", 15),
    (b"machine m;fun f(a)=a[b];", 11),
    (b"machine m;fun f(a)=(a);", 9),
    (b"machine m;fun f(a)=zx(a);", 10),
    (b"machine m;fun f(a)=slice 0(a);", 11),
    (b"machine m;fun f(a)=mem 8(a);", 11),
    (b"machine m;fun f(a)=f(a)[1];", 13),
    (b"machine m;fun f(a)=pc;", 9),
    (b"machine m;eff e()=;", 8),
    (b"machine m;eff e()=a;", 9),
    (b"machine m;eff e()=a:=1'8|;", 14),
    (b"machine m;eff e()=when a;", 10),
    (b"machine m;eff e()=when a=>when b=>c();", 11),
    (b"machine m;eff e()=pc=a;", 9),
    (b"machine m;eff e()=a[1]=2;", 12),
    (b"machine m;instr i()=input:=a;", 8),
];

#[test]
fn syntax_of_bodies(rt: HostRuntime) {
    expect_syntax(&rt, rt.alloc(), &BAD_BODIES);
}

/// Texts, and the byte at which no token begins.
const BAD_BYTES: [(&[u8], usize); 6] = [
    (b"\x00machine m;", 0),
    (b"machine ;#", 9),
    (b"machine m;\"word", 10),
    (b"machine m; /* word 32;", 11),
    (b"machine m;word 32;*/", 18),
    (b"((((%", 4),
];

#[test]
fn bad_bytes(rt: HostRuntime) {
    for (text, at) in BAD_BYTES {
        expect_fault(&rt, rt.alloc(), text, ReadTextFault::BadByte { at });
    }
}

/// A function with so many open brackets in its body, and so many closed ones.
fn nested(alloc: Global, inner: &[u8], open: usize, closed: usize) -> Result<Vec<u8>, AllocError> {
    let mut text = Vec::from_slice(alloc, b"machine m;fun f(a)=")?;
    put_times(&mut text, b"f(", open)?;
    text.extend_from_slice(inner)?;
    put_times(&mut text, b")", closed)?;
    text.push(b';')?;
    Ok(text)
}

/// What stands in so many open and so many closed brackets, and the fault.
const BRACKETS: [(&[u8], usize, usize, ReadTextFault); 6] = [
    (b"a", 201, 201, ReadTextFault::TooDeep { token: 410 }),
    (b"a", 250, 0, ReadTextFault::TooDeep { token: 410 }),
    (b"r[1]", 200, 200, ReadTextFault::TooDeep { token: 410 }),
    (b"a", 200, 199, ReadTextFault::Syntax { token: 609 }),
    (b"(a)", 200, 200, ReadTextFault::Syntax { token: 409 }),
    (b"a 1 f(", 200, 200, ReadTextFault::Syntax { token: 410 }),
];

#[test]
fn brackets(rt: HostRuntime) -> Result<(), AllocError> {
    let text = nested(rt.alloc(), b"a", 200, 200)?;
    expect_items(&rt, rt.alloc(), &[(text.as_slice(), 1)]);
    for (inner, open, closed, fault) in BRACKETS {
        let text = nested(rt.alloc(), inner, open, closed)?;
        expect_fault(&rt, rt.alloc(), text.as_slice(), fault);
    }
    Ok(())
}

/// The reserved words.
const RESERVED_WORDS: [&[u8]; 34] = [
    b"machine",
    b"word",
    b"byteorder",
    b"little",
    b"big",
    b"align",
    b"slotbits",
    b"memory",
    b"code",
    b"data",
    b"space",
    b"cells",
    b"bits",
    b"flags",
    b"zero",
    b"frame",
    b"link",
    b"allocatable",
    b"fun",
    b"eff",
    b"instr",
    b"imm",
    b"addr",
    b"when",
    b"pc",
    b"out",
    b"halt",
    b"trap",
    b"mem",
    b"input",
    b"after",
    b"zx",
    b"sx",
    b"slice",
];

#[test]
fn reserved_words_are_no_names(rt: HostRuntime) -> Result<(), AllocError> {
    for word in RESERVED_WORDS {
        let text = joined(rt.alloc(), b"machine m;zero ", word, b" 0;")?;
        let fault = ReadTextFault::Syntax { token: 4 };
        expect_fault(&rt, rt.alloc(), text.as_slice(), fault);
    }
    Ok(())
}

/// The number 7 so many times.
const SEVENS: [u8; 400] = [b'7'; 400];

/// Numerals, and their numbers; one of 65 bits stands for all that have more than 64.
const NUMBERS: [(&[u8], u128); 6] = [
    (b"0", 0),
    (b"0x0fA9", 4009),
    (b"18446744073709551615", 18446744073709551615),
    (b"0x10000000000000000", 18446744073709551616),
    (b"18446744073709551617", 18446744073709551616),
    (&SEVENS, 18446744073709551616),
];

/// A numeral has this number.
fn expect_number(rt: &impl Abort, alloc: Global, digits: &[u8], value: u128) {
    let text = joined(alloc, b"machine m;word ", digits, b";").expect(rt, "memory");
    let raw = read_lrtl(alloc, text.as_slice()).expect(rt, "a tree");
    let [Item::Word { token: 3, bits }] = raw.items.as_slice() else {
        panic!(rt; "another item");
    };
    assert!(rt; is_number(bits, 4, value), "of {digits:?}");
}

#[test]
fn numbers(rt: HostRuntime) {
    for (digits, value) in NUMBERS {
        expect_number(&rt, rt.alloc(), digits, value);
    }
}

#[test]
fn the_tree_of_a_function(rt: HostRuntime) {
    let text = b"machine m; fun f(a / 2) = slice 0x10 8 (r[3]);";
    let raw = read_lrtl(rt.alloc(), text).expect(&rt, "a tree");
    assert!(rt; is_ident(&raw.name, 1, b"m"));
    let [
        Item::Function {
            token: 3,
            name,
            params,
            body: Expr::Slice {
                token: 11,
                low,
                bits,
                arg,
            },
        },
    ] = raw.items.as_slice()
    else {
        panic!(&rt; "another item");
    };
    assert!(rt; is_ident(name, 4, b"f"));
    let [
        Param {
            name,
            arity: Some(arity),
        },
    ] = params.as_slice()
    else {
        panic!(&rt; "other parameters");
    };
    assert!(rt; is_ident(name, 6, b"a") && is_number(arity, 8, 2));
    assert!(rt; is_number(low, 12, 16) && is_number(bits, 13, 8));
    let Expr::Cell { space, cell } = arg.get() else {
        panic!(&rt; "another argument");
    };
    assert!(rt; is_ident(space, 15, b"r") && is_number(cell, 17, 3));
}

/// A guard by `sx 8 (a)`, whose first token is the 11th.
fn expect_guard(rt: &impl Abort, guard: &Option<Guard>) {
    let Some(
        Guard {
            token: 11,
            condition: Expr::Sx {
                token: 12,
                bits,
                arg,
            },
        },
    ) = guard
    else {
        panic!(rt; "another guard");
    };
    let Expr::Name { name } = arg.get() else {
        panic!(rt; "another condition");
    };
    assert!(rt; is_number(bits, 13, 8) && is_ident(name, 15, b"a"));
}

/// The effect `pc := 1'32`, whose first token is the 18th.
fn expect_jump(rt: &impl Abort, effect: &Simple) {
    let Simple::Pc {
        token: 18,
        value: Expr::Literal { value, bits },
    } = effect
    else {
        panic!(rt; "another effect");
    };
    assert!(rt; is_number(value, 20, 1) && is_number(bits, 22, 32));
}

/// The effect `mem 8 [after] := input`, whose first token is the 24th.
fn expect_store(rt: &impl Abort, effect: &Simple) {
    let Simple::Mem {
        token: 24,
        bits,
        address: Expr::After { token: 27 },
        value: Expr::Input { token: 30 },
    } = effect
    else {
        panic!(rt; "another effect");
    };
    assert!(rt; is_number(bits, 25, 8));
}

/// The operand `a : r`, whose first token is the 6th.
fn expect_operand(rt: &impl Abort, operands: &[Operand]) {
    let [
        Operand {
            name,
            kind: OperandKind::Register { space },
        },
    ] = operands
    else {
        panic!(rt; "other operands");
    };
    assert!(rt; is_ident(name, 6, b"a") && is_ident(space, 8, b"r"));
}

#[test]
fn the_tree_of_an_instruction(rt: HostRuntime) {
    let text = b"machine m; instr i(a: r) = when sx 8 (a) => pc := 1'32 | mem 8 [after] := input;";
    let raw = read_lrtl(rt.alloc(), text).expect(&rt, "a tree");
    let [
        Item::Instruction {
            token: 3,
            name,
            operands,
            body,
        },
    ] = raw.items.as_slice()
    else {
        panic!(&rt; "another item");
    };
    assert!(rt; is_ident(name, 4, b"i"));
    expect_operand(&rt, operands.as_slice());
    let [first, second] = body.as_slice() else {
        panic!(&rt; "other effects");
    };
    expect_guard(&rt, &first.guard);
    expect_jump(&rt, &first.simple);
    assert!(rt; second.guard.is_none());
    expect_store(&rt, &second.simple);
}

/// The text that is written for the tree of a text.
fn rewritten(rt: &impl Abort, alloc: Global, text: &[u8]) -> Vec<u8> {
    let raw = read_lrtl(alloc, text).expect(rt, "a tree");
    write_lrtl(alloc, &raw).expect(rt, "memory")
}

/// A text is printed so, and what is printed is read and printed as the same bytes.
fn expect_printed(rt: &impl Abort, alloc: Global, text: &[u8], printed: &[u8]) {
    assert_eq!(rt; rewritten(rt, alloc, text).as_slice(), printed);
    assert_eq!(rt; rewritten(rt, alloc, printed).as_slice(), printed);
}

/// Texts, and what is printed of their trees.
const PRINTED: [(&[u8], &[u8]); 13] = [
    (b"machine m;", b"machine m ; "),
    (
        b"machine m;word 0x20;align 2;slotbits 12;",
        b"machine m ; word 32 ; align 2 ; slotbits 12 ; ",
    ),
    (
        b"machine m;byteorder little;byteorder big;",
        b"machine m ; byteorder little ; byteorder big ; ",
    ),
    (
        b"machine m;memory 0x1000000;code 4;data 8;",
        b"machine m ; memory 16777216 ; code 4 ; data 8 ; ",
    ),
    (
        b"machine m;space r 32 cells 32 bits;zero r 0;",
        b"machine m ; space r 32 cells 32 bits ; zero r 0 ; ",
    ),
    (
        b"machine m;space f 3 cells 1 bits flags;",
        b"machine m ; space f 3 cells 1 bits flags ; ",
    ),
    (
        b"machine m;frame r 2;link r 1;allocatable r 5..31;",
        b"machine m ; frame r 2 ; link r 1 ; allocatable r 5 .. 31 ; ",
    ),
    (
        b"machine m;fun f()=input;fun g(a,b/2)=b(a,1'32);",
        b"machine m ; fun f ( ) = input ; fun g ( a , b / 2 ) = b ( a , 1 ' 32 ) ; ",
    ),
    (
        b"machine m;fun g(a)=b(a,r[0x1F],g(),mem 8[after]);",
        b"machine m ; fun g ( a ) = b ( a , r [ 31 ] , g ( ) , mem 8 [ after ] ) ; ",
    ),
    (
        b"machine m;eff e(a)=a:=zx 8(sx 4(slice 0 2(a)))|pc:=a;",
        b"machine m ; eff e ( a ) = a := zx 8 ( sx 4 ( slice 0 2 ( a ) ) ) | pc := a ; ",
    ),
    (
        b"machine m;eff e(a)=r[1]:=a|mem 8[a]:=a|out:=a|e();",
        b"machine m ; eff e ( a ) = r [ 1 ] := a | mem 8 [ a ] := a | out := a | e ( ) ; ",
    ),
    (
        b"machine m;instr j(a:r,b:imm 12,c:addr)=when a=>halt:=c;",
        b"machine m ; instr j ( a : r , b : imm 12 , c : addr ) = when a => halt := c ; ",
    ),
    (
        b"machine m;instr i()=trap:=99999999999999999999'1;",
        b"machine m ; instr i ( ) = trap := 18446744073709551616 ' 1 ; ",
    ),
];

#[test]
fn printed_texts(rt: HostRuntime) {
    for (text, printed) in PRINTED {
        expect_printed(&rt, rt.alloc(), text, printed);
    }
}

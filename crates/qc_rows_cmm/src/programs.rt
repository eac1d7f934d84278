//! Programs there and back: what is printed for a program is its tokens with a blank after each, numbers in decimal.
use qc_cmm::{read_cmm, write_cmm};
use qc_text::tokens;
use std::alloc::{AllocError, Global};
use std::process::Abort;

/// The text that is written for the tree of a text.
fn rewritten(rt: &impl Abort, alloc: Global, text: &[u8]) -> Vec<u8> {
    let program = read_cmm(alloc, text).expect(rt, "a tree");
    write_cmm(alloc, &program).expect(rt, "memory")
}

/// A text is printed so, and what is printed is read and printed as the same bytes.
fn expect_printed(rt: &impl Abort, alloc: Global, text: &[u8], printed: &[u8]) {
    assert_eq!(rt; rewritten(rt, alloc, text).as_slice(), printed);
    assert_eq!(rt; rewritten(rt, alloc, printed).as_slice(), printed);
}

/// Texts, and what is printed of their trees.
const PRINTED: [(&[u8], &[u8]); 6] = [
    (
        b"target byteorder big wordsize 0x10;",
        b"target byteorder big wordsize 16 ; ",
    ),
    (
        b"target byteorder little wordsize 99999999999999999999;f(bits8 a,bits64 b){}",
        b"target byteorder little wordsize 18446744073709551616 ; f ( bits8 a , bits64 b ) { } ",
    ),
    (
        b"target byteorder little wordsize 32;section\"a b\"{c:bits8[0x3];bits16{1,-0x2};}",
        b"target byteorder little wordsize 32 ; section \"a b\" { c : bits8 [ 3 ] ; bits16 { 1 , - 2 } ; } ",
    ),
    (
        b"target byteorder little wordsize 32;f(){bits8 x,y;a:x=-0x10;if x{f(1,2);}else{goto a;}}",
        b"target byteorder little wordsize 32 ; f ( ) { bits8 x , y ; a : x = - 16 ; if x { f ( 1 , 2 ) ; } else { goto a ; } } ",
    ),
    (
        b"target byteorder little wordsize 32;f(){x,y=%in();if x{}if y{}else{}return(x,%not(y));}",
        b"target byteorder little wordsize 32 ; f ( ) { x , y = %in ( ) ; if x { } if y { } else { } return ( x , %not ( y ) ) ; } ",
    ),
    (
        b"target byteorder little wordsize 32;f(){bits8[x]=%add(x,bits32[1]);x=f();x=f;%out(%in(%out(2)));return();}",
        b"target byteorder little wordsize 32 ; f ( ) { bits8 [ x ] = %add ( x , bits32 [ 1 ] ) ; x = f ( ) ; x = f ; %out ( %in ( %out ( 2 ) ) ) ; return ( ) ; } ",
    ),
];

#[test]
fn prints_and_reads_again(rt: HostRuntime) {
    for (text, printed) in PRINTED {
        expect_printed(&rt, rt.alloc(), text, printed);
    }
}

/// The tokens of a text, with a blank after each.
fn spaced(rt: &impl Abort, alloc: Global, text: &[u8]) -> Result<Vec<u8>, AllocError> {
    let found = tokens(alloc, text).expect(rt, "tokens");
    let mut out = Vec::new(alloc);
    for token in found.as_slice() {
        if token.start <= token.end && token.end <= text.len() {
            out.extend_from_slice(&text[token.start..token.end])?;
        }
        out.push(b' ')?;
    }
    let _end = out.pop();
    Ok(out)
}

/// How often each word of the input came, and which came most often.
const TALLY: &[u8] = b"target byteorder little wordsize 32;
section \"data\" { counts: bits32[16]; limit: bits32 { 15 }; }
tally(bits32 k) {
  bits32 a;
  a = %add(counts, %shl(%and(k, bits32[limit]), 2));
  bits32[a] = %add(bits32[a], 1);
  return(bits32[a]);
}
main() {
  bits32 n, x, best, c, i;
next:
  x = %in();
  if %eq(x, 0) { goto report; }
  n = %add(n, 1);
  c = tally(x);
  if %ltu(best, c) { best = c; }
  goto next;
report:
  %out(n);
  %out(best);
line:
  %out(bits32[%add(counts, %shl(i, 2))]);
  i = %add(i, 1);
  if %ltu(i, 16) { goto line; }
  return(%rem(n, 10));
}
";

#[test]
fn the_tally_there_and_back(rt: HostRuntime) -> Result<(), AllocError> {
    let printed = spaced(&rt, rt.alloc(), TALLY)?;
    expect_printed(&rt, rt.alloc(), TALLY, printed.as_slice());
    Ok(())
}

const OPERATORS: [&[u8]; 6] = [b"add", b"sub", b"xor", b"and", b"or", b"shl"];

/// The number after this one in a sequence of Lehmer's kind, modulo 2^31.
fn next_number(x: u64) -> u64 {
    (1_103_515_245 * (x % 2_147_483_648) + 12345) % 2_147_483_648
}

/// A program of so many procedures, each of which applies an operator, and a main procedure that calls each of them.
fn generated(alloc: Global, number: u64) -> Result<Vec<u8>, AllocError> {
    let mut text = Vec::from_slice(alloc, b"target byteorder little wordsize 32;\n")?;
    let mut x = number;
    for place in 0..number {
        x = next_number(x);
        let name = format!(in alloc; "p{place}(bits32 a) ",)?;
        text.extend_from_slice(name.as_bytes())?;
        text.extend_from_slice(b"{ return(%")?;
        text.extend_from_slice(OPERATORS[(x / 65536 % 6) as usize])?;
        let operand = format!(in alloc; "(a, {})); ", x % 256)?;
        text.extend_from_slice(operand.as_bytes())?;
        text.extend_from_slice(b"}\n")?;
    }
    let start = format!(in alloc; "v = {number};\n")?;
    text.extend_from_slice(b"main() { bits32 v, i; ")?;
    text.extend_from_slice(start.as_bytes())?;
    text.extend_from_slice(b"again:")?;
    for place in 0..number {
        let call = format!(in alloc; " v = p{place}(v);")?;
        text.extend_from_slice(call.as_bytes())?;
    }
    text.extend_from_slice(b" %out(v); i = %add(i, 1);\n")?;
    text.extend_from_slice(b"if %ltu(i, 100) { goto again; } return(0); }\n")?;
    Ok(text)
}

#[test]
fn generated_programs_there_and_back(rt: HostRuntime) -> Result<(), AllocError> {
    for number in [1, 90] {
        let text = generated(rt.alloc(), number)?;
        let printed = spaced(&rt, rt.alloc(), text.as_slice())?;
        expect_printed(&rt, rt.alloc(), text.as_slice(), printed.as_slice());
    }
    Ok(())
}

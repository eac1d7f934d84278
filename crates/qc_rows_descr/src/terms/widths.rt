//! The width of a term, or its first clash.

use super::*;

/// A part of a term that is written in postfix order: a number, an operand, the word at the address before it, the next
/// word of the input or the address after, of so many bits; or an operator over the one or two terms before it.
#[derive(Clone, Copy)]
enum Part {
    Number(u8),
    Operand(u8),
    Load(u8),
    Input(u8),
    After(u8),
    Complement,
    Zx(u8),
    Sx(u8),
    /// The first bit, and the count of bits.
    Slice(u8, u8),
    Add,
    Sub,
    Xor,
    Eq,
    Ltu,
}

use Part::{
    Add, After, Complement, Eq, Input, Load, Ltu, Number, Operand, Slice, Sub, Sx, Xor, Zx,
};

/// Terms in postfix order, and the width of each, or the two widths of its first clash.
const ROWS: [(&[Part], Result<u8, (u8, u8)>); 16] = [
    (&[Number(5), Number(5), Add], Ok(5)),
    (&[Number(8), Number(8), Ltu], Ok(1)),
    (&[Number(7), Complement], Ok(7)),
    (&[Number(32), Zx(32)], Ok(32)),
    (&[Number(8), Slice(3, 5)], Ok(5)),
    (&[Operand(5), Number(6), Add], Err((5, 6))),
    (&[Number(5), Zx(4)], Err((5, 4))),
    (&[Number(64), Sx(4)], Err((64, 4))),
    (&[Number(7), Slice(3, 5)], Err((7, 8))),
    (&[Number(64), Slice(1, 64)], Err((64, 65))),
    (&[Number(5), Slice(255, 64)], Err((5, 65))),
    (
        &[Number(3), Number(4), Add, Number(5), Number(6), Add, Xor],
        Err((3, 4)),
    ),
    (
        &[Number(3), Number(3), Add, Number(5), Number(6), Add, Xor],
        Err((5, 6)),
    ),
    (
        &[Number(3), Number(3), Add, Number(5), Number(5), Add, Eq],
        Err((3, 5)),
    ),
    (&[Number(31), Number(32), Add, Load(32)], Err((31, 32))),
    (&[Input(32), After(32), Sub], Ok(32)),
];

fn unary(alloc: Global, op: Op, before: &mut Vec<Term>) -> Result<Term, Fail> {
    let arg = before.pop().ok_or("no operand")?;
    Ok(Term::Un {
        op,
        arg: Boxed::new(alloc, arg)?,
    })
}

fn binary(alloc: Global, op: Op, before: &mut Vec<Term>) -> Result<Term, Fail> {
    let right = before.pop().ok_or("no operand")?;
    let left = before.pop().ok_or("no operand")?;
    Ok(Term::Bin {
        op,
        left: Boxed::new(alloc, left)?,
        right: Boxed::new(alloc, right)?,
    })
}

fn load(alloc: Global, width: Width, before: &mut Vec<Term>) -> Result<Term, Fail> {
    let address = before.pop().ok_or("no address")?;
    Ok(Term::Mem {
        width,
        address: Boxed::new(alloc, address)?,
    })
}

fn bits(count: u8) -> Result<Width, Fail> {
    Ok(Width::new(count).ok_or("width")?)
}

/// The term that ends with a part, over the terms before it.
fn ended(alloc: Global, part: Part, before: &mut Vec<Term>) -> Result<Term, Fail> {
    match part {
        Number(width) => Ok(Term::Num {
            value: 1,
            width: bits(width)?,
        }),
        Operand(width) => Ok(Term::Imm {
            operand: 0,
            width: bits(width)?,
        }),
        Input(width) => Ok(Term::Input {
            width: bits(width)?,
        }),
        After(width) => Ok(Term::After {
            width: bits(width)?,
        }),
        Load(width) => load(alloc, bits(width)?, before),
        Complement => unary(alloc, Op::Com, before),
        Zx(to) => unary(alloc, Op::Zx { to: bits(to)? }, before),
        Sx(to) => unary(alloc, Op::Sx { to: bits(to)? }, before),
        Slice(low, to) => unary(alloc, Op::Slice { low, to: bits(to)? }, before),
        Add => binary(alloc, Op::Add, before),
        Sub => binary(alloc, Op::Sub, before),
        Xor => binary(alloc, Op::Xor, before),
        Eq => binary(alloc, Op::Eq, before),
        Ltu => binary(alloc, Op::Ltu, before),
    }
}

/// The term of parts in postfix order.
fn term_of(alloc: Global, parts: &[Part]) -> Result<Term, Fail> {
    let mut terms = Vec::new(alloc);
    for part in parts {
        let term = ended(alloc, *part, &mut terms)?;
        terms.push(term)?;
    }
    Ok(terms.pop().ok_or("no term")?)
}

#[test]
fn widths_and_clashes(rt: HostRuntime) -> Result<(), Fail> {
    for (parts, want) in ROWS {
        let term = term_of(rt.alloc(), parts)?;
        let found = match width_of(&term) {
            Ok(width) => Ok(width.bits()),
            Err(WidthClash { a, b }) => Err((a, b)),
        };
        assert!(rt; found == want, "{term:?}");
    }
    Ok(())
}

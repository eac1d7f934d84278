//! The terms that laws give, made in a pool.
ghost use Rattle.std.specs.Prelude.{◌≡◌, ◌<◌, ◌≤◌, ◌^◌, ◌++◌, List, Some, drop, length, slice_get, IfOk};
ghost use Rattle.qc_pool.specs.Regions.{Keeps};
ghost use Rattle.qc_equations.specs.Pattern.{Pattern, fill, literal_value, literal_width, op_of};
ghost use Rattle.qc_laws.specs.declared.right.Part.{Part as AntPart};
ghost use Rattle.qc_laws.specs.Inner.Forms.{HasWords};
ghost use Rattle.qc_laws.specs.Inner.Ids.{AreThere, parts_at};
ghost use Rattle.qc_laws.specs.Inner.Spelling.{IsMade, LiteralHasWord, Spells, spell};
ghost use Rattle.qc_words.specs.Width.{IsWidth};

use crate::left::{Ids, ones};
use qc_equations::{Literal, Operator};
use qc_pool::{Node, Pool, TermId};
use qc_words::{Op, Width};
use std::alloc::AllocError;

/// A part of a law's right side: one of the left side's parts, a literal, or an operator before its operands.
#[derive(Clone, Copy, Default)]
pub(crate) enum Part {
    #[default]
    First,
    Second,
    Third,
    Number(Literal),
    Un(Operator),
    Bin(Op),
}

/// The id of what was made of some parts, and the place of the part after them.
#[derive(Clone, Copy)]
pub(crate) struct Made {
    pub(crate) id: TermId,
    pub(crate) next: usize,
}

/// A literal's number.
fn literal_number(literal: Literal, word: Width, size: u8) -> u64
    requires { size ≤ 64 }
    ensures { result ≡ literal_value literal word size }
{
    let bits = word.bits();
    match literal {
        Literal::Zero => 0,
        Literal::One | Literal::WideOne => 1,
        Literal::Ones => ones(bits),
        Literal::Least => 1u64 << (bits - 1),
        Literal::Size => u64::from(size),
        Literal::Rest => u64::from(bits.saturating_sub(size)),
        Literal::LowMask => ones(size),
    }
}

/// A literal's width.
fn literal_bits(literal: Literal, word: Width, size: u8) -> Width
    requires { LiteralHasWord literal size }
    ensures { result ≡ literal_width literal word size }
{
    match literal {
        Literal::WideOne => width(size),
        _ => word,
    }
}

/// The width of so many bits.
fn width(bits: u8) -> Width
    requires { IsWidth bits }
    ensures { result ≡ bits }
{
    match Width::new(bits) {
        Some(width) => width,
        None => unreachable!(),
    }
}

/// The operator that an operator of a law is.
fn operator_of(operator: Operator, word: Width, size: u8) -> Op
    requires { HasWords operator word size }
    ensures { result ≡ op_of operator word size }
{
    match operator {
        Operator::Complement => Op::Com,
        Operator::Negation => Op::Neg,
        Operator::ZeroExtension => Op::Zx { to: word },
        Operator::SignExtension => Op::Sx { to: word },
        Operator::Widening => Op::Zx { to: width(size) },
        Operator::LowSlice => Op::Slice {
            low: 0,
            to: width(size),
        },
        Operator::HighSlice => Op::Slice {
            low: size,
            to: width(word.bits().saturating_sub(size)),
        },
    }
}

/// What a pattern is over the parts of a term: the pattern is spelled from a place on.
pub(crate) fn make(pool: &mut Pool, ids: &Ids, list: &[Part], at: usize) -> Result<Made, AllocError>
    requires there { AreThere pool.old ids.now }
    requires within { at < length list.now }
    requires spelled { Spells list.now at (parts_at pool.old ids.now) }
    ensures made { (p : Pattern) → (rest : List AntPart) → drop at list.now ≡ spell p ++ rest → IfOk result (λ m. IsMade pool.new p (parts_at pool.old ids.now) m.id × (drop m.next list.now ≡ rest)) }
    ensures kept { Keeps pool.old pool.new }
{
    match list[at] {
        Part::First => Ok(Made {
            id: ids.a,
            next: at + 1,
        }),
        Part::Second => Ok(Made {
            id: ids.b,
            next: at + 1,
        }),
        Part::Third => Ok(Made {
            id: ids.c,
            next: at + 1,
        }),
        Part::Number(literal) => {
            let value = literal_number(literal, ids.word, ids.size);
            let width = literal_bits(literal, ids.word, ids.size);
            let id = pool.add(Node::Num { value, width })?;
            Ok(Made { id, next: at + 1 })
        }
        Part::Un(operator) => {
            let arg = make(pool, ids, list, at + 1)?;
            let op = operator_of(operator, ids.word, ids.size);
            let id = pool.add(Node::Un { op, arg: arg.id })?;
            Ok(Made { id, next: arg.next })
        }
        Part::Bin(op) => {
            let left = make(pool, ids, list, at + 1)?;
            let right = make(pool, ids, list, left.next)?;
            let id = pool.add(Node::Bin {
                op,
                left: left.id,
                right: right.id,
            })?;
            Ok(Made {
                id,
                next: right.next,
            })
        }
    }
}

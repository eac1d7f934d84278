//! The two sides of each law, as programs read them.
ghost use Rattle.std.specs.Prelude.{◌≡◌, ◌≤◌, length};
ghost use Rattle.qc_equations.specs.declared.form.Left.TheVariants.{LowBits, OneOperand, WithLiteral};
ghost use Rattle.qc_equations.specs.Pattern.{A, B, Fixed, Infix};
ghost use Rattle.qc_equations.specs.Table.{equation_of, inverted, parted, split, turned};
ghost use Rattle.qc_laws.specs.Inner.Forms.{IsForm};
ghost use Rattle.qc_laws.specs.Inner.Spelling.{spell};

use crate::right::Part::{self, Bin, First, Number, Second, Third, Un};
use arrayvec::ArrayVec;
use qc_equations::{Law, Left, Literal, Operator};
use qc_words::Op;

/// As many parts as the longest right side has.
pub(crate) const LONGEST: usize = 13;

// Parts that several right sides have.
const ADD: Part = Bin(Op::Add);

const SUB: Part = Bin(Op::Sub);

const OR: Part = Bin(Op::Or);

const XOR: Part = Bin(Op::Xor);

const SHL: Part = Bin(Op::Shl);

const COMPLEMENT: Part = Un(Operator::Complement);

const NEGATION: Part = Un(Operator::Negation);

const ZERO: Part = Number(Literal::Zero);

const ONE: Part = Number(Literal::One);

const LEAST: Part = Number(Literal::Least);

const SIZE: Part = Number(Literal::Size);

const REST: Part = Number(Literal::Rest);

const SIGNED: Part = Un(Operator::SignExtension);

const EXTENDED: Part = Un(Operator::ZeroExtension);

const LOW: Part = Un(Operator::LowSlice);

const HIGH: Part = Un(Operator::HighSlice);

/// Some parts as a list.
fn list(parts: &[Part]) -> ArrayVec<Part, LONGEST>
    requires { length parts.now ≤ LONGEST }
    ensures { result.items ≡ parts.now }
{
    let mut list = ArrayVec::new();
    let _ = list.try_extend_from_slice(parts);
    list
}

/// An operator over a part.
fn over(operator: Operator) -> Left
    ensures { result ≡ OneOperand operator }
{
    Left::OneOperand { operator }
}

/// The low bits of a part, extended to its width.
fn low_bits(extension: Operator) -> Left
    ensures { result ≡ LowBits extension }
{
    Left::LowBits { extension }
}

/// An operator over a part and a literal.
fn beside(op: Op, literal: Literal) -> Left
    ensures { result ≡ WithLiteral op literal }
{
    Left::WithLiteral { op, literal }
}

/// The form of the terms that a law matches.
pub(crate) fn left_of(law: Law) -> Left
    ensures left { result ≡ (equation_of law).left }
    ensures form { IsForm result }
{
    match law {
        Law::AddZero | Law::OrZero => Left::Whole,
        Law::AddZeroDrop => beside(Op::Add, Literal::Zero),
        Law::OrZeroDrop => beside(Op::Or, Literal::Zero),
        Law::XorZeroDrop => beside(Op::Xor, Literal::Zero),
        Law::ShlZeroDrop => beside(Op::Shl, Literal::Zero),
        Law::AndOnesDrop => beside(Op::And, Literal::Ones),
        Law::AddSwap | Law::AddSub => Left::TwoOperands { op: Op::Add },
        Law::AndSwap | Law::AndOr => Left::TwoOperands { op: Op::And },
        Law::OrSwap | Law::OrXorAnd | Law::OrAnd => Left::TwoOperands { op: Op::Or },
        Law::XorSwap | Law::XorOrAnd => Left::TwoOperands { op: Op::Xor },
        Law::EqSwap | Law::EqLtu | Law::EqNe => Left::TwoOperands { op: Op::Eq },
        Law::NeSwap | Law::NeLtu | Law::NeEq => Left::TwoOperands { op: Op::Ne },
        Law::MulSwap => Left::TwoOperands { op: Op::Mul },
        Law::AddLeft => Left::RightNested { op: Op::Add },
        Law::AddRight => Left::LeftNested { op: Op::Add },
        Law::SubNeg | Law::SubCom => Left::TwoOperands { op: Op::Sub },
        Law::NegSub | Law::NegCom => over(Operator::Negation),
        Law::ComXor | Law::ComSub | Law::ComNeg => over(Operator::Complement),
        Law::LtLtu | Law::LtGe => Left::TwoOperands { op: Op::Lt },
        Law::LtuLt | Law::LtuGeu => Left::TwoOperands { op: Op::Ltu },
        Law::GeLt => Left::TwoOperands { op: Op::Ge },
        Law::GeuLtu => Left::TwoOperands { op: Op::Geu },
        Law::ZxCom => Left::WideComplement,
        Law::Split8 | Law::Part8 => Left::Constant { size: 8 },
        Law::Split12 | Law::Part12 => Left::Constant { size: 12 },
        Law::Split16 | Law::Part16 => Left::Constant { size: 16 },
        Law::ZxAnd => low_bits(Operator::ZeroExtension),
        Law::AndZx => Left::Masked,
        Law::SxShifts => low_bits(Operator::SignExtension),
    }
}

/// The operands exchanged.
fn swapped(op: Op) -> ArrayVec<Part, LONGEST>
    ensures { result.items ≡ spell (Infix op B A) }
{
    list(&[Bin(op), Second, First])
}

/// A part and a literal.
fn with_number(op: Op, literal: Literal) -> ArrayVec<Part, LONGEST>
    ensures { result.items ≡ spell (Infix op A (Fixed literal)) }
{
    list(&[Bin(op), First, Number(literal)])
}

/// The complement of two parts.
fn complement(op: Op) -> ArrayVec<Part, LONGEST>
    ensures { result.items ≡ spell (inverted (Infix op A B)) }
{
    list(&[COMPLEMENT, Bin(op), First, Second])
}

/// The complement of the complements of two parts.
fn by_complements(op: Op) -> ArrayVec<Part, LONGEST>
    ensures { result.items ≡ spell (inverted (Infix op (inverted A) (inverted B))) }
{
    list(&[COMPLEMENT, Bin(op), COMPLEMENT, First, COMPLEMENT, Second])
}

/// Two operators over the same two parts.
fn twice(op: Op, left: Op, right: Op) -> ArrayVec<Part, LONGEST>
    ensures { result.items ≡ spell (Infix op (Infix left A B) (Infix right A B)) }
{
    list(&[Bin(op), Bin(left), First, Second, Bin(right), First, Second])
}

/// Two parts with their highest bits inverted.
fn by_turned(op: Op) -> ArrayVec<Part, LONGEST>
    ensures { result.items ≡ spell (Infix op (turned A) (turned B)) }
{
    list(&[Bin(op), XOR, First, LEAST, XOR, Second, LEAST])
}

/// A constant as the sum of its high bits and of its low ones with a sign.
fn as_sum() -> ArrayVec<Part, LONGEST>
    ensures { result.items ≡ spell split }
{
    list(&[
        ADD, SHL, EXTENDED, HIGH, SUB, First, SIGNED, LOW, First, SIZE, SIGNED, LOW, First,
    ])
}

/// A constant as its high bits and its low ones.
fn as_parts() -> ArrayVec<Part, LONGEST>
    ensures { result.items ≡ spell parted }
{
    list(&[OR, SHL, EXTENDED, HIGH, First, SIZE, EXTENDED, LOW, First])
}

/// The list of a law's right side.
pub(crate) fn right_of(law: Law) -> ArrayVec<Part, LONGEST>
    ensures { result.items ≡ spell (equation_of law).right }
{
    match law {
        Law::AddZero => with_number(Op::Add, Literal::Zero),
        Law::OrZero => with_number(Op::Or, Literal::Zero),
        Law::AddZeroDrop
        | Law::OrZeroDrop
        | Law::XorZeroDrop
        | Law::ShlZeroDrop
        | Law::AndOnesDrop => list(&[First]),
        Law::AddSwap => swapped(Op::Add),
        Law::AndSwap => swapped(Op::And),
        Law::OrSwap => swapped(Op::Or),
        Law::XorSwap => swapped(Op::Xor),
        Law::EqSwap => swapped(Op::Eq),
        Law::NeSwap => swapped(Op::Ne),
        Law::MulSwap => swapped(Op::Mul),
        Law::AddLeft => list(&[ADD, ADD, First, Second, Third]),
        Law::AddRight => list(&[ADD, First, ADD, Second, Third]),
        Law::SubNeg => list(&[ADD, First, NEGATION, Second]),
        Law::NegSub => list(&[SUB, ZERO, First]),
        Law::NegCom => list(&[ADD, COMPLEMENT, First, ONE]),
        Law::ComXor => with_number(Op::Xor, Literal::Ones),
        Law::ComSub => list(&[SUB, Number(Literal::Ones), First]),
        Law::ComNeg => list(&[SUB, NEGATION, First, ONE]),
        Law::XorOrAnd => twice(Op::Sub, Op::Or, Op::And),
        Law::OrXorAnd => twice(Op::Add, Op::Xor, Op::And),
        Law::AndOr => by_complements(Op::Or),
        Law::OrAnd => by_complements(Op::And),
        Law::SubCom => list(&[COMPLEMENT, ADD, COMPLEMENT, First, Second]),
        Law::AddSub => list(&[SUB, First, NEGATION, Second]),
        Law::EqLtu => list(&[Bin(Op::Ltu), XOR, First, Second, ONE]),
        Law::NeLtu => list(&[Bin(Op::Ltu), ZERO, XOR, First, Second]),
        Law::LtLtu => by_turned(Op::Ltu),
        Law::LtuLt => by_turned(Op::Lt),
        Law::EqNe => complement(Op::Ne),
        Law::NeEq => complement(Op::Eq),
        Law::LtGe => complement(Op::Ge),
        Law::GeLt => complement(Op::Lt),
        Law::LtuGeu => complement(Op::Geu),
        Law::GeuLtu => complement(Op::Ltu),
        Law::ZxCom => list(&[XOR, Un(Operator::Widening), First, Number(Literal::WideOne)]),
        Law::Split8 | Law::Split12 | Law::Split16 => as_sum(),
        Law::Part8 | Law::Part12 | Law::Part16 => as_parts(),
        Law::ZxAnd => with_number(Op::And, Literal::LowMask),
        Law::AndZx => list(&[EXTENDED, LOW, First]),
        Law::SxShifts => list(&[Bin(Op::Shra), SHL, First, REST, REST]),
    }
}

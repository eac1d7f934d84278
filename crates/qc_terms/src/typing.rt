ghost use Rattle.std.specs.Prelude.{◌≡◌};
ghost use Rattle.qc_words.specs.Operators.{result_width_of};
ghost use Rattle.qc_terms.specs.Clashes.{clash_of_operand, clash_of_widths, clashes_of, width_or_clash};
ghost use Rattle.qc_terms.specs.Tree.{tree_of, width_of};

use crate::term::Term;
use qc_words::{Op, Width, result_width};

/// Two widths that don't fit: of an operator's two operands; or of an operand, and the one that an extension or a slice
/// of it asks for, where 65 stands for all above 64.
#[derive(Clone, Copy, Debug, PartialEq, Eq)]
pub struct WidthClash {
    pub a: u8,
    pub b: u8,
}

/// The width of an operator's value at one operand.
fn unary_width(op: Op, operand: Width) -> Result<Width, WidthClash>
    ensures { result ≡ width_or_clash (clash_of_operand op operand) (result_width_of op operand) }
{
    let a = operand.bits();
    match op {
        Op::Zx { to } | Op::Sx { to } => {
            let b = to.bits();
            if b < a {
                Err(WidthClash { a, b })
            } else {
                Ok(to)
            }
        }
        Op::Slice { low, to } => {
            let end = u32::from(low) + u32::from(to.bits());
            if u32::from(a) < end {
                let b = end.min(65) as u8;
                Err(WidthClash { a, b })
            } else {
                Ok(to)
            }
        }
        _ => Ok(result_width(op, operand)),
    }
}

/// The width of an operator's value at two operands.
fn binary_width(op: Op, first: Width, second: Width) -> Result<Width, WidthClash>
    ensures { result ≡ width_or_clash (clash_of_widths first second) (result_width_of op first) }
{
    let a = first.bits();
    let b = second.bits();
    if a == b {
        Ok(result_width(op, first))
    } else {
        Err(WidthClash { a, b })
    }
}

/// The width of a term, or its first clash in post-order.
#[tactic(auto, using(crate::proofs::Widths::own_clash, crate::proofs::Widths::right_clash))]
pub fn width_of(term: &Term) -> Result<Width, WidthClash>
    ensures { result ≡ width_or_clash (clashes_of (tree_of term.now)) (width_of (tree_of term.now)) }
{
    match term {
        Term::Num { width, .. }
        | Term::Reg { width, .. }
        | Term::Imm { width, .. }
        | Term::Input { width }
        | Term::After { width } => Ok(*width),
        Term::Mem { width, address } => {
            width_of(address.get())?;
            Ok(*width)
        }
        Term::Un { op, arg } => unary_width(*op, width_of(arg.get())?),
        Term::Bin { op, left, right } => {
            let first = width_of(left.get())?;
            let second = width_of(right.get())?;
            binary_width(*op, first, second)
        }
    }
}

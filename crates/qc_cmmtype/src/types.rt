//! The widths of types, and the bits of literals.
ghost use Rattle.std.specs.Prelude.{◌≡◌};
ghost use Rattle.qc_words.specs.Width.{IsWidth};
ghost use Rattle.qc_cmmtype.specs.Faults.{reported};
ghost use Rattle.qc_cmmtype.specs.Types as spec;

use crate::faults::ProgramFault;
use qc_cmm::{Literal, WordType};
use qc_words::Width;

fn bits_of_type(of: &WordType) -> u8
    ensures { result ≡ spec.width_of_type of.now }
{
    match of {
        WordType::Bits8 { .. } => 8,
        WordType::Bits16 { .. } => 16,
        WordType::Bits32 { .. } => 32,
        WordType::Bits64 { .. } => 64,
    }
}

/// The width of a type.
pub fn width_of_type(of: &WordType) -> Width
    ensures { result ≡ spec.width_of_type of.now }
{
    match Width::new(bits_of_type(of)) {
        Some(width) => width,
        None => unreachable!(),
    }
}

/// The number of a type's token.
pub fn token_of_type(of: &WordType) -> usize
    ensures { result ≡ spec.token_of_type of.now }
{
    match of {
        WordType::Bits8 { token }
        | WordType::Bits16 { token }
        | WordType::Bits32 { token }
        | WordType::Bits64 { token } => *token,
    }
}

/// The width of so many bits.
pub fn width_of_bits(bits: u8) -> Width
    requires { IsWidth bits }
    ensures { result ≡ bits }
{
    match Width::new(bits) {
        Some(width) => width,
        None => unreachable!(),
    }
}

/// The fault of a type that is wider than the word.
pub fn type_fault(word: Width, of: &WordType) -> Option<ProgramFault>
    ensures { result ≡ reported (spec.type_faults word of.now) }
{
    let bits = bits_of_type(of);
    if bits <= word.bits() {
        None
    } else {
        Some(ProgramFault::WidthClash {
            token: token_of_type(of),
            found: bits,
            wanted: word.bits(),
        })
    }
}

/// The number of a literal's first token.
pub fn token_of_literal(literal: &Literal) -> usize
    ensures { result ≡ spec.token_of_literal literal.now }
{
    match literal {
        Literal::Plain { value } => value.token,
        Literal::Negative { token, .. } => *token,
    }
}

fn fits(literal: &Literal, width: Width) -> bool
    ensures { result ≡ spec.fits literal.now width }
{
    match literal {
        Literal::Plain { value } => value.value < 1u128 << width.bits(),
        Literal::Negative { value, .. } => value.value <= 1u128 << (width.bits() - 1),
    }
}

/// The bits that a number needs; 65 stands for all above 64.
#[tactic(auto, using(crate::proofs::Halvings::halving))]
fn bits_needed(value: u128) -> u8
    ensures { result ≡ spec.bits_needed value }
{
    let mut rest = value;
    for count in 0u8..65 {
        if rest == 0 {
            return count;
        }
        rest /= 2;
    }
    65
}

fn bits_of_literal(literal: &Literal) -> u8
    ensures { result ≡ spec.bits_of_literal literal.now }
{
    match literal {
        Literal::Plain { value } => bits_needed(value.value),
        Literal::Negative { value, .. } => {
            if value.value == 0 {
                0
            } else {
                bits_needed(value.value - 1).min(64) + 1
            }
        }
    }
}

/// The fault of a literal that doesn't fit the width that its place wants.
pub fn literal_fault(literal: &Literal, wanted: Option<Width>) -> Option<ProgramFault>
    ensures { result ≡ reported (spec.literal_faults literal.now wanted) }
{
    match wanted {
        None => None,
        Some(width) if fits(literal, width) => None,
        Some(width) => Some(ProgramFault::WidthClash {
            token: token_of_literal(literal),
            found: bits_of_literal(literal),
            wanted: width.bits(),
        }),
    }
}

//! The numbers of a text that are widths, and the numbers of literals.
ghost use Rattle.std.specs.Prelude.{◌≡◌};
ghost use Rattle.qc_facts.specs.Faults.{reported};
ghost use Rattle.qc_facts.specs.Numbers as spec;

use crate::faults::WidthFault;
use qc_grammar::Number;
use qc_names::earlier;
use qc_words::Width;

/// The width that a number is.
pub fn width_in(number: &Number) -> Option<Width>
    ensures { result ≡ spec.width_in number.now }
{
    if 1 <= number.value && number.value <= 64 {
        Width::new(number.value as u8)
    } else {
        None
    }
}

/// The clash of two numbers at a token.
pub fn clash(token: usize, found: u128, wanted: u128) -> WidthFault
    ensures { result ≡ spec.clash token found wanted }
{
    WidthFault::WidthClash {
        token,
        found: found.min(65) as u8,
        wanted: wanted.min(65) as u8,
    }
}

/// The fault of a number that is to be a width.
pub fn width_fault(number: &Number) -> Option<WidthFault>
    ensures { result ≡ reported (spec.width_faults number.now) }
{
    match width_in(number) {
        Some(_) => None,
        None => Some(clash(number.token, number.value, 64)),
    }
}

/// The bits that a number needs; 65 stands for all above 64.
#[tactic(auto, using(crate::proofs::Halvings::halving))]
fn bits_needed(value: u128) -> u128
    ensures { result ≡ spec.bits_needed value }
{
    let mut rest = value;
    for count in 0..65 {
        if rest == 0 {
            return count;
        }
        rest /= 2;
    }
    65
}

/// The fault of a number that is to fit into a width, if there is one.
fn fit_fault(value: &Number, width: Option<Width>) -> Option<WidthFault>
    ensures { result ≡ reported (spec.fit_faults value.now width) }
{
    match width {
        None => None,
        Some(width) => {
            if value.value < 1u128 << width.bits() {
                None
            } else {
                Some(clash(
                    value.token,
                    bits_needed(value.value),
                    u128::from(width.bits()),
                ))
            }
        }
    }
}

/// The fault of a literal of so many bits.
#[tactic(auto, using(qc_names::specs::Law::Reported::reported_parts))]
pub fn literal_fault(value: &Number, bits: &Number) -> Option<WidthFault>
    ensures { result ≡ reported (spec.literal_faults value.now bits.now) }
{
    earlier(width_fault(bits), fit_fault(value, width_in(bits)))
}

/// The fault of the width of a memory access.
pub fn access_fault(word: Option<Width>, bits: &Number) -> Option<WidthFault>
    ensures { result ≡ reported (spec.access_faults word bits.now) }
{
    match bits.value {
        8 | 16 | 32 | 64 => match word {
            Some(most) if u128::from(most.bits()) < bits.value => {
                Some(clash(bits.token, bits.value, u128::from(most.bits())))
            }
            _ => None,
        },
        _ => Some(clash(bits.token, bits.value, 64)),
    }
}

/// The width of a memory access, where it has no fault.
pub fn access_width(word: Option<Width>, bits: &Number) -> Option<Width>
    ensures { result ≡ spec.access_width word bits.now }
{
    match access_fault(word, bits) {
        Some(_) => None,
        None => width_in(bits),
    }
}

//! The coded values of operands.
ghost use Rattle.std.specs.Prelude.{◌≡◌, ℕ, ◌<◌, ◌≤◌, length, take, All, IfSome, IsNone, IfOk, IfErr};
ghost use Rattle.qc_descr.specs.Encoding.{AreCodable, IsCodable};
ghost use Rattle.qc_descr.specs.Reach.{HasFewBits, IsReached, coded_operands};
ghost use Rattle.qc_descr.specs.Reach.{coded_value as value_by_reach};
ghost use Rattle.qc_encode.specs.Inner.PlacedBits.{place_of as place_of_bit};
ghost use Rattle.qc_encode.specs.Inner.PlacedBits.{placed_bits as places_of_bits};
ghost use Rattle.qc_encode.specs.Refusal.{IsFirstUncodable};

use qc_descr::{Bit, Coding, Reach};

/// The first operand of an instance that can't be coded where the instance is to stand: its number, and its value. For an
/// address that is the target.
#[derive(Clone, Copy, Debug, PartialEq, Eq)]
pub struct OutOfReach {
    pub operand: u32,
    pub value: u64,
}

/// The place of a bit in an operand, as a number with this one bit, where it is one of the operand's.
fn place_of(operand: usize, bit: Bit) -> u64
    ensures { result ≡ place_of_bit operand bit }
{
    match bit {
        Bit::Piece {
            operand: named,
            bit: place,
        } if named as usize == operand && place < 64 => 1 << place,
        _ => 0,
    }
}

/// The places of all bits that are an operand's.
fn placed_bits(operand: usize, bits: &[Bit]) -> u64
    ensures { result ≡ places_of_bits operand bits.now }
{
    match bits {
        [] => 0,
        [bit, others @ ..] => place_of(operand, *bit) | placed_bits(operand, others),
    }
}

/// How far a target is from an address, in two's complement of so many bits, where they are enough.
fn offset(bits: u8, at: u64, target: u64) -> Option<u64>
    requires { HasFewBits (Reach.Relative bits) }
    ensures some { IfSome result (λ value. value ≡ value_by_reach (Reach.Relative bits) at target) }
    ensures reached { IfSome result (λ value. IsReached (Reach.Relative bits) at target) }
    ensures none { IsNone result → IsReached (Reach.Relative bits) at target → ⊥ }
{
    let half = 1u128 << (bits - 1);
    let (at, target) = (u128::from(at), u128::from(target));
    if target >= at + half || at > target + half {
        return None;
    }
    let value = if target < at {
        2 * half - (at - target)
    } else {
        target - at
    };
    Some(value as u64)
}

/// The coded value of an operand at an address, where it is within reach.
fn coded_value(reach: Reach, at: u64, operand: u64) -> Option<u64>
    requires { HasFewBits reach }
    ensures some { IfSome result (λ value. value ≡ value_by_reach reach at operand) }
    ensures reached { IfSome result (λ value. IsReached reach at operand) }
    ensures none { IsNone result → IsReached reach at operand → ⊥ }
{
    match reach {
        Reach::Plain => Some(operand),
        Reach::Relative { bits } => offset(bits, at, operand),
        Reach::Absolute { bits } => {
            if u128::from(operand) < 1 << bits {
                Some(operand)
            } else {
                None
            }
        }
    }
}

/// The coded value of the operand of this number, where it can be coded.
fn code_operand(bits: &[Bit], reach: Reach, at: u64, number: usize, operand: u64) -> Option<u64>
    requires { HasFewBits reach }
    ensures some { IfSome result (λ value. value ≡ value_by_reach reach at operand) }
    ensures codable { IfSome result (λ value. IsCodable bits.now reach at number operand) }
    ensures none { IsNone result → IsCodable bits.now reach at number operand → ⊥ }
{
    match coded_value(reach, at, operand) {
        Some(value) if value & placed_bits(number, bits) == value => Some(value),
        _ => None,
    }
}

/// The coded values of operands, in the first places, or the first operand that can't be coded.
pub fn code_operands(coding: &Coding, at: u64, operands: &[u64]) -> Result<[u64; 8], OutOfReach>
    requires few { length operands.now ≤ 8 }
    requires reaches { length coding.now.reaches ≡ length operands.now }
    requires bits { All HasFewBits coding.now.reaches }
    ensures coded { IfOk result (λ coded. take (length operands.now) coded
        ≡ coded_operands coding.now.reaches at operands.now) }
    ensures codable { IfOk result (λ coded. AreCodable coding.now at operands.now) }
    ensures err { IfErr result (IsFirstUncodable coding.now at operands.now) }
{
    let mut coded = [0; 8];
    let (bits, reaches) = (coding.bits.as_slice(), coding.reaches.as_slice());
    for number in 0..operands.len() {
        match code_operand(bits, reaches[number], at, number, operands[number]) {
            Some(value) => coded[number] = value,
            None => {
                return Err(OutOfReach {
                    operand: number as u32,
                    value: operands[number],
                });
            }
        }
    }
    Ok(coded)
}

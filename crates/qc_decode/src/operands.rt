//! The operands of an instance, from its bytes.
ghost use Rattle.std.specs.Prelude.{◌≡◌, ℕ, ◌<◌, ◌≤◌, ◌↔◌, ◌/◌, ◌^◌, length, sum, Some, IsNone, IfSome, IsTrue};
ghost use Rattle.std.specs.List.{list_all};
ghost use Rattle.qc_decode.specs.Inner.OperandsOfBytes.{piece_value as value_of_piece};
ghost use Rattle.qc_decode.specs.Inner.OperandsOfBytes.{operand_in_byte as value_in_byte};
ghost use Rattle.qc_decode.specs.Inner.OperandsOfBytes.{operand_in_bytes as value_in_bytes};
ghost use Rattle.qc_descr.specs.Coding.{memory_bytes};
ghost use Rattle.qc_descr.specs.Description.{IsInRange, IsNarrow};
ghost use Rattle.qc_descr.specs.Reach.{HasFewBits, IsReached, coded_value};
ghost use Rattle.qc_descr.specs.Valid.{is_token};

use qc_descr::{Bit, Coding, Description, OperandKind, Reach, memory_byte};
use qc_terms::Order;

/// What a bit of this value gives to an operand.
fn piece_value(operand: usize, bit: Bit, value: u8) -> u64
    requires { value < 2 }
    ensures { result ≡ value_of_piece operand bit value }
{
    match bit {
        Bit::Piece {
            operand: named,
            bit: place,
        } if named as usize == operand && place < 64 => { u64::from(value) << place }
        _ => 0,
    }
}

/// What a byte of these bits gives to an operand.
fn operand_in_byte(operand: usize, bits: &[Bit], byte: u8) -> u64
    ensures { result ≡ value_in_byte operand bits.now byte }
{
    match bits {
        [] => 0,
        [bit, higher @ ..] => {
            piece_value(operand, *bit, byte % 2) | operand_in_byte(operand, higher, byte / 2)
        }
    }
}

/// What the bytes of a coding give to an operand: its coded value.
pub fn operand_in_bytes(coding: &Coding, order: Order, operand: usize, bytes: &[u8]) -> u64
    requires tokens { IsTrue (list_all is_token coding.now.tokens) }
    requires bits { length coding.now.bits ≡ sum coding.now.tokens }
    requires size { length bytes.now ≡ sum coding.now.tokens / 8 }
    ensures { result ≡ value_in_bytes operand 0 (memory_bytes order coding.now) bytes.now }
{
    let mut value = 0;
    for (place, byte) in bytes.iter().enumerate() {
        value |= operand_in_byte(operand, memory_byte(coding, order, place), *byte);
    }
    value
}

/// Whether an operand of this kind may have this value.
pub(crate) fn is_in_range(descr: &Description, kind: OperandKind, operand: u64) -> bool
    ensures value { IsTrue result ↔ IsInRange descr.now kind operand }
    ensures narrow { IsNarrow kind }
{
    match kind {
        OperandKind::Register { space } => match descr.spaces.as_slice().get(space as usize) {
            Some(space) => operand < u64::from(space.cells),
            None => false,
        },
        OperandKind::Imm { width } => u128::from(operand) < 1 << width.bits(),
        OperandKind::Addr => u128::from(operand) < 1 << descr.facts.word.bits(),
    }
}

/// A number as a word, where it fits.
fn word_of(number: u128) -> Option<u64>
    ensures some { IfSome result (λ word. word ≡ number) }
    ensures none { IsNone result → 2 ^ 64 ≤ number }
{
    if number < 1 << 64 {
        Some(number as u64)
    } else {
        None
    }
}

/// The address that is so far from another one, in two's complement of so many bits.
fn target(bits: u8, at: u64, offset: u64) -> Option<u64>
    requires { HasFewBits (Reach.Relative bits) }
    ensures reached { IfSome result (IsReached (Reach.Relative bits) at) }
    ensures coded { IfSome result (λ target. coded_value (Reach.Relative bits) at target ≡ offset) }
    ensures only { (target : ℕ) → target < 2 ^ 64 → IsReached (Reach.Relative bits) at target →
        coded_value (Reach.Relative bits) at target ≡ offset → result ≡ Some target }
{
    let half = 1u128 << (bits - 1);
    let offset = u128::from(offset);
    let ahead = u128::from(at) + offset;
    if offset < half {
        return word_of(ahead);
    }
    if offset < 2 * half && 2 * half <= ahead {
        return word_of(ahead - 2 * half);
    }
    None
}

/// The operand with this coded value, where there is one.
fn operand_of(reach: Reach, at: u64, coded: u64) -> Option<u64>
    requires { HasFewBits reach }
    ensures reached { IfSome result (IsReached reach at) }
    ensures coded { IfSome result (λ operand. coded_value reach at operand ≡ coded) }
    ensures only { (operand : ℕ) → operand < 2 ^ 64 → IsReached reach at operand →
        coded_value reach at operand ≡ coded → result ≡ Some operand }
{
    match reach {
        Reach::Plain => Some(coded),
        Reach::Relative { bits } => target(bits, at, coded),
        Reach::Absolute { bits } => {
            if u128::from(coded) < 1 << bits {
                Some(coded)
            } else {
                None
            }
        }
    }
}

/// The operand of this kind with this coded value, where there is one in range.
pub fn decode_operand(
    descr: &Description,
    kind: OperandKind,
    reach: Reach,
    at: u64,
    coded: u64,
) -> Option<u64>
    requires { HasFewBits reach }
    ensures range { IfSome result (IsInRange descr.now kind) }
    ensures reached { IfSome result (IsReached reach at) }
    ensures coded { IfSome result (λ operand. coded_value reach at operand ≡ coded) }
    ensures only { (operand : ℕ) → operand < 2 ^ 64 → IsInRange descr.now kind operand →
        IsReached reach at operand → coded_value reach at operand ≡ coded → result ≡ Some operand }
    ensures narrow { IsNarrow kind }
{
    match operand_of(reach, at, coded) {
        Some(operand) if is_in_range(descr, kind, operand) => Some(operand),
        _ => None,
    }
}

//! The bytes of a coding, as they stand in memory, for crates that encode and decode.
ghost use Rattle.std.specs.Prelude.{◌≡◌, ◌<◌, ◌≤◌, ◌*◌, ◌/◌, ◌^◌, length, sum, slice_get, Some, IsTrue};
ghost use Rattle.std.specs.List.{list_all};
ghost use Rattle.qc_descr.specs.Coding.{token_bytes, memory_bytes};
ghost use Rattle.qc_descr.specs.Coding.{bit_value as value_of_bit};
ghost use Rattle.qc_descr.specs.Encoding.{byte_value as value_of_byte};
ghost use Rattle.qc_descr.specs.Valid.{is_token};

use crate::coding::{Bit, Coding};
use qc_terms::Order;

/// How many bytes a coding has.
pub fn coding_size(coding: &Coding) -> usize
    requires { sum coding.now.tokens ≤ 128 }
    ensures { result ≡ sum coding.now.tokens / 8 }
{
    let mut bits = 0;
    for token in coding.tokens.as_slice() {
        bits += usize::from(*token);
    }
    bits / 8
}

/// The bits of the byte at a place of the first token of `bits`, which has this many bytes.
fn token_byte(bits: &[Bit], order: Order, bytes: usize, place: usize) -> &[Bit]
    requires bits { 8 * bytes ≤ length bits.now }
    requires place { place < bytes }
    ensures is { slice_get (token_bytes order (8 * bytes) bits.now) place ≡ Some result.now }
    ensures length { length result.now ≡ 8 }
{
    let from_lowest = match order {
        Order::Little => place,
        Order::Big => bytes - 1 - place,
    };
    &bits[8 * from_lowest..8 * from_lowest + 8]
}

/// The bits of the byte at a place of a coding's bytes in memory.
pub fn memory_byte(coding: &Coding, order: Order, place: usize) -> &[Bit]
    requires tokens { IsTrue (list_all is_token coding.now.tokens) }
    requires bits { length coding.now.bits ≡ sum coding.now.tokens }
    requires place { place < sum coding.now.tokens / 8 }
    ensures is { slice_get (memory_bytes order coding.now) place ≡ Some result.now }
    ensures length { length result.now ≡ 8 }
{
    let mut bits = coding.bits.as_slice();
    let mut place = place;
    for token in coding.tokens.as_slice() {
        let bytes = usize::from(*token / 8);
        if place < bytes {
            return token_byte(bits, order, bytes, place);
        }
        place -= bytes;
        bits = &bits[8 * bytes..];
    }
    unreachable!()
}

/// A bit's value under the coded values of the operands.
fn bit_value(operands: &[u64], bit: Bit) -> u8
    ensures value { result ≡ value_of_bit operands.now bit }
    ensures bound { result < 2 }
{
    match bit {
        Bit::Fixed { one } => u8::from(one),
        Bit::Piece { operand, bit } => match operands.get(operand as usize) {
            Some(word) if bit < 64 => (*word >> bit & 1) as u8,
            _ => 0,
        },
    }
}

/// The value of a byte of these bits, the lowest one first, under the coded values of the operands.
pub fn byte_value(operands: &[u64], bits: &[Bit]) -> u8
    requires { length bits.now ≤ 8 }
    ensures value { result ≡ value_of_byte operands.now bits.now }
    ensures bound { result < 2 ^ length bits.now }
{
    match bits {
        [] => 0,
        [bit, higher @ ..] => bit_value(operands, *bit) + 2 * byte_value(operands, higher),
    }
}

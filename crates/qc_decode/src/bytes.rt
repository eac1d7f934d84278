//! The bytes of a coding, compared with given ones.
ghost use Rattle.std.specs.Prelude.{◌≡◌, ℕ, ◌↔◌, ◌/◌, List, length, sum, IsTrue};
ghost use Rattle.std.specs.List.{list_all};
ghost use Rattle.qc_descr.specs.Encoding.{coded_bytes};
ghost use Rattle.qc_descr.specs.Encoding.{byte_value as value_of_byte};
ghost use Rattle.qc_descr.specs.Valid.{is_token};

use qc_descr::{Bit, Coding, byte_value, memory_byte};
use qc_terms::Order;

/// Whether a byte has the fixed ones of these bits, the lowest one first. One that hasn't is none of an instance.
fn has_fixed_bits_of(bits: &[Bit], byte: u8) -> bool
    ensures { (operands : List ℕ) → byte ≡ value_of_byte operands bits.now → IsTrue result }
{
    match bits {
        [] => true,
        [Bit::Fixed { one }, higher @ ..] => {
            (byte % 2 == 1) == *one && has_fixed_bits_of(higher, byte / 2)
        }
        [Bit::Piece { .. }, higher @ ..] => has_fixed_bits_of(higher, byte / 2),
    }
}

/// Whether bytes have the fixed bits of a coding. Those that haven't are none of an instance.
pub fn has_fixed_bits(coding: &Coding, order: Order, bytes: &[u8]) -> bool
    requires tokens { IsTrue (list_all is_token coding.now.tokens) }
    requires bits { length coding.now.bits ≡ sum coding.now.tokens }
    requires size { length bytes.now ≡ sum coding.now.tokens / 8 }
    ensures { (operands : List ℕ) → bytes.now ≡ coded_bytes order coding.now operands → IsTrue result }
{
    for (place, byte) in bytes.iter().enumerate() {
        if !has_fixed_bits_of(memory_byte(coding, order, place), *byte) {
            return false;
        }
    }
    true
}

/// Whether these are the bytes of a coding under the coded values of the operands.
pub fn has_bytes(coding: &Coding, order: Order, operands: &[u64], bytes: &[u8]) -> bool
    requires tokens { IsTrue (list_all is_token coding.now.tokens) }
    requires bits { length coding.now.bits ≡ sum coding.now.tokens }
    requires size { length bytes.now ≡ sum coding.now.tokens / 8 }
    ensures { IsTrue result ↔ (bytes.now ≡ coded_bytes order coding.now operands.now) }
{
    for (place, byte) in bytes.iter().enumerate() {
        if byte_value(operands, memory_byte(coding, order, place)) != *byte {
            return false;
        }
    }
    true
}

ghost use Rattle.std.specs.Prelude.{◌≡◌, ◌+◌, ◌*◌, ◌<◌, ◌≤◌, ◌^◌, All, IfSome, length, slice_index};
ghost use Rattle.qc_terms.specs.Memory.{digits_of, in_order, load_of, number_of, store_of, with_bytes};

use crate::state::Order;
use arrayvec::ArrayVec;
use sqlite_items::Items;

/// The digit in base 256 of the word that these bytes hold, counted from the least significant.
fn digit(order: Order, bytes: &[u8], place: usize) -> u8
    requires { place < length bytes.now }
    ensures { result ≡ slice_index (in_order order bytes.now) place }
{
    match order {
        Order::Little => bytes[place],
        Order::Big => bytes[bytes.len() - 1 - place],
    }
}

/// The word that these bytes hold.
fn join(order: Order, bytes: &[u8]) -> u64
    requires { length bytes.now ≤ 8 }
    ensures value { result ≡ number_of (in_order order bytes.now) }
    ensures word { result < 256 ^ length bytes.now }
{
    let mut word = 0;
    for taken in 0..bytes.len() {
        let place = bytes.len() - 1 - taken;
        word = word * 256 + u64::from(digit(order, bytes, place));
    }
    word
}

/// The word of so many bytes at an address, or none unless all of them are inside the memory.
pub(crate) fn load(order: Order, memory: &[u8], count: u8, address: u64) -> Option<u64>
    requires { count ≤ 8 }
    ensures value { result ≡ load_of order memory.now count address }
    ensures word { IfSome result (λ word. word < 256 ^ count) }
{
    let start = address as usize;
    let end = start.checked_add(usize::from(count))?;
    if end > memory.len() {
        return None;
    }
    Some(join(order, &memory[start..end]))
}

/// Digits of a word in base 256, the least significant first.
fn digits(count: u8, word: u64) -> ArrayVec<u8, 8>
    requires { count ≤ 8 }
    ensures value { result.items ≡ digits_of count word }
    ensures size { length result.items ≡ count }
{
    let mut bytes = ArrayVec::new();
    let mut rest = word;
    for _ in 0..count {
        bytes.push((rest % 256) as u8);
        rest /= 256;
    }
    bytes
}

/// The bytes of a word as they stand in memory.
fn bytes_of(order: Order, count: u8, word: u64) -> ArrayVec<u8, 8>
    requires { count ≤ 8 }
    ensures value { result.items ≡ in_order order (digits_of count word) }
    ensures size { length result.items ≡ count }
{
    let mut bytes = digits(count, word);
    if order == Order::Big {
        bytes.reverse();
    }
    bytes
}

/// Writes these bytes from an address on.
fn set_bytes(memory: &mut Items<u8>, address: usize, bytes: &[u8])
    requires { address + length bytes.now ≤ length memory.old }
    ensures value { memory.new ≡ with_bytes memory.old address bytes.now }
    ensures size { length memory.new ≡ length memory.old }
    ensures bytes { All (λ byte. byte < 256) memory.old → All (λ byte. byte < 256) memory.new }
{
    // The size is a usize, so the place of no byte inside the memory overflows.
    let _size = memory.len();
    for (place, byte) in bytes.iter().enumerate() {
        memory.set(address + place, *byte);
    }
}

/// Stores a word in so many bytes at an address.
pub(crate) fn store(order: Order, memory: &mut Items<u8>, count: u8, address: u64, word: u64)
    requires few { count ≤ 8 }
    requires inside { address + count ≤ length memory.old }
    ensures value { memory.new ≡ store_of order memory.old count address word }
    ensures size { length memory.new ≡ length memory.old }
    ensures bytes { All (λ byte. byte < 256) memory.old → All (λ byte. byte < 256) memory.new }
{
    let bytes = bytes_of(order, count, word);
    set_bytes(memory, address as usize, bytes.as_slice());
}

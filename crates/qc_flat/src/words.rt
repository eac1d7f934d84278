//! Words in memory, read and written whole.
ghost use Rattle.std.specs.Prelude.{◌≡◌, ◌+◌, ◌*◌, ◌/◌, ◌%◌, ◌<◌, ◌≤◌, ◌^◌, [], ◌∷◌, All, IfSome, length, reverse, slice_index};
ghost use Rattle.qc_terms.specs.Memory.{digits_of, in_order, load_of, store_of, with_bytes};
ghost use Rattle.qc_terms.specs.Memory.{number_of as number_of_bytes};

use qc_terms::Order;
use sqlite_items::Items;

/// The number of four bytes, the least significant first.
#[inline(always)]
fn number_of_four(a: u8, b: u8, c: u8, d: u8) -> u64
    ensures { result ≡ a + 256 * (b + 256 * (c + 256 * d)) }
{
    u64::from(a) + 256 * (u64::from(b) + 256 * (u64::from(c) + 256 * u64::from(d)))
}

/// The number of bytes, the least significant first.
#[tactic(auto, unfolding(qc_terms::specs::Memory::number_of))]
fn low_first(bytes: &[u8]) -> u64
    requires { length bytes.now ≤ 8 }
    ensures value { result ≡ number_of_bytes bytes.now }
    ensures word { result < 256 ^ length bytes.now }
{
    match bytes {
        [] => 0,
        [first, rest @ ..] => u64::from(*first) + 256 * low_first(rest),
    }
}

/// The number of bytes, the most significant first.
#[tactic(auto, unfolding(qc_terms::specs::Memory::number_of))]
fn high_first(bytes: &[u8]) -> u64
    requires { length bytes.now ≤ 8 }
    ensures value { result ≡ number_of_bytes (reverse bytes.now) }
    ensures word { result < 256 ^ length bytes.now }
{
    match bytes {
        [] => 0,
        [rest @ .., last] => u64::from(*last) + 256 * high_first(rest),
    }
}

/// The word that these bytes hold.
#[inline(always)]
fn word_of(order: Order, bytes: &[u8]) -> u64
    requires { length bytes.now ≤ 8 }
    ensures value { result ≡ number_of_bytes (in_order order bytes.now) }
    ensures word { result < 256 ^ length bytes.now }
{
    match order {
        Order::Little => match bytes {
            [a, b, c, d] => number_of_four(*a, *b, *c, *d),
            _ => low_first(bytes),
        },
        Order::Big => match bytes {
            [a, b, c, d] => number_of_four(*d, *c, *b, *a),
            _ => high_first(bytes),
        },
    }
}

/// The word of so many bytes at an address, or none unless all of them are inside the memory.
#[inline(always)]
pub(crate) fn load(order: Order, memory: &[u8], count: u8, address: u64) -> Option<u64>
    requires { count ≤ 8 }
    ensures value { result ≡ load_of order memory.now count address }
    ensures word { IfSome result (λ word. word < 256 ^ count) }
{
    let start = address as usize;
    let end = start.checked_add(usize::from(count))?;
    if end > memory.len() {
        return None;
    }
    Some(word_of(order, &memory[start..end]))
}

/// Writes so many digits of a word in base 256 from an address on, the least significant first.
fn set_low_first(memory: &mut Items<u8>, count: u8, address: usize, word: u64)
    requires { address + count ≤ length memory.old }
    ensures value { memory.new ≡ with_bytes memory.old address (digits_of count word) }
    ensures size { length memory.new ≡ length memory.old }
    ensures bytes { All (λ byte. byte < 256) memory.old → All (λ byte. byte < 256) memory.new }
{
    // The size is a usize, so no address inside the memory overflows.
    let _size = memory.len();
    if count > 0 {
        memory.set(address, (word % 256) as u8);
        set_low_first(memory, count - 1, address + 1, word / 256);
    }
}

/// Writes so many digits of a word in base 256 from an address on, the most significant first.
fn set_high_first(memory: &mut Items<u8>, count: u8, address: usize, word: u64)
    requires { address + count ≤ length memory.old }
    ensures value { memory.new ≡ with_bytes memory.old address (reverse (digits_of count word)) }
    ensures size { length memory.new ≡ length memory.old }
    ensures bytes { All (λ byte. byte < 256) memory.old → All (λ byte. byte < 256) memory.new }
{
    // The size is a usize, so no address inside the memory overflows.
    let _size = memory.len();
    if count > 0 {
        memory.set(address + usize::from(count - 1), (word % 256) as u8);
        set_high_first(memory, count - 1, address, word / 256);
    }
}

/// Stores a word in so many bytes at an address.
#[inline(always)]
pub(crate) fn store(order: Order, memory: &mut Items<u8>, count: u8, address: u64, word: u64)
    requires inside { address + count ≤ length memory.old }
    ensures value { memory.new ≡ store_of order memory.old count address word }
    ensures size { length memory.new ≡ length memory.old }
    ensures bytes { All (λ byte. byte < 256) memory.old → All (λ byte. byte < 256) memory.new }
{
    match order {
        Order::Little => set_low_first(memory, count, address as usize, word),
        Order::Big => set_high_first(memory, count, address as usize, word),
    }
}

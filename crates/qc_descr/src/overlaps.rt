//! Codings of which some bytes begin with both.
ghost use Rattle.std.specs.Prelude.{◌≡◌, ◌+◌, ◌≤◌, ◌/◌, All, length, map, sum};
ghost use Rattle.qc_descr.specs.Coding.{bits_differ, bytes_differ, differs_at, memory_bytes};
ghost use Rattle.qc_descr.specs.CodingFaults.{first_overlap, overlap_with};
ghost use Rattle.qc_descr.specs.Inner.Overlaps.{HasBytes};

use crate::coding::{Bit, Coding};
use crate::coding_bytes::{coding_size, memory_byte};
use crate::description::Instruction;
use crate::faults::DescrFault;
use qc_terms::Order;

/// Whether both bits are fixed, and differ.
fn differs_at(a: Bit, b: Bit) -> bool
    ensures { result ≡ differs_at a b }
{
    match a {
        Bit::Fixed { one } => match b {
            Bit::Fixed { one: other } => one != other,
            Bit::Piece { .. } => false,
        },
        Bit::Piece { .. } => false,
    }
}

/// Whether at some place that both have, both have a constant bit, and not the same one.
fn bits_differ(a: &[Bit], b: &[Bit]) -> bool
    ensures { result ≡ bits_differ a.now b.now }
{
    match a {
        [] => false,
        [first, a @ ..] => match b {
            [] => false,
            [second, b @ ..] => differs_at(*first, *second) || bits_differ(a, b),
        },
    }
}

/// The number of a coding's bytes in memory.
#[tactic(auto, using(crate::specs::Law::CodedBytes::sum_most))]
fn bytes_of_coding(coding: &Coding, order: Order) -> usize
    requires { HasBytes coding.now }
    ensures value { result ≡ length (memory_bytes order coding.now) }
    ensures size { result ≡ sum coding.now.tokens / 8 }
{
    coding_size(coding)
}

/// Whether the codings differ in a constant bit at some place in memory that both have, so that no bytes begin with both.
#[tactic(auto, using(crate::proofs::Overlapping::bytes_end))]
fn codings_differ(order: Order, a: &Coding, b: &Coding) -> bool
    requires a { HasBytes a.now }
    requires b { HasBytes b.now }
    ensures { result ≡ bytes_differ (memory_bytes order a.now) (memory_bytes order b.now) }
{
    let bytes = bytes_of_coding(a, order).min(bytes_of_coding(b, order));
    for place in 0..bytes {
        if bits_differ(memory_byte(a, order, place), memory_byte(b, order, place)) {
            return true;
        }
    }
    false
}

/// An overlap of an instruction of this number with the first of those that have numbers from the second one on.
fn overlap_with(
    order: Order,
    number: u32,
    instruction: &Instruction,
    from: u32,
    others: &[Instruction],
) -> Option<DescrFault>
    requires one { HasBytes instruction.now.coding }
    requires others { All (λ i. HasBytes i.coding) others.now }
    requires few { from + length others.now ≤ 256 }
    ensures { result ≡ overlap_with order number instruction.now.coding from (map (λ i. i.coding) others.now) }
{
    match others {
        [] => None,
        [other, others @ ..] => {
            if codings_differ(order, &instruction.coding, &other.coding) {
                overlap_with(order, number, instruction, from + 1, others)
            } else {
                Some(DescrFault::Overlap { a: number, b: from })
            }
        }
    }
}

/// The first overlap of two instructions, where the first has this number.
pub(crate) fn first_overlap(
    order: Order,
    number: u32,
    instructions: &[Instruction],
) -> Option<DescrFault>
    requires bytes { All (λ i. HasBytes i.coding) instructions.now }
    requires few { number + length instructions.now ≤ 256 }
    ensures { result ≡ first_overlap order number (map (λ i. i.coding) instructions.now) }
{
    match instructions {
        [] => None,
        [instruction, others @ ..] => {
            let overlap = overlap_with(order, number, instruction, number + 1, others);
            if overlap.is_some() {
                return overlap;
            }
            first_overlap(order, number + 1, others)
        }
    }
}

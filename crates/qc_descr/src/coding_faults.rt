//! What is wrong with the codings of operations, each by itself.
ghost use Rattle.std.specs.Prelude.{◌≡◌, ℕ, ◌+◌, ◌<◌, ◌≤◌, All, IfSome, if◌then◌else◌, length, map, count_by};
ghost use Rattle.std.specs.Prelude.{nat_eq, nat_lt, slice_index};
ghost use Rattle.std.specs.List.{list_any};
ghost use Rattle.std.specs.Option.{option_map};
ghost use Rattle.qc_descr.specs.Coding.{is_piece};
ghost use Rattle.qc_descr.specs.CodingFaults.{all_dropped, all_suit, bits_of_claims, claimed_bits, dropped_bits};
ghost use Rattle.qc_descr.specs.CodingFaults.{exponent_below, is_covering, is_free, is_several, missing_from};
ghost use Rattle.qc_descr.specs.CodingFaults.{operand_size, operand_sizes, operands_of, operations_fault, sketch_fault};
ghost use Rattle.qc_descr.specs.CodingFaults.{sketches_fault, suits, word_bits};
ghost use Rattle.qc_descr.specs.Inner.Standing.{bit_is_right};
ghost use Rattle.qc_descr.specs.Valid.{all_below, stands_once};

use crate::coding::{Bit, Reach};
use crate::description::{OperandKind, Space};
use crate::faults::DescrFault;
use crate::parts::Operation;
use crate::sketch::{Claim, Sketch};
use arrayvec::ArrayVec;
use qc_text::Text;
use qc_words::Width;
use sqlite_items::Items;

/// The n with 2 to the n so much, where it is below 7.
#[tactic(auto, unfolding(crate::specs::CodingFaults::exponent_below))]
fn exponent(count: u32) -> Option<u8>
    ensures { result ≡ exponent_below 7 count }
{
    match count {
        1 => Some(0),
        2 => Some(1),
        4 => Some(2),
        8 => Some(3),
        16 => Some(4),
        32 => Some(5),
        64 => Some(6),
        _ => None,
    }
}

/// A number of bits that is from 1 to the word's.
fn word_bits(word: Width, bits: u8) -> Option<u8>
    ensures { result ≡ word_bits word bits }
{
    if 1 <= bits && bits <= word.bits() {
        Some(bits)
    } else {
        None
    }
}

/// How many bits a register of a space has.
#[tactic(auto, using(crate::proofs::Standing::no_cells))]
fn register_size(spaces: &[Space], space: u32) -> Option<u8>
    ensures { result ≡ exponent_below 7 (slice_index (map (λ s. s.cells) spaces.now) space) }
{
    match spaces.get(space as usize) {
        Some(space) => exponent(space.cells),
        None => None,
    }
}

/// How many bits an operand has that is coded as it is, if it may be.
fn plain_size(spaces: &[Space], kind: OperandKind) -> Option<u8>
    ensures { (word : ℕ) → result ≡ operand_size word spaces.now kind Reach.Plain }
{
    match kind {
        OperandKind::Register { space } => register_size(spaces, space),
        OperandKind::Imm { width } => Some(width.bits()),
        OperandKind::Addr => None,
    }
}

/// How many bits an operand has, if its reach suits it: a register of 2 to the n cells has n, an immediate has its
/// width, and an address has those of its reach, from 1 to the word's.
pub fn operand_size(word: Width, spaces: &[Space], kind: OperandKind, reach: Reach) -> Option<u8>
    ensures { result ≡ operand_size word spaces.now kind reach }
{
    match reach {
        Reach::Plain => plain_size(spaces, kind),
        Reach::Relative { bits } | Reach::Absolute { bits } => match kind {
            OperandKind::Addr => word_bits(word, bits),
            OperandKind::Register { .. } | OperandKind::Imm { .. } => None,
        },
    }
}

/// Whether the reach is one of an operand of this kind.
fn suits(kind: OperandKind, reach: Reach) -> bool
    ensures { result ≡ suits kind reach }
{
    match kind {
        OperandKind::Register { .. } | OperandKind::Imm { .. } => reach == Reach::Plain,
        OperandKind::Addr => reach != Reach::Plain,
    }
}

/// Whether there is one reach for each operand, which suits it.
fn all_suit(operands: &[(Text, OperandKind)], reaches: &[Reach]) -> bool
    ensures { result ≡ all_suit (map (λ o. o.1) operands.now) reaches.now }
{
    match operands {
        [] => reaches.is_empty(),
        [(_, kind), operands @ ..] => match reaches {
            [] => false,
            [reach, reaches @ ..] => suits(*kind, *reach) && all_suit(operands, reaches),
        },
    }
}

/// The sizes of all operands, if there is one reach for each, and each has a size.
pub fn operand_sizes(
    word: Width,
    spaces: &[Space],
    operands: &[(Text, OperandKind)],
    reaches: &[Reach],
) -> Option<ArrayVec<u8, 8>>
    requires { length operands.now ≤ 8 }
    ensures sizes { option_map (λ sizes. sizes.items) result ≡ operand_sizes word spaces.now (map (λ o. o.1) operands.now) reaches.now }
    ensures count { IfSome result (λ sizes. length sizes.items ≡ length operands.now) }
{
    match operands {
        [] if reaches.is_empty() => Some(ArrayVec::new()),
        [] => None,
        [(_, kind), operands @ ..] => match reaches {
            [] => None,
            [reach, reaches @ ..] => {
                let size = operand_size(word, spaces, *kind, *reach)?;
                let mut sizes = operand_sizes(word, spaces, operands, reaches)?;
                sizes.insert(0, size);
                Some(sizes)
            }
        },
    }
}

/// Whether the bit is this bit of this operand.
fn is_piece(operand: u32, bit: u8, stands: Bit) -> bool
    ensures { result ≡ is_piece operand bit stands }
{
    stands == Bit::Piece { operand, bit }
}

/// How often this bit of this operand is among these bits.
pub fn pieces_among(operand: u32, bit: u8, bits: &[Bit]) -> usize
    ensures { result ≡ count_by (is_piece operand bit) bits.now }
{
    let mut count: usize = 0;
    for stands in bits {
        if is_piece(operand, bit, *stands) {
            count += 1;
        }
    }
    count
}

/// Whether this bit of this operand is among these bits.
fn has_piece_among(operand: u32, bit: u8, bits: &[Bit]) -> bool
    ensures { result ≡ list_any (is_piece operand bit) bits.now }
{
    for stands in bits {
        if is_piece(operand, bit, *stands) {
            return true;
        }
    }
    false
}

/// Whether this bit of this operand is claimed.
fn claim_has_piece(operand: u32, bit: u8, claim: &Claim) -> bool
    ensures { result ≡ list_any (is_piece operand bit) (claimed_bits claim.now) }
{
    match claim {
        Claim::Free => false,
        Claim::Once { bit: stands } => is_piece(operand, bit, *stands),
        Claim::Several { bits } => has_piece_among(operand, bit, bits.as_slice()),
    }
}

/// Whether this bit of this operand is claimed somewhere.
fn has_piece(operand: u32, bit: u8, claims: &[Claim]) -> bool
    ensures { result ≡ list_any (is_piece operand bit) (bits_of_claims claims.now) }
{
    for claim in claims {
        if claim_has_piece(operand, bit, claim) {
            return true;
        }
    }
    false
}

/// How often a claim has this bit of this operand.
fn pieces_of_claim(operand: u32, bit: u8, claim: &Claim) -> usize
    ensures { result ≡ count_by (is_piece operand bit) (claimed_bits claim.now) }
{
    match claim {
        Claim::Free => 0,
        Claim::Once { bit: stands } => usize::from(is_piece(operand, bit, *stands)),
        Claim::Several { bits } => pieces_among(operand, bit, bits.as_slice()),
    }
}

/// How often this bit of this operand is claimed.
fn count_pieces(operand: u32, bit: u8, claims: &[Claim]) -> u128
    ensures { result ≡ count_by (is_piece operand bit) (bits_of_claims claims.now) }
{
    let mut count: u128 = 0;
    for claim in claims {
        count += pieces_of_claim(operand, bit, claim) as u128;
    }
    count
}

/// How many of an operand's bits from this one on, of so many, stand nowhere before one that does.
#[tactic(auto, using(crate::proofs::Standing::missing_step, crate::proofs::Standing::missing_none))]
fn missing_from(operand: u32, claims: &[Claim], from: u8, count: u8) -> u8
    requires { from + count < 256 }
    ensures value { result ≡ missing_from operand (bits_of_claims claims.now) from count }
    ensures bound { result ≤ count }
{
    if count == 0 {
        0
    } else if has_piece(operand, from, claims) {
        0
    } else {
        1 + missing_from(operand, claims, from + 1, count - 1)
    }
}

/// The number of dropped bits of an operand of so many bits: of an address the lowest ones that stand nowhere.
fn dropped_bits(kind: OperandKind, operand: u32, claims: &[Claim], size: u8) -> u8
    ensures { result ≡ dropped_bits kind operand (bits_of_claims claims.now) size }
{
    match kind {
        OperandKind::Addr => missing_from(operand, claims, 0, size),
        OperandKind::Register { .. } | OperandKind::Imm { .. } => 0,
    }
}

/// The numbers of dropped bits of operands of these sizes, of which the first has this number.
fn all_dropped(
    operands: &[(Text, OperandKind)],
    number: u32,
    claims: &[Claim],
    sizes: &[u8],
) -> ArrayVec<u8, 8>
    requires { number + length operands.now ≤ 8 }
    ensures dropped { result.items ≡ all_dropped (map (λ o. o.1) operands.now) number (bits_of_claims claims.now) sizes.now }
    ensures count { length sizes.now ≡ length operands.now → length result.items ≡ length operands.now }
    ensures bound { length result.items ≤ length operands.now }
{
    match operands {
        [] => ArrayVec::new(),
        [(_, kind), operands @ ..] => match sizes {
            [] => ArrayVec::new(),
            [size, sizes @ ..] => {
                let mut dropped = all_dropped(operands, number + 1, claims, sizes);
                dropped.insert(0, dropped_bits(*kind, number, claims, *size));
                dropped
            }
        },
    }
}

/// Whether a bit of an operand stands in just one place, or in none where it is one of the lowest that are dropped.
fn bit_stands(operand: u32, bit: u8, dropped: u8, claims: &[Claim]) -> bool
    ensures { result ≡ nat_eq (count_by (is_piece operand bit) (bits_of_claims claims.now)) (if nat_lt bit dropped then 0 else 1) }
{
    let count = count_pieces(operand, bit, claims);
    if bit < dropped {
        count == 0
    } else {
        count == 1
    }
}

/// Whether each bit of an operand of this size stands where it should.
#[tactic(auto, using(crate::proofs::Standing::below_none, crate::proofs::Standing::below_more, crate::proofs::Standing::below_fails))]
fn operand_stands(operand: u32, size: u8, dropped: u8, claims: &[Claim]) -> bool
    ensures { result ≡ all_below size (bit_is_right operand dropped (bits_of_claims claims.now)) }
{
    for bit in 0..size {
        if !bit_stands(operand, bit, dropped, claims) {
            return false;
        }
    }
    true
}

/// Whether each bit of each operand of these sizes stands where it should.
#[tactic(auto, using(crate::proofs::Standing::below_none, crate::proofs::Standing::below_more, crate::proofs::Standing::below_fails))]
fn all_stand(sizes: &[u8], dropped: &[u8], claims: &[Claim]) -> bool
    requires few { length sizes.now ≤ 8 }
    requires dropped { length dropped.now ≡ length sizes.now }
    ensures { result ≡ stands_once sizes.now dropped.now (bits_of_claims claims.now) }
{
    for operand in 0..sizes.len() {
        if !operand_stands(operand as u32, sizes[operand], dropped[operand], claims) {
            return false;
        }
    }
    true
}

/// Whether the bit is free.
fn is_free(claim: &Claim) -> bool
    ensures { result ≡ is_free claim.now }
{
    match claim {
        Claim::Free => true,
        Claim::Once { .. } | Claim::Several { .. } => false,
    }
}

/// Whether a bit is free.
fn has_free(claims: &[Claim]) -> bool
    ensures { result ≡ list_any is_free claims.now }
{
    for claim in claims {
        if is_free(claim) {
            return true;
        }
    }
    false
}

/// Whether several things are said of the bit.
fn is_several(claim: &Claim) -> bool
    ensures { result ≡ is_several claim.now }
{
    match claim {
        Claim::Free | Claim::Once { .. } => false,
        Claim::Several { .. } => true,
    }
}

/// Whether several things are said of a bit.
fn has_several(claims: &[Claim]) -> bool
    ensures { result ≡ list_any is_several claims.now }
{
    for claim in claims {
        if is_several(claim) {
            return true;
        }
    }
    false
}

/// Whether no bit of a token is free, and all bits of the operands stand where they should.
fn is_covering(
    word: Width,
    spaces: &[Space],
    operands: &[(Text, OperandKind)],
    sketch: &Sketch,
) -> bool
    requires { length operands.now ≤ 8 }
    ensures { result ≡ is_covering (record { word = word; spaces = spaces.now; kinds = map (λ o. o.1) operands.now }) sketch.now }
{
    let claims = sketch.claims.as_slice();
    if has_free(claims) {
        return false;
    }
    match operand_sizes(word, spaces, operands, sketch.reaches.as_slice()) {
        Some(sizes) => {
            let dropped = all_dropped(operands, 0, claims, sizes.as_slice());
            all_stand(sizes.as_slice(), dropped.as_slice(), claims)
        }
        None => true,
    }
}

/// What is wrong with the operation of this number, by its one alternative.
#[tactic(auto, unfolding(crate::specs::CodingFaults::sketch_fault))]
fn sketch_fault(
    word: Width,
    spaces: &[Space],
    number: u32,
    operands: &[(Text, OperandKind)],
    sketch: &Sketch,
) -> Option<DescrFault>
    requires { length operands.now ≤ 8 }
    ensures { result ≡ sketch_fault (record { word = word; spaces = spaces.now; kinds = map (λ o. o.1) operands.now }) number sketch.now }
{
    if !all_suit(operands, sketch.reaches.as_slice()) {
        return Some(DescrFault::Uncovered {
            instruction: number,
        });
    }
    if sketch.misfit {
        return Some(DescrFault::FieldRange {
            instruction: number,
        });
    }
    if !is_covering(word, spaces, operands, sketch) {
        return Some(DescrFault::Uncovered {
            instruction: number,
        });
    }
    if has_several(sketch.claims.as_slice()) {
        return Some(DescrFault::FieldRange {
            instruction: number,
        });
    }
    None
}

/// What is wrong with the operation of this number, by its alternatives, of which there has to be one.
fn sketches_fault(
    word: Width,
    spaces: &[Space],
    number: u32,
    operation: &Operation,
    alternatives: &[Sketch],
) -> Option<DescrFault>
    requires { length operation.now.operands ≤ 8 }
    ensures { result ≡ sketches_fault (operands_of word spaces.now operation.now) number alternatives.now }
{
    match alternatives {
        [sketch] => sketch_fault(word, spaces, number, operation.operands.as_slice(), sketch),
        _ => Some(DescrFault::Uncovered {
            instruction: number,
        }),
    }
}

/// What is wrong with the first operation that isn't well coded, where the first has this number.
pub(crate) fn operations_fault(
    word: Width,
    spaces: &[Space],
    number: u32,
    operations: &[Operation],
    sketches: &[Items<Sketch>],
) -> Option<DescrFault>
    requires few { All (λ o. length o.operands ≤ 8) operations.now }
    requires number { number + length operations.now ≤ 256 }
    ensures { result ≡ operations_fault word spaces.now number operations.now sketches.now }
{
    match operations {
        [] => None,
        [operation, operations @ ..] => match sketches {
            [] => None,
            [alternatives, sketches @ ..] => {
                let fault = sketches_fault(
                    word,
                    spaces,
                    number,
                    operation,
                    alternatives.as_slice(),
                );
                if fault.is_some() {
                    return fault;
                }
                operations_fault(word, spaces, number + 1, operations, sketches)
            }
        },
    }
}

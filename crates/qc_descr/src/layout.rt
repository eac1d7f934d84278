//! The layout of a machine, part by part.
ghost use Rattle.std.specs.Prelude.{◌≡◌, ◌+◌, ◌<◌, [], ◌∷◌, length, sum, IsTrue, nat_eq, nat_le, nat_lt};
ghost use Rattle.std.specs.List.{list_all};
ghost use Rattle.qc_words.specs.Width.{IsWidth};
ghost use Rattle.qc_descr.specs.declared.faults.Part.TheVariants.{Frame, Link, Zero, Allocatable, Flags};
ghost use Rattle.qc_descr.specs.Layout.{first_unfit, fits_align, fits_allocatable, fits_code, fits_data, fits_flags};
ghost use Rattle.qc_descr.specs.Layout.{fits_frame, fits_if_given, fits_link, fits_memory, fits_slot_bits, fits_word};
ghost use Rattle.qc_descr.specs.Layout.{fits_zero, has_flags, has_words, is_aligned, is_alignment, is_allocatable};
ghost use Rattle.qc_descr.specs.Layout.{is_left_out, is_other_than, is_same_cell, unfit_part};
ghost use Rattle.qc_descr.specs.Parts.{AreParts, word_of};

use crate::faults::Part;
use crate::parts::Given;
use crate::sketch::{Parts, Sketch};
use sqlite_items::Items;

/// The bits of a word, or 32 where none is given.
pub(crate) fn word_bits(given: &Given) -> u8
    ensures value { result ≡ word_of given.now }
    ensures range { IsWidth result }
{
    match given.word {
        Some(word) => word.bits(),
        None => 32,
    }
}

/// Whether the two are one cell.
fn is_same_cell(a: (u32, u32), b: (u32, u32)) -> bool
    ensures { result ≡ is_same_cell a b }
{
    a.0 == b.0 && a.1 == b.1
}

/// Whether the cell isn't this one, where that is given.
fn is_other_than(given: Option<(u32, u32)>, cell: (u32, u32)) -> bool
    ensures { result ≡ is_other_than given cell }
{
    match given {
        Some(other) => !is_same_cell(cell, other),
        None => true,
    }
}

/// Whether the cells of a space are words of the machine.
fn has_words(parts: &Parts, space: u32) -> bool
    requires { space < length parts.now.spaces }
    ensures { result ≡ has_words parts.now space }
{
    parts.spaces.as_slice()[space as usize].width.bits() == word_bits(&parts.given)
}

/// Whether the cells of a space are flags.
fn has_flags(parts: &Parts, space: u32) -> bool
    ensures { result ≡ has_flags parts.now space }
{
    match parts.spaces.get(space as usize) {
        Some(space) => space.flags,
        None => false,
    }
}

/// Whether a compiler may use the cell, from the first to the last of a space.
fn is_allocatable(cells: (u32, u32, u32), cell: (u32, u32)) -> bool
    ensures { result ≡ is_allocatable cells cell }
{
    cell.0 == cells.0 && cells.1 <= cell.1 && cell.1 <= cells.2
}

/// Whether a compiler may not use the cell, where one is given.
fn is_left_out(cells: (u32, u32, u32), given: Option<(u32, u32)>) -> bool
    ensures { result ≡ is_left_out cells given }
{
    match given {
        Some(cell) => !is_allocatable(cells, cell),
        None => true,
    }
}

fn fits_word(parts: &Parts) -> bool
    ensures { result ≡ fits_word parts.now }
{
    match parts.given.word {
        Some(word) => (word.bits() == 16 || word.bits() == 32) && parts.given.order.is_some(),
        None => false,
    }
}

fn fits_memory(parts: &Parts) -> bool
    requires { IsTrue (fits_word parts.now) }
    ensures { result ≡ fits_memory parts.now }
{
    let word = word_bits(&parts.given);
    match parts.given.memory {
        Some(memory) => {
            u128::from(memory) <= 1u128 << word
                && memory <= 67_108_864
                && memory % u64::from(word / 8) == 0
        }
        None => false,
    }
}

fn fits_slot_bits(parts: &Parts) -> bool
    ensures { result ≡ fits_slot_bits parts.now }
{
    match parts.given.slot_bits {
        Some(bits) => 4 <= bits && bits <= u64::from(word_bits(&parts.given)),
        None => false,
    }
}

/// Whether the data region's end is above the code region's, where it is given.
fn is_below_data(code_end: u64, data_end: Option<u64>) -> bool
    ensures { result ≡ fits_if_given (nat_lt code_end) data_end }
{
    match data_end {
        Some(data_end) => code_end < data_end,
        None => true,
    }
}

fn fits_code(parts: &Parts) -> bool
    ensures { result ≡ fits_code parts.now }
{
    match parts.given.code_end {
        Some(code_end) => {
            16 <= code_end && code_end <= 1_048_576 && is_below_data(code_end, parts.given.data_end)
        }
        None => false,
    }
}

/// Whether the data region has at least 8 bytes, where the code region's end is given.
fn has_room_for_data(code_end: Option<u64>, data_end: u64) -> bool
    ensures { result ≡ fits_if_given (λ c. nat_le (c + 8) data_end) code_end }
{
    match code_end {
        Some(code_end) => data_end >= 8 && code_end <= data_end - 8,
        None => true,
    }
}

fn fits_data(parts: &Parts) -> bool
    ensures { result ≡ fits_data parts.now }
{
    match parts.given.data_end {
        Some(data_end) => {
            has_room_for_data(parts.given.code_end, data_end)
                && is_below_data(data_end, parts.given.memory)
        }
        None => false,
    }
}

fn is_alignment(align: u64) -> bool
    ensures { result ≡ is_alignment align }
{
    align == 1 || align == 2 || align == 4 || align == 8 || align == 16
}

/// The number of bits of these tokens. No slice is so long that the sum overflows.
fn bits_of_tokens(tokens: &[u8]) -> u128
    ensures { result ≡ sum tokens.now }
{
    let mut bits = 0;
    for token in tokens {
        bits += u128::from(*token);
    }
    bits
}

/// Whether an operation of one alternative without misfit has a multiple of so many bytes.
fn is_aligned(align: u64, sketches: &[Sketch]) -> bool
    requires { 0 < align }
    ensures { result ≡ is_aligned align sketches.now }
{
    match sketches {
        [sketch] => {
            sketch.misfit || bits_of_tokens(sketch.tokens.as_slice()) / 8 % u128::from(align) == 0
        }
        _ => true,
    }
}

/// Whether each operation is aligned.
fn all_aligned(align: u64, sketches: &[Items<Sketch>]) -> bool
    requires { 0 < align }
    ensures { result ≡ list_all (is_aligned align) sketches.now }
{
    for alternatives in sketches {
        if !is_aligned(align, alternatives.as_slice()) {
            return false;
        }
    }
    true
}

fn fits_align(parts: &Parts) -> bool
    ensures { result ≡ fits_align parts.now }
{
    match parts.given.align {
        Some(align) => is_alignment(align) && all_aligned(align, parts.sketches.as_slice()),
        None => false,
    }
}

fn fits_frame(parts: &Parts) -> bool
    requires { AreParts parts.now.name parts.now.given parts.now.spaces parts.now.operations }
    ensures { result ≡ fits_frame parts.now }
{
    match parts.given.frame {
        Some(cell) => has_words(parts, cell.0),
        None => false,
    }
}

fn fits_link(parts: &Parts) -> bool
    requires { AreParts parts.now.name parts.now.given parts.now.spaces parts.now.operations }
    ensures { result ≡ fits_link parts.now }
{
    match parts.given.link {
        Some(cell) => has_words(parts, cell.0) && is_other_than(parts.given.frame, cell),
        None => false,
    }
}

fn fits_zero(parts: &Parts) -> bool
    requires { AreParts parts.now.name parts.now.given parts.now.spaces parts.now.operations }
    ensures { result ≡ fits_zero parts.now }
{
    match parts.given.zero {
        Some(cell) => {
            has_words(parts, cell.0)
                && is_other_than(parts.given.frame, cell)
                && is_other_than(parts.given.link, cell)
        }
        None => true,
    }
}

/// Whether the cell is one of this space, where it is given.
fn is_of_space(space: u32, given: Option<(u32, u32)>) -> bool
    ensures { result ≡ fits_if_given (λ cell. nat_eq cell.0 space) given }
{
    match given {
        Some(cell) => cell.0 == space,
        None => true,
    }
}

fn fits_allocatable(parts: &Parts) -> bool
    requires { AreParts parts.now.name parts.now.given parts.now.spaces parts.now.operations }
    ensures { result ≡ fits_allocatable parts.now }
{
    match parts.given.allocatable {
        Some(cells) => {
            cells.1 <= cells.2
                && has_words(parts, cells.0)
                && !has_flags(parts, cells.0)
                && is_of_space(cells.0, parts.given.frame)
                && is_of_space(cells.0, parts.given.link)
                && is_left_out(cells, parts.given.frame)
                && is_left_out(cells, parts.given.link)
                && is_left_out(cells, parts.given.zero)
        }
        None => false,
    }
}

fn fits_flags(parts: &Parts) -> bool
    ensures { result ≡ fits_flags parts.now }
{
    for space in parts.spaces.as_slice() {
        if space.flags && space.width.bits() != 1 {
            return false;
        }
    }
    true
}

/// The first of the cells' parts that isn't given or doesn't fit.
#[tactic(auto, unfolding(crate::specs::Layout::fits))]
fn unfit_cells(parts: &Parts) -> Option<Part>
    requires { AreParts parts.now.name parts.now.given parts.now.spaces parts.now.operations }
    ensures { result ≡ first_unfit parts.now (Frame ∷ Link ∷ Zero ∷ Allocatable ∷ Flags ∷ []) }
{
    if !fits_frame(parts) {
        return Some(Part::Frame);
    }
    if !fits_link(parts) {
        return Some(Part::Link);
    }
    if !fits_zero(parts) {
        return Some(Part::Zero);
    }
    if !fits_allocatable(parts) {
        return Some(Part::Allocatable);
    }
    if !fits_flags(parts) {
        return Some(Part::Flags);
    }
    None
}

/// The first part of the layout that isn't given or doesn't fit.
#[tactic(auto, unfolding(crate::specs::Layout::fits))]
pub(crate) fn unfit_part(parts: &Parts) -> Option<Part>
    requires { AreParts parts.now.name parts.now.given parts.now.spaces parts.now.operations }
    ensures { result ≡ unfit_part parts.now }
{
    if !fits_word(parts) {
        return Some(Part::Word);
    }
    if !fits_memory(parts) {
        return Some(Part::Memory);
    }
    if !fits_code(parts) {
        return Some(Part::Code);
    }
    if !fits_data(parts) {
        return Some(Part::Data);
    }
    if !fits_align(parts) {
        return Some(Part::Align);
    }
    if !fits_slot_bits(parts) {
        return Some(Part::SlotBits);
    }
    unfit_cells(parts)
}

//! The facts that the items give, and the spaces.
ghost use Rattle.std.specs.Prelude.{◌≡◌, ◌<◌, ◌^◌, true, map, Some, IfOk};
ghost use Rattle.std.specs.List.{list_all};
ghost use Rattle.std.specs.Option.{option_flatten};
ghost use Rattle.qc_widths.specs.GivenFacts.{first_given, given_number, given_cell, given_in};
ghost use Rattle.qc_widths.specs.GivenFacts.{word_given as word_of_item, order_of as order_of_syntax};
ghost use Rattle.qc_widths.specs.GivenFacts.{order_given as order_of_item, allocatable_given as allocatable_of_item};
ghost use Rattle.qc_facts.specs.Facts.{facts_in};
ghost use Rattle.qc_widths.specs.Machine.{space_of};
ghost use Rattle.qc_widths.specs.Inner.Given.{size_of_item, cell_of_item, has_small_cells, is_small_space};

use crate::nodes::bits_of;
use qc_descr::{Given, Space};
use qc_facts::{Facts, SpaceFacts, width_in};
use qc_grammar::{Ident, Number};
use qc_lrtl::{ByteOrder, Item};
use qc_terms::Order;
use qc_text::Text;
use qc_words::Width;
use sqlite_items::Items;
use std::alloc::{AllocError, Global};

/// The sizes that items give.
#[derive(Clone, Copy, Debug, PartialEq, Eq)]
pub(crate) enum Size {
    Align,
    SlotBits,
    Memory,
    Code,
    Data,
}

/// The cells that items give.
#[derive(Clone, Copy, Debug, PartialEq, Eq)]
pub(crate) enum CellItem {
    Zero,
    Frame,
    Link,
}

fn word_given(items: &[Item]) -> Option<Width>
    ensures { result ≡ option_flatten (first_given word_of_item items.now) }
{
    for item in items {
        if let Item::Word { bits, .. } = item {
            return width_in(bits);
        }
    }
    None
}

fn order_of(order: ByteOrder) -> Order
    ensures { result ≡ order_of_syntax order }
{
    match order {
        ByteOrder::Little => Order::Little,
        ByteOrder::Big => Order::Big,
    }
}

fn order_given(items: &[Item]) -> Option<Order>
    ensures { result ≡ first_given order_of_item items.now }
{
    for item in items {
        if let Item::ByteOrder { order, .. } = item {
            return Some(order_of(*order));
        }
    }
    None
}

/// A number as far as 2^64 - 1.
fn number_given(number: &Number) -> u64
    ensures { result ≡ given_number number.now }
{
    number.value.min(u128::from(u64::MAX)) as u64
}

fn size_in(size: Size, item: &Item) -> Option<u64>
    ensures { result ≡ size_of_item size item.now }
{
    match size {
        Size::Align => match item {
            Item::Align { bytes, .. } => Some(number_given(bytes)),
            _ => None,
        },
        Size::SlotBits => match item {
            Item::SlotBits { bits, .. } => Some(number_given(bits)),
            _ => None,
        },
        Size::Memory => match item {
            Item::Memory { bytes, .. } => Some(number_given(bytes)),
            _ => None,
        },
        Size::Code => match item {
            Item::Code { end, .. } => Some(number_given(end)),
            _ => None,
        },
        Size::Data => match item {
            Item::Data { end, .. } => Some(number_given(end)),
            _ => None,
        },
    }
}

/// The first of a size.
fn size_given(size: Size, items: &[Item]) -> Option<u64>
    ensures { result ≡ first_given (size_of_item size) items.now }
{
    for item in items {
        if let Some(number) = size_in(size, item) {
            return Some(number);
        }
    }
    None
}

/// The place of a space, and the number of one of its cells.
fn cell_of(facts: &Facts, space: &Ident, cell: &Number) -> (u32, u32)
    requires { cell.now.value < 2 ^ 32 }
    ensures { result ≡ given_cell facts.now space.now cell.now }
{
    match facts.place(space.text.as_slice()) {
        None => (0, cell.value as u32),
        Some(place) => (place, cell.value as u32),
    }
}

fn cell_in(facts: &Facts, cell: CellItem, item: &Item) -> Option<(u32, u32)>
    requires { has_small_cells item.now ≡ true }
    ensures { result ≡ cell_of_item cell facts.now item.now }
{
    match cell {
        CellItem::Zero => match item {
            Item::Zero { space, cell, .. } => Some(cell_of(facts, space, cell)),
            _ => None,
        },
        CellItem::Frame => match item {
            Item::Frame { space, cell, .. } => Some(cell_of(facts, space, cell)),
            _ => None,
        },
        CellItem::Link => match item {
            Item::Link { space, cell, .. } => Some(cell_of(facts, space, cell)),
            _ => None,
        },
    }
}

/// The first cell of a kind.
fn cell_given(facts: &Facts, cell: CellItem, items: &[Item]) -> Option<(u32, u32)>
    requires { list_all has_small_cells items.now ≡ true }
    ensures { result ≡ first_given (cell_of_item cell facts.now) items.now }
{
    for item in items {
        if let Some(found) = cell_in(facts, cell, item) {
            return Some(found);
        }
    }
    None
}

fn allocatable_in(facts: &Facts, item: &Item) -> Option<(u32, u32, u32)>
    requires { has_small_cells item.now ≡ true }
    ensures { result ≡ allocatable_of_item facts.now item.now }
{
    match item {
        Item::Allocatable {
            space,
            first,
            last,
            ..
        } => {
            let (place, first) = cell_of(facts, space, first);
            Some((place, first, last.value as u32))
        }
        _ => None,
    }
}

/// The first cells that a compiler may use.
fn allocatable_given(facts: &Facts, items: &[Item]) -> Option<(u32, u32, u32)>
    requires { list_all has_small_cells items.now ≡ true }
    ensures { result ≡ first_given (allocatable_of_item facts.now) items.now }
{
    for item in items {
        if let Some(found) = allocatable_in(facts, item) {
            return Some(found);
        }
    }
    None
}

/// The facts that the items give.
pub(crate) fn given(facts: &Facts, items: &[Item]) -> Given
    requires facts { facts.now ≡ facts_in items.now }
    requires cells { list_all has_small_cells items.now ≡ true }
    ensures { result ≡ given_in items.now }
{
    Given {
        word: word_given(items),
        order: order_given(items),
        align: size_given(Size::Align, items),
        slot_bits: size_given(Size::SlotBits, items),
        frame: cell_given(facts, CellItem::Frame, items),
        link: cell_given(facts, CellItem::Link, items),
        zero: cell_given(facts, CellItem::Zero, items),
        allocatable: allocatable_given(facts, items),
        memory: size_given(Size::Memory, items),
        code_end: size_given(Size::Code, items),
        data_end: size_given(Size::Data, items),
    }
}

fn space_from(alloc: Global, facts: &SpaceFacts) -> Result<Space, AllocError>
    requires { is_small_space facts.now ≡ true }
    ensures { IfOk result (λ space. space ≡ space_of facts.now) }
{
    Ok(Space {
        name: Text::new(alloc, facts.name.bytes())?,
        cells: facts.cells as u32,
        width: bits_of(&facts.width),
        flags: facts.flags,
    })
}

/// The spaces in order.
pub(crate) fn spaces_given(alloc: Global, facts: &Facts) -> Result<Items<Space>, AllocError>
    requires { list_all is_small_space facts.now.spaces ≡ true }
    ensures { IfOk result (λ spaces. spaces ≡ map space_of facts.now.spaces) }
{
    let mut spaces = Items::new(alloc);
    let all = facts.spaces();
    for space in all {
        spaces.push(space_from(alloc, space)?)?;
    }
    Ok(spaces)
}

//! The width of words and the spaces that items declare.
ghost use Rattle.std.specs.Prelude.{◌≡◌, ◌++◌, ◌∷◌, [], OnOk, IfOk};
ghost use Rattle.qc_facts.specs.Facts.{word_in, spaces_in};
ghost use Rattle.qc_facts.specs.SpaceTables.{HasTable};

use crate::facts::SpaceFacts;
use crate::numbers::width_in;
use qc_lrtl::Item;
use qc_names::NameTable;
use qc_text::Text;
use qc_words::Width;
use sqlite_items::Items;
use std::alloc::{AllocError, Global};

const ABOVE_NUMBERS: u128 = 1 << 64;

/// The width of words, which is 32 where no item gives it.
pub fn word_of(items: &[Item]) -> Option<Width>
    ensures { result ≡ word_in items.now }
{
    for item in items {
        if let Item::Word { bits, .. } = item {
            return width_in(bits);
        }
    }
    Width::new(32)
}

/// Adds a space. More spaces than a place can count are want of memory, and so are more cells than a number of a text.
fn add_space(
    alloc: Global,
    spaces: &mut Items<SpaceFacts>,
    table: &mut NameTable,
    space: SpaceFacts,
) -> Result<(), AllocError>
    requires { HasTable spaces.old table.old }
    ensures spaces { OnOk result (spaces.new ≡ spaces.old ++ space ∷ []) }
    ensures table { OnOk result (HasTable spaces.new table.new) }
{
    let place = spaces.len();
    if place >= u32::MAX as usize || space.cells > ABOVE_NUMBERS {
        return Err(AllocError);
    }
    table.enter(alloc, space.name.bytes(), place)?;
    spaces.push(space)
}

/// The spaces that the items declare, and a table of their names.
pub fn spaces_of(
    alloc: Global,
    items: &[Item],
) -> Result<(Items<SpaceFacts>, NameTable), AllocError>
    ensures spaces { IfOk result (λ r. r.0 ≡ spaces_in items.now) }
    ensures table { IfOk result (λ r. HasTable r.0 r.1) }
{
    let mut spaces = Items::new(alloc);
    let mut table = NameTable::new(alloc);
    for item in items {
        if let Item::Space {
            name,
            cells,
            bits,
            flags,
            ..
        } = item
        {
            let space = SpaceFacts {
                name: Text::new(alloc, name.text.as_slice())?,
                cells: cells.value,
                width: width_in(bits),
                flags: *flags,
            };
            add_space(alloc, &mut spaces, &mut table, space)?;
        }
    }
    Ok((spaces, table))
}

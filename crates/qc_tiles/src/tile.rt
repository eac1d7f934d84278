ghost use Rattle.std.specs.Prelude.{◌≡◌, IfOk, option_to_list};
ghost use Rattle.qc_tiles.specs.Facts.{AreTileFacts};
ghost use Rattle.qc_tiles.specs.Tiles.{tile_of, tiles_of};

use crate::effects::effects;
use crate::name::{TILE_NAMES, TileName};
use qc_descr::Description;
use qc_terms::Rtl;
use qc_words::Width;
use sqlite_items::Items;
use std::alloc::{AllocError, Global};

/// Why nothing was made: memory is wanting.
pub type NoMemory = AllocError;

/// What tiles need to know of a machine: its word, the alignment of its instructions in bytes, the width of a frame
/// offset in bits, and the cells of the frame and of the link, by space and index.
#[derive(Clone, Copy, Debug, PartialEq, Eq)]
pub struct TileFacts {
    pub word: Width,
    pub align: u64,
    pub slot_bits: u8,
    pub frame: (u32, u32),
    pub link: (u32, u32),
}

impl TileFacts {
    ghost use Rattle.qc_tiles.specs.Sound.{facts_of};

    /// What a description gives to tiles.
    pub fn of(descr: &Description) -> TileFacts
        ensures { result ≡ facts_of descr.now }
    {
        TileFacts {
            word: descr.facts.word,
            align: descr.align,
            slot_bits: descr.slot_bits,
            frame: descr.frame,
            link: descr.link,
        }
    }
}

/// A tile: its name, the number of its register parameters, the widths of its constants, whether it has a target, what it
/// does, and whether it is core, which is to say no multiplication or division.
///
/// The register parameters are the first operands of its register transfer list and of the frame cell's space; then come
/// the constants, and then the target.
#[derive(Debug, Drop)]
pub struct Tile {
    pub name: TileName,
    pub registers: u8,
    pub constants: Items<Width>,
    pub target: bool,
    pub rtl: Rtl,
    pub core: bool,
}

/// The list of at most one width.
fn widths(alloc: Global, width: Option<Width>) -> Result<Items<Width>, NoMemory>
    ensures { IfOk result (λ ws. ws ≡ option_to_list width) }
{
    match width {
        Some(width) => Items::from_slice(alloc, &[width]),
        None => Ok(Items::new(alloc)),
    }
}

/// The tile of a name.
fn tile_named(alloc: Global, facts: &TileFacts, name: TileName) -> Result<Tile, NoMemory>
    requires { AreTileFacts facts.now }
    ensures { IfOk result (λ t. t ≡ tile_of facts.now name) }
{
    let constants = widths(alloc, name.shape().constant(facts))?;
    let effects = effects(alloc, facts, name.shape())?;
    Ok(Tile {
        name,
        registers: name.shape().registers(),
        constants,
        target: name.shape().has_target(),
        rtl: Rtl { effects },
        core: name.is_core(),
    })
}

/// The tiles of a machine with these facts, in order.
pub fn tiles(alloc: Global, facts: &TileFacts) -> Result<Vec<Tile>, NoMemory>
    requires { AreTileFacts facts.now }
    ensures { IfOk result (λ ts. ts.items ≡ tiles_of facts.now) }
{
    let mut found = Vec::new(alloc);
    for name in TILE_NAMES {
        if name.shape().stands_at(facts.word) {
            found.push(tile_named(alloc, facts, name)?)?;
        }
    }
    Ok(found)
}

ghost use Rattle.std.specs.Prelude.{◌≡◌, IfOk};
ghost use Rattle.std.specs.List.{position};
ghost use Rattle.std.specs.Option.{option_copied};
ghost use Rattle.qc_descr.specs.Valid.{IsValid};
ghost use Rattle.qc_tiles.specs.declared.name.TileName.{TileName};
ghost use Rattle.qc_tiles.specs.Names.{has_text, text_of};
ghost use Rattle.qc_code.specs.Templates.{AreTemplates, AreTemplatesOf, names_of, template_among, template_of};

use crate::template::Template;
use qc_descr::Description;
use qc_tiles::{TileFacts, TileName, descriptions_have_tiles, texts_name_one_tile, tiles};
use sqlite_items::Items;
use std::alloc::{AllocError, Global};

/// Why nothing was made: memory is wanting.
pub type NoMemory = AllocError;

/// For each tile of a machine a template, or none.
#[derive(Debug, Drop)]
pub struct Templates {
    names: Items<TileName>,
    list: Items<Option<Template>>,
}

/// Whether the name is this tile's.
fn is_named(name: TileName, tile: TileName) -> bool
    ensures { result ≡ has_text (text_of tile) name }
{
    name.text() == tile.text()
}

/// The place of a name.
fn place_of(names: &[TileName], tile: TileName) -> Option<usize>
    ensures { result ≡ position (has_text (text_of tile)) names.now }
{
    names.iter().position(|name| is_named(*name, tile))
}

/// The names of a machine's tiles, in order.
fn names(alloc: Global, descr: &Description) -> Result<Items<TileName>, NoMemory>
    requires { IsValid descr.now }
    ensures { IfOk result (λ ns. ns ≡ names_of descr.now) }
{
    descriptions_have_tiles();
    let tiles = tiles(alloc, &TileFacts::of(descr))?;
    let mut names = Items::new(alloc);
    for tile in &tiles {
        names.push(tile.name)?;
    }
    Ok(names)
}

impl Templates {
    /// The templates of a list, which has an entry for each of the description's tiles, in order.
    pub fn new(
        alloc: Global,
        list: Vec<Option<Template>>,
        descr: &Description,
    ) -> Result<Templates, NoMemory>
        requires valid { IsValid descr.now }
        requires templates { AreTemplates descr.now list.items }
        ensures listed { IfOk result (λ made. (tile : TileName) →
            template_of made tile ≡ template_among (names_of descr.now) list.items tile) }
        ensures made { IfOk result (AreTemplatesOf descr.now) }
    {
        texts_name_one_tile();
        let names = names(alloc, descr)?;
        Ok(Templates {
            names,
            list: Items::from_vec(list),
        })
    }

    /// The template of a tile, or none where that tile has none.
    pub fn of(&self, tile: TileName) -> Option<&Template>
        ensures { option_copied result ≡ template_of self.now tile }
    {
        let place = place_of(self.names.as_slice(), tile)?;
        match self.list.get(place) {
            Some(entry) => entry.as_ref(),
            None => None,
        }
    }
}

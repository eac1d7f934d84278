//! Tiles: the register transfer lists that a compiler makes its code of, the same for all machines but for their words
//! and cells. For each a sequence of a machine's instructions is to be found.
//!
//! Tiles are those of Dias and Ramsey, "Automatically generating instruction selectors using declarative machine
//! descriptions", POPL 2010.
#![tactic(auto)]

mod effects;
mod laws;
mod name;
mod shape;
mod terms;
mod tile;

pub use laws::{
    descriptions_have_tiles, numbers_of_tiles, texts_name_one_tile, tiles_are_sound,
    trees_are_of_their_terms,
};
pub use name::{TILE_NAMES, TileName, tile_by_text};
pub use shape::Shape;
pub use tile::{NoMemory, Tile, TileFacts, tiles};

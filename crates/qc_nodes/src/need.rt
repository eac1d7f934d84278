use qc_terms::{Effect, Term};
use sqlite_items::Items;

/// What a node of a derivation is to compute: a value into a register of its own, or into a flag; or what a tile does.
#[derive(Debug, Drop)]
pub enum Need {
    Register { value: Term },
    Flag { space: u32, index: u64, value: Term },
    Tile { effects: Items<Effect> },
}

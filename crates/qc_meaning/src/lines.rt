use qc_descr::Instance;
use qc_tiles::TileName;
use sqlite_items::Items;

/// A line of code that is made of tiles: a label, or a tile with its registers, its constants and, where the tile has one,
/// its target. A target below the number of procedures is that procedure, and another is the label of that number.
#[derive(Debug, Drop)]
pub enum TileLine {
    Label {
        number: u32,
    },
    Inst {
        tile: TileName,
        registers: Items<u32>,
        constants: Items<u64>,
        target: Option<u32>,
    },
}

/// Code that is made of tiles, procedure by procedure, and the size of each frame in bytes.
#[derive(Debug, Drop)]
pub struct TileCode {
    pub procedures: Items<Items<TileLine>>,
    pub frame: u64,
}

/// A line of code that is made of instructions: a label, or an instance, whose addresses stand for the line's target and are
/// written 0.
#[derive(Debug, Drop)]
pub enum Line {
    Label {
        number: u32,
    },
    Inst {
        instance: Instance,
        target: Option<u32>,
    },
}

/// Code that is made of instructions. A register operand below the number of its space's cells is that cell, and any other is
/// a virtual register, which has the number that is left when the number of cells is taken off.
#[derive(Debug, Drop)]
pub struct Code {
    pub procedures: Items<Items<Line>>,
    pub frame: u64,
}

/// Code without virtual registers.
#[derive(Debug, Drop)]
pub struct Placed {
    pub procedures: Items<Items<Line>>,
    pub frame: u64,
}

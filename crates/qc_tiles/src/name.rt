ghost use Rattle.std.specs.Prelude.{◌≡◌};
ghost use Rattle.std.specs.List.{find};
ghost use Rattle.qc_tiles.specs.Names.{all_names, has_text, is_core, shape_of, text_of};

use crate::shape::{Shape, width};
use qc_words::Op;

/// The name of a tile. The order is that of the list of tiles; the last two are of machines with words of 64 bits.
#[derive(Clone, Copy, Debug, PartialEq, Eq)]
pub enum TileName {
    Move,
    Const,
    Add,
    Sub,
    Neg,
    And,
    Or,
    Xor,
    Com,
    Shl,
    Shrl,
    Shra,
    Seteq,
    Setne,
    Setlt,
    Setltu,
    Breq,
    Brne,
    Brlt,
    Brge,
    Brltu,
    Brgeu,
    Ldb,
    Ldh,
    Ldw,
    Stb,
    Sth,
    Stw,
    Goto,
    Call,
    Ret,
    Savelink,
    Loadlink,
    Spill,
    Reload,
    Frame,
    In,
    Out,
    Halt,
    Trap,
    Mul,
    Divu,
    Modu,
    Quot,
    Rem,
    Ldv,
    Stv,
}

/// Every name, in order.
pub const TILE_NAMES: [TileName; 47] = [
    TileName::Move,
    TileName::Const,
    TileName::Add,
    TileName::Sub,
    TileName::Neg,
    TileName::And,
    TileName::Or,
    TileName::Xor,
    TileName::Com,
    TileName::Shl,
    TileName::Shrl,
    TileName::Shra,
    TileName::Seteq,
    TileName::Setne,
    TileName::Setlt,
    TileName::Setltu,
    TileName::Breq,
    TileName::Brne,
    TileName::Brlt,
    TileName::Brge,
    TileName::Brltu,
    TileName::Brgeu,
    TileName::Ldb,
    TileName::Ldh,
    TileName::Ldw,
    TileName::Stb,
    TileName::Sth,
    TileName::Stw,
    TileName::Goto,
    TileName::Call,
    TileName::Ret,
    TileName::Savelink,
    TileName::Loadlink,
    TileName::Spill,
    TileName::Reload,
    TileName::Frame,
    TileName::In,
    TileName::Out,
    TileName::Halt,
    TileName::Trap,
    TileName::Mul,
    TileName::Divu,
    TileName::Modu,
    TileName::Quot,
    TileName::Rem,
    TileName::Ldv,
    TileName::Stv,
];

impl TileName {
    /// The name as texts and printed lines have it.
    pub fn text(self) -> &'static str
        ensures { result.now ≡ text_of self }
    {
        match self {
            TileName::Move => "move",
            TileName::Const => "const",
            TileName::Add => "add",
            TileName::Sub => "sub",
            TileName::Neg => "neg",
            TileName::And => "and",
            TileName::Or => "or",
            TileName::Xor => "xor",
            TileName::Com => "com",
            TileName::Shl => "shl",
            TileName::Shrl => "shrl",
            TileName::Shra => "shra",
            TileName::Seteq => "seteq",
            TileName::Setne => "setne",
            TileName::Setlt => "setlt",
            TileName::Setltu => "setltu",
            TileName::Breq => "breq",
            TileName::Brne => "brne",
            TileName::Brlt => "brlt",
            TileName::Brge => "brge",
            TileName::Brltu => "brltu",
            TileName::Brgeu => "brgeu",
            TileName::Ldb => "ldb",
            TileName::Ldh => "ldh",
            TileName::Ldw => "ldw",
            TileName::Stb => "stb",
            TileName::Sth => "sth",
            TileName::Stw => "stw",
            TileName::Goto => "goto",
            TileName::Call => "call",
            TileName::Ret => "ret",
            TileName::Savelink => "savelink",
            TileName::Loadlink => "loadlink",
            TileName::Spill => "spill",
            TileName::Reload => "reload",
            TileName::Frame => "frame",
            TileName::In => "in",
            TileName::Out => "out",
            TileName::Halt => "halt",
            TileName::Trap => "trap",
            TileName::Mul => "mul",
            TileName::Divu => "divu",
            TileName::Modu => "modu",
            TileName::Quot => "quot",
            TileName::Rem => "rem",
            TileName::Ldv => "ldv",
            TileName::Stv => "stv",
        }
    }

    /// What the tile does, but for the machine's facts.
    pub fn shape(self) -> Shape
        ensures { result ≡ shape_of self }
    {
        match self {
            TileName::Move => Shape::Move,
            TileName::Const => Shape::Const,
            TileName::Add => Shape::Binary { op: Op::Add },
            TileName::Sub => Shape::Binary { op: Op::Sub },
            TileName::Neg => Shape::Unary { op: Op::Neg },
            TileName::And => Shape::Binary { op: Op::And },
            TileName::Or => Shape::Binary { op: Op::Or },
            TileName::Xor => Shape::Binary { op: Op::Xor },
            TileName::Com => Shape::Unary { op: Op::Com },
            TileName::Shl => Shape::Binary { op: Op::Shl },
            TileName::Shrl => Shape::Binary { op: Op::Shrl },
            TileName::Shra => Shape::Binary { op: Op::Shra },
            TileName::Seteq => Shape::Test { op: Op::Eq },
            TileName::Setne => Shape::Test { op: Op::Ne },
            TileName::Setlt => Shape::Test { op: Op::Lt },
            TileName::Setltu => Shape::Test { op: Op::Ltu },
            TileName::Breq => Shape::Branch { op: Op::Eq },
            TileName::Brne => Shape::Branch { op: Op::Ne },
            TileName::Brlt => Shape::Branch { op: Op::Lt },
            TileName::Brge => Shape::Branch { op: Op::Ge },
            TileName::Brltu => Shape::Branch { op: Op::Ltu },
            TileName::Brgeu => Shape::Branch { op: Op::Geu },
            TileName::Ldb => Shape::LoadPart { bits: width(8) },
            TileName::Ldh => Shape::LoadPart { bits: width(16) },
            TileName::Ldw => Shape::LoadWord,
            TileName::Stb => Shape::StorePart { bits: width(8) },
            TileName::Sth => Shape::StorePart { bits: width(16) },
            TileName::Stw => Shape::StoreWord,
            TileName::Goto => Shape::Goto,
            TileName::Call => Shape::Call,
            TileName::Ret => Shape::Ret,
            TileName::Savelink => Shape::SaveLink,
            TileName::Loadlink => Shape::LoadLink,
            TileName::Spill => Shape::Spill,
            TileName::Reload => Shape::Reload,
            TileName::Frame => Shape::Frame,
            TileName::In => Shape::In,
            TileName::Out => Shape::Out,
            TileName::Halt => Shape::Halt,
            TileName::Trap => Shape::Trap,
            TileName::Mul => Shape::Binary { op: Op::Mul },
            TileName::Divu => Shape::Binary { op: Op::Divu },
            TileName::Modu => Shape::Binary { op: Op::Modu },
            TileName::Quot => Shape::Binary { op: Op::Quot },
            TileName::Rem => Shape::Binary { op: Op::Rem },
            TileName::Ldv => Shape::LoadPart { bits: width(32) },
            TileName::Stv => Shape::StorePart { bits: width(32) },
        }
    }

    /// Whether each machine of a fitting word has to have the tile; a multiplication or a division may be missing.
    pub fn is_core(self) -> bool
        ensures { result ≡ is_core self }
    {
        !matches!(
            self,
            TileName::Mul | TileName::Divu | TileName::Modu | TileName::Quot | TileName::Rem
        )
    }
}

/// Whether a text is the name's.
fn is_text(name: TileName, text: &[u8]) -> bool
    ensures { result ≡ has_text text.now name }
{
    name.text().as_bytes() == text
}

/// The name that a text is.
#[tactic(auto, unfolding(crate::specs::Names::all_names))]
pub fn tile_by_text(text: &[u8]) -> Option<TileName>
    ensures { result ≡ find (has_text text.now) all_names }
{
    TILE_NAMES.iter().copied().find(|name| is_text(*name, text))
}

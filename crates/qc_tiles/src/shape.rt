ghost use Rattle.std.specs.Prelude.{◌≡◌};
ghost use Rattle.qc_words.specs.Width.{IsWidth};
ghost use Rattle.qc_tiles.specs.Facts.{AreTileFacts};
ghost use Rattle.qc_tiles.specs.Tiles.{constant_of, has_target, registers_of, stands_at};

use crate::tile::TileFacts;
use qc_words::{Op, Width};

/// What a tile does, where tiles that differ in an operator or a width alone are of one kind. The comments have `d` for
/// the register that gets a value, `a`, `b` and `s` for others, `t` for the target, `k` for a constant word and `slot`
/// for the frame cell plus a constant.
#[derive(Clone, Copy, Debug, PartialEq, Eq)]
pub enum Shape {
    /// `d := a`
    Move,
    /// `d := k`
    Const,
    /// `d := op(a)`
    Unary { op: Op },
    /// `d := op(a, b)`
    Binary { op: Op },
    /// `d := op(a, b)`, where the operator compares, as a word
    Test { op: Op },
    /// `pc := t`, where `op(a, b)` holds
    Branch { op: Op },
    /// `d :=` so many bits of memory at `a`, less than a word, filled with zeros
    LoadPart { bits: Width },
    /// `d :=` the word of memory at `a`
    LoadWord,
    /// so many bits of memory at `a := s`, less than a word
    StorePart { bits: Width },
    /// the word of memory at `a := s`
    StoreWord,
    /// `pc := t`
    Goto,
    /// the link cell `:=` the address after, and `pc := t`
    Call,
    /// `pc :=` the link cell, as a multiple of the alignment
    Ret,
    /// the word of memory at `slot :=` the link cell
    SaveLink,
    /// the link cell `:=` the word of memory at `slot`
    LoadLink,
    /// the word of memory at `slot := a`
    Spill,
    /// `d :=` the word of memory at `slot`
    Reload,
    /// the frame cell `:=` itself plus `k`
    Frame,
    /// `d :=` the next word of the input
    In,
    /// puts out `a`
    Out,
    /// ends with the code `a`
    Halt,
    /// traps with a constant code of 8 bits
    Trap,
}

/// The width of so many bits.
pub(crate) fn width(bits: u8) -> Width
    requires { IsWidth bits }
    ensures { result ≡ bits }
{
    match Width::new(bits) {
        Some(width) => width,
        None => Width::ONE,
    }
}

impl Shape {
    /// Whether machines of this word have the tile.
    pub(crate) fn stands_at(self, word: Width) -> bool
        ensures { result ≡ stands_at word self }
    {
        match self {
            Shape::LoadPart { bits } | Shape::StorePart { bits } => bits.bits() < word.bits(),
            _ => true,
        }
    }

    /// The number of register parameters.
    pub(crate) fn registers(self) -> u8
        ensures { result ≡ registers_of self }
    {
        match self {
            Shape::Binary { .. } | Shape::Test { .. } => 3,
            Shape::Move | Shape::Unary { .. } | Shape::Branch { .. } => 2,
            Shape::LoadPart { .. } | Shape::LoadWord => 2,
            Shape::StorePart { .. } | Shape::StoreWord => 2,
            Shape::Const | Shape::Spill | Shape::Reload => 1,
            Shape::In | Shape::Out | Shape::Halt => 1,
            Shape::Goto | Shape::Call | Shape::Ret => 0,
            Shape::SaveLink | Shape::LoadLink | Shape::Frame | Shape::Trap => 0,
        }
    }

    /// The width of the constant, if the tile has one.
    pub(crate) fn constant(self, facts: &TileFacts) -> Option<Width>
        requires { AreTileFacts facts.now }
        ensures { result ≡ constant_of facts.now self }
    {
        match self {
            Shape::Const | Shape::Frame => Some(facts.word),
            Shape::SaveLink | Shape::LoadLink | Shape::Spill | Shape::Reload => {
                Some(width(facts.slot_bits))
            }
            Shape::Trap => Some(width(8)),
            _ => None,
        }
    }

    /// Whether the tile has a target.
    pub(crate) fn has_target(self) -> bool
        ensures { result ≡ has_target self }
    {
        matches!(self, Shape::Branch { .. } | Shape::Goto | Shape::Call)
    }
}

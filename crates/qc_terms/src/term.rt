use qc_words::{Op, Width};
use sqlite_items::{Boxed, Items};

/// A cell of a space: one that is named by its number, or one that an operand of the instruction names.
#[derive(Clone, Copy, Debug, PartialEq, Eq, Hash)]
pub enum Place {
    Cell { space: u32, index: u64 },
    Operand { space: u32, number: u32 },
}

impl Place {
    ghost use Rattle.std.specs.Prelude.{◌≡◌};
    ghost use Rattle.qc_terms.specs.Value.{space_of};

    /// The number of the place's space.
    pub fn space(self) -> u32
        ensures { result ≡ space_of self }
    {
        match self {
            Place::Cell { space, index: _ } | Place::Operand { space, number: _ } => space,
        }
    }
}

/// An expression over numbers, cells and the instruction's operands.
///
/// `Un` has an operator of one operand and `Bin` one of two. `Mem` is the word of `width` bits at an address, `Input`
/// the next word of the input, and `After` the address after the instruction.
#[derive(Debug, Drop)]
pub enum Term {
    Num {
        value: u64,
        width: Width,
    },
    Un {
        op: Op,
        arg: Boxed<Term>,
    },
    Bin {
        op: Op,
        left: Boxed<Term>,
        right: Boxed<Term>,
    },
    Reg {
        place: Place,
        width: Width,
    },
    Imm {
        operand: u32,
        width: Width,
    },
    Mem {
        width: Width,
        address: Boxed<Term>,
    },
    Input {
        width: Width,
    },
    After {
        width: Width,
    },
}

impl Term {
    ghost use Rattle.std.specs.Prelude.{◌≡◌};
    ghost use Rattle.qc_terms.specs.Tree.{has_input, tree_of};

    /// Whether the next word of the input stands in the term.
    pub fn has_input(&self) -> bool
        ensures { result ≡ has_input (tree_of self.now) }
    {
        match self {
            Term::Num { .. } | Term::Reg { .. } | Term::Imm { .. } | Term::After { .. } => false,
            Term::Input { .. } => true,
            Term::Un { arg, .. } => arg.get().has_input(),
            Term::Bin { left, right, .. } => left.get().has_input() || right.get().has_input(),
            Term::Mem { address, .. } => address.get().has_input(),
        }
    }
}

/// What an effect changes: a cell, the word of `width` bits at an address, the program counter, the machine's output, or
/// its running, which `Halt` ends with a code and `Trap` with the code of a trap.
#[derive(Debug, Drop)]
pub enum Dest {
    Reg { place: Place },
    Mem { width: Width, address: Term },
    Pc,
    Out,
    Halt,
    Trap,
}

/// One assignment of a register transfer list. It takes place where it has no guard, or one whose value isn't 0.
#[derive(Debug, Drop)]
pub struct Effect {
    pub guard: Option<Term>,
    pub to: Dest,
    pub value: Term,
}

impl Effect {
    ghost use Rattle.std.specs.Prelude.{◌≡◌};
    ghost use Rattle.qc_terms.specs.Effects.{effect_has_input};

    /// Whether the next word of the input stands in the guard, the address or the value.
    #[tactic(auto, unfolding(crate::specs::Effects::effect_has_input))]
    pub fn has_input(&self) -> bool
        ensures { result ≡ effect_has_input self.now }
    {
        let guard = match &self.guard {
            Some(guard) => guard.has_input(),
            None => false,
        };
        let address = match &self.to {
            Dest::Mem { address, .. } => address.has_input(),
            _ => false,
        };
        guard || address || self.value.has_input()
    }
}

/// A register transfer list: effects that all read the state before any of them is written.
#[derive(Debug, Drop)]
pub struct Rtl {
    pub effects: Items<Effect>,
}

impl Rtl {
    ghost use Rattle.std.specs.Prelude.{◌≡◌};
    ghost use Rattle.qc_terms.specs.Effects.{rtl_has_input};

    /// Whether the next word of the input stands in some effect, also in one whose guard is false.
    pub fn has_input(&self) -> bool
        ensures { result ≡ rtl_has_input self.now }
    {
        for effect in self.effects.as_slice() {
            if effect.has_input() {
                return true;
            }
        }
        false
    }
}

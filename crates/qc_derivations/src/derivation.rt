use qc_laws::Step;
use qc_terms::{Place, Term};
use qc_words::{Op, Width};
use sqlite_items::{Boxed, Items};

/// What stands for an operand of an instruction in a derivation.
///
/// `Own` is the register that the instruction's value is for, and `Param` the register parameter or the target of the
/// tile, by its operand's number. `Cell` is a cell, and `Constant` a constant term of the tile. `Spare` is for a register
/// that is written beside the value, and `Child` for one that another derivation computes.
#[derive(Debug, Drop)]
#[cycle(derivation)]
pub enum Binding {
    Own,
    Param { number: u32 },
    Cell { space: u32, index: u32 },
    Constant { term: Term },
    Spare,
    Child { node: Boxed<Derivation> },
}

/// An instruction, by its number in the description, with the laws that lead from what it is to compute to what it
/// computes, what stands for each of its operands, and what computes the flag that it reads, if it reads one.
#[derive(Debug, Drop)]
#[cycle(derivation)]
pub struct Derivation {
    pub instruction: u32,
    pub steps: Items<Step>,
    pub bindings: Items<Binding>,
    pub flag: Option<Boxed<Derivation>>,
}

/// How high a derivation may be, and how many laws each of its nodes may use. A node without children has height 1.
#[derive(Clone, Copy, Debug, PartialEq, Eq)]
pub struct Bounds {
    pub height: u32,
    pub laws: u32,
}

/// What an instruction's term has where it meets what is to be computed: a register, an immediate, or an extension of an
/// immediate, which may meet a number.
#[derive(Clone, Copy, Debug, PartialEq, Eq)]
pub enum Leaf {
    Register { place: Place, width: Width },
    Immediate { operand: u32, width: Width },
    Extended { op: Op, operand: u32, width: Width },
}

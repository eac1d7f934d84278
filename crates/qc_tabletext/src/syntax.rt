//! The syntax tree of a text of tables. A node keeps the number of its first token: its own `token`, or that of the name
//! that it begins with. The numbers of tokens of words that end or part a node are not kept.
use qc_grammar::{Ident, Number};
use qc_lrtl::Expr;
use sqlite_items::{Boxed, Items};

/// A text of tables: the machine that they are made for, and what they have for each tile that they name.
#[derive(Debug, Drop)]
pub struct RawTables {
    pub machine: Ident,
    pub version: Version,
    pub entries: Items<TileEntry>,
}

/// The version of the text's form. In version 2 a text gives bounds for its derivations: how high one may be, which is
/// from 1 to 4, and how many laws each of its nodes may use, which is from 0 to 3.
#[derive(Clone, Copy, Debug, PartialEq, Eq)]
pub enum Version {
    First {
        token: usize,
    },
    Second {
        token: usize,
        height: Number,
        laws: Number,
    },
}

/// What the tables have for a tile: a derivation, or none.
#[derive(Debug, Drop)]
pub enum TileEntry {
    Found {
        token: usize,
        tile: Ident,
        derivation: RawDerivation,
    },
    Missing {
        token: usize,
        tile: Ident,
    },
}

/// What stands for an operand of an instruction.
///
/// `Own` is the register that the instruction's value is for, and `Parameter` a register parameter or the target of the
/// tile, by its operand's number. `Cell` is a cell of a space, and `Constant` an expression, in which `k` is a name.
/// `Spare` is for a register that is written beside the value, and `Child` for one that another derivation computes.
#[derive(Debug, Drop)]
#[cycle(derivation)]
pub enum RawBinding {
    Own {
        token: usize,
    },
    Parameter {
        token: usize,
        number: Number,
    },
    Cell {
        token: usize,
        space: Ident,
        cell: Number,
    },
    Constant {
        token: usize,
        value: Expr,
    },
    Spare {
        token: usize,
    },
    Child {
        node: Boxed<RawDerivation>,
    },
}

/// An instruction with the laws that lead from what it is to compute to what it computes, what stands for each of its
/// operands, and the derivation that computes the flag which it reads, if there is one.
#[derive(Debug, Drop)]
#[cycle(derivation)]
pub struct RawDerivation {
    pub instruction: Ident,
    pub steps: Items<RawStep>,
    pub bindings: Items<RawBinding>,
    pub after: Option<Boxed<RawDerivation>>,
}

/// A law, and the place where it is used.
#[derive(Debug, Drop)]
pub struct RawStep {
    pub law: Ident,
    pub place: StepPlace,
}

/// The whole of a term, or the way to a part of it: numbers of operands from the outside in.
#[derive(Debug, Drop)]
pub enum StepPlace {
    Whole { token: usize },
    Part { path: Items<Number> },
}

/// What a derivation has after its instruction.
#[derive(Drop)]
pub struct Rest {
    pub steps: Items<RawStep>,
    pub bindings: Items<RawBinding>,
    pub after: Option<Boxed<RawDerivation>>,
}

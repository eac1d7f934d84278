//! Expressions without names.
use qc_terms::Place;
use qc_words::{Op, Width};
use sqlite_items::{Boxed, Items};

/// An expression of one node: a number, the register of an operand or a cell, an immediate or an address of an operand by
/// its number, the next word of the input, or the address after the instruction.
#[derive(Clone, Copy, Debug, PartialEq, Eq)]
pub enum Leaf {
    Number { value: u64 },
    Register { place: Place },
    Immediate { operand: u32 },
    Input,
    After,
}

/// What is made of one expression: the word at an address in memory, an extension without or with the sign, or the bits
/// from `low` on.
#[derive(Clone, Copy, Debug, PartialEq, Eq)]
pub enum Wrap {
    Load,
    Zx,
    Sx,
    Slice { low: u128 },
}

/// What a function that is handed on is: none, an operator, a declared function, or one that the function got itself, by
/// its number among the parameters that are functions.
#[derive(Clone, Copy, Debug, PartialEq, Eq)]
pub enum Callee {
    Nowhere,
    Operator { op: Op },
    Declared { number: usize },
    Given { number: usize },
}

/// An expression. Each node but a parameter has the number of its token.
///
/// A leaf and a wrap have their width, where it is known. `Absent` stands where the text has a fault. Parameters that are
/// values and parameters that are functions are numbered each among themselves. A `Use` is that of a declared function,
/// with its arguments that are functions and those that are values; an `Apply` that of a parameter.
#[derive(Debug, Drop)]
pub enum Tree {
    Leaf {
        token: usize,
        leaf: Leaf,
        width: Option<Width>,
    },
    Absent {
        token: usize,
    },
    Param {
        number: usize,
    },
    Wrap {
        token: usize,
        wrap: Wrap,
        width: Option<Width>,
        part: Boxed<Tree>,
    },
    Operate {
        token: usize,
        op: Op,
        args: Items<Tree>,
    },
    Use {
        token: usize,
        number: usize,
        callees: Items<Callee>,
        args: Items<Tree>,
    },
    Apply {
        token: usize,
        number: usize,
        args: Items<Tree>,
    },
}

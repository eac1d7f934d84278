//! Effects without names, and the bodies of what a text declares.
use crate::tree::{Callee, Tree};
use qc_terms::Place;
use qc_words::Width;
use sqlite_items::Items;

/// A register that an effect may change, with its width, where that is known.
#[derive(Clone, Copy, Debug, PartialEq, Eq)]
pub struct Target {
    pub place: Place,
    pub width: Option<Width>,
}

/// What the target of an effect, or an argument, is: no register, a register, or the one that a parameter stands for, by
/// its number among those that are values.
#[derive(Clone, Copy, Debug, PartialEq, Eq)]
pub enum Aim {
    Nowhere,
    Fixed { target: Target },
    Given { number: usize },
}

/// What an effect changes.
#[derive(Debug, Drop)]
pub enum Goal {
    Pc,
    Out,
    Halt,
    Trap,
    Memory { width: Option<Width>, address: Tree },
    Register { aim: Aim },
}

/// What an effect does where its guard holds: it gives a place a value, or does what declared effects do.
#[derive(Debug, Drop)]
pub enum Does {
    Assign {
        to: Goal,
        value: Tree,
    },
    Use {
        number: usize,
        callees: Items<Callee>,
        aims: Items<Aim>,
        args: Items<Tree>,
    },
}

/// An effect, which takes place where its guard holds, if it has one.
#[derive(Debug, Drop)]
pub struct Act {
    pub guard: Option<Tree>,
    pub does: Does,
}

/// What is declared: a function by its value, or effects. Both are numbered together, in the order of the text.
#[derive(Debug, Drop)]
pub enum Body {
    Function { value: Tree },
    Effects { acts: Items<Act> },
}

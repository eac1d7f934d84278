//! Expressions in which each use has something of its own.
use crate::tree::{Leaf, Wrap};
use qc_words::{Op, Width};
use sqlite_items::{Boxed, Items};

/// An expression as `Plain` is one. A use has its arguments once each, and of each parameter of the function which of these
/// it is: `chosen` has their places.
#[derive(Debug, Drop)]
pub enum Normal {
    Leaf {
        token: usize,
        leaf: Leaf,
        width: Option<Width>,
    },
    Absent {
        token: usize,
    },
    Param {
        number: usize,
    },
    Wrap {
        token: usize,
        wrap: Wrap,
        width: Option<Width>,
        part: Boxed<Normal>,
    },
    Operate {
        token: usize,
        op: Op,
        args: Items<Normal>,
    },
    Use {
        token: usize,
        number: usize,
        args: Items<Normal>,
        chosen: Items<usize>,
    },
}

/// The body of a function, of whose parameters only those have a rank that stand in it. It gets what they are by rank.
#[derive(Debug, Drop)]
pub struct Ranked {
    pub body: Normal,
    pub ranks: Items<Option<usize>>,
}

/// Functions in order, each of which uses only those before it.
#[derive(Debug, Drop)]
pub struct Normals {
    pub functions: Items<Ranked>,
}

//! Expressions without names in which no function is handed on.
use crate::tree::{Leaf, Wrap};
use qc_words::{Op, Width};
use sqlite_items::{Boxed, Items};

/// An expression as `Tree` is one, whose uses have only arguments that are values.
#[derive(Debug, Drop)]
pub enum Plain {
    Leaf {
        token: usize,
        leaf: Leaf,
        width: Option<Width>,
    },
    Absent {
        token: usize,
    },
    Param {
        number: usize,
    },
    Wrap {
        token: usize,
        wrap: Wrap,
        width: Option<Width>,
        part: Boxed<Plain>,
    },
    Operate {
        token: usize,
        op: Op,
        args: Items<Plain>,
    },
    Use {
        token: usize,
        number: usize,
        args: Items<Plain>,
    },
}

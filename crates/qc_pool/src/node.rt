use qc_terms::Place;
use qc_words::{Op, Width};
use std::marker::Model;

/// The number of a term in a pool. Contracts see it as that number.
#[derive(Clone, Copy, Debug, PartialEq, Eq, Hash)]
pub struct TermId(pub(crate) usize);

impl Model for TermId {
    ghost use Rattle.std.specs.Prelude.{ℕ};

    ghost Value = { ℕ };

    ghost view = { λ id. id.0 };

    ghost inverse = { λ n. record { 0 = n } };
}

impl TermId {
    ghost use Rattle.std.specs.Prelude.{◌≡◌};

    /// The number.
    pub fn number(self) -> usize
        ensures { result ≡ self }
    {
        self.0
    }
}

/// A place in time of a pool: how many terms it had. Contracts see it as that number.
#[derive(Clone, Copy, Debug, PartialEq, Eq)]
pub struct Mark(pub(crate) usize);

impl Model for Mark {
    ghost use Rattle.std.specs.Prelude.{ℕ};

    ghost Value = { ℕ };

    ghost view = { λ mark. mark.0 };

    ghost inverse = { λ n. record { 0 = n } };
}

impl Mark {
    ghost use Rattle.std.specs.Prelude.{◌≡◌};

    /// The number.
    pub fn number(self) -> usize
        ensures { result ≡ self }
    {
        self.0
    }
}

/// One operator or leaf of a term, whose parts are terms of a pool.
///
/// `Un` has an operator of one operand and `Bin` one of two.
#[derive(Clone, Copy, Debug, PartialEq, Eq, Hash)]
pub enum Node {
    Num { value: u64, width: Width },
    Un { op: Op, arg: TermId },
    Bin { op: Op, left: TermId, right: TermId },
    Reg { place: Place, width: Width },
    Imm { operand: u32, width: Width },
    Mem { width: Width, address: TermId },
    Input { width: Width },
    After { width: Width },
}

/// A node with the width of its term, and whether that reads nothing.
#[derive(Clone, Copy, Debug, PartialEq, Eq, Hash)]
pub(crate) struct Entry {
    pub(crate) node: Node,
    pub(crate) width: Width,
    pub(crate) constant: bool,
}

//! Terms, effects and register transfer lists.
ghost use Rattle.std.specs.Prelude.{◌≡◌, ◌↔◌, IsTrue};

use crate::equal::{Same, same_items};
use qc_terms::{Dest, Effect, Rtl, Term};

impl Same for Term {
    fn same(&self, other: &Term) -> bool {
        match self {
            Term::Num { value: a, width: v } => match other {
                Term::Num { value: b, width: w } => a == b && v == w,
                _ => false,
            },
            Term::Un { op: o, arg: a } => match other {
                Term::Un { op: p, arg: b } => o == p && a.get().same(b.get()),
                _ => false,
            },
            Term::Bin {
                op: o,
                left: a,
                right: c,
            } => match other {
                Term::Bin {
                    op: p,
                    left: b,
                    right: d,
                } => { o == p && a.get().same(b.get()) && c.get().same(d.get()) }
                _ => false,
            },
            Term::Reg { place: a, width: v } => match other {
                Term::Reg { place: b, width: w } => a == b && v == w,
                _ => false,
            },
            Term::Imm {
                operand: a,
                width: v,
            } => match other {
                Term::Imm {
                    operand: b,
                    width: w,
                } => a == b && v == w,
                _ => false,
            },
            Term::Mem {
                width: v,
                address: a,
            } => match other {
                Term::Mem {
                    width: w,
                    address: b,
                } => v == w && a.get().same(b.get()),
                _ => false,
            },
            Term::Input { width: v } => match other {
                Term::Input { width: w } => v == w,
                _ => false,
            },
            Term::After { width: v } => match other {
                Term::After { width: w } => v == w,
                _ => false,
            },
        }
    }
}

impl Same for Dest {
    fn same(&self, other: &Dest) -> bool {
        match self {
            Dest::Reg { place: a } => match other {
                Dest::Reg { place: b } => a == b,
                _ => false,
            },
            Dest::Mem {
                width: v,
                address: a,
            } => match other {
                Dest::Mem {
                    width: w,
                    address: b,
                } => v == w && a.same(b),
                _ => false,
            },
            Dest::Pc => matches!(other, Dest::Pc),
            Dest::Out => matches!(other, Dest::Out),
            Dest::Halt => matches!(other, Dest::Halt),
            Dest::Trap => matches!(other, Dest::Trap),
        }
    }
}

impl Same for Effect {
    fn same(&self, other: &Effect) -> bool {
        self.guard.same(&other.guard) && self.to.same(&other.to) && self.value.same(&other.value)
    }
}

/// Whether two register transfer lists are equal: they have equal effects in the same order.
pub fn same_rtl(a: &Rtl, b: &Rtl) -> bool
    ensures { IsTrue result ↔ (a.now ≡ b.now) }
{
    same_items(a.effects.as_slice(), b.effects.as_slice())
}

//! Tests of terms: whether two are the same, and what stands in one.
ghost use Rattle.std.specs.Prelude.{◌≡◌, ◌+◌, ◌≤◌, IfOk, min};
ghost use Rattle.std.specs.Option.{option_map, option_copied};
ghost use Rattle.qc_terms.specs.Tree.{Tree, tree_of, width_of};
ghost use Rattle.qc_tiles.specs.Sound.{has_load};
ghost use Rattle.qc_equations.specs.Matching.{is_constant, same_op};
ghost use Rattle.qc_derivations.specs.Matching.{operand_of};
ghost use Rattle.qc_derivations.specs.Same.{has_immediate, inputs_in, is_address_after, is_immediate, is_next_input, is_number, is_register, reads_operand, same_place, same_tree};

use qc_terms::{Place, Term};
use qc_words::{Op, Width, result_width};
use sqlite_items::Boxed;
use std::alloc::{AllocError, Global};

/// Whether two operators are the same.
pub(crate) fn same_op(op: Op, other: Op) -> bool
    ensures { result ≡ same_op op other }
{
    op == other
}

/// Whether two places are the same.
pub(crate) fn same_place(place: Place, other: Place) -> bool
    ensures { result ≡ same_place place other }
{
    match place {
        Place::Cell { space, index } => match other {
            Place::Cell { space: s, index: i } => space == s && index == i,
            Place::Operand { .. } => false,
        },
        Place::Operand { space, number } => match other {
            Place::Cell { .. } => false,
            Place::Operand {
                space: s,
                number: n,
            } => space == s && number == n,
        },
    }
}

/// Whether the term is this number.
pub(crate) fn is_number(value: u64, width: Width, term: &Term) -> bool
    ensures { result ≡ is_number value width (tree_of term.now) }
{
    match term {
        Term::Num { value: v, width: w } => value == *v && width.bits() == w.bits(),
        _ => false,
    }
}

/// Whether the term is the word of this place.
pub(crate) fn is_register(place: Place, width: Width, term: &Term) -> bool
    ensures { result ≡ is_register place width (tree_of term.now) }
{
    match term {
        Term::Reg { place: p, width: w } => same_place(place, *p) && width.bits() == w.bits(),
        _ => false,
    }
}

/// Whether the term is the immediate of this operand.
pub(crate) fn is_immediate(operand: u32, width: Width, term: &Term) -> bool
    ensures { result ≡ is_immediate operand width (tree_of term.now) }
{
    match term {
        Term::Imm {
            operand: o,
            width: w,
        } => operand == *o && width.bits() == w.bits(),
        _ => false,
    }
}

/// Whether the term is the next word of the input.
pub(crate) fn is_next_input(width: Width, term: &Term) -> bool
    ensures { result ≡ is_next_input width (tree_of term.now) }
{
    match term {
        Term::Input { width: w } => width.bits() == w.bits(),
        _ => false,
    }
}

/// Whether the term is the address after the instruction.
pub(crate) fn is_address_after(width: Width, term: &Term) -> bool
    ensures { result ≡ is_address_after width (tree_of term.now) }
{
    match term {
        Term::After { width: w } => width.bits() == w.bits(),
        _ => false,
    }
}

/// Whether two terms are the same, node for node.
pub(crate) fn same_term(term: &Term, other: &Term) -> bool
    ensures { result ≡ same_tree (tree_of term.now) (tree_of other.now) }
{
    match term {
        Term::Num { value, width } => is_number(*value, *width, other),
        Term::Un { op, arg } => match other {
            Term::Un { op: o, arg: a } => same_op(*op, *o) && same_term(arg.get(), a.get()),
            _ => false,
        },
        Term::Bin { op, left, right } => match other {
            Term::Bin {
                op: o,
                left: l,
                right: r,
            } => {
                same_op(*op, *o)
                    && same_term(left.get(), l.get())
                    && same_term(right.get(), r.get())
            }
            _ => false,
        },
        Term::Reg { place, width } => is_register(*place, *width, other),
        Term::Imm { operand, width } => is_immediate(*operand, *width, other),
        Term::Mem { width, address } => match other {
            Term::Mem {
                width: w,
                address: a,
            } => { width.bits() == w.bits() && same_term(address.get(), a.get()) }
            _ => false,
        },
        Term::Input { width } => is_next_input(*width, other),
        Term::After { width } => is_address_after(*width, other),
    }
}

/// Whether the register of this operand is read in the term.
pub(crate) fn reads_operand(operand: usize, term: &Term) -> bool
    ensures { result ≡ reads_operand operand (tree_of term.now) }
{
    match term {
        Term::Num { .. } | Term::Imm { .. } | Term::Input { .. } | Term::After { .. } => false,
        Term::Un { arg, .. } => reads_operand(operand, arg.get()),
        Term::Bin { left, right, .. } => {
            reads_operand(operand, left.get()) || reads_operand(operand, right.get())
        }
        Term::Reg { place, .. } => match place {
            Place::Cell { .. } => false,
            Place::Operand { number, .. } => operand == *number as usize,
        },
        Term::Mem { address, .. } => reads_operand(operand, address.get()),
    }
}

/// Whether the immediate of this operand stands in the term.
pub(crate) fn has_immediate(operand: usize, term: &Term) -> bool
    ensures { result ≡ has_immediate operand (tree_of term.now) }
{
    match term {
        Term::Num { .. } | Term::Reg { .. } | Term::Input { .. } | Term::After { .. } => false,
        Term::Un { arg, .. } => has_immediate(operand, arg.get()),
        Term::Bin { left, right, .. } => {
            has_immediate(operand, left.get()) || has_immediate(operand, right.get())
        }
        Term::Imm { operand: o, .. } => operand == *o as usize,
        Term::Mem { address, .. } => has_immediate(operand, address.get()),
    }
}

/// How often the next word of the input stands in the term, at most twice being told.
pub(crate) fn inputs_in(term: &Term) -> u8
    ensures { result ≡ min 2 (inputs_in (tree_of term.now)) }
{
    match term {
        Term::Num { .. } | Term::Reg { .. } | Term::Imm { .. } | Term::After { .. } => 0,
        Term::Un { arg, .. } => inputs_in(arg.get()),
        Term::Bin { left, right, .. } => two_at_most(inputs_in(left.get()), inputs_in(right.get())),
        Term::Mem { address, .. } => inputs_in(address.get()),
        Term::Input { .. } => 1,
    }
}

/// The sum of two numbers up to 2, or 2 where it is more.
pub(crate) fn two_at_most(first: u8, second: u8) -> u8
    requires first { first ≤ 2 }
    requires second { second ≤ 2 }
    ensures { result ≡ min 2 (first + second) }
{
    if first + second < 2 {
        first + second
    } else {
        2
    }
}

/// Whether memory is read in the term.
pub(crate) fn has_load(term: &Term) -> bool
    ensures { result ≡ has_load (tree_of term.now) }
{
    match term {
        Term::Un { arg, .. } => has_load(arg.get()),
        Term::Bin { left, right, .. } => has_load(left.get()) || has_load(right.get()),
        Term::Mem { .. } => true,
        _ => false,
    }
}

/// Whether the term reads nothing but immediates.
pub(crate) fn is_constant(term: &Term) -> bool
    ensures { result ≡ is_constant (tree_of term.now) }
{
    match term {
        Term::Num { .. } | Term::Imm { .. } => true,
        Term::Un { arg, .. } => is_constant(arg.get()),
        Term::Bin { left, right, .. } => is_constant(left.get()) && is_constant(right.get()),
        Term::Reg { .. } | Term::Mem { .. } | Term::Input { .. } | Term::After { .. } => false,
    }
}

/// The width of the term, which has no meaning where the term isn't well typed.
pub(crate) fn width_of(term: &Term) -> Width
    ensures { result ≡ width_of (tree_of term.now) }
{
    match term {
        Term::Num { width, .. }
        | Term::Reg { width, .. }
        | Term::Imm { width, .. }
        | Term::Mem { width, .. }
        | Term::Input { width }
        | Term::After { width } => *width,
        Term::Un { op, arg } => result_width(*op, width_of(arg.get())),
        Term::Bin { op, left, .. } => result_width(*op, width_of(left.get())),
    }
}

/// A copy of the term.
pub(crate) fn copied(alloc: Global, term: &Term) -> Result<Term, AllocError>
    ensures { IfOk result (λ copy. copy ≡ term.now) }
{
    match term {
        Term::Num { value, width } => Ok(Term::Num {
            value: *value,
            width: *width,
        }),
        Term::Un { op, arg } => {
            let arg = Boxed::new(alloc, copied(alloc, arg.get())?)?;
            Ok(Term::Un { op: *op, arg })
        }
        Term::Bin { op, left, right } => {
            let left = Boxed::new(alloc, copied(alloc, left.get())?)?;
            let right = Boxed::new(alloc, copied(alloc, right.get())?)?;
            Ok(Term::Bin {
                op: *op,
                left,
                right,
            })
        }
        Term::Reg { place, width } => Ok(Term::Reg {
            place: *place,
            width: *width,
        }),
        Term::Imm { operand, width } => Ok(Term::Imm {
            operand: *operand,
            width: *width,
        }),
        Term::Mem { width, address } => {
            let address = Boxed::new(alloc, copied(alloc, address.get())?)?;
            Ok(Term::Mem {
                width: *width,
                address,
            })
        }
        Term::Input { width } => Ok(Term::Input { width: *width }),
        Term::After { width } => Ok(Term::After { width: *width }),
    }
}

/// The operand of a term that has the operator at its root.
pub(crate) fn operand_of(op: Op, term: &Term) -> Option<&Term>
    ensures { option_map tree_of (option_copied result) ≡ operand_of op (tree_of term.now) }
{
    match term {
        Term::Un { op: o, arg } => {
            if same_op(op, *o) {
                Some(arg.get())
            } else {
                None
            }
        }
        _ => None,
    }
}

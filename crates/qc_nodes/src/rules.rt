//! The rules that the leaves of an instruction's terms keep, each with its part of the goal.
ghost use Rattle.std.specs.Prelude.{◌≡◌, ◌%◌, ◌^◌, ◌<◌, ◌&&◌};
ghost use Rattle.std.specs.Option.{option_map, option_copied};
ghost use Rattle.std.specs.List.{list_all};
ghost use Rattle.qc_words.specs.Operators.{result_of, result_width_of};
ghost use Rattle.qc_terms.specs.Tree.{tree_of};
ghost use Rattle.qc_derivations.specs.Forest.{stand_of};
ghost use Rattle.qc_derivations.specs.Machine.{has_flags, is_zero, machine_of};
ghost use Rattle.qc_derivations.specs.Rules.{extended_meets, flag_pair, immediate_meets, is_computed, is_extended, is_extension, is_flag, is_flag_leaf, is_flag_of, is_leaf_of, is_met, is_read_as, is_register_leaf, is_same_leaf, is_same_part, leaf_meets, names_target, operand_meets, register_meets, register_part, value_in};
ghost use Rattle.qc_derivations.specs.Same.{is_number, is_operand};
ghost use Rattle.qc_nodes.specs.Inner.Views.{pair_of, pairs_in, stands_in};

use crate::matching::{Pair, binding_at};
use crate::trees::{
    has_immediate, is_constant, is_immediate, is_number, is_register, same_place, same_term,
    width_of,
};
use qc_derivations::{Binding, Leaf};
use qc_descr::Description;
use qc_terms::{Place, Term};
use qc_words::{Op, Width, apply, result_width};

/// Whether the place is the operand of this number.
pub(crate) fn is_operand(number: usize, place: Place) -> bool
    ensures { result ≡ is_operand number place }
{
    match place {
        Place::Cell { .. } => false,
        Place::Operand { number: n, .. } => number == n as usize,
    }
}

/// Whether the cells of the space are flags.
pub(crate) fn has_flags(descr: &Description, space: u32) -> bool
    ensures { result ≡ has_flags (machine_of descr.now) space }
{
    match descr.spaces.as_slice().get(space as usize) {
        Some(space) => space.flags,
        None => false,
    }
}

/// Whether the cell always reads 0.
pub(crate) fn is_zero(descr: &Description, space: u32, index: u64) -> bool
    ensures { result ≡ is_zero (machine_of descr.now) space index }
{
    descr.facts.is_zero_cell(space, index)
}

/// Whether the place is a flag that the instruction names by its number.
pub(crate) fn is_flag(descr: &Description, place: Place) -> bool
    ensures { result ≡ is_flag (machine_of descr.now) place }
{
    match place {
        Place::Cell { space, .. } => has_flags(descr, space),
        Place::Operand { .. } => false,
    }
}

/// Whether the leaf is the register of the operand of this number.
fn is_register_leaf(number: usize, leaf: Leaf) -> bool
    ensures { result ≡ is_register_leaf number leaf }
{
    match leaf {
        Leaf::Register { place, .. } => is_operand(number, place),
        _ => false,
    }
}

/// Whether the leaf is of the operand of this number.
fn is_leaf_of(number: usize, leaf: Leaf) -> bool
    ensures { result ≡ is_leaf_of number leaf }
{
    match leaf {
        Leaf::Register { place, .. } => is_operand(number, place),
        Leaf::Immediate { operand, .. } | Leaf::Extended { operand, .. } => number
            == operand as usize,
    }
}

/// Whether the leaf is a flag that the instruction names by its number.
fn is_flag_leaf(descr: &Description, leaf: Leaf) -> bool
    ensures { result ≡ is_flag_leaf (machine_of descr.now) leaf }
{
    match leaf {
        Leaf::Register { place, .. } => is_flag(descr, place),
        _ => false,
    }
}

/// Whether the operand meets a part of the goal.
pub(crate) fn is_met(number: usize, pairs: &[Pair]) -> bool
    ensures { result ≡ is_met number (pairs_in pairs.now) }
{
    match pairs {
        [] => false,
        [pair, pairs @ ..] => is_leaf_of(number, pair.leaf) || is_met(number, pairs),
    }
}

/// The first part of the goal that the register of an operand meets: what a child has to compute for it.
pub(crate) fn register_part(number: usize, pairs: &[Pair]) -> Option<&Term>
    ensures { option_map tree_of (option_copied result) ≡ register_part number (pairs_in pairs.now) }
{
    match pairs {
        [] => None,
        [pair, pairs @ ..] => {
            if is_register_leaf(number, pair.leaf) {
                Some(&pair.part)
            } else {
                register_part(number, pairs)
            }
        }
    }
}

/// The first flag that the instruction reads, with the part of the goal that it meets.
pub(crate) fn flag_pair<'a>(descr: &Description, pairs: &'a [Pair]) -> Option<&'a Pair>
    ensures { option_map pair_of (option_copied result) ≡ flag_pair (machine_of descr.now) (pairs_in pairs.now) }
{
    match pairs {
        [] => None,
        [pair, pairs @ ..] => {
            if is_flag_leaf(descr, pair.leaf) {
                Some(pair)
            } else {
                flag_pair(descr, pairs)
            }
        }
    }
}

/// Whether the part is the cell, or the number 0 where the cell always reads 0.
fn is_read_as(descr: &Description, space: u32, index: u64, width: Width, part: &Term) -> bool
    ensures { result ≡ is_read_as (machine_of descr.now) space index width (tree_of part.now) }
{
    is_register(Place::Cell { space, index }, width, part)
        || is_zero(descr, space, index) && is_number(0, width, part)
}

/// Whether the part is the other one.
fn is_same_part(part: &Term, other: Option<&Term>) -> bool
    ensures { result ≡ is_same_part (tree_of part.now) (option_map tree_of (option_copied other.entry)) }
{
    match other {
        None => false,
        Some(other) => same_term(part, other),
    }
}

/// Whether the part is what a child computes: it has the register's width, and the operand meets it everywhere.
fn is_computed(first: Option<&Term>, width: Width, part: &Term) -> bool
    ensures { result ≡ is_computed (option_map tree_of (option_copied first.entry)) width (tree_of part.now) }
{
    width.bits() == width_of(part).bits() && is_same_part(part, first)
}

/// Whether the register of an operand of a space meets the part.
fn operand_meets(
    descr: &Description,
    pairs: &[Pair],
    space: u32,
    number: usize,
    width: Width,
    part: &Term,
    binding: Option<&Binding>,
) -> bool
    ensures { result ≡ operand_meets (machine_of descr.now) (pairs_in pairs.now) space number width (tree_of part.now) (option_map stand_of (option_copied binding.entry)) }
{
    match binding {
        Some(Binding::Param { number: parameter }) => {
            let place = Place::Operand {
                space,
                number: *parameter,
            };
            is_register(place, width, part)
        }
        Some(
            Binding::Cell {
                space: other,
                index,
            },
        ) => is_read_as(descr, *other, u64::from(*index), width, part),
        Some(Binding::Child { .. }) => is_computed(register_part(number, pairs), width, part),
        _ => false,
    }
}

/// Whether both leaves are one register.
fn is_same_leaf(leaf: Leaf, other: Leaf) -> bool
    ensures { result ≡ is_same_leaf leaf other }
{
    match leaf {
        Leaf::Register { place, .. } => match other {
            Leaf::Register { place: p, .. } => same_place(place, p),
            _ => false,
        },
        _ => false,
    }
}

/// Whether the flag and the part of the goal are the first ones.
fn is_flag_of(first: Option<&Pair>, leaf: Leaf, width: Width, part: &Term) -> bool
    ensures { result ≡ is_flag_of (option_map pair_of (option_copied first.entry)) leaf width (tree_of part.now) }
{
    match first {
        None => false,
        Some(first) => {
            is_same_leaf(first.leaf, leaf) && is_computed(Some(&first.part), width, part)
        }
    }
}

/// Whether the operator extends words of this width.
fn is_extension(width: Width, op: Op) -> bool
    ensures extends { result ≡ is_extension width op }
{
    match op {
        Op::Zx { to } | Op::Sx { to } => width.bits() <= to.bits(),
        _ => false,
    }
}

/// The low bits of a number.
fn low_bits(value: u64, width: Width) -> u64
    ensures value { result ≡ value % 2 ^ width }
    ensures word { result < 2 ^ width }
{
    let bits = width.bits();
    if bits < 64 {
        value % (1u64 << bits)
    } else {
        value
    }
}

/// Whether the operator extends words of this width, and the extension of these low bits is the part.
fn gives_back(op: &Op, width: Width, low: u64, part: &Term) -> bool
    requires { low < 2 ^ width }
    ensures { result ≡ (is_extension width op.now && is_number (result_of op.now width low 0) (result_width_of op.now width) (tree_of part.now)) }
{
    if is_extension(width, *op) {
        let wide = result_width(*op, width);
        let extended = apply(*op, width, low, 0);
        is_number(extended, wide, part)
    } else {
        false
    }
}

/// Whether the part is a number that its low bits give back by the extension, and the literal has these bits.
fn is_extended(op: Op, width: Width, literal: &Term, part: &Term) -> bool
    ensures { result ≡ is_extended op width (tree_of literal.now) (tree_of part.now) (value_in (tree_of part.now)) }
{
    match part {
        Term::Num { value, .. } => {
            let low = low_bits(*value, width);
            gives_back(&op, width, low, part) && is_number(low, width, literal)
        }
        _ => false,
    }
}

/// Whether the tile's target, which its operand of this number is, stands in the term.
fn names_target(target: Option<usize>, term: &Term) -> bool
    ensures { result ≡ names_target target (tree_of term.now) }
{
    match target {
        None => false,
        Some(number) => has_immediate(number, term),
    }
}

/// Whether an immediate meets the part: by a constant of its width without the target, or by the target.
fn immediate_meets(
    target: Option<usize>,
    width: Width,
    part: &Term,
    binding: Option<&Binding>,
) -> bool
    ensures { result ≡ immediate_meets target width (tree_of part.now) (option_map stand_of (option_copied binding.entry)) }
{
    match binding {
        Some(Binding::Constant { term }) => {
            is_constant(part)
                && width.bits() == width_of(part).bits()
                && !names_target(target, part)
                && same_term(term, part)
        }
        Some(Binding::Param { number }) => is_immediate(*number, width, part),
        _ => false,
    }
}

/// Whether an extension of an immediate meets the part.
fn extended_meets(op: Op, width: Width, part: &Term, binding: Option<&Binding>) -> bool
    ensures { result ≡ extended_meets op width (tree_of part.now) (option_map stand_of (option_copied binding.entry)) }
{
    match binding {
        Some(Binding::Constant { term }) => is_extended(op, width, term, part),
        _ => false,
    }
}

/// Whether a register meets the part: by what stands for its operand, as its own cell, or as a flag that a child computes.
fn register_meets(
    descr: &Description,
    bindings: &[Binding],
    pairs: &[Pair],
    place: Place,
    width: Width,
    part: &Term,
) -> bool
    ensures { result ≡ register_meets (machine_of descr.now) (stands_in bindings.now) (pairs_in pairs.now) place width (tree_of part.now) }
{
    match place {
        Place::Operand { space, number } => {
            let number = number as usize;
            let binding = binding_at(bindings, number);
            operand_meets(descr, pairs, space, number, width, part, binding)
        }
        Place::Cell { space, index } => {
            if has_flags(descr, space) {
                let leaf = Leaf::Register { place, width };
                is_flag_of(flag_pair(descr, pairs), leaf, width, part)
            } else {
                is_read_as(descr, space, index, width, part)
            }
        }
    }
}

/// Whether the leaf meets the part of the goal.
fn leaf_meets(
    descr: &Description,
    target: Option<usize>,
    bindings: &[Binding],
    pairs: &[Pair],
    leaf: Leaf,
    part: &Term,
) -> bool
    ensures { result ≡ leaf_meets (machine_of descr.now) target (stands_in bindings.now) (pairs_in pairs.now) leaf (tree_of part.now) }
{
    match leaf {
        Leaf::Register { place, width } => {
            register_meets(descr, bindings, pairs, place, width, part)
        }
        Leaf::Immediate { operand, width } => {
            immediate_meets(target, width, part, binding_at(bindings, operand as usize))
        }
        Leaf::Extended { op, operand, width } => {
            extended_meets(op, width, part, binding_at(bindings, operand as usize))
        }
    }
}

/// Whether each of the leaves meets its part of the goal, where `pairs` are those of the whole instruction.
pub(crate) fn leaves_meet(
    descr: &Description,
    target: Option<usize>,
    bindings: &[Binding],
    pairs: &[Pair],
    some: &[Pair],
) -> bool
    ensures { result ≡ list_all (λ p. leaf_meets (machine_of descr.now) target (stands_in bindings.now) (pairs_in pairs.now) p.leaf p.part) (pairs_in some.now) }
{
    match some {
        [] => true,
        [pair, some @ ..] => {
            leaf_meets(descr, target, bindings, pairs, pair.leaf, &pair.part)
                && leaves_meet(descr, target, bindings, pairs, some)
        }
    }
}

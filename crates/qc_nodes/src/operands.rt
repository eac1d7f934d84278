//! The rules that operands keep with what stands for them, and those of assignments beside the goal and of addresses.
ghost use Rattle.std.specs.Prelude.{◌≡◌, ◌+◌, ◌<◌, ◌≤◌, ◌%◌, ◌^◌, length, map, nat_eq, nat_lt, slice_get, slice_index};
ghost use Rattle.std.specs.List.{list_any};
ghost use Rattle.std.specs.Option.{option_map, option_copied};
ghost use Rattle.qc_terms.specs.Tree.{tree_of};
ghost use Rattle.qc_descr.specs.CodingFaults.{missing_from};
ghost use Rattle.qc_descr.specs.Coding.{is_piece};
ghost use Rattle.qc_derivations.specs.Forest.{stand_of};
ghost use Rattle.qc_derivations.specs.Machine.{assignment_of, destination_of, machine_of};
ghost use Rattle.qc_derivations.specs.Rules.{address_reaches, address_suits, addresses_reach, bits_of, guard_touches, immediate_suits, is_free_destination, is_free_place, is_harmless, is_number_of, is_read, is_some_number, is_spare, is_written, kind_reaches, operand_suits, operands_suit, reads_in_destination, reads_in_guard, register_suits, touches_input_or_memory, writes_operand};
ghost use Rattle.qc_nodes.specs.Inner.Views.{assignments_in, pairs_in, stands_in};

use crate::matching::{Pair, binding_at};
use crate::rules::{has_flags, is_met, is_operand, is_zero};
use crate::trees::{has_load, reads_operand};
use qc_derivations::Binding;
use qc_descr::{Bit, Coding, Description, OperandKind, Reach};
use qc_terms::{Dest, Effect, Place, Term};
use qc_text::Text;
use qc_words::Width;

/// Whether the register of the operand is read in a guard.
fn reads_in_guard(number: usize, guard: &Option<Term>) -> bool
    ensures { result ≡ reads_in_guard number (option_map tree_of guard.now) }
{
    match guard {
        None => false,
        Some(guard) => reads_operand(number, guard),
    }
}

/// Whether the register of the operand is read in the address of a destination.
fn reads_in_destination(number: usize, to: &Dest) -> bool
    ensures { result ≡ reads_in_destination number (destination_of to.now) }
{
    match to {
        Dest::Mem { address, .. } => reads_operand(number, address),
        _ => false,
    }
}

/// Whether the register of the operand is read.
fn is_read(number: usize, effects: &[Effect]) -> bool
    ensures { result ≡ is_read number (assignments_in effects.now) }
{
    match effects {
        [] => false,
        [effect, effects @ ..] => {
            reads_in_guard(number, &effect.guard)
                || reads_in_destination(number, &effect.to)
                || reads_operand(number, &effect.value)
                || is_read(number, effects)
        }
    }
}

/// Whether the register of the operand is what a destination is.
fn writes_operand(number: usize, to: &Dest) -> bool
    ensures { result ≡ writes_operand number (destination_of to.now) }
{
    match to {
        Dest::Reg { place } => is_operand(number, *place),
        _ => false,
    }
}

/// Whether the register of the operand is written.
pub fn is_written(number: usize, effects: &[Effect]) -> bool
    ensures { result ≡ is_written number (map assignment_of effects.now) }
{
    match effects {
        [] => false,
        [effect, effects @ ..] => writes_operand(number, &effect.to) || is_written(number, effects),
    }
}

/// Whether the cell is one of the space.
fn is_cell(descr: &Description, space: u32, index: u32) -> bool
    ensures { result ≡ nat_lt index (slice_index (machine_of descr.now).counts space) }
{
    match descr.spaces.as_slice().get(space as usize) {
        Some(space) => index < space.cells,
        None => false,
    }
}

/// How an instruction has a register, by an operand: whether it is read, written, and meets a part of the goal.
#[derive(Clone, Copy)]
struct Usage {
    root: bool,
    read: bool,
    written: bool,
    met: bool,
}

/// Whether something fitting stands for a register of a space.
fn register_suits(descr: &Description, usage: Usage, space: u32, binding: &Binding) -> bool
    ensures { result ≡ register_suits (machine_of descr.now) usage.root usage.read usage.written usage.met space (stand_of binding.now) }
{
    match binding {
        Binding::Own | Binding::Spare => {
            space == descr.allocatable && usage.written && !usage.read
        }
        Binding::Param { .. } => space == descr.allocatable && usage.met && !usage.written,
        Binding::Child { .. } => {
            space == descr.allocatable && usage.met && (!usage.written || usage.read && !usage.root)
        }
        Binding::Cell {
            space: other,
            index,
        } => !usage.written && space == *other && is_cell(descr, space, *index),
        Binding::Constant { .. } => false,
    }
}

/// Whether the term is a number of this width.
fn is_number_of(width: Width, term: &Term) -> bool
    ensures { result ≡ is_number_of width (tree_of term.now) }
{
    match term {
        Term::Num { value, width: w } => width.bits() == w.bits() && width.holds(*value),
        _ => false,
    }
}

/// Whether a constant stands for an immediate: a number of its width, where it meets no part of the goal.
fn immediate_suits(met: bool, width: Width, binding: &Binding) -> bool
    ensures { result ≡ immediate_suits met width (stand_of binding.now) }
{
    match binding {
        Binding::Constant { term } => met || is_number_of(width, term),
        _ => false,
    }
}

/// Whether the target stands for an address.
fn address_suits(target: Option<usize>, binding: &Binding) -> bool
    ensures { result ≡ address_suits target (stand_of binding.now) }
{
    match binding {
        Binding::Param { number } => match target {
            None => false,
            Some(target) => *number as usize == target,
        },
        _ => false,
    }
}

/// Whether something fitting stands for the operand of this number and kind.
fn operand_suits(
    descr: &Description,
    target: Option<usize>,
    root: bool,
    effects: &[Effect],
    pairs: &[Pair],
    number: usize,
    kind: OperandKind,
    binding: &Binding,
) -> bool
    ensures { result ≡ operand_suits (machine_of descr.now) target root (assignments_in effects.now) (pairs_in pairs.now) number kind (stand_of binding.now) }
{
    match kind {
        OperandKind::Register { space } => {
            let usage = Usage {
                root,
                read: is_read(number, effects),
                written: is_written(number, effects),
                met: is_met(number, pairs),
            };
            register_suits(descr, usage, space, binding)
        }
        OperandKind::Imm { width } => immediate_suits(is_met(number, pairs), width, binding),
        OperandKind::Addr => address_suits(target, binding),
    }
}

/// Whether something fitting stands for each of these operands, of which the first has this number, and for no further one.
pub(crate) fn operands_suit(
    descr: &Description,
    target: Option<usize>,
    root: bool,
    effects: &[Effect],
    pairs: &[Pair],
    bindings: &[Binding],
    number: usize,
    operands: &[(Text, OperandKind)],
) -> bool
    requires { number + length operands.now < 2 ^ 64 }
    ensures { result ≡ operands_suit (operand_suits (machine_of descr.now) target root (assignments_in effects.now) (pairs_in pairs.now)) (stands_in bindings.now) number (map (λ o. o.1) operands.now) }
{
    match operands {
        [] => number == bindings.len(),
        [(_, kind), operands @ ..] => match binding_at(bindings, number) {
            None => false,
            Some(binding) => {
                operand_suits(descr, target, root, effects, pairs, number, *kind, binding)
                    && operands_suit(
                        descr,
                        target,
                        root,
                        effects,
                        pairs,
                        bindings,
                        number + 1,
                        operands,
                    )
            }
        },
    }
}

/// Whether the term has to do with memory or with the input.
fn touches_input_or_memory(term: &Term) -> bool
    ensures { result ≡ touches_input_or_memory (tree_of term.now) }
{
    has_load(term) || term.has_input()
}

/// Whether a guard has to do with memory or with the input.
fn guard_touches(guard: &Option<Term>) -> bool
    ensures { result ≡ guard_touches (option_map tree_of guard.now) }
{
    match guard {
        None => false,
        Some(guard) => touches_input_or_memory(guard),
    }
}

/// Whether the register that stands for an operand is a spare one.
fn is_spare(binding: Option<&Binding>) -> bool
    ensures { result ≡ is_spare (option_map stand_of (option_copied binding.entry)) }
{
    matches!(binding, Some(Binding::Spare))
}

/// Whether the place is a flag, the zero cell, or a spare register.
fn is_free_place(descr: &Description, bindings: &[Binding], place: Place) -> bool
    ensures { result ≡ is_free_place (machine_of descr.now) (stands_in bindings.now) place }
{
    match place {
        Place::Cell { space, index } => has_flags(descr, space) || is_zero(descr, space, index),
        Place::Operand { number, .. } => is_spare(binding_at(bindings, number as usize)),
    }
}

/// Whether the destination is such a place.
fn is_free_destination(descr: &Description, bindings: &[Binding], to: &Dest) -> bool
    ensures { result ≡ is_free_destination (machine_of descr.now) (stands_in bindings.now) (destination_of to.now) }
{
    match to {
        Dest::Reg { place } => is_free_place(descr, bindings, *place),
        _ => false,
    }
}

/// Whether an assignment that meets no goal writes nothing that counts, and has nothing to do with memory or the input.
pub(crate) fn is_harmless(descr: &Description, bindings: &[Binding], effect: &Effect) -> bool
    ensures { result ≡ is_harmless (machine_of descr.now) (stands_in bindings.now) (assignment_of effect.now) }
{
    is_free_destination(descr, bindings, &effect.to)
        && !guard_touches(&effect.guard)
        && !touches_input_or_memory(&effect.value)
}

/// Whether this bit of the operand stands somewhere.
fn has_piece(operand: usize, bit: u8, bits: &[Bit]) -> bool
    ensures { result ≡ list_any (is_piece operand bit) bits.now }
{
    match bits {
        [] => false,
        [Bit::Piece { operand: o, bit: b }, bits @ ..] => operand == *o as usize && bit == *b
            || has_piece(operand, bit, bits),
        [Bit::Fixed { .. }, bits @ ..] => has_piece(operand, bit, bits),
    }
}

/// How many of an operand's bits from this one on, of so many, stand nowhere before one that does.
#[tactic(auto, using(crate::proofs::Missing::missing_step, crate::proofs::Missing::missing_none))]
fn missing_from(operand: usize, bits: &[Bit], from: u8, count: u8) -> u8
    requires { from + count < 256 }
    ensures value { result ≡ missing_from operand bits.now from count }
    ensures bound { result ≤ count }
{
    if count == 0 || has_piece(operand, from, bits) {
        0
    } else {
        1 + missing_from(operand, bits, from + 1, count - 1)
    }
}

/// Whether the number is a multiple of what the bit of this number is worth.
#[tactic(auto, using(crate::proofs::Missing::multiple_of_high))]
fn is_multiple(number: u64, bit: u8) -> bool
    ensures { result ≡ nat_eq (number % 2 ^ bit) 0 }
{
    if bit < 64 {
        number % (1u64 << bit) == 0
    } else {
        number == 0
    }
}

/// How many bits the coded value of an address has.
fn bits_of(reach: Reach) -> u8
    ensures { result ≡ bits_of reach }
{
    match reach {
        Reach::Plain => 0,
        Reach::Relative { bits } | Reach::Absolute { bits } => bits,
    }
}

/// Whether an address is a multiple of what the bits left out of it are worth, where the alignment is. A relative one is
/// kept out where the test says so.
fn address_reaches(align: u64, near: bool, number: usize, coding: &Coding, reach: Reach) -> bool
    ensures { result ≡ address_reaches align near number coding.now reach }
{
    let missing = missing_from(number, coding.bits.as_slice(), 0, bits_of(reach));
    is_multiple(align, missing) && !(near && matches!(reach, Reach::Relative { .. }))
}

/// Whether an operand of this kind reaches so, if it is an address.
fn kind_reaches(align: u64, near: bool, number: usize, coding: &Coding, kind: OperandKind) -> bool
    ensures { result ≡ kind_reaches align near number coding.now kind (slice_get coding.now.reaches number) }
{
    match kind {
        OperandKind::Addr => match coding.reaches.as_slice().get(number) {
            Some(reach) => address_reaches(align, near, number, coding, *reach),
            None => true,
        },
        _ => true,
    }
}

/// Whether each address among these operands, of which the first has this number, reaches so.
pub(crate) fn addresses_reach(
    align: u64,
    near: bool,
    coding: &Coding,
    number: usize,
    operands: &[(Text, OperandKind)],
) -> bool
    requires { number + length operands.now < 2 ^ 64 }
    ensures { result ≡ addresses_reach align near coding.now number (map (λ o. o.1) operands.now) }
{
    match operands {
        [] => true,
        [(_, kind), operands @ ..] => {
            kind_reaches(align, near, number, coding, *kind)
                && addresses_reach(align, near, coding, number + 1, operands)
        }
    }
}

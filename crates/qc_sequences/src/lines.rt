//! The sequence of a derivation: its instructions with slots for their operands, children first, and then the node.
ghost use Rattle.std.specs.Prelude.{◌≡◌, ◌+◌, ◌∷◌, ◌++◌, ◌<◌, ◌^◌, [], map, ℕ, if◌then◌else◌, length, option_to_list, slice_get, IfOk};
ghost use Rattle.qc_terms.specs.Tree.{tree_of};
ghost use Rattle.qc_tiles.specs.Terms.{term_of};
ghost use Rattle.qc_code.specs.declared.template.Slot.TheVariants as slot;
ghost use Rattle.qc_derivations.specs.declared.derivation.Derivation.{out-Derivation};
ghost use Rattle.qc_derivations.specs.Forest.{Forest, bound_by, children_in, forest_of, grows_of, is_there, node_of, stand_of};
ghost use Rattle.qc_derivations.specs.Machine.{assignment_of, machine_of};
ghost use Rattle.qc_derivations.specs.Rules.{is_written};
ghost use Rattle.qc_derivations.specs.Sequence.{assignments_in, child_slots, kinds_in, node_form, scratches_at, slot_at, slot_if_there, spare_cell};
ghost use Rattle.qc_sequences.specs.Inner.Homes.{IsMade, IsRow, home_slot, home_slots, trees_in};

use crate::homes::{Home, Made, Row};
use qc_code::Slot;
use qc_derivations::{Binding, Derivation};
use qc_descr::{Description, OperandKind};
use qc_nodes::{child_of, is_written};
use qc_terms::{Effect, Term};
use qc_text::Text;
use sqlite_items::{Boxed, Items};
use std::alloc::{AllocError, Global};

/// The slot of a register.
fn slot(home: Home) -> Slot
    ensures { result ≡ home_slot home }
{
    match home {
        Home::Param { number } => Slot::Param { number },
        Home::Scratch { number } => Slot::Scratch { number },
        Home::Cell { index } => Slot::Cell { index },
    }
}

/// The zero cell of the allocatable space, where it has one.
fn spare_cell(descr: &Description) -> Option<u32>
    ensures { result ≡ spare_cell (machine_of descr.now) }
{
    match descr.facts.zero {
        Some((space, index)) => {
            if space == descr.allocatable {
                Some(index)
            } else {
                None
            }
        }
        None => None,
    }
}

/// Whether an operand takes a scratch: a child that isn't computed into the node's own register, which one that is written
/// is, or a spare where there is no zero cell for it.
fn takes_scratch(descr: &Description, written: bool, binding: &Binding) -> bool
    ensures { scratches_at (machine_of descr.now) written (stand_of binding.now) ≡ (if result then 1 else 0) }
{
    match binding {
        Binding::Child { .. } => !written,
        Binding::Spare => spare_cell(descr).is_none(),
        _ => false,
    }
}

/// The number of the next scratch. A derivation that needs so many that it has none would not fit into memory.
fn next_scratch(scratch: u32, taken: bool) -> Result<u32, AllocError>
    ensures { IfOk result (λ next. next ≡ scratch + (if taken then 1 else 0)) }
{
    if taken {
        scratch.checked_add(1).ok_or(AllocError)
    } else {
        Ok(scratch)
    }
}

/// The slot of an operand of this kind, where this is the node's own register, and the next scratch has this number.
fn slot_at(
    alloc: Global,
    descr: &Description,
    own: Home,
    kind: OperandKind,
    written: bool,
    scratch: u32,
    binding: &Binding,
) -> Result<Slot, AllocError>
    ensures { IfOk result (λ slot. slot ≡ slot_at (machine_of descr.now) (home_slot own) kind written scratch (stand_of binding.now)) }
{
    match binding {
        Binding::Own => Ok(slot(own)),
        Binding::Param { number } => match kind {
            OperandKind::Addr => Ok(Slot::Target),
            OperandKind::Register { .. } | OperandKind::Imm { .. } => {
                Ok(Slot::Param { number: *number })
            }
        },
        Binding::Cell { index, .. } => Ok(Slot::Cell { index: *index }),
        Binding::Constant { term } => Ok(Slot::Constant {
            term: copied(alloc, term)?,
        }),
        Binding::Spare => match spare_cell(descr) {
            Some(index) => Ok(Slot::Cell { index }),
            None => Ok(Slot::Scratch { number: scratch }),
        },
        Binding::Child { .. } => Ok(slot(child_home(own, written, scratch))),
    }
}

/// The register that a child has as its own: the node's, if the operand is written, and else the next scratch.
fn child_home(own: Home, written: bool, scratch: u32) -> Home
    ensures { home_slot result ≡ (if written then home_slot own else slot.Scratch scratch) }
{
    if written {
        own
    } else {
        Home::Scratch { number: scratch }
    }
}

/// A copy of a constant term.
fn copied(alloc: Global, term: &Term) -> Result<Term, AllocError>
    ensures { IfOk result (λ copy. copy ≡ term_of (tree_of term.now)) }
{
    match term {
        Term::Num { value, width } => Ok(Term::Num {
            value: *value,
            width: *width,
        }),
        Term::Un { op, arg } => {
            let arg = Boxed::new(alloc, copied(alloc, arg.get())?)?;
            Ok(Term::Un { op: *op, arg })
        }
        Term::Bin { op, left, right } => {
            let left = Boxed::new(alloc, copied(alloc, left.get())?)?;
            let right = Boxed::new(alloc, copied(alloc, right.get())?)?;
            Ok(Term::Bin {
                op: *op,
                left,
                right,
            })
        }
        Term::Reg { place, width } => Ok(Term::Reg {
            place: *place,
            width: *width,
        }),
        Term::Imm { operand, width } => Ok(Term::Imm {
            operand: *operand,
            width: *width,
        }),
        Term::Mem { width, address } => {
            let address = Boxed::new(alloc, copied(alloc, address.get())?)?;
            Ok(Term::Mem {
                width: *width,
                address,
            })
        }
        Term::Input { width } => Ok(Term::Input { width: *width }),
        Term::After { width } => Ok(Term::After { width: *width }),
    }
}

/// The slot of the operand of a number, if there is such an operand, and else the node's own register.
fn slot_if_there(
    alloc: Global,
    descr: &Description,
    operands: &[(Text, OperandKind)],
    own: Home,
    number: usize,
    written: bool,
    scratch: u32,
    binding: &Binding,
) -> Result<Slot, AllocError>
    ensures { IfOk result (λ s. s ≡ slot_if_there (machine_of descr.now) (home_slot own) written scratch (stand_of binding.now) (slice_get (map (λ o. o.1) operands.now) number)) }
{
    match operands.get(number) {
        Some((_, kind)) => slot_at(alloc, descr, own, *kind, written, scratch, binding),
        None => Ok(slot(own)),
    }
}

/// What the operand of this number is, if there is one.
fn kind_at(operands: &[(Text, OperandKind)], number: usize) -> Option<OperandKind>
    ensures { result ≡ slice_get (map (λ o. o.1) operands.now) number }
{
    match operands.get(number) {
        Some((_, kind)) => Some(*kind),
        None => None,
    }
}

/// The register that the child at an operand has as its own, if a child stands there: that of the operand's slot.
fn home_at(
    descr: &Description,
    operands: &[(Text, OperandKind)],
    own: Home,
    number: usize,
    written: bool,
    scratch: u32,
    binding: &Binding,
) -> Option<Home>
    ensures home { home_slots (option_to_list result) ≡ child_slots (stand_of binding.now ∷ []) (slot_if_there (machine_of descr.now) (home_slot own) written scratch (stand_of binding.now) (slice_get (map (λ o. o.1) operands.now) number) ∷ []) }
    ensures trees { (rest : Forest) → trees_in ((bound_by binding.now).grows rest) ≡ length (option_to_list result) + trees_in rest }
{
    match binding {
        Binding::Child { .. } => match kind_at(operands, number) {
            Some(_) => Some(child_home(own, written, scratch)),
            None => Some(own),
        },
        _ => None,
    }
}

/// A slot, and a register if there is one, before those of a row.
fn before(alloc: Global, slot: Slot, home: Option<Home>, others: Row) -> Result<Row, AllocError>
    ensures slots { IfOk result (λ row. row.slots ≡ slot ∷ others.slots) }
    ensures homes { IfOk result (λ row. row.homes ≡ option_to_list home ++ others.homes) }
    ensures next { IfOk result (λ row. row.next ≡ others.next) }
{
    let mut slots = Items::new(alloc);
    slots.push(slot)?;
    slots.append(others.slots)?;
    let mut homes = Items::new(alloc);
    if let Some(home) = home {
        homes.push(home)?;
    }
    homes.append(others.homes)?;
    Ok(Row {
        slots,
        homes,
        next: others.next,
    })
}

/// The row of the operands from a number on, where the next scratch has this number.
fn row(
    alloc: Global,
    descr: &Description,
    effects: &[Effect],
    operands: &[(Text, OperandKind)],
    own: Home,
    number: usize,
    scratch: u32,
    bindings: &[Binding],
) -> Result<Row, AllocError>
    requires { number + length bindings.now < 2 ^ 64 }
    ensures { IfOk result (IsRow (machine_of descr.now) (map assignment_of effects.now) (map (λ o. o.1) operands.now) own number scratch (map stand_of bindings.now) (map bound_by bindings.now)) }
{
    match bindings {
        [] => Ok(Row {
            slots: Items::new(alloc),
            homes: Items::new(alloc),
            next: scratch,
        }),
        [binding, bindings @ ..] => {
            let written = is_written(number, effects);
            let home = home_at(descr, operands, own, number, written, scratch, binding);
            let slot = slot_if_there(
                alloc, descr, operands, own, number, written, scratch, binding,
            )?;
            let next = next_scratch(scratch, takes_scratch(descr, written, binding))?;
            let others = row(
                alloc,
                descr,
                effects,
                operands,
                own,
                number + 1,
                next,
                bindings,
            )?;
            before(alloc, slot, home, others)
        }
    }
}

/// The row of a node's operands, where the next scratch has this number. An instruction that isn't there has no operands.
fn node_row(
    alloc: Global,
    descr: &Description,
    derivation: &Derivation,
    own: Home,
    scratch: u32,
) -> Result<Row, AllocError>
    ensures { IfOk result (IsRow (machine_of descr.now) (assignments_in (node_form (machine_of descr.now) (node_of derivation.now))) (kinds_in (node_form (machine_of descr.now) (node_of derivation.now))) own 0 scratch (node_of derivation.now).stands (map bound_by (out-Derivation derivation.now).bindings)) }
{
    let bindings = derivation.bindings.as_slice();
    let instructions = descr.instructions.as_slice();
    match instructions.get(derivation.instruction as usize) {
        Some(instruction) => {
            let effects = instruction.rtl.effects.as_slice();
            let operands = instruction.operands.as_slice();
            row(alloc, descr, effects, operands, own, 0, scratch, bindings)
        }
        None => row(alloc, descr, &[], &[], own, 0, scratch, bindings),
    }
}

/// The registers of a node's children, and its own for that of a flag.
fn with_own(
    homes: Items<Home>,
    own: Home,
    flag: &Option<Boxed<Derivation>>,
) -> Result<Items<Home>, AllocError>
    ensures { IfOk result (λ all. all ≡ homes ++ (if is_there flag.now then own ∷ [] else [])) }
{
    let mut homes = homes;
    if flag.is_some() {
        homes.push(own)?;
    }
    Ok(homes)
}

/// The lines of a derivation with this register as its own.
#[cycle(lines)]
#[tactic(auto, using(crate::specs::Law::Weights::tree_weight))]
pub(crate) fn tree_lines(
    alloc: Global,
    descr: &Description,
    derivation: &Derivation,
    own: Home,
    scratch: u32,
) -> Result<Made, AllocError>
    ensures { IfOk result (IsMade (machine_of descr.now) (forest_of derivation.now) (home_slot own ∷ []) scratch) }
{
    let row = node_row(alloc, descr, derivation, own, scratch)?;
    let homes = with_own(row.homes, own, &derivation.flag)?;
    let bindings = derivation.bindings.as_slice();
    let homes = homes.as_slice();
    let mut made = trees_lines(alloc, descr, homes, bindings, &derivation.flag, row.next)?;
    made.lines.push((derivation.instruction, row.slots))?;
    Ok(made)
}

/// The lines of the children of bindings, and then those of a flag's child, each with a register as its own.
#[cycle(lines)]
#[tactic(auto, using(crate::specs::Law::Weights::before_weight, crate::proofs::Made::before_trees))]
fn trees_lines(
    alloc: Global,
    descr: &Description,
    homes: &[Home],
    bindings: &[Binding],
    flag: &Option<Boxed<Derivation>>,
    scratch: u32,
) -> Result<Made, AllocError>
    requires { length homes.now ≡ trees_in (children_in bindings.now flag.now) }
    ensures { IfOk result (IsMade (machine_of descr.now) (children_in bindings.now flag.now) (home_slots homes.now) scratch) }
{
    match bindings {
        [] => match flag {
            Some(child) => match homes {
                [home, ..] => tree_lines(alloc, descr, child.get(), *home, scratch),
                [] => Ok(no_lines(alloc, scratch)),
            },
            None => Ok(no_lines(alloc, scratch)),
        },
        [binding, bindings @ ..] => match child_of(binding) {
            Some(child) => first_lines(alloc, descr, homes, child, bindings, flag, scratch),
            None => trees_lines(alloc, descr, homes, bindings, flag, scratch),
        },
    }
}

/// The lines of a child, then those of the children of bindings, and then those of a flag's child, each with a register as
/// its own.
#[cycle(lines)]
#[tactic(auto, using(crate::specs::Law::Weights::before_weight, crate::specs::Law::Weights::tree_weight, crate::proofs::Made::before_trees))]
fn first_lines(
    alloc: Global,
    descr: &Description,
    homes: &[Home],
    child: &Derivation,
    bindings: &[Binding],
    flag: &Option<Boxed<Derivation>>,
    scratch: u32,
) -> Result<Made, AllocError>
    requires { length homes.now ≡ trees_in (grows_of child.now (children_in bindings.now flag.now)) }
    ensures { IfOk result (IsMade (machine_of descr.now) (grows_of child.now (children_in bindings.now flag.now)) (home_slots homes.now) scratch) }
{
    match homes {
        [home, homes @ ..] => {
            let first = tree_lines(alloc, descr, child, *home, scratch)?;
            let others = trees_lines(alloc, descr, homes, bindings, flag, first.next)?;
            joined(first, others)
        }
        [] => Ok(no_lines(alloc, scratch)),
    }
}

/// No lines.
fn no_lines(alloc: Global, scratch: u32) -> Made
    ensures lines { result.lines ≡ [] }
    ensures next { result.next ≡ scratch }
{
    Made {
        lines: Items::new(alloc),
        next: scratch,
    }
}

/// Lines after others.
fn joined(first: Made, others: Made) -> Result<Made, AllocError>
    ensures { IfOk result (λ made. (made.lines ≡ first.lines ++ others.lines) × (made.next ≡ others.next)) }
{
    let mut lines = first.lines;
    lines.append(others.lines)?;
    Ok(Made {
        lines,
        next: others.next,
    })
}

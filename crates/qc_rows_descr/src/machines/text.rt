//! Operands and effects of an instruction as a machine's text has them.

use qc_descr::{Description, Instruction, OperandKind, Reach};
use qc_terms::{Dest, Effect, Place, Term};
use qc_words::Op;
use std::alloc::{AllocError, Global};

fn put(out: &mut Vec<u8>, text: &[u8]) -> Result<(), AllocError> {
    out.extend_from_slice(text)
}

/// A number, behind other text.
fn put_number(
    alloc: Global,
    out: &mut Vec<u8>,
    before: &[u8],
    number: u64,
) -> Result<(), AllocError> {
    put(out, before)?;
    put(out, format!(in alloc; "{number}")?.as_bytes())
}

fn space_name(machine: &Description, space: u32) -> &[u8] {
    match machine.spaces.get(space as usize) {
        Some(space) => space.name.bytes(),
        None => b"?",
    }
}

fn operand_name(instruction: &Instruction, operand: u32) -> &[u8] {
    match instruction.operands.get(operand as usize) {
        Some((name, _)) => name.bytes(),
        None => b"?",
    }
}

/// What an operand is: the name of a register's space, the bits of an immediate, or the reach of an address.
fn put_kind(
    alloc: Global,
    out: &mut Vec<u8>,
    machine: &Description,
    kind: OperandKind,
    reach: Option<&Reach>,
) -> Result<(), AllocError> {
    match kind {
        OperandKind::Register { space } => put(out, space_name(machine, space)),
        OperandKind::Imm { width } => put_number(alloc, out, b"imm ", u64::from(width.bits())),
        OperandKind::Addr => match reach {
            Some(Reach::Relative { bits }) => put_number(alloc, out, b"rel ", u64::from(*bits)),
            Some(Reach::Absolute { bits }) => put_number(alloc, out, b"abs ", u64::from(*bits)),
            _ => put(out, b"?"),
        },
    }
}

/// The operands with their kinds, with commas between them.
pub(crate) fn operands_text(
    alloc: Global,
    machine: &Description,
    instruction: &Instruction,
) -> Result<Vec<u8>, AllocError> {
    let mut out = Vec::new(alloc);
    let reaches = &instruction.coding.reaches;
    for (place, (name, kind)) in instruction.operands.as_slice().iter().enumerate() {
        if place > 0 {
            put(&mut out, b", ")?;
        }
        put(&mut out, name.bytes())?;
        put(&mut out, b": ")?;
        put_kind(alloc, &mut out, machine, *kind, reaches.get(place))?;
    }
    Ok(out)
}

fn put_place(
    alloc: Global,
    out: &mut Vec<u8>,
    machine: &Description,
    instruction: &Instruction,
    place: Place,
) -> Result<(), AllocError> {
    match place {
        Place::Cell { space, index } => {
            put(out, space_name(machine, space))?;
            put_number(alloc, out, b"[", u64::from(index))?;
            put(out, b"]")
        }
        Place::Operand { number, .. } => put(out, operand_name(instruction, number)),
    }
}

/// An operator by its name in texts, with the numbers that belong to it and the bracket before its operands.
fn put_operator(alloc: Global, out: &mut Vec<u8>, op: Op) -> Result<(), AllocError> {
    match op {
        Op::Zx { to } => put_number(alloc, out, b"zx ", u64::from(to.bits()))?,
        Op::Sx { to } => put_number(alloc, out, b"sx ", u64::from(to.bits()))?,
        Op::Slice { low, to } => {
            put_number(alloc, out, b"slice ", u64::from(low))?;
            put_number(alloc, out, b" ", u64::from(to.bits()))?;
        }
        _ => {
            let mut name = format!(in alloc; "{op:?}(")?;
            name.make_ascii_lowercase();
            return put(out, name.as_bytes());
        }
    }
    put(out, b" (")
}

fn put_term(
    alloc: Global,
    out: &mut Vec<u8>,
    machine: &Description,
    instruction: &Instruction,
    term: &Term,
) -> Result<(), AllocError> {
    match term {
        Term::Num { value, width } => {
            put_number(alloc, out, b"", *value)?;
            put_number(alloc, out, b"'", u64::from(width.bits()))
        }
        Term::Reg { place, .. } => put_place(alloc, out, machine, instruction, *place),
        Term::Imm { operand, .. } => put(out, operand_name(instruction, *operand)),
        Term::Input { .. } => put(out, b"input"),
        Term::After { .. } => put(out, b"after"),
        Term::Un { op, arg } => {
            put_operator(alloc, out, *op)?;
            put_term(alloc, out, machine, instruction, arg.get())?;
            put(out, b")")
        }
        Term::Bin { op, left, right } => {
            put_operator(alloc, out, *op)?;
            put_term(alloc, out, machine, instruction, left.get())?;
            put(out, b", ")?;
            put_term(alloc, out, machine, instruction, right.get())?;
            put(out, b")")
        }
        Term::Mem { width, address } => {
            put_number(alloc, out, b"mem ", u64::from(width.bits()))?;
            put(out, b" [")?;
            put_term(alloc, out, machine, instruction, address.get())?;
            put(out, b"]")
        }
    }
}

fn put_dest(
    alloc: Global,
    out: &mut Vec<u8>,
    machine: &Description,
    instruction: &Instruction,
    to: &Dest,
) -> Result<(), AllocError> {
    match to {
        Dest::Reg { place } => put_place(alloc, out, machine, instruction, *place),
        Dest::Mem { width, address } => {
            put_number(alloc, out, b"mem ", u64::from(width.bits()))?;
            put(out, b" [")?;
            put_term(alloc, out, machine, instruction, address)?;
            put(out, b"]")
        }
        Dest::Pc => put(out, b"pc"),
        Dest::Out => put(out, b"out"),
        Dest::Halt => put(out, b"halt"),
        Dest::Trap => put(out, b"trap"),
    }
}

fn put_effect(
    alloc: Global,
    out: &mut Vec<u8>,
    machine: &Description,
    instruction: &Instruction,
    effect: &Effect,
) -> Result<(), AllocError> {
    if let Some(guard) = &effect.guard {
        put(out, b"when ")?;
        put_term(alloc, out, machine, instruction, guard)?;
        put(out, b" => ")?;
    }
    put_dest(alloc, out, machine, instruction, &effect.to)?;
    put(out, b" := ")?;
    put_term(alloc, out, machine, instruction, &effect.value)
}

/// The effects, with bars between them.
pub(crate) fn effects_text(
    alloc: Global,
    machine: &Description,
    instruction: &Instruction,
) -> Result<Vec<u8>, AllocError> {
    let mut out = Vec::new(alloc);
    for (place, effect) in instruction.rtl.effects.as_slice().iter().enumerate() {
        if place > 0 {
            put(&mut out, b" | ")?;
        }
        put_effect(alloc, &mut out, machine, instruction, effect)?;
    }
    Ok(out)
}

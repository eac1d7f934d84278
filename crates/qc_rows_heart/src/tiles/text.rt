//! A tile's constants and effects as text.

use qc_terms::{Dest, Effect, Place, Term};
use qc_tiles::{Tile, TileFacts};
use qc_words::{Op, Width};
use std::alloc::{AllocError, Global};

/// A width, as `w` where it is the word's.
fn width_text(alloc: Global, facts: &TileFacts, width: Width) -> Result<String, AllocError> {
    let bits = width.bits();
    if bits == facts.word.bits() {
        format!(in alloc; "w")
    } else {
        format!(in alloc; "{bits}")
    }
}

/// A place. A cell that is neither the frame's nor the link's is none, and neither is a register parameter of another
/// space than the frame's.
fn place_text(alloc: Global, facts: &TileFacts, place: Place) -> Result<String, AllocError> {
    match place {
        Place::Cell { space, index } => {
            if (space, index) == (facts.frame.0, u64::from(facts.frame.1)) {
                format!(in alloc; "f")
            } else if (space, index) == (facts.link.0, u64::from(facts.link.1)) {
                format!(in alloc; "l")
            } else {
                format!(in alloc; "?")
            }
        }
        Place::Operand { space, number } => {
            if space == facts.frame.0 {
                format!(in alloc; "r{number}")
            } else {
                format!(in alloc; "?")
            }
        }
    }
}

/// An operator up to its operands.
fn operator_text(alloc: Global, facts: &TileFacts, op: Op) -> Result<String, AllocError> {
    match op {
        Op::Zx { to } => {
            let to = width_text(alloc, facts, to)?;
            format!(in alloc; "zx {to} ")
        }
        Op::Sx { to } => {
            let to = width_text(alloc, facts, to)?;
            format!(in alloc; "sx {to} ")
        }
        Op::Slice { low, to } => {
            let to = width_text(alloc, facts, to)?;
            format!(in alloc; "slice {low} {to} ")
        }
        _ => {
            let mut name = format!(in alloc; "{op:?}")?;
            name.make_ascii_lowercase();
            Ok(name)
        }
    }
}

/// A number by the bits of the word that it has not. One of another width than the word's is none.
fn number_text(
    alloc: Global,
    facts: &TileFacts,
    value: u64,
    width: Width,
) -> Result<String, AllocError> {
    let all = u64::MAX >> (64 - facts.word.bits());
    if width.bits() == facts.word.bits() && value <= all {
        let rest = all - value;
        format!(in alloc; "~{rest}")
    } else {
        format!(in alloc; "?")
    }
}

fn term_text(alloc: Global, facts: &TileFacts, term: &Term) -> Result<String, AllocError> {
    match term {
        Term::Num { value, width } => number_text(alloc, facts, *value, *width),
        Term::Reg { place, .. } => place_text(alloc, facts, *place),
        Term::Imm { operand, width } => {
            let width = width_text(alloc, facts, *width)?;
            format!(in alloc; "k{operand}'{width}")
        }
        Term::Input { width } => {
            let width = width_text(alloc, facts, *width)?;
            format!(in alloc; "input'{width}")
        }
        Term::After { width } => {
            let width = width_text(alloc, facts, *width)?;
            format!(in alloc; "after'{width}")
        }
        Term::Un { op, arg } => {
            let op = operator_text(alloc, facts, *op)?;
            let arg = term_text(alloc, facts, arg.get())?;
            format!(in alloc; "{op}({arg})")
        }
        Term::Bin { op, left, right } => {
            let op = operator_text(alloc, facts, *op)?;
            let left = term_text(alloc, facts, left.get())?;
            let right = term_text(alloc, facts, right.get())?;
            format!(in alloc; "{op}({left}, {right})")
        }
        Term::Mem { width, address } => {
            let width = width_text(alloc, facts, *width)?;
            let address = term_text(alloc, facts, address.get())?;
            format!(in alloc; "mem {width} [{address}]")
        }
    }
}

fn dest_text(alloc: Global, facts: &TileFacts, to: &Dest) -> Result<String, AllocError> {
    match to {
        Dest::Reg { place } => place_text(alloc, facts, *place),
        Dest::Mem { width, address } => {
            let width = width_text(alloc, facts, *width)?;
            let address = term_text(alloc, facts, address)?;
            format!(in alloc; "mem {width} [{address}]")
        }
        Dest::Pc => format!(in alloc; "pc"),
        Dest::Out => format!(in alloc; "out"),
        Dest::Halt => format!(in alloc; "halt"),
        Dest::Trap => format!(in alloc; "trap"),
    }
}

fn effect_text(alloc: Global, facts: &TileFacts, effect: &Effect) -> Result<String, AllocError> {
    let to = dest_text(alloc, facts, &effect.to)?;
    let value = term_text(alloc, facts, &effect.value)?;
    match &effect.guard {
        Some(guard) => {
            let guard = term_text(alloc, facts, guard)?;
            format!(in alloc; "when {guard} => {to} := {value}")
        }
        None => format!(in alloc; "{to} := {value}"),
    }
}

/// The effects of a tile, with bars between them.
pub(crate) fn effects_text(
    alloc: Global,
    facts: &TileFacts,
    tile: &Tile,
) -> Result<String, AllocError> {
    let mut text = String::new(alloc);
    for (place, effect) in tile.rtl.effects.as_slice().iter().enumerate() {
        if place > 0 {
            text.push_str(" | ")?;
        }
        text.push_str(effect_text(alloc, facts, effect)?.as_str())?;
    }
    Ok(text)
}

/// The widths of a tile's constants, with commas between them.
pub(crate) fn constants_text(
    alloc: Global,
    facts: &TileFacts,
    tile: &Tile,
) -> Result<String, AllocError> {
    let mut text = String::new(alloc);
    for (place, width) in tile.constants.as_slice().iter().enumerate() {
        if place > 0 {
            text.push_str(", ")?;
        }
        text.push_str(width_text(alloc, facts, *width)?.as_str())?;
    }
    Ok(text)
}

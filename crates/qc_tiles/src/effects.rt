ghost use Rattle.std.specs.Prelude.{◌≡◌, [], ◌∷◌, IfOk, None};
ghost use Rattle.qc_terms.specs.declared.term.Dest.TheVariants.{Mem, Reg};
ghost use Rattle.qc_terms.specs.declared.term.Place.TheVariants.{Operand};
ghost use Rattle.qc_terms.specs.Tree.{Load};
ghost use Rattle.qc_tiles.specs.declared.shape.Shape.TheVariants.{Binary, Branch, Call, Frame, LoadLink, LoadPart, LoadWord, Reload, Ret, StorePart, Test, Unary};
ghost use Rattle.qc_tiles.specs.Facts.{AreTileFacts};
ghost use Rattle.qc_tiles.specs.Terms.{term_of};
ghost use Rattle.qc_tiles.specs.Tiles.{effects_of, slot as slot_tree};

use crate::shape::{Shape, width};
use crate::terms::{
    binary, frame_cell, link_cell, load, parameter, place, slot, unary, word_operand,
};
use crate::tile::{NoMemory, TileFacts};
use qc_terms::{Dest, Effect, Place, Term};
use qc_words::{Op, Width, apply};
use sqlite_items::Items;
use std::alloc::Global;

/// The list of one effect without a guard.
fn gives(alloc: Global, to: Dest, value: Term) -> Result<Items<Effect>, NoMemory>
    ensures { IfOk result (λ es. es ≡ record { guard = None; to = to; value = value } ∷ []) }
{
    let mut effects = Items::new(alloc);
    effects.push(Effect {
        guard: None,
        to,
        value,
    })?;
    Ok(effects)
}

/// The first register parameter gets a value.
fn sets(alloc: Global, facts: &TileFacts, value: Term) -> Result<Items<Effect>, NoMemory>
    ensures { IfOk result (λ es. es ≡ record { guard = None; to = Reg (Operand facts.now.frame.0 0); value = value } ∷ []) }
{
    let place = Place::Operand {
        space: facts.frame.0,
        number: 0,
    };
    gives(alloc, Dest::Reg { place }, value)
}

/// So many bits of memory get a value.
fn stores(alloc: Global, bits: Width, address: Term, value: Term) -> Result<Items<Effect>, NoMemory>
    ensures { IfOk result (λ es. es ≡ record { guard = None; to = Mem bits address; value = value } ∷ []) }
{
    let to = Dest::Mem {
        width: bits,
        address,
    };
    gives(alloc, to, value)
}

/// The first register parameter gets what an operator makes of the next two.
fn sets_binary(alloc: Global, facts: &TileFacts, op: Op) -> Result<Items<Effect>, NoMemory>
    ensures { IfOk result (λ es. es ≡ effects_of facts.now (Binary op)) }
{
    let value = binary(alloc, op, parameter(facts, 1), parameter(facts, 2))?;
    sets(alloc, facts, value)
}

/// The first register parameter gets the word for whether a comparison of the next two holds.
fn sets_test(alloc: Global, facts: &TileFacts, op: Op) -> Result<Items<Effect>, NoMemory>
    ensures { IfOk result (λ es. es ≡ effects_of facts.now (Test op)) }
{
    let test = binary(alloc, op, parameter(facts, 1), parameter(facts, 2))?;
    let value = unary(alloc, Op::Zx { to: facts.word }, test)?;
    sets(alloc, facts, value)
}

/// The program counter gets the target where a comparison of the first two register parameters holds.
fn branches(alloc: Global, facts: &TileFacts, op: Op) -> Result<Items<Effect>, NoMemory>
    ensures { IfOk result (λ es. es ≡ effects_of facts.now (Branch op)) }
{
    let guard = binary(alloc, op, parameter(facts, 0), parameter(facts, 1))?;
    let mut effects = Items::new(alloc);
    effects.push(Effect {
        guard: Some(guard),
        to: Dest::Pc,
        value: word_operand(facts, 2),
    })?;
    Ok(effects)
}

/// The first register parameter gets so many bits of memory at the second.
fn loads_part(alloc: Global, facts: &TileFacts, bits: Width) -> Result<Items<Effect>, NoMemory>
    ensures { IfOk result (λ es. es ≡ effects_of facts.now (LoadPart bits)) }
{
    let part = load(alloc, bits, parameter(facts, 1))?;
    let value = unary(alloc, Op::Zx { to: facts.word }, part)?;
    sets(alloc, facts, value)
}

/// So many bits of memory at the first register parameter get those of the second.
fn stores_part(alloc: Global, facts: &TileFacts, bits: Width) -> Result<Items<Effect>, NoMemory>
    ensures { IfOk result (λ es. es ≡ effects_of facts.now (StorePart bits)) }
{
    let value = unary(alloc, Op::Slice { low: 0, to: bits }, parameter(facts, 1))?;
    stores(alloc, bits, parameter(facts, 0), value)
}

/// The link cell gets the address after, and the program counter the target.
fn calls(alloc: Global, facts: &TileFacts) -> Result<Items<Effect>, NoMemory>
    ensures { IfOk result (λ es. es ≡ effects_of facts.now Call) }
{
    let to = Dest::Reg {
        place: place(facts.link),
    };
    let mut effects = gives(alloc, to, Term::After { width: facts.word })?;
    effects.push(Effect {
        guard: None,
        to: Dest::Pc,
        value: word_operand(facts, 0),
    })?;
    Ok(effects)
}

/// The program counter gets the link cell's word, as an address that instructions may have.
fn returns_to_link(alloc: Global, facts: &TileFacts) -> Result<Items<Effect>, NoMemory>
    requires { AreTileFacts facts.now }
    ensures { IfOk result (λ es. es ≡ effects_of facts.now Ret) }
{
    let mask = Term::Num {
        value: apply(Op::Com, facts.word, facts.align - 1, 0),
        width: facts.word,
    };
    let value = binary(alloc, Op::And, link_cell(facts), mask)?;
    gives(alloc, Dest::Pc, value)
}

/// A word is stored in the frame slot of an operand.
fn saves(
    alloc: Global,
    facts: &TileFacts,
    number: u32,
    value: Term,
) -> Result<Items<Effect>, NoMemory>
    requires { AreTileFacts facts.now }
    ensures { IfOk result (λ es. es ≡ record { guard = None; to = Mem facts.now.word (term_of (slot_tree facts.now number)); value = value } ∷ []) }
{
    let address = slot(alloc, facts, number)?;
    stores(alloc, facts.word, address, value)
}

/// The word of the frame slot of an operand.
fn slot_word(alloc: Global, facts: &TileFacts, number: u32) -> Result<Term, NoMemory>
    requires { AreTileFacts facts.now }
    ensures { IfOk result (λ t. t ≡ term_of (Load facts.now.word (slot_tree facts.now number))) }
{
    let address = slot(alloc, facts, number)?;
    load(alloc, facts.word, address)
}

/// The link cell gets the word of its frame slot.
fn loads_link(alloc: Global, facts: &TileFacts) -> Result<Items<Effect>, NoMemory>
    requires { AreTileFacts facts.now }
    ensures { IfOk result (λ es. es ≡ effects_of facts.now LoadLink) }
{
    let to = Dest::Reg {
        place: place(facts.link),
    };
    let value = slot_word(alloc, facts, 0)?;
    gives(alloc, to, value)
}

/// The first register parameter gets the word of its frame slot.
fn reloads(alloc: Global, facts: &TileFacts) -> Result<Items<Effect>, NoMemory>
    requires { AreTileFacts facts.now }
    ensures { IfOk result (λ es. es ≡ effects_of facts.now Reload) }
{
    let value = slot_word(alloc, facts, 1)?;
    sets(alloc, facts, value)
}

/// The frame cell moves by a constant.
fn moves_frame(alloc: Global, facts: &TileFacts) -> Result<Items<Effect>, NoMemory>
    ensures { IfOk result (λ es. es ≡ effects_of facts.now Frame) }
{
    let to = Dest::Reg {
        place: place(facts.frame),
    };
    let value = binary(alloc, Op::Add, frame_cell(facts), word_operand(facts, 0))?;
    gives(alloc, to, value)
}

/// The first register parameter gets what an operator makes of the second.
fn sets_unary(alloc: Global, facts: &TileFacts, op: Op) -> Result<Items<Effect>, NoMemory>
    ensures { IfOk result (λ es. es ≡ effects_of facts.now (Unary op)) }
{
    let value = unary(alloc, op, parameter(facts, 1))?;
    sets(alloc, facts, value)
}

/// The first register parameter gets the word of memory at the second.
fn loads_word(alloc: Global, facts: &TileFacts) -> Result<Items<Effect>, NoMemory>
    ensures { IfOk result (λ es. es ≡ effects_of facts.now LoadWord) }
{
    let value = load(alloc, facts.word, parameter(facts, 1))?;
    sets(alloc, facts, value)
}

/// What a tile does.
pub(crate) fn effects(
    alloc: Global,
    facts: &TileFacts,
    shape: Shape,
) -> Result<Items<Effect>, NoMemory>
    requires { AreTileFacts facts.now }
    ensures { IfOk result (λ es. es ≡ effects_of facts.now shape) }
{
    match shape {
        Shape::Move => sets(alloc, facts, parameter(facts, 1)),
        Shape::Const => sets(alloc, facts, word_operand(facts, 1)),
        Shape::Unary { op } => sets_unary(alloc, facts, op),
        Shape::Binary { op } => sets_binary(alloc, facts, op),
        Shape::Test { op } => sets_test(alloc, facts, op),
        Shape::Branch { op } => branches(alloc, facts, op),
        Shape::LoadPart { bits } => loads_part(alloc, facts, bits),
        Shape::LoadWord => loads_word(alloc, facts),
        Shape::StorePart { bits } => stores_part(alloc, facts, bits),
        Shape::StoreWord => stores(alloc, facts.word, parameter(facts, 0), parameter(facts, 1)),
        Shape::Goto => gives(alloc, Dest::Pc, word_operand(facts, 0)),
        Shape::Call => calls(alloc, facts),
        Shape::Ret => returns_to_link(alloc, facts),
        Shape::SaveLink => saves(alloc, facts, 0, link_cell(facts)),
        Shape::LoadLink => loads_link(alloc, facts),
        Shape::Spill => saves(alloc, facts, 1, parameter(facts, 0)),
        Shape::Reload => reloads(alloc, facts),
        Shape::Frame => moves_frame(alloc, facts),
        Shape::In => sets(alloc, facts, Term::Input { width: facts.word }),
        Shape::Out => gives(alloc, Dest::Out, parameter(facts, 0)),
        Shape::Halt => gives(alloc, Dest::Halt, parameter(facts, 0)),
        Shape::Trap => gives(
            alloc,
            Dest::Trap,
            Term::Imm {
                operand: 0,
                width: width(8),
            },
        ),
    }
}

ghost use Rattle.std.specs.Prelude.{◌≡◌, IfOk};
ghost use Rattle.qc_terms.specs.declared.term.Place.TheVariants.{Cell};
ghost use Rattle.qc_terms.specs.declared.term.Term.TheVariants.{Bin, Mem, Un};
ghost use Rattle.qc_tiles.specs.Facts.{AreTileFacts};
ghost use Rattle.qc_tiles.specs.Terms.{term_of};
ghost use Rattle.qc_tiles.specs.Tiles as tiles;

use crate::shape::width;
use crate::tile::{NoMemory, TileFacts};
use qc_terms::{Place, Term};
use qc_words::{Op, Width};
use sqlite_items::Boxed;
use std::alloc::Global;

/// The register parameter of this number.
pub(crate) fn parameter(facts: &TileFacts, number: u32) -> Term
    ensures { result ≡ term_of (tiles.parameter facts.now number) }
{
    let place = Place::Operand {
        space: facts.frame.0,
        number,
    };
    Term::Reg {
        place,
        width: facts.word,
    }
}

/// The place of a cell that is given by space and index.
pub(crate) fn place(cell: (u32, u32)) -> Place
    ensures { result ≡ Cell cell.0 cell.1 }
{
    let (space, index) = cell;
    Place::Cell {
        space,
        index: u64::from(index),
    }
}

/// The frame cell's word.
pub(crate) fn frame_cell(facts: &TileFacts) -> Term
    ensures { result ≡ term_of (tiles.frame_cell facts.now) }
{
    Term::Reg {
        place: place(facts.frame),
        width: facts.word,
    }
}

/// The link cell's word.
pub(crate) fn link_cell(facts: &TileFacts) -> Term
    ensures { result ≡ term_of (tiles.link_cell facts.now) }
{
    Term::Reg {
        place: place(facts.link),
        width: facts.word,
    }
}

/// A constant word or a target, as the operand of this number.
pub(crate) fn word_operand(facts: &TileFacts, number: u32) -> Term
    ensures { result ≡ term_of (tiles.word_operand facts.now number) }
{
    Term::Imm {
        operand: number,
        width: facts.word,
    }
}

/// An operator of one operand.
pub(crate) fn unary(alloc: Global, op: Op, arg: Term) -> Result<Term, NoMemory>
    ensures { IfOk result (λ t. t ≡ Un op arg) }
{
    let arg = Boxed::new(alloc, arg)?;
    Ok(Term::Un { op, arg })
}

/// An operator of two operands.
pub(crate) fn binary(alloc: Global, op: Op, left: Term, right: Term) -> Result<Term, NoMemory>
    ensures { IfOk result (λ t. t ≡ Bin op left right) }
{
    let left = Boxed::new(alloc, left)?;
    let right = Boxed::new(alloc, right)?;
    Ok(Term::Bin { op, left, right })
}

/// So many bits of memory at an address.
pub(crate) fn load(alloc: Global, width: Width, address: Term) -> Result<Term, NoMemory>
    ensures { IfOk result (λ t. t ≡ Mem width address) }
{
    let address = Boxed::new(alloc, address)?;
    Ok(Term::Mem { width, address })
}

/// A frame offset, as the operand of this number.
fn offset(alloc: Global, facts: &TileFacts, number: u32) -> Result<Term, NoMemory>
    requires { AreTileFacts facts.now }
    ensures { IfOk result (λ t. t ≡ term_of (tiles.offset facts.now number)) }
{
    if facts.slot_bits == facts.word.bits() {
        return Ok(word_operand(facts, number));
    }
    let part = Term::Imm {
        operand: number,
        width: width(facts.slot_bits),
    };
    unary(alloc, Op::Sx { to: facts.word }, part)
}

/// The address of a frame slot, whose offset is the operand of this number.
pub(crate) fn slot(alloc: Global, facts: &TileFacts, number: u32) -> Result<Term, NoMemory>
    requires { AreTileFacts facts.now }
    ensures { IfOk result (λ t. t ≡ term_of (tiles.slot facts.now number)) }
{
    let offset = offset(alloc, facts, number)?;
    binary(alloc, Op::Add, frame_cell(facts), offset)
}

//! Descriptions, made of their parts.
ghost use Rattle.std.specs.Prelude.{◌≡◌, ◌++◌, ◌≤◌, IfOk, IfSome, OnOk, length, unwrap_or};
ghost use Rattle.qc_descr.specs.declared.sketch.Parts.{Parts};
ghost use Rattle.qc_descr.specs.CodingFaults.{bits_of_claims, claimed_bits};
ghost use Rattle.qc_descr.specs.Making.{AreWholeParts, coding_of, description_of, facts_of, first_coding, instructions_of};
ghost use Rattle.qc_descr.specs.Inner.Overlaps.{own_fault};
ghost use Rattle.qc_descr.specs.Parts.{word_of};

use crate::coding::{Bit, Coding};
use crate::coding_faults::operations_fault;
use crate::description::{Description, Instruction, Space};
use crate::faults::{DescrEnd, DescrFault};
use crate::laws::descriptions_are_valid;
use crate::layout::unfit_part;
use crate::overlaps::first_overlap;
use crate::parts::{Given, Operation};
use crate::sketch::{Claim, Parts, Sketch};
use qc_terms::{Facts, Order};
use qc_text::Text;
use qc_words::Width;
use sqlite_items::Items;
use std::alloc::{AllocError, Global};

impl From<AllocError> for DescrEnd {
    ghost use Rattle.std.specs.Prelude.{◌≡◌};
    ghost use Rattle.qc_descr.specs.declared.faults.DescrEnd.TheVariants.{NoMemory};

    ghost from_gives = { λ _ e. e ≡ NoMemory };

    fn from(_: AllocError) -> DescrEnd {
        DescrEnd::NoMemory
    }
}

/// The width of words: the given one, or 32 where none is given.
fn word_of(given: &Given) -> Width
    ensures { result ≡ word_of given.now }
{
    match given.word {
        Some(word) => word,
        None => Width::new(32).unwrap(),
    }
}

fn facts_of(given: &Given) -> Facts
    ensures { result ≡ facts_of given.now }
{
    Facts {
        word: word_of(given),
        order: given.order.unwrap_or(Order::Little),
        zero: given.zero,
    }
}

/// Adds what stands at a token's bit.
fn push_claim(alloc: Global, bits: &mut Items<Bit>, claim: &Claim) -> Result<(), AllocError>
    ensures { OnOk result (bits.new ≡ bits.old ++ claimed_bits claim.now) }
{
    match claim {
        Claim::Free => Ok(()),
        Claim::Once { bit } => bits.push(*bit),
        Claim::Several { bits: several } => {
            bits.append(Items::from_slice(alloc, several.as_slice())?)
        }
    }
}

/// What stands at a sketch's bits, from the lowest bit of the first token on.
fn bits_of_claims(alloc: Global, claims: &[Claim]) -> Result<Items<Bit>, AllocError>
    ensures { IfOk result (λ bits. bits ≡ bits_of_claims claims.now) }
{
    let mut bits = Items::new(alloc);
    for claim in claims {
        push_claim(alloc, &mut bits, claim)?;
    }
    Ok(bits)
}

/// The coding of an alternative.
fn coding_of(alloc: Global, sketch: Sketch) -> Result<Coding, AllocError>
    ensures { IfOk result (λ coding. coding ≡ coding_of sketch) }
{
    let Sketch {
        tokens,
        claims,
        reaches,
        misfit: _,
    } = sketch;
    let bits = bits_of_claims(alloc, claims.as_slice())?;
    Ok(Coding {
        tokens,
        bits,
        reaches,
    })
}

/// The coding of an operation: that of its first alternative.
fn first_coding(alloc: Global, alternatives: Items<Sketch>) -> Result<Coding, AllocError>
    ensures { IfOk result (λ coding. coding ≡ first_coding alternatives) }
{
    let mut alternatives = alternatives;
    if alternatives.is_empty() {
        return Ok(Coding {
            tokens: Items::new(alloc),
            bits: Items::new(alloc),
            reaches: Items::new(alloc),
        });
    }
    coding_of(alloc, alternatives.remove(0))
}

/// The instruction of an operation with these alternatives.
fn instruction(
    alloc: Global,
    operation: Operation,
    alternatives: Items<Sketch>,
) -> Result<Instruction, AllocError>
    ensures { IfOk result (λ i. i ≡ record { name = operation.name; operands = operation.operands; rtl = operation.rtl; coding = first_coding alternatives }) }
{
    let Operation {
        name,
        operands,
        rtl,
    } = operation;
    let coding = first_coding(alloc, alternatives)?;
    Ok(Instruction {
        name,
        operands,
        rtl,
        coding,
    })
}

/// The instructions of operations with their alternatives.
fn instructions_of(
    alloc: Global,
    operations: Items<Operation>,
    sketches: Items<Items<Sketch>>,
) -> Result<Items<Instruction>, AllocError>
    requires { length operations ≡ length sketches }
    ensures { IfOk result (λ instructions. instructions ≡ instructions_of operations sketches) }
{
    let mut operations = operations;
    let mut sketches = sketches;
    let mut instructions = Items::new(alloc);
    'each: while !operations.is_empty() {
        let operation = operations.remove(0);
        let alternatives = sketches.remove(0);
        instructions.push(instruction(alloc, operation, alternatives)?)?;
    }
    Ok(instructions)
}

/// What is wrong with the layout, or else with the first operation that isn't well coded.
fn own_fault(parts: &Parts) -> Option<DescrFault>
    requires { AreWholeParts parts.now }
    ensures { result ≡ own_fault parts.now }
{
    match unfit_part(parts) {
        Some(part) => Some(DescrFault::BadLayout { part }),
        None => operations_fault(
            word_of(&parts.given),
            parts.spaces.as_slice(),
            0,
            parts.operations.as_slice(),
            parts.sketches.as_slice(),
        ),
    }
}

/// The number of bits of a slot, or 4 where none is given.
fn slot_bits(given: &Given) -> u8
    requires { IfSome given.now.slot_bits (λ n. n ≤ 32) }
    ensures { result ≡ unwrap_or given.now.slot_bits 4 }
{
    match given.slot_bits {
        Some(bits) => bits as u8,
        None => 4,
    }
}

/// The description of these parts with these instructions.
fn description_with(
    name: Text,
    given: Given,
    spaces: Items<Space>,
    instructions: Items<Instruction>,
) -> Description
    requires { IfSome given.slot_bits (λ n. n ≤ 32) }
    ensures { (p : Parts) → p.name ≡ name → p.given ≡ given → p.spaces ≡ spaces → result ≡ record (description_of p) { instructions = instructions } }
{
    let (allocatable, first, last) = given.allocatable.unwrap_or((0, 0, 0));
    Description {
        name,
        facts: facts_of(&given),
        spaces,
        align: given.align.unwrap_or(1),
        slot_bits: slot_bits(&given),
        frame: given.frame.unwrap_or((0, 0)),
        link: given.link.unwrap_or((0, 0)),
        first,
        last,
        allocatable,
        memory: given.memory.unwrap_or(0),
        code_end: given.code_end.unwrap_or(0),
        data_end: given.data_end.unwrap_or(0),
        instructions,
    }
}

impl Description {
    ghost use Rattle.qc_descr.specs.Making.{AnswersParts, AreWholeParts};
    ghost use Rattle.qc_descr.specs.Valid.{IsValid};

    /// The description of parts, or what is wrong with them: with the layout, else with the first operation that isn't
    /// well coded, else the first two operations of which some bytes begin with both.
    pub fn new(alloc: Global, parts: Parts) -> Result<Description, DescrEnd>
        requires parts { AreWholeParts parts }
        ensures answer { AnswersParts parts result }
        ensures valid { IfOk result IsValid }
    {
        descriptions_are_valid();
        if let Some(fault) = own_fault(&parts) {
            return Err(DescrEnd::Fault { fault });
        }
        let Parts {
            name,
            given,
            spaces,
            operations,
            sketches,
        } = parts;
        let instructions = instructions_of(alloc, operations, sketches)?;
        let order = facts_of(&given).order;
        if let Some(fault) = first_overlap(order, 0, instructions.as_slice()) {
            return Err(DescrEnd::Fault { fault });
        }
        Ok(description_with(name, given, spaces, instructions))
    }
}

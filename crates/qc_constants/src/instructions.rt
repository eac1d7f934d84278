//! The instructions that programs of constants are compiled into.
ghost use Rattle.std.specs.Prelude.{◌≡◌, ◌↔◌, ◌*◌, ◌++◌, ◌≤◌, IfOk, IsTrue, None, OnOk, Some, slice_get};
ghost use Rattle.qc_terms.specs.declared.state.Order.TheVariants.{Little};
ghost use Rattle.qc_constants.specs.Constants.{HasConstants};
ghost use Rattle.qc_constants.specs.Constants as spec;

use qc_descr::{Bit, Coding, Description, Instruction, OperandKind, Reach};
use qc_equal::same_instruction;
use qc_terms::{Dest, Effect, Order, Place, Rtl, Term};
use qc_text::{NoMemory, Text};
use qc_words::Width;
use sqlite_items::Items;
use std::alloc::Global;

/// The places of const, op_out and op_halt in a description.
pub(crate) const LOAD_CONSTANT: u32 = 1;

pub(crate) const PUT_CELL: u32 = 37;

pub(crate) const HALT_WITH_CELL: u32 = 38;

/// The bytes of the code of the longest program: 1,001 statements of two instructions, each of 8 bytes.
const MOST_CODE: u64 = 16 * 1001;

fn push_fixed(bits: &mut Items<Bit>, count: u8, value: u32) -> Result<(), NoMemory>
    requires { count ≤ 32 }
    ensures { OnOk result (bits.new ≡ bits.old ++ spec.fixed_bits count value) }
{
    for i in 0..count {
        bits.push(Bit::Fixed {
            one: (value >> i) % 2 == 1,
        })?;
    }
    Ok(())
}

fn push_operand(bits: &mut Items<Bit>, count: u8, operand: u32) -> Result<(), NoMemory>
    ensures { OnOk result (bits.new ≡ bits.old ++ spec.operand_bits count operand) }
{
    for bit in 0..count {
        bits.push(Bit::Piece { operand, bit })?;
    }
    Ok(())
}

/// The token of an opcode and the register of operand 0.
#[tactic(auto, unfolding(crate::specs::Constants::first_token))]
fn first_token(alloc: Global, opcode: u32) -> Result<Items<Bit>, NoMemory>
    ensures { IfOk result (λ bits. bits ≡ spec.first_token opcode) }
{
    let mut bits = Items::new(alloc);
    push_fixed(&mut bits, 8, opcode)?;
    push_operand(&mut bits, 4, 0)?;
    push_fixed(&mut bits, 20, 0)?;
    Ok(bits)
}

fn token_width() -> Width
    ensures { result ≡ 32 }
{
    match Width::new(32) {
        Some(width) => width,
        None => unreachable!(),
    }
}

/// A register of the first space, as an operand.
fn register_operand(alloc: Global, name: &[u8]) -> Result<(Text, OperandKind), NoMemory>
    ensures { IfOk result (λ o. o ≡ spec.register_operand name.now) }
{
    Ok((Text::new(alloc, name)?, OperandKind::Register { space: 0 }))
}

fn instruction(
    alloc: Global,
    name: &[u8],
    operands: Items<(Text, OperandKind)>,
    to: Dest,
    value: Term,
    bits: Items<Bit>,
    reaches: &[Reach],
) -> Result<Instruction, NoMemory>
    ensures { IfOk result (λ i. i ≡ spec.instruction_of name.now operands to value bits reaches.now) }
{
    let name = Text::new(alloc, name)?;
    let tokens = Items::from_slice(alloc, &[32, 32])?;
    let reaches = Items::from_slice(alloc, reaches)?;
    let mut effects = Items::new(alloc);
    effects.push(Effect {
        guard: None,
        to,
        value,
    })?;
    Ok(Instruction {
        name,
        operands,
        rtl: Rtl { effects },
        coding: Coding {
            tokens,
            bits,
            reaches,
        },
    })
}

#[tactic(auto, unfolding(crate::specs::Constants::const_instruction, crate::specs::Constants::immediate_token))]
pub(crate) fn const_instruction(alloc: Global) -> Result<Instruction, NoMemory>
    ensures { IfOk result (λ i. i ≡ spec.const_instruction) }
{
    let mut operands = Items::new(alloc);
    operands.push(register_operand(alloc, b"d")?)?;
    operands.push((
        Text::new(alloc, b"k")?,
        OperandKind::Imm {
            width: token_width(),
        },
    ))?;
    let to = Dest::Reg {
        place: Place::Operand {
            space: 0,
            number: 0,
        },
    };
    let value = Term::Imm {
        operand: 1,
        width: token_width(),
    };
    let mut bits = first_token(alloc, 2)?;
    push_operand(&mut bits, 32, 1)?;
    let reaches = [Reach::Plain, Reach::Plain];
    instruction(alloc, b"const", operands, to, value, bits, &reaches)
}

/// An instruction of one effect whose value is the register that is operand 0.
#[tactic(auto, unfolding(crate::specs::Constants::register_instruction, crate::specs::Constants::empty_token))]
fn register_instruction(
    alloc: Global,
    name: &[u8],
    to: Dest,
    opcode: u32,
) -> Result<Instruction, NoMemory>
    ensures { IfOk result (λ i. i ≡ spec.register_instruction name.now to opcode) }
{
    let mut operands = Items::new(alloc);
    operands.push(register_operand(alloc, b"a")?)?;
    let value = Term::Reg {
        place: Place::Operand {
            space: 0,
            number: 0,
        },
        width: token_width(),
    };
    let mut bits = first_token(alloc, opcode)?;
    push_fixed(&mut bits, 32, 0)?;
    instruction(alloc, name, operands, to, value, bits, &[Reach::Plain])
}

#[tactic(auto, unfolding(crate::specs::Constants::out_instruction))]
pub(crate) fn out_instruction(alloc: Global) -> Result<Instruction, NoMemory>
    ensures { IfOk result (λ i. i ≡ spec.out_instruction) }
{
    register_instruction(alloc, b"op_out", Dest::Out, 38)
}

#[tactic(auto, unfolding(crate::specs::Constants::halt_instruction))]
pub(crate) fn halt_instruction(alloc: Global) -> Result<Instruction, NoMemory>
    ensures { IfOk result (λ i. i ≡ spec.halt_instruction) }
{
    register_instruction(alloc, b"op_halt", Dest::Halt, 39)
}

/// Whether the instruction stands at this place of the description.
fn has_instruction(descr: &Description, number: u32, instruction: &Instruction) -> bool
    ensures { IsTrue result ↔ (slice_get descr.now.instructions number ≡ Some instruction.now) }
{
    match descr.instructions.get(number as usize) {
        Some(own) => same_instruction(own, instruction),
        None => false,
    }
}

/// Whether the three instructions stand at the places of const, op_out and op_halt.
fn has_instructions(
    descr: &Description,
    constant: &Instruction,
    output: &Instruction,
    halt: &Instruction,
) -> bool
    ensures { IsTrue result ↔ (slice_get descr.now.instructions 1 ≡ Some constant.now)
        × (slice_get descr.now.instructions 37 ≡ Some output.now)
        × (slice_get descr.now.instructions 38 ≡ Some halt.now) }
{
    has_instruction(descr, LOAD_CONSTANT, constant)
        && has_instruction(descr, PUT_CELL, output)
        && has_instruction(descr, HALT_WITH_CELL, halt)
}

/// Whether the machine has the words and the room for the code of programs of constants, and no cell that always reads 0.
fn has_words_and_room(descr: &Description) -> bool
    ensures { IsTrue result ↔ (descr.now.facts.word ≡ 32) × (descr.now.facts.order ≡ Little)
        × (descr.now.facts.zero ≡ None) × (16 * 1001 ≤ descr.now.code_end) }
{
    descr.facts.word.bits() == 32
        && descr.facts.order == Order::Little
        && descr.facts.zero.is_none()
        && descr.code_end >= MOST_CODE
}

/// Whether the machine is one that programs of constants are compiled for.
pub fn has_constants(alloc: Global, descr: &Description) -> Result<bool, NoMemory>
    ensures { IfOk result (λ has. IsTrue has ↔ HasConstants descr.now) }
{
    let constant = const_instruction(alloc)?;
    let output = out_instruction(alloc)?;
    let halt = halt_instruction(alloc)?;
    let has_instructions = has_instructions(descr, &constant, &output, &halt);
    Ok(has_words_and_room(descr) && has_instructions)
}

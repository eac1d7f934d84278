ghost use Rattle.std.specs.Prelude.{◌≡◌, drop, IsNone, IfOk, IfSome};
ghost use Rattle.qc_decode.specs.Decoder.{DecodesAt, IsDecoderOf};
ghost use Rattle.qc_decode.specs.Inner.OperandsAt.{AreOperandsAt, HasNoOperandsAt, IsInstructionOf};
ghost use Rattle.qc_descr.specs.Valid.{IsValid};

use crate::bytes::{has_bytes, has_fixed_bits};
use crate::operands::{decode_operand, operand_in_bytes};
use qc_descr::{Description, Instance, Instruction, Operands, coding_size};
use qc_text::NoMemory;
use smallvec::SmallVec;
use std::alloc::Global;

/// The operands with which the instruction has the first bytes of the memory, the first of which stands at the address,
/// where there are such operands.
fn decode_operands(
    alloc: Global,
    descr: &Description,
    instruction: &Instruction,
    at: u64,
    memory: &[u8],
) -> Option<Operands>
    requires { IsInstructionOf descr.now instruction.now }
    ensures some { IfSome result (λ operands. AreOperandsAt descr.now instruction.now at memory.now operands.items) }
    ensures none { IsNone result → HasNoOperandsAt descr.now instruction.now at memory.now }
{
    let size = coding_size(&instruction.coding);
    if memory.len() < size {
        return None;
    }
    let bytes = &memory[..size];
    let (coding, order) = (&instruction.coding, descr.facts.order);
    let reaches = coding.reaches.as_slice();
    let mut coded = [0; 8];
    let mut operands = SmallVec::new(alloc);
    for (number, operand) in instruction.operands.as_slice().iter().enumerate() {
        let value = operand_in_bytes(coding, order, number, bytes);
        match decode_operand(descr, operand.1, reaches[number], at, value) {
            Some(operand) => {
                coded[number] = value;
                operands.push_reserved(operand);
            }
            None => return None,
        }
    }
    if has_bytes(coding, order, &coded[..reaches.len()], bytes) {
        Some(operands)
    } else {
        None
    }
}

/// The operands as `decode_operands` finds them, sooner where the fixed bits tell that there are none.
fn decode_instruction(
    alloc: Global,
    descr: &Description,
    instruction: &Instruction,
    at: u64,
    memory: &[u8],
) -> Option<Operands>
    requires { IsInstructionOf descr.now instruction.now }
    ensures some { IfSome result (λ operands. AreOperandsAt descr.now instruction.now at memory.now operands.items) }
    ensures none { IsNone result → HasNoOperandsAt descr.now instruction.now at memory.now }
{
    let size = coding_size(&instruction.coding);
    if size > memory.len() {
        return None;
    }
    if has_fixed_bits(&instruction.coding, descr.facts.order, &memory[..size]) {
        decode_operands(alloc, descr, instruction, at, memory)
    } else {
        None
    }
}

/// The memory from an address.
fn memory_from(memory: &[u8], at: u64) -> &[u8]
    ensures { result.now ≡ drop at memory.now }
{
    &memory[(at as usize).min(memory.len())..]
}

/// What is made once for a description, so that instances of it can be found in memories.
#[derive(Debug, Drop)]
pub struct Decoder {
    alloc: Global,
}

impl Decoder {
    /// A decoder of this description.
    ///
    /// # Errors
    ///
    /// Want of memory.
    pub fn new(alloc: Global, descr: &Description) -> Result<Decoder, NoMemory>
        ensures { IfOk result (IsDecoderOf descr.now) }
    {
        let _ = descr;
        Ok(Decoder { alloc })
    }

    /// The instance that stands in the memory at an address, with its number of bytes. The address counts bytes. The
    /// decoder is one of this description. It takes no memory.
    pub fn decode(&self, descr: &Description, memory: &[u8], at: u64) -> Option<(Instance, usize)>
        requires valid { IsValid descr.now }
        requires made { IsDecoderOf descr.now self.now }
        ensures { DecodesAt descr.now memory.now at result }
    {
        let rest = memory_from(memory, at);
        for (number, instruction) in descr.instructions.as_slice().iter().enumerate() {
            if let Some(operands) = decode_instruction(self.alloc, descr, instruction, at, rest) {
                let instance = Instance {
                    instruction: number as u32,
                    operands,
                };
                return Some((instance, coding_size(&instruction.coding)));
            }
        }
        None
    }

    /// What `decode` answers, sooner where the instance is one of the instruction of this number.
    pub fn decode_likely(
        &self,
        descr: &Description,
        memory: &[u8],
        at: u64,
        likely: u32,
    ) -> Option<(Instance, usize)>
        requires valid { IsValid descr.now }
        requires made { IsDecoderOf descr.now self.now }
        ensures { DecodesAt descr.now memory.now at result }
    {
        if let Some(instruction) = descr.instructions.as_slice().get(likely as usize) {
            let rest = memory_from(memory, at);
            if let Some(operands) = decode_operands(self.alloc, descr, instruction, at, rest) {
                let instance = Instance {
                    instruction: likely,
                    operands,
                };
                let size = coding_size(&instruction.coding);
                return Some((instance, size));
            }
        }
        self.decode(descr, memory, at)
    }
}

ghost use Rattle.std.specs.Prelude.{◌≡◌, ℕ, ◌<◌, ◌≤◌, ◌/◌, List, length, sum, take, drop, slice_get};
ghost use Rattle.std.specs.Prelude.{IfSome, IfOk, IfErr, IsErr, OnErr, IsTrue};
ghost use Rattle.std.specs.List.{list_all};
ghost use Rattle.qc_descr.specs.Encoding.{IsInstance};
ghost use Rattle.qc_descr.specs.Description.{size_of};
ghost use Rattle.qc_descr.specs.Encoding.{Encodes, coded_bytes};
ghost use Rattle.qc_descr.specs.Valid.{IsValid, is_token};
ghost use Rattle.qc_encode.specs.Inner.InstructionOf.{IsInstructionOf};
ghost use Rattle.qc_encode.specs.Refusal.{IsOutOfReach};

use crate::operands::{OutOfReach, code_operands};
use qc_descr::{Coding, Description, Instance, Instruction, byte_value, coding_size, memory_byte};
use qc_terms::Order;

/// Puts the bytes of a coding under the coded values of the operands into the first places of `into`, and answers how many
/// there are.
fn encode_coding(coding: &Coding, order: Order, operands: &[u64], into: &mut [u8; 16]) -> usize
    requires few { sum coding.now.tokens ≤ 128 }
    requires tokens { IsTrue (list_all is_token coding.now.tokens) }
    requires bits { length coding.now.bits ≡ sum coding.now.tokens }
    ensures encoded { take result into.new ≡ coded_bytes order coding.now operands.now }
    ensures rest { drop result into.new ≡ drop result into.old }
    ensures size { result ≡ sum coding.now.tokens / 8 }
    ensures most { result ≤ 16 }
{
    let size = coding_size(coding);
    for place in 0..size {
        into[place] = byte_value(operands, memory_byte(coding, order, place));
    }
    size
}

/// The instruction of an instance.
fn instruction_of<'a>(descr: &'a Description, instance: &Instance) -> &'a Instruction
    requires valid { IsValid descr.now }
    requires instance { IsInstance descr.now instance.now.instruction instance.now.operands.items }
    ensures { IsInstructionOf descr.now instance.now.instruction instance.now.operands.items result.now }
{
    &descr.instructions.as_slice()[instance.instruction as usize]
}

/// Puts the bytes of an instance that is to stand at the address into the first places of `into`, and answers how many
/// there are. No other place changes. The address is that of the first byte, and counts bytes. It takes no memory.
///
/// # Errors
///
/// Where an operand can't be coded at that address, the error names the first such one, and nothing is put.
pub fn encode(
    descr: &Description,
    instance: &Instance,
    at: u64,
    into: &mut [u8; 16],
) -> Result<usize, OutOfReach>
    requires valid { IsValid descr.now }
    requires instance { IsInstance descr.now instance.now.instruction instance.now.operands.items }
    ensures encoded { IfOk result (λ size.
        Encodes descr.now at instance.now.instruction instance.now.operands.items (take size into.new)) }
    ensures rest { IfOk result (λ size. drop size into.new ≡ drop size into.old) }
    ensures size { IfOk result (λ size. IfSome (slice_get descr.now.instructions instance.now.instruction) (λ instruction.
        size ≡ size_of instruction)) }
    ensures some { IfOk result (λ size. 0 < size) }
    ensures most { IfOk result (λ size. size ≤ 16) }
    ensures refused { IfErr result
        (IsOutOfReach descr.now at instance.now.instruction instance.now.operands.items) }
    ensures none { IsErr result → (bytes : List ℕ) →
        Encodes descr.now at instance.now.instruction instance.now.operands.items bytes → ⊥ }
    ensures unchanged { IsErr result → into.new ≡ into.old }
{
    let instruction = instruction_of(descr, instance);
    let coding = &instruction.coding;
    let operands = instance.operands.as_slice();
    match code_operands(coding, at, operands) {
        Ok(coded) => {
            let coded = &coded[..operands.len()];
            Ok(encode_coding(coding, descr.facts.order, coded, into))
        }
        Err(refusal) => Err(refusal),
    }
}

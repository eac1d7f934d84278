//! Which instances a description has.
ghost use Rattle.std.specs.Prelude.{◌↔◌, IsTrue, map};
ghost use Rattle.qc_descr.specs.Description.{AreInRange};
ghost use Rattle.qc_descr.specs.Encoding.{IsInstance};

use crate::operands::is_in_range;
use qc_descr::{Description, Instance, OperandKind};
use qc_text::Text;

/// Whether there is one operand for each kind, in range.
fn are_in_range(descr: &Description, kinds: &[(Text, OperandKind)], operands: &[u64]) -> bool
    ensures { IsTrue result ↔ AreInRange descr.now (map (λ o. o.1) kinds.now) operands.now }
{
    match kinds {
        [] => operands.is_empty(),
        [(_, kind), kinds @ ..] => match operands {
            [] => false,
            [operand, operands @ ..] => {
                is_in_range(descr, *kind, *operand) && are_in_range(descr, kinds, operands)
            }
        },
    }
}

/// Whether the description has the instance: an instruction of its number, with as many operands, which are cells of
/// their spaces, numbers that their widths hold, or addresses that a word holds.
pub fn is_instance(descr: &Description, instance: &Instance) -> bool
    ensures { IsTrue result ↔ IsInstance descr.now instance.now.instruction instance.now.operands.items }
{
    match descr.instructions.get(instance.instruction as usize) {
        Some(instruction) => are_in_range(
            descr,
            instruction.operands.as_slice(),
            instance.operands.as_slice(),
        ),
        None => false,
    }
}

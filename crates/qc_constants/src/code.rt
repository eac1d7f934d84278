//! The code of programs of constants.
ghost use Rattle.std.specs.Prelude.{◌≡◌, ◌+◌, ◌*◌, ◌++◌, length, IfOk, OnOk};
ghost use Rattle.std.specs.List.{flat_map};
ghost use Rattle.qc_constants.specs.Agreement.{Agrees};
ghost use Rattle.qc_constants.specs.Code.{image_of, load_constant, output_of, return_of};
ghost use Rattle.qc_descr.specs.Encoding.{Encodes, code_bytes, instance_bytes};
ghost use Rattle.qc_constants.specs.ConstantProgram.{IsConstantProgram};
ghost use Rattle.qc_constants.specs.Constants.{HasConstants};
ghost use Rattle.qc_descr.specs.Loading.{FitsMachine};
ghost use Rattle.qc_descr.specs.Valid.{IsValid};

use crate::instructions::{HALT_WITH_CELL, LOAD_CONSTANT, PUT_CELL};
use crate::program::ConstantProgram;
use qc_descr::{Description, Instance, Operands, one_instance};
use qc_encode::encode;
use qc_terms::Image;
use qc_text::NoMemory;
use sqlite_items::Items;
use std::alloc::Global;

/// The cell of the first space that each constant goes through.
const CELL: u64 = 0;

/// Puts the bytes of an instruction with its operands at the end of the code, which is to stand from address 0 on.
fn push_instruction(
    alloc: Global,
    code: &mut Vec<u8>,
    descr: &Description,
    instruction: u32,
    operands: &[u64],
) -> Result<(), NoMemory>
    requires valid { IsValid descr.now }
    requires encodes { Encodes descr.now (length code.old.items) instruction operands.now
        (instance_bytes descr.now (length code.old.items) (record { number = instruction; operands = operands.now })) }
    ensures { OnOk result (code.new.items ≡ code.old.items
        ++ instance_bytes descr.now (length code.old.items) (record { number = instruction; operands = operands.now })) }
{
    let operands = Operands::from_slice(alloc, operands)?;
    let instance = Instance {
        instruction,
        operands,
    };
    let mut bytes = [0; 16];
    match encode(descr, &instance, code.len() as u64, &mut bytes) {
        Ok(size) => code.extend_from_slice(&bytes[..size]),
        Err(_) => unreachable!(),
    }
}

fn push_constant(
    alloc: Global,
    code: &mut Vec<u8>,
    descr: &Description,
    word: u32,
) -> Result<(), NoMemory>
    requires valid { IsValid descr.now }
    requires machine { HasConstants descr.now }
    ensures { OnOk result (code.new.items ≡ code.old.items
        ++ instance_bytes descr.now (length code.old.items) (load_constant word)) }
{
    push_instruction(alloc, code, descr, LOAD_CONSTANT, &[CELL, u64::from(word)])
}

fn push_output(
    alloc: Global,
    code: &mut Vec<u8>,
    descr: &Description,
    word: u32,
) -> Result<(), NoMemory>
    requires valid { IsValid descr.now }
    requires machine { HasConstants descr.now }
    ensures { OnOk result (code.new.items ≡ code.old.items
        ++ code_bytes descr.now (length code.old.items) (output_of word)) }
{
    push_constant(alloc, code, descr, word)?;
    push_instruction(alloc, code, descr, PUT_CELL, &[CELL])
}

fn push_return(
    alloc: Global,
    code: &mut Vec<u8>,
    descr: &Description,
    word: u32,
) -> Result<(), NoMemory>
    requires valid { IsValid descr.now }
    requires machine { HasConstants descr.now }
    ensures { OnOk result (code.new.items ≡ code.old.items
        ++ code_bytes descr.now (length code.old.items) (return_of word)) }
{
    push_constant(alloc, code, descr, word)?;
    push_instruction(alloc, code, descr, HALT_WITH_CELL, &[CELL])
}

/// Puts the code of the outputs of these words at the end of the code.
fn push_outputs(
    alloc: Global,
    code: &mut Vec<u8>,
    descr: &Description,
    words: &[u32],
) -> Result<(), NoMemory>
    requires valid { IsValid descr.now }
    requires machine { HasConstants descr.now }
    ensures { OnOk result (code.new.items ≡ code.old.items
        ++ code_bytes descr.now (length code.old.items) (flat_map output_of words.now)) }
{
    for word in words {
        push_output(alloc, code, descr, *word)?;
    }
    Ok(())
}

/// The image of a program. On every input it shows, run on the machine, what the program shows.
pub fn compile(
    alloc: Global,
    descr: &Description,
    program: &ConstantProgram,
) -> Result<Image, NoMemory>
    requires valid { IsValid descr.now }
    requires machine { HasConstants descr.now }
    requires program { IsConstantProgram program.now }
    ensures image { IfOk result (λ image. image ≡ image_of descr.now program.now) }
    ensures size { IfOk result (λ image. length image.code ≡ 16 * (length program.now.outputs + 1)) }
    ensures fits { IfOk result (FitsMachine descr.now) }
    ensures agrees { IfOk result (Agrees descr.now program.now) }
{
    one_instance();
    let mut code = Vec::new(alloc);
    push_outputs(alloc, &mut code, descr, program.outputs.as_slice())?;
    push_return(alloc, &mut code, descr, program.returned)?;
    Ok(Image {
        word: descr.facts.word,
        order: descr.facts.order,
        code: Items::from_vec(code),
        initial: Items::new(alloc),
    })
}

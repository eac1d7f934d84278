//! The texts of programs of constants.
ghost use Rattle.std.specs.Prelude.{◌≡◌, ◌<◌, ◌≤◌, ◌^◌, ◌++◌, ◌⊎◌, ◌∷◌, [], ℕ, List, false, length, codes, IfSome};
ghost use Rattle.std.specs.Prelude.{IsNone, IsTrue, IfOk, ◌↔◌};
ghost use Rattle.std.specs.Fmt.{decimal};
ghost use Rattle.qc_constants.specs.ConstantProgram.{output_text, return_text, IsTextOf, IsOptionalLineFeed, IsReturn};
ghost use Rattle.qc_constants.specs.ConstantProgram.{StartsWithOutputs, HasManyOutputs};
ghost use Rattle.qc_constants.specs.declared.program.ConstantProgram.{ConstantProgram as Program};
ghost use Rattle.qc_constants.specs.Inner.DigitRuns.{begins_with_digit};

use crate::numeral::number;
use crate::program::ConstantProgram;
use qc_text::NoMemory;
use sqlite_items::Items;
use std::alloc::Global;

const MOST_OUTPUTS: usize = 1000;

/// What follows the prefix, if the bytes begin with it.
fn after<'a>(bytes: &'a [u8], prefix: &[u8]) -> Option<&'a [u8]>
    ensures some { IfSome result (λ rest. bytes.now ≡ prefix.now ++ rest.now) }
    ensures none { IsNone result → (rest : List ℕ) → bytes.now ≡ prefix.now ++ rest → ⊥ }
{
    bytes.strip_prefix(prefix)
}

/// The number between two texts at the front, and what follows them.
fn number_between<'a>(bytes: &'a [u8], prefix: &[u8], back: &[u8]) -> Option<(u32, &'a [u8])>
    requires { (rest : List ℕ) → begins_with_digit (back.now ++ rest) ≡ false }
    ensures some { IfSome result (λ r. bytes.now ≡ prefix.now ++ decimal r.0 ++ back.now ++ r.1.now) }
    ensures word { IfSome result (λ r. r.0 < 2 ^ 32) }
    ensures only { IfSome result (λ r. (n : ℕ) (rest : List ℕ) → n < 2 ^ 32 →
        bytes.now ≡ prefix.now ++ decimal n ++ back.now ++ rest → (r.0 ≡ n) × (r.1.now ≡ rest)) }
    ensures none { IsNone result → (n : ℕ) (rest : List ℕ) → n < 2 ^ 32 →
        bytes.now ≡ prefix.now ++ decimal n ++ back.now ++ rest → ⊥ }
{
    let Some(digits) = after(bytes, prefix) else {
        return None;
    };
    let Some((word, rest)) = number(digits) else {
        return None;
    };
    match after(rest, back) {
        Some(rest) => Some((word, rest)),
        None => None,
    }
}

/// The word of an output at the front, and what follows the statement.
fn output(bytes: &[u8]) -> Option<(u32, &[u8])>
    ensures some { IfSome result (λ r. bytes.now ≡ output_text r.0 ++ r.1.now) }
    ensures word { IfSome result (λ r. r.0 < 2 ^ 32) }
    ensures shorter { IfSome result (λ r. length r.1.now < length bytes.now) }
    ensures none { IsNone result → (n : ℕ) (rest : List ℕ) → n < 2 ^ 32 → bytes.now ≡ output_text n ++ rest → ⊥ }
{
    number_between(bytes, b"%out(", b"); ")
}

fn is_end(bytes: &[u8]) -> bool
    ensures { IsTrue result ↔ IsOptionalLineFeed bytes.now }
{
    match bytes {
        [] | [b'\n'] => true,
        _ => false,
    }
}

/// The word of the return that the bytes are, with or without a line feed after it.
fn ending(bytes: &[u8]) -> Option<u32>
    ensures some { IfSome result (IsReturn bytes.now) }
    ensures word { IfSome result (λ word. word < 2 ^ 32) }
    ensures none { IsNone result → (n : ℕ) → n < 2 ^ 32 → IsReturn bytes.now n → ⊥ }
{
    match number_between(bytes, b"return(", b"); }") {
        Some((word, rest)) if is_end(rest) => Some(word),
        _ => None,
    }
}

/// The outputs at the front, and what follows them, or none where there are more than 1,000.
fn outputs(alloc: Global, bytes: &[u8]) -> Result<Option<(Items<u32>, &[u8])>, NoMemory>
    ensures some { IfOk result (λ o. IfSome o (λ r. StartsWithOutputs bytes.now r.0 r.1.now)) }
    ensures none { IfOk result (λ o. IsNone o → HasManyOutputs bytes.now) }
{
    let mut words = Items::new(alloc);
    let mut rest = bytes;
    while let Some((word, more)) = output(rest) {
        if words.len() == MOST_OUTPUTS {
            return Ok(None);
        }
        words.push(word)?;
        rest = more;
    }
    Ok(Some((words, rest)))
}

/// The program that the bytes spell, if they spell one.
pub fn read_program(alloc: Global, bytes: &[u8]) -> Result<Option<ConstantProgram>, NoMemory>
    ensures some { IfOk result (λ o. IfSome o (IsTextOf bytes.now)) }
    ensures none { IfOk result (λ o. IsNone o → (p : Program) → IsTextOf bytes.now p → ⊥) }
{
    let Some(body) = after(bytes, b"target byteorder little wordsize 32; main() { ") else {
        return Ok(None);
    };
    match outputs(alloc, body) {
        Err(error) => Err(error),
        Ok(None) => Ok(None),
        Ok(Some((outputs, rest))) => match ending(rest) {
            Some(returned) => Ok(Some(ConstantProgram { outputs, returned })),
            None => Ok(None),
        },
    }
}

//! What printers write: words, each with a blank after it.
ghost use Rattle.std.specs.Prelude.{◌≡◌, ◌++◌, ◌∷◌, [], ◌⊎◌, OnOk, OnErr};
ghost use Rattle.std.specs.List.{flat_map};
ghost use Rattle.qc_text.specs.PrintedWords.{Words, spaced};
ghost use Rattle.qc_grammar.specs.Printing.{digits, separated_words};

use crate::cursor::{Ident, Number};
use std::alloc::{AllocError, Global};

/// Writes a word. After an `Err` the output is as before, or the word is added and no blank.
pub fn put(out: &mut Vec<u8>, word: &[u8]) -> Result<(), AllocError>
    ensures written { OnOk result (out.new.items ≡ out.old.items ++ spaced (word.now ∷ [])) }
    ensures partly { OnErr result ((out.new.items ≡ out.old.items) ⊎ (out.new.items ≡ out.old.items ++ word.now)) }
{
    out.extend_from_slice(word)?;
    out.push(b' ')?;
    Ok(())
}

/// Writes a number in decimal. After an `Err` the output is as before, or the digits are added and no blank.
pub fn put_number(alloc: Global, out: &mut Vec<u8>, number: &Number) -> Result<(), AllocError>
    ensures written { OnOk result (out.new.items ≡ out.old.items ++ spaced (digits number.now ∷ [])) }
    ensures partly { OnErr result ((out.new.items ≡ out.old.items)
        ⊎ (out.new.items ≡ out.old.items ++ digits number.now)) }
{
    let digits = format!(in alloc; "{}", number.value)?;
    put(out, digits.as_bytes())
}

/// What has words that are printed for it.
pub trait Printed: Sized {
    /// The words.
    ghost words: { Self → Words };

    /// Writes the words.
    fn write(&self, alloc: Global, out: &mut Vec<u8>) -> Result<(), AllocError>
        ensures { OnOk result (out.new.items ≡ out.old.items ++ spaced (words self.now)) };
}

impl Printed for Ident {
    ghost use Rattle.std.specs.Prelude.{◌∷◌, []};

    ghost words = { λ name. name.text ∷ [] };

    fn write(&self, _alloc: Global, out: &mut Vec<u8>) -> Result<(), AllocError> {
        put(out, self.text.as_slice())
    }
}

/// Writes each, one after another.
#[tactic(auto, using(crate::proofs::Writing::writing))]
pub fn write_many<T: Printed>(
    alloc: Global,
    out: &mut Vec<u8>,
    items: &[T],
) -> Result<(), AllocError>
    ensures { OnOk result (out.new.items ≡ out.old.items ++ spaced (flat_map T.words items.now)) }
{
    for item in items {
        item.write(alloc, out)?;
    }
    Ok(())
}

/// Writes each, with this word between two.
#[tactic(auto, unfolding(crate::specs::Printing::next_words), using(crate::proofs::Writing::writing))]
pub fn write_separated<T: Printed>(
    alloc: Global,
    out: &mut Vec<u8>,
    separator: &[u8],
    items: &[T],
) -> Result<(), AllocError>
    ensures { OnOk result
        (out.new.items ≡ out.old.items ++ spaced (separated_words separator.now T.words items.now)) }
{
    if items.is_empty() {
        return Ok(());
    }
    items[0].write(alloc, out)?;
    for place in 1..items.len() {
        put(out, separator)?;
        items[place].write(alloc, out)?;
    }
    Ok(())
}

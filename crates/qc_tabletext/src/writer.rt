//! The printer of texts: each word of a tree, and a blank after it.
ghost use Rattle.std.specs.Prelude.{◌≡◌, ◌++◌, ◌∷◌, [], codes, ℕ, List, Ok, OnOk, IfOk};
ghost use Rattle.std.specs.Fmt.{decimal};
ghost use Rattle.qc_grammar.specs.Lexeme.{Lexeme};
ghost use Rattle.qc_grammar.specs.Language.{IsPhrase};
ghost use Rattle.qc_grammar.specs.TextAnswer.{IsTextAnswer};
ghost use Rattle.qc_text.specs.PrintedWords.{spaced};
ghost use Rattle.qc_grammar.specs.Spelled.{spellings};
ghost use Rattle.qc_grammar.specs.Printing.{as_text, IsTextOf, IsTreeOf};
ghost use Rattle.qc_tabletext.specs.TableText.{table_text, tables};
ghost use Rattle.qc_tabletext.specs.Vocabulary.{vocabulary};
ghost use Rattle.qc_tabletext.specs.Printed.{version_words, entry_words, tables_words};

use crate::derivation_writer::write_derivation;
use crate::syntax::{RawTables, TileEntry, Version};
use qc_grammar::{Number, Printed, printed_tokens_are_tokens, put, put_number, write_many};
use qc_text::{one_end, texts_of_their_kinds, words_are_tokens};
use std::alloc::{AllocError, Global};

/// The number of a version.
fn write_version_number(
    alloc: Global,
    out: &mut Vec<u8>,
    token: usize,
    value: u64,
) -> Result<(), AllocError>
    ensures { OnOk result (out.new.items ≡ out.old.items ++ spaced (decimal value ∷ [])) }
{
    let number = Number {
        token,
        value: u128::from(value),
    };
    put_number(alloc, out, &number)
}

#[tactic(auto, using(crate::proofs::Writing::writing))]
fn write_version(alloc: Global, out: &mut Vec<u8>, version: &Version) -> Result<(), AllocError>
    ensures { OnOk result (out.new.items ≡ out.old.items ++ spaced (version_words version.now)) }
{
    match version {
        Version::First { token } => write_version_number(alloc, out, *token, 1),
        Version::Second {
            token,
            height,
            laws,
        } => {
            write_version_number(alloc, out, *token, 2)?;
            put(out, b"height")?;
            put_number(alloc, out, height)?;
            put(out, b"laws")?;
            put_number(alloc, out, laws)
        }
    }
}

#[tactic(auto, unfolding(crate::specs::Printed::entry_words), using(crate::proofs::Writing::writing))]
fn write_entry(alloc: Global, out: &mut Vec<u8>, entry: &TileEntry) -> Result<(), AllocError>
    ensures { OnOk result (out.new.items ≡ out.old.items ++ spaced (entry_words entry.now)) }
{
    put(out, b"tile")?;
    match entry {
        TileEntry::Found {
            tile,
            derivation,
            ..
        } => {
            put(out, tile.text.as_slice())?;
            put(out, b"=")?;
            write_derivation(alloc, out, derivation)?;
            put(out, b";")
        }
        TileEntry::Missing { tile, .. } => {
            put(out, tile.text.as_slice())?;
            put(out, b"missing")?;
            put(out, b";")
        }
    }
}

impl Printed for TileEntry {
    ghost use Rattle.qc_tabletext.specs.Printed.{entry_words};

    ghost words = { entry_words };

    fn write(&self, alloc: Global, out: &mut Vec<u8>) -> Result<(), AllocError> {
        write_entry(alloc, out, self)
    }
}

#[tactic(auto, using(crate::proofs::Writing::writing))]
fn write_tables(alloc: Global, out: &mut Vec<u8>, raw: &RawTables) -> Result<(), AllocError>
    ensures { OnOk result (out.new.items ≡ out.old.items ++ spaced (tables_words raw.now)) }
{
    put(out, b"tables")?;
    put(out, raw.machine.text.as_slice())?;
    write_version(alloc, out, &raw.version)?;
    put(out, b";")?;
    write_many(alloc, out, raw.entries.as_slice())
}

/// A text of the tree: the words of each text that has this tree, numbers in decimal, with a blank after each. Where it
/// is a tree of the grammar, as that of a file is, the text is read again as the same tree but for the numbers of tokens.
pub fn write_table_text(alloc: Global, raw: &RawTables) -> Result<Vec<u8>, AllocError>
    ensures words { IfOk result (λ out. (tokens : List Lexeme) → IsPhrase table_text tables tokens raw.now
        → out.items ≡ spaced (spellings as_text tokens)) }
    ensures again { IfOk result (λ out. IsTreeOf table_text tables vocabulary raw.now
        → IsTextOf as_text table_text tables vocabulary raw.now out.items) }
    ensures file_again { IfOk result (λ out. (bytes : List ℕ)
        → IsTextAnswer table_text tables vocabulary bytes (Ok raw.now)
        → IsTextOf as_text table_text tables vocabulary raw.now out.items) }
{
    words_are_tokens();
    texts_of_their_kinds();
    one_end();
    printed_tokens_are_tokens();
    let mut out = Vec::new(alloc);
    write_tables(alloc, &mut out, raw)?;
    Ok(out)
}

//! The printer of blocks.
ghost use Rattle.std.specs.Prelude.{◌≡◌, ◌++◌, ◌∷◌, [], ℕ, List, Ok, OnOk, IfOk, Option};
ghost use Rattle.std.specs.List.{flat_map};
ghost use Rattle.qc_grammar.specs.Lexeme.{Lexeme};
ghost use Rattle.qc_grammar.specs.Language.{IsPhrase};
ghost use Rattle.qc_grammar.specs.TextAnswer.{IsTextAnswer};
ghost use Rattle.qc_text.specs.PrintedWords.{spaced};
ghost use Rattle.qc_grammar.specs.Spelled.{spellings};
ghost use Rattle.qc_grammar.specs.Printing.{as_text, IsTextOf, IsTreeOf};
ghost use Rattle.qc_sample.specs.Sample.{vocabulary};
ghost use Rattle.qc_sample.specs.Blocks.{blocks, block};
ghost use Rattle.qc_sample.specs.PrintedBlocks.{declaration_words, result_words, block_words};

use crate::blocks::{Assignment, Block, Declaration};
use qc_grammar::{printed_tokens_are_tokens, put, put_number};
use qc_text::{one_end, texts_of_their_kinds, words_are_tokens};
use std::alloc::{AllocError, Global};

#[tactic(auto, using(crate::proofs::Writing::writing))]
fn write_declaration(out: &mut Vec<u8>, declaration: &Declaration) -> Result<(), AllocError>
    ensures { OnOk result (out.new.items ≡ out.old.items ++ spaced (declaration_words declaration.now)) }
{
    put(out, declaration.name.text.as_slice())?;
    put(out, b":")?;
    put(out, declaration.type_of.text.as_slice())?;
    put(out, b";")
}

#[tactic(auto, using(crate::proofs::Writing::writing))]
fn write_declarations(out: &mut Vec<u8>, declarations: &[Declaration]) -> Result<(), AllocError>
    ensures { OnOk result (out.new.items ≡ out.old.items ++ spaced (flat_map declaration_words declarations.now)) }
{
    for declaration in declarations {
        write_declaration(out, declaration)?;
    }
    Ok(())
}

#[tactic(auto, using(crate::proofs::Writing::writing))]
fn write_result(
    alloc: Global,
    out: &mut Vec<u8>,
    last: &Option<Assignment>,
) -> Result<(), AllocError>
    ensures { OnOk result (out.new.items ≡ out.old.items ++ spaced (result_words last.now)) }
{
    match last {
        None => put(out, b"}"),
        Some(assignment) => {
            put(out, assignment.name.text.as_slice())?;
            put(out, b"=")?;
            put_number(alloc, out, &assignment.value)?;
            put(out, b"}")
        }
    }
}

#[tactic(auto, using(crate::proofs::Writing::writing))]
fn write_words(alloc: Global, out: &mut Vec<u8>, b: &Block) -> Result<(), AllocError>
    ensures { OnOk result (out.new.items ≡ out.old.items ++ spaced (block_words b.now)) }
{
    put(out, b"{")?;
    write_declarations(out, b.declarations.as_slice())?;
    write_result(alloc, out, &b.result)
}

/// A text of the block: the words of each text that has this tree, numbers in decimal, with a blank after each. Where it
/// is a tree of the grammar, as that of a file is, the text is read again as the same tree but for the numbers of tokens.
pub fn write_block(alloc: Global, b: &Block) -> Result<Vec<u8>, AllocError>
    ensures words { IfOk result (λ out. (tokens : List Lexeme) → IsPhrase blocks block tokens b.now
        → out.items ≡ spaced (spellings as_text tokens)) }
    ensures again { IfOk result (λ out. IsTreeOf blocks block vocabulary b.now
        → IsTextOf as_text blocks block vocabulary b.now out.items) }
    ensures file_again { IfOk result (λ out. (bytes : List ℕ)
        → IsTextAnswer blocks block vocabulary bytes (Ok b.now)
        → IsTextOf as_text blocks block vocabulary b.now out.items) }
{
    words_are_tokens();
    texts_of_their_kinds();
    one_end();
    printed_tokens_are_tokens();
    let mut out = Vec::new(alloc);
    write_words(alloc, &mut out, b)?;
    Ok(out)
}

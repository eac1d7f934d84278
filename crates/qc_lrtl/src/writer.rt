//! The printer: each word of a tree, and a blank after it.
ghost use Rattle.std.specs.Prelude.{◌≡◌, ◌++◌, ◌∷◌, [], codes, ℕ, List, Ok, OnOk, IfOk};
ghost use Rattle.qc_grammar.specs.Lexeme.{Lexeme};
ghost use Rattle.qc_grammar.specs.Language.{IsPhrase};
ghost use Rattle.qc_grammar.specs.TextAnswer.{IsTextAnswer};
ghost use Rattle.qc_text.specs.PrintedWords.{spaced};
ghost use Rattle.qc_grammar.specs.Spelled.{spellings};
ghost use Rattle.qc_grammar.specs.Printing.{as_text, digits, IsTextOf, IsTreeOf};
ghost use Rattle.qc_lrtl.specs.LambdaRtl.{lambda_rtl, machine, vocabulary};
ghost use Rattle.qc_lrtl.specs.Printed.{arity_words, param_words, params_words, operand_kind_words};
ghost use Rattle.qc_lrtl.specs.Printed.{operand_words, operands_words, order_words, flags_words};
ghost use Rattle.qc_lrtl.specs.Printed.{item_words, ended_words, machine_words, IsDeclaration};

use crate::effect_writer::write_expr;
use crate::syntax::{ByteOrder, Item, Operand, OperandKind, Param, RawMachine};
use qc_grammar::{
    Ident, Number, Printed, printed_tokens_are_tokens, put, put_number, write_many, write_separated,
};
use qc_text::{one_end, texts_of_their_kinds, words_are_tokens};
use std::alloc::{AllocError, Global};

#[tactic(auto, using(crate::proofs::Writing::writing))]
fn write_arity(alloc: Global, out: &mut Vec<u8>, arity: &Option<Number>) -> Result<(), AllocError>
    ensures { OnOk result (out.new.items ≡ out.old.items ++ spaced (arity_words arity.now)) }
{
    match arity {
        None => Ok(()),
        Some(arity) => {
            put(out, b"/")?;
            put_number(alloc, out, arity)
        }
    }
}

#[tactic(auto, unfolding(crate::specs::Printed::param_words), using(crate::proofs::Writing::writing))]
fn write_param(alloc: Global, out: &mut Vec<u8>, param: &Param) -> Result<(), AllocError>
    ensures { OnOk result (out.new.items ≡ out.old.items ++ spaced (param_words param.now)) }
{
    put(out, param.name.text.as_slice())?;
    write_arity(alloc, out, &param.arity)
}

impl Printed for Param {
    ghost use Rattle.qc_lrtl.specs.Printed.{param_words};

    ghost words = { param_words };

    fn write(&self, alloc: Global, out: &mut Vec<u8>) -> Result<(), AllocError> {
        write_param(alloc, out, self)
    }
}

/// The parameters between parentheses, and the sign before a body.
#[tactic(auto, using(crate::proofs::Writing::writing))]
fn write_params(alloc: Global, out: &mut Vec<u8>, params: &[Param]) -> Result<(), AllocError>
    ensures { OnOk result (out.new.items ≡ out.old.items ++ spaced (params_words params.now ++ codes "=" ∷ [])) }
{
    put(out, b"(")?;
    write_separated(alloc, out, b",", params)?;
    put(out, b")")?;
    put(out, b"=")
}

#[tactic(auto, using(crate::proofs::Writing::writing))]
fn write_kind(alloc: Global, out: &mut Vec<u8>, kind: &OperandKind) -> Result<(), AllocError>
    ensures { OnOk result (out.new.items ≡ out.old.items ++ spaced (operand_kind_words kind.now)) }
{
    match kind {
        OperandKind::Register { space } => put(out, space.text.as_slice()),
        OperandKind::Immediate { bits, .. } => {
            put(out, b"imm")?;
            put_number(alloc, out, bits)
        }
        OperandKind::Address { .. } => put(out, b"addr"),
    }
}

#[tactic(auto, unfolding(crate::specs::Printed::operand_words), using(crate::proofs::Writing::writing))]
fn write_operand(alloc: Global, out: &mut Vec<u8>, operand: &Operand) -> Result<(), AllocError>
    ensures { OnOk result (out.new.items ≡ out.old.items ++ spaced (operand_words operand.now)) }
{
    put(out, operand.name.text.as_slice())?;
    put(out, b":")?;
    write_kind(alloc, out, &operand.kind)
}

impl Printed for Operand {
    ghost use Rattle.qc_lrtl.specs.Printed.{operand_words};

    ghost words = { operand_words };

    fn write(&self, alloc: Global, out: &mut Vec<u8>) -> Result<(), AllocError> {
        write_operand(alloc, out, self)
    }
}

/// The operands between parentheses, and the sign before a body.
#[tactic(auto, using(crate::proofs::Writing::writing))]
fn write_operands(alloc: Global, out: &mut Vec<u8>, operands: &[Operand]) -> Result<(), AllocError>
    ensures { OnOk result (out.new.items ≡ out.old.items ++ spaced (operands_words operands.now ++ codes "=" ∷ [])) }
{
    put(out, b"(")?;
    write_separated(alloc, out, b",", operands)?;
    put(out, b")")?;
    put(out, b"=")
}

fn write_order(out: &mut Vec<u8>, order: ByteOrder) -> Result<(), AllocError>
    ensures { OnOk result (out.new.items ≡ out.old.items ++ spaced (order_words order)) }
{
    match order {
        ByteOrder::Little => put(out, b"little"),
        ByteOrder::Big => put(out, b"big"),
    }
}

#[tactic(auto, using(crate::proofs::Writing::writing))]
fn write_flags(out: &mut Vec<u8>, flags: bool) -> Result<(), AllocError>
    ensures { OnOk result (out.new.items ≡ out.old.items ++ spaced (flags_words flags)) }
{
    if flags { put(out, b"flags") } else { Ok(()) }
}

/// A word and a number.
#[tactic(auto, using(crate::proofs::Writing::writing))]
fn write_single(
    alloc: Global,
    out: &mut Vec<u8>,
    word: &[u8],
    number: &Number,
) -> Result<(), AllocError>
    ensures { OnOk result (out.new.items ≡ out.old.items ++ spaced (word.now ∷ digits number.now ∷ [])) }
{
    put(out, word)?;
    put_number(alloc, out, number)
}

/// A word, a space's name and a number.
#[tactic(auto, using(crate::proofs::Writing::writing))]
fn write_cell(
    alloc: Global,
    out: &mut Vec<u8>,
    word: &[u8],
    space: &Ident,
    cell: &Number,
) -> Result<(), AllocError>
    ensures { OnOk result (out.new.items
        ≡ out.old.items ++ spaced (word.now ∷ space.now.text ∷ digits cell.now ∷ [])) }
{
    put(out, word)?;
    put(out, space.text.as_slice())?;
    put_number(alloc, out, cell)
}

/// A word, and a range of a space's cells.
#[tactic(auto, using(crate::proofs::Writing::writing))]
fn write_range(
    alloc: Global,
    out: &mut Vec<u8>,
    word: &[u8],
    space: &Ident,
    first: &Number,
    last: &Number,
) -> Result<(), AllocError>
    ensures { OnOk result (out.new.items
        ≡ out.old.items ++ spaced (word.now ∷ space.now.text ∷ digits first.now ∷ codes ".." ∷ digits last.now ∷ [])) }
{
    write_cell(alloc, out, word, space, first)?;
    put(out, b"..")?;
    put_number(alloc, out, last)
}

/// A space: its name, and how many cells of how many bits it has.
#[tactic(auto, using(crate::proofs::Writing::writing))]
fn write_space(
    alloc: Global,
    out: &mut Vec<u8>,
    name: &Ident,
    cells: &Number,
    bits: &Number,
    flags: bool,
) -> Result<(), AllocError>
    ensures { OnOk result (out.new.items ≡ out.old.items ++ spaced (codes "space" ∷ name.now.text ∷ digits cells.now
        ∷ codes "cells" ∷ digits bits.now ∷ codes "bits" ∷ flags_words flags)) }
{
    write_cell(alloc, out, b"space", name, cells)?;
    put(out, b"cells")?;
    put_number(alloc, out, bits)?;
    put(out, b"bits")?;
    write_flags(out, flags)
}

/// A function, an effect or an instruction.
#[tactic(auto, unfolding(crate::specs::Printed::item_words), using(crate::proofs::Writing::writing))]
fn write_declaration(alloc: Global, out: &mut Vec<u8>, item: &Item) -> Result<(), AllocError>
    requires { IsDeclaration item.now }
    ensures { OnOk result (out.new.items ≡ out.old.items ++ spaced (item_words item.now)) }
{
    match item {
        Item::Function {
            name,
            params,
            body,
            ..
        } => {
            put(out, b"fun")?;
            put(out, name.text.as_slice())?;
            write_params(alloc, out, params.as_slice())?;
            write_expr(alloc, out, body)
        }
        Item::Effects {
            name,
            params,
            body,
            ..
        } => {
            put(out, b"eff")?;
            put(out, name.text.as_slice())?;
            write_params(alloc, out, params.as_slice())?;
            write_separated(alloc, out, b"|", body.as_slice())
        }
        Item::Instruction {
            name,
            operands,
            body,
            ..
        } => {
            put(out, b"instr")?;
            put(out, name.text.as_slice())?;
            write_operands(alloc, out, operands.as_slice())?;
            write_separated(alloc, out, b"|", body.as_slice())
        }
        _ => Ok(()),
    }
}

#[tactic(auto, unfolding(crate::specs::Printed::item_words), using(crate::proofs::Writing::writing))]
fn write_item(alloc: Global, out: &mut Vec<u8>, item: &Item) -> Result<(), AllocError>
    ensures { OnOk result (out.new.items ≡ out.old.items ++ spaced (item_words item.now)) }
{
    match item {
        Item::Word { bits, .. } => write_single(alloc, out, b"word", bits),
        Item::ByteOrder { order, .. } => {
            put(out, b"byteorder")?;
            write_order(out, *order)
        }
        Item::Align { bytes, .. } => write_single(alloc, out, b"align", bytes),
        Item::SlotBits { bits, .. } => write_single(alloc, out, b"slotbits", bits),
        Item::Memory { bytes, .. } => write_single(alloc, out, b"memory", bytes),
        Item::Code { end, .. } => write_single(alloc, out, b"code", end),
        Item::Data { end, .. } => write_single(alloc, out, b"data", end),
        Item::Space {
            name,
            cells,
            bits,
            flags,
            ..
        } => write_space(alloc, out, name, cells, bits, *flags),
        Item::Zero { space, cell, .. } => write_cell(alloc, out, b"zero", space, cell),
        Item::Frame { space, cell, .. } => write_cell(alloc, out, b"frame", space, cell),
        Item::Link { space, cell, .. } => write_cell(alloc, out, b"link", space, cell),
        Item::Allocatable {
            space,
            first,
            last,
            ..
        } => { write_range(alloc, out, b"allocatable", space, first, last) }
        _ => write_declaration(alloc, out, item),
    }
}

/// An item and a semicolon.
#[tactic(auto, unfolding(crate::specs::Printed::ended_words), using(crate::proofs::Writing::writing))]
fn write_ended(alloc: Global, out: &mut Vec<u8>, item: &Item) -> Result<(), AllocError>
    ensures { OnOk result (out.new.items ≡ out.old.items ++ spaced (ended_words item.now)) }
{
    write_item(alloc, out, item)?;
    put(out, b";")
}

impl Printed for Item {
    ghost use Rattle.qc_lrtl.specs.Printed.{ended_words};

    ghost words = { ended_words };

    fn write(&self, alloc: Global, out: &mut Vec<u8>) -> Result<(), AllocError> {
        write_ended(alloc, out, self)
    }
}

#[tactic(auto, using(crate::proofs::Writing::writing))]
fn write_machine(alloc: Global, out: &mut Vec<u8>, raw: &RawMachine) -> Result<(), AllocError>
    ensures { OnOk result (out.new.items ≡ out.old.items ++ spaced (machine_words raw.now)) }
{
    put(out, b"machine")?;
    put(out, raw.name.text.as_slice())?;
    put(out, b";")?;
    write_many(alloc, out, raw.items.as_slice())
}

/// A text of the tree: the words of each text that has this tree, numbers in decimal, with a blank after each. Where it
/// is a tree of the grammar, as that of a file is, the text is read again as the same tree but for the numbers of tokens.
pub fn write_lrtl(alloc: Global, raw: &RawMachine) -> Result<Vec<u8>, AllocError>
    ensures words { IfOk result (λ out. (tokens : List Lexeme) → IsPhrase lambda_rtl machine tokens raw.now
        → out.items ≡ spaced (spellings as_text tokens)) }
    ensures again { IfOk result (λ out. IsTreeOf lambda_rtl machine vocabulary raw.now
        → IsTextOf as_text lambda_rtl machine vocabulary raw.now out.items) }
    ensures file_again { IfOk result (λ out. (bytes : List ℕ)
        → IsTextAnswer lambda_rtl machine vocabulary bytes (Ok raw.now)
        → IsTextOf as_text lambda_rtl machine vocabulary raw.now out.items) }
{
    words_are_tokens();
    texts_of_their_kinds();
    one_end();
    printed_tokens_are_tokens();
    let mut out = Vec::new(alloc);
    write_machine(alloc, &mut out, raw)?;
    Ok(out)
}

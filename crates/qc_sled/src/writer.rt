//! The printer: each word of a tree, and a blank after it.
ghost use Rattle.std.specs.Prelude.{◌≡◌, ◌++◌, ◌<◌, length, drop, ℕ, List, Ok, OnOk, IfOk};
ghost use Rattle.std.specs.List.{flat_map};
ghost use Rattle.qc_grammar.specs.Lexeme.{Lexeme};
ghost use Rattle.qc_grammar.specs.Language.{IsPhrase};
ghost use Rattle.qc_grammar.specs.TextAnswer.{IsTextAnswer};
ghost use Rattle.qc_text.specs.PrintedWords.{spaced};
ghost use Rattle.qc_grammar.specs.Spelled.{spellings};
ghost use Rattle.qc_grammar.specs.Printing.{as_text, next_words, separated_words, IsTextOf, IsTreeOf};
ghost use Rattle.qc_sled.specs.Sled.{sled, coding, vocabulary};
ghost use Rattle.qc_sled.specs.Printed.{value_words, pattern_words, field_words, fields_words};
ghost use Rattle.qc_sled.specs.Printed.{reach_words, param_words, params_words, item_words, coding_words};

use crate::syntax::{Field, Item, Param, Pattern, RawCoding, Reach, Value};
use qc_grammar::{
    Printed, printed_tokens_are_tokens, put, put_number, write_many, write_separated,
};
use qc_text::{one_end, texts_of_their_kinds, words_are_tokens};
use std::alloc::{AllocError, Global};

#[tactic(auto, unfolding(crate::specs::Printed::value_words), using(crate::proofs::Writing::writing))]
fn write_value(alloc: Global, out: &mut Vec<u8>, value: &Value) -> Result<(), AllocError>
    ensures { OnOk result (out.new.items ≡ out.old.items ++ spaced (value_words value.now)) }
{
    match value {
        Value::Number { value } => put_number(alloc, out, value),
        Value::Operand { name } => put(out, name.text.as_slice()),
        Value::Bits { name, high, low } => {
            put(out, name.text.as_slice())?;
            put(out, b"{")?;
            put_number(alloc, out, high)?;
            put(out, b"..")?;
            put_number(alloc, out, low)?;
            put(out, b"}")
        }
    }
}

#[tactic(auto, using(crate::proofs::Writing::writing))]
#[cycle(patterns)]
fn write_pattern(alloc: Global, out: &mut Vec<u8>, pattern: &Pattern) -> Result<(), AllocError>
    ensures { OnOk result (out.new.items ≡ out.old.items ++ spaced (pattern_words pattern.now)) }
{
    match pattern {
        Pattern::Name { name } => put(out, name.text.as_slice()),
        Pattern::Equal { field, value } => {
            put(out, field.text.as_slice())?;
            put(out, b"=")?;
            write_value(alloc, out, value.get())
        }
        Pattern::Group { token: _, inner } => {
            put(out, b"(")?;
            write_pattern(alloc, out, inner.get())?;
            put(out, b")")
        }
        Pattern::Conjunction { parts } => write_parts(alloc, out, b"&", parts.as_slice()),
        Pattern::Sequence { parts } => write_parts(alloc, out, b";", parts.as_slice()),
        Pattern::Alternatives { parts } => write_parts(alloc, out, b"|", parts.as_slice()),
    }
}

/// Patterns with a separator between them.
#[tactic(auto, using(crate::proofs::Writing::writing))]
#[cycle(patterns)]
fn write_parts(
    alloc: Global,
    out: &mut Vec<u8>,
    separator: &[u8],
    parts: &[Pattern],
) -> Result<(), AllocError>
    ensures { OnOk result (out.new.items ≡ out.old.items ++ spaced (separated_words separator.now pattern_words parts.now)) }
{
    if parts.is_empty() {
        return Ok(());
    }
    write_pattern(alloc, out, &parts[0])?;
    write_more_parts(alloc, out, separator, parts)
}

/// The patterns after the first, each with the separator before it.
#[tactic(auto, unfolding(qc_grammar::specs::Printing::next_words), using(crate::proofs::Writing::writing))]
#[cycle(patterns)]
fn write_more_parts(
    alloc: Global,
    out: &mut Vec<u8>,
    separator: &[u8],
    parts: &[Pattern],
) -> Result<(), AllocError>
    requires { 0 < length parts.now }
    ensures { OnOk result
        (out.new.items ≡ out.old.items ++ spaced (flat_map (next_words separator.now pattern_words) (drop 1 parts.now))) }
{
    for place in 1..parts.len() {
        put(out, separator)?;
        write_pattern(alloc, out, &parts[place])?;
    }
    Ok(())
}

#[tactic(auto, unfolding(crate::specs::Printed::field_words), using(crate::proofs::Writing::writing))]
fn write_field(alloc: Global, out: &mut Vec<u8>, field: &Field) -> Result<(), AllocError>
    ensures { OnOk result (out.new.items ≡ out.old.items ++ spaced (field_words field.now)) }
{
    put(out, field.name.text.as_slice())?;
    put_number(alloc, out, &field.high)?;
    put(out, b":")?;
    put_number(alloc, out, &field.low)
}

impl Printed for Field {
    ghost use Rattle.qc_sled.specs.Printed.{field_words};

    ghost words = { field_words };

    fn write(&self, alloc: Global, out: &mut Vec<u8>) -> Result<(), AllocError> {
        write_field(alloc, out, self)
    }
}

#[tactic(auto, using(crate::proofs::Writing::writing))]
fn write_fields(alloc: Global, out: &mut Vec<u8>, fields: &[Field]) -> Result<(), AllocError>
    ensures { OnOk result (out.new.items ≡ out.old.items ++ spaced (fields_words fields.now)) }
{
    put(out, b"(")?;
    write_separated(alloc, out, b",", fields)?;
    put(out, b")")
}

#[tactic(auto, using(crate::proofs::Writing::writing))]
fn write_reach(alloc: Global, out: &mut Vec<u8>, reach: &Option<Reach>) -> Result<(), AllocError>
    ensures { OnOk result (out.new.items ≡ out.old.items ++ spaced (reach_words reach.now)) }
{
    match reach {
        None => Ok(()),
        Some(Reach::Relative { token: _, bits }) => {
            put(out, b":")?;
            put(out, b"rel")?;
            put_number(alloc, out, bits)
        }
        Some(Reach::Absolute { token: _, bits }) => {
            put(out, b":")?;
            put(out, b"abs")?;
            put_number(alloc, out, bits)
        }
    }
}

#[tactic(auto, unfolding(crate::specs::Printed::param_words), using(crate::proofs::Writing::writing))]
fn write_param(alloc: Global, out: &mut Vec<u8>, param: &Param) -> Result<(), AllocError>
    ensures { OnOk result (out.new.items ≡ out.old.items ++ spaced (param_words param.now)) }
{
    put(out, param.name.text.as_slice())?;
    write_reach(alloc, out, &param.reach)
}

impl Printed for Param {
    ghost use Rattle.qc_sled.specs.Printed.{param_words};

    ghost words = { param_words };

    fn write(&self, alloc: Global, out: &mut Vec<u8>) -> Result<(), AllocError> {
        write_param(alloc, out, self)
    }
}

#[tactic(auto, using(crate::proofs::Writing::writing))]
fn write_params(alloc: Global, out: &mut Vec<u8>, params: &[Param]) -> Result<(), AllocError>
    ensures { OnOk result (out.new.items ≡ out.old.items ++ spaced (params_words params.now)) }
{
    put(out, b"(")?;
    write_separated(alloc, out, b",", params)?;
    put(out, b")")
}

#[tactic(auto, unfolding(crate::specs::Printed::item_words), using(crate::proofs::Writing::writing))]
fn write_item(alloc: Global, out: &mut Vec<u8>, item: &Item) -> Result<(), AllocError>
    ensures { OnOk result (out.new.items ≡ out.old.items ++ spaced (item_words item.now)) }
{
    match item {
        Item::Fields {
            token: _,
            name,
            bits,
            fields,
        } => {
            put(out, b"fields")?;
            put(out, name.text.as_slice())?;
            put_number(alloc, out, bits)?;
            write_fields(alloc, out, fields.as_slice())
        }
        Item::Pattern {
            token: _,
            name,
            body,
        } => {
            put(out, b"pattern")?;
            put(out, name.text.as_slice())?;
            put(out, b"is")?;
            write_pattern(alloc, out, body)
        }
        Item::Constructor {
            token: _,
            name,
            params,
            body,
        } => {
            put(out, b"constructor")?;
            put(out, name.text.as_slice())?;
            write_params(alloc, out, params.as_slice())?;
            put(out, b"is")?;
            write_pattern(alloc, out, body)
        }
    }
}

impl Printed for Item {
    ghost use Rattle.qc_sled.specs.Printed.{item_words};

    ghost words = { item_words };

    fn write(&self, alloc: Global, out: &mut Vec<u8>) -> Result<(), AllocError> {
        write_item(alloc, out, self)
    }
}

#[tactic(auto, using(crate::proofs::Writing::writing))]
fn write_coding(alloc: Global, out: &mut Vec<u8>, raw: &RawCoding) -> Result<(), AllocError>
    ensures { OnOk result (out.new.items ≡ out.old.items ++ spaced (coding_words raw.now)) }
{
    put(out, b"coding")?;
    put(out, raw.name.text.as_slice())?;
    write_many(alloc, out, raw.items.as_slice())
}

/// A text of the tree: the words of each text that has this tree, numbers in decimal, with a blank after each. Where it
/// is a tree of the grammar, as that of a file is, the text is read again as the same tree but for the numbers of tokens.
pub fn write_sled(alloc: Global, raw: &RawCoding) -> Result<Vec<u8>, AllocError>
    ensures words { IfOk result (λ out. (tokens : List Lexeme) → IsPhrase sled coding tokens raw.now
        → out.items ≡ spaced (spellings as_text tokens)) }
    ensures again { IfOk result (λ out. IsTreeOf sled coding vocabulary raw.now
        → IsTextOf as_text sled coding vocabulary raw.now out.items) }
    ensures file_again { IfOk result (λ out. (bytes : List ℕ)
        → IsTextAnswer sled coding vocabulary bytes (Ok raw.now)
        → IsTextOf as_text sled coding vocabulary raw.now out.items) }
{
    words_are_tokens();
    texts_of_their_kinds();
    one_end();
    printed_tokens_are_tokens();
    let mut out = Vec::new(alloc);
    write_coding(alloc, &mut out, raw)?;
    Ok(out)
}

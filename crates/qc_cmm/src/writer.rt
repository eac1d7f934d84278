//! The printer: each word of a tree, and a blank after it.
ghost use Rattle.std.specs.Prelude.{◌≡◌, ◌++◌, ◌∷◌, [], codes, ℕ, List, Ok, OnOk, IfOk};
ghost use Rattle.std.specs.List.{flat_map};
ghost use Rattle.qc_text.specs.PrintedWords.{spaced};
ghost use Rattle.qc_grammar.specs.Lexeme.{Lexeme};
ghost use Rattle.qc_grammar.specs.Language.{IsPhrase};
ghost use Rattle.qc_grammar.specs.TextAnswer.{IsTextAnswer};
ghost use Rattle.qc_grammar.specs.Spelled.{spellings};
ghost use Rattle.qc_grammar.specs.Printing.{as_text, digits, separated_words, IsTextOf, IsTreeOf};
ghost use Rattle.qc_cmm.specs.Cmm.{cmm, program};
ghost use Rattle.qc_cmm.specs.Vocabulary.{vocabulary};
ghost use Rattle.qc_cmm.specs.Printed.{type_word, literal_words, body_item_words, declaration_words, param_words};
ghost use Rattle.qc_cmm.specs.Printed.{params_words, body_words, procedure_words, datum_words, part_words};
ghost use Rattle.qc_cmm.specs.Printed.{in_braces, order_word, target_words, program_words};

use crate::expression_writer::write_type;
use crate::statement_writer::write_statement;
use crate::syntax::{
    BodyItem, ByteOrder, Datum, Declaration, Literal, Param, Part, Procedure, Program, Target,
    WordType,
};
use qc_grammar::{
    Ident, Number, Printed, printed_tokens_are_tokens, put, put_number, write_many, write_separated,
};
use qc_text::{one_end, texts_of_their_kinds, words_are_tokens};
use std::alloc::{AllocError, Global};

#[tactic(auto, unfolding(crate::specs::Printed::body_item_words), using(crate::proofs::Writing::writing))]
fn write_body_item(alloc: Global, out: &mut Vec<u8>, item: &BodyItem) -> Result<(), AllocError>
    ensures { OnOk result (out.new.items ≡ out.old.items ++ spaced (body_item_words item.now)) }
{
    match item {
        BodyItem::Label { name } => {
            put(out, name.text.as_slice())?;
            put(out, b":")
        }
        BodyItem::Statement { statement } => write_statement(alloc, out, statement),
    }
}

impl Printed for BodyItem {
    ghost use Rattle.qc_cmm.specs.Printed.{body_item_words};

    ghost words = { body_item_words };

    fn write(&self, alloc: Global, out: &mut Vec<u8>) -> Result<(), AllocError> {
        write_body_item(alloc, out, self)
    }
}

#[tactic(auto, unfolding(crate::specs::Printed::declaration_words), using(crate::proofs::Writing::writing))]
fn write_declaration(
    alloc: Global,
    out: &mut Vec<u8>,
    declaration: &Declaration,
) -> Result<(), AllocError>
    ensures { OnOk result (out.new.items ≡ out.old.items ++ spaced (declaration_words declaration.now)) }
{
    write_type(out, declaration.type_of)?;
    write_separated(alloc, out, b",", declaration.names.as_slice())?;
    put(out, b";")
}

impl Printed for Declaration {
    ghost use Rattle.qc_cmm.specs.Printed.{declaration_words};

    ghost words = { declaration_words };

    fn write(&self, alloc: Global, out: &mut Vec<u8>) -> Result<(), AllocError> {
        write_declaration(alloc, out, self)
    }
}

#[tactic(auto, unfolding(crate::specs::Printed::param_words), using(crate::proofs::Writing::writing))]
fn write_param(out: &mut Vec<u8>, param: &Param) -> Result<(), AllocError>
    ensures { OnOk result (out.new.items ≡ out.old.items ++ spaced (param_words param.now)) }
{
    write_type(out, param.type_of)?;
    put(out, param.name.text.as_slice())
}

impl Printed for Param {
    ghost use Rattle.qc_cmm.specs.Printed.{param_words};

    ghost words = { param_words };

    fn write(&self, _alloc: Global, out: &mut Vec<u8>) -> Result<(), AllocError> {
        write_param(out, self)
    }
}

/// The parameters between parentheses.
#[tactic(auto, using(crate::proofs::Writing::writing))]
fn write_params(alloc: Global, out: &mut Vec<u8>, params: &[Param]) -> Result<(), AllocError>
    ensures { OnOk result (out.new.items ≡ out.old.items ++ spaced (params_words params.now)) }
{
    put(out, b"(")?;
    write_separated(alloc, out, b",", params)?;
    put(out, b")")
}

/// What comes in a procedure after the brace that opens it.
#[tactic(auto, using(crate::proofs::Writing::writing))]
fn write_body(
    alloc: Global,
    out: &mut Vec<u8>,
    variables: &[Declaration],
    body: &[BodyItem],
) -> Result<(), AllocError>
    ensures { OnOk result (out.new.items ≡ out.old.items ++ spaced (body_words variables.now body.now)) }
{
    write_many(alloc, out, variables)?;
    write_many(alloc, out, body)?;
    put(out, b"}")
}

#[tactic(auto, using(crate::proofs::Writing::writing))]
fn write_procedure(alloc: Global, out: &mut Vec<u8>, p: &Procedure) -> Result<(), AllocError>
    ensures { OnOk result (out.new.items ≡ out.old.items ++ spaced (procedure_words p.now)) }
{
    put(out, p.name.text.as_slice())?;
    write_params(alloc, out, p.params.as_slice())?;
    put(out, b"{")?;
    write_body(alloc, out, p.variables.as_slice(), p.body.as_slice())
}

/// A type with a number in brackets, and a semicolon.
#[tactic(auto, using(crate::proofs::Writing::writing))]
fn write_zeros(
    alloc: Global,
    out: &mut Vec<u8>,
    element: WordType,
    count: &Number,
) -> Result<(), AllocError>
    ensures { OnOk result (out.new.items ≡ out.old.items
        ++ spaced (type_word element ∷ codes "[" ∷ digits count.now ∷ codes "]" ∷ codes ";" ∷ [])) }
{
    write_type(out, element)?;
    put(out, b"[")?;
    put_number(alloc, out, count)?;
    put(out, b"]")?;
    put(out, b";")
}

/// A type with literals in braces, and a semicolon.
#[tactic(auto, using(crate::proofs::Writing::writing))]
fn write_values(
    alloc: Global,
    out: &mut Vec<u8>,
    element: WordType,
    values: &[Literal],
) -> Result<(), AllocError>
    ensures { OnOk result (out.new.items ≡ out.old.items ++ spaced (type_word element ∷ codes "{"
        ∷ ((separated_words (codes ",") literal_words values.now ++ codes "}" ∷ []) ++ codes ";" ∷ []))) }
{
    write_type(out, element)?;
    put(out, b"{")?;
    write_separated(alloc, out, b",", values)?;
    put(out, b"}")?;
    put(out, b";")
}

#[tactic(auto, unfolding(crate::specs::Printed::datum_words), using(crate::proofs::Writing::writing))]
fn write_datum(alloc: Global, out: &mut Vec<u8>, datum: &Datum) -> Result<(), AllocError>
    ensures { OnOk result (out.new.items ≡ out.old.items ++ spaced (datum_words datum.now)) }
{
    match datum {
        Datum::Label { name } => {
            put(out, name.text.as_slice())?;
            put(out, b":")
        }
        Datum::Zeros { element, count } => write_zeros(alloc, out, *element, count),
        Datum::Values { element, values } => {
            write_values(alloc, out, *element, values.as_slice())
        }
    }
}

impl Printed for Datum {
    ghost use Rattle.qc_cmm.specs.Printed.{datum_words};

    ghost words = { datum_words };

    fn write(&self, alloc: Global, out: &mut Vec<u8>) -> Result<(), AllocError> {
        write_datum(alloc, out, self)
    }
}

#[tactic(auto, using(crate::proofs::Writing::writing))]
fn write_section(
    alloc: Global,
    out: &mut Vec<u8>,
    name: &Ident,
    data: &[Datum],
) -> Result<(), AllocError>
    ensures { OnOk result (out.new.items ≡ out.old.items
        ++ spaced (codes "section" ∷ name.now.text ∷ in_braces (flat_map datum_words «data».now))) }
{
    put(out, b"section")?;
    put(out, name.text.as_slice())?;
    put(out, b"{")?;
    write_many(alloc, out, data)?;
    put(out, b"}")
}

#[tactic(auto, unfolding(crate::specs::Printed::part_words), using(crate::proofs::Writing::writing))]
fn write_part(alloc: Global, out: &mut Vec<u8>, part: &Part) -> Result<(), AllocError>
    ensures { OnOk result (out.new.items ≡ out.old.items ++ spaced (part_words part.now)) }
{
    match part {
        Part::Section { name, data, .. } => write_section(alloc, out, name, data.as_slice()),
        Part::Procedure { procedure } => write_procedure(alloc, out, procedure),
    }
}

impl Printed for Part {
    ghost use Rattle.qc_cmm.specs.Printed.{part_words};

    ghost words = { part_words };

    fn write(&self, alloc: Global, out: &mut Vec<u8>) -> Result<(), AllocError> {
        write_part(alloc, out, self)
    }
}

fn write_order(out: &mut Vec<u8>, order: ByteOrder) -> Result<(), AllocError>
    ensures { OnOk result (out.new.items ≡ out.old.items ++ spaced (order_word order ∷ [])) }
{
    match order {
        ByteOrder::Little { .. } => put(out, b"little"),
        ByteOrder::Big { .. } => put(out, b"big"),
    }
}

/// Writes what machine a program is for.
#[tactic(auto, using(crate::proofs::Writing::writing))]
pub fn write_target(alloc: Global, out: &mut Vec<u8>, target: &Target) -> Result<(), AllocError>
    ensures { OnOk result (out.new.items ≡ out.old.items ++ spaced (target_words target.now)) }
{
    put(out, b"target")?;
    put(out, b"byteorder")?;
    write_order(out, target.order)?;
    put(out, b"wordsize")?;
    put_number(alloc, out, &target.word_size)?;
    put(out, b";")
}

#[tactic(auto, using(crate::proofs::Writing::writing))]
fn write_program(alloc: Global, out: &mut Vec<u8>, p: &Program) -> Result<(), AllocError>
    ensures { OnOk result (out.new.items ≡ out.old.items ++ spaced (program_words p.now)) }
{
    write_target(alloc, out, &p.target)?;
    write_many(alloc, out, p.parts.as_slice())
}

/// A text of the program: the words of each text that has this tree, numbers in decimal, with a blank after each. Where
/// it is a tree of the grammar, as that of a file is, the text is read again as the same tree but for the numbers of
/// tokens.
pub fn write_cmm(alloc: Global, p: &Program) -> Result<Vec<u8>, AllocError>
    ensures words { IfOk result (λ out. (tokens : List Lexeme) → IsPhrase cmm program tokens p.now
        → out.items ≡ spaced (spellings as_text tokens)) }
    ensures again { IfOk result (λ out. IsTreeOf cmm program vocabulary p.now
        → IsTextOf as_text cmm program vocabulary p.now out.items) }
    ensures file_again { IfOk result (λ out. (bytes : List ℕ)
        → IsTextAnswer cmm program vocabulary bytes (Ok p.now)
        → IsTextOf as_text cmm program vocabulary p.now out.items) }
{
    words_are_tokens();
    texts_of_their_kinds();
    one_end();
    printed_tokens_are_tokens();
    let mut out = Vec::new(alloc);
    write_program(alloc, &mut out, p)?;
    Ok(out)
}

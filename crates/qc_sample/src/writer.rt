//! The printer: each word of a tree, and a blank after it.
ghost use Rattle.std.specs.Prelude.{◌≡◌, ◌++◌, ◌∷◌, [], ◌<◌, length, drop, codes, ℕ, List, Ok, OnOk, IfOk};
ghost use Rattle.std.specs.List.{flat_map};
ghost use Rattle.qc_grammar.specs.Lexeme.{Lexeme};
ghost use Rattle.qc_grammar.specs.Language.{IsPhrase};
ghost use Rattle.qc_grammar.specs.TextAnswer.{IsTextAnswer};
ghost use Rattle.qc_text.specs.PrintedWords.{spaced};
ghost use Rattle.qc_grammar.specs.Spelled.{spellings};
ghost use Rattle.qc_grammar.specs.Printing.{as_text, next_words, separated_words, IsTextOf, IsTreeOf};
ghost use Rattle.qc_sample.specs.Sample.{sample, program, vocabulary};
ghost use Rattle.qc_sample.specs.Printed.{expr_words, type_words, statement_words};
ghost use Rattle.qc_sample.specs.Printed.{program_words};

use crate::syntax::{Expr, Program, Statement};
use qc_grammar::{Ident, printed_tokens_are_tokens, put, put_number};
use qc_text::{one_end, texts_of_their_kinds, words_are_tokens};
use std::alloc::{AllocError, Global};

#[tactic(auto, using(crate::proofs::Writing::writing))]
#[cycle(expressions)]
fn write_expr(alloc: Global, out: &mut Vec<u8>, expr: &Expr) -> Result<(), AllocError>
    ensures { OnOk result (out.new.items ≡ out.old.items ++ spaced (expr_words expr.now)) }
{
    match expr {
        Expr::Number { value } => put_number(alloc, out, value),
        Expr::Name { name } => put(out, name.text.as_slice()),
        Expr::Not { token: _, arg } => {
            put(out, b"not")?;
            write_expr(alloc, out, arg.get())
        }
        Expr::Call { name, args } => write_call(alloc, out, name, args.as_slice()),
        Expr::Index { name, at } => {
            put(out, name.text.as_slice())?;
            put(out, b"[")?;
            write_expr(alloc, out, at.get())?;
            put(out, b"]")
        }
        Expr::Group { inner } => {
            put(out, b"(")?;
            write_expr(alloc, out, inner.get())?;
            put(out, b")")
        }
    }
}

/// A name with its arguments.
#[tactic(auto, using(crate::proofs::Writing::writing))]
#[cycle(expressions)]
fn write_call(
    alloc: Global,
    out: &mut Vec<u8>,
    name: &Ident,
    args: &[Expr],
) -> Result<(), AllocError>
    ensures { OnOk result (out.new.items ≡ out.old.items
        ++ spaced (name.now.text ∷ codes "(" ∷ (separated_words (codes ",") expr_words args.now ++ codes ")" ∷ []))) }
{
    put(out, name.text.as_slice())?;
    put(out, b"(")?;
    write_exprs(alloc, out, args)?;
    put(out, b")")
}

#[cycle(expressions)]
fn write_exprs(alloc: Global, out: &mut Vec<u8>, exprs: &[Expr]) -> Result<(), AllocError>
    ensures { OnOk result (out.new.items ≡ out.old.items ++ spaced (separated_words (codes ",") expr_words exprs.now)) }
{
    if exprs.is_empty() {
        return Ok(());
    }
    write_expr(alloc, out, &exprs[0])?;
    write_more(alloc, out, exprs)
}

/// The expressions after the first, each with a comma before it.
#[tactic(auto, unfolding(qc_grammar::specs::Printing::next_words), using(crate::proofs::Writing::writing))]
#[cycle(expressions)]
fn write_more(alloc: Global, out: &mut Vec<u8>, exprs: &[Expr]) -> Result<(), AllocError>
    requires { 0 < length exprs.now }
    ensures { OnOk result (out.new.items ≡ out.old.items ++ spaced (flat_map (next_words (codes ",") expr_words) (drop 1 exprs.now))) }
{
    for place in 1..exprs.len() {
        put(out, b",")?;
        write_expr(alloc, out, &exprs[place])?;
    }
    Ok(())
}

#[tactic(auto, using(crate::proofs::Writing::writing))]
fn write_type(out: &mut Vec<u8>, type_of: &Option<Ident>) -> Result<(), AllocError>
    ensures { OnOk result (out.new.items ≡ out.old.items ++ spaced (type_words type_of.now)) }
{
    match type_of {
        None => Ok(()),
        Some(name) => {
            put(out, b":")?;
            put(out, name.text.as_slice())
        }
    }
}

#[tactic(auto, using(crate::proofs::Writing::writing))]
#[cycle(statements)]
fn write_statement(
    alloc: Global,
    out: &mut Vec<u8>,
    statement: &Statement,
) -> Result<(), AllocError>
    ensures { OnOk result (out.new.items ≡ out.old.items ++ spaced (statement_words statement.now)) }
{
    match statement {
        Statement::Let {
            name,
            type_of,
            value,
        } => {
            put(out, b"let")?;
            put(out, name.text.as_slice())?;
            write_type(out, type_of)?;
            put(out, b"=")?;
            write_expr(alloc, out, value)?;
            put(out, b";")
        }
        Statement::Print { values } => {
            put(out, b"print")?;
            write_exprs(alloc, out, values.as_slice())?;
            put(out, b";")
        }
        Statement::Block { body } => {
            put(out, b"{")?;
            write_statements(alloc, out, body.as_slice())?;
            put(out, b"}")
        }
        Statement::Set { name, value } => {
            put(out, name.text.as_slice())?;
            put(out, b"=")?;
            write_expr(alloc, out, value)?;
            put(out, b";")
        }
        Statement::Do { name, args } => {
            write_call(alloc, out, name, args.as_slice())?;
            put(out, b";")
        }
    }
}

#[tactic(auto, using(crate::proofs::Writing::writing))]
#[cycle(statements)]
fn write_statements(
    alloc: Global,
    out: &mut Vec<u8>,
    statements: &[Statement],
) -> Result<(), AllocError>
    ensures { OnOk result (out.new.items ≡ out.old.items ++ spaced (flat_map statement_words statements.now)) }
{
    for statement in statements {
        write_statement(alloc, out, statement)?;
    }
    Ok(())
}

#[tactic(auto, using(crate::proofs::Writing::writing))]
fn write_program(alloc: Global, out: &mut Vec<u8>, p: &Program) -> Result<(), AllocError>
    ensures { OnOk result (out.new.items ≡ out.old.items ++ spaced (program_words p.now)) }
{
    put(out, b"program")?;
    put(out, p.name.text.as_slice())?;
    put(out, b";")?;
    write_statements(alloc, out, p.body.as_slice())
}

/// A text of the tree: the words of each text that has this tree, numbers in decimal, with a blank after each. Where it
/// is a tree of the grammar, as that of a file is, the text is read again as the same tree but for the numbers of tokens.
pub fn write_sample(alloc: Global, p: &Program) -> Result<Vec<u8>, AllocError>
    ensures words { IfOk result (λ out. (tokens : List Lexeme) → IsPhrase sample program tokens p.now
        → out.items ≡ spaced (spellings as_text tokens)) }
    ensures again { IfOk result (λ out. IsTreeOf sample program vocabulary p.now
        → IsTextOf as_text sample program vocabulary p.now out.items) }
    ensures file_again { IfOk result (λ out. (bytes : List ℕ)
        → IsTextAnswer sample program vocabulary bytes (Ok p.now)
        → IsTextOf as_text sample program vocabulary p.now out.items) }
{
    words_are_tokens();
    texts_of_their_kinds();
    one_end();
    printed_tokens_are_tokens();
    let mut out = Vec::new(alloc);
    write_program(alloc, &mut out, p)?;
    Ok(out)
}

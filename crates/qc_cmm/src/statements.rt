//! The reader of statements.
ghost use Rattle.std.specs.Prelude.{◌≡◌};
ghost use Rattle.qc_grammar.specs.ReaderResult.{Gives};
ghost use Rattle.qc_grammar.specs.Reading.{reads, first, next_in};
ghost use Rattle.qc_grammar.specs.Grammar.{nonterminal, onto};
ghost use Rattle.qc_cmm.specs.Cmm.{cmm, any_statement, after_name, after_input, from_input, source, named, stored};
ghost use Rattle.qc_cmm.specs.Cmm.{store, statements, block, keyed, conditional, statement};

use crate::expressions::{
    begins_type, read_address, read_any_expr, read_arguments, read_input, read_operands,
    read_plain, read_type,
};
use crate::syntax::{Expr, Source, Statement, WordType};
use qc_grammar::{Cursor, Ident, Stop, read_many_by, read_others};
use qc_text::Kind;
use sqlite_items::Items;
use std::alloc::Global;

#[tactic(auto, unfolding(crate::specs::Cmm::after_name))]
fn read_after_name(alloc: Global, cursor: &mut Cursor<'_>, name: Ident) -> Result<Source, Stop>
    ensures { Gives result cursor.old cursor.new (reads cmm (onto name after_name)) }
{
    if cursor.is_word(b"(") {
        cursor.word(b"(")?;
        let args = read_arguments(alloc, cursor)?;
        Ok(Source::Call { name, args })
    } else {
        Ok(Source::Value {
            value: Expr::Name { name },
        })
    }
}

#[tactic(auto, unfolding(crate::specs::Cmm::after_input))]
fn read_after_input(alloc: Global, cursor: &mut Cursor<'_>, prim: Ident) -> Result<Source, Stop>
    ensures { Gives result cursor.old cursor.new (reads cmm (onto prim after_input)) }
{
    if cursor.is_word(b")") {
        cursor.word(b")")?;
        Ok(Source::Input { token: prim.token })
    } else {
        let value = read_operands(alloc, cursor, prim)?;
        Ok(Source::Value { value })
    }
}

#[tactic(auto, unfolding(crate::specs::Cmm::from_input, crate::specs::Cmm::input))]
fn begins_from_input(cursor: &Cursor<'_>) -> bool
    ensures { result ≡ next_in (first cmm from_input) cursor.now }
{
    cursor.is_word(b"%in")
}

#[tactic(auto, unfolding(crate::specs::Cmm::from_input))]
fn read_from_input(alloc: Global, cursor: &mut Cursor<'_>) -> Result<Source, Stop>
    ensures { Gives result cursor.old cursor.new (reads cmm from_input) }
{
    let prim = read_input(alloc, cursor)?;
    cursor.word(b"(")?;
    read_after_input(alloc, cursor, prim)
}

#[tactic(auto, unfolding(crate::specs::Cmm::source))]
fn read_source(alloc: Global, cursor: &mut Cursor<'_>) -> Result<Source, Stop>
    ensures { Gives result cursor.old cursor.new (reads cmm source) }
{
    if cursor.is_any(Kind::Name) {
        let name = cursor.ident(alloc, Kind::Name)?;
        read_after_name(alloc, cursor, name)
    } else if begins_from_input(cursor) {
        read_from_input(alloc, cursor)
    } else {
        let value = read_plain(alloc, cursor)?;
        Ok(Source::Value { value })
    }
}

#[tactic(auto, unfolding(crate::specs::Cmm::named))]
pub(crate) fn read_named(
    alloc: Global,
    cursor: &mut Cursor<'_>,
    name: Ident,
) -> Result<Statement, Stop>
    ensures { Gives result cursor.old cursor.new (reads cmm (onto name named)) }
{
    if cursor.is_word(b"(") {
        cursor.word(b"(")?;
        let args = read_arguments(alloc, cursor)?;
        cursor.word(b";")?;
        Ok(Statement::Call { name, args })
    } else {
        let targets = read_others(alloc, cursor, name, b",")?;
        cursor.word(b"=")?;
        let source = read_source(alloc, cursor)?;
        cursor.word(b";")?;
        Ok(Statement::Assign { targets, source })
    }
}

#[tactic(auto, unfolding(crate::specs::Cmm::stored))]
pub(crate) fn read_stored(
    alloc: Global,
    cursor: &mut Cursor<'_>,
    type_of: WordType,
) -> Result<Statement, Stop>
    ensures { Gives result cursor.old cursor.new (reads cmm (onto type_of stored)) }
{
    let address = read_address(alloc, cursor)?;
    cursor.word(b"=")?;
    let value = read_any_expr(alloc, cursor)?;
    cursor.word(b";")?;
    Ok(Statement::Store {
        type_of,
        address,
        value,
    })
}

#[tactic(auto, unfolding(crate::specs::Cmm::store))]
pub(crate) fn read_store(alloc: Global, cursor: &mut Cursor<'_>) -> Result<Statement, Stop>
    ensures { Gives result cursor.old cursor.new (reads cmm store) }
{
    let type_of = read_type(cursor)?;
    read_stored(alloc, cursor, type_of)
}

#[cycle(statements)]
fn read_any_statement(alloc: Global, cursor: &mut Cursor<'_>) -> Result<Statement, Stop>
    ensures { Gives result cursor.old cursor.new (reads cmm (nonterminal any_statement)) }
{
    read_statement(alloc, cursor)
}

#[tactic(auto, unfolding(crate::specs::Cmm::statement))]
#[cycle(statements)]
fn read_statement(alloc: Global, cursor: &mut Cursor<'_>) -> Result<Statement, Stop>
    ensures { Gives result cursor.old cursor.new (reads cmm statement) }
{
    if cursor.is_any(Kind::Name) {
        let name = cursor.ident(alloc, Kind::Name)?;
        read_named(alloc, cursor, name)
    } else if begins_keyed(cursor) {
        read_keyed(alloc, cursor)
    } else {
        read_store(alloc, cursor)
    }
}

#[tactic(auto, unfolding(crate::specs::Cmm::keyed, crate::specs::Cmm::conditional))]
pub(crate) fn begins_keyed(cursor: &Cursor<'_>) -> bool
    ensures { result ≡ next_in (first cmm keyed) cursor.now }
{
    cursor.is_word(b"goto")
        || cursor.is_word(b"return")
        || cursor.is_word(b"%out")
        || cursor.is_word(b"if")
}

#[tactic(auto, unfolding(crate::specs::Cmm::keyed))]
#[cycle(statements)]
pub(crate) fn read_keyed(alloc: Global, cursor: &mut Cursor<'_>) -> Result<Statement, Stop>
    ensures { Gives result cursor.old cursor.new (reads cmm keyed) }
{
    if cursor.is_word(b"goto") {
        let token = cursor.word(b"goto")?;
        let label = cursor.ident(alloc, Kind::Name)?;
        cursor.word(b";")?;
        Ok(Statement::Goto { token, label })
    } else if cursor.is_word(b"return") {
        let token = cursor.word(b"return")?;
        cursor.word(b"(")?;
        let results = read_arguments(alloc, cursor)?;
        cursor.word(b";")?;
        Ok(Statement::Return { token, results })
    } else if cursor.is_word(b"%out") {
        let token = cursor.word(b"%out")?;
        cursor.word(b"(")?;
        let value = read_any_expr(alloc, cursor)?;
        cursor.word(b")")?;
        cursor.word(b";")?;
        Ok(Statement::Out { token, value })
    } else {
        read_conditional(alloc, cursor)
    }
}

#[tactic(auto, unfolding(crate::specs::Cmm::conditional, crate::specs::Cmm::after_block))]
#[cycle(statements)]
fn read_conditional(alloc: Global, cursor: &mut Cursor<'_>) -> Result<Statement, Stop>
    ensures { Gives result cursor.old cursor.new (reads cmm conditional) }
{
    let token = cursor.word(b"if")?;
    let condition = read_any_expr(alloc, cursor)?;
    let body = read_block(alloc, cursor)?;
    if cursor.is_word(b"else") {
        cursor.word(b"else")?;
        let otherwise = read_block(alloc, cursor)?;
        Ok(Statement::IfElse {
            token,
            condition,
            body,
            otherwise,
        })
    } else {
        Ok(Statement::If {
            token,
            condition,
            body,
        })
    }
}

#[tactic(auto, unfolding(crate::specs::Cmm::block))]
#[cycle(statements)]
fn read_block(alloc: Global, cursor: &mut Cursor<'_>) -> Result<Items<Statement>, Stop>
    ensures { Gives result cursor.old cursor.new (reads cmm block) }
{
    cursor.word(b"{")?;
    let statements = read_statements(alloc, cursor)?;
    cursor.word(b"}")?;
    Ok(statements)
}

#[tactic(auto, unfolding(crate::specs::Cmm::statement, crate::specs::Cmm::keyed, crate::specs::Cmm::conditional, crate::specs::Cmm::store, crate::specs::Cmm::type_of))]
fn begins_statement(cursor: &Cursor<'_>) -> bool
    ensures { result ≡ next_in (first cmm (nonterminal any_statement)) cursor.now }
{
    cursor.is_any(Kind::Name) || begins_keyed(cursor) || begins_type(cursor)
}

#[tactic(auto, unfolding(crate::specs::Cmm::statements))]
#[cycle(statements)]
fn read_statements(alloc: Global, cursor: &mut Cursor<'_>) -> Result<Items<Statement>, Stop>
    ensures { Gives result cursor.old cursor.new (reads cmm statements) }
{
    read_many_by(
        alloc,
        cursor,
        |next: &Cursor<'_>| -> bool
            ensures { result ≡ next_in (first cmm (nonterminal any_statement)) next.now }
        { begins_statement(next) },
        |next: &mut Cursor<'_>| -> Result<Statement, Stop>
            ensures { Gives result next.old next.new (reads cmm (nonterminal any_statement)) }
        { read_any_statement(alloc, next) },
    )
}

//! Whether lists of statements end, and how many results a procedure returns.
ghost use Rattle.std.specs.Prelude.{◌≡◌, map};
ghost use Rattle.qc_cmmtype.specs.Endings as spec;

use qc_cmm::{BodyItem, Statement};

/// Whether a statement ends a list of statements.
#[tactic(auto, using(crate::proofs::WrittenStatements::endings))]
#[cycle(endings)]
pub fn ends(statement: &Statement) -> bool
    ensures { result ≡ spec.ends statement.now }
{
    match statement {
        Statement::Goto { .. } | Statement::Return { .. } => true,
        Statement::IfElse {
            body,
            otherwise,
            ..
        } => block_ends(body.as_slice()) && block_ends(otherwise.as_slice()),
        Statement::If { .. }
        | Statement::Out { .. }
        | Statement::Store { .. }
        | Statement::Call { .. }
        | Statement::Assign { .. } => false,
    }
}

#[tactic(auto, using(crate::proofs::Lasts::last_is))]
#[cycle(endings)]
fn block_ends(body: &[Statement]) -> bool
    ensures { result ≡ spec.block_ends body.now }
{
    if body.is_empty() {
        false
    } else {
        ends(&body[body.len() - 1])
    }
}

fn item_ends(item: &BodyItem) -> bool
    ensures { result ≡ spec.item_ends item.now }
{
    match item {
        BodyItem::Label { .. } => false,
        BodyItem::Statement { statement } => ends(statement),
    }
}

/// Whether a procedure's body ends.
#[tactic(auto, using(crate::proofs::Lasts::last_is))]
pub fn body_ends(body: &[BodyItem]) -> bool
    ensures { result ≡ spec.body_ends body.now }
{
    if body.is_empty() {
        false
    } else {
        item_ends(&body[body.len() - 1])
    }
}

/// How many results the first `return` in a statement has.
#[tactic(auto, using(crate::proofs::WrittenStatements::returns))]
#[cycle(returns)]
pub fn first_return(statement: &Statement) -> Option<usize>
    ensures { result ≡ spec.first_return statement.now }
{
    match statement {
        Statement::Return { results, .. } => Some(results.len()),
        Statement::If { body, .. } => first_return_in(body.as_slice()),
        Statement::IfElse {
            body,
            otherwise,
            ..
        } => match first_return_in(body.as_slice()) {
            Some(results) => Some(results),
            None => first_return_in(otherwise.as_slice()),
        },
        Statement::Goto { .. }
        | Statement::Out { .. }
        | Statement::Store { .. }
        | Statement::Call { .. }
        | Statement::Assign { .. } => None,
    }
}

#[cycle(returns)]
fn first_return_in(body: &[Statement]) -> Option<usize>
    ensures { result ≡ spec.first_of_all (map spec.first_return body.now) }
{
    for statement in body {
        if let Some(results) = first_return(statement) {
            return Some(results);
        }
    }
    None
}

fn first_return_of_item(item: &BodyItem) -> Option<usize>
    ensures { result ≡ spec.first_return_of_item item.now }
{
    match item {
        BodyItem::Label { .. } => None,
        BodyItem::Statement { statement } => first_return(statement),
    }
}

/// How many results the first `return` of a procedure has.
pub fn first_return_of(body: &[BodyItem]) -> Option<usize>
    ensures { result ≡ spec.first_return_in body.now }
{
    for item in body {
        if let Some(results) = first_return_of_item(item) {
            return Some(results);
        }
    }
    None
}

/// How many results a procedure has.
pub fn results_of(body: &[BodyItem]) -> usize
    ensures { result ≡ spec.results_of body.now }
{
    match first_return_of(body) {
        Some(results) => results,
        None => 0,
    }
}

//! The fault that is reported of statements, whether they end, and how many results they return.
ghost use Rattle.std.specs.Prelude.{◌≡◌, ◌++◌, [], ◌∷◌, nat_eq, length};
ghost use Rattle.std.specs.List.{flat_map};
ghost use Rattle.qc_cmmtype.specs.declared.faults.ProgramFault.TheVariants.{UnknownName};
ghost use Rattle.qc_cmmtype.specs.Faults.{reported, arity, unless, told as told_number};
ghost use Rattle.qc_cmmtype.specs.Types.{type_faults, width_of_type as type_width};
ghost use Rattle.qc_cmmtype.specs.Statements as spec;
ghost use Rattle.qc_cmmtype.specs.Tables.{scope_at};

use crate::expressions::{expression_fault, place_fault};
use crate::faults::ProgramFault;
use crate::scope::{Scope, Signature, callee_in, variable_in};
use crate::types::{type_fault, width_of_type};
use qc_cmm::{BodyItem, Expr, Source, Statement, WordType};
use qc_grammar::Ident;
use qc_names::{earlier, known_or};
use qc_words::Width;
use sqlite_items::at;

/// A number as a fault has it.
fn told(number: usize) -> u32
    ensures { result ≡ told_number number }
{
    if number < 4294967295 {
        number as u32
    } else {
        4294967295
    }
}

/// The fault of so many things where another number is wanted.
pub fn arity_fault(token: usize, found: usize, wanted: usize) -> Option<ProgramFault>
    ensures { result ≡ reported (unless (nat_eq found wanted) (arity token found wanted)) }
{
    if found == wanted {
        None
    } else {
        Some(ProgramFault::Arity {
            token,
            found: told(found),
            wanted: told(wanted),
        })
    }
}

/// The fault of expressions at places that want the word's width.
fn word_fault(scope: &Scope<'_>, values: &[Expr]) -> Option<ProgramFault>
    ensures { result ≡ reported (spec.word_faults (scope_at scope.now) values.now) }
{
    let mut found = None;
    for value in values {
        let fault = expression_fault(scope, Some(scope.globals.word), value);
        found = earlier(found, fault);
    }
    found
}

/// The fault of the arguments for these parameters.
fn argument_fault(scope: &Scope<'_>, params: &[Width], args: &[Expr]) -> Option<ProgramFault>
    ensures { result ≡ reported (spec.argument_faults (scope_at scope.now) params.now args.now) }
{
    let mut found = None;
    for (number, arg) in args.iter().enumerate() {
        let fault = expression_fault(scope, at(params, number).copied(), arg);
        found = earlier(found, fault);
    }
    found
}

#[tactic(auto, using(qc_names::specs::Law::Reported::reported_parts))]
fn signature_fault(
    scope: &Scope<'_>,
    token: usize,
    signature: &Signature,
    args: &[Expr],
    targets: usize,
) -> Option<ProgramFault>
    ensures { result
        ≡ reported (spec.count_faults token signature.now (length args.now) targets
        ++ spec.argument_faults (scope_at scope.now) signature.now.params args.now) }
{
    let count = arity_fault(token, args.len(), signature.params.len());
    let results = arity_fault(token, targets, signature.results);
    let numbers = earlier(count, results);
    let inner = argument_fault(scope, signature.params.as_slice(), args);
    earlier(numbers, inner)
}

#[tactic(auto, using(qc_names::specs::Law::Reported::reported_parts))]
fn unknown_callee_fault(scope: &Scope<'_>, token: usize, args: &[Expr]) -> Option<ProgramFault>
    ensures { result
        ≡ reported (UnknownName token ∷ spec.argument_faults (scope_at scope.now) [] args.now) }
{
    let fault = Some(ProgramFault::UnknownName { token });
    let inner = argument_fault(scope, &[], args);
    earlier(fault, inner)
}

/// The fault of a call with so many targets.
fn call_fault(
    scope: &Scope<'_>,
    name: &Ident,
    args: &[Expr],
    targets: usize,
) -> Option<ProgramFault>
    ensures { result ≡ reported (spec.call_faults (scope_at scope.now) name.now args.now targets) }
{
    match callee_in(scope.globals, name.text.as_slice()) {
        None => unknown_callee_fault(scope, name.token, args),
        Some(signature) => signature_fault(scope, name.token, signature, args, targets),
    }
}

fn target_fault(scope: &Scope<'_>, name: &Ident) -> Option<ProgramFault>
    ensures { result ≡ reported (spec.target_faults (scope_at scope.now) name.now) }
{
    known_or(
        variable_in(scope.variables, name.text.as_slice()).is_some(),
        name.token,
    )
}

/// The fault of the targets of a value.
fn target_list_fault(scope: &Scope<'_>, targets: &[Ident]) -> Option<ProgramFault>
    ensures { result ≡ reported (flat_map (spec.target_faults (scope_at scope.now)) targets.now) }
{
    let mut found = None;
    for target in targets {
        found = earlier(found, target_fault(scope, target));
    }
    found
}

fn word_target_fault(scope: &Scope<'_>, name: &Ident) -> Option<ProgramFault>
    ensures { result ≡ reported (spec.word_target_faults (scope_at scope.now) name.now) }
{
    match variable_in(scope.variables, name.text.as_slice()) {
        None => Some(ProgramFault::UnknownName { token: name.token }),
        Some(width) => place_fault(name.token, width, Some(scope.globals.word)),
    }
}

/// The fault of the targets of a call or of the next word of the input.
fn word_target_list_fault(scope: &Scope<'_>, targets: &[Ident]) -> Option<ProgramFault>
    ensures { result ≡ reported (flat_map (spec.word_target_faults (scope_at scope.now)) targets.now) }
{
    let mut found = None;
    for target in targets {
        found = earlier(found, word_target_fault(scope, target));
    }
    found
}

/// The fault of more than one target.
fn one_target_fault(targets: &[Ident]) -> Option<ProgramFault>
    ensures { result ≡ reported (spec.one_target_faults targets.now) }
{
    match targets.get(1) {
        None => None,
        Some(second) => Some(ProgramFault::Arity {
            token: second.token,
            found: told(targets.len()),
            wanted: 1,
        }),
    }
}

fn assigned_width(scope: &Scope<'_>, targets: &[Ident]) -> Option<Width>
    ensures { result ≡ spec.assigned_width (scope_at scope.now) targets.now }
{
    match targets.first() {
        None => None,
        Some(target) => variable_in(scope.variables, target.text.as_slice()),
    }
}

#[tactic(auto, using(qc_names::specs::Law::Reported::reported_parts))]
fn assignment_fault(scope: &Scope<'_>, targets: &[Ident], source: &Source) -> Option<ProgramFault>
    ensures { result ≡ reported (spec.assignment_faults (scope_at scope.now) targets.now source.now) }
{
    match source {
        Source::Input { .. } => {
            let each = word_target_list_fault(scope, targets);
            let more = one_target_fault(targets);
            earlier(each, more)
        }
        Source::Value { value } => {
            let each = target_list_fault(scope, targets);
            let more = one_target_fault(targets);
            let inner = expression_fault(scope, assigned_width(scope, targets), value);
            let rest = earlier(more, inner);
            earlier(each, rest)
        }
        Source::Call { name, args } => {
            let each = word_target_list_fault(scope, targets);
            let call = call_fault(scope, name, args.as_slice(), targets.len());
            earlier(each, call)
        }
    }
}

#[tactic(auto, using(qc_names::specs::Law::Reported::reported_parts))]
fn return_fault(scope: &Scope<'_>, token: usize, results: &[Expr]) -> Option<ProgramFault>
    ensures { result ≡ reported (spec.return_faults (scope_at scope.now) token results.now) }
{
    let count = arity_fault(token, results.len(), scope.results);
    let inner = word_fault(scope, results);
    earlier(count, inner)
}

#[tactic(auto, using(qc_names::specs::Law::Reported::reported_parts))]
fn store_fault(
    scope: &Scope<'_>,
    type_of: &WordType,
    address: &Expr,
    value: &Expr,
) -> Option<ProgramFault>
    ensures { result ≡ reported (type_faults scope.now.globals.now.word type_of.now
        ++ spec.store_faults (scope_at scope.now) (type_width type_of.now) address.now value.now) }
{
    let wide = type_fault(scope.globals.word, type_of);
    let place = expression_fault(scope, Some(scope.globals.word), address);
    let stored = expression_fault(scope, Some(width_of_type(type_of)), value);
    let inner = earlier(place, stored);
    earlier(wide, inner)
}

/// The fault of a statement and of those in its blocks.
#[tactic(auto, using(crate::proofs::WrittenStatements::statements))]
#[cycle(statements)]
pub fn statement_fault(scope: &Scope<'_>, statement: &Statement) -> Option<ProgramFault>
    ensures { result ≡ reported (spec.statement_faults (scope_at scope.now) statement.now) }
{
    match statement {
        Statement::Goto { label, .. } => known_or(
            scope.labels.number(label.text.as_slice()).is_some(),
            label.token,
        ),
        Statement::Return { token, results } => return_fault(scope, *token, results.as_slice()),
        Statement::If {
            condition,
            body,
            ..
        } => {
            let test = expression_fault(scope, Some(scope.globals.word), condition);
            let inner = block_fault(scope, body.as_slice());
            earlier(test, inner)
        }
        Statement::IfElse {
            condition,
            body,
            otherwise,
            ..
        } => {
            let test = expression_fault(scope, Some(scope.globals.word), condition);
            let first = block_fault(scope, body.as_slice());
            let second = block_fault(scope, otherwise.as_slice());
            let inner = earlier(first, second);
            earlier(test, inner)
        }
        Statement::Out { value, .. } => expression_fault(scope, Some(scope.globals.word), value),
        Statement::Store {
            type_of,
            address,
            value,
        } => store_fault(scope, type_of, address, value),
        Statement::Call { name, args } => call_fault(scope, name, args.as_slice(), 0),
        Statement::Assign { targets, source } => {
            assignment_fault(scope, targets.as_slice(), source)
        }
    }
}

/// The fault of the statements of a block.
#[cycle(statements)]
fn block_fault(scope: &Scope<'_>, body: &[Statement]) -> Option<ProgramFault>
    ensures { result ≡ reported (spec.block_faults (scope_at scope.now) body.now) }
{
    let mut found = None;
    for statement in body {
        let fault = statement_fault(scope, statement);
        found = earlier(found, fault);
    }
    found
}

fn item_fault(scope: &Scope<'_>, item: &BodyItem) -> Option<ProgramFault>
    ensures { result ≡ reported (spec.item_faults (scope_at scope.now) item.now) }
{
    match item {
        BodyItem::Label { .. } => None,
        BodyItem::Statement { statement } => statement_fault(scope, statement),
    }
}

/// The fault of the statements of a procedure's body.
pub fn body_fault(scope: &Scope<'_>, body: &[BodyItem]) -> Option<ProgramFault>
    ensures { result ≡ reported (spec.body_faults (scope_at scope.now) body.now) }
{
    let mut found = None;
    for item in body {
        let fault = item_fault(scope, item);
        found = earlier(found, fault);
    }
    found
}

//! The fault that is reported of a procedure.
ghost use Rattle.std.specs.Prelude.{◌≡◌, ◌++◌, List, map, OnOk, IfOk};
ghost use Rattle.std.specs.List.{flat_map, fold};
ghost use Rattle.qc_names.specs.Seen.{noted_all, none_seen};
ghost use Rattle.qc_cmmtype.specs.declared.faults.ProgramFault.TheVariants.{TwiceNamed};
ghost use Rattle.qc_cmmtype.specs.declared.faults.ProgramFault.{ProgramFault as Told};
ghost use Rattle.qc_cmmtype.specs.Types.{type_faults};
ghost use Rattle.qc_cmmtype.specs.Faults.{token_of, rank_of, reported};
ghost use Rattle.qc_cmmtype.specs.Scopes as scopes;
ghost use Rattle.qc_cmmtype.specs.Procedures as spec;
ghost use Rattle.qc_cmmtype.specs.Inner.Locals.{no_locals, added, local_of_param};
ghost use Rattle.qc_cmmtype.specs.Tables.{globals_at};

use crate::endings::{body_ends, first_return_of, results_of};
use crate::faults::ProgramFault;
use crate::scope::{Globals, Scope, is_global};
use crate::statements::{arity_fault, body_fault};
use crate::types::{type_fault, width_of_type};
use qc_cmm::{BodyItem, Declaration, Param, Procedure};
use qc_grammar::Ident;
use qc_names::{Declared, NameTable, Seen, earlier};
use qc_words::Width;
use sqlite_items::Items;
use std::alloc::{AllocError, Global};

/// The parameters and variables of a procedure by their names, and the fault of those that are declared twice.
#[derive(Drop)]
pub struct Locals {
    pub variables: Declared<Width>,
    pub fault: Option<ProgramFault>,
}

/// Declares a parameter or variable.
#[tactic(auto, unfolding(crate::specs::Inner::Locals::added))]
fn add_local(
    alloc: Global,
    globals: &Globals,
    locals: &mut Locals,
    name: &Ident,
    width: Width,
) -> Result<(), AllocError>
    ensures { OnOk result (locals.new ≡ added (globals_at globals.now) locals.old (name.now, width)) }
{
    let global = is_global(globals, name.text.as_slice());
    let number = locals.variables.values.len();
    let seen = locals
        .variables
        .numbers
        .enter(alloc, name.text.as_slice(), number)?;
    let fault = if global || seen {
        Some(ProgramFault::TwiceNamed { token: name.token })
    } else {
        None
    };
    locals.fault = earlier(locals.fault, fault);
    locals.variables.values.push(width)?;
    Ok(())
}

fn add_params(
    alloc: Global,
    globals: &Globals,
    locals: &mut Locals,
    params: &[Param],
) -> Result<(), AllocError>
    ensures { OnOk result (locals.new
        ≡ fold (added (globals_at globals.now)) locals.old (map local_of_param params.now)) }
{
    for param in params {
        let width = width_of_type(&param.type_of);
        add_local(alloc, globals, locals, &param.name, width)?;
    }
    Ok(())
}

/// Declares the variables of a declaration.
fn add_declaration(
    alloc: Global,
    globals: &Globals,
    locals: &mut Locals,
    declaration: &Declaration,
) -> Result<(), AllocError>
    ensures { OnOk result (locals.new ≡ fold (added (globals_at globals.now)) locals.old
        (scopes.locals_of_declaration declaration.now)) }
{
    let width = width_of_type(&declaration.type_of);
    for name in declaration.names.as_slice() {
        add_local(alloc, globals, locals, name, width)?;
    }
    Ok(())
}

fn add_declarations(
    alloc: Global,
    globals: &Globals,
    locals: &mut Locals,
    declarations: &[Declaration],
) -> Result<(), AllocError>
    ensures { OnOk result (locals.new ≡ fold (added (globals_at globals.now)) locals.old
        (flat_map scopes.locals_of_declaration declarations.now)) }
{
    for declaration in declarations {
        add_declaration(alloc, globals, locals, declaration)?;
    }
    Ok(())
}

/// The parameters and variables of a procedure.
fn locals_of(alloc: Global, globals: &Globals, procedure: &Procedure) -> Result<Locals, AllocError>
    ensures { IfOk result (λ l. l
        ≡ fold (added (globals_at globals.now)) no_locals (scopes.locals_of procedure.now)) }
{
    let mut locals = Locals {
        variables: Declared {
            values: Items::new(alloc),
            numbers: NameTable::new(alloc),
        },
        fault: None,
    };
    add_params(alloc, globals, &mut locals, procedure.params.as_slice())?;
    add_declarations(alloc, globals, &mut locals, procedure.variables.as_slice())?;
    Ok(locals)
}

fn see_item(alloc: Global, seen: &mut Seen<ProgramFault>, item: &BodyItem) -> Result<(), AllocError>
    ensures { OnOk result (seen.new ≡ noted_all token_of rank_of TwiceNamed seen.old (scopes.label_of item.now)) }
{
    match item {
        BodyItem::Label { name } => seen.see(alloc, name),
        BodyItem::Statement { .. } => Ok(()),
    }
}

/// The labels of a body.
fn labels_of(alloc: Global, body: &[BodyItem]) -> Result<Seen<ProgramFault>, AllocError>
    ensures { IfOk result (λ s. s
        ≡ noted_all token_of rank_of TwiceNamed none_seen (flat_map scopes.label_of body.now)) }
{
    let mut seen = Seen::new(alloc);
    for item in body {
        see_item(alloc, &mut seen, item)?;
    }
    Ok(seen)
}

fn param_type_fault(word: Width, params: &[Param]) -> Option<ProgramFault>
    ensures { result ≡ reported (flat_map (λ q. type_faults word q.type_of) params.now) }
{
    let mut found = None;
    for param in params {
        let fault = type_fault(word, &param.type_of);
        found = earlier(found, fault);
    }
    found
}

fn variable_type_fault(word: Width, declarations: &[Declaration]) -> Option<ProgramFault>
    ensures { result ≡ reported (flat_map (λ d. type_faults word d.type_of) declarations.now) }
{
    let mut found = None;
    for declaration in declarations {
        let fault = type_fault(word, &declaration.type_of);
        found = earlier(found, fault);
    }
    found
}

#[tactic(auto, using(qc_names::specs::Law::Reported::reported_parts))]
fn declared_type_fault(word: Width, procedure: &Procedure) -> Option<ProgramFault>
    ensures { result ≡ reported (spec.declared_type_faults word procedure.now) }
{
    let params = param_type_fault(word, procedure.params.as_slice());
    let variables = variable_type_fault(word, procedure.variables.as_slice());
    earlier(params, variables)
}

/// Whether a procedure is the one with which a program begins.
pub fn is_main(procedure: &Procedure) -> bool
    ensures { result ≡ spec.is_main procedure.now }
{
    procedure.name.text.as_slice() == b"main".as_slice()
}

fn main_result_fault(token: usize, results: Option<usize>) -> Option<ProgramFault>
    ensures { result ≡ reported (spec.main_result_faults token results) }
{
    match results {
        None => None,
        Some(results) => arity_fault(token, results, 1),
    }
}

#[tactic(auto, using(qc_names::specs::Law::Reported::reported_parts))]
fn main_fault(procedure: &Procedure) -> Option<ProgramFault>
    ensures { result ≡ reported (spec.main_faults procedure.now) }
{
    if is_main(procedure) {
        let token = procedure.name.token;
        let params = arity_fault(token, procedure.params.len(), 0);
        let results = main_result_fault(token, first_return_of(procedure.body.as_slice()));
        earlier(params, results)
    } else {
        None
    }
}

fn end_fault(procedure: &Procedure) -> Option<ProgramFault>
    ensures { result ≡ reported (spec.end_faults procedure.now) }
{
    if body_ends(procedure.body.as_slice()) {
        None
    } else {
        Some(ProgramFault::FallsOff {
            token: procedure.name.token,
        })
    }
}

/// The fault of a procedure's types, of its end and of what is asked of `main`, before one of its body.
#[tactic(auto, using(qc_names::specs::Law::Reported::reported_parts))]
fn own_fault(word: Width, procedure: &Procedure, body: Option<ProgramFault>) -> Option<ProgramFault>
    ensures { (faults : List Told) → body ≡ reported faults → result
        ≡ reported (spec.declared_type_faults word procedure.now
        ++ (spec.main_faults procedure.now ++ (spec.end_faults procedure.now ++ faults))) }
{
    let types = declared_type_fault(word, procedure);
    let start = main_fault(procedure);
    let end = end_fault(procedure);
    let inner = earlier(end, body);
    let rest = earlier(start, inner);
    earlier(types, rest)
}

/// The fault of a procedure whose parameters and variables, and whose labels, are in tables.
fn fault_with(
    globals: &Globals,
    procedure: &Procedure,
    locals: &Locals,
    labels: &Seen<ProgramFault>,
) -> Option<ProgramFault>
    requires locals { locals.now ≡ fold (added (globals_at globals.now)) no_locals (scopes.locals_of procedure.now) }
    requires labels { labels.now ≡ noted_all token_of rank_of TwiceNamed none_seen (flat_map scopes.label_of procedure.now.body) }
    ensures { result ≡ reported (spec.procedure_faults (globals_at globals.now) procedure.now) }
{
    let scope = Scope {
        globals,
        variables: &locals.variables,
        labels: &labels.names,
        results: results_of(procedure.body.as_slice()),
    };
    let body = body_fault(&scope, procedure.body.as_slice());
    let own = own_fault(globals.word, procedure, body);
    let rest = earlier(labels.fault, own);
    earlier(locals.fault, rest)
}

/// The fault of a procedure.
pub fn procedure_fault(
    alloc: Global,
    globals: &Globals,
    procedure: &Procedure,
) -> Result<Option<ProgramFault>, AllocError>
    ensures { IfOk result (λ fault. fault
        ≡ reported (spec.procedure_faults (globals_at globals.now) procedure.now)) }
{
    let locals = locals_of(alloc, globals, procedure)?;
    let labels = labels_of(alloc, procedure.body.as_slice())?;
    let fault = fault_with(globals, procedure, &locals, &labels);
    Ok(fault)
}

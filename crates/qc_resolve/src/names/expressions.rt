//! The fault that is reported of an expression without its uses.
ghost use Rattle.std.specs.Prelude.{◌≡◌, ◌++◌, Some, false, length, map};
ghost use Rattle.qc_facts.specs.Faults.{reported, unknown_unless};
ghost use Rattle.qc_facts.specs.Facts as known;
ghost use Rattle.qc_resolve.specs.Scopes as scopes;
ghost use Rattle.qc_resolve.specs.Expressions as written;
ghost use Rattle.qc_resolve.specs.KeptNames.{names_at, IsReady};
ghost use Rattle.qc_resolve.specs.Inner.ArgumentFaults.{one_argument_faults};

use crate::names::{Names, bare_name, cell_fault, first_token, local_in, signature_in, word_in};
use crate::signatures::{is_plain, takes};
use qc_facts::{
    Local, WidthFault, access_fault, literal_fault, operands_of, operator_named, width_fault,
};
use qc_grammar::Ident;
use qc_lrtl::Expr;
use qc_names::{earlier, known_or};

fn is_operator_or_function(names: &Names<'_>, arity: u128, name: &[u8]) -> bool
    requires { IsReady names.now }
    ensures { result ≡ written.is_function_of_operator arity (known.operator_named name.now)
        (scopes.signature_in (names_at names.now) name.now) }
{
    match operator_named(name) {
        Some(op) => operands_of(op) == arity,
        None => match signature_in(names, name) {
            Some(signature) => is_plain(signature, arity),
            None => false,
        },
    }
}

fn is_function_named(names: &Names<'_>, arity: u128, name: &Ident) -> bool
    requires { IsReady names.now }
    ensures { result ≡ written.is_function (names_at names.now) arity (Some name.now) }
{
    match local_in(names, name.text.as_slice()) {
        Some(Local::Applied { arity: own }) => own == arity,
        Some(Local::Plain { .. }) => false,
        None => is_operator_or_function(names, arity, name.text.as_slice()),
    }
}

/// The expression is the bare name of a function of so many plain arguments.
fn is_function(names: &Names<'_>, arity: u128, arg: &Expr) -> bool
    requires { IsReady names.now }
    ensures { result ≡ written.is_function (names_at names.now) arity (written.bare_name arg.now) }
{
    match bare_name(arg) {
        Some(name) => is_function_named(names, arity, name),
        None => false,
    }
}

/// The fault of a name that stands alone.
fn alone_fault(names: &Names<'_>, name: &Ident) -> Option<WidthFault>
    ensures { result
        ≡ reported (written.alone_faults (scopes.local_in (names_at names.now) name.now.text) name.now.token) }
{
    match local_in(names, name.text.as_slice()) {
        Some(Local::Plain { .. }) => None,
        Some(Local::Applied { .. }) | None => Some(WidthFault::UnknownName { token: name.token }),
    }
}

/// The fault of an expression where it may use these names.
#[tactic(auto, using(crate::proofs::Written::faults))]
#[cycle(faults)]
pub fn expression_fault(names: &Names<'_>, expr: &Expr) -> Option<WidthFault>
    requires { IsReady names.now }
    ensures { result ≡ reported (written.faults_in (names_at names.now) expr.now) }
{
    match expr {
        Expr::Literal { value, bits } => literal_fault(value, bits),
        Expr::Input { .. } | Expr::After { .. } => None,
        Expr::Mem { bits, address, .. } => earlier(
            access_fault(word_in(names), bits),
            expression_fault(names, address.get()),
        ),
        Expr::Zx { bits, arg, .. } | Expr::Sx { bits, arg, .. } | Expr::Slice { bits, arg, .. } => {
            earlier(width_fault(bits), expression_fault(names, arg.get()))
        }
        Expr::Name { name } => alone_fault(names, name),
        Expr::Call { name, args } => use_fault(names, name, args.as_slice()),
        Expr::Cell { space, cell } => cell_fault(names, space, cell),
    }
}

/// The fault of plain arguments.
#[tactic(auto, using(qc_names::specs::Law::Reported::reported_parts))]
#[cycle(faults)]
pub fn plain_fault(names: &Names<'_>, args: &[Expr]) -> Option<WidthFault>
    requires { IsReady names.now }
    ensures { result ≡ reported (written.plain_faults (names_at names.now) (map written.expression_of args.now)) }
{
    let mut found = None;
    for arg in args {
        found = earlier(found, expression_fault(names, arg));
    }
    found
}

/// The fault of a use, where it is reported whether the name is known, or of its plain arguments.
#[tactic(auto, using(qc_names::specs::Law::Reported::reported_parts))]
#[cycle(faults)]
fn plain_use_fault(
    names: &Names<'_>,
    known: bool,
    token: usize,
    args: &[Expr],
) -> Option<WidthFault>
    requires { IsReady names.now }
    ensures { result ≡ reported (unknown_unless known token
        ++ written.plain_faults (names_at names.now) (map written.expression_of args.now)) }
{
    earlier(known_or(known, token), plain_fault(names, args))
}

/// The fault of an argument for a parameter, which is plain or a function.
#[cycle(faults)]
fn one_argument_fault(names: &Names<'_>, param: Option<u128>, arg: &Expr) -> Option<WidthFault>
    requires { IsReady names.now }
    ensures { result ≡ reported (one_argument_faults (names_at names.now) param (written.expression_of arg.now)) }
{
    match param {
        None => expression_fault(names, arg),
        Some(arity) => known_or(is_function(names, arity, arg), first_token(arg)),
    }
}

/// The fault of arguments for these parameters.
#[cycle(faults)]
pub fn argument_fault(
    names: &Names<'_>,
    params: &[Option<u128>],
    args: &[Expr],
) -> Option<WidthFault>
    requires { IsReady names.now }
    ensures { result
        ≡ reported (written.argument_faults (names_at names.now) params.now (map written.expression_of args.now)) }
{
    let mut found = None;
    for place in 0..params.len().min(args.len()) {
        let param = params[place];
        found = earlier(found, one_argument_fault(names, param, &args[place]));
    }
    found
}

/// The fault of a use of a declared function.
#[cycle(faults)]
fn declared_use_fault(names: &Names<'_>, name: &Ident, args: &[Expr]) -> Option<WidthFault>
    requires { IsReady names.now }
    ensures { result ≡ reported (written.use_faults_of_signature (names_at names.now) false
        (scopes.signature_in (names_at names.now) name.now.text) name.now.token
        (map written.expression_of args.now)) }
{
    match signature_in(names, name.text.as_slice()) {
        Some(signature) if takes(false, signature, args.len()) => {
            argument_fault(names, signature.params.as_slice(), args)
        }
        _ => plain_use_fault(names, false, name.token, args),
    }
}

/// The fault of a use of an operator or of a declared function.
#[cycle(faults)]
fn operator_use_fault(names: &Names<'_>, name: &Ident, args: &[Expr]) -> Option<WidthFault>
    requires { IsReady names.now }
    ensures { result ≡ reported (written.use_faults_of_operator (names_at names.now)
        (known.operator_named name.now.text) (scopes.signature_in (names_at names.now) name.now.text) name.now.token
        (map written.expression_of args.now)) }
{
    match operator_named(name.text.as_slice()) {
        Some(op) => plain_use_fault(
            names,
            operands_of(op) == args.len() as u128,
            name.token,
            args,
        ),
        None => declared_use_fault(names, name, args),
    }
}

/// The fault of a use of a function.
#[cycle(faults)]
fn use_fault(names: &Names<'_>, name: &Ident, args: &[Expr]) -> Option<WidthFault>
    requires { IsReady names.now }
    ensures { result
        ≡ reported (written.use_faults (names_at names.now) name.now (map written.expression_of args.now)) }
{
    match local_in(names, name.text.as_slice()) {
        Some(Local::Applied { arity }) => {
            plain_use_fault(names, arity == args.len() as u128, name.token, args)
        }
        Some(Local::Plain { .. }) => plain_use_fault(names, false, name.token, args),
        None => operator_use_fault(names, name, args),
    }
}

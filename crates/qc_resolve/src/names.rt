//! The names that an expression may use, without their uses.
ghost use Rattle.std.specs.Prelude.{◌≡◌, Some, map};
ghost use Rattle.std.specs.Option.{option_map, option_copied};
ghost use Rattle.qc_facts.specs.Faults.{reported};
ghost use Rattle.qc_facts.specs.Facts as known;
ghost use Rattle.qc_resolve.specs.Scopes as scopes;
ghost use Rattle.qc_resolve.specs.Declarations as declared;
ghost use Rattle.qc_resolve.specs.Expressions as written;
ghost use Rattle.qc_resolve.specs.KeptSignatures.{summary};
ghost use Rattle.qc_resolve.specs.KeptNames.{names_at, locals_in, IsReady};

pub(crate) mod effects;
pub(crate) mod expressions;

use crate::functions::Functions;
use crate::signatures::{Signature, arity_of};
use qc_facts::{Facts, Local, WidthFault};
use qc_grammar::{Ident, Number};
use qc_lrtl::{Expr, Item, Operand, OperandKind, Param};
use qc_words::Width;
use sqlite_items::at;

/// What a body's own names are.
#[derive(Clone, Copy)]
pub enum Locals<'a> {
    Params(&'a [Param]),
    Operands(&'a [Operand]),
}

/// Where the names are looked up that a body may use. Of the functions and named effects that the items declare it may
/// use the first ones, whose signatures stand here.
#[derive(Clone, Copy)]
pub struct Names<'a> {
    pub facts: &'a Facts,
    pub items: &'a [Item],
    pub functions: &'a Functions,
    pub signatures: &'a [Signature],
    pub locals: Locals<'a>,
}

fn local_of_param(param: &Param) -> Local
    ensures { result ≡ declared.local_of_arity (declared.arity_of param.now) }
{
    match arity_of(param) {
        None => Local::Plain { fits: true },
        Some(arity) => Local::Applied { arity },
    }
}

fn param_named(params: &[Param], name: &[u8]) -> Option<Local>
    ensures { result ≡ scopes.local_bound (known.named (λ p. p.0) (declared.locals_of_params params.now) name.now) }
{
    for param in params {
        if *param.name.text.as_slice() == *name {
            return Some(local_of_param(param));
        }
    }
    None
}

fn fits_as_target(kind: &OperandKind) -> bool
    ensures { result ≡ declared.fits_as_target kind.now }
{
    match kind {
        OperandKind::Register { .. } => true,
        OperandKind::Immediate { .. } | OperandKind::Address { .. } => false,
    }
}

fn operand_named(operands: &[Operand], name: &[u8]) -> Option<Local>
    ensures { result
        ≡ scopes.local_bound (known.named (λ p. p.0) (declared.locals_of_operands operands.now) name.now) }
{
    for operand in operands {
        if *operand.name.text.as_slice() == *name {
            return Some(Local::Plain {
                fits: fits_as_target(&operand.kind),
            });
        }
    }
    None
}

/// What the name of a parameter or of an operand is.
#[tactic(auto, unfolding(crate::specs::KeptNames::names_at))]
pub fn local_in(names: &Names<'_>, name: &[u8]) -> Option<Local>
    ensures { result ≡ scopes.local_in (names_at names.now) name.now }
{
    match names.locals {
        Locals::Params(params) => param_named(params, name),
        Locals::Operands(operands) => operand_named(operands, name),
    }
}

/// The signature of a function or named effects that may be used.
pub fn signature_in<'a>(names: &Names<'a>, name: &[u8]) -> Option<&'a Signature>
    requires { IsReady names.now }
    ensures { option_copied result ≡ option_map summary (scopes.signature_in (names_at names.now) name.now) }
{
    match names.functions.find(names.items, name) {
        None => None,
        Some(place) => at(names.signatures, place),
    }
}

/// The width of words.
#[tactic(auto, unfolding(crate::specs::KeptNames::names_at))]
pub fn word_in(names: &Names<'_>) -> Option<Width>
    ensures { result ≡ (names_at names.now).facts.word }
{
    names.facts.word()
}

/// The fault of a cell that is named by its space and its number.
#[tactic(auto, unfolding(crate::specs::KeptNames::names_at))]
pub fn cell_fault(names: &Names<'_>, space: &Ident, cell: &Number) -> Option<WidthFault>
    ensures { result ≡ reported (known.cell_faults (names_at names.now).facts space.now cell.now) }
{
    names.facts.cell_fault(space, cell)
}

/// The name that an expression is, if it is one alone.
#[tactic(auto, using(crate::proofs::Written::bare_names))]
pub fn bare_name(expr: &Expr) -> Option<&Ident>
    ensures { option_copied result ≡ written.bare_name expr.now }
{
    match expr {
        Expr::Name { name } => Some(name),
        Expr::Literal { .. }
        | Expr::Input { .. }
        | Expr::After { .. }
        | Expr::Mem { .. }
        | Expr::Zx { .. }
        | Expr::Sx { .. }
        | Expr::Slice { .. }
        | Expr::Call { .. }
        | Expr::Cell { .. } => None,
    }
}

/// The number of an expression's first token.
#[tactic(auto, using(crate::proofs::Written::first_tokens))]
pub fn first_token(expr: &Expr) -> usize
    ensures { result ≡ written.first_token expr.now }
{
    match expr {
        Expr::Literal { value, .. } => value.token,
        Expr::Input { token }
        | Expr::After { token }
        | Expr::Mem { token, .. }
        | Expr::Zx { token, .. }
        | Expr::Sx { token, .. }
        | Expr::Slice { token, .. } => *token,
        Expr::Name { name } | Expr::Call { name, .. } => name.token,
        Expr::Cell { space, .. } => space.token,
    }
}

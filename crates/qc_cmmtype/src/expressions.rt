//! The widths of expressions, and the fault that is reported of one at its place.
ghost use Rattle.std.specs.Prelude.{◌≡◌, ◌≤◌};
ghost use Rattle.std.specs.Option.{option_or};
ghost use Rattle.qc_cmmtype.specs.declared.faults.ProgramFault.TheVariants.{WidthClash};
ghost use Rattle.qc_cmmtype.specs.Faults.{reported};
ghost use Rattle.qc_cmmtype.specs.Prims.{prim_named as named_prim};
ghost use Rattle.qc_cmmtype.specs.Expressions as spec;
ghost use Rattle.qc_cmmtype.specs.Tables.{scope_at};

use crate::faults::ProgramFault;
use crate::prims::{Prim, operands_of, prim_named};
use crate::scope::{Scope, width_of_name};
use crate::types::{literal_fault, token_of_literal, token_of_type, width_of_bits, width_of_type};
use qc_cmm::Expr;
use qc_grammar::Ident;
use qc_names::earlier;
use qc_words::Width;

/// The number of an expression's first token.
#[tactic(auto, using(crate::proofs::Written::first_tokens))]
pub fn first_token(expr: &Expr) -> usize
    ensures { result ≡ spec.first_token expr.now }
{
    match expr {
        Expr::Literal { value } => token_of_literal(value),
        Expr::Name { name } => name.token,
        Expr::Load { type_of, .. } => token_of_type(type_of),
        Expr::Unary { prim, .. } | Expr::Binary { prim, .. } => prim.token,
    }
}

/// The Prim of a name.
fn prim_in(scope: &Scope<'_>, name: &Ident) -> Option<Prim>
    ensures { result ≡ named_prim scope.now.globals.now.word name.now.text }
{
    prim_named(scope.globals.word.bits(), name.text.as_slice())
}

/// The width of a Prim that has one of its own.
fn fixed_width(word: Width, prim: &Option<Prim>) -> Option<Width>
    ensures { result ≡ spec.fixed_width word prim.now }
{
    match prim {
        None | Some(Prim::Operation { .. }) => None,
        Some(Prim::Comparison { .. } | Prim::ZeroExtension | Prim::SignExtension) => Some(word),
        Some(Prim::LowBits8) => Some(width_of_bits(8)),
        Some(Prim::LowBits16) => Some(width_of_bits(16)),
        Some(Prim::LowBits32) => Some(width_of_bits(32)),
    }
}

/// The own width of an expression, if it has one.
#[tactic(auto, using(crate::proofs::Written::own_widths))]
pub fn own_width(scope: &Scope<'_>, expr: &Expr) -> Option<Width>
    ensures { result ≡ spec.own_width (scope_at scope.now) expr.now }
{
    match expr {
        Expr::Literal { .. } => None,
        Expr::Name { name } => width_of_name(scope, name.text.as_slice()),
        Expr::Load { type_of, .. } => Some(width_of_type(type_of)),
        Expr::Unary { prim, arg } => {
            match fixed_width(scope.globals.word, &prim_in(scope, prim)) {
                Some(width) => Some(width),
                None => own_width(scope, arg.get()),
            }
        }
        Expr::Binary { prim, left, right } => {
            match fixed_width(scope.globals.word, &prim_in(scope, prim)) {
                Some(width) => Some(width),
                None => match own_width(scope, left.get()) {
                    Some(width) => Some(width),
                    None => own_width(scope, right.get()),
                },
            }
        }
    }
}

/// The width that a Prim of one operand wants that to have.
fn wanted_of_one(
    scope: &Scope<'_>,
    prim: &Option<Prim>,
    wanted: &Option<Width>,
    arg: &Expr,
) -> Option<Width>
    ensures { result ≡ spec.wanted_inside scope.now.globals.now.word prim.now wanted.now
        (spec.own_width (scope_at scope.now) arg.now) }
{
    match prim {
        None | Some(Prim::Operation { .. }) => *wanted,
        Some(Prim::Comparison { .. }) => match own_width(scope, arg) {
            Some(width) => Some(width),
            None => Some(scope.globals.word),
        },
        Some(Prim::ZeroExtension | Prim::SignExtension) => own_width(scope, arg),
        Some(Prim::LowBits8 | Prim::LowBits16 | Prim::LowBits32) => Some(scope.globals.word),
    }
}

/// The width of the first of two expressions that has one.
fn first_width(scope: &Scope<'_>, left: &Expr, right: &Expr) -> Option<Width>
    ensures { result ≡ option_or (spec.own_width (scope_at scope.now) left.now)
        (spec.own_width (scope_at scope.now) right.now) }
{
    match own_width(scope, left) {
        Some(width) => Some(width),
        None => own_width(scope, right),
    }
}

/// The width that a Prim of two operands wants them to have.
fn wanted_of_two(
    scope: &Scope<'_>,
    prim: &Option<Prim>,
    wanted: &Option<Width>,
    left: &Expr,
    right: &Expr,
) -> Option<Width>
    ensures { result ≡ spec.wanted_inside scope.now.globals.now.word prim.now wanted.now
        (option_or (spec.own_width (scope_at scope.now) left.now)
        (spec.own_width (scope_at scope.now) right.now)) }
{
    match prim {
        None | Some(Prim::Operation { .. }) => *wanted,
        Some(Prim::Comparison { .. }) => match first_width(scope, left, right) {
            Some(width) => Some(width),
            None => Some(scope.globals.word),
        },
        Some(Prim::ZeroExtension | Prim::SignExtension) => first_width(scope, left, right),
        Some(Prim::LowBits8 | Prim::LowBits16 | Prim::LowBits32) => Some(scope.globals.word),
    }
}

/// The clash of two widths at a token.
fn clash(token: usize, found: Width, wanted: u8) -> ProgramFault
    ensures { result ≡ WidthClash token found wanted }
{
    ProgramFault::WidthClash {
        token,
        found: found.bits(),
        wanted,
    }
}

/// The fault of what has a width at a place that wants one.
pub fn place_fault(token: usize, own: Width, wanted: Option<Width>) -> Option<ProgramFault>
    ensures { result ≡ reported (spec.place_faults token own wanted) }
{
    match wanted {
        None => None,
        Some(width) if own.bits() == width.bits() => None,
        Some(width) => Some(clash(token, own, width.bits())),
    }
}

/// The fault of a name in an expression.
fn name_fault(token: usize, own: Option<Width>, wanted: Option<Width>) -> Option<ProgramFault>
    ensures { result ≡ reported (spec.name_faults token own wanted) }
{
    match own {
        None => Some(ProgramFault::UnknownName { token }),
        Some(width) => place_fault(token, width, wanted),
    }
}

/// The fault of a load, but for its address.
fn load_fault(word: Width, token: usize, own: Width, wanted: Option<Width>) -> Option<ProgramFault>
    ensures { result ≡ reported (spec.load_faults word token own wanted) }
{
    if word.bits() < own.bits() {
        Some(clash(token, own, word.bits()))
    } else {
        place_fault(token, own, wanted)
    }
}

/// The fault of a Prim that has a width of its own, at a place that wants one.
fn own_place_fault(token: usize, own: Option<Width>, wanted: Option<Width>) -> Option<ProgramFault>
    ensures { result ≡ reported (spec.own_place_faults token own wanted) }
{
    match own {
        None => None,
        Some(width) => place_fault(token, width, wanted),
    }
}

/// The fault of lowest bits that are no fewer than the word's.
fn low_fault(word: Width, token: usize, bits: u8) -> Option<ProgramFault>
    ensures { result ≡ reported (spec.low_faults word token bits) }
{
    if bits < word.bits() {
        None
    } else {
        Some(ProgramFault::WidthClash {
            token,
            found: bits,
            wanted: word.bits() / 2,
        })
    }
}

fn low_bits_fault(word: Width, token: usize, prim: &Option<Prim>) -> Option<ProgramFault>
    ensures { result ≡ reported (spec.low_bits_faults word token prim.now) }
{
    match prim {
        Some(Prim::LowBits8) => low_fault(word, token, 8),
        Some(Prim::LowBits16) => low_fault(word, token, 16),
        Some(Prim::LowBits32) => low_fault(word, token, 32),
        _ => None,
    }
}

/// The fault of a Prim that is unknown or has another number of operands.
fn operand_count_fault(token: usize, prim: &Option<Prim>, count: u32) -> Option<ProgramFault>
    requires { count ≤ 2 }
    ensures { result ≡ reported (spec.operand_count_faults token prim.now count) }
{
    match prim {
        None => Some(ProgramFault::UnknownName { token }),
        Some(known) if count == operands_of(*known) => None,
        Some(known) => Some(ProgramFault::Arity {
            token,
            found: count,
            wanted: operands_of(*known),
        }),
    }
}

/// The fault of a Prim, but for its operands.
#[tactic(auto, using(qc_names::specs::Law::Reported::reported_parts))]
fn prim_fault(
    word: Width,
    token: usize,
    prim: &Option<Prim>,
    count: u32,
    wanted: Option<Width>,
) -> Option<ProgramFault>
    requires { count ≤ 2 }
    ensures { result ≡ reported (spec.prim_faults word token prim.now count wanted) }
{
    let place = own_place_fault(token, fixed_width(word, prim), wanted);
    let bits = low_bits_fault(word, token, prim);
    let operands = operand_count_fault(token, prim, count);
    let own = earlier(bits, operands);
    earlier(place, own)
}

fn is_narrow(word: Width, own: Option<Width>) -> bool
    ensures { result ≡ spec.is_narrow word own }
{
    match own {
        None => false,
        Some(width) => width.bits() != word.bits(),
    }
}

/// The fault of the operand of an extension that isn't narrow.
fn extension_fault(scope: &Scope<'_>, prim: &Option<Prim>, arg: &Expr) -> Option<ProgramFault>
    ensures { result ≡ reported (spec.extension_faults scope.now.globals.now.word prim.now
        (spec.first_token arg.now) (spec.own_width (scope_at scope.now) arg.now)) }
{
    match prim {
        Some(Prim::ZeroExtension | Prim::SignExtension) => {
            let word = scope.globals.word;
            if is_narrow(word, own_width(scope, arg)) {
                None
            } else {
                Some(clash(first_token(arg), word, word.bits() / 2))
            }
        }
        _ => None,
    }
}

/// The fault of an expression at a place that wants a width, or none.
#[tactic(auto, using(crate::proofs::Written::faults))]
#[cycle(faults)]
pub fn expression_fault(
    scope: &Scope<'_>,
    wanted: Option<Width>,
    expr: &Expr,
) -> Option<ProgramFault>
    ensures { result ≡ reported (spec.expression_faults (scope_at scope.now) wanted expr.now) }
{
    match expr {
        Expr::Literal { value } => literal_fault(value, wanted),
        Expr::Name { name } => {
            name_fault(
                name.token,
                width_of_name(scope, name.text.as_slice()),
                wanted,
            )
        }
        Expr::Load { type_of, address } => earlier(
            load_fault(
                scope.globals.word,
                token_of_type(type_of),
                width_of_type(type_of),
                wanted,
            ),
            expression_fault(scope, Some(scope.globals.word), address.get()),
        ),
        Expr::Unary { prim, arg } => unary_fault(
            scope,
            prim,
            &prim_in(scope, prim),
            arg.get(),
            &wanted,
        ),
        Expr::Binary { prim, left, right } => {
            let kind = prim_in(scope, prim);
            let inside = wanted_of_two(scope, &kind, &wanted, left.get(), right.get());
            let first = operand_fault(scope, &kind, &inside, left.get());
            let second = operand_fault(scope, &kind, &inside, right.get());
            let operands = earlier(first, second);
            let own = prim_fault(scope.globals.word, prim.token, &kind, 2, wanted);
            earlier(own, operands)
        }
    }
}

/// The fault of an operand at a place that wants a width, or none.
#[tactic(auto, using(qc_names::specs::Law::Reported::reported_parts))]
#[cycle(faults)]
fn operand_fault(
    scope: &Scope<'_>,
    prim: &Option<Prim>,
    wanted: &Option<Width>,
    arg: &Expr,
) -> Option<ProgramFault>
    ensures { result
        ≡ reported (spec.operand_faults (scope_at scope.now) prim.now wanted.now (spec.expression_of arg.now)) }
{
    earlier(
        extension_fault(scope, prim, arg),
        expression_fault(scope, *wanted, arg),
    )
}

#[tactic(auto, using(qc_names::specs::Law::Reported::reported_parts))]
#[cycle(faults)]
fn unary_fault(
    scope: &Scope<'_>,
    name: &Ident,
    prim: &Option<Prim>,
    arg: &Expr,
    wanted: &Option<Width>,
) -> Option<ProgramFault>
    ensures { result ≡ reported (spec.unary_faults (scope_at scope.now) name.now prim.now
        (spec.expression_of arg.now) wanted.now) }
{
    let inside = wanted_of_one(scope, prim, wanted, arg);
    earlier(
        prim_fault(scope.globals.word, name.token, prim, 1, *wanted),
        operand_fault(scope, prim, &inside, arg),
    )
}

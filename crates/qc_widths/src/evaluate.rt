//! What an expression comes to where it is written, up to a limit of nodes.
ghost use Rattle.std.specs.Prelude.{◌≡◌, ◌&&◌, nat_eq, ℕ, true, false, cond, List, length, map, is_some, Option, None};
ghost use Rattle.std.specs.Prelude.{Some, IfOk, IfSome};
ghost use Rattle.std.specs.List.{list_all};
ghost use Rattle.std.specs.Option.{option_copied, option_map};
ghost use Rattle.qc_resolve.specs.Declarations.{arity_of};
ghost use Rattle.qc_widths.specs.Inner.KeptValues.{AreBelow, AreBound, IsBelow, IsBound, IsBoundBelow, IsCallee};
ghost use Rattle.qc_widths.specs.Inner.KeptValues.{IsDeclared, IsPlain, IsScope, meaning_of_number, IsSettled, IsValue};
ghost use Rattle.qc_widths.specs.Inner.KeptValues.{apply_of, binding, meanings_of};
ghost use Rattle.qc_resolve.specs.Expressions.{bare_name, bindings, expression_of, function_of, function_of_meaning};
ghost use Rattle.qc_resolve.specs.Expressions.{function_of_operator, target_of, target_of_bound, use_of};
ghost use Rattle.qc_resolve.specs.Expressions.{use_of_meaning, value_of, value_of_bound};
ghost use Rattle.qc_resolve.specs.Scopes.{Meaning, Scope as SpecScope, argument, bound_in, meaning_in};
ghost use Rattle.qc_resolve.specs.Scopes.{target_of_operand};
ghost use Rattle.qc_facts.specs.Values as values;

use crate::nodes::{
    after, binary, cell_value, extension, input, literal, load, operand_value, slice, takes_one,
    unary,
};
use crate::scope::{Bound, Callee, Found, Locals, Scope};
use crate::value::{Value, faulty};
use qc_facts::{OperandFacts, Target, operator_named};
use qc_grammar::Ident;
use qc_lrtl::{Expr, Item, Param};
use qc_terms::Place;
use qc_words::Op;
use sqlite_items::Items;
use std::alloc::{AllocError, Global};

/// The value of a name that stands alone.
fn name_value(alloc: Global, scope: &Scope<'_>, name: &Ident) -> Result<Value, AllocError>
    requires { IsSettled scope.now }
    ensures { (spec : SpecScope) → IsScope scope.now spec → IfOk result (λ v. IsValue v
        (value_of_bound spec.facts.word (bound_in spec name.now.text) name.now.token)) }
{
    match scope.find(name.text.as_slice()) {
        Found::Absent => Ok(faulty(name.token)),
        Found::Bound { bound } => match bound {
            Bound::Argument { value, .. } => value.try_clone(alloc),
            Bound::Function { .. } => Ok(faulty(name.token)),
        },
        Found::Operand { number, facts } => {
            Ok(operand_value(scope.facts.word(), number, facts, name.token))
        }
    }
}

/// The name that an expression is, if it is one alone.
#[tactic(auto, using(qc_resolve::specs::Law::Expressions::laws))]
fn bare_name_of(expr: &Expr) -> Option<&Ident>
    ensures { option_copied result ≡ bare_name expr.now }
{
    match expr {
        Expr::Name { name } => Some(name),
        Expr::Literal { .. } => None,
        Expr::Input { .. } => None,
        Expr::After { .. } => None,
        Expr::Mem { .. } => None,
        Expr::Zx { .. } => None,
        Expr::Sx { .. } => None,
        Expr::Slice { .. } => None,
        Expr::Call { .. } => None,
        Expr::Cell { .. } => None,
    }
}

/// The register that a name stands for, if an argument is one.
fn target_of_expr(scope: &Scope<'_>, arg: &Expr) -> Option<Target>
    requires { IsSettled scope.now }
    ensures { (spec : SpecScope) → IsScope scope.now spec → result ≡ target_of spec (bare_name arg.now) }
{
    match bare_name_of(arg) {
        Some(name) => target_of_name(scope, name),
        None => None,
    }
}

/// The register that a name stands for.
pub(crate) fn target_of_name(scope: &Scope<'_>, name: &Ident) -> Option<Target>
    requires { IsSettled scope.now }
    ensures { (spec : SpecScope) → IsScope scope.now spec → result ≡ target_of_bound (bound_in spec name.now.text) }
{
    match scope.find(name.text.as_slice()) {
        Found::Absent => None,
        Found::Bound { bound } => match bound {
            Bound::Argument { target, .. } => *target,
            Bound::Function { .. } => None,
        },
        Found::Operand { number, facts } => operand_target(number, facts),
    }
}

/// The register that an operand is.
fn operand_target(number: u32, facts: OperandFacts) -> Option<Target>
    ensures { result ≡ target_of_operand number facts }
{
    match facts {
        OperandFacts::Register { space, width } => Some(Target {
            place: Place::Operand { space, number },
            width,
        }),
        _ => None,
    }
}

/// The function of so many plain arguments that an argument is.
fn callee_of_expr(scope: &Scope<'_>, arity: u128, arg: &Expr) -> Callee
    requires { IsSettled scope.now }
    ensures below { IsBelow scope.now.ceiling result }
    ensures function { (spec : SpecScope) → IsScope scope.now spec
        → IsCallee (meanings_of scope.now) arity result (function_of spec arity (bare_name arg.now)) }
{
    match bare_name_of(arg) {
        Some(name) => callee_of_name(scope, arity, name),
        None => Callee::Unknown,
    }
}

/// The function of so many plain arguments that a name stands for.
fn callee_of_name(scope: &Scope<'_>, arity: u128, name: &Ident) -> Callee
    requires { IsSettled scope.now }
    ensures below { IsBelow scope.now.ceiling result }
    ensures function { (spec : SpecScope) → IsScope scope.now spec
        → IsCallee (meanings_of scope.now) arity result (function_of spec arity (Some name.now)) }
{
    match scope.find(name.text.as_slice()) {
        Found::Absent => match operator_named(name.text.as_slice()) {
            Some(op) => callee_of_operator(arity, op),
            None => callee_of_declared(scope, arity, name),
        },
        Found::Bound { bound } => match bound {
            Bound::Argument { .. } => Callee::Unknown,
            Bound::Function {
                arity: other,
                callee,
            } => {
                if *other == arity {
                    callee.copy()
                } else {
                    Callee::Unknown
                }
            }
        },
        Found::Operand { .. } => Callee::Unknown,
    }
}

/// An operator as a function of so many plain arguments.
fn callee_of_operator(arity: u128, op: Op) -> Callee
    ensures below { (ceiling : ℕ) → IsBelow ceiling result }
    ensures function { (meanings : List Meaning) (m : Option Meaning)
        → IsCallee meanings arity result (function_of_operator arity (Some op) m) }
{
    let operands = if takes_one(&op) { 1 } else { 2 };
    if operands == arity {
        Callee::Operator { op }
    } else {
        Callee::Unknown
    }
}

/// The function or the named effects of a name that may be used in a scope, with its number.
pub(crate) fn declared<'a>(scope: &Scope<'a>, name: &Ident) -> Option<(usize, &'a Item)>
    requires { IsSettled scope.now }
    ensures found { IfSome result (λ d. IsDeclared scope.now d.0 d.1.now) }
    ensures means { (spec : SpecScope) → IsScope scope.now spec → meaning_in spec name.now.text
        ≡ meaning_of_number (meanings_of scope.now) (option_map (λ d. d.0) result) }
{
    match scope.functions.find(scope.items, name.text.as_slice()) {
        Some(number) => {
            if number >= scope.level {
                return None;
            }
            Some((number, scope.functions.item(scope.items, number)))
        }
        None => None,
    }
}

/// A declared function as one of so many plain arguments.
fn callee_of_declared(scope: &Scope<'_>, arity: u128, name: &Ident) -> Callee
    requires { IsSettled scope.now }
    ensures below { IsBelow scope.now.ceiling result }
    ensures function { (spec : SpecScope) → IsScope scope.now spec
        → IsCallee (meanings_of scope.now) arity result (function_of_meaning arity (meaning_in spec name.now.text)) }
{
    match declared(scope, name) {
        Some((number, item)) => match item {
            Item::Function { params, .. } => {
                if are_so_many(params.as_slice(), arity) {
                    Callee::Declared { number }
                } else {
                    Callee::Unknown
                }
            }
            _ => Callee::Unknown,
        },
        None => Callee::Unknown,
    }
}

/// Whether these are so many parameters, of which none is a function.
fn are_so_many(params: &[Param], arity: u128) -> bool
    ensures { result ≡ (nat_eq (length (map arity_of params.now)) arity
        && list_all (λ p. cond (is_some p) false true) (map arity_of params.now)) }
{
    params.len() as u128 == arity && are_plain(params)
}

/// Whether no parameter is a function.
fn are_plain(params: &[Param]) -> bool
    ensures { result ≡ list_all (λ p. cond (is_some p) false true) (map arity_of params.now) }
{
    for param in params {
        if param.arity.is_some() {
            return false;
        }
    }
    true
}

/// What an expression comes to.
#[cycle(evaluation)]
pub(crate) fn evaluate(alloc: Global, scope: &Scope<'_>, expr: &Expr) -> Result<Value, AllocError>
    requires { IsSettled scope.now }
    ensures { (spec : SpecScope) → IsScope scope.now spec → IfOk result (λ v. IsValue v (value_of spec expr.now)) }
{
    match expr {
        Expr::Literal { value, bits } => Ok(literal(value, bits)),
        Expr::Input { token } => Ok(input(scope.facts.word(), *token)),
        Expr::After { token } => Ok(after(scope.facts.word(), *token)),
        Expr::Mem {
            token,
            bits,
            address,
        } => {
            let address = evaluate(alloc, scope, address.get())?;
            load(alloc, scope.facts, *token, bits, address)
        }
        Expr::Zx { token, bits, arg } => {
            let arg = evaluate(alloc, scope, arg.get())?;
            extension(alloc, false, *token, bits, arg)
        }
        Expr::Sx { token, bits, arg } => {
            let arg = evaluate(alloc, scope, arg.get())?;
            extension(alloc, true, *token, bits, arg)
        }
        Expr::Slice {
            token,
            low,
            bits,
            arg,
        } => {
            let arg = evaluate(alloc, scope, arg.get())?;
            slice(alloc, *token, low, bits, arg)
        }
        Expr::Name { name } => name_value(alloc, scope, name),
        Expr::Call { name, args } => evaluate_use(alloc, scope, name, args.as_slice()),
        Expr::Cell { space, cell } => Ok(cell_value(scope.facts.cell(space, cell), space.token)),
    }
}

/// The use of a function.
#[cycle(evaluation)]
fn evaluate_use(
    alloc: Global,
    scope: &Scope<'_>,
    name: &Ident,
    args: &[Expr],
) -> Result<Value, AllocError>
    requires { IsSettled scope.now }
    ensures { (spec : SpecScope) → IsScope scope.now spec
        → IfOk result (λ v. IsValue v (use_of spec name.now (map expression_of args.now))) }
{
    match scope.find(name.text.as_slice()) {
        Found::Absent => match operator_named(name.text.as_slice()) {
            Some(op) => evaluate_operator(alloc, scope, &op, name.token, args),
            None => evaluate_declared(alloc, scope, name, args),
        },
        Found::Bound { bound } => match bound {
            Bound::Argument { .. } => Ok(faulty(name.token)),
            Bound::Function { arity, callee } => {
                if *arity != args.len() as u128 {
                    return Ok(faulty(name.token));
                }
                evaluate_applied(alloc, scope, callee, name.token, args)
            }
        },
        Found::Operand { .. } => Ok(faulty(name.token)),
    }
}

/// An operator at its operands, if they are as many as it has.
#[cycle(evaluation)]
fn evaluate_operator(
    alloc: Global,
    scope: &Scope<'_>,
    op: &Op,
    token: usize,
    args: &[Expr],
) -> Result<Value, AllocError>
    requires { IsSettled scope.now }
    ensures { (spec : SpecScope) → IsScope scope.now spec
        → IfOk result (λ v. IsValue v (values.operator_at op.now token (map (value_of spec) args.now))) }
{
    if takes_one(op) {
        if args.len() != 1 {
            return Ok(faulty(token));
        }
        let arg = evaluate(alloc, scope, &args[0])?;
        return unary(alloc, *op, token, arg);
    }
    if args.len() != 2 {
        return Ok(faulty(token));
    }
    let left = evaluate(alloc, scope, &args[0])?;
    if left.is_huge() {
        return Ok(Value::Huge);
    }
    let right = evaluate(alloc, scope, &args[1])?;
    binary(alloc, *op, token, left, right)
}

/// The use of a declared function.
#[cycle(evaluation)]
fn evaluate_declared(
    alloc: Global,
    scope: &Scope<'_>,
    name: &Ident,
    args: &[Expr],
) -> Result<Value, AllocError>
    requires { IsSettled scope.now }
    ensures { (spec : SpecScope) → IsScope scope.now spec → IfOk result (λ v. IsValue v
        (use_of_meaning spec (meaning_in spec name.now.text) name.now.token (map expression_of args.now))) }
{
    match declared(scope, name) {
        Some((number, item)) => match item {
            Item::Function { params, body, .. } => {
                if params.len() != args.len() {
                    return Ok(faulty(name.token));
                }
                let bounds = evaluate_bindings(alloc, scope, params.as_slice(), args)?;
                let inner = Scope {
                    facts: scope.facts,
                    items: scope.items,
                    functions: scope.functions,
                    level: number,
                    ceiling: scope.ceiling,
                    locals: Locals::Params {
                        params: params.as_slice(),
                        bounds: bounds.as_slice(),
                    },
                };
                evaluate(alloc, &inner, body)
            }
            _ => Ok(faulty(name.token)),
        },
        None => Ok(faulty(name.token)),
    }
}

/// A function that a parameter stands for, at plain arguments.
#[cycle(evaluation)]
fn evaluate_applied(
    alloc: Global,
    scope: &Scope<'_>,
    callee: &Callee,
    token: usize,
    args: &[Expr],
) -> Result<Value, AllocError>
    requires settled { IsSettled scope.now }
    requires below { IsBelow scope.now.ceiling callee.now }
    ensures { (spec : SpecScope) → IsScope scope.now spec → IsPlain (meanings_of scope.now) (length args.now) callee.now
        → IfOk result (λ v. IsValue v
        (apply_of (meanings_of scope.now) callee.now token (map (value_of spec) args.now))) }
{
    match callee {
        Callee::Unknown => Ok(faulty(token)),
        Callee::Operator { op } => evaluate_operator(alloc, scope, op, token, args),
        Callee::Declared { number } => {
            match scope.functions.item(scope.items, *number) {
                Item::Function { params, body, .. } => {
                    if params.len() != args.len() {
                        return Ok(faulty(token));
                    }
                    let bounds = evaluate_plain(alloc, scope, args)?;
                    let inner = Scope {
                        facts: scope.facts,
                        items: scope.items,
                        functions: scope.functions,
                        level: *number,
                        ceiling: *number,
                        locals: Locals::Params {
                            params: params.as_slice(),
                            bounds: bounds.as_slice(),
                        },
                    };
                    evaluate(alloc, &inner, body)
                }
                _ => Ok(faulty(token)),
            }
        }
    }
}

/// What plain parameters stand for at these arguments.
#[cycle(evaluation)]
fn evaluate_plain(
    alloc: Global,
    scope: &Scope<'_>,
    args: &[Expr],
) -> Result<Items<Bound>, AllocError>
    requires { IsSettled scope.now }
    ensures count { IfOk result (λ bounds. length bounds ≡ length args.now) }
    ensures below { IfOk result (λ bounds. (ceiling : ℕ) → AreBelow ceiling bounds) }
    ensures bound { (spec : SpecScope) (meanings : List Meaning) → IsScope scope.now spec → IfOk result (λ bounds.
        AreBound meanings (length args.now) bounds (map (λ v. argument v None) (map (value_of spec) args.now))) }
{
    let mut bounds = Items::new(alloc);
    for arg in args {
        let value = evaluate(alloc, scope, arg)?;
        bounds.push(Bound::Argument {
            value,
            target: None,
        })?;
    }
    Ok(bounds)
}

/// What parameters stand for at these arguments.
#[cycle(evaluation)]
pub(crate) fn evaluate_bindings(
    alloc: Global,
    scope: &Scope<'_>,
    params: &[Param],
    args: &[Expr],
) -> Result<Items<Bound>, AllocError>
    requires settled { IsSettled scope.now }
    requires count { length params.now ≡ length args.now }
    ensures count { IfOk result (λ bounds. length bounds ≡ length args.now) }
    ensures below { IfOk result (λ bounds. AreBelow scope.now.ceiling bounds) }
    ensures bound { (spec : SpecScope) → IsScope scope.now spec → IfOk result (λ bounds.
        AreBound (meanings_of scope.now) (length args.now) bounds
        (bindings spec (map arity_of params.now) (map expression_of args.now))) }
{
    let mut bounds = Items::new(alloc);
    for place in 0..args.len() {
        let bound = evaluate_binding(alloc, scope, &params[place], &args[place])?;
        bounds.push(bound)?;
    }
    Ok(bounds)
}

/// What a parameter stands for at an argument.
#[cycle(evaluation)]
fn evaluate_binding(
    alloc: Global,
    scope: &Scope<'_>,
    param: &Param,
    arg: &Expr,
) -> Result<Bound, AllocError>
    requires { IsSettled scope.now }
    ensures below { IfOk result (λ b. IsBoundBelow scope.now.ceiling b) }
    ensures bound { (spec : SpecScope) → IsScope scope.now spec → IfOk result (λ b.
        IsBound (meanings_of scope.now) b (binding spec (arity_of param.now) (expression_of arg.now))) }
{
    match &param.arity {
        None => {
            let value = evaluate(alloc, scope, arg)?;
            Ok(Bound::Argument {
                value,
                target: target_of_expr(scope, arg),
            })
        }
        Some(arity) => Ok(Bound::Function {
            arity: arity.value,
            callee: callee_of_expr(scope, arity.value, arg),
        }),
    }
}

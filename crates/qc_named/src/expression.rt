//! Expressions whose names are resolved.
ghost use Rattle.std.specs.Prelude.{◌≡◌, ℕ, Option, Some, IfOk, OnOk, length, map};
ghost use Rattle.std.specs.Option.{option_copied, option_map};
ghost use Rattle.qc_bodies.specs.Trees.{Apply, Operate, Wrap as WrapOf, core_of, several};
ghost use Rattle.qc_facts.specs.Facts as known;
ghost use Rattle.qc_named.specs.Inner.Arguments.{AreArguments, HasAlso};
ghost use Rattle.qc_named.specs.Inner.Scopes.{IsSettled, like_kept, standing_at};
ghost use Rattle.qc_named.specs.Resolved as spec;
ghost use Rattle.qc_named.specs.Standing as stands;
ghost use Rattle.qc_resolve.specs.Scopes as scopes;

use crate::standing::{Own, Scope, is_plain, own_in, placed_in, takes};
use qc_bodies::{Aim, Callee, Leaf, Target, Tree, Wrap};
use qc_facts::{
    OperandFacts, Target as KnownTarget, access_width, literal_fault, operands_of, operator_named,
    width_in,
};
use qc_grammar::{Ident, Number};
use qc_lrtl::Expr;
use qc_resolve::Signature;
use qc_terms::Place;
use qc_words::{Op, Width};
use sqlite_items::{Boxed, Items};
use std::alloc::{AllocError, Global};

/// Names types that stand inside an expression, which a function has to do that adds one.
fn name_types(_op: Op, _width: Option<Width>, _target: Option<Target>, _place: Option<Place>) {}

/// A literal, which is absent where it has a fault.
#[tactic(auto, using(crate::proofs::Cores::cores))]
fn literal(number: &Number, bits: &Number) -> Tree
    ensures { core_of result ≡ spec.literal number.now bits.now }
{
    match literal_fault(number, bits) {
        Some(_) => Tree::Absent {
            token: number.token,
        },
        None => Tree::Leaf {
            token: number.token,
            leaf: Leaf::Number {
                value: number.value as u64,
            },
            width: width_in(bits),
        },
    }
}

/// An operand at a token.
#[tactic(auto, using(crate::proofs::Cores::cores))]
fn operand(word: Option<Width>, number: u32, facts: OperandFacts, token: usize) -> Tree
    ensures { core_of result ≡ spec.operand_tree word number facts token }
{
    match facts {
        OperandFacts::Register { space, width } => Tree::Leaf {
            token,
            leaf: Leaf::Register {
                place: Place::Operand { space, number },
            },
            width,
        },
        OperandFacts::Immediate { width } => Tree::Leaf {
            token,
            leaf: Leaf::Immediate { operand: number },
            width,
        },
        OperandFacts::Address => Tree::Leaf {
            token,
            leaf: Leaf::Immediate { operand: number },
            width: word,
        },
    }
}

/// A name that stands alone.
#[tactic(auto, using(crate::proofs::Cores::cores))]
fn alone(word: Option<Width>, own: Option<Own>, token: usize) -> Tree
    ensures { core_of result ≡ spec.alone word own token }
{
    match own {
        Some(Own::Value { number }) => Tree::Param { number },
        Some(Own::Operand { number, facts }) => operand(word, number, facts, token),
        Some(Own::Function { .. }) | None => Tree::Absent { token },
    }
}

/// A cell at a token.
#[tactic(auto, using(crate::proofs::Cores::cores))]
fn cell_tree(cell: Option<KnownTarget>, token: usize) -> Tree
    ensures { core_of result ≡ spec.cell_tree cell token }
{
    match cell {
        None => Tree::Absent { token },
        Some(target) => Tree::Leaf {
            token,
            leaf: Leaf::Register {
                place: target.place,
            },
            width: target.width,
        },
    }
}

/// The name that an expression is, if it is one alone.
#[tactic(auto, using(crate::proofs::Cores::bares))]
fn bare_name(expr: &Expr) -> Option<&Ident>
    ensures { option_copied result ≡ (spec.resolved expr.now).bare }
{
    match expr {
        Expr::Name { name } => Some(name),
        Expr::Literal { .. }
        | Expr::Input { .. }
        | Expr::After { .. }
        | Expr::Mem { .. }
        | Expr::Zx { .. }
        | Expr::Sx { .. }
        | Expr::Slice { .. }
        | Expr::Call { .. }
        | Expr::Cell { .. } => None,
    }
}

/// The register that a cell is, if there is one.
pub(crate) fn aim_of_cell(cell: Option<KnownTarget>) -> Aim
    ensures { result ≡ spec.aim_of_target cell }
{
    match cell {
        None => Aim::Nowhere,
        Some(target) => Aim::Fixed {
            target: Target {
                place: target.place,
                width: target.width,
            },
        },
    }
}

fn aim_of_operand(number: u32, facts: OperandFacts) -> Aim
    ensures { result ≡ spec.aim_of_operand number facts }
{
    match facts {
        OperandFacts::Register { space, width } => Aim::Fixed {
            target: Target {
                place: Place::Operand { space, number },
                width,
            },
        },
        OperandFacts::Immediate { .. } | OperandFacts::Address => Aim::Nowhere,
    }
}

fn aim_of_own(own: Option<Own>) -> Aim
    ensures { result ≡ spec.aim_of_own own }
{
    match own {
        Some(Own::Value { number }) => Aim::Given { number },
        Some(Own::Operand { number, facts }) => aim_of_operand(number, facts),
        Some(Own::Function { .. }) | None => Aim::Nowhere,
    }
}

/// The register that a name stands for.
pub(crate) fn aim_of_name(scope: &Scope<'_>, name: &Ident) -> Aim
    requires { IsSettled scope.now }
    ensures { result ≡ spec.aim_of (standing_at scope.now.names) (Some name.now) }
{
    aim_of_own(own_in(scope, name.text.as_slice()))
}

/// The register that an argument is.
fn aim_of(scope: &Scope<'_>, arg: &Expr) -> Aim
    requires { IsSettled scope.now }
    ensures { result ≡ spec.aim_of (standing_at scope.now.names) (spec.resolved arg.now).bare }
{
    match bare_name(arg) {
        Some(name) => aim_of_name(scope, name),
        None => Aim::Nowhere,
    }
}

fn callee_of_placed(arity: u128, placed: Option<(usize, &Signature)>) -> Callee
    ensures { result ≡ spec.callee_of_placed arity (like_kept (option_map (λ p. (p.0, p.1.now)) placed.entry)) }
{
    match placed {
        Some((number, signature)) if is_plain(signature, arity) => Callee::Declared { number },
        _ => Callee::Nowhere,
    }
}

fn callee_of_operator(op: &Op, arity: u128) -> Callee
    ensures { (s : Option (ℕ × scopes.Signature)) → result ≡ spec.callee_of_operator arity (Some op.now) s }
{
    if operands_of(*op) == arity {
        Callee::Operator { op: *op }
    } else {
        Callee::Nowhere
    }
}

/// The function of so many plain arguments that a name stands for.
fn callee_of_name(scope: &Scope<'_>, arity: u128, name: &Ident) -> Callee
    requires { IsSettled scope.now }
    ensures { result ≡ spec.callee_of (standing_at scope.now.names) arity (Some name.now) }
{
    match own_in(scope, name.text.as_slice()) {
        Some(
            Own::Function {
                number,
                arity: other,
            },
        ) if other == arity => Callee::Given { number },
        Some(_) => Callee::Nowhere,
        None => match operator_named(name.text.as_slice()) {
            Some(op) => callee_of_operator(&op, arity),
            None => callee_of_placed(arity, placed_in(scope, name.text.as_slice())),
        },
    }
}

/// The function of so many plain arguments that an argument is.
fn callee_of(scope: &Scope<'_>, arity: u128, arg: &Expr) -> Callee
    requires { IsSettled scope.now }
    ensures { result ≡ spec.callee_of (standing_at scope.now.names) arity (spec.resolved arg.now).bare }
{
    match bare_name(arg) {
        Some(name) => callee_of_name(scope, arity, name),
        None => Callee::Nowhere,
    }
}

/// Of the arguments of a use, those that are functions, those that are values, and the registers that these are.
#[derive(Debug, Drop)]
pub(crate) struct Arguments {
    pub callees: Items<Callee>,
    pub aims: Items<Aim>,
    pub values: Items<Tree>,
}

/// Adds an argument for a parameter, which is plain or a function of so many plain arguments.
#[cycle(trees)]
fn add_argument(
    alloc: Global,
    scope: &Scope<'_>,
    param: Option<u128>,
    arg: &Expr,
    found: &mut Arguments,
) -> Result<(), AllocError>
    requires { IsSettled scope.now }
    ensures { OnOk result (HasAlso (standing_at scope.now.names) param (spec.resolved arg.now) found.old found.new) }
{
    name_types(Op::Add, None, None, None);
    match param {
        Some(arity) => found.callees.push(callee_of(scope, arity, arg)),
        None => {
            let tree = tree_of(alloc, scope, arg)?;
            found.aims.push(aim_of(scope, arg))?;
            found.values.push(tree)
        }
    }
}

/// The arguments for these parameters.
#[cycle(trees)]
pub(crate) fn arguments_of(
    alloc: Global,
    scope: &Scope<'_>,
    params: &[Option<u128>],
    args: &[Expr],
) -> Result<Arguments, AllocError>
    requires { IsSettled scope.now }
    ensures { IfOk result (λ found. AreArguments (standing_at scope.now.names) params.now (map spec.resolved args.now) found) }
{
    name_types(Op::Add, None, None, None);
    let mut found = Arguments {
        callees: Items::new(alloc),
        aims: Items::new(alloc),
        values: Items::new(alloc),
    };
    for place in 0..params.len().min(args.len()) {
        add_argument(alloc, scope, params[place], &args[place], &mut found)?;
    }
    Ok(found)
}

/// Plain arguments.
#[cycle(trees)]
fn trees_of(alloc: Global, scope: &Scope<'_>, args: &[Expr]) -> Result<Items<Tree>, AllocError>
    requires { IsSettled scope.now }
    ensures { IfOk result (λ trees. map core_of trees
        ≡ spec.trees_of (standing_at scope.now.names) (map spec.resolved args.now)) }
{
    name_types(Op::Add, None, None, None);
    let mut found = Items::new(alloc);
    for arg in args {
        let tree = tree_of(alloc, scope, arg)?;
        found.push(tree)?;
    }
    Ok(found)
}

/// The use of a parameter that is a function of so many plain arguments.
#[cycle(trees)]
#[tactic(auto, using(crate::proofs::Cores::cores))]
fn applied(
    alloc: Global,
    scope: &Scope<'_>,
    number: usize,
    token: usize,
    args: &[Expr],
) -> Result<Tree, AllocError>
    requires { IsSettled scope.now }
    ensures { IfOk result (λ tree. core_of tree
        ≡ Apply token number (several (spec.trees_of (standing_at scope.now.names) (map spec.resolved args.now)))) }
{
    let args = trees_of(alloc, scope, args)?;
    Ok(Tree::Apply {
        token,
        number,
        args,
    })
}

/// The use of an operator.
#[cycle(trees)]
#[tactic(auto, using(crate::proofs::Cores::cores))]
fn operated(
    alloc: Global,
    scope: &Scope<'_>,
    op: Op,
    token: usize,
    args: &[Expr],
) -> Result<Tree, AllocError>
    requires { IsSettled scope.now }
    ensures { IfOk result (λ tree. core_of tree
        ≡ Operate token op (several (spec.trees_of (standing_at scope.now.names) (map spec.resolved args.now)))) }
{
    let args = trees_of(alloc, scope, args)?;
    Ok(Tree::Operate { token, op, args })
}

/// The use of a declared function.
#[cycle(trees)]
#[tactic(auto, using(crate::proofs::Cores::counts))]
fn used(
    alloc: Global,
    scope: &Scope<'_>,
    placed: Option<(usize, &Signature)>,
    token: usize,
    args: &[Expr],
) -> Result<Tree, AllocError>
    requires { IsSettled scope.now }
    ensures { IfOk result (λ tree. core_of tree ≡ spec.use_of_placed (standing_at scope.now.names)
        (like_kept (option_map (λ p. (p.0, p.1.now)) placed.entry)) token (map spec.resolved args.now)) }
{
    match placed {
        None => Ok(Tree::Absent { token }),
        Some((number, signature)) => {
            if takes(false, signature, args.len()) {
                let found = arguments_of(alloc, scope, signature.params.as_slice(), args)?;
                Ok(Tree::Use {
                    token,
                    number,
                    callees: found.callees,
                    args: found.values,
                })
            } else {
                Ok(Tree::Absent { token })
            }
        }
    }
}

/// The use of an operator or of a declared function.
#[cycle(trees)]
fn named_use(
    alloc: Global,
    scope: &Scope<'_>,
    name: &Ident,
    args: &[Expr],
) -> Result<Tree, AllocError>
    requires { IsSettled scope.now }
    ensures { IfOk result (λ tree. core_of tree ≡ spec.use_of_operator (standing_at scope.now.names)
        (known.operator_named name.now.text) (stands.placed_in (standing_at scope.now.names) name.now.text)
        name.now.token (map spec.resolved args.now)) }
{
    match operator_named(name.text.as_slice()) {
        Some(op) => operated(alloc, scope, op, name.token, args),
        None => used(
            alloc,
            scope,
            placed_in(scope, name.text.as_slice()),
            name.token,
            args,
        ),
    }
}

/// The use of a function.
#[cycle(trees)]
#[tactic(auto, using(crate::proofs::Cores::counts))]
fn use_of(alloc: Global, scope: &Scope<'_>, name: &Ident, args: &[Expr]) -> Result<Tree, AllocError>
    requires { IsSettled scope.now }
    ensures { IfOk result (λ tree. core_of tree
        ≡ spec.use_of (standing_at scope.now.names) name.now (map spec.resolved args.now)) }
{
    match own_in(scope, name.text.as_slice()) {
        None => named_use(alloc, scope, name, args),
        Some(Own::Function { number, arity }) => {
            if arity == args.len() as u128 {
                applied(alloc, scope, number, name.token, args)
            } else {
                Ok(Tree::Absent { token: name.token })
            }
        }
        Some(Own::Value { .. }) | Some(Own::Operand { .. }) => {
            Ok(Tree::Absent { token: name.token })
        }
    }
}

/// An expression that is made of one other.
#[cycle(trees)]
#[tactic(auto, using(crate::proofs::Cores::cores))]
fn wrapped(
    alloc: Global,
    scope: &Scope<'_>,
    token: usize,
    wrap: Wrap,
    width: Option<Width>,
    part: &Expr,
) -> Result<Tree, AllocError>
    requires { IsSettled scope.now }
    ensures { IfOk result (λ tree. core_of tree
        ≡ WrapOf token wrap width (spec.tree_in (standing_at scope.now.names) part.now)) }
{
    let part = tree_of(alloc, scope, part)?;
    let part = Boxed::new(alloc, part)?;
    Ok(Tree::Wrap {
        token,
        wrap,
        width,
        part,
    })
}

/// The tree of an expression, which has no names. Its native stack is as deep as the brackets of the expression.
#[cycle(trees)]
#[tactic(auto, using(crate::proofs::Cores::cores, crate::proofs::Cores::bares))]
pub(crate) fn tree_of(alloc: Global, scope: &Scope<'_>, expr: &Expr) -> Result<Tree, AllocError>
    requires { IsSettled scope.now }
    ensures { IfOk result (λ tree. core_of tree ≡ spec.tree_in (standing_at scope.now.names) expr.now) }
{
    let word = scope.names.facts.word();
    match expr {
        Expr::Literal { value, bits } => Ok(literal(value, bits)),
        Expr::Input { token } => Ok(Tree::Leaf {
            token: *token,
            leaf: Leaf::Input,
            width: word,
        }),
        Expr::After { token } => Ok(Tree::Leaf {
            token: *token,
            leaf: Leaf::After,
            width: word,
        }),
        Expr::Mem {
            token,
            bits,
            address,
        } => {
            let width = access_width(word, bits);
            wrapped(alloc, scope, *token, Wrap::Load, width, address.get())
        }
        Expr::Zx { token, bits, arg } => {
            wrapped(alloc, scope, *token, Wrap::Zx, width_in(bits), arg.get())
        }
        Expr::Sx { token, bits, arg } => {
            wrapped(alloc, scope, *token, Wrap::Sx, width_in(bits), arg.get())
        }
        Expr::Slice {
            token,
            low,
            bits,
            arg,
        } => {
            let wrap = Wrap::Slice { low: low.value };
            wrapped(alloc, scope, *token, wrap, width_in(bits), arg.get())
        }
        Expr::Name { name } => Ok(alone(word, own_in(scope, name.text.as_slice()), name.token)),
        Expr::Call { name, args } => use_of(alloc, scope, name, args.as_slice()),
        Expr::Cell { space, cell } => Ok(cell_tree(
            scope.names.facts.cell(space, cell),
            space.token,
        )),
    }
}

//! What names stand for where an expression is evaluated.
ghost use Rattle.std.specs.Prelude.{◌≡◌, ◌≤◌, ℕ, List, length};
ghost use Rattle.qc_resolve.specs.Declarations.{bound_operands};
ghost use Rattle.qc_facts.specs.Facts.{place_of, named, placed_from};
ghost use Rattle.qc_widths.specs.Inner.KeptValues.{AreBelow, AreParams, IsFound, IsFoundBelow, IsScope, IsSettled};
ghost use Rattle.qc_widths.specs.Inner.KeptValues.{meanings_of};
ghost use Rattle.qc_resolve.specs.Scopes as scopes;
ghost use Rattle.qc_resolve.specs.Scopes.{Bound as SpecBound, Meaning, Scope as SpecScope, bound_in, local_bound};

use crate::value::Value;
use qc_facts::{Facts, OperandFacts, Target};
use qc_lrtl::{Item, Operand, Param};
use qc_resolve::Functions;
use qc_words::Op;

/// What a function that a parameter stands for is: an operator or a declared function, or none that fits.
#[derive(Debug, Drop)]
pub(crate) enum Callee {
    Unknown,
    Operator { op: Op },
    Declared { number: usize },
}

impl Callee {
    ghost use Rattle.std.specs.Prelude.{◌≡◌};

    /// A copy.
    pub(crate) fn copy(&self) -> Callee
        ensures { result ≡ self.now }
    {
        match self {
            Callee::Unknown => Callee::Unknown,
            Callee::Operator { op } => Callee::Operator { op: *op },
            Callee::Declared { number } => Callee::Declared { number: *number },
        }
    }
}

/// What a parameter stands for: an argument, and the register that it is, if it is one, or a function of so many plain
/// arguments.
#[derive(Debug, Drop)]
pub(crate) enum Bound {
    Argument {
        value: Value,
        target: Option<Target>,
    },
    Function {
        arity: u128,
        callee: Callee,
    },
}

/// Parameters with what they stand for, or operands.
#[derive(Drop)]
pub(crate) enum Locals<'a> {
    Params {
        params: &'a [Param],
        bounds: &'a [Bound],
    },
    Operands {
        operands: &'a [Operand],
    },
}

/// Where an expression is evaluated. Of a machine's functions those below `level` may be used, and parameters stand for
/// functions below `ceiling`.
#[derive(Drop)]
pub(crate) struct Scope<'a> {
    pub facts: &'a Facts,
    pub items: &'a [Item],
    pub functions: &'a Functions,
    pub level: usize,
    pub ceiling: usize,
    pub locals: Locals<'a>,
}

/// What a name of a parameter or an operand stands for.
#[derive(Drop)]
pub(crate) enum Found<'a> {
    Absent,
    Bound { bound: &'a Bound },
    Operand { number: u32, facts: OperandFacts },
}

/// The place of the first parameter of a name.
fn find_param(params: &[Param], name: &[u8]) -> Option<usize>
    ensures { result ≡ place_of (placed_from 0 (λ p. p.name.text) params.now name.now) }
{
    for (place, param) in params.iter().enumerate() {
        if param.name.text.as_slice() == name {
            return Some(place);
        }
    }
    None
}

/// The number of the first operand of a name.
fn find_operand(operands: &[Operand], name: &[u8]) -> Option<usize>
    ensures { result ≡ place_of (placed_from 0 (λ o. o.name.text) operands.now name.now) }
{
    for (place, operand) in operands.iter().enumerate() {
        if operand.name.text.as_slice() == name {
            return Some(place);
        }
    }
    None
}

/// What a name among parameters stands for.
fn find_bound<'a>(params: &[Param], bounds: &'a [Bound], name: &[u8]) -> Found<'a>
    requires { length bounds.now ≡ length params.now }
    ensures below { (ceiling : ℕ) → AreBelow ceiling bounds.now → IsFoundBelow ceiling result }
    ensures found { (meanings : List Meaning) (locals : List (List ℕ × SpecBound))
        → AreParams meanings params.now bounds.now locals
        → IsFound meanings result (local_bound (named (λ p. p.0) locals name.now)) }
{
    match find_param(params, name) {
        Some(place) => Found::Bound {
            bound: &bounds[place],
        },
        None => Found::Absent,
    }
}

/// What a name among operands stands for.
fn find_number<'a>(facts: &Facts, operands: &[Operand], name: &[u8]) -> Found<'a>
    requires { length operands.now ≤ 8 }
    ensures below { (ceiling : ℕ) → IsFoundBelow ceiling result }
    ensures found { (meanings : List Meaning) → IsFound meanings result
        (local_bound (named (λ p. p.0) (bound_operands facts.now 0 operands.now) name.now)) }
{
    match find_operand(operands, name) {
        Some(place) => Found::Operand {
            number: place as u32,
            facts: facts.operand(&operands[place].kind),
        },
        None => Found::Absent,
    }
}

impl<'a> Scope<'a> {
    /// What a name of a parameter or an operand stands for.
    pub(crate) fn find(&self, name: &[u8]) -> Found<'a>
        requires { IsSettled self.now }
        ensures below { IsFoundBelow self.now.ceiling result }
        ensures found { (spec : SpecScope) → IsScope self.now spec
            → IsFound (meanings_of self.now) result (bound_in spec name.now) }
    {
        match self.locals {
            Locals::Params { params, bounds } => find_bound(params, bounds, name),
            Locals::Operands { operands } => find_number(self.facts, operands, name),
        }
    }
}

//! The bodies of all that a text declares, and of its instructions, as trees without names.
ghost use Rattle.std.specs.Prelude.{List, Some, None, ◌≡◌, ◌≤◌, ◌<◌, ◌+◌, ◌++◌, ◌∷◌, ◌^◌, [], IfOk, OnOk, length, map, take};
ghost use Rattle.std.specs.List.{flat_map};
ghost use Rattle.std.specs.Option.{option_to_list};
ghost use Rattle.qc_names.specs.ValueTables.{IsTableOf};
ghost use Rattle.qc_bodies.specs.Law.Acts.{Effects, Function, act_of, body_of};
ghost use Rattle.qc_facts.specs.Faults.{reported};
ghost use Rattle.qc_resolve.specs.Declarations.{arity_of, locals_of_operands, locals_of_params, names_for};
ghost use Rattle.qc_resolve.specs.Effects.{effect_faults};
ghost use Rattle.qc_resolve.specs.Expressions.{faults_in};
ghost use Rattle.qc_resolve.specs.KeptNames.{IsReady, locals_in, names_at};
ghost use Rattle.qc_named.specs.Contexts.{IsContext, signatures_at};
ghost use Rattle.qc_named.specs.NameFaults.{name_faults_in, name_faults_of_item};
ghost use Rattle.qc_named.specs.Inner.Scopes.{owns_in, standing_at};
ghost use Rattle.qc_named.specs.Inner.OwnNames.{AreOwn};
ghost use Rattle.qc_lrtl.specs.declared.syntax.Operand as spec_operand;
ghost use Rattle.qc_lrtl.specs.declared.syntax.Param as spec_param;
ghost use Rattle.qc_named.specs.Resolved as spec;
ghost use Rattle.qc_named.specs.ResolvedEffects as acting;
ghost use Rattle.qc_named.specs.Standing as stands;

use crate::effect::acts_of;
use crate::expression::tree_of;
use crate::standing::{Own, Scope};
use qc_bodies::{Act, Body, Target};
use qc_facts::{Facts, OperandFacts, WidthFault};
use qc_lrtl::{Effect, Expr, Item, Operand, Param};
use qc_names::Declared;
use qc_resolve::{Functions, Locals, Names, Signature, body_fault, expression_fault};
use qc_terms::Place;
use qc_words::{Op, Width};
use sqlite_items::Items;
use std::alloc::{AllocError, Global};

/// A text of which the facts, the names of its functions and named effects, and all signatures of these are known.
#[derive(Clone, Copy)]
pub struct Context<'a> {
    pub facts: &'a Facts,
    pub items: &'a [Item],
    pub functions: &'a Functions,
    pub signatures: &'a [Signature],
}

/// What a function or named effects are without names, and the fault that is reported of their names, if one is.
#[derive(Debug, Drop)]
pub struct ResolvedBody {
    pub body: Body,
    pub fault: Option<WidthFault>,
}

/// What an instruction does without names, and the fault that is reported of its names, if one is.
#[derive(Debug, Drop)]
pub struct ResolvedActs {
    pub acts: Items<Act>,
    pub fault: Option<WidthFault>,
}

/// Names types that stand inside a body, which a function has to do that adds one.
fn name_types(
    _op: Op,
    _width: Option<Width>,
    _target: Option<Target>,
    _place: Option<Place>,
    _fault: Option<WidthFault>,
) {}

/// Names types that stand inside an own name, which a function has to do that adds one.
fn name_own(_facts: Option<OperandFacts>, _width: Option<Width>) {}

/// The names of a body that uses the first functions of this number.
fn names_in<'a>(context: &Context<'a>, level: usize, locals: Locals<'a>) -> Names<'a>
    requires context { IsContext context.now }
    requires level { level ≤ length (signatures_at context.now) }
    ensures ready { IsReady result }
    ensures owns { owns_in result.facts.now result.locals ≡ owns_in context.now.facts.now locals.entry }
    ensures standing { standing_at result ≡ stands.standing_for context.now.facts.now
        (take level (signatures_at context.now)) (owns_in context.now.facts.now locals.entry) }
    ensures names { names_at result ≡ names_for context.now.facts.now (take level (signatures_at context.now))
        (locals_in locals.entry) }
{
    Names {
        facts: context.facts,
        items: context.items,
        functions: context.functions,
        signatures: &context.signatures[..level],
        locals,
    }
}

/// Parameters while their names are entered in a table.
#[derive(Debug, Drop)]
struct OwnNames {
    own: Declared<Own>,
    values: usize,
    functions: usize,
}

/// Enters a parameter that is a value.
fn add_value(alloc: Global, found: &mut OwnNames, param: &Param) -> Result<(), AllocError>
    requires { found.old.values + 1 < 2 ^ 64 }
    ensures { OnOk result ((params : List spec_param.Param) → arity_of param.now ≡ None → AreOwn params found.old
        → AreOwn (params ++ param.now ∷ []) found.new) }
{
    name_own(None, None);
    let own = Own::Value {
        number: found.values,
    };
    found.own.push(alloc, param.name.text.as_slice(), own)?;
    found.values += 1;
    Ok(())
}

/// Enters a parameter that is a function of so many plain arguments.
fn add_function(
    alloc: Global,
    found: &mut OwnNames,
    param: &Param,
    arity: u128,
) -> Result<(), AllocError>
    requires { found.old.functions + 1 < 2 ^ 64 }
    ensures { OnOk result ((params : List spec_param.Param) → arity_of param.now ≡ Some arity → AreOwn params found.old
        → AreOwn (params ++ param.now ∷ []) found.new) }
{
    name_own(None, None);
    let own = Own::Function {
        number: found.functions,
        arity,
    };
    found.own.push(alloc, param.name.text.as_slice(), own)?;
    found.functions += 1;
    Ok(())
}

/// Enters a parameter.
fn add_param(alloc: Global, found: &mut OwnNames, param: &Param) -> Result<(), AllocError>
    requires values { found.old.values + 1 < 2 ^ 64 }
    requires functions { found.old.functions + 1 < 2 ^ 64 }
    ensures { OnOk result ((params : List spec_param.Param) → AreOwn params found.old
        → AreOwn (params ++ param.now ∷ []) found.new) }
{
    match &param.arity {
        None => add_value(alloc, found, param),
        Some(arity) => add_function(alloc, found, param, arity.value),
    }
}

/// The table of parameters.
fn own_params(alloc: Global, params: &[Param]) -> Result<Declared<Own>, AllocError>
    ensures { IfOk result (λ own. IsTableOf (stands.own_params params.now) own.values own.numbers) }
{
    name_own(None, None);
    let mut found = OwnNames {
        own: Declared::new(alloc),
        values: 0,
        functions: 0,
    };
    for param in params {
        add_param(alloc, &mut found, param)?;
    }
    Ok(found.own)
}

/// Enters an operand of this number.
fn add_operand(
    alloc: Global,
    facts: &Facts,
    number: usize,
    operand: &Operand,
    found: &mut Declared<Own>,
) -> Result<(), AllocError>
    requires { number < 2 ^ 32 }
    ensures { OnOk result ((operands : List spec_operand.Operand) → number ≡ length operands
        → IsTableOf (stands.own_operands facts.now operands) found.old.values found.old.numbers
        → IsTableOf (stands.own_operands facts.now (operands ++ operand.now ∷ [])) found.new.values found.new.numbers) }
{
    name_own(None, None);
    let own = Own::Operand {
        number: number as u32,
        facts: facts.operand(&operand.kind),
    };
    found.push(alloc, operand.name.text.as_slice(), own)?;
    Ok(())
}

/// The table of operands.
fn own_operands(
    alloc: Global,
    facts: &Facts,
    operands: &[Operand],
) -> Result<Declared<Own>, AllocError>
    requires { length operands.now < 2 ^ 32 }
    ensures { IfOk result (λ own. IsTableOf (stands.own_operands facts.now operands.now) own.values own.numbers) }
{
    name_own(None, None);
    let mut found = Declared::new(alloc);
    for number in 0..operands.len() {
        add_operand(alloc, facts, number, &operands[number], &mut found)?;
    }
    Ok(found)
}

/// A function by its value, which uses the first functions of this number.
fn function_body(
    alloc: Global,
    context: &Context<'_>,
    level: usize,
    params: &[Param],
    body: &Expr,
) -> Result<ResolvedBody, AllocError>
    requires context { IsContext context.now }
    requires level { level ≤ length (signatures_at context.now) }
    ensures body { IfOk result (λ r. body_of r.body ≡ Function (spec.tree_in (stands.standing_for context.now.facts.now
        (take level (signatures_at context.now)) (stands.own_params params.now)) body.now)) }
    ensures fault { IfOk result (λ r. r.fault ≡ reported (faults_in (names_for context.now.facts.now
        (take level (signatures_at context.now)) (locals_of_params params.now)) body.now)) }
{
    let own = own_params(alloc, params)?;
    let scope = Scope {
        names: names_in(context, level, Locals::Params(params)),
        own: &own,
    };
    let value = tree_of(alloc, &scope, body)?;
    let fault = expression_fault(&scope.names, body);
    Ok(ResolvedBody {
        body: Body::Function { value },
        fault,
    })
}

/// Named effects, which use the first functions of this number.
fn effects_body(
    alloc: Global,
    context: &Context<'_>,
    level: usize,
    params: &[Param],
    body: &[Effect],
) -> Result<ResolvedBody, AllocError>
    requires context { IsContext context.now }
    requires level { level ≤ length (signatures_at context.now) }
    ensures body { IfOk result (λ r. body_of r.body ≡ Effects (acting.acts_of (stands.standing_for context.now.facts.now
        (take level (signatures_at context.now)) (stands.own_params params.now)) body.now)) }
    ensures fault { IfOk result (λ r. r.fault ≡ reported (flat_map (effect_faults (names_for context.now.facts.now
        (take level (signatures_at context.now)) (locals_of_params params.now))) body.now)) }
{
    let own = own_params(alloc, params)?;
    let scope = Scope {
        names: names_in(context, level, Locals::Params(params)),
        own: &own,
    };
    let acts = acts_of(alloc, &scope, body)?;
    let fault = body_fault(&scope.names, body);
    Ok(ResolvedBody {
        body: Body::Effects { acts },
        fault,
    })
}

/// What an instruction does, as effects without names. It may use all functions and named effects of the text.
pub fn instruction_acts(
    alloc: Global,
    context: &Context<'_>,
    operands: &[Operand],
    body: &[Effect],
) -> Result<ResolvedActs, AllocError>
    requires context { IsContext context.now }
    requires few { length operands.now < 2 ^ 32 }
    ensures acts { IfOk result (λ r. map act_of r.acts ≡ acting.acts_of (stands.standing_for context.now.facts.now
        (signatures_at context.now) (stands.own_operands context.now.facts.now operands.now)) body.now) }
    ensures fault { IfOk result (λ r. r.fault ≡ reported (flat_map (effect_faults (names_for context.now.facts.now
        (signatures_at context.now) (locals_of_operands operands.now))) body.now)) }
{
    let own = own_operands(alloc, context.facts, operands)?;
    let level = context.signatures.len();
    let scope = Scope {
        names: names_in(context, level, Locals::Operands(operands)),
        own: &own,
    };
    let acts = acts_of(alloc, &scope, body)?;
    let fault = body_fault(&scope.names, body);
    Ok(ResolvedActs { acts, fault })
}

/// What an item declares, if it is a function or named effects, which use the first functions of this number.
fn body_of_item(
    alloc: Global,
    context: &Context<'_>,
    level: usize,
    item: &Item,
) -> Result<Option<ResolvedBody>, AllocError>
    requires context { IsContext context.now }
    requires level { level ≤ length (signatures_at context.now) }
    ensures body { IfOk result (λ r. map (λ b. body_of b.body) (option_to_list r) ≡ acting.body_of_item context.now.facts.now
        (take level (signatures_at context.now)) item.now) }
    ensures fault { IfOk result (λ r. map (λ b. b.fault) (option_to_list r) ≡ map reported (name_faults_of_item
        context.now.facts.now (take level (signatures_at context.now)) item.now)) }
{
    match item {
        Item::Function { params, body, .. } => {
            let found = function_body(alloc, context, level, params.as_slice(), body)?;
            Ok(Some(found))
        }
        Item::Effects { params, body, .. } => {
            let found = effects_body(alloc, context, level, params.as_slice(), body.as_slice())?;
            Ok(Some(found))
        }
        Item::Word { .. }
        | Item::ByteOrder { .. }
        | Item::Align { .. }
        | Item::SlotBits { .. }
        | Item::Memory { .. }
        | Item::Code { .. }
        | Item::Data { .. }
        | Item::Space { .. }
        | Item::Zero { .. }
        | Item::Frame { .. }
        | Item::Link { .. }
        | Item::Allocatable { .. }
        | Item::Instruction { .. } => Ok(None),
    }
}

/// Adds a body, if there is one.
#[tactic(auto, using(crate::proofs::Cores::lists))]
fn add(found: &mut Items<ResolvedBody>, body: Option<ResolvedBody>) -> Result<(), AllocError>
    ensures { OnOk result (found.new ≡ found.old ++ option_to_list body) }
{
    name_types(Op::Add, None, None, None, None);
    match body {
        None => Ok(()),
        Some(body) => found.push(body),
    }
}

/// The bodies of all functions and named effects, in the order of the text, each once.
pub fn bodies_of(alloc: Global, context: &Context<'_>) -> Result<Items<ResolvedBody>, AllocError>
    requires { IsContext context.now }
    ensures bodies { IfOk result (λ found. map (λ b. body_of b.body) found
        ≡ acting.bodies_in context.now.facts.now context.now.items.now) }
    ensures faults { IfOk result (λ found. map (λ b. b.fault) found
        ≡ map reported (name_faults_in context.now.facts.now context.now.items.now)) }
{
    name_types(Op::Add, None, None, None, None);
    let mut found = Items::new(alloc);
    for item in context.items {
        let level = found.len();
        let body = body_of_item(alloc, context, level, item)?;
        add(&mut found, body)?;
    }
    Ok(found)
}

//! What is known of functions and named effects without their uses.
ghost use Rattle.std.specs.Prelude.{◌≡◌, ◌++◌, [], cond, true, false, length, map, take, IfOk, OnOk, is_some};
ghost use Rattle.std.specs.List.{list_all};
ghost use Rattle.qc_resolve.specs.Scopes as scopes;
ghost use Rattle.qc_resolve.specs.Declarations as declared;
ghost use Rattle.qc_resolve.specs.FunctionTables.{IsTableOf};
ghost use Rattle.qc_resolve.specs.KeptSignatures as summaries;
ghost use Rattle.qc_resolve.specs.KeptNames.{names_at, IsReady};

use crate::functions::Functions;
use crate::names::effects::{body_events, body_target};
use crate::names::{Locals, Names};
use qc_facts::Facts;
use qc_lrtl::{Effect, Item, Param};
use sqlite_items::Items;
use std::alloc::{AllocError, Global};

/// Those of no effects.
pub const NO_EVENTS: Events = Events {
    first: None,
    later: None,
};

/// Of the effects that show something, the first one's token, and the least of those after it.
#[derive(Clone, Copy, Debug, PartialEq, Eq)]
pub struct Events {
    pub first: Option<usize>,
    pub later: Option<usize>,
}

/// The arities of the parameters that are functions, and of named effects the least token of the targets that each
/// parameter stands for.
#[derive(Debug, Drop)]
pub struct Signature {
    pub params: Items<Option<u128>>,
    pub effects: bool,
    pub targets: Items<Option<usize>>,
    pub events: Events,
}

/// The lesser of two tokens that may be there.
pub fn lesser(token: Option<usize>, other: Option<usize>) -> Option<usize>
    ensures { result ≡ summaries.lesser token other }
{
    match (token, other) {
        (None, other) => other,
        (token, None) => token,
        (Some(token), Some(other)) => Some(token.min(other)),
    }
}

/// The events of two lists of effects, one after the other.
pub fn joined_events(events: Events, more: Events) -> Events
    ensures { result ≡ summaries.joined_events events more }
{
    match events.first {
        None => more,
        Some(_) => Events {
            first: events.first,
            later: lesser(events.later, lesser(more.first, more.later)),
        },
    }
}

fn all_plain(params: &[Option<u128>]) -> bool
    ensures { result ≡ list_all (λ p. cond (is_some p) false true) params.now }
{
    for param in params {
        if param.is_some() {
            return false;
        }
    }
    true
}

/// A function of so many plain arguments.
pub fn is_plain(signature: &Signature, arity: u128) -> bool
    ensures { result ≡ scopes.is_plain (summaries.signature_like signature.now) arity }
{
    !signature.effects
        && signature.params.len() as u128 == arity
        && all_plain(signature.params.as_slice())
}

/// A function, or named effects, with so many parameters.
pub fn takes(effects: bool, signature: &Signature, count: usize) -> bool
    ensures { result ≡ scopes.takes effects (summaries.signature_like signature.now) count }
{
    signature.effects == effects && signature.params.len() == count
}

/// The arity of a parameter, if it is a function.
pub fn arity_of(param: &Param) -> Option<u128>
    ensures { result ≡ declared.arity_of param.now }
{
    match &param.arity {
        None => None,
        Some(arity) => Some(arity.value),
    }
}

fn arities(alloc: Global, params: &[Param]) -> Result<Items<Option<u128>>, AllocError>
    ensures { IfOk result (λ arities. arities ≡ map declared.arity_of params.now) }
{
    let mut found = Items::new(alloc);
    for param in params {
        found.push(arity_of(param))?;
    }
    Ok(found)
}

/// The first of the targets that a parameter stands for.
#[tactic(auto, using(crate::proofs::Kept::kept_none))]
fn param_target(names: &Names<'_>, param: &Param, body: &[Effect]) -> Option<usize>
    requires { IsReady names.now }
    ensures { result ≡ summaries.least (declared.targets_of_param (names_at names.now) body.now param.now) }
{
    match arity_of(param) {
        Some(_) => None,
        None => body_target(names, param.name.text.as_slice(), body),
    }
}

fn param_targets(
    alloc: Global,
    names: &Names<'_>,
    params: &[Param],
    body: &[Effect],
) -> Result<Items<Option<usize>>, AllocError>
    requires { IsReady names.now }
    ensures { IfOk result (λ targets. targets
        ≡ map summaries.least (map (declared.targets_of_param (names_at names.now) body.now) params.now)) }
{
    let mut found = Items::new(alloc);
    for param in params {
        found.push(param_target(names, param, body))?;
    }
    Ok(found)
}

#[tactic(auto, using(crate::proofs::Kept::kept_none))]
fn function_signature(alloc: Global, params: &[Param]) -> Result<Signature, AllocError>
    ensures { IfOk result (λ s. s ≡ summaries.kept_of_function params.now) }
{
    Ok(Signature {
        params: arities(alloc, params)?,
        effects: false,
        targets: Items::new(alloc),
        events: NO_EVENTS,
    })
}

fn effects_signature(
    alloc: Global,
    names: &Names<'_>,
    params: &[Param],
    body: &[Effect],
) -> Result<Signature, AllocError>
    requires { IsReady names.now }
    ensures { IfOk result (λ s. s ≡ summaries.kept_of_effects (names_at names.now) params.now body.now) }
{
    Ok(Signature {
        params: arities(alloc, params)?,
        effects: true,
        targets: param_targets(alloc, names, params, body)?,
        events: body_events(names, body),
    })
}

/// Adds what an item declares after the first functions and named effects of the items.
fn add_signature(
    alloc: Global,
    facts: &Facts,
    items: &[Item],
    functions: &Functions,
    signatures: &mut Items<Signature>,
    item: &Item,
) -> Result<(), AllocError>
    requires table { IsTableOf items.now functions.now }
    requires first { signatures.old ≡ map summaries.summary
        (take (length signatures.old) (declared.signatures_in facts.now items.now)) }
    ensures { OnOk result (signatures.new ≡ signatures.old ++ map summaries.summary
        (declared.signature_of_item facts.now
        (take (length signatures.old) (declared.signatures_in facts.now items.now)) item.now)) }
{
    match item {
        Item::Function { params, .. } => {
            signatures.push(function_signature(alloc, params.as_slice())?)?;
            Ok(())
        }
        Item::Effects { params, body, .. } => {
            let names = Names {
                facts,
                items,
                functions,
                signatures: signatures.as_slice(),
                locals: Locals::Params(params.as_slice()),
            };
            let signature = effects_signature(alloc, &names, params.as_slice(), body.as_slice())?;
            signatures.push(signature)?;
            Ok(())
        }
        Item::Word { .. }
        | Item::ByteOrder { .. }
        | Item::Align { .. }
        | Item::SlotBits { .. }
        | Item::Memory { .. }
        | Item::Code { .. }
        | Item::Data { .. }
        | Item::Space { .. }
        | Item::Zero { .. }
        | Item::Frame { .. }
        | Item::Link { .. }
        | Item::Allocatable { .. }
        | Item::Instruction { .. } => Ok(()),
    }
}

/// What is known of all functions and named effects without their uses, in order.
pub fn declared_signatures(
    alloc: Global,
    facts: &Facts,
    items: &[Item],
    functions: &Functions,
) -> Result<Items<Signature>, AllocError>
    requires { IsTableOf items.now functions.now }
    ensures { IfOk result (λ signatures. signatures
        ≡ map summaries.summary (declared.signatures_in facts.now items.now)) }
{
    let mut found = Items::new(alloc);
    for item in items {
        add_signature(alloc, facts, items, functions, &mut found, item)?;
    }
    Ok(found)
}

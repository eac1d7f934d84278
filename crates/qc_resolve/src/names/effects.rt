//! What is reported of effects without their uses: a fault, events, and the targets of a name.
ghost use Rattle.std.specs.Prelude.{◌≡◌, ◌++◌, Some, length, map, drop};
ghost use Rattle.std.specs.List.{flat_map};
ghost use Rattle.std.specs.Option.{option_map, option_copied};
ghost use Rattle.qc_facts.specs.declared.faults.WidthFault.TheVariants.{TwiceNamed};
ghost use Rattle.qc_facts.specs.Faults.{reported};
ghost use Rattle.qc_resolve.specs.Expressions as written;
ghost use Rattle.qc_resolve.specs.Effects as acting;
ghost use Rattle.qc_resolve.specs.KeptSignatures.{summary, least, events_in, at_most_one};
ghost use Rattle.qc_resolve.specs.KeptNames.{names_at, IsReady};
ghost use Rattle.qc_resolve.specs.Inner.ArgumentFaults.{one_target_faults, one_target_at};

use crate::names::expressions::{argument_fault, expression_fault, plain_fault};
use crate::names::{Names, bare_name, cell_fault, local_in, signature_in, word_in};
use crate::signatures::{Events, NO_EVENTS, Signature, joined_events, lesser, takes};
use qc_facts::{Local, WidthFault, access_fault, operator_named};
use qc_grammar::Ident;
use qc_lrtl::{Effect, Expr, Guard, Simple};
use qc_names::{earlier, known_or};

/// The name may be a target.
fn fits_target(names: &Names<'_>, name: &Ident) -> bool
    ensures { result ≡ acting.fits_target (names_at names.now) (Some name.now) }
{
    match local_in(names, name.text.as_slice()) {
        Some(Local::Plain { fits }) => fits,
        Some(Local::Applied { .. }) | None => false,
    }
}

/// The argument is a name that may be a target.
fn argument_fits(names: &Names<'_>, arg: &Expr) -> bool
    ensures { result ≡ acting.fits_target (names_at names.now) (written.bare_name arg.now) }
{
    match bare_name(arg) {
        Some(name) => fits_target(names, name),
        None => false,
    }
}

/// The fault of an argument for a parameter that stands for targets, the first of which is at this token.
fn one_target_fault(names: &Names<'_>, target: Option<usize>, arg: &Expr) -> Option<WidthFault>
    ensures { result
        ≡ reported (one_target_faults (names_at names.now) (at_most_one target) (written.expression_of arg.now)) }
{
    if argument_fits(names, arg) {
        return None;
    }
    match target {
        Some(token) => Some(WidthFault::UnknownName { token }),
        None => None,
    }
}

/// The fault of arguments for parameters that stand for targets, the first of which are at these tokens.
fn target_fault(names: &Names<'_>, targets: &[Option<usize>], args: &[Expr]) -> Option<WidthFault>
    ensures { result ≡ reported (acting.target_faults (names_at names.now) (map at_most_one targets.now)
        (map written.expression_of args.now)) }
{
    let mut found = None;
    for place in 0..targets.len().min(args.len()) {
        found = earlier(found, one_target_fault(names, targets[place], &args[place]));
    }
    found
}

/// The signature of the named effects that a name with so many arguments stands for.
fn effects_named<'a>(names: &Names<'a>, name: &Ident, count: usize) -> Option<&'a Signature>
    requires { IsReady names.now }
    ensures { option_copied result ≡ option_map summary (acting.effects_named (names_at names.now) name.now count) }
{
    if local_in(names, name.text.as_slice()).is_some() {
        return None;
    }
    if operator_named(name.text.as_slice()).is_some() {
        return None;
    }
    match signature_in(names, name.text.as_slice()) {
        Some(signature) if takes(true, signature, count) => Some(signature),
        _ => None,
    }
}

/// The fault of a use of named effects.
fn use_fault(names: &Names<'_>, name: &Ident, args: &[Expr]) -> Option<WidthFault>
    requires { IsReady names.now }
    ensures { result ≡ reported (acting.effects_faults (names_at names.now)
        (acting.effects_named (names_at names.now) name.now (length args.now)) name.now.token
        (map written.expression_of args.now)) }
{
    match effects_named(names, name, args.len()) {
        Some(signature) => earlier(
            argument_fault(names, signature.params.as_slice(), args),
            target_fault(names, signature.targets.as_slice(), args),
        ),
        None => earlier(
            Some(WidthFault::UnknownName { token: name.token }),
            plain_fault(names, args),
        ),
    }
}

#[tactic(auto, using(qc_names::specs::Law::Reported::reported_parts))]
fn simple_fault(names: &Names<'_>, simple: &Simple) -> Option<WidthFault>
    requires { IsReady names.now }
    ensures { result ≡ reported (acting.simple_faults (names_at names.now) simple.now) }
{
    match simple {
        Simple::Pc { value, .. }
        | Simple::Out { value, .. }
        | Simple::Halt { value, .. }
        | Simple::Trap { value, .. } => expression_fault(names, value),
        Simple::Mem {
            bits,
            address,
            value,
            ..
        } => {
            let parts = earlier(
                expression_fault(names, address),
                expression_fault(names, value),
            );
            earlier(access_fault(word_in(names), bits), parts)
        }
        Simple::Name { name, value } => earlier(
            known_or(fits_target(names, name), name.token),
            expression_fault(names, value),
        ),
        Simple::Cell { space, cell, value } => {
            earlier(
                cell_fault(names, space, cell),
                expression_fault(names, value),
            )
        }
        Simple::Use { name, args } => use_fault(names, name, args.as_slice()),
    }
}

fn guard_fault(names: &Names<'_>, guard: &Option<Guard>) -> Option<WidthFault>
    requires { IsReady names.now }
    ensures { result ≡ reported (acting.guard_faults (names_at names.now) guard.now) }
{
    match guard {
        Some(guard) => expression_fault(names, &guard.condition),
        None => None,
    }
}

#[tactic(auto, unfolding(crate::specs::Effects::effect_faults), using(qc_names::specs::Law::Reported::reported_parts))]
fn effect_fault(names: &Names<'_>, effect: &Effect) -> Option<WidthFault>
    requires { IsReady names.now }
    ensures { result ≡ reported (acting.effect_faults (names_at names.now) effect.now) }
{
    earlier(
        guard_fault(names, &effect.guard),
        simple_fault(names, &effect.simple),
    )
}

/// The fault of effects.
#[tactic(auto, using(qc_names::specs::Law::Reported::reported_parts))]
pub fn body_fault(names: &Names<'_>, body: &[Effect]) -> Option<WidthFault>
    requires { IsReady names.now }
    ensures { result ≡ reported (flat_map (acting.effect_faults (names_at names.now)) body.now) }
{
    let mut found = None;
    for effect in body {
        found = earlier(found, effect_fault(names, effect));
    }
    found
}

/// The events of an effect.
#[tactic(auto, unfolding(crate::specs::Effects::effect_events), using(crate::proofs::Kept::kept_none))]
fn effect_events(names: &Names<'_>, effect: &Effect) -> Events
    requires { IsReady names.now }
    ensures { result ≡ events_in (acting.effect_events (names_at names.now) effect.now) }
{
    match &effect.simple {
        Simple::Out { token, .. } | Simple::Halt { token, .. } | Simple::Trap { token, .. } =>
            Events {
                first: Some(*token),
                later: None,
            },
        Simple::Use { name, args } => match effects_named(names, name, args.len()) {
            Some(signature) => signature.events,
            None => NO_EVENTS,
        },
        Simple::Pc { .. } | Simple::Mem { .. } | Simple::Name { .. } | Simple::Cell { .. } =>
            NO_EVENTS,
    }
}

/// The events of effects.
pub fn body_events(names: &Names<'_>, body: &[Effect]) -> Events
    requires { IsReady names.now }
    ensures { result ≡ events_in (flat_map (acting.effect_events (names_at names.now)) body.now) }
{
    let mut found = NO_EVENTS;
    for effect in body {
        found = joined_events(found, effect_events(names, effect));
    }
    found
}

/// The fault of a second effect that shows something.
pub fn twice_fault(names: &Names<'_>, body: &[Effect]) -> Option<WidthFault>
    requires { IsReady names.now }
    ensures { result
        ≡ reported (map TwiceNamed (drop 1 (flat_map (acting.effect_events (names_at names.now)) body.now))) }
{
    match body_events(names, body).later {
        Some(token) => Some(WidthFault::TwiceNamed { token }),
        None => None,
    }
}

/// The first of the targets that an argument of this name stands for, where a parameter's first is at this token.
#[tactic(auto, unfolding(crate::specs::KeptSignatures::least))]
fn one_target(name: &[u8], target: Option<usize>, arg: &Expr) -> Option<usize>
    ensures { result ≡ least (one_target_at name.now (at_most_one target) (written.expression_of arg.now)) }
{
    match bare_name(arg) {
        Some(other) if *other.text.as_slice() == *name => target,
        _ => None,
    }
}

/// The first of the targets that arguments of this name stand for.
fn target_at(name: &[u8], targets: &[Option<usize>], args: &[Expr]) -> Option<usize>
    ensures { result ≡ least (acting.targets_at name.now (map at_most_one targets.now)
        (map written.expression_of args.now)) }
{
    let mut found = None;
    for place in 0..targets.len().min(args.len()) {
        found = lesser(found, one_target(name, targets[place], &args[place]));
    }
    found
}

/// The first of the targets of this name in an effect.
#[tactic(auto, unfolding(crate::specs::Effects::effect_targets, crate::specs::KeptSignatures::least))]
fn effect_target(names: &Names<'_>, name: &[u8], effect: &Effect) -> Option<usize>
    requires { IsReady names.now }
    ensures { result ≡ least (acting.effect_targets (names_at names.now) name.now effect.now) }
{
    match &effect.simple {
        Simple::Name { name: target, .. } if *target.text.as_slice() == *name => Some(target.token),
        Simple::Use { name: used, args } => match effects_named(names, used, args.len()) {
            Some(signature) => target_at(name, signature.targets.as_slice(), args.as_slice()),
            None => None,
        },
        Simple::Pc { .. }
        | Simple::Out { .. }
        | Simple::Halt { .. }
        | Simple::Trap { .. }
        | Simple::Mem { .. }
        | Simple::Name { .. }
        | Simple::Cell { .. } => None,
    }
}

/// The first of the targets of this name in effects.
pub fn body_target(names: &Names<'_>, name: &[u8], body: &[Effect]) -> Option<usize>
    requires { IsReady names.now }
    ensures { result ≡ least (flat_map (acting.effect_targets (names_at names.now) name.now) body.now) }
{
    let mut found = None;
    for effect in body {
        found = lesser(found, effect_target(names, name, effect));
    }
    found
}

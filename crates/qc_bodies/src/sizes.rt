//! How many nodes an expression has once it is written out.
ghost use Rattle.std.specs.Prelude.{◌≡◌, ◌<◌, ◌+◌, ◌*◌, ℕ, List, [], length, slice_get, OnOk, IfOk, OnErr};
ghost use Rattle.qc_bodies.specs.Meanings.{Meaning, operands_of, value, value_or};
ghost use Rattle.qc_bodies.specs.Plains.{plain_of, plains_of};
ghost use Rattle.qc_bodies.specs.Sizes.{AreForms, added, size_at, sizes, stopped, weighed};
ghost use Rattle.qc_bodies.specs.Inner.Weighing.{Grows};

use crate::plain::Plain;
use qc_words::Op;
use sqlite_items::{Items, at};
use std::alloc::{AllocError, Global};

/// One more than the nodes that a register transfer list may have; it stands for all numbers from there on.
const STOP: u32 = 4097;

/// The size of an expression as a function of the sizes of what its parameters stand for: so many nodes, and so many times
/// each parameter. All numbers from 4,097 on are told as 4,097.
#[derive(Debug, Drop)]
pub struct Form {
    pub base: u32,
    pub counts: Items<u32>,
}

/// How many operands an operator has.
pub(crate) fn operands(op: &Op) -> usize
    ensures { result ≡ operands_of op.now }
{
    match op {
        Op::Com | Op::Neg | Op::Zx { .. } | Op::Sx { .. } | Op::Slice { .. } => 1,
        _ => 2,
    }
}

/// A sum, up to the stop.
fn sum(a: u32, b: u32) -> u32
    ensures { result ≡ stopped (a + b) }
{
    a.saturating_add(b).min(STOP)
}

/// A product, up to the stop.
fn product(a: u32, b: u32) -> u32
    ensures { result ≡ stopped (a * b) }
{
    a.saturating_mul(b).min(STOP)
}

#[tactic(auto, using(crate::proofs::Weighing::weighed_push))]
/// Makes place for the count of a parameter.
fn make_room(counts: &mut Items<u32>, number: usize) -> Result<(), AllocError>
    ensures room { OnOk result (number < length counts.new) }
    ensures same { OnOk result ((ns : List ℕ) → weighed counts.new ns ≡ weighed counts.old ns) }
{
    while counts.len() <= number {
        counts.push(0)?;
    }
    Ok(())
}

impl Form {
    /// Adds so many nodes.
    fn add(&mut self, nodes: u32)
        ensures { (ns : List ℕ) → stopped (size_at self.new ns) ≡ stopped (size_at self.old ns + nodes) }
    {
        self.base = sum(self.base, nodes);
    }

    #[tactic(auto, using(crate::proofs::Weighing::weighed_set))]
    /// Adds so many times a parameter.
    fn count(&mut self, number: usize, times: u32) -> Result<(), AllocError>
        ensures { OnOk result ((ns : List ℕ) → stopped (size_at self.new ns)
            ≡ stopped (size_at self.old ns + times * value_or 1 (slice_get ns number))) }
    {
        make_room(&mut self.counts, number)?;
        let so_far = self.counts.as_slice()[number];
        self.counts.set(number, sum(so_far, times));
        Ok(())
    }
}

/// Adds so many times an expression to a form.
#[cycle(weighing)]
fn weigh(forms: &[Form], body: &Plain, times: u32, form: &mut Form) -> Result<(), AllocError>
    ensures { OnOk result (Grows forms.now form.old form.new (λ ms ns. times * value sizes ms [] ns (plain_of body.now))) }
{
    match body {
        Plain::Leaf { .. } => {
            form.add(times);
            Ok(())
        }
        Plain::Absent { .. } => {
            form.add(times);
            Ok(())
        }
        Plain::Param { number } => form.count(*number, times),
        Plain::Wrap { part, .. } => {
            form.add(times);
            weigh(forms, part.get(), times, form)
        }
        Plain::Operate { op, args, .. } => {
            form.add(times);
            if operands(op) == args.len() {
                weigh_all(forms, args.as_slice(), times, form)
            } else {
                Ok(())
            }
        }
        Plain::Use { number, args, .. } => match at(forms, *number) {
            Some(used) => {
                form.add(product(times, used.base));
                weigh_each(forms, used.counts.as_slice(), args.as_slice(), times, form)
            }
            None => {
                form.add(times);
                Ok(())
            }
        },
    }
}

/// Adds so many times each of several expressions to a form.
#[cycle(weighing)]
fn weigh_all(forms: &[Form], args: &[Plain], times: u32, form: &mut Form) -> Result<(), AllocError>
    ensures { OnOk result (Grows forms.now form.old form.new (λ ms ns. times * added (value sizes ms [] ns (plains_of args.now)))) }
{
    for arg in args {
        weigh(forms, arg, times, form)?;
    }
    Ok(())
}

/// Adds so many times what a use has of its arguments to a form.
#[cycle(weighing)]
fn weigh_each(
    forms: &[Form],
    counts: &[u32],
    args: &[Plain],
    times: u32,
    form: &mut Form,
) -> Result<(), AllocError>
    ensures { OnOk result (Grows forms.now form.old form.new
        (λ ms ns. times * weighed counts.now (value sizes ms [] ns (plains_of args.now)))) }
{
    for (place, count) in counts.iter().enumerate() {
        weigh_at(forms, args, place, product(times, *count), form)?;
    }
    Ok(())
}

/// Adds so many times the argument at a place, which may be wanting, to a form.
#[cycle(weighing)]
fn weigh_at(
    forms: &[Form],
    args: &[Plain],
    place: usize,
    times: u32,
    form: &mut Form,
) -> Result<(), AllocError>
    ensures { OnOk result (Grows forms.now form.old form.new
        (λ ms ns. times * value_or 1 (slice_get (value sizes ms [] ns (plains_of args.now)) place))) }
{
    match at(args, place) {
        Some(arg) => {
            if times == 0 {
                return Ok(());
            }
            weigh(forms, arg, times, form)
        }
        None => {
            form.add(times);
            Ok(())
        }
    }
}

/// The form of an expression.
pub fn form_of(alloc: Global, forms: &[Form], body: &Plain) -> Result<Form, AllocError>
    ensures { IfOk result (λ form. (ms : List (Meaning ℕ)) → AreForms forms.now ms → (ns : List ℕ)
        → stopped (value sizes ms [] ns (plain_of body.now)) ≡ stopped (size_at form ns)) }
{
    let mut form = Form {
        base: 0,
        counts: Items::new(alloc),
    };
    weigh(forms, body, 1, &mut form)?;
    Ok(form)
}

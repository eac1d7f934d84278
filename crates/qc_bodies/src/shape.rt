//! What the uses of functions are, and expressions in which no use is a projection or drops an argument.
ghost use Rattle.std.specs.Prelude.{◌≡◌, ℕ, List, [], IfOk, map};
ghost use Rattle.qc_bodies.specs.Trees.{Core, one};
ghost use Rattle.qc_bodies.specs.Meanings.{Meaning, value};
ghost use Rattle.qc_bodies.specs.Nodes.{placed};
ghost use Rattle.qc_bodies.specs.Normals.{at_places, normal_of};
ghost use Rattle.qc_bodies.specs.Plains.{plain_of};
ghost use Rattle.qc_bodies.specs.Shapes.{AreShapes};
ghost use Rattle.qc_bodies.specs.Inner.Reducing.{SameUse, SameValue, SameValues};
ghost use Rattle.qc_bodies.specs.Written.{written};

use crate::normal::Normal;
use crate::plain::Plain;
use qc_words::{Op, Width};
use sqlite_items::{Boxed, Items, at};
use std::alloc::{AllocError, Global};

/// What the use of a function is: one of its arguments, or the use of a function at some of these. `needed` has the
/// arguments that stand, once each, and `chosen` for each parameter by rank which of those it is.
#[derive(Debug, Drop)]
pub enum Shape {
    Argument {
        number: usize,
    },
    Function {
        number: usize,
        needed: Items<usize>,
        chosen: Items<usize>,
    },
}

/// Names types that stand inside an expression, which a function has to do that adds one.
fn name_types(_op: Op, _width: Option<Width>) {}

/// An expression with its uses by the shapes of functions.
#[cycle(normal)]
pub(crate) fn normal(alloc: Global, shapes: &[Shape], body: &Plain) -> Result<Normal, AllocError>
    ensures { IfOk result (λ e. SameValue shapes.now (plain_of body.now) (normal_of e)) }
{
    match body {
        Plain::Leaf { token, leaf, width } => Ok(Normal::Leaf {
            token: *token,
            leaf: *leaf,
            width: *width,
        }),
        Plain::Absent { token } => Ok(Normal::Absent { token: *token }),
        Plain::Param { number } => Ok(Normal::Param { number: *number }),
        Plain::Wrap {
            token,
            wrap,
            width,
            part,
        } => {
            let part = normal(alloc, shapes, part.get())?;
            let part = Boxed::new(alloc, part)?;
            Ok(Normal::Wrap {
                token: *token,
                wrap: *wrap,
                width: *width,
                part,
            })
        }
        Plain::Operate { token, op, args } => {
            let args = normals(alloc, shapes, args.as_slice())?;
            Ok(Normal::Operate {
                token: *token,
                op: *op,
                args,
            })
        }
        Plain::Use {
            token,
            number,
            args,
        } => match at(shapes, *number) {
            None => Ok(Normal::Absent { token: *token }),
            Some(shape) => normal_use(alloc, shapes, shape, *token, args.as_slice()),
        },
    }
}

/// The use of a function of a shape.
#[cycle(normal)]
fn normal_use(
    alloc: Global,
    shapes: &[Shape],
    shape: &Shape,
    token: usize,
    args: &[Plain],
) -> Result<Normal, AllocError>
    ensures { IfOk result (λ e. SameUse shapes.now shape.now (map plain_of args.now) (normal_of e)) }
{
    match shape {
        Shape::Argument { number } => normal_at(alloc, shapes, args, *number),
        Shape::Function {
            number,
            needed,
            chosen,
        } => {
            let args = needed_normals(alloc, shapes, args, needed.as_slice())?;
            let chosen = Items::from_slice(alloc, chosen.as_slice())?;
            Ok(Normal::Use {
                token,
                number: *number,
                args,
                chosen,
            })
        }
    }
}

/// The argument at a place, or one that is absent where it is wanting.
#[cycle(normal)]
fn normal_at(
    alloc: Global,
    shapes: &[Shape],
    args: &[Plain],
    place: usize,
) -> Result<Normal, AllocError>
    ensures { IfOk result (λ e. SameValue shapes.now (placed (map plain_of args.now) place) (normal_of e)) }
{
    match at(args, place) {
        Some(arg) => normal(alloc, shapes, arg),
        None => Ok(Normal::Absent { token: 0 }),
    }
}

/// Several expressions.
#[cycle(normal)]
fn normals(alloc: Global, shapes: &[Shape], bodies: &[Plain]) -> Result<Items<Normal>, AllocError>
    ensures { IfOk result (λ es. SameValues shapes.now (map plain_of bodies.now) (map normal_of es)) }
{
    name_types(Op::Add, None);
    let mut es = Items::new(alloc);
    for body in bodies {
        let e = normal(alloc, shapes, body)?;
        es.push(e)?;
    }
    Ok(es)
}

/// The arguments at these places.
#[cycle(normal)]
fn needed_normals(
    alloc: Global,
    shapes: &[Shape],
    args: &[Plain],
    needed: &[usize],
) -> Result<Items<Normal>, AllocError>
    ensures { IfOk result (λ es. SameValues shapes.now (at_places (map plain_of args.now) needed.now) (map normal_of es)) }
{
    name_types(Op::Add, None);
    let mut es = Items::new(alloc);
    for place in needed {
        let e = normal_at(alloc, shapes, args, *place)?;
        es.push(e)?;
    }
    Ok(es)
}

//! Functions by what their uses are.
ghost use Rattle.std.specs.Prelude.{◌≡◌, ◌++◌, ◌∷◌, [], ℕ, List, IfOk, IfSome, OnOk, length, map};
ghost use Rattle.qc_bodies.specs.Trees.{Core, one};
ghost use Rattle.qc_bodies.specs.Meanings.{Meaning, value};
ghost use Rattle.qc_bodies.specs.Nodes.{placed};
ghost use Rattle.qc_bodies.specs.Normals.{at_places, normal_of};
ghost use Rattle.qc_bodies.specs.Shapes.{IsShape};
ghost use Rattle.qc_bodies.specs.Written.{written};
ghost use Rattle.qc_bodies.specs.Inner.Expanding.{written_functions};
ghost use Rattle.qc_bodies.specs.Inner.Marking.{AreMarks, Each, IsMarked};
ghost use Rattle.qc_bodies.specs.Inner.Reducing.{ComesTo, Stay};

use crate::marks::{Marks, marks_of, rank_of};
use crate::normal::{Normal, Normals, Ranked};
use crate::shape::Shape;
use qc_words::{Op, Width};
use sqlite_items::{Items, at};
use std::alloc::{AllocError, Global};

/// Names types that stand inside an expression, which a function has to do that adds one.
fn name_types(_op: Op, _width: Option<Width>) {}

/// The rank of the parameter that the expression at a place is, if it is one.
fn rank_at(args: &[Normal], place: usize, marks: &Marks) -> Option<usize>
    requires { AreMarks marks.now }
    ensures { IfSome result (λ rank. (own : List (Meaning (Core one))) (es : List (Core one))
        → placed (map (value written own [] es) (map normal_of args.now)) place ≡ placed (at_places es marks.now.used) rank) }
{
    match at(args, place) {
        Some(arg) => match arg {
            Normal::Param { number } => rank_of(marks.ranks.as_slice(), *number),
            _ => None,
        },
        None => None,
    }
}

/// The ranks of the parameters that the expressions at these places are, if all are parameters.
fn ranks_at(
    alloc: Global,
    args: &[Normal],
    chosen: &[usize],
    marks: &Marks,
) -> Result<Option<Items<usize>>, AllocError>
    requires { AreMarks marks.now }
    ensures { IfOk result (λ o. IfSome o (λ ranks. (own : List (Meaning (Core one))) (es : List (Core one))
        → at_places (map (value written own [] es) (map normal_of args.now)) chosen.now
        ≡ at_places (at_places es marks.now.used) ranks)) }
{
    let mut ranks = Items::new(alloc);
    for place in chosen {
        match rank_at(args, *place, marks) {
            Some(rank) => ranks.push(rank)?,
            None => return Ok(None),
        }
    }
    Ok(Some(ranks))
}

/// The shape of an expression that is no more than the use of one of so many functions at parameters.
///
/// One at far more arguments than there are parameters isn't told, since its shape would be longer than its uses.
fn renaming(
    alloc: Global,
    body: &Normal,
    count: usize,
    marks: &Marks,
) -> Result<Option<Shape>, AllocError>
    requires { AreMarks marks.now }
    ensures { IfOk result (λ o. IfSome o (λ shape. (own : List (Meaning (Core one))) (m : Meaning (Core one))
        → count ≡ length own → ComesTo own m (normal_of body.now) → IsShape own shape m)) }
{
    match body {
        Normal::Use {
            token: _,
            number,
            args,
            chosen,
        } => {
            if *number >= count || chosen.len() / 2 > args.len() {
                return Ok(None);
            }
            match ranks_at(alloc, args.as_slice(), chosen.as_slice(), marks)? {
                Some(chosen) => {
                    let needed = Items::from_slice(alloc, marks.used.as_slice())?;
                    Ok(Some(Shape::Function {
                        number: *number,
                        needed,
                        chosen,
                    }))
                }
                None => Ok(None),
            }
        }
        _ => Ok(None),
    }
}

/// So many places in order.
fn in_order(alloc: Global, count: usize) -> Result<Items<usize>, AllocError>
    ensures { IfOk result (λ places. (es : List (Core one)) → length es ≡ count → at_places es places ≡ es) }
{
    let mut places = Items::new(alloc);
    for place in 0..count {
        places.push(place)?;
    }
    Ok(places)
}

/// Adds a function, and gives its shape.
fn keep(
    alloc: Global,
    body: Normal,
    marks: Marks,
    normals: &mut Normals,
) -> Result<Shape, AllocError>
    requires { Each (IsMarked marks) (normal_of body) }
    ensures shape { IfOk result (λ shape. (m : Meaning (Core one)) → ComesTo (written_functions normals.old) m (normal_of body)
        → IsShape (written_functions normals.new) shape m) }
    ensures stay { OnOk result (Stay (written_functions normals.old) (written_functions normals.new)) }
{
    name_types(Op::Add, None);
    let number = normals.functions.len();
    let Marks { ranks, used } = marks;
    let chosen = in_order(alloc, used.len())?;
    normals.functions.push(Ranked { body, ranks })?;
    Ok(Shape::Function {
        number,
        needed: used,
        chosen,
    })
}

/// The shape of a function with something of its own, or that renames one.
fn shape_of_use(alloc: Global, body: Normal, normals: &mut Normals) -> Result<Shape, AllocError>
    ensures shape { IfOk result (λ shape. (m : Meaning (Core one)) → ComesTo (written_functions normals.old) m (normal_of body)
        → IsShape (written_functions normals.new) shape m) }
    ensures stay { OnOk result (Stay (written_functions normals.old) (written_functions normals.new)) }
{
    let marks = marks_of(alloc, &body)?;
    match renaming(alloc, &body, normals.functions.len(), &marks)? {
        Some(shape) => Ok(shape),
        None => keep(alloc, body, marks, normals),
    }
}

/// The shape of a function, which is added unless it is a projection or renames another one.
pub(crate) fn shape_of(
    alloc: Global,
    body: Normal,
    normals: &mut Normals,
) -> Result<Shape, AllocError>
    ensures shape { IfOk result (λ shape. (m : Meaning (Core one)) → ComesTo (written_functions normals.old) m (normal_of body)
        → IsShape (written_functions normals.new) shape m) }
    ensures stay { OnOk result (Stay (written_functions normals.old) (written_functions normals.new)) }
{
    match body {
        Normal::Param { number } => Ok(Shape::Argument { number }),
        body => shape_of_use(alloc, body, normals),
    }
}

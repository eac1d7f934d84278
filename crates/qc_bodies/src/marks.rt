//! The ranks of the parameters that stand in an expression.
ghost use Rattle.std.specs.Prelude.{◌≡◌, ◌↔◌, ◌<◌, ℕ, Some, IfOk, OnOk, length, slice_get};
ghost use Rattle.qc_bodies.specs.Meanings.{joined_option};
ghost use Rattle.qc_bodies.specs.Normals.{normal_of, normals_of};
ghost use Rattle.qc_bodies.specs.Inner.Marking.{AreMarks, Each, IsMarked, Marked};

use crate::normal::Normal;
use sqlite_items::{Items, at};
use std::alloc::{AllocError, Global};

/// The ranks of parameters, in the order in which they were met, and the parameters by rank.
#[derive(Debug, Drop)]
pub(crate) struct Marks {
    pub ranks: Items<Option<usize>>,
    pub used: Items<usize>,
}

/// Makes place for the rank of a parameter.
fn make_room(ranks: &mut Items<Option<usize>>, number: usize) -> Result<(), AllocError>
    ensures room { OnOk result (number < length ranks.new) }
    ensures same { OnOk result ((p r : ℕ) → slice_get ranks.new p ≡ Some (Some r) ↔ (slice_get ranks.old p ≡ Some (Some r))) }
{
    while ranks.len() <= number {
        ranks.push(None)?;
    }
    Ok(())
}

/// The rank of a parameter, if it has one.
pub(crate) fn rank_of(ranks: &[Option<usize>], number: usize) -> Option<usize>
    ensures { result ≡ joined_option (slice_get ranks.now number) }
{
    match at(ranks, number) {
        Some(rank) => *rank,
        None => None,
    }
}

impl Marks {
    /// Gives a parameter a rank, unless it has one.
    fn add(&mut self, number: usize) -> Result<(), AllocError>
        requires { AreMarks self.old }
        ensures { OnOk result (Marked self.old self.new (IsMarked self.new number)) }
    {
        make_room(&mut self.ranks, number)?;
        match rank_of(self.ranks.as_slice(), number) {
            Some(_) => Ok(()),
            None => {
                self.ranks.set(number, Some(self.used.len()));
                self.used.push(number)
            }
        }
    }
}

/// Gives each parameter of an expression a rank.
#[cycle(marking)]
fn mark(body: &Normal, marks: &mut Marks) -> Result<(), AllocError>
    requires { AreMarks marks.old }
    ensures { OnOk result (Marked marks.old marks.new (Each (IsMarked marks.new) (normal_of body.now))) }
{
    match body {
        Normal::Leaf { .. } => Ok(()),
        Normal::Absent { .. } => Ok(()),
        Normal::Param { number } => marks.add(*number),
        Normal::Wrap { part, .. } => mark(part.get(), marks),
        Normal::Operate { args, .. } => mark_all(args.as_slice(), marks),
        Normal::Use { args, .. } => mark_all(args.as_slice(), marks),
    }
}

/// Gives each parameter of several expressions a rank.
#[cycle(marking)]
fn mark_all(bodies: &[Normal], marks: &mut Marks) -> Result<(), AllocError>
    requires { AreMarks marks.old }
    ensures { OnOk result (Marked marks.old marks.new (Each (IsMarked marks.new) (normals_of bodies.now))) }
{
    for body in bodies {
        mark(body, marks)?;
    }
    Ok(())
}

/// The ranks of the parameters of an expression.
pub(crate) fn marks_of(alloc: Global, body: &Normal) -> Result<Marks, AllocError>
    ensures { IfOk result (λ marks. AreMarks marks × Each (IsMarked marks) (normal_of body.now)) }
{
    let mut marks = Marks {
        ranks: Items::new(alloc),
        used: Items::new(alloc),
    };
    mark(body, &mut marks)?;
    Ok(marks)
}

//! What is declared, and its instances.
ghost use Rattle.std.specs.Prelude.{◌≡◌, IsTrue};

use qc_bodies::{Body, Callee};
use sqlite_items::{Items, at};

/// All that a text declares, in order.
#[derive(Debug, Drop)]
pub struct Declared {
    pub bodies: Items<Body>,
}

/// Where an expression stands: it may use so much of what is declared, and its parameters that are functions are these. They
/// get no functions themselves.
#[derive(Debug, Drop)]
pub struct Site<'a> {
    pub level: usize,
    pub given: &'a [Callee],
}

/// What is declared at a number, with what its parameters that are functions stand for. These get no functions themselves.
#[derive(Debug, Drop)]
pub struct Instance {
    pub number: usize,
    pub given: Items<Callee>,
}

/// Whether two functions that are handed on are the same.
fn are_alike(one: &Callee, other: &Callee) -> bool
    ensures { IsTrue result → one.now ≡ other.now }
{
    *one == *other
}

/// Whether two instances are the same one.
pub(crate) fn are_same(one: &Instance, other: &Instance) -> bool
    ensures { IsTrue result → one.now ≡ other.now }
{
    if one.number != other.number || one.given.len() != other.given.len() {
        return false;
    }
    for (index, callee) in one.given.as_slice().iter().enumerate() {
        match at(other.given.as_slice(), index) {
            Some(there) => {
                if !are_alike(callee, there) {
                    return false;
                }
            }
            None => return false,
        }
    }
    true
}

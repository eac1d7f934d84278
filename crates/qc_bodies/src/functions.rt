//! Functions, and expressions that use them, written out.
ghost use Rattle.std.specs.Prelude.{◌≡◌, ◌++◌, ◌∷◌, [], List, IfOk, OnOk};
ghost use Rattle.std.specs.List.{AllZip};
ghost use Rattle.qc_bodies.specs.Trees.{Core, one};
ghost use Rattle.qc_bodies.specs.Meanings.{Meaning, value};
ghost use Rattle.qc_bodies.specs.Nodes.{IsAt, Keeps};
ghost use Rattle.qc_bodies.specs.Plains.{plain_of};
ghost use Rattle.qc_bodies.specs.Written.{written};

use crate::expand;
use crate::nodes::Node;
use crate::normal::Normals;
use crate::plain::Plain;
use crate::reduced::shape_of;
use crate::shape::{Shape, normal};
use sqlite_items::Items;
use std::alloc::{AllocError, Global};

/// Functions in the order in which they were declared: what the use of each is, by those that have something of their own.
///
/// So a function that gives one of its arguments, or that only renames another one, takes no time at its uses, and an
/// argument that is dropped is not written out.
#[derive(Debug, Drop)]
pub struct Functions {
    pub shapes: Items<Shape>,
    pub normals: Normals,
}

impl Functions {
    ghost use Rattle.qc_bodies.specs.Shapes.{AreFunctions};

    /// No functions.
    pub fn new(alloc: Global) -> Functions
        ensures { AreFunctions result [] }
    {
        Functions {
            shapes: Items::new(alloc),
            normals: Normals {
                functions: Items::new(alloc),
            },
        }
    }

    /// Declares a function by its value, which uses those before it.
    pub fn declare(&mut self, alloc: Global, body: &Plain) -> Result<(), AllocError>
        ensures { OnOk result ((ms : List (Meaning (Core one))) → AreFunctions self.old ms → (m : Meaning (Core one))
            → ((es : List (Core one)) → m.value [] es ≡ value written ms [] es (plain_of body.now))
            → AreFunctions self.new (ms ++ m ∷ [])) }
    {
        let body = normal(alloc, self.shapes.as_slice(), body)?;
        let shape = shape_of(alloc, body, &mut self.normals)?;
        self.shapes.push(shape)
    }

    /// Writes an expression out whose parameters are these nodes, and gives the place of its node.
    pub fn write_out(
        &self,
        alloc: Global,
        body: &Plain,
        places: &[usize],
        nodes: &mut Items<Node>,
    ) -> Result<usize, AllocError>
        ensures place { IfOk result (λ place. (ms : List (Meaning (Core one))) → AreFunctions self.now ms
            → (es : List (Core one)) → AllZip (IsAt nodes.old) places.now es
            → IsAt nodes.new place (value written ms [] es (plain_of body.now))) }
        ensures keeps { OnOk result (Keeps nodes.old nodes.new) }
    {
        let body = normal(alloc, self.shapes.as_slice(), body)?;
        expand::write_out(alloc, &self.normals, &body, places, nodes)
    }
}

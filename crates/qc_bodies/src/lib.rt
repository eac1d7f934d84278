//! The bodies of functions, of named effects and of instructions as trees without names, and what they come to.
#![tactic(auto)]

mod act;
mod expand;
mod functions;
mod marks;
mod nodes;
mod normal;
mod plain;
mod reduced;
mod shape;
mod sizes;
mod tree;

pub use act::{Act, Aim, Body, Does, Goal, Target};
pub use functions::Functions;
pub use nodes::Node;
pub use normal::{Normal, Normals, Ranked};
pub use plain::Plain;
pub use shape::Shape;
pub use sizes::{Form, form_of};
pub use tree::{Callee, Leaf, Tree, Wrap};

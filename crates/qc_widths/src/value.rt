//! What expressions come to, where their terms are not too large.
ghost use Rattle.std.specs.Prelude.{◌≡◌, ◌≤◌, IfOk, List, false, nat_eq};
ghost use Rattle.qc_words.specs.Operators.{is_unary as is_unary_operator, result_width_of};
ghost use Rattle.qc_terms.specs.Tree.{tree_of, nodes_of};
ghost use Rattle.qc_facts.specs.declared.faults.WidthFault.{WidthFault as Fault};
ghost use Rattle.qc_widths.specs.Inner.KeptValues.{IsValue};
ghost use Rattle.qc_facts.specs.Faults.{reported};
ghost use Rattle.qc_facts.specs.Values as values;

use crate::terms::copy_term;
use qc_facts::WidthFault;
use qc_names::earlier;
use qc_terms::Term;
use qc_words::{Op, Width};
use std::alloc::{AllocError, Global};

/// The most nodes that a term may have.
pub(crate) const MOST_NODES: u32 = 4096;

/// What an expression comes to. Of a term with more nodes than the limit nothing else is kept.
#[derive(Debug, Drop)]
pub(crate) enum Value {
    Huge,
    Known {
        token: usize,
        term: Term,
        nodes: u32,
        width: Option<Width>,
        sound: bool,
        clash: Option<WidthFault>,
    },
}

impl Value {
    ghost use Rattle.std.specs.Prelude.{◌≡◌, ◌↔◌, IfOk, IsTrue};
    ghost use Rattle.qc_widths.specs.declared.value.Value.TheVariants.{Huge};

    /// Whether the term passed the limit.
    pub(crate) fn is_huge(&self) -> bool
        ensures { IsTrue result ↔ (self.now ≡ Huge) }
    {
        match self {
            Value::Huge => true,
            Value::Known { .. } => false,
        }
    }

    /// A copy of the value.
    pub(crate) fn try_clone(&self, alloc: Global) -> Result<Value, AllocError>
        ensures { IfOk result (λ copy. copy ≡ self.now) }
    {
        match self {
            Value::Huge => Ok(Value::Huge),
            Value::Known {
                token,
                term,
                nodes,
                width,
                sound,
                clash,
            } => {
                let term = copy_term(alloc, term)?;
                Ok(Value::Known {
                    token: *token,
                    term,
                    nodes: *nodes,
                    width: *width,
                    sound: *sound,
                    clash: *clash,
                })
            }
        }
    }
}

/// An expression of one node.
#[tactic(auto, unfolding(crate::specs::Inner::KeptValues::seen))]
pub(crate) fn leaf(token: usize, term: Term, width: Option<Width>) -> Value
    requires { nodes_of (tree_of term) ≡ 1 }
    ensures { IsValue result (values.leaf token term width) }
{
    Value::Known {
        token,
        term,
        nodes: 1,
        width,
        sound: true,
        clash: None,
    }
}

/// An expression in which a fault stands that is reported elsewhere.
#[tactic(auto, unfolding(crate::specs::Inner::KeptValues::seen))]
pub(crate) fn faulty(token: usize) -> Value
    ensures { IsValue result (values.faulty token) }
{
    Value::Known {
        token,
        term: Term::Num {
            value: 0,
            width: Width::ONE,
        },
        nodes: 1,
        width: None,
        sound: false,
        clash: None,
    }
}

/// What a node is built from: its term and the number of the term's nodes, its width where it is sound, what is reported of
/// the clashes in its parts, and its own clash.
#[derive(Drop)]
pub(crate) struct Built {
    pub token: usize,
    pub term: Term,
    pub nodes: u32,
    pub width: Option<Width>,
    pub sound: bool,
    pub inner: Option<WidthFault>,
    pub own: Option<WidthFault>,
}

/// A node over parts, whose term isn't too large.
pub(crate) fn node(built: Built) -> Value
    ensures { (inner own : List Fault) → built.nodes ≡ nodes_of (tree_of built.term) → built.nodes ≤ 4096
        → built.inner ≡ reported inner → built.own ≡ reported own
        → IsValue result (values.node built.token built.term built.width built.sound inner own) }
{
    let Built {
        token,
        term,
        nodes,
        width,
        sound,
        inner,
        own,
    } = built;
    let clash = earlier(inner, own);
    match own {
        None if sound => Value::Known {
            token,
            term,
            nodes,
            width,
            sound,
            clash,
        },
        _ => Value::Known {
            token,
            term,
            nodes,
            width: None,
            sound: false,
            clash,
        },
    }
}

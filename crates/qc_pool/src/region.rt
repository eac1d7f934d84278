ghost use Rattle.std.specs.Prelude.{◌≡◌, ◌<◌, ◌≤◌, [], length, take, slice_get, Some, IfOk, OnOk, OnErr};
ghost use Rattle.qc_terms.specs.Tree.{tree_of, width_of};
ghost use Rattle.qc_equations.specs.Matching.{is_constant};
ghost use Rattle.qc_pool.specs.Entries.{AreApart, IsPut};
ghost use Rattle.qc_pool.specs.Nodes.{NodeFits, term_at, term_of};
ghost use Rattle.qc_pool.specs.Regions.{IsAdded, IsInterned, IsRegion, Keeps};
ghost use Rattle.qc_pool.specs.Widths.{HasWidths};

use crate::node::{Entry, Mark, Node, TermId};
use indexmap::IndexSet;
use qc_terms::Term;
use qc_words::{Width, result_width};
use sqlite_items::Boxed;
use std::alloc::{AllocError, Global};
use std::marker::Model;

/// The number of terms that a new pool has room for.
const FIRST_ROOM: usize = 64;

/// Terms, each of them once, with ids from 0 on: the parts of a term stand before it. Contracts see the list of the
/// terms of its ids.
#[derive(Drop)]
pub struct Pool {
    entries: IndexSet<Entry>,
}

impl Model for Pool {
    ghost use Rattle.std.specs.Prelude.{List};
    ghost use Rattle.std.specs.Coded.{coded_list};
    ghost use Rattle.qc_terms.specs.Tree.{Tree};
    ghost use Rattle.qc_pool.specs.Code.{tree_code};

    ghost Value = { List Tree };

    ghost coded = { coded_list tree_code };

    ghost use Rattle.qc_pool.specs.Entries.{AreEntries, terms_of};

    ghost view = { λ p. terms_of p.entries.keys };

    ghost invariant = { λ p. AreEntries p.entries.keys };
}

/// Puts an entry into the set.
fn put(
    entries: &mut IndexSet<Entry>,
    node: Node,
    width: Width,
    constant: bool,
) -> Result<TermId, AllocError>
    ensures put { IfOk result (λ id. IsPut entries.old.keys entries.new.keys (record { node = node; width = width; constant = constant }) id) }
    ensures refused { OnErr result (entries.new.keys ≡ entries.old.keys) }
    ensures apart { AreApart entries.new.keys }
{
    let entry = Entry {
        node,
        width,
        constant,
    };
    match entries.insert_full(entry) {
        Ok((id, _)) => Ok(TermId(id)),
        Err(_) => Err(AllocError),
    }
}

/// The entry at a place of the set.
fn entry(entries: &IndexSet<Entry>, id: TermId) -> &Entry
    requires { id < length entries.now.keys }
    ensures { slice_get entries.now.keys id ≡ Some result.now }
{
    &entries.as_slice()[id.0]
}

impl Pool {
    /// A pool without terms.
    pub fn new(alloc: Global) -> Result<Pool, AllocError>
        ensures { IfOk result (λ p. p ≡ []) }
    {
        let entries = IndexSet::with_capacity(alloc, FIRST_ROOM)?;
        Ok(Pool { entries })
    }

    /// The number of terms.
    pub fn len(&self) -> usize
        ensures len { result ≡ length self.now }
        ensures region { IsRegion self.now }
    {
        self.entries.len()
    }

    /// The place in time at which the pool has the terms that it has.
    pub fn mark(&self) -> Mark
        ensures { result ≡ length self.now }
    {
        Mark(self.len())
    }

    /// The root of a term, over terms before it.
    pub fn node(&self, id: TermId) -> Node
        requires { id < length self.now }
        ensures term { term_of self.now result ≡ term_at self.now id }
        ensures before { NodeFits (take id self.now) result }
    {
        entry(&self.entries, id).node
    }

    /// The width of a term.
    pub fn width(&self, id: TermId) -> Width
        requires { id < length self.now }
        ensures width { result ≡ width_of (term_at self.now id) }
        ensures fits { HasWidths (term_at self.now id) }
    {
        entry(&self.entries, id).width
    }

    /// Whether a term has numbers, immediates and operators alone, and so reads nothing.
    pub fn is_constant(&self, id: TermId) -> bool
        requires { id < length self.now }
        ensures { result ≡ is_constant (term_at self.now id) }
    {
        entry(&self.entries, id).constant
    }

    /// The width of a node's term.
    fn width_of_node(&self, node: &Node) -> Width
        requires { NodeFits self.now node.now }
        ensures { result ≡ width_of (term_of self.now node.now) }
    {
        match node {
            Node::Num { width, .. }
            | Node::Reg { width, .. }
            | Node::Imm { width, .. }
            | Node::Mem { width, .. }
            | Node::Input { width }
            | Node::After { width } => *width,
            Node::Un { op, arg } => result_width(*op, self.width(*arg)),
            Node::Bin { op, left, .. } => result_width(*op, self.width(*left)),
        }
    }

    /// Whether a node's term reads nothing.
    fn is_constant_node(&self, node: &Node) -> bool
        requires { NodeFits self.now node.now }
        ensures { result ≡ is_constant (term_of self.now node.now) }
    {
        match node {
            Node::Num { .. } | Node::Imm { .. } => true,
            Node::Un { arg, .. } => self.is_constant(*arg),
            Node::Bin { left, right, .. } => self.is_constant(*left) && self.is_constant(*right),
            Node::Reg { .. } | Node::Mem { .. } | Node::Input { .. } | Node::After { .. } => false,
        }
    }

    /// The id of a node's term, which is added where it isn't there. Where memory is refused nothing changes.
    pub fn add(&mut self, node: Node) -> Result<TermId, AllocError>
        requires { NodeFits self.old node }
        ensures added { IfOk result (λ id. IsAdded self.old self.new (term_of self.old node) id) }
        ensures refused { OnErr result (self.new ≡ self.old) }
    {
        let width = self.width_of_node(&node);
        let constant = self.is_constant_node(&node);
        put(&mut self.entries, node, width, constant)
    }

    /// The term of an id, apart from the pool.
    pub fn tree(&self, alloc: Global, id: TermId) -> Result<Term, AllocError>
        requires { id < length self.now }
        ensures { IfOk result (λ t. tree_of t ≡ term_at self.now id) }
    {
        match &self.node(id) {
            Node::Num { value, width } => Ok(Term::Num {
                value: *value,
                width: *width,
            }),
            Node::Un { op, arg } => {
                let arg = Boxed::new(alloc, self.tree(alloc, *arg)?)?;
                Ok(Term::Un { op: *op, arg })
            }
            Node::Bin { op, left, right } => {
                let left = Boxed::new(alloc, self.tree(alloc, *left)?)?;
                let right = Boxed::new(alloc, self.tree(alloc, *right)?)?;
                Ok(Term::Bin {
                    op: *op,
                    left,
                    right,
                })
            }
            Node::Reg { place, width } => Ok(Term::Reg {
                place: *place,
                width: *width,
            }),
            Node::Imm { operand, width } => Ok(Term::Imm {
                operand: *operand,
                width: *width,
            }),
            Node::Mem { width, address } => {
                let address = Boxed::new(alloc, self.tree(alloc, *address)?)?;
                Ok(Term::Mem {
                    width: *width,
                    address,
                })
            }
            Node::Input { width } => Ok(Term::Input { width: *width }),
            Node::After { width } => Ok(Term::After { width: *width }),
        }
    }

    /// The id of a term, whose parts are added first. Where memory is refused some of the parts stay.
    fn intern_parts(&mut self, term: &Term) -> Result<TermId, AllocError>
        requires { HasWidths (tree_of term.now) }
        ensures interned { IfOk result (λ id. IsInterned self.old self.new (tree_of term.now) id) }
        ensures refused { OnErr result (Keeps self.old self.new) }
    {
        match term {
            Term::Num { value, width } => self.add(Node::Num {
                value: *value,
                width: *width,
            }),
            Term::Un { op, arg } => {
                let arg = self.intern_parts(arg.get())?;
                self.add(Node::Un { op: *op, arg })
            }
            Term::Bin { op, left, right } => {
                let left = self.intern_parts(left.get())?;
                let right = self.intern_parts(right.get())?;
                self.add(Node::Bin {
                    op: *op,
                    left,
                    right,
                })
            }
            Term::Reg { place, width } => self.add(Node::Reg {
                place: *place,
                width: *width,
            }),
            Term::Imm { operand, width } => self.add(Node::Imm {
                operand: *operand,
                width: *width,
            }),
            Term::Mem { width, address } => {
                let address = self.intern_parts(address.get())?;
                self.add(Node::Mem {
                    width: *width,
                    address,
                })
            }
            Term::Input { width } => self.add(Node::Input { width: *width }),
            Term::After { width } => self.add(Node::After { width: *width }),
        }
    }

    /// The id of a term. The parts of it that aren't there are added, and it last. Where memory is refused nothing
    /// changes.
    pub fn intern(&mut self, term: &Term) -> Result<TermId, AllocError>
        requires { HasWidths (tree_of term.now) }
        ensures interned { IfOk result (λ id. IsInterned self.old self.new (tree_of term.now) id) }
        ensures refused { OnErr result (self.new ≡ self.old) }
    {
        let mark = self.mark();
        match self.intern_parts(term) {
            Ok(id) => Ok(id),
            Err(refused) => {
                self.release(mark);
                Err(refused)
            }
        }
    }

    /// Takes out the terms that came after the mark.
    pub fn release(&mut self, mark: Mark)
        requires { mark ≤ length self.old }
        ensures { self.new ≡ take mark self.old }
    {
        self.entries.truncate(mark.0);
    }
}

//! Instances, each made once after those that it uses, and expressions written out by them.
ghost use Rattle.std.specs.Prelude.{◌≡◌, ◌≤◌, ◌+◌, ◌*◌, ℕ, List, [], IfOk, OnOk, length, slice_get};
ghost use Rattle.std.specs.List.{AllZip};
ghost use Rattle.qc_bodies.specs.Law.Acts as acts;
ghost use Rattle.qc_bodies.specs.Meanings.{meanings, value_or};
ghost use Rattle.qc_bodies.specs.Nodes.{IsAt, Keeps};
ghost use Rattle.qc_bodies.specs.Plains.{plain_of};
ghost use Rattle.qc_bodies.specs.Sizes.{size_at, sizes, stopped};
ghost use Rattle.qc_bodies.specs.Trees.{Core, one, core_of};
ghost use Rattle.qc_bodies.specs.Written.{written};
ghost use Rattle.qc_instances.specs.Instances.{AreInstances, bodies_of, valued_at};
ghost use Rattle.qc_instances.specs.Inner.Closing.{IsBodyOf, IsClosed};

use crate::closing::{Place, Work, plain_in};
use crate::instance::{Declared, Instance, Site};
use crate::table::Table;
use qc_bodies::{Body, Form, Functions, Node, Plain, Tree, form_of};
use qc_words::{Op, Width};
use sqlite_items::{Items, at};
use std::alloc::{AllocError, Global};

/// How many nodes of what is declared may be looked at. Each instance is looked at twice at most, so there is room for
/// instances of 4,194,304 nodes together.
const LOOKS: usize = 8_388_608;

/// How often an instance that is wanted may be taken up, which is more than there are looks.
const STEPS: usize = 33_554_432;

/// One more than the nodes that a register transfer list may have.
const STOP: u32 = 4097;

/// Instances in the order in which they were made, each with what its use is and with its size.
///
/// One is made when an expression first uses it, after those that its body uses, which wait on a list and not on the native
/// stack: so a chain of functions may be of any length.
#[derive(Debug, Drop)]
pub struct Instances {
    pub table: Table,
    pub functions: Functions,
    pub forms: Items<Form>,
    left: usize,
}

/// The body of an instance.
fn body_in(
    alloc: Global,
    declared: &Declared,
    table: &Table,
    instance: &Instance,
    work: &mut Work,
) -> Result<Plain, AllocError>
    ensures { IfOk result (λ p. length work.new.wanted ≡ 0
        → IsBodyOf (bodies_of declared.now) table.now.made instance.now (plain_of p)) }
{
    match at(declared.bodies.as_slice(), instance.number) {
        Some(Body::Function { value }) => {
            let place = Place {
                table,
                count: declared.bodies.len(),
                level: instance.number,
                given: instance.given.as_slice(),
            };
            plain_in(alloc, &place, value, work)
        }
        Some(Body::Effects { .. }) => Ok(Plain::Absent { token: 0 }),
        None => Ok(Plain::Absent { token: 0 }),
    }
}

/// An expression that may use so much of what is declared, and that got these functions.
fn whole_in(
    alloc: Global,
    declared: &Declared,
    table: &Table,
    site: &Site<'_>,
    tree: &Tree,
    work: &mut Work,
) -> Result<Plain, AllocError>
    requires { site.now.level ≤ length declared.now.bodies }
    ensures { IfOk result (λ p. length work.new.wanted ≡ 0
        → IsClosed (bodies_of declared.now) table.now.made site.now (core_of tree.now) (plain_of p)) }
{
    let place = Place {
        table,
        count: declared.bodies.len(),
        level: site.level,
        given: site.given,
    };
    plain_in(alloc, &place, tree, work)
}

/// Names types that stand inside an instance, which a function has to do that adds one.
fn name_types(_op: Op, _width: Option<Width>) {}

/// A sum, up to the stop.
fn sum(a: u32, b: u32) -> u32
    ensures { result ≡ stopped (a + b) }
{
    a.saturating_add(b).min(STOP)
}

/// A product, up to the stop.
fn product(a: u32, b: u32) -> u32
    ensures { result ≡ stopped (a * b) }
{
    a.saturating_mul(b).min(STOP)
}

/// The size at a place, where an argument that is wanting is one node.
fn size_or_one(sizes: &[u32], place: usize) -> u32
    ensures { result ≡ value_or 1 (slice_get sizes.now place) }
{
    match at(sizes, place) {
        Some(size) => *size,
        None => 1,
    }
}

#[tactic(auto, using(crate::proofs::Lists::weighed_more, crate::proofs::Lists::stopped_more))]
/// The size of an expression whose parameters stand for expressions of these sizes.
fn size_with(form: &Form, sizes: &[u32]) -> u32
    ensures { result ≡ stopped (size_at form.now sizes.now) }
{
    let mut size = form.base.min(STOP);
    for (place, count) in form.counts.as_slice().iter().enumerate() {
        size = sum(size, product(*count, size_or_one(sizes, place)));
    }
    size
}

impl Instances {
    /// No instances.
    pub fn new(alloc: Global) -> Result<Instances, AllocError>
        ensures { IfOk result (λ instances. (bodies : List acts.Body) → AreInstances bodies instances) }
    {
        Ok(Instances {
            table: Table::new(alloc)?,
            functions: Functions::new(alloc),
            forms: Items::new(alloc),
            left: LOOKS,
        })
    }

    /// Adds an instance by its body.
    fn add(&mut self, alloc: Global, instance: Instance, body: &Plain) -> Result<(), AllocError>
        ensures { OnOk result ((bodies : List acts.Body) → AreInstances bodies self.old
            → IsBodyOf bodies self.old.table.made instance (plain_of body.now) → AreInstances bodies self.new) }
    {
        self.functions.declare(alloc, body)?;
        let form = form_of(alloc, self.forms.as_slice(), body)?;
        self.forms.push(form)?;
        self.table.add(instance)
    }

    /// Makes an instance, unless it is made, or asks for those that its body uses before it.
    fn make(
        &mut self,
        alloc: Global,
        declared: &Declared,
        instance: Instance,
        waiting: &mut Items<Instance>,
    ) -> Result<(), AllocError>
        requires { AreInstances (bodies_of declared.now) self.old }
        ensures { OnOk result (AreInstances (bodies_of declared.now) self.new) }
    {
        name_types(Op::Add, None);
        if self.table.find(&instance).is_some() {
            return Ok(());
        }
        let mut work = Work {
            wanted: Items::new(alloc),
            left: self.left,
        };
        let body = body_in(alloc, declared, &self.table, &instance, &mut work)?;
        let Work { wanted, left } = work;
        self.left = left;
        if wanted.len() == 0 {
            return self.add(alloc, instance, &body);
        }
        waiting.push(instance)?;
        waiting.append(wanted)
    }

    /// Makes instances, and those before them.
    fn make_all(
        &mut self,
        alloc: Global,
        declared: &Declared,
        wanted: Items<Instance>,
    ) -> Result<(), AllocError>
        requires { AreInstances (bodies_of declared.now) self.old }
        ensures { OnOk result (AreInstances (bodies_of declared.now) self.new) }
    {
        let mut waiting = wanted;
        for _step in 0..STEPS {
            match waiting.pop() {
                Some(instance) => self.make(alloc, declared, instance, &mut waiting)?,
                None => return Ok(()),
            }
        }
        Err(AllocError)
    }

    /// An expression by instances, which are made first where they are wanting.
    fn plain(
        &mut self,
        alloc: Global,
        declared: &Declared,
        site: &Site<'_>,
        tree: &Tree,
    ) -> Result<Plain, AllocError>
        requires are { AreInstances (bodies_of declared.now) self.old }
        requires level { site.now.level ≤ length declared.now.bodies }
        ensures plain { IfOk result (λ p. IsClosed (bodies_of declared.now) self.new.table.made site.now (core_of tree.now) (plain_of p)) }
        ensures are { OnOk result (AreInstances (bodies_of declared.now) self.new) }
    {
        for _attempt in 0..2 {
            let mut work = Work {
                wanted: Items::new(alloc),
                left: self.left,
            };
            let plain = whole_in(alloc, declared, &self.table, site, tree, &mut work)?;
            let Work { wanted, left } = work;
            self.left = left;
            if wanted.len() == 0 {
                return Ok(plain);
            }
            self.make_all(alloc, declared, wanted)?;
        }
        Err(AllocError)
    }

    /// How many nodes an expression has where it is written out, whose parameters stand for expressions of these sizes: all
    /// numbers from 4,097 on are told as 4,097.
    ///
    /// It is told before anything is written out, from what each instance was found to have of its arguments.
    pub fn size_of(
        &mut self,
        alloc: Global,
        declared: &Declared,
        site: &Site<'_>,
        tree: &Tree,
        params: &[u32],
    ) -> Result<u32, AllocError>
        requires are { AreInstances (bodies_of declared.now) self.old }
        requires level { site.now.level ≤ length declared.now.bodies }
        ensures size { IfOk result (λ n. n
            ≡ stopped (valued_at sizes (meanings sizes (bodies_of declared.now)) site.now params.now (core_of tree.now))) }
        ensures are { OnOk result (AreInstances (bodies_of declared.now) self.new) }
    {
        let plain = self.plain(alloc, declared, site, tree)?;
        let form = form_of(alloc, self.forms.as_slice(), &plain)?;
        Ok(size_with(&form, params))
    }

    /// Writes an expression out whose parameters are these nodes, and gives the place of its node.
    ///
    /// One that takes more than 16,777,216 steps is answered with want of memory, so its size is to be asked for first.
    pub fn write_out(
        &mut self,
        alloc: Global,
        declared: &Declared,
        site: &Site<'_>,
        tree: &Tree,
        places: &[usize],
        nodes: &mut Items<Node>,
    ) -> Result<usize, AllocError>
        requires are { AreInstances (bodies_of declared.now) self.old }
        requires level { site.now.level ≤ length declared.now.bodies }
        ensures place { IfOk result (λ place. (es : List (Core one)) → AllZip (IsAt nodes.old) places.now es
            → IsAt nodes.new place (valued_at written (meanings written (bodies_of declared.now)) site.now es (core_of tree.now))) }
        ensures keeps { OnOk result (Keeps nodes.old nodes.new) }
        ensures are { OnOk result (AreInstances (bodies_of declared.now) self.new) }
    {
        let plain = self.plain(alloc, declared, site, tree)?;
        self.functions.write_out(alloc, &plain, places, nodes)
    }
}

//! Expressions written out: what they come to, as nodes that share their parts.
ghost use Rattle.std.specs.Prelude.{◌≡◌, ◌<◌, ◌-◌, ◌++◌, ◌∷◌, ℕ, List, [], Some, IfOk, OnOk, drop, length, map, take, slice_get};
ghost use Rattle.std.specs.List.{AllZip};
ghost use Rattle.std.specs.Option.{option_copied};
ghost use Rattle.qc_bodies.specs.Trees as core;
ghost use Rattle.qc_bodies.specs.Trees.{Core, one};
ghost use Rattle.qc_bodies.specs.Meanings.{operated, value};
ghost use Rattle.qc_bodies.specs.Written.{written};
ghost use Rattle.qc_bodies.specs.Normals.{normal_of, at_places};
ghost use Rattle.qc_bodies.specs.Nodes.{IsAt, Keeps, node_over, placed, written_in};
ghost use Rattle.qc_bodies.specs.Inner.Expanding.{Found, GoesOn, LeadsTo, Parameters, written_functions};
ghost use Rattle.qc_bodies.specs.declared.expand.Task.TheVariants as tasks;

use crate::nodes::{Node, add};
use crate::normal::{Normal, Normals, Ranked};
use crate::sizes::operands;
use crate::tree::Wrap;
use qc_words::{Op, Width};
use sqlite_items::{Items, at};
use std::alloc::{AllocError, Global};

/// How many tasks may be taken up for one expression, which is far more than one of 4,096 nodes has.
const STEPS: usize = 16_777_216;

/// Where an expression is written out: the functions of which it may use so many, and the ranks of its parameters, with the
/// nodes that these are.
#[derive(Drop)]
struct Scope<'a> {
    level: usize,
    ranks: &'a [Option<usize>],
    places: Items<usize>,
}

/// What is still to be done: to write out an expression, or all from one on, in the scope of a number; or to make a node, or
/// to go into a function, from so many places that were found last.
#[derive(Drop)]
enum Task<'a> {
    One {
        scope: usize,
        body: &'a Normal,
    },
    All {
        scope: usize,
        bodies: &'a [Normal],
        next: usize,
    },
    Wrap {
        token: usize,
        wrap: Wrap,
        width: Option<Width>,
    },
    Operate {
        token: usize,
        op: Op,
        count: usize,
    },
    Enter {
        number: usize,
        function: &'a Ranked,
        chosen: &'a [usize],
        count: usize,
    },
}

/// Expressions that are being written out. The tasks, of which the last comes first, stand in for the native stack, so it
/// does not grow with the depth of an expression.
#[derive(Drop)]
struct Writer<'a> {
    normals: &'a Normals,
    scopes: Items<Scope<'a>>,
    todo: Items<Task<'a>>,
    done: Vec<usize>,
}

/// A function of which one at the level may use those before it.
fn function(normals: &Normals, level: usize, number: usize) -> Option<&Ranked>
    ensures { option_copied result ≡ slice_get (take level normals.now.functions) number }
{
    if number < level {
        at(normals.functions.as_slice(), number)
    } else {
        None
    }
}

/// The node that a parameter is.
fn parameter(scope: &Scope<'_>, number: usize) -> Option<usize>
    ensures { result ≡ Parameters scope.now.ranks.now scope.now.places number }
{
    match at(scope.ranks, number) {
        Some(Some(rank)) => at(scope.places.as_slice(), *rank).copied(),
        _ => None,
    }
}

/// Adds an operator at these nodes, of which it may want another number.
fn operate(
    nodes: &mut Items<Node>,
    token: usize,
    op: Op,
    args: &[usize],
) -> Result<usize, AllocError>
    ensures place { (es : List (Core one)) → AllZip (IsAt nodes.old) args.now es
        → IfOk result (λ place. IsAt nodes.new place (operated written token op es)) }
    ensures keeps { OnOk result (Keeps nodes.old nodes.new) }
{
    let wanted = operands(&op);
    if wanted != args.len() {
        return add(nodes, Node::Absent { token });
    }
    if wanted == 1 {
        let arg = args[0];
        add(nodes, Node::Unary { token, op, arg })
    } else {
        let (left, right) = (args[0], args[1]);
        add(
            nodes,
            Node::Binary {
                token,
                op,
                left,
                right,
            },
        )
    }
}

#[tactic(auto, using(crate::proofs::Placed::argument_at, crate::proofs::Placed::no_argument_at))]
/// The node at a place among arguments, or one that is absent where it is wanting.
fn argument(nodes: &mut Items<Node>, args: &[usize], place: usize) -> Result<usize, AllocError>
    ensures place { (es : List (Core one)) → AllZip (IsAt nodes.old) args.now es
        → IfOk result (λ node. IsAt nodes.new node (placed es place)) }
    ensures keeps { OnOk result (Keeps nodes.old nodes.new) }
{
    match at(args, place) {
        Some(node) => Ok(*node),
        None => add(nodes, Node::Absent { token: 0 }),
    }
}

/// The nodes at these places among arguments, with one that is absent for each that is wanting.
fn choose(
    alloc: Global,
    nodes: &mut Items<Node>,
    args: &[usize],
    chosen: &[usize],
) -> Result<Items<usize>, AllocError>
    ensures places { (es : List (Core one)) → AllZip (IsAt nodes.old) args.now es
        → IfOk result (λ places. AllZip (IsAt nodes.new) places (at_places es chosen.now)) }
    ensures keeps { OnOk result (Keeps nodes.old nodes.new) }
{
    let mut places = Items::new(alloc);
    for place in chosen {
        let node = argument(nodes, args, *place)?;
        places.push(node)?;
    }
    Ok(places)
}

/// The rank of each parameter, which is the parameter itself.
fn own_ranks(alloc: Global, count: usize) -> Result<Items<Option<usize>>, AllocError>
    ensures count { IfOk result (λ ranks. length ranks ≡ count) }
    ensures own { IfOk result (λ ranks. (n : ℕ) → n < length ranks → slice_get ranks n ≡ Some (Some n)) }
{
    let mut ranks = Items::new(alloc);
    for number in 0..count {
        ranks.push(Some(number))?;
    }
    Ok(ranks)
}

/// Takes so many places from the end.
fn take_last(places: &mut Vec<usize>, count: usize) -> Result<Vec<usize>, AllocError>
    ensures last { IfOk result (λ last. last.items ≡ drop (length places.old.items - count) places.old.items) }
    ensures rest { OnOk result (places.new.items ≡ take (length places.old.items - count) places.old.items) }
{
    let base = places.len().saturating_sub(count);
    places.split_off(base)
}

/// The place that was found last.
fn last_of(done: &mut Vec<usize>) -> Result<usize, AllocError>
    ensures { IfOk result (λ place. done.old.items ≡ done.new.items ++ place ∷ []) }
{
    match done.pop() {
        Some(place) => Ok(place),
        None => Err(AllocError),
    }
}

/// Adds a place to those that were found.
fn put(done: &mut Vec<usize>, place: usize) -> Result<(), AllocError>
    ensures { OnOk result (done.new.items ≡ done.old.items ++ place ∷ []) }
{
    done.push(place)?;
    Ok(())
}

/// Adds a node, and its place to those that were found.
fn add_found(nodes: &mut Items<Node>, done: &mut Vec<usize>, node: Node) -> Result<(), AllocError>
    ensures found { OnOk result (Found nodes.new done.old.items done.new.items (node_over (written_in nodes.old) node)) }
    ensures keeps { OnOk result (Keeps nodes.old nodes.new) }
{
    let place = add(nodes, node)?;
    put(done, place)
}

/// Adds a node over the places that were found last, and its place to those that are left.
fn add_over(
    nodes: &mut Items<Node>,
    done: &mut Vec<usize>,
    wrap: Wrap,
    token: usize,
    width: Option<Width>,
) -> Result<(), AllocError>
    ensures found { OnOk result ((us ps : List (Core one)) → AllZip (IsAt nodes.old) done.old.items (us ++ ps) → length ps ≡ 1
        → AllZip (IsAt nodes.new) done.new.items (us ++ core.Wrap token wrap width (placed ps 0) ∷ [])) }
    ensures keeps { OnOk result (Keeps nodes.old nodes.new) }
{
    let args = take_last(done, 1)?;
    let part = argument(nodes, args.as_slice(), 0)?;
    let place = add(
        nodes,
        Node::Wrap {
            token,
            wrap,
            width,
            part,
        },
    )?;
    put(done, place)
}

/// Adds an operator over so many places that were found last, and its place to those that are left.
fn operate_over(
    nodes: &mut Items<Node>,
    done: &mut Vec<usize>,
    token: usize,
    op: Op,
    count: usize,
) -> Result<(), AllocError>
    ensures found { OnOk result ((us ps : List (Core one)) → AllZip (IsAt nodes.old) done.old.items (us ++ ps) → length ps ≡ count
        → AllZip (IsAt nodes.new) done.new.items (us ++ operated written token op ps ∷ [])) }
    ensures keeps { OnOk result (Keeps nodes.old nodes.new) }
{
    let args = take_last(done, count)?;
    let place = operate(nodes, token, op, args.as_slice())?;
    put(done, place)
}

/// The places of arguments among so many that were found last.
fn choose_over(
    alloc: Global,
    nodes: &mut Items<Node>,
    done: &mut Vec<usize>,
    chosen: &[usize],
    count: usize,
) -> Result<Items<usize>, AllocError>
    ensures places { IfOk result (λ places. (us ps : List (Core one)) → AllZip (IsAt nodes.old) done.old.items (us ++ ps) → length ps ≡ count
        → AllZip (IsAt nodes.new) done.new.items us × AllZip (IsAt nodes.new) places (at_places ps chosen.now)) }
    ensures keeps { OnOk result (Keeps nodes.old nodes.new) }
{
    let args = take_last(done, count)?;
    choose(alloc, nodes, args.as_slice(), chosen)
}

impl<'a> Writer<'a> {
    /// Writes out one expression, or leaves it to tasks.
    fn one(
        &mut self,
        scope: usize,
        body: &'a Normal,
        nodes: &mut Items<Node>,
    ) -> Result<(), AllocError>
        ensures leads { OnOk result (GoesOn self.old (tasks.One scope body.entry) nodes.old self.new nodes.new) }
        ensures keeps { OnOk result (Keeps nodes.old nodes.new) }
    {
        let Some(inside) = at(self.scopes.as_slice(), scope) else {
            return Ok(());
        };
        match body {
            Normal::Leaf { token, leaf, width } => add_found(
                nodes,
                &mut self.done,
                Node::Leaf {
                    token: *token,
                    leaf: *leaf,
                    width: *width,
                },
            ),
            Normal::Absent { token } => {
                add_found(nodes, &mut self.done, Node::Absent { token: *token })
            }
            Normal::Param { number } => match parameter(inside, *number) {
                Some(place) => put(&mut self.done, place),
                None => add_found(nodes, &mut self.done, Node::Absent { token: 0 }),
            },
            Normal::Wrap {
                token,
                wrap,
                width,
                part,
            } => {
                self.todo.push(Task::Wrap {
                    token: *token,
                    wrap: *wrap,
                    width: *width,
                })?;
                self.todo.push(Task::One {
                    scope,
                    body: part.get(),
                })
            }
            Normal::Operate { token, op, args } => {
                self.todo.push(Task::Operate {
                    token: *token,
                    op: *op,
                    count: args.len(),
                })?;
                self.todo.push(Task::All {
                    scope,
                    bodies: args.as_slice(),
                    next: 0,
                })
            }
            Normal::Use {
                token,
                number,
                args,
                chosen,
            } => match function(self.normals, inside.level, *number) {
                Some(function) => {
                    self.todo.push(Task::Enter {
                        number: *number,
                        function,
                        chosen: chosen.as_slice(),
                        count: args.len(),
                    })?;
                    self.todo.push(Task::All {
                        scope,
                        bodies: args.as_slice(),
                        next: 0,
                    })
                }
                None => add_found(nodes, &mut self.done, Node::Absent { token: *token }),
            },
        }
    }

    /// Writes out all expressions from one on.
    fn all(
        &mut self,
        scope: usize,
        bodies: &'a [Normal],
        next: usize,
        nodes: &Items<Node>,
    ) -> Result<(), AllocError>
        ensures { OnOk result (GoesOn self.old (tasks.All scope bodies.entry next) nodes.now self.new nodes.now) }
    {
        match at(bodies, next) {
            Some(body) => {
                self.todo.push(Task::All {
                    scope,
                    bodies,
                    next: next + 1,
                })?;
                self.todo.push(Task::One { scope, body })
            }
            None => Ok(()),
        }
    }

    /// Goes into a function, with arguments among so many places that were found last.
    fn enter(
        &mut self,
        alloc: Global,
        number: usize,
        function: &'a Ranked,
        chosen: &'a [usize],
        count: usize,
        nodes: &mut Items<Node>,
    ) -> Result<(), AllocError>
        ensures leads { OnOk result (GoesOn self.old (tasks.Enter number function.entry chosen.entry count) nodes.old self.new nodes.new) }
        ensures keeps { OnOk result (Keeps nodes.old nodes.new) }
    {
        let places = choose_over(alloc, nodes, &mut self.done, chosen, count)?;
        let scope = self.scopes.len();
        self.scopes.push(Scope {
            level: number,
            ranks: function.ranks.as_slice(),
            places,
        })?;
        self.todo.push(Task::One {
            scope,
            body: &function.body,
        })
    }

    /// Does a task.
    fn step(
        &mut self,
        alloc: Global,
        task: &Task<'a>,
        nodes: &mut Items<Node>,
    ) -> Result<(), AllocError>
        ensures leads { OnOk result (GoesOn self.old task.now nodes.old self.new nodes.new) }
        ensures keeps { OnOk result (Keeps nodes.old nodes.new) }
    {
        match task {
            Task::One { scope, body } => self.one(*scope, *body, nodes),
            Task::All {
                scope,
                bodies,
                next,
            } => self.all(*scope, *bodies, *next, nodes),
            Task::Wrap { token, wrap, width } => {
                add_over(nodes, &mut self.done, *wrap, *token, *width)
            }
            Task::Operate { token, op, count } => {
                operate_over(nodes, &mut self.done, *token, *op, *count)
            }
            Task::Enter {
                number,
                function,
                chosen,
                count,
            } => self.enter(alloc, *number, *function, *chosen, *count, nodes),
        }
    }

    /// Does all tasks, and gives the place of what was written out.
    fn run(&mut self, alloc: Global, nodes: &mut Items<Node>) -> Result<usize, AllocError>
        ensures place { IfOk result (λ place. (e : Core one) → LeadsTo self.old nodes.old e → IsAt nodes.new place e) }
        ensures keeps { OnOk result (Keeps nodes.old nodes.new) }
    {
        for _step in 0..STEPS {
            match self.todo.pop() {
                Some(task) => self.step(alloc, &task, nodes)?,
                None => return last_of(&mut self.done),
            }
        }
        Err(AllocError)
    }
}

/// Writes an expression out whose parameters are these nodes, and gives the place of its node.
pub(crate) fn write_out(
    alloc: Global,
    normals: &Normals,
    body: &Normal,
    places: &[usize],
    nodes: &mut Items<Node>,
) -> Result<usize, AllocError>
    ensures place { IfOk result (λ place. (es : List (Core one)) → AllZip (IsAt nodes.old) places.now es
        → IsAt nodes.new place (value written (written_functions normals.now) [] es (normal_of body.now))) }
    ensures keeps { OnOk result (Keeps nodes.old nodes.new) }
{
    let ranks = own_ranks(alloc, places.len())?;
    let mut writer = Writer {
        normals,
        scopes: Items::new(alloc),
        todo: Items::new(alloc),
        done: Vec::new(alloc),
    };
    let places = Items::from_slice(alloc, places)?;
    writer.scopes.push(Scope {
        level: normals.functions.len(),
        ranks: ranks.as_slice(),
        places,
    })?;
    writer.todo.push(Task::One { scope: 0, body })?;
    writer.run(alloc, nodes)
}

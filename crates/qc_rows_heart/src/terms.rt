//! Terms in a pool by their texts.
//!
//! A text has the operands before their operator. `a`, `b` and `c` are registers of 32 bits and `bit` is one of 1 bit,
//! `k` is an immediate operand of 32 bits, `input` the next word of the input. A number is written with its width, as
//! `5'32`, and a width of an operator, or the first bit of a slice, stands before it, as in `a 0 8 slice`
//! or `a 8 load`.

ghost use Rattle.std.specs.Prelude.{◌≡◌, ◌<◌, IsTrue, length};
ghost use Rattle.qc_words.specs.Operators.{is_unary};
ghost use Rattle.qc_pool.specs.Nodes.{NodeFits};

use qc_pool::{Node, Pool, TermId};
use qc_terms::Place;
use qc_words::{Op, Width, accepts};
use std::alloc::Global;
use std::process::Abort;

/// The operators without a width of their own.
const OPERATORS: [(&str, Op); 21] = [
    ("add", Op::Add),
    ("sub", Op::Sub),
    ("mul", Op::Mul),
    ("divu", Op::Divu),
    ("modu", Op::Modu),
    ("quot", Op::Quot),
    ("rem", Op::Rem),
    ("and", Op::And),
    ("or", Op::Or),
    ("xor", Op::Xor),
    ("com", Op::Com),
    ("neg", Op::Neg),
    ("shl", Op::Shl),
    ("shrl", Op::Shrl),
    ("shra", Op::Shra),
    ("eq", Op::Eq),
    ("ne", Op::Ne),
    ("lt", Op::Lt),
    ("ge", Op::Ge),
    ("ltu", Op::Ltu),
    ("geu", Op::Geu),
];

/// Whether an operator has one operand.
fn has_one(op: &Op) -> bool
    ensures { result ≡ is_unary op.now }
{
    match op {
        Op::Com | Op::Neg | Op::Zx { .. } | Op::Sx { .. } | Op::Slice { .. } => true,
        _ => false,
    }
}

/// Whether a node may be added.
fn fits(pool: &Pool, node: &Node) -> bool
    ensures { IsTrue result → NodeFits pool.now node.now }
{
    match node {
        Node::Num { value, width } => width.holds(*value),
        Node::Un { op, arg } => {
            arg.number() < pool.len() && has_one(op) && accepts(*op, pool.width(*arg))
        }
        Node::Bin { op, left, right } => {
            left.number() < pool.len()
                && right.number() < pool.len()
                && !has_one(op)
                && accepts(*op, pool.width(*left))
                && pool.width(*left) == pool.width(*right)
        }
        Node::Mem { address, .. } => address.number() < pool.len(),
        Node::Reg { .. } | Node::Imm { .. } | Node::Input { .. } | Node::After { .. } => true,
    }
}

/// The id of a node that may be added.
pub(crate) fn put(rt: &impl Abort, pool: &mut Pool, node: Node) -> TermId {
    let fits = fits(pool, &node);
    assert!(rt; fits);
    pool.add(node).expect(rt, "memory for a node")
}

/// A width of so many bits.
pub(crate) fn width(rt: &impl Abort, bits: u8) -> Width {
    Width::new(bits).expect(rt, "a width")
}

/// A number of decimal digits.
fn decimal(rt: &impl Abort, digits: &str) -> u64 {
    digits.parse::<u64>().ok().expect(rt, "a number")
}

/// A number of bits.
fn bits(rt: &impl Abort, number: Option<u64>) -> u8 {
    u8::try_from(number.expect(rt, "a number of bits"))
        .ok()
        .expect(rt, "few bits")
}

/// The operator of a word, whose widths are taken from the numbers before it.
fn operator(rt: &impl Abort, numbers: &mut Vec<u64>, word: &str) -> Option<Op> {
    if word == "zx" {
        let to = width(rt, bits(rt, numbers.pop()));
        return Some(Op::Zx { to });
    }
    if word == "sx" {
        let to = width(rt, bits(rt, numbers.pop()));
        return Some(Op::Sx { to });
    }
    if word == "slice" {
        let to = width(rt, bits(rt, numbers.pop()));
        let low = bits(rt, numbers.pop());
        return Some(Op::Slice { low, to });
    }
    for (name, op) in OPERATORS {
        if name == word {
            return Some(op);
        }
    }
    None
}

/// The leaf of a word.
fn leaf(rt: &impl Abort, word: &str) -> Option<Node> {
    if let Some((value, bits)) = word.split_once('\'') {
        let value = decimal(rt, value);
        let bits = u8::try_from(decimal(rt, bits)).ok().expect(rt, "few bits");
        let width = width(rt, bits);
        return Some(Node::Num { value, width });
    }
    let word_width = width(rt, 32);
    let register = |index: u64| Node::Reg {
        place: Place::Cell { space: 0, index },
        width: word_width,
    };
    match word {
        "a" => Some(register(1)),
        "b" => Some(register(2)),
        "c" => Some(register(3)),
        "bit" => Some(Node::Reg {
            place: Place::Cell { space: 1, index: 0 },
            width: Width::ONE,
        }),
        "k" => Some(Node::Imm {
            operand: 0,
            width: word_width,
        }),
        "input" => Some(Node::Input { width: word_width }),
        _ => None,
    }
}

/// The id of the term of a text.
pub(crate) fn term(rt: &impl Abort, alloc: Global, pool: &mut Pool, text: &str) -> TermId {
    let mut stack = Vec::new(alloc);
    let mut numbers = Vec::new(alloc);
    for word in text.split(' ') {
        if let Some(node) = leaf(rt, word) {
            stack.push(put(rt, pool, node)).expect(rt, "memory");
        } else if let Some(op) = operator(rt, &mut numbers, word) {
            let last = stack.pop().expect(rt, "an operand");
            let id = if has_one(&op) {
                put(rt, pool, Node::Un { op, arg: last })
            } else {
                let left = stack.pop().expect(rt, "two operands");
                put(
                    rt,
                    pool,
                    Node::Bin {
                        op,
                        left,
                        right: last,
                    },
                )
            };
            stack.push(id).expect(rt, "memory");
        } else if word == "load" {
            let width = width(rt, bits(rt, numbers.pop()));
            let address = stack.pop().expect(rt, "an address");
            stack
                .push(put(rt, pool, Node::Mem { width, address }))
                .expect(rt, "memory");
        } else {
            numbers.push(decimal(rt, word)).expect(rt, "memory");
        }
    }
    stack.pop().expect(rt, "a term")
}

//! Which terms of a pool have the form of a law's left side.
ghost use Rattle.std.specs.Prelude.{◌≡◌, ◌<◌, ◌≤◌, ◌-◌, ◌^◌, length, IfSome};
ghost use Rattle.std.specs.Option.{option_map};
ghost use Rattle.qc_equations.specs.declared.form.Left.TheVariants.{Constant};
ghost use Rattle.qc_words.specs.Width.{IsWidth};
ghost use Rattle.qc_pool.specs.Nodes.{term_at};
ghost use Rattle.qc_laws.specs.Inner.Forms.{IsExtension, IsForm, IsOfWord, IsPlain, operands_of};
ghost use Rattle.qc_laws.specs.Inner.Ids.{AreThere, BothThere, both_at, parts_at};
ghost use Rattle.qc_equations.specs.Matching.{left_nested, low_bits, masked, one_operand, part, parts_of, right_nested, same_op, two_operands, wide_complement, with_literal};
ghost use Rattle.qc_equations.specs.Pattern.{literal_value};

use qc_equations::{Left, Literal, Operator};
use qc_pool::{Node, Pool, TermId};
use qc_words::{Op, Width};

/// The ids of the parts of a term, the width of the first one, and the law's size.
#[derive(Clone, Copy)]
pub(crate) struct Ids {
    pub(crate) a: TermId,
    pub(crate) b: TermId,
    pub(crate) c: TermId,
    pub(crate) size: u8,
    pub(crate) word: Width,
}

/// Whether two operators are the same.
fn same(op: &Op, other: &Op) -> bool
    ensures { result ≡ same_op op.now other.now }
{
    *op == *other
}

/// One part and a size.
fn one(pool: &Pool, a: TermId, size: u8) -> Ids
    requires a { a < length pool.now }
    requires size { size ≤ 64 }
    ensures parts { parts_at pool.now result ≡ part (term_at pool.now a) size }
    ensures there { AreThere pool.now result }
{
    let word = pool.width(a);
    let _bits = word.bits();
    Ids {
        a,
        b: a,
        c: a,
        size,
        word,
    }
}

/// Three parts.
fn three(pool: &Pool, a: TermId, b: TermId, c: TermId) -> Ids
    requires a { a < length pool.now }
    requires b { b < length pool.now }
    requires c { c < length pool.now }
    ensures parts { parts_at pool.now result ≡ record { a = term_at pool.now a; b = term_at pool.now b; c = term_at pool.now c; size = 0 } }
    ensures there { AreThere pool.now result }
{
    let word = pool.width(a);
    let _bits = word.bits();
    Ids {
        a,
        b,
        c,
        size: 0,
        word,
    }
}

/// The part of op(a), where op is the complement or the negation.
fn of_one(pool: &Pool, operator: Operator, id: TermId) -> Option<Ids>
    requires id { id < length pool.now }
    requires plain { IsPlain operator }
    ensures parts { option_map (parts_at pool.now) result ≡ one_operand operator (term_at pool.now id) }
    ensures there { IfSome result (AreThere pool.now) }
{
    match &pool.node(id) {
        Node::Un { op, arg } => {
            let wanted = match operator {
                Operator::Complement => Op::Com,
                _ => Op::Neg,
            };
            let ids = one(pool, *arg, 0);
            if same(op, &wanted) { Some(ids) } else { None }
        }
        _ => None,
    }
}

/// The operands of a term with this operator.
fn operands(pool: &Pool, op: &Op, id: TermId) -> Option<(TermId, TermId)>
    requires id { id < length pool.now }
    ensures operands { option_map (both_at pool.now) result ≡ operands_of op.now (term_at pool.now id) }
    ensures there { IfSome result (BothThere pool.now) }
{
    match &pool.node(id) {
        Node::Bin {
            op: found,
            left,
            right,
        } => {
            if same(found, op) {
                Some((*left, *right))
            } else {
                None
            }
        }
        _ => None,
    }
}

/// The parts of op(a, b).
fn of_two(pool: &Pool, op: Op, id: TermId) -> Option<Ids>
    requires id { id < length pool.now }
    ensures parts { option_map (parts_at pool.now) result ≡ two_operands op (term_at pool.now id) }
    ensures there { IfSome result (AreThere pool.now) }
{
    let (a, b) = operands(pool, &op, id)?;
    Some(three(pool, a, b, a))
}

/// The number of a literal without a size, in a word.
fn number(literal: Literal, word: Width) -> u64
    requires { IsOfWord literal }
    ensures { result ≡ literal_value literal word 0 }
{
    match literal {
        Literal::Zero => 0,
        _ => ones(word.bits()),
    }
}

/// The number of so many ones.
pub(crate) fn ones(count: u8) -> u64
    requires { count ≤ 64 }
    ensures { result ≡ 2 ^ count - 1 }
{
    ((1u128 << count) - 1) as u64
}

/// The part of op(a, literal).
fn with_number(pool: &Pool, op: Op, literal: Literal, id: TermId) -> Option<Ids>
    requires id { id < length pool.now }
    requires literal { IsOfWord literal }
    ensures parts { option_map (parts_at pool.now) result ≡ with_literal op literal (term_at pool.now id) }
    ensures there { IfSome result (AreThere pool.now) }
{
    match &pool.node(id) {
        Node::Bin {
            op: found,
            left,
            right,
        } => match &pool.node(*right) {
            Node::Num { value, width } => {
                let ids = one(pool, *left, 0);
                let alike = *value == number(literal, ids.word) && *width == ids.word;
                if same(found, &op) && alike {
                    Some(ids)
                } else {
                    None
                }
            }
            _ => None,
        },
        _ => None,
    }
}

/// The parts of op(op(a, b), c).
fn nested_left(pool: &Pool, op: Op, id: TermId) -> Option<Ids>
    requires id { id < length pool.now }
    ensures parts { option_map (parts_at pool.now) result ≡ left_nested op (term_at pool.now id) }
    ensures there { IfSome result (AreThere pool.now) }
{
    let (left, c) = operands(pool, &op, id)?;
    let (a, b) = operands(pool, &op, left)?;
    Some(three(pool, a, b, c))
}

/// The parts of op(a, op(b, c)).
fn nested_right(pool: &Pool, op: Op, id: TermId) -> Option<Ids>
    requires id { id < length pool.now }
    ensures parts { option_map (parts_at pool.now) result ≡ right_nested op (term_at pool.now id) }
    ensures there { IfSome result (AreThere pool.now) }
{
    let (a, right) = operands(pool, &op, id)?;
    let (b, c) = operands(pool, &op, right)?;
    Some(three(pool, a, b, c))
}

/// The part of the complement of one bit that is extended with zeros, and the wide width.
fn wide(pool: &Pool, id: TermId) -> Option<Ids>
    requires id { id < length pool.now }
    ensures parts { option_map (parts_at pool.now) result ≡ wide_complement (term_at pool.now id) }
    ensures there { IfSome result (AreThere pool.now) }
{
    match &pool.node(id) {
        Node::Un {
            op: Op::Zx { to },
            arg,
        } => match &pool.node(*arg) {
            Node::Un {
                op: Op::Com,
                arg: a,
            } => {
                let ids = one(pool, *a, to.bits());
                if ids.word.bits() == 1 {
                    Some(ids)
                } else {
                    None
                }
            }
            _ => None,
        },
        _ => None,
    }
}

/// The part of its low bits that are extended to its width, and how many they are.
fn low(pool: &Pool, extension: Operator, id: TermId) -> Option<Ids>
    requires id { id < length pool.now }
    requires extension { IsExtension extension }
    ensures parts { option_map (parts_at pool.now) result ≡ low_bits extension (term_at pool.now id) }
    ensures there { IfSome result (AreThere pool.now) }
{
    match &pool.node(id) {
        Node::Un { op, arg } => match &pool.node(*arg) {
            Node::Un {
                op: Op::Slice { low, to },
                arg: a,
            } => {
                let ids = one(pool, *a, to.bits());
                let wanted = match extension {
                    Operator::ZeroExtension => Op::Zx { to: ids.word },
                    _ => Op::Sx { to: ids.word },
                };
                if same(op, &wanted) && *low == 0 {
                    Some(ids)
                } else {
                    None
                }
            }
            _ => None,
        },
        _ => None,
    }
}

/// The part that a mask of low bits is put on, and how many ones the mask has.
fn under_mask(pool: &Pool, id: TermId) -> Option<Ids>
    requires id { id < length pool.now }
    ensures parts { option_map (parts_at pool.now) result ≡ masked (term_at pool.now id) }
    ensures there { IfSome result (AreThere pool.now) }
{
    match &pool.node(id) {
        Node::Bin {
            op: Op::And,
            left,
            right,
        } => match &pool.node(*right) {
            Node::Num { value, width } => {
                let size = value.count_ones() as u8;
                let ids = one(pool, *left, size);
                let within = 1 <= size && size < ids.word.bits();
                if within && *value == ones(size) && *width == ids.word {
                    Some(ids)
                } else {
                    None
                }
            }
            _ => None,
        },
        _ => None,
    }
}

/// The part that a whole term is, if it is a constant wider than the size.
fn whole_constant(pool: &Pool, size: u8, id: TermId) -> Option<Ids>
    requires id { id < length pool.now }
    requires size { size ≤ 64 }
    ensures parts { option_map (parts_at pool.now) result ≡ parts_of (Constant size) (term_at pool.now id) }
    ensures there { IfSome result (AreThere pool.now) }
{
    let ids = one(pool, id, size);
    if size < ids.word.bits() && pool.is_constant(id) {
        Some(ids)
    } else {
        None
    }
}

/// The parts of a term that has the form.
pub(crate) fn parts(pool: &Pool, left: Left, id: TermId) -> Option<Ids>
    requires id { id < length pool.now }
    requires form { IsForm left }
    ensures parts { option_map (parts_at pool.now) result ≡ parts_of left (term_at pool.now id) }
    ensures there { IfSome result (AreThere pool.now) }
{
    match left {
        Left::Whole => Some(one(pool, id, 0)),
        Left::Constant { size } => whole_constant(pool, size, id),
        Left::OneOperand { operator } => of_one(pool, operator, id),
        Left::TwoOperands { op } => of_two(pool, op, id),
        Left::WithLiteral { op, literal } => with_number(pool, op, literal, id),
        Left::LeftNested { op } => nested_left(pool, op, id),
        Left::RightNested { op } => nested_right(pool, op, id),
        Left::WideComplement => wide(pool, id),
        Left::LowBits { extension } => low(pool, extension, id),
        Left::Masked => under_mask(pool, id),
    }
}

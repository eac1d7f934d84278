//! What each node of an expression comes to, by what its parts come to.
ghost use Rattle.std.specs.Prelude.{ℕ, ◌≡◌, ◌≤◌, ◌+◌, ◌<◌, ◌^◌, ◌&&◌, min, IfOk, if◌then◌else◌, List, Option, None};
ghost use Rattle.std.specs.Prelude.{false, is_some};
ghost use Rattle.qc_words.specs.Operators.{is_unary as is_unary_operator, result_width_of};
ghost use Rattle.qc_words.specs.declared.operator.Op.TheVariants as op;
ghost use Rattle.qc_terms.specs.declared.term.Term.TheVariants as term;
ghost use Rattle.qc_facts.specs.declared.faults.WidthFault.{WidthFault as Fault};
ghost use Rattle.qc_widths.specs.Inner.KeptValues.{IsValue, nodes_in};
ghost use Rattle.qc_resolve.specs.Expressions.{value_of_cell};
ghost use Rattle.qc_facts.specs.Faults.{reported};
ghost use Rattle.qc_facts.specs.Numbers.{is_empty};
ghost use Rattle.qc_facts.specs.Numbers as numbers;
ghost use Rattle.qc_resolve.specs.Scopes as scopes;
ghost use Rattle.qc_facts.specs.Values as values;

use crate::value::{Built, MOST_NODES, Value, faulty, leaf, node};
use qc_facts::{
    Facts, OperandFacts, Target, WidthFault, access_fault, access_width, literal_fault, width_in,
};
use qc_grammar::Number;
use qc_names::earlier;
use qc_terms::{Place, Term};
use qc_words::{Op, Width, result_width};
use sqlite_items::Boxed;
use std::alloc::{AllocError, Global};

/// The width of a term, which has no meaning where none is known.
pub(crate) fn bits_of(width: &Option<Width>) -> Width
    ensures { result ≡ values.bits_of width.now }
{
    match width {
        Some(width) => *width,
        None => Width::ONE,
    }
}

/// Whether two parts are sound.
fn both(first: bool, second: bool) -> bool
    ensures { result ≡ (first && second) }
{
    first && second
}

/// Whether a node is sound, by its parts and its number.
fn has_width(sound: bool, width: &Option<Width>) -> bool
    ensures { result ≡ (sound && is_some width.now) }
{
    match width {
        Some(_) => sound,
        None => false,
    }
}

/// Whether a node is sound, by its parts and a fault of its number.
#[tactic(auto, using(crate::proofs::Seen::none_reported, crate::proofs::Seen::unsound))]
fn is_free(sound: bool, fault: Option<WidthFault>) -> bool
    ensures { (faults : List Fault) → fault ≡ reported faults → result ≡ (sound && is_empty faults) }
{
    match fault {
        Some(_) => false,
        None => sound,
    }
}

/// A clash of two widths, of which 65 stands for all above 64.
fn clash(token: usize, found: u128, wanted: u128) -> WidthFault
    ensures { result ≡ numbers.clash token found wanted }
{
    WidthFault::WidthClash {
        token,
        found: found.min(65) as u8,
        wanted: wanted.min(65) as u8,
    }
}

/// A width that is not the one that its place wants.
pub(crate) fn mismatch(
    token: usize,
    found: Option<Width>,
    wanted: Option<Width>,
) -> Option<WidthFault>
    ensures { result ≡ reported (values.mismatch token found wanted) }
{
    match (found, wanted) {
        (Some(found), Some(wanted)) if found.bits() != wanted.bits() => {
            Some(clash(token, found.bits().into(), wanted.bits().into()))
        }
        _ => None,
    }
}

/// A width that is above a given one.
fn excess(token: usize, found: Option<Width>, most: Option<Width>) -> Option<WidthFault>
    ensures { result ≡ reported (values.excess token found most) }
{
    match (found, most) {
        (Some(found), Some(most)) if found.bits() > most.bits() => {
            Some(clash(token, found.bits().into(), most.bits().into()))
        }
        _ => None,
    }
}

/// A slice past the end of its operand.
fn past_end(
    token: usize,
    found: Option<Width>,
    low: &Number,
    to: Option<Width>,
) -> Option<WidthFault>
    ensures { result ≡ reported (values.past_end token found low.now.value to) }
{
    match (found, to) {
        (Some(found), Some(to)) => {
            let end = low.value.min(64) + u128::from(to.bits());
            if u128::from(found.bits()) < end {
                Some(clash(token, found.bits().into(), end))
            } else {
                None
            }
        }
        _ => None,
    }
}

/// The value of a literal.
#[tactic(auto, using(crate::proofs::Seen::trees))]
pub(crate) fn literal(value: &Number, bits: &Number) -> Value
    ensures { IsValue result (values.literal value.now bits.now) }
{
    match literal_fault(value, bits) {
        Some(_) => faulty(value.token),
        None => {
            let width = width_in(bits);
            let term = Term::Num {
                value: value.value as u64,
                width: bits_of(&width),
            };
            leaf(value.token, term, width)
        }
    }
}

/// The next word of the input.
#[tactic(auto, using(crate::proofs::Seen::trees))]
pub(crate) fn input(word: Option<Width>, token: usize) -> Value
    ensures { IsValue result (values.input word token) }
{
    let term = Term::Input {
        width: bits_of(&word),
    };
    leaf(token, term, word)
}

/// The address after the instruction.
#[tactic(auto, using(crate::proofs::Seen::trees))]
pub(crate) fn after(word: Option<Width>, token: usize) -> Value
    ensures { IsValue result (values.after word token) }
{
    let term = Term::After {
        width: bits_of(&word),
    };
    leaf(token, term, word)
}

/// The value of a memory access at an address.
pub(crate) fn load(
    alloc: Global,
    facts: &Facts,
    token: usize,
    bits: &Number,
    address: Value,
) -> Result<Value, AllocError>
    ensures { (spec : values.Value) → IsValue address spec
        → IfOk result (λ v. IsValue v (values.load facts.now.word token bits.now spec)) }
{
    match address {
        Value::Huge => Ok(Value::Huge),
        Value::Known {
            token: start,
            term,
            nodes,
            width,
            sound,
            clash,
        } => {
            if nodes >= MOST_NODES {
                return Ok(Value::Huge);
            }
            let access = access_width(facts.word(), bits);
            let address = Boxed::new(alloc, term)?;
            let term = Term::Mem {
                width: bits_of(&access),
                address,
            };
            Ok(node(Built {
                token,
                term,
                nodes: nodes + 1,
                width: access,
                sound: is_free(sound, access_fault(facts.word(), bits)),
                inner: clash,
                own: mismatch(start, width, facts.word()),
            }))
        }
    }
}

/// The token and the width of a value whose term isn't too large.
fn place_of(value: &Value) -> (usize, Option<Width>)
    ensures { (spec : values.Value) → IsValue value.now spec → nodes_in spec ≤ 4096
        → (result.0 ≡ spec.token) × (result.1 ≡ spec.width) }
{
    match value {
        Value::Huge => (0, None),
        Value::Known {
            token,
            term: _,
            nodes: _,
            width,
            sound: _,
            clash: _,
        } => (*token, *width),
    }
}

/// What a node adds to its part: its token and its width, whether it is sound where its part is, and its own clash.
#[derive(Drop)]
struct Added {
    token: usize,
    width: Option<Width>,
    sound: bool,
    own: Option<WidthFault>,
}

/// The value of an operator of one operand, by what its node adds.
fn made(alloc: Global, op: Op, added: Added, arg: Value) -> Result<Value, AllocError>
    ensures { (spec : values.Value) (width : Option ℕ) (faults : List Fault) → IsValue arg spec
        → (nodes_in spec ≤ 4096 → (added.width ≡ width) × (added.own ≡ reported faults))
        → IfOk result (λ v. IsValue v (values.node added.token (term.Un op spec.term) width (spec.sound && added.sound) spec.clashes faults)) }
{
    match arg {
        Value::Huge => Ok(Value::Huge),
        Value::Known {
            token: _,
            term,
            nodes,
            width: _,
            sound,
            clash,
        } => {
            if nodes >= MOST_NODES {
                return Ok(Value::Huge);
            }
            let arg = Boxed::new(alloc, term)?;
            Ok(node(Built {
                token: added.token,
                term: Term::Un { op, arg },
                nodes: nodes + 1,
                width: added.width,
                sound: both(sound, added.sound),
                inner: clash,
                own: added.own,
            }))
        }
    }
}

/// The value of an extension, which is signed or not.
pub(crate) fn extension(
    alloc: Global,
    is_signed: bool,
    token: usize,
    bits: &Number,
    arg: Value,
) -> Result<Value, AllocError>
    ensures { (spec : values.Value) → IsValue arg spec
        → IfOk result (λ v. IsValue v (values.extension (if is_signed then op.Sx else op.Zx) token bits.now spec)) }
{
    let to = width_in(bits);
    let (start, width) = place_of(&arg);
    let op = extension_to(is_signed, bits_of(&to));
    let added = Added {
        token,
        width: to,
        sound: has_width(true, &to),
        own: excess(start, width, to),
    };
    made(alloc, op, added, arg)
}

/// An extension to a width.
fn extension_to(is_signed: bool, to: Width) -> Op
    ensures { result ≡ (if is_signed then op.Sx else op.Zx) to }
{
    if is_signed {
        Op::Sx { to }
    } else {
        Op::Zx { to }
    }
}

/// The value of a slice.
pub(crate) fn slice(
    alloc: Global,
    token: usize,
    low: &Number,
    bits: &Number,
    arg: Value,
) -> Result<Value, AllocError>
    ensures { (spec : values.Value) → IsValue arg spec
        → IfOk result (λ v. IsValue v (values.slice token low.now bits.now spec)) }
{
    let to = width_in(bits);
    let (start, width) = place_of(&arg);
    let op = Op::Slice {
        low: low.value.min(64) as u8,
        to: bits_of(&to),
    };
    let added = Added {
        token,
        width: to,
        sound: has_width(true, &to),
        own: past_end(start, width, low, to),
    };
    made(alloc, op, added, arg)
}

/// The value of an operator of one operand.
pub(crate) fn unary(alloc: Global, op: Op, token: usize, arg: Value) -> Result<Value, AllocError>
    ensures { (spec : values.Value) → IsValue arg spec → IfOk result (λ v. IsValue v (values.unary op token spec)) }
{
    let (_, width) = place_of(&arg);
    let added = Added {
        token,
        width,
        sound: true,
        own: None,
    };
    made(alloc, op, added, arg)
}

/// Whether an operator has one operand.
pub(crate) fn takes_one(op: &Op) -> bool
    ensures { result ≡ is_unary_operator op.now }
{
    match op {
        Op::Com | Op::Neg | Op::Zx { .. } | Op::Sx { .. } | Op::Slice { .. } => true,
        _ => false,
    }
}

/// The width of a comparison's value, which does not hang on its operands.
fn own_width(op: &Op) -> Option<Width>
    requires { is_unary_operator op.now ≡ false }
    ensures { result ≡ values.width_of_operator op.now None None }
{
    match op {
        Op::Eq | Op::Ne | Op::Lt | Op::Ge | Op::Ltu | Op::Geu => Some(Width::ONE),
        _ => None,
    }
}

/// The width of an operator's value, by those of its operands.
fn operator_width(op: &Op, left: &Option<Width>, right: &Option<Width>) -> Option<Width>
    requires { is_unary_operator op.now ≡ false }
    ensures { result ≡ values.width_of_operator op.now left.now right.now }
{
    match left {
        Some(width) => Some(result_width(*op, *width)),
        None => match right {
            Some(width) => Some(result_width(*op, *width)),
            None => own_width(op),
        },
    }
}

/// The value of an operator of two operands.
pub(crate) fn binary(
    alloc: Global,
    op: Op,
    token: usize,
    left: Value,
    right: Value,
) -> Result<Value, AllocError>
    requires { is_unary_operator op ≡ false }
    ensures { (one two : values.Value) → IsValue left one → IsValue right two
        → IfOk result (λ v. IsValue v (values.binary op token one two)) }
{
    match left {
        Value::Huge => Ok(Value::Huge),
        Value::Known {
            token: _,
            term,
            nodes,
            width,
            sound,
            clash,
        } => match right {
            Value::Huge => Ok(Value::Huge),
            Value::Known {
                token: second,
                term: right,
                nodes: more,
                width: found,
                sound: is_sound,
                clash: later,
            } => {
                let nodes = nodes.saturating_add(more);
                if nodes >= MOST_NODES {
                    return Ok(Value::Huge);
                }
                let left = Boxed::new(alloc, term)?;
                let right = Boxed::new(alloc, right)?;
                let joint = operator_width(&op, &width, &found);
                let own = mismatch(second, found, width);
                let inner = earlier(clash, later);
                let sound = both(sound, is_sound);
                let term = Term::Bin { op, left, right };
                Ok(node(Built {
                    token,
                    term,
                    nodes: nodes + 1,
                    width: joint,
                    sound,
                    inner,
                    own,
                }))
            }
        },
    }
}

/// The value of an operand at a token.
#[tactic(auto, using(crate::proofs::Seen::trees))]
pub(crate) fn operand_value(
    word: Option<Width>,
    number: u32,
    facts: OperandFacts,
    token: usize,
) -> Value
    ensures { IsValue result (scopes.operand_value word number facts token) }
{
    match facts {
        OperandFacts::Register { space, width } => {
            let place = Place::Operand { space, number };
            let term = Term::Reg {
                place,
                width: bits_of(&width),
            };
            leaf(token, term, width)
        }
        OperandFacts::Immediate { width } => {
            let term = Term::Imm {
                operand: number,
                width: bits_of(&width),
            };
            leaf(token, term, width)
        }
        OperandFacts::Address => {
            let term = Term::Imm {
                operand: number,
                width: bits_of(&word),
            };
            leaf(token, term, word)
        }
    }
}

/// The value of a cell at a token, if there is one.
#[tactic(auto, using(crate::proofs::Seen::trees))]
pub(crate) fn cell_value(target: Option<Target>, token: usize) -> Value
    ensures { IsValue result (value_of_cell target token) }
{
    match target {
        None => faulty(token),
        Some(target) => {
            let term = Term::Reg {
                place: target.place,
                width: bits_of(&target.width),
            };
            leaf(token, term, target.width)
        }
    }
}

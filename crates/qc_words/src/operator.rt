ghost use Rattle.std.specs.Prelude.{◌≡◌, ◌≢◌, ◌↔◌, IsTrue, ◌≤◌, ◌<◌, ◌^◌, ◌+◌, ◌-◌, ◌*◌, ◌%◌, bit_or, bit_xor, pos, ◌≤ℤ◌, ◌<ℤ◌, neg_ℤ};
ghost use Rattle.qc_words.specs.Operators.{result_of, result_width_of, sum_of, difference_of, product_of, unsigned_quotient_of, unsigned_remainder_of, negation_of, amount_of, shift_left_of, shift_right_of, signed_shift_right_of, signed_quotient_of, signed_remainder_of, slice_of, Accepts};
ghost use Rattle.qc_words.specs.Width.{IsWidth};
ghost use Rattle.qc_words.specs.Words.{signed_of, word_of};

use crate::width::Width;

/// An operator on words of one width. A width that the operator carries is that of its result; the
/// comparisons have width 1, and the others the width of their operands. An operator of one operand
/// ignores the second.
#[derive(Clone, Copy, Debug, PartialEq, Eq, Hash)]
pub enum Op {
    Add,
    Sub,
    Mul,
    /// The quotient of unsigned numbers; all ones where the divisor is 0.
    Divu,
    /// The remainder of unsigned numbers; the dividend where the divisor is 0.
    Modu,
    /// The quotient of signed numbers, rounded toward zero; all ones where the divisor is 0.
    Quot,
    /// The remainder of signed numbers, with the dividend's sign; the dividend where the divisor is 0.
    Rem,
    And,
    Or,
    Xor,
    /// Each bit inverted. It has one operand.
    Com,
    /// The number with the other sign. It has one operand.
    Neg,
    /// A shift to the left by the second operand modulo the width, as the other shifts are.
    Shl,
    /// A shift to the right that fills with zeros.
    Shrl,
    /// A shift to the right that fills with the sign bit.
    Shra,
    /// Equality. A comparison gives a word of width 1, which is 1 where it holds.
    Eq,
    Ne,
    /// Less than, as signed numbers.
    Lt,
    /// Greater or equal, as signed numbers.
    Ge,
    /// Less than, as unsigned numbers.
    Ltu,
    /// Greater or equal, as unsigned numbers.
    Geu,
    /// The same unsigned number in a width that is no smaller. It has one operand.
    Zx { to: Width },
    /// The same signed number in a width that is no smaller. It has one operand.
    Sx { to: Width },
    /// The bits from `low` on, where bit 0 is the lowest. It has one operand.
    Slice { low: u8, to: Width },
}

/// The number of words of a width: 2 to the width.
fn modulus(w: Width) -> u128
    ensures value { result ≡ 2 ^ w }
    ensures bound { result < 2 ^ 65 }
    ensures width { IsWidth w }
{
    1u128 << w.bits()
}

/// The low bits of a number, as many as a word has.
#[tactic(auto, using(std::proofs::lemmas::Nat::and_mask))]
fn low_bits(w: Width, n: u128) -> u64
    ensures value { result ≡ n % 2 ^ w }
    ensures word { result < 2 ^ w }
    ensures width { IsWidth w }
{
    (n & (modulus(w) - 1)) as u64
}

/// The number of words of a width that are not negative: half of all.
fn half_modulus(w: Width) -> u128
    ensures value { result ≡ 2 ^ (w - 1) }
    ensures bound { result < 2 ^ 64 }
{
    1u128 << (w.bits() - 1)
}

/// The number that the word stands for as a signed one.
#[tactic(auto, unfolding(crate::specs::Words::signed_of))]
fn signed(w: Width, a: u64) -> i128
    requires { a < 2 ^ w }
    ensures value { result ≡ signed_of w a }
    ensures low { neg_ℤ (pos (2 ^ 63)) ≤ℤ result }
    ensures high { result <ℤ pos (2 ^ 63) }
    ensures nonzero { a ≢ 0 → result ≢ pos 0 }
{
    if u128::from(a) < half_modulus(w) {
        i128::from(a)
    } else {
        i128::from(a) - modulus(w) as i128
    }
}

/// The word for a number.
fn wrapped(w: Width, z: i128) -> u64
    ensures value { result ≡ word_of w z }
    ensures word { result < 2 ^ w }
{
    low_bits(w, z.cast_unsigned())
}

fn add(w: Width, a: u64, b: u64) -> u64
    ensures { result ≡ sum_of w a b }
{
    low_bits(w, u128::from(a) + u128::from(b))
}

fn sub(w: Width, a: u64, b: u64) -> u64
    ensures value { result ≡ difference_of w a b }
    ensures word { result < 2 ^ w }
{
    wrapped(w, i128::from(a) - i128::from(b))
}

fn mul(w: Width, a: u64, b: u64) -> u64
    ensures { result ≡ product_of w a b }
{
    low_bits(w, u128::from(a) * u128::from(b))
}

fn divu(w: Width, a: u64, b: u64) -> u64
    requires { a < 2 ^ w }
    ensures value { result ≡ unsigned_quotient_of w a b }
    ensures word { result < 2 ^ w }
{
    if b == 0 {
        (modulus(w) - 1) as u64
    } else {
        a / b
    }
}

fn modu(a: u64, b: u64) -> u64
    ensures { result ≡ unsigned_remainder_of a b }
{
    if b == 0 { a } else { a % b }
}

fn quot(w: Width, a: u64, b: u64) -> u64
    requires left { a < 2 ^ w }
    requires right { b < 2 ^ w }
    ensures value { result ≡ signed_quotient_of w a b }
    ensures word { result < 2 ^ w }
{
    if b == 0 {
        (modulus(w) - 1) as u64
    } else {
        wrapped(w, signed(w, a) / signed(w, b))
    }
}

fn rem(w: Width, a: u64, b: u64) -> u64
    requires left { a < 2 ^ w }
    requires right { b < 2 ^ w }
    ensures value { result ≡ signed_remainder_of w a b }
    ensures word { result < 2 ^ w }
{
    if b == 0 {
        a
    } else {
        wrapped(w, signed(w, a) % signed(w, b))
    }
}

#[tactic(auto, using(std::proofs::lemmas::Nat::or_lt))]
fn or(w: Width, a: u64, b: u64) -> u64
    requires left { a < 2 ^ w }
    requires right { b < 2 ^ w }
    ensures value { result ≡ bit_or a b }
    ensures word { result < 2 ^ w }
{
    a | b
}

#[tactic(auto, using(std::proofs::lemmas::Nat::xor_lt))]
fn xor(w: Width, a: u64, b: u64) -> u64
    requires left { a < 2 ^ w }
    requires right { b < 2 ^ w }
    ensures value { result ≡ bit_xor a b }
    ensures word { result < 2 ^ w }
{
    a ^ b
}

fn neg(w: Width, a: u64) -> u64
    ensures value { result ≡ negation_of w a }
    ensures word { result < 2 ^ w }
{
    wrapped(w, -i128::from(a))
}

/// The number of places by which a shift moves the bits.
fn amount(w: Width, b: u64) -> u32
    ensures value { result ≡ amount_of w b }
    ensures bound { result < w }
{
    (b % u64::from(w.bits())) as u32
}

fn shl(w: Width, a: u64, b: u64) -> u64
    ensures value { result ≡ shift_left_of w a b }
    ensures word { result < 2 ^ w }
{
    low_bits(w, u128::from(a) << amount(w, b))
}

fn shrl(w: Width, a: u64, b: u64) -> u64
    requires { a < 2 ^ w }
    ensures value { result ≡ shift_right_of w a b }
    ensures word { result < 2 ^ w }
{
    a >> amount(w, b)
}

fn shra(w: Width, a: u64, b: u64) -> u64
    requires { a < 2 ^ w }
    ensures value { result ≡ signed_shift_right_of w a b }
    ensures word { result < 2 ^ w }
{
    wrapped(w, signed(w, a) >> amount(w, b))
}

fn zx(w: Width, a: u64, to: Width) -> u64
    requires operand { a < 2 ^ w }
    requires wider { w ≤ to }
    ensures value { result ≡ a }
    ensures word { result < 2 ^ to }
{
    a
}

fn slice(a: u64, low: u8, to: Width) -> u64
    requires { low + to ≤ 64 }
    ensures value { result ≡ slice_of low to a }
    ensures word { result < 2 ^ to }
{
    low_bits(to, u128::from(a >> low))
}

/// Whether the operator may be applied to words of the width `w`: an extension does not narrow, and
/// a slice stays within the word.
pub fn accepts(op: Op, w: Width) -> bool
    ensures { IsTrue result ↔ Accepts op w }
{
    match op {
        Op::Zx { to } | Op::Sx { to } => w.bits() <= to.bits(),
        Op::Slice { low, to } => u32::from(low) + u32::from(to.bits()) <= u32::from(w.bits()),
        _ => true,
    }
}

/// The operator's value at two words of the width `w`. Operators of one operand ignore `b`. It is inlined, so
/// that a constant operator leaves straight code.
#[inline(always)]
pub fn apply(op: Op, w: Width, a: u64, b: u64) -> u64
    requires left { a < 2 ^ w }
    requires right { b < 2 ^ w }
    requires accepted { Accepts op w }
    ensures value { result ≡ result_of op w a b }
    ensures word { result < 2 ^ result_width_of op w }
{
    match op {
        Op::Add => add(w, a, b),
        Op::Sub => sub(w, a, b),
        Op::Mul => mul(w, a, b),
        Op::Divu => divu(w, a, b),
        Op::Modu => modu(a, b),
        Op::Quot => quot(w, a, b),
        Op::Rem => rem(w, a, b),
        Op::And => a & b,
        Op::Or => or(w, a, b),
        Op::Xor => xor(w, a, b),
        Op::Com => (modulus(w) - 1 - u128::from(a)) as u64,
        Op::Neg => neg(w, a),
        Op::Shl => shl(w, a, b),
        Op::Shrl => shrl(w, a, b),
        Op::Shra => shra(w, a, b),
        Op::Eq => u64::from(a == b),
        Op::Ne => u64::from(a != b),
        Op::Lt => u64::from(signed(w, a) < signed(w, b)),
        Op::Ge => u64::from(signed(w, a) >= signed(w, b)),
        Op::Ltu => u64::from(a < b),
        Op::Geu => u64::from(a >= b),
        Op::Zx { to } => zx(w, a, to),
        Op::Sx { to } => wrapped(to, signed(w, a)),
        Op::Slice { low, to } => slice(a, low, to),
    }
}

/// The width of the operator's value at operands of the width `w`.
pub fn result_width(op: Op, w: Width) -> Width
    ensures { result ≡ result_width_of op w }
{
    match op {
        Op::Eq | Op::Ne | Op::Lt | Op::Ge | Op::Ltu | Op::Geu => Width::ONE,
        Op::Zx { to } | Op::Sx { to } | Op::Slice { to, .. } => to,
        _ => w,
    }
}

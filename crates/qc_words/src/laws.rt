//! Laws of the operators at every width. Each function here does nothing: its contract is the law.

ghost use Rattle.std.specs.Prelude.{ℕ, ℤ, ◌≡◌, ◌≢◌, ◌≤◌, ◌<◌, ◌-◌, ◌+◌, ◌*◌, ◌%◌, ◌^◌, min, max, pos, ◌+ℤ◌, ◌-ℤ◌, ◌*ℤ◌, neg_ℤ, ◌<ℤ◌, unsigned_abs, ◌↔◌, ◌⊎◌};
ghost use Rattle.std.specs.Int.{bit_at};
ghost use Rattle.qc_words.specs.Operators.{Accepts, result_of, result_width_of};
ghost use Rattle.qc_words.specs.Width.{IsWidth};
ghost use Rattle.qc_words.specs.Words.{signed_of, word_of, FitsSignedWord};
ghost use Rattle.qc_words.specs.declared.operator.Op.{Op};
ghost use Rattle.qc_words.specs.declared.operator.Op.TheVariants.{Add, Sub, Mul, Divu, Modu, Quot, Rem, Neg, And, Or, Xor, Com, Shl, Shrl, Shra, Eq, Ne, Lt, Ge, Ltu, Geu, Zx, Sx, Slice};

/// Each operator's value is a word of the width of its result.
pub fn results_are_words()
    ensures { (op : Op) (w a b : ℕ) → Accepts op w → a < 2 ^ w → b < 2 ^ w →
        result_of op w a b < 2 ^ result_width_of op w }
{}

/// Words and signed numbers stand for each other: each word is the word of its signed number, and
/// each number in range is the signed number of its word.
pub fn signed_numbers_read_back()
    ensures range { (w a : ℕ) → IsWidth w → a < 2 ^ w → FitsSignedWord w (signed_of w a) }
    ensures word { (w a : ℕ) → IsWidth w → a < 2 ^ w → word_of w (signed_of w a) ≡ a }
    ensures number { (w : ℕ) (z : ℤ) → IsWidth w → FitsSignedWord w z →
        signed_of w (word_of w z) ≡ z }
{}

/// Sums, differences, products and negations are the same for unsigned and signed numbers.
pub fn arithmetic_agrees_on_signed_numbers()
    ensures add { (w a b : ℕ) → IsWidth w → a < 2 ^ w → b < 2 ^ w →
        result_of Add w a b ≡ word_of w (signed_of w a +ℤ signed_of w b) }
    ensures sub { (w a b : ℕ) → IsWidth w → a < 2 ^ w → b < 2 ^ w →
        result_of Sub w a b ≡ word_of w (signed_of w a -ℤ signed_of w b) }
    ensures mul { (w a b : ℕ) → IsWidth w → a < 2 ^ w → b < 2 ^ w →
        result_of Mul w a b ≡ word_of w (signed_of w a *ℤ signed_of w b) }
    ensures neg { (w a b : ℕ) → IsWidth w → a < 2 ^ w →
        result_of Neg w a b ≡ word_of w (neg_ℤ (signed_of w a)) }
{}

/// Differences and negations by natural numbers alone, and as the inverses of sums.
pub fn subtraction_undoes_addition()
    ensures difference { (w a b : ℕ) → b < 2 ^ w → result_of Sub w a b ≡ (a + (2 ^ w - b)) % 2 ^ w }
    ensures negation { (w a b : ℕ) → a < 2 ^ w → result_of Neg w a b ≡ (2 ^ w - a) % 2 ^ w }
    ensures as_addition { (w a b c : ℕ) → a < 2 ^ w →
        result_of Sub w a b ≡ result_of Add w a (result_of Neg w b c) }
    ensures undone { (w a b : ℕ) → a < 2 ^ w → b < 2 ^ w →
        result_of Sub w (result_of Add w a b) b ≡ a }
{}

/// The quotient times the divisor plus the remainder is the dividend, also where the divisor is 0.
pub fn divisions_keep_the_dividend()
    ensures unsigned { (w a b : ℕ) → a < 2 ^ w →
        result_of Add w (result_of Mul w (result_of Divu w a b) b) (result_of Modu w a b) ≡ a }
    ensures signed { (w a b : ℕ) → IsWidth w → a < 2 ^ w → b < 2 ^ w →
        result_of Add w (result_of Mul w (result_of Quot w a b) b) (result_of Rem w a b) ≡ a }
{}

/// For a divisor other than 0 the quotient times the divisor plus the remainder is the dividend, now
/// of numbers that are not taken modulo `2 ^ w`, and the remainder is nearer to 0 than the divisor.
/// A signed remainder that is not 0 is negative where the dividend is, so the quotient is rounded
/// toward zero. The least number divided by -1 has no quotient in range, and gives itself.
pub fn divisions_round_toward_zero()
    ensures unsigned { (w a b : ℕ) → 0 < b → result_of Divu w a b * b + result_of Modu w a b ≡ a }
    ensures unsigned_rest { (w a b : ℕ) → 0 < b → result_of Modu w a b < b }
    ensures signed { (w a b : ℕ) → IsWidth w → a < 2 ^ w → 0 < b → b < 2 ^ w →
        (a ≢ 2 ^ (w - 1)) ⊎ (b ≢ 2 ^ w - 1) →
        signed_of w (result_of Quot w a b) *ℤ signed_of w b +ℤ signed_of w (result_of Rem w a b)
        ≡ signed_of w a }
    ensures signed_rest { (w a b : ℕ) → IsWidth w → 0 < b → b < 2 ^ w →
        unsigned_abs (signed_of w (result_of Rem w a b)) < unsigned_abs (signed_of w b) }
    ensures sign { (w a b : ℕ) → IsWidth w → 0 < b → b < 2 ^ w →
        (signed_of w (result_of Rem w a b) ≡ pos 0)
        ⊎ ((signed_of w (result_of Rem w a b) <ℤ pos 0) ↔ (signed_of w a <ℤ pos 0)) }
    ensures least { (w : ℕ) → IsWidth w →
        (result_of Quot w (2 ^ (w - 1)) (2 ^ w - 1) ≡ 2 ^ (w - 1))
        × (result_of Rem w (2 ^ (w - 1)) (2 ^ w - 1) ≡ 0) }
{}

/// A division by 0 gives all ones, and its remainder is the dividend.
pub fn divisions_by_zero_are_defined()
    ensures unsigned { (w a : ℕ) →
        (result_of Divu w a 0 ≡ 2 ^ w - 1) × (result_of Modu w a 0 ≡ a) }
    ensures signed { (w a : ℕ) →
        (result_of Quot w a 0 ≡ 2 ^ w - 1) × (result_of Rem w a 0 ≡ a) }
{}

/// An extension's low bits are the word, an extension to the word's own width is the word, and a
/// sign extension stands for the same signed number.
pub fn extensions_keep_the_word()
    ensures zero_low { (w n a b c : ℕ) → IsWidth w → w ≤ n → a < 2 ^ w →
        result_of (Slice 0 w) n (result_of (Zx n) w a b) c ≡ a }
    ensures sign_low { (w n a b c : ℕ) → IsWidth w → w ≤ n → a < 2 ^ w →
        result_of (Slice 0 w) n (result_of (Sx n) w a b) c ≡ a }
    ensures zero_same { (w a b : ℕ) → IsWidth w → a < 2 ^ w → result_of (Zx w) w a b ≡ a }
    ensures sign_same { (w a b : ℕ) → IsWidth w → a < 2 ^ w → result_of (Sx w) w a b ≡ a }
    ensures signed { (w n a b : ℕ) → IsWidth w → w ≤ n → a < 2 ^ w →
        signed_of n (result_of (Sx n) w a b) ≡ signed_of w a }
{}

/// The operators of logic work bit by bit.
pub fn logic_works_bit_by_bit()
    ensures and { (w a b k : ℕ) → bit_at (result_of And w a b) k ≡ min (bit_at a k) (bit_at b k) }
    ensures or { (w a b k : ℕ) → bit_at (result_of Or w a b) k ≡ max (bit_at a k) (bit_at b k) }
    ensures xor { (w a b k : ℕ) → bit_at (result_of Xor w a b) k ≡ (bit_at a k + bit_at b k) % 2 }
    ensures com { (w a b k : ℕ) → a < 2 ^ w → k < w →
        bit_at (result_of Com w a b) k ≡ 1 - bit_at a k }
{}

/// The shifts move the bits by the amount `b` modulo the width. From the left a shift to the right
/// fills with zeros, or with the sign bit, which is the bit `w - 1`.
pub fn shifts_move_bits()
    ensures left_filled { (w a b k : ℕ) → k < w → k < b % w → bit_at (result_of Shl w a b) k ≡ 0 }
    ensures left { (w a b k : ℕ) → k < w → b % w ≤ k →
        bit_at (result_of Shl w a b) k ≡ bit_at a (k - b % w) }
    ensures right { (w a b k : ℕ) → bit_at (result_of Shrl w a b) k ≡ bit_at a (b % w + k) }
    ensures right_signed { (w a b k : ℕ) → IsWidth w → a < 2 ^ w → k < w →
        bit_at (result_of Shra w a b) k ≡ bit_at a (min (b % w + k) (w - 1)) }
{}

/// An extension keeps each bit of the word and fills with zeros or with the sign bit; a slice has
/// the bits from `low` on.
pub fn extensions_and_slices_move_bits()
    ensures zero { (w n a b k : ℕ) → bit_at (result_of (Zx n) w a b) k ≡ bit_at a k }
    ensures sign { (w n a b k : ℕ) → IsWidth w → a < 2 ^ w → k < n →
        bit_at (result_of (Sx n) w a b) k ≡ bit_at a (min k (w - 1)) }
    ensures slice { (low n w a b k : ℕ) → k < n →
        bit_at (result_of (Slice low n) w a b) k ≡ bit_at a (low + k) }
{}

/// A comparison's value is 1 exactly where it holds. For the others see their opposites.
pub fn comparisons_say_what_holds()
    ensures equal { (w a b : ℕ) → (result_of Eq w a b ≡ 1) ↔ (a ≡ b) }
    ensures signed { (w a b : ℕ) → (result_of Lt w a b ≡ 1) ↔ (signed_of w a <ℤ signed_of w b) }
    ensures unsigned { (w a b : ℕ) → (result_of Ltu w a b ≡ 1) ↔ (a < b) }
{}

/// Each comparison has its opposite.
pub fn comparisons_have_opposites()
    ensures equal { (w a b : ℕ) → result_of Ne w a b ≡ 1 - result_of Eq w a b }
    ensures signed { (w a b : ℕ) → result_of Ge w a b ≡ 1 - result_of Lt w a b }
    ensures unsigned { (w a b : ℕ) → result_of Geu w a b ≡ 1 - result_of Ltu w a b }
{}

/// The operands of these operators may change places.
pub fn operators_commute()
    ensures add { (w a b : ℕ) → result_of Add w a b ≡ result_of Add w b a }
    ensures mul { (w a b : ℕ) → result_of Mul w a b ≡ result_of Mul w b a }
    ensures and { (w a b : ℕ) → result_of And w a b ≡ result_of And w b a }
    ensures or { (w a b : ℕ) → result_of Or w a b ≡ result_of Or w b a }
    ensures xor { (w a b : ℕ) → result_of Xor w a b ≡ result_of Xor w b a }
    ensures equal { (w a b : ℕ) → result_of Eq w a b ≡ result_of Eq w b a }
    ensures unequal { (w a b : ℕ) → result_of Ne w a b ≡ result_of Ne w b a }
{}

/// Three words may be put together from the left or from the right.
pub fn operators_associate()
    ensures add { (w a b c : ℕ) →
        result_of Add w (result_of Add w a b) c ≡ result_of Add w a (result_of Add w b c) }
    ensures mul { (w a b c : ℕ) →
        result_of Mul w (result_of Mul w a b) c ≡ result_of Mul w a (result_of Mul w b c) }
    ensures and { (w a b c : ℕ) →
        result_of And w (result_of And w a b) c ≡ result_of And w a (result_of And w b c) }
    ensures or { (w a b c : ℕ) →
        result_of Or w (result_of Or w a b) c ≡ result_of Or w a (result_of Or w b c) }
    ensures xor { (w a b c : ℕ) →
        result_of Xor w (result_of Xor w a b) c ≡ result_of Xor w a (result_of Xor w b c) }
{}

/// An operand that leaves the word as it is: 0, or all ones for `And`.
pub fn neutral_operands_change_nothing()
    ensures add { (w a : ℕ) → a < 2 ^ w → result_of Add w a 0 ≡ a }
    ensures or { (w a : ℕ) → result_of Or w a 0 ≡ a }
    ensures xor { (w a : ℕ) → result_of Xor w a 0 ≡ a }
    ensures shl { (w a : ℕ) → a < 2 ^ w → result_of Shl w a 0 ≡ a }
    ensures and { (w a : ℕ) → a < 2 ^ w → result_of And w a (2 ^ w - 1) ≡ a }
{}

/// Negations, complements, sums and differences by each other.
pub fn complements_negate()
    ensures negation { (w a b c : ℕ) → a < 2 ^ w →
        result_of Neg w a b ≡ result_of Add w (result_of Com w a c) 1 }
    ensures from_zero { (w a b : ℕ) → a < 2 ^ w → result_of Neg w a b ≡ result_of Sub w 0 a }
    ensures complement { (w a b c : ℕ) → a < 2 ^ w →
        result_of Com w a b ≡ result_of Sub w (result_of Neg w a c) 1 }
    ensures from_ones { (w a b : ℕ) → a < 2 ^ w →
        result_of Com w a b ≡ result_of Sub w (2 ^ w - 1) a }
    ensures with_ones { (w a b : ℕ) → a < 2 ^ w →
        result_of Com w a b ≡ result_of Xor w a (2 ^ w - 1) }
    ensures difference { (w a b c d : ℕ) → a < 2 ^ w → b < 2 ^ w →
        result_of Sub w a b ≡ result_of Com w (result_of Add w (result_of Com w a c) b) d }
    ensures sum { (w a b c : ℕ) → a < 2 ^ w → b < 2 ^ w →
        result_of Add w a b ≡ result_of Sub w a (result_of Neg w b c) }
    ensures restored { (w a b : ℕ) → a < 2 ^ w → b < 2 ^ w →
        result_of Add w (result_of Sub w a b) b ≡ a }
{}

/// The operators of logic by sums and differences, and by the complements of their operands.
pub fn logic_by_arithmetic()
    ensures xor { (w a b : ℕ) → a < 2 ^ w → b < 2 ^ w →
        result_of Xor w a b ≡ result_of Sub w (result_of Or w a b) (result_of And w a b) }
    ensures or { (w a b : ℕ) → a < 2 ^ w → b < 2 ^ w →
        result_of Or w a b ≡ result_of Add w (result_of Xor w a b) (result_of And w a b) }
    ensures and_of_complements { (w a b c d : ℕ) → a < 2 ^ w → b < 2 ^ w → result_of And w a b
        ≡ result_of Com w (result_of Or w (result_of Com w a c) (result_of Com w b c)) d }
    ensures or_of_complements { (w a b c d : ℕ) → a < 2 ^ w → b < 2 ^ w → result_of Or w a b
        ≡ result_of Com w (result_of And w (result_of Com w a c) (result_of Com w b c)) d }
{}

/// Comparisons by unsigned ones: two words are equal where no bit differs, and signed numbers are in
/// the order of the unsigned ones with the sign bit inverted.
pub fn comparisons_by_exclusive_or()
    ensures equal { (w a b : ℕ) → result_of Eq w a b ≡ result_of Ltu w (result_of Xor w a b) 1 }
    ensures unequal { (w a b : ℕ) → result_of Ne w a b ≡ result_of Ltu w 0 (result_of Xor w a b) }
    ensures signed { (w a b : ℕ) → IsWidth w → a < 2 ^ w → b < 2 ^ w → result_of Lt w a b
        ≡ result_of Ltu w (result_of Xor w a (2 ^ (w - 1))) (result_of Xor w b (2 ^ (w - 1))) }
    ensures unsigned { (w a b : ℕ) → IsWidth w → a < 2 ^ w → b < 2 ^ w → result_of Ltu w a b
        ≡ result_of Lt w (result_of Xor w a (2 ^ (w - 1))) (result_of Xor w b (2 ^ (w - 1))) }
{}

/// A word by its low `m` bits and the others. The second operands of slices are ignored, and an
/// extension with zeros does not change the number.
pub fn slices_make_the_word()
    ensures joined { (m w a c : ℕ) → m < w → a < 2 ^ w →
        result_of Or w (result_of Shl w (result_of (Slice m (w - m)) w a c) m)
        (result_of (Slice 0 m) w a c) ≡ a }
    ensures summed { (m w a c : ℕ) → 1 ≤ m → m < w → a < 2 ^ w →
        let low = result_of (Sx w) m (result_of (Slice 0 m) w a c) c in
        result_of Add w
        (result_of Shl w (result_of (Slice m (w - m)) w (result_of Sub w a low) c) m) low ≡ a }
    ensures masked { (m w a c : ℕ) →
        result_of (Zx w) m (result_of (Slice 0 m) w a c) c ≡ result_of And w a (2 ^ m - 1) }
    ensures shifted { (m w a c : ℕ) → 1 ≤ m → m ≤ w →
        result_of (Sx w) m (result_of (Slice 0 m) w a c) c
        ≡ result_of Shra w (result_of Shl w a (w - m)) (w - m) }
{}

/// Each comparison is the complement of its opposite, as a word of one bit.
pub fn comparisons_are_complements()
    ensures equal { (w a b c : ℕ) → result_of Eq w a b ≡ result_of Com 1 (result_of Ne w a b) c }
    ensures unequal { (w a b c : ℕ) → result_of Ne w a b ≡ result_of Com 1 (result_of Eq w a b) c }
    ensures less { (w a b c : ℕ) → result_of Lt w a b ≡ result_of Com 1 (result_of Ge w a b) c }
    ensures no_less { (w a b c : ℕ) → result_of Ge w a b ≡ result_of Com 1 (result_of Lt w a b) c }
    ensures below { (w a b c : ℕ) → result_of Ltu w a b ≡ result_of Com 1 (result_of Geu w a b) c }
    ensures not_below { (w a b c : ℕ) → result_of Geu w a b ≡ result_of Com 1 (result_of Ltu w a b) c }
{}

//! Numbers in decimal.
ghost use Rattle.std.specs.Prelude.{◌≡◌, ◌<◌, ◌^◌, ◌++◌, ℕ, List, true, false, IfSome, IsNone};
ghost use Rattle.std.specs.Fmt.{decimal};
ghost use Rattle.std.specs.Option.{SomeIff};
ghost use Rattle.std.specs.Char.{is_ascii_digit};
ghost use Rattle.std.specs.List.{list_all};
ghost use Rattle.qc_constants.specs.Inner.DigitRuns.{number_on, begins_with_digit};
ghost use Rattle.qc_constants.specs.Inner.DigitRuns as spec;

/// The longest run of digits at the front, and what follows it.
fn split_digits(bytes: &[u8]) -> (&[u8], &[u8])
    ensures split { bytes.now ≡ result.0.now ++ result.1.now }
    ensures digits { list_all is_ascii_digit result.0.now ≡ true }
    ensures longest { begins_with_digit result.1.now ≡ false }
{
    let mut count = 0;
    for byte in bytes {
        if !byte.is_ascii_digit() {
            break;
        }
        count += 1;
    }
    bytes.split_at(count)
}

/// The number that the digits make after those of `number`, if it is below 2 to the 32nd.
fn number_of_digits(number: u32, digits: &[u8]) -> Option<u32>
    requires { list_all is_ascii_digit digits.now ≡ true }
    ensures { SomeIff result (number_on number digits.now < 2 ^ 32) (number_on number digits.now) }
{
    match digits {
        [] => Some(number),
        [digit, more @ ..] => {
            let tens = number.checked_mul(10)?;
            let next = tens.checked_add(u32::from(*digit - b'0'))?;
            number_of_digits(next, more)
        }
    }
}

/// Whether there are digits, without a needless zero in front.
fn is_canonical(digits: &[u8]) -> bool
    ensures { result ≡ spec.is_canonical digits.now }
{
    match digits {
        [] => false,
        [_] => true,
        [first, ..] => *first != b'0',
    }
}

/// The number below 2 to the 32nd that the digits are in decimal.
fn whole_number(digits: &[u8]) -> Option<u32>
    requires { list_all is_ascii_digit digits.now ≡ true }
    ensures some { IfSome result (λ n. digits.now ≡ decimal n) }
    ensures none { IsNone result → (n : ℕ) → n < 2 ^ 32 → digits.now ≡ decimal n → ⊥ }
{
    if !is_canonical(digits) {
        return None;
    }
    number_of_digits(0, digits)
}

/// The number below 2 to the 32nd, without leading zeros, that is the longest run of digits at the front, and what
/// follows it.
pub(crate) fn number(bytes: &[u8]) -> Option<(u32, &[u8])>
    ensures some { IfSome result (λ r. (bytes.now ≡ decimal r.0 ++ r.1.now) × (begins_with_digit r.1.now ≡ false)) }
    ensures word { IfSome result (λ r. r.0 < 2 ^ 32) }
    ensures none { IsNone result → (n : ℕ) (rest : List ℕ) → n < 2 ^ 32 → begins_with_digit rest ≡ false →
        bytes.now ≡ decimal n ++ rest → ⊥ }
{
    let (digits, rest) = split_digits(bytes);
    match whole_number(digits) {
        Some(number) => Some((number, rest)),
        None => None,
    }
}

//! The values of numerals.
ghost use Rattle.std.specs.Prelude.{◌≡◌, ◌<◌, ◌≤◌, ◌^◌, min};
ghost use Rattle.qc_text.specs.Numerals.{number_of, number_on};
ghost use Rattle.qc_text.specs.Numerals as spec;

const LIMIT: u128 = 1 << 64;

fn digit_value(digit: u8) -> u128
    ensures value { result ≡ spec.digit_value digit }
    ensures small { result < 256 }
{
    let zero = if digit < b'A' {
        b'0'
    } else if digit < b'a' {
        b'A' - 10
    } else {
        b'a' - 10
    };
    u128::from(digit.saturating_sub(zero))
}

/// The number whose digits these are, up to the limit.
fn capped(base: u128, digits: &[u8]) -> u128
    requires { (0 < base) × (base ≤ 16) }
    ensures { result ≡ min (number_on base 0 digits.now) (2 ^ 64) }
{
    let mut value = 0;
    for digit in digits {
        value = LIMIT.min(value * base + digit_value(*digit));
    }
    value
}

/// The value of a number's text. All numbers of 2 to the 64th and more are told as 2 to the 64th.
pub fn number_value(text: &[u8]) -> u128
    ensures { result ≡ min (number_of text.now) (2 ^ 64) }
{
    if text.starts_with(b"0x") {
        capped(16, text.split_at(2).1)
    } else {
        capped(10, text)
    }
}

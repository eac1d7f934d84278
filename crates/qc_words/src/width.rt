ghost use Rattle.std.specs.Option.{SomeIff};
ghost use Rattle.std.specs.Prelude.{◌≡◌, ◌<◌, ◌^◌, ◌↔◌, IsTrue};

use std::marker::Model;

/// A number of bits from 1 to 64. Contracts see it as that number.
#[derive(Clone, Copy, Debug, PartialEq, Eq, Hash)]
pub struct Width(u8);

impl Model for Width {
    ghost use Rattle.std.specs.Prelude.{ℕ};
    ghost use Rattle.qc_words.specs.Width.{IsWidth};

    ghost Value = { ℕ };

    ghost view = { λ w. w.0 };

    ghost invariant = { λ w. IsWidth w.0 };

    ghost inverse = { λ n. record { 0 = n } };
}

impl Width {
    ghost use Rattle.qc_words.specs.Width.{IsWidth};

    /// The width of a single bit.
    pub const ONE: Width = Width(1);

    /// The width of `n` bits, where there is one.
    pub fn new(n: u8) -> Option<Width>
        ensures { SomeIff result (IsWidth n) n }
    {
        if n == 0 || n > 64 {
            None
        } else {
            Some(Width(n))
        }
    }

    /// The number of bits.
    pub fn bits(self) -> u8
        ensures value { result ≡ self }
        ensures range { IsWidth result }
    {
        self.0
    }

    /// Whether the number is a word of this width.
    pub fn holds(self, number: u64) -> bool
        ensures { IsTrue result ↔ (number < 2 ^ self) }
    {
        u128::from(number) < 1u128 << self.0
    }
}

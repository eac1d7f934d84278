//! Which of several faults is reported.
ghost use Rattle.std.specs.Prelude.{◌≡◌};
ghost use Rattle.qc_names.specs.Reported.{comes_before as is_before, reported, reported_of_both, unknown_unless};

/// A fault at a token of a text. The one of the least token is reported, at one token that of the least rank, and of one
/// rank the one that is listed first.
pub trait TokenFault: Copy + Drop {
    ghost use Rattle.std.specs.Prelude.{◌≡◌, ℕ};

    ghost token_of: { Self → ℕ };

    ghost rank_of: { Self → ℕ };

    ghost twice: { ℕ → Self };

    ghost unknown: { ℕ → Self };

    /// The number of the token.
    fn token(&self) -> usize
        ensures { result ≡ token_of self.now };

    /// The place of the fault's sort among those at one token.
    fn rank(&self) -> u8
        ensures { result ≡ rank_of self.now };

    /// The fault of a second declaration at a token.
    fn second_at(token: usize) -> Self
        ensures { result ≡ twice token };

    /// The fault of a name at a token that has no declaration.
    fn unknown_at(token: usize) -> Self
        ensures { result ≡ unknown token };
}

/// Whether a fault is reported rather than the other, which is listed before it.
fn comes_before<F: TokenFault>(fault: &F, other: &F) -> bool
    ensures { result ≡ is_before F.token_of F.rank_of fault.now other.now }
{
    fault.token() < other.token() || fault.token() == other.token() && fault.rank() < other.rank()
}

/// The fault that is reported where the first of two is listed before the second.
pub fn earlier<F: TokenFault>(first: Option<F>, second: Option<F>) -> Option<F>
    ensures { result ≡ reported_of_both F.token_of F.rank_of first second }
{
    match (first, second) {
        (None, second) => second,
        (first, None) => first,
        (Some(fault), Some(other)) => Some(if comes_before(&other, &fault) {
            other
        } else {
            fault
        }),
    }
}

/// The fault of a use of a name at a token, unless that is known.
pub fn known_or<F: TokenFault>(known: bool, token: usize) -> Option<F>
    ensures { result ≡ reported F.token_of F.rank_of (unknown_unless F.unknown known token) }
{
    if known {
        None
    } else {
        Some(F::unknown_at(token))
    }
}

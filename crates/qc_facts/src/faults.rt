use qc_names::TokenFault;
use std::alloc::AllocError;

/// Why a machine's text has no meaning, by the number of a token.
///
/// `UnknownName` is a name without a declaration that fits, or the number of a cell that its space hasn't. `TwiceNamed`
/// is a second declaration, or a second effect of an instruction that shows something. In a `WidthClash` the width
/// `found` should be `wanted`; 65 stands for all numbers above 64. In `TooMany` something is more than the limit.
#[derive(Clone, Copy, Debug, PartialEq, Eq)]
pub enum WidthFault {
    UnknownName { token: usize },
    TwiceNamed { token: usize },
    WidthClash { token: usize, found: u8, wanted: u8 },
    TooMany { token: usize, limit: u32 },
}

/// Why a machine's text was not elaborated.
#[derive(Clone, Copy, Debug, PartialEq, Eq)]
pub enum WidthEnd {
    Fault { fault: WidthFault },
    NoMemory,
}

impl TokenFault for WidthFault {
    ghost use Rattle.qc_facts.specs.declared.faults.WidthFault.TheVariants.{TwiceNamed as twice_fault};
    ghost use Rattle.qc_facts.specs.declared.faults.WidthFault.TheVariants.{UnknownName as unknown_fault};
    ghost use Rattle.qc_facts.specs.Faults.{token_of as token_of_fault, rank_of as rank_of_fault};

    ghost token_of = { token_of_fault };

    ghost rank_of = { rank_of_fault };

    ghost twice = { twice_fault };

    ghost unknown = { unknown_fault };

    fn token(&self) -> usize {
        match self {
            WidthFault::UnknownName { token }
            | WidthFault::TwiceNamed { token }
            | WidthFault::WidthClash { token, .. }
            | WidthFault::TooMany { token, .. } => *token,
        }
    }

    fn rank(&self) -> u8 {
        match self {
            WidthFault::UnknownName { .. } => 0,
            WidthFault::TwiceNamed { .. } => 1,
            WidthFault::WidthClash { .. } => 2,
            WidthFault::TooMany { .. } => 3,
        }
    }

    fn second_at(token: usize) -> WidthFault {
        WidthFault::TwiceNamed { token }
    }

    fn unknown_at(token: usize) -> WidthFault {
        WidthFault::UnknownName { token }
    }
}

impl From<AllocError> for WidthEnd {
    ghost use Rattle.std.specs.Prelude.{◌≡◌};
    ghost use Rattle.qc_facts.specs.declared.faults.WidthEnd.TheVariants.{NoMemory};

    ghost from_gives = { λ _ e. e ≡ NoMemory };

    fn from(_: AllocError) -> WidthEnd {
        WidthEnd::NoMemory
    }
}

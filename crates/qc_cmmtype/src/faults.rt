//! The faults of a program.
use qc_names::TokenFault;
use std::alloc::AllocError;

/// Why a program isn't typed, by the number of a token.
///
/// `UnknownName` is a name without a declaration that fits, `TwiceNamed` a second declaration. In a `WidthClash` the width
/// `found` should be `wanted`; 65 stands for all numbers above 64. In an `Arity` the number `found` of arguments, targets,
/// operands or results should be `wanted`; the greatest `u32` stands for all above it. `FallsOff` is the name of a procedure
/// whose body doesn't end, and `TargetMismatch` a byte order or word size that isn't the machine's. `DataTooLarge` has the
/// declared bytes, of which no more than the greatest `u64` are told, and those of the data region.
#[derive(Clone, Copy, Debug, PartialEq, Eq)]
pub enum ProgramFault {
    UnknownName {
        token: usize,
    },
    TwiceNamed {
        token: usize,
    },
    WidthClash {
        token: usize,
        found: u8,
        wanted: u8,
    },
    Arity {
        token: usize,
        found: u32,
        wanted: u32,
    },
    FallsOff {
        token: usize,
    },
    TargetMismatch {
        token: usize,
    },
    NoMain,
    DataTooLarge {
        bytes: u64,
        room: u64,
    },
}

/// Why a program was not checked.
#[derive(Clone, Copy, Debug, PartialEq, Eq)]
pub enum ProgramEnd {
    Fault { fault: ProgramFault },
    NoMemory,
}

impl TokenFault for ProgramFault {
    ghost use Rattle.qc_cmmtype.specs.declared.faults.ProgramFault.TheVariants.{TwiceNamed as twice_fault};
    ghost use Rattle.qc_cmmtype.specs.declared.faults.ProgramFault.TheVariants.{UnknownName as unknown_fault};
    ghost use Rattle.qc_cmmtype.specs.Faults.{token_of as token_of_fault, rank_of as rank_of_fault};

    ghost token_of = { token_of_fault };

    ghost rank_of = { rank_of_fault };

    ghost twice = { twice_fault };

    ghost unknown = { unknown_fault };

    fn token(&self) -> usize {
        match self {
            ProgramFault::UnknownName { token }
            | ProgramFault::TwiceNamed { token }
            | ProgramFault::WidthClash { token, .. }
            | ProgramFault::Arity { token, .. }
            | ProgramFault::FallsOff { token }
            | ProgramFault::TargetMismatch { token } => *token,
            ProgramFault::NoMain | ProgramFault::DataTooLarge { .. } => usize::MAX,
        }
    }

    fn rank(&self) -> u8 {
        match self {
            ProgramFault::UnknownName { .. } => 0,
            ProgramFault::TwiceNamed { .. } => 1,
            ProgramFault::WidthClash { .. } => 2,
            ProgramFault::Arity { .. } => 3,
            ProgramFault::FallsOff { .. } => 4,
            ProgramFault::TargetMismatch { .. } => 5,
            ProgramFault::NoMain => 6,
            ProgramFault::DataTooLarge { .. } => 7,
        }
    }

    fn second_at(token: usize) -> ProgramFault {
        ProgramFault::TwiceNamed { token }
    }

    fn unknown_at(token: usize) -> ProgramFault {
        ProgramFault::UnknownName { token }
    }
}

impl From<AllocError> for ProgramEnd {
    ghost use Rattle.std.specs.Prelude.{◌≡◌};
    ghost use Rattle.qc_cmmtype.specs.declared.faults.ProgramEnd.TheVariants.{NoMemory};

    ghost from_gives = { λ _ e. e ≡ NoMemory };

    fn from(_: AllocError) -> ProgramEnd {
        ProgramEnd::NoMemory
    }
}

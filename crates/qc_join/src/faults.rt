use qc_descr::DescrFault;
use qc_names::TokenFault;

/// Why a coding's text and a machine make no description: a fault among the names of the text, by the number of a token,
/// or else one of the description.
///
/// `UnknownName` is a name without a declaration that fits, and `TwiceNamed` is a second declaration.
#[derive(Clone, Copy, Debug, PartialEq, Eq)]
pub enum JoinFault {
    UnknownName { token: usize },
    TwiceNamed { token: usize },
    Descr { fault: DescrFault },
}

/// Why no description was made.
#[derive(Clone, Copy, Debug, PartialEq, Eq)]
pub enum JoinEnd {
    Fault { fault: JoinFault },
    NoMemory,
}

/// A fault among names.
#[derive(Clone, Copy, Debug, PartialEq, Eq)]
pub(crate) enum NameFault {
    Unknown { token: usize },
    Twice { token: usize },
}

impl TokenFault for NameFault {
    ghost use Rattle.qc_join.specs.declared.faults.NameFault.TheVariants.{Twice as twice_fault, Unknown as unknown_fault};
    ghost use Rattle.qc_join.specs.Faults.{token_of as token_of_fault, rank_of as rank_of_fault};

    ghost token_of = { token_of_fault };

    ghost rank_of = { rank_of_fault };

    ghost twice = { twice_fault };

    ghost unknown = { unknown_fault };

    fn token(&self) -> usize {
        match self {
            NameFault::Unknown { token } | NameFault::Twice { token } => *token,
        }
    }

    fn rank(&self) -> u8 {
        match self {
            NameFault::Unknown { .. } => 0,
            NameFault::Twice { .. } => 1,
        }
    }

    fn second_at(token: usize) -> NameFault {
        NameFault::Twice { token }
    }

    fn unknown_at(token: usize) -> NameFault {
        NameFault::Unknown { token }
    }
}

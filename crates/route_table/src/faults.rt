// What is wrong with a configuration.
ghost use Rattle.std.specs.Prelude.{◌≡◌};
ghost use Rattle.route_table.specs.declared.faults.FaultKind.TheVariants.{Memory};
ghost use Rattle.route_table.specs.FaultNumbers.{fault_number};

use std::alloc::{AllocError, AllocFailed};
use thiserror::Error;

/// Why a line of a configuration is refused.
#[derive(Clone, Copy, Debug, PartialEq, Eq, Error)]
pub enum FaultKind {
    /// A line that is no head, key with a value, end, comment or blank, or that isn't allowed where it stands; a key given
    /// twice; a section without its end.
    #[error("syntax")]
    Syntax,
    /// A section that isn't known.
    #[error("unknown section")]
    UnknownSection,
    /// An attribute that the section doesn't have.
    #[error("unknown attribute")]
    UnknownAttribute,
    /// A value that the attribute doesn't take, a required attribute that is missing, or one section of a kind too
    /// many.
    #[error("bad value")]
    BadValue,
    /// A prefix that an earlier section has, of a link route in the same direction.
    #[error("duplicate prefix")]
    DuplicatePrefix,
    /// There was no memory to go on.
    #[error("no memory")]
    Memory,
}

impl FaultKind {
    /// The number of the fault, from 1.
    pub fn number(self) -> u8
        ensures { result ≡ fault_number self }
    {
        match self {
            FaultKind::Syntax => 1,
            FaultKind::UnknownSection => 2,
            FaultKind::UnknownAttribute => 3,
            FaultKind::BadValue => 4,
            FaultKind::DuplicatePrefix => 5,
            FaultKind::Memory => 6,
        }
    }
}

impl From<AllocError> for FaultKind {
    ghost from_gives = { λ _ e. e ≡ Memory };

    fn from(_error: AllocError) -> FaultKind {
        FaultKind::Memory
    }
}

impl<T: Drop> From<AllocFailed<T>> for FaultKind {
    ghost from_gives = { λ _ e. e ≡ Memory };

    fn from(_error: AllocFailed<T>) -> FaultKind {
        FaultKind::Memory
    }
}

/// The first faulty line of a configuration.
#[derive(Clone, Copy, Debug, PartialEq, Eq, Error)]
#[error("line {line}: {kind}")]
pub struct ConfigFault {
    /// The line's number, counted from 1. At `Memory` the line that was being read, and 0 once all lines were read.
    pub line: usize,
    /// What is wrong with it.
    pub kind: FaultKind,
}

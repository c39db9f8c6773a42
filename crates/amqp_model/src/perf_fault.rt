//! Why bytes encode no performative.
ghost use Rattle.std.specs.Prelude.{◌≡◌};
ghost use Rattle.amqp_model.specs.PerfFaults.{fault_number, outer};
ghost use Rattle.amqp_model.specs.declared.perf_fault.PerfFault.TheVariants.{Memory};

use crate::type_fault::TypeFault;
use std::alloc::{AllocError, AllocFailed};
use thiserror::Error;

/// Why bytes encode no performative; `number` has the fault's number.
#[derive(Clone, Copy, Debug, PartialEq, Eq, Error)]
pub enum PerfFault {
    /// A value on the way is not encoded as the type system wants it.
    #[error("a value is misspelt: {0}")]
    Spelling(TypeFault),
    /// What stands there is no described list with a known descriptor.
    #[error("not a performative")]
    NotPerformative,
    /// A required field is null or absent.
    #[error("a required field is missing")]
    MissingField,
    /// A field holds a value of another kind than its own.
    #[error("a field holds a value of the wrong kind")]
    WrongKind,
    /// The list has more items than the performative has fields.
    #[error("there are more fields than the performative has")]
    TooManyFields,
    /// A delivery tag has more than 32 bytes.
    #[error("a delivery tag has more than 32 bytes")]
    TagTooLong,
    /// An unsettled map names one delivery tag twice.
    #[error("an unsettled map has a delivery tag twice")]
    DuplicateTag,
    /// Memory was refused.
    #[error("out of memory")]
    Memory,
}

impl PerfFault {
    /// The fault's number, from 1 to 8.
    pub fn number(&self) -> u8
        ensures { result ≡ fault_number self.now }
    {
        match self {
            PerfFault::Spelling(_) => 1,
            PerfFault::NotPerformative => 2,
            PerfFault::MissingField => 3,
            PerfFault::WrongKind => 4,
            PerfFault::TooManyFields => 5,
            PerfFault::TagTooLong => 6,
            PerfFault::DuplicateTag => 7,
            PerfFault::Memory => 8,
        }
    }
}

impl From<TypeFault> for PerfFault {
    ghost from_gives = { λ f e. e ≡ outer f };

    fn from(fault: TypeFault) -> PerfFault {
        match fault {
            TypeFault::Memory => PerfFault::Memory,
            fault => PerfFault::Spelling(fault),
        }
    }
}

impl From<AllocError> for PerfFault {
    ghost from_gives = { λ _ e. e ≡ Memory };

    fn from(_fault: AllocError) -> PerfFault {
        PerfFault::Memory
    }
}

impl<T: Drop> From<AllocFailed<T>> for PerfFault {
    ghost from_gives = { λ _ e. e ≡ Memory };

    fn from(_fault: AllocFailed<T>) -> PerfFault {
        PerfFault::Memory
    }
}

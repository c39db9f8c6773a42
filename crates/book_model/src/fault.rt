//! Why acts don't apply.
ghost use Rattle.std.specs.Prelude.{◌≡◌};
ghost use Rattle.book_model.specs.Fault.{fault_number};
ghost use Rattle.book_model.specs.declared.fault.BookFault.TheVariants.{Memory};

use std::alloc::{AllocError, AllocFailed};
use thiserror::Error;

/// Why an act doesn't apply to a book; `number` has the fault's number.
#[derive(Clone, Copy, Debug, PartialEq, Eq, Error)]
pub enum BookFault {
    /// There is no such terminus, or it isn't the next to be made or isn't free to be dropped.
    #[error("no such terminus")]
    NoTerminus,
    /// There is no such row, or it isn't the next to be admitted, or it is forgotten.
    #[error("no such row")]
    NoRow,
    /// The row is decided.
    #[error("the row is decided")]
    AlreadyDecided,
    /// An unforgotten row of the producer's terminus has the tag.
    #[error("the tag is in use")]
    TagInUse,
    /// A limit of the book is reached, or a text, a payload or an outcome is too long.
    #[error("a limit is reached")]
    Limit,
    /// Memory was refused.
    #[error("out of memory")]
    Memory,
}

impl BookFault {
    /// The fault's number, from 1.
    pub fn number(self) -> u8
        ensures { result ≡ fault_number self }
    {
        match self {
            BookFault::NoTerminus => 1,
            BookFault::NoRow => 2,
            BookFault::AlreadyDecided => 3,
            BookFault::TagInUse => 4,
            BookFault::Limit => 5,
            BookFault::Memory => 6,
        }
    }
}

impl From<AllocError> for BookFault {
    ghost from_gives = { λ _ f. f ≡ Memory };

    fn from(_error: AllocError) -> BookFault {
        BookFault::Memory
    }
}

impl<T: Drop> From<AllocFailed<T>> for BookFault {
    ghost from_gives = { λ _ f. f ≡ Memory };

    fn from(_error: AllocFailed<T>) -> BookFault {
        BookFault::Memory
    }
}

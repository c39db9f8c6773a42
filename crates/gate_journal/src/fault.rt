//! Why a journal can't be opened, and why a batch isn't appended.
ghost use Rattle.std.specs.Prelude.{◌≡◌};
ghost use Rattle.gate_journal.specs.Fault.{fault_of_disk, fault_of_open};
ghost use Rattle.gate_journal.specs.declared.fault.JournalFault.TheVariants as journal;
ghost use Rattle.gate_journal.specs.declared.fault.OpenFault.TheVariants as opening;

use disk_core::DiskFault;
use std::alloc::{AllocError, AllocFailed};
use thiserror::Error;

/// Why a journal can't be opened.
#[derive(Clone, Copy, Debug, PartialEq, Eq, Error)]
pub enum OpenFault {
    /// The file is shorter than 9 bytes, or doesn't begin with a journal's magic.
    #[error("not a journal")]
    NotAJournal,
    /// The gate at this place is open, and no batch follows it that can be read and that applies to the book.
    #[error("damaged at {at}")]
    Damaged {
        /// The place of the gate, in bytes from the file's beginning.
        at: usize,
    },
    /// The disk failed.
    #[error("the disk failed")]
    Disk,
    /// Memory was refused.
    #[error("out of memory")]
    Memory,
}

/// Why a batch isn't appended.
#[derive(Clone, Copy, Debug, PartialEq, Eq, Error)]
pub enum JournalFault {
    /// The batch costs more than the room. Nothing is changed.
    #[error("the journal is full")]
    Full,
    /// The disk failed. The journal has to be opened again.
    #[error("the disk failed")]
    Disk,
    /// Memory was refused. The journal has to be opened again.
    #[error("out of memory")]
    Memory,
    /// An earlier call answered `Disk` or `Memory`.
    #[error("the journal failed before")]
    Failed,
}

impl From<AllocError> for JournalFault {
    ghost from_gives = { λ _ f. f ≡ journal.Memory };

    fn from(_error: AllocError) -> JournalFault {
        JournalFault::Memory
    }
}

impl From<DiskFault> for JournalFault {
    ghost from_gives = { λ f g. g ≡ fault_of_disk f };

    fn from(fault: DiskFault) -> JournalFault {
        match fault {
            DiskFault::Failed => JournalFault::Disk,
            DiskFault::Memory => JournalFault::Memory,
        }
    }
}

impl From<AllocError> for OpenFault {
    ghost from_gives = { λ _ f. f ≡ opening.Memory };

    fn from(_error: AllocError) -> OpenFault {
        OpenFault::Memory
    }
}

impl<T: Drop> From<AllocFailed<T>> for OpenFault {
    ghost from_gives = { λ _ f. f ≡ opening.Memory };

    fn from(_error: AllocFailed<T>) -> OpenFault {
        OpenFault::Memory
    }
}

impl From<DiskFault> for OpenFault {
    ghost from_gives = { λ f g. g ≡ fault_of_open f };

    fn from(fault: DiskFault) -> OpenFault {
        match fault {
            DiskFault::Failed => OpenFault::Disk,
            DiskFault::Memory => OpenFault::Memory,
        }
    }
}

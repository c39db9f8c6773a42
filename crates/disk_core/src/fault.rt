//! The faults of a disk.
ghost use Rattle.std.specs.Prelude.{◌≡◌};
ghost use Rattle.disk_core.specs.Fault.{number_of};
ghost use Rattle.disk_core.specs.declared.fault.DiskFault.TheVariants.{Memory};

use std::alloc::{AllocError, AllocFailed};
use thiserror::Error;

/// Why a disk did not do a call.
#[derive(Clone, Copy, Debug, PartialEq, Eq, Error)]
pub enum DiskFault {
    /// The device failed. Its count of failures is one higher.
    #[error("the disk failed")]
    Failed,
    /// Memory, or room for the position, ran out. Nothing was done.
    #[error("out of memory")]
    Memory,
}

impl DiskFault {
    /// The number under which programs report this fault: 1 `Failed`, 2 `Memory`.
    pub fn number(self) -> u8
        ensures { result ≡ number_of self }
    {
        match self {
            DiskFault::Failed => 1,
            DiskFault::Memory => 2,
        }
    }
}

impl From<AllocError> for DiskFault {
    ghost from_gives = { λ _ fault. fault ≡ Memory };

    fn from(_error: AllocError) -> Self {
        DiskFault::Memory
    }
}

impl<T: Drop> From<AllocFailed<T>> for DiskFault {
    ghost from_gives = { λ _ fault. fault ≡ Memory };

    fn from(_error: AllocFailed<T>) -> Self {
        DiskFault::Memory
    }
}

//! Errors of the router.
ghost use Rattle.std.specs.Prelude.{◌≡◌};
ghost use Rattle.core_machine.specs.Faults.{number_of};

use thiserror::Error;

/// An error of the router; `number` returns the fault's number.
#[derive(Clone, Copy, Debug, PartialEq, Eq, Error)]
pub enum CoreFault {
    /// The disk failed.
    #[error("the disk failed")]
    Disk,
    /// Memory was refused.
    #[error("out of memory")]
    Memory,
    /// An earlier call failed with a fault of the disk or of memory.
    #[error("the router failed before")]
    Failed,
    /// The connection doesn't exist, or the number of a new one doesn't rise.
    #[error("no such connection")]
    NoConnection,
}

impl CoreFault {
    /// The fault's number: 1 to 4, in the order above.
    pub fn number(self) -> u8
        ensures { result ≡ number_of self }
    {
        match self {
            CoreFault::Disk => 1,
            CoreFault::Memory => 2,
            CoreFault::Failed => 3,
            CoreFault::NoConnection => 4,
        }
    }
}

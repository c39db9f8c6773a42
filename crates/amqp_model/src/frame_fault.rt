//! Why bytes are no item, or why no item can be read.
ghost use Rattle.std.specs.Prelude.{◌≡◌};
ghost use Rattle.amqp_model.specs.FrameFaults.{fault_number, of_perf};

use crate::perf_fault::PerfFault;
use thiserror::Error;

/// Why bytes are no item of a stream (the first five), or why a reader answers none.
#[derive(Clone, Copy, Debug, PartialEq, Eq, Error)]
pub enum FrameFault {
    /// The frame's size is below 8.
    #[error("the frame's size is below 8")]
    TooSmall,
    /// The data offset is below 2, or past the frame's end.
    #[error("the data offset is below 2 or past the frame's end")]
    BadOffset,
    /// The frame has more than 16,384 bytes, or a SASL frame more than 512.
    #[error("the frame is too large")]
    TooLarge,
    /// The frame's type is neither AMQP (0) nor SASL (1).
    #[error("the frame's type is unknown")]
    BadType,
    /// The body is no performative, or has bytes after it that it can't have.
    #[error("the frame's body is at fault: {0}")]
    Perf(PerfFault),
    /// Memory was refused; nothing of the piece was taken.
    #[error("out of memory")]
    Memory,
    /// An earlier call answered a fault, or gave a `Bad`.
    #[error("the stream ended in a fault before")]
    Failed,
}

impl FrameFault {
    /// The fault's number, 1 to 7 in the order above.
    pub fn number(&self) -> u8
        ensures { result ≡ fault_number self.now }
    {
        match self {
            FrameFault::TooSmall => 1,
            FrameFault::BadOffset => 2,
            FrameFault::TooLarge => 3,
            FrameFault::BadType => 4,
            FrameFault::Perf(_) => 5,
            FrameFault::Memory => 6,
            FrameFault::Failed => 7,
        }
    }
}

impl From<PerfFault> for FrameFault {
    ghost from_gives = { λ e f. f ≡ of_perf e };

    fn from(fault: PerfFault) -> FrameFault {
        match fault {
            PerfFault::Memory => FrameFault::Memory,
            other => FrameFault::Perf(other),
        }
    }
}

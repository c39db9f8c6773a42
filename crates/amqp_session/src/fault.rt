//! Why a transfer is not taken.
ghost use Rattle.std.specs.Prelude.{◌≡◌};

use thiserror::Error;

/// Why a transfer is not taken; `number` has the fault's number.
#[derive(Clone, Copy, Debug, PartialEq, Eq, Error)]
pub enum SessionFault {
    /// The peer sent more transfers than its window allows (AMQP 1.0 part 2, section 2.8.17:
    /// `amqp:session:window-violation`).
    #[error("the peer sent more transfers than it was told that it may")]
    WindowViolation,
}

impl SessionFault {
    /// The fault's number: 1.
    pub fn number(self) -> u8
        ensures { result ≡ 1 }
    {
        match self {
            SessionFault::WindowViolation => 1,
        }
    }
}

//! Why an item is not taken.
ghost use Rattle.std.specs.Prelude.{◌≡◌};
ghost use Rattle.amqp_conn.specs.Phase.{number_of};

use thiserror::Error;

/// Why an item is not taken in the phase that a connection is in; `number` has the fault's number.
#[derive(Clone, Copy, Debug, PartialEq, Eq, Error)]
pub enum ConnFault {
    /// The item is out of turn: a second header or open, a frame before the open, or anything after the close.
    #[error("the item is out of turn")]
    WrongPhase,
    /// The open's max-frame-size is below 512 bytes (AMQP 1.0 part 2, section 2.7.1: MIN-MAX-FRAME-SIZE).
    #[error("the peer's largest frame is below 512 bytes")]
    FrameSizeTooSmall,
    /// The frame's channel is above 14, the highest that the router announced in its open.
    #[error("the channel is above 14")]
    ChannelTooHigh,
}

impl ConnFault {
    /// The fault's number: 1, 2 or 3, in the order above.
    pub fn number(self) -> u8
        ensures { result ≡ number_of self }
    {
        match self {
            ConnFault::WrongPhase => 1,
            ConnFault::FrameSizeTooSmall => 2,
            ConnFault::ChannelTooHigh => 3,
        }
    }
}

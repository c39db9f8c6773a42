//! What begins and flows say of a session.
use crate::serial::Serial;

/// What a begin says of its sender's end (AMQP 1.0 part 2, section 2.7.2).
#[derive(Clone, Copy, Debug, PartialEq, Eq)]
pub struct BeginState {
    /// The id of its first transfer.
    pub next_outgoing: Serial,
    /// How many transfers it accepts.
    pub incoming_window: u32,
}

/// What a flow says of its sender's end (AMQP 1.0 part 2, section 2.7.4).
#[derive(Clone, Copy, Debug, PartialEq, Eq)]
pub struct FlowState {
    /// The id of the transfer that it expects next; none before it knows the other end's begin.
    pub next_incoming: Option<Serial>,
    /// How many transfers it accepts, from that one on.
    pub incoming_window: u32,
    /// The id of its own next transfer.
    pub next_outgoing: Serial,
}

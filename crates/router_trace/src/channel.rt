//! The state of a peer's channel.

/// What a peer's channel stands for (AMQP 1.0 part 2, section 2.5).
#[derive(Clone, Copy, Debug, PartialEq, Eq)]
pub enum PeerChannel {
    /// A session; this is the router's channel of it.
    Mapped(u16),
    /// The router has ended the session and is waiting for the peer's end.
    Ending,
}

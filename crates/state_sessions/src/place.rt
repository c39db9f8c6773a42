//! What is on a peer's channel.
use amqp_session::Window;

/// What a peer's channel stands for, by one look-up.
#[derive(Clone, Copy, Debug, PartialEq, Eq)]
pub struct FoundSession {
    /// The router's channel that it stands for, if it stands for one.
    pub own: Option<u16>,
    /// What is on it.
    pub place: Place,
}

/// What is on a peer's channel.
#[derive(Clone, Copy, Debug, PartialEq, Eq)]
pub enum Place {
    /// Nothing.
    Nowhere,
    /// The router has ended the session and is waiting for the peer's end.
    Ending,
    /// A session.
    On {
        /// The router's channel of the session.
        own: u16,
        /// Its windows.
        window: Window,
    },
}

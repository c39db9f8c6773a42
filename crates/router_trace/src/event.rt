//! The router's input events.
use amqp_model::{Item, Text};

/// The number of a connection. Each connection that comes up has a higher number than those before it.
#[derive(Clone, Copy, Debug, PartialEq, Eq)]
pub struct ConnectionId(pub u64);

/// The role of a peer, which its listener determines.
#[derive(Clone, Copy, Debug, PartialEq, Eq)]
pub enum PeerRole {
    /// A client.
    Normal,
    /// A container to which links are routed.
    RouteContainer,
}

/// The peer at the other end of a connection.
#[derive(Debug, Drop)]
pub struct Peer {
    /// The user that the peer logged in as; `anonymous` if it didn't log in.
    pub user: Text,
    /// Its role.
    pub role: PeerRole,
}

/// An input event. The router handles one at a time.
#[derive(Debug, Drop)]
pub enum Event {
    /// A connection came up.
    Up(ConnectionId, Peer),
    /// An item was received on a connection.
    Item(ConnectionId, Item),
    /// A connection was lost.
    Down(ConnectionId),
    /// The time: milliseconds since a moment that the caller chose.
    Tick(u64),
    /// The router starts with what its journal holds.
    Start,
}

//! The ends of a routed link.
use router_trace::ConnectionId;

/// Which routed link: how many were routed before it, over all connections, since the router was opened.
#[derive(Clone, Copy, Debug, PartialEq, Eq)]
pub struct LinkNumber(pub u64);

/// The ends of a routed link.
#[derive(Clone, Copy, Debug, PartialEq, Eq)]
pub enum Side {
    /// That on which the link's attach came.
    Near,
    /// That to which the link is led.
    Far,
}

/// An end of a routed link: its link, and which of the two it is.
#[derive(Clone, Copy, Debug, PartialEq, Eq)]
pub struct LinkEnd {
    /// The link.
    pub link: LinkNumber,
    /// The side.
    pub side: Side,
}

/// Where an end of a routed link is.
#[derive(Clone, Copy, Debug, PartialEq, Eq)]
pub struct RoutedPlace {
    /// The connection.
    pub conn: ConnectionId,
    /// The router's channel of the session.
    pub channel: u16,
    /// The router's handle of the link.
    pub handle: u32,
}

/// What the router did on an end of a routed link (AMQP 1.0 part 2, section 2.6).
#[derive(Clone, Copy, Debug, PartialEq, Eq)]
pub enum OurEnd {
    /// Its attach is still to go out.
    Waiting,
    /// Its attach is out.
    Attached,
    /// Its detach is out.
    Detached,
}

/// What the peer did on an end of a routed link (AMQP 1.0 part 2, section 2.6).
#[derive(Clone, Copy, Debug, PartialEq, Eq)]
pub enum PeerEnd {
    /// Its attach is awaited.
    Awaited,
    /// It attached, on this handle of its own.
    Attached(u32),
    /// It detached.
    Detached,
}

/// What a peer's handle stands for among routed links.
#[derive(Clone, Copy, Debug, PartialEq, Eq)]
pub enum RoutedAt {
    /// Nothing.
    Nowhere,
    /// The router has detached the link there and is waiting for the peer's detach; other frames on the handle are dropped.
    Detaching,
    /// An end of a routed link.
    On(LinkEnd),
}

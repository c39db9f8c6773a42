//! Where a link is.
ghost use Rattle.std.specs.Prelude.{◌≡◌};

use router_trace::{Attachment, ConnectionId};

/// The place of a link: a handle on a session of a connection. Whether it is the router's handle or its peer's, each call
/// says.
#[derive(Clone, Copy, Debug, PartialEq, Eq)]
pub struct LinkPlace {
    /// The connection.
    pub conn: ConnectionId,
    /// The router's channel of the session.
    pub own: u16,
    /// The handle.
    pub handle: u32,
}

impl LinkPlace {
    /// The router's handle of a link.
    pub fn of(link: Attachment) -> LinkPlace
        ensures { result ≡ record { conn = link.conn; own = link.channel; handle = link.handle } }
    {
        LinkPlace {
            conn: link.conn,
            own: link.channel,
            handle: link.handle,
        }
    }
}

//! The steps of a script.
use amqp_model::Binary;
use router_trace::{ConnectionId, PeerRole};

/// A step of a script.
#[derive(Debug, Drop)]
pub enum Step {
    /// A connection is made.
    Up {
        /// Its number, above those of all before it.
        conn: ConnectionId,
        /// The peer's role.
        role: PeerRole,
    },
    /// Bytes are received on a connection.
    In {
        /// The connection.
        conn: ConnectionId,
        /// The bytes.
        bytes: Binary,
    },
    /// A connection is lost.
    Down {
        /// The connection.
        conn: ConnectionId,
    },
    /// The time: milliseconds since a moment that the script chose.
    Tick {
        /// The milliseconds.
        ms: u64,
    },
    /// The router's disk gets a fuse: after so many calls more every call fails. A fuse that was set before is replaced.
    Fuse {
        /// The calls that go through.
        calls: u64,
    },
}

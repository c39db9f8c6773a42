//! The items that a stream is cut into.
use crate::frame_fault::FrameFault;
use crate::perf::Perf;
use bytes::Bytes;

/// An item of a stream (AMQP 1.0 part 2, sections 2.2 and 2.3).
#[derive(Debug, Drop)]
pub enum Item {
    /// A protocol header: `AMQP` and these four bytes (AMQP 1.0 part 2, section 2.2).
    Header {
        /// 0 for AMQP, 2 for TLS, 3 for SASL.
        id: u8,
        /// The major version.
        major: u8,
        /// The minor version.
        minor: u8,
        /// The revision.
        revision: u8,
    },
    /// A frame with a body (AMQP 1.0 part 2, section 2.3).
    Frame {
        /// Whether its type is SASL (part 5, section 5.3.1).
        sasl: bool,
        /// Its channel; 0 in a SASL frame.
        channel: u16,
        /// Its performative or SASL body.
        perf: Perf,
        /// The bytes after the performative; only a transfer has any.
        payload: Bytes,
    },
    /// An empty frame, which shows that the peer is there (AMQP 1.0 part 2, section 2.4.5).
    Beat {
        /// Its channel.
        channel: u16,
    },
    /// Bytes that are no item. Nothing follows it.
    Bad(FrameFault),
}

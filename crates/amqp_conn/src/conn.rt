//! The phase that a connection is in.
ghost use Rattle.std.specs.Prelude.{◌≡◌, false};
ghost use Rattle.amqp_conn.specs.Phase.{with_header, with_open, over, header_in_turn, open_in_turn, frame_in_turn, close_in_turn};

use crate::fault::ConnFault;
use amqp_model::Open;

/// The smallest max-frame-size that a peer may announce, in bytes (AMQP 1.0 part 2, section 2.7.1: MIN-MAX-FRAME-SIZE).
pub const MIN_MAX_FRAME_SIZE: u32 = 512;

/// The highest channel that the router accepts, as its open announces.
pub const CHANNEL_MAX: u16 = 14;

/// The phase of a connection: which of header, open and close were exchanged (AMQP 1.0 part 2, section 2.4.6). The router
/// answers each in the event in which it comes, so a thing is exchanged once the router's own is written. So `take_header`,
/// `take_open`, `take_frame` and `take_close` ask whether the peer's item is in turn, and change nothing; what the router writes
/// in answer moves the phase: `with_header`, `with_open`, `over`.
///
/// These are three facts, and not one of the standard's states, since none of them rules out another: header and open come in
/// either order (a caller that wants the header first refuses other items before it), and a connection that is over because its
/// outbox is full has its close yet to be written, with an open before it where there was none. The standard's START, HDR EXCH,
/// OPENED and END are none of them, the header alone, header and open, and the close.
#[derive(Clone, Copy, Debug, PartialEq, Eq)]
pub struct Conn {
    /// Whether headers were exchanged.
    pub header: bool,
    /// Whether opens were exchanged.
    pub opened: bool,
    /// Whether the connection is over.
    pub closed: bool,
}

impl Conn {
    /// A connection on which nothing has come yet.
    pub fn new() -> Conn
        ensures { result ≡ record { header = false; opened = false; closed = false } }
    {
        Conn {
            header: false,
            opened: false,
            closed: false,
        }
    }

    /// The phase once headers are exchanged.
    pub fn with_header(self) -> Conn
        ensures { result ≡ with_header self }
    {
        Conn {
            header: true,
            ..self
        }
    }

    /// The phase once opens are exchanged.
    pub fn with_open(self) -> Conn
        ensures { result ≡ with_open self }
    {
        Conn {
            opened: true,
            ..self
        }
    }

    /// The phase once the connection is over.
    pub fn over(self) -> Conn
        ensures { result ≡ over self }
    {
        Conn {
            closed: true,
            ..self
        }
    }

    /// Asks whether a header is in turn. `WrongPhase` where headers were exchanged or the connection is over.
    pub fn take_header(self) -> Result<(), ConnFault>
        ensures { result ≡ header_in_turn self }
    {
        if self.closed {
            return Err(ConnFault::WrongPhase);
        }
        if self.header {
            return Err(ConnFault::WrongPhase);
        }
        Ok(())
    }

    /// Asks whether an open is in turn, on any channel. `WrongPhase` where opens were exchanged or the connection is over, else
    /// `FrameSizeTooSmall` where its max-frame-size is below 512 bytes.
    pub fn take_open(self, open: &Open) -> Result<(), ConnFault>
        ensures { result ≡ open_in_turn «open».now self }
    {
        if self.closed {
            return Err(ConnFault::WrongPhase);
        }
        if self.opened {
            return Err(ConnFault::WrongPhase);
        }
        if open.max_frame_size < MIN_MAX_FRAME_SIZE {
            return Err(ConnFault::FrameSizeTooSmall);
        }
        Ok(())
    }

    /// Asks whether a frame on this channel that is neither open nor close is in turn. `WrongPhase` before the open and where the
    /// connection is over, else `ChannelTooHigh` above channel 14.
    pub fn take_frame(self, channel: u16) -> Result<(), ConnFault>
        ensures { result ≡ frame_in_turn channel self }
    {
        if self.closed {
            return Err(ConnFault::WrongPhase);
        }
        if !self.opened {
            return Err(ConnFault::WrongPhase);
        }
        if channel > CHANNEL_MAX {
            return Err(ConnFault::ChannelTooHigh);
        }
        Ok(())
    }

    /// Asks whether a close on this channel is in turn. It is where another frame is, and fails as `take_frame` does.
    pub fn take_close(self, channel: u16) -> Result<(), ConnFault>
        ensures { result ≡ close_in_turn channel self }
    {
        self.take_frame(channel)
    }
}

//! The rows of a close.
ghost use Rattle.std.specs.Prelude.{◌≡◌};
ghost use Rattle.reply_rows.specs.Rows.{close_reply};

use crate::answer::Answer;
use crate::frame::out_of_turn;
use amqp_conn::Conn;

/// A close: the router's close, which ends the connection (AMQP 1.0 part 2, section 2.7.9); where it isn't in turn, what any frame
/// gets there.
pub(crate) fn close_reply(phase: Conn, channel: u16) -> Answer
    ensures { result ≡ close_reply phase channel }
{
    match phase.take_close(channel) {
        Ok(()) => Answer::Close,
        Err(fault) => out_of_turn(fault),
    }
}

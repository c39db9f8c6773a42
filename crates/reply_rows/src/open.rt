//! The rows of an open.
ghost use Rattle.std.specs.Prelude.{◌≡◌};
ghost use Rattle.reply_rows.specs.Rows.{open_reply};

use crate::answer::Answer;
use amqp_conn::Conn;
use amqp_model::Open;
use router_trace::Condition;

/// The longest container-id that the router accepts, in bytes.
pub const CONTAINER_ID: usize = 1024;

/// An open: a second one, or one whose largest frame is below 512 bytes, closes with `amqp:not-allowed`; a container-id
/// above 1,024 bytes with `amqp:resource-limit-exceeded`; any other is answered by the router's open.
pub(crate) fn open_reply(phase: Conn, open: &Open) -> Answer
    ensures { result ≡ open_reply phase «open».now }
{
    let long = open.container_id.as_str().len() > CONTAINER_ID;
    match phase.take_open(open) {
        Ok(()) => {
            if long {
                Answer::CloseWith(Condition::ResourceLimitExceeded)
            } else {
                Answer::Open
            }
        }
        Err(_) => Answer::CloseWith(Condition::NotAllowed),
    }
}

//! The rows of an end.
ghost use Rattle.std.specs.Prelude.{◌≡◌};
ghost use Rattle.router_trace.specs.Sessions.{place, Place as At};
ghost use Rattle.state_sessions.specs.Fits.{found_of};
ghost use Rattle.reply_rows.specs.Rows.{end_reply};

use crate::answer::Answer;
use crate::frame::no_session_reply;
use state_sessions::Place;

/// An end: the router's end, without an error; nothing if it answers the router's own end (AMQP 1.0 part 2, section
/// 2.7.8).
pub(crate) fn end_reply(place: Place) -> Answer
    ensures { (at : At) → place ≡ found_of at → result ≡ end_reply at }
{
    match place {
        Place::Nowhere => no_session_reply(),
        Place::Ending => Answer::Nothing,
        Place::On { own, .. } => Answer::End { own, error: None },
    }
}

//! The rows of a detach.
ghost use Rattle.std.specs.Prelude.{◌≡◌, List, ℕ, Some};
ghost use Rattle.router_trace.specs.Trace.{Entry};
ghost use Rattle.router_trace.specs.Links.{link_place, LinkPlace, found_link};
ghost use Rattle.router_trace.specs.Sessions.{place};
ghost use Rattle.router_state.specs.Finding.{IsFoundBy};
ghost use Rattle.reply_rows.specs.Rows.{detach_reply};
ghost use Rattle.reply_rows.specs.LinkRows.{session_detach_reply};

mod closing;

use crate::answer::Answer;
use crate::frame::{end_unattached, no_session_reply};
use amqp_model::Detach;
pub(crate) use closing::does;
use router_state::Found;
use router_trace::LinkAt;
use state_sessions::Place;

/// A detach on a session: the router's detach, closed as the peer's is; nothing if it answers the router's own detach (AMQP 1.0 part 2,
/// section 2.7.7).
fn session_detach_reply(own: u16, at: LinkAt, detach: &Detach) -> Answer
    ensures { (link : LinkPlace) → at ≡ found_link link → result ≡ session_detach_reply own link detach.now }
{
    match at {
        LinkAt::Nowhere => end_unattached(own),
        LinkAt::Detaching => Answer::Nothing,
        LinkAt::Sends { handle, .. } | LinkAt::Receives { handle, .. } => Answer::Detach {
            own,
            handle,
            closed: detach.closed,
            error: None,
        },
    }
}

/// The answer to a detach, by what it finds.
pub(crate) fn detach_reply(found: &Found<'_>, detach: &Detach) -> Answer
    ensures { (t : List Entry) (conn channel : ℕ) → IsFoundBy t conn channel (Some detach.now.handle) found.now
        → result ≡ detach_reply (place t conn channel) (link_place t conn) detach.now }
{
    match found.session {
        Place::Nowhere => no_session_reply(),
        Place::Ending => Answer::Nothing,
        Place::On { own, .. } => session_detach_reply(own, found.link.place, detach),
    }
}

//! The rows of a disposition.
ghost use Rattle.std.specs.Prelude.{◌≡◌, is_some};
ghost use Rattle.router_trace.specs.Sessions.{place, Place as At};
ghost use Rattle.reply_rows.specs.LinkRows.{session_disposition_reply};
ghost use Rattle.router_trace.specs.Deliveries.{terminal};
ghost use Rattle.state_sessions.specs.Fits.{found_of};
ghost use Rattle.reply_rows.specs.Rows.{disposition_reply};

mod settling;

use crate::answer::Answer;
use crate::frame::no_session_reply;
use amqp_model::{DeliveryState, Disposition, Role};
pub(crate) use settling::does;
use state_sessions::Place;

/// Whether a state is an outcome.
fn is_terminal(state: &Option<DeliveryState>) -> bool
    ensures { result ≡ is_some (terminal state.now) }
{
    match state {
        None => false,
        Some(DeliveryState::Received(_)) => false,
        Some(DeliveryState::Other(_)) => false,
        Some(_) => true,
    }
}

/// A disposition on a session: if the peer as a receiver decides deliveries without settling them, each is answered (AMQP 1.0 part 2,
/// sections 2.6.12 and 2.7.6).
fn session_disposition_reply(own: u16, disposition: &Disposition) -> Answer
    ensures { result ≡ session_disposition_reply own disposition.now }
{
    match disposition.role {
        Role::Sender => Answer::Nothing,
        Role::Receiver if disposition.settled => Answer::Nothing,
        Role::Receiver if is_terminal(&disposition.state) => Answer::Settle { own },
        Role::Receiver => Answer::Nothing,
    }
}

/// A disposition: on a session its own row answers (AMQP 1.0 part 2, section 2.7.6).
pub(crate) fn disposition_reply(place: Place, disposition: &Disposition) -> Answer
    ensures { (at : At) → place ≡ found_of at → result ≡ disposition_reply at disposition.now }
{
    match place {
        Place::Nowhere => no_session_reply(),
        Place::Ending => Answer::Nothing,
        Place::On { own, .. } => session_disposition_reply(own, disposition),
    }
}

//! The rows of a flow: of a session, or of a link.
ghost use Rattle.std.specs.Prelude.{◌≡◌, List, ℕ, ◌∷◌};
ghost use Rattle.router_trace.specs.Trace.{Entry};
ghost use Rattle.router_trace.specs.Links.{link_place};
ghost use Rattle.amqp_session.specs.Session.{Session, TheirFlow};
ghost use Rattle.amqp_session.specs.Figures.{window_of};
ghost use Rattle.router_trace.specs.Sessions.{place, flow_state};
ghost use Rattle.router_state.specs.Finding.{IsFoundBy};
ghost use Rattle.reply_rows.specs.Rows.{flow_reply, echo};

mod link;

use crate::answer::Answer;
use crate::flow::link::link_flow_reply;
use crate::frame::no_session_reply;
use amqp_model::Flow;
use amqp_session::Window;
use router_state::Found;
use router_trace::SESSION_WINDOW;
use state_sessions::{Place, flow_state};

/// A flow without a handle: if it asks for one, the router's flow with the session's state after it (AMQP 1.0 part 2,
/// sections 2.5.6 and 2.7.4).
fn session_flow_reply(own: u16, window: Window, flow: &Flow) -> Answer
    ensures { (h : Session) → window ≡ window_of h → result ≡ echo flow.now.echo own (TheirFlow (flow_state flow.now) ∷ h) }
{
    if !flow.echo {
        return Answer::Nothing;
    }
    let mut window = window;
    window.on_flow(flow_state(flow));
    Answer::Flow {
        own,
        told: window.flow_state(SESSION_WINDOW),
    }
}

/// The answer to a flow, by what it finds.
pub(crate) fn flow_reply(found: &Found<'_>, flow: &Flow) -> Answer
    ensures { (t : List Entry) (conn channel : ℕ) → IsFoundBy t conn channel flow.now.handle found.now
        → result ≡ flow_reply (place t conn channel) (link_place t conn) flow.now }
{
    match found.session {
        Place::Nowhere => no_session_reply(),
        Place::Ending => Answer::Nothing,
        Place::On { own, window } => match flow.handle {
            None => session_flow_reply(own, window, flow),
            Some(_) => link_flow_reply(own, window, found.link.place, flow),
        },
    }
}

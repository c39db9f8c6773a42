//! The rows of a link's flow.
ghost use Rattle.std.specs.Prelude.{◌≡◌, ◌∷◌};
ghost use Rattle.amqp_session.specs.Session.{Session, TheirFlow};
ghost use Rattle.amqp_session.specs.Figures.{window_of};
ghost use Rattle.amqp_link.specs.Credit.{Link as SendList};
ghost use Rattle.amqp_link.specs.Figures.{Sends};
ghost use Rattle.amqp_link.specs.Receiving.{Received, delivery_count, unused as unused_of};
ghost use Rattle.router_trace.specs.Sessions.{flow_state};
ghost use Rattle.router_trace.specs.Links.{LinkPlace, found_link, receives, with_grant};
ghost use Rattle.reply_rows.specs.LinkRows.{link_echo, sender_echo, flow_on, link_flow_reply};
ghost use Rattle.reply_rows.specs.Rows.{echo};

use crate::answer::Answer;
use crate::frame::{detach_for, end_unattached};
use amqp_link::SendEnd;
use amqp_model::Flow;
use amqp_session::{Serial, Window};
use router_trace::{Condition, LinkAt, LinkState, SESSION_WINDOW};
use state_sessions::flow_state;

/// The link's flow, if the peer asks for one, with the state after the peer's flow.
fn link_echo(
    own: u16,
    window: Window,
    flow: &Flow,
    handle: u32,
    count: Serial,
    credit: u32,
) -> Answer
    ensures { (h : Session) → window ≡ window_of h → result ≡ link_echo flow.now.echo own (TheirFlow (flow_state flow.now) ∷ h) handle count credit }
{
    if !flow.echo {
        return Answer::Nothing;
    }
    let mut window = window;
    window.on_flow(flow_state(flow));
    Answer::LinkFlow {
        own,
        told: window.flow_state(SESSION_WINDOW),
        at: LinkState {
            handle,
            count,
            credit,
            drain: false,
        },
    }
}

/// The answer to a flow on a link on which the router is the sender.
fn sender_flow(own: u16, window: Window, handle: u32, end: SendEnd, flow: &Flow) -> Answer
    ensures { (h : Session) (list : SendList) → window ≡ window_of h → Sends end list
        → result ≡ sender_echo flow.now.echo own (TheirFlow (flow_state flow.now) ∷ h) handle (with_grant flow.now flow.now.link_credit list) }
{
    let mut end = end;
    if let Some(credit) = flow.link_credit {
        end.on_flow(flow.delivery_count.map(Serial::new), credit);
    }
    link_echo(own, window, flow, handle, end.count(), end.left())
}

/// The answer to a flow on a link on which the peer is the sender.
fn receiver_flow(
    own: u16,
    window: Window,
    handle: u32,
    count: Serial,
    unused: u32,
    durable: bool,
    flow: &Flow,
) -> Answer
    ensures { (h : Session) (list : Received) → window ≡ window_of h → count ≡ delivery_count list → unused ≡ unused_of list
        → result ≡ flow_on own (TheirFlow (flow_state flow.now) ∷ h) handle durable (receives list) flow.now }
{
    let told = match flow.delivery_count {
        None => count,
        Some(told) => Serial::new(told),
    };
    let ahead = count.distance_to(told);
    if ahead > unused {
        return detach_for(own, handle, durable, Condition::NotAllowed);
    }
    link_echo(own, window, flow, handle, told, unused - ahead)
}

/// A link's flow: if it asks for one, the router's flow with the state after it. A delivery-count that is less than the peer's own, or ahead
/// of it by more than the unused credit, detaches with `amqp:not-allowed` (AMQP 1.0 part 2, sections 2.6.7 and 2.7.4).
pub(crate) fn link_flow_reply(own: u16, window: Window, at: LinkAt, flow: &Flow) -> Answer
    ensures { (h : Session) (link : LinkPlace) → window ≡ window_of h → at ≡ found_link link → result ≡ link_flow_reply own h link flow.now }
{
    match at {
        LinkAt::Nowhere => end_unattached(own),
        LinkAt::Detaching => Answer::Nothing,
        LinkAt::Sends { handle, end } => sender_flow(own, window, handle, end, flow),
        LinkAt::Receives {
            handle,
            count,
            unused,
            durable,
        } => receiver_flow(own, window, handle, count, unused, durable, flow),
    }
}

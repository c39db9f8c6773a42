//! Answers to drains.
ghost use Rattle.std.specs.Prelude.{◌≡◌, true, false, List, [], OnOk, IfOk};
ghost use Rattle.router_trace.specs.Trace.{Entry, goes};
ghost use Rattle.router_trace.specs.Numbers.{no_rank};
ghost use Rattle.router_trace.specs.Sessions.{session};
ghost use Rattle.router_trace.specs.Following.{link_of, drain_on, drains_due};
ghost use Rattle.router_state.specs.Tables.{TablesFit};
ghost use Rattle.state_messages.specs.Asking.{owes_drain};
ghost use Rattle.router_after.specs.Draining.{drains_at};
ghost use Rattle.router_after.specs.Soonest.{IsSoonest, IsSoonestOn};

use crate::candidate::{Candidate, sooner};
use router_state::State;
use router_trace::{Attachment, Rank, link_flow_item};
use std::alloc::AllocError;

/// Puts the flow that is due first of those that answer a drain, by connection, by the router's channel and by attach: on a link whose peer asks
/// for one, once every delivery bound to it was sent (AMQP 1.0 part 2, section 2.6.7). Returns whether there was one.
pub(crate) fn answer_first(state: &mut State) -> Result<bool, AllocError>
    ensures put { OnOk result ((t : List Entry) → TablesFit state.old t → TablesFit state.new (goes (drains_due t) t)) }
    ensures over { IfOk result (λ due. due ≡ false → (t : List Entry) → TablesFit state.old t → drains_due t ≡ []) }
{
    match soonest(state)? {
        None => Ok(false),
        Some(next) => answer(state, next.place),
    }
}

/// The link whose drain is answered next.
fn soonest(state: &State) -> Result<Option<Candidate>, AllocError>
    ensures { IfOk result (λ best. (t : List Entry) → TablesFit state.now t → IsSoonest no_rank (drains_at t) best) }
{
    let mut last = None;
    let mut best = None;
    for _turn in 0..u64::MAX {
        let Some(link) = state.owing_after(last)? else {
            return Ok(best);
        };
        best = sooner(best, drained_at(state, link));
        last = Some(link);
    }
    Err(AllocError)
}

/// The place of a link that owes a drain, once every delivery bound to it was sent.
fn drained_at(state: &State, link: u64) -> Option<Candidate>
    ensures { (t : List Entry) → TablesFit state.now t → owes_drain t link ≡ true → IsSoonestOn no_rank (drains_at t) link result }
{
    if state.has_unsent(link) {
        return None;
    }
    match state.place_of(link) {
        None => None,
        Some(place) => Some(Candidate {
            number: link,
            place,
            rank: Rank { row: 0, counter: 0 },
        }),
    }
}

/// Puts the flow that answers the drain of an attachment's link; returns whether there was one.
fn answer(state: &mut State, place: Attachment) -> Result<bool, AllocError>
    ensures put { OnOk result ((t : List Entry) → TablesFit state.old t → TablesFit state.new (goes (drain_on place (session t place.conn.0 place.channel) (link_of t place)) t)) }
    ensures over { IfOk result (λ due. due ≡ false → (t : List Entry) → TablesFit state.old t → drain_on place (session t place.conn.0 place.channel) (link_of t place) ≡ []) }
{
    let Some(told) = state.told(place.conn.0, place.channel) else {
        return Ok(false);
    };
    let Some(drained) = state.drained(place) else {
        return Ok(false);
    };
    state.put(place.conn.0, link_flow_item(place.channel, told, drained))?;
    Ok(true)
}

//! Deliveries to consumers.
ghost use Rattle.std.specs.Prelude.{◌≡◌, false, List, [], OnOk, IfOk};
ghost use Rattle.router_trace.specs.Trace.{Entry, goes};
ghost use Rattle.router_trace.specs.Deliveries.{delivery, rank_at};
ghost use Rattle.router_trace.specs.Following.{send, sends_due, transfer_of};
ghost use Rattle.router_state.specs.Tables.{TablesFit};
ghost use Rattle.router_after.specs.Soonest.{IsSoonest};
ghost use Rattle.router_after.specs.Starting.{places};

use crate::candidate::{Candidate, sooner};
use crate::waiting::first_on;
use amqp_model::Transfer;
use reply_frames::{Resuming, delivery_frame, first_transfer, later_transfer};
use router_state::State;
use state_deliveries::Delivery;
use std::alloc::AllocError;

/// The longest frame that the router writes, in bytes.
const MAX_FRAME: u32 = 16_384;

/// Puts the transfer that is due first, by connection, by the router's channel, then in the order of binding (AMQP 1.0 part 2, sections
/// 2.5.6, 2.6.7 and 2.6.12). Returns whether there was one.
pub(crate) fn send_first(state: &mut State) -> Result<bool, AllocError>
    ensures put { OnOk result ((t : List Entry) → TablesFit state.old t → TablesFit state.new (goes (sends_due t) t)) }
    ensures over { IfOk result (λ due. due ≡ false → (t : List Entry) → TablesFit state.old t → sends_due t ≡ []) }
{
    match soonest(state)? {
        None => Ok(false),
        Some(next) => send(state, next.number),
    }
}

/// The delivery that is sent next.
fn soonest(state: &State) -> Result<Option<Candidate>, AllocError>
    ensures { IfOk result (λ best. (t : List Entry) → TablesFit state.now t → IsSoonest (rank_at t) (places t) best) }
{
    let mut last = None;
    let mut best = None;
    for _turn in 0..u64::MAX {
        let Some(link) = state.unsent_link_after(last) else {
            return Ok(best);
        };
        let found = first_on(state, link)?;
        best = sooner(best, found);
        last = Some(link);
    }
    Err(AllocError)
}

/// Puts the next frame of a delivery; returns whether there is such a delivery.
fn send(state: &mut State, number: u64) -> Result<bool, AllocError>
    ensures put { OnOk result ((t : List Entry) → TablesFit state.old t → TablesFit state.new (goes (send t (delivery t number)) t)) }
    ensures over { IfOk result (λ due. due ≡ false → (t : List Entry) → TablesFit state.old t → send t (delivery t number) ≡ []) }
{
    let Some(delivery) = state.delivery(number) else {
        return Ok(false);
    };
    let link = delivery.link;
    let largest = state.largest_frame(link.conn.0).min(MAX_FRAME);
    let transfer = transfer_of(state, delivery)?;
    let item = delivery_frame(
        state.alloc(),
        largest,
        link.channel,
        transfer,
        &delivery.payload,
        delivery.sent,
    )?;
    state.put(link.conn.0, item)?;
    Ok(true)
}

/// The next transfer of a delivery, without its payload.
fn transfer_of(state: &State, delivery: &Delivery) -> Result<Transfer, AllocError>
    ensures { IfOk result (λ transfer. (t : List Entry) → TablesFit state.now t → transfer ≡ transfer_of t delivery.now) }
{
    let link = delivery.link;
    if delivery.id.is_some() {
        return Ok(later_transfer(link.handle, delivery.presettled));
    }
    let id = state.next_id(link.conn.0, link.channel);
    let resuming = Resuming::of(state.alloc(), delivery.resumed, delivery.outcome.as_ref())?;
    Ok(first_transfer(
        link.handle,
        id,
        delivery.name,
        delivery.format,
        delivery.presettled,
        resuming,
    ))
}

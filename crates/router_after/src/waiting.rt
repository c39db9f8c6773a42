//! The delivery of a link that is sent next.
ghost use Rattle.std.specs.Prelude.{◌≡◌, List, IfOk};
ghost use Rattle.router_trace.specs.Trace.{Entry};
ghost use Rattle.router_trace.specs.Deliveries.{delivery, rank_at};
ghost use Rattle.state_deliveries.specs.Finding.{IsFirstBy};
ghost use Rattle.router_state.specs.Tables.{TablesFit};
ghost use Rattle.router_after.specs.Soonest.{IsSoonestOn};
ghost use Rattle.router_after.specs.Starting.{is_same, goes_on_from, waits_at, starts_from, goes_from, places};

use crate::candidate::Candidate;
use router_state::State;
use router_trace::{Attachment, Rank};
use std::alloc::AllocError;

/// The first delivery of a link that can be sent. If none can, this takes only a look or two at the link.
pub(crate) fn first_on(state: &State, link: u64) -> Result<Option<Candidate>, AllocError>
    ensures { IfOk result (λ found. (t : List Entry) → TablesFit state.now t → IsSoonestOn (rank_at t) (places t) link found) }
{
    let Some(place) = state.place_of(link) else {
        return Ok(None);
    };
    if !state.is_wide(place.conn.0, place.channel) {
        return Ok(None);
    }
    match first_at(state, place)? {
        None => Ok(None),
        Some(number) => Ok(Some(Candidate {
            number,
            place,
            rank: rank_of(state, number),
        })),
    }
}

/// The place of a delivery in the order of binding.
fn rank_of(state: &State, number: u64) -> Rank
    ensures { (t : List Entry) → TablesFit state.now t → result ≡ rank_at t number }
{
    match state.delivery(number) {
        None => Rank { row: 0, counter: 0 },
        Some(delivery) => delivery.rank,
    }
}

/// The first delivery that can be sent on a link whose session's window is open.
fn first_at(state: &State, place: Attachment) -> Result<Option<u64>, AllocError>
    ensures { IfOk result (λ first. (t : List Entry) → TablesFit state.now t → IsFirstBy (rank_at t) (λ n. goes_from t place n (delivery t n)) first) }
{
    if let Some(number) = begun_at(state, place) {
        return Ok(Some(number));
    }
    if !can_start(state, place)? {
        return Ok(None);
    }
    Ok(first_waiting(state, place)?)
}

/// The delivery that is in progress on a link.
fn begun_at(state: &State, place: Attachment) -> Option<u64>
    ensures { (t : List Entry) → TablesFit state.now t → IsFirstBy (rank_at t) (λ n. goes_on_from t place n (delivery t n)) result }
{
    if !state.goes_on(place) {
        return None;
    }
    let number = state.sending(place.conn.0, place.channel, place.handle)?;
    let delivery = state.delivery(number)?;
    if is_same(delivery.link, place) && delivery.id.is_some() && delivery.going_on {
        Some(number)
    } else {
        None
    }
}

/// Whether a waiting delivery can start on a link.
fn can_start(state: &State, place: Attachment) -> Result<bool, AllocError>
    ensures { IfOk result (λ can. (t : List Entry) → TablesFit state.now t → can ≡ starts_from t place) }
{
    if !state.takes_more(place) {
        return Ok(false);
    }
    if state.is_busy(place.conn.0, place.channel)? {
        return Ok(false);
    }
    let id = state.next_id(place.conn.0, place.channel);
    Ok(!state.is_used(place.conn.0, place.channel, id))
}

/// The first waiting delivery of a link.
fn first_waiting(state: &State, place: Attachment) -> Result<Option<u64>, AllocError>
    ensures { IfOk result (λ first. (t : List Entry) → TablesFit state.now t → IsFirstBy (rank_at t) (λ n. waits_at place (delivery t n)) first) }
{
    let mut last = None;
    for _turn in 0..u64::MAX {
        let Some(number) = state.unsent_after(place.number, last) else {
            return Ok(None);
        };
        if is_waiting(state, place, number) {
            return Ok(Some(number));
        }
        last = Some(number);
    }
    Err(AllocError)
}

/// Whether a delivery waits on a link.
fn is_waiting(state: &State, place: Attachment, number: u64) -> bool
    ensures { (t : List Entry) → TablesFit state.now t → result ≡ waits_at place (delivery t number) }
{
    match state.delivery(number) {
        None => false,
        Some(delivery) => {
            is_same(delivery.link, place) && (delivery.id.is_none() && delivery.going_on)
        }
    }
}

/// Whether two attachments are the same.
fn is_same(a: Attachment, b: Attachment) -> bool
    ensures { result ≡ is_same a b }
{
    a.number == b.number
        && (a.conn.0 == b.conn.0 && (a.channel == b.channel && a.handle == b.handle))
}

//! Outcomes to producers.
ghost use Rattle.std.specs.Prelude.{◌≡◌, false, List, [], OnOk, IfOk};
ghost use Rattle.router_trace.specs.Trace.{Entry, goes};
ghost use Rattle.router_trace.specs.Deliveries.{delivery, rank_at};
ghost use Rattle.router_trace.specs.Following.{is_to_be_told, tell, tells};
ghost use Rattle.state_deliveries.specs.Finding.{IsFirstBy};
ghost use Rattle.router_state.specs.Tables.{TablesFit};

use amqp_model::Role;
use reply_frames::outcome_item;
use router_state::State;
use std::alloc::AllocError;

/// Puts the disposition that is due first: it reports the outcome of a decided delivery to its producer (AMQP 1.0 part 2, section 2.7.6).
/// Returns whether there was one.
pub(crate) fn tell_first(state: &mut State) -> Result<bool, AllocError>
    ensures put { OnOk result ((t : List Entry) → TablesFit state.old t → TablesFit state.new (goes (tells t) t)) }
    ensures over { IfOk result (λ due. due ≡ false → (t : List Entry) → TablesFit state.old t → tells t ≡ []) }
{
    match first_to_tell(state)? {
        None => Ok(false),
        Some(number) => tell(state, number),
    }
}

/// The number of the first delivery, in the order of binding, that is decided and whose outcome is not yet reported to its producer, while that link is attached.
fn first_to_tell(state: &State) -> Result<Option<u64>, AllocError>
    ensures { IfOk result (λ first. (t : List Entry) → TablesFit state.now t → IsFirstBy (rank_at t) (λ n. is_to_be_told t (delivery t n)) first) }
{
    let mut last = None;
    for _turn in 0..u64::MAX {
        let Some(number) = state.to_tell_after(last) else {
            return Ok(None);
        };
        if is_to_be_told(state, number) {
            return Ok(Some(number));
        }
        last = Some(number);
    }
    Err(AllocError)
}

/// Whether a delivery is decided and its outcome not yet reported to its producer, whose link is attached.
fn is_to_be_told(state: &State, number: u64) -> bool
    ensures { (t : List Entry) → TablesFit state.now t → result ≡ is_to_be_told t (delivery t number) }
{
    match state.delivery(number) {
        None => false,
        Some(delivery) => {
            delivery.outcome.is_some()
                && match delivery.origin {
                    None => false,
                    Some(origin) => state.is_attached(origin.link),
                }
        }
    }
}

/// Puts the disposition that reports a delivery's outcome to its producer; returns whether there was one.
fn tell(state: &mut State, number: u64) -> Result<bool, AllocError>
    ensures put { OnOk result ((t : List Entry) → TablesFit state.old t → TablesFit state.new (goes (tell (delivery t number)) t)) }
    ensures over { IfOk result (λ due. due ≡ false → (t : List Entry) → TablesFit state.old t → tell (delivery t number) ≡ []) }
{
    let Some(delivery) = state.delivery(number) else {
        return Ok(false);
    };
    let Some(origin) = delivery.origin else {
        return Ok(false);
    };
    let Some(outcome) = &delivery.outcome else {
        return Ok(false);
    };
    let link = origin.link;
    let item = outcome_item(
        state.alloc(),
        link.channel,
        Role::Receiver,
        origin.id,
        !delivery.name.has_row(),
        outcome,
    )?;
    state.put(link.conn.0, item)?;
    Ok(true)
}

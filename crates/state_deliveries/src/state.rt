//! Outcomes of deliveries.
ghost use Rattle.std.specs.Prelude.{◌≡◌, None, IfOk};
ghost use Rattle.router_trace.specs.Deliveries.{failed, terminal, decision};

use amqp_model::{DeliveryState, Disposition, Modified, copy_state};
use std::alloc::AllocError;

/// The outcome of a delivery that failed: modified, with delivery-failed.
pub(crate) fn failed() -> DeliveryState
    ensures { result ≡ failed }
{
    DeliveryState::Modified(Modified {
        delivery_failed: true,
        undeliverable_here: false,
        message_annotations: None,
    })
}

/// What a disposition decides: its terminal state; without one, and if the disposition settles, that the delivery failed.
pub(crate) fn decision(disposition: &Disposition) -> Result<Option<DeliveryState>, AllocError>
    ensures { IfOk result (λ made. made ≡ decision disposition.now.settled (terminal disposition.now.state)) }
{
    match &disposition.state {
        None => Ok(without_state(disposition.settled)),
        Some(DeliveryState::Received(_)) => Ok(without_state(disposition.settled)),
        Some(DeliveryState::Other(_)) => Ok(without_state(disposition.settled)),
        Some(state) => Ok(Some(copy_state(state)?)),
    }
}

/// What a disposition without a terminal state decides.
fn without_state(settled: bool) -> Option<DeliveryState>
    ensures { result ≡ decision settled None }
{
    if settled { Some(failed()) } else { None }
}

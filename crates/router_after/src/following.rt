//! What follows an event's rows, in order.
ghost use Rattle.std.specs.Prelude.{List, OnOk};
ghost use Rattle.router_trace.specs.Trace.{Entry};
ghost use Rattle.router_state.specs.Tables.{TablesFit};
ghost use Rattle.router_after.specs.After.{drained, followed, widened};

use crate::phase::Phase;
use router_state::State;
use std::alloc::AllocError;

/// Puts what follows an event's rows, in this order: outcomes are sent to producers, deliveries to consumers, drains are
/// answered, credit is granted, and narrow windows are restored (AMQP 1.0 part 2, sections 2.5.6, 2.6.7, 2.6.12 and 2.7.6).
///
/// # Errors
///
/// `AllocError` if memory was refused; the tables' contents are unspecified then.
pub fn after(state: &mut State) -> Result<(), AllocError>
    ensures { OnOk result ((t : List Entry) → TablesFit state.old t → TablesFit state.new (followed t)) }
{
    Phase::Outcomes.finish(state)?;
    Phase::Deliveries.finish(state)?;
    drain(state)?;
    Phase::Grants.finish(state)?;
    widen(state)
}

/// Answers drains, and unmarks the links that owe none any more.
fn drain(state: &mut State) -> Result<(), AllocError>
    ensures { OnOk result ((t : List Entry) → TablesFit state.old t → TablesFit state.new (drained t)) }
{
    Phase::Drains.finish(state)?;
    state.settle_drains();
    Ok(())
}

/// Restores narrow windows: a flow for each session half of whose window is used up, by connection and by the router's channel (AMQP 1.0
/// part 2, section 2.5.6).
fn widen(state: &mut State) -> Result<(), AllocError>
    ensures { OnOk result ((t : List Entry) → TablesFit state.old t → TablesFit state.new (widened t)) }
{
    if state.is_calm() {
        return Ok(());
    }
    let flows = state.windows()?;
    state.put_all(flows)?;
    state.settle();
    Ok(())
}

//! The phases that repeat as long as something is due.
ghost use Rattle.std.specs.Prelude.{◌≡◌, false, List, [], OnOk, IfOk};
ghost use Rattle.router_trace.specs.Trace.{Entry, goes};
ghost use Rattle.router_trace.specs.Following.{as_long_as_due};
ghost use Rattle.router_state.specs.Tables.{TablesFit};
ghost use Rattle.state_messages.specs.Messages.{grants_due};
ghost use Rattle.router_after.specs.After.{due_in};

use crate::draining::answer_first;
use crate::sending::send_first;
use crate::telling::tell_first;
use router_state::State;
use std::alloc::AllocError;

/// A phase that repeats as long as something is due.
#[derive(Clone, Copy, PartialEq, Eq)]
pub(crate) enum Phase {
    /// Outcomes are sent to producers.
    Outcomes,
    /// Deliveries are sent to consumers.
    Deliveries,
    /// Drains are answered.
    Drains,
    /// Credit is granted.
    Grants,
}

impl Phase {
    /// Puts what is due, in order, until nothing is due.
    pub(crate) fn finish(self, state: &mut State) -> Result<(), AllocError>
        ensures { OnOk result ((t : List Entry) → TablesFit state.old t → TablesFit state.new (as_long_as_due (due_in self) t)) }
    {
        for _turn in 0..u64::MAX {
            if !self.turn(state)? {
                return Ok(());
            }
        }
        Err(AllocError)
    }

    /// Puts what is due first; returns whether there was anything.
    fn turn(self, state: &mut State) -> Result<bool, AllocError>
        ensures put { OnOk result ((t : List Entry) → TablesFit state.old t → TablesFit state.new (goes (due_in self t) t)) }
        ensures over { IfOk result (λ due. due ≡ false → (t : List Entry) → TablesFit state.old t → due_in self t ≡ []) }
    {
        match self {
            Phase::Outcomes => tell_first(state),
            Phase::Deliveries => send_first(state),
            Phase::Drains => answer_first(state),
            Phase::Grants => grant(state),
        }
    }
}

/// Puts the flows that grant credit; returns whether there were any.
fn grant(state: &mut State) -> Result<bool, AllocError>
    ensures put { OnOk result ((t : List Entry) → TablesFit state.old t → TablesFit state.new (goes (grants_due t) t)) }
    ensures over { IfOk result (λ due. due ≡ false → (t : List Entry) → TablesFit state.old t → grants_due t ≡ []) }
{
    let flows = state.grants()?;
    let due = !flows.is_empty();
    state.put_all(flows)?;
    Ok(due)
}

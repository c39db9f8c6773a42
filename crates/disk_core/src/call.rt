//! A record of the calls that changed a disk.
ghost use Rattle.std.specs.Prelude.{◌≡◌, ◌∷◌, ◌++◌, ◌+◌, ◌≤◌, [], OnOk, OnErr};
ghost use Rattle.disk_core.specs.Call.{event_of, events_of};
ghost use Rattle.disk_core.specs.Event.{seen_of};

use crate::overwrite::{overwrite, reserve_for};
use std::alloc::AllocError;

/// A call that was done.
#[derive(Debug, Drop)]
pub(crate) enum Call {
    Wrote { at: usize, bytes: Vec<u8> },
    Shortened { len: usize },
    Synced,
}

/// Adds a call after the others.
#[tactic(auto, using(crate::proofs::Calls::events_push))]
pub(crate) fn note(calls: &mut Vec<Call>, call: Call) -> Result<(), AllocError>
    ensures ok { OnOk result (events_of calls.new.items ≡ event_of call ∷ events_of calls.old.items) }
    ensures items { OnOk result (calls.new.items ≡ calls.old.items ++ call ∷ []) }
    ensures err { OnErr result (calls.new.items ≡ calls.old.items) }
{
    calls.push(call)?;
    Ok(())
}

/// Replays the calls, in order.
pub(crate) fn replay(bytes: &mut Vec<u8>, calls: &[Call]) -> Result<(), AllocError>
    ensures { OnOk result (bytes.new.items ≡ seen_of bytes.old.items (events_of calls.now)) }
{
    for call in calls {
        match call {
            Call::Wrote { at, bytes: written } => {
                reserve_for(bytes, *at, written.len())?;
                overwrite(bytes, *at, written);
            }
            Call::Shortened { len } => bytes.truncate(*len),
            Call::Synced => {}
        }
    }
    Ok(())
}

//! Entries of the router's unsettled map.
ghost use Rattle.std.specs.Prelude.{◌≡◌, ◌++◌, ◌∷◌, [], option_map, IfOk, OnOk};
ghost use Rattle.resume_core.specs.Resuming.{brief_outcome, map_entry};

use amqp_model::{DeliveryState, DeliveryTag, Modified, Rejected, UnsettledDelivery, copy_state};
use std::alloc::AllocError;

/// The entry of a delivery with this outcome, if it is decided.
pub(crate) fn map_entry(
    tag: DeliveryTag,
    outcome: Option<&DeliveryState>,
) -> Result<UnsettledDelivery, AllocError>
    ensures { IfOk result (λ entry. entry ≡ map_entry tag.items (option_map (λ s. s.now) outcome.entry)) }
{
    let state = match outcome {
        None => None,
        Some(outcome) => Some(brief_outcome(outcome)?),
    };
    Ok(UnsettledDelivery { tag, state })
}

/// An outcome as the router's map has it, without error and annotations.
fn brief_outcome(outcome: &DeliveryState) -> Result<DeliveryState, AllocError>
    ensures { IfOk result (λ brief. brief ≡ brief_outcome outcome.now) }
{
    match outcome {
        DeliveryState::Rejected(_) => Ok(DeliveryState::Rejected(Rejected { error: None })),
        DeliveryState::Modified(modified) => Ok(DeliveryState::Modified(Modified {
            delivery_failed: modified.delivery_failed,
            undeliverable_here: modified.undeliverable_here,
            message_annotations: None,
        })),
        _ => copy_state(outcome),
    }
}

/// Appends an item.
pub(crate) fn add<T: Drop>(items: &mut Vec<T>, item: T) -> Result<(), AllocError>
    ensures { OnOk result (items.new.items ≡ items.old.items ++ item ∷ []) }
{
    if let Err(left) = items.push(item) {
        drop(left);
        return Err(AllocError);
    }
    Ok(())
}

//! Copies of delivery states.
ghost use Rattle.std.specs.Prelude.{◌≡◌, true, IfOk, IsOk};
ghost use Rattle.amqp_model.specs.Copies.{is_plain};

use crate::boxed::Boxed;
use crate::state::{DeliveryState, Fault, Modified, Received, Rejected};
use std::alloc::AllocError;

/// A copy of a delivery state.
///
/// # Errors
///
/// `AllocError` if memory was refused; a state that holds no memory takes none.
pub fn copy_state(state: &DeliveryState) -> Result<DeliveryState, AllocError>
    ensures copied { IfOk result (λ copied. copied ≡ state.now) }
    ensures plain { is_plain state.now ≡ true → IsOk result }
{
    Ok(match state {
        DeliveryState::Received(received) => DeliveryState::Received(Received {
            section_number: received.section_number,
            section_offset: received.section_offset,
        }),
        DeliveryState::Accepted => DeliveryState::Accepted,
        DeliveryState::Rejected(rejected) => DeliveryState::Rejected(copy_rejected(rejected)?),
        DeliveryState::Released => DeliveryState::Released,
        DeliveryState::Modified(modified) => DeliveryState::Modified(copy_modified(modified)?),
        DeliveryState::Other(value) => DeliveryState::Other(value.clone()?),
    })
}

/// A copy of the fields of a rejected outcome.
fn copy_rejected(rejected: &Rejected) -> Result<Rejected, AllocError>
    ensures { IfOk result (λ copied. copied ≡ rejected.now) }
{
    match &rejected.error {
        None => Ok(Rejected { error: None }),
        Some(fault) => Ok(Rejected {
            error: Some(copy_fault(fault)?),
        }),
    }
}

/// A copy of an error.
fn copy_fault(fault: &Boxed<Fault>) -> Result<Boxed<Fault>, AllocError>
    ensures { IfOk result (λ copied. copied ≡ fault.now) }
{
    let error = fault.as_ref();
    let copied = Fault {
        condition: error.condition.clone()?,
        description: error.description.clone()?,
        info: error.info.clone()?,
    };
    Boxed::new(fault.alloc(), copied)
}

/// A copy of the fields of a modified outcome.
fn copy_modified(modified: &Modified) -> Result<Modified, AllocError>
    ensures { IfOk result (λ copied. copied ≡ modified.now) }
{
    Ok(Modified {
        delivery_failed: modified.delivery_failed,
        undeliverable_here: modified.undeliverable_here,
        message_annotations: modified.message_annotations.clone()?,
    })
}

//! What transfers add to a delivery.
ghost use Rattle.std.specs.Prelude.{◌≡◌, IsOk, IfOk};
ghost use Rattle.amqp_link.specs.Deliveries.{told};

use amqp_model::{DeliveryTag, Transfer};
use bytes::Bytes;
use std::alloc::AllocError;

/// What the transfers of a delivery say of it: the first one all of it, but any may settle it (AMQP 1.0 part 2,
/// section 2.7.5).
#[derive(Debug, Drop)]
pub struct Delivery {
    /// Its number in its session.
    pub id: Option<u32>,
    /// Its delivery-tag, given by its sender.
    pub tag: Option<DeliveryTag>,
    /// The format of its message; absent means 0.
    pub format: Option<u32>,
    /// Whether it resumes an earlier delivery.
    pub resume: bool,
    /// Whether its sender has settled it.
    pub settled: bool,
}

/// The state of a delivery after a transfer.
#[derive(Debug, Drop)]
pub enum Part {
    /// More frames of it are to come.
    More,
    /// It is whole: its fields, and its payload.
    Whole(Delivery, Bytes),
    /// Its sender has aborted it.
    Aborted,
    /// Its payload has more than 65,536 bytes.
    TooLarge,
    /// It would be started without credit.
    BeyondCredit,
}

impl Delivery {
    /// The delivery that a transfer starts.
    pub(crate) fn begun(transfer: &Transfer) -> Result<Delivery, AllocError>
        ensures told { IfOk result (λ d. d ≡ told transfer.now transfer.now.settled) }
        ensures succeeds { IsOk result }
    {
        Ok(Delivery {
            id: transfer.delivery_id,
            tag: copy_of(&transfer.delivery_tag)?,
            format: transfer.message_format,
            resume: transfer.resume,
            settled: transfer.settled,
        })
    }
}

/// A copy of a tag.
fn copy_of(tag: &Option<DeliveryTag>) -> Result<Option<DeliveryTag>, AllocError>
    ensures same { IfOk result (λ copy. copy ≡ tag.now) }
    ensures succeeds { IsOk result }
{
    match tag {
        None => Ok(None),
        Some(tag) => Ok(Some(tag.clone()?)),
    }
}

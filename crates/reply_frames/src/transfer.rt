//! The router's transfers, without their payload.
ghost use Rattle.std.specs.Prelude.{◌≡◌, ◌∷◌, false, option_map, IfOk, IsOk};
ghost use Rattle.router_trace.specs.Deliveries.{Delivery, eight_bytes, tag_of};
ghost use Rattle.router_trace.specs.DeliveryFrames.{first_transfer, later_transfer};
ghost use Rattle.reply_frames.specs.Resumption.{resuming_as, settles_as};

use amqp_model::{Boxed, DeliveryState, DeliveryTag, Transfer, copy_state};
use router_trace::DeliveryName;
use std::alloc::{AllocError, Global};

/// The first byte of each delivery-tag that has a counter.
const TAG_MARK: u8 = 118;

/// How the first transfer of a delivery speaks of a row that is taken up again (AMQP 1.0 part 2, section 2.6.13).
#[derive(Drop)]
pub struct Resuming {
    /// Whether it says that the delivery is resumed.
    pub resume: bool,
    /// The delivery's outcome, if it only settles it.
    pub settling: Option<Boxed<DeliveryState>>,
}

impl Resuming {
    /// That of a delivery that is resumed or not, and has this outcome if it is decided.
    ///
    /// # Errors
    ///
    /// `AllocError` if memory was refused; a delivery that isn't both resumed and decided takes none.
    pub fn of(
        alloc: Global,
        resumed: bool,
        outcome: Option<&DeliveryState>,
    ) -> Result<Resuming, AllocError>
        ensures made { IfOk result (λ made. made ≡ resuming_as resumed (option_map (λ s. s.now) outcome.entry)) }
        ensures plain { settles_as resumed (option_map (λ s. s.now) outcome.entry) ≡ false → IsOk result }
    {
        let settling = match outcome {
            Some(outcome) if resumed => Some(Boxed::new(alloc, copy_state(outcome)?)?),
            _ => None,
        };
        Ok(Resuming {
            resume: resumed,
            settling,
        })
    }
}

/// The first transfer of a delivery, with its id, its tag and its message format (AMQP 1.0 part 2, section 2.7.5);
/// `presettled` says whether it was settled before it was bound.
#[tactic(auto, using(crate::proofs::Resumed::state_is_there))]
pub fn first_transfer(
    handle: u32,
    id: u32,
    name: DeliveryName,
    format: u32,
    presettled: bool,
    resuming: Resuming,
) -> Transfer
    ensures { (d : Delivery) → d.name ≡ name → d.format ≡ format → d.presettled ≡ presettled → resuming_as d.resumed d.outcome ≡ resuming → result ≡ first_transfer handle id d }
{
    Transfer {
        handle,
        delivery_id: Some(id),
        delivery_tag: Some(tag_of(name)),
        message_format: Some(format),
        settled: presettled || resuming.settling.is_some(),
        more: false,
        rcv_settle_mode: None,
        state: resuming.settling,
        resume: resuming.resume,
        aborted: false,
        batchable: false,
    }
}

/// A later transfer of a delivery (AMQP 1.0 part 2, section 2.7.5).
pub fn later_transfer(handle: u32, settled: bool) -> Transfer
    ensures { (d : Delivery) → d.presettled ≡ settled → result ≡ later_transfer handle d }
{
    Transfer {
        handle,
        delivery_id: None,
        delivery_tag: None,
        message_format: None,
        settled,
        more: false,
        rcv_settle_mode: None,
        state: None,
        resume: false,
        aborted: false,
        batchable: false,
    }
}

/// The tag of the delivery with this name.
pub fn tag_of(name: DeliveryName) -> DeliveryTag
    ensures { result.items ≡ tag_of name }
{
    match name {
        DeliveryName::Row(row) => row_tag(row.0),
        DeliveryName::Counter(counter) => counter_tag(counter),
    }
}

/// The tag of the durable delivery with this row.
#[tactic(auto, using(crate::proofs::Tags::bytes_of_row))]
fn row_tag(number: u64) -> DeliveryTag
    ensures { result.items ≡ eight_bytes number }
{
    let mut tag = DeliveryTag::new();
    tag.try_extend_from_slice(&number.to_be_bytes()).unwrap();
    tag
}

/// The tag of the delivery with this counter.
#[tactic(auto, using(crate::proofs::Tags::bytes_of_counter))]
fn counter_tag(counter: u64) -> DeliveryTag
    ensures { result.items ≡ 118 ∷ eight_bytes counter }
{
    let mut tag = DeliveryTag::new();
    tag.push(TAG_MARK);
    tag.try_extend_from_slice(&counter.to_be_bytes()).unwrap();
    tag
}

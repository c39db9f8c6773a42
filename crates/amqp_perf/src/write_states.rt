//! Writing errors, delivery states and unsettled maps.
ghost use Rattle.std.specs.Prelude.{◌≡◌, ◌++◌, option_map, is_none, true, IfOk, IsOk, OnOk, OnErr};
ghost use Rattle.amqp_model.specs.declared.descriptor.Descriptor.TheVariants as is;
ghost use Rattle.amqp_model.specs.Texts as texts;
ghost use Rattle.amqp_model.specs.PerfSpelling as spellings;
ghost use Rattle.amqp_model.specs.Data as d;
ghost use Rattle.amqp_perf.specs.NestedViews.{nested_view};

use crate::text::{Field, put_described};
use amqp_model::{
    Boxed, DeliveryState, Descriptor, Fault, Modified, Received, Rejected, Unsettled,
    UnsettledDelivery,
};
use amqp_types::{Plain, put_map, put_plain};
use std::alloc::{AllocError, Global};

/// A delivery state that is encoded: the two that say nothing more need no allocation.
#[derive(Drop)]
pub(crate) enum Nested {
    /// Accepted or released.
    Fixed([u8; 4]),
    /// Another.
    Written(Vec<u8>),
}

fn put_error(out: &mut Vec<u8>, fault: &Fault) -> Result<(), AllocError>
    ensures ok { OnOk result (out.new.items ≡ out.old.items ++ texts.described_text is.Error (spellings.error_texts fault.now)) }
    ensures err { OnErr result (out.new.items ≡ out.old.items) }
{
    let fields = [
        Field::Plain(Plain::Symbol(fault.condition.as_str())),
        Field::text(&fault.description),
        Field::map(&fault.info),
    ];
    put_described(out, Descriptor::Error, &fields)
}

fn put_received(out: &mut Vec<u8>, received: &Received) -> Result<(), AllocError>
    ensures ok { OnOk result (out.new.items ≡ out.old.items ++ texts.described_text is.Received (spellings.received_texts received.now)) }
    ensures err { OnErr result (out.new.items ≡ out.old.items) }
{
    let fields = [
        Field::Plain(Plain::Uint(received.section_number)),
        Field::Plain(Plain::Ulong(received.section_offset)),
    ];
    put_described(out, Descriptor::Received, &fields)
}

fn put_rejected(alloc: Global, out: &mut Vec<u8>, rejected: &Rejected) -> Result<(), AllocError>
    ensures ok { OnOk result (out.new.items ≡ out.old.items ++ texts.described_text is.Rejected (spellings.rejected_texts rejected.now)) }
    ensures err { OnErr result (out.new.items ≡ out.old.items) }
{
    let error = error_text(alloc, &rejected.error)?;
    let fields = [Field::spelt(&error)];
    put_described(out, Descriptor::Rejected, &fields)
}

fn put_modified(out: &mut Vec<u8>, modified: &Modified) -> Result<(), AllocError>
    ensures ok { OnOk result (out.new.items ≡ out.old.items ++ texts.described_text is.Modified (spellings.modified_texts modified.now)) }
    ensures err { OnErr result (out.new.items ≡ out.old.items) }
{
    let fields = [
        Field::flag(modified.delivery_failed),
        Field::flag(modified.undeliverable_here),
        Field::map(&modified.message_annotations),
    ];
    put_described(out, Descriptor::Modified, &fields)
}

/// The encoding of an error, if there is one.
pub(crate) fn error_text(
    alloc: Global,
    error: &Option<Boxed<Fault>>,
) -> Result<Option<Vec<u8>>, AllocError>
    ensures { IfOk result (λ text. option_map (λ v. v.items) text ≡ spellings.error_text error.now) }
{
    match error {
        None => Ok(None),
        Some(fault) => {
            let mut text = Vec::new(alloc);
            put_error(&mut text, fault.as_ref())?;
            Ok(Some(text))
        }
    }
}

/// The encoding of a delivery state.
#[tactic(auto, unfolding(amqp_model::specs::PerfSpelling::state_spelling))]
pub(crate) fn put_state(
    alloc: Global,
    out: &mut Vec<u8>,
    state: &DeliveryState,
) -> Result<(), AllocError>
    ensures ok { OnOk result (out.new.items ≡ out.old.items ++ spellings.state_spelling state.now) }
    ensures err { OnErr result (out.new.items ≡ out.old.items) }
{
    match state {
        DeliveryState::Received(received) => put_received(out, received),
        DeliveryState::Accepted => put_described(out, Descriptor::Accepted, &[]),
        DeliveryState::Rejected(rejected) => put_rejected(alloc, out, rejected),
        DeliveryState::Released => put_described(out, Descriptor::Released, &[]),
        DeliveryState::Modified(modified) => put_modified(out, modified),
        DeliveryState::Other(state) => out.extend_from_slice(state.as_slice()),
    }
}

/// The encoding of a delivery state by itself.
#[tactic(auto, unfolding(amqp_model::specs::PerfSpelling::state_spelling, amqp_model::specs::Texts::described_text, amqp_model::specs::Texts::given))]
fn nested_state(alloc: Global, state: &DeliveryState) -> Result<Nested, AllocError>
    ensures { IfOk result (λ text. nested_view text ≡ spellings.state_spelling state.now) }
{
    match state {
        DeliveryState::Accepted => Ok(Nested::Fixed([0x00, 0x53, 0x24, 0x45])),
        DeliveryState::Released => Ok(Nested::Fixed([0x00, 0x53, 0x26, 0x45])),
        state => {
            let mut text = Vec::new(alloc);
            put_state(alloc, &mut text, state)?;
            Ok(Nested::Written(text))
        }
    }
}

/// The encoding of a delivery state, if there is one.
pub(crate) fn state_text(
    alloc: Global,
    state: &Option<DeliveryState>,
) -> Result<Option<Nested>, AllocError>
    ensures { IfOk result (λ text. option_map nested_view text ≡ spellings.state_text state.now) }
{
    match state {
        None => Ok(None),
        Some(state) => Ok(Some(nested_state(alloc, state)?)),
    }
}

/// The encoding of a delivery state in a box, if there is one.
pub(crate) fn boxed_state_text(
    alloc: Global,
    state: &Option<Boxed<DeliveryState>>,
) -> Result<Option<Nested>, AllocError>
    ensures text { IfOk result (λ text. option_map nested_view text ≡ spellings.state_text state.now) }
    ensures none { is_none state.now ≡ true → IsOk result }
{
    match state {
        None => Ok(None),
        Some(state) => Ok(Some(nested_state(alloc, state.as_ref())?)),
    }
}

fn put_delivery(
    alloc: Global,
    out: &mut Vec<u8>,
    delivery: &UnsettledDelivery,
) -> Result<(), AllocError>
    ensures { OnOk result (out.new.items ≡ out.old.items ++ texts.field_bytes (texts.spelt (d.binary delivery.now.tag.items)) ++ texts.field_bytes (spellings.state_text delivery.now.state)) }
{
    put_plain(out, Plain::Binary(delivery.tag.as_slice()))?;
    match &delivery.state {
        None => out.extend_from_slice(&[0x40]),
        Some(state) => put_state(alloc, out, state),
    }
}

fn put_deliveries(
    alloc: Global,
    out: &mut Vec<u8>,
    deliveries: &[UnsettledDelivery],
) -> Result<(), AllocError>
    ensures { OnOk result (out.new.items ≡ out.old.items ++ spellings.deliveries_text deliveries.now) }
{
    for delivery in deliveries {
        put_delivery(alloc, out, delivery)?;
    }
    Ok(())
}

/// The encoding of an unsettled map, if there is one.
pub(crate) fn unsettled_text(
    alloc: Global,
    unsettled: &Option<Unsettled>,
) -> Result<Option<Vec<u8>>, AllocError>
    ensures { IfOk result (λ text. option_map (λ v. v.items) text ≡ spellings.unsettled_text unsettled.now) }
{
    match unsettled {
        None => Ok(None),
        Some(unsettled) => {
            let deliveries = unsettled.as_slice();
            let mut inside = Vec::new(alloc);
            put_deliveries(alloc, &mut inside, deliveries)?;
            let mut text = Vec::new(alloc);
            put_map(&mut text, deliveries.len(), &inside)?;
            Ok(Some(text))
        }
    }
}

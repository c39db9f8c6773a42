//! Changes of a delivery in its place, with which its entries in the indexes move.
ghost use Rattle.std.specs.Prelude.{◌≡◌, ◌==◌, ℕ, Some, None, false, if◌then◌else◌, OnOk, IfOk};
ghost use Rattle.std.specs.Option.{option_map};
ghost use Rattle.state_collections.specs.NumberMap.{at_number};
ghost use Rattle.router_trace.specs.Deliveries.{held_by, after_frame};
ghost use Rattle.state_deliveries.specs.Giving.{with_outcome};
ghost use Rattle.state_deliveries.specs.Indexing.{Keys, Indexes, left_of, standing, stepped};
ghost use Rattle.state_deliveries.specs.Stepping.{changed};
ghost use Rattle.state_deliveries.specs.Touching.{is_touched_in, StandsSame};

use crate::change::Change;
use crate::delivery::Delivery;
use crate::index::Index;
use crate::standing::{AtConsumer, AtProducer, Left};
use crate::touched::Touched;
use amqp_model::{DeliveryState, Transfer};
use router_trace::Holding;
use state_collections::{Boxed, NumberMap};
use std::alloc::AllocError;

/// Changes the delivery with a number in its place, and moves its entries; what is left to do of it, if there is one.
pub(crate) fn change_in(
    deliveries: &mut NumberMap<Boxed<Delivery>>,
    index: &mut Index,
    touched: &mut Touched,
    number: u64,
    change: &Change,
) -> Result<Option<Left>, AllocError>
    ensures deliveries { OnOk result ((n : ℕ) → at_number deliveries.new n
        ≡ (if number == n then option_map (changed change.now) (at_number deliveries.old n)
        else at_number deliveries.old n)) }
    ensures left { IfOk result (λ left. left
        ≡ option_map (λ d. left_of (changed change.now d)) (at_number deliveries.old number)) }
    ensures indexed { OnOk result ((known : ℕ → Keys) → known number ≡ standing (at_number deliveries.old number)
        → Indexes index.old known
        → Indexes index.new (λ n. if number == n then standing (stepped (changed change.now) (at_number deliveries.old number)) else known n)) }
    ensures touched { OnOk result ((k : ℕ) → is_touched_in touched.new k ≡ false → (is_touched_in touched.old k ≡ false)
        × StandsSame k (standing (at_number deliveries.old number))
        (standing (stepped (changed change.now) (at_number deliveries.old number)))) }
{
    let Some(kept) = deliveries.get_mut(number) else {
        return Ok(None);
    };
    let delivery = kept.as_mut();
    let consumer = AtConsumer::when(change.moves_consumer(), delivery);
    let producer = Some(AtProducer::of(delivery));
    delivery.change(change)?;
    let left = index.follow(touched, number, consumer, &producer, delivery)?;
    Ok(Some(left))
}

/// Gives the delivery with a number an outcome, in its place, if it is undecided, and moves its entries; what is left
/// to do of it, if there is one.
pub(crate) fn give_to(
    deliveries: &mut NumberMap<Boxed<Delivery>>,
    index: &mut Index,
    touched: &mut Touched,
    number: u64,
    outcome: &DeliveryState,
) -> Result<Option<Left>, AllocError>
    ensures deliveries { OnOk result ((n : ℕ) → at_number deliveries.new n
        ≡ (if number == n then option_map (with_outcome outcome.now) (at_number deliveries.old n)
        else at_number deliveries.old n)) }
    ensures left { IfOk result (λ left. left
        ≡ option_map (λ d. left_of (with_outcome outcome.now d)) (at_number deliveries.old number)) }
    ensures indexed { OnOk result ((known : ℕ → Keys) → known number ≡ standing (at_number deliveries.old number)
        → Indexes index.old known
        → Indexes index.new (λ n. if number == n then standing (stepped (with_outcome outcome.now) (at_number deliveries.old number)) else known n)) }
    ensures touched { OnOk result ((k : ℕ) → is_touched_in touched.new k ≡ false → (is_touched_in touched.old k ≡ false)
        × StandsSame k (standing (at_number deliveries.old number))
        (standing (stepped (with_outcome outcome.now) (at_number deliveries.old number)))) }
{
    let Some(kept) = deliveries.get_mut(number) else {
        return Ok(None);
    };
    let delivery = kept.as_mut();
    let consumer = Some(AtConsumer::of(delivery));
    let producer = Some(AtProducer::of(delivery));
    delivery.give(outcome)?;
    let left = index.follow(touched, number, consumer, &producer, delivery)?;
    Ok(Some(left))
}

/// A producer's link has the delivery with a number like this from now on, which is changed in its place; moves its
/// entries; what is left to do of it, if
/// there is one.
pub(crate) fn join_in(
    deliveries: &mut NumberMap<Boxed<Delivery>>,
    index: &mut Index,
    touched: &mut Touched,
    number: u64,
    holding: Holding,
) -> Result<Option<Left>, AllocError>
    ensures deliveries { OnOk result ((n : ℕ) → at_number deliveries.new n
        ≡ (if number == n then option_map (held_by holding) (at_number deliveries.old n)
        else at_number deliveries.old n)) }
    ensures left { IfOk result (λ left. left
        ≡ option_map (λ d. left_of (held_by holding d)) (at_number deliveries.old number)) }
    ensures indexed { OnOk result ((known : ℕ → Keys) → known number ≡ standing (at_number deliveries.old number)
        → Indexes index.old known
        → Indexes index.new (λ n. if number == n then standing (stepped (held_by holding) (at_number deliveries.old number)) else known n)) }
    ensures touched { OnOk result ((k : ℕ) → is_touched_in touched.new k ≡ false → (is_touched_in touched.old k ≡ false)
        × StandsSame k (standing (at_number deliveries.old number))
        (standing (stepped (held_by holding) (at_number deliveries.old number)))) }
{
    let Some(kept) = deliveries.get_mut(number) else {
        return Ok(None);
    };
    let delivery = kept.as_mut();
    let consumer = Some(AtConsumer::of(delivery));
    let producer = Some(AtProducer::of(delivery));
    delivery.join(holding);
    let left = index.follow(touched, number, consumer, &producer, delivery)?;
    Ok(Some(left))
}

/// Notes a transfer that carries `count` bytes of the delivery with a number, in its place, and moves its entries; what
/// is left to do of it, if there is one.
pub(crate) fn note_in(
    deliveries: &mut NumberMap<Boxed<Delivery>>,
    index: &mut Index,
    touched: &mut Touched,
    number: u64,
    transfer: &Transfer,
    count: u64,
) -> Result<Option<Left>, AllocError>
    ensures deliveries { OnOk result ((n : ℕ) → at_number deliveries.new n
        ≡ (if number == n then option_map (after_frame transfer.now count) (at_number deliveries.old n)
        else at_number deliveries.old n)) }
    ensures left { IfOk result (λ left. left
        ≡ option_map (λ d. left_of (after_frame transfer.now count d)) (at_number deliveries.old number)) }
    ensures indexed { OnOk result ((known : ℕ → Keys) → known number ≡ standing (at_number deliveries.old number)
        → Indexes index.old known
        → Indexes index.new (λ n. if number == n then standing (stepped (after_frame transfer.now count) (at_number deliveries.old number)) else known n)) }
    ensures touched { OnOk result ((k : ℕ) → is_touched_in touched.new k ≡ false → (is_touched_in touched.old k ≡ false)
        × StandsSame k (standing (at_number deliveries.old number))
        (standing (stepped (after_frame transfer.now count) (at_number deliveries.old number)))) }
{
    let Some(kept) = deliveries.get_mut(number) else {
        return Ok(None);
    };
    let delivery = kept.as_mut();
    let consumer = Some(AtConsumer::of(delivery));
    let producer = AtProducer::when(delivery.is_decided_with(transfer), delivery);
    delivery.note_frame(transfer, count)?;
    let left = index.follow(touched, number, consumer, &producer, delivery)?;
    Ok(Some(left))
}

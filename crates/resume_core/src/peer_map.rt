//! The unsettled map of a peer's attach, by its tags.
ghost use Rattle.std.specs.Prelude.{◌≡◌, ◌==◌, ℕ, Some, IfOk, OnOk, if◌then◌else◌};
ghost use Rattle.std.specs.BTreeMap.{get};
ghost use Rattle.std.specs.Cmp.Lexicographic.{slice_cmp};
ghost use Rattle.std.specs.Option.{option_copied};
ghost use Rattle.std.specs.Ordering.{nat_cmp};
ghost use Rattle.arrayvec.specs.ArrayVec.{ArrayVec as ATag};
ghost use Rattle.book_model.specs.Book.{same_bytes};
ghost use Rattle.resume_core.specs.Resuming.{entries_of, told_in};

use amqp_model::{DeliveryTag, Unsettled, UnsettledDelivery};
use std::alloc::{AllocError, Global};
use std::collections::BTreeMap;
use std::marker::Model;

/// The entries of the unsettled map of a peer's attach, found by their tags (AMQP 1.0 part 2, section 2.7.3).
#[derive(Drop)]
pub(crate) struct PeerMap<'a> {
    entries: &'a [UnsettledDelivery],
    places: BTreeMap<DeliveryTag, usize>,
}

impl<'a> Model for PeerMap<'a> {
    ghost use Rattle.std.specs.Prelude.{List};
    ghost use Rattle.amqp_model.specs.declared.state.UnsettledDelivery.{UnsettledDelivery};
    ghost use Rattle.resume_core.specs.PeerMap.{IsIndex};

    ghost Value = { List UnsettledDelivery };

    ghost view = { λ m. m.entries.now };

    ghost invariant = { λ m. IsIndex m.places m.entries.now };
}

impl<'a> PeerMap<'a> {
    /// The entries of a map; none if it is null.
    pub(crate) fn new(
        alloc: Global,
        unsettled: Option<&'a Unsettled>,
    ) -> Result<PeerMap<'a>, AllocError>
        ensures { IfOk result (λ m. m ≡ entries_of (option_copied unsettled.entry)) }
    {
        let entries = entries_of(unsettled);
        let mut places = BTreeMap::new(alloc);
        // From the last on, so that the first entry of a tag counts.
        for place in (0..entries.len()).rev() {
            set_place(&mut places, &entries[place].tag, place)?;
        }
        Ok(PeerMap { entries, places })
    }

    /// The entry of a tag.
    pub(crate) fn entry(&self, tag: &DeliveryTag) -> Option<&'a UnsettledDelivery>
        ensures { option_copied result ≡ told_in self.now tag.now.items }
    {
        match self.places.get(tag) {
            None => None,
            Some(place) => self.entries.get(*place),
        }
    }
}

/// The entries of a map; none if it is null.
fn entries_of(unsettled: Option<&Unsettled>) -> &[UnsettledDelivery]
    ensures { result.now ≡ entries_of (option_copied unsettled.entry) }
{
    match unsettled {
        None => &[],
        Some(unsettled) => unsettled.as_slice(),
    }
}

/// Sets the place of a tag.
fn set_place(
    places: &mut BTreeMap<DeliveryTag, usize>,
    tag: &DeliveryTag,
    place: usize,
) -> Result<(), AllocError>
    ensures { OnOk result ((q : ATag ℕ) → get (λ v w. slice_cmp nat_cmp v.items w.items) places.new q
        ≡ (if same_bytes tag.now.items q.items then Some place else get (λ v w. slice_cmp nat_cmp v.items w.items) places.old q)) }
{
    match places.insert(copy_tag(tag)?, place) {
        Ok(_) => Ok(()),
        Err(left) => {
            drop(left);
            Err(AllocError)
        }
    }
}

/// A copy of a tag.
pub(crate) fn copy_tag(tag: &DeliveryTag) -> Result<DeliveryTag, AllocError>
    ensures { IfOk result (λ copy. copy ≡ tag.now) }
{
    let copy = tag.clone()?;
    Ok(copy)
}

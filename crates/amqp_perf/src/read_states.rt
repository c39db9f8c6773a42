//! Reading errors, delivery states and unsettled maps, each by a list of calls of field readers.
ghost use Rattle.std.specs.Prelude.{◌≡◌, ◌/◌, [], ◌∷◌, ◌++◌, List, IfOk, OnOk};
ghost use Rattle.amqp_model.specs.declared.state.UnsettledDelivery.{UnsettledDelivery};
ghost use Rattle.amqp_perf.specs.Tags.{Has};
ghost use Rattle.amqp_perf.specs.Contract.{Gives, GivesAs};
ghost use Rattle.amqp_perf.specs.Places.{Took, at_of};
ghost use Rattle.amqp_perf.specs.States as states;

use crate::fault::{within, within_list};
use crate::fields::Fields;
use crate::opening::{Opening, carried, listed, opening_of, refused};
use amqp_model::{
    Boxed, DeliveryState, DeliveryTag, Descriptor, Fault, Modified, PerfFault, Received, Rejected,
    Unsettled, UnsettledDelivery,
};
use amqp_types::{Code, Leaf, code_of, size_of, sized_of, skip_at};
use std::alloc::{AllocError, Global};
use std::collections::BTreeSet;

#[tactic(auto, unfolding(crate::specs::States::error_fields))]
fn error_fields(alloc: Global, fields: &mut Fields<'_>) -> Result<Fault, PerfFault>
    ensures { Gives result (states.error_fields (at_of fields.old)) }
{
    let condition = fields.required_symbol(alloc)?;
    let description = fields.text(alloc)?;
    let info = fields.map(alloc)?;
    fields.ended()?;
    Ok(Fault {
        condition,
        description,
        info,
    })
}

#[tactic(auto, unfolding(crate::specs::States::received_fields))]
fn received_fields(fields: &mut Fields<'_>) -> Result<Received, PerfFault>
    ensures { Gives result (states.received_fields (at_of fields.old)) }
{
    let section_number = fields.required_uint()?;
    let section_offset = fields.required_ulong()?;
    fields.ended()?;
    Ok(Received {
        section_number,
        section_offset,
    })
}

#[tactic(auto, unfolding(crate::specs::States::rejected_fields))]
fn rejected_fields(alloc: Global, fields: &mut Fields<'_>) -> Result<Rejected, PerfFault>
    ensures { Gives result (states.rejected_fields (at_of fields.old)) }
{
    let error = fields.error(alloc)?;
    fields.ended()?;
    Ok(Rejected { error })
}

#[tactic(auto, unfolding(crate::specs::States::modified_fields))]
fn modified_fields(alloc: Global, fields: &mut Fields<'_>) -> Result<Modified, PerfFault>
    ensures { Gives result (states.modified_fields (at_of fields.old)) }
{
    let delivery_failed = fields.flag()?;
    let undeliverable_here = fields.flag()?;
    let message_annotations = fields.map(alloc)?;
    fields.ended()?;
    Ok(Modified {
        delivery_failed,
        undeliverable_here,
        message_annotations,
    })
}

/// The error at the front, and the bytes after it; none where null stands there.
#[tactic(auto, unfolding(crate::specs::States::error_in))]
pub(crate) fn error_of(
    alloc: Global,
    depth: u32,
    bytes: &[u8],
) -> Result<(Option<Boxed<Fault>>, &[u8]), PerfFault>
    ensures { GivesAs (λ x. (x.0, x.1.now)) result (states.error_in depth bytes.now) }
{
    let (opening, rest) = opening_of(depth, bytes)?;
    match opening {
        Opening::Null => Ok((None, rest)),
        Opening::Described(Some(Descriptor::Error)) => {
            let (mut fields, behind) = listed(
                depth.saturating_sub(1),
                3,
                PerfFault::WrongKind,
                rest,
            )?;
            let error = error_fields(alloc, &mut fields)?;
            Ok((Some(Boxed::new(alloc, error)?), behind))
        }
        Opening::Described(_) | Opening::Other => Err(refused(depth, bytes)),
    }
}

/// The delivery state at the front, and the bytes after it; none where null stands there.
#[tactic(auto, unfolding(crate::specs::States::state_in))]
pub(crate) fn state_of(
    alloc: Global,
    depth: u32,
    bytes: &[u8],
) -> Result<(Option<DeliveryState>, &[u8]), PerfFault>
    ensures { GivesAs (λ x. (x.0, x.1.now)) result (states.state_in depth bytes.now) }
{
    let (opening, rest) = opening_of(depth, bytes)?;
    let list_depth = depth.saturating_sub(1);
    match opening {
        Opening::Null => Ok((None, rest)),
        Opening::Other => Err(refused(depth, bytes)),
        Opening::Described(Some(Descriptor::Received)) => {
            let (mut fields, behind) = listed(list_depth, 2, PerfFault::WrongKind, rest)?;
            Ok((
                Some(DeliveryState::Received(received_fields(&mut fields)?)),
                behind,
            ))
        }
        Opening::Described(Some(Descriptor::Accepted)) => {
            let (fields, behind) = listed(list_depth, 0, PerfFault::WrongKind, rest)?;
            fields.ended()?;
            Ok((Some(DeliveryState::Accepted), behind))
        }
        Opening::Described(Some(Descriptor::Rejected)) => {
            let (mut fields, behind) = listed(list_depth, 1, PerfFault::WrongKind, rest)?;
            Ok((
                Some(DeliveryState::Rejected(rejected_fields(alloc, &mut fields)?)),
                behind,
            ))
        }
        Opening::Described(Some(Descriptor::Released)) => {
            let (fields, behind) = listed(list_depth, 0, PerfFault::WrongKind, rest)?;
            fields.ended()?;
            Ok((Some(DeliveryState::Released), behind))
        }
        Opening::Described(Some(Descriptor::Modified)) => {
            let (mut fields, behind) = listed(list_depth, 3, PerfFault::WrongKind, rest)?;
            Ok((
                Some(DeliveryState::Modified(modified_fields(alloc, &mut fields)?)),
                behind,
            ))
        }
        Opening::Described(_) => {
            let (state, behind) = carried(alloc, depth, bytes)?;
            Ok((Some(DeliveryState::Other(state)), behind))
        }
    }
}

impl<'a> Fields<'a> {
    /// An error.
    #[tactic(auto, unfolding(crate::specs::States::error_at))]
    pub fn error(&mut self, alloc: Global) -> Result<Option<Boxed<Fault>>, PerfFault>
        ensures { Took (λ x. x) result (at_of self.new) (states.error_at (at_of self.old)) }
    {
        if self.left == 0 {
            self.ended()?;
            return Ok(None);
        }
        match error_of(alloc, self.depth, self.rest) {
            Err(fault) => Err(within(fault)),
            Ok((error, rest)) => {
                self.left -= 1;
                self.rest = rest;
                Ok(error)
            }
        }
    }

    /// A delivery state.
    #[tactic(auto, unfolding(crate::specs::States::state_at))]
    pub fn state(&mut self, alloc: Global) -> Result<Option<DeliveryState>, PerfFault>
        ensures { Took (λ x. x) result (at_of self.new) (states.state_at (at_of self.old)) }
    {
        if self.left == 0 {
            self.ended()?;
            return Ok(None);
        }
        match state_of(alloc, self.depth, self.rest) {
            Err(fault) => Err(within(fault)),
            Ok((state, rest)) => {
                self.left -= 1;
                self.rest = rest;
                Ok(state)
            }
        }
    }

    /// A delivery state, in a box.
    pub fn boxed_state(&mut self, alloc: Global) -> Result<Option<Boxed<DeliveryState>>, PerfFault>
        ensures { Took (λ x. x) result (at_of self.new) (states.state_at (at_of self.old)) }
    {
        match self.state(alloc)? {
            None => Ok(None),
            Some(state) => Ok(Some(Boxed::new(alloc, state)?)),
        }
    }

    /// The tag of an unsettled map's entry.
    #[tactic(auto, unfolding(crate::specs::States::tag_key))]
    fn tag_key(&mut self) -> Result<DeliveryTag, PerfFault>
        ensures { Took (λ x. x) result (at_of self.new) (states.tag_key (at_of self.old)) }
    {
        match self.tag()? {
            None => Err(PerfFault::WrongKind),
            Some(tag) => Ok(tag),
        }
    }

    /// The deliveries of an unsettled map.
    #[tactic(auto, unfolding(crate::specs::States::unsettled_at))]
    pub fn unsettled(&mut self, alloc: Global) -> Result<Option<Unsettled>, PerfFault>
        ensures { Took (λ x. x) result (at_of self.new) (states.unsettled_at (at_of self.old)) }
    {
        if self.left == 0 {
            self.ended()?;
            return Ok(None);
        }
        match unsettled_of(alloc, self.depth, self.rest) {
            Err(fault) => Err(within(fault)),
            Ok((unsettled, rest)) => {
                self.left -= 1;
                self.rest = rest;
                Ok(unsettled)
            }
        }
    }
}

/// The unsettled map at the front, and the bytes after it; none where null stands there. It is passed over first.
#[tactic(auto, unfolding(crate::specs::States::unsettled_in))]
fn unsettled_of(
    alloc: Global,
    depth: u32,
    bytes: &[u8],
) -> Result<(Option<Unsettled>, &[u8]), PerfFault>
    ensures { GivesAs (λ x. (x.0, x.1.now)) result (states.unsettled_in depth bytes.now) }
{
    let behind = skip_at(depth, bytes)?;
    let (code, rest) = code_of(bytes)?;
    match code {
        Code::Leaf(Leaf::Null) => Ok((None, behind)),
        Code::Map(size) => {
            let (inside, _) = sized_of(size, rest)?;
            let (left, rest) = size_of(size, inside).map_err(within_list)?;
            let mut fields = Fields {
                depth: depth.saturating_sub(1),
                left,
                rest,
            };
            let deliveries = deliveries_of(alloc, &mut fields, left / 2)?;
            Ok((Some(Unsettled::new(deliveries)), behind))
        }
        _ => Err(PerfFault::WrongKind),
    }
}

/// A copy of a tag.
fn copy_of(tag: &DeliveryTag) -> Result<DeliveryTag, AllocError>
    ensures { IfOk result (λ copy. copy ≡ tag.now) }
{
    let copy = tag.clone()?;
    Ok(copy)
}

/// Notes a tag, unless it is there already.
fn note_tag(tags: &mut BTreeSet<DeliveryTag>, tag: &DeliveryTag) -> Result<(), PerfFault>
    ensures found { (ds : List UnsettledDelivery) → Has tags.old ds → Gives result (states.not_among ds tag.now) }
    ensures noted { OnOk result ((ds : List UnsettledDelivery) (d : UnsettledDelivery) → Has tags.old ds → d.tag ≡ tag.now → Has tags.new (ds ++ d ∷ [])) }
{
    if tags.insert(copy_of(tag)?)? {
        Ok(())
    } else {
        Err(PerfFault::DuplicateTag)
    }
}

/// This many deliveries.
#[tactic(auto, using(crate::proofs::Loops::one_delivery, crate::proofs::Loops::no_delivery))]
fn deliveries_of(
    alloc: Global,
    fields: &mut Fields<'_>,
    count: u32,
) -> Result<Vec<UnsettledDelivery>, PerfFault>
    ensures { GivesAs (λ v. v.items) result (states.deliveries_at [] count (at_of fields.old)) }
{
    let mut deliveries = Vec::new(alloc);
    let mut tags = BTreeSet::new(alloc);
    for _ in 0..count {
        let tag = fields.tag_key()?;
        note_tag(&mut tags, &tag)?;
        let state = fields.state(alloc)?;
        deliveries.push(UnsettledDelivery { tag, state })?;
    }
    Ok(deliveries)
}

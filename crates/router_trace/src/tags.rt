//! Delivery-tags of unsettled maps.
ghost use Rattle.std.specs.Prelude.{◌≡◌, ◌++◌, ◌∷◌, [], length, Some, IfOk, OnOk};
ghost use Rattle.std.specs.Option.{option_copied};
ghost use Rattle.router_trace.specs.Tags.{tags_of, has_tag, common, without_tag};

use amqp_model::{DeliveryTag, Unsettled, UnsettledDelivery};
use std::alloc::{AllocError, Global};
use std::marker::Model;

/// Delivery-tags, in order.
#[derive(Debug, Drop)]
pub struct Tags {
    tags: Vec<DeliveryTag>,
}

impl Model for Tags {
    ghost use Rattle.std.specs.Prelude.{List, ℕ};
    ghost use Rattle.arrayvec.specs.ArrayVec.{ArrayVec};

    ghost Value = { List (ArrayVec ℕ) };

    ghost view = { λ s. s.tags.items };
}

impl Tags {
    /// No tags.
    pub fn none(alloc: Global) -> Tags
        ensures { result ≡ [] }
    {
        Tags {
            tags: Vec::new(alloc),
        }
    }

    /// Those of a map; a null map has none.
    pub fn of(alloc: Global, map: Option<&Unsettled>) -> Result<Tags, AllocError>
        ensures { IfOk result (λ tags. tags ≡ tags_of (option_copied map.entry)) }
    {
        let mut tags = Vec::new(alloc);
        for entry in entries_of(map) {
            add(&mut tags, &entry.tag)?;
        }
        Ok(Tags { tags })
    }

    /// Those of a map that this list has too; a null map has none.
    pub fn common(&self, alloc: Global, map: Option<&Unsettled>) -> Result<Tags, AllocError>
        ensures { IfOk result (λ tags. tags ≡ common self.now (tags_of (option_copied map.entry))) }
    {
        let mut tags = Vec::new(alloc);
        for entry in entries_of(map) {
            if self.has(&entry.tag) {
                add(&mut tags, &entry.tag)?;
            }
        }
        Ok(Tags { tags })
    }

    /// How many they are.
    pub fn len(&self) -> usize
        ensures { result ≡ length self.now }
    {
        self.tags.len()
    }

    /// Whether a tag is among them.
    pub fn has(&self, tag: &DeliveryTag) -> bool
        ensures { result ≡ has_tag self.now tag.now.items }
    {
        for own in &self.tags {
            if own.as_slice() == tag.as_slice() {
                return true;
            }
        }
        false
    }

    /// Removes a tag.
    pub fn remove(&mut self, tag: &DeliveryTag)
        ensures { self.new ≡ without_tag tag.now.items self.old }
    {
        self.tags.retain(|own| !(own.as_slice() == tag.as_slice()));
    }
}

/// The entries of a map; none if it is null.
fn entries_of(map: Option<&Unsettled>) -> &[UnsettledDelivery]
    ensures { tags_of (Some result.now) ≡ tags_of (option_copied map.entry) }
{
    match map {
        None => &[],
        Some(map) => map.as_slice(),
    }
}

/// Appends a copy of a tag.
fn add(tags: &mut Vec<DeliveryTag>, tag: &DeliveryTag) -> Result<(), AllocError>
    ensures { OnOk result (tags.new.items ≡ tags.old.items ++ tag.now ∷ []) }
{
    let tag = tag.clone()?;
    if let Err(left) = tags.push(tag) {
        drop(left);
        return Err(AllocError);
    }
    Ok(())
}

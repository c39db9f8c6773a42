//! The unsettled deliveries of a session, by delivery-id.
ghost use Rattle.std.specs.Prelude.{◌≡◌, ◌==◌, ◌<◌, ◌≤◌, ◌+◌, ◌^◌, ℕ, None, Some, ◌&&◌, ◌++◌, if◌then◌else◌, length, IsTrue, ◌↔◌, IfOk, OnOk, OnErr};
ghost use Rattle.std.specs.Option.{is_some, option_copied, option_copied_mut};
ghost use Rattle.std.specs.Borrow.{sem};
ghost use Rattle.std.specs.Ordering.{nat_cmp};
ghost use Rattle.std.specs.BTreeMap.{get, btree_map_len};
ghost use Rattle.std.specs.Map.{keys_of};
ghost use Rattle.amqp_session.specs.Lending.{LendsKnown};
ghost use Rattle.amqp_session.specs.Ranges.{in_range, has, IsRising};

use crate::serial::Serial;
use std::alloc::{AllocError, Global};
use std::collections::BTreeMap;
use std::collections::btree_map::Range;

/// What a session knows of its unsettled deliveries, by their delivery-ids (AMQP 1.0 part 2, sections 2.6.12 and 2.7.6).
#[derive(Debug, Drop)]
pub struct DeliveryIds<T> {
    deliveries: BTreeMap<u32, T>,
}

impl<T: Drop> DeliveryIds<T> {
    /// Without deliveries.
    pub fn new(alloc: Global) -> DeliveryIds<T>
        ensures none { (id : ℕ) → get nat_cmp result.deliveries id ≡ None }
        ensures len { btree_map_len result.deliveries ≡ 0 }
    {
        DeliveryIds {
            deliveries: BTreeMap::new(alloc),
        }
    }

    /// How many deliveries there are.
    pub fn len(&self) -> usize
        ensures { result ≡ btree_map_len self.now.deliveries }
    {
        self.deliveries.len()
    }

    /// Whether there is none.
    pub fn is_empty(&self) -> bool
        ensures { result ≡ (btree_map_len self.now.deliveries == 0) }
    {
        self.deliveries.is_empty()
    }

    /// What is known of the delivery with this id.
    pub fn get(&self, id: Serial) -> Option<&T>
        ensures { option_copied result ≡ get nat_cmp self.now.deliveries id }
    {
        self.deliveries.get(&id.number())
    }

    /// What is known of the delivery with this id, to change it.
    pub fn get_mut(&mut self, id: Serial) -> Option<&mut T>
        ensures* lends { sem 𝓛 (LendsKnown T.row self.entry id result) }
        ensures known { option_copied_mut result ≡ get nat_cmp self.old.deliveries id }
    {
        self.deliveries.get_mut(&id.number())
    }

    /// Stores this for the delivery with this id, and gives what was known of it before. Fails, and changes nothing, where memory
    /// is refused.
    pub fn insert(&mut self, id: Serial, known: T) -> Result<Option<T>, AllocError>
        ensures noted { OnOk result ((q : ℕ) → get nat_cmp self.new.deliveries q ≡ (if id == q then Some known else get nat_cmp self.old.deliveries q)) }
        ensures before { IfOk result (λ before. before ≡ get nat_cmp self.old.deliveries id) }
        ensures len { IfOk result (λ before. btree_map_len self.new.deliveries ≡ btree_map_len self.old.deliveries + (if is_some before then 0 else 1)) }
        ensures err { OnErr result ((q : ℕ) → get nat_cmp self.new.deliveries q ≡ get nat_cmp self.old.deliveries q) }
        ensures err_len { OnErr result (btree_map_len self.new.deliveries ≡ btree_map_len self.old.deliveries) }
    {
        match self.deliveries.insert(id.number(), known) {
            Ok(before) => Ok(before),
            Err(_) => Err(AllocError),
        }
    }

    /// Removes the delivery with this id, and gives what was known of it.
    pub fn remove(&mut self, id: Serial) -> Option<T>
        ensures gone { (q : ℕ) → get nat_cmp self.new.deliveries q ≡ (if id == q then None else get nat_cmp self.old.deliveries q) }
        ensures before { result ≡ get nat_cmp self.old.deliveries id }
        ensures len { btree_map_len self.new.deliveries + (if is_some result then 1 else 0) ≡ btree_map_len self.old.deliveries }
    {
        self.deliveries.remove(&id.number())
    }

    /// The ids of the unsettled deliveries in a disposition's range, in its order: from its first id to its last, modulo 2^32, and
    /// none where that is 2^31 or more. It looks only at these deliveries, never at each id of the range. Fails where
    /// memory is refused.
    #[tactic(auto, using(crate::proofs::Ranges::none_rises))]
    pub fn in_range(
        &self,
        alloc: Global,
        first: Serial,
        last: Serial,
    ) -> Result<Vec<Serial>, AllocError>
        ensures exact { IfOk result (λ ids. (id : ℕ) → id < 2 ^ 32 → has id ids.items ≡ (in_range first last id && is_some (get nat_cmp self.now.deliveries id))) }
        ensures rising { IfOk result (λ ids. IsRising first ids.items) }
        ensures few { IfOk result (λ ids. length ids.items ≤ btree_map_len self.now.deliveries) }
    {
        let mut ids = Vec::new(alloc);
        if first.distance_to(last) >= 0x8000_0000 {
            return Ok(ids);
        }
        let (low, high) = (first.number(), last.number());
        if low <= high {
            append(&mut ids, self.deliveries.range(low..=high))?;
            return Ok(ids);
        }
        append(&mut ids, self.deliveries.range(low..=u32::MAX))?;
        append(&mut ids, self.deliveries.range(0..=high))?;
        Ok(ids)
    }
}

/// Appends the ids of these deliveries.
fn append<T>(ids: &mut Vec<Serial>, deliveries: Range<'_, u32, T>) -> Result<(), AllocError>
    ensures { OnOk result (ids.new.items ≡ ids.old.items ++ keys_of deliveries.entry) }
{
    for (id, _) in deliveries {
        ids.push(Serial::new(*id))?;
    }
    Ok(())
}

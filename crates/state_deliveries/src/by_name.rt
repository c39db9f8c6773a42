//! The numbers of deliveries by their names.
ghost use Rattle.std.specs.Prelude.{◌≡◌, ◌==◌, ℕ, Some, None, if◌then◌else◌, OnOk};
ghost use Rattle.std.specs.Option.{option_and_then};
ghost use Rattle.state_collections.specs.NumberMap.{at_number};
ghost use Rattle.router_trace.specs.declared.binding.DeliveryName.{DeliveryName as Name};
ghost use Rattle.router_trace.specs.Deliveries.{same_name, number_tagged, tag_in};
ghost use Rattle.state_deliveries.specs.Calling.{at_name};

use crate::tag::tagged;
use amqp_model::Transfer;
use router_trace::DeliveryName;
use state_collections::NumberMap;
use std::alloc::{AllocError, Global};

/// So many neighbouring rows, and as many counters, are found without an ordered map.
const PLACES: usize = 1024;

/// The numbers of deliveries by their names.
#[derive(Drop)]
pub(crate) struct ByName {
    rows: NumberMap<u64>,
    counters: NumberMap<u64>,
}

impl ByName {
    /// An empty table.
    pub(crate) fn new(alloc: Global) -> ByName
        ensures rows { (k : ℕ) → at_number result.rows k ≡ None }
        ensures counters { (k : ℕ) → at_number result.counters k ≡ None }
    {
        ByName {
            rows: NumberMap::new(alloc, PLACES),
            counters: NumberMap::new(alloc, PLACES),
        }
    }

    /// The number of the delivery with a name.
    pub(crate) fn get(&self, name: DeliveryName) -> Option<u64>
        ensures { result ≡ at_name self.now name }
    {
        match name {
            DeliveryName::Row(row) => self.rows.get(row.0).copied(),
            DeliveryName::Counter(counter) => self.counters.get(counter).copied(),
        }
    }

    /// The number of the delivery that has a tag.
    pub(crate) fn tagged(&self, tag: &[u8]) -> Option<u64>
        ensures { result ≡ number_tagged (at_name self.now) tag.now }
    {
        self.get(tagged(tag)?)
    }

    /// The number of the delivery that a transfer of the router begins, by its tag.
    pub(crate) fn begun(&self, transfer: &Transfer) -> Option<u64>
        ensures { result ≡ option_and_then (number_tagged (at_name self.now)) (tag_in transfer.now) }
    {
        match &transfer.delivery_tag {
            None => None,
            Some(tag) => self.tagged(tag.as_slice()),
        }
    }

    /// Gives a name this number.
    pub(crate) fn set(&mut self, name: DeliveryName, number: u64) -> Result<(), AllocError>
        ensures { OnOk result ((m : Name) → at_name self.new m ≡ (if same_name name m then Some number else at_name self.old m)) }
    {
        match name {
            DeliveryName::Row(row) => insert(&mut self.rows, row.0, number),
            DeliveryName::Counter(counter) => insert(&mut self.counters, counter, number),
        }
    }

    /// Removes a name.
    pub(crate) fn forget(&mut self, name: DeliveryName)
        ensures { (m : Name) → at_name self.new m ≡ (if same_name name m then None else at_name self.old m) }
    {
        match name {
            DeliveryName::Row(row) => remove(&mut self.rows, row.0),
            DeliveryName::Counter(counter) => remove(&mut self.counters, counter),
        }
    }
}

/// Puts a number at a key.
fn insert(numbers: &mut NumberMap<u64>, key: u64, number: u64) -> Result<(), AllocError>
    ensures { OnOk result ((k : ℕ) → at_number numbers.new k ≡ (if key == k then Some number else at_number numbers.old k)) }
{
    let _ = numbers.insert(key, number)?;
    Ok(())
}

/// Removes the number at a key.
fn remove(numbers: &mut NumberMap<u64>, key: u64)
    ensures { (k : ℕ) → at_number numbers.new k ≡ (if key == k then None else at_number numbers.old k) }
{
    let _ = numbers.remove(key);
}

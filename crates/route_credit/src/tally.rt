//! How much each producer was given.
ghost use Rattle.std.specs.Prelude.{◌≡◌, ◌==◌, ◌+◌, ℕ, [], false, Some, OnOk, IfOk, if◌then◌else◌};
ghost use Rattle.std.specs.List.Sorted.{IsStrictlySortedBy};
ghost use Rattle.std.specs.Map.{keys_of};
ghost use Rattle.std.specs.Ordering.{nat_cmp};
ghost use Rattle.route_credit.specs.Links.{amount_at, link_at};
ghost use Rattle.route_credit.specs.Pool.{by_id};
ghost use Rattle.route_credit.specs.Tally.{before_others, tallied};

use crate::ids::ProducerId;
use std::alloc::{AllocError, Global};
use std::collections::BTreeMap;

/// The sum of a producer.
#[derive(Clone, Copy, Debug)]
pub(crate) struct Sum {
    id: u64,
    amount: u32,
}

/// The sum of each producer. That of the producer that was given credit last stands in place, and only those of others in an
/// ordered map: where one producer gets all, no memory is taken.
#[derive(Debug, Drop)]
pub(crate) struct Tally {
    alloc: Global,
    last: Option<Sum>,
    others: BTreeMap<u64, u32>,
}

impl Tally {
    /// No sums.
    #[inline]
    pub(crate) fn new(alloc: Global) -> Tally
        ensures { tallied result ≡ [] }
    {
        Tally {
            alloc,
            last: None,
            others: BTreeMap::new(alloc),
        }
    }

    /// Adds a part to the sum of a producer.
    #[inline]
    pub(crate) fn add(&mut self, id: u64, part: u32) -> Result<(), AllocError>
        ensures { OnOk result ((q : ℕ) → link_at (tallied self.new) q ≡ (if id == q then Some (amount_at (λ n. n) (link_at (tallied self.old) id) + part) else link_at (tallied self.old) q)) }
    {
        let before = self.take_up(id)?;
        let Some(amount) = before.checked_add(part) else {
            return Err(AllocError);
        };
        self.last = Some(Sum { id, amount });
        Ok(())
    }

    /// The sum of a producer. If another one stands in place, that one is put by.
    #[inline]
    fn take_up(&mut self, id: u64) -> Result<u32, AllocError>
        ensures amount { IfOk result (λ amount. amount ≡ amount_at (λ n. n) (link_at (tallied self.old) id)) }
        ensures others { OnOk result ((q : ℕ) → (id == q) ≡ false → link_at self.new.others.entries q ≡ link_at (tallied self.old) q) }
    {
        if let Some(last) = self.last {
            if last.id == id {
                return Ok(last.amount);
            }
        }
        self.put_by()?;
        Ok(self.amount_by(id))
    }

    /// Puts the sum in place by the others.
    #[inline]
    fn put_by(&mut self) -> Result<(), AllocError>
        ensures { OnOk result ((q : ℕ) → link_at self.new.others.entries q ≡ link_at (tallied self.old) q) }
    {
        let Some(last) = self.last else {
            return Ok(());
        };
        match self.others.insert(last.id, last.amount) {
            Ok(_) => Ok(()),
            Err(_) => Err(AllocError),
        }
    }

    /// The sum of a producer among those that were put by.
    #[inline]
    fn amount_by(&self, id: u64) -> u32
        ensures { result ≡ amount_at (λ n. n) (link_at self.now.others.entries id) }
    {
        match self.others.get(&id) {
            None => 0,
            Some(amount) => *amount,
        }
    }

    /// The sums in order of attach.
    #[inline]
    pub(crate) fn told(&mut self) -> Result<Vec<(ProducerId, u32)>, AllocError>
        ensures same { IfOk result (λ told. (q : ℕ) → link_at (by_id told.items) q ≡ link_at (tallied self.old) q) }
        ensures ordered { IfOk result (λ told. IsStrictlySortedBy nat_cmp (keys_of (by_id told.items))) }
    {
        if self.others.is_empty() {
            return alone(self.alloc, self.last);
        }
        self.put_by()?;
        in_order(self.alloc, &self.others)
    }
}

/// The sum of one producer, or none.
fn alone(alloc: Global, sum: Option<Sum>) -> Result<Vec<(ProducerId, u32)>, AllocError>
    ensures { IfOk result (λ told. by_id told.items ≡ before_others sum []) }
{
    let Some(sum) = sum else {
        return Ok(Vec::new(alloc));
    };
    let mut told = Vec::with_capacity(alloc, 1)?;
    match told.push((ProducerId(sum.id), sum.amount)) {
        Ok(()) => Ok(told),
        Err(_) => Err(AllocError),
    }
}

/// The sums of several in order of attach.
fn in_order(alloc: Global, sums: &BTreeMap<u64, u32>) -> Result<Vec<(ProducerId, u32)>, AllocError>
    ensures told { IfOk result (λ told. by_id told.items ≡ sums.now.entries) }
    ensures ordered { IsStrictlySortedBy nat_cmp (keys_of sums.now.entries) }
{
    let mut told = Vec::with_capacity(alloc, sums.len())?;
    for (id, sum) in sums {
        match told.push((ProducerId(*id), *sum)) {
            Ok(()) => {}
            Err(_) => return Err(AllocError),
        }
    }
    Ok(told)
}

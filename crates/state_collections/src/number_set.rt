//! Sets of numbers of which there are mostly few.
ghost use Rattle.std.specs.Prelude.{◌≡◌, ◌==◌, ◌<◌, ◌≤◌, ◌&&◌, ◌||◌, not, nat_lt, ℕ, true, false, length, OnOk};
ghost use Rattle.std.specs.Ordering.{nat_cmp};
ghost use Rattle.std.specs.BTreeSet.{contains};
ghost use Rattle.state_collections.specs.Among.{IsLeast};
ghost use Rattle.state_collections.specs.NumberSet.{has, size};

use crate::few::{Few, lower};
use std::alloc::{AllocError, Global};
use std::collections::BTreeSet;
use std::ops::Bound;

/// A set of numbers. Up to four stand in place, and only what comes beyond them in an ordered set: a set that never has more takes no memory
/// and gives none back. Each call costs a logarithm of the count at most. If an operation fails to allocate, the contents are unspecified.
#[derive(Drop)]
pub struct NumberSet {
    few: Few,
    more: BTreeSet<u64>,
}

impl NumberSet {
    /// No number.
    pub fn new(alloc: Global) -> NumberSet
        ensures { (n : ℕ) → has result n ≡ false }
    {
        NumberSet {
            few: Few::new(),
            more: BTreeSet::new(alloc),
        }
    }

    /// Whether a number is one of them.
    #[inline]
    pub fn contains(&self, number: u64) -> bool
        ensures { result ≡ has self.now number }
    {
        self.few.has(number) || (!self.more.is_empty() && stands_in(&self.more, number))
    }

    /// Adds a number. Fails if memory is refused, which it asks for only where four others stand in place.
    #[inline]
    pub fn insert(&mut self, number: u64) -> Result<(), AllocError>
        ensures { OnOk result ((n : ℕ) → has self.new n ≡ (number == n || has self.old n)) }
    {
        if self.few.has(number) || self.few.put(number) {
            return Ok(());
        }
        insert_in(&mut self.more, number)
    }

    /// Takes a number away.
    #[inline]
    pub fn remove(&mut self, number: u64)
        ensures gone { (n : ℕ) → has self.new n ≡ (not (number == n) && has self.old n) }
        ensures fewer { has self.old number ≡ true → size self.new < size self.old }
    {
        self.few.remove(number);
        if !self.more.is_empty() {
            remove_from(&mut self.more, number);
        }
    }

    /// The lowest number.
    #[inline]
    pub fn first(&self) -> Option<u64>
        ensures { IsLeast (has self.now) result }
    {
        if self.more.is_empty() {
            return self.few.lowest();
        }
        self.first_of_all()
    }

    /// The lowest number above another.
    #[inline]
    pub fn after(&self, number: u64) -> Option<u64>
        ensures { IsLeast (λ n. nat_lt number n && has self.now n) result }
    {
        if self.more.is_empty() {
            return self.few.lowest_above(number);
        }
        self.after_of_all(number)
    }

    /// The lowest number, in place or in the ordered set.
    #[inline(never)]
    fn first_of_all(&self) -> Option<u64>
        ensures { IsLeast (has self.now) result }
    {
        lower(self.few.lowest(), first(&self.more))
    }

    /// The lowest number above another, in place or in the ordered set.
    #[inline(never)]
    fn after_of_all(&self, number: u64) -> Option<u64>
        ensures { IsLeast (λ n. nat_lt number n && has self.now n) result }
    {
        lower(
            self.few.lowest_above(number),
            first_above(&self.more, number),
        )
    }
}

/// Whether a number is in an ordered set.
#[inline(never)]
fn stands_in(numbers: &BTreeSet<u64>, number: u64) -> bool
    ensures { result ≡ contains nat_cmp numbers.now number }
{
    numbers.contains(&number)
}

/// Adds a number to an ordered set. Fails if memory is refused.
#[inline(never)]
fn insert_in(numbers: &mut BTreeSet<u64>, number: u64) -> Result<(), AllocError>
    ensures { OnOk result ((n : ℕ) → contains nat_cmp numbers.new n ≡ (number == n || contains nat_cmp numbers.old n)) }
{
    match numbers.insert(number) {
        Ok(_) => Ok(()),
        Err(_) => Err(AllocError),
    }
}

/// Takes a number out of an ordered set.
#[inline(never)]
fn remove_from(numbers: &mut BTreeSet<u64>, number: u64)
    ensures gone { (n : ℕ) → contains nat_cmp numbers.new n ≡ (not (number == n) && contains nat_cmp numbers.old n) }
    ensures most { length numbers.new.keys ≤ length numbers.old.keys }
    ensures fewer { contains nat_cmp numbers.old number ≡ true → length numbers.new.keys < length numbers.old.keys }
{
    let _ = numbers.remove(&number);
}

/// The lowest number of an ordered set.
fn first(numbers: &BTreeSet<u64>) -> Option<u64>
    ensures { IsLeast (contains nat_cmp numbers.now) result }
{
    numbers.first().copied()
}

/// The lowest number of an ordered set above another.
fn first_above(numbers: &BTreeSet<u64>, number: u64) -> Option<u64>
    ensures { IsLeast (λ n. nat_lt number n && contains nat_cmp numbers.now n) result }
{
    let mut above = numbers.range((Bound::Excluded(number), Bound::Unbounded));
    match above.next() {
        None => None,
        Some(next) => Some(*next),
    }
}

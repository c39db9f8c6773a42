//! Numbers by key, which keep what their changes replaced, so that they can be undone without allocation.
ghost use Rattle.std.specs.Prelude.{◌≡◌, ◌++◌, [], None, Some, OnOk, if◌then◌else◌, option_map};
ghost use Rattle.std.specs.BTreeMap.{get};
ghost use Rattle.std.specs.Ordering.{is_eq};
ghost use Rattle.book_core.specs.Numbers.{number_at, or_zero, undone, earlier};

use std::alloc::{AllocError, Global};
use std::collections::BTreeMap;

/// What stood at a key before a change; none where nothing did.
#[derive(Drop)]
pub(crate) struct Earlier<K> {
    key: K,
    number: Option<u64>,
}

/// Numbers by key, 0 where none was set, and what was there before the changes since the last commit, the oldest
/// change first.
#[derive(Drop)]
pub(crate) struct Numbers<K: Ord> {
    numbers: BTreeMap<K, u64>,
    log: Vec<Earlier<K>>,
}

impl<K: Ord + Drop> Numbers<K> {
    #[tactic(auto, using(crate::proofs::Changes::earlier_none))]
    pub(crate) fn new(alloc: Global) -> Numbers<K>
        ensures none { (q : K) → number_at K.cmp result q ≡ 0 }
        ensures was { earlier K.cmp result.log.items (get K.cmp result.numbers) ≡ get K.cmp result.numbers }
    {
        Numbers {
            numbers: BTreeMap::new(alloc),
            log: Vec::new(alloc),
        }
    }

    /// The number at a key.
    pub(crate) fn at(&self, key: &K) -> u64
        ensures { result ≡ number_at K.cmp self.now key.now }
    {
        match self.numbers.get(key) {
            None => 0,
            Some(number) => *number,
        }
    }

    /// Sets the number at a key, of which `copy` is a copy.
    pub(crate) fn set(&mut self, key: K, copy: K, number: u64) -> Result<(), AllocError>
        requires { copy ≡ key }
        ensures set { OnOk result ((q : K) → number_at K.cmp self.new q ≡ (if is_eq (K.cmp key q) then number else number_at K.cmp self.old q)) }
        ensures was { earlier K.cmp self.new.log.items (get K.cmp self.new.numbers) ≡ earlier K.cmp self.old.log.items (get K.cmp self.old.numbers) }
    {
        self.log.reserve(1)?;
        let before = self.numbers.insert(key, number)?;
        let change = Earlier {
            key: copy,
            number: before,
        };
        self.log.push(change).unwrap();
        Ok(())
    }

    /// Undoes each change since the last commit.
    #[tactic(auto, using(crate::proofs::Changes::earlier_more, crate::proofs::Changes::earlier_none))]
    pub(crate) fn rollback(&mut self)
        ensures back { get K.cmp self.new.numbers ≡ earlier K.cmp self.old.log.items (get K.cmp self.old.numbers) }
        ensures was { earlier K.cmp self.new.log.items (get K.cmp self.new.numbers) ≡ get K.cmp self.new.numbers }
    {
        while let Some(change) = self.log.pop() {
            put_back(&mut self.numbers, &change);
        }
    }

    /// Makes each change since the last commit permanent, and removes the keys whose number is 0.
    #[tactic(auto, using(crate::proofs::Changes::earlier_none))]
    pub(crate) fn commit(&mut self)
        ensures same { (q : K) → number_at K.cmp self.new q ≡ number_at K.cmp self.old q }
        ensures was { earlier K.cmp self.new.log.items (get K.cmp self.new.numbers) ≡ get K.cmp self.new.numbers }
    {
        while let Some(change) = self.log.pop() {
            take_zero(&mut self.numbers, &change.key);
        }
    }
}

/// Undoes a change.
fn put_back<K: Ord + Drop>(numbers: &mut BTreeMap<K, u64>, change: &Earlier<K>)
    ensures { (q : K) → get K.cmp numbers.new q ≡ undone K.cmp change.now (get K.cmp numbers.old) q }
{
    match change.number {
        None => remove(numbers, &change.key),
        Some(number) => replace(numbers, &change.key, number),
    }
}

fn remove<K: Ord + Drop>(numbers: &mut BTreeMap<K, u64>, key: &K)
    ensures { (q : K) → get K.cmp numbers.new q ≡ (if is_eq (K.cmp key.now q) then None else get K.cmp numbers.old q) }
{
    let _ = numbers.remove(key);
}

/// Puts a number in the place of another, if there is one.
fn replace<K: Ord + Drop>(numbers: &mut BTreeMap<K, u64>, key: &K, number: u64)
    ensures { (q : K) → get K.cmp numbers.new q ≡ (if is_eq (K.cmp key.now q) then option_map (λ _. number) (get K.cmp numbers.old q) else get K.cmp numbers.old q) }
{
    if let Some(place) = numbers.get_mut(key) {
        *place = number;
    }
}

/// Removes a key whose number is 0.
fn take_zero<K: Ord + Drop>(numbers: &mut BTreeMap<K, u64>, key: &K)
    ensures { (q : K) → or_zero (get K.cmp numbers.new q) ≡ or_zero (get K.cmp numbers.old q) }
{
    if let Some(0) = numbers.get(key) {
        remove(numbers, key);
    }
}

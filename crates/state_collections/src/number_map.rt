//! Values by number, for tables whose numbers mostly rise by one.
ghost use Rattle.std.specs.Prelude.{◌≡◌, ◌==◌, ◌<◌, ◌≤◌, ◌||◌, ◌++◌, ℕ, true, false, Some, None, length, bit_and, if◌then◌else◌, slice_get, slice_set, OnOk, IfOk};
ghost use Rattle.std.specs.Borrow.{sem};
ghost use Rattle.std.specs.Option.{is_some, option_map, option_copied, option_copied_mut};
ghost use Rattle.std.specs.Ordering.{nat_cmp};
ghost use Rattle.std.specs.BTreeMap.{get};
ghost use Rattle.std.specs.Map.{keys_of};
ghost use Rattle.amqp_session.specs.Ranges.{has};
ghost use Rattle.state_collections.specs.NumberMap.{at_number, in_places, or_else, no_entry, is_free_for, is_listed, tells, LendsNumbered, LendsPlaced};

use std::alloc::{AllocError, Global};
use std::collections::BTreeMap;
use std::collections::btree_map::Range;
use std::mem;

/// A value with its number.
#[derive(Drop)]
pub(crate) struct Entry<V> {
    pub(crate) number: u64,
    pub(crate) value: V,
}

/// Places of which each number has one: its remainder by their count, which the values of other numbers may take.
#[derive(Drop)]
pub(crate) struct Places<V> {
    pub(crate) places: Vec<Option<Entry<V>>>,
    count: usize,
    mask: u64,
}

/// Values by number. A number's place among the places that there are is its remainder by their count, and only a value whose place another one
/// takes stands in an ordered map. So while no more neighbouring numbers than places have values, each call is a few instructions; what comes
/// beyond costs a logarithm of the count at most. Memory is taken twice: for a few places with the first value, since most tables never have more,
/// and for all of them once a place is wanted by another number. If an operation fails to allocate, the contents are unspecified.
#[derive(Drop)]
pub struct NumberMap<V> {
    alloc: Global,
    pub(crate) placed: Places<V>,
    pub(crate) others: BTreeMap<u64, V>,
}

impl<V: Drop> NumberMap<V> {
    /// No value. The count of places is a power of two; of any other count some places stay unused.
    pub fn new(alloc: Global, places: usize) -> NumberMap<V>
        ensures { (n : ℕ) → at_number result n ≡ None }
    {
        NumberMap {
            alloc,
            placed: Places::new(alloc, places),
            others: BTreeMap::new(alloc),
        }
    }

    /// The value of a number.
    #[inline]
    pub fn get(&self, number: u64) -> Option<&V>
        ensures { option_copied result ≡ at_number self.now number }
    {
        match self.placed.get(number) {
            Some(value) => Some(value),
            None => self.get_other(number),
        }
    }

    /// The value of a number in the ordered map.
    #[inline]
    fn get_other(&self, number: u64) -> Option<&V>
        ensures { option_copied result ≡ get nat_cmp self.now.others number }
    {
        if self.others.is_empty() {
            return None;
        }
        get_in(&self.others, number)
    }

    /// The value of a number, to change it.
    #[inline]
    pub fn get_mut(&mut self, number: u64) -> Option<&mut V>
        ensures* lends { sem 𝓛 (LendsNumbered V.row self.entry number result) }
        ensures value { option_copied_mut result ≡ at_number self.old number }
    {
        if self.placed.has(number) {
            return self.placed.get_mut(number);
        }
        self.others.get_mut(&number)
    }

    /// Gives a number this value, and gives back the one that it had. Fails if memory is refused.
    pub fn insert(&mut self, number: u64, value: V) -> Result<Option<V>, AllocError>
        ensures set { OnOk result ((q : ℕ) → at_number self.new q ≡ (if number == q then Some value else at_number self.old q)) }
        ensures before { IfOk result (λ before. before ≡ at_number self.old number) }
    {
        self.placed.fill(self.alloc)?;
        if self.placed.has_room(number) {
            return Ok(self.put(number, value));
        }
        self.insert_beside(number, value)
    }

    /// Puts a value in its number's place, and gives the one that the number had there or in the ordered map.
    #[inline]
    fn put(&mut self, number: u64, value: V) -> Option<V>
        requires { is_free_for number (slice_get self.old.placed.places.items (bit_and number self.old.placed.mask)) ≡ true }
        ensures set { (q : ℕ) → at_number self.new q ≡ (if number == q then Some value else at_number self.old q) }
        ensures before { result ≡ at_number self.old number }
    {
        let other = self.remove_other(number);
        let placed = self.placed.put(number, value);
        placed.or(other)
    }

    /// Gives a number this value where another one has its place: takes all places first, if there are fewer. Gives back the value that the number had.
    /// Fails if memory is refused.
    #[inline(never)]
    fn insert_beside(&mut self, number: u64, value: V) -> Result<Option<V>, AllocError>
        ensures set { OnOk result ((q : ℕ) → at_number self.new q ≡ (if number == q then Some value else at_number self.old q)) }
        ensures before { IfOk result (λ before. before ≡ at_number self.old number) }
    {
        self.widen()?;
        self.set(number, value)
    }

    /// Gives a number this value, in its place or in the ordered map, and gives back the one that it had. Fails if memory is refused.
    fn set(&mut self, number: u64, value: V) -> Result<Option<V>, AllocError>
        ensures set { OnOk result ((q : ℕ) → at_number self.new q ≡ (if number == q then Some value else at_number self.old q)) }
        ensures before { IfOk result (λ before. before ≡ at_number self.old number) }
    {
        if self.placed.has_room(number) {
            return Ok(self.put(number, value));
        }
        match self.others.insert(number, value) {
            Ok(before) => Ok(before),
            Err(_) => Err(AllocError),
        }
    }

    /// Takes all places, where there are fewer, and puts what stood in the few into its place among all. Fails if memory is refused.
    #[inline(never)]
    fn widen(&mut self) -> Result<(), AllocError>
        ensures { OnOk result ((q : ℕ) → at_number self.new q ≡ at_number self.old q) }
    {
        if self.placed.is_wide() {
            return Ok(());
        }
        let mut numbers = Vec::new(self.alloc);
        self.placed.append_numbers(&mut numbers)?;
        let all = self.placed.all_free(self.alloc)?;
        let mut few = mem::replace(&mut self.placed, all);
        for number in &numbers {
            self.move_from(&mut few, *number)?;
        }
        Ok(())
    }

    /// Takes the value of a number out of its place among these, if it stands there, and gives it to the number here. Fails if memory is refused.
    fn move_from(&mut self, few: &mut Places<V>, number: u64) -> Result<(), AllocError>
        ensures moved { OnOk result ((q : ℕ) → or_else (in_places few.new q) (at_number self.new q) ≡ or_else (in_places few.old q) (at_number self.old q)) }
        ensures gone { OnOk result ((q : ℕ) → in_places few.new q ≡ (if number == q then None else in_places few.old q)) }
    {
        if let Some(value) = few.take(number) {
            self.set(number, value)?;
        }
        Ok(())
    }

    /// Removes the value of a number, and gives it.
    pub fn remove(&mut self, number: u64) -> Option<V>
        ensures gone { (q : ℕ) → at_number self.new q ≡ (if number == q then None else at_number self.old q) }
        ensures before { result ≡ at_number self.old number }
    {
        let placed = self.placed.take(number);
        let other = self.remove_other(number);
        placed.or(other)
    }

    /// Removes the value of a number from the ordered map, and gives it.
    #[inline]
    fn remove_other(&mut self, number: u64) -> Option<V>
        ensures placed { self.new.placed ≡ self.old.placed }
        ensures gone { (q : ℕ) → get nat_cmp self.new.others q ≡ (if number == q then None else get nat_cmp self.old.others q) }
        ensures before { result ≡ get nat_cmp self.old.others number }
    {
        if self.others.is_empty() {
            return None;
        }
        remove_in(&mut self.others, number)
    }

    /// Appends the numbers that have a value, in no order. Fails if memory is refused.
    pub fn append_numbers(&self, numbers: &mut Vec<u64>) -> Result<(), AllocError>
        ensures { OnOk result ((n : ℕ) → has n numbers.new.items ≡ (has n numbers.old.items || is_some (at_number self.now n))) }
    {
        self.placed.append_numbers(numbers)?;
        append_keys(&self.others, numbers)?;
        Ok(())
    }

    /// Appends numbers that have a value, in no order: all that stand in their places, and of the others those from a lowest to a highest. So it costs
    /// what it finds, the count of places and a logarithm. Fails if memory is refused.
    pub(crate) fn append_between(
        &self,
        low: u64,
        high: u64,
        numbers: &mut Vec<u64>,
    ) -> Result<(), AllocError>
        requires { low ≤ high }
        ensures { OnOk result ((n : ℕ) → has n numbers.new.items ≡ (has n numbers.old.items || is_listed self.now low high n)) }
    {
        self.placed.append_numbers(numbers)?;
        append_range(self.others.range(low..=high), numbers)?;
        Ok(())
    }

    /// Whether no number has a value. It looks at each place.
    #[tactic(auto, using(crate::proofs::Remainders::nothing))]
    pub fn is_empty(&self) -> bool
        ensures { result ≡ true → (n : ℕ) → at_number self.now n ≡ None }
    {
        if !self.others.is_empty() {
            return false;
        }
        self.placed.is_empty()
    }
}

impl<V: Drop> Places<V> {
    /// No places yet, and at most so many.
    fn new(alloc: Global, count: usize) -> Places<V>
        ensures { (n : ℕ) → in_places result n ≡ None }
    {
        Places {
            places: Vec::new(alloc),
            count,
            mask: 0,
        }
    }

    /// Makes a few places, where there are none yet. Fails if memory is refused.
    #[inline]
    fn fill(&mut self, alloc: Global) -> Result<(), AllocError>
        ensures { OnOk result ((n : ℕ) → in_places self.new n ≡ in_places self.old n) }
    {
        if !self.places.is_empty() {
            return Ok(());
        }
        self.places = free_places(alloc, self.few())?;
        self.mask = mask_of(self.few());
        Ok(())
    }

    /// How many places there are at first: eight, or all where there are fewer.
    fn few(&self) -> usize {
        self.count.min(8)
    }

    /// Whether all places are there.
    fn is_wide(&self) -> bool {
        self.places.len() >= self.count
    }

    /// As many places as there can be, each without a value. Fails if memory is refused.
    fn all_free(&self, alloc: Global) -> Result<Places<V>, AllocError>
        ensures { IfOk result (λ all. (n : ℕ) → in_places all n ≡ None) }
    {
        Ok(Places {
            places: free_places(alloc, self.count)?,
            count: self.count,
            mask: mask_of(self.count),
        })
    }

    /// The index of a number's place.
    #[inline]
    fn index(&self, number: u64) -> usize
        ensures { result ≡ bit_and number self.now.mask }
    {
        (number & self.mask) as usize
    }

    /// The value of a number, if it stands in its place.
    #[inline]
    fn get(&self, number: u64) -> Option<&V>
        ensures { option_copied result ≡ in_places self.now number }
    {
        match self.places.get(self.index(number)) {
            None => None,
            Some(place) => match place {
                None => None,
                Some(entry) => {
                    if entry.number == number {
                        Some(&entry.value)
                    } else {
                        None
                    }
                }
            },
        }
    }

    /// Whether a number has a value in its place.
    #[inline]
    fn has(&self, number: u64) -> bool
        ensures { result ≡ is_some (in_places self.now number) }
    {
        self.get(number).is_some()
    }

    /// Whether a number's place has no value of another number.
    #[inline]
    fn has_room(&self, number: u64) -> bool
        ensures { result ≡ is_free_for number (slice_get self.now.places.items (bit_and number self.now.mask)) }
    {
        match self.places.get(self.index(number)) {
            None => false,
            Some(place) => match place {
                None => true,
                Some(entry) => entry.number == number,
            },
        }
    }

    /// Puts this in a number's place, and gives what was there.
    #[inline]
    fn replace(&mut self, number: u64, entry: Option<Entry<V>>) -> Option<Entry<V>>
        requires { bit_and number self.old.mask < length self.old.places.items }
        ensures places { self.new.places.items ≡ slice_set self.old.places.items (bit_and number self.old.mask) entry }
        ensures mask { self.new.mask ≡ self.old.mask }
        ensures before { Some result ≡ slice_get self.old.places.items (bit_and number self.old.mask) }
    {
        let index = self.index(number);
        mem::replace(&mut self.places[index], entry)
    }

    /// Puts a value in its number's place, and gives the one that the number had there.
    #[inline]
    fn put(&mut self, number: u64, value: V) -> Option<V>
        requires { is_free_for number (slice_get self.old.places.items (bit_and number self.old.mask)) ≡ true }
        ensures set { (q : ℕ) → in_places self.new q ≡ (if number == q then Some value else in_places self.old q) }
        ensures before { result ≡ in_places self.old number }
    {
        value_of(self.replace(number, Some(Entry { number, value })))
    }

    /// Takes the value of a number out of its place.
    #[inline]
    fn take(&mut self, number: u64) -> Option<V>
        ensures gone { (q : ℕ) → in_places self.new q ≡ (if number == q then None else in_places self.old q) }
        ensures before { result ≡ in_places self.old number }
    {
        if !self.has(number) {
            return None;
        }
        value_of(self.replace(number, None))
    }

    /// The value of a number, if it stands in its place, to change it.
    #[inline]
    fn get_mut(&mut self, number: u64) -> Option<&mut V>
        ensures* lends { sem 𝓛 (LendsPlaced V.row self.entry number result) }
        ensures value { option_copied_mut result ≡ in_places self.old number }
    {
        let index = self.index(number);
        let place = self.places.get_mut(index)?;
        let Some(entry) = place else {
            return None;
        };
        if entry.number == number {
            return Some(&mut entry.value);
        }
        None
    }

    /// Appends the numbers that have a value in their places, in the order of the places. Fails if memory is refused.
    fn append_numbers(&self, numbers: &mut Vec<u64>) -> Result<(), AllocError>
        ensures { OnOk result ((n : ℕ) → has n numbers.new.items ≡ (has n numbers.old.items || is_some (in_places self.now n))) }
    {
        for place in &self.places {
            self.append_number(place, numbers)?;
        }
        Ok(())
    }

    /// Appends the number of this entry, if its value stands in its place. Fails if memory is refused.
    fn append_number(
        &self,
        place: &Option<Entry<V>>,
        numbers: &mut Vec<u64>,
    ) -> Result<(), AllocError>
        ensures { OnOk result ((n : ℕ) → has n numbers.new.items ≡ (has n numbers.old.items || tells (is_some (in_places self.now n)) n place.now)) }
    {
        let Some(entry) = place else {
            return Ok(());
        };
        if !self.has(entry.number) {
            return Ok(());
        }
        numbers.push(entry.number)?;
        Ok(())
    }

    /// Whether no place has a value.
    fn is_empty(&self) -> bool
        ensures { result ≡ true → (n : ℕ) → in_places self.now n ≡ None }
    {
        for place in &self.places {
            if place.is_some() {
                return false;
            }
        }
        true
    }
}

/// The value of a number in an ordered map.
#[inline(never)]
fn get_in<V>(values: &BTreeMap<u64, V>, number: u64) -> Option<&V>
    ensures { option_copied result ≡ get nat_cmp values.now number }
{
    values.get(&number)
}

/// Removes the value of a number from an ordered map, and gives it.
#[inline(never)]
fn remove_in<V: Drop>(values: &mut BTreeMap<u64, V>, number: u64) -> Option<V>
    ensures gone { (q : ℕ) → get nat_cmp values.new q ≡ (if number == q then None else get nat_cmp values.old q) }
    ensures before { result ≡ get nat_cmp values.old number }
{
    values.remove(&number)
}

/// Appends the numbers of an ordered map. Fails if memory is refused.
fn append_keys<V>(values: &BTreeMap<u64, V>, numbers: &mut Vec<u64>) -> Result<(), AllocError>
    ensures { OnOk result (numbers.new.items ≡ numbers.old.items ++ keys_of values.now.entries) }
{
    for (number, _) in values {
        numbers.push(*number)?;
    }
    Ok(())
}

/// Appends the numbers of a part of an ordered map. Fails if memory is refused.
fn append_range<V>(values: Range<'_, u64, V>, numbers: &mut Vec<u64>) -> Result<(), AllocError>
    ensures { OnOk result (numbers.new.items ≡ numbers.old.items ++ keys_of values.entry) }
{
    for (number, _) in values {
        numbers.push(*number)?;
    }
    Ok(())
}

/// What is kept of a number to have its place among so many, which are a power of two.
fn mask_of(count: usize) -> u64 {
    (count as u64).saturating_sub(1)
}

/// So many places without a value. Fails if memory is refused.
fn free_places<V: Drop>(alloc: Global, count: usize) -> Result<Vec<Option<Entry<V>>>, AllocError>
    ensures { IfOk result (λ places. (i : ℕ) → no_entry (slice_get places.items i) ≡ true) }
{
    let mut places = Vec::with_capacity(alloc, count)?;
    for _ in 0..count {
        places.push(None)?;
    }
    Ok(places)
}

/// The value of an entry.
#[inline]
fn value_of<V>(entry: Option<Entry<V>>) -> Option<V>
    ensures { result ≡ option_map (λ e. e.value) entry }
{
    match entry {
        None => None,
        Some(
            Entry {
                number: _number,
                value,
            },
        ) => Some(value),
    }
}

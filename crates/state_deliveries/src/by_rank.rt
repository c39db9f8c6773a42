//! Numbers of deliveries, of each link in the order of binding.
ghost use Rattle.std.specs.Prelude.{◌≡◌, ◌==◌, ℕ, Bool, true, false, if◌then◌else◌, OnOk, ◌&&◌, ◌||◌};
ghost use Rattle.std.specs.Ordering.{is_gt};
ghost use Rattle.std.specs.BTreeMap.{is_at};
ghost use Rattle.std.specs.BTreeMap.Range.{is_from_start};
ghost use Rattle.std.specs.BTreeSet.{contains};
ghost use Rattle.std.specs.declared.ops.Bound.{Bound as TheBound};
ghost use Rattle.router_trace.specs.declared.binding.Rank.{Rank as TheRank};
ghost use Rattle.state_deliveries.specs.Placing.{Key as TheKey, key_cmp};
ghost use Rattle.state_deliveries.specs.Finding.{is_behind};
ghost use Rattle.state_deliveries.specs.Ranking.{entry, is_entry, has_entry, IsFirstEntry, IsFirstIn, IsFirstGroup, number_on, after_link, in_group, is_turn};

use router_trace::Rank;
use std::alloc::{AllocError, Global};
use std::collections::BTreeSet;
use std::ops::Bound;

/// A link, the rank of a delivery, by row and counter, and its number.
type Entry = (u64, u64, u64, u64);

/// A place in the order of binding, on a link.
#[derive(Clone, Copy, PartialEq, Eq)]
pub(crate) struct Turn {
    /// The link's number.
    pub(crate) link: u64,
    /// The place.
    pub(crate) rank: Rank,
}

/// Delivery numbers by link number, in the order of binding. One of them stands in place, and only what comes beyond it in an ordered set: a
/// table that never has more takes no memory and gives none back. There the numbers of a link are adjacent, and the first of them is found by
/// one look-up.
#[derive(Drop)]
pub(crate) struct ByRank {
    place: Option<Entry>,
    others: BTreeSet<Entry>,
}

impl ByRank {
    /// An empty table.
    pub(crate) fn new(alloc: Global) -> ByRank
        ensures { (k : ℕ) (r : TheRank) (n : ℕ) → in_group result k r n ≡ false }
    {
        ByRank {
            place: None,
            others: BTreeSet::new(alloc),
        }
    }

    /// The first number of a link.
    pub(crate) fn first(&self, link: u64) -> Option<u64>
        ensures { IsFirstIn (in_group self.now link) result }
    {
        let found = self.first_entry(Bound::Included((link, 0, 0, 0)));
        on_link(link, found)
    }

    /// The first number of a link behind that of a rank and a number.
    pub(crate) fn first_after(&self, link: u64, rank: Rank, number: u64) -> Option<u64>
        ensures { IsFirstIn (λ r n. is_behind rank number r n && in_group self.now link r n) result }
    {
        let found = self.first_entry(Bound::Excluded((link, rank.row, rank.counter, number)));
        on_link(link, found)
    }

    /// The lowest link, above `link` or of all, that has numbers.
    pub(crate) fn link_after(&self, link: Option<u64>) -> Option<u64>
        ensures { IsFirstGroup (in_group self.now) link result }
    {
        match self.first_entry(after_link(link)) {
            None => None,
            Some(entry) => Some(entry.0),
        }
    }

    /// Moves a number from one place in the order of a link to another.
    pub(crate) fn shift(
        &mut self,
        number: u64,
        before: Option<Turn>,
        after: Option<Turn>,
    ) -> Result<(), AllocError>
        ensures { OnOk result (((k : ℕ) (r : TheRank) → in_group self.old k r number ≡ is_turn before k r)
            → (k : ℕ) (r : TheRank) (n : ℕ) → in_group self.new k r n ≡ (if number == n then is_turn after k r else in_group self.old k r n)) }
    {
        if before == after {
            return Ok(());
        }
        self.drop_from(number, before);
        self.add_to(number, after)
    }

    /// Removes a number from its place, if it has one.
    fn drop_from(&mut self, number: u64, turn: Option<Turn>)
        ensures { (k : ℕ) (r : TheRank) (n : ℕ) → in_group self.new k r n ≡ (if is_turn turn k r then (if number == n then false else in_group self.old k r n) else in_group self.old k r n) }
    {
        if let Some(turn) = turn {
            self.take_out(turn.entry(number));
        }
    }

    /// Adds a number at its place, if it has one.
    fn add_to(&mut self, number: u64, turn: Option<Turn>) -> Result<(), AllocError>
        ensures { OnOk result ((k : ℕ) (r : TheRank) (n : ℕ) → in_group self.new k r n ≡ (if is_turn turn k r then (if number == n then true else in_group self.old k r n) else in_group self.old k r n)) }
    {
        if let Some(turn) = turn {
            self.put_in(turn.entry(number))?;
        }
        Ok(())
    }

    /// The first entry from a bound on.
    fn first_entry(&self, low: Bound<Entry>) -> Option<Entry>
        ensures { IsFirstEntry (has_entry self.now) low result }
    {
        lower(in_place(self.place, low), first_entry(&self.others, low))
    }

    /// Puts an entry in place, or among the others where the place is taken.
    fn put_in(&mut self, entry: Entry) -> Result<(), AllocError>
        ensures { OnOk result ((q : TheKey) → has_entry self.new q ≡ (if is_at (key_cmp entry) q then true else has_entry self.old q)) }
    {
        if self.place.is_none() {
            self.place = Some(entry);
            return Ok(());
        }
        put_in(&mut self.others, entry)?;
        Ok(())
    }

    /// Takes an entry away.
    fn take_out(&mut self, entry: Entry)
        ensures { (q : TheKey) → has_entry self.new q ≡ (if is_at (key_cmp entry) q then false else has_entry self.old q) }
    {
        self.leave_place(entry);
        if !self.others.is_empty() {
            take_out(&mut self.others, entry);
        }
    }

    /// Takes an entry away, if it stands in place.
    fn leave_place(&mut self, entry: Entry)
        ensures place { (q : TheKey) → is_entry self.new.place q ≡ (if is_at (key_cmp entry) q then false else is_entry self.old.place q) }
        ensures others { self.new.others ≡ self.old.others }
    {
        if self.place == Some(entry) {
            self.place = None;
        }
    }
}

impl Turn {
    /// The entry of a number.
    fn entry(self, number: u64) -> Entry
        ensures { result ≡ entry self.link self.rank number }
    {
        (self.link, self.rank.row, self.rank.counter, number)
    }
}

/// The entry in place, if it is from a bound on.
fn in_place(place: Option<Entry>, low: Bound<Entry>) -> Option<Entry>
    ensures { IsFirstEntry (is_entry place) low result }
{
    match place {
        None => None,
        Some(entry) => {
            if is_from(low, entry) {
                Some(entry)
            } else {
                None
            }
        }
    }
}

/// Whether an entry is from a bound on.
fn is_from(low: Bound<Entry>, entry: Entry) -> bool
    ensures { result ≡ is_from_start key_cmp low entry }
{
    match low {
        Bound::Unbounded => true,
        Bound::Included(bound) => !is_after(bound, entry),
        Bound::Excluded(bound) => is_after(entry, bound),
    }
}

/// Whether an entry stands after another.
fn is_after(entry: Entry, other: Entry) -> bool
    ensures { result ≡ is_gt (key_cmp entry other) }
{
    if entry.0 != other.0 {
        return entry.0 > other.0;
    }
    if entry.1 != other.1 {
        return entry.1 > other.1;
    }
    if entry.2 != other.2 {
        return entry.2 > other.2;
    }
    entry.3 > other.3
}

/// The lower of two entries, where there are two.
fn lower(one: Option<Entry>, other: Option<Entry>) -> Option<Entry>
    ensures { (p q : TheKey → Bool) (low : TheBound TheKey) → IsFirstEntry p low one → IsFirstEntry q low other → IsFirstEntry (λ x. p x || q x) low result }
{
    match (one, other) {
        (None, other) => other,
        (one, None) => one,
        (Some(one), Some(other)) => {
            if is_after(one, other) {
                Some(other)
            } else {
                Some(one)
            }
        }
    }
}

/// The first entry of a set from a bound on.
fn first_entry(entries: &BTreeSet<Entry>, low: Bound<Entry>) -> Option<Entry>
    ensures { IsFirstEntry (contains key_cmp entries.now) low result }
{
    if entries.is_empty() {
        return None;
    }
    let mut above = entries.range((low, Bound::Unbounded));
    match above.next() {
        None => None,
        Some(next) => Some(*next),
    }
}

/// The number of an entry, if it is of this link.
fn on_link(link: u64, entry: Option<Entry>) -> Option<u64>
    ensures { result ≡ number_on link entry }
{
    match entry {
        None => None,
        Some(entry) => { if entry.0 == link { Some(entry.3) } else { None } }
    }
}

/// The bound from which the entries of the links above this one begin, or those of all.
fn after_link(link: Option<u64>) -> Bound<Entry>
    ensures { result ≡ after_link link }
{
    match link {
        None => Bound::Unbounded,
        Some(link) => Bound::Excluded((link, u64::MAX, u64::MAX, u64::MAX)),
    }
}

/// Puts an entry into a set.
fn put_in(entries: &mut BTreeSet<Entry>, entry: Entry) -> Result<(), AllocError>
    ensures { OnOk result ((q : TheKey) → contains key_cmp entries.new q ≡ (if is_at (key_cmp entry) q then true else contains key_cmp entries.old q)) }
{
    match entries.insert(entry) {
        Ok(_) => Ok(()),
        Err(_) => Err(AllocError),
    }
}

/// Removes an entry from a set.
fn take_out(entries: &mut BTreeSet<Entry>, entry: Entry)
    ensures { (q : TheKey) → contains key_cmp entries.new q ≡ (if is_at (key_cmp entry) q then false else contains key_cmp entries.old q) }
{
    let _ = entries.remove(&entry);
}

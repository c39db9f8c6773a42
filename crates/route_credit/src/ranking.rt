//! Links in the order of their turns.
ghost use Rattle.std.specs.Prelude.{◌≡◌, ◌+◌, ◌-◌, ◌≤◌, ℕ, Option, None, Some, OnOk, OnErr, true, nat_lt, if◌then◌else◌};
ghost use Rattle.std.specs.BTreeSet.{contains};
ghost use Rattle.route_credit.specs.Few.{IsFirst, is_there, once};
ghost use Rattle.route_credit.specs.Links.{IsLeast};
ghost use Rattle.route_credit.specs.Ranks.{behind, place_cmp, ranked, Ranks, times};
ghost use Rattle.route_credit.specs.declared.place.Place.{Place};

use crate::few::Few;
use crate::place::{Place, sooner};
use std::alloc::{AllocError, Global};
use std::collections::BTreeSet;
use std::ops::Bound;

/// The places of the links that have a rank. Up to four stand in an array, and only what comes beyond them in an ordered set: where there
/// are never more, no memory is taken and none given back.
#[derive(Debug, Drop)]
pub(crate) struct Ranking {
    few: Few,
    more: BTreeSet<Place>,
}

impl Ranking {
    pub(crate) fn new(alloc: Global) -> Ranking
        ensures { Ranks result (λ id. None) }
    {
        Ranking {
            few: Few::new(),
            more: BTreeSet::new(alloc),
        }
    }

    /// Puts a place that isn't there.
    #[inline]
    fn put(&mut self, place: Option<Place>) -> Result<(), AllocError>
        ensures put { OnOk result ((p : Place) → times self.old p + once (is_there place p) ≤ 1 → times self.new p ≡ times self.old p + once (is_there place p)) }
        ensures err { OnErr result ((p : Place) → times self.new p ≡ times self.old p) }
    {
        let Some(there) = place else {
            return Ok(());
        };
        if self.few.replace(None, place) {
            return Ok(());
        }
        match self.more.insert(there) {
            Ok(_) => Ok(()),
            Err(_) => Err(AllocError),
        }
    }

    /// Takes a place away.
    #[inline]
    fn take(&mut self, place: Option<Place>)
        ensures { (p : Place) → times self.old p ≤ 1 → times self.new p ≡ times self.old p - once (is_there place p) }
    {
        let Some(there) = place else {
            return;
        };
        if !self.few.replace(place, None) {
            let _ = self.more.remove(&there);
        }
    }

    /// Moves a link from its rank to another.
    #[inline]
    pub(crate) fn set(
        &mut self,
        id: u64,
        before: Option<u64>,
        after: Option<u64>,
    ) -> Result<(), AllocError>
        ensures ranks { (ranks : ℕ → Option ℕ) → Ranks self.old ranks → ranks id ≡ before → OnOk result (Ranks self.new (ranked ranks id after)) }
        ensures err { (ranks : ℕ → Option ℕ) → Ranks self.old ranks → OnErr result (Ranks self.new ranks) }
    {
        if before == after {
            return Ok(());
        }
        let from = Place::of(id, before);
        let to = Place::of(id, after);
        if self.few.replace(from, to) {
            return Ok(());
        }
        self.put(to)?;
        self.take(from);
        Ok(())
    }

    /// Removes a link, which has this rank.
    #[inline]
    pub(crate) fn unset(&mut self, id: u64, rank: Option<u64>)
        ensures { (ranks : ℕ → Option ℕ) → Ranks self.old ranks → ranks id ≡ rank → Ranks self.new (ranked ranks id None) }
    {
        self.take(Place::of(id, rank));
    }

    /// The link whose turn is first.
    #[inline]
    pub(crate) fn first(&self) -> Option<u64>
        ensures { (ranks : ℕ → Option ℕ) → Ranks self.now ranks → IsLeast ranks result }
    {
        match sooner(self.few.first(), first(&self.more)) {
            None => None,
            Some(place) => Some(place.id),
        }
    }

    /// The first link after this one, in the order of their numbers, where all have the rank 0.
    pub(crate) fn first_after(&self, id: u64) -> Option<u64>
        ensures { (ranks : ℕ → Option ℕ) → Ranks self.now ranks → ((other m : ℕ) → ranks other ≡ Some m → m ≡ 0) → IsLeast (behind id ranks) result }
    {
        match sooner(self.few.first_after(id), first_after(&self.more, id)) {
            None => None,
            Some(next) => Some(next.id),
        }
    }
}

/// The first place of an ordered set.
#[inline]
fn first(places: &BTreeSet<Place>) -> Option<Place>
    ensures { IsFirst (λ place. once (contains place_cmp places.now place)) result }
{
    match places.first() {
        None => None,
        Some(place) => Some(*place),
    }
}

/// The first place of an ordered set of the links with a number above this one, where all have the rank 0.
fn first_after(places: &BTreeSet<Place>, id: u64) -> Option<Place>
    ensures { ((place : Place) → contains place_cmp places.now place ≡ true → place.rank ≡ 0) → IsFirst (λ place. if nat_lt id place.id then once (contains place_cmp places.now place) else 0) result }
{
    if places.is_empty() {
        return None;
    }
    let from = Place { rank: 0, id };
    let mut places = places.range((Bound::Excluded(from), Bound::Unbounded));
    match places.next() {
        None => None,
        Some(next) => Some(*next),
    }
}

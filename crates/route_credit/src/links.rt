//! The links of one side of an address, with an index.
ghost use Rattle.std.specs.Prelude.{◌≡◌, ◌==◌, ◌+◌, ◌-◌, ℕ, List, [], length, Option, None, Some, OnOk, OnErr, option_and_then};
ghost use Rattle.std.specs.List.Sorted.{IsStrictlySortedBy};
ghost use Rattle.std.specs.Map.{keys_of};
ghost use Rattle.std.specs.Ordering.{nat_cmp};
ghost use Rattle.route_credit.specs.Links.{amount_at, link_at, with_link, without_link, total, IsLeast};
ghost use Rattle.route_credit.specs.Ranks.{behind, rank_at, ranked, Ranks};
ghost use Rattle.route_credit.specs.Indexed.{IsIndexed};

use crate::ranking::Ranking;
use crate::weigh::Weigh;
use route_table::Distribution;
use std::alloc::{AllocError, Global};
use std::collections::BTreeMap;

/// Links by number, with the order of their turns and the sum of their amounts.
#[derive(Debug, Drop)]
pub(crate) struct Links<T> {
    rows: BTreeMap<u64, T>,
    ranking: Ranking,
    total: u64,
}

impl<T: Weigh> Links<T> {
    pub(crate) fn new(alloc: Global, distribution: Distribution) -> Links<T>
        ensures rows { result.rows.entries ≡ [] }
        ensures whole { IsIndexed (T.rank distribution) T.amount result }
    {
        Links {
            rows: BTreeMap::new(alloc),
            ranking: Ranking::new(alloc),
            total: 0,
        }
    }

    /// What is known of a link.
    #[inline]
    pub(crate) fn get(&self, id: u64) -> Option<T>
        ensures { result ≡ link_at self.now.rows.entries id }
    {
        self.rows.get(&id).copied()
    }

    /// Whether there are none.
    #[inline]
    pub(crate) fn is_empty(&self) -> bool
        ensures { result ≡ (length self.now.rows.entries == 0) }
    {
        self.rows.is_empty()
    }

    /// The sum of the amounts of all links.
    #[inline]
    pub(crate) fn total(&self) -> u64
        ensures { result ≡ self.now.total }
    {
        self.total
    }

    /// Stores what is known of a link, in place of what was known.
    pub(crate) fn set(
        &mut self,
        distribution: Distribution,
        id: u64,
        link: T,
    ) -> Result<(), AllocError>
        ensures set { OnOk result (self.new.rows.entries ≡ with_link self.old.rows.entries id link) }
        ensures ordered { OnOk result (IsStrictlySortedBy nat_cmp (keys_of self.old.rows.entries)) }
        ensures err { OnErr result (self.new.rows.entries ≡ self.old.rows.entries) }
        ensures whole { IsIndexed (T.rank distribution) T.amount self.old → IsIndexed (T.rank distribution) T.amount self.new }
    {
        if let Some(known) = self.rows.get_mut(&id) {
            if known.is_same(link) {
                return Ok(());
            }
            change(
                known,
                &mut self.ranking,
                &mut self.total,
                distribution,
                id,
                link,
            )?;
            return Ok(());
        }
        self.add(distribution, id, link)
    }

    /// Stores what is known of a link of which nothing was known.
    fn add(&mut self, distribution: Distribution, id: u64, link: T) -> Result<(), AllocError>
        ensures set { OnOk result (self.new.rows.entries ≡ with_link self.old.rows.entries id link) }
        ensures ordered { OnOk result (IsStrictlySortedBy nat_cmp (keys_of self.old.rows.entries)) }
        ensures err { OnErr result (self.new.rows.entries ≡ self.old.rows.entries) }
        ensures whole { link_at self.old.rows.entries id ≡ None → IsIndexed (T.rank distribution) T.amount self.old → IsIndexed (T.rank distribution) T.amount self.new }
    {
        let after = link.rank(distribution);
        let Some(total) = self.total.checked_add(link.amount()) else {
            return Err(AllocError);
        };
        self.ranking.set(id, None, after)?;
        match self.rows.insert(id, link) {
            Ok(_) => {}
            Err(_) => {
                self.ranking.unset(id, after);
                return Err(AllocError);
            }
        }
        self.total = total;
        Ok(())
    }

    /// Removes a link.
    #[inline]
    pub(crate) fn remove(&mut self, distribution: Distribution, id: u64)
        ensures removed { self.new.rows.entries ≡ without_link self.old.rows.entries id }
        ensures whole { IsIndexed (T.rank distribution) T.amount self.old → IsIndexed (T.rank distribution) T.amount self.new }
    {
        if self.rows.contains_key(&id) {
            self.take_out(distribution, id);
        }
    }

    /// Removes a link that is there, with its place and its part in the sum.
    fn take_out(&mut self, distribution: Distribution, id: u64)
        ensures removed { self.new.rows.entries ≡ without_link self.old.rows.entries id }
        ensures whole { IsIndexed (T.rank distribution) T.amount self.old → IsIndexed (T.rank distribution) T.amount self.new }
    {
        let old = self.rows.remove(&id);
        self.ranking.unset(id, rank_of(distribution, old));
        self.total = self.total.saturating_sub(amount_of(old));
    }

    /// The link whose turn is first.
    #[inline]
    pub(crate) fn first(&self) -> Option<u64>
        ensures { (rank : T → Option ℕ) → IsIndexed rank T.amount self.now → IsLeast (rank_at rank self.now.rows.entries) result }
    {
        self.ranking.first()
    }

    /// The first link after this one, in the order of their numbers, where every rank is 0.
    #[inline]
    pub(crate) fn first_after(&self, id: u64) -> Option<u64>
        ensures { (rank : T → Option ℕ) → IsIndexed rank T.amount self.now → ((other m : ℕ) → rank_at rank self.now.rows.entries other ≡ Some m → m ≡ 0) → IsLeast (behind id (rank_at rank self.now.rows.entries)) result }
    {
        self.ranking.first_after(id)
    }
}

/// Changes what is known of a link, with its place and its part in the sum. Where memory is refused nothing changes.
#[inline]
fn change<T: Weigh>(
    known: &mut T,
    ranking: &mut Ranking,
    total: &mut u64,
    distribution: Distribution,
    id: u64,
    link: T,
) -> Result<(), AllocError>
    ensures known { OnOk result (known.new ≡ link) }
    ensures total { OnOk result (total.new ≡ total.old - T.amount known.old + T.amount link) }
    ensures ranks { (ranks : ℕ → Option ℕ) → Ranks ranking.old ranks → ranks id ≡ T.rank distribution known.old → OnOk result (Ranks ranking.new (ranked ranks id (T.rank distribution link))) }
    ensures known_stays { OnErr result (known.new ≡ known.old) }
    ensures total_stays { OnErr result (total.new ≡ total.old) }
    ensures ranks_stay { (ranks : ℕ → Option ℕ) → Ranks ranking.old ranks → OnErr result (Ranks ranking.new ranks) }
{
    let old = *known;
    let rest = total.saturating_sub(old.amount());
    let Some(sum) = rest.checked_add(link.amount()) else {
        return Err(AllocError);
    };
    ranking.set(id, old.rank(distribution), link.rank(distribution))?;
    *known = link;
    *total = sum;
    Ok(())
}

#[inline]
fn rank_of<T: Weigh>(distribution: Distribution, link: Option<T>) -> Option<u64>
    ensures { result ≡ option_and_then (T.rank distribution) link }
{
    match link {
        None => None,
        Some(link) => link.rank(distribution),
    }
}

#[inline]
fn amount_of<T: Weigh>(link: Option<T>) -> u64
    ensures { result ≡ amount_at T.amount link }
{
    match link {
        None => 0,
        Some(link) => link.amount(),
    }
}

//! The links of one side of an address.
ghost use Rattle.std.specs.Prelude.{◌≡◌, ◌==◌, ◌+◌, ◌-◌, ℕ, List, [], ◌∷◌, length, true, Option, None, Some, OnOk, OnErr, IfOk, option_map};
ghost use Rattle.std.specs.List.Sorted.{IsStrictlySortedBy};
ghost use Rattle.std.specs.Map.{keys_of};
ghost use Rattle.std.specs.Ordering.{nat_cmp};
ghost use Rattle.route_credit.specs.Links.{link_at, with_link, without_link, total, IsLeast};
ghost use Rattle.route_credit.specs.Ranks.{behind, rank_at};
ghost use Rattle.route_credit.specs.Indexed.{IsIndexed};
ghost use Rattle.route_credit.specs.Side.{has_no_other, IsWhole, links_of};

use crate::links::Links;
use crate::weigh::Weigh;
use route_table::Distribution;
use std::alloc::{AllocError, Global};

/// The links of one side of an address. One alone stands in place, which is its own first and its own sum; several have an
/// index.
#[derive(Debug, Drop)]
pub(crate) enum Side<T> {
    Empty,
    One(u64, T),
    Several(Links<T>),
}

impl<T: Weigh> Side<T> {
    /// What is known of a link.
    #[inline]
    pub(crate) fn get(&self, id: u64) -> Option<T>
        ensures { result ≡ link_at (links_of self.now) id }
    {
        match self {
            Side::Empty => None,
            Side::One(one, link) => { if *one == id { Some(*link) } else { None } }
            Side::Several(links) => links.get(id),
        }
    }

    /// Whether there are none.
    #[inline]
    pub(crate) fn is_empty(&self) -> bool
        ensures { result ≡ (length (links_of self.now) == 0) }
    {
        match self {
            Side::Empty => true,
            Side::One(_, _) => false,
            Side::Several(links) => links.is_empty(),
        }
    }

    /// The sum of the amounts of all links.
    #[inline]
    pub(crate) fn total(&self) -> u64
        ensures { (rank : T → Option ℕ) → IsWhole rank T.amount self.now → result ≡ total T.amount (links_of self.now) }
    {
        match self {
            Side::Empty => 0,
            Side::One(_, link) => link.amount(),
            Side::Several(links) => links.total(),
        }
    }

    /// Whether a link with this number would be alone.
    #[inline]
    fn has_no_other(&self, id: u64) -> bool
        ensures { result ≡ has_no_other self.now id }
    {
        match self {
            Side::Empty => true,
            Side::One(one, _) => *one == id,
            Side::Several(links) => links.is_empty(),
        }
    }

    /// Stores what is known of a link, in place of what was known.
    #[inline]
    pub(crate) fn set(
        &mut self,
        alloc: Global,
        distribution: Distribution,
        id: u64,
        link: T,
    ) -> Result<(), AllocError>
        ensures set { OnOk result (links_of self.new ≡ with_link (links_of self.old) id link) }
        ensures ordered { OnOk result (IsStrictlySortedBy nat_cmp (keys_of (links_of self.old))) }
        ensures err { OnErr result (links_of self.new ≡ links_of self.old) }
        ensures whole { IsWhole (T.rank distribution) T.amount self.old → IsWhole (T.rank distribution) T.amount self.new }
    {
        if self.has_no_other(id) {
            *self = Side::One(id, link);
            return Ok(());
        }
        self.put(alloc, distribution, id, link)
    }

    /// Stores what is known of a link beside others.
    fn put(
        &mut self,
        alloc: Global,
        distribution: Distribution,
        id: u64,
        link: T,
    ) -> Result<(), AllocError>
        ensures set { OnOk result (links_of self.new ≡ with_link (links_of self.old) id link) }
        ensures ordered { OnOk result (IsStrictlySortedBy nat_cmp (keys_of (links_of self.old))) }
        ensures err { OnErr result (links_of self.new ≡ links_of self.old) }
        ensures whole { IsWhole (T.rank distribution) T.amount self.old → IsWhole (T.rank distribution) T.amount self.new }
    {
        match self {
            Side::Empty => {
                *self = Side::One(id, link);
                Ok(())
            }
            Side::One(one, known) => {
                let mut links = alone(alloc, distribution, *one, *known)?;
                links.set(distribution, id, link)?;
                *self = Side::Several(links);
                Ok(())
            }
            Side::Several(links) => links.set(distribution, id, link),
        }
    }

    /// Removes a link.
    #[inline]
    pub(crate) fn remove(&mut self, distribution: Distribution, id: u64)
        ensures removed { links_of self.new ≡ without_link (links_of self.old) id }
        ensures whole { IsWhole (T.rank distribution) T.amount self.old → IsWhole (T.rank distribution) T.amount self.new }
    {
        match self {
            Side::Empty => {}
            Side::One(one, _) => {
                if *one == id {
                    *self = Side::Empty;
                }
            }
            Side::Several(links) => links.remove(distribution, id),
        }
    }

    /// The link whose turn is first.
    #[inline]
    pub(crate) fn first(&self, distribution: Distribution) -> Option<u64>
        ensures { IsWhole (T.rank distribution) T.amount self.now → IsLeast (rank_at (T.rank distribution) (links_of self.now)) result }
    {
        match self {
            Side::Empty => None,
            Side::One(one, link) => turn(*one, link.rank(distribution)),
            Side::Several(links) => links.first(),
        }
    }

    /// The first link after this one, in the order of their numbers, where every rank is 0.
    #[inline]
    pub(crate) fn first_after(&self, distribution: Distribution, id: u64) -> Option<u64>
        ensures { IsWhole (T.rank distribution) T.amount self.now → ((other m : ℕ) → rank_at (T.rank distribution) (links_of self.now) other ≡ Some m → m ≡ 0) → IsLeast (behind id (rank_at (T.rank distribution) (links_of self.now))) result }
    {
        match self {
            Side::Empty => None,
            Side::One(one, link) => {
                if id < *one {
                    turn(*one, link.rank(distribution))
                } else {
                    None
                }
            }
            Side::Several(links) => links.first_after(id),
        }
    }
}

/// A link, if it has a turn.
#[inline]
fn turn(id: u64, rank: Option<u64>) -> Option<u64>
    ensures { result ≡ option_map (λ n. id) rank }
{
    match rank {
        None => None,
        Some(_) => Some(id),
    }
}

/// An index with one link.
fn alone<T: Weigh>(
    alloc: Global,
    distribution: Distribution,
    id: u64,
    link: T,
) -> Result<Links<T>, AllocError>
    ensures links { IfOk result (λ links. links.rows.entries ≡ (id, link) ∷ []) }
    ensures whole { IfOk result (λ links. IsIndexed (T.rank distribution) T.amount links) }
{
    let mut links = Links::new(alloc, distribution);
    links.set(distribution, id, link)?;
    Ok(links)
}

//! How many deliveries of each consumer's link wait to start, and how many are undecided.
ghost use Rattle.std.specs.Prelude.{◌≡◌, ◌==◌, ◌+◌, ◌-◌, ◌&&◌, ◌||◌, not, ℕ, Bool, Option, None, true, false, if◌then◌else◌, OnOk, IfOk};
ghost use Rattle.state_collections.specs.NumberMap.{at_number};
ghost use Rattle.router_trace.specs.Deliveries.{is_number};
ghost use Rattle.state_deliveries.specs.Tallying.{waiting_at, undecided_at, has_none, AreTallied, more, less};
ghost use Rattle.state_deliveries.specs.Indexing.{on_link};

use crate::standing::AtConsumer;
use state_collections::NumberMap;
use std::alloc::{AllocError, Global};

/// The rows of so many links with neighbouring numbers are found without an ordered map.
const PLACES: usize = 1024;

/// The deliveries of a consumer's link.
#[derive(Clone, Copy)]
pub(crate) struct OfLink {
    /// How many wait to start.
    waiting: usize,
    /// How many are undecided.
    undecided: usize,
}

/// How many deliveries of each consumer's link wait to start, and how many are undecided; a link without any has no row.
///
/// Both stand in one row, since they mostly change at the same link.
#[derive(Drop)]
pub(crate) struct Consumers {
    rows: NumberMap<OfLink>,
}

impl Consumers {
    /// No link has any.
    #[tactic(auto, using(crate::proofs::Tallied::none_of_links))]
    pub(crate) fn new(alloc: Global) -> Consumers
        ensures { AreTallied result (λ n. None) (λ n. None) }
    {
        Consumers {
            rows: NumberMap::new(alloc, PLACES),
        }
    }

    /// How many wait to start on a link.
    pub(crate) fn waiting(&self, link: u64) -> usize
        ensures { result ≡ waiting_at self.now link }
    {
        match self.rows.get(link) {
            None => 0,
            Some(row) => row.waiting,
        }
    }

    /// How many of a link are undecided.
    pub(crate) fn undecided(&self, link: u64) -> usize
        ensures { result ≡ undecided_at self.now link }
    {
        match self.rows.get(link) {
            None => 0,
            Some(row) => row.undecided,
        }
    }

    /// A delivery stands otherwise at its consumer's link. Fails if memory is refused, and if a count overflows.
    pub(crate) fn shift(
        &mut self,
        link: u64,
        before: AtConsumer,
        after: AtConsumer,
    ) -> Result<(), AllocError>
        ensures { OnOk result ((number : ℕ) (waiting undecided : ℕ → Option ℕ) → waiting number
            ≡ on_link link before.waits → undecided number ≡ on_link link before.undecided
            → AreTallied self.old waiting undecided
            → AreTallied self.new (λ n. if number == n then on_link link after.waits else waiting n)
            (λ n. if number == n then on_link link after.undecided else undecided n)) }
    {
        self.drop_at(
            link,
            ends(before.waits, after.waits),
            ends(before.undecided, after.undecided),
        );
        self.add_at(
            link,
            ends(after.waits, before.waits),
            ends(after.undecided, before.undecided),
        )?;
        Ok(())
    }

    /// A link has one less that waits, or one less that is undecided, or both, or neither.
    fn drop_at(&mut self, link: u64, waiting: bool, undecided: bool)
        ensures waiting { (k : ℕ) → waiting_at self.new k ≡ less ((link == k) && waiting) (waiting_at self.old k) }
        ensures undecided { (k : ℕ) → undecided_at self.new k
            ≡ less ((link == k) && undecided) (undecided_at self.old k) }
        ensures needed { (k : ℕ) → has_none (at_number self.old.rows k) ≡ false → has_none (at_number self.new.rows k) ≡ false }
    {
        if !(waiting || undecided) {
            return;
        }
        let Some(row) = self.rows.get_mut(link) else {
            return;
        };
        row.drop_one(waiting, undecided);
        if row.waiting > 0 || row.undecided > 0 {
            return;
        }
        let _ = self.rows.remove(link);
    }

    /// A link has one more that waits, or one more that is undecided, or both, or neither.
    fn add_at(&mut self, link: u64, waiting: bool, undecided: bool) -> Result<(), AllocError>
        ensures waiting { OnOk result ((k : ℕ) → waiting_at self.new k
            ≡ more ((link == k) && waiting) (waiting_at self.old k)) }
        ensures undecided { OnOk result ((k : ℕ) → undecided_at self.new k
            ≡ more ((link == k) && undecided) (undecided_at self.old k)) }
        ensures needed { OnOk result ((k : ℕ) → has_none (at_number self.old.rows k) ≡ false → has_none (at_number self.new.rows k) ≡ false) }
    {
        if !(waiting || undecided) {
            return Ok(());
        }
        if let Some(row) = self.rows.get_mut(link) {
            return row.add_one(waiting, undecided);
        }
        let row = OfLink {
            waiting: one_if(waiting),
            undecided: one_if(undecided),
        };
        self.rows.insert(link, row)?;
        Ok(())
    }
}

impl OfLink {
    /// One less waits, or one less is undecided, or both.
    fn drop_one(&mut self, waiting: bool, undecided: bool)
        ensures waiting { self.new.waiting ≡ less waiting self.old.waiting }
        ensures undecided { self.new.undecided ≡ less undecided self.old.undecided }
    {
        self.waiting = less(self.waiting, waiting);
        self.undecided = less(self.undecided, undecided);
    }

    /// One more waits, or one more is undecided, or both. Fails if a count overflows.
    fn add_one(&mut self, waiting: bool, undecided: bool) -> Result<(), AllocError>
        ensures waiting { OnOk result (self.new.waiting ≡ more waiting self.old.waiting) }
        ensures undecided { OnOk result (self.new.undecided ≡ more undecided self.old.undecided) }
    {
        self.waiting = more(self.waiting, waiting)?;
        self.undecided = more(self.undecided, undecided)?;
        Ok(())
    }
}

/// Whether what was so is so no more.
fn ends(before: bool, after: bool) -> bool
    ensures { result ≡ (before && not after) }
{
    before && !after
}

/// One less, if `counts`.
fn less(count: usize, counts: bool) -> usize
    ensures { result ≡ less counts count }
{
    if counts {
        count.saturating_sub(1)
    } else {
        count
    }
}

/// One more, if `counts`. Fails if that overflows.
fn more(count: usize, counts: bool) -> Result<usize, AllocError>
    ensures { IfOk result (λ sum. sum ≡ more counts count) }
{
    if !counts {
        return Ok(count);
    }
    match count.checked_add(1) {
        None => Err(AllocError),
        Some(sum) => Ok(sum),
    }
}

/// One, if `counts`.
fn one_if(counts: bool) -> usize
    ensures { result ≡ more counts 0 }
{
    if counts { 1 } else { 0 }
}

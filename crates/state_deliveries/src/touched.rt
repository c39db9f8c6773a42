//! Links whose deliveries may have changed.
ghost use Rattle.std.specs.Prelude.{◌≡◌, ◌==◌, ◌||◌, ℕ, false, OnOk, if◌then◌else◌};
ghost use Rattle.std.specs.Ordering.{nat_cmp};
ghost use Rattle.std.specs.BTreeSet.{contains};
ghost use Rattle.router_trace.specs.Deliveries.{is_number};
ghost use Rattle.state_deliveries.specs.Finding.{IsFirst};
ghost use Rattle.state_deliveries.specs.Touching.{is_touched_in};
ghost use Rattle.state_deliveries.specs.Indexing.{on_link};

use crate::sets::first;
use crate::standing::AtConsumer;
use state_collections::NumberSet;
use std::alloc::{AllocError, Global};

/// The numbers of links whose waiting, undecided or held deliveries may have changed since they were last forgotten.
#[derive(Drop)]
pub(crate) struct Touched {
    links: NumberSet,
}

impl Touched {
    /// An empty set.
    pub(crate) fn new(alloc: Global) -> Touched
        ensures { (k : ℕ) → is_touched_in result k ≡ false }
    {
        Touched {
            links: NumberSet::new(alloc),
        }
    }

    /// The lowest of them.
    pub(crate) fn first(&self) -> Option<u64>
        ensures { IsFirst (is_touched_in self.now) result }
    {
        first(&self.links)
    }

    /// Forgets a link.
    pub(crate) fn forget(&mut self, link: u64)
        ensures { (k : ℕ) → is_touched_in self.new k ≡ (if link == k then false else is_touched_in self.old k) }
    {
        self.links.remove(link);
    }

    /// Notes the consumer's link of a delivery, if it waits there or is undecided there and was not before, or the
    /// other way round.
    pub(crate) fn note_consumer(
        &mut self,
        link: u64,
        before: AtConsumer,
        after: AtConsumer,
    ) -> Result<(), AllocError>
        ensures { OnOk result ((k : ℕ) → is_touched_in self.new k ≡ false → (is_touched_in self.old k ≡ false)
            × (is_number (on_link link before.waits) k ≡ is_number (on_link link after.waits) k)
            × (is_number (on_link link before.undecided) k ≡ is_number (on_link link after.undecided) k)) }
    {
        if before.waits == after.waits && before.undecided == after.undecided {
            return Ok(());
        }
        self.links.insert(link)
    }

    /// Notes the producers' links from which a delivery was held and is held now, if they differ.
    pub(crate) fn note_moved(
        &mut self,
        before: Option<u64>,
        after: Option<u64>,
    ) -> Result<(), AllocError>
        ensures { OnOk result ((k : ℕ) → is_touched_in self.new k ≡ false → (is_touched_in self.old k ≡ false) × (is_number before k ≡ is_number after k)) }
    {
        if before == after {
            return Ok(());
        }
        self.note_one(before)?;
        self.note_one(after)?;
        Ok(())
    }

    /// Notes a link, if there is one.
    fn note_one(&mut self, link: Option<u64>) -> Result<(), AllocError>
        ensures { OnOk result ((k : ℕ) → is_touched_in self.new k ≡ (is_number link k || is_touched_in self.old k)) }
    {
        match link {
            None => Ok(()),
            Some(link) => self.links.insert(link),
        }
    }
}

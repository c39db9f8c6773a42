//! The counts of one thread.
ghost use Rattle.std.specs.Prelude.{◌≡◌, IfSome};
ghost use Rattle.core_machine.specs.Counting.{uncounted};

use crate::ledgers::Ledgers;
use crate::tally::Part;
use core_machine::Counts;
use std::marker::Model;

/// A thread's seat at the router. It counts what the thread did there: the events that it submitted, by kind, and the
/// batches that it got. Contracts see a seat as these counts. A seat is moved and never copied.
#[derive(Drop)]
pub struct Seat<G: Ledgers> {
    pub(crate) ups: Part<G::Ups>,
    pub(crate) items: Part<G::Items>,
    pub(crate) downs: Part<G::Downs>,
    pub(crate) ticks: Part<G::Ticks>,
    pub(crate) starts: Part<G::Starts>,
    pub(crate) batches: Part<G::Batches>,
}

impl<G: Ledgers> Model for Seat<G> {
    ghost use Rattle.core_machine.specs.declared.counts.Counts.{Counts};

    ghost Value = { Counts };

    ghost view = { λ s. record {
      ups = s.ups.count;
      items = s.items.count;
      downs = s.downs.count;
      ticks = s.ticks.count;
      starts = s.starts.count;
      batches = s.batches.count;
    } };
}

impl<G: Ledgers> Seat<G> {
    /// Its counts.
    pub fn counts(&self) -> Counts
        ensures { result ≡ self.now }
    {
        Counts {
            ups: self.ups.count(),
            items: self.items.count(),
            downs: self.downs.count(),
            ticks: self.ticks.count(),
            starts: self.starts.count(),
            batches: self.batches.count(),
        }
    }
}

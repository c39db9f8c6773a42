//! All totals that threads count together.
ghost use Rattle.std.specs.Prelude.{◌≡◌, true, IfSome};
ghost use Rattle.core_machine.specs.Counting.{uncounted, with_batch};
ghost use Rattle.serve_lock.specs.Adding.{with_kind, plus, sums};

use crate::kind::Kind;
use crate::ledgers::{Blanks, Ledgers};
use crate::seat::Seat;
use crate::tally::{Gathered, Total};
use core_machine::Counts;
use std::marker::Model;

/// The totals. Contracts see them as the counts.
#[derive(Drop)]
pub struct Totals<G: Ledgers> {
    ups: Total<G::Ups>,
    items: Total<G::Items>,
    downs: Total<G::Downs>,
    ticks: Total<G::Ticks>,
    starts: Total<G::Starts>,
    batches: Total<G::Batches>,
}

impl<G: Ledgers> Model for Totals<G> {
    ghost use Rattle.core_machine.specs.declared.counts.Counts.{Counts};

    ghost Value = { Counts };

    ghost view = { λ s. record {
      ups = s.ups.total;
      items = s.items.total;
      downs = s.downs.total;
      ticks = s.ticks.total;
      starts = s.starts.total;
      batches = s.batches.total;
    } };
}

/// The counts of the seats that came back.
#[derive(Clone, Copy, Debug, PartialEq, Eq)]
pub struct Returned {
    /// Whether every seat came back.
    pub all: bool,
    /// The sum of their counts.
    pub counts: Counts,
}

/// The totals, and the counts of the seats that came back. Contracts see it as both.
#[derive(Drop)]
struct Gathering<G: Ledgers> {
    ups: Gathered<G::Ups>,
    items: Gathered<G::Items>,
    downs: Gathered<G::Downs>,
    ticks: Gathered<G::Ticks>,
    starts: Gathered<G::Starts>,
    batches: Gathered<G::Batches>,
}

impl<G: Ledgers> Model for Gathering<G> {
    ghost use Rattle.core_machine.specs.declared.counts.Counts.{Counts};

    ghost Value = { Counts × Counts };

    ghost view = { λ g. (
      record {
        ups = g.ups.total;
        items = g.items.total;
        downs = g.downs.total;
        ticks = g.ticks.total;
        starts = g.starts.total;
        batches = g.batches.total;
      },
      record {
        ups = g.ups.count;
        items = g.items.count;
        downs = g.downs.count;
        ticks = g.ticks.count;
        starts = g.starts.count;
        batches = g.batches.count;
      },
    ) };
}

impl<G: Ledgers> Totals<G> {
    /// Totals of 0, on ledgers with this many parts each.
    pub fn new(blanks: Blanks, seats: u64) -> Totals<G>
        requires ups { (blanks.ups.name ≡ G.Ups.name) × (blanks.ups.parts ≡ G.Ups.parts) × (seats ≡ G.Ups.seats) × (G.Ups.seats ≡ G.Ups.parts) }
        requires items { (blanks.items.name ≡ G.Items.name) × (blanks.items.parts ≡ G.Items.parts) × (seats ≡ G.Items.seats) × (G.Items.seats ≡ G.Items.parts) }
        requires downs { (blanks.downs.name ≡ G.Downs.name) × (blanks.downs.parts ≡ G.Downs.parts) × (seats ≡ G.Downs.seats) × (G.Downs.seats ≡ G.Downs.parts) }
        requires ticks { (blanks.ticks.name ≡ G.Ticks.name) × (blanks.ticks.parts ≡ G.Ticks.parts) × (seats ≡ G.Ticks.seats) × (G.Ticks.seats ≡ G.Ticks.parts) }
        requires starts { (blanks.starts.name ≡ G.Starts.name) × (blanks.starts.parts ≡ G.Starts.parts) × (seats ≡ G.Starts.seats) × (G.Starts.seats ≡ G.Starts.parts) }
        requires batches { (blanks.batches.name ≡ G.Batches.name) × (blanks.batches.parts ≡ G.Batches.parts) × (seats ≡ G.Batches.seats) × (G.Batches.seats ≡ G.Batches.parts) }
        ensures { result ≡ uncounted }
    {
        Totals {
            ups: Total::new(blanks.ups, seats),
            items: Total::new(blanks.items, seats),
            downs: Total::new(blanks.downs, seats),
            ticks: Total::new(blanks.ticks, seats),
            starts: Total::new(blanks.starts, seats),
            batches: Total::new(blanks.batches, seats),
        }
    }

    /// A seat that has counted nothing; none if no part of a ledger is left.
    pub fn seat(&mut self) -> Option<Seat<G>>
        ensures same { self.new ≡ self.old }
        ensures none { IfSome result (λ seat. seat ≡ uncounted) }
    {
        let ups = self.ups.part()?;
        let items = self.items.part()?;
        let downs = self.downs.part()?;
        let ticks = self.ticks.part()?;
        let starts = self.starts.part()?;
        let batches = self.batches.part()?;
        Some(Seat {
            ups,
            items,
            downs,
            ticks,
            starts,
            batches,
        })
    }

    /// Counts an event of this kind; the totals become `counts`.
    pub fn add(&mut self, seat: &mut Seat<G>, kind: Kind, counts: Counts)
        requires { counts ≡ with_kind kind self.old }
        ensures total { self.new ≡ counts }
        ensures seat { seat.new ≡ with_kind kind seat.old }
    {
        match kind {
            Kind::Up => self.ups.add(&mut seat.ups, counts.ups),
            Kind::Item => self.items.add(&mut seat.items, counts.items),
            Kind::Down => self.downs.add(&mut seat.downs, counts.downs),
            Kind::Tick => self.ticks.add(&mut seat.ticks, counts.ticks),
            Kind::Start => self.starts.add(&mut seat.starts, counts.starts),
        }
    }

    /// Counts a batch; the totals become `counts`.
    pub fn add_batch(&mut self, seat: &mut Seat<G>, counts: Counts)
        requires { counts ≡ with_batch self.old }
        ensures total { self.new ≡ counts }
        ensures seat { seat.new ≡ with_batch seat.old }
    {
        self.batches.add(&mut seat.batches, counts.batches);
    }

    /// Adds up the counts of the seats that come back: where all do, the sums are the totals, number by number.
    pub fn add_up(self, seats: Vec<Seat<G>>) -> Returned
        requires cut { (G.Ups.seats ≡ G.Ups.parts) × (G.Items.seats ≡ G.Items.parts) × (G.Downs.seats ≡ G.Downs.parts) × (G.Ticks.seats ≡ G.Ticks.parts) × (G.Starts.seats ≡ G.Starts.parts) × (G.Batches.seats ≡ G.Batches.parts) }
        ensures counts { result.counts ≡ sums seats.items }
        ensures all { result.all ≡ true → self ≡ result.counts }
    {
        let mut gathering = self.gather();
        for seat in seats {
            gathering.take_back(seat);
        }
        Returned {
            all: gathering.is_whole(),
            counts: gathering.counts(),
        }
    }

    /// Starts to gather the seats' counts.
    fn gather(self) -> Gathering<G>
        ensures total { result.0 ≡ self }
        ensures none { result.1 ≡ uncounted }
    {
        let Totals {
            ups,
            items,
            downs,
            ticks,
            starts,
            batches,
        } = self;
        Gathering {
            ups: ups.gather(),
            items: items.gather(),
            downs: downs.gather(),
            ticks: ticks.gather(),
            starts: starts.gather(),
            batches: batches.gather(),
        }
    }
}

impl<G: Ledgers> Gathering<G> {
    /// Takes back a seat.
    fn take_back(&mut self, seat: Seat<G>)
        requires cut { (G.Ups.seats ≡ G.Ups.parts) × (G.Items.seats ≡ G.Items.parts) × (G.Downs.seats ≡ G.Downs.parts) × (G.Ticks.seats ≡ G.Ticks.parts) × (G.Starts.seats ≡ G.Starts.parts) × (G.Batches.seats ≡ G.Batches.parts) }
        ensures total { self.new.0 ≡ self.old.0 }
        ensures count { self.new.1 ≡ plus self.old.1 seat }
    {
        let Seat {
            ups,
            items,
            downs,
            ticks,
            starts,
            batches,
        } = seat;
        self.ups.take_back(ups);
        self.items.take_back(items);
        self.downs.take_back(downs);
        self.ticks.take_back(ticks);
        self.starts.take_back(starts);
        self.batches.take_back(batches);
    }

    /// The sum of the counts of the seats that came back.
    fn counts(&self) -> Counts
        ensures { result ≡ self.now.1 }
    {
        Counts {
            ups: self.ups.count(),
            items: self.items.count(),
            downs: self.downs.count(),
            ticks: self.ticks.count(),
            starts: self.starts.count(),
            batches: self.batches.count(),
        }
    }

    /// Whether all seats came back; then their counts add up to the totals.
    fn is_whole(&mut self) -> bool
        requires cut { (G.Ups.seats ≡ G.Ups.parts) × (G.Items.seats ≡ G.Items.parts) × (G.Downs.seats ≡ G.Downs.parts) × (G.Ticks.seats ≡ G.Ticks.parts) × (G.Starts.seats ≡ G.Starts.parts) × (G.Batches.seats ≡ G.Batches.parts) }
        ensures whole { result ≡ true → self.new.0 ≡ self.new.1 }
        ensures same { self.new ≡ self.old }
    {
        self.ups.is_whole()
            && self.items.is_whole()
            && self.downs.is_whole()
            && self.ticks.is_whole()
            && self.starts.is_whole()
            && self.batches.is_whole()
    }
}

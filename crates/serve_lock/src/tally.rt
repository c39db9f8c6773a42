//! A number that threads count together: its total under the lock, and a part in each seat.
ghost use Rattle.std.specs.Prelude.{◌≡◌, ℕ, ◌+◌, ◌-◌, ◌^◌, ◌<◌, ◌≤◌, true, IfSome, IfNone};

use crate::ledgers::SeatLedger;
use std::sync::ledger::{Blank, Book, Share};

/// The total, and the parts that are not given out.
#[derive(Drop)]
pub struct Total<H: SeatLedger> {
    book: Book<H>,
    rest: Share<H>,
    total: u64,
    given: u64,
    left: u64,
    ghost told: { total ≡ book.total },
    ghost fits: { H.seats < 2 ^ 64 },
    ghost whole: { given + left ≡ H.seats },
    ghost parts: { rest.parts ≡ left },
    ghost none: { rest.amount ≡ 0 },
}

/// The count of one seat.
#[derive(Drop)]
pub struct Part<H: SeatLedger> {
    count: u64,
    share: Share<H>,
    ghost one: { share.parts ≡ 1 },
    ghost same: { count ≡ share.amount },
}

/// A total to which parts come back, and the sum of their counts.
#[derive(Drop)]
pub struct Gathered<H: SeatLedger> {
    book: Book<H>,
    share: Share<H>,
    total: u64,
    count: u64,
    given: u64,
    back: u64,
    ghost told: { total ≡ book.total },
    ghost fits: { H.seats < 2 ^ 64 },
    ghost whole: { share.parts + given ≡ H.seats + back },
    ghost same: { count ≡ share.amount },
}

impl<H: SeatLedger> Part<H> {
    /// Its count.
    pub fn count(&self) -> u64
        ensures { result ≡ self.now.count }
    {
        self.count
    }
}

impl<H: SeatLedger> Total<H> {
    /// A total of 0, of a ledger with this many parts.
    pub fn new(blank: Blank, seats: u64) -> Total<H>
        requires blank { (blank.name ≡ H.name) × (blank.parts ≡ H.parts) }
        requires seats { (seats ≡ H.seats) × (H.seats ≡ H.parts) }
        ensures total { result.total ≡ 0 }
    {
        let (book, rest) = blank.open::<H>();
        Total {
            book,
            rest,
            total: 0,
            given: 0,
            left: seats,
        }
    }

    /// A part that has counted nothing; none if all were given out.
    pub fn part(&mut self) -> Option<Part<H>>
        ensures total { self.new.total ≡ self.old.total }
        ensures count { IfSome result (λ p. p.count ≡ 0) }
    {
        if self.left == 0 {
            return None;
        }
        let share = self.rest.split_off(1, 0);
        self.left -= 1;
        self.given += 1;
        Some(Part { count: 0, share })
    }

    /// Counts one more; the total becomes `total`.
    pub fn add(&mut self, part: &mut Part<H>, total: u64)
        requires { total ≡ self.old.total + 1 }
        ensures total { self.new.total ≡ total }
        ensures count { part.new.count ≡ part.old.count + 1 }
    {
        self.book.audit(&mut part.share);
        part.count += 1;
        self.book.add(&mut part.share, 1);
        self.total = total;
    }

    /// Starts to gather the counts of the parts.
    pub fn gather(self) -> Gathered<H>
        ensures total { result.total ≡ self.total }
        ensures count { result.count ≡ 0 }
    {
        let Total {
            book,
            rest,
            total,
            given,
            left: _left,
        } = self;
        Gathered {
            book,
            share: rest,
            total,
            count: 0,
            given,
            back: 0,
        }
    }
}

impl<H: SeatLedger> Gathered<H> {
    /// The sum of the counts of the parts that came back.
    pub fn count(&self) -> u64
        ensures { result ≡ self.now.count }
    {
        self.count
    }

    /// Takes back a part.
    pub fn take_back(&mut self, part: Part<H>)
        requires { H.seats ≡ H.parts }
        ensures total { self.new.total ≡ self.old.total }
        ensures count { self.new.count ≡ self.old.count + part.count }
    {
        let Part { count, share } = part;
        self.share.merge(share);
        self.book.audit(&mut self.share);
        self.count += count;
        self.back += 1;
    }

    /// Whether all parts came back; then their counts add up to the total.
    pub fn is_whole(&mut self) -> bool
        requires { H.seats ≡ H.parts }
        ensures whole { result ≡ true → self.new.total ≡ self.new.count }
        ensures total { self.new.total ≡ self.old.total }
        ensures count { self.new.count ≡ self.old.count }
    {
        self.book.audit(&mut self.share);
        self.back == self.given
    }
}

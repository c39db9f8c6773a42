//! The ledgers in which the threads' counts add up to the router's.
ghost use Rattle.std.specs.Prelude.{ℕ, ◌^◌};
ghost use Rattle.router_trace.specs.Trace.{Beginning};
ghost use Rattle.serve_lock.specs.Blank.{AreOf, unnamed};

use std::marker::{Brand, PhantomData};
use std::sync::ledger::{Blank, Ledger};

/// The number of seats that can be given out.
pub const SEATS: u64 = 1 << 62;

/// A ledger, and the number of parts it is cut into, which fields beside its tokens can name.
pub trait SeatLedger: Ledger {
    ghost seats: { ℕ };
}

/// One ledger for each number that a router counts, and what the router was opened with, since when it counts.
pub trait Ledgers {
    ghost opening: { Beginning };

    /// The ledger of connections that came up.
    type Ups: SeatLedger;
    /// The ledger of items received.
    type Items: SeatLedger;
    /// The ledger of connections that were lost.
    type Downs: SeatLedger;
    /// The ledger of ticks.
    type Ticks: SeatLedger;
    /// The ledger of starts.
    type Starts: SeatLedger;
    /// The ledger of batches that were taken.
    type Batches: SeatLedger;
}

/// The names of a router's ledgers, what the router was opened with, and the number of seats, which is that of each ledger's parts. What has names
/// has ledgers.
pub trait Names: Send + Sync {
    ghost opening: { Beginning };

    ghost ups: { ℕ };

    ghost items: { ℕ };

    ghost downs: { ℕ };

    ghost ticks: { ℕ };

    ghost starts: { ℕ };

    ghost batches: { ℕ };

    ghost seats: { ℕ };
}

impl Names for Brand {
    ghost opening = { unnamed };

    ghost ups = { 0 };

    ghost items = { 0 };

    ghost downs = { 0 };

    ghost ticks = { 0 };

    ghost starts = { 0 };

    ghost batches = { 0 };

    ghost seats = { 0 };
}

impl<N: Names> Ledgers for N {
    ghost opening = { N.opening };

    type Ups = Ups<N>;

    type Items = Items<N>;

    type Downs = Downs<N>;

    type Ticks = Ticks<N>;

    type Starts = Starts<N>;

    type Batches = Batches<N>;
}

/// The ledger of connections that came up.
pub struct Ups<N> {
    of: PhantomData<N>,
}

impl<N: Names> Ledger for Ups<N> {
    ghost name = { N.ups };

    ghost parts = { N.seats };
}

impl<N: Names> SeatLedger for Ups<N> {
    ghost seats = { N.seats };
}

/// The ledger of items received.
pub struct Items<N> {
    of: PhantomData<N>,
}

impl<N: Names> Ledger for Items<N> {
    ghost name = { N.items };

    ghost parts = { N.seats };
}

impl<N: Names> SeatLedger for Items<N> {
    ghost seats = { N.seats };
}

/// The ledger of connections that were lost.
pub struct Downs<N> {
    of: PhantomData<N>,
}

impl<N: Names> Ledger for Downs<N> {
    ghost name = { N.downs };

    ghost parts = { N.seats };
}

impl<N: Names> SeatLedger for Downs<N> {
    ghost seats = { N.seats };
}

/// The ledger of ticks.
pub struct Ticks<N> {
    of: PhantomData<N>,
}

impl<N: Names> Ledger for Ticks<N> {
    ghost name = { N.ticks };

    ghost parts = { N.seats };
}

impl<N: Names> SeatLedger for Ticks<N> {
    ghost seats = { N.seats };
}

/// The ledger of starts.
pub struct Starts<N> {
    of: PhantomData<N>,
}

impl<N: Names> Ledger for Starts<N> {
    ghost name = { N.starts };

    ghost parts = { N.seats };
}

impl<N: Names> SeatLedger for Starts<N> {
    ghost seats = { N.seats };
}

/// The ledger of batches that were taken.
pub struct Batches<N> {
    of: PhantomData<N>,
}

impl<N: Names> Ledger for Batches<N> {
    ghost name = { N.batches };

    ghost parts = { N.seats };
}

impl<N: Names> SeatLedger for Batches<N> {
    ghost seats = { N.seats };
}

/// The blanks of six ledgers.
#[derive(Drop)]
pub struct Blanks {
    /// The blank for connections that came up.
    pub ups: Blank,
    /// The blank for items received.
    pub items: Blank,
    /// The blank for connections that were lost.
    pub downs: Blank,
    /// The blank for ticks.
    pub ticks: Blank,
    /// The blank for starts.
    pub starts: Blank,
    /// The blank for batches that were taken.
    pub batches: Blank,
}

impl Blanks {
    /// Blanks of ledgers that have a part for each seat.
    pub fn new() -> Blanks
        ensures { AreOf result.ups.name result.items.name result.downs.name result.ticks.name result.starts.name result.batches.name (2 ^ 62) result }
    {
        Blanks {
            ups: Blank::new(SEATS),
            items: Blank::new(SEATS),
            downs: Blank::new(SEATS),
            ticks: Blank::new(SEATS),
            starts: Blank::new(SEATS),
            batches: Blank::new(SEATS),
        }
    }
}

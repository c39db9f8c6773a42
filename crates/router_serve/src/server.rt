//! Where the threads of a program get their seats, and connections their numbers.
ghost use Rattle.std.specs.Prelude.{◌≡◌, ◌+◌, ◌≤◌, ◌^◌, true, OnErr, IfOk};
ghost use Rattle.router_trace.specs.declared.event.Event.TheVariants as event;
ghost use Rattle.core_machine.specs.Counting.{uncounted, with_event};
ghost use Rattle.core_machine.specs.History.{HasHistory, IsFirstBatch};
ghost use Rattle.core_machine.specs.Opened.{IsOpened};
ghost use Rattle.serve_lock.specs.Blank.{AreOf};

use core_machine::{CoreFault, Machine};
use router_trace::{ConnectionId, Event, Peer};
use serve_lock::{Blanks, Closed, Ledgers, Names, NoLog, SEATS, Seat, Shared};
use std::alloc::{AllocError, Global};
use std::sync::{Mutex, Wait};

/// The router under its lock, the seats that no thread uses, and the number of the newest connection: what the threads of a program
/// share, whatever their connections are made of. They use it as a [`Service`](crate::Service).
#[derive(Drop)]
pub struct Server<M: Machine, G: Ledgers> {
    pub(crate) alloc: Global,
    pub(crate) shared: Shared<M, NoLog, G>,
    pub(crate) idle: Mutex<Vec<Seat<G>>>,
    newest: Mutex<Newest>,
}

/// The number of the newest connection, 0 if there was none: numbers rise.
#[derive(Drop)]
struct Newest {
    number: u64,
}

impl Newest {
    /// A connection comes up, with the number after the newest one, and is the newest then.
    ///
    /// # Errors
    ///
    /// The router's fault; `Memory` if there is no higher number. The newest one is the same then.
    fn up<M: Machine, G: Ledgers, R: Wait>(
        &mut self,
        rt: &R,
        shared: &Shared<M, NoLog, G>,
        seat: &mut Seat<G>,
        peer: Peer,
    ) -> Result<ConnectionId, CoreFault>
        ensures above { IfOk result (λ conn. conn.0 ≡ self.old.number + 1) }
        ensures newest { IfOk result (λ conn. self.new.number ≡ conn.0) }
        ensures free { OnErr result (self.new.number ≡ self.old.number) }
        ensures counted { IfOk result (λ conn. seat.new ≡ with_event (event.Up conn peer) seat.old) }
        ensures uncounted { OnErr result (seat.new ≡ seat.old) }
    {
        let Some(number) = self.number.checked_add(1) else {
            return Err(CoreFault::Memory);
        };
        let conn = ConnectionId(number);
        shared.submit(rt, seat, Event::Up(conn, peer))?;
        self.number = number;
        Ok(conn)
    }
}

impl<M: Machine, G: Ledgers> Server<M, G> {
    /// A connection comes up, with the number after that of the last one. Numbers are handed in as they rise, one connection at a time.
    ///
    /// # Errors
    ///
    /// The router's fault, and the number stays free; `Memory` if there is no higher number.
    pub fn up<R: Wait>(
        &self,
        rt: &R,
        seat: &mut Seat<G>,
        peer: Peer,
    ) -> Result<ConnectionId, CoreFault>
        ensures from_one { IfOk result (λ conn. 1 ≤ conn.0) }
        ensures counted { IfOk result (λ conn. seat.new ≡ with_event (event.Up conn peer) seat.old) }
        ensures uncounted { OnErr result (seat.new ≡ seat.old) }
    {
        self.newest.lock(rt).up(rt, &self.shared, seat, peer)
    }
}

impl<M: Machine, N: Names> Server<M, N> {
    /// A server before there are any threads, over a router that isn't started, with the blanks of its ledgers.
    ///
    /// # Errors
    ///
    /// There is no memory for it, and the router is let go.
    pub fn new(alloc: Global, core: M, blanks: Blanks) -> Result<Server<M, N>, AllocError>
        requires opened { IsOpened M.meaning N.opening core }
        requires blanks { AreOf N.ups N.items N.downs N.ticks N.starts N.batches N.seats blanks }
        requires seats { N.seats ≡ 2 ^ 62 }
    {
        let shared = Shared::new(alloc, core, NoLog {}, blanks, SEATS)?;
        Ok(Server {
            alloc,
            shared,
            idle: Mutex::new(Vec::new(alloc)),
            newest: Mutex::new(Newest { number: 0 }),
        })
    }

    /// Adds up the counts of the seats that were put back, beside the router's: if none is missing, these are equal, number by number.
    pub fn close(self) -> Closed<M, NoLog>
        ensures all { result.all ≡ true → M.meaning.counts result.core ≡ result.counts }
        ensures appended { result.appended ≡ M.meaning.batches result.core }
        ensures opened { ∥ IsFirstBatch M.meaning N.opening result.opened ∥₁ }
        ensures history { ∥ HasHistory M.meaning N.opening result.core ∥₁ }
    {
        let Server {
            alloc,
            shared,
            idle,
            newest,
        } = self;
        drop(newest);
        shared.close(idle.into_inner(), Vec::new(alloc))
    }
}

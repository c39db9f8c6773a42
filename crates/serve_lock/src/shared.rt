//! The lock, and the bells beside it.
ghost use Rattle.std.specs.Prelude.{◌≡◌, ◌<◌, ◌≤◌, ◌⊎◌, true, length, vec_len, OnOk, OnErr, IfOk, IfSome};
ghost use Rattle.core_machine.specs.Counting.{uncounted, with_event, with_batch};
ghost use Rattle.serve_lock.specs.Adding.{sums, Handled};
ghost use Rattle.serve_lock.specs.Handing.{Enough};
ghost use Rattle.core_machine.specs.History.{HasHistory, IsFirstBatch, IsGiven};
ghost use Rattle.core_machine.specs.Opened.{IsOpened};

use crate::bells::{BELLS, Bells, bell_of};
use crate::ledgers::{Blanks, Ledgers};
use crate::locked::{Closed, Locked, Log, Receipt};
use crate::seat::Seat;
use crate::totals::Totals;
use amqp_model::Item;
use core_machine::{Batch, CoreFault, Machine};
use router_trace::{ConnectionId, Event};
use std::alloc::{AllocError, Global};
use std::collections::VecDeque;
use std::sync::atomic::{AtomicBool, AtomicU64, Ordering};
use std::sync::{Condvar, Mutex, MutexGuard, Wait};
use std::time::Duration;

/// How many seconds a thread sleeps at a bell at most, before it looks again.
const LONG: u64 = 60;

/// From this many bytes on what is held is written, even if others would go on with it.
const MOST_HELD: usize = 524_288;

/// The bell of a connection.
#[derive(Drop)]
struct Bell {
    rung: Condvar,
    // whether an item that its connection handed in wrote to the journal
    writes: AtomicBool,
}

/// That nothing of a connection was left to take when its writer had the lock last, and that its bell was noted then: so its
/// writer sleeps without a look at the router. It has the number of rings up to then.
#[derive(Clone, Copy, Debug)]
pub struct Quiet {
    rings: u64,
}

/// The router under one lock, for threads that each have a seat. Whenever the lock is taken, the data under it is a router that
/// failed, or one whose tables agree with one order of events and takes that contains each submit and each batch of a seat
/// once. A writer that waits sleeps at the bell of its connection.
#[derive(Drop)]
pub struct Shared<M: Machine, L: Log, G: Ledgers> {
    state: Mutex<Locked<M, L, G>>,
    // how many threads wait for the lock that count as waiting
    waiting: AtomicU64,
    // how many readers wait for it whose connections write: they go on with what is held, and write it
    joining: AtomicU64,
    // rung by each of them once it has the lock
    turn: Condvar,
    bells: Vec<Bell>,
    ghost all_bells: { vec_len bells ≡ 256 },
}

impl<M: Machine, L: Log, G: Ledgers> Shared<M, L, G> {
    /// Puts a new router under a lock, with a log, and the blanks of ledgers with this many parts, one for each
    /// seat. Fails if there is no memory for the bells.
    pub fn new(
        alloc: Global,
        core: M,
        log: L,
        blanks: Blanks,
        seats: u64,
    ) -> Result<Shared<M, L, G>, AllocError>
        requires opened { IsOpened M.meaning G.opening core }
        requires ups { (blanks.ups.name ≡ G.Ups.name) × (blanks.ups.parts ≡ G.Ups.parts) × (seats ≡ G.Ups.seats) × (G.Ups.seats ≡ G.Ups.parts) }
        requires items { (blanks.items.name ≡ G.Items.name) × (blanks.items.parts ≡ G.Items.parts) × (seats ≡ G.Items.seats) × (G.Items.seats ≡ G.Items.parts) }
        requires downs { (blanks.downs.name ≡ G.Downs.name) × (blanks.downs.parts ≡ G.Downs.parts) × (seats ≡ G.Downs.seats) × (G.Downs.seats ≡ G.Downs.parts) }
        requires ticks { (blanks.ticks.name ≡ G.Ticks.name) × (blanks.ticks.parts ≡ G.Ticks.parts) × (seats ≡ G.Ticks.seats) × (G.Ticks.seats ≡ G.Ticks.parts) }
        requires starts { (blanks.starts.name ≡ G.Starts.name) × (blanks.starts.parts ≡ G.Starts.parts) × (seats ≡ G.Starts.seats) × (G.Starts.seats ≡ G.Starts.parts) }
        requires batches { (blanks.batches.name ≡ G.Batches.name) × (blanks.batches.parts ≡ G.Batches.parts) × (seats ≡ G.Batches.seats) × (G.Batches.seats ≡ G.Batches.parts) }
    {
        let Ok(bells) = bells(alloc) else {
            drop(core);
            drop(log);
            drop(blanks);
            return Err(AllocError);
        };
        let locked = Locked::new(core, Totals::new(blanks, seats), log);
        Ok(Shared {
            state: Mutex::new(locked),
            waiting: AtomicU64::new(0),
            joining: AtomicU64::new(0),
            turn: Condvar::new(),
            bells,
        })
    }

    /// A seat that has counted nothing; none if no part of a ledger is left.
    pub fn seat<R: Wait>(&self, rt: &R) -> Option<Seat<G>>
        ensures { IfSome result (λ seat. seat ≡ uncounted) }
    {
        self.lock(rt).seat()
    }

    /// Submits one event to the router, and wakes the writers that then have something to take. The seat counts the event exactly if
    /// it is answered Ok. There are no receipts yet.
    pub fn submit<R: Wait>(
        &self,
        rt: &R,
        seat: &mut Seat<G>,
        event: Event,
    ) -> Result<Option<Receipt>, CoreFault>
        ensures counted { OnOk result (seat.new ≡ with_event event seat.old) }
        ensures uncounted { OnErr result (seat.new ≡ seat.old) }
    {
        if let Event::Up(conn, _) = &event {
            self.writes(*conn, false);
        }
        let lost = lost_by(&event);
        let mut locked = self.lock(rt);
        let done = locked.handle(seat, event);
        let woken = locked.wake(lost);
        drop(locked);
        self.ring(woken);
        done?;
        Ok(None)
    }

    /// Submits the items at the front of a queue, in order, each as an event of its own, while the lock is taken once: up to 64 of them, and
    /// none after one that is refused, which is dropped. Their batches are written together before the lock is released; or, where the reader
    /// of another connection that writes waits for the lock, they stay held, and that one writes them with its own, or whoever takes first. Then
    /// it wakes the writers that have something to take, and, where one of the items has a batch and others waited for the lock, lets one of
    /// those have its turn. The seat counts exactly the items that left the queue, but for one that is refused.
    pub fn submit_items<R: Wait>(
        &self,
        rt: &R,
        seat: &mut Seat<G>,
        conn: ConnectionId,
        items: &mut VecDeque<Item>,
    ) -> Result<(), CoreFault>
        ensures handled { OnOk result (Handled 0 seat.old seat.new items.old.items items.new.items) }
        ensures refused { OnErr result (Handled 0 seat.old seat.new items.old.items items.new.items
            ⊎ Handled 1 seat.old seat.new items.old.items items.new.items) }
        ensures enough { OnOk result (Enough items.old.items items.new.items) }
    {
        let mut locked = self.lock_to_join(rt, conn);
        let done = if self.is_joined(&locked) {
            locked.hold_items(seat, conn, items)
        } else {
            locked.handle_items(seat, conn, items)
        };
        let woken = locked.wake(None);
        let others = self.waiting.load(Ordering::SeqCst) > 0;
        let turn = self.turn.notifications();
        drop(locked);
        self.ring(woken);
        if done? {
            self.writes(conn, true);
            if others {
                self.turn.sleep(rt, turn, Duration::from_secs(LONG));
            }
        }
        Ok(())
    }

    /// Waits until a connection is ready, and takes up to 64 items from its outbox. The seat counts exactly the batches that it
    /// gets. `quiet` is what the connection's last call left there, none at first: if that left nothing to take, the next one sleeps
    /// before it takes the lock, unless the bell was rung meanwhile.
    ///
    /// # Errors
    ///
    /// `NoConnection` if the connection is unknown, `Failed`, `Memory` or `Disk` if the router fails.
    pub fn wait_batch<R: Wait>(
        &self,
        rt: &R,
        seat: &mut Seat<G>,
        conn: ConnectionId,
        quiet: &mut Option<Quiet>,
    ) -> Result<Batch, CoreFault>
        ensures whose { IfOk result (λ b. b.conn ≡ conn) }
        ensures most { IfOk result (λ b. length b.items.items ≤ 64) }
        ensures given { IfOk result (λ b. ∥ IsGiven M.meaning G.opening conn b ∥₁) }
        ensures counted { OnOk result (seat.new ≡ with_batch seat.old) }
        ensures uncounted { OnErr result (seat.new ≡ seat.old) }
    {
        if let Some(quiet) = quiet.take() {
            self.doze(rt, conn, quiet);
        }
        let mut locked = self.lock_for(rt, conn);
        for _turn in rt.forever() {
            if !locked.sleeps(conn) {
                let answer = locked.take(seat, conn);
                if locked.sleeps(conn) {
                    *quiet = Some(self.quiet(conn));
                }
                return answer;
            }
            locked = self.sleep(rt, conn, locked);
        }
        unreachable!()
    }

    /// Whether a connection is up and the router didn't end it.
    pub fn is_live<R: Wait>(&self, rt: &R, conn: ConnectionId) -> bool {
        self.lock(rt).is_live(conn)
    }

    /// Whether the router failed.
    pub fn is_failed<R: Wait>(&self, rt: &R) -> bool {
        self.lock(rt).is_failed()
    }

    /// How many events found the journal full since the router was opened, up to 2^64 - 1: each released a delivery, or refused a durable link.
    pub fn full_events<R: Wait>(&self, rt: &R) -> u64 {
        self.lock(rt).full_events()
    }

    /// Adds up the counts of the seats that come back, beside the router's: if all seats came back, the sums equal these, number by number.
    pub fn close(self, seats: Vec<Seat<G>>, receipts: Vec<Receipt>) -> Closed<M, L>
        requires cut { (G.Ups.seats ≡ G.Ups.parts) × (G.Items.seats ≡ G.Items.parts) × (G.Downs.seats ≡ G.Downs.parts) × (G.Ticks.seats ≡ G.Ticks.parts) × (G.Starts.seats ≡ G.Starts.parts) × (G.Batches.seats ≡ G.Batches.parts) }
        ensures counts { result.counts ≡ sums seats.items }
        ensures all { result.all ≡ true → M.meaning.counts result.core ≡ result.counts }
        ensures appended { result.appended ≡ M.meaning.batches result.core }
        ensures opened { ∥ IsFirstBatch M.meaning G.opening result.opened ∥₁ }
        ensures history { ∥ HasHistory M.meaning G.opening result.core ∥₁ }
    {
        let Shared {
            state,
            waiting: _,
            joining: _,
            turn: _,
            bells: _,
        } = self;
        state.into_inner().close(seats, receipts)
    }

    /// Notes whether what a connection handed in wrote to the journal.
    fn writes(&self, conn: ConnectionId, writes: bool) {
        self.bells[bell_of(conn)]
            .writes
            .store(writes, Ordering::SeqCst);
    }

    /// Takes the lock. A thread that waits for it counts as waiting.
    fn lock<R: Wait>(&self, rt: &R) -> MutexGuard<'_, Locked<M, L, G>> {
        if let Some(locked) = self.state.try_lock() {
            return locked;
        }
        self.waiting.fetch_add(1, Ordering::SeqCst);
        let locked = self.state.lock(rt);
        self.waiting.fetch_sub(1, Ordering::SeqCst);
        self.turn.notify_all();
        locked
    }

    /// Takes the lock for a connection, whose threads don't count as waiting once an item that it handed in wrote to the journal.
    fn lock_for<R: Wait>(&self, rt: &R, conn: ConnectionId) -> MutexGuard<'_, Locked<M, L, G>> {
        if self.bells[bell_of(conn)].writes.load(Ordering::SeqCst) {
            self.state.lock(rt)
        } else {
            self.lock(rt)
        }
    }

    /// Takes the lock for what a connection hands in, which goes on with what is held then, if the connection writes.
    fn lock_to_join<R: Wait>(&self, rt: &R, conn: ConnectionId) -> MutexGuard<'_, Locked<M, L, G>> {
        if !self.bells[bell_of(conn)].writes.load(Ordering::SeqCst) {
            return self.lock(rt);
        }
        self.joining.fetch_add(1, Ordering::SeqCst);
        let locked = self.state.lock(rt);
        self.joining.fetch_sub(1, Ordering::SeqCst);
        locked
    }

    /// Whether another reader goes on with what is held, and writes it.
    fn is_joined(&self, locked: &Locked<M, L, G>) -> bool {
        self.joining.load(Ordering::SeqCst) > 0 && locked.held() < MOST_HELD
    }

    /// Releases the lock, sleeps until the bell of a connection is rung, and takes the lock again.
    fn sleep<'b, R: Wait>(
        &'b self,
        rt: &R,
        conn: ConnectionId,
        locked: MutexGuard<'b, Locked<M, L, G>>,
    ) -> MutexGuard<'b, Locked<M, L, G>> {
        let quiet = self.quiet(conn);
        drop(locked);
        self.doze(rt, conn, quiet);
        self.lock_for(rt, conn)
    }

    /// The rings of a connection's bell up to now. The lock is held, and the bell is noted.
    fn quiet(&self, conn: ConnectionId) -> Quiet {
        Quiet {
            rings: self.bells[bell_of(conn)].rung.notifications(),
        }
    }

    /// Sleeps until the bell of a connection is rung again.
    fn doze<R: Wait>(&self, rt: &R, conn: ConnectionId, quiet: Quiet) {
        let bell = &self.bells[bell_of(conn)].rung;
        bell.sleep(rt, quiet.rings, Duration::from_secs(LONG));
    }

    /// Rings these bells.
    fn ring(&self, woken: Bells) {
        let mut woken = woken;
        for _turn in 0..BELLS {
            match woken.pop() {
                None => return,
                Some(bell) => self.bells[bell].rung.notify_all(),
            }
        }
    }
}

/// One bell for each place.
fn bells(alloc: Global) -> Result<Vec<Bell>, AllocError>
    ensures { IfOk result (λ bells. vec_len bells ≡ 256) }
{
    let mut bells = Vec::with_capacity(alloc, BELLS)?;
    for _place in 0..BELLS {
        bells.push(Bell {
            rung: Condvar::new(),
            writes: AtomicBool::new(false),
        })?;
    }
    Ok(bells)
}

/// The connection whose loss an event reports.
fn lost_by(event: &Event) -> Option<ConnectionId> {
    match event {
        Event::Down(conn) => Some(*conn),
        _ => None,
    }
}

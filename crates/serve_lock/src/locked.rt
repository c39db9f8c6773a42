//! The data under the lock.
ghost use Rattle.std.specs.Prelude.{◌≡◌, ◌≤◌, ◌<◌, ◌+◌, ◌-◌, ◌^◌, ◌∷◌, ◌++◌, ◌%◌, ◌==◌, ◌⊎◌, ◌&&◌, ◌||◌, not, ℕ, if◌then◌else◌, min};
ghost use Rattle.std.specs.Prelude.{[], None, Err, true, false, is_some, length, OnOk, OnErr, IfOk, IfErr, IfSome, IsErrOf};
ghost use Rattle.book_model.specs.Book.{BookView};
ghost use Rattle.router_trace.specs.Trace.{Trace, Took, step_of};
ghost use Rattle.router_trace.specs.Connection.{conn as known, is_ready, is_live};
ghost use Rattle.core_machine.specs.Counting.{uncounted, with_event, with_batch};
ghost use Rattle.core_machine.specs.Meaning.{BookAt, EitherOf, IsBatchOf};
ghost use Rattle.core_machine.specs.Turns.{declines};
ghost use Rattle.core_machine.specs.declared.fault.CoreFault.TheVariants.{Disk as DiskFailed, Memory, Failed, NoConnection};
ghost use Rattle.serve_lock.specs.Adding.{sums, Handled};
ghost use Rattle.serve_lock.specs.Handing.{BookAmong, BookFrom, Declined, Enough, HoldsAmong, Refuses, Stopped, found_full, gone, handed, with_full};
ghost use Rattle.core_machine.specs.History.{HasHistory, HasKept, IsFirstBatch, IsGiven};
ghost use Rattle.core_machine.specs.Opened.{IsOpened};
ghost use Rattle.serve_lock.specs.Ringing.{is_set};

use crate::bells::Bells;
use crate::kind::Kind;
use crate::ledgers::Ledgers;
use crate::seat::Seat;
use crate::sleepers::Sleepers;
use crate::totals::{Returned, Totals};
use amqp_model::Item;
use core_machine::{Batch, CoreFault, Counts, Machine, take};
use router_trace::{ConnectionId, Event};
use std::collections::VecDeque;

/// The most items that are taken at a time, and that are handed in while the lock is taken once.
const MOST: usize = 64;

/// A log of a router's events and takes.
pub trait Log: Drop {}

/// A log that keeps nothing.
#[derive(Clone, Copy, Debug, Drop)]
pub struct NoLog {}

impl Log for NoLog {}

/// A batch of the journal that was written for an event. None is given out yet.
#[derive(Debug, Drop)]
pub struct Receipt {
    batch: u64,
}

/// The result of closing the router.
#[derive(Drop)]
pub struct Closed<M: Machine, L: Log> {
    /// Whether every seat came back.
    pub all: bool,
    /// The sum of the counts of the seats that came back.
    pub counts: Counts,
    /// The number of the journal's last batch; 0 where there is none.
    pub appended: u64,
    /// That number when the router was opened.
    pub opened: u64,
    /// The router.
    pub core: M,
    /// The log.
    pub log: L,
}

/// A router, the totals of the seats' counts, which are the router's own counts, and its history: all that it did since it was opened, in one order, and
/// where its journal stands by that.
#[derive(Drop)]
pub struct Locked<M: Machine, L: Log, G: Ledgers> {
    router: M,
    totals: Totals<G>,
    log: L,
    // the number of the journal's last batch when the router was opened
    opened: u64,
    // how many events found the journal full since then, up to 2^64 - 1
    full: u64,
    sleepers: Sleepers,
    ghost bounded: { full < 2 ^ 64 },
    ghost counted: { M.meaning.counts router ≡ totals },
    ghost history: { ∥ HasHistory M.meaning G.opening router ∥₁ },
    ghost first: { ∥ IsFirstBatch M.meaning G.opening opened ∥₁ },
}

impl<M: Machine, L: Log, G: Ledgers> Locked<M, L, G> {
    /// A router that was just opened, with totals of nothing.
    pub fn new(router: M, totals: Totals<G>, log: L) -> Locked<M, L, G>
        requires opened { IsOpened M.meaning G.opening router }
        requires totals { totals ≡ uncounted }
        ensures full { result.full ≡ 0 }
    {
        let opened = router.batch();
        Locked {
            router,
            totals,
            log,
            opened,
            full: 0,
            sleepers: Sleepers::none(),
        }
    }

    /// A seat that has counted nothing; none if no part of a ledger is left.
    pub fn seat(&mut self) -> Option<Seat<G>>
        ensures uncounted { IfSome result (λ seat. seat ≡ uncounted) }
        ensures full { self.new.full ≡ self.old.full }
    {
        self.totals.seat()
    }

    /// Writes what is held to the journal: its batches stand then, and nothing is held.
    pub fn write(&mut self) -> Result<(), CoreFault>
        ensures fits { OnOk result ((t : Trace) → M.meaning.fits self.old.router t → M.meaning.fits self.new.router t) }
        ensures works { OnOk result (M.meaning.is_failed self.new.router ≡ false) }
        ensures named { M.meaning.id self.new.router ≡ M.meaning.id self.old.router }
        ensures batches { OnOk result (M.meaning.batches self.new.router ≡ M.meaning.batches self.old.router) }
        ensures full { self.new.full ≡ self.old.full }

        // Its journal keeps its book, and that of its history. Whatever is answered, a crash leaves the book that the
        // files kept, or the router's own.
        ensures keeps { OnOk result ((t : Trace) (b : BookView) → M.meaning.fits self.old.router t
            → M.meaning.holds self.old.router b → M.meaning.keeps self.new.router (M.meaning.book t)) }
        ensures leaves { (t : Trace) (b : BookView) → M.meaning.fits self.old.router t
            → M.meaning.holds self.old.router b
            → M.meaning.leaves self.new.router (EitherOf b (M.meaning.book t)) }
        ensures kept { OnOk result (∥ HasKept M.meaning G.opening self.new.router ∥₁) }

        // Which fault occurs, and what it leaves.
        ensures taken { IfErr result (λ f. f ≡ NoConnection → ⊥) }
        ensures fails { M.meaning.is_failed self.old.router ≡ true → result ≡ Err Failed }
        ensures failed { IfErr result (λ f. f ≡ Failed → (self.new.router ≡ self.old.router) × (M.meaning.is_failed self.old.router ≡ true)) }
        ensures memory { IfErr result (λ f. f ≡ Memory → M.meaning.is_failed self.new.router ≡ true) }
        ensures disk { IfErr result (λ f. f ≡ DiskFailed → M.meaning.is_failed self.new.router ≡ true) }
        ensures cause { IfErr result (λ f. f ≡ DiskFailed → M.meaning.failures self.old.router < M.meaning.failures self.new.router) }
        ensures no_other { (IsErrOf result DiskFailed → ⊥) → M.meaning.failures self.new.router ≡ M.meaning.failures self.old.router }
    {
        self.router.write_held()
    }

    /// Handles one event, whose batch is written with what is held before it, and returns whether it has a batch.
    pub fn handle(&mut self, seat: &mut Seat<G>, event: Event) -> Result<bool, CoreFault>
        ensures counted { OnOk result (seat.new ≡ with_event event seat.old) }
        ensures uncounted { OnErr result (seat.new ≡ seat.old) }
        ensures fits { OnOk result ((t : Trace) → M.meaning.fits self.old.router t → M.meaning.fits self.new.router (M.meaning.next (M.meaning.id self.old.router) t (step_of event))) }
        ensures wrote { IfOk result (λ wrote. (t : Trace) → M.meaning.fits self.old.router t → M.meaning.batches self.new.router ≡ M.meaning.batches self.old.router + (if wrote then 1 else 0)) }
        ensures named { M.meaning.id self.new.router ≡ M.meaning.id self.old.router }
        ensures works { OnOk result (M.meaning.is_failed self.new.router ≡ false) }

        // Its journal keeps the next book. Whatever is answered, a crash leaves the book that the files kept, the book
        // before the event, or the one after it.
        ensures keeps { OnOk result ((t : Trace) (b : BookView) → M.meaning.fits self.old.router t
            → M.meaning.holds self.old.router b → M.meaning.keeps self.new.router
            (M.meaning.book (M.meaning.next (M.meaning.id self.old.router) t (step_of event)))) }
        ensures leaves { (t : Trace) (b : BookView) → M.meaning.fits self.old.router t
            → M.meaning.holds self.old.router b
            → M.meaning.leaves self.new.router (BookFrom M.meaning b t event) }

        // One more event is counted as one that found the journal full exactly if it did.
        ensures full { OnOk result ((t : Trace) → M.meaning.fits self.old.router t → self.new.full ≡ with_full (M.meaning.finds_full t event) self.old.full) }
        ensures not_full { OnErr result (self.new.full ≡ self.old.full) }

        // Which fault occurs, and what it leaves.
        ensures refused { IfErr result (λ f. f ≡ NoConnection → (t : Trace) → M.meaning.fits self.old.router t
            → M.meaning.fits self.new.router t × (declines t event ≡ true)) }
        ensures failed { IfErr result (λ f. f ≡ Failed → (self.new.router ≡ self.old.router) × (M.meaning.is_failed self.old.router ≡ true)) }
        ensures memory { IfErr result (λ f. f ≡ Memory → M.meaning.is_failed self.new.router ≡ true) }
        ensures disk { IfErr result (λ f. f ≡ DiskFailed → M.meaning.is_failed self.new.router ≡ true) }
        ensures cause { IfErr result (λ f. f ≡ DiskFailed → M.meaning.failures self.old.router < M.meaning.failures self.new.router) }
        ensures no_other { (IsErrOf result DiskFailed → ⊥) → M.meaning.failures self.new.router ≡ M.meaning.failures self.old.router }
    {
        match self.write() {
            Ok(()) => self.handle_next(seat, event),
            Err(fault) => {
                drop(event);
                Err(fault)
            }
        }
    }

    /// Handles one event where nothing is held, and returns whether it has a batch, which is written.
    fn handle_next(&mut self, seat: &mut Seat<G>, event: Event) -> Result<bool, CoreFault>
        requires kept { ∥ HasKept M.meaning G.opening self.old.router ∥₁ }
        ensures counted { OnOk result (seat.new ≡ with_event event seat.old) }
        ensures uncounted { OnErr result (seat.new ≡ seat.old) }
        ensures fits { OnOk result ((t : Trace) → M.meaning.fits self.old.router t → M.meaning.fits self.new.router (M.meaning.next (M.meaning.id self.old.router) t (step_of event))) }
        ensures wrote { IfOk result (λ wrote. (t : Trace) → M.meaning.fits self.old.router t → M.meaning.batches self.new.router ≡ M.meaning.batches self.old.router + (if wrote then 1 else 0)) }
        ensures named { M.meaning.id self.new.router ≡ M.meaning.id self.old.router }
        ensures works { OnOk result (M.meaning.is_failed self.new.router ≡ false) }
        ensures keeps { OnOk result ((t : Trace) → M.meaning.fits self.old.router t
            → M.meaning.keeps self.old.router (M.meaning.book t) → M.meaning.keeps self.new.router
            (M.meaning.book (M.meaning.next (M.meaning.id self.old.router) t (step_of event)))) }
        ensures leaves { (t : Trace) → M.meaning.fits self.old.router t
            → M.meaning.keeps self.old.router (M.meaning.book t)
            → M.meaning.leaves self.new.router (BookAt M.meaning t event) }
        ensures full { OnOk result ((t : Trace) → M.meaning.fits self.old.router t → self.new.full ≡ with_full (M.meaning.finds_full t event) self.old.full) }
        ensures not_full { OnErr result (self.new.full ≡ self.old.full) }
        ensures refused { IfErr result (λ f. f ≡ NoConnection → (self.new.router ≡ self.old.router) × ((t : Trace) → M.meaning.fits self.old.router t → declines t event ≡ true)) }
        ensures failed { IfErr result (λ f. f ≡ Failed → (self.new.router ≡ self.old.router) × (M.meaning.is_failed self.old.router ≡ true)) }
        ensures memory { IfErr result (λ f. f ≡ Memory → M.meaning.is_failed self.new.router ≡ true) }
        ensures disk { IfErr result (λ f. f ≡ DiskFailed → M.meaning.is_failed self.new.router ≡ true) }
        ensures cause { IfErr result (λ f. f ≡ DiskFailed → M.meaning.failures self.old.router < M.meaning.failures self.new.router) }
        ensures no_other { (IsErrOf result DiskFailed → ⊥) → M.meaning.failures self.new.router ≡ M.meaning.failures self.old.router }
    {
        let kind = Kind::of(&event);
        let before = self.router.batch();
        let done = self.router.handle(event)?;
        self.full = full_after(self.full, done.full);
        drop(done);
        self.totals.add(seat, kind, self.router.counts());
        Ok(self.router.batch() != before)
    }

    /// Handles one event, whose batch is held, and returns whether it has one.
    pub fn hold(&mut self, seat: &mut Seat<G>, event: Event) -> Result<bool, CoreFault>
        ensures counted { OnOk result (seat.new ≡ with_event event seat.old) }
        ensures uncounted { OnErr result (seat.new ≡ seat.old) }
        ensures fits { OnOk result ((t : Trace) → M.meaning.fits self.old.router t → M.meaning.fits self.new.router (M.meaning.next (M.meaning.id self.old.router) t (step_of event))) }
        ensures wrote { IfOk result (λ wrote. (t : Trace) → M.meaning.fits self.old.router t → M.meaning.batches self.new.router ≡ M.meaning.batches self.old.router + (if wrote then 1 else 0)) }
        ensures named { M.meaning.id self.new.router ≡ M.meaning.id self.old.router }
        ensures works { OnOk result (M.meaning.is_failed self.new.router ≡ false) }

        // Its files keep the book that they kept, or, after a checkpoint, the book before the event. Whatever is answered,
        // a crash leaves one of the two.
        ensures holds { OnOk result ((t : Trace) (b : BookView) → M.meaning.fits self.old.router t
            → M.meaning.holds self.old.router b
            → M.meaning.holds self.new.router b ⊎ M.meaning.holds self.new.router (M.meaning.book t)) }
        ensures leaves { (t : Trace) (b : BookView) → M.meaning.fits self.old.router t
            → M.meaning.holds self.old.router b
            → M.meaning.leaves self.new.router (EitherOf b (M.meaning.book t)) }

        // One more event is counted as one that found the journal full exactly if it did.
        ensures full { OnOk result ((t : Trace) → M.meaning.fits self.old.router t → self.new.full ≡ with_full (M.meaning.finds_full t event) self.old.full) }
        ensures not_full { OnErr result (self.new.full ≡ self.old.full) }

        // Which fault occurs, and what it leaves.
        ensures refused { IfErr result (λ f. f ≡ NoConnection → (self.new.router ≡ self.old.router) × ((t : Trace) → M.meaning.fits self.old.router t → declines t event ≡ true)) }
        ensures works_on { IfErr result (λ f. f ≡ NoConnection → M.meaning.is_failed self.old.router ≡ false) }
        ensures failed { IfErr result (λ f. f ≡ Failed → (self.new.router ≡ self.old.router) × (M.meaning.is_failed self.old.router ≡ true)) }
        ensures memory { IfErr result (λ f. f ≡ Memory → M.meaning.is_failed self.new.router ≡ true) }
        ensures disk { IfErr result (λ f. f ≡ DiskFailed → M.meaning.is_failed self.new.router ≡ true) }
        ensures cause { IfErr result (λ f. f ≡ DiskFailed → M.meaning.failures self.old.router < M.meaning.failures self.new.router) }
        ensures no_other { (IsErrOf result DiskFailed → ⊥) → M.meaning.failures self.new.router ≡ M.meaning.failures self.old.router }
    {
        let kind = Kind::of(&event);
        let before = self.router.batch();
        let done = self.router.hold(event)?;
        self.full = full_after(self.full, done.full);
        drop(done);
        self.totals.add(seat, kind, self.router.counts());
        Ok(self.router.batch() != before)
    }

    /// Handles the items at the front of a queue, in order, each as an event of its own, and holds their batches: all of them, but at most 64,
    /// and none after one that is refused, which is dropped. Returns whether one has a batch.
    pub fn hold_items(
        &mut self,
        seat: &mut Seat<G>,
        conn: ConnectionId,
        items: &mut VecDeque<Item>,
    ) -> Result<bool, CoreFault>
        ensures handled { OnOk result (Handled 0 seat.old seat.new items.old.items items.new.items) }
        ensures refused { OnErr result (Handled 1 seat.old seat.new items.old.items items.new.items) }
        ensures enough { OnOk result (Enough items.old.items items.new.items) }

        // Exactly the items that left the queue were handled; and none is left without a reason.
        ensures fits { OnOk result ((t : Trace) → M.meaning.fits self.old.router t → M.meaning.fits self.new.router (handed (M.meaning.next (M.meaning.id self.old.router)) conn (gone items.old.items items.new.items) t)) }
        ensures stopped { OnOk result (Stopped items.old.items items.new.items) }
        ensures wrote { IfOk result (λ wrote. (t : Trace) → M.meaning.fits self.old.router t → (wrote ≡ true → M.meaning.batches self.old.router < M.meaning.batches self.new.router) × (wrote ≡ false → M.meaning.batches self.new.router ≡ M.meaning.batches self.old.router)) }
        ensures failures { OnOk result (M.meaning.failures self.new.router ≡ M.meaning.failures self.old.router) }
        ensures untouched { OnOk result (M.meaning.is_failed self.new.router ≡ true → self.new.router ≡ self.old.router) }
        ensures queue { OnOk result (items.old.items ≡ gone items.old.items items.new.items ++ items.new.items) }

        // Its files keep the book that they kept, or the book after some first ones of these items.
        ensures holds { OnOk result ((t : Trace) (b : BookView) → M.meaning.fits self.old.router t → M.meaning.holds self.old.router b
            → HoldsAmong M.meaning self.old.router self.new.router conn (gone items.old.items items.new.items) t b) }

        // So many more events are counted that found the journal full.
        ensures full { OnOk result ((t : Trace) → M.meaning.fits self.old.router t
            → self.new.full ≡ min (self.old.full + found_full M.meaning (M.meaning.id self.old.router) conn (gone items.old.items items.new.items) t) (2 ^ 64 - 1)) }

        // Which fault occurs, to the last item that left the queue, and what it leaves.
        ensures fault { IfErr result (λ f.
            Refuses M.meaning conn items.old.items items.new.items self.old.router self.new.router self.old.full self.new.full f) }
    {
        let mut wrote = false;
        for _turn in 0..MOST {
            let Some(item) = items.pop_front() else {
                return Ok(wrote);
            };
            let more = self.hold(seat, Event::Item(conn, item))?;
            wrote |= more;
        }
        Ok(wrote)
    }

    /// Handles the items at the front of a queue as `hold_items` does, and then writes what is held: their batches stand behind each other in
    /// one append, also where one of the items was declined. Returns whether one has a batch. The fault that is told is the first one; but that
    /// the disk failed, or memory was refused, is told rather than that an item was declined.
    pub fn handle_items(
        &mut self,
        seat: &mut Seat<G>,
        conn: ConnectionId,
        items: &mut VecDeque<Item>,
    ) -> Result<bool, CoreFault>
        ensures handled { OnOk result (Handled 0 seat.old seat.new items.old.items items.new.items) }
        ensures refused { OnErr result (Handled 0 seat.old seat.new items.old.items items.new.items
            ⊎ Handled 1 seat.old seat.new items.old.items items.new.items) }
        ensures enough { OnOk result (Enough items.old.items items.new.items) }

        // Exactly the items that left the queue were handled; and none is left without a reason.
        ensures fits { OnOk result ((t : Trace) → M.meaning.fits self.old.router t → M.meaning.fits self.new.router (handed (M.meaning.next (M.meaning.id self.old.router)) conn (gone items.old.items items.new.items) t)) }
        ensures stopped { OnOk result (Stopped items.old.items items.new.items) }
        ensures wrote { IfOk result (λ wrote. (t : Trace) → M.meaning.fits self.old.router t → (wrote ≡ true → M.meaning.batches self.old.router < M.meaning.batches self.new.router) × (wrote ≡ false → M.meaning.batches self.new.router ≡ M.meaning.batches self.old.router)) }
        ensures works { OnOk result (M.meaning.is_failed self.new.router ≡ false) }

        // Its journal keeps the book after them. Whatever is answered, a crash leaves the book that the files kept, or
        // the book after some first items of the queue.
        ensures keeps { OnOk result ((t : Trace) (b : BookView) → M.meaning.fits self.old.router t → M.meaning.holds self.old.router b
            → M.meaning.keeps self.new.router (M.meaning.book (handed (M.meaning.next (M.meaning.id self.old.router)) conn (gone items.old.items items.new.items) t))) }
        ensures leaves { (t : Trace) (b : BookView) → M.meaning.fits self.old.router t → M.meaning.holds self.old.router b
            → M.meaning.leaves self.new.router (BookAmong M.meaning self.old.router conn items.old.items t b) }

        // So many more events are counted that found the journal full.
        ensures full { OnOk result ((t : Trace) → M.meaning.fits self.old.router t
            → self.new.full ≡ min (self.old.full + found_full M.meaning (M.meaning.id self.old.router) conn (gone items.old.items items.new.items) t) (2 ^ 64 - 1)) }

        // Which fault occurs, and what it leaves.
        ensures declined { IfErr result (λ f. f ≡ NoConnection →
            Declined M.meaning conn items.old.items items.new.items self.old.router self.new.router self.old.full self.new.full) }
        ensures failed { IfErr result (λ f. f ≡ Failed → (self.new.router ≡ self.old.router) × (M.meaning.is_failed self.old.router ≡ true)) }
        ensures memory { IfErr result (λ f. f ≡ Memory → M.meaning.is_failed self.new.router ≡ true) }
        ensures disk { IfErr result (λ f. f ≡ DiskFailed → M.meaning.is_failed self.new.router ≡ true) }
        ensures cause { IfErr result (λ f. f ≡ DiskFailed → M.meaning.failures self.old.router < M.meaning.failures self.new.router) }
        ensures no_other { (IsErrOf result DiskFailed → ⊥) → M.meaning.failures self.new.router ≡ M.meaning.failures self.old.router }
    {
        match self.hold_items(seat, conn, items) {
            Ok(wrote) => match self.write() {
                Ok(()) => Ok(wrote),
                Err(fault) => Err(fault),
            },
            Err(CoreFault::NoConnection) => match self.write() {
                Ok(()) => Err(CoreFault::NoConnection),
                Err(fault) => Err(fault),
            },
            Err(fault) => Err(fault),
        }
    }

    /// How many bytes of batches are held.
    pub fn held(&self) -> usize
        ensures { (t : Trace) (b : BookView) → result ≡ 0 → M.meaning.fits self.now.router t → M.meaning.holds self.now.router b
            → M.meaning.keeps self.now.router (M.meaning.book t) }
    {
        self.router.held()
    }

    /// Handles one take, after what is held is written: so nothing is taken of an event whose batch doesn't stand.
    pub fn take(&mut self, seat: &mut Seat<G>, conn: ConnectionId) -> Result<Batch, CoreFault>
        ensures fits { IfOk result (λ batch. (t : Trace) → M.meaning.fits self.old.router t → M.meaning.fits self.new.router (Took conn.0 (length batch.items.items) ∷ t)) }
        ensures batch { IfOk result (λ batch. (t : Trace) → M.meaning.fits self.old.router t → IsBatchOf (known t conn.0) 64 batch) }
        ensures whose { IfOk result (λ b. b.conn ≡ conn) }
        ensures most { IfOk result (λ b. length b.items.items ≤ 64) }
        ensures given { IfOk result (λ b. ∥ IsGiven M.meaning G.opening conn b ∥₁) }
        ensures counted { OnOk result (seat.new ≡ with_batch seat.old) }
        ensures uncounted { OnErr result (seat.new ≡ seat.old) }
        ensures full { self.new.full ≡ self.old.full }

        // Its journal keeps the book of the trace, with what was held.
        ensures keeps { IfOk result (λ batch. (t : Trace) (b : BookView) → M.meaning.fits self.old.router t → M.meaning.holds self.old.router b
            → M.meaning.keeps self.new.router (M.meaning.book (Took conn.0 (length batch.items.items) ∷ t))) }

        // Which fault occurs, and what it leaves.
        ensures refused { IfErr result (λ f. f ≡ NoConnection → (t : Trace) → M.meaning.fits self.old.router t
            → M.meaning.fits self.new.router t × (known t conn.0 ≡ None)) }
        ensures failed { IfErr result (λ f. f ≡ Failed → (self.new.router ≡ self.old.router) × (M.meaning.is_failed self.old.router ≡ true)) }
        ensures memory { IfErr result (λ f. f ≡ Memory → M.meaning.is_failed self.new.router ≡ true) }
        ensures disk { IfErr result (λ f. f ≡ DiskFailed → M.meaning.is_failed self.new.router ≡ true) }
        ensures cause { IfErr result (λ f. f ≡ DiskFailed → M.meaning.failures self.old.router < M.meaning.failures self.new.router) }
    {
        let written = self.write();
        match written {
            Ok(()) => self.take_next(seat, conn),
            Err(fault) => Err(fault),
        }
    }

    /// Handles one take where nothing is held.
    fn take_next(&mut self, seat: &mut Seat<G>, conn: ConnectionId) -> Result<Batch, CoreFault>
        requires kept { ∥ HasKept M.meaning G.opening self.old.router ∥₁ }
        ensures fits { IfOk result (λ batch. (t : Trace) → M.meaning.fits self.old.router t → M.meaning.fits self.new.router (Took conn.0 (length batch.items.items) ∷ t)) }
        ensures batch { IfOk result (λ batch. (t : Trace) → M.meaning.fits self.old.router t → IsBatchOf (known t conn.0) 64 batch) }
        ensures whose { IfOk result (λ b. b.conn ≡ conn) }
        ensures most { IfOk result (λ b. length b.items.items ≤ 64) }
        ensures given { IfOk result (λ b. ∥ IsGiven M.meaning G.opening conn b ∥₁) }
        ensures counted { OnOk result (seat.new ≡ with_batch seat.old) }
        ensures uncounted { OnErr result (seat.new ≡ seat.old) }
        ensures full { self.new.full ≡ self.old.full }
        ensures keeps { IfOk result (λ batch. (t : Trace) → M.meaning.keeps self.old.router (M.meaning.book t)
            → M.meaning.keeps self.new.router (M.meaning.book (Took conn.0 (length batch.items.items) ∷ t))) }
        ensures refused { IfErr result (λ f. f ≡ NoConnection → (self.new.router ≡ self.old.router) × ((t : Trace) → M.meaning.fits self.old.router t → known t conn.0 ≡ None)) }
        ensures failed { IfErr result (λ f. f ≡ Failed → (self.new.router ≡ self.old.router) × (M.meaning.is_failed self.old.router ≡ true)) }
        ensures memory { IfErr result (λ f. f ≡ Memory → M.meaning.is_failed self.new.router ≡ true) }
        ensures no_disk { IfErr result (λ f. f ≡ DiskFailed → ⊥) }
    {
        let batch = take(&mut self.router, conn, MOST)?;
        self.totals.add_batch(seat, self.router.counts());
        Ok(batch)
    }

    /// Whether a connection is up and the router didn't end it.
    pub fn is_live(&self, conn: ConnectionId) -> bool
        ensures { (t : Trace) → M.meaning.fits self.now.router t → result ≡ is_live (known t conn.0) }
    {
        self.router.is_live(conn)
    }

    /// Whether the router failed.
    pub fn is_failed(&self) -> bool
        ensures { result ≡ M.meaning.is_failed self.now.router }
    {
        self.router.is_failed()
    }

    /// How many events found the journal full since the router was opened, up to 2^64 - 1: each released a delivery, or refused a durable link.
    pub fn full_events(&self) -> u64
        ensures { result ≡ self.now.full }
    {
        self.full
    }

    /// Whether the writer of a connection has to wait: the connection is known and not ready, and the router works. If so, its bell is noted as
    /// one at which a writer sleeps.
    pub fn sleeps(&mut self, conn: ConnectionId) -> bool
        ensures router { self.new.router ≡ self.old.router }
        ensures full { self.new.full ≡ self.old.full }
        ensures waits { (t : Trace) → M.meaning.fits self.old.router t → result ≡ not (M.meaning.is_failed self.old.router || is_ready (known t conn.0) || not (is_some (known t conn.0))) }
        ensures noted { (b : ℕ) → is_set self.new.sleepers.noted.words b ≡ ((result && (conn.0 % 256 == b)) || is_set self.old.sleepers.noted.words b) }
    {
        self.sleepers.sleeps(&self.router, conn)
    }

    /// The bells of the writers that sleep and needn't: of connections that are ready, of one that is lost, and all of
    /// them if the router failed. No bell that was noted is forgotten: it is given, or is still noted.
    pub fn wake(&mut self, lost: Option<ConnectionId>) -> Bells
        ensures router { self.new.router ≡ self.old.router }
        ensures full { self.new.full ≡ self.old.full }
        ensures ready { (t : Trace) → M.meaning.fits self.old.router t → (c : ℕ) → is_ready (known t c) ≡ true
            → is_set self.old.sleepers.noted.words (c % 256) ≡ true → is_set result.words (c % 256) ≡ true }
        ensures lost { IfSome lost (λ conn. is_set self.old.sleepers.noted.words (conn.0 % 256) ≡ true → is_set result.words (conn.0 % 256) ≡ true) }
        ensures failed { M.meaning.is_failed self.old.router ≡ true → (b : ℕ) → b < 256 → is_set self.old.sleepers.noted.words b ≡ true → is_set result.words b ≡ true }
        ensures still { (b : ℕ) → b < 256 → is_set self.old.sleepers.noted.words b ≡ true → (is_set result.words b ≡ true) ⊎ (is_set self.new.sleepers.noted.words b ≡ true) }
    {
        self.sleepers.wake(&self.router, lost)
    }

    /// Adds up the seats' counts, beside the router's.
    pub fn close(self, seats: Vec<Seat<G>>, receipts: Vec<Receipt>) -> Closed<M, L>
        requires cut { (G.Ups.seats ≡ G.Ups.parts) × (G.Items.seats ≡ G.Items.parts) × (G.Downs.seats ≡ G.Downs.parts) × (G.Ticks.seats ≡ G.Ticks.parts) × (G.Starts.seats ≡ G.Starts.parts) × (G.Batches.seats ≡ G.Batches.parts) }
        ensures counts { result.counts ≡ sums seats.items }
        ensures all { result.all ≡ true → M.meaning.counts result.core ≡ result.counts }
        ensures appended { result.appended ≡ M.meaning.batches result.core }
        ensures opened { ∥ IsFirstBatch M.meaning G.opening result.opened ∥₁ }
        ensures history { ∥ HasHistory M.meaning G.opening result.core ∥₁ }
    {
        drop(receipts);
        let Locked {
            router,
            totals,
            log,
            opened,
            full: _,
            sleepers: _,
        } = self;
        let Returned { all, counts } = totals.add_up(seats);
        Closed {
            all,
            counts,
            appended: router.batch(),
            opened,
            core: router,
            log,
        }
    }
}

/// The number of events that found the journal full, after one that did, or didn't.
fn full_after(full: u64, found: bool) -> u64
    ensures { result ≡ with_full found full }
{
    if found { full.saturating_add(1) } else { full }
}

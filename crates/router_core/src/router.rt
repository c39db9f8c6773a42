//! The router: one event or one take at a time.
ghost use Rattle.std.specs.Prelude.{◌≡◌, ◌≢◌, ◌⊎◌, ◌+◌, ◌<◌, ◌≤◌, ◌∷◌, ◌&&◌, nat_lt, List, [], length, slice_get, true, false, Ok, Err, None, option_copied, option_map, is_some, OnOk, OnErr, IfOk, IfErr, IfSome, IfNone, IsErrOf};
ghost use Rattle.disk_core.specs.Disk.{LeavesOnly, NoMore};
ghost use Rattle.twin_journal.specs.Holding.{BeforeOrAfter};
ghost use Rattle.twin_journal.specs.Journal.{batch_count};
ghost use Rattle.twin_journal.specs.Judging.{Explains};
ghost use Rattle.journal_store.specs.Store.{OpensTo, Stands, Writable, IsSuited, journal_of, twin_of, count_of, base_of, batches_after};
ghost use Rattle.router_trace.specs.Configuration.{opened};
ghost use Rattle.router_trace.specs.Trace.{Entry, Trace, Took, step_of};
ghost use Rattle.router_trace.specs.Connection.{conn as known, is_ready, is_live, due};
ghost use Rattle.state_connections.specs.Fits.{IsLeast};
ghost use Rattle.state_connections.specs.Waiting.{waiting_of};
ghost use Rattle.book_model.specs.Book.{effects};
ghost use Rattle.twin_journal.specs.Room.{room};
ghost use Rattle.reply_rows.specs.Acts.{acts_of, book_after_event, book_in, found_acts, booked, finds_full, journaled};
ghost use Rattle.reply_rows.specs.Admitting.{ChoseUnlessEnds, admits, event_admission, without_acts};
ghost use Rattle.router_reply.specs.Heard.{IsHeard};
ghost use Rattle.router_reply.specs.Replies.{row_found};
ghost use Rattle.core_machine.specs.Turns.{declines};
ghost use Rattle.router_core.specs.Replies.{Replies, answered, handled};
ghost use Rattle.router_state.specs.Tables.{TablesFit};
ghost use Rattle.router_state.specs.Waiting.{NothingWaits};
ghost use Rattle.router_core.specs.Handling.{Fits, IsTaken, IsDecided, IsReady, TakenIn, with_admission, full_with, is_failed, id_of, store_of, kept_book, state_of, counts_of, BeforeOrAfterEvent, LeftBook};
ghost use Rattle.core_machine.specs.Meaning.{IsBatchOf, IsTakenOf};
ghost use Rattle.core_machine.specs.Counting.{uncounted, with_event, with_batch};
ghost use Rattle.core_machine.specs.Opened.{IsOpened};
ghost use Rattle.router_core.specs.Machine.{core_meaning, opening_of};
ghost use Rattle.core_machine.specs.declared.fault.CoreFault.TheVariants.{Disk as DiskFailed, Memory, Failed, NoConnection};

use amqp_conn::Conn;
use amqp_model::Item;
use book_core::Book;
use book_model::{Act, RowNumber};
use core_machine::{Batch, CoreFault, Counts, Done, Taken};
use disk_core::{CrashTwin, Twin};
use journal_store::Store;
use reply_rows::{Admittable, Plan, admission_for, decide, row_in};
use route_table::{Config, Table};
use router_after::after;
use router_reply::{Heard, free_rows, hear, reply, take_up};
use router_state::State;
use router_trace::{ConnectionId, Event, RouterId};
use state_connections::{Refused, phase_found};
use std::alloc::{AllocError, Global};
use twin_journal::{JournalFault, OpenFault};

/// The batch that was written, if one was: its number and its acts.
pub(crate) type Written = Option<(u64, Vec<Act>)>;

/// The router. It handles one event at a time; the items that it puts out are fetched with `take`. Its durable deliveries
/// are kept by a journal on two files.
pub struct Core<T: Twin> {
    pub(crate) alloc: Global,
    id: RouterId,
    pub(crate) state: State,
    pub(crate) store: Store<T>,
    pub(crate) counts: Counts,
    started: bool,
    pub(crate) failed: bool,
}

impl<T: Twin> Drop for Core<T> {
    /// Drops what it holds by one call, where a derived drop is its steps at each exit of a function that holds one.
    fn drop(self) {
        let Core {
            alloc: _alloc,
            id: _id,
            state: _state,
            store: _store,
            counts: _counts,
            started: _started,
            failed: _failed,
        } = self;
    }
}

impl<T: Twin> Core<T> {
    /// A new router, opened with a configuration on the journal that two files keep. At an `Err` the files are dropped:
    /// `Disk` comes where they failed, `Memory` where memory was refused, and the others where they hold no journal, or a
    /// damaged one.
    pub fn open(alloc: Global, twin: T, config: &Config) -> Result<Core<T>, OpenFault>
        ensures fits { IfOk result (λ core. (below : Trace) → Fits core (opened (opening_of config.now core) below)) }
        ensures works { IfOk result (λ core. is_failed core ≡ false) }
        ensures named { IfOk result (λ core. id_of core ≡ config.now.router_id) }
        ensures counts { IfOk result (λ core. counts_of core ≡ uncounted) }

        // Nothing has happened to it: it can be driven as a machine.
        ensures opened { IfOk result (λ core. IsOpened (core_meaning T.seen T.may_leave T.failures) (opening_of config.now core) core) }

        // Its book is the one that the files open to, and a crash leaves just that.
        ensures stands { IfOk result (λ core. Stands T.seen T.may_leave (store_of core)) }
        ensures book { IfOk result (λ core. OpensTo (T.seen twin) (kept_book core)) }
        ensures seen { IfOk result (λ core. T.seen (twin_of (store_of core)) ≡ T.seen twin) }
        ensures any_moment { IfOk result (λ core. LeavesOnly T.moment T.left_since twin (twin_of (store_of core)) (T.may_leave twin)) }
        ensures crash { IfOk result (λ core. NoMore (T.may_leave twin) (T.may_leave (twin_of (store_of core)))) }

        ensures fault { IfErr result (Explains (T.seen twin)) }
    {
        let store = Store::open(alloc, twin)?;
        let Ok(table) = Table::new(alloc, config) else {
            drop(store);
            return Err(OpenFault::Memory);
        };
        let Ok(id) = RouterId::new(alloc, config.router_id()) else {
            drop(store);
            drop(table);
            return Err(OpenFault::Memory);
        };
        let last_row = store.book().next_row().0.saturating_sub(1);
        Ok(Core {
            alloc,
            id,
            state: State::new(alloc, table, last_row),
            store,
            counts: Counts::none(),
            started: false,
            failed: false,
        })
    }

    /// Whether the router failed with a fault of the disk or of memory; it answers `Failed` from then on.
    pub fn is_failed(&self) -> bool
        ensures { result ≡ is_failed self.now }
    {
        self.failed
    }

    /// How many events it handled with `Ok`, by kind, and how many batches `take` returned.
    pub fn counts(&self) -> Counts
        ensures { result ≡ counts_of self.now }
    {
        self.counts
    }

    /// The book of its durable deliveries.
    pub fn book(&self) -> &Book
        ensures { result.now ≡ kept_book self.now }
    {
        self.store.book()
    }

    /// The number of the last batch in its journal; 0 where there is none.
    pub fn batch(&self) -> u64
        ensures { result ≡ batch_count (journal_of (store_of self.now)) }
    {
        self.store.batch()
    }

    /// How many batches its journal has that no longer stand in it: they are in the book of its checkpoint.
    pub fn base(&self) -> u64
        ensures { result ≡ base_of (store_of self.now) }
    {
        self.store.base()
    }

    /// How many bytes the journal has room for beside a checkpoint of its book and what is kept free for it. It encodes the
    /// book. `AllocError` comes where memory is refused, or an act of the book can't be encoded.
    pub fn room(&self) -> Result<i128, AllocError>
        ensures { IfOk result (λ n. n ≡ room (kept_book self.now)) }
    {
        self.store.room()
    }

    /// The two files, after the router is given up.
    pub fn into_twin(self) -> T
        ensures { result ≡ twin_of (store_of self) }
    {
        let Core {
            alloc: _alloc,
            id,
            state,
            store,
            counts: _counts,
            started: _started,
            failed: _failed,
        } = self;
        drop(id);
        drop(state);
        store.into_twin()
    }

    /// Handles an event. `Start` comes first, and once. It answers `NoConnection` exactly if the event comes out of this
    /// turn, is about a connection that isn't live, or about a new one whose number doesn't rise, and `Failed` exactly if an
    /// earlier call answered `Disk` or `Memory`; both change nothing. After `Disk` and `Memory` the router is failed, and is to
    /// be opened again.
    ///
    /// What the event does to the book is written to the journal, as one batch, before any of its items is put out. Where there is no room for that, the
    /// event finds the journal full, which is told: it releases a delivery, or refuses a durable link.
    pub fn handle(&mut self, event: Event) -> Result<Done, CoreFault>
        // The trace continues with the event and its replies.
        ensures fits { OnOk result ((t : List Entry) → Fits self.old t → (u : List Entry) × Replies (id_of self.old) t (step_of event) u × Fits self.new u) }
        ensures taken { OnOk result ((t : List Entry) → Fits self.old t → declines t event ≡ false) }
        ensures works { OnOk result (is_failed self.new ≡ false) }
        ensures named { id_of self.new ≡ id_of self.old }

        // The event's acts are done to the book, and written as one batch; where there are none, nothing is written.
        ensures stands { OnOk result (Stands T.seen T.may_leave (store_of self.old) → Stands T.seen T.may_leave (store_of self.new)) }
        ensures book { OnOk result ((t : List Entry) → Fits self.old t → kept_book self.new ≡ book_after_event t event) }
        ensures written { IfOk result (λ done. (t : List Entry) → Fits self.old t → IfSome done.journal (λ batch.
            (batch.0 ≡ batch_count (journal_of (store_of self.old)) + 1) × (batch.1.items ≡ acts_of t event))) }
        ensures some_acts { IfOk result (λ done. IfSome done.journal (λ batch. batch.1.items ≢ [])) }
        ensures silent { IfOk result (λ done. (t : List Entry) → Fits self.old t → IfNone done.journal (acts_of t event ≡ [])) }
        ensures full { IfOk result (λ done. (t : List Entry) → Fits self.old t → done.full ≡ finds_full (journaled t) t event) }

        // Whatever is answered, a crash at any moment of the call leaves the book before the event or the book after it; and after
        // a fault of the disk or of memory no item waits in any outbox.
        ensures any_moment { (t : List Entry) → Fits self.old t → Stands T.seen T.may_leave (store_of self.old)
            → LeavesOnly T.moment T.left_since (twin_of (store_of self.old)) (twin_of (store_of self.new)) (BeforeOrAfterEvent t event) }
        ensures journal_moment { (t : List Entry) → Fits self.old t → Stands T.seen T.may_leave (store_of self.old)
            → LeavesOnly T.moment T.left_since (twin_of (store_of self.old)) (twin_of (store_of self.new)) (BeforeOrAfter (book_in t) (count_of (store_of self.old)) (acts_of t event)) }
        ensures given_up { OnErr result (is_failed self.old ≡ false → is_failed self.new ≡ true → NothingWaits (state_of self.new)) }

        // One more event is counted exactly if the call answers Ok.
        ensures counted { OnOk result (counts_of self.new ≡ with_event event (counts_of self.old)) }
        ensures uncounted { OnErr result (counts_of self.new ≡ counts_of self.old) }

        // A fault leaves the book as it was before the event, or as it is after it. Where the disk failed, it is as before.
        ensures left { OnErr result ((t : List Entry) → Fits self.old t → LeftBook t event (kept_book self.new)) }
        ensures unwritten { IfErr result (λ f. f ≡ DiskFailed → kept_book self.new ≡ kept_book self.old) }

        // Which fault occurs, and what it leaves.
        ensures refused { IfErr result (λ f. f ≡ NoConnection → (self.new ≡ self.old) × ((t : List Entry) → Fits self.old t → declines t event ≡ true)) }
        ensures refuses { (t : List Entry) → Fits self.old t → is_failed self.old ≡ false → declines t event ≡ true → result ≡ Err NoConnection }
        ensures failed { is_failed self.old ≡ true → result ≡ Err Failed }
        ensures unchanged { IfErr result (λ f. f ≡ Failed → (self.new ≡ self.old) × (is_failed self.old ≡ true)) }
        ensures memory { IfErr result (λ f. f ≡ Memory → is_failed self.new ≡ true) }
        ensures disk { IfErr result (λ f. f ≡ DiskFailed → is_failed self.new ≡ true) }

        // The disk failed meanwhile exactly where `Disk` is answered.
        ensures cause { IfErr result (λ f. f ≡ DiskFailed → T.failures (twin_of (store_of self.old)) < T.failures (twin_of (store_of self.new))) }
        ensures no_other { (IsErrOf result DiskFailed → ⊥) → T.failures (twin_of (store_of self.new)) ≡ T.failures (twin_of (store_of self.old)) }
    {
        if self.failed {
            drop(event);
            return Err(CoreFault::Failed);
        }
        let Ok(phase) = self.phase_before(&event) else {
            drop(event);
            return Err(CoreFault::NoConnection);
        };
        match self.carry_out(event, phase) {
            Ok(done) => Ok(done),
            Err(fault) => {
                self.state.give_up();
                self.failed = true;
                Err(fault)
            }
        }
    }

    /// The phase of the connection of an event's item, before the event; none of another event. `Refused` exactly if the event comes out of
    /// turn, or is refused.
    pub(crate) fn phase_before(&self, event: &Event) -> Result<Option<Conn>, Refused>
        ensures refused { OnErr result ((t : List Entry) → Fits self.now t → declines t event.now ≡ true) }
        ensures taken { IfOk result (λ phase. (t : List Entry) → Fits self.now t → IsTaken t event.now phase) }
    {
        let out_of_turn = match event {
            Event::Start => self.started,
            _ => !self.started,
        };
        if out_of_turn {
            return Err(Refused);
        }
        self.state.phase_before(event)
    }

    /// Handles an event that is not declined, which finds its item's connection in this phase: it is decided and heard, its acts are written as
    /// one batch, and only then it is answered.
    fn carry_out(&mut self, event: Event, phase: Option<Conn>) -> Result<Done, CoreFault>
        ensures fits { OnOk result ((t : List Entry) → Fits self.old t → IsTaken t event phase → Fits self.new (handled (id_of self.old) t (step_of event))) }
        ensures works { is_failed self.new ≡ is_failed self.old }
        ensures named { id_of self.new ≡ id_of self.old }
        ensures stands { OnOk result (Stands T.seen T.may_leave (store_of self.old) → Stands T.seen T.may_leave (store_of self.new)) }
        ensures book { OnOk result ((t : List Entry) → Fits self.old t → IsTaken t event phase → kept_book self.new ≡ book_after_event t event) }
        ensures written { IfOk result (λ done. (t : List Entry) → Fits self.old t → IsTaken t event phase → IfSome done.journal (λ batch.
            (batch.0 ≡ batch_count (journal_of (store_of self.old)) + 1) × (batch.1.items ≡ acts_of t event))) }
        ensures some_acts { IfOk result (λ done. IfSome done.journal (λ batch. batch.1.items ≢ [])) }
        ensures silent { IfOk result (λ done. (t : List Entry) → Fits self.old t → IsTaken t event phase → IfNone done.journal (acts_of t event ≡ [])) }
        ensures full { IfOk result (λ done. (t : List Entry) → Fits self.old t → IsTaken t event phase → done.full ≡ finds_full (journaled t) t event) }
        ensures any_moment { (t : List Entry) → Fits self.old t → IsTaken t event phase → Stands T.seen T.may_leave (store_of self.old)
            → LeavesOnly T.moment T.left_since (twin_of (store_of self.old)) (twin_of (store_of self.new)) (BeforeOrAfterEvent t event) }
        ensures journal_moment { (t : List Entry) → Fits self.old t → IsTaken t event phase → Stands T.seen T.may_leave (store_of self.old)
            → LeavesOnly T.moment T.left_since (twin_of (store_of self.old)) (twin_of (store_of self.new)) (BeforeOrAfter (book_in t) (count_of (store_of self.old)) (acts_of t event)) }
        ensures counted { OnOk result (counts_of self.new ≡ with_event event (counts_of self.old)) }
        ensures uncounted { OnErr result (counts_of self.new ≡ counts_of self.old) }
        ensures left { OnErr result ((t : List Entry) → Fits self.old t → IsTaken t event phase → LeftBook t event (kept_book self.new)) }
        ensures unwritten { IfErr result (λ f. f ≡ DiskFailed → kept_book self.new ≡ kept_book self.old) }
        ensures not_refused { IfErr result (λ f. f ≢ NoConnection) }
        ensures not_failed { IfErr result (λ f. f ≢ Failed) }
        ensures cause { IfErr result (λ f. f ≡ DiskFailed → T.failures (twin_of (store_of self.old)) < T.failures (twin_of (store_of self.new))) }
        ensures no_other { (IsErrOf result DiskFailed → ⊥) → T.failures (twin_of (store_of self.new)) ≡ T.failures (twin_of (store_of self.old)) }
    {
        let mut plan = Plan::nothing(self.alloc);
        let mut heard = Heard::nothing(self.alloc);
        let Ok(()) = self.decide(&event, phase, &mut plan) else {
            drop(event);
            return Err(CoreFault::Memory);
        };
        let Ok(()) = self.hear(&event, &mut plan, &mut heard) else {
            drop(event);
            return Err(CoreFault::Memory);
        };
        let full = plan.full;
        let row = row_in(&plan.acts);
        let journal = match self.write(plan.take_acts(self.alloc)) {
            Ok(journal) => journal,
            Err(fault) => {
                drop(event);
                return Err(fault);
            }
        };
        let Ok(()) = self.answer(event, &mut plan, &mut heard, row, acts_written(&journal)) else {
            drop(journal);
            return Err(CoreFault::Memory);
        };
        Ok(Done { journal, full })
    }

    /// Decides an event that is not declined, with its item's connection in this phase before it. Nothing is done yet.
    pub(crate) fn decide(
        &mut self,
        event: &Event,
        before: Option<Conn>,
        plan: &mut Plan,
    ) -> Result<(), AllocError>
        ensures rest { self.new ≡ record self.old { state = state_of self.new } }
        ensures decided { OnOk result ((t : List Entry) → Fits self.old t → IsTaken t event.now before → IsDecided self.new t event.now plan.new) }
        ensures writable { OnOk result (Writable (kept_book self.old) plan.new.acts.items) }
    {
        plan.ends = self.state.turn(event)?;
        plan.phase = phase_found(event, &plan.ends, before);
        decide(&self.state, &self.store, event, plan)
    }

    /// Handles an event that was decided so; nothing is put and nothing written. What it admits is among its acts then, and the plan says whether that
    /// exceeds the room.
    pub(crate) fn hear(
        &mut self,
        event: &Event,
        plan: &mut Plan,
        heard: &mut Heard,
    ) -> Result<(), AllocError>
        requires writable { Writable (kept_book self.old) plan.old.acts.items }
        ensures rest { self.new ≡ record self.old { state = state_of self.new } }
        ensures ready { OnOk result ((t : List Entry) → IsDecided self.old t event.now plan.old → IsReady (state_of self.new) (booked t event.now) event.now plan.new heard.new) }
        ensures acts { OnOk result ((t : List Entry) → IsDecided self.old t event.now plan.old → plan.new.acts.items ≡ acts_of t event.now) }
        ensures full { OnOk result ((t : List Entry) → IsDecided self.old t event.now plan.old → plan.new.full ≡ finds_full (journaled t) t event.now) }
        ensures writable { OnOk result (Writable (kept_book self.old) plan.new.acts.items) }
    {
        hear(&mut self.state, event, plan, heard)?;
        self.admit(event, plan, heard)
    }

    /// Adds the acts that admit a message of an event that was heard, if it has no other acts, finds room and ends no connection, and if there is room for
    /// these.
    fn admit(&mut self, event: &Event, plan: &mut Plan, heard: &Heard) -> Result<(), AllocError>
        requires writable { Writable (kept_book self.old) plan.old.acts.items }
        ensures rest { self.new ≡ record self.old { state = state_of self.new } }
        ensures plan { plan.new ≡ record plan.old { full = plan.new.full; acts = plan.new.acts; consumer = plan.new.consumer } }
        ensures chosen { OnOk result ((t : List Entry) → TablesFit (state_of self.old) t → plan.old.consumer ≡ None
            → ChoseUnlessEnds plan.old.ends.items t event.now plan.old.answer plan.new.consumer) }
        ensures tables { OnOk result ((t : List Entry) → TablesFit (state_of self.old) t → TablesFit (state_of self.new) t) }
        ensures acts { OnOk result ((t : List Entry) → (plan.old.acts.items ≡ [] → TablesFit (state_of self.old) (without_acts t event.now)) → plan.old.ends.items ≡ due t event.now
            → IsHeard t event.now plan.old.answer heard.now → TakenIn t event.now plan.old.answer → IsSuited (store_of self.old)
            → plan.new.acts.items ≡ with_admission plan.old.full (kept_book self.old) plan.old.acts.items (admits (kept_book self.old) (event_admission (kept_book self.old) t event.now plan.old.answer))) }
        ensures full { OnOk result ((t : List Entry) → (plan.old.acts.items ≡ [] → TablesFit (state_of self.old) (without_acts t event.now)) → plan.old.ends.items ≡ due t event.now
            → IsHeard t event.now plan.old.answer heard.now → TakenIn t event.now plan.old.answer → IsSuited (store_of self.old)
            → plan.new.full ≡ full_with plan.old.full (kept_book self.old) plan.old.acts.items (admits (kept_book self.old) (event_admission (kept_book self.old) t event.now plan.old.answer))) }
        ensures writable { OnOk result (Writable (kept_book self.old) plan.new.acts.items) }
    {
        if plan.full || !plan.acts.is_empty() {
            return Ok(());
        }
        let admits = self.admission(event, plan, heard)?;
        if self.store.exceeds(&admits)? {
            drop(admits);
            plan.full = true;
        } else {
            plan.acts = admits;
        }
        Ok(())
    }

    /// The acts that admit a message of an event that was heard; none if the event ends a connection for its full outbox. The plan has the consumer
    /// that is chosen for the message then.
    fn admission(
        &mut self,
        event: &Event,
        plan: &mut Plan,
        heard: &Heard,
    ) -> Result<Vec<Act>, AllocError>
        ensures rest { self.new ≡ record self.old { state = state_of self.new } }
        ensures plan { plan.new ≡ record plan.old { consumer = plan.new.consumer } }
        ensures chosen { OnOk result ((t : List Entry) → TablesFit (state_of self.old) t → plan.old.consumer ≡ None
            → ChoseUnlessEnds plan.old.ends.items t event.now plan.old.answer plan.new.consumer) }
        ensures tables { OnOk result ((t : List Entry) → TablesFit (state_of self.old) t → TablesFit (state_of self.new) t) }
        ensures acts { IfOk result (λ r. (t : List Entry) → TablesFit (state_of self.old) (without_acts t event.now) → plan.old.ends.items ≡ due t event.now → IsHeard t event.now plan.old.answer heard.now
            → TakenIn t event.now plan.old.answer → r.items ≡ admits (kept_book self.old) (event_admission (kept_book self.old) t event.now plan.old.answer)) }
        ensures writable { IfOk result (λ r. Writable (kept_book self.old) r.items) }
    {
        let Event::Item(conn, _) = event else {
            return Ok(Vec::new(self.alloc));
        };
        if !plan.ends.is_empty() {
            return Ok(Vec::new(self.alloc));
        }
        let found = admission_for(
            &mut self.state,
            self.store.book(),
            *conn,
            &plan.answer,
            &heard.part,
        )?;
        match found {
            None => Ok(Vec::new(self.alloc)),
            Some(found) => {
                let Admittable {
                    admission,
                    consumer,
                } = found;
                plan.consumer = Some(consumer);
                self.store.admission_acts(self.alloc, admission)
            }
        }
    }

    /// Writes the acts of an event as one batch; where there are none, nothing is written.
    fn write(&mut self, acts: Vec<Act>) -> Result<Written, CoreFault>
        requires writable { Writable (kept_book self.old) acts.items }
        ensures rest { self.new ≡ record self.old { store = store_of self.new } }
        ensures stands { OnOk result (Stands T.seen T.may_leave (store_of self.old) → Stands T.seen T.may_leave (store_of self.new)) }
        ensures book { OnOk result (kept_book self.new ≡ effects (kept_book self.old) acts.items) }
        ensures count { OnOk result (count_of (store_of self.new) ≡ batches_after (count_of (store_of self.old)) acts.items) }
        ensures suits { OnOk result (IsSuited (store_of self.old) → IsSuited (store_of self.new)) }
        ensures written { IfOk result (λ w. IfSome w (λ batch. (batch.0 ≡ batch_count (journal_of (store_of self.old)) + 1) × (batch.1.items ≡ acts.items))) }
        ensures some_acts { IfOk result (λ w. IfSome w (λ batch. batch.1.items ≢ [])) }
        ensures silent { IfOk result (λ w. IfNone w (acts.items ≡ [])) }
        ensures any_moment { Stands T.seen T.may_leave (store_of self.old) → LeavesOnly T.moment T.left_since (twin_of (store_of self.old)) (twin_of (store_of self.new))
            (λ c. OpensTo c (kept_book self.old) ⊎ OpensTo c (effects (kept_book self.old) acts.items)) }
        ensures journal_moment { Stands T.seen T.may_leave (store_of self.old) → LeavesOnly T.moment T.left_since (twin_of (store_of self.old)) (twin_of (store_of self.new))
            (BeforeOrAfter (kept_book self.old) (count_of (store_of self.old)) acts.items) }
        ensures unwritten { OnErr result (kept_book self.new ≡ kept_book self.old) }
        ensures not_refused { IfErr result (λ f. f ≢ NoConnection) }
        ensures not_failed { IfErr result (λ f. f ≢ Failed) }
        ensures cause { IfErr result (λ f. f ≡ DiskFailed → T.failures (twin_of (store_of self.old)) < T.failures (twin_of (store_of self.new))) }
        ensures no_other { (IsErrOf result DiskFailed → ⊥) → T.failures (twin_of (store_of self.new)) ≡ T.failures (twin_of (store_of self.old)) }
    {
        match self.store.commit(acts) {
            Ok(batch) => Ok(batch),
            Err(JournalFault::Disk) => Err(CoreFault::Disk),
            Err(_) => Err(CoreFault::Memory),
        }
    }

    /// Answers an event that was decided and heard so, with these acts, and counts it.
    pub(crate) fn answer(
        &mut self,
        event: Event,
        plan: &mut Plan,
        heard: &mut Heard,
        row: Option<RowNumber>,
        acts: &[Act],
    ) -> Result<(), AllocError>
        ensures tables { OnOk result ((t : List Entry) → IsReady (state_of self.old) t event plan.old heard.old → kept_book self.old ≡ book_in t → row ≡ row_found t → acts.now ≡ found_acts t
            → TablesFit (state_of self.new) (answered (id_of self.old) t (step_of event))) }
        ensures started { OnOk result (self.new.started ≡ true) }
        ensures counted { OnOk result (counts_of self.new ≡ with_event event (counts_of self.old)) }
        ensures uncounted { OnErr result (counts_of self.new ≡ counts_of self.old) }
        ensures named { id_of self.new ≡ id_of self.old }
        ensures store { store_of self.new ≡ store_of self.old }
        ensures works { is_failed self.new ≡ is_failed self.old }
    {
        let Ok(counts) = self.counts.with_event(&event) else {
            drop(event);
            return Err(AllocError);
        };
        reply_to(
            &mut self.state,
            &self.id,
            self.store.book(),
            event,
            plan,
            heard,
            row,
            acts,
        )?;
        self.counts = counts;
        self.started = true;
        Ok(())
    }

    /// Takes up to `most` items from the outbox of a connection, in order. It answers `NoConnection`
    /// exactly if the connection is unknown, and `Failed` exactly if an earlier call answered `Disk` or `Memory`;
    /// both change nothing. After `Memory` the router is failed.
    pub fn take(&mut self, conn: ConnectionId, most: usize) -> Result<Batch, CoreFault>
        // The trace continues with the items taken.
        ensures fits { IfOk result (λ batch. (t : List Entry) → Fits self.old t → Fits self.new (Took conn.0 (length batch.items.items) ∷ t)) }
        ensures batch { IfOk result (λ batch. (t : List Entry) → Fits self.old t → IsBatchOf (known t conn.0) most batch) }
        ensures whose { IfOk result (λ b. b.conn ≡ conn) }
        ensures most { IfOk result (λ b. length b.items.items ≤ most) }
        ensures works { OnOk result (is_failed self.new ≡ false) }
        ensures named { id_of self.new ≡ id_of self.old }
        ensures store { store_of self.new ≡ store_of self.old }

        // One more batch is counted exactly if the call answers Ok.
        ensures counted { OnOk result (counts_of self.new ≡ with_batch (counts_of self.old)) }
        ensures uncounted { OnErr result (counts_of self.new ≡ counts_of self.old) }

        // Which fault occurs, and what it leaves.
        ensures refused { IfErr result (λ f. f ≡ NoConnection → (self.new ≡ self.old) × ((t : List Entry) → Fits self.old t → known t conn.0 ≡ None)) }
        ensures refuses { (t : List Entry) → Fits self.old t → is_failed self.old ≡ false → known t conn.0 ≡ None → result ≡ Err NoConnection }
        ensures failed { is_failed self.old ≡ true → result ≡ Err Failed }
        ensures unchanged { IfErr result (λ f. f ≡ Failed → (self.new ≡ self.old) × (is_failed self.old ≡ true)) }
        ensures memory { IfErr result (λ f. f ≡ Memory → is_failed self.new ≡ true) }
        ensures no_disk { IfErr result (λ f. f ≡ DiskFailed → ⊥) }
    {
        core_machine::take(self, conn, most)
    }

    /// Takes up to `most` items from the outbox of a connection, in order.
    pub(crate) fn take_out(&mut self, conn: ConnectionId, most: usize) -> Result<Taken, CoreFault>
        // The trace continues with the items taken.
        ensures fits { IfOk result (λ taken. (t : List Entry) → Fits self.old t → Fits self.new (Took conn.0 (length taken.items.items) ∷ t)) }
        ensures taken { IfOk result (λ taken. (t : List Entry) → Fits self.old t → IsTakenOf (known t conn.0) most taken) }
        ensures most { IfOk result (λ taken. length taken.items.items ≤ most) }
        ensures works { OnOk result (is_failed self.new ≡ false) }
        ensures named { id_of self.new ≡ id_of self.old }
        ensures store { store_of self.new ≡ store_of self.old }

        // One more batch is counted exactly if the call answers Ok.
        ensures counted { OnOk result (counts_of self.new ≡ with_batch (counts_of self.old)) }
        ensures uncounted { OnErr result (counts_of self.new ≡ counts_of self.old) }

        // Which fault occurs, and what it leaves.
        ensures refused { IfErr result (λ f. f ≡ NoConnection → (self.new ≡ self.old) × ((t : List Entry) → Fits self.old t → known t conn.0 ≡ None)) }
        ensures refuses { (t : List Entry) → Fits self.old t → is_failed self.old ≡ false → known t conn.0 ≡ None → result ≡ Err NoConnection }
        ensures failed { is_failed self.old ≡ true → result ≡ Err Failed }
        ensures unchanged { IfErr result (λ f. f ≡ Failed → (self.new ≡ self.old) × (is_failed self.old ≡ true)) }
        ensures memory { IfErr result (λ f. f ≡ Memory → is_failed self.new ≡ true) }
        ensures no_disk { IfErr result (λ f. f ≡ DiskFailed → ⊥) }
    {
        if self.failed {
            return Err(CoreFault::Failed);
        }
        if self.state.phase(conn.0).is_none() {
            return Err(CoreFault::NoConnection);
        }
        let Ok(counts) = self.counts.with_batch() else {
            self.failed = true;
            return Err(CoreFault::Memory);
        };
        match self.state.take(conn.0, most) {
            Ok(Some(taken)) => {
                self.counts = counts;
                Ok(taken)
            }
            _ => {
                self.failed = true;
                Err(CoreFault::Memory)
            }
        }
    }

    /// The lowest ready connection: an item is waiting in its outbox, or the router ended it.
    pub fn ready(&self) -> Option<ConnectionId>
        ensures { (t : List Entry) → Fits self.now t → IsLeast (λ c. is_ready (known t c)) (option_map (λ c. c.0) result) }
    {
        match self.state.ready() {
            None => None,
            Some(conn) => Some(ConnectionId(conn)),
        }
    }

    /// The lowest ready connection above another.
    pub fn ready_after(&self, conn: ConnectionId) -> Option<ConnectionId>
        ensures { (t : List Entry) → Fits self.now t → IsLeast (λ c. nat_lt conn.0 c && is_ready (known t c)) (option_map (λ c. c.0) result) }
    {
        match self.state.ready_after(conn.0) {
            None => None,
            Some(next) => Some(ConnectionId(next)),
        }
    }

    /// How many items wait in a connection's outbox.
    pub fn waits(&self, conn: ConnectionId) -> usize
        ensures { (t : List Entry) → Fits self.now t → result ≡ length (waiting_of (known t conn.0)) }
    {
        self.state.waits(conn.0)
    }

    /// The item at this place of a connection's outbox, counted from 0 at the front.
    pub fn waiting(&self, conn: ConnectionId, place: usize) -> Option<&Item>
        ensures { (t : List Entry) → Fits self.now t → option_copied result ≡ slice_get (waiting_of (known t conn.0)) place }
    {
        self.state.waiting(conn.0, place)
    }

    /// Whether a connection is known: it is live, or it is over and its outbox isn't empty.
    pub fn knows(&self, conn: ConnectionId) -> bool
        ensures { (t : List Entry) → Fits self.now t → result ≡ is_some (known t conn.0) }
    {
        self.state.phase(conn.0).is_some()
    }

    /// Whether a connection is live: it is up, and the router didn't end it.
    pub fn is_live(&self, conn: ConnectionId) -> bool
        ensures { (t : List Entry) → Fits self.now t → result ≡ is_live (known t conn.0) }
    {
        self.state.standing(conn.0).is_some()
    }

    /// Whether a connection is ready: an item is waiting in its outbox, or the router ended it.
    pub fn is_ready(&self, conn: ConnectionId) -> bool
        ensures { (t : List Entry) → Fits self.now t → result ≡ is_ready (known t conn.0) }
    {
        self.state.is_ready(conn.0)
    }
}

impl<T: CrashTwin> Core<T> {
    /// After so many calls of the files more, on either side, every call fails, on files that have a fuse.
    pub fn fuse(&mut self, calls: u64)
        ensures rest { self.new ≡ record self.old { store = store_of self.new } }
        ensures stands { Stands T.Twin.seen T.Twin.may_leave (store_of self.old) → Stands T.Twin.seen T.Twin.may_leave (store_of self.new) }
        ensures book { kept_book self.new ≡ kept_book self.old }
        ensures batches { batch_count (journal_of (store_of self.new)) ≡ batch_count (journal_of (store_of self.old)) }
        ensures fits { (t : List Entry) → Fits self.old t → Fits self.new t }
        ensures set { T.lets_through (twin_of (store_of self.new)) ≡ T.fused calls }
        ensures failures { T.Twin.failures (twin_of (store_of self.new)) ≡ T.Twin.failures (twin_of (store_of self.old)) }
    {
        self.store.fuse(calls);
    }
}

/// The acts of the batch that was written, if one was.
pub(crate) fn acts_written(journal: &Written) -> &[Act]
    ensures some { IfSome journal.now (λ batch. result.now ≡ batch.1.items) }
    ensures none { IfNone journal.now (result.now ≡ []) }
{
    match journal {
        None => &[],
        Some((_number, acts)) => acts.as_slice(),
    }
}

/// The reply to an event that was heard, by the book after its acts; then the rows that its attach takes up are bound, or joined to its link, and the
/// rows are settled that its acts forget; and last comes what follows.
fn reply_to(
    state: &mut State,
    id: &RouterId,
    book: &Book,
    event: Event,
    plan: &mut Plan,
    heard: &mut Heard,
    row: Option<RowNumber>,
    acts: &[Act],
) -> Result<(), AllocError>
    ensures { OnOk result ((t : List Entry) → IsReady state.old t event plan.old heard.old → book.now ≡ book_in t → row ≡ row_found t → acts.now ≡ found_acts t → TablesFit state.new (answered id.now t (step_of event))) }
{
    reply(state, id, book, event, plan, row, heard)?;
    take_up(state, book, plan.resumption.take())?;
    free_rows(state, acts)?;
    after(state)
}

//! Events whose batches are held, and written together.
ghost use Rattle.std.specs.Prelude.{◌≡◌, ◌≢◌, ◌⊎◌, ◌+◌, ◌<◌, List, [], true, false, Err, OnOk, OnErr, IfOk, IfErr, IfSome, IfNone, IsErrOf};
ghost use Rattle.disk_core.specs.Disk.{LeavesOnly};
ghost use Rattle.book_model.specs.Book.{BookView, effects};
ghost use Rattle.twin_journal.specs.Held.{held_bytes};
ghost use Rattle.twin_journal.specs.Journal.{batch_count};
ghost use Rattle.journal_store.specs.Store.{OpensTo, Stands, StandsBehind, Writable, IsSuited, journal_of, twin_of, count_of, batches_after};
ghost use Rattle.router_trace.specs.Trace.{Entry, step_of};
ghost use Rattle.reply_rows.specs.Acts.{acts_of, book_after_event, finds_full, journaled};
ghost use Rattle.core_machine.specs.Turns.{declines};
ghost use Rattle.core_machine.specs.Counting.{with_event};
ghost use Rattle.router_core.specs.Replies.{Replies, handled};
ghost use Rattle.router_state.specs.Waiting.{NothingWaits};
ghost use Rattle.router_core.specs.Handling.{Fits, IsTaken, is_failed, id_of, store_of, kept_book, state_of, counts_of, LeftBook};
ghost use Rattle.core_machine.specs.declared.fault.CoreFault.TheVariants.{Disk as DiskFailed, Memory, Failed, NoConnection};

use crate::router::{Core, Written, acts_written};
use amqp_conn::Conn;
use book_model::Act;
use core_machine::{CoreFault, Done};
use disk_core::Twin;
use reply_rows::{Plan, row_in};
use router_reply::Heard;
use router_trace::Event;
use twin_journal::JournalFault;

impl<T: Twin> Core<T> {
    /// Handles an event as `handle` does, but holds its batch, behind those that are held already: `write_held` writes it. Nothing that the event puts out may be
    /// taken before that. Where a checkpoint is due before the batch, what is held is written first, and then the checkpoint is made. Faults are as with `handle`.
    pub fn hold(&mut self, event: Event) -> Result<Done, CoreFault>
        // The trace continues with the event and its replies.
        ensures fits { OnOk result ((t : List Entry) → Fits self.old t → (u : List Entry) × Replies (id_of self.old) t (step_of event) u × Fits self.new u) }
        ensures taken { OnOk result ((t : List Entry) → Fits self.old t → declines t event ≡ false) }
        ensures works { OnOk result (is_failed self.new ≡ false) }
        ensures named { id_of self.new ≡ id_of self.old }

        // The event's acts are done to the book, and held as one batch; where there are none, nothing is held. The files keep the book that they kept; or, where a
        // checkpoint was due, the book before the event.
        ensures behind { OnOk result ((kept : BookView) → StandsBehind T.seen T.may_leave (store_of self.old) kept
            → StandsBehind T.seen T.may_leave (store_of self.new) kept ⊎ StandsBehind T.seen T.may_leave (store_of self.new) (kept_book self.old)) }
        ensures book { OnOk result ((t : List Entry) → Fits self.old t → kept_book self.new ≡ book_after_event t event) }
        ensures written { IfOk result (λ done. (t : List Entry) → Fits self.old t → IfSome done.journal (λ batch.
            (batch.0 ≡ batch_count (journal_of (store_of self.old)) + 1) × (batch.1.items ≡ acts_of t event))) }
        ensures some_acts { IfOk result (λ done. IfSome done.journal (λ batch. batch.1.items ≢ [])) }
        ensures silent { IfOk result (λ done. (t : List Entry) → Fits self.old t → IfNone done.journal (acts_of t event ≡ [])) }
        ensures full { IfOk result (λ done. (t : List Entry) → Fits self.old t → done.full ≡ finds_full (journaled t) t event) }

        // Whatever is answered, a crash at any moment of the call leaves the book that the files kept, or the book before the event; and after a fault of the
        // disk or of memory no item waits in any outbox.
        ensures any_moment { (kept : BookView) → StandsBehind T.seen T.may_leave (store_of self.old) kept
            → LeavesOnly T.moment T.left_since (twin_of (store_of self.old)) (twin_of (store_of self.new)) (λ c. OpensTo c kept ⊎ OpensTo c (kept_book self.old)) }
        ensures given_up { OnErr result (is_failed self.old ≡ false → is_failed self.new ≡ true → NothingWaits (state_of self.new)) }

        // One more event is counted exactly if the call answers Ok.
        ensures counted { OnOk result (counts_of self.new ≡ with_event event (counts_of self.old)) }
        ensures uncounted { OnErr result (counts_of self.new ≡ counts_of self.old) }

        // A fault leaves the book as it was before the event, or as it is after it.
        ensures left { OnErr result ((t : List Entry) → Fits self.old t → LeftBook t event (kept_book self.new)) }

        // Which fault occurs, and what it leaves.
        ensures refused { IfErr result (λ f. f ≡ NoConnection → (self.new ≡ self.old) × ((t : List Entry) → Fits self.old t → declines t event ≡ true)) }
        ensures refuses { (t : List Entry) → Fits self.old t → is_failed self.old ≡ false → declines t event ≡ true → result ≡ Err NoConnection }
        ensures failed { is_failed self.old ≡ true → result ≡ Err Failed }
        ensures unchanged { IfErr result (λ f. f ≡ Failed → (self.new ≡ self.old) × (is_failed self.old ≡ true)) }
        ensures memory { IfErr result (λ f. f ≡ Memory → is_failed self.new ≡ true) }
        ensures disk { IfErr result (λ f. f ≡ DiskFailed → is_failed self.new ≡ true) }

        // The disk failed meanwhile exactly where `Disk` is answered.
        ensures cause { IfErr result (λ f. f ≡ DiskFailed → T.failures (twin_of (store_of self.old)) < T.failures (twin_of (store_of self.new))) }
        ensures no_other { (IsErrOf result DiskFailed → ⊥) → T.failures (twin_of (store_of self.new)) ≡ T.failures (twin_of (store_of self.old)) }
    {
        if self.failed {
            drop(event);
            return Err(CoreFault::Failed);
        }
        let Ok(phase) = self.phase_before(&event) else {
            drop(event);
            return Err(CoreFault::NoConnection);
        };
        match self.hold_out(event, phase) {
            Ok(done) => Ok(done),
            Err(fault) => {
                self.state.give_up();
                self.failed = true;
                Err(fault)
            }
        }
    }

    /// Handles an event that is not declined, which finds its item's connection in this phase: it is decided and heard, its acts are held as
    /// one batch, and then it is answered.
    fn hold_out(&mut self, event: Event, phase: Option<Conn>) -> Result<Done, CoreFault>
        ensures fits { OnOk result ((t : List Entry) → Fits self.old t → IsTaken t event phase → Fits self.new (handled (id_of self.old) t (step_of event))) }
        ensures works { is_failed self.new ≡ is_failed self.old }
        ensures named { id_of self.new ≡ id_of self.old }
        ensures behind { OnOk result ((kept : BookView) → StandsBehind T.seen T.may_leave (store_of self.old) kept
            → StandsBehind T.seen T.may_leave (store_of self.new) kept ⊎ StandsBehind T.seen T.may_leave (store_of self.new) (kept_book self.old)) }
        ensures book { OnOk result ((t : List Entry) → Fits self.old t → IsTaken t event phase → kept_book self.new ≡ book_after_event t event) }
        ensures written { IfOk result (λ done. (t : List Entry) → Fits self.old t → IsTaken t event phase → IfSome done.journal (λ batch.
            (batch.0 ≡ batch_count (journal_of (store_of self.old)) + 1) × (batch.1.items ≡ acts_of t event))) }
        ensures some_acts { IfOk result (λ done. IfSome done.journal (λ batch. batch.1.items ≢ [])) }
        ensures silent { IfOk result (λ done. (t : List Entry) → Fits self.old t → IsTaken t event phase → IfNone done.journal (acts_of t event ≡ [])) }
        ensures full { IfOk result (λ done. (t : List Entry) → Fits self.old t → IsTaken t event phase → done.full ≡ finds_full (journaled t) t event) }
        ensures any_moment { (kept : BookView) → StandsBehind T.seen T.may_leave (store_of self.old) kept
            → LeavesOnly T.moment T.left_since (twin_of (store_of self.old)) (twin_of (store_of self.new)) (λ c. OpensTo c kept ⊎ OpensTo c (kept_book self.old)) }
        ensures counted { OnOk result (counts_of self.new ≡ with_event event (counts_of self.old)) }
        ensures uncounted { OnErr result (counts_of self.new ≡ counts_of self.old) }
        ensures left { OnErr result ((t : List Entry) → Fits self.old t → IsTaken t event phase → LeftBook t event (kept_book self.new)) }
        ensures not_refused { IfErr result (λ f. f ≢ NoConnection) }
        ensures not_failed { IfErr result (λ f. f ≢ Failed) }
        ensures cause { IfErr result (λ f. f ≡ DiskFailed → T.failures (twin_of (store_of self.old)) < T.failures (twin_of (store_of self.new))) }
        ensures no_other { (IsErrOf result DiskFailed → ⊥) → T.failures (twin_of (store_of self.new)) ≡ T.failures (twin_of (store_of self.old)) }
    {
        let mut plan = Plan::nothing(self.alloc);
        let mut heard = Heard::nothing(self.alloc);
        let Ok(()) = self.decide(&event, phase, &mut plan) else {
            drop(event);
            return Err(CoreFault::Memory);
        };
        let Ok(()) = self.hear(&event, &mut plan, &mut heard) else {
            drop(event);
            return Err(CoreFault::Memory);
        };
        let full = plan.full;
        let row = row_in(&plan.acts);
        let journal = match self.hold_acts(plan.take_acts(self.alloc)) {
            Ok(journal) => journal,
            Err(fault) => {
                drop(event);
                return Err(fault);
            }
        };
        let Ok(()) = self.answer(event, &mut plan, &mut heard, row, acts_written(&journal)) else {
            drop(journal);
            return Err(CoreFault::Memory);
        };
        Ok(Done { journal, full })
    }

    /// Holds the acts of an event as one batch; where there are none, nothing is held.
    fn hold_acts(&mut self, acts: Vec<Act>) -> Result<Written, CoreFault>
        requires writable { Writable (kept_book self.old) acts.items }
        ensures rest { self.new ≡ record self.old { store = store_of self.new } }
        ensures behind { OnOk result ((kept : BookView) → StandsBehind T.seen T.may_leave (store_of self.old) kept
            → StandsBehind T.seen T.may_leave (store_of self.new) kept ⊎ StandsBehind T.seen T.may_leave (store_of self.new) (kept_book self.old)) }
        ensures book { OnOk result (kept_book self.new ≡ effects (kept_book self.old) acts.items) }
        ensures count { OnOk result (count_of (store_of self.new) ≡ batches_after (count_of (store_of self.old)) acts.items) }
        ensures suits { OnOk result (IsSuited (store_of self.old) → IsSuited (store_of self.new)) }
        ensures written { IfOk result (λ w. IfSome w (λ batch. (batch.0 ≡ batch_count (journal_of (store_of self.old)) + 1) × (batch.1.items ≡ acts.items))) }
        ensures some_acts { IfOk result (λ w. IfSome w (λ batch. batch.1.items ≢ [])) }
        ensures silent { IfOk result (λ w. IfNone w (acts.items ≡ [])) }
        ensures any_moment { (kept : BookView) → StandsBehind T.seen T.may_leave (store_of self.old) kept
            → LeavesOnly T.moment T.left_since (twin_of (store_of self.old)) (twin_of (store_of self.new)) (λ c. OpensTo c kept ⊎ OpensTo c (kept_book self.old)) }
        ensures unwritten { OnErr result (kept_book self.new ≡ kept_book self.old) }
        ensures not_refused { IfErr result (λ f. f ≢ NoConnection) }
        ensures not_failed { IfErr result (λ f. f ≢ Failed) }
        ensures cause { IfErr result (λ f. f ≡ DiskFailed → T.failures (twin_of (store_of self.old)) < T.failures (twin_of (store_of self.new))) }
        ensures no_other { (IsErrOf result DiskFailed → ⊥) → T.failures (twin_of (store_of self.new)) ≡ T.failures (twin_of (store_of self.old)) }
    {
        match self.store.hold(acts) {
            Ok(batch) => Ok(batch),
            Err(JournalFault::Disk) => Err(CoreFault::Disk),
            Err(_) => Err(CoreFault::Memory),
        }
    }

    /// Writes the batches that are held, by the calls of one append: the files keep the book then, and nothing is held. Where nothing is held, nothing is done. It
    /// answers `Failed` exactly if an earlier call answered `Disk` or `Memory`, and changes nothing then. After `Disk` and `Memory` the router is failed, and
    /// is to be opened again.
    pub fn write_held(&mut self) -> Result<(), CoreFault>
        // It is the same router.
        ensures fits { OnOk result ((t : List Entry) → Fits self.old t → Fits self.new t) }
        ensures works { OnOk result (is_failed self.new ≡ false) }
        ensures named { id_of self.new ≡ id_of self.old }

        // Its files keep its book.
        ensures stands { OnOk result ((kept : BookView) → StandsBehind T.seen T.may_leave (store_of self.old) kept → Stands T.seen T.may_leave (store_of self.new)) }
        ensures book { kept_book self.new ≡ kept_book self.old }
        ensures batches { OnOk result (count_of (store_of self.new) ≡ count_of (store_of self.old)) }
        ensures counts { counts_of self.new ≡ counts_of self.old }

        // Whatever is answered, a crash at any moment of the call leaves the book that the files kept, or the router's own; and after a fault of the disk or
        // of memory no item waits in any outbox.
        ensures any_moment { (kept : BookView) → StandsBehind T.seen T.may_leave (store_of self.old) kept
            → LeavesOnly T.moment T.left_since (twin_of (store_of self.old)) (twin_of (store_of self.new)) (λ c. OpensTo c kept ⊎ OpensTo c (kept_book self.old)) }
        ensures given_up { OnErr result (is_failed self.old ≡ false → is_failed self.new ≡ true → NothingWaits (state_of self.new)) }

        // Which fault occurs, and what it leaves.
        ensures taken { IfErr result (λ f. f ≡ NoConnection → ⊥) }
        ensures failed { is_failed self.old ≡ true → result ≡ Err Failed }
        ensures unchanged { IfErr result (λ f. f ≡ Failed → (self.new ≡ self.old) × (is_failed self.old ≡ true)) }
        ensures memory { IfErr result (λ f. f ≡ Memory → is_failed self.new ≡ true) }
        ensures disk { IfErr result (λ f. f ≡ DiskFailed → is_failed self.new ≡ true) }

        // The disk failed meanwhile exactly where `Disk` is answered.
        ensures cause { IfErr result (λ f. f ≡ DiskFailed → T.failures (twin_of (store_of self.old)) < T.failures (twin_of (store_of self.new))) }
        ensures no_other { (IsErrOf result DiskFailed → ⊥) → T.failures (twin_of (store_of self.new)) ≡ T.failures (twin_of (store_of self.old)) }
    {
        if self.failed {
            return Err(CoreFault::Failed);
        }
        match self.write_batches() {
            Ok(()) => Ok(()),
            Err(fault) => {
                self.state.give_up();
                self.failed = true;
                Err(fault)
            }
        }
    }

    /// Writes the batches that are held.
    fn write_batches(&mut self) -> Result<(), CoreFault>
        ensures rest { self.new ≡ record self.old { store = store_of self.new } }
        ensures stands { OnOk result ((kept : BookView) → StandsBehind T.seen T.may_leave (store_of self.old) kept → Stands T.seen T.may_leave (store_of self.new)) }
        ensures book { kept_book self.new ≡ kept_book self.old }
        ensures count { OnOk result (count_of (store_of self.new) ≡ count_of (store_of self.old)) }
        ensures suits { IsSuited (store_of self.old) → IsSuited (store_of self.new) }
        ensures any_moment { (kept : BookView) → StandsBehind T.seen T.may_leave (store_of self.old) kept
            → LeavesOnly T.moment T.left_since (twin_of (store_of self.old)) (twin_of (store_of self.new)) (λ c. OpensTo c kept ⊎ OpensTo c (kept_book self.old)) }
        ensures not_refused { IfErr result (λ f. f ≢ NoConnection) }
        ensures not_failed { IfErr result (λ f. f ≢ Failed) }
        ensures cause { IfErr result (λ f. f ≡ DiskFailed → T.failures (twin_of (store_of self.old)) < T.failures (twin_of (store_of self.new))) }
        ensures no_other { (IsErrOf result DiskFailed → ⊥) → T.failures (twin_of (store_of self.new)) ≡ T.failures (twin_of (store_of self.old)) }
    {
        match self.store.write_held() {
            Ok(()) => Ok(()),
            Err(JournalFault::Disk) => Err(CoreFault::Disk),
            Err(_) => Err(CoreFault::Memory),
        }
    }

    /// How many bytes the batches have that are held, with the gates before them.
    pub fn held(&self) -> usize
        ensures number { (kept : BookView) (behind : StandsBehind T.seen T.may_leave (store_of self.now) kept) → result ≡ held_bytes behind.held }
        ensures none { result ≡ 0 → (kept : BookView) → StandsBehind T.seen T.may_leave (store_of self.now) kept → Stands T.seen T.may_leave (store_of self.now) }
    {
        self.store.held()
    }
}

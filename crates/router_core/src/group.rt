//! Events that are handled one after another, and written together.
ghost use Rattle.std.specs.Prelude.{◌≡◌, ◌⊎◌, ◌<◌, ◌≤◌, ◌∷◌, ◌++◌, List, [], true, false, length, Err, OnOk, OnErr, IfOk, IfErr, IsErrOf};
ghost use Rattle.disk_core.specs.Disk.{LeavesOnly};
ghost use Rattle.book_model.specs.Book.{BookView};
ghost use Rattle.journal_store.specs.Store.{OpensTo, Stands, StandsBehind, twin_of};
ghost use Rattle.router_trace.specs.Trace.{Entry, step_of};
ghost use Rattle.core_machine.specs.declared.answers.Done.{Done as ADone};
ghost use Rattle.core_machine.specs.Counting.{with_event};
ghost use Rattle.core_machine.specs.Turns.{declines};
ghost use Rattle.router_core.specs.Groups.{HandlesGroup, IsFirstBook, IsTold, LeavesFirst};
ghost use Rattle.router_core.specs.Replies.{handled, handled_all};
ghost use Rattle.router_state.specs.Waiting.{NothingWaits};
ghost use Rattle.router_core.specs.Handling.{Fits, is_failed, id_of, store_of, kept_book, state_of, counts_of};
ghost use Rattle.core_machine.specs.declared.fault.CoreFault.TheVariants.{Disk as DiskFailed, Memory, Failed, NoConnection};

use crate::router::Core;
use core_machine::{CoreFault, Done};
use disk_core::Twin;
use router_trace::Event;
use std::collections::VecDeque;

impl<T: Twin> Core<T> {
    /// Handles events from the front of a queue, in order, and then writes the batches of all of them together: at most `most` events, and none after one that is
    /// declined, which is dropped. Gives what is told of each that was handled.
    ///
    /// It answers `Failed` exactly if an earlier call answered `Disk` or `Memory`, and changes nothing then. After `Disk` and `Memory` the router is failed, and is to be
    /// opened again; the events that left the queue are lost.
    pub fn handle_all(
        &mut self,
        events: &mut VecDeque<Event>,
        most: usize,
    ) -> Result<Vec<Done>, CoreFault>
        // The trace continues with these events, each with its replies.
        ensures fits { IfOk result (λ done. (t : List Entry) → Fits self.old t
            → (group : HandlesGroup (id_of self.old) t events.old.items events.new.items most done.items (counts_of self.old) (counts_of self.new))
            × Fits self.new (handled_all (id_of self.old) t group.first)) }
        ensures most { IfOk result (λ done. length done.items ≤ most) }
        ensures works { OnOk result (is_failed self.new ≡ false) }
        ensures named { id_of self.new ≡ id_of self.old }

        // All of their batches stand in the files. Whatever is answered, a crash at any moment of the call leaves the book after some first ones of the events;
        // and after a fault of the disk or of memory no item waits in any outbox.
        ensures stands { OnOk result (Stands T.seen T.may_leave (store_of self.old) → Stands T.seen T.may_leave (store_of self.new)) }
        ensures any_moment { (t : List Entry) → Fits self.old t → Stands T.seen T.may_leave (store_of self.old)
            → LeavesOnly T.moment T.left_since (twin_of (store_of self.old)) (twin_of (store_of self.new)) (LeavesFirst (id_of self.old) t events.old.items) }
        ensures given_up { OnErr result (is_failed self.old ≡ false → NothingWaits (state_of self.new)) }

        // Which fault occurs, and what it leaves.
        ensures taken { IfErr result (λ f. f ≡ NoConnection → ⊥) }
        ensures failed { is_failed self.old ≡ true → result ≡ Err Failed }
        ensures unchanged { IfErr result (λ f. f ≡ Failed → (self.new ≡ self.old) × (events.new.items ≡ events.old.items) × (is_failed self.old ≡ true)) }
        ensures memory { IfErr result (λ f. f ≡ Memory → is_failed self.new ≡ true) }
        ensures disk { IfErr result (λ f. f ≡ DiskFailed → is_failed self.new ≡ true) }

        // The disk failed meanwhile exactly where `Disk` is answered.
        ensures cause { IfErr result (λ f. f ≡ DiskFailed → T.failures (twin_of (store_of self.old)) < T.failures (twin_of (store_of self.new))) }
        ensures no_other { (IsErrOf result DiskFailed → ⊥) → T.failures (twin_of (store_of self.new)) ≡ T.failures (twin_of (store_of self.old)) }
    {
        if self.failed {
            return Err(CoreFault::Failed);
        }
        let done = match self.hold_all(events, most) {
            Ok(done) => done,
            Err(fault) => return Err(fault),
        };
        match self.write_held() {
            Ok(()) => Ok(done),
            Err(fault) => {
                drop(done);
                Err(fault)
            }
        }
    }

    /// Handles events from the front of a queue, and holds their batches: at most `most` events, and none after one that is declined, which is dropped.
    fn hold_all(
        &mut self,
        events: &mut VecDeque<Event>,
        most: usize,
    ) -> Result<Vec<Done>, CoreFault>
        requires works { is_failed self.old ≡ false }
        ensures fits { IfOk result (λ done. (t : List Entry) → Fits self.old t
            → (group : HandlesGroup (id_of self.old) t events.old.items events.new.items most done.items (counts_of self.old) (counts_of self.new))
            × Fits self.new (handled_all (id_of self.old) t group.first)) }
        ensures most { IfOk result (λ done. length done.items ≤ most) }
        ensures works { OnOk result (is_failed self.new ≡ false) }
        ensures named { id_of self.new ≡ id_of self.old }
        ensures behind { OnOk result (Stands T.seen T.may_leave (store_of self.old) → (kept : BookView) × StandsBehind T.seen T.may_leave (store_of self.new) kept) }
        ensures kept { OnOk result ((t : List Entry) → Fits self.old t → Stands T.seen T.may_leave (store_of self.old)
            → (kept : BookView) × IsFirstBook (id_of self.old) t events.old.items kept × StandsBehind T.seen T.may_leave (store_of self.new) kept) }
        ensures any_moment { (t : List Entry) → Fits self.old t → Stands T.seen T.may_leave (store_of self.old)
            → LeavesOnly T.moment T.left_since (twin_of (store_of self.old)) (twin_of (store_of self.new)) (LeavesFirst (id_of self.old) t events.old.items) }
        ensures given_up { OnErr result (NothingWaits (state_of self.new)) }
        ensures fails { OnErr result (is_failed self.new ≡ true) }
        ensures taken { IfErr result (λ f. f ≡ NoConnection → ⊥) }
        ensures not_failed { IfErr result (λ f. f ≡ Failed → ⊥) }
        ensures cause { IfErr result (λ f. f ≡ DiskFailed → T.failures (twin_of (store_of self.old)) < T.failures (twin_of (store_of self.new))) }
        ensures no_other { (IsErrOf result DiskFailed → ⊥) → T.failures (twin_of (store_of self.new)) ≡ T.failures (twin_of (store_of self.old)) }
    {
        let mut done = Vec::new(self.alloc);
        for _turn in 0..most {
            let Some(event) = events.pop_front() else {
                return Ok(done);
            };
            let held = match self.hold_into(event, &mut done) {
                Ok(held) => held,
                Err(fault) => {
                    drop(done);
                    return Err(fault);
                }
            };
            if !held {
                return Ok(done);
            }
        }
        Ok(done)
    }

    /// Handles an event, holds its batch, and adds what is told of it; gives whether it isn't declined.
    fn hold_into(&mut self, event: Event, done: &mut Vec<Done>) -> Result<bool, CoreFault>
        requires works { is_failed self.old ≡ false }
        ensures fits { IfOk result (λ held. held ≡ true → (t : List Entry) → Fits self.old t → Fits self.new (handled (id_of self.old) t (step_of event))) }
        ensures in_turn { IfOk result (λ held. held ≡ true → (t : List Entry) → Fits self.old t → declines t event ≡ false) }
        ensures told { IfOk result (λ held. held ≡ true → (d : ADone) × (done.new.items ≡ done.old.items ++ d ∷ []) × ((t : List Entry) → Fits self.old t → IsTold t event d)) }
        ensures counted { IfOk result (λ held. held ≡ true → counts_of self.new ≡ with_event event (counts_of self.old)) }
        ensures works { OnOk result (is_failed self.new ≡ false) }
        ensures behind { IfOk result (λ held. held ≡ true → (kept : BookView) → StandsBehind T.seen T.may_leave (store_of self.old) kept
            → StandsBehind T.seen T.may_leave (store_of self.new) kept ⊎ StandsBehind T.seen T.may_leave (store_of self.new) (kept_book self.old)) }
        ensures declined { IfOk result (λ held. held ≡ false → (self.new ≡ self.old) × (done.new.items ≡ done.old.items) × ((t : List Entry) → Fits self.old t → declines t event ≡ true)) }
        ensures named { id_of self.new ≡ id_of self.old }
        ensures any_moment { (kept : BookView) → StandsBehind T.seen T.may_leave (store_of self.old) kept
            → LeavesOnly T.moment T.left_since (twin_of (store_of self.old)) (twin_of (store_of self.new)) (λ c. OpensTo c kept ⊎ OpensTo c (kept_book self.old)) }
        ensures given_up { OnErr result (NothingWaits (state_of self.new)) }
        ensures fails { OnErr result (is_failed self.new ≡ true) }
        ensures taken { IfErr result (λ f. f ≡ NoConnection → ⊥) }
        ensures not_failed { IfErr result (λ f. f ≡ Failed → ⊥) }
        ensures cause { IfErr result (λ f. f ≡ DiskFailed → T.failures (twin_of (store_of self.old)) < T.failures (twin_of (store_of self.new))) }
        ensures no_other { (IsErrOf result DiskFailed → ⊥) → T.failures (twin_of (store_of self.new)) ≡ T.failures (twin_of (store_of self.old)) }
    {
        match self.hold(event) {
            Ok(told) => {
                if let Err(left) = done.push(told) {
                    drop(left);
                    self.state.give_up();
                    self.failed = true;
                    return Err(CoreFault::Memory);
                }
                Ok(true)
            }
            Err(CoreFault::NoConnection) => Ok(false),
            Err(CoreFault::Memory) => Err(CoreFault::Memory),
            Err(CoreFault::Failed) => Err(CoreFault::Failed),
            Err(CoreFault::Disk) => Err(CoreFault::Disk),
        }
    }
}

//! What a router does, whatever it is made of.
ghost use Rattle.std.specs.Prelude.{◌≡◌, ◌⊎◌, ◌+◌, ◌<◌, ◌≤◌, ◌∷◌, ◌&&◌, ◌||◌, not, nat_lt, [], length, slice_get, true, false, Err, None, option_copied, option_map, is_some, OnOk, OnErr, IfOk, IfErr, IfSome, IfNone, IsErrOf};
ghost use Rattle.book_model.specs.Book.{BookView};
ghost use Rattle.router_trace.specs.Trace.{Trace, Took, step_of};
ghost use Rattle.router_trace.specs.Connection.{conn as known, is_ready, is_live};
ghost use Rattle.core_machine.specs.Counting.{with_event, with_batch};
ghost use Rattle.core_machine.specs.Meaning.{Meaning, BookAt, EitherOf, KeptAt, IsBatchOf, IsTakenOf, IsLeast};
ghost use Rattle.core_machine.specs.Moves.{waiting_of};
ghost use Rattle.core_machine.specs.Turns.{declines, is_started};
ghost use Rattle.core_machine.specs.declared.fault.CoreFault.TheVariants.{Disk as DiskFailed, Memory, Failed, NoConnection};

use crate::answers::{Batch, Done};
use crate::counts::Counts;
use crate::fault::CoreFault;
use amqp_model::Item;
use router_trace::{ConnectionId, Event};
use state_connections::Taken;

/// A router: it handles one event at a time, and the items that it puts out are taken. What it knows durably stands in a book that a journal keeps.
///
/// After an answer `Disk` or `Memory` it is failed: it answers `Failed` from then on, and is to be opened again from its journal.
pub trait Machine: Drop {
    /// What it means for a trace to be that of a router, for a journal to keep its book, and what comes next.
    ghost meaning: { Meaning Self };

    /// Handles an event. `Start` comes first, and once. It answers `NoConnection` exactly if the event comes out of this turn, is about a
    /// connection that isn't live, or about a new one whose number doesn't rise, and `Failed` exactly if it is failed; both change nothing.
    ///
    /// What the event does to the book is written to the journal, as one batch, before any of its items is put out.
    fn handle(&mut self, event: Event) -> Result<Done, CoreFault>
        // The trace continues with the event and its replies.
        ensures fits { OnOk result ((t : Trace) → meaning.fits self.old t → meaning.fits self.new (meaning.next (meaning.id self.old) t (step_of event))) }
        ensures taken { OnOk result ((t : Trace) → meaning.fits self.old t → declines t event ≡ false) }
        ensures started { OnOk result ((t : Trace) → meaning.fits self.old t → is_started (meaning.next (meaning.id self.old) t (step_of event)) ≡ true) }
        ensures works { OnOk result (meaning.is_failed self.new ≡ false) }
        ensures named { meaning.id self.new ≡ meaning.id self.old }

        // Its journal has one batch more, or none; then it keeps the next book. Whatever is answered, a crash leaves the book before the event or
        // the book after it.
        ensures batches { OnOk result ((t : Trace) → meaning.fits self.old t
            → (meaning.batches self.new ≡ meaning.batches self.old) ⊎ (meaning.batches self.new ≡ meaning.batches self.old + 1)) }
        ensures keeps { OnOk result ((t : Trace) → meaning.fits self.old t → meaning.keeps self.old (meaning.book t)
            → meaning.keeps self.new (meaning.book (meaning.next (meaning.id self.old) t (step_of event)))) }
        ensures leaves { (t : Trace) → meaning.fits self.old t → meaning.keeps self.old (meaning.book t)
            → meaning.leaves self.new (BookAt meaning t event) }

        // Its batch has the event's acts; where there are none, nothing is written. Whatever is answered, a crash leaves the journal before the event, or that
        // journal with this batch more.
        ensures written { IfOk result (λ done. (t : Trace) → meaning.fits self.old t → IfSome done.journal (λ batch. batch.1.items ≡ meaning.acts t event)) }
        ensures silent { IfOk result (λ done. (t : Trace) → meaning.fits self.old t → IfNone done.journal (meaning.acts t event ≡ [])) }
        ensures journal { (t : Trace) → meaning.fits self.old t → meaning.keeps self.old (meaning.book t)
            → meaning.leaves_journal self.new (KeptAt meaning (meaning.batches self.old) t event) }

        // Whether the event found the journal full.
        ensures full { IfOk result (λ done. (t : Trace) → meaning.fits self.old t → done.full ≡ meaning.finds_full t event) }

        // One more event is counted exactly if the call answers Ok.
        ensures counted { OnOk result (meaning.counts self.new ≡ with_event event (meaning.counts self.old)) }
        ensures uncounted { OnErr result (meaning.counts self.new ≡ meaning.counts self.old) }

        // Which fault occurs, and what it leaves.
        ensures refused { IfErr result (λ f. f ≡ NoConnection → (self.new ≡ self.old) × ((t : Trace) → meaning.fits self.old t → declines t event ≡ true)) }
        ensures refuses { (t : Trace) → meaning.fits self.old t → meaning.is_failed self.old ≡ false → declines t event ≡ true → result ≡ Err NoConnection }
        ensures failed { meaning.is_failed self.old ≡ true → result ≡ Err Failed }
        ensures unchanged { IfErr result (λ f. f ≡ Failed → (self.new ≡ self.old) × (meaning.is_failed self.old ≡ true)) }
        ensures memory { IfErr result (λ f. f ≡ Memory → meaning.is_failed self.new ≡ true) }
        ensures disk { IfErr result (λ f. f ≡ DiskFailed → meaning.is_failed self.new ≡ true) }

        // The disk failed meanwhile exactly where `Disk` is answered.
        ensures cause { IfErr result (λ f. f ≡ DiskFailed → meaning.failures self.old < meaning.failures self.new) }
        ensures no_other { (IsErrOf result DiskFailed → ⊥) → meaning.failures self.new ≡ meaning.failures self.old };

    /// Handles an event as `handle` does, but holds its batch, behind those that are held already: `write_held` writes it. Where a checkpoint is due before the
    /// batch, what is held is written first, and then the checkpoint is made; nothing else of the disk is asked for.
    fn hold(&mut self, event: Event) -> Result<Done, CoreFault>
        // The trace continues with the event and its replies.
        ensures fits { OnOk result ((t : Trace) → meaning.fits self.old t → meaning.fits self.new (meaning.next (meaning.id self.old) t (step_of event))) }
        ensures taken { OnOk result ((t : Trace) → meaning.fits self.old t → declines t event ≡ false) }
        ensures started { OnOk result ((t : Trace) → meaning.fits self.old t → is_started (meaning.next (meaning.id self.old) t (step_of event)) ≡ true) }
        ensures works { OnOk result (meaning.is_failed self.new ≡ false) }
        ensures named { meaning.id self.new ≡ meaning.id self.old }

        // Its journal has one batch more, or none. Its files keep the book that they kept, or, after a checkpoint, the book before the event. Whatever is
        // answered, a crash leaves one of the two.
        ensures batches { OnOk result ((t : Trace) → meaning.fits self.old t
            → (meaning.batches self.new ≡ meaning.batches self.old) ⊎ (meaning.batches self.new ≡ meaning.batches self.old + 1)) }
        ensures holds { OnOk result ((t : Trace) (b : BookView) → meaning.fits self.old t → meaning.holds self.old b
            → meaning.holds self.new b ⊎ meaning.holds self.new (meaning.book t)) }
        ensures leaves { (t : Trace) (b : BookView) → meaning.fits self.old t → meaning.holds self.old b
            → meaning.leaves self.new (EitherOf b (meaning.book t)) }

        // Its batch has the event's acts; where there are none, nothing is held for it.
        ensures written { IfOk result (λ done. (t : Trace) → meaning.fits self.old t → IfSome done.journal (λ batch. batch.1.items ≡ meaning.acts t event)) }
        ensures silent { IfOk result (λ done. (t : Trace) → meaning.fits self.old t → IfNone done.journal (meaning.acts t event ≡ [])) }

        // Whether the event found the journal full.
        ensures full { IfOk result (λ done. (t : Trace) → meaning.fits self.old t → done.full ≡ meaning.finds_full t event) }

        // One more event is counted exactly if the call answers Ok.
        ensures counted { OnOk result (meaning.counts self.new ≡ with_event event (meaning.counts self.old)) }
        ensures uncounted { OnErr result (meaning.counts self.new ≡ meaning.counts self.old) }

        // Which fault occurs, and what it leaves.
        ensures refused { IfErr result (λ f. f ≡ NoConnection → (self.new ≡ self.old) × ((t : Trace) → meaning.fits self.old t → declines t event ≡ true)) }
        ensures refuses { (t : Trace) → meaning.fits self.old t → meaning.is_failed self.old ≡ false → declines t event ≡ true → result ≡ Err NoConnection }
        ensures failed { meaning.is_failed self.old ≡ true → result ≡ Err Failed }
        ensures unchanged { IfErr result (λ f. f ≡ Failed → (self.new ≡ self.old) × (meaning.is_failed self.old ≡ true)) }
        ensures memory { IfErr result (λ f. f ≡ Memory → meaning.is_failed self.new ≡ true) }
        ensures disk { IfErr result (λ f. f ≡ DiskFailed → meaning.is_failed self.new ≡ true) }

        // The disk failed meanwhile exactly where `Disk` is answered.
        ensures cause { IfErr result (λ f. f ≡ DiskFailed → meaning.failures self.old < meaning.failures self.new) }
        ensures no_other { (IsErrOf result DiskFailed → ⊥) → meaning.failures self.new ≡ meaning.failures self.old };

    /// Writes the batches that are held, by the calls of one append: all of them stand then, and nothing is held. Where nothing is held, nothing is done. It answers
    /// `Failed` exactly if it is failed, and changes nothing then.
    fn write_held(&mut self) -> Result<(), CoreFault>
        // It is the same router, whose journal keeps its book. Whatever is answered, a crash leaves the book that the files kept, or the router's own.
        ensures fits { OnOk result ((t : Trace) → meaning.fits self.old t → meaning.fits self.new t) }
        ensures works { OnOk result (meaning.is_failed self.new ≡ false) }
        ensures named { meaning.id self.new ≡ meaning.id self.old }
        ensures batches { OnOk result (meaning.batches self.new ≡ meaning.batches self.old) }
        ensures keeps { OnOk result ((t : Trace) (b : BookView) → meaning.fits self.old t → meaning.holds self.old b → meaning.keeps self.new (meaning.book t)) }
        ensures leaves { (t : Trace) (b : BookView) → meaning.fits self.old t → meaning.holds self.old b
            → meaning.leaves self.new (EitherOf b (meaning.book t)) }
        ensures counts { meaning.counts self.new ≡ meaning.counts self.old }

        // Which fault occurs, and what it leaves.
        ensures taken { IfErr result (λ f. f ≡ NoConnection → ⊥) }
        ensures failed { meaning.is_failed self.old ≡ true → result ≡ Err Failed }
        ensures unchanged { IfErr result (λ f. f ≡ Failed → (self.new ≡ self.old) × (meaning.is_failed self.old ≡ true)) }
        ensures memory { IfErr result (λ f. f ≡ Memory → meaning.is_failed self.new ≡ true) }
        ensures disk { IfErr result (λ f. f ≡ DiskFailed → meaning.is_failed self.new ≡ true) }

        // The disk failed meanwhile exactly where `Disk` is answered.
        ensures cause { IfErr result (λ f. f ≡ DiskFailed → meaning.failures self.old < meaning.failures self.new) }
        ensures no_other { (IsErrOf result DiskFailed → ⊥) → meaning.failures self.new ≡ meaning.failures self.old };

    /// How many bytes of batches are held.
    fn held(&self) -> usize
        ensures { (t : Trace) (b : BookView) → result ≡ 0 → meaning.fits self.now t → meaning.holds self.now b → meaning.keeps self.now (meaning.book t) };

    /// Takes up to `most` items from the outbox of a connection, in order: for [`take`], which makes a batch of them. It answers `NoConnection` exactly if the connection is unknown, and
    /// `Failed` exactly if it is failed; both change nothing. After `Memory` it is failed.
    fn take_items(&mut self, conn: ConnectionId, most: usize) -> Result<Taken, CoreFault>
        // The trace continues with the items taken.
        ensures fits { IfOk result (λ taken. (t : Trace) → meaning.fits self.old t → meaning.fits self.new (Took conn.0 (length taken.items.items) ∷ t)) }
        ensures taken { IfOk result (λ taken. (t : Trace) → meaning.fits self.old t → IsTakenOf (known t conn.0) most taken) }
        ensures most { IfOk result (λ taken. length taken.items.items ≤ most) }
        ensures works { OnOk result (meaning.is_failed self.new ≡ false) }
        ensures named { meaning.id self.new ≡ meaning.id self.old }

        // Its journal is left alone.
        ensures store { meaning.store self.new ≡ meaning.store self.old }
        ensures keeps { IfOk result (λ taken. (t : Trace) → meaning.keeps self.old (meaning.book t)
            → meaning.keeps self.new (meaning.book (Took conn.0 (length taken.items.items) ∷ t))) }
        ensures still { OnErr result ((b : BookView) → meaning.keeps self.old b → meaning.keeps self.new b) }

        // One more batch is counted exactly if the call answers Ok.
        ensures counted { OnOk result (meaning.counts self.new ≡ with_batch (meaning.counts self.old)) }
        ensures uncounted { OnErr result (meaning.counts self.new ≡ meaning.counts self.old) }

        // Which fault occurs, and what it leaves.
        ensures refused { IfErr result (λ f. f ≡ NoConnection → (self.new ≡ self.old) × ((t : Trace) → meaning.fits self.old t → known t conn.0 ≡ None)) }
        ensures refuses { (t : Trace) → meaning.fits self.old t → meaning.is_failed self.old ≡ false → known t conn.0 ≡ None → result ≡ Err NoConnection }
        ensures failed { meaning.is_failed self.old ≡ true → result ≡ Err Failed }
        ensures unchanged { IfErr result (λ f. f ≡ Failed → (self.new ≡ self.old) × (meaning.is_failed self.old ≡ true)) }
        ensures memory { IfErr result (λ f. f ≡ Memory → meaning.is_failed self.new ≡ true) }
        ensures no_disk { IfErr result (λ f. f ≡ DiskFailed → ⊥) };

    /// Whether it is failed.
    fn is_failed(&self) -> bool
        ensures { result ≡ meaning.is_failed self.now };

    /// Whether a connection is live: it is up, and the router didn't end it.
    fn is_live(&self, conn: ConnectionId) -> bool
        ensures { (t : Trace) → meaning.fits self.now t → result ≡ is_live (known t conn.0) };

    /// Whether a take would answer with items, the end or a fault: the connection is ready or unknown, or the router is failed.
    fn answers(&self, conn: ConnectionId) -> bool
        ensures { (t : Trace) → meaning.fits self.now t → result ≡ (meaning.is_failed self.now || is_ready (known t conn.0) || not (is_some (known t conn.0))) };

    /// The lowest ready connection: an item is waiting in its outbox, or the router ended it.
    fn ready(&self) -> Option<ConnectionId>
        ensures { (t : Trace) → meaning.fits self.now t → IsLeast (λ c. is_ready (known t c)) (option_map (λ c. c.0) result) };

    /// The lowest ready connection above another.
    fn ready_after(&self, conn: ConnectionId) -> Option<ConnectionId>
        ensures { (t : Trace) → meaning.fits self.now t → IsLeast (λ c. nat_lt conn.0 c && is_ready (known t c)) (option_map (λ c. c.0) result) };

    /// How many items wait in a connection's outbox.
    fn waits(&self, conn: ConnectionId) -> usize
        ensures { (t : Trace) → meaning.fits self.now t → result ≡ length (waiting_of (known t conn.0)) };

    /// The item at this place of a connection's outbox, counted from 0 at the front.
    fn waiting(&self, conn: ConnectionId, place: usize) -> Option<&Item>
        ensures { (t : Trace) → meaning.fits self.now t → option_copied result ≡ slice_get (waiting_of (known t conn.0)) place };

    /// How many events it handled with `Ok`, by kind, and how many batches `take` returned.
    fn counts(&self) -> Counts
        ensures { result ≡ meaning.counts self.now };

    /// The number of the last batch in its journal; 0 where there is none.
    fn batch(&self) -> u64
        ensures { result ≡ meaning.batches self.now };
}

/// A machine whose disk has a fuse, with which a play makes it fail.
pub trait Fused: Machine {
    /// After so many calls of its disk more every call fails; a fuse that was set before is replaced. Nothing else changes.
    fn fuse(&mut self, calls: u64)
        ensures fits { (t : Trace) → Self.meaning.fits self.old t → Self.meaning.fits self.new t }
        ensures works { Self.meaning.is_failed self.new ≡ Self.meaning.is_failed self.old }
        ensures named { Self.meaning.id self.new ≡ Self.meaning.id self.old }
        ensures batches { Self.meaning.batches self.new ≡ Self.meaning.batches self.old }
        ensures counts { Self.meaning.counts self.new ≡ Self.meaning.counts self.old }
        ensures failures { Self.meaning.failures self.new ≡ Self.meaning.failures self.old }
        ensures keeps { (b : BookView) → Self.meaning.keeps self.old b → Self.meaning.keeps self.new b };
}

/// Takes up to `most` items from the outbox of a connection of a machine, in order. It answers `NoConnection` exactly if the connection is unknown,
/// and `Failed` exactly if the machine is failed; both change nothing. After `Memory` it is failed.
///
/// No other function makes a [`Batch`], so nobody can hand on one that was not taken.
pub fn take<M: Machine>(
    machine: &mut M,
    conn: ConnectionId,
    most: usize,
) -> Result<Batch, CoreFault>
    // The trace continues with the items taken.
    ensures fits { IfOk result (λ batch. (t : Trace) → M.meaning.fits machine.old t → M.meaning.fits machine.new (Took conn.0 (length batch.items.items) ∷ t)) }
    ensures batch { IfOk result (λ batch. (t : Trace) → M.meaning.fits machine.old t → IsBatchOf (known t conn.0) most batch) }
    ensures whose { IfOk result (λ b. b.conn ≡ conn) }
    ensures most { IfOk result (λ b. length b.items.items ≤ most) }
    ensures works { OnOk result (M.meaning.is_failed machine.new ≡ false) }
    ensures named { M.meaning.id machine.new ≡ M.meaning.id machine.old }

    // Its journal is left alone.
    ensures store { M.meaning.store machine.new ≡ M.meaning.store machine.old }
    ensures keeps { IfOk result (λ batch. (t : Trace) → M.meaning.keeps machine.old (M.meaning.book t)
        → M.meaning.keeps machine.new (M.meaning.book (Took conn.0 (length batch.items.items) ∷ t))) }
    ensures still { OnErr result ((b : BookView) → M.meaning.keeps machine.old b → M.meaning.keeps machine.new b) }

    // One more batch is counted exactly if the call answers Ok.
    ensures counted { OnOk result (M.meaning.counts machine.new ≡ with_batch (M.meaning.counts machine.old)) }
    ensures uncounted { OnErr result (M.meaning.counts machine.new ≡ M.meaning.counts machine.old) }

    // Which fault occurs, and what it leaves.
    ensures refused { IfErr result (λ f. f ≡ NoConnection → (machine.new ≡ machine.old) × ((t : Trace) → M.meaning.fits machine.old t → known t conn.0 ≡ None)) }
    ensures refuses { (t : Trace) → M.meaning.fits machine.old t → M.meaning.is_failed machine.old ≡ false → known t conn.0 ≡ None → result ≡ Err NoConnection }
    ensures failed { M.meaning.is_failed machine.old ≡ true → result ≡ Err Failed }
    ensures unchanged { IfErr result (λ f. f ≡ Failed → (machine.new ≡ machine.old) × (M.meaning.is_failed machine.old ≡ true)) }
    ensures memory { IfErr result (λ f. f ≡ Memory → M.meaning.is_failed machine.new ≡ true) }
    ensures no_disk { IfErr result (λ f. f ≡ DiskFailed → ⊥) }
{
    match machine.take_items(conn, most) {
        Ok(taken) => Ok(Batch::new(conn, taken)),
        Err(fault) => Err(fault),
    }
}

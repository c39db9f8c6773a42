//! The journal.
ghost use Rattle.std.specs.Prelude.{◌≡◌, ◌≢◌, ◌⊎◌, ◌↔◌, ◌+◌, ◌<◌, ◌≤◌, ◌++◌, [], ◌∷◌, ℕ, List, length, None, if◌then◌else◌, true, false, IsTrue, OnOk, OnErr, IfOk, IfErr, IsErrOf};
ghost use Rattle.disk_core.specs.Disk.{Elapses, LeavesOnly, NoMore};
ghost use Rattle.book_model.specs.declared.act.Act.{Act as AnAct};
ghost use Rattle.book_model.specs.Book.{BookView, first_fault, effects};
ghost use Rattle.journal_codec.specs.Batches.{HaveOutcomes, IsBatch, book_after};
ghost use Rattle.journal_codec.specs.Format.{acts_bytes};
ghost use Rattle.gate_journal.specs.Ordered.{IsOrdered};
ghost use Rattle.gate_journal.specs.Reserve.{reserve};
ghost use Rattle.twin_journal.specs.Held.{IsAhead, held_bytes};
ghost use Rattle.twin_journal.specs.Holding.{BeforeOrAfter, HoldsAt, HoldsUpTo, TwinHolds, OpensTo, last_of};
ghost use Rattle.twin_journal.specs.Journal.{Holds, HoldsBook, Keeps, KeepsBook, SuitsBook, twin_of, base_of, batch_count, written_count, has_failed, is_due_in};
ghost use Rattle.twin_journal.specs.Judging.{Explains};
ghost use Rattle.twin_journal.specs.Room.{IsFull, Spells, Suits, room};

use crate::figures::{Figures, Needs};
use crate::group::{make_room, write_group};
use crate::held::Held;
use crate::opened::scan;
use crate::plan::{Plan, needs_after, plan_batch};
use crate::room::{JOURNAL_LIMIT, cost_of, needs_of};
use crate::scratch::Scratch;
use crate::whole::read_active;
use book_core::Book;
use book_model::Act;
use disk_core::{CrashTwin, Twin};
use gate_journal::{JournalFault, OpenFault};
use std::alloc::{AllocError, Global};

/// A journal on two files. Batches are appended one by one (`append`), or held (`hold`) and then written together (`write_held`): the files are the same
/// then, byte by byte, and a crash meanwhile leaves all of those that were held, or none.
#[derive(Drop)]
pub struct Journal<T: Twin> {
    scratch: Scratch,
    twin: T,
    figures: Figures,
    held: Held,
    needs: Needs,
    failed: bool,
}

impl<T: Twin> Journal<T> {
    /// Opens the journal on two files, and gives the book after its batches. It begins with a sync of both, so that a
    /// crash leaves what was read. At an `Err` the files are dropped: `Disk` comes where they failed, `Memory` where
    /// memory was refused.
    pub fn open(alloc: Global, twin: T) -> Result<(Journal<T>, Book), OpenFault>
        ensures opened { IfOk result (λ r. KeepsBook T.seen T.may_leave r.0 r.1) }
        ensures suits { IfOk result (λ r. SuitsBook r.0 r.1) }
        ensures works { IfOk result (λ r. has_failed r.0 ≡ false) }
        ensures seen { IfOk result (λ r. T.seen (twin_of r.0) ≡ T.seen twin) }
        ensures crash { IfOk result (λ r. NoMore (T.may_leave twin) (T.may_leave (twin_of r.0))) }

        // A crash at any moment of the call leaves what it might have left before.
        ensures any_moment { IfOk result (λ r. LeavesOnly T.moment T.left_since twin (twin_of r.0) (T.may_leave twin)) }

        ensures fault { IfErr result (Explains (T.seen twin)) }
    {
        let mut twin = twin;
        let active = read_active(alloc, &mut twin)?;
        let (figures, book) = scan(alloc, &active)?;
        let needs = needs_of(alloc, &book)?;
        let held = Held::none(alloc, figures)?;
        let scratch = Scratch::new(alloc);
        let failed = false;
        Ok((
            Journal {
                scratch,
                twin,
                figures,
                held,
                needs,
                failed,
            },
            book,
        ))
    }

    /// Appends a batch to the journal of this book, and gives its number, from 1 on. The acts apply to the book; each
    /// outcome that they decide is a terminal state that its encoding gives back. A checkpoint is made before it where
    /// one is due: the batches since the last one have 1,048,576 bytes or more and no fewer than it, or the file would
    /// go beyond the limit.
    ///
    /// At `Ok` the batch is durable: a crash leaves it. At `Full` nothing is changed. At `Disk` and `Memory` the
    /// journal answers `Failed` from then on, and has to be opened again. At `Failed` nothing is changed, on the disk
    /// neither.
    pub fn append(&mut self, book: &Book, acts: &[Act]) -> Result<u64, JournalFault>
        requires some { acts.now ≢ [] }
        requires small { length (acts_bytes acts.now) ≤ 4194304 }
        requires outcomes { HaveOutcomes acts.now }
        requires applies { first_fault book.now acts.now ≡ None }

        // The batch is behind those that were there, or alone behind a checkpoint of the book that they leave.
        ensures done { OnOk result ((base : ℕ) (start : BookView) (bs : List (List AnAct))
            → Keeps T.seen T.may_leave self.old base start bs → book_after start bs ≡ book.now
            → Keeps T.seen T.may_leave self.new base start (bs ++ acts.now ∷ [])
            ⊎ Keeps T.seen T.may_leave self.new (batch_count self.old) book.now (acts.now ∷ [])) }
        ensures number { IfOk result (λ n. n ≡ batch_count self.old + 1) }
        ensures count { OnOk result (batch_count self.new ≡ batch_count self.old + 1) }
        ensures base { OnOk result (SuitsBook self.old book.now → base_of self.new
            ≡ (if is_due_in self.old acts.now (reserve (effects book.now acts.now)) then batch_count self.old else base_of self.old)) }
        ensures suits { OnOk result (SuitsBook self.old book.now → SuitsBook self.new (effects book.now acts.now)) }

        // A crash at any moment of the call leaves the book before the batch, or the book after it.
        ensures any_moment { KeepsBook T.seen T.may_leave self.old book.now
            → LeavesOnly T.moment T.left_since (twin_of self.old) (twin_of self.new)
            (λ c. OpensTo c book.now ⊎ OpensTo c (effects book.now acts.now)) }

        // So it leaves the number of batches that there were, or this batch as the last one behind them.
        ensures journal_moment { KeepsBook T.seen T.may_leave self.old book.now
            → LeavesOnly T.moment T.left_since (twin_of self.old) (twin_of self.new) (BeforeOrAfter book.now (batch_count self.old) acts.now) }

        // `Full` comes exactly where the batch costs more than nothing and more than the room of the book.
        ensures full { IsErrOf result JournalFault.Full → SuitsBook self.old book.now → IsFull book.now acts.now }
        ensures room { OnOk result (SuitsBook self.old book.now → IsFull book.now acts.now → ⊥) }
        ensures room_at_fault { IsErrOf result JournalFault.Disk → SuitsBook self.old book.now → IsFull book.now acts.now → ⊥ }

        // Where there is no room for the batch the files are left alone, whatever is answered.
        ensures untouched { SuitsBook self.old book.now → IsFull book.now acts.now → twin_of self.new ≡ twin_of self.old }
        ensures unchanged { IsErrOf result JournalFault.Full → self.new ≡ self.old }
        ensures still_failed { IsErrOf result JournalFault.Failed → self.new ≡ self.old }
        ensures same_count { written_count self.old ≡ batch_count self.old → OnErr result (batch_count self.new ≡ batch_count self.old) }

        // The device failed meanwhile exactly where `Disk` is answered.
        ensures disk { IsErrOf result JournalFault.Disk → T.failures (twin_of self.old) < T.failures (twin_of self.new) }
        ensures no_other { (IsErrOf result JournalFault.Disk → ⊥) → T.failures (twin_of self.new) ≡ T.failures (twin_of self.old) }
        ensures failed { IsErrOf result JournalFault.Failed ↔ (has_failed self.old ≡ true) }
        ensures fails_at_disk { IsErrOf result JournalFault.Disk → has_failed self.new ≡ true }
        ensures fails_at_memory { IsErrOf result JournalFault.Memory → has_failed self.new ≡ true }
        ensures works { OnOk result (has_failed self.new ≡ false) }
    {
        let number = self.hold(book, acts)?;
        self.write_held()?;
        Ok(number)
    }

    /// Holds a batch for the journal of this book, behind those that are held already, and gives its number. The acts are as for `append`. The files are left
    /// alone, unless a checkpoint is due before the batch: then what is held is written first, and the checkpoint is made.
    ///
    /// At `Full` nothing is changed. At `Disk` and `Memory` the journal answers `Failed` from then on, and has to be opened again. At `Failed` nothing is
    /// changed.
    pub fn hold(&mut self, book: &Book, acts: &[Act]) -> Result<u64, JournalFault>
        requires some { acts.now ≢ [] }
        requires small { length (acts_bytes acts.now) ≤ 4194304 }
        requires outcomes { HaveOutcomes acts.now }
        requires applies { first_fault book.now acts.now ≡ None }

        // The batch is held behind those that were, or alone behind a checkpoint of the book that they leave.
        ensures done { OnOk result ((base : ℕ) (start : BookView) (bs held : List (List AnAct))
            → Holds T.seen T.may_leave self.old base start bs held → book_after start (bs ++ held) ≡ book.now
            → Holds T.seen T.may_leave self.new base start bs (held ++ acts.now ∷ [])
            ⊎ Holds T.seen T.may_leave self.new (batch_count self.old) book.now [] (acts.now ∷ [])) }
        ensures number { IfOk result (λ n. n ≡ batch_count self.old + 1) }
        ensures count { OnOk result (batch_count self.new ≡ batch_count self.old + 1) }
        ensures base { OnOk result (SuitsBook self.old book.now → base_of self.new
            ≡ (if is_due_in self.old acts.now (reserve (effects book.now acts.now)) then batch_count self.old else base_of self.old)) }
        ensures written { OnOk result (written_count self.new ≡ written_count self.old ⊎ written_count self.new ≡ batch_count self.old) }
        ensures suits { OnOk result (SuitsBook self.old book.now → SuitsBook self.new (effects book.now acts.now)) }

        // No call of the files, where no checkpoint is due.
        ensures still { SuitsBook self.old book.now → is_due_in self.old acts.now (reserve (effects book.now acts.now)) ≡ false
            → twin_of self.new ≡ twin_of self.old }

        // A crash at any moment of the call leaves the book that the files keep, or the one before the batch, with as many batches.
        ensures any_moment { (kept : BookView) → HoldsBook T.seen T.may_leave self.old kept book.now
            → LeavesOnly T.moment T.left_since (twin_of self.old) (twin_of self.new)
            (λ c. HoldsAt c kept (written_count self.old) ⊎ HoldsAt c book.now (batch_count self.old)) }

        // `Full` comes exactly where the batch costs more than nothing and more than the room of the book.
        ensures full { IsErrOf result JournalFault.Full → SuitsBook self.old book.now → IsFull book.now acts.now }
        ensures room { OnOk result (SuitsBook self.old book.now → IsFull book.now acts.now → ⊥) }
        ensures room_at_fault { IsErrOf result JournalFault.Disk → SuitsBook self.old book.now → IsFull book.now acts.now → ⊥ }
        ensures untouched { SuitsBook self.old book.now → IsFull book.now acts.now → twin_of self.new ≡ twin_of self.old }
        ensures unchanged { IsErrOf result JournalFault.Full → self.new ≡ self.old }
        ensures still_failed { IsErrOf result JournalFault.Failed → self.new ≡ self.old }
        ensures same_count { OnErr result (batch_count self.new ≡ batch_count self.old) }
        ensures same_written { OnErr result (written_count self.new ≡ written_count self.old) }

        // The device failed meanwhile exactly where `Disk` is answered.
        ensures disk { IsErrOf result JournalFault.Disk → T.failures (twin_of self.old) < T.failures (twin_of self.new) }
        ensures no_other { (IsErrOf result JournalFault.Disk → ⊥) → T.failures (twin_of self.new) ≡ T.failures (twin_of self.old) }
        ensures failed { IsErrOf result JournalFault.Failed ↔ (has_failed self.old ≡ true) }
        ensures fails_at_disk { IsErrOf result JournalFault.Disk → has_failed self.new ≡ true }
        ensures fails_at_memory { IsErrOf result JournalFault.Memory → has_failed self.new ≡ true }
        ensures works { OnOk result (has_failed self.new ≡ false) }
    {
        if self.failed {
            return Err(JournalFault::Failed);
        }
        let plan = match plan_batch(
            self.scratch.alloc(),
            self.held.ahead,
            self.needs,
            book,
            acts,
        ) {
            Ok(plan) => plan,
            Err(JournalFault::Full) => return Err(JournalFault::Full),
            Err(fault) => {
                self.failed = true;
                return Err(fault);
            }
        };
        book.is_sound();
        match self.hold_planned(book, &plan) {
            Ok(()) => Ok(self.held.ahead.last),
            Err(fault) => {
                self.failed = true;
                Err(fault)
            }
        }
    }

    /// Holds a planned batch, after the checkpoint that is due, if it is.
    fn hold_planned(&mut self, book: &Book, plan: &Plan) -> Result<(), JournalFault>
        ensures behind { OnOk result (plan.now.due ≡ false → (stamp : List ℕ) (start : BookView) (bs lists : List (List AnAct)) (acts : List AnAct)
            → IsAhead self.old.figures self.old.held (T.seen (twin_of self.old)) (T.may_leave (twin_of self.old)) stamp start bs lists
            → book_after start (bs ++ lists) ≡ book.now → Spells plan.now.batch acts → IsBatch acts → first_fault book.now acts ≡ None
            → IsAhead self.new.figures self.new.held (T.seen (twin_of self.new)) (T.may_leave (twin_of self.new)) stamp start bs (lists ++ acts ∷ [])) }
        ensures alone { OnOk result (plan.now.due ≡ true → (stamp : List ℕ) (start : BookView) (bs lists : List (List AnAct)) (acts : List AnAct)
            → IsAhead self.old.figures self.old.held (T.seen (twin_of self.old)) (T.may_leave (twin_of self.old)) stamp start bs lists
            → book_after start (bs ++ lists) ≡ book.now → Spells plan.now.batch acts → IsBatch acts → first_fault book.now acts ≡ None
            → (renewed : List ℕ)
            × IsAhead self.new.figures self.new.held (T.seen (twin_of self.new)) (T.may_leave (twin_of self.new)) renewed book.now [] (acts ∷ [])) }
        ensures suits { OnOk result ((acts : List AnAct) → IsOrdered book.now → Spells plan.now.batch acts
            → first_fault book.now acts ≡ None → Suits plan.now.after (effects book.now acts)
            → SuitsBook self.new (effects book.now acts)) }
        ensures base { OnOk result (base_of self.new ≡ (if plan.now.due then batch_count self.old else base_of self.old)) }
        ensures last { OnOk result (batch_count self.new ≡ batch_count self.old + 1) }
        ensures written { OnOk result (written_count self.new ≡ (if plan.now.due then batch_count self.old else written_count self.old)) }
        ensures same_count { OnErr result (batch_count self.new ≡ batch_count self.old) }
        ensures same_written { OnErr result (written_count self.new ≡ written_count self.old) }
        ensures still { plan.now.due ≡ false → twin_of self.new ≡ twin_of self.old }
        ensures any_moment { (stamp : List ℕ) (start : BookView) (bs lists : List (List AnAct))
            → IsAhead self.old.figures self.old.held (T.seen (twin_of self.old)) (T.may_leave (twin_of self.old)) stamp start bs lists
            → book_after start (bs ++ lists) ≡ book.now → LeavesOnly T.moment T.left_since (twin_of self.old) (twin_of self.new)
            (λ c. HoldsAt c (book_after start bs) (written_count self.old) ⊎ HoldsAt c book.now (batch_count self.old)) }
        ensures fault { IfErr result (λ f. (f ≡ JournalFault.Disk) ⊎ (f ≡ JournalFault.Memory)) }
        ensures disk { IsErrOf result JournalFault.Disk → T.failures (twin_of self.old) < T.failures (twin_of self.new) }
        ensures no_other { (IsErrOf result JournalFault.Disk → ⊥) → T.failures (twin_of self.new) ≡ T.failures (twin_of self.old) }
        ensures works { has_failed self.new ≡ has_failed self.old }
    {
        let figures = make_room(
            &mut self.twin,
            &mut self.scratch,
            self.figures,
            &self.held,
            book,
            plan.due,
        )?;
        let Some(needs) = plan.needs(figures.size) else {
            return Err(JournalFault::Memory);
        };
        if plan.due {
            self.held.clear(figures);
        }
        self.held.add(plan.batch.block.as_slice())?;
        self.figures = figures;
        self.needs = needs;
        Ok(())
    }

    /// Writes the batches that are held, as one group: all of them are durable then, and nothing is held. It takes the four calls of one append; where nothing
    /// is held, none.
    ///
    /// At `Disk` and `Memory` what is held is given up, and the journal answers `Failed` from then on, and has to be opened again. At `Failed` nothing is
    /// changed.
    pub fn write_held(&mut self) -> Result<(), JournalFault>
        ensures done { OnOk result ((base : ℕ) (start : BookView) (bs held : List (List AnAct)) → Holds T.seen T.may_leave self.old base start bs held
            → Keeps T.seen T.may_leave self.new base start (bs ++ held)) }
        ensures count { OnOk result (batch_count self.new ≡ batch_count self.old) }
        ensures base { base_of self.new ≡ base_of self.old }
        ensures suits { (book : BookView) → SuitsBook self.old book → SuitsBook self.new book }

        // A crash at any moment of the call leaves none of them, or all: the last one is the last batch then.
        ensures any_moment { (base : ℕ) (start : BookView) (bs held : List (List AnAct)) → Holds T.seen T.may_leave self.old base start bs held
            → LeavesOnly T.moment T.left_since (twin_of self.old) (twin_of self.new)
            (λ c. HoldsAt c (book_after start bs) (written_count self.old)
            ⊎ HoldsUpTo c (book_after start (bs ++ held)) (batch_count self.old) (last_of held)) }

        ensures never_full { IsErrOf result JournalFault.Full → ⊥ }
        ensures still_failed { IsErrOf result JournalFault.Failed → self.new ≡ self.old }
        ensures given_up { OnErr result (has_failed self.old ≡ false → batch_count self.new ≡ written_count self.old) }

        // The device failed meanwhile exactly where `Disk` is answered.
        ensures disk { IsErrOf result JournalFault.Disk → T.failures (twin_of self.old) < T.failures (twin_of self.new) }
        ensures no_other { (IsErrOf result JournalFault.Disk → ⊥) → T.failures (twin_of self.new) ≡ T.failures (twin_of self.old) }
        ensures failed { IsErrOf result JournalFault.Failed ↔ (has_failed self.old ≡ true) }
        ensures fails_at_disk { IsErrOf result JournalFault.Disk → has_failed self.new ≡ true }
        ensures fails_at_memory { IsErrOf result JournalFault.Memory → has_failed self.new ≡ true }
        ensures works { OnOk result (has_failed self.new ≡ false) }
    {
        if self.failed {
            return Err(JournalFault::Failed);
        }
        match write_group(&mut self.twin, self.figures, &self.held) {
            Ok(()) => {
                self.figures = Figures {
                    place: self.held.ahead.place,
                    last: self.held.ahead.last,
                    ..self.figures
                };
                self.held.clear(self.figures);
                Ok(())
            }
            Err(fault) => {
                self.held.clear(self.figures);
                self.failed = true;
                Err(JournalFault::from(fault))
            }
        }
    }

    /// How many bytes the batches have that are held, with the gates before them.
    pub fn held(&self) -> usize
        ensures number { (base : ℕ) (start : BookView) (bs held : List (List AnAct)) → Holds T.seen T.may_leave self.now base start bs held
            → result ≡ held_bytes held }
        ensures none { result ≡ 0 → (base : ℕ) (start : BookView) (bs held : List (List AnAct)) → Holds T.seen T.may_leave self.now base start bs held
            → Keeps T.seen T.may_leave self.now base start (bs ++ held) }
    {
        self.held.bytes.len() - 1
    }

    /// Makes a checkpoint: the idle side gets the book that the batches leave, and is the active side from then on. What is
    /// held is written first. A journal makes checkpoints by itself as well, as it grows.
    ///
    /// At `Disk` and `Memory` the journal answers `Failed` from then on, and has to be opened again. At `Failed`
    /// nothing is changed.
    ///
    /// # Errors
    ///
    /// `Disk`; `Memory`, where memory is refused or a number is too large to be read again; `Failed` after an earlier
    /// fault.
    pub fn checkpoint(&mut self, book: &Book) -> Result<(), JournalFault>
        ensures done { OnOk result ((base : ℕ) (start : BookView) (bs : List (List AnAct)) → Keeps T.seen T.may_leave self.old base start bs
            → book_after start bs ≡ book.now → Keeps T.seen T.may_leave self.new (batch_count self.old) book.now []) }
        ensures base { OnOk result (base_of self.new ≡ batch_count self.old) }
        ensures count { OnOk result (batch_count self.new ≡ batch_count self.old) }

        // A crash at any moment of the call leaves the same book: before its checkpoint or after it.
        ensures any_moment { (base : ℕ) (start : BookView) (bs : List (List AnAct)) → Keeps T.seen T.may_leave self.old base start bs
            → book_after start bs ≡ book.now → LeavesOnly T.moment T.left_since (twin_of self.old) (twin_of self.new)
            (λ c. TwinHolds c base start bs ⊎ TwinHolds c (batch_count self.old) book.now []) }
        ensures same_book { KeepsBook T.seen T.may_leave self.old book.now
            → LeavesOnly T.moment T.left_since (twin_of self.old) (twin_of self.new) (λ c. OpensTo c book.now) }

        ensures never_full { IsErrOf result JournalFault.Full → ⊥ }
        ensures still_failed { IsErrOf result JournalFault.Failed → self.new ≡ self.old }
        ensures figures { OnErr result (self.new ≡ record self.old { twin = twin_of self.new; failed = has_failed self.new }) }

        // The device failed meanwhile exactly where `Disk` is answered.
        ensures disk { IsErrOf result JournalFault.Disk → T.failures (twin_of self.old) < T.failures (twin_of self.new) }
        ensures no_other { (IsErrOf result JournalFault.Disk → ⊥) → T.failures (twin_of self.new) ≡ T.failures (twin_of self.old) }
        ensures failed { IsErrOf result JournalFault.Failed ↔ (has_failed self.old ≡ true) }
        ensures fails_at_disk { IsErrOf result JournalFault.Disk → has_failed self.new ≡ true }
        ensures fails_at_memory { IsErrOf result JournalFault.Memory → has_failed self.new ≡ true }
        ensures works { OnOk result (has_failed self.new ≡ false) }
    {
        if self.failed {
            return Err(JournalFault::Failed);
        }
        match make_room(
            &mut self.twin,
            &mut self.scratch,
            self.figures,
            &self.held,
            book,
            true,
        ) {
            Ok(figures) => {
                self.figures = figures;
                self.held.clear(figures);
                self.needs.size = figures.size as u64;
                Ok(())
            }
            Err(fault) => {
                self.failed = true;
                Err(fault)
            }
        }
    }

    /// Whether `append` answers `Full` to a batch: it costs more than nothing, and more than the room. This is told of
    /// acts that apply to the journal's book. The batch isn't encoded for it.
    ///
    /// # Errors
    ///
    /// `AllocError` where memory was refused, or a number is too large for its type.
    pub fn is_full(&self, book: &Book, acts: &[Act]) -> Result<bool, AllocError>
        ensures { IfOk result (λ full. first_fault book.now acts.now ≡ None → SuitsBook self.now book.now → IsTrue full ↔ IsFull book.now acts.now) }
    {
        let cost = cost_of(self.scratch.alloc(), acts)?;
        match needs_after(self.scratch.alloc(), self.needs, book, cost) {
            Ok(_) => Ok(false),
            Err(JournalFault::Full) => Ok(true),
            Err(_) => Err(AllocError),
        }
    }

    /// What the limit of 67,108,864 bytes leaves beside a checkpoint of this book and what is kept free for it. It
    /// encodes the book.
    ///
    /// # Errors
    ///
    /// `AllocError` where memory is refused, or an act can't be encoded.
    pub fn room(&self, book: &Book) -> Result<i128, AllocError>
        ensures { IfOk result (λ n. n ≡ room book.now) }
    {
        let needs = needs_of(self.scratch.alloc(), book)?;
        let used = i128::from(needs.size) + 30;
        Ok(i128::from(JOURNAL_LIMIT) - (used + i128::from(needs.reserve)))
    }

    /// The number of the last batch, those that are held among them; 0 where there is none.
    pub fn batch(&self) -> u64
        ensures { result ≡ batch_count self.now }
    {
        self.held.ahead.last
    }

    /// How many of its batches are no longer in the file: they are in the book of the checkpoint.
    pub fn base(&self) -> u64
        ensures { result ≡ base_of self.now }
    {
        self.figures.base
    }

    /// The two files, after the journal is given up.
    pub fn into_twin(self) -> T
        ensures { result ≡ twin_of self }
    {
        let Journal {
            scratch,
            twin,
            figures: _figures,
            held,
            needs: _needs,
            failed: _failed,
        } = self;
        drop(scratch);
        drop(held);
        twin
    }
}

impl<T: CrashTwin> Journal<T> {
    /// After this many more calls of the twin, on either side, every call fails, on a twin that has a fuse.
    pub fn fuse(&mut self, calls: u64)
        ensures seen { T.Twin.seen (twin_of self.new) ≡ T.Twin.seen (twin_of self.old) }
        ensures crash { NoMore (T.Twin.may_leave (twin_of self.old)) (T.Twin.may_leave (twin_of self.new)) }
        ensures time { Elapses (T.Twin.moment (twin_of self.old)) (T.Twin.moment (twin_of self.new))
            (T.Twin.left_since (twin_of self.old)) (T.Twin.left_since (twin_of self.new))
            (T.Twin.may_leave (twin_of self.new)) }
        ensures failures { T.Twin.failures (twin_of self.new) ≡ T.Twin.failures (twin_of self.old) }
        ensures set { T.lets_through (twin_of self.new) ≡ T.fused calls }
        ensures figures { self.new ≡ record self.old { twin = twin_of self.new } }
    {
        self.twin.fuse(calls);
    }
}

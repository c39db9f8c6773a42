//! The store.
ghost use Rattle.std.specs.Prelude.{◌≡◌, ◌≢◌, ◌⊎◌, ◌+◌, ◌<◌, ◌≤◌, [], List, ℕ, None, false, true, length, IfOk, IfErr, IfSome, IfNone, OnOk, OnErr, IsErrOf};
ghost use Rattle.disk_core.specs.Disk.{LeavesOnly, NoMore};
ghost use Rattle.book_model.specs.declared.act.Act.{Act as AnAct};
ghost use Rattle.book_model.specs.Book.{BookView, first_fault, effects};
ghost use Rattle.journal_codec.specs.Batches.{HaveOutcomes};
ghost use Rattle.journal_codec.specs.Format.{acts_bytes};
ghost use Rattle.twin_journal.specs.Held.{held_bytes};
ghost use Rattle.twin_journal.specs.Holding.{BeforeOrAfter};
ghost use Rattle.twin_journal.specs.Journal.{batch_count, has_failed};
ghost use Rattle.twin_journal.specs.Judging.{Explains};
ghost use Rattle.twin_journal.specs.Room.{is_full, room};
ghost use Rattle.journal_store.specs.Acting.{admission_acts, event_acts};
ghost use Rattle.journal_store.specs.Lost.{start_acts};
ghost use Rattle.journal_store.specs.Store.{OpensTo, Stands, StandsBehind, Writable, IsSuited, IsAsBefore, journal_of, twin_of, book_of, base_of, count_of, batches_after, base_after, exceeds};

use crate::acting::TerminusAct;
use crate::kept_book::KeptBook;
use book_core::Book;
use book_model::{Act, Admission, Decision, RowNumber};
use disk_core::{CrashTwin, Twin};
use std::alloc::{AllocError, Global};
use twin_journal::{Journal, JournalFault, OpenFault};

/// The delivery store: a book, and the journal that keeps it on two files.
#[derive(Drop)]
pub struct Store<T: Twin> {
    journal: Journal<T>,
    kept: KeptBook,
}

impl<T: Twin> Store<T> {
    /// Opens the store that two files keep. It begins with a sync of both, so that a crash leaves what was read. At
    /// an `Err` the files are dropped: `Disk` comes where they failed, `Memory` where memory was refused, and the
    /// others where they hold no journal, or a damaged one.
    pub fn open(alloc: Global, twin: T) -> Result<Store<T>, OpenFault>
        ensures stands { IfOk result (Stands T.seen T.may_leave) }
        ensures book { IfOk result (λ store. OpensTo (T.seen twin) (book_of store)) }
        ensures seen { IfOk result (λ store. T.seen (twin_of store) ≡ T.seen twin) }
        ensures works { IfOk result (λ store. has_failed (journal_of store) ≡ false) }

        // Its journal knows what the book needs.
        ensures suits { IfOk result IsSuited }

        // A crash at any moment of the call leaves what it might have left before.
        ensures any_moment { IfOk result (λ store. LeavesOnly T.moment T.left_since twin (twin_of store) (T.may_leave twin)) }
        ensures crash { IfOk result (λ store. NoMore (T.may_leave twin) (T.may_leave (twin_of store))) }

        ensures fault { IfErr result (Explains (T.seen twin)) }
    {
        let (journal, book) = Journal::open(alloc, twin)?;
        Ok(Store {
            journal,
            kept: KeptBook::new(book),
        })
    }

    /// Writes acts to the store as one batch, and gives its number: the first of a journal is 1. The acts apply to the book,
    /// and each outcome among them is a terminal state that its encoding gives back.
    ///
    /// At `Ok` the batch stands on the two files and in the book. At `Full` nothing is changed; acts that only decide,
    /// forget and drop never meet it. After `Disk` and `Memory` the store is to be opened again; after an append that
    /// failed it answers `Failed`, and changes nothing.
    pub fn write(&mut self, acts: &[Act]) -> Result<u64, JournalFault>
        requires some { acts.now ≢ [] }
        requires small { length (acts_bytes acts.now) ≤ 4194304 }
        requires outcomes { HaveOutcomes acts.now }
        requires applies { first_fault (book_of self.old) acts.now ≡ None }

        ensures stands { OnOk result (Stands T.seen T.may_leave self.old → Stands T.seen T.may_leave self.new) }
        ensures book { OnOk result (book_of self.new ≡ effects (book_of self.old) acts.now) }
        ensures number { IfOk result (λ n. n ≡ batch_count (journal_of self.old) + 1) }
        ensures count { OnOk result (batch_count (journal_of self.new) ≡ batch_count (journal_of self.old) + 1) }

        // Whatever is answered, a crash at any moment of the call leaves the book before these acts or the book after them.
        ensures any_moment { Stands T.seen T.may_leave self.old → LeavesOnly T.moment T.left_since (twin_of self.old) (twin_of self.new)
            (λ c. OpensTo c (book_of self.old) ⊎ OpensTo c (effects (book_of self.old) acts.now)) }
        ensures journal_moment { Stands T.seen T.may_leave self.old → LeavesOnly T.moment T.left_since (twin_of self.old) (twin_of self.new)
            (BeforeOrAfter (book_of self.old) (count_of self.old) acts.now) }

        // The journal goes on to know what the book needs; and which of its batches are in its checkpoint.
        ensures suits { OnOk result (IsSuited self.old → IsSuited self.new) }
        ensures base { OnOk result (IsSuited self.old → base_of self.new ≡ base_after self.old acts.now) }

        ensures full { IsErrOf result JournalFault.Full → IsSuited self.old → is_full (book_of self.old) acts.now ≡ true }
        ensures room { OnOk result (IsSuited self.old → is_full (book_of self.old) acts.now ≡ false) }
        ensures unchanged { IsErrOf result JournalFault.Full → self.new ≡ self.old }
        ensures untouched { IsSuited self.old → is_full (book_of self.old) acts.now ≡ true → twin_of self.new ≡ twin_of self.old }
        ensures still_failed { IsErrOf result JournalFault.Failed → self.new ≡ self.old }
        ensures unwritten { OnErr result (book_of self.new ≡ book_of self.old) }

        // The number of batches is as it was after a fault, unless memory is refused: then the batch may stand on the files already.
        ensures same_count { Stands T.seen T.may_leave self.old → IfErr result (λ f. (f ≡ JournalFault.Memory → ⊥) → count_of self.new ≡ count_of self.old) }

        ensures disk { IsErrOf result JournalFault.Disk → T.failures (twin_of self.old) < T.failures (twin_of self.new) }
        ensures no_other { (IsErrOf result JournalFault.Disk → ⊥) → T.failures (twin_of self.new) ≡ T.failures (twin_of self.old) }
        ensures failed { IsErrOf result JournalFault.Failed → has_failed (journal_of self.old) ≡ true }
        ensures works { OnOk result (has_failed (journal_of self.new) ≡ false) }
    {
        let number = self.journal.append(self.kept.book(), acts)?;
        match self.kept.apply(acts) {
            Ok(()) => Ok(number),
            Err(_) => Err(JournalFault::Memory),
        }
    }

    /// Does acts to the store: they are written as one batch, which is given with its number; where there are none, nothing is
    /// written. Faults are as with `write`.
    pub fn commit(&mut self, acts: Vec<Act>) -> Result<Option<(u64, Vec<Act>)>, JournalFault>
        requires writable { Writable (book_of self.old) acts.items }

        ensures stands { OnOk result (Stands T.seen T.may_leave self.old → Stands T.seen T.may_leave self.new) }
        ensures book { OnOk result (book_of self.new ≡ effects (book_of self.old) acts.items) }
        ensures written { IfOk result (λ w. IfSome w (λ batch. (batch.0 ≡ batch_count (journal_of self.old) + 1) × (batch.1.items ≡ acts.items))) }
        ensures some_acts { IfOk result (λ w. IfSome w (λ batch. batch.1.items ≢ [])) }
        ensures silent { IfOk result (λ w. IfNone w (acts.items ≡ [])) }
        ensures count { OnOk result (batch_count (journal_of self.new) ≡ batches_after (batch_count (journal_of self.old)) acts.items) }

        // Whatever is answered, a crash at any moment of the call leaves the book before these acts or the book after them.
        ensures any_moment { Stands T.seen T.may_leave self.old → LeavesOnly T.moment T.left_since (twin_of self.old) (twin_of self.new)
            (λ c. OpensTo c (book_of self.old) ⊎ OpensTo c (effects (book_of self.old) acts.items)) }
        ensures journal_moment { Stands T.seen T.may_leave self.old → LeavesOnly T.moment T.left_since (twin_of self.old) (twin_of self.new)
            (BeforeOrAfter (book_of self.old) (count_of self.old) acts.items) }

        ensures suits { OnOk result (IsSuited self.old → IsSuited self.new) }
        ensures base { OnOk result (IsSuited self.old → base_of self.new ≡ base_after self.old acts.items) }

        ensures full { IsErrOf result JournalFault.Full → IsSuited self.old → exceeds (book_of self.old) acts.items ≡ true }
        ensures room { OnOk result (IsSuited self.old → exceeds (book_of self.old) acts.items ≡ false) }
        ensures unchanged { IsErrOf result JournalFault.Full → self.new ≡ self.old }
        ensures untouched { IsSuited self.old → exceeds (book_of self.old) acts.items ≡ true → twin_of self.new ≡ twin_of self.old }
        ensures still_failed { IsErrOf result JournalFault.Failed → self.new ≡ self.old }
        ensures unwritten { OnErr result (book_of self.new ≡ book_of self.old) }
        ensures same_count { Stands T.seen T.may_leave self.old → IfErr result (λ f. (f ≡ JournalFault.Memory → ⊥) → count_of self.new ≡ count_of self.old) }
        ensures disk { IsErrOf result JournalFault.Disk → T.failures (twin_of self.old) < T.failures (twin_of self.new) }
        ensures no_other { (IsErrOf result JournalFault.Disk → ⊥) → T.failures (twin_of self.new) ≡ T.failures (twin_of self.old) }
        ensures failed { IsErrOf result JournalFault.Failed → has_failed (journal_of self.old) ≡ true }
        ensures works { has_failed (journal_of self.old) ≡ false → OnOk result (has_failed (journal_of self.new) ≡ false) }
    {
        if acts.is_empty() {
            drop(acts);
            return Ok(None);
        }
        match self.write(&acts) {
            Ok(number) => Ok(Some((number, acts))),
            Err(fault) => {
                drop(acts);
                Err(fault)
            }
        }
    }

    /// Does acts to the store as `commit` does, but holds their batch, behind those that are held already, and gives it with its number; where there are none,
    /// nothing is held. The book has them at once, the files once `write_held` writes them. Faults are as with `write`.
    pub fn hold(&mut self, acts: Vec<Act>) -> Result<Option<(u64, Vec<Act>)>, JournalFault>
        requires writable { Writable (book_of self.old) acts.items }

        // The files keep the book that they kept; or, where a checkpoint was due, the book before these acts.
        ensures behind { OnOk result ((kept : BookView) → StandsBehind T.seen T.may_leave self.old kept
            → StandsBehind T.seen T.may_leave self.new kept ⊎ StandsBehind T.seen T.may_leave self.new (book_of self.old)) }
        ensures book { OnOk result (book_of self.new ≡ effects (book_of self.old) acts.items) }
        ensures written { IfOk result (λ w. IfSome w (λ batch. (batch.0 ≡ batch_count (journal_of self.old) + 1) × (batch.1.items ≡ acts.items))) }
        ensures some_acts { IfOk result (λ w. IfSome w (λ batch. batch.1.items ≢ [])) }
        ensures silent { IfOk result (λ w. IfNone w (acts.items ≡ [])) }
        ensures count { OnOk result (batch_count (journal_of self.new) ≡ batches_after (batch_count (journal_of self.old)) acts.items) }

        // Whatever is answered, a crash at any moment of the call leaves one of these two books.
        ensures any_moment { (kept : BookView) → StandsBehind T.seen T.may_leave self.old kept
            → LeavesOnly T.moment T.left_since (twin_of self.old) (twin_of self.new) (λ c. OpensTo c kept ⊎ OpensTo c (book_of self.old)) }

        ensures suits { OnOk result (IsSuited self.old → IsSuited self.new) }
        ensures base { OnOk result (IsSuited self.old → base_of self.new ≡ base_after self.old acts.items) }

        ensures full { IsErrOf result JournalFault.Full → IsSuited self.old → exceeds (book_of self.old) acts.items ≡ true }
        ensures room { OnOk result (IsSuited self.old → exceeds (book_of self.old) acts.items ≡ false) }
        ensures unchanged { IsErrOf result JournalFault.Full → self.new ≡ self.old }
        ensures still_failed { IsErrOf result JournalFault.Failed → self.new ≡ self.old }
        ensures unwritten { OnErr result (book_of self.new ≡ book_of self.old) }

        ensures disk { IsErrOf result JournalFault.Disk → T.failures (twin_of self.old) < T.failures (twin_of self.new) }
        ensures no_other { (IsErrOf result JournalFault.Disk → ⊥) → T.failures (twin_of self.new) ≡ T.failures (twin_of self.old) }
        ensures failed { IsErrOf result JournalFault.Failed → has_failed (journal_of self.old) ≡ true }
        ensures works { has_failed (journal_of self.old) ≡ false → OnOk result (has_failed (journal_of self.new) ≡ false) }
    {
        if acts.is_empty() {
            drop(acts);
            return Ok(None);
        }
        match self.hold_batch(&acts) {
            Ok(number) => Ok(Some((number, acts))),
            Err(fault) => {
                drop(acts);
                Err(fault)
            }
        }
    }

    /// Holds acts as one batch, and does them to the book.
    fn hold_batch(&mut self, acts: &[Act]) -> Result<u64, JournalFault>
        requires some { acts.now ≢ [] }
        requires small { length (acts_bytes acts.now) ≤ 4194304 }
        requires outcomes { HaveOutcomes acts.now }
        requires applies { first_fault (book_of self.old) acts.now ≡ None }
        ensures behind { OnOk result ((kept : BookView) → StandsBehind T.seen T.may_leave self.old kept
            → StandsBehind T.seen T.may_leave self.new kept ⊎ StandsBehind T.seen T.may_leave self.new (book_of self.old)) }
        ensures book { OnOk result (book_of self.new ≡ effects (book_of self.old) acts.now) }
        ensures number { IfOk result (λ n. n ≡ batch_count (journal_of self.old) + 1) }
        ensures count { OnOk result (batch_count (journal_of self.new) ≡ batch_count (journal_of self.old) + 1) }
        ensures any_moment { (kept : BookView) → StandsBehind T.seen T.may_leave self.old kept
            → LeavesOnly T.moment T.left_since (twin_of self.old) (twin_of self.new) (λ c. OpensTo c kept ⊎ OpensTo c (book_of self.old)) }
        ensures suits { OnOk result (IsSuited self.old → IsSuited self.new) }
        ensures base { OnOk result (IsSuited self.old → base_of self.new ≡ base_after self.old acts.now) }
        ensures full { IsErrOf result JournalFault.Full → IsSuited self.old → is_full (book_of self.old) acts.now ≡ true }
        ensures room { OnOk result (IsSuited self.old → is_full (book_of self.old) acts.now ≡ false) }
        ensures unchanged { IsErrOf result JournalFault.Full → self.new ≡ self.old }
        ensures still_failed { IsErrOf result JournalFault.Failed → self.new ≡ self.old }
        ensures unwritten { OnErr result (book_of self.new ≡ book_of self.old) }
        ensures disk { IsErrOf result JournalFault.Disk → T.failures (twin_of self.old) < T.failures (twin_of self.new) }
        ensures no_other { (IsErrOf result JournalFault.Disk → ⊥) → T.failures (twin_of self.new) ≡ T.failures (twin_of self.old) }
        ensures failed { IsErrOf result JournalFault.Failed → has_failed (journal_of self.old) ≡ true }
        ensures works { OnOk result (has_failed (journal_of self.new) ≡ false) }
    {
        let number = self.journal.hold(self.kept.book(), acts)?;
        match self.kept.apply(acts) {
            Ok(()) => Ok(number),
            Err(_) => Err(JournalFault::Memory),
        }
    }

    /// Writes the batches that are held, as one group: the files keep the book then. Where nothing is held, nothing is done. After `Disk` and `Memory` the store
    /// is to be opened again; it answers `Failed` from then on, and changes nothing.
    pub fn write_held(&mut self) -> Result<(), JournalFault>
        ensures stands { OnOk result ((kept : BookView) → StandsBehind T.seen T.may_leave self.old kept → Stands T.seen T.may_leave self.new) }
        ensures book { book_of self.new ≡ book_of self.old }
        ensures count { OnOk result (batch_count (journal_of self.new) ≡ batch_count (journal_of self.old)) }
        ensures suits { IsSuited self.old → IsSuited self.new }
        ensures base { base_of self.new ≡ base_of self.old }

        // Whatever is answered, a crash at any moment of the call leaves the book that the files kept, or the store's.
        ensures any_moment { (kept : BookView) → StandsBehind T.seen T.may_leave self.old kept
            → LeavesOnly T.moment T.left_since (twin_of self.old) (twin_of self.new) (λ c. OpensTo c kept ⊎ OpensTo c (book_of self.old)) }

        ensures never_full { IsErrOf result JournalFault.Full → ⊥ }
        ensures still_failed { IsErrOf result JournalFault.Failed → self.new ≡ self.old }
        ensures disk { IsErrOf result JournalFault.Disk → T.failures (twin_of self.old) < T.failures (twin_of self.new) }
        ensures no_other { (IsErrOf result JournalFault.Disk → ⊥) → T.failures (twin_of self.new) ≡ T.failures (twin_of self.old) }
        ensures failed { IsErrOf result JournalFault.Failed → has_failed (journal_of self.old) ≡ true }
        ensures works { OnOk result (has_failed (journal_of self.new) ≡ false) }
    {
        self.journal.write_held()
    }

    /// How many bytes the batches have that are held, with the gates before them.
    pub fn held(&self) -> usize
        ensures number { (kept : BookView) (behind : StandsBehind T.seen T.may_leave self.now kept) → result ≡ held_bytes behind.held }
        ensures none { result ≡ 0 → (kept : BookView) → StandsBehind T.seen T.may_leave self.now kept → Stands T.seen T.may_leave self.now }
    {
        self.journal.held()
    }

    /// Writes what a router decides when it starts on this store, as one batch, and gives it with its number; where there is nothing
    /// to decide, nothing is written. Faults are as with `write`, but for `Full`, which never comes.
    pub fn start(&mut self, alloc: Global) -> Result<Option<(u64, Vec<Act>)>, JournalFault>
        ensures stands { OnOk result (Stands T.seen T.may_leave self.old → Stands T.seen T.may_leave self.new) }
        ensures book { OnOk result (book_of self.new ≡ effects (book_of self.old) (start_acts (book_of self.old))) }
        ensures written { IfOk result (λ w. IfSome w (λ batch. (batch.0 ≡ batch_count (journal_of self.old) + 1) × (batch.1.items ≡ start_acts (book_of self.old)))) }
        ensures silent { IfOk result (λ w. IfNone w (start_acts (book_of self.old) ≡ [])) }
        ensures count { OnOk result (batch_count (journal_of self.new) ≡ batches_after (batch_count (journal_of self.old)) (start_acts (book_of self.old))) }

        // Whatever is answered, a crash at any moment of the call leaves the book before these acts or the book after them.
        ensures any_moment { Stands T.seen T.may_leave self.old → LeavesOnly T.moment T.left_since (twin_of self.old) (twin_of self.new)
            (λ c. OpensTo c (book_of self.old) ⊎ OpensTo c (effects (book_of self.old) (start_acts (book_of self.old)))) }

        ensures suits { OnOk result (IsSuited self.old → IsSuited self.new) }
        ensures base { OnOk result (IsSuited self.old → base_of self.new ≡ base_after self.old (start_acts (book_of self.old))) }

        ensures room { exceeds (book_of self.old) (start_acts (book_of self.old)) ≡ false }
        ensures never_full { IsErrOf result JournalFault.Full → IsSuited self.old → ⊥ }
        ensures unwritten { OnErr result (book_of self.new ≡ book_of self.old) }
        ensures same_count { Stands T.seen T.may_leave self.old → IfErr result (λ f. (f ≡ JournalFault.Memory → ⊥) → count_of self.new ≡ count_of self.old) }
        ensures disk { IsErrOf result JournalFault.Disk → T.failures (twin_of self.old) < T.failures (twin_of self.new) }
        ensures no_other { (IsErrOf result JournalFault.Disk → ⊥) → T.failures (twin_of self.new) ≡ T.failures (twin_of self.old) }
        ensures failed { IsErrOf result JournalFault.Failed → has_failed (journal_of self.old) ≡ true }
        ensures works { has_failed (journal_of self.old) ≡ false → OnOk result (has_failed (journal_of self.new) ≡ false) }
    {
        let Ok(acts) = self.kept.start_acts(alloc) else {
            return Err(JournalFault::Memory);
        };
        self.commit(acts)
    }

    /// The acts of an event: the decisions and what is forgotten, each in the order of the rows' numbers, and then what is asked for
    /// a terminus. Of several decisions of a row the first counts; what doesn't apply to the book is left out.
    pub fn event_acts(
        &self,
        alloc: Global,
        decided: Vec<Decision>,
        forgotten: Vec<RowNumber>,
        terminus: Option<TerminusAct>,
    ) -> Result<Vec<Act>, AllocError>
        ensures acts { IfOk result (λ acts. acts.items ≡ event_acts (book_of self.now) decided.items forgotten.items terminus) }
        ensures writable { IfOk result (λ acts. Writable (book_of self.now) acts.items) }
    {
        self.kept.event_acts(alloc, decided, forgotten, terminus)
    }

    /// The act of an admission; none where the book refuses it.
    pub fn admission_acts(
        &self,
        alloc: Global,
        admission: Admission,
    ) -> Result<Vec<Act>, AllocError>
        ensures acts { IfOk result (λ acts. acts.items ≡ admission_acts (book_of self.now) admission) }
        ensures writable { IfOk result (λ acts. Writable (book_of self.now) acts.items) }
    {
        self.kept.admission_acts(alloc, admission)
    }

    /// The acts of a router that starts on this store.
    pub fn start_acts(&self, alloc: Global) -> Result<Vec<Act>, AllocError>
        ensures acts { IfOk result (λ acts. acts.items ≡ start_acts (book_of self.now)) }
        ensures writable { IfOk result (λ acts. Writable (book_of self.now) acts.items) }
    {
        self.kept.start_acts(alloc)
    }

    /// Whether acts cost more than nothing, and more than the room: `commit` answers `Full` to them. This is told of
    /// acts that apply to the book.
    ///
    /// # Errors
    ///
    /// `AllocError` where memory was refused, or an act can't be encoded.
    pub fn exceeds(&self, acts: &[Act]) -> Result<bool, AllocError>
        ensures { IfOk result (λ full. first_fault (book_of self.now) acts.now ≡ None → IsSuited self.now → full ≡ exceeds (book_of self.now) acts.now) }
    {
        match acts {
            [] => Ok(false),
            _ => self.journal.is_full(self.kept.book(), acts),
        }
    }

    /// The book.
    pub fn book(&self) -> &Book
        ensures { result.now ≡ book_of self.now }
    {
        self.kept.book()
    }

    /// The number of the last batch; 0 where there is none.
    pub fn batch(&self) -> u64
        ensures { result ≡ batch_count (journal_of self.now) }
    {
        self.journal.batch()
    }

    /// How many of its batches are no longer in the files: they are in the book of the checkpoint.
    pub fn base(&self) -> u64
        ensures { result ≡ base_of self.now }
    {
        self.journal.base()
    }

    /// What the limit of 67,108,864 bytes leaves beside a checkpoint of the book and what is kept free for it. It
    /// encodes the book.
    ///
    /// # Errors
    ///
    /// `AllocError` where memory is refused, or an act can't be encoded.
    pub fn room(&self) -> Result<i128, AllocError>
        ensures { IfOk result (λ n. n ≡ room (book_of self.now)) }
    {
        self.journal.room(self.kept.book())
    }

    /// The two files, which the store lets go.
    pub fn into_twin(self) -> T
        ensures { result ≡ twin_of self }
    {
        let Store { journal, kept } = self;
        drop(kept);
        journal.into_twin()
    }
}

impl<T: CrashTwin> Store<T> {
    /// After so many calls of the twin more, on either side, every call fails, on a twin that has a fuse.
    pub fn fuse(&mut self, calls: u64)
        ensures stands { Stands T.Twin.seen T.Twin.may_leave self.old → Stands T.Twin.seen T.Twin.may_leave self.new }
        ensures book { book_of self.new ≡ book_of self.old }
        ensures same { IsAsBefore self.old self.new }
        ensures set { T.lets_through (twin_of self.new) ≡ T.fused calls }
        ensures failures { T.Twin.failures (twin_of self.new) ≡ T.Twin.failures (twin_of self.old) }
    {
        self.journal.fuse(calls);
    }
}

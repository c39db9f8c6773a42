//! The journal.
ghost use Rattle.std.specs.Prelude.{◌≡◌, ◌≢◌, ◌⊎◌, pos, ◌-ℤ◌, ◌+◌, ◌-◌, ◌<◌, ◌≤◌, sum_by, ◌++◌, [], ◌∷◌, ℕ, List, true, false, None, OnOk, OnErr, IfOk, IfErr, IfSome, IsTrue, ◌↔◌, IsErrOf, length};
ghost use Rattle.disk_core.specs.Disk.{LeavesOnly, NoMore, Elapses};
ghost use Rattle.book_model.specs.declared.act.Act.{Act};
ghost use Rattle.book_model.specs.Book.{empty_book, first_fault, effects};
ghost use Rattle.journal_codec.specs.Format.{acts_bytes, front};
ghost use Rattle.journal_codec.specs.Batches.{Holds, HaveOutcomes, IsNext, book_after};
ghost use Rattle.gate_journal.specs.Ordered.{IsOrdered};
ghost use Rattle.gate_journal.specs.Reserve.{reserve, batch_bytes, growth, release, IsFull, is_full};
ghost use Rattle.gate_journal.specs.Journal.{Keeps, disk_of, batch_count, used_bytes, kept_bytes, has_failed};
ghost use Rattle.gate_journal.specs.Opening.{Explains};
ghost use Rattle.gate_journal.specs.Stands.{IsAt};

use crate::fault::{JournalFault, OpenFault};
use crate::figures::{Figures, growth_by, release_by, reserve_of, total};
use crate::scan::{Found, scan};
use crate::store::store;
use crate::whole::read_all;
use book_core::Book;
use book_model::Act;
use disk_core::{Crash, Disk};
use journal_codec::{acts_len, block_of};
use std::alloc::{AllocError, Global};

/// The most bytes of a journal, including what it keeps free.
const JOURNAL_LIMIT: u64 = 67_108_864;

/// A journal on a disk.
#[derive(Drop)]
pub struct Journal<D: Disk> {
    alloc: Global,
    disk: D,
    figures: Figures,
    failed: bool,
}

/// Whether a batch with this many bytes of acts costs more than the room.
fn is_full(figures: Figures, bytes: u64, growth: u64, release: u64) -> Option<bool>
    ensures { IfSome result (λ b. IsTrue b ↔ ((release < 5 + bytes + growth) × (67108864 + release < 5 + bytes + growth + (figures.place + 1) + figures.reserve))) }
{
    let gain = total(&[5, bytes, growth])?;
    let all = total(&[gain, figures.place as u64, 1, figures.reserve])?;
    let limit = JOURNAL_LIMIT.checked_add(release)?;
    Some(release < gain && limit < all)
}

/// Writes a batch to the disk, and gives the figures with it.
fn added<D: Disk>(
    alloc: Global,
    disk: &mut D,
    figures: Figures,
    acts: &[Act],
) -> Result<Figures, JournalFault>
    ensures done { IfOk result (λ new. (bs : List (List Act)) → IsAt (D.seen disk.old) (D.may_leave disk.old) figures.place bs → IsNext bs acts.now
        → IsAt (D.seen disk.new) (D.may_leave disk.new) new.place (bs ++ acts.now ∷ [])) }
    ensures place { IfOk result (λ new. new.place ≡ figures.place + batch_bytes acts.now) }
    ensures reserve { IfOk result (λ new. new.reserve ≡ figures.reserve + sum_by growth acts.now - sum_by release acts.now) }
    ensures count { IfOk result (λ new. new.count ≡ figures.count + 1) }
    ensures any_moment { (bs : List (List Act)) → IsAt (D.seen disk.old) (D.may_leave disk.old) figures.place bs → IsNext bs acts.now
        → LeavesOnly D.moment D.left_since disk.old disk.new (λ c. Holds c bs ⊎ Holds c (bs ++ acts.now ∷ [])) }
    ensures full { IsErrOf result JournalFault.Full → IsFull (figures.place + 1) figures.reserve acts.now }
    ensures full_same { IsErrOf result JournalFault.Full → disk.new ≡ disk.old }
    ensures room { OnOk result (IsFull (figures.place + 1) figures.reserve acts.now → ⊥) }
    ensures room_at_fault { IsErrOf result JournalFault.Disk → IsFull (figures.place + 1) figures.reserve acts.now → ⊥ }
    ensures untouched { IsFull (figures.place + 1) figures.reserve acts.now → disk.new ≡ disk.old }
    ensures disk { IsErrOf result JournalFault.Disk → D.failures disk.old < D.failures disk.new }
    ensures no_other { (IsErrOf result JournalFault.Disk → ⊥) → D.failures disk.new ≡ D.failures disk.old }
    ensures not_failed { IsErrOf result JournalFault.Failed → ⊥ }
{
    let block = block_of(alloc, acts)?;
    let Some(growth) = growth_by(acts) else {
        return Err(JournalFault::Memory);
    };
    let Some(release) = release_by(acts) else {
        return Err(JournalFault::Memory);
    };
    let Some(full) = is_full(figures, block.len() as u64 - 5, growth, release) else {
        return Err(JournalFault::Memory);
    };
    if full {
        return Err(JournalFault::Full);
    }
    let Some(next) = figures.after(block.len(), growth, release) else {
        return Err(JournalFault::Memory);
    };
    store(disk, figures.place, block.as_slice())?;
    Ok(next)
}

impl<D: Disk> Journal<D> {
    /// Appends a batch to the journal of this book, and gives its number, from 1 on. The acts apply to the book; each outcome
    /// that they decide is a terminal state that its encoding gives back.
    ///
    /// At `Ok` the batch is durable: a crash leaves it. At `Full` nothing is changed. At `Disk` and `Memory` the journal
    /// answers `Failed` from then on, and has to be opened again. At `Failed` nothing is changed, on the disk neither.
    pub fn append(&mut self, book: &Book, acts: &[Act]) -> Result<u64, JournalFault>
        requires some { acts.now ≢ [] }
        requires small { length (acts_bytes acts.now) ≤ 4194304 }
        requires outcomes { HaveOutcomes acts.now }
        requires applies { first_fault book.now acts.now ≡ None }

        ensures done { OnOk result ((bs : List (List Act)) → Keeps D.seen D.may_leave self.old bs → book_after empty_book bs ≡ book.now
            → Keeps D.seen D.may_leave self.new (bs ++ acts.now ∷ [])) }
        ensures number { IfOk result (λ n. n ≡ batch_count self.old + 1) }
        ensures count { OnOk result (batch_count self.new ≡ batch_count self.old + 1) }

        // By how much it is longer; and that it keeps free what the book behind the acts needs, where that was so before. A book's
        // numbers rise where batches, or acts, made it (`books_are_ordered`).
        ensures length { OnOk result (used_bytes self.new ≡ used_bytes self.old + batch_bytes acts.now) }
        ensures kept { OnOk result (IsOrdered book.now → kept_bytes self.old ≡ reserve book.now → kept_bytes self.new ≡ reserve (effects book.now acts.now)) }

        // A crash at any moment of the call leaves the batches before it, or this one too.
        ensures any_moment { (bs : List (List Act)) → Keeps D.seen D.may_leave self.old bs → book_after empty_book bs ≡ book.now
            → LeavesOnly D.moment D.left_since (disk_of self.old) (disk_of self.new)
            (λ c. Holds c bs ⊎ Holds c (bs ++ acts.now ∷ [])) }

        ensures full { IsErrOf result JournalFault.Full → IsFull (used_bytes self.old) (kept_bytes self.old) acts.now }
        ensures room { OnOk result (IsFull (used_bytes self.old) (kept_bytes self.old) acts.now → ⊥) }
        ensures room_at_fault { IsErrOf result JournalFault.Disk → IsFull (used_bytes self.old) (kept_bytes self.old) acts.now → ⊥ }

        // Where there is no room for the batch the disk is left alone, whatever is answered.
        ensures untouched { IsFull (used_bytes self.old) (kept_bytes self.old) acts.now → disk_of self.new ≡ disk_of self.old }
        ensures unchanged { IsErrOf result JournalFault.Full → self.new ≡ self.old }
        ensures still_failed { IsErrOf result JournalFault.Failed → self.new ≡ self.old }
        ensures figures { OnErr result (self.new ≡ record self.old { disk = disk_of self.new; failed = has_failed self.new }) }

        // The disk failed meanwhile exactly where `Disk` is answered.
        ensures disk { IsErrOf result JournalFault.Disk → D.failures (disk_of self.old) < D.failures (disk_of self.new) }
        ensures no_other { (IsErrOf result JournalFault.Disk → ⊥) → D.failures (disk_of self.new) ≡ D.failures (disk_of self.old) }
        ensures failed { IsErrOf result JournalFault.Failed ↔ (has_failed self.old ≡ true) }
        ensures fails_at_disk { IsErrOf result JournalFault.Disk → has_failed self.new ≡ true }
        ensures fails_at_memory { IsErrOf result JournalFault.Memory → has_failed self.new ≡ true }
        ensures works { OnOk result (has_failed self.new ≡ false) }
    {
        let _book = book;
        if self.failed {
            return Err(JournalFault::Failed);
        }
        match added(self.alloc, &mut self.disk, self.figures, acts) {
            Ok(figures) => {
                self.figures = figures;
                Ok(figures.count)
            }
            Err(JournalFault::Full) => Err(JournalFault::Full),
            Err(fault) => {
                self.failed = true;
                Err(fault)
            }
        }
    }

    /// Whether `append` answers `Full` to a batch: it costs more than nothing, and more than the room.
    ///
    /// # Errors
    ///
    /// `AllocError` where memory was refused, or an act can't be encoded.
    #[tactic(auto, using(crate::proofs::Fulls::tested_by))]
    pub fn is_full(&self, acts: &[Act]) -> Result<bool, AllocError>
        ensures { IfOk result (λ full. full ≡ is_full (used_bytes self.now) (kept_bytes self.now) acts.now) }
    {
        let bytes = acts_len(self.alloc, acts)?;
        let Some(growth) = growth_by(acts) else {
            return Err(AllocError);
        };
        let Some(release) = release_by(acts) else {
            return Err(AllocError);
        };
        match is_full(self.figures, bytes as u64, growth, release) {
            Some(full) => Ok(full),
            None => Err(AllocError),
        }
    }

    /// Opens the journal on a disk, and gives the book after its batches. It begins with a sync, so that a crash leaves
    /// what was read. At an `Err` the disk is dropped: `Disk` comes where it failed, `Memory` where memory was refused.
    pub fn open(alloc: Global, disk: D) -> Result<(Journal<D>, Book), OpenFault>
        ensures opened { IfOk result (λ r. (bs : List (List Act)) × Keeps D.seen D.may_leave r.0 bs × (r.1 ≡ book_after empty_book bs)) }
        ensures kept { IfOk result (λ r. kept_bytes r.0 ≡ reserve r.1) }
        ensures length { IfOk result (λ r. (bs : List (List Act)) → Holds (D.seen disk) bs → used_bytes r.0 ≡ length (front bs) + 1) }
        ensures works { IfOk result (λ r. has_failed r.0 ≡ false) }
        ensures seen { IfOk result (λ r. D.seen (disk_of r.0) ≡ D.seen disk) }
        ensures crash { IfOk result (λ r. NoMore (D.may_leave disk) (D.may_leave (disk_of r.0))) }

        // A crash at any moment of the call leaves what it might have left before.
        ensures any_moment { IfOk result (λ r. LeavesOnly D.moment D.left_since disk (disk_of r.0) (D.may_leave disk)) }

        ensures fault { IfErr result (Explains (D.seen disk)) }
    {
        let mut disk = disk;
        let bytes = read_all(alloc, &mut disk)?;
        let found = scan(alloc, bytes.as_slice())?;
        let Some(reserve) = reserve_of(&found.book) else {
            return Err(OpenFault::Memory);
        };
        let figures = Figures {
            place: found.place,
            reserve,
            count: found.count,
        };
        let failed = false;
        let Found { book, .. } = found;
        Ok((
            Journal {
                alloc,
                disk,
                figures,
                failed,
            },
            book,
        ))
    }

    /// The bytes that are left: the limit less the journal's length and what it keeps free. Below 0 only for a file that
    /// `format` and `append` didn't make.
    pub fn room(&self) -> i128
        ensures { result ≡ pos 67108864 -ℤ pos (used_bytes self.now + kept_bytes self.now) }
    {
        let used = i128::from(self.figures.place as u64) + 1;
        i128::from(JOURNAL_LIMIT) - (used + i128::from(self.figures.reserve))
    }

    /// The number of the last batch; 0 where there is none.
    pub fn batch(&self) -> u64
        ensures { result ≡ batch_count self.now }
    {
        self.figures.count
    }

    /// How many of its batches are no longer in the file: none in this format.
    pub fn base(&self) -> u64
        ensures { result ≡ 0 }
    {
        0
    }

    /// The disk, after the journal is given up.
    pub fn into_disk(self) -> D
        ensures { result ≡ disk_of self }
    {
        self.disk
    }
}

impl<D: Crash> Journal<D> {
    /// After this many more calls of the disk every call fails, on a disk that has a fuse.
    pub fn fuse(&mut self, calls: u64)
        ensures seen { D.Disk.seen (disk_of self.new) ≡ D.Disk.seen (disk_of self.old) }
        ensures crash { NoMore (D.Disk.may_leave (disk_of self.old)) (D.Disk.may_leave (disk_of self.new)) }
        ensures time { Elapses (D.Disk.moment (disk_of self.old)) (D.Disk.moment (disk_of self.new))
            (D.Disk.left_since (disk_of self.old)) (D.Disk.left_since (disk_of self.new))
            (D.Disk.may_leave (disk_of self.new)) }
        ensures failures { D.Disk.failures (disk_of self.new) ≡ D.Disk.failures (disk_of self.old) }
        ensures set { D.lets_through (disk_of self.new) ≡ D.fused calls }
        ensures figures { self.new ≡ record self.old { disk = disk_of self.new } }
    {
        self.disk.fuse(calls);
    }
}

//! What a batch costs, and what a journal has room for.
ghost use Rattle.std.specs.Prelude.{◌≡◌, ◌+◌, ◌-◌, ◌<◌, ◌↔◌, ◌++◌, ◌∷◌, [], List, None, sum_by, length, IfOk, IfSome, IsTrue, OnOk};
ghost use Rattle.book_model.specs.declared.act.Act.{Act as AnAct};
ghost use Rattle.book_model.specs.Book.{BookView, first_fault, effects};
ghost use Rattle.book_model.specs.Restoring.{acts_of_book};
ghost use Rattle.journal_codec.specs.Batches.{HaveOutcomes, HaveTermini, AreWritable};
ghost use Rattle.journal_codec.specs.Format.{batch};
ghost use Rattle.gate_journal.specs.Ordered.{IsOrdered};
ghost use Rattle.gate_journal.specs.Reserve.{growth, release, batch_bytes};
ghost use Rattle.twin_journal.specs.Format.{checkpoint_size};
ghost use Rattle.twin_journal.specs.Room.{IsCost, IsFull, Suits, Spells, is_due};

use crate::figures::{Figures, Needs};
use book_core::Book;
use book_model::Act;
use gate_journal::{growth_by, release_by, reserve_of, total};
use journal_codec::{acts_len, block_of};
use std::alloc::{AllocError, Global};

/// The most bytes of a journal, including what it keeps free.
pub(crate) const JOURNAL_LIMIT: u64 = 67_108_864;

/// From this many bytes of batches on a checkpoint is due.
const MANY: u64 = 1_048_576;

/// How many bytes the checkpoint of a book has whose acts these are. No payload is encoded for it.
pub(crate) fn size_with(alloc: Global, acts: &[Act]) -> Result<u64, AllocError>
    ensures { IfOk result (λ n. (book : BookView) → acts.now ≡ acts_of_book book → n ≡ checkpoint_size book) }
{
    let len = acts_len(alloc, acts)?;
    match (len as u64).checked_add(16) {
        Some(size) => Ok(size),
        None => Err(AllocError),
    }
}

/// How many bytes a checkpoint of a book has.
pub(crate) fn size_of(alloc: Global, book: &Book) -> Result<u64, AllocError>
    ensures { IfOk result (λ n. n ≡ checkpoint_size book.now) }
{
    let acts = book.acts()?;
    size_with(alloc, acts.as_slice())
}

/// What a book needs.
pub(crate) fn needs_of(alloc: Global, book: &Book) -> Result<Needs, AllocError>
    ensures suits { IfOk result (λ needs. Suits needs book.now) }
    ensures size { IfOk result (λ needs. needs.size ≡ checkpoint_size book.now) }
{
    let Some(reserve) = reserve_of(book) else {
        return Err(AllocError);
    };
    let size = size_of(alloc, book)?;
    Ok(Needs { reserve, size })
}

/// What a batch costs.
#[derive(Clone, Copy)]
pub(crate) struct Cost {
    /// How many bytes it has, with the gate after it.
    pub(crate) bytes: u64,
    /// By how much it makes the reserve larger.
    pub(crate) growth: u64,
    /// By how much it makes the reserve smaller.
    pub(crate) release: u64,
}

/// A batch as it is written.
#[derive(Drop)]
pub(crate) struct Batch {
    /// Its bytes, and a closed gate.
    pub(crate) block: Vec<u8>,
    /// What it costs.
    pub(crate) cost: Cost,
}

/// What a batch of acts costs that has so many bytes, with the gate after it.
fn cost_with(bytes: u64, acts: &[Act]) -> Result<Cost, AllocError>
    ensures { IfOk result (λ cost. bytes ≡ batch_bytes acts.now → IsCost cost acts.now) }
{
    let Some(growth) = growth_by(acts) else {
        return Err(AllocError);
    };
    let Some(release) = release_by(acts) else {
        return Err(AllocError);
    };
    Ok(Cost {
        bytes,
        growth,
        release,
    })
}

/// What a batch of acts costs. No payload is encoded for it.
pub(crate) fn cost_of(alloc: Global, acts: &[Act]) -> Result<Cost, AllocError>
    ensures { IfOk result (λ cost. IsCost cost acts.now) }
{
    let len = acts_len(alloc, acts)?;
    match (len as u64).checked_add(5) {
        Some(bytes) => cost_with(bytes, acts),
        None => Err(AllocError),
    }
}

/// A batch of acts.
pub(crate) fn batch_of(alloc: Global, acts: &[Act]) -> Result<Batch, AllocError>
    ensures spells { IfOk result (λ b. Spells b acts.now) }
    ensures writable { OnOk result (HaveOutcomes acts.now → HaveTermini acts.now → AreWritable acts.now) }
{
    let block = block_of(alloc, acts)?;
    let cost = cost_with(block.len() as u64, acts)?;
    Ok(Batch { block, cost })
}

impl Needs {
    /// What the book needs after a batch with this cost; none where a number is too large for its type.
    pub(crate) fn after(self, cost: Cost) -> Option<Needs>
        ensures { IfSome result (λ new. (b : BookView) (acts : List AnAct) → IsCost cost acts → Suits self b → IsOrdered b
            → first_fault b acts ≡ None → Suits new (effects b acts)) }
    {
        Some(Needs {
            reserve: self
                .reserve
                .checked_add(cost.growth)?
                .saturating_sub(cost.release),
            size: self.size.checked_add(cost.bytes)?,
        })
    }
}

/// Whether a checkpoint of this many bytes, a batch of this many and this reserve go beyond the limit.
fn exceeds(size: u64, len: u64, reserve: u64) -> Option<bool>
    ensures { IfSome result (λ b. IsTrue b ↔ (67108864 < 30 + size + len + reserve)) }
{
    let all = total(&[30, size, len, reserve])?;
    Some(JOURNAL_LIMIT < all)
}

/// Whether a batch costs more than nothing, and more than the room. The book is encoded only where the batch comes near
/// the limit.
pub(crate) fn is_full(
    alloc: Global,
    needs: Needs,
    after: Needs,
    len: u64,
    book: &Book,
) -> Result<bool, AllocError>
    ensures { IfOk result (λ full. (acts : List AnAct) → len ≡ batch_bytes acts → Suits needs book.now
        → Suits after (effects book.now acts) → IsTrue full ↔ IsFull book.now acts) }
{
    let Some(gain) = len.checked_add(after.reserve) else {
        return Err(AllocError);
    };
    if gain <= needs.reserve {
        return Ok(false);
    }
    let Some(near) = exceeds(needs.size, len, after.reserve) else {
        return Err(AllocError);
    };
    if !near {
        return Ok(false);
    }
    let size = size_of(alloc, book)?;
    match exceeds(size, len, after.reserve) {
        Some(full) => Ok(full),
        None => Err(AllocError),
    }
}

/// Whether a checkpoint is due before a batch of this many bytes, after which the book needs this reserve.
pub(crate) fn is_due(figures: Figures, len: u64, reserve: u64) -> Option<bool>
    ensures { IfSome result (λ due. (acts : List AnAct) → len ≡ batch_bytes acts → due ≡ is_due figures acts reserve) }
{
    let place = figures.place as u64;
    let size = figures.size as u64;
    let many = total(&[29, size, MANY])?;
    let double = total(&[29, size, size])?;
    let all = total(&[place, 1, len, reserve])?;
    Some((many <= place && double <= place) || JOURNAL_LIMIT < all)
}

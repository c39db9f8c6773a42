//! How a batch is to be appended.
ghost use Rattle.std.specs.Prelude.{◌≡◌, ◌⊎◌, true, None, OnOk, IfOk, IfErr, IfSome, IsErrOf};
ghost use Rattle.std.specs.Prelude.{List};
ghost use Rattle.book_model.specs.declared.act.Act.{Act as AnAct};
ghost use Rattle.book_model.specs.Book.{BookView, first_fault, effects};
ghost use Rattle.journal_codec.specs.Batches.{HaveOutcomes, HaveTermini, AreWritable};
ghost use Rattle.gate_journal.specs.Ordered.{IsOrdered};
ghost use Rattle.gate_journal.specs.Reserve.{reserve};
ghost use Rattle.twin_journal.specs.Format.{checkpoint_size};
ghost use Rattle.twin_journal.specs.Room.{IsCost, IsFull, Suits, Spells, is_due};

use crate::figures::{Figures, Needs};
use crate::room::{Batch, Cost, batch_of, is_due, is_full};
use book_core::Book;
use book_model::Act;
use gate_journal::JournalFault;
use std::alloc::Global;

/// How a batch is to be appended.
#[derive(Drop)]
pub(crate) struct Plan {
    /// The batch.
    pub(crate) batch: Batch,
    /// What the book needs after it.
    pub(crate) after: Needs,
    /// Whether a checkpoint is to be made before it.
    pub(crate) due: bool,
}

/// What the book needs after a batch with this cost, if there is room for it.
///
/// # Errors
///
/// `Full`, exactly if the batch costs more than nothing and more than the room; `Memory`.
pub(crate) fn needs_after(
    alloc: Global,
    needs: Needs,
    book: &Book,
    cost: Cost,
) -> Result<Needs, JournalFault>
    ensures suits { IfOk result (λ after. (acts : List AnAct) → IsCost cost acts → first_fault book.now acts ≡ None → Suits needs book.now
        → Suits after (effects book.now acts)) }
    ensures full { IsErrOf result JournalFault.Full → (acts : List AnAct) → IsCost cost acts → first_fault book.now acts ≡ None
        → Suits needs book.now → IsFull book.now acts }
    ensures room { OnOk result ((acts : List AnAct) → IsCost cost acts → first_fault book.now acts ≡ None → Suits needs book.now
        → IsFull book.now acts → ⊥) }
    ensures fault { IfErr result (λ f. (f ≡ JournalFault.Full) ⊎ (f ≡ JournalFault.Memory)) }
{
    book.is_sound();
    let Some(after) = needs.after(cost) else {
        return Err(JournalFault::Memory);
    };
    if is_full(alloc, needs, after, cost.bytes, book)? {
        return Err(JournalFault::Full);
    }
    Ok(after)
}

/// Plans an append to a journal with these figures.
///
/// # Errors
///
/// `Full`, exactly if the batch costs more than nothing and more than the room; `Memory`.
pub(crate) fn plan_batch(
    alloc: Global,
    figures: Figures,
    needs: Needs,
    book: &Book,
    acts: &[Act],
) -> Result<Plan, JournalFault>
    ensures spells { IfOk result (λ p. Spells p.batch acts.now) }
    ensures writable { OnOk result (HaveOutcomes acts.now → HaveTermini acts.now → AreWritable acts.now) }
    ensures suits { IfOk result (λ p. first_fault book.now acts.now ≡ None → Suits needs book.now → Suits p.after (effects book.now acts.now)) }
    ensures due { IfOk result (λ p. first_fault book.now acts.now ≡ None → Suits needs book.now → p.due ≡ is_due figures acts.now (reserve (effects book.now acts.now))) }
    ensures full { IsErrOf result JournalFault.Full → first_fault book.now acts.now ≡ None → Suits needs book.now → IsFull book.now acts.now }
    ensures room { OnOk result (first_fault book.now acts.now ≡ None → Suits needs book.now → IsFull book.now acts.now → ⊥) }
    ensures fault { IfErr result (λ f. (f ≡ JournalFault.Full) ⊎ (f ≡ JournalFault.Memory)) }
{
    let batch = batch_of(alloc, acts)?;
    let after = needs_after(alloc, needs, book, batch.cost)?;
    let Some(due) = is_due(figures, batch.cost.bytes, after.reserve) else {
        return Err(JournalFault::Memory);
    };
    Ok(Plan { batch, after, due })
}

impl Plan {
    /// What the book needs after the batch, if the last checkpoint has this many bytes; none where a number is too
    /// large for its type.
    pub(crate) fn needs(&self, size: usize) -> Option<Needs>
        ensures { IfSome result (λ new. (b : BookView) (acts : List AnAct) → Spells self.now.batch acts → IsOrdered b
            → first_fault b acts ≡ None → Suits self.now.after (effects b acts)
            → (self.now.due ≡ true → size ≡ checkpoint_size b) → Suits new (effects b acts)) }
    {
        if !self.due {
            return Some(self.after);
        }
        Some(Needs {
            reserve: self.after.reserve,
            size: (size as u64).checked_add(self.batch.cost.bytes)?,
        })
    }
}

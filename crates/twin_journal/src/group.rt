//! Writes what is held: as one group, and before a checkpoint.
ghost use Rattle.std.specs.Prelude.{◌≡◌, ◌⊎◌, ◌+◌, ◌<◌, ◌++◌, [], ◌∷◌, ℕ, List, true, false, if◌then◌else◌, OnOk, IfOk, IfErr, IsErrOf};
ghost use Rattle.disk_core.specs.Disk.{HasCause, LeavesOnly};
ghost use Rattle.book_model.specs.declared.act.Act.{Act};
ghost use Rattle.book_model.specs.Book.{BookView};
ghost use Rattle.journal_codec.specs.Batches.{book_after};
ghost use Rattle.twin_journal.specs.Figures.{IsAt, StartsAt};
ghost use Rattle.twin_journal.specs.Format.{checkpoint_size};
ghost use Rattle.twin_journal.specs.Held.{IsAhead};
ghost use Rattle.twin_journal.specs.Holding.{TwinHolds};

use crate::figures::Figures;
use crate::held::Held;
use crate::renew::renew;
use crate::scratch::Scratch;
use crate::store::store;
use book_core::Book;
use disk_core::{DiskFault, Twin};
use gate_journal::JournalFault;

/// Writes the batches that are held behind what has these figures, by four calls of the twin: all of them stand then. Where none is held, nothing is done.
pub(crate) fn write_group<T: Twin>(
    twin: &mut T,
    figures: Figures,
    held: &Held,
) -> Result<(), DiskFault>
    ensures done { OnOk result ((stamp : List ℕ) (start : BookView) (bs lists : List (List Act))
        → IsAhead figures held.now (T.seen twin.old) (T.may_leave twin.old) stamp start bs lists
        → IsAt (record figures { place = held.now.ahead.place; last = held.now.ahead.last }) (T.seen twin.new) (T.may_leave twin.new) stamp start (bs ++ lists)) }
    ensures any_moment { (stamp : List ℕ) (start : BookView) (bs lists : List (List Act))
        → IsAhead figures held.now (T.seen twin.old) (T.may_leave twin.old) stamp start bs lists
        → LeavesOnly T.moment T.left_since twin.old twin.new
        (λ c. TwinHolds c figures.base start bs ⊎ TwinHolds c figures.base start (bs ++ lists)) }
    ensures still { held.now.bytes.items ≡ 0 ∷ [] → twin.new ≡ twin.old }
    ensures cause { HasCause (T.failures twin.old) (T.failures twin.new) result }
{
    if held.is_empty() {
        return Ok(());
    }
    store(twin, figures, held.fill())
}

/// Makes a checkpoint of the book that the batches leave, if it is due; those that are held are written before it.
pub(crate) fn make_room<T: Twin>(
    twin: &mut T,
    scratch: &mut Scratch,
    figures: Figures,
    held: &Held,
    book: &Book,
    due: bool,
) -> Result<Figures, JournalFault>
    ensures kept { IfOk result (λ new. due ≡ false → new ≡ figures) }
    ensures still { due ≡ false → twin.new ≡ twin.old }
    ensures renewed { IfOk result (λ new. (stamp : List ℕ) (start : BookView) (bs lists : List (List Act))
        → IsAhead figures held.now (T.seen twin.old) (T.may_leave twin.old) stamp start bs lists
        → book_after start (bs ++ lists) ≡ book.now → due ≡ true
        → StartsAt new (T.seen twin.new) (T.may_leave twin.new) book.now) }
    ensures base { IfOk result (λ new. new.base ≡ (if due then held.now.ahead.last else figures.base)) }
    ensures last { IfOk result (λ new. due ≡ true → new.last ≡ held.now.ahead.last) }
    ensures size { IfOk result (λ new. due ≡ true → new.size ≡ checkpoint_size book.now) }
    ensures any_moment { (stamp : List ℕ) (start : BookView) (bs lists : List (List Act))
        → IsAhead figures held.now (T.seen twin.old) (T.may_leave twin.old) stamp start bs lists
        → book_after start (bs ++ lists) ≡ book.now → LeavesOnly T.moment T.left_since twin.old twin.new
        (λ c. TwinHolds c figures.base start bs ⊎ TwinHolds c figures.base start (bs ++ lists)
        ⊎ TwinHolds c held.now.ahead.last book.now []) }
    ensures fault { IfErr result (λ f. (f ≡ JournalFault.Disk) ⊎ (f ≡ JournalFault.Memory)) }
    ensures disk { IsErrOf result JournalFault.Disk → T.failures twin.old < T.failures twin.new }
    ensures no_other { (IsErrOf result JournalFault.Disk → ⊥) → T.failures twin.new ≡ T.failures twin.old }
{
    if !due {
        return Ok(figures);
    }
    write_group(twin, figures, held)?;
    renew(twin, scratch, held.ahead, book)
}

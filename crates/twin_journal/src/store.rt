//! Writes batches to the active side: their bytes with a closed gate first, then the gate before them is opened.
ghost use Rattle.std.specs.Prelude.{◌≡◌, ◌⊎◌, ◌+◌, ◌++◌, List, ℕ, OnOk, length};
ghost use Rattle.disk_core.specs.Disk.{LeavesOnly, HasCause};
ghost use Rattle.book_model.specs.declared.act.Act.{Act};
ghost use Rattle.book_model.specs.Book.{BookView};
ghost use Rattle.journal_codec.specs.Batches.{AllApply, book_after};
ghost use Rattle.twin_journal.specs.Figures.{IsAt};
ghost use Rattle.twin_journal.specs.Held.{IsFillOf};
ghost use Rattle.twin_journal.specs.Holding.{TwinHolds};

use crate::device::put;
use crate::figures::Figures;
use disk_core::{DiskFault, Twin};

/// Stores batches after the gate that ends the active side: all of them, or none where a crash comes before the end. They are given as what stands behind that
/// gate, with open gates between them and a closed one after the last.
pub(crate) fn store<T: Twin>(twin: &mut T, figures: Figures, fill: &[u8]) -> Result<(), DiskFault>
    ensures done { OnOk result ((stamp : List ℕ) (start : BookView) (bs lists : List (List Act))
        → IsAt figures (T.seen twin.old) (T.may_leave twin.old) stamp start bs → IsFillOf lists fill.now
        → AllApply (book_after start bs) lists
        → IsAt (record figures { place = figures.place + length fill.now; last = figures.last + length lists })
        (T.seen twin.new) (T.may_leave twin.new) stamp start (bs ++ lists)) }
    ensures any_moment { (stamp : List ℕ) (start : BookView) (bs lists : List (List Act))
        → IsAt figures (T.seen twin.old) (T.may_leave twin.old) stamp start bs → IsFillOf lists fill.now
        → AllApply (book_after start bs) lists
        → LeavesOnly T.moment T.left_since twin.old twin.new
        (λ c. TwinHolds c figures.base start bs ⊎ TwinHolds c figures.base start (bs ++ lists)) }
    ensures cause { HasCause (T.failures twin.old) (T.failures twin.new) result }
{
    let Some(behind) = figures.place.checked_add(1) else {
        return Err(DiskFault::Memory);
    };
    put(twin, figures.side, behind, fill)?;
    put(twin, figures.side, figures.place, &[1])
}

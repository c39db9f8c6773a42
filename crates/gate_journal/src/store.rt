//! Writes a batch to the disk: its bytes with a closed gate first, then the gate before it is opened.
ghost use Rattle.std.specs.Prelude.{◌≡◌, ◌⊎◌, ◌+◌, ◌++◌, [], ◌∷◌, ℕ, List, OnOk, length, None};
ghost use Rattle.disk_core.specs.Disk.{LeavesOnly, HasCause};
ghost use Rattle.book_model.specs.declared.act.Act.{Act};
ghost use Rattle.book_model.specs.Book.{empty_book, first_fault};
ghost use Rattle.journal_codec.specs.Format.{batch};
ghost use Rattle.journal_codec.specs.Batches.{Holds, IsBatch, book_after};
ghost use Rattle.gate_journal.specs.Stands.{IsAt};

use crate::device::put;
use disk_core::{Disk, DiskFault};

/// Stores a batch, given as these bytes with a closed gate after it, after the gate at a place.
pub(crate) fn store<D: Disk>(disk: &mut D, place: usize, block: &[u8]) -> Result<(), DiskFault>
    ensures done { OnOk result ((bs : List (List Act)) (acts : List Act) → IsAt (D.seen disk.old) (D.may_leave disk.old) place bs
        → block.now ≡ batch acts ++ 0 ∷ [] → IsBatch acts → first_fault (book_after empty_book bs) acts ≡ None
        → IsAt (D.seen disk.new) (D.may_leave disk.new) (place + length block.now) (bs ++ acts ∷ [])) }
    ensures any_moment { (bs : List (List Act)) (acts : List Act) → IsAt (D.seen disk.old) (D.may_leave disk.old) place bs
        → block.now ≡ batch acts ++ 0 ∷ [] → IsBatch acts → first_fault (book_after empty_book bs) acts ≡ None
        → LeavesOnly D.moment D.left_since disk.old disk.new (λ c. Holds c bs ⊎ Holds c (bs ++ acts ∷ [])) }
    ensures cause { HasCause (D.failures disk.old) (D.failures disk.new) result }
{
    let Some(behind) = place.checked_add(1) else {
        return Err(DiskFault::Memory);
    };
    put(disk, behind, block)?;
    put(disk, place, &[1])
}

//! The acts of a journal, one by one.
ghost use Rattle.std.specs.Prelude.{◌≡◌, ◌<◌, OnOk, IfOk, IfErr, IsErrOf};
ghost use Rattle.disk_core.specs.Disk.{NoMore, Only, LeavesOnly};
ghost use Rattle.disk_core.specs.Twin.{Contents};
ghost use Rattle.twin_journal.specs.Judging.{Explains};
ghost use Rattle.twin_journal.specs.Listed.{IsListed};
ghost use Rattle.twin_journal.specs.Reading.{IsRead};
ghost use Rattle.twin_journal.specs.Sides.{IsOpen};

use crate::opened::read_head;
use crate::stamp::Stamp;
use crate::whole::{ActiveSide, read_active};
use book_core::Book;
use disk_core::Twin;
use gate_journal::{Entry, OpenFault, list_from};
use std::alloc::Global;

/// What the head of the active side says.
#[derive(Clone, Copy, Debug)]
pub struct Checkpoint {
    /// The epoch of that side: how many checkpoints there were, and one for the new journal.
    pub epoch: u64,
    /// The number of the last batch in the checkpoint.
    pub base: u64,
    /// The rows of its book.
    pub rows: usize,
    /// The termini of its book.
    pub termini: usize,
}

/// The acts of a journal.
#[derive(Drop)]
pub struct Listing {
    /// What the head of the active side says.
    pub checkpoint: Checkpoint,
    /// The acts of the batches since, in the order of the file.
    pub entries: Vec<Entry>,
    /// The place of the gate that ends the journal, in bytes from the beginning of the active side.
    pub place: usize,
    /// The book after the batches.
    pub book: Book,
}

/// The acts of an active side.
fn list_side(alloc: Global, active: &ActiveSide) -> Result<Listing, OpenFault>
    requires opened { IsOpen active.now.bytes.items }
    ensures listed { IfOk result (λ l. (c : Contents) → IsRead active.now c
        → IsListed c l.checkpoint l.entries.items l.place l.book) }
    ensures fault { IfErr result (λ f. (c : Contents) → IsRead active.now c → Explains c f) }
    ensures never_disk { IsErrOf result OpenFault.Disk → ⊥ }
{
    let bytes = active.bytes.as_slice();
    let (stamp, behind) = read_head(alloc, bytes)?;
    let Stamp {
        epoch,
        base,
        book,
        ..
    } = stamp;
    let checkpoint = Checkpoint {
        epoch,
        base,
        rows: book.row_count(),
        termini: book.terminus_count(),
    };
    let listed = match list_from(alloc, book, bytes, behind) {
        Ok(listed) => listed,
        Err(fault) => return Err(fault),
    };
    Ok(Listing {
        checkpoint,
        entries: listed.entries,
        place: listed.place,
        book: listed.book,
    })
}

/// Lists a journal: what its checkpoint has, and each act since with the place of its batch's gate. It begins with a
/// sync of both files, as opening does, and changes nothing.
pub fn list<T: Twin>(alloc: Global, twin: &mut T) -> Result<Listing, OpenFault>
    ensures listed { IfOk result (λ l. IsListed (T.seen twin.old) l.checkpoint l.entries.items l.place l.book) }
    ensures fault { IfErr result (Explains (T.seen twin.old)) }
    ensures disk { IsErrOf result OpenFault.Disk → T.failures twin.old < T.failures twin.new }
    ensures no_other { (IsErrOf result OpenFault.Disk → ⊥) → T.failures twin.new ≡ T.failures twin.old }
    ensures seen { OnOk result (T.seen twin.new ≡ T.seen twin.old) }
    ensures crash { NoMore (T.may_leave twin.old) (T.may_leave twin.new) }

    // A crash at any moment of the call leaves what it might have left before.
    ensures any_moment { LeavesOnly T.moment T.left_since twin.old twin.new (T.may_leave twin.old) }

    // Whatever is answered for the files, they were synced, and a read gives what it gave.
    ensures durable { (IsErrOf result OpenFault.Disk → ⊥) → (IsErrOf result OpenFault.Memory → ⊥)
        → Only (T.seen twin.new) (T.may_leave twin.new) }
    ensures unchanged { (IsErrOf result OpenFault.Disk → ⊥) → (IsErrOf result OpenFault.Memory → ⊥)
        → T.seen twin.new ≡ T.seen twin.old }
{
    let active = read_active(alloc, twin)?;
    list_side(alloc, &active)
}

//! What the active side holds: its head, and the batches behind it.
ghost use Rattle.std.specs.Prelude.{◌≡◌, ◌∷◌, ◌++◌, ℕ, List, IfOk, IfErr, IsErrOf};
ghost use Rattle.disk_core.specs.Twin.{Contents};
ghost use Rattle.twin_journal.specs.Figures.{IsFound};
ghost use Rattle.twin_journal.specs.Format.{magic};
ghost use Rattle.twin_journal.specs.Judging.{Explains, IsHeadFault};
ghost use Rattle.twin_journal.specs.Reading.{HasHead, IsRead};
ghost use Rattle.twin_journal.specs.Sides.{IsOpen};

use crate::figures::Figures;
use crate::gate::GATE;
use crate::stamp::{Stamp, read_stamp};
use crate::whole::ActiveSide;
use book_core::Book;
use gate_journal::{OpenFault, walk};
use journal_codec::ReadFault;
use std::alloc::Global;

/// What the head of an active side says, and what follows it.
pub(crate) fn read_head(alloc: Global, bytes: &[u8]) -> Result<(Stamp, &[u8]), OpenFault>
    requires opened { IsOpen bytes.now }
    ensures read { IfOk result (λ x. HasHead bytes.now x.0.epoch x.0.base x.0.size x.0.book x.1.now) }
    ensures fault { IfErr result (λ f. (inside : List ℕ) → bytes.now ≡ magic ++ 1 ∷ inside → IsHeadFault inside f) }
{
    let (_, inside) = bytes.split_at(GATE + 1);
    match read_stamp(alloc, inside) {
        Err(ReadFault::Memory) => Err(OpenFault::Memory),
        Err(ReadFault::Misspelt) => Err(OpenFault::Damaged { at: GATE }),
        Ok((stamp, behind)) => Ok((stamp, behind)),
    }
}

/// The figures of what the active side holds, and the book that its batches leave.
pub(crate) fn scan(alloc: Global, active: &ActiveSide) -> Result<(Figures, Book), OpenFault>
    requires opened { IsOpen active.now.bytes.items }
    ensures found { IfOk result (λ r. (c : Contents) → IsRead active.now c → IsFound r.0 c r.1) }
    ensures fault { IfErr result (λ f. (c : Contents) → IsRead active.now c → Explains c f) }
    ensures never_disk { IsErrOf result OpenFault.Disk → ⊥ }
{
    let bytes = active.bytes.as_slice();
    let (stamp, behind) = read_head(alloc, bytes)?;
    let Stamp {
        epoch,
        base,
        size,
        book,
    } = stamp;
    let found = match walk(alloc, book, bytes, behind) {
        Ok(found) => found,
        Err(fault) => return Err(fault),
    };
    let Some(last) = base.checked_add(found.count) else {
        return Err(OpenFault::Memory);
    };
    let figures = Figures {
        side: active.side,
        epoch,
        base,
        size,
        place: found.place,
        last,
        idle_open: active.idle_open,
    };
    Ok((figures, found.book))
}

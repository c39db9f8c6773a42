//! A checkpoint on the idle side, which becomes the active one.
ghost use Rattle.std.specs.Prelude.{◌≡◌, ◌⊎◌, ◌+◌, ◌<◌, ◌++◌, [], ◌∷◌, ℕ, List, false, OnOk, IfOk, IfErr, IsErrOf};
ghost use Rattle.disk_core.specs.Disk.{LeavesOnly, HasCause};
ghost use Rattle.disk_core.specs.Twin.{other};
ghost use Rattle.book_model.specs.declared.act.Act.{Act};
ghost use Rattle.book_model.specs.Book.{BookView};
ghost use Rattle.journal_codec.specs.Batches.{book_after};
ghost use Rattle.twin_journal.specs.Figures.{IsAt, StartsAt, IsFilled, IsRenewed};
ghost use Rattle.twin_journal.specs.Format.{checkpoint_size};
ghost use Rattle.twin_journal.specs.Holding.{TwinHolds};
ghost use Rattle.twin_journal.specs.declared.figures.Figures.{Figures as TheFigures};

use crate::device::{put, refill};
use crate::figures::Figures;
use crate::gate::GATE;
use crate::numbers::LARGEST;
use crate::scratch::Scratch;
use crate::stamp::fill_of;
use book_core::Book;
use disk_core::{DiskFault, Twin};
use gate_journal::JournalFault;

/// Shuts the gate of the idle side, if it is open. Nothing is written over a gate that isn't: a side may end behind it.
fn shut_idle<T: Twin>(twin: &mut T, figures: Figures) -> Result<(), DiskFault>
    ensures done { OnOk result ((stamp : List ℕ) (start : BookView) (bs : List (List Act))
        → IsAt figures (T.seen twin.old) (T.may_leave twin.old) stamp start bs
        → IsAt (record figures { idle_open = false }) (T.seen twin.new) (T.may_leave twin.new) stamp start bs) }
    ensures any_moment { (stamp : List ℕ) (start : BookView) (bs : List (List Act))
        → IsAt figures (T.seen twin.old) (T.may_leave twin.old) stamp start bs
        → LeavesOnly T.moment T.left_since twin.old twin.new (λ c. TwinHolds c figures.base start bs) }
    ensures cause { HasCause (T.failures twin.old) (T.failures twin.new) result }
{
    if !figures.idle_open {
        return Ok(());
    }
    put(twin, figures.side.other(), GATE, &[0])
}

/// Writes what the idle side has behind its gate, which isn't open.
fn fill_idle<T: Twin>(twin: &mut T, figures: Figures, fill: &[u8]) -> Result<(), DiskFault>
    ensures done { OnOk result ((stamp : List ℕ) (start : BookView) (bs : List (List Act)) → figures.idle_open ≡ false
        → IsAt figures (T.seen twin.old) (T.may_leave twin.old) stamp start bs
        → IsAt figures (T.seen twin.new) (T.may_leave twin.new) stamp start bs) }
    ensures filled { OnOk result ((stamp : List ℕ) (start : BookView) (bs : List (List Act)) → figures.idle_open ≡ false
        → IsAt figures (T.seen twin.old) (T.may_leave twin.old) stamp start bs
        → IsFilled fill.now (T.seen twin.new (other figures.side))) }
    ensures any_moment { (stamp : List ℕ) (start : BookView) (bs : List (List Act)) → figures.idle_open ≡ false
        → IsAt figures (T.seen twin.old) (T.may_leave twin.old) stamp start bs
        → LeavesOnly T.moment T.left_since twin.old twin.new (λ c. TwinHolds c figures.base start bs) }
    ensures cause { HasCause (T.failures twin.old) (T.failures twin.new) result }
{
    refill(twin, figures.side.other(), GATE + 1, fill)
}

/// Opens the gate of the idle side, which has a checkpoint with a higher epoch behind it: it is the active one then.
fn open_idle<T: Twin>(twin: &mut T, figures: Figures) -> Result<(), DiskFault>
    ensures done { OnOk result ((stamp renewed : List ℕ) (start book : BookView) (bs : List (List Act)) (next : TheFigures)
        → IsAt figures (T.seen twin.old) (T.may_leave twin.old) stamp start bs → IsRenewed figures next renewed book
        → IsFilled (renewed ++ 0 ∷ []) (T.seen twin.old (other figures.side))
        → IsAt next (T.seen twin.new) (T.may_leave twin.new) renewed book []) }
    ensures any_moment { (stamp renewed : List ℕ) (start book : BookView) (bs : List (List Act)) (next : TheFigures)
        → IsAt figures (T.seen twin.old) (T.may_leave twin.old) stamp start bs → IsRenewed figures next renewed book
        → IsFilled (renewed ++ 0 ∷ []) (T.seen twin.old (other figures.side))
        → LeavesOnly T.moment T.left_since twin.old twin.new
        (λ c. TwinHolds c figures.base start bs ⊎ TwinHolds c figures.last book []) }
    ensures cause { HasCause (T.failures twin.old) (T.failures twin.new) result }
{
    put(twin, figures.side.other(), GATE, &[1])
}

/// Writes a checkpoint on the idle side, given as these bytes behind its gate. Either side is the active one at each
/// moment.
fn write_checkpoint<T: Twin>(twin: &mut T, figures: Figures, fill: &[u8]) -> Result<(), DiskFault>
    ensures done { OnOk result ((stamp renewed : List ℕ) (start book : BookView) (bs : List (List Act)) (next : TheFigures)
        → IsAt figures (T.seen twin.old) (T.may_leave twin.old) stamp start bs → IsRenewed figures next renewed book
        → fill.now ≡ renewed ++ 0 ∷ [] → IsAt next (T.seen twin.new) (T.may_leave twin.new) renewed book []) }
    ensures any_moment { (stamp renewed : List ℕ) (start book : BookView) (bs : List (List Act)) (next : TheFigures)
        → IsAt figures (T.seen twin.old) (T.may_leave twin.old) stamp start bs → IsRenewed figures next renewed book
        → fill.now ≡ renewed ++ 0 ∷ [] → LeavesOnly T.moment T.left_since twin.old twin.new
        (λ c. TwinHolds c figures.base start bs ⊎ TwinHolds c figures.last book []) }
    ensures cause { HasCause (T.failures twin.old) (T.failures twin.new) result }
{
    shut_idle(twin, figures)?;
    let shut = Figures {
        idle_open: false,
        ..figures
    };
    fill_idle(twin, shut, fill)?;
    open_idle(twin, shut)
}

/// Makes a checkpoint of the book that the batches leave, and gives the figures with it. It takes five calls of the
/// twin, or seven where the gate of the idle side is open.
pub(crate) fn renew<T: Twin>(
    twin: &mut T,
    scratch: &mut Scratch,
    figures: Figures,
    book: &Book,
) -> Result<Figures, JournalFault>
    ensures done { IfOk result (λ new. (stamp : List ℕ) (start : BookView) (bs : List (List Act))
        → IsAt figures (T.seen twin.old) (T.may_leave twin.old) stamp start bs → book_after start bs ≡ book.now
        → StartsAt new (T.seen twin.new) (T.may_leave twin.new) book.now) }
    ensures base { IfOk result (λ new. new.base ≡ figures.last) }
    ensures last { IfOk result (λ new. new.last ≡ figures.last) }
    ensures size { IfOk result (λ new. new.size ≡ checkpoint_size book.now) }
    ensures place { IfOk result (λ new. new.place ≡ 29 + checkpoint_size book.now) }
    ensures any_moment { (stamp : List ℕ) (start : BookView) (bs : List (List Act))
        → IsAt figures (T.seen twin.old) (T.may_leave twin.old) stamp start bs → book_after start bs ≡ book.now
        → LeavesOnly T.moment T.left_since twin.old twin.new
        (λ c. TwinHolds c figures.base start bs ⊎ TwinHolds c figures.last book.now []) }
    ensures fault { IfErr result (λ f. (f ≡ JournalFault.Disk) ⊎ (f ≡ JournalFault.Memory)) }
    ensures disk { IsErrOf result JournalFault.Disk → T.failures twin.old < T.failures twin.new }
    ensures no_other { (IsErrOf result JournalFault.Disk → ⊥) → T.failures twin.new ≡ T.failures twin.old }
{
    let Some(epoch) = figures.epoch.checked_add(1) else {
        return Err(JournalFault::Memory);
    };
    if epoch >= LARGEST {
        return Err(JournalFault::Memory);
    }
    let fill = fill_of(scratch, epoch, figures.last, book)?;
    let next = Figures {
        side: figures.side.other(),
        epoch,
        base: figures.last,
        size: fill.size,
        place: GATE + fill.bytes.len(),
        last: figures.last,
        idle_open: true,
    };
    write_checkpoint(twin, figures, fill.bytes.as_slice())?;
    scratch.keep(fill.bytes);
    Ok(next)
}

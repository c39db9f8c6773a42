//! What a record of two files notes of each call.
ghost use Rattle.std.specs.Prelude.{◌≡◌, ◌∷◌, []};
ghost use Rattle.disk_core.specs.Event.{Wrote, Synced};
ghost use Rattle.disk_core.specs.Note.{turns_noted};
ghost use Rattle.disk_core.specs.Turns.{Of, add, write_event, cut_event, sync_event};
ghost use Rattle.disk_core.specs.declared.side.Side.TheVariants.{First, Second};

use crate::record::{BEGAN_CUT, BEGAN_WRITE, Record, SHORTENED, SYNCED, WROTE};
use crate::{DiskFault, Side};

/// Notes a write by its answer, and hands the answer on.
pub(crate) fn note_write(
    history: &mut Record,
    side: Side,
    at: usize,
    bytes: &[u8],
    done: Result<(), DiskFault>,
) -> Result<(), DiskFault>
    ensures noted { turns_noted history.new.notes ≡ add side (write_event at bytes.now done) (turns_noted history.old.notes) }
    ensures answer { result ≡ done }
{
    match done {
        Ok(()) => history.note(&[WROTE, at as u64, side.number() as u64], bytes),
        Err(DiskFault::Failed) => history.note(
            &[BEGAN_WRITE, at as u64, side.number() as u64],
            bytes,
        ),
        Err(DiskFault::Memory) => {}
    }
    done
}

/// Notes a cut by its answer, and hands the answer on.
pub(crate) fn note_cut(
    history: &mut Record,
    side: Side,
    len: usize,
    done: Result<(), DiskFault>,
) -> Result<(), DiskFault>
    ensures noted { turns_noted history.new.notes ≡ add side (cut_event len done) (turns_noted history.old.notes) }
    ensures answer { result ≡ done }
{
    match done {
        Ok(()) => history.note(&[SHORTENED, len as u64, side.number() as u64], &[]),
        Err(DiskFault::Failed) => history.note(&[BEGAN_CUT, len as u64, side.number() as u64], &[]),
        Err(DiskFault::Memory) => {}
    }
    done
}

/// Notes a sync by its answer, and hands the answer on.
pub(crate) fn note_sync(
    history: &mut Record,
    side: Side,
    done: Result<(), DiskFault>,
) -> Result<(), DiskFault>
    ensures noted { turns_noted history.new.notes ≡ add side (sync_event done) (turns_noted history.old.notes) }
    ensures answer { result ≡ done }
{
    if done.is_ok() {
        history.note(&[SYNCED, 0, side.number() as u64], &[]);
    }
    done
}

/// The record of two files that were found with these bytes, which may be all that a crash leaves of them or not.
pub(crate) fn found(first: &[u8], second: &[u8]) -> Record
    ensures { turns_noted result.notes ≡ Of Second (Wrote 0 second.now) ∷ Of First (Wrote 0 first.now) ∷ [] }
{
    let mut history = Record::new();
    history.note(&[WROTE, 0, 0], first);
    history.note(&[WROTE, 0, 1], second);
    history
}

/// The record of two files that hold these bytes, all of them synced.
pub(crate) fn synced(first: &[u8], second: &[u8]) -> Record
    ensures { turns_noted result.notes ≡ Of Second Synced ∷ Of First Synced ∷ Of Second (Wrote 0 second.now) ∷ Of First (Wrote 0 first.now) ∷ [] }
{
    let mut history = found(first, second);
    history.note(&[SYNCED, 0, 0], &[]);
    history.note(&[SYNCED, 0, 1], &[]);
    history
}

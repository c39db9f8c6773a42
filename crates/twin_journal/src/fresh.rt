//! A new journal.
ghost use Rattle.std.specs.Prelude.{◌≡◌, [], OnOk};
ghost use Rattle.disk_core.specs.Disk.{Only, HasCause};
ghost use Rattle.book_model.specs.Book.{empty_book};
ghost use Rattle.twin_journal.specs.Format.{fresh};
ghost use Rattle.twin_journal.specs.Holding.{TwinHolds};

use crate::device::refill;
use disk_core::{DiskFault, Side, Twin};

/// The side that is active at first: its head, with the checkpoint of the empty book, and the gate of the first batch.
const ACTIVE: [u8; 46] = [
    65, 77, 81, 82, 74, 48, 48, 50, 1, // the magic, and an open gate
    0, 0, 0, 0, 0, 0, 0, 1, // the epoch
    0, 0, 0, 0, 0, 0, 0, 0, // the base
    0, 0, 0, 16, // the length of the checkpoint
    0, 0, 0, 0, 0, 0, 0, 1, // the next terminus
    0, 0, 0, 0, 0, 0, 0, 1, // the next row
    0, // a closed gate
];

/// The other side: the magic, and a closed gate.
const IDLE: [u8; 9] = [65, 77, 81, 82, 74, 48, 48, 50, 0];

/// Makes the journal of no batches on two files, whatever they held: 46 bytes and 9, synced at `Ok`. The file of 9
/// bytes is made first; a crash during the call, or after it where it fails, may leave any bytes.
pub fn format<T: Twin>(twin: &mut T) -> Result<(), DiskFault>
    ensures formatted { OnOk result (T.seen twin.new ≡ fresh) }
    ensures durable { OnOk result (Only (T.seen twin.new) (T.may_leave twin.new)) }
    ensures empty { OnOk result (TwinHolds (T.seen twin.new) 0 empty_book []) }
    ensures cause { HasCause (T.failures twin.old) (T.failures twin.new) result }
{
    refill(twin, Side::Second, 0, &IDLE)?;
    refill(twin, Side::First, 0, &ACTIVE)
}

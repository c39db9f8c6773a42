//! A new journal.
ghost use Rattle.std.specs.Prelude.{◌≡◌, ◌<◌, [], OnOk, IsErrOf};
ghost use Rattle.disk_core.specs.Disk.{Only};
ghost use Rattle.journal_codec.specs.Format.{fresh};
ghost use Rattle.journal_codec.specs.Batches.{Holds};
ghost use Rattle.gate_journal.specs.Stands.{IsAt};

use disk_core::{Disk, DiskFault};

/// Makes the journal of no batches on a disk, whatever it held: nine bytes, synced at `Ok`. It begins with a cut
/// of all, so a crash during it, or after it where it fails, may leave any bytes.
pub fn format<D: Disk>(disk: &mut D) -> Result<(), DiskFault>
    ensures formatted { OnOk result (D.seen disk.new ≡ fresh) }
    ensures durable { OnOk result (Only (D.seen disk.new) (D.may_leave disk.new)) }
    ensures empty { OnOk result (Holds (D.seen disk.new) []) }
    ensures cause { IsErrOf result DiskFault.Failed → D.failures disk.old < D.failures disk.new }
{
    disk.cut(0)?;
    disk.write_at(0, &[65, 77, 81, 82, 74, 48, 48, 49, 0])?;
    disk.sync()?;
    Ok(())
}

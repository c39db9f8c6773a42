//! A synced write.
ghost use Rattle.std.specs.Prelude.{◌≡◌, ◌+◌, ℕ, List, OnOk, length};
ghost use Rattle.disk_core.specs.Disk.{overwritten, between, Agrees, Only, LeavesOnly, HasCause};

use disk_core::{Disk, DiskFault};

/// Writes, and waits until the bytes are on the disk.
pub(crate) fn put<D: Disk>(disk: &mut D, at: usize, bytes: &[u8]) -> Result<(), DiskFault>
    ensures written { OnOk result (D.seen disk.new ≡ overwritten at bytes.now (D.seen disk.old)) }
    ensures durable { OnOk result (Only (D.seen disk.new) (D.may_leave disk.new)) }
    ensures moments { (file : List ℕ) → Only file (D.may_leave disk.old)
        → LeavesOnly D.moment D.left_since disk.old disk.new (Agrees (between at (at + length bytes.now)) file) }
    ensures cause { HasCause (D.failures disk.old) (D.failures disk.new) result }
{
    disk.write_at(at, bytes)?;
    disk.sync()
}

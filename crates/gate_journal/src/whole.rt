//! All bytes of a disk.
ghost use Rattle.std.specs.Prelude.{◌≡◌, ◌<◌, ◌⊎◌, OnOk, IfOk, IfErr, IsErrOf};
ghost use Rattle.disk_core.specs.Disk.{Only, NoMore, LeavesOnly};

use crate::fault::OpenFault;
use disk_core::Disk;
use std::alloc::Global;

/// Syncs what was written, and reads all of it.
pub(crate) fn read_all<D: Disk>(alloc: Global, disk: &mut D) -> Result<Vec<u8>, OpenFault>
    ensures bytes { IfOk result (λ v. v.items ≡ D.seen disk.old) }
    ensures seen { OnOk result (D.seen disk.new ≡ D.seen disk.old) }
    ensures durable { OnOk result (Only (D.seen disk.new) (D.may_leave disk.new)) }
    ensures crash { NoMore (D.may_leave disk.old) (D.may_leave disk.new) }
    ensures moments { LeavesOnly D.moment D.left_since disk.old disk.new (D.may_leave disk.old) }
    ensures disk { IsErrOf result OpenFault.Disk → D.failures disk.old < D.failures disk.new }
    ensures other { IfErr result (λ f. (f ≡ OpenFault.Disk) ⊎ (f ≡ OpenFault.Memory)) }
{
    disk.sync()?;
    let len = disk.len()?;
    let mut bytes = Vec::new(alloc);
    bytes.resize(len, 0)?;
    let count = disk.read_at(0, &mut bytes)?;
    bytes.truncate(count);
    Ok(bytes)
}

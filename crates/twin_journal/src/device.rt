//! Synced changes of one side.
ghost use Rattle.std.specs.Prelude.{◌≡◌, ◌+◌, ◌++◌, ℕ, List, OnOk, length, take};
ghost use Rattle.disk_core.specs.Disk.{overwritten, between, from, NoMore, Only, LeavesOnly, HasCause};
ghost use Rattle.disk_core.specs.Twin.{other, OnSide};
ghost use Rattle.disk_core.specs.TwinLaws.{SpoiltOn};

use disk_core::{DiskFault, Side, Twin};

/// Writes on a side, and waits until the bytes are there.
pub(crate) fn put<T: Twin>(
    twin: &mut T,
    side: Side,
    at: usize,
    bytes: &[u8],
) -> Result<(), DiskFault>
    ensures written { OnOk result (T.seen twin.new side ≡ overwritten at bytes.now (T.seen twin.old side)) }
    ensures other { T.seen twin.new (other side) ≡ T.seen twin.old (other side) }
    ensures durable { OnOk result (Only (T.seen twin.old) (T.may_leave twin.old)
        → Only (T.seen twin.new) (T.may_leave twin.new)) }
    ensures moments { Only (T.seen twin.old) (T.may_leave twin.old) → LeavesOnly T.moment T.left_since twin.old twin.new
        (SpoiltOn side (between at (at + length bytes.now)) (T.seen twin.old)) }
    ensures cause { HasCause (T.failures twin.old) (T.failures twin.new) result }
{
    twin.write_at(side, at, bytes)?;
    twin.sync(side)
}

/// Makes these bytes all that a side has from a place on, and waits until they are there.
pub(crate) fn refill<T: Twin>(
    twin: &mut T,
    side: Side,
    at: usize,
    bytes: &[u8],
) -> Result<(), DiskFault>
    ensures written { OnOk result (T.seen twin.new side ≡ overwritten at bytes.now (take at (T.seen twin.old side))) }
    ensures pinned { OnOk result (Only (T.seen twin.new side) (OnSide side (T.may_leave twin.new))) }
    ensures other { T.seen twin.new (other side) ≡ T.seen twin.old (other side) }
    ensures other_crash { NoMore (OnSide (other side) (T.may_leave twin.old)) (OnSide (other side) (T.may_leave twin.new)) }
    ensures durable { OnOk result (Only (T.seen twin.old) (T.may_leave twin.old)
        → Only (T.seen twin.new) (T.may_leave twin.new)) }
    ensures moments { Only (T.seen twin.old) (T.may_leave twin.old) → LeavesOnly T.moment T.left_since twin.old twin.new
        (SpoiltOn side (from at) (T.seen twin.old)) }
    ensures cause { HasCause (T.failures twin.old) (T.failures twin.new) result }
{
    twin.cut(side, at)?;
    twin.write_at(side, at, bytes)?;
    twin.sync(side)
}

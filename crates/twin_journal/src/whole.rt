//! What two files say: which side is active, and all of its bytes.
ghost use Rattle.std.specs.Prelude.{◌≡◌, ◌<◌, ◌⊎◌, OnOk, IfOk, IfErr, IsErrOf};
ghost use Rattle.disk_core.specs.Disk.{Only, NoMore, LeavesOnly, HasCause};
ghost use Rattle.twin_journal.specs.Judging.{Explains, IsGateFault};
ghost use Rattle.twin_journal.specs.Reading.{IsRead, IsUnwritten};
ghost use Rattle.twin_journal.specs.Sides.{Says};

use crate::gate::{GATE, Gate, active_side, gate_of};
use disk_core::{DiskFault, Side, Twin};
use gate_journal::OpenFault;
use std::alloc::Global;

/// How many bytes of a side have its gate and the epoch behind it.
const BEGINNING: usize = 17;

/// Syncs both sides.
fn sync_both<T: Twin>(twin: &mut T) -> Result<(), DiskFault>
    ensures seen { OnOk result (T.seen twin.new ≡ T.seen twin.old) }
    ensures durable { OnOk result (Only (T.seen twin.new) (T.may_leave twin.new)) }
    ensures unwritten { IsUnwritten T.moment T.left_since T.may_leave twin.old twin.new }
    ensures cause { HasCause (T.failures twin.old) (T.failures twin.new) result }
{
    twin.sync(Side::First)?;
    twin.sync(Side::Second)
}

/// What the first bytes of a side say.
fn gate_at<T: Twin>(twin: &mut T, side: Side) -> Result<Gate, OpenFault>
    ensures says { IfOk result (Says (T.seen twin.old side)) }
    ensures fault { IfErr result (IsGateFault (T.seen twin.old side)) }
    ensures seen { T.seen twin.new ≡ T.seen twin.old }
    ensures unwritten { IsUnwritten T.moment T.left_since T.may_leave twin.old twin.new }
    ensures disk { IsErrOf result OpenFault.Disk → T.failures twin.old < T.failures twin.new }
    ensures no_other { (IsErrOf result OpenFault.Disk → ⊥) → T.failures twin.new ≡ T.failures twin.old }
{
    let mut buffer = [0u8; BEGINNING];
    let count = twin.read_at(side, 0, &mut buffer)?;
    match gate_of(&buffer[..count]) {
        Some(gate) => Ok(gate),
        None => Err(OpenFault::NotAJournal),
    }
}

/// All bytes of a side.
fn read_side<T: Twin>(alloc: Global, twin: &mut T, side: Side) -> Result<Vec<u8>, OpenFault>
    ensures bytes { IfOk result (λ v. v.items ≡ T.seen twin.old side) }
    ensures fault { IfErr result (λ f. (f ≡ OpenFault.Disk) ⊎ (f ≡ OpenFault.Memory)) }
    ensures seen { T.seen twin.new ≡ T.seen twin.old }
    ensures unwritten { IsUnwritten T.moment T.left_since T.may_leave twin.old twin.new }
    ensures disk { IsErrOf result OpenFault.Disk → T.failures twin.old < T.failures twin.new }
    ensures no_other { (IsErrOf result OpenFault.Disk → ⊥) → T.failures twin.new ≡ T.failures twin.old }
{
    let len = twin.len(side)?;
    let mut bytes = Vec::new(alloc);
    bytes.resize(len, 0)?;
    let count = twin.read_at(side, 0, &mut bytes)?;
    bytes.truncate(count);
    Ok(bytes)
}

/// The active side.
#[derive(Drop)]
pub(crate) struct ActiveSide {
    /// Which one it is.
    pub(crate) side: Side,
    /// Its bytes.
    pub(crate) bytes: Vec<u8>,
    /// Whether the gate of the other side is open.
    pub(crate) idle_open: bool,
}

/// The active side of two files, which are synced first: what is read is what a crash leaves.
pub(crate) fn read_active<T: Twin>(alloc: Global, twin: &mut T) -> Result<ActiveSide, OpenFault>
    ensures read { IfOk result (λ r. IsRead r (T.seen twin.old)) }
    ensures fault { IfErr result (Explains (T.seen twin.old)) }
    ensures seen { OnOk result (T.seen twin.new ≡ T.seen twin.old) }
    ensures unwritten { IsUnwritten T.moment T.left_since T.may_leave twin.old twin.new }
    ensures disk { IsErrOf result OpenFault.Disk → T.failures twin.old < T.failures twin.new }
    ensures no_other { (IsErrOf result OpenFault.Disk → ⊥) → T.failures twin.new ≡ T.failures twin.old }

    // Whatever is answered for the files, they were synced, and a read gives what it gave.
    ensures durable { (IsErrOf result OpenFault.Disk → ⊥) → (IsErrOf result OpenFault.Memory → ⊥)
        → Only (T.seen twin.new) (T.may_leave twin.new) }
    ensures unchanged { (IsErrOf result OpenFault.Disk → ⊥) → (IsErrOf result OpenFault.Memory → ⊥)
        → T.seen twin.new ≡ T.seen twin.old }
{
    sync_both(twin)?;
    let first = gate_at(twin, Side::First)?;
    let second = gate_at(twin, Side::Second)?;
    let Some(side) = active_side(first, second) else {
        return Err(OpenFault::Damaged { at: GATE });
    };
    let idle_open = match side {
        Side::First => second.is_open(),
        Side::Second => first.is_open(),
    };
    let bytes = read_side(alloc, twin, side)?;
    Ok(ActiveSide {
        side,
        bytes,
        idle_open,
    })
}

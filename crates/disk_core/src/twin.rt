//! The two traits of twins: two files that stop together, and such a pair that can be crashed.
ghost use Rattle.std.specs.Prelude.{◌≡◌, ◌≢◌, ◌≤◌, ◌+◌, ◌++◌, [], ℕ, Option, None, drop, length, take, IfOk, OnOk, IsErrOf};
ghost use Rattle.disk_core.specs.Disk.{part, overwritten, between, from, Opens, NoMore, Only, Elapses, HasCause};
ghost use Rattle.disk_core.specs.Twin.{other, Contents, OnSide};

use crate::{DiskFault, Side};
use std::alloc::AllocError;

/// Two files on a device that may stop at any moment: a stop takes both at once.
///
/// Each call is a call of [`Disk`](crate::Disk) on one side, whose answers it gives: the other side stays. Time and the
/// count of failures are common to both sides.
pub trait Twin: Drop {
    /// The bytes that a read gives, of each side.
    ghost seen: { Self → Contents };

    /// What a crash at this moment may leave, of both sides together.
    ghost may_leave: { Self → Contents → Type 0 };

    /// The moment, as a number that never decreases.
    ghost moment: { Self → ℕ };

    /// What a crash at some moment from that one on might have left, during a call or between two: of both sides what it left
    /// at one moment.
    ghost left_since: { Self → ℕ → Contents → Type 0 };

    /// How often the device has failed, on either side.
    ghost failures: { Self → ℕ };

    /// The number of bytes of a side.
    fn len(&mut self, side: Side) -> Result<usize, DiskFault>
        ensures length { IfOk result (λ n. n ≡ length (seen self.old side)) }
        ensures seen { seen self.new ≡ seen self.old }
        ensures crash { NoMore (may_leave self.old) (may_leave self.new) }
        ensures time { Elapses (moment self.old) (moment self.new)
            (left_since self.old) (left_since self.new)
            (may_leave self.new) }
        ensures cause { HasCause (failures self.old) (failures self.new) result };

    /// Reads of a side as much as there is from a place on and fits into the buffer: nothing past the end. The rest of the
    /// buffer stays. At an `Err` the buffer may hold anything.
    fn read_at(&mut self, side: Side, at: usize, buffer: &mut [u8]) -> Result<usize, DiskFault>
        ensures count { IfOk result
            (λ n. n ≡ length (part at (length buffer.old) (seen self.old side))) }
        ensures bytes { IfOk result
            (λ n. buffer.new ≡ part at (length buffer.old) (seen self.old side) ++ drop n buffer.old) }
        ensures seen { seen self.new ≡ seen self.old }
        ensures crash { NoMore (may_leave self.old) (may_leave self.new) }
        ensures time { Elapses (moment self.old) (moment self.new)
            (left_since self.old) (left_since self.new)
            (may_leave self.new) }
        ensures cause { HasCause (failures self.old) (failures self.new) result };

    /// Writes on a side over what is there and past the end, and fills a gap before the place with zeros. Until a sync of that
    /// side a crash may leave any bytes there in the range and past the old end.
    fn write_at(&mut self, side: Side, at: usize, bytes: &[u8]) -> Result<(), DiskFault>
        ensures written { OnOk result (seen self.new side ≡ overwritten at bytes.now (seen self.old side)) }
        ensures crash { Opens (between at (at + length bytes.now))
            (OnSide side (may_leave self.old)) (OnSide side (may_leave self.new)) }

        // The other side stays.
        ensures other { seen self.new (other side) ≡ seen self.old (other side) }
        ensures other_crash { NoMore (OnSide (other side) (may_leave self.old))
            (OnSide (other side) (may_leave self.new)) }

        // No bytes, or no memory: nothing was done.
        ensures idle { bytes.now ≡ [] → NoMore (may_leave self.old) (may_leave self.new) }
        ensures undone { IsErrOf result DiskFault.Memory → seen self.new ≡ seen self.old }
        ensures undone_crash { IsErrOf result DiskFault.Memory →
            NoMore (may_leave self.old) (may_leave self.new) }

        ensures time { Elapses (moment self.old) (moment self.new)
            (left_since self.old) (left_since self.new)
            (may_leave self.new) }
        ensures cause { HasCause (failures self.old) (failures self.new) result };

    /// Cuts a side to a length. At or above the side's own length it changes nothing. Until a sync of that side a crash may
    /// leave any bytes there from that length on.
    fn cut(&mut self, side: Side, len: usize) -> Result<(), DiskFault>
        ensures cut { OnOk result (seen self.new side ≡ take len (seen self.old side)) }
        ensures crash { Opens (from len)
            (OnSide side (may_leave self.old)) (OnSide side (may_leave self.new)) }

        // The other side stays.
        ensures other { seen self.new (other side) ≡ seen self.old (other side) }
        ensures other_crash { NoMore (OnSide (other side) (may_leave self.old))
            (OnSide (other side) (may_leave self.new)) }

        // No byte is cut, or no memory: nothing was done.
        ensures idle { length (seen self.old side) ≤ len →
            NoMore (may_leave self.old) (may_leave self.new) }
        ensures undone { IsErrOf result DiskFault.Memory → seen self.new ≡ seen self.old }
        ensures undone_crash { IsErrOf result DiskFault.Memory →
            NoMore (may_leave self.old) (may_leave self.new) }

        ensures time { Elapses (moment self.old) (moment self.new)
            (left_since self.old) (left_since self.new)
            (may_leave self.new) }
        ensures cause { HasCause (failures self.old) (failures self.new) result };

    /// After it a crash leaves of that side what a read gives, bytes and length. What it may leave of the other side stays.
    fn sync(&mut self, side: Side) -> Result<(), DiskFault>
        ensures durable { OnOk result (Only (seen self.new side) (OnSide side (may_leave self.new))) }
        ensures seen { OnOk result (seen self.new ≡ seen self.old) }
        ensures crash { NoMore (may_leave self.old) (may_leave self.new) }

        // The other side stays.
        ensures other { seen self.new (other side) ≡ seen self.old (other side) }

        // No memory: nothing was done.
        ensures undone { IsErrOf result DiskFault.Memory → seen self.new ≡ seen self.old }

        ensures time { Elapses (moment self.old) (moment self.new)
            (left_since self.old) (left_since self.new)
            (may_leave self.new) }
        ensures cause { HasCause (failures self.old) (failures self.new) result };

    /// What a read gives is one of the things that a crash may leave.
    ghost sees: { (twin : Self) → may_leave twin (seen twin) };

    /// This moment is one of those since an earlier one.
    ghost counts_now: { (twin : Self) (t : ℕ) (c : Contents) → t ≤ moment twin → may_leave twin c → left_since twin t c };

    /// Since this moment there is no other.
    ghost only_now: { (twin : Self) (c : Contents) → left_since twin (moment twin) c → may_leave twin c };
}

/// A twin whose stop can be simulated.
pub trait CrashTwin: Twin {
    /// What a read gave of each side at its last sync, or at first where none was.
    ghost kept: { Self → Contents };

    /// The calls that its fuse still lets through, on both sides together. No fuse is set at `None`.
    ghost lets_through: { Self → Option ℕ };

    /// The fuse after it is set to this many calls: `None` on a twin that has no fuse.
    ghost fused: { ℕ → Option ℕ };

    /// After this many more calls, on either side, every call fails, on a twin that has a fuse; another twin does nothing.
    /// The bytes stay as they are.
    fn fuse(&mut self, calls: u64)
        ensures set { lets_through self.new ≡ fused calls }
        ensures kept { kept self.new ≡ kept self.old }
        ensures seen { Self.Twin.seen self.new ≡ Self.Twin.seen self.old }
        ensures crash { NoMore (Self.Twin.may_leave self.old) (Self.Twin.may_leave self.new) }
        ensures time { Elapses (Self.Twin.moment self.old) (Self.Twin.moment self.new)
            (Self.Twin.left_since self.old) (Self.Twin.left_since self.new)
            (Self.Twin.may_leave self.new) }
        ensures failures { Self.Twin.failures self.new ≡ Self.Twin.failures self.old };

    /// The twin after a stop of both sides, with no fuse set, its failures counted from 0: `how` 0 leaves of each side what its
    /// last sync left, 1 all writes since, and any other number does as 1. What it leaves is synced. At an `Err` the twin is
    /// dropped.
    fn crash(self, how: u8) -> Result<Self, AllocError>
        ensures left { IfOk result (λ twin. Self.Twin.may_leave self (Self.Twin.seen twin)) }
        ensures oldest { how ≡ 0 → IfOk result (λ twin. Self.Twin.seen twin ≡ kept self) }
        ensures newest { how ≢ 0 → IfOk result (λ twin. Self.Twin.seen twin ≡ Self.Twin.seen self) }
        ensures durable { IfOk result
            (λ twin. Only (Self.Twin.seen twin) (Self.Twin.may_leave twin)) }
        ensures fuse { IfOk result (λ twin. lets_through twin ≡ None) }
        ensures failures { IfOk result (λ twin. Self.Twin.failures twin ≡ 0) };

    /// What was synced is one of the things that a crash may leave.
    ghost keeps: { (twin : Self) → Self.Twin.may_leave twin (kept twin) };
}

//! The two traits: a disk, and a disk that can be crashed.
ghost use Rattle.std.specs.Prelude.{◌≡◌, ◌≢◌, ◌≤◌, ◌+◌, ◌++◌, [], List, ℕ, Option, None, drop, length, take, IfOk, OnOk, IsErrOf};
ghost use Rattle.disk_core.specs.Disk.{part, overwritten, between, from, Opens, NoMore, Only, Elapses, HasCause};

use crate::DiskFault;
use std::alloc::AllocError;

/// A file on a device that may stop at any moment.
///
/// Positions and lengths are in bytes. Every call is total: a place past the end, a gap and a length near 2^64 all
/// get an answer. `Failed` comes exactly where the device failed, and its count is then one higher; after a
/// `Failed` write, cut or sync nothing is known of a read but that a crash might leave what it gives. `Memory` comes where
/// memory was refused, or where a position is past what the disk can count; nothing was done then.
pub trait Disk: Drop {
    /// The bytes that a read gives.
    ghost seen: { Self → List ℕ };

    /// What a crash at this moment may leave.
    ghost may_leave: { Self → List ℕ → Type 0 };

    /// The moment, as a number that never decreases.
    ghost moment: { Self → ℕ };

    /// What a crash at some moment from that one on might have left, during a call or between two.
    ghost left_since: { Self → ℕ → List ℕ → Type 0 };

    /// How often the device has failed.
    ghost failures: { Self → ℕ };

    /// The number of bytes.
    fn len(&mut self) -> Result<usize, DiskFault>
        ensures length { IfOk result (λ n. n ≡ length (seen self.old)) }
        ensures seen { seen self.new ≡ seen self.old }
        ensures crash { NoMore (may_leave self.old) (may_leave self.new) }
        ensures time { Elapses (moment self.old) (moment self.new)
            (left_since self.old) (left_since self.new)
            (may_leave self.new) }
        ensures cause { HasCause (failures self.old) (failures self.new) result };

    /// Reads as much as there is from a place on and fits into the buffer: nothing past the end. The rest of the buffer
    /// stays. At an `Err` the buffer may hold anything.
    fn read_at(&mut self, at: usize, buffer: &mut [u8]) -> Result<usize, DiskFault>
        ensures count { IfOk result
            (λ n. n ≡ length (part at (length buffer.old) (seen self.old))) }
        ensures bytes { IfOk result
            (λ n. buffer.new ≡ part at (length buffer.old) (seen self.old) ++ drop n buffer.old) }
        ensures seen { seen self.new ≡ seen self.old }
        ensures crash { NoMore (may_leave self.old) (may_leave self.new) }
        ensures time { Elapses (moment self.old) (moment self.new)
            (left_since self.old) (left_since self.new)
            (may_leave self.new) }
        ensures cause { HasCause (failures self.old) (failures self.new) result };

    /// Writes over what is there and past the end, and fills a gap before the place with zeros. Until a sync a crash
    /// may leave any bytes in the range and past the old end.
    fn write_at(&mut self, at: usize, bytes: &[u8]) -> Result<(), DiskFault>
        ensures written { OnOk result (seen self.new ≡ overwritten at bytes.now (seen self.old)) }
        ensures crash { Opens (between at (at + length bytes.now))
            (may_leave self.old) (may_leave self.new) }

        // No bytes, or no memory: nothing was done.
        ensures idle { bytes.now ≡ [] → NoMore (may_leave self.old) (may_leave self.new) }
        ensures undone { IsErrOf result DiskFault.Memory → seen self.new ≡ seen self.old }
        ensures undone_crash { IsErrOf result DiskFault.Memory →
            NoMore (may_leave self.old) (may_leave self.new) }

        ensures time { Elapses (moment self.old) (moment self.new)
            (left_since self.old) (left_since self.new)
            (may_leave self.new) }
        ensures cause { HasCause (failures self.old) (failures self.new) result };

    /// Cuts the file to a length. At or above the file's own length it changes nothing. Until a sync a crash may
    /// leave any bytes from there on.
    fn cut(&mut self, len: usize) -> Result<(), DiskFault>
        ensures cut { OnOk result (seen self.new ≡ take len (seen self.old)) }
        ensures crash { Opens (from len) (may_leave self.old) (may_leave self.new) }

        // No byte is cut, or no memory: nothing was done.
        ensures idle { length (seen self.old) ≤ len →
            NoMore (may_leave self.old) (may_leave self.new) }
        ensures undone { IsErrOf result DiskFault.Memory → seen self.new ≡ seen self.old }
        ensures undone_crash { IsErrOf result DiskFault.Memory →
            NoMore (may_leave self.old) (may_leave self.new) }

        ensures time { Elapses (moment self.old) (moment self.new)
            (left_since self.old) (left_since self.new)
            (may_leave self.new) }
        ensures cause { HasCause (failures self.old) (failures self.new) result };

    /// After it a crash leaves what a read gives, bytes and length.
    fn sync(&mut self) -> Result<(), DiskFault>
        ensures durable { OnOk result (Only (seen self.new) (may_leave self.new)) }
        ensures seen { OnOk result (seen self.new ≡ seen self.old) }
        ensures crash { NoMore (may_leave self.old) (may_leave self.new) }

        // No memory: nothing was done.
        ensures undone { IsErrOf result DiskFault.Memory → seen self.new ≡ seen self.old }

        ensures time { Elapses (moment self.old) (moment self.new)
            (left_since self.old) (left_since self.new)
            (may_leave self.new) }
        ensures cause { HasCause (failures self.old) (failures self.new) result };

    /// What a read gives is one of the things that a crash may leave.
    ghost sees: { (disk : Self) → may_leave disk (seen disk) };

    /// This moment is one of those since an earlier one.
    ghost counts_now: { (disk : Self) (t : ℕ) (c : List ℕ) → t ≤ moment disk → may_leave disk c → left_since disk t c };

    /// Since this moment there is no other.
    ghost only_now: { (disk : Self) (c : List ℕ) → left_since disk (moment disk) c → may_leave disk c };
}

/// A disk whose stop can be simulated.
pub trait Crash: Disk {
    /// What a read gave at the last sync, or at first where none was.
    ghost kept: { Self → List ℕ };

    /// The calls that its fuse still lets through. No fuse is set at `None`.
    ghost lets_through: { Self → Option ℕ };

    /// The fuse after it is set to this many calls: `None` on a disk that has no fuse.
    ghost fused: { ℕ → Option ℕ };

    /// After this many more calls every call fails, on a disk that has a fuse; another disk does nothing. The bytes
    /// stay as they are.
    fn fuse(&mut self, calls: u64)
        ensures set { lets_through self.new ≡ fused calls }
        ensures kept { kept self.new ≡ kept self.old }
        ensures seen { Self.Disk.seen self.new ≡ Self.Disk.seen self.old }
        ensures crash { NoMore (Self.Disk.may_leave self.old) (Self.Disk.may_leave self.new) }
        ensures time { Elapses (Self.Disk.moment self.old) (Self.Disk.moment self.new)
            (Self.Disk.left_since self.old) (Self.Disk.left_since self.new)
            (Self.Disk.may_leave self.new) }
        ensures failures { Self.Disk.failures self.new ≡ Self.Disk.failures self.old };

    /// The disk after a stop, with no fuse set, its failures counted from 0: `how` 0 leaves what the last sync left,
    /// 1 all writes since, and any other number does as 1. What it leaves is synced. At an `Err` the disk is
    /// dropped.
    fn crash(self, how: u8) -> Result<Self, AllocError>
        ensures left { IfOk result (λ disk. Self.Disk.may_leave self (Self.Disk.seen disk)) }
        ensures oldest { how ≡ 0 → IfOk result (λ disk. Self.Disk.seen disk ≡ kept self) }
        ensures newest { how ≢ 0 → IfOk result (λ disk. Self.Disk.seen disk ≡ Self.Disk.seen self) }
        ensures durable { IfOk result
            (λ disk. Only (Self.Disk.seen disk) (Self.Disk.may_leave disk)) }
        ensures fuse { IfOk result (λ disk. lets_through disk ≡ None) }
        ensures failures { IfOk result (λ disk. Self.Disk.failures disk ≡ 0) };

    /// What was synced is one of the things that a crash may leave.
    ghost keeps: { (disk : Self) → Self.Disk.may_leave disk (kept disk) };
}

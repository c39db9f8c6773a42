//! Two files in memory.
ghost use Rattle.std.specs.Prelude.{◌≡◌, ◌≢◌, ◌≤◌, ◌+◌, [], None, length, take, IfOk, OnOk, IsErrOf};
ghost use Rattle.disk_core.specs.Disk.{overwritten, between, from, Opens, NoMore, Only, Elapses, HasCause};
ghost use Rattle.disk_core.specs.Memory.{bytes_of, synced_bytes, images_of as disk_images};
ghost use Rattle.disk_core.specs.Call.{events_of};
ghost use Rattle.disk_core.specs.ImageLaws.{image_kept};
ghost use Rattle.disk_core.specs.Note.{turns_noted};
ghost use Rattle.disk_core.specs.TurnLaws.{told_prop, left_as_seen, left_counts, left_only, left_each};
ghost use Rattle.disk_core.specs.Turns.{on, both, LeftNow, LeftSince, Told};
ghost use Rattle.disk_core.specs.Twin.{other, OnSide};
ghost use Rattle.disk_core.specs.declared.side.Side.TheVariants.{First, Second};

use crate::overwrite::copy_part;
use crate::record::Record;
use crate::turn::{note_cut, note_sync, note_write, synced};
use crate::{Crash, CrashTwin, Disk, DiskFault, MemDisk, Side, Twin};
use std::alloc::{AllocError, Global};

/// Two files in memory, with a record of what was done to both: what a crash may leave of them at one moment is what it
/// replays. They fail only by memory.
#[derive(Drop)]
pub struct MemTwin {
    first: MemDisk,
    second: MemDisk,
    history: Record,
    ghost first_told: { Told (on First (turns_noted history.notes)) (bytes_of first) (disk_images first) } by { told_prop (on First (turns_noted history.notes)) (bytes_of first) (disk_images first) },
    ghost second_told: { Told (on Second (turns_noted history.notes)) (bytes_of second) (disk_images second) } by { told_prop (on Second (turns_noted history.notes)) (bytes_of second) (disk_images second) },
}

impl MemTwin {
    ghost use Rattle.disk_core.specs.MemTwin.{contents_of, synced_contents, images_of};

    /// Two empty files.
    pub fn new(alloc: Global) -> Self
        ensures contents { contents_of result ≡ both [] [] }
        ensures synced { synced_contents result ≡ both [] [] }
        ensures durable { Only (both [] []) (images_of result) }
    {
        MemTwin::over(MemDisk::new(alloc), MemDisk::new(alloc))
    }

    /// Two files of synced disks.
    fn over(first: MemDisk, second: MemDisk) -> Self
        requires first { Only (bytes_of first) (disk_images first) }
        requires second { Only (bytes_of second) (disk_images second) }
        ensures contents { contents_of result ≡ both (bytes_of first) (bytes_of second) }
        ensures synced { synced_contents result ≡ both (synced_bytes first) (synced_bytes second) }
        ensures durable { Only (both (bytes_of first) (bytes_of second)) (images_of result) }
    {
        let history = synced(first.bytes(), second.bytes());
        MemTwin {
            first,
            second,
            history,
        }
    }

    /// Two files that hold these bytes, all of them synced.
    pub fn holding(alloc: Global, first: Vec<u8>, second: Vec<u8>) -> Result<Self, AllocError>
        ensures contents { IfOk result (λ twin. contents_of twin ≡ both first.items second.items) }
        ensures synced { IfOk result (λ twin. synced_contents twin ≡ both first.items second.items) }
        ensures durable { IfOk result (λ twin. Only (both first.items second.items) (images_of twin)) }
    {
        Ok(MemTwin::over(
            MemDisk::holding(alloc, first)?,
            MemDisk::holding(alloc, second)?,
        ))
    }

    /// The bytes that a read of a side gives.
    pub fn bytes(&self, side: Side) -> &[u8]
        ensures { result.now ≡ contents_of self.now side }
    {
        match side {
            Side::First => self.first.bytes(),
            Side::Second => self.second.bytes(),
        }
    }
}

#[tactic(auto, using(crate::specs::TurnLaws::both_same, crate::proofs::TwinCalls::write_opens_on, crate::proofs::TwinCalls::cut_opens_on, crate::proofs::TwinCalls::other_stays_on))]
impl Twin for MemTwin {
    ghost use Rattle.disk_core.specs.MemTwin.{contents_of, synced_contents, images_of, moment_of, left_since_of};

    ghost seen = { λ m. both (bytes_of m.first) (bytes_of m.second) };

    ghost may_leave = { λ m. LeftNow (turns_noted m.history.notes) };

    ghost moment = { λ m. length (turns_noted m.history.notes) };

    ghost left_since = { λ m. LeftSince (turns_noted m.history.notes) };

    ghost failures = { λ m. 0 };

    ghost sees = { λ m. left_as_seen (turns_noted m.history.notes) (bytes_of m.first) (bytes_of m.second) m.first_told.read m.second_told.read };

    ghost counts_now = { λ m t c le now. left_counts (turns_noted m.history.notes) t c now };

    ghost only_now = { λ m c left. left_only (turns_noted m.history.notes) c left };

    fn len(&mut self, side: Side) -> Result<usize, DiskFault> {
        Ok(self.bytes(side).len())
    }

    fn read_at(&mut self, side: Side, at: usize, buffer: &mut [u8]) -> Result<usize, DiskFault> {
        Ok(copy_part(self.bytes(side), at, buffer))
    }

    fn write_at(&mut self, side: Side, at: usize, bytes: &[u8]) -> Result<(), DiskFault>
        ensures written { OnOk result (contents_of self.new side ≡ overwritten at bytes.now (contents_of self.old side)) }
        ensures crash { Opens (between at (at + length bytes.now))
            (OnSide side (images_of self.old)) (OnSide side (images_of self.new)) }
        ensures other { contents_of self.new (other side) ≡ contents_of self.old (other side) }
        ensures other_crash { NoMore (OnSide (other side) (images_of self.old)) (OnSide (other side) (images_of self.new)) }
        ensures idle { bytes.now ≡ [] → NoMore (images_of self.old) (images_of self.new) }
        ensures undone { IsErrOf result DiskFault.Memory → contents_of self.new ≡ contents_of self.old }
        ensures undone_crash { IsErrOf result DiskFault.Memory → NoMore (images_of self.old) (images_of self.new) }
        ensures time { Elapses (moment_of self.old) (moment_of self.new)
            (left_since_of self.old) (left_since_of self.new) (images_of self.new) }
        ensures cause { HasCause 0 0 result }

        // It isn't on the disk before the next sync of its side.
        ensures kept { synced_contents self.new ≡ synced_contents self.old }
    {
        if bytes.is_empty() {
            return Ok(());
        }
        match side {
            Side::First => {
                let done = self.first.write_at(at, bytes);
                note_write(&mut self.history, Side::First, at, bytes, done)
            }
            Side::Second => {
                let done = self.second.write_at(at, bytes);
                note_write(&mut self.history, Side::Second, at, bytes, done)
            }
        }
    }

    fn cut(&mut self, side: Side, len: usize) -> Result<(), DiskFault>
        ensures cut { OnOk result (contents_of self.new side ≡ take len (contents_of self.old side)) }
        ensures crash { Opens (from len) (OnSide side (images_of self.old)) (OnSide side (images_of self.new)) }
        ensures other { contents_of self.new (other side) ≡ contents_of self.old (other side) }
        ensures other_crash { NoMore (OnSide (other side) (images_of self.old)) (OnSide (other side) (images_of self.new)) }
        ensures idle { length (contents_of self.old side) ≤ len → NoMore (images_of self.old) (images_of self.new) }
        ensures undone { IsErrOf result DiskFault.Memory → contents_of self.new ≡ contents_of self.old }
        ensures undone_crash { IsErrOf result DiskFault.Memory → NoMore (images_of self.old) (images_of self.new) }
        ensures time { Elapses (moment_of self.old) (moment_of self.new)
            (left_since_of self.old) (left_since_of self.new) (images_of self.new) }
        ensures cause { HasCause 0 0 result }

        // It isn't on the disk before the next sync of its side.
        ensures kept { synced_contents self.new ≡ synced_contents self.old }
    {
        if len >= self.bytes(side).len() {
            return Ok(());
        }
        match side {
            Side::First => {
                let done = self.first.cut(len);
                note_cut(&mut self.history, Side::First, len, done)
            }
            Side::Second => {
                let done = self.second.cut(len);
                note_cut(&mut self.history, Side::Second, len, done)
            }
        }
    }

    fn sync(&mut self, side: Side) -> Result<(), DiskFault>
        ensures durable { OnOk result (Only (contents_of self.new side) (OnSide side (images_of self.new))) }
        ensures seen { OnOk result (contents_of self.new ≡ contents_of self.old) }
        ensures crash { NoMore (images_of self.old) (images_of self.new) }
        ensures other { contents_of self.new (other side) ≡ contents_of self.old (other side) }
        ensures undone { IsErrOf result DiskFault.Memory → contents_of self.new ≡ contents_of self.old }
        ensures time { Elapses (moment_of self.old) (moment_of self.new)
            (left_since_of self.old) (left_since_of self.new) (images_of self.new) }
        ensures cause { HasCause 0 0 result }
        ensures kept { OnOk result (synced_contents self.new side ≡ contents_of self.new side) }

        // What is written on the other side isn't on the disk before that side's next sync.
        ensures other_kept { synced_contents self.new (other side) ≡ synced_contents self.old (other side) }
    {
        match side {
            Side::First => {
                let done = self.first.sync();
                note_sync(&mut self.history, Side::First, done)
            }
            Side::Second => {
                let done = self.second.sync();
                note_sync(&mut self.history, Side::Second, done)
            }
        }
    }
}

impl CrashTwin for MemTwin {
    ghost use Rattle.disk_core.specs.MemTwin.{contents_of, synced_contents, images_of};

    ghost kept = { λ m. both (synced_bytes m.first) (synced_bytes m.second) };

    ghost lets_through = { λ m. None };

    ghost fused = { λ calls. None };

    ghost keeps = { λ m. left_each (turns_noted m.history.notes) (synced_bytes m.first) (synced_bytes m.second)
        (m.first_told.left (synced_bytes m.first) (image_kept m.first.first.items (events_of m.first.calls.items)))
        (m.second_told.left (synced_bytes m.second) (image_kept m.second.first.items (events_of m.second.calls.items))) };

    /// Does nothing.
    fn fuse(&mut self, _calls: u64) {}

    /// 0 leaves of each side the bytes of its last sync; any other number all writes and cuts since.
    fn crash(self, how: u8) -> Result<Self, AllocError>
        ensures left { IfOk result (λ twin. images_of self (contents_of twin)) }
        ensures oldest { how ≡ 0 → IfOk result (λ twin. contents_of twin ≡ synced_contents self) }
        ensures newest { how ≢ 0 → IfOk result (λ twin. contents_of twin ≡ contents_of self) }
        ensures durable { IfOk result (λ twin. Only (contents_of twin) (images_of twin)) }
    {
        let MemTwin { first, second, .. } = self;
        Ok(MemTwin::over(first.crash(how)?, second.crash(how)?))
    }
}

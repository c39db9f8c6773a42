//! A disk in memory.
ghost use Rattle.std.specs.Prelude.{◌≡◌, ◌≢◌, ◌≤◌, ◌+◌, [], None, length, take, IfOk, OnOk, IsErrOf};
ghost use Rattle.disk_core.specs.Call.{events_of};
ghost use Rattle.disk_core.specs.Event.{seen_of, kept_of, ImagesNow, Images};
ghost use Rattle.disk_core.specs.Disk.{overwritten, between, from, Opens, NoMore, Only, Elapses, HasCause};
ghost use Rattle.disk_core.specs.ImageLaws.{image_as_seen, image_counts, image_kept, image_only};

use crate::call::{Call, note, replay};
use crate::overwrite::{copy_part, overwrite, reserve_for};
use crate::{Crash, Disk, DiskFault};
use std::alloc::{AllocError, Global};

/// A disk in memory, which keeps a record of its calls: what a crash may leave is what the record replays. It fails
/// only by memory.
#[derive(Debug, Drop)]
pub struct MemDisk {
    alloc: Global,
    /// The bytes at the beginning of the record, all of them synced.
    first: Vec<u8>,
    bytes: Vec<u8>,
    /// The writes, cuts and syncs since, in order.
    calls: Vec<Call>,
    /// The number of calls up to the last sync.
    synced: usize,
    ghost replayed: { bytes.items ≡ seen_of first.items (events_of calls.items) },
    ghost kept: { seen_of first.items (events_of (take synced calls.items)) ≡ kept_of first.items (events_of calls.items) },
    ghost within: { synced ≤ length calls.items },
}

impl MemDisk {
    ghost use Rattle.disk_core.specs.Memory.{bytes_of, synced_bytes, images_of};

    /// An empty disk.
    pub fn new(alloc: Global) -> Self
        ensures bytes { bytes_of result ≡ [] }
        ensures synced { synced_bytes result ≡ [] }
        ensures durable { Only [] (images_of result) }
    {
        MemDisk {
            alloc,
            first: Vec::new(alloc),
            bytes: Vec::new(alloc),
            calls: Vec::new(alloc),
            synced: 0,
        }
    }

    /// A disk that holds these bytes, all of them synced.
    pub fn holding(alloc: Global, bytes: Vec<u8>) -> Result<Self, AllocError>
        ensures bytes { IfOk result (λ disk. bytes_of disk ≡ bytes.items) }
        ensures synced { IfOk result (λ disk. synced_bytes disk ≡ bytes.items) }
        ensures durable { IfOk result (λ disk. Only bytes.items (images_of disk)) }
    {
        Ok(MemDisk {
            alloc,
            first: bytes.to_vec(alloc)?,
            bytes,
            calls: Vec::new(alloc),
            synced: 0,
        })
    }

    /// The bytes that a read gives.
    pub fn bytes(&self) -> &[u8]
        ensures { result.now ≡ bytes_of self.now }
    {
        &self.bytes
    }
}

#[tactic(auto, using(crate::specs::ImageLaws::opens_none))]
impl Disk for MemDisk {
    ghost use Rattle.disk_core.specs.Memory.{bytes_of, synced_bytes, images_of, moment_of, left_since_of};

    ghost seen = { λ m. m.bytes.items };

    ghost may_leave = { λ m. ImagesNow m.first.items (events_of m.calls.items) };

    ghost moment = { λ m. length (events_of m.calls.items) };

    ghost left_since = { λ m. Images m.first.items (events_of m.calls.items) };

    ghost failures = { λ m. 0 };

    ghost sees = { λ m. image_as_seen m.first.items (events_of m.calls.items) m.bytes.items m.replayed };

    ghost counts_now = { λ m t c le now. image_counts m.first.items (events_of m.calls.items) t c now };

    ghost only_now = { λ m c left. image_only m.first.items (events_of m.calls.items) c left };

    fn len(&mut self) -> Result<usize, DiskFault> {
        Ok(self.bytes.len())
    }

    fn read_at(&mut self, at: usize, buffer: &mut [u8]) -> Result<usize, DiskFault> {
        Ok(copy_part(&self.bytes, at, buffer))
    }

    fn write_at(&mut self, at: usize, bytes: &[u8]) -> Result<(), DiskFault>
        ensures written { OnOk result (bytes_of self.new ≡ overwritten at bytes.now (bytes_of self.old)) }
        ensures crash { Opens (between at (at + length bytes.now)) (images_of self.old) (images_of self.new) }
        ensures idle { bytes.now ≡ [] → NoMore (images_of self.old) (images_of self.new) }
        ensures undone { IsErrOf result DiskFault.Memory → bytes_of self.new ≡ bytes_of self.old }
        ensures undone_crash { IsErrOf result DiskFault.Memory →
            NoMore (images_of self.old) (images_of self.new) }
        ensures time { Elapses (moment_of self.old) (moment_of self.new)
            (left_since_of self.old) (left_since_of self.new) (images_of self.new) }
        ensures cause { HasCause 0 0 result }

        // It isn't on the disk before the next sync.
        ensures kept { synced_bytes self.new ≡ synced_bytes self.old }
    {
        if bytes.is_empty() {
            return Ok(());
        }
        let call = Call::Wrote {
            at,
            bytes: bytes.to_vec(self.alloc)?,
        };
        reserve_for(&mut self.bytes, at, bytes.len())?;
        note(&mut self.calls, call)?;
        overwrite(&mut self.bytes, at, bytes);
        Ok(())
    }

    fn cut(&mut self, len: usize) -> Result<(), DiskFault>
        ensures cut { OnOk result (bytes_of self.new ≡ take len (bytes_of self.old)) }
        ensures crash { Opens (from len) (images_of self.old) (images_of self.new) }
        ensures idle { length (bytes_of self.old) ≤ len → NoMore (images_of self.old) (images_of self.new) }
        ensures undone { IsErrOf result DiskFault.Memory → bytes_of self.new ≡ bytes_of self.old }
        ensures undone_crash { IsErrOf result DiskFault.Memory →
            NoMore (images_of self.old) (images_of self.new) }
        ensures time { Elapses (moment_of self.old) (moment_of self.new)
            (left_since_of self.old) (left_since_of self.new) (images_of self.new) }
        ensures cause { HasCause 0 0 result }

        // It isn't on the disk before the next sync.
        ensures kept { synced_bytes self.new ≡ synced_bytes self.old }
    {
        if len >= self.bytes.len() {
            return Ok(());
        }
        note(&mut self.calls, Call::Shortened { len })?;
        self.bytes.truncate(len);
        Ok(())
    }

    fn sync(&mut self) -> Result<(), DiskFault>
        ensures durable { OnOk result (Only (bytes_of self.new) (images_of self.new)) }
        ensures seen { OnOk result (bytes_of self.new ≡ bytes_of self.old) }
        ensures crash { NoMore (images_of self.old) (images_of self.new) }
        ensures undone { IsErrOf result DiskFault.Memory → bytes_of self.new ≡ bytes_of self.old }
        ensures time { Elapses (moment_of self.old) (moment_of self.new)
            (left_since_of self.old) (left_since_of self.new) (images_of self.new) }
        ensures cause { HasCause 0 0 result }
        ensures kept { OnOk result (synced_bytes self.new ≡ bytes_of self.new) }
    {
        note(&mut self.calls, Call::Synced)?;
        self.synced = self.calls.len();
        Ok(())
    }
}

impl Crash for MemDisk {
    ghost use Rattle.disk_core.specs.Memory.{bytes_of, synced_bytes, images_of};

    ghost kept = { λ m. kept_of m.first.items (events_of m.calls.items) };

    ghost lets_through = { λ m. None };

    ghost fused = { λ calls. None };

    ghost keeps = { λ m. image_kept m.first.items (events_of m.calls.items) };

    /// Does nothing.
    fn fuse(&mut self, _calls: u64) {}

    #[tactic(auto, using(crate::specs::ImageLaws::image_as_seen, crate::specs::ImageLaws::image_as_kept))]
    /// 0 leaves the bytes of the last sync; any other number all writes and cuts since.
    fn crash(self, how: u8) -> Result<Self, AllocError>
        ensures left { IfOk result (λ disk. images_of self (bytes_of disk)) }
        ensures oldest { how ≡ 0 → IfOk result (λ disk. bytes_of disk ≡ synced_bytes self) }
        ensures newest { how ≢ 0 → IfOk result (λ disk. bytes_of disk ≡ bytes_of self) }
        ensures durable { IfOk result (λ disk. Only (bytes_of disk) (images_of disk)) }
    {
        let MemDisk {
            alloc,
            first,
            bytes,
            calls,
            synced,
        } = self;
        if how != 0 {
            return MemDisk::holding(alloc, bytes);
        }
        let mut image = first;
        replay(&mut image, &calls[..synced])?;
        MemDisk::holding(alloc, image)
    }
}

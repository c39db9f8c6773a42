//! A disk that fails after a number of calls.
ghost use Rattle.std.specs.Prelude.{◌≡◌, ◌≢◌, ◌+◌, ◌≤◌, ◌++◌, [], true, false, None, Some, length, take, drop, IsErr, IsErrOf, IfOk, OnOk};
ghost use Rattle.disk_core.specs.Disk.{part, overwritten, between, from, Opens, NoMore, Only, Elapses, HasCause};
ghost use Rattle.disk_core.specs.Fuse.{Burns, calls_left, has_begun, own_failures, disk_of};

use crate::{Crash, Disk, DiskFault};
use std::alloc::AllocError;

/// A disk with a fuse: it passes a number of calls on, and then every call fails. The first write that fails this way may
/// have begun: it is passed on, so that a stop may leave it or not. Any other call that fails leaves the disk as it was.
#[derive(Debug, Drop)]
pub struct FuseDisk<D: Disk> {
    inner: D,
    /// The calls still to pass on.
    left: Option<u64>,
    /// A write that failed here has begun.
    begun: bool,
    /// The calls that failed here.
    failed: u64,
}

impl<D: Disk> FuseDisk<D> {
    /// A disk with no fuse set.
    pub fn new(inner: D) -> Self
        ensures disk { disk_of result ≡ inner }
        ensures fuse { calls_left result ≡ None }
        ensures begun { has_begun result ≡ false }
        ensures failures { own_failures result ≡ 0 }
    {
        FuseDisk {
            inner,
            left: None,
            begun: false,
            failed: 0,
        }
    }

    /// The disk below.
    pub fn into_inner(self) -> D
        ensures { result ≡ disk_of self }
    {
        let FuseDisk { inner, .. } = self;
        inner
    }

    /// After this many more calls every call fails. The bytes stay as they are.
    pub fn fuse(&mut self, calls: u64)
        ensures fuse { calls_left self.new ≡ Some calls }
        ensures disk { disk_of self.new ≡ disk_of self.old }
        ensures begun { has_begun self.new ≡ has_begun self.old }
        ensures failures { own_failures self.new ≡ own_failures self.old }
    {
        self.left = Some(calls);
    }

    /// Counts a call. `Err`: the fuse lets none through.
    fn spend(&mut self) -> Result<(), DiskFault>
        ensures burns { Burns self.old.left self.new.left result }
        ensures blown { IsErr result → self.old.left ≡ Some 0 }
        ensures own { self.old.left ≢ Some 0 → self.new.failed ≡ self.old.failed }
        ensures disk { self.new.inner ≡ self.old.inner }
        ensures begun { self.new.begun ≡ self.old.begun }
        ensures cause { HasCause self.old.failed self.new.failed result }
    {
        match self.left {
            None => Ok(()),
            Some(0) => {
                self.failed = self.failed.checked_add(1).ok_or(DiskFault::Memory)?;
                Err(DiskFault::Failed)
            }
            Some(calls) => {
                self.left = Some(calls - 1);
                Ok(())
            }
        }
    }
}

#[tactic(auto, using(crate::specs::ImageLaws::opens_none))]
impl<D: Disk> Disk for FuseDisk<D> {
    ghost seen = { λ f. D.seen f.inner };

    ghost may_leave = { λ f. D.may_leave f.inner };

    ghost moment = { λ f. D.moment f.inner };

    ghost left_since = { λ f. D.left_since f.inner };

    ghost failures = { λ f. D.failures f.inner + f.failed };

    ghost sees = { λ f. D.sees f.inner };

    ghost counts_now = { λ f. D.counts_now f.inner };

    ghost only_now = { λ f. D.only_now f.inner };

    fn len(&mut self) -> Result<usize, DiskFault>
        ensures length { IfOk result (λ n. n ≡ length (D.seen (disk_of self.old))) }
        ensures seen { D.seen (disk_of self.new) ≡ D.seen (disk_of self.old) }
        ensures crash { NoMore (D.may_leave (disk_of self.old)) (D.may_leave (disk_of self.new)) }
        ensures time { Elapses (D.moment (disk_of self.old)) (D.moment (disk_of self.new))
            (D.left_since (disk_of self.old)) (D.left_since (disk_of self.new))
            (D.may_leave (disk_of self.new)) }
        ensures cause { HasCause (D.failures (disk_of self.old) + own_failures self.old)
            (D.failures (disk_of self.new) + own_failures self.new) result }

        // A blown fuse lets no call through.
        ensures burns { Burns (calls_left self.old) (calls_left self.new) result }
        ensures blown { calls_left self.old ≡ Some 0 → disk_of self.new ≡ disk_of self.old }
        ensures own { calls_left self.old ≢ Some 0 → own_failures self.new ≡ own_failures self.old }
        ensures begun { has_begun self.new ≡ has_begun self.old }
    {
        self.spend()?;
        self.inner.len()
    }

    fn read_at(&mut self, at: usize, buffer: &mut [u8]) -> Result<usize, DiskFault>
        ensures count { IfOk result
            (λ n. n ≡ length (part at (length buffer.old) (D.seen (disk_of self.old)))) }
        ensures bytes { IfOk result
            (λ n. buffer.new ≡ part at (length buffer.old) (D.seen (disk_of self.old)) ++ drop n buffer.old) }
        ensures seen { D.seen (disk_of self.new) ≡ D.seen (disk_of self.old) }
        ensures crash { NoMore (D.may_leave (disk_of self.old)) (D.may_leave (disk_of self.new)) }
        ensures time { Elapses (D.moment (disk_of self.old)) (D.moment (disk_of self.new))
            (D.left_since (disk_of self.old)) (D.left_since (disk_of self.new))
            (D.may_leave (disk_of self.new)) }
        ensures cause { HasCause (D.failures (disk_of self.old) + own_failures self.old)
            (D.failures (disk_of self.new) + own_failures self.new) result }

        // A blown fuse lets no call through.
        ensures burns { Burns (calls_left self.old) (calls_left self.new) result }
        ensures blown { calls_left self.old ≡ Some 0 → disk_of self.new ≡ disk_of self.old }
        ensures own { calls_left self.old ≢ Some 0 → own_failures self.new ≡ own_failures self.old }
        ensures begun { has_begun self.new ≡ has_begun self.old }
    {
        self.spend()?;
        self.inner.read_at(at, buffer)
    }

    fn write_at(&mut self, at: usize, bytes: &[u8]) -> Result<(), DiskFault>
        ensures written { OnOk result
            (D.seen (disk_of self.new) ≡ overwritten at bytes.now (D.seen (disk_of self.old))) }
        ensures crash { Opens (between at (at + length bytes.now))
            (D.may_leave (disk_of self.old)) (D.may_leave (disk_of self.new)) }
        ensures idle { bytes.now ≡ [] →
            NoMore (D.may_leave (disk_of self.old)) (D.may_leave (disk_of self.new)) }
        ensures undone { IsErrOf result DiskFault.Memory →
            D.seen (disk_of self.new) ≡ D.seen (disk_of self.old) }
        ensures undone_crash { IsErrOf result DiskFault.Memory →
            NoMore (D.may_leave (disk_of self.old)) (D.may_leave (disk_of self.new)) }
        ensures time { Elapses (D.moment (disk_of self.old)) (D.moment (disk_of self.new))
            (D.left_since (disk_of self.old)) (D.left_since (disk_of self.new))
            (D.may_leave (disk_of self.new)) }
        ensures cause { HasCause (D.failures (disk_of self.old) + own_failures self.old)
            (D.failures (disk_of self.new) + own_failures self.new) result }

        // A blown fuse lets no write through, but the first one has begun: where the disk below doesn't fail too, a
        // read gives what was to be written, and so a stop may leave it.
        ensures burns { Burns (calls_left self.old) (calls_left self.new) result }
        ensures own { calls_left self.old ≢ Some 0 → own_failures self.new ≡ own_failures self.old }
        ensures blown { calls_left self.old ≡ Some 0 → has_begun self.old ≡ true →
            disk_of self.new ≡ disk_of self.old }
        ensures passed { calls_left self.old ≡ Some 0 → has_begun self.old ≡ false → IsErrOf result DiskFault.Failed →
            D.failures (disk_of self.new) ≡ D.failures (disk_of self.old) →
            D.seen (disk_of self.new) ≡ overwritten at bytes.now (D.seen (disk_of self.old)) }
        ensures whole { own_failures self.new ≡ own_failures self.old → has_begun self.new ≡ has_begun self.old }
        ensures begun { calls_left self.old ≡ Some 0 → own_failures self.new ≢ own_failures self.old →
            has_begun self.new ≡ true }
    {
        if self.left != Some(0) || self.begun {
            self.spend()?;
            return self.inner.write_at(at, bytes);
        }
        let Some(failed) = self.failed.checked_add(1) else {
            return Err(DiskFault::Memory);
        };
        self.inner.write_at(at, bytes)?;
        self.begun = true;
        self.failed = failed;
        Err(DiskFault::Failed)
    }

    fn cut(&mut self, len: usize) -> Result<(), DiskFault>
        ensures cut { OnOk result
            (D.seen (disk_of self.new) ≡ take len (D.seen (disk_of self.old))) }
        ensures crash { Opens (from len)
            (D.may_leave (disk_of self.old)) (D.may_leave (disk_of self.new)) }
        ensures idle { length (D.seen (disk_of self.old)) ≤ len →
            NoMore (D.may_leave (disk_of self.old)) (D.may_leave (disk_of self.new)) }
        ensures undone { IsErrOf result DiskFault.Memory →
            D.seen (disk_of self.new) ≡ D.seen (disk_of self.old) }
        ensures undone_crash { IsErrOf result DiskFault.Memory →
            NoMore (D.may_leave (disk_of self.old)) (D.may_leave (disk_of self.new)) }
        ensures time { Elapses (D.moment (disk_of self.old)) (D.moment (disk_of self.new))
            (D.left_since (disk_of self.old)) (D.left_since (disk_of self.new))
            (D.may_leave (disk_of self.new)) }
        ensures cause { HasCause (D.failures (disk_of self.old) + own_failures self.old)
            (D.failures (disk_of self.new) + own_failures self.new) result }

        // A blown fuse lets no call through.
        ensures burns { Burns (calls_left self.old) (calls_left self.new) result }
        ensures blown { calls_left self.old ≡ Some 0 → disk_of self.new ≡ disk_of self.old }
        ensures own { calls_left self.old ≢ Some 0 → own_failures self.new ≡ own_failures self.old }
        ensures begun { has_begun self.new ≡ has_begun self.old }
    {
        self.spend()?;
        self.inner.cut(len)
    }

    fn sync(&mut self) -> Result<(), DiskFault>
        ensures durable { OnOk result
            (Only (D.seen (disk_of self.new)) (D.may_leave (disk_of self.new))) }
        ensures seen { OnOk result (D.seen (disk_of self.new) ≡ D.seen (disk_of self.old)) }
        ensures crash { NoMore (D.may_leave (disk_of self.old)) (D.may_leave (disk_of self.new)) }
        ensures undone { IsErrOf result DiskFault.Memory →
            D.seen (disk_of self.new) ≡ D.seen (disk_of self.old) }
        ensures time { Elapses (D.moment (disk_of self.old)) (D.moment (disk_of self.new))
            (D.left_since (disk_of self.old)) (D.left_since (disk_of self.new))
            (D.may_leave (disk_of self.new)) }
        ensures cause { HasCause (D.failures (disk_of self.old) + own_failures self.old)
            (D.failures (disk_of self.new) + own_failures self.new) result }

        // A blown fuse lets no call through.
        ensures burns { Burns (calls_left self.old) (calls_left self.new) result }
        ensures blown { calls_left self.old ≡ Some 0 → disk_of self.new ≡ disk_of self.old }
        ensures own { calls_left self.old ≢ Some 0 → own_failures self.new ≡ own_failures self.old }
        ensures begun { has_begun self.new ≡ has_begun self.old }
    {
        self.spend()?;
        self.inner.sync()
    }
}

impl<D: Crash> Crash for FuseDisk<D> {
    ghost kept = { λ f. D.kept f.inner };

    ghost lets_through = { λ f. f.left };

    ghost fused = { λ calls. Some calls };

    ghost keeps = { λ f. D.keeps f.inner };

    /// Sets this disk's own fuse.
    fn fuse(&mut self, calls: u64)
        ensures fuse { calls_left self.new ≡ Some calls }
        ensures disk { disk_of self.new ≡ disk_of self.old }
        ensures begun { has_begun self.new ≡ has_begun self.old }
        ensures failures { own_failures self.new ≡ own_failures self.old }
    {
        FuseDisk::fuse(self, calls);
    }

    fn crash(self, how: u8) -> Result<Self, AllocError>
        ensures left { IfOk result
            (λ disk. D.Disk.may_leave (disk_of self) (D.Disk.seen (disk_of disk))) }
        ensures oldest { how ≡ 0 → IfOk result (λ disk. D.Disk.seen (disk_of disk) ≡ D.kept (disk_of self)) }
        ensures newest { how ≢ 0 → IfOk result
            (λ disk. D.Disk.seen (disk_of disk) ≡ D.Disk.seen (disk_of self)) }
        ensures durable { IfOk result
            (λ disk. Only (D.Disk.seen (disk_of disk)) (D.Disk.may_leave (disk_of disk))) }
        ensures fuse { IfOk result (λ disk. calls_left disk ≡ None) }
        ensures begun { IfOk result (λ disk. has_begun disk ≡ false) }
        ensures failures { IfOk result (λ disk. D.Disk.failures (disk_of disk) + own_failures disk ≡ 0) }
    {
        Ok(FuseDisk::new(self.into_inner().crash(how)?))
    }
}

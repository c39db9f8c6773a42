//! A twin that fails after a number of calls.
ghost use Rattle.std.specs.Prelude.{◌≡◌, ◌≢◌, ◌+◌, ◌≤◌, ◌++◌, [], true, false, None, Some, length, take, drop, IsErr, IsErrOf, IfOk, OnOk};
ghost use Rattle.disk_core.specs.Disk.{part, overwritten, between, from, Opens, NoMore, Only, Elapses, HasCause};
ghost use Rattle.disk_core.specs.Fuse.{Burns};
ghost use Rattle.disk_core.specs.FuseTwin.{calls_left, has_begun, own_failures, twin_of};
ghost use Rattle.disk_core.specs.Twin.{other, OnSide};

use crate::{CrashTwin, DiskFault, Side, Twin};
use std::alloc::AllocError;

/// A twin with one fuse for both sides: it passes a number of calls on, whichever side they are on, and then every call fails.
/// The first write that fails this way, on either side, may have begun: it is passed on, so that a stop may leave it or not. Any
/// other call that fails leaves both sides as they were.
#[derive(Debug, Drop)]
pub struct FuseTwin<T: Twin> {
    inner: T,
    /// The calls still to pass on, on both sides together.
    left: Option<u64>,
    /// A write that failed here has begun.
    begun: bool,
    /// The calls that failed here.
    failed: u64,
}

impl<T: Twin> FuseTwin<T> {
    /// A twin with no fuse set.
    pub fn new(inner: T) -> Self
        ensures twin { twin_of result ≡ inner }
        ensures fuse { calls_left result ≡ None }
        ensures begun { has_begun result ≡ false }
        ensures failures { own_failures result ≡ 0 }
    {
        FuseTwin {
            inner,
            left: None,
            begun: false,
            failed: 0,
        }
    }

    /// The twin below.
    pub fn into_inner(self) -> T
        ensures { result ≡ twin_of self }
    {
        let FuseTwin { inner, .. } = self;
        inner
    }

    /// After this many more calls every call fails. The bytes stay as they are.
    pub fn fuse(&mut self, calls: u64)
        ensures fuse { calls_left self.new ≡ Some calls }
        ensures twin { twin_of self.new ≡ twin_of self.old }
        ensures begun { has_begun self.new ≡ has_begun self.old }
        ensures failures { own_failures self.new ≡ own_failures self.old }
    {
        self.left = Some(calls);
    }

    /// Counts a call. `Err`: the fuse lets none through.
    fn spend(&mut self) -> Result<(), DiskFault>
        ensures burns { Burns self.old.left self.new.left result }
        ensures blown { IsErr result → self.old.left ≡ Some 0 }
        ensures own { self.old.left ≢ Some 0 → self.new.failed ≡ self.old.failed }
        ensures twin { self.new.inner ≡ self.old.inner }
        ensures begun { self.new.begun ≡ self.old.begun }
        ensures cause { HasCause self.old.failed self.new.failed result }
    {
        match self.left {
            None => Ok(()),
            Some(0) => {
                self.failed = self.failed.checked_add(1).ok_or(DiskFault::Memory)?;
                Err(DiskFault::Failed)
            }
            Some(calls) => {
                self.left = Some(calls - 1);
                Ok(())
            }
        }
    }
}

#[tactic(auto, using(crate::specs::ImageLaws::opens_none))]
impl<T: Twin> Twin for FuseTwin<T> {
    ghost seen = { λ f. T.seen f.inner };

    ghost may_leave = { λ f. T.may_leave f.inner };

    ghost moment = { λ f. T.moment f.inner };

    ghost left_since = { λ f. T.left_since f.inner };

    ghost failures = { λ f. T.failures f.inner + f.failed };

    ghost sees = { λ f. T.sees f.inner };

    ghost counts_now = { λ f. T.counts_now f.inner };

    ghost only_now = { λ f. T.only_now f.inner };

    fn len(&mut self, side: Side) -> Result<usize, DiskFault>
        ensures length { IfOk result (λ n. n ≡ length (T.seen (twin_of self.old) side)) }
        ensures seen { T.seen (twin_of self.new) ≡ T.seen (twin_of self.old) }
        ensures crash { NoMore (T.may_leave (twin_of self.old)) (T.may_leave (twin_of self.new)) }
        ensures time { Elapses (T.moment (twin_of self.old)) (T.moment (twin_of self.new))
            (T.left_since (twin_of self.old)) (T.left_since (twin_of self.new))
            (T.may_leave (twin_of self.new)) }
        ensures cause { HasCause (T.failures (twin_of self.old) + own_failures self.old)
            (T.failures (twin_of self.new) + own_failures self.new) result }

        // A blown fuse lets no call through.
        ensures burns { Burns (calls_left self.old) (calls_left self.new) result }
        ensures blown { calls_left self.old ≡ Some 0 → twin_of self.new ≡ twin_of self.old }
        ensures own { calls_left self.old ≢ Some 0 → own_failures self.new ≡ own_failures self.old }
        ensures begun { has_begun self.new ≡ has_begun self.old }
    {
        self.spend()?;
        self.inner.len(side)
    }

    fn read_at(&mut self, side: Side, at: usize, buffer: &mut [u8]) -> Result<usize, DiskFault>
        ensures count { IfOk result
            (λ n. n ≡ length (part at (length buffer.old) (T.seen (twin_of self.old) side))) }
        ensures bytes { IfOk result
            (λ n. buffer.new ≡ part at (length buffer.old) (T.seen (twin_of self.old) side) ++ drop n buffer.old) }
        ensures seen { T.seen (twin_of self.new) ≡ T.seen (twin_of self.old) }
        ensures crash { NoMore (T.may_leave (twin_of self.old)) (T.may_leave (twin_of self.new)) }
        ensures time { Elapses (T.moment (twin_of self.old)) (T.moment (twin_of self.new))
            (T.left_since (twin_of self.old)) (T.left_since (twin_of self.new))
            (T.may_leave (twin_of self.new)) }
        ensures cause { HasCause (T.failures (twin_of self.old) + own_failures self.old)
            (T.failures (twin_of self.new) + own_failures self.new) result }

        // A blown fuse lets no call through.
        ensures burns { Burns (calls_left self.old) (calls_left self.new) result }
        ensures blown { calls_left self.old ≡ Some 0 → twin_of self.new ≡ twin_of self.old }
        ensures own { calls_left self.old ≢ Some 0 → own_failures self.new ≡ own_failures self.old }
        ensures begun { has_begun self.new ≡ has_begun self.old }
    {
        self.spend()?;
        self.inner.read_at(side, at, buffer)
    }

    fn write_at(&mut self, side: Side, at: usize, bytes: &[u8]) -> Result<(), DiskFault>
        ensures written { OnOk result
            (T.seen (twin_of self.new) side ≡ overwritten at bytes.now (T.seen (twin_of self.old) side)) }
        ensures crash { Opens (between at (at + length bytes.now))
            (OnSide side (T.may_leave (twin_of self.old))) (OnSide side (T.may_leave (twin_of self.new))) }
        ensures other { T.seen (twin_of self.new) (other side) ≡ T.seen (twin_of self.old) (other side) }
        ensures other_crash { NoMore (OnSide (other side) (T.may_leave (twin_of self.old)))
            (OnSide (other side) (T.may_leave (twin_of self.new))) }
        ensures idle { bytes.now ≡ [] →
            NoMore (T.may_leave (twin_of self.old)) (T.may_leave (twin_of self.new)) }
        ensures undone { IsErrOf result DiskFault.Memory →
            T.seen (twin_of self.new) ≡ T.seen (twin_of self.old) }
        ensures undone_crash { IsErrOf result DiskFault.Memory →
            NoMore (T.may_leave (twin_of self.old)) (T.may_leave (twin_of self.new)) }
        ensures time { Elapses (T.moment (twin_of self.old)) (T.moment (twin_of self.new))
            (T.left_since (twin_of self.old)) (T.left_since (twin_of self.new))
            (T.may_leave (twin_of self.new)) }
        ensures cause { HasCause (T.failures (twin_of self.old) + own_failures self.old)
            (T.failures (twin_of self.new) + own_failures self.new) result }

        // A blown fuse lets no write through, but the first one has begun, on whichever side it is: where the twin below doesn't
        // fail too, a read gives what was to be written, and so a stop may leave it.
        ensures burns { Burns (calls_left self.old) (calls_left self.new) result }
        ensures own { calls_left self.old ≢ Some 0 → own_failures self.new ≡ own_failures self.old }
        ensures blown { calls_left self.old ≡ Some 0 → has_begun self.old ≡ true →
            twin_of self.new ≡ twin_of self.old }
        ensures passed { calls_left self.old ≡ Some 0 → has_begun self.old ≡ false → IsErrOf result DiskFault.Failed →
            T.failures (twin_of self.new) ≡ T.failures (twin_of self.old) →
            T.seen (twin_of self.new) side ≡ overwritten at bytes.now (T.seen (twin_of self.old) side) }
        ensures whole { own_failures self.new ≡ own_failures self.old → has_begun self.new ≡ has_begun self.old }
        ensures begun { calls_left self.old ≡ Some 0 → own_failures self.new ≢ own_failures self.old →
            has_begun self.new ≡ true }
    {
        if self.left != Some(0) || self.begun {
            self.spend()?;
            return self.inner.write_at(side, at, bytes);
        }
        let Some(failed) = self.failed.checked_add(1) else {
            return Err(DiskFault::Memory);
        };
        self.inner.write_at(side, at, bytes)?;
        self.begun = true;
        self.failed = failed;
        Err(DiskFault::Failed)
    }

    fn cut(&mut self, side: Side, len: usize) -> Result<(), DiskFault>
        ensures cut { OnOk result
            (T.seen (twin_of self.new) side ≡ take len (T.seen (twin_of self.old) side)) }
        ensures crash { Opens (from len)
            (OnSide side (T.may_leave (twin_of self.old))) (OnSide side (T.may_leave (twin_of self.new))) }
        ensures other { T.seen (twin_of self.new) (other side) ≡ T.seen (twin_of self.old) (other side) }
        ensures other_crash { NoMore (OnSide (other side) (T.may_leave (twin_of self.old)))
            (OnSide (other side) (T.may_leave (twin_of self.new))) }
        ensures idle { length (T.seen (twin_of self.old) side) ≤ len →
            NoMore (T.may_leave (twin_of self.old)) (T.may_leave (twin_of self.new)) }
        ensures undone { IsErrOf result DiskFault.Memory →
            T.seen (twin_of self.new) ≡ T.seen (twin_of self.old) }
        ensures undone_crash { IsErrOf result DiskFault.Memory →
            NoMore (T.may_leave (twin_of self.old)) (T.may_leave (twin_of self.new)) }
        ensures time { Elapses (T.moment (twin_of self.old)) (T.moment (twin_of self.new))
            (T.left_since (twin_of self.old)) (T.left_since (twin_of self.new))
            (T.may_leave (twin_of self.new)) }
        ensures cause { HasCause (T.failures (twin_of self.old) + own_failures self.old)
            (T.failures (twin_of self.new) + own_failures self.new) result }

        // A blown fuse lets no call through.
        ensures burns { Burns (calls_left self.old) (calls_left self.new) result }
        ensures blown { calls_left self.old ≡ Some 0 → twin_of self.new ≡ twin_of self.old }
        ensures own { calls_left self.old ≢ Some 0 → own_failures self.new ≡ own_failures self.old }
        ensures begun { has_begun self.new ≡ has_begun self.old }
    {
        self.spend()?;
        self.inner.cut(side, len)
    }

    fn sync(&mut self, side: Side) -> Result<(), DiskFault>
        ensures durable { OnOk result
            (Only (T.seen (twin_of self.new) side) (OnSide side (T.may_leave (twin_of self.new)))) }
        ensures seen { OnOk result (T.seen (twin_of self.new) ≡ T.seen (twin_of self.old)) }
        ensures crash { NoMore (T.may_leave (twin_of self.old)) (T.may_leave (twin_of self.new)) }
        ensures other { T.seen (twin_of self.new) (other side) ≡ T.seen (twin_of self.old) (other side) }
        ensures undone { IsErrOf result DiskFault.Memory →
            T.seen (twin_of self.new) ≡ T.seen (twin_of self.old) }
        ensures time { Elapses (T.moment (twin_of self.old)) (T.moment (twin_of self.new))
            (T.left_since (twin_of self.old)) (T.left_since (twin_of self.new))
            (T.may_leave (twin_of self.new)) }
        ensures cause { HasCause (T.failures (twin_of self.old) + own_failures self.old)
            (T.failures (twin_of self.new) + own_failures self.new) result }

        // A blown fuse lets no call through.
        ensures burns { Burns (calls_left self.old) (calls_left self.new) result }
        ensures blown { calls_left self.old ≡ Some 0 → twin_of self.new ≡ twin_of self.old }
        ensures own { calls_left self.old ≢ Some 0 → own_failures self.new ≡ own_failures self.old }
        ensures begun { has_begun self.new ≡ has_begun self.old }
    {
        self.spend()?;
        self.inner.sync(side)
    }
}

impl<T: CrashTwin> CrashTwin for FuseTwin<T> {
    ghost kept = { λ f. T.kept f.inner };

    ghost lets_through = { λ f. f.left };

    ghost fused = { λ calls. Some calls };

    ghost keeps = { λ f. T.keeps f.inner };

    /// Sets this twin's own fuse.
    fn fuse(&mut self, calls: u64)
        ensures fuse { calls_left self.new ≡ Some calls }
        ensures twin { twin_of self.new ≡ twin_of self.old }
        ensures begun { has_begun self.new ≡ has_begun self.old }
        ensures failures { own_failures self.new ≡ own_failures self.old }
    {
        FuseTwin::fuse(self, calls);
    }

    fn crash(self, how: u8) -> Result<Self, AllocError>
        ensures left { IfOk result
            (λ twin. T.Twin.may_leave (twin_of self) (T.Twin.seen (twin_of twin))) }
        ensures oldest { how ≡ 0 → IfOk result (λ twin. T.Twin.seen (twin_of twin) ≡ T.kept (twin_of self)) }
        ensures newest { how ≢ 0 → IfOk result
            (λ twin. T.Twin.seen (twin_of twin) ≡ T.Twin.seen (twin_of self)) }
        ensures durable { IfOk result
            (λ twin. Only (T.Twin.seen (twin_of twin)) (T.Twin.may_leave (twin_of twin))) }
        ensures fuse { IfOk result (λ twin. calls_left twin ≡ None) }
        ensures begun { IfOk result (λ twin. has_begun twin ≡ false) }
        ensures failures { IfOk result (λ twin. T.Twin.failures (twin_of twin) + own_failures twin ≡ 0) }
    {
        Ok(FuseTwin::new(self.into_inner().crash(how)?))
    }
}

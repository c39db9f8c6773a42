//! Two files of the operating system.
ghost use Rattle.std.specs.Prelude.{◌≡◌, ◌+◌, ◌≤◌, ◌++◌, ◌∷◌, [], true, false, length, take, drop, IsErr, IsErrOf, IfOk, OnOk};
ghost use Rattle.disk_core.specs.Disk.{part, overwritten, between, from, Opens, NoMore, Only, Elapses, HasCause};
ghost use Rattle.disk_core.specs.Event.{BeganWrite, BeganCut};
ghost use Rattle.disk_core.specs.File.{bytes_in, failures_of as disk_failures, has_lost as disk_lost, images_of as disk_images};
ghost use Rattle.disk_core.specs.Note.{turns_noted};
ghost use Rattle.disk_core.specs.TurnLaws.{told_prop, left_as_seen, left_counts, left_only};
ghost use Rattle.disk_core.specs.Turns.{Of, on, both, LeftNow, LeftSince, Told};
ghost use Rattle.disk_core.specs.Twin.{other, OnSide};
ghost use Rattle.disk_core.specs.declared.side.Side.TheVariants.{First, Second};

use crate::record::Record;
use crate::turn::{found, note_cut, note_sync, note_write};
use crate::{Disk, DiskFault, FileDisk, Side, Twin};
use std::alloc::Global;
use std::fs::{self, File};
use std::rt::Files;

/// Two files that nobody else writes, NAME.0 and NAME.1.
///
/// Each call is one of a [`FileDisk`] on its side, with what is said there: the premise, the copy in memory, and that no sync
/// of a side succeeds after a call on that side that failed. What a crash may leave of both at one moment is kept in a ghost
/// record of what was done on either side.
#[derive(Drop)]
pub struct FileTwin {
    first: FileDisk,
    second: FileDisk,
    history: Record,
    ghost first_told: { Told (on First (turns_noted history.notes)) (bytes_in first) (disk_images first) } by { told_prop (on First (turns_noted history.notes)) (bytes_in first) (disk_images first) },
    ghost second_told: { Told (on Second (turns_noted history.notes)) (bytes_in second) (disk_images second) } by { told_prop (on Second (turns_noted history.notes)) (bytes_in second) (disk_images second) },
}

impl FileTwin {
    ghost use Rattle.disk_core.specs.FileTwin.{contents_in, failures_of, has_lost};

    /// A twin over two files that were opened. Until a sync of its side a file may hold anything after a crash.
    pub fn over(first: FileDisk, second: FileDisk) -> Self
        ensures first { contents_in result First ≡ bytes_in first }
        ensures second { contents_in result Second ≡ bytes_in second }
        ensures failures { failures_of result ≡ disk_failures first + disk_failures second }
        ensures first_works { has_lost result First ≡ disk_lost first }
        ensures second_works { has_lost result Second ≡ disk_lost second }
    {
        let history = found(first.bytes(), second.bytes());
        FileTwin {
            first,
            second,
            history,
        }
    }

    /// Opens two files that are there, for reading and writing.
    ///
    /// `Failed`: one can't be opened for both, or read. `Memory`: their bytes don't fit in memory.
    pub fn open<R: Files<File = File>>(rt: &R, alloc: Global, name: &str) -> Result<Self, DiskFault>
        ensures failures { IfOk result (λ twin. failures_of twin ≡ 0) }
        ensures first_works { IfOk result (λ twin. has_lost twin First ≡ false) }
        ensures second_works { IfOk result (λ twin. has_lost twin Second ≡ false) }
    {
        let first = FileDisk::open(rt, alloc, &Side::First.file_name(alloc, name)?)?;
        let second = FileDisk::open(rt, alloc, &Side::Second.file_name(alloc, name)?)?;
        Ok(FileTwin::over(first, second))
    }

    /// Opens two regular files that are there, with a limit to the bytes of each, for reading only: each write fails.
    ///
    /// `Failed`: one isn't there, or is no regular file, or can't be opened or read. A folder, a pipe and a device are refused
    /// before they are opened, so that none is waited for. `Memory`: one has more bytes, which is found before any memory is
    /// asked for them, or they don't fit in memory.
    pub fn open_to_read<R: Files<File = File>>(
        rt: &R,
        alloc: Global,
        name: &str,
        most: usize,
    ) -> Result<Self, DiskFault>
        ensures failures { IfOk result (λ twin. failures_of twin ≡ 0) }
        ensures first_works { IfOk result (λ twin. has_lost twin First ≡ false) }
        ensures second_works { IfOk result (λ twin. has_lost twin Second ≡ false) }
        ensures first_most { IfOk result (λ twin. length (contents_in twin First) ≤ most) }
        ensures second_most { IfOk result (λ twin. length (contents_in twin Second) ≤ most) }
    {
        let first = FileDisk::open_to_read(rt, alloc, &Side::First.file_name(alloc, name)?, most)?;
        let second = FileDisk::open_to_read(
            rt,
            alloc,
            &Side::Second.file_name(alloc, name)?,
            most,
        )?;
        Ok(FileTwin::over(first, second))
    }

    /// Opens two files as `open` does, and makes empty ones where none are, the second first. Syncs their names too. Where
    /// it fails it removes any file that it made.
    ///
    /// `Failed`: one can't be made, opened or read, or their folder not synced. `Memory`: their bytes don't fit in memory.
    pub fn create<R: Files<File = File>>(
        rt: &R,
        alloc: Global,
        name: &str,
    ) -> Result<Self, DiskFault>
        ensures failures { IfOk result (λ twin. failures_of twin ≡ 0) }
        ensures first_works { IfOk result (λ twin. has_lost twin First ≡ false) }
        ensures second_works { IfOk result (λ twin. has_lost twin Second ≡ false) }
    {
        let first_name = Side::First.file_name(alloc, name)?;
        let second_name = Side::Second.file_name(alloc, name)?;
        let Ok(was_there) = fs::exists(rt, &second_name) else {
            return Err(DiskFault::Failed);
        };
        let second = FileDisk::create(rt, alloc, &second_name)?;
        match FileDisk::create(rt, alloc, &first_name) {
            Ok(first) => Ok(FileTwin::over(first, second)),
            Err(fault) => {
                if !was_there && fs::remove_file(rt, &second_name).is_err() {
                    return Err(DiskFault::Failed);
                }
                Err(fault)
            }
        }
    }

    /// The bytes of a side.
    fn bytes(&self, side: Side) -> &[u8]
        ensures { result.now ≡ contents_in self.now side }
    {
        match side {
            Side::First => self.first.bytes(),
            Side::Second => self.second.bytes(),
        }
    }
}

#[tactic(auto, using(crate::specs::TurnLaws::both_same, crate::proofs::TwinCalls::write_opens_on, crate::proofs::TwinCalls::cut_opens_on, crate::proofs::TwinCalls::other_stays_on))]
impl Twin for FileTwin {
    ghost use Rattle.disk_core.specs.FileTwin.{contents_in, failures_of, has_lost, turns_in, images_of, moment_of, left_since_of};

    ghost seen = { λ f. both (bytes_in f.first) (bytes_in f.second) };

    ghost may_leave = { λ f. LeftNow (turns_noted f.history.notes) };

    ghost moment = { λ f. length (turns_noted f.history.notes) };

    ghost left_since = { λ f. LeftSince (turns_noted f.history.notes) };

    ghost failures = { λ f. disk_failures f.first + disk_failures f.second };

    ghost sees = { λ f. left_as_seen (turns_noted f.history.notes) (bytes_in f.first) (bytes_in f.second) f.first_told.read f.second_told.read };

    ghost counts_now = { λ f t c le now. left_counts (turns_noted f.history.notes) t c now };

    ghost only_now = { λ f c left. left_only (turns_noted f.history.notes) c left };

    fn len(&mut self, side: Side) -> Result<usize, DiskFault>
        ensures length { IfOk result (λ n. n ≡ length (contents_in self.old side)) }
        ensures seen { contents_in self.new ≡ contents_in self.old }
        ensures crash { NoMore (images_of self.old) (images_of self.new) }
        ensures time { Elapses (moment_of self.old) (moment_of self.new)
            (left_since_of self.old) (left_since_of self.new) (images_of self.new) }
        ensures cause { HasCause (failures_of self.old) (failures_of self.new) result }

        // A file that differed from the copy isn't trusted any more.
        ensures kept { IsErrOf result DiskFault.Failed → has_lost self.new side ≡ true }
        ensures still_lost { (s : Side) → has_lost self.old s ≡ true → has_lost self.new s ≡ true }
    {
        match side {
            Side::First => self.first.len(),
            Side::Second => self.second.len(),
        }
    }

    fn read_at(&mut self, side: Side, at: usize, buffer: &mut [u8]) -> Result<usize, DiskFault>
        ensures count { IfOk result (λ n. n ≡ length (part at (length buffer.old) (contents_in self.old side))) }
        ensures bytes { IfOk result
            (λ n. buffer.new ≡ part at (length buffer.old) (contents_in self.old side) ++ drop n buffer.old) }
        ensures seen { contents_in self.new ≡ contents_in self.old }
        ensures crash { NoMore (images_of self.old) (images_of self.new) }
        ensures time { Elapses (moment_of self.old) (moment_of self.new)
            (left_since_of self.old) (left_since_of self.new) (images_of self.new) }
        ensures cause { HasCause (failures_of self.old) (failures_of self.new) result }

        // A file that differed from the copy isn't trusted any more.
        ensures kept { IsErrOf result DiskFault.Failed → has_lost self.new side ≡ true }
        ensures still_lost { (s : Side) → has_lost self.old s ≡ true → has_lost self.new s ≡ true }
    {
        match side {
            Side::First => self.first.read_at(at, buffer),
            Side::Second => self.second.read_at(at, buffer),
        }
    }

    fn write_at(&mut self, side: Side, at: usize, bytes: &[u8]) -> Result<(), DiskFault>
        ensures written { OnOk result (contents_in self.new side ≡ overwritten at bytes.now (contents_in self.old side)) }
        ensures crash { Opens (between at (at + length bytes.now))
            (OnSide side (images_of self.old)) (OnSide side (images_of self.new)) }
        ensures other { contents_in self.new (other side) ≡ contents_in self.old (other side) }
        ensures other_crash { NoMore (OnSide (other side) (images_of self.old)) (OnSide (other side) (images_of self.new)) }
        ensures idle { bytes.now ≡ [] → NoMore (images_of self.old) (images_of self.new) }
        ensures undone { IsErrOf result DiskFault.Memory → contents_in self.new ≡ contents_in self.old }
        ensures undone_crash { IsErrOf result DiskFault.Memory → NoMore (images_of self.old) (images_of self.new) }
        ensures time { Elapses (moment_of self.old) (moment_of self.new)
            (left_since_of self.old) (left_since_of self.new) (images_of self.new) }
        ensures cause { HasCause (failures_of self.old) (failures_of self.new) result }

        // A call that fails leaves the bytes as they were, but it has begun, by the record, and no sync of its side succeeds any more.
        ensures failed { IsErr result → contents_in self.new ≡ contents_in self.old }
        ensures began { IsErrOf result DiskFault.Failed →
            turns_in self.new ≡ Of side (BeganWrite at (length bytes.now)) ∷ turns_in self.old }
        ensures kept { IsErrOf result DiskFault.Failed → has_lost self.new side ≡ true }
        ensures still_lost { (s : Side) → has_lost self.old s ≡ true → has_lost self.new s ≡ true }
    {
        if bytes.is_empty() {
            return Ok(());
        }
        match side {
            Side::First => {
                let done = self.first.write_at(at, bytes);
                note_write(&mut self.history, Side::First, at, bytes, done)
            }
            Side::Second => {
                let done = self.second.write_at(at, bytes);
                note_write(&mut self.history, Side::Second, at, bytes, done)
            }
        }
    }

    fn cut(&mut self, side: Side, len: usize) -> Result<(), DiskFault>
        ensures cut { OnOk result (contents_in self.new side ≡ take len (contents_in self.old side)) }
        ensures crash { Opens (from len) (OnSide side (images_of self.old)) (OnSide side (images_of self.new)) }
        ensures other { contents_in self.new (other side) ≡ contents_in self.old (other side) }
        ensures other_crash { NoMore (OnSide (other side) (images_of self.old)) (OnSide (other side) (images_of self.new)) }
        ensures idle { length (contents_in self.old side) ≤ len → NoMore (images_of self.old) (images_of self.new) }
        ensures undone { IsErrOf result DiskFault.Memory → contents_in self.new ≡ contents_in self.old }
        ensures undone_crash { IsErrOf result DiskFault.Memory → NoMore (images_of self.old) (images_of self.new) }
        ensures time { Elapses (moment_of self.old) (moment_of self.new)
            (left_since_of self.old) (left_since_of self.new) (images_of self.new) }
        ensures cause { HasCause (failures_of self.old) (failures_of self.new) result }

        // A call that fails leaves the bytes as they were, but it has begun, by the record, and no sync of its side succeeds any more.
        ensures failed { IsErr result → contents_in self.new ≡ contents_in self.old }
        ensures began { IsErrOf result DiskFault.Failed → turns_in self.new ≡ Of side (BeganCut len) ∷ turns_in self.old }
        ensures kept { IsErrOf result DiskFault.Failed → has_lost self.new side ≡ true }
        ensures still_lost { (s : Side) → has_lost self.old s ≡ true → has_lost self.new s ≡ true }
    {
        if len >= self.bytes(side).len() {
            return Ok(());
        }
        match side {
            Side::First => {
                let done = self.first.cut(len);
                note_cut(&mut self.history, Side::First, len, done)
            }
            Side::Second => {
                let done = self.second.cut(len);
                note_cut(&mut self.history, Side::Second, len, done)
            }
        }
    }

    fn sync(&mut self, side: Side) -> Result<(), DiskFault>
        ensures durable { OnOk result (Only (contents_in self.new side) (OnSide side (images_of self.new))) }
        ensures seen { contents_in self.new ≡ contents_in self.old }
        ensures crash { NoMore (images_of self.old) (images_of self.new) }
        ensures other { contents_in self.new (other side) ≡ contents_in self.old (other side) }
        ensures undone { IsErrOf result DiskFault.Memory → contents_in self.new ≡ contents_in self.old }
        ensures time { Elapses (moment_of self.old) (moment_of self.new)
            (left_since_of self.old) (left_since_of self.new) (images_of self.new) }
        ensures cause { HasCause (failures_of self.old) (failures_of self.new) result }

        // A later sync doesn't repair what failed.
        ensures lost { has_lost self.old side ≡ true → IsErr result }
        ensures kept { IsErrOf result DiskFault.Failed → has_lost self.new side ≡ true }
        ensures still_lost { (s : Side) → has_lost self.old s ≡ true → has_lost self.new s ≡ true }
    {
        match side {
            Side::First => {
                let done = self.first.sync();
                note_sync(&mut self.history, Side::First, done)
            }
            Side::Second => {
                let done = self.second.sync();
                note_sync(&mut self.history, Side::Second, done)
            }
        }
    }
}

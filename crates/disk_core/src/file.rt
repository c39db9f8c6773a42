//! A disk over a file of the operating system.
ghost use Rattle.std.specs.Prelude.{◌≡◌, ◌+◌, ◌≤◌, ◌++◌, ◌∷◌, [], true, false, length, take, drop, IsErr, IsErrOf, IfOk, IfErr, OnOk};
ghost use Rattle.disk_core.specs.Disk.{part, overwritten, between, from, Opens, NoMore, Only, Elapses, HasCause};
ghost use Rattle.disk_core.specs.ImageLaws.{image_as_seen, image_counts, image_only};
ghost use Rattle.disk_core.specs.Event.{seen_of, ImagesNow, Images, BeganWrite, BeganCut};
ghost use Rattle.disk_core.specs.Note.{events_noted};

use crate::overwrite::{overwrite, part_of, reserve_for};
use crate::record::{BEGAN_CUT, BEGAN_WRITE, Record, SHORTENED, SYNCED, WROTE};
use crate::{Disk, DiskFault};
use std::alloc::Global;
use std::fs::{self, File, OpenOptions};
use std::io;
use std::os::unix::fs::FileExt;
use std::path::Path;
use std::rt::Files;

/// A disk over a file that nobody else writes.
///
/// Each call makes one system call, or none where there is nothing to do. Its contract on the file's bytes
/// rests on a premise: that the file holds what was written to it, and keeps what was synced. For this, the disk
/// has a copy of the bytes in memory, and an answer of the system that differs from the copy is `Failed`. What a
/// crash may leave is kept in a ghost record, so the memory grows with the disk's bytes and not with its calls.
///
/// A file that was just opened may hold anything after a crash, until it is synced. After a sync, a write or a cut that
/// failed, or where the file differed from the copy, no later sync succeeds: the system may have dropped what it
/// could not write, or a part may have been written. The file has to be opened again.
#[derive(Drop)]
pub struct FileDisk {
    file: File,
    bytes: Vec<u8>,
    history: Record,
    /// The file may differ from the copy, or may not be on the disk: no sync succeeds any more.
    lost: bool,
    failed: u64,
    ghost recorded: { bytes.items ≡ seen_of [] (events_noted history.notes) },
}

impl FileDisk {
    ghost use Rattle.disk_core.specs.File.{bytes_in, failures_of, has_lost};

    /// A disk over a file that was opened. It may write where the file was opened for writing.
    ///
    /// `Failed`: the file can't be read. `Memory`: its bytes don't fit in memory.
    pub fn over(alloc: Global, file: File) -> Result<Self, DiskFault>
        ensures failures { IfOk result (λ disk. failures_of disk ≡ 0) }
        ensures works { IfOk result (λ disk. has_lost disk ≡ false) }
    {
        FileDisk::within(alloc, file, usize::MAX)
    }

    /// A disk over a file with a limit to its bytes. A larger file is `Memory`, before any memory is asked for.
    fn within(alloc: Global, file: File, most: usize) -> Result<Self, DiskFault>
        ensures failures { IfOk result (λ disk. failures_of disk ≡ 0) }
        ensures works { IfOk result (λ disk. has_lost disk ≡ false) }
        ensures most { IfOk result (λ disk. length (bytes_in disk) ≤ most) }
    {
        let Ok(found) = file.metadata() else {
            return Err(DiskFault::Failed);
        };
        if found.is_dir() {
            return Err(DiskFault::Failed);
        }
        let len = found.len() as usize;
        if len > most {
            return Err(DiskFault::Memory);
        }
        let mut bytes = Vec::new(alloc);
        bytes.resize(len, 0)?;
        if file.read_exact_at(&mut bytes, 0).is_err() {
            return Err(DiskFault::Failed);
        }
        let mut history = Record::new();
        history.note(&[WROTE, 0], &bytes);
        Ok(FileDisk {
            file,
            bytes,
            history,
            lost: false,
            failed: 0,
        })
    }

    /// Opens a file that is there, for reading and writing.
    ///
    /// `Failed`: it can't be opened for both, or read. `Memory`: its bytes don't fit in memory.
    pub fn open<R: Files<File = File>>(rt: &R, alloc: Global, path: &str) -> Result<Self, DiskFault>
        ensures failures { IfOk result (λ disk. failures_of disk ≡ 0) }
        ensures works { IfOk result (λ disk. has_lost disk ≡ false) }
    {
        match OpenOptions::new().read(true).write(true).open(rt, path) {
            Ok(file) => FileDisk::over(alloc, file),
            Err(_) => Err(DiskFault::Failed),
        }
    }

    /// Opens a regular file that is there, with a limit to its bytes, for reading only: each write fails.
    ///
    /// `Failed`: there is none, or it is no regular file, or it can't be opened or read. A folder, a pipe and a device are
    /// refused before they are opened, so that none is waited for. `Memory`: it has more bytes, which is found before any
    /// memory is asked for them, or they don't fit in memory.
    pub fn open_to_read<R: Files<File = File>>(
        rt: &R,
        alloc: Global,
        path: &str,
        most: usize,
    ) -> Result<Self, DiskFault>
        ensures failures { IfOk result (λ disk. failures_of disk ≡ 0) }
        ensures works { IfOk result (λ disk. has_lost disk ≡ false) }
        ensures most { IfOk result (λ disk. length (bytes_in disk) ≤ most) }
    {
        let Ok(found) = fs::metadata(rt, path) else {
            return Err(DiskFault::Failed);
        };
        if !found.is_file() {
            return Err(DiskFault::Failed);
        }
        match fs::open(rt, path) {
            Ok(file) => FileDisk::within(alloc, file, most),
            Err(_) => Err(DiskFault::Failed),
        }
    }

    /// Opens a file as `open` does, and makes an empty one where none is. Syncs its name too. Where it fails it removes any
    /// file that it made.
    ///
    /// `Failed`: it can't be made, opened or read, or its folder not synced. `Memory`: its bytes don't fit in memory.
    pub fn create<R: Files<File = File>>(
        rt: &R,
        alloc: Global,
        path: &str,
    ) -> Result<Self, DiskFault>
        ensures failures { IfOk result (λ disk. failures_of disk ≡ 0) }
        ensures works { IfOk result (λ disk. has_lost disk ≡ false) }
    {
        match make(rt, path) {
            Ok(file) => FileDisk::over(alloc, file),
            Err(_) => Err(DiskFault::Failed),
        }
    }

    /// The bytes that the file holds, by this disk's own account.
    pub(crate) fn bytes(&self) -> &[u8]
        ensures { result.now ≡ bytes_in self.now }
    {
        &self.bytes
    }

    /// The count after one more failure.
    fn next_failure(&self) -> Result<u64, DiskFault>
        ensures next { IfOk result (λ failed. failed ≡ self.now.failed + 1) }
        ensures full { IfErr result (λ fault. fault ≡ DiskFault.Memory) }
    {
        self.failed.checked_add(1).ok_or(DiskFault::Memory)
    }
}

/// Opens a file, made where none is, and syncs the folder that has its name.
fn make<R: Files<File = File>>(rt: &R, path: &str) -> io::Result<File> {
    let name = match Path::new(path).parent() {
        Some(folder) if !folder.as_str().is_empty() => folder.as_str(),
        _ => ".",
    };
    // The folder first, so that no file is made in one that can't be synced.
    let folder = File::open(rt, name)?;
    let is_new = !fs::exists(rt, path)?;
    let mut options = OpenOptions::new();
    options.read(true).write(true).create(true);
    let file = options.open(rt, path)?;
    if let Err(error) = folder.sync_all() {
        if is_new {
            fs::remove_file(rt, path)?;
        }
        return Err(error);
    }
    Ok(file)
}

#[tactic(auto, using(crate::specs::ImageLaws::opens_none))]
impl Disk for FileDisk {
    ghost use Rattle.disk_core.specs.File.{bytes_in, failures_of, has_lost, events_in, images_of, moment_of, left_since_of};

    ghost seen = { λ f. f.bytes.items };

    ghost may_leave = { λ f. ImagesNow [] (events_noted f.history.notes) };

    ghost moment = { λ f. length (events_noted f.history.notes) };

    ghost left_since = { λ f. Images [] (events_noted f.history.notes) };

    ghost failures = { λ f. f.failed };

    ghost sees = { λ f. image_as_seen [] (events_noted f.history.notes) f.bytes.items f.recorded };

    ghost counts_now = { λ f t c le now. image_counts [] (events_noted f.history.notes) t c now };

    ghost only_now = { λ f c left. image_only [] (events_noted f.history.notes) c left };

    fn len(&mut self) -> Result<usize, DiskFault>
        ensures length { IfOk result (λ n. n ≡ length (bytes_in self.old)) }
        ensures seen { bytes_in self.new ≡ bytes_in self.old }
        ensures crash { NoMore (images_of self.old) (images_of self.new) }
        ensures time { Elapses (moment_of self.old) (moment_of self.new)
            (left_since_of self.old) (left_since_of self.new) (images_of self.new) }
        ensures cause { HasCause (failures_of self.old) (failures_of self.new) result }

        // A file that differed from the copy isn't trusted any more.
        ensures kept { IsErrOf result DiskFault.Failed → has_lost self.new ≡ true }
        ensures still_lost { has_lost self.old ≡ true → has_lost self.new ≡ true }
    {
        let failed = self.next_failure()?;
        match self.file.metadata() {
            Ok(found) if found.len() == self.bytes.len() as u64 => Ok(self.bytes.len()),
            _ => {
                self.lost = true;
                self.failed = failed;
                Err(DiskFault::Failed)
            }
        }
    }

    fn read_at(&mut self, at: usize, buffer: &mut [u8]) -> Result<usize, DiskFault>
        ensures count { IfOk result (λ n. n ≡ length (part at (length buffer.old) (bytes_in self.old))) }
        ensures bytes { IfOk result
            (λ n. buffer.new ≡ part at (length buffer.old) (bytes_in self.old) ++ drop n buffer.old) }
        ensures seen { bytes_in self.new ≡ bytes_in self.old }
        ensures crash { NoMore (images_of self.old) (images_of self.new) }
        ensures time { Elapses (moment_of self.old) (moment_of self.new)
            (left_since_of self.old) (left_since_of self.new) (images_of self.new) }
        ensures cause { HasCause (failures_of self.old) (failures_of self.new) result }

        // A file that differed from the copy isn't trusted any more.
        ensures kept { IsErrOf result DiskFault.Failed → has_lost self.new ≡ true }
        ensures still_lost { has_lost self.old ≡ true → has_lost self.new ≡ true }
    {
        let failed = self.next_failure()?;
        let held = part_of(&self.bytes, at, buffer.len());
        let front = &mut buffer[..held.len()];
        if self.file.read_exact_at(front, at as u64).is_err() || *front != *held {
            self.lost = true;
            self.failed = failed;
            return Err(DiskFault::Failed);
        }
        Ok(held.len())
    }

    fn write_at(&mut self, at: usize, bytes: &[u8]) -> Result<(), DiskFault>
        ensures written { OnOk result (bytes_in self.new ≡ overwritten at bytes.now (bytes_in self.old)) }
        ensures crash { Opens (between at (at + length bytes.now)) (images_of self.old) (images_of self.new) }
        ensures idle { bytes.now ≡ [] → NoMore (images_of self.old) (images_of self.new) }
        ensures undone { IsErrOf result DiskFault.Memory → bytes_in self.new ≡ bytes_in self.old }
        ensures undone_crash { IsErrOf result DiskFault.Memory →
            NoMore (images_of self.old) (images_of self.new) }
        ensures time { Elapses (moment_of self.old) (moment_of self.new)
            (left_since_of self.old) (left_since_of self.new) (images_of self.new) }
        ensures cause { HasCause (failures_of self.old) (failures_of self.new) result }

        // A call that fails leaves the bytes as they were, but it has begun, by the record, and no sync succeeds any more.
        ensures failed { IsErr result → bytes_in self.new ≡ bytes_in self.old }
        ensures began { IsErrOf result DiskFault.Failed → events_in self.new ≡ BeganWrite at (length bytes.now) ∷ events_in self.old }
        ensures kept { IsErrOf result DiskFault.Failed → has_lost self.new ≡ true }
        ensures still_lost { has_lost self.old ≡ true → has_lost self.new ≡ true }
    {
        if bytes.is_empty() {
            return Ok(());
        }
        let failed = self.next_failure()?;
        reserve_for(&mut self.bytes, at, bytes.len())?;
        if self.file.write_all_at(bytes, at as u64).is_err() {
            self.history.note(&[BEGAN_WRITE, at as u64], bytes);
            self.lost = true;
            self.failed = failed;
            return Err(DiskFault::Failed);
        }
        self.history.note(&[WROTE, at as u64], bytes);
        overwrite(&mut self.bytes, at, bytes);
        Ok(())
    }

    fn cut(&mut self, len: usize) -> Result<(), DiskFault>
        ensures cut { OnOk result (bytes_in self.new ≡ take len (bytes_in self.old)) }
        ensures crash { Opens (from len) (images_of self.old) (images_of self.new) }
        ensures idle { length (bytes_in self.old) ≤ len → NoMore (images_of self.old) (images_of self.new) }
        ensures undone { IsErrOf result DiskFault.Memory → bytes_in self.new ≡ bytes_in self.old }
        ensures undone_crash { IsErrOf result DiskFault.Memory →
            NoMore (images_of self.old) (images_of self.new) }
        ensures time { Elapses (moment_of self.old) (moment_of self.new)
            (left_since_of self.old) (left_since_of self.new) (images_of self.new) }
        ensures cause { HasCause (failures_of self.old) (failures_of self.new) result }

        // A call that fails leaves the bytes as they were, but it has begun, by the record, and no sync succeeds any more.
        ensures failed { IsErr result → bytes_in self.new ≡ bytes_in self.old }
        ensures began { IsErrOf result DiskFault.Failed → events_in self.new ≡ BeganCut len ∷ events_in self.old }
        ensures kept { IsErrOf result DiskFault.Failed → has_lost self.new ≡ true }
        ensures still_lost { has_lost self.old ≡ true → has_lost self.new ≡ true }
    {
        if len >= self.bytes.len() {
            return Ok(());
        }
        let failed = self.next_failure()?;
        if self.file.set_len(len as u64).is_err() {
            self.history.note(&[BEGAN_CUT, len as u64], &[]);
            self.lost = true;
            self.failed = failed;
            return Err(DiskFault::Failed);
        }
        self.history.note(&[SHORTENED, len as u64], &[]);
        self.bytes.truncate(len);
        Ok(())
    }

    fn sync(&mut self) -> Result<(), DiskFault>
        ensures durable { OnOk result (Only (bytes_in self.new) (images_of self.new)) }
        ensures seen { bytes_in self.new ≡ bytes_in self.old }
        ensures crash { NoMore (images_of self.old) (images_of self.new) }
        ensures undone { IsErrOf result DiskFault.Memory → bytes_in self.new ≡ bytes_in self.old }
        ensures time { Elapses (moment_of self.old) (moment_of self.new)
            (left_since_of self.old) (left_since_of self.new) (images_of self.new) }
        ensures cause { HasCause (failures_of self.old) (failures_of self.new) result }

        // A later sync doesn't repair what failed.
        ensures lost { has_lost self.old ≡ true → IsErr result }
        ensures kept { IsErrOf result DiskFault.Failed → has_lost self.new ≡ true }
        ensures still_lost { has_lost self.old ≡ true → has_lost self.new ≡ true }
    {
        let failed = self.next_failure()?;
        if self.lost || self.file.sync_data().is_err() {
            self.lost = true;
            self.failed = failed;
            return Err(DiskFault::Failed);
        }
        self.history.note(&[SYNCED, 0], &[]);
        Ok(())
    }
}

//! The journal commands: the lines of a journal, and making one.
ghost use Rattle.std.specs.Prelude.{◌≡◌, ◌≢◌, ◌⊎◌, ◌<◌, [], false, IfOk, IfErr, IsErrOf, OnOk};
ghost use Rattle.disk_core.specs.Disk.{NoMore};
ghost use Rattle.disk_core.specs.File.{failures_of as disk_failures, has_lost as disk_lost};
ghost use Rattle.disk_core.specs.FileTwin.{failures_of, has_lost};
ghost use Rattle.disk_core.specs.declared.side.Side.TheVariants.{First, Second};
ghost use Rattle.amqr_files.specs.Journals.{kind_name, checkpoint_line, act_line, end_line, journal_lines, IsJournal, IsNotListed, IsNotMade, IsMade, ListsJournal, Formats, unopened_status, RefusesJournal, IsUnopened, HasBytes};

use crate::input::MOST_BYTES;
use crate::print::{print_lines, refuse};
use crate::status::{Refusal, Status};
use book_model::ActKind;
use disk_core::{DiskFault, FileDisk, FileTwin, Side, Twin};
use std::alloc::{AllocError, Global};
use std::fmt::{self, Display, Formatter};
use std::fs::{self, File, OpenOptions, TryLockError};
use std::io::{self, Write};
use std::rt::Files;
use std::thread;
use std::time::{Clock, Duration};
use twin_journal::{Checkpoint, Entry, Listing, format, list};

/// The most bytes of a side that is opened: those of a journal, and one gate.
const MOST_JOURNAL: u64 = MOST_BYTES as u64 + 1;

/// How often the lock of a journal is tried.
const TRIES: u64 = 10;

/// The time between two tries, in milliseconds.
const PAUSE: u64 = 25;

/// Why the files of a journal aren't opened for a server.
#[derive(Clone, Copy, Debug, PartialEq, Eq)]
pub enum Unopened {
    /// Another server has it in use.
    InUse,
    /// As the program says it in general.
    Refused(Refusal),
}

/// The line of a journal that another server has in use: `journal FILE is in use`.
#[derive(Clone, Copy, Debug)]
pub struct InUse<'a> {
    /// The name of its files, without their numbers.
    pub path: &'a str,
}

impl<'a> Display for InUse<'a> {
    ghost use Rattle.std.specs.Prelude.{Some};
    ghost use Rattle.amqr_files.specs.Journals.{in_use_text};

    ghost output = { λ line. Some (in_use_text line.path.now) };

    fn fmt<W: fmt::Write>(&self, f: &mut Formatter<W>) -> fmt::Result {
        let path = self.path;
        write!(f, "journal {path} is in use")
    }
}

/// A line of a journal's list; `{}` prints it, without the LF.
#[derive(Clone, Copy, Debug, PartialEq, Eq)]
pub enum JournalLine {
    /// What its checkpoint has: `epoch E base N rows R termini T`.
    Checkpoint {
        /// How many checkpoints there were, and one for the new journal.
        epoch: u64,
        /// The number of the last batch in it.
        base: u64,
        /// The rows of its book.
        rows: usize,
        /// The termini of its book.
        termini: usize,
    },
    /// An act behind it: `PLACE ACT NUMBER`.
    Act {
        /// The place of its batch's gate, in bytes from the beginning of the active side.
        place: usize,
        /// What it does.
        kind: ActKind,
        /// The number of its row, or else of its terminus.
        number: u64,
    },
    /// The end: `end PLACE rows R termini T`.
    End {
        /// The place of the gate that ends the journal, in bytes from the beginning of the active side.
        place: usize,
        /// The rows that the book has.
        rows: usize,
        /// The termini that it has.
        termini: usize,
    },
}

impl Display for JournalLine {
    ghost use Rattle.std.specs.Prelude.{Some};
    ghost use Rattle.amqr_files.specs.Journals.{journal_text};

    ghost output = { λ line. Some (journal_text line) };

    fn fmt<W: fmt::Write>(&self, f: &mut Formatter<W>) -> fmt::Result {
        match self {
            JournalLine::Checkpoint {
                epoch,
                base,
                rows,
                termini,
            } => write!(f, "epoch {epoch} base {base} rows {rows} termini {termini}"),
            JournalLine::Act {
                place,
                kind,
                number,
            } => {
                let name = kind_name(*kind);
                write!(f, "{place} {name} {number}")
            }
            JournalLine::End {
                place,
                rows,
                termini,
            } => write!(f, "end {place} rows {rows} termini {termini}"),
        }
    }
}

/// The name of an act's kind.
fn kind_name(kind: ActKind) -> &'static str
    ensures { result.now ≡ kind_name kind }
{
    match kind {
        ActKind::Make => "Make",
        ActKind::Admit => "Admit",
        ActKind::Decide => "Decide",
        ActKind::Forget => "Forget",
        ActKind::Drop => "Drop",
    }
}

/// The line of a checkpoint.
fn checkpoint_line(checkpoint: Checkpoint) -> JournalLine
    ensures { result ≡ checkpoint_line checkpoint }
{
    let Checkpoint {
        epoch,
        base,
        rows,
        termini,
    } = checkpoint;
    JournalLine::Checkpoint {
        epoch,
        base,
        rows,
        termini,
    }
}

/// The line of an act.
fn act_line(entry: &Entry) -> JournalLine
    ensures { result ≡ act_line entry.now }
{
    JournalLine::Act {
        place: entry.place,
        kind: entry.act.kind(),
        number: entry.act.number(),
    }
}

/// The lines of a journal's list.
fn lines_of(alloc: Global, listing: &Listing) -> Result<Vec<JournalLine>, AllocError>
    ensures { IfOk result (λ lines. lines.items ≡ journal_lines listing.now.checkpoint listing.now.entries.items listing.now.place listing.now.book) }
{
    let mut lines = Vec::new(alloc);
    lines.push(checkpoint_line(listing.checkpoint))?;
    for entry in &listing.entries {
        lines.push(act_line(entry))?;
    }
    lines.push(JournalLine::End {
        place: listing.place,
        rows: listing.book.row_count(),
        termini: listing.book.terminus_count(),
    })?;
    Ok(lines)
}

/// The lines of the journal on two files.
///
/// # Errors
///
/// `NoJournal` where they have none; `Damaged` where no head can be read, or an open gate has no batch after it; `Disk` where
/// they failed; `Memory` where memory was refused.
fn journal_lines<T: Twin>(alloc: Global, twin: &mut T) -> Result<Vec<JournalLine>, Refusal>
    ensures lines { IfOk result (λ lines. IsJournal (T.seen twin.old) lines.items) }
    ensures refusal { IfErr result (IsNotListed (T.seen twin.old) (T.failures twin.old < T.failures twin.new)) }
    ensures unchanged { (IsErrOf result Refusal.Disk → ⊥) → (IsErrOf result Refusal.Memory → ⊥) → T.seen twin.new ≡ T.seen twin.old }
    ensures crash { NoMore (T.may_leave twin.old) (T.may_leave twin.new) }
{
    match list(alloc, twin) {
        Ok(listing) => match lines_of(alloc, &listing) {
            Ok(lines) => Ok(lines),
            Err(_) => Err(Refusal::Memory),
        },
        Err(fault) => Err(Refusal::from(fault)),
    }
}

/// Writes the list of the journal on two files, or why they have none. Unless the files or memory failed, a read of them still
/// gives what it gave.
///
/// # Errors
///
/// An error of the output, which could not be written.
pub fn list_journal<T: Twin, O: Write>(
    alloc: Global,
    twin: &mut T,
    output: &mut O,
) -> io::Result<Status>
    ensures lists { IfOk result (λ status. ListsJournal (T.seen twin.old) (T.failures twin.old < T.failures twin.new) status (O.contents output.old) (O.contents output.new)) }
    ensures unchanged { IfOk result (λ status. status ≢ Status.Failed → T.seen twin.new ≡ T.seen twin.old) }
    ensures crash { NoMore (T.may_leave twin.old) (T.may_leave twin.new) }
{
    match journal_lines(alloc, twin) {
        Ok(lines) => {
            print_lines(output, lines.as_slice())?;
            Ok(Status::Done)
        }
        Err(refusal) => refuse(output, refusal),
    }
}

/// The twin over the two files of a journal, NAME.0 and NAME.1, for reading and writing. It holds the file system's lock on the first of them from before
/// a byte is read until the twin is let go, or the process ends.
///
/// # Errors
///
/// `InUse` if another process holds the lock; `NoJournal` if the name itself is that of something, and of no empty file, as a journal of format 1 has it;
/// `File` if one of the two is no regular file, or can't be opened for both, locked or read; `Memory` if one has more bytes than a journal may have, or
/// memory was refused.
pub fn journal_twin<R: Files<File = File> + Clock>(
    rt: &R,
    alloc: Global,
    name: &str,
) -> Result<FileTwin, Unopened>
    ensures failures { IfOk result (λ twin. failures_of twin ≡ 0) }
    ensures first_works { IfOk result (λ twin. has_lost twin First ≡ false) }
    ensures second_works { IfOk result (λ twin. has_lost twin Second ≡ false) }
    ensures refusal { IfErr result (λ fault. (fault ≡ Unopened.InUse) ⊎ IsUnopened fault) }
{
    if is_taken(rt, name) {
        return Err(Unopened::Refused(Refusal::NoJournal));
    }
    let first = side_at(rt, alloc, name, Side::First)?;
    lock(rt, &first)?;
    let second = side_at(rt, alloc, name, Side::Second)?;
    let first = disk_over(alloc, first)?;
    let second = disk_over(alloc, second)?;
    Ok(FileTwin::over(first, second))
}

/// The file of a side, opened for reading and writing.
///
/// # Errors
///
/// `File` if it is no regular file, or can't be opened for both; `Memory` if memory was refused.
fn side_at<R: Files<File = File>>(
    rt: &R,
    alloc: Global,
    name: &str,
    side: Side,
) -> Result<File, Unopened>
    ensures { IfErr result IsUnopened }
{
    let Ok(path) = side.file_name(alloc, name) else {
        return Err(Unopened::Refused(Refusal::Memory));
    };
    match open_regular(rt, &path) {
        Some(file) => Ok(file),
        None => Err(Unopened::Refused(Refusal::File)),
    }
}

/// The disk over the file of a side.
///
/// # Errors
///
/// `File` if it can't be read; `Memory` if it has more bytes than a journal may have, or memory was refused.
fn disk_over(alloc: Global, file: File) -> Result<FileDisk, Unopened>
    ensures failures { IfOk result (λ disk. disk_failures disk ≡ 0) }
    ensures works { IfOk result (λ disk. disk_lost disk ≡ false) }
    ensures refusal { IfErr result IsUnopened }
{
    let Ok(found) = file.metadata() else {
        return Err(Unopened::Refused(Refusal::File));
    };
    if found.len() > MOST_JOURNAL {
        return Err(Unopened::Refused(Refusal::Memory));
    }
    match FileDisk::over(alloc, file) {
        Ok(disk) => Ok(disk),
        Err(DiskFault::Failed) => Err(Unopened::Refused(Refusal::File)),
        Err(DiskFault::Memory) => Err(Unopened::Refused(Refusal::Memory)),
    }
}

/// Whether something has this name, and is no empty file. A journal has files with a number behind its name: what has the name itself may be a journal of
/// format 1, which is never passed over.
pub fn is_taken<R: Files<File = File>>(rt: &R, name: &str) -> bool {
    match fs::metadata(rt, name) {
        Ok(found) => !found.is_file() || found.len() > 0,
        Err(_) => false,
    }
}

/// Whether a journal's name, or that of one of its files, is taken.
pub fn is_any_taken<R: Files<File = File>>(
    rt: &R,
    alloc: Global,
    name: &str,
) -> Result<bool, AllocError> {
    let first = Side::First.file_name(alloc, name)?;
    let second = Side::Second.file_name(alloc, name)?;
    Ok(is_taken(rt, name) || is_taken(rt, &first) || is_taken(rt, &second))
}

/// A regular file that is there, opened for reading and writing. Others are refused before they are opened, so that none is waited for.
fn open_regular<R: Files<File = File>>(rt: &R, path: &str) -> Option<File> {
    let found = fs::metadata(rt, path).ok()?;
    if !found.is_file() {
        return None;
    }
    let mut options = OpenOptions::new();
    options.read(true).write(true);
    options.open(rt, path).ok()
}

/// Takes the lock of a journal, on its first file. Who lists the journal may have it for a moment, so it is tried for a quarter of a second.
///
/// # Errors
///
/// `InUse` if another process holds it; `File` if it can't be had.
fn lock<R: Clock>(rt: &R, file: &File) -> Result<(), Unopened>
    ensures { IfErr result (λ fault. (fault ≡ Unopened.InUse) ⊎ (fault ≡ Unopened.Refused Refusal.File)) }
{
    for _turn in 0..TRIES {
        match file.try_lock() {
            Ok(()) => return Ok(()),
            Err(TryLockError::WouldBlock) => thread::sleep(rt, Duration::from_millis(PAUSE)),
            Err(TryLockError::Error(_)) => return Err(Unopened::Refused(Refusal::File)),
        }
    }
    Err(Unopened::InUse)
}

/// Whether a process holds the lock of a journal. It is asked by taking the lock, shared, for a moment; what can't be opened or locked is held by
/// nobody.
pub fn is_in_use<R: Files<File = File>>(rt: &R, alloc: Global, name: &str) -> bool {
    let Ok(path) = Side::First.file_name(alloc, name) else {
        return false;
    };
    match fs::open(rt, &path) {
        Ok(file) => matches!(file.try_lock_shared(), Err(TryLockError::WouldBlock)),
        Err(_) => false,
    }
}

/// Writes why no server is started over a journal.
pub fn refuse_journal<O: Write>(output: &mut O, path: &str, fault: Unopened) -> io::Result<Status>
    ensures status { IfOk result (λ status. status ≡ unopened_status fault) }
    ensures told { IfOk result (λ status. RefusesJournal path.now fault (O.contents output.old) (O.contents output.new)) }
{
    match fault {
        Unopened::InUse => {
            output.writeln(InUse { path })?;
            Ok(Status::BadInput)
        }
        Unopened::Refused(refusal) => refuse(output, refusal),
    }
}

/// Makes the journal of no batches on two files that are empty.
///
/// # Errors
///
/// `Exists` where one of them isn't empty; `Disk` where they failed; `Memory` where memory was refused.
#[tactic(auto, using(crate::proofs::Sides::both_empty, crate::proofs::Sides::none_has, crate::proofs::Sides::has_some))]
fn make_journal<T: Twin>(twin: &mut T) -> Result<(), Refusal>
    ensures made { OnOk result (IsMade (T.seen twin.old) (T.seen twin.new) (T.may_leave twin.new)) }
    ensures refusal { IfErr result (IsNotMade (T.seen twin.old) (T.failures twin.old < T.failures twin.new)) }
    ensures untouched { HasBytes (T.seen twin.old) → T.seen twin.new ≡ T.seen twin.old }
    ensures untouched_crash { HasBytes (T.seen twin.old) → NoMore (T.may_leave twin.old) (T.may_leave twin.new) }
{
    let second = twin.len(Side::Second)?;
    let first = twin.len(Side::First)?;
    if first > 0 || second > 0 {
        return Err(Refusal::Exists);
    }
    format(twin)?;
    Ok(())
}

/// Makes a journal on two files that are empty, and writes that it did, or why it didn't. Files of which one isn't empty are left
/// as they are.
///
/// # Errors
///
/// An error of the output, which could not be written.
pub fn format_twin<T: Twin, O: Write>(twin: &mut T, output: &mut O) -> io::Result<Status>
    ensures formatted { IfOk result (λ status. Formats (T.seen twin.old) (IsMade (T.seen twin.old) (T.seen twin.new) (T.may_leave twin.new)) (T.failures twin.old < T.failures twin.new) status (O.contents output.old) (O.contents output.new)) }
    ensures untouched { HasBytes (T.seen twin.old) → T.seen twin.new ≡ T.seen twin.old }
    ensures untouched_crash { HasBytes (T.seen twin.old) → NoMore (T.may_leave twin.old) (T.may_leave twin.new) }
{
    match make_journal(twin) {
        Ok(()) => {
            output.writeln("formatted")?;
            Ok(Status::Done)
        }
        Err(refusal) => refuse(output, refusal),
    }
}

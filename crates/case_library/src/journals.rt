//! Questions on journals: what batches, stops and faults leave, and what is listed.
ghost use Rattle.std.specs.Prelude.{◌≡◌};

use crate::batches::{append_batches, apply_entries};
use crate::disks::fault_text;
use book_core::Book;
use case_files::{Case, CaseFault, bytes_of, digits_of, number_of, size_of};
use disk_core::{Crash, Disk, FuseDisk, MemDisk};
use gate_journal::{Journal, Listing, OpenFault, format, list};
use std::alloc::Global;
use std::fmt::Write;

/// A disk that can be stopped.
pub type StopDisk = FuseDisk<MemDisk>;

/// What is asked in a scene.
#[derive(Clone, Copy)]
enum Question {
    /// To take a disk with these bytes.
    Disk,
    /// To make a journal on the disk.
    Format,
    /// What the journal on the disk has.
    Open,
    /// To open the journal on the disk, and append batches.
    Append,
    /// A stop.
    Crash,
    /// The acts of the journal on the disk.
    List,
    /// The bytes of the disk.
    Bytes,
    /// The number of its bytes.
    Length,
    /// What the journal is with each byte of a range spoilt.
    Spoil,
}

/// The question of a case.
fn question_of(case: &Case<'_>) -> Result<Question, CaseFault> {
    match case.question {
        "disk" => Ok(Question::Disk),
        "format" => Ok(Question::Format),
        "open" => Ok(Question::Open),
        "append" => Ok(Question::Append),
        "crash" => Ok(Question::Crash),
        "list" => Ok(Question::List),
        "bytes" => Ok(Question::Bytes),
        "length" => Ok(Question::Length),
        "spoil" => Ok(Question::Spoil),
        _ => Err(CaseFault::Question),
    }
}

/// The answer to a question on the disk of a scene.
///
/// # Errors
///
/// `Question`, `Word`, `Bytes` and `Missing` where the case isn't in the form; `Memory`.
pub fn answer(
    alloc: Global,
    scene: &mut Option<StopDisk>,
    case: &Case<'_>,
) -> Result<String, CaseFault> {
    match question_of(case)? {
        Question::Disk => take(alloc, scene, case),
        Question::Open => opened(alloc, scene),
        Question::Append => appended(alloc, scene, case),
        Question::Crash => crashed(alloc, scene, case.words),
        question => match scene {
            Some(disk) => told(alloc, disk, question, case.words),
            None => Err(CaseFault::Missing),
        },
    }
}

/// Takes a disk with the bytes of the input.
fn take(alloc: Global, scene: &mut Option<StopDisk>, case: &Case<'_>) -> Result<String, CaseFault> {
    let text = case.input_text(alloc)?;
    let bytes = bytes_of(alloc, text.as_str())?;
    set(scene, FuseDisk::new(MemDisk::holding(alloc, bytes)?));
    Ok(String::new(alloc))
}

/// Sets the scene's disk.
fn set(scene: &mut Option<StopDisk>, disk: StopDisk) {
    drop(scene.replace(disk));
}

/// The scene's disk, which the scene no longer has then.
fn taken(scene: &mut Option<StopDisk>) -> Result<StopDisk, CaseFault> {
    scene.take().ok_or(CaseFault::Missing)
}

/// The answer to a question after which the scene keeps the disk.
fn told(
    alloc: Global,
    disk: &mut StopDisk,
    question: Question,
    words: &str,
) -> Result<String, CaseFault> {
    match question {
        Question::Format => formatted(alloc, disk),
        Question::List => listed(alloc, disk),
        Question::Spoil => spoilt(alloc, bytes_on(alloc, disk)?.as_slice(), words),
        Question::Bytes => digits_of(alloc, bytes_on(alloc, disk)?.as_slice()),
        _ => length(alloc, disk),
    }
}

/// The number of the disk's bytes, or the fault.
fn length(alloc: Global, disk: &mut StopDisk) -> Result<String, CaseFault> {
    match disk.len() {
        Ok(length) => Ok(format!(in alloc; "{length}")?),
        Err(fault) => fault_text(alloc, fault),
    }
}

/// The bytes of a disk.
fn bytes_on(alloc: Global, disk: &mut StopDisk) -> Result<Vec<u8>, CaseFault> {
    let length = disk.len().or(Err(CaseFault::Missing))?;
    let mut bytes = vec![in alloc; 0; length]?;
    match disk.read_at(0, bytes.as_mut_slice()) {
        Ok(_) => Ok(bytes),
        Err(_) => Err(CaseFault::Missing),
    }
}

/// Makes a journal: nothing, or the fault.
fn formatted(alloc: Global, disk: &mut StopDisk) -> Result<String, CaseFault> {
    match format(disk) {
        Ok(()) => Ok(String::new(alloc)),
        Err(fault) => fault_text(alloc, fault),
    }
}

/// What a journal has, and the room that is left; or why it can't be opened, and then the disk is gone.
fn opened(alloc: Global, scene: &mut Option<StopDisk>) -> Result<String, CaseFault> {
    match Journal::open(alloc, taken(scene)?) {
        Ok((journal, book)) => {
            let text = sizes(alloc, &book, journal.room());
            drop(book);
            set(scene, journal.into_disk());
            text
        }
        Err(fault) => why_not(alloc, fault),
    }
}

/// How much a book has, and a journal's room.
fn sizes(alloc: Global, book: &Book, room: i128) -> Result<String, CaseFault> {
    let rows = book.row_count();
    let termini = book.terminus_count();
    Ok(format!(in alloc; "rows {rows} termini {termini} room {room}")?)
}

/// Why a journal can't be opened.
///
/// # Errors
///
/// `Memory`.
pub fn why_not(alloc: Global, fault: OpenFault) -> Result<String, CaseFault> {
    Ok(format!(in alloc; "{fault}")?)
}

/// Opens the journal and appends batches; the words say after how many calls each call on the disk fails. Gives the
/// number of each batch, or why it isn't appended, which ends it.
fn appended(
    alloc: Global,
    scene: &mut Option<StopDisk>,
    case: &Case<'_>,
) -> Result<String, CaseFault> {
    let text = case.lines_text(alloc)?;
    let calls = match case.words {
        "" => None,
        words => Some(number_of(Some(words))?),
    };
    let mut book = Book::empty(alloc);
    let mut trial = Book::empty(alloc);
    let answer = append_text(alloc, scene, &mut book, &mut trial, calls, text.as_str());
    drop(book);
    drop(trial);
    answer
}

/// Appends the batches of a text to the journal on a disk, with two empty books that become copies of its own.
fn append_text(
    alloc: Global,
    scene: &mut Option<StopDisk>,
    book: &mut Book,
    trial: &mut Book,
    calls: Option<u64>,
    text: &str,
) -> Result<String, CaseFault>
    requires { book.old ≡ trial.old }
{
    let Some(disk) = scene else {
        return Err(CaseFault::Missing);
    };
    match list(alloc, disk) {
        Ok(listing) => {
            let applied = apply_entries(book, trial, listing.entries.as_slice());
            drop(listing);
            applied?;
            append_in(alloc, scene, book, trial, calls, text)
        }
        Err(fault) => why_not(alloc, fault),
    }
}

/// Opens the journal on a disk, appends batches, and closes it. The two books are copies of the journal's.
fn append_in(
    alloc: Global,
    scene: &mut Option<StopDisk>,
    book: &mut Book,
    trial: &mut Book,
    calls: Option<u64>,
    text: &str,
) -> Result<String, CaseFault>
    requires { book.old ≡ trial.old }
{
    match Journal::open(alloc, taken(scene)?) {
        Ok((mut journal, own)) => {
            drop(own);
            if let Some(calls) = calls {
                journal.fuse(calls);
            }
            let lines = append_batches(alloc, &mut journal, book, trial, text);
            set(scene, journal.into_disk());
            lines
        }
        Err(fault) => why_not(alloc, fault),
    }
}

/// Stops the disk: 0 leaves what the last sync left, 1 all writes since. A fuse is gone then.
fn crashed(alloc: Global, scene: &mut Option<StopDisk>, how: &str) -> Result<String, CaseFault> {
    let how = how.parse::<u8>().or(Err(CaseFault::Word))?;
    let disk = taken(scene)?;
    set(scene, disk.crash(how)?);
    Ok(String::new(alloc))
}

/// A line for each act, with the place of its batch, and one for the end; or why there is none.
fn listed(alloc: Global, disk: &mut StopDisk) -> Result<String, CaseFault> {
    match list(alloc, disk) {
        Ok(listing) => {
            let lines = lines_of(alloc, &listing);
            drop(listing);
            lines
        }
        Err(fault) => why_not(alloc, fault),
    }
}

/// The lines of a listing.
fn lines_of(alloc: Global, listing: &Listing) -> Result<String, CaseFault> {
    let mut lines = String::new(alloc);
    for entry in &listing.entries {
        let place = entry.place;
        let kind = entry.act.kind();
        let number = entry.act.number();
        writeln!(lines, "{place} {kind} {number}")?;
    }
    let place = listing.place;
    let rows = listing.book.row_count();
    let termini = listing.book.terminus_count();
    writeln!(lines, "end {place} rows {rows} termini {termini}")?;
    Ok(lines)
}

/// The answers of opening and listing for a file.
#[derive(Clone, Copy)]
enum Reading {
    /// No journal, by opening and listing alike.
    NoJournal,
    /// Damaged at one place, or a journal, by both alike.
    Alike,
    /// Different answers, or a fault of the disk or of memory.
    Otherwise,
}

/// What each byte of a range does when its bits of `MASK` are turned: `FROM TO MASK`, without the end.
fn spoilt(alloc: Global, bytes: &[u8], words: &str) -> Result<String, CaseFault> {
    let mut words = words.split(' ');
    let from = size_of(words.next())?;
    let to = size_of(words.next())?.min(bytes.len());
    let mask = number_of(words.next())?;
    let mask = u8::try_from(mask).or(Err(CaseFault::Word))?;
    let mut no_journal = 0usize;
    for at in from..to {
        match spoilt_at(alloc, bytes, at, mask)? {
            Reading::NoJournal => no_journal = no_journal.saturating_add(1),
            Reading::Alike => {}
            Reading::Otherwise => return Ok(format!(in alloc; "told otherwise at {at}")?),
        }
    }
    Ok(format!(in alloc; "no journal {no_journal}, else told alike")?)
}

/// The answers for a file after its byte at a place had the bits of the mask turned.
fn spoilt_at(alloc: Global, bytes: &[u8], at: usize, mask: u8) -> Result<Reading, CaseFault> {
    let mut bytes = bytes.to_vec(alloc)?;
    if let Some(byte) = bytes.get_mut(at) {
        *byte ^= mask;
    }
    let mut disk = MemDisk::holding(alloc, bytes)?;
    let listed = list(alloc, &mut disk).err();
    let opened = Journal::open(alloc, disk).err();
    if listed != opened {
        return Ok(Reading::Otherwise);
    }
    match opened {
        Some(OpenFault::NotAJournal) => Ok(Reading::NoJournal),
        Some(OpenFault::Damaged { .. }) | None => Ok(Reading::Alike),
        Some(OpenFault::Disk) | Some(OpenFault::Memory) => Ok(Reading::Otherwise),
    }
}

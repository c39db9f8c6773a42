//! Questions on journals on two files: what batches, checkpoints, stops and faults leave, and what is listed.
ghost use Rattle.std.specs.Prelude.{◌≡◌, IfOk};

use crate::batches::{Appends, Holding, append_batches};
use crate::disks::fault_text;
use crate::journals::why_not;
use book_core::Book;
use book_laws::restoring::what_a_book_lists_restores_it;
use case_files::{Case, CaseFault, bytes_of, digits_of, number_of};
use disk_core::{CrashTwin, FuseTwin, MemTwin, Side, Twin};
use std::alloc::Global;
use std::fmt::Write;
use twin_journal::{Journal, JournalFault, Listing, format, list};

/// Two files in memory that can be stopped.
pub type StopTwin = FuseTwin<MemTwin>;

/// What is asked in a scene.
#[derive(Clone, Copy)]
enum Question {
    /// To take two files with these bytes.
    Twin,
    /// To make a journal on them.
    Format,
    /// What the journal on them has.
    Open,
    /// To open the journal on them, and append batches.
    Append,
    /// To open the journal on them, hold batches, and write them together.
    Hold,
    /// To open the journal on them, and make a checkpoint.
    Checkpoint,
    /// A stop.
    Crash,
    /// The acts of the journal on them.
    List,
    /// The bytes of both.
    Bytes,
}

/// The question of a case.
fn question_of(case: &Case<'_>) -> Result<Question, CaseFault> {
    match case.question {
        "twin" => Ok(Question::Twin),
        "format" => Ok(Question::Format),
        "open" => Ok(Question::Open),
        "append" => Ok(Question::Append),
        "hold" => Ok(Question::Hold),
        "checkpoint" => Ok(Question::Checkpoint),
        "crash" => Ok(Question::Crash),
        "list" => Ok(Question::List),
        "bytes" => Ok(Question::Bytes),
        _ => Err(CaseFault::Question),
    }
}

/// The answer to a question on the twin of a scene.
///
/// # Errors
///
/// `Question`, `Word`, `Bytes` and `Missing` where the case isn't in the form; `Memory`.
pub fn answer(
    alloc: Global,
    scene: &mut Option<StopTwin>,
    case: &Case<'_>,
) -> Result<String, CaseFault> {
    match question_of(case)? {
        Question::Twin => take(alloc, scene, case.words),
        Question::Format => formatted(alloc, scene),
        Question::Open => opened(alloc, scene),
        Question::Append => appended(alloc, scene, case),
        Question::Hold => held(alloc, scene, case),
        Question::Checkpoint => renewed(alloc, scene, case.words),
        Question::Crash => crashed(alloc, scene, case.words),
        Question::List => listed(alloc, scene),
        Question::Bytes => both(alloc, scene),
    }
}

/// Takes two files with these bytes.
fn take(alloc: Global, scene: &mut Option<StopTwin>, words: &str) -> Result<String, CaseFault> {
    let (first, second) = words.split_once(' ').ok_or(CaseFault::Word)?;
    let twin = MemTwin::holding(alloc, bytes_of(alloc, first)?, bytes_of(alloc, second)?)?;
    set(scene, FuseTwin::new(twin));
    Ok(String::new(alloc))
}

/// Sets the scene's twin.
fn set(scene: &mut Option<StopTwin>, twin: StopTwin) {
    drop(scene.replace(twin));
}

/// The scene's twin, which the scene no longer has then.
fn taken(scene: &mut Option<StopTwin>) -> Result<StopTwin, CaseFault> {
    scene.take().ok_or(CaseFault::Missing)
}

/// Makes a journal: nothing, or the fault.
fn formatted(alloc: Global, scene: &mut Option<StopTwin>) -> Result<String, CaseFault> {
    let Some(twin) = scene else {
        return Err(CaseFault::Missing);
    };
    match format(twin) {
        Ok(()) => Ok(String::new(alloc)),
        Err(fault) => fault_text(alloc, fault),
    }
}

/// The bytes of a side.
fn bytes_on(alloc: Global, twin: &mut StopTwin, side: Side) -> Result<Vec<u8>, CaseFault> {
    let length = twin.len(side).or(Err(CaseFault::Missing))?;
    let mut bytes = vec![in alloc; 0; length]?;
    match twin.read_at(side, 0, bytes.as_mut_slice()) {
        Ok(_) => Ok(bytes),
        Err(_) => Err(CaseFault::Missing),
    }
}

/// The bytes of both sides.
fn both(alloc: Global, scene: &mut Option<StopTwin>) -> Result<String, CaseFault> {
    let Some(twin) = scene else {
        return Err(CaseFault::Missing);
    };
    let first = bytes_on(alloc, twin, Side::First)?;
    let second = bytes_on(alloc, twin, Side::Second)?;
    let first = digits_of(alloc, first.as_slice())?;
    let second = digits_of(alloc, second.as_slice())?;
    Ok(format!(in alloc; "{first} {second}")?)
}

/// What a journal has, and the room that is left; or why it can't be opened, and then the twin is gone.
fn opened(alloc: Global, scene: &mut Option<StopTwin>) -> Result<String, CaseFault> {
    match Journal::open(alloc, taken(scene)?) {
        Ok((journal, book)) => {
            let text = sizes(alloc, &journal, &book);
            drop(book);
            set(scene, journal.into_twin());
            text
        }
        Err(fault) => why_not(alloc, fault),
    }
}

/// How many batches a journal has, how much its book has, and its room.
fn sizes(alloc: Global, journal: &Journal<StopTwin>, book: &Book) -> Result<String, CaseFault> {
    let batch = journal.batch();
    let base = journal.base();
    let rows = book.row_count();
    let termini = book.terminus_count();
    let room = journal.room(book)?;
    Ok(format!(in alloc; "batch {batch} base {base} rows {rows} termini {termini} room {room}")?)
}

/// Another book that is equal to one.
fn copy_of(alloc: Global, book: &Book) -> Result<Book, CaseFault>
    ensures { IfOk result (λ copy. copy ≡ book.now) }
{
    book.is_sound();
    what_a_book_lists_restores_it();
    let acts = book.acts()?;
    match Book::restore(
        alloc,
        book.next_terminus(),
        book.next_row(),
        acts.as_slice(),
    ) {
        Ok(copy) => Ok(copy),
        Err(_) => Err(CaseFault::Memory),
    }
}

/// The number of calls after which each fails, where the words say one.
fn calls_of(words: &str) -> Result<Option<u64>, CaseFault> {
    match words {
        "" => Ok(None),
        words => Ok(Some(number_of(Some(words))?)),
    }
}

/// Opens the journal and appends batches; the words say after how many calls each call on the twin fails. Gives the
/// number of each batch, or why it isn't appended, which ends it.
fn appended(
    alloc: Global,
    scene: &mut Option<StopTwin>,
    case: &Case<'_>,
) -> Result<String, CaseFault> {
    let text = case.lines_text(alloc)?;
    let calls = calls_of(case.words)?;
    match Journal::open(alloc, taken(scene)?) {
        Ok((mut journal, mut book)) => {
            if let Some(calls) = calls {
                journal.fuse(calls);
            }
            let lines = append_text(alloc, &mut journal, &mut book, text.as_str());
            drop(book);
            set(scene, journal.into_twin());
            lines
        }
        Err(fault) => why_not(alloc, fault),
    }
}

/// Opens the journal, holds batches, and then writes them together; the words say after how many calls each call on the twin
/// fails. Gives the number of each batch, or why it isn't held, which ends it; and after that why they aren't written, if they
/// aren't.
fn held(alloc: Global, scene: &mut Option<StopTwin>, case: &Case<'_>) -> Result<String, CaseFault> {
    let text = case.lines_text(alloc)?;
    let calls = calls_of(case.words)?;
    match Journal::open(alloc, taken(scene)?) {
        Ok((mut journal, mut book)) => {
            if let Some(calls) = calls {
                journal.fuse(calls);
            }
            let mut holding = Holding { journal };
            let lines = append_text(alloc, &mut holding, &mut book, text.as_str());
            drop(book);
            let Holding { mut journal } = holding;
            let written = journal.write_held();
            set(scene, journal.into_twin());
            with_fault(lines?, written)
        }
        Err(fault) => why_not(alloc, fault),
    }
}

/// Lines, and a last one for a fault.
fn with_fault(lines: String, written: Result<(), JournalFault>) -> Result<String, CaseFault> {
    let mut lines = lines;
    if let Err(fault) = written {
        writeln!(lines, "{fault}")?;
    }
    Ok(lines)
}

/// Appends the batches of a text to a journal of this book.
fn append_text<J: Appends>(
    alloc: Global,
    journal: &mut J,
    book: &mut Book,
    text: &str,
) -> Result<String, CaseFault> {
    let mut trial = copy_of(alloc, book)?;
    append_batches(alloc, journal, book, &mut trial, text)
}

/// Opens the journal and makes a checkpoint; the words say after how many calls each call on the twin fails.
fn renewed(alloc: Global, scene: &mut Option<StopTwin>, words: &str) -> Result<String, CaseFault> {
    let calls = calls_of(words)?;
    match Journal::open(alloc, taken(scene)?) {
        Ok((mut journal, book)) => {
            if let Some(calls) = calls {
                journal.fuse(calls);
            }
            let made = journal.checkpoint(&book);
            drop(book);
            set(scene, journal.into_twin());
            match made {
                Ok(()) => Ok(String::new(alloc)),
                Err(fault) => Ok(format!(in alloc; "{fault}")?),
            }
        }
        Err(fault) => why_not(alloc, fault),
    }
}

/// Stops both sides: 0 leaves what the last syncs left, 1 all writes since. A fuse is gone then.
fn crashed(alloc: Global, scene: &mut Option<StopTwin>, how: &str) -> Result<String, CaseFault> {
    let how = how.parse::<u8>().or(Err(CaseFault::Word))?;
    let twin = taken(scene)?;
    set(scene, twin.crash(how)?);
    Ok(String::new(alloc))
}

/// A line for the checkpoint, one for each act, with the place of its batch, and one for the end; or why there is none.
fn listed(alloc: Global, scene: &mut Option<StopTwin>) -> Result<String, CaseFault> {
    let Some(twin) = scene else {
        return Err(CaseFault::Missing);
    };
    match list(alloc, twin) {
        Ok(listing) => {
            let lines = lines_of(alloc, &listing);
            drop(listing);
            lines
        }
        Err(fault) => why_not(alloc, fault),
    }
}

/// The lines of a listing.
fn lines_of(alloc: Global, listing: &Listing) -> Result<String, CaseFault> {
    let mut lines = String::new(alloc);
    let epoch = listing.checkpoint.epoch;
    let base = listing.checkpoint.base;
    let rows = listing.checkpoint.rows;
    let termini = listing.checkpoint.termini;
    writeln!(
        lines,
        "epoch {epoch} base {base} rows {rows} termini {termini}"
    )?;
    for entry in &listing.entries {
        let place = entry.place;
        let kind = entry.act.kind();
        let number = entry.act.number();
        writeln!(lines, "{place} {kind} {number}")?;
    }
    let place = listing.place;
    let rows = listing.book.row_count();
    let termini = listing.book.terminus_count();
    writeln!(lines, "end {place} rows {rows} termini {termini}")?;
    Ok(lines)
}

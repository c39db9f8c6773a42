//! A journal told in short: what its files and its book have, and how much room is left.
ghost use Rattle.std.specs.Prelude.{◌≡◌, ◌≢◌, ◌<◌, ◌++◌, count_by, length, flat_map, IfOk, IfErr, IfSome, IsErrOf, OnOk};
ghost use Rattle.disk_core.specs.Disk.{NoMore};
ghost use Rattle.disk_core.specs.declared.side.Side.TheVariants.{First, Second};
ghost use Rattle.amqr_files.specs.Summaries.{role_name, has_state, rows_line, termini_lines, act_lines, room_left, summary_lines, IsSummary, SummarizesJournal};
ghost use Rattle.amqr_files.specs.Journals.{IsNotListed};

use crate::input::MOST_BYTES;
use crate::print::{print_lines, refuse};
use crate::status::{Refusal, Status};
use book_core::Book;
use book_model::{Act, LinkRole, Row, Terminus};
use disk_core::{Side, Twin};
use gate_journal::{acts_len, reserve_of, total};
use std::alloc::{AllocError, Global};
use std::fmt::{self, Display, Formatter};
use std::io::{self, Write};
use twin_journal::{Listing, list};

/// The most bytes of a journal, with what it keeps free.
const JOURNAL_LIMIT: u64 = MOST_BYTES as u64;

/// A line of a journal's summary; `{}` prints it, without the LF.
#[derive(Drop)]
pub enum SummaryLine {
    /// How many bytes its files have: `bytes FIRST SECOND`.
    Bytes {
        /// Those of FILE.0.
        first: usize,
        /// Those of FILE.1.
        second: usize,
    },
    /// Its checkpoint: `epoch E base N`.
    Checkpoint {
        /// How many checkpoints there were, and one for the new journal.
        epoch: u64,
        /// The number of the last batch in it.
        base: u64,
    },
    /// The rows of its book: `rows R undecided U decided D forgotten F`.
    Rows {
        /// How many there are.
        rows: usize,
        /// How many have no outcome yet.
        undecided: u64,
        /// How many have one.
        decided: u64,
        /// How many their producers have settled.
        forgotten: u64,
    },
    /// How many termini its book has: `termini T`.
    Termini {
        /// How many.
        termini: usize,
    },
    /// One of them: `terminus NUMBER ROLE "USER" "CONTAINER" "NAME" "ADDRESS"`.
    Terminus(Terminus),
    /// How many bytes the limit leaves beside a checkpoint of its book and what it keeps free: `room N`.
    Room {
        /// How many.
        bytes: u64,
    },
}

impl Display for SummaryLine {
    ghost use Rattle.amqr_files.specs.Summaries.{summary_text};

    ghost output = { λ line. summary_text line };

    fn fmt<W: fmt::Write>(&self, f: &mut Formatter<W>) -> fmt::Result {
        match self {
            SummaryLine::Bytes { first, second } => write!(f, "bytes {first} {second}"),
            SummaryLine::Checkpoint { epoch, base } => write!(f, "epoch {epoch} base {base}"),
            SummaryLine::Rows {
                rows,
                undecided,
                decided,
                forgotten,
            } => write!(
                f,
                "rows {rows} undecided {undecided} decided {decided} forgotten {forgotten}"
            ),
            SummaryLine::Termini { termini } => write!(f, "termini {termini}"),
            SummaryLine::Terminus(terminus) => {
                let number = terminus.number.0;
                let role = role_name(terminus.key.role);
                let user = terminus.key.user.as_str();
                let container = terminus.key.container.as_str();
                let name = terminus.key.name.as_str();
                let address = terminus.address.as_str();
                write!(
                    f,
                    "terminus {number} {role} {user:?} {container:?} {name:?} {address:?}"
                )
            }
            SummaryLine::Room { bytes } => write!(f, "room {bytes}"),
        }
    }
}

/// The name of a link's direction.
fn role_name(role: LinkRole) -> &'static str
    ensures { result.now ≡ role_name role }
{
    match role {
        LinkRole::Producer => "producer",
        LinkRole::Consumer => "consumer",
    }
}

/// What a row may have come to.
#[derive(Clone, Copy)]
pub enum RowState {
    /// It has no outcome yet.
    Undecided,
    /// It has one.
    Decided,
    /// Its producer has settled it.
    Forgotten,
}

/// Whether a row has come to this.
fn has_state(row: &Row, state: RowState) -> bool
    ensures { result ≡ has_state state row.now }
{
    match state {
        RowState::Undecided => row.outcome.is_none(),
        RowState::Decided => row.outcome.is_some(),
        RowState::Forgotten => row.forgotten,
    }
}

/// How many rows of a book have come to this.
fn count_rows(book: &Book, state: RowState) -> Result<u64, AllocError>
    ensures { IfOk result (λ n. n ≡ count_by (has_state state) book.now.rows) }
{
    let mut count = 0u64;
    for row in book.rows() {
        if has_state(row, state) {
            let Some(next) = count.checked_add(1) else {
                return Err(AllocError);
            };
            count = next;
        }
    }
    Ok(count)
}

/// The line of a book's rows.
fn rows_line(book: &Book) -> Result<SummaryLine, AllocError>
    ensures { IfOk result (λ line. line ≡ rows_line book.now) }
{
    Ok(SummaryLine::Rows {
        rows: book.row_count(),
        undecided: count_rows(book, RowState::Undecided)?,
        decided: count_rows(book, RowState::Decided)?,
        forgotten: count_rows(book, RowState::Forgotten)?,
    })
}

/// Pushes the lines of a book's termini.
#[tactic(auto, using(crate::proofs::Summed::made_in_acts))]
fn push_termini(lines: &mut Vec<SummaryLine>, book: &Book) -> Result<(), AllocError>
    ensures { OnOk result (lines.new.items ≡ lines.old.items ++ termini_lines book.now) }
{
    let acts = book.acts()?;
    push_acts(lines, acts)
}

/// Pushes the lines of the termini that acts make.
fn push_acts(lines: &mut Vec<SummaryLine>, acts: Vec<Act>) -> Result<(), AllocError>
    ensures { OnOk result (lines.new.items ≡ lines.old.items ++ flat_map act_lines acts.items) }
{
    for act in acts {
        push_act(lines, act)?;
    }
    Ok(())
}

/// Pushes the line of the terminus that an act makes, if it makes one.
fn push_act(lines: &mut Vec<SummaryLine>, act: Act) -> Result<(), AllocError>
    ensures { OnOk result (lines.new.items ≡ lines.old.items ++ act_lines act) }
{
    match act {
        Act::Make(terminus) => {
            if let Err(left) = lines.push(SummaryLine::Terminus(terminus)) {
                drop(left);
                return Err(AllocError);
            }
            Ok(())
        }
        other => {
            drop(other);
            Ok(())
        }
    }
}

/// How many bytes the limit leaves beside a checkpoint of a book and what is kept free for it. It encodes the book.
#[tactic(auto, using(crate::proofs::Rooms::room_is))]
fn room_left(alloc: Global, book: &Book) -> Result<u64, AllocError>
    ensures { IfOk result (λ n. n ≡ room_left book.now) }
{
    let acts = book.acts()?;
    let len = acts_len(alloc, acts.as_slice())?;
    let Some(reserve) = reserve_of(book) else {
        return Err(AllocError);
    };
    // a head and the first gate, the two next numbers, the acts, and what is kept free
    match total(&[30, 16, len as u64, reserve]) {
        Some(needed) => Ok(JOURNAL_LIMIT.saturating_sub(needed)),
        None => Err(AllocError),
    }
}

/// The lines of a journal's summary, whose files have so many bytes.
fn lines_of(
    alloc: Global,
    first: usize,
    second: usize,
    listing: &Listing,
) -> Result<Vec<SummaryLine>, AllocError>
    ensures { IfOk result (λ lines. lines.items ≡ summary_lines first second listing.now.checkpoint listing.now.book) }
{
    let book = &listing.book;
    let mut lines = Vec::new(alloc);
    lines.push(SummaryLine::Bytes { first, second })?;
    lines.push(SummaryLine::Checkpoint {
        epoch: listing.checkpoint.epoch,
        base: listing.checkpoint.base,
    })?;
    lines.push(rows_line(book)?)?;
    lines.push(SummaryLine::Termini {
        termini: book.terminus_count(),
    })?;
    push_termini(&mut lines, book)?;
    lines.push(SummaryLine::Room {
        bytes: room_left(alloc, book)?,
    })?;
    Ok(lines)
}

/// The lines of the summary of the journal on two files.
///
/// # Errors
///
/// As with the list of a journal.
fn summary_of<T: Twin>(alloc: Global, twin: &mut T) -> Result<Vec<SummaryLine>, Refusal>
    ensures lines { IfOk result (λ lines. IsSummary (T.seen twin.old) lines.items) }
    ensures refusal { IfErr result (IsNotListed (T.seen twin.old) (T.failures twin.old < T.failures twin.new)) }
    ensures unchanged { (IsErrOf result Refusal.Disk → ⊥) → (IsErrOf result Refusal.Memory → ⊥) → T.seen twin.new ≡ T.seen twin.old }
    ensures crash { NoMore (T.may_leave twin.old) (T.may_leave twin.new) }
{
    let listing = list(alloc, twin)?;
    let first = twin.len(Side::First)?;
    let second = twin.len(Side::Second)?;
    match lines_of(alloc, first, second, &listing) {
        Ok(lines) => Ok(lines),
        Err(_) => Err(Refusal::Memory),
    }
}

/// Writes the summary of the journal on two files, or why they have none. Unless the files or memory failed, a read of them still gives what it gave.
///
/// # Errors
///
/// An error of the output, which could not be written.
pub fn summarize_journal<T: Twin, O: Write>(
    alloc: Global,
    twin: &mut T,
    output: &mut O,
) -> io::Result<Status>
    ensures tells { IfOk result (λ status. SummarizesJournal (T.seen twin.old) (T.failures twin.old < T.failures twin.new) status (O.contents output.old) (O.contents output.new)) }
    ensures unchanged { IfOk result (λ status. status ≢ Status.Failed → T.seen twin.new ≡ T.seen twin.old) }
    ensures crash { NoMore (T.may_leave twin.old) (T.may_leave twin.new) }
{
    match summary_of(alloc, twin) {
        Ok(lines) => {
            print_lines(output, lines.as_slice())?;
            Ok(Status::Done)
        }
        Err(refusal) => refuse(output, refusal),
    }
}

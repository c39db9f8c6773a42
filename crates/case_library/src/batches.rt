//! Batches of acts, as a journal accepts them: not empty, of outcomes, within the limit, and applying to its book.
ghost use Rattle.std.specs.Prelude.{◌≡◌, ◌≢◌, ◌≤◌, [], length, None, true, OnOk};
ghost use Rattle.book_model.specs.Book.{first_fault};
ghost use Rattle.journal_codec.specs.Format.{acts_bytes};
ghost use Rattle.journal_codec.specs.Batches.{HasOutcome, HaveOutcomes};

use crate::acts::acts_of;
use amqp_model::DeliveryState;
use book_core::Book;
use book_model::{Act, BookFault};
use case_files::CaseFault;
use disk_core::{Disk, Twin};
use gate_journal::laws::terminal_states_are_outcomes;
use gate_journal::{Entry, Journal, JournalFault, acts_len};
use std::alloc::Global;
use std::fmt::Write;
use std::slice;

/// The most bytes of a batch's acts.
const MOST_BYTES: usize = 4_194_304;

/// A journal to which batches are appended.
pub trait Appends {
    /// Appends a batch to the journal of this book, and gives its number.
    fn append(&mut self, book: &Book, acts: &[Act]) -> Result<u64, JournalFault>
        requires some { acts.now ≢ [] }
        requires small { length (acts_bytes acts.now) ≤ 4194304 }
        requires outcomes { HaveOutcomes acts.now }
        requires applies { first_fault book.now acts.now ≡ None };
}

impl<D: Disk> Appends for Journal<D> {
    fn append(&mut self, book: &Book, acts: &[Act]) -> Result<u64, JournalFault> {
        Journal::append(self, book, acts)
    }
}

impl<T: Twin> Appends for twin_journal::Journal<T> {
    fn append(&mut self, book: &Book, acts: &[Act]) -> Result<u64, JournalFault> {
        twin_journal::Journal::append(self, book, acts)
    }
}

/// A journal that holds the batches that are appended to it, until they are written together.
#[derive(Drop)]
pub struct Holding<T: Twin> {
    /// The journal.
    pub journal: twin_journal::Journal<T>,
}

impl<T: Twin> Appends for Holding<T> {
    fn append(&mut self, book: &Book, acts: &[Act]) -> Result<u64, JournalFault> {
        self.journal.hold(book, acts)
    }
}

/// The outcome of appending a batch.
#[derive(Clone, Copy)]
enum Outcome {
    /// It was appended as the journal's batch of this number.
    Stored(u64),
    /// The journal refused it.
    Refused(JournalFault),
    /// It doesn't apply to the book.
    Inapplicable(BookFault),
}

/// Applies the acts of a journal to two equal books: one is then the journal's, the other is for trying whether a batch applies.
///
/// # Errors
///
/// `Memory`, or `Word` where an act doesn't apply.
pub fn apply_entries(book: &mut Book, trial: &mut Book, entries: &[Entry]) -> Result<(), CaseFault>
    requires { book.old ≡ trial.old }
    ensures { OnOk result (book.new ≡ trial.new) }
{
    for entry in entries {
        apply_both(book, trial, slice::from_ref(&entry.act))?;
    }
    Ok(())
}

/// Applies acts to both of two equal books.
fn apply_both(book: &mut Book, trial: &mut Book, acts: &[Act]) -> Result<(), CaseFault>
    requires { book.old ≡ trial.old }
    ensures { OnOk result (book.new ≡ trial.new) }
{
    if trial.apply(acts).is_err() || book.apply(acts).is_err() {
        return Err(CaseFault::Word);
    }
    Ok(())
}

/// Appends the batches of a text, separated by empty lines, and applies each to the books: a line for each, with its number in
/// the journal or why it isn't appended, which is the last line. The two books are equal.
///
/// # Errors
///
/// `Word` and `Bytes` where the text isn't in the form, or a batch is empty, too long, or decides by a state that the
/// journal's callers have to prove an outcome; `Memory`.
pub fn append_batches<J: Appends>(
    alloc: Global,
    journal: &mut J,
    book: &mut Book,
    trial: &mut Book,
    text: &str,
) -> Result<String, CaseFault>
    requires { book.old ≡ trial.old }
{
    let mut lines = String::new(alloc);
    for batch in text.split("\n\n") {
        let acts = acts_of(alloc, book, batch)?;
        let outcome = store(alloc, journal, book, trial, acts.as_slice())?;
        put_outcome(&mut lines, outcome)?;
        if !matches!(outcome, Outcome::Stored(_)) {
            break;
        }
    }
    Ok(lines)
}

/// Appends a batch to the journal, and applies it to its book and to the other, which shows whether it applies.
fn store<J: Appends>(
    alloc: Global,
    journal: &mut J,
    book: &mut Book,
    trial: &mut Book,
    acts: &[Act],
) -> Result<Outcome, CaseFault>
    requires { book.old ≡ trial.old }
    ensures { OnOk result (book.new ≡ trial.new) }
{
    if acts.is_empty() || !have_outcomes(acts) || acts_len(alloc, acts)? > MOST_BYTES {
        return Err(CaseFault::Word);
    }
    if let Err(fault) = trial.apply(acts) {
        return Ok(Outcome::Inapplicable(fault));
    }
    let stored = journal.append(book, acts);
    if book.apply(acts).is_err() {
        return Err(CaseFault::Memory);
    }
    match stored {
        Ok(number) => Ok(Outcome::Stored(number)),
        Err(fault) => Ok(Outcome::Refused(fault)),
    }
}

/// Appends the line for the outcome of a batch.
fn put_outcome(lines: &mut String, outcome: Outcome) -> Result<(), CaseFault> {
    match outcome {
        Outcome::Stored(number) => writeln!(lines, "{number}")?,
        Outcome::Refused(fault) => writeln!(lines, "{fault}")?,
        Outcome::Inapplicable(fault) => {
            let number = fault.number();
            writeln!(lines, "fault {number}")?
        }
    }
    Ok(())
}

/// Whether each decision of these acts is known to be an outcome.
fn have_outcomes(acts: &[Act]) -> bool
    ensures { result ≡ true → HaveOutcomes acts.now }
{
    match acts.split_first() {
        None => true,
        Some((first, others)) => has_outcome(first) && have_outcomes(others),
    }
}

/// Whether an act that decides does so by a state that is known to be an outcome: accepted or released.
fn has_outcome(act: &Act) -> bool
    ensures { result ≡ true → HasOutcome act.now }
{
    terminal_states_are_outcomes();
    match act {
        Act::Decide(decision) => matches!(
            decision.outcome,
            DeliveryState::Accepted | DeliveryState::Released
        ),
        _ => true,
    }
}

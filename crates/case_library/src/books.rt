//! Questions on a book: which acts apply, and what it has then.
use crate::acts::{acts_of, key_of, tag_of};
use book_core::{Book, Rows};
use book_model::{Act, Row, RowNumber, TerminusNumber};
use case_files::{Case, CaseFault, fault_number, number_of};
use std::alloc::Global;
use std::fmt::Write;

/// What is asked of a book.
#[derive(Clone, Copy)]
enum Question {
    /// To apply acts.
    Apply,
    /// To read a book back.
    Restore,
    /// The kinds and numbers of acts.
    Kinds,
    /// The kinds and numbers of the acts that it stands for.
    List,
    /// How much it has, and which numbers come next.
    Counts,
    /// A row.
    Row,
    /// All rows.
    Rows,
    /// The rows of a terminus.
    RowsOf,
    /// The row of a producer with a tag.
    Named,
    /// A terminus.
    Terminus,
    /// The terminus of a link.
    Link,
}

/// The question of a case.
fn question_of(case: &Case<'_>) -> Result<Question, CaseFault> {
    match case.question {
        "apply" => Ok(Question::Apply),
        "restore" => Ok(Question::Restore),
        "kinds" => Ok(Question::Kinds),
        "list" => Ok(Question::List),
        "counts" => Ok(Question::Counts),
        "row" => Ok(Question::Row),
        "rows" => Ok(Question::Rows),
        "rows_of" => Ok(Question::RowsOf),
        "named" => Ok(Question::Named),
        "terminus" => Ok(Question::Terminus),
        "link" => Ok(Question::Link),
        _ => Err(CaseFault::Question),
    }
}

/// The answer to a question on the book of a scene.
///
/// # Errors
///
/// `Question`, `Word` and `Bytes` where the case isn't in the form; `Memory`.
pub fn answer(alloc: Global, book: &mut Book, case: &Case<'_>) -> Result<String, CaseFault> {
    match question_of(case)? {
        Question::Apply => apply(alloc, book, case),
        Question::Restore => restore(alloc, book, case),
        Question::Kinds => kinds(alloc, book, case),
        question => told(alloc, book, question, case.words),
    }
}

/// Applies acts: nothing, or the fault's number.
fn apply(alloc: Global, book: &mut Book, case: &Case<'_>) -> Result<String, CaseFault> {
    let text = case.input_text(alloc)?;
    let acts = acts_of(alloc, book, text.as_str())?;
    match book.apply(acts.as_slice()) {
        Ok(()) => Ok(String::new(alloc)),
        Err(fault) => fault_number(alloc, fault.number()),
    }
}

/// Reads a book back from the acts of the lines of input, which is then that of the scene: nothing, or the fault's
/// number. The words are the numbers that come next: `TERMINUS ROW`.
fn restore(alloc: Global, book: &mut Book, case: &Case<'_>) -> Result<String, CaseFault> {
    let mut words = case.words.split(' ');
    let next_terminus = TerminusNumber(number_of(words.next())?);
    let next_row = RowNumber(number_of(words.next())?);
    let text = case.lines_text(alloc)?;
    let acts = acts_of(alloc, book, text.as_str())?;
    match Book::restore(alloc, next_terminus, next_row, acts.as_slice()) {
        Ok(restored) => {
            *book = restored;
            Ok(String::new(alloc))
        }
        Err(fault) => fault_number(alloc, fault.number()),
    }
}

/// The kinds and numbers of the acts of a case.
fn kinds(alloc: Global, book: &Book, case: &Case<'_>) -> Result<String, CaseFault> {
    let text = case.input_text(alloc)?;
    told_acts(alloc, acts_of(alloc, book, text.as_str())?.as_slice())
}

/// A line for each act: its kind and its number.
fn told_acts(alloc: Global, acts: &[Act]) -> Result<String, CaseFault> {
    let mut lines = String::new(alloc);
    for act in acts {
        let kind = act.kind();
        let number = act.number();
        writeln!(lines, "{kind} {number}")?;
    }
    Ok(lines)
}

/// The answer to a question on a book's contents.
fn told(alloc: Global, book: &Book, question: Question, words: &str) -> Result<String, CaseFault> {
    match question {
        Question::Row => row(alloc, book.row(RowNumber(number_of(Some(words))?))),
        Question::Rows => rows(alloc, book.rows()),
        Question::RowsOf => rows(alloc, book.rows_of(TerminusNumber(number_of(Some(words))?))),
        Question::Named => named(alloc, book, words),
        Question::Terminus => terminus(alloc, book, words),
        Question::Link => link(alloc, book, words),
        Question::List => told_acts(alloc, book.acts()?.as_slice()),
        Question::Apply | Question::Restore | Question::Kinds | Question::Counts => {
            counts(alloc, book)
        }
    }
}

/// How many rows and termini there are, and the numbers that come next.
fn counts(alloc: Global, book: &Book) -> Result<String, CaseFault> {
    let rows = book.row_count();
    let termini = book.terminus_count();
    let next_row = book.next_row();
    let next_terminus = book.next_terminus();
    Ok(format!(in alloc; "rows {rows} termini {termini} next {next_row} {next_terminus}")?)
}

/// The number of a row, and whether it is decided and forgotten.
fn row(alloc: Global, row: Option<&Row>) -> Result<String, CaseFault> {
    let Some(row) = row else {
        return Ok(String::from_str(alloc, "none")?);
    };
    let number = row.number;
    let decided = if row.outcome.is_some() {
        "decided"
    } else {
        "undecided"
    };
    let forgotten = if row.forgotten { "forgotten" } else { "kept" };
    Ok(format!(in alloc; "{number} {decided} {forgotten}")?)
}

/// The numbers of rows.
fn rows(alloc: Global, rows: Rows<'_>) -> Result<String, CaseFault> {
    let mut text = String::new(alloc);
    for row in rows {
        if !text.is_empty() {
            text.push(' ')?;
        }
        let number = row.number;
        write!(text, "{number}")?;
    }
    Ok(text)
}

/// The row of a producer with a tag: `PRODUCER TAG`.
fn named(alloc: Global, book: &Book, words: &str) -> Result<String, CaseFault> {
    let mut words = words.split(' ');
    let producer = TerminusNumber(number_of(words.next())?);
    let tag = tag_of(alloc, words.next())?;
    row(alloc, book.row_named(producer, &tag))
}

/// The address of a terminus, by its number.
fn terminus(alloc: Global, book: &Book, words: &str) -> Result<String, CaseFault> {
    let text = match book.terminus(TerminusNumber(number_of(Some(words))?)) {
        None => "none",
        Some(terminus) => terminus.address.as_str(),
    };
    Ok(String::from_str(alloc, text)?)
}

/// The number of the terminus of a link: `ROLE USER CONTAINER NAME`.
fn link(alloc: Global, book: &Book, words: &str) -> Result<String, CaseFault> {
    let key = key_of(alloc, &mut words.split(' '))?;
    match book.terminus_of(&key) {
        None => Ok(String::from_str(alloc, "none")?),
        Some(terminus) => {
            let number = terminus.number;
            Ok(format!(in alloc; "{number}")?)
        }
    }
}

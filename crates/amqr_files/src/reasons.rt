//! What is wrong with a file or a configuration, in a sentence for people.
use crate::input::MOST_BYTES;
use crate::journal::is_taken;
use crate::status::Refusal;
use disk_core::Side;
use route_table::FaultKind;
use std::alloc::{AllocError, Global};
use std::fs::{self, File, OpenOptions, TryLockError};
use std::io::{self, Write};
use std::rt::Files;
use std::str;

/// What a file was to be opened for.
#[derive(Clone, Copy, Debug, PartialEq, Eq)]
pub enum Purpose {
    /// To read it whole.
    Read,
    /// To list the journal that it is a side of.
    List,
    /// To keep a server's journal in it.
    Serve,
    /// To make a side of a journal in it.
    Make,
}

/// Writes a sentence with the reason why the files of a journal were refused, if there is one to tell: that its name is a file's, or which of its files could
/// not be used, and why.
///
/// # Errors
///
/// The sentence could not be written, or memory was refused for it.
pub fn tell_journal<R: Files<File = File>, E: Write>(
    rt: &R,
    alloc: Global,
    name: &str,
    purpose: Purpose,
    refusal: Refusal,
    errors: &mut E,
) -> io::Result<()> {
    match refusal {
        Refusal::File => {
            let path = faulty_side(rt, alloc, name, purpose)?;
            tell_file(rt, &path, purpose, errors)
        }
        Refusal::NoJournal if is_taken(rt, name) => writeln!(
            errors,
            "{name} is there itself: a journal is in {name}.0 and {name}.1, and one of format 1 isn't read"
        ),
        _ => Ok(()),
    }
}

/// The file of a journal that could not be used: the first, if that is so of it, or else the second.
fn faulty_side<R: Files<File = File>>(
    rt: &R,
    alloc: Global,
    name: &str,
    purpose: Purpose,
) -> Result<String, AllocError> {
    let first = Side::First.file_name(alloc, name)?;
    if is_usable(rt, &first, purpose) {
        return Side::Second.file_name(alloc, name);
    }
    Ok(first)
}

/// Whether a regular file is there and can be opened, or may be made.
fn is_usable<R: Files<File = File>>(rt: &R, path: &str, purpose: Purpose) -> bool {
    match fs::metadata(rt, path) {
        Ok(found) => found.is_file() && open_for(rt, path, purpose).is_ok(),
        Err(_) => purpose == Purpose::Make,
    }
}

/// Opens a file that is there, as it is opened for this.
fn open_for<R: Files<File = File>>(rt: &R, path: &str, purpose: Purpose) -> io::Result<File> {
    let writes = matches!(purpose, Purpose::Serve | Purpose::Make);
    let mut options = OpenOptions::new();
    options.read(true).write(writes);
    options.open(rt, path)
}

/// Writes a sentence with the path of a file that could not be used, and the reason. What refused the file told none, so it is looked for here: the file is
/// opened once more, and nothing is read or made.
///
/// # Errors
///
/// The sentence could not be written.
pub fn tell_file<R: Files<File = File>, E: Write>(
    rt: &R,
    path: &str,
    purpose: Purpose,
    errors: &mut E,
) -> io::Result<()> {
    let found = match fs::metadata(rt, path) {
        Ok(found) => found,
        Err(error) => return writeln!(errors, "the file {path} can't be used: {error}"),
    };
    if found.is_dir() {
        return writeln!(errors, "the file {path} can't be used: it is a folder");
    }
    if !found.is_file() {
        return writeln!(
            errors,
            "the file {path} can't be used: it is no regular file"
        );
    }
    match open_for(rt, path, purpose) {
        Ok(file) => tell_opened(path, purpose, &file, errors),
        Err(error) => writeln!(errors, "the file {path} can't be used: {error}"),
    }
}

/// Writes a sentence with the path of a file that can be opened and could not be used.
fn tell_opened<E: Write>(
    path: &str,
    purpose: Purpose,
    file: &File,
    errors: &mut E,
) -> io::Result<()> {
    if purpose == Purpose::Serve {
        if let Err(TryLockError::Error(error)) = file.try_lock_shared() {
            return writeln!(errors, "the file {path} can't be locked: {error}");
        }
    }
    if purpose == Purpose::Read {
        return writeln!(
            errors,
            "the file {path} can't be read, or has more than {MOST_BYTES} bytes"
        );
    }
    writeln!(
        errors,
        "the file {path} can't be read, or its folder can't be synced"
    )
}

/// Writes a sentence with the line of a configuration that is at fault, counted from 1, its text and what is wrong with it. What may be a password is left out.
///
/// # Errors
///
/// The sentence could not be written.
pub fn tell_line<E: Write>(
    path: &str,
    text: &[u8],
    line: u64,
    kind: FaultKind,
    errors: &mut E,
) -> io::Result<()> {
    let wrong = wrong_words(kind);
    let Ok(text) = str::from_utf8(text) else {
        return writeln!(errors, "{path}, line {line}: the text isn't UTF-8");
    };
    match line_shown(text, line) {
        Shown::Whole(shown) => writeln!(errors, "{path}, line {line}: {wrong}: {shown:?}"),
        Shown::Key(shown) => writeln!(
            errors,
            "{path}, line {line}: {wrong}: {shown:?}, whose value isn't shown"
        ),
        Shown::Nothing => writeln!(errors, "{path}, line {line}: {wrong}"),
    }
}

/// What is shown of a line.
enum Shown<'a> {
    /// All of it.
    Whole(&'a str),
    /// What stands before its first colon: the rest may be a password.
    Key(&'a str),
    /// Nothing: there is no such line, or it may be a password.
    Nothing,
}

/// What is shown of a line of a configuration, counted from 1: what stands in a section of a user, or after a word that begins as `password` does, may be one.
fn line_shown<'a>(text: &'a str, line: u64) -> Shown<'a> {
    let mut in_user = false;
    let mut at = 0u64;
    for found in text.split('\n') {
        at = at.saturating_add(1);
        let found = found.trim();
        if at >= line {
            return text_shown(found, in_user);
        }
        if found.ends_with('{') {
            in_user = found.starts_with("user");
        } else if found == "}" {
            in_user = false;
        }
    }
    Shown::Nothing
}

/// What is shown of a line's text, which is in a section of a user or not.
fn text_shown<'a>(text: &'a str, in_user: bool) -> Shown<'a> {
    if !in_user && !text.contains("pass") {
        return Shown::Whole(text);
    }
    match text.split_once(':') {
        Some((key, _)) => Shown::Key(key),
        None => Shown::Nothing,
    }
}

/// What is wrong with a line of a configuration, in words.
fn wrong_words(kind: FaultKind) -> &'static str {
    match kind {
        FaultKind::Syntax => "a configuration has no such line, or not in this place",
        FaultKind::UnknownSection => "there is no such section",
        FaultKind::UnknownAttribute => "the section has no such attribute",
        FaultKind::BadValue => "the value is none that may stand here, or an attribute is missing",
        FaultKind::DuplicatePrefix => "an earlier section has this prefix",
        FaultKind::Memory => "out of memory",
    }
}

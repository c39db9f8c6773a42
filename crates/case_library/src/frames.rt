//! Questions on streams: which items their bytes are cut into, and how these are encoded.
ghost use Rattle.std.specs.Prelude.{◌<◌};

use crate::performatives::fault_text;
use amqp_frames::{FrameReader, write_item};
use amqp_model::{FrameFault, Item, Perf};
use case_files::{Case, CaseFault, bytes_of, digits_of};
use std::alloc::Global;
use std::fmt::Write;

/// The largest pieces in which a stream is fed, other than the whole.
const LARGEST_PIECE: usize = 64;

/// What is asked of a stream.
#[derive(Clone, Copy)]
enum Question {
    /// Its items, fed whole and in pieces of every size.
    Feed,
    /// Its items, piece by piece.
    Pieces,
    /// The encodings of its items.
    Rewrite,
    /// The payloads of its frames.
    Payloads,
    /// The fault of bytes that begin no item.
    Fault,
    /// Whether it gets an answer, fed whole and in pieces of every size.
    Told,
}

/// The question of a case.
fn question_of(case: &Case<'_>) -> Result<Question, CaseFault> {
    match case.question {
        "feed" => Ok(Question::Feed),
        "pieces" => Ok(Question::Pieces),
        "rewrite" => Ok(Question::Rewrite),
        "payloads" => Ok(Question::Payloads),
        "fault" => Ok(Question::Fault),
        "told" => Ok(Question::Told),
        _ => Err(CaseFault::Question),
    }
}

/// The answer to a question on streams.
///
/// # Errors
///
/// `Question` and `Bytes` where the case isn't in the form; `Memory`.
pub fn answer(alloc: Global, case: &Case<'_>) -> Result<String, CaseFault> {
    let question = question_of(case)?;
    if let Question::Pieces = question {
        return pieces(alloc, case.words);
    }
    let stream = bytes_of(alloc, case.words)?;
    match question {
        Question::Feed | Question::Pieces => fed(alloc, stream.as_slice()),
        Question::Rewrite => rewritten(alloc, stream.as_slice()),
        Question::Payloads => payloads(alloc, stream.as_slice()),
        Question::Fault => fault(alloc, stream.as_slice()),
        Question::Told => told(alloc, stream.as_slice()),
    }
}

/// The standard's number of a performative, in hexadecimal digits.
fn code_of(perf: &Perf) -> &'static str {
    match perf {
        Perf::Open(_) => "10",
        Perf::Begin(_) => "11",
        Perf::Attach(_) => "12",
        Perf::Flow(_) => "13",
        Perf::Transfer(_) => "14",
        Perf::Disposition(_) => "15",
        Perf::Detach(_) => "16",
        Perf::End(_) => "17",
        Perf::Close(_) => "18",
        Perf::SaslMechanisms(_) => "40",
        Perf::SaslInit(_) => "41",
        Perf::SaslChallenge(_) => "42",
        Perf::SaslResponse(_) => "43",
        Perf::SaslOutcome(_) => "44",
    }
}

/// Appends an item as `amqr frames` prints it, without the LF.
fn put_item(lines: &mut String, item: &Item) -> Result<(), CaseFault> {
    match item {
        Item::Header { id, .. } => write!(lines, "header {id}")?,
        Item::Beat { channel } => write!(lines, "beat {channel}")?,
        Item::Bad(fault) => {
            let number = fault.number();
            write!(lines, "bad {number}")?
        }
        Item::Frame {
            sasl,
            channel,
            perf,
            payload,
        } => {
            let code = code_of(perf);
            let length = payload.len();
            if *sasl {
                write!(lines, "sasl {code}")?
            } else {
                write!(lines, "frame {channel} {code} {length}")?
            }
        }
    }
    Ok(())
}

/// Appends a line for each item.
fn put_items(lines: &mut String, items: &[Item]) -> Result<(), CaseFault> {
    for item in items {
        put_item(lines, item)?;
        lines.push('\n')?;
    }
    Ok(())
}

/// A line for each item of a stream that comes in pieces of this size, and one for the rest.
fn lines_of(alloc: Global, stream: &[u8], size: usize) -> Result<String, CaseFault>
    requires { 0 < size }
{
    let mut reader = FrameReader::new(alloc);
    let mut lines = String::new(alloc);
    let mut unread = stream.len();
    for piece in stream.chunks(size) {
        if !put_fed(&mut reader, &mut lines, piece)? {
            break;
        }
        unread = unread.saturating_sub(piece.len());
    }
    let rest = unread.saturating_add(reader.rest().len());
    writeln!(lines, "rest {rest}")?;
    Ok(lines)
}

/// Feeds a piece, and appends a line for each item that it completes. Whether the reader took it, which it doesn't after a
/// `Bad`.
fn put_fed(reader: &mut FrameReader, lines: &mut String, piece: &[u8]) -> Result<bool, CaseFault> {
    match reader.feed(piece) {
        Ok(items) => {
            let put = put_items(lines, items.as_slice());
            drop(items);
            put.and(Ok(true))
        }
        Err(FrameFault::Failed) => Ok(false),
        Err(_) => Err(CaseFault::Memory),
    }
}

/// The lines of a stream, where they are the same in pieces of every size, and its items are read again from their
/// encodings.
fn fed(alloc: Global, stream: &[u8]) -> Result<String, CaseFault> {
    let whole = lines_of(alloc, stream, usize::MAX)?;
    for below in 0..LARGEST_PIECE {
        let size = below + 1;
        let lines = lines_of(alloc, stream, size)?;
        if lines.as_str() != whole.as_str() {
            return Ok(format!(in alloc; "in pieces of {size} bytes:\n{lines}")?);
        }
    }
    if !is_read_again(alloc, stream)? {
        return Ok(format!(in alloc; "not read again:\n{whole}")?);
    }
    Ok(whole)
}

/// For each piece the line of the items that it completes, and a line for the rest.
fn pieces(alloc: Global, words: &str) -> Result<String, CaseFault> {
    let mut reader = FrameReader::new(alloc);
    let mut lines = String::new(alloc);
    for word in words.split(' ') {
        feed_piece(alloc, &mut reader, &mut lines, word)?;
    }
    let rest = digits_of(alloc, reader.rest())?;
    writeln!(lines, "rest {rest}")?;
    Ok(lines)
}

/// Feeds the piece in a word, and appends its line.
fn feed_piece(
    alloc: Global,
    reader: &mut FrameReader,
    lines: &mut String,
    word: &str,
) -> Result<(), CaseFault> {
    let piece = bytes_of(alloc, word)?;
    match reader.feed(piece.as_slice()) {
        Ok(items) => {
            let put = put_piece(lines, items.as_slice());
            drop(items);
            put
        }
        Err(fault) => {
            let number = fault.number();
            writeln!(lines, "fault {number}")?;
            Ok(())
        }
    }
}

/// Appends the items of a piece in one line.
fn put_piece(lines: &mut String, items: &[Item]) -> Result<(), CaseFault> {
    if items.is_empty() {
        lines.push_str("nothing")?;
    }
    for (at, item) in items.iter().enumerate() {
        if at > 0 {
            lines.push_str(", ")?;
        }
        put_item(lines, item)?;
    }
    lines.push('\n')?;
    Ok(())
}

/// The items of a stream that is fed whole.
fn items_of(alloc: Global, stream: &[u8]) -> Result<Vec<Item>, CaseFault> {
    let mut reader = FrameReader::new(alloc);
    reader.feed(stream).or(Err(CaseFault::Memory))
}

/// The encodings of the items of a stream that is fed whole.
fn encodings(alloc: Global, stream: &[u8]) -> Result<Vec<u8>, CaseFault> {
    let items = items_of(alloc, stream)?;
    let bytes = written(alloc, items.as_slice());
    drop(items);
    bytes
}

/// The encodings of items.
fn written(alloc: Global, items: &[Item]) -> Result<Vec<u8>, CaseFault> {
    let mut bytes = Vec::new(alloc);
    for item in items {
        write_item(alloc, item, &mut bytes)?;
    }
    Ok(bytes)
}

/// `same` where the items of a stream are encoded as they came, else the digits of the encodings.
fn rewritten(alloc: Global, stream: &[u8]) -> Result<String, CaseFault> {
    let bytes = encodings(alloc, stream)?;
    if bytes.as_slice() == stream {
        return Ok(String::from_str(alloc, "same")?);
    }
    digits_of(alloc, bytes.as_slice())
}

/// The items of a stream that is fed whole as text, without a `Bad`.
fn shown(alloc: Global, stream: &[u8]) -> Result<String, CaseFault> {
    let items = items_of(alloc, stream)?;
    let mut text = String::new(alloc);
    let put = put_shown(&mut text, items.as_slice());
    drop(items);
    put.and(Ok(text))
}

/// Appends items as text, without a `Bad`.
fn put_shown(text: &mut String, items: &[Item]) -> Result<(), CaseFault> {
    for item in items {
        if !matches!(item, Item::Bad(_)) {
            writeln!(text, "{item:?}")?;
        }
    }
    Ok(())
}

/// Whether the items of a stream are read again from their encodings.
fn is_read_again(alloc: Global, stream: &[u8]) -> Result<bool, CaseFault> {
    let bytes = encodings(alloc, stream)?;
    let wanted = shown(alloc, stream)?;
    let found = shown(alloc, bytes.as_slice())?;
    Ok(found.as_str() == wanted.as_str())
}

/// A line for the payload of each frame.
fn payloads(alloc: Global, stream: &[u8]) -> Result<String, CaseFault> {
    let items = items_of(alloc, stream)?;
    let mut lines = String::new(alloc);
    let put = put_payloads(alloc, &mut lines, items.as_slice());
    drop(items);
    put.and(Ok(lines))
}

/// Appends a line for the payload of each frame.
fn put_payloads(alloc: Global, lines: &mut String, items: &[Item]) -> Result<(), CaseFault> {
    for item in items {
        if let Item::Frame { payload, .. } = item {
            let digits = digits_of(alloc, payload.as_slice())?;
            writeln!(lines, "{digits}")?;
        }
    }
    Ok(())
}

/// The number of the fault of bytes that begin no item, and after it those of the performative's fault.
fn fault(alloc: Global, stream: &[u8]) -> Result<String, CaseFault> {
    let items = items_of(alloc, stream)?;
    let found = first_fault(items.as_slice());
    drop(items);
    match found {
        None => Ok(String::from_str(alloc, "none")?),
        Some(FrameFault::Perf(inner)) => {
            let inside = fault_text(alloc, inner)?;
            Ok(format!(in alloc; "bad 5, {inside}")?)
        }
        Some(other) => {
            let number = other.number();
            Ok(format!(in alloc; "bad {number}")?)
        }
    }
}

/// The fault of the first bytes that begin no item.
fn first_fault(items: &[Item]) -> Option<FrameFault> {
    for item in items {
        if let Item::Bad(fault) = item {
            return Some(*fault);
        }
    }
    None
}

/// Tests that a stream is answered by items and at most one `Bad`, the same in pieces of every size.
fn told(alloc: Global, stream: &[u8]) -> Result<String, CaseFault> {
    let lines = fed(alloc, stream)?;
    let bad = lines.lines().filter(|line| line.starts_with("bad")).count();
    if bad > 1 || lines.starts_with("in pieces") || lines.starts_with("not") {
        return Ok(lines);
    }
    Ok(String::from_str(alloc, "items and at most one bad")?)
}

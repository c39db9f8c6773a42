//! Questions on values: which value bytes encode, and how it is written.
use amqp_types::{TypeFault, Value, decode, encode, front_of, opening_of, skip};
use case_files::{Case, CaseFault, bytes_of, digits_of, fault_number};
use std::alloc::Global;

/// The most levels of nesting (AMQP 1.0 sets no limit; this one is the router's).
const DEPTH: u32 = 32;

/// What is asked of bytes.
#[derive(Clone, Copy)]
enum Question {
    /// The value at their front, and its length.
    Decode,
    /// The canonical encoding of the value in the bytes.
    Rewrite,
    /// The values in the bytes, one after another.
    Each,
    /// Whether they get an answer.
    Told,
    /// The plain value at their front, and what follows it.
    Front,
    /// How the value at their front begins.
    Opening,
}

/// The question of a case.
fn question_of(case: &Case<'_>) -> Result<Question, CaseFault> {
    match case.question {
        "decode" => Ok(Question::Decode),
        "rewrite" => Ok(Question::Rewrite),
        "each" => Ok(Question::Each),
        "told" => Ok(Question::Told),
        "front" => Ok(Question::Front),
        "opening" => Ok(Question::Opening),
        _ => Err(CaseFault::Question),
    }
}

/// The answer to a question on values. Whatever is decoded is skipped as well, with the same length or fault.
///
/// # Errors
///
/// `Question` and `Bytes` where the case isn't in the form; `Memory`.
pub fn answer(alloc: Global, case: &Case<'_>) -> Result<String, CaseFault> {
    let question = question_of(case)?;
    let bytes = bytes_of(alloc, case.words)?;
    match question {
        Question::Decode => decoded(alloc, bytes.as_slice()),
        Question::Rewrite => rewritten(alloc, bytes.as_slice()),
        Question::Each => each(alloc, bytes.as_slice()),
        Question::Told => told(alloc, bytes.as_slice()),
        Question::Front => front(alloc, bytes.as_slice()),
        Question::Opening => opening(alloc, bytes.as_slice()),
    }
}

/// Whether `skip` answers the length that `decode` answers, or its fault.
fn is_skipped_alike(alloc: Global, bytes: &[u8]) -> bool {
    match (decoded_length(alloc, bytes), skip(bytes)) {
        (Ok(length), Ok(skipped)) => length == skipped,
        (Err(fault), Err(skipped)) => fault == skipped,
        _ => false,
    }
}

/// The length of the value at the front, or the fault, as `decode` has it.
fn decoded_length(alloc: Global, bytes: &[u8]) -> Result<usize, TypeFault> {
    match decode(alloc, bytes) {
        Ok((value, length)) => {
            drop(value);
            Ok(length)
        }
        Err(fault) => Err(fault),
    }
}

/// The value at the front and its length, or the fault.
fn decoded(alloc: Global, bytes: &[u8]) -> Result<String, CaseFault> {
    if !is_skipped_alike(alloc, bytes) {
        return Ok(String::from_str(alloc, "skip differs")?);
    }
    match decode(alloc, bytes) {
        Ok((value, length)) => {
            let answer = shown(alloc, &value, length);
            drop(value);
            answer
        }
        Err(fault) => fault_number(alloc, fault.number()),
    }
}

/// A value and a length.
fn shown(alloc: Global, value: &Value, length: usize) -> Result<String, CaseFault> {
    Ok(format!(in alloc; "{value:?} {length}")?)
}

/// The canonical encoding of the value in the bytes, and the value, which is decoded from it again.
fn rewritten(alloc: Global, bytes: &[u8]) -> Result<String, CaseFault> {
    match decode(alloc, bytes) {
        Ok((value, length)) => {
            let answer = written_anew(alloc, &value, length, bytes);
            drop(value);
            answer
        }
        Err(_) => decoded(alloc, bytes),
    }
}

/// The canonical encoding of a value that was decoded from so many of these bytes, and the value.
fn written_anew(
    alloc: Global,
    value: &Value,
    length: usize,
    bytes: &[u8],
) -> Result<String, CaseFault> {
    let mut written = Vec::new(alloc);
    encode(alloc, value, &mut written)?;
    let digits = digits_of(alloc, written.as_slice())?;
    let is_same = is_read_again(alloc, value, written.as_slice())?;
    if !is_same {
        let again = decoded(alloc, written.as_slice())?;
        return Ok(format!(in alloc; "{digits} read as {again}")?);
    }
    if length != bytes.len() || !is_skipped_alike(alloc, bytes) {
        return Ok(format!(in alloc; "{digits} from {length} bytes")?);
    }
    Ok(format!(in alloc; "{digits} {value:?}")?)
}

/// Whether a value is decoded from all of these bytes.
fn is_read_again(alloc: Global, value: &Value, written: &[u8]) -> Result<bool, CaseFault> {
    let again = decoded(alloc, written)?;
    let wanted = shown(alloc, value, written.len())?;
    Ok(again.as_str() == wanted.as_str())
}

/// A line for each value, and one for the fault of bytes that begin none.
fn each(alloc: Global, bytes: &[u8]) -> Result<String, CaseFault> {
    let mut lines = String::new(alloc);
    let mut rest = bytes;
    for _turn in 0..bytes.len() {
        let length = put_value(alloc, &mut lines, rest)?;
        rest = rest.get(length..).unwrap_or_default();
        if rest.is_empty() {
            break;
        }
    }
    Ok(lines)
}

/// Appends the line of the value at the front, which is decoded again from its encoding, and answers its length;
/// where none begins there, its fault, and the length of all.
fn put_value(alloc: Global, lines: &mut String, bytes: &[u8]) -> Result<usize, CaseFault> {
    let length = skip(bytes).unwrap_or(bytes.len());
    let value = bytes.get(..length).unwrap_or(bytes);
    let answer = rewritten(alloc, value)?;
    match answer.split_once(' ') {
        Some((spelling, value)) if spelling != "fault" => lines.push_str(value)?,
        _ => lines.push_str(answer.as_str())?,
    }
    lines.push('\n')?;
    Ok(length)
}

/// Tests that the bytes are answered, by a value or a fault, and that `skip` answers alike.
fn told(alloc: Global, bytes: &[u8]) -> Result<String, CaseFault> {
    let answer = if is_skipped_alike(alloc, bytes) {
        "a value or a fault"
    } else {
        "skip differs"
    };
    Ok(String::from_str(alloc, answer)?)
}

/// The plain value at the front, if it is one, and the bytes after it.
fn front(alloc: Global, bytes: &[u8]) -> Result<String, CaseFault> {
    match front_of(DEPTH, bytes) {
        Ok((value, rest)) => {
            let digits = digits_of(alloc, rest)?;
            Ok(format!(in alloc; "{value:?} {digits}")?)
        }
        Err(fault) => fault_number(alloc, fault.number()),
    }
}

/// How the value at the front begins.
fn opening(alloc: Global, bytes: &[u8]) -> Result<String, CaseFault> {
    match opening_of(DEPTH, bytes) {
        Ok(opening) => Ok(format!(in alloc; "{opening:?}")?),
        Err(fault) => fault_number(alloc, fault.number()),
    }
}

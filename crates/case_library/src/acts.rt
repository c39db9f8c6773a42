//! Acts of a book as case files write them, one a line.
use amqp_model::{DeliveryTag, Text};
use amqp_perf::read_state;
use book_core::Book;
use book_model::{
    Act, Admission, Decision, LinkKey, LinkRole, RowNumber, Terminus, TerminusNumber,
};
use bytes::Bytes;
use case_files::{CaseFault, bytes_of, number_of};
use std::alloc::{AllocError, Global};
use std::str::Split;

/// The numbers that `next` stands for, which rise with each act.
#[derive(Clone, Copy)]
struct Next {
    row: u64,
    terminus: u64,
}

/// The acts of a text, one on each line, on a book: `make NUMBER ROLE USER CONTAINER NAME ADDRESS`,
/// `admit ROW PRODUCER TAG CONSUMER FORMAT PAYLOAD`, `decide ROW STATE`, `forget ROW` and `drop NUMBER`.
///
/// # Errors
///
/// `Word` and `Bytes` where a line isn't in the form; `Memory`.
pub fn acts_of(alloc: Global, book: &Book, text: &str) -> Result<Vec<Act>, CaseFault> {
    let mut next = Next {
        row: book.next_row().0,
        terminus: book.next_terminus().0,
    };
    let mut acts = Vec::new(alloc);
    for line in text.lines() {
        acts.push(act_of(alloc, &mut next, line)?)?;
    }
    Ok(acts)
}

/// The act of a line.
fn act_of(alloc: Global, next: &mut Next, line: &str) -> Result<Act, CaseFault> {
    let mut words = line.split(' ');
    match words.next() {
        Some("make") => make(alloc, &mut next.terminus, &mut words),
        Some("admit") => admit(alloc, &mut next.row, &mut words),
        Some("decide") => decide(alloc, &mut words),
        Some("forget") => Ok(Act::Forget(RowNumber(number_of(words.next())?))),
        Some("drop") => Ok(Act::Drop(TerminusNumber(number_of(words.next())?))),
        _ => Err(CaseFault::Word),
    }
}

/// A number, or the next one for the word `next`; the number after it is then the next.
fn rising(next: &mut u64, word: Option<&str>) -> Result<u64, CaseFault> {
    let number = match word {
        Some("next") => *next,
        word => number_of(word)?,
    };
    *next = number.wrapping_add(1);
    Ok(number)
}

/// `NUMBER ROLE USER CONTAINER NAME ADDRESS`.
fn make(alloc: Global, next: &mut u64, words: &mut Split<'_, char>) -> Result<Act, CaseFault> {
    let number = TerminusNumber(rising(next, words.next())?);
    let key = key_of(alloc, words)?;
    let address = text_of(alloc, words.next())?;
    Ok(Act::Make(Terminus {
        number,
        key,
        address,
    }))
}

/// `ROLE USER CONTAINER NAME`.
///
/// # Errors
///
/// `Word` where a word is missing, or the role is none; `Memory`.
pub fn key_of(alloc: Global, words: &mut Split<'_, char>) -> Result<LinkKey, CaseFault> {
    let role = match words.next() {
        Some("producer") => LinkRole::Producer,
        Some("consumer") => LinkRole::Consumer,
        _ => return Err(CaseFault::Word),
    };
    let user = text_of(alloc, words.next())?;
    let container = text_of(alloc, words.next())?;
    let name = text_of(alloc, words.next())?;
    Ok(LinkKey {
        role,
        user,
        container,
        name,
    })
}

/// The text of a word.
fn text_of(alloc: Global, word: Option<&str>) -> Result<Text, CaseFault> {
    match word {
        None => Err(CaseFault::Word),
        Some(word) => Ok(Text::new(String::from_str(alloc, word)?)),
    }
}

/// `ROW PRODUCER TAG CONSUMER FORMAT PAYLOAD`; the consumer `-` is none.
fn admit(alloc: Global, next: &mut u64, words: &mut Split<'_, char>) -> Result<Act, CaseFault> {
    let row = RowNumber(rising(next, words.next())?);
    let producer = TerminusNumber(number_of(words.next())?);
    let tag = tag_of(alloc, words.next())?;
    let consumer = match words.next() {
        Some("-") => None,
        word => Some(TerminusNumber(number_of(word)?)),
    };
    let format = number_of(words.next())?;
    let format = u32::try_from(format).or(Err(CaseFault::Word))?;
    let payload = payload_of(alloc, words.next())?;
    Ok(Act::Admit(Admission {
        row,
        producer,
        tag,
        consumer,
        format,
        payload,
    }))
}

/// The delivery tag of a word of bytes.
///
/// # Errors
///
/// `Word` where there is none or it has more than 32 bytes, `Bytes`; `Memory`.
pub fn tag_of(alloc: Global, word: Option<&str>) -> Result<DeliveryTag, CaseFault> {
    let mut tag = DeliveryTag::new();
    for byte in &bytes_of(alloc, word.ok_or(CaseFault::Word)?)? {
        if tag.try_push(*byte).is_err() {
            return Err(CaseFault::Word);
        }
    }
    Ok(tag)
}

/// The payload of a word of bytes.
fn payload_of(alloc: Global, word: Option<&str>) -> Result<Bytes, CaseFault> {
    let bytes = bytes_of(alloc, word.ok_or(CaseFault::Word)?)?;
    let payload: Result<Bytes, AllocError> = Bytes::copy_from_slice(alloc, bytes.as_slice());
    Ok(payload?)
}

/// `ROW STATE`: the bytes of a delivery state.
fn decide(alloc: Global, words: &mut Split<'_, char>) -> Result<Act, CaseFault> {
    let row = RowNumber(number_of(words.next())?);
    let bytes = bytes_of(alloc, words.next().ok_or(CaseFault::Word)?)?;
    match read_state(alloc, bytes.as_slice()) {
        Ok((outcome, _)) => Ok(Act::Decide(Decision { row, outcome })),
        Err(_) => Err(CaseFault::Word),
    }
}

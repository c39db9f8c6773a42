//! Questions on performatives, SASL bodies and delivery states: what bytes encode, and how it is written.
use amqp_model::{DeliveryState, Perf, PerfFault};
use amqp_perf::{read_perf, read_state, write_perf, write_state};
use case_files::{Case, CaseFault, bytes_of, digits_of, fault_number};
use std::alloc::Global;

/// What is asked of bytes.
#[derive(Clone, Copy)]
enum Question {
    /// The performative or SASL body at their front.
    Performative,
    /// The delivery state at their front.
    State,
}

/// The question of a case.
fn question_of(case: &Case<'_>) -> Result<Question, CaseFault> {
    match case.question {
        "performative" => Ok(Question::Performative),
        "state" => Ok(Question::State),
        _ => Err(CaseFault::Question),
    }
}

/// The answer to a question on performatives: the canonical encoding of what is at the front, and the length of the
/// encoding there.
///
/// # Errors
///
/// `Question` and `Bytes` where the case isn't in the form; `Memory`.
pub fn answer(alloc: Global, case: &Case<'_>) -> Result<String, CaseFault> {
    let question = question_of(case)?;
    let bytes = bytes_of(alloc, case.words)?;
    match question {
        Question::Performative => performative(alloc, bytes.as_slice()),
        Question::State => state(alloc, bytes.as_slice()),
    }
}

/// How the performative at the front is encoded, and where its payload begins.
fn performative(alloc: Global, bytes: &[u8]) -> Result<String, CaseFault> {
    match read_perf(alloc, bytes) {
        Ok((perf, length)) => {
            let written = perf_bytes(alloc, &perf);
            drop(perf);
            spelling(alloc, bytes, written?.as_slice(), length)
        }
        Err(fault) => fault_text(alloc, fault),
    }
}

/// The encoding of a performative.
fn perf_bytes(alloc: Global, perf: &Perf) -> Result<Vec<u8>, CaseFault> {
    let mut written = Vec::new(alloc);
    write_perf(alloc, perf, &mut written)?;
    Ok(written)
}

/// How the delivery state at the front is encoded, and its length there.
fn state(alloc: Global, bytes: &[u8]) -> Result<String, CaseFault> {
    match read_state(alloc, bytes) {
        Ok((state, length)) => {
            let written = state_bytes(alloc, &state);
            drop(state);
            spelling(alloc, bytes, written?.as_slice(), length)
        }
        Err(fault) => fault_text(alloc, fault),
    }
}

/// The encoding of a delivery state.
fn state_bytes(alloc: Global, state: &DeliveryState) -> Result<Vec<u8>, CaseFault> {
    let mut written = Vec::new(alloc);
    write_state(alloc, state, &mut written)?;
    Ok(written)
}

/// `same` where what was read is encoded as it came, else the digits of the encoding; and the length of what was read.
fn spelling(
    alloc: Global,
    bytes: &[u8],
    written: &[u8],
    length: usize,
) -> Result<String, CaseFault> {
    if bytes.get(..length) == Some(written) {
        return Ok(format!(in alloc; "same {length}")?);
    }
    let digits = digits_of(alloc, written)?;
    Ok(format!(in alloc; "{digits} {length}")?)
}

/// A fault's number, and after it that of the value's fault where a value is encoded wrongly.
///
/// # Errors
///
/// `Memory`.
pub fn fault_text(alloc: Global, fault: PerfFault) -> Result<String, CaseFault> {
    let number = fault.number();
    match fault {
        PerfFault::Spelling(inner) => {
            let inside = inner.number();
            Ok(format!(in alloc; "fault {number} {inside}")?)
        }
        _ => fault_number(alloc, number),
    }
}

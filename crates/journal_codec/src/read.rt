//! Decoding acts.
ghost use Rattle.std.specs.Prelude.{◌≡◌, ◌==◌, IfOk};
ghost use Rattle.std.specs.Cmp.Lexicographic.{pointwise};
ghost use Rattle.amqp_model.specs.PerfSpelling.{state_spelling};
ghost use Rattle.std.specs.Int.{w16, w32, w64};
ghost use Rattle.journal_codec.specs.Outcome.{kept_outcome};
ghost use Rattle.journal_codec.specs.Reading.{Gives, byte_at, number_at, chunk_at, sized_at, text_at, role_at, make_at, tag_at, terminus_or_none, payload_at, admission_at, is_terminal, outcome_of, decision_at, act_behind, act_at, inside_at};

use crate::spell::spelling_of;
use amqp_model::{DeliveryState, DeliveryTag, PerfFault, Text};
use amqp_perf::{read_state, write_state};
use book_model::{
    Act, Admission, Decision, LinkKey, LinkRole, RowNumber, Terminus, TerminusNumber,
};
use bytes::Bytes;
use std::alloc::{AllocError, AllocFailed, Global};

/// The most bytes of a batch's acts.
const BATCH_LIMIT: u32 = 4_194_304;

/// The most bytes of an encoded outcome.
const MAX_OUTCOME: usize = 400;

/// Why no act is read.
#[derive(Clone, Copy, Debug, PartialEq, Eq)]
pub enum ReadFault {
    /// The bytes encode no act.
    Misspelt,
    /// Memory was refused.
    Memory,
}

impl From<AllocError> for ReadFault {
    ghost use Rattle.journal_codec.specs.declared.read.ReadFault.TheVariants.{Memory};

    ghost from_gives = { λ _ f. f ≡ Memory };

    fn from(_error: AllocError) -> ReadFault {
        ReadFault::Memory
    }
}

impl<T: Drop> From<AllocFailed<T>> for ReadFault {
    ghost use Rattle.journal_codec.specs.declared.read.ReadFault.TheVariants.{Memory};

    ghost from_gives = { λ _ f. f ≡ Memory };

    fn from(_error: AllocFailed<T>) -> ReadFault {
        ReadFault::Memory
    }
}

fn byte(bytes: &[u8]) -> Result<(u8, &[u8]), ReadFault>
    ensures { Gives (λ x. (x.0, x.1.now)) result (byte_at bytes.now) }
{
    match bytes {
        [] => Err(ReadFault::Misspelt),
        [first, rest @ ..] => Ok((*first, rest)),
    }
}

fn number_2(bytes: &[u8]) -> Result<(u16, &[u8]), ReadFault>
    ensures { Gives (λ x. (x.0, x.1.now)) result (number_at w16 bytes.now) }
{
    match bytes.split_first_chunk::<2>() {
        None => Err(ReadFault::Misspelt),
        Some((field, rest)) => Ok((u16::from_be_bytes(*field), rest)),
    }
}

fn number_4(bytes: &[u8]) -> Result<(u32, &[u8]), ReadFault>
    ensures { Gives (λ x. (x.0, x.1.now)) result (number_at w32 bytes.now) }
{
    match bytes.split_first_chunk::<4>() {
        None => Err(ReadFault::Misspelt),
        Some((field, rest)) => Ok((u32::from_be_bytes(*field), rest)),
    }
}

fn number_8(bytes: &[u8]) -> Result<(u64, &[u8]), ReadFault>
    ensures { Gives (λ x. (x.0, x.1.now)) result (number_at w64 bytes.now) }
{
    match bytes.split_first_chunk::<8>() {
        None => Err(ReadFault::Misspelt),
        Some((field, rest)) => Ok((u64::from_be_bytes(*field), rest)),
    }
}

fn chunk(size: usize, bytes: &[u8]) -> Result<(&[u8], &[u8]), ReadFault>
    ensures { Gives (λ x. (x.0.now, x.1.now)) result (chunk_at size bytes.now) }
{
    if bytes.len() < size {
        return Err(ReadFault::Misspelt);
    }
    Ok(bytes.split_at(size))
}

#[tactic(auto, unfolding(crate::specs::Reading::sized_at))]
fn sized(bytes: &[u8]) -> Result<(&[u8], &[u8]), ReadFault>
    ensures { Gives (λ x. (x.0.now, x.1.now)) result (sized_at bytes.now) }
{
    let (size, rest) = number_2(bytes)?;
    chunk(usize::from(size), rest)
}

#[tactic(auto, using(crate::proofs::Texts::text_ok, crate::proofs::Texts::text_bad), unfolding(crate::specs::Reading::text_at))]
fn text(alloc: Global, bytes: &[u8]) -> Result<(Text, &[u8]), ReadFault>
    ensures { Gives (λ x. (x.0, x.1.now)) result (text_at bytes.now) }
{
    let (text, rest) = sized(bytes)?;
    match str::from_utf8(text) {
        Err(_) => Err(ReadFault::Misspelt),
        Ok(text) => Ok((Text::new(String::from_str(alloc, text)?), rest)),
    }
}

#[tactic(auto, unfolding(crate::specs::Reading::role_at))]
fn role(bytes: &[u8]) -> Result<(LinkRole, &[u8]), ReadFault>
    ensures { Gives (λ x. (x.0, x.1.now)) result (role_at bytes.now) }
{
    let (code, rest) = byte(bytes)?;
    match code {
        0 => Ok((LinkRole::Producer, rest)),
        1 => Ok((LinkRole::Consumer, rest)),
        _ => Err(ReadFault::Misspelt),
    }
}

#[tactic(auto, unfolding(crate::specs::Reading::make_at))]
fn terminus(alloc: Global, bytes: &[u8]) -> Result<(Terminus, &[u8]), ReadFault>
    ensures { Gives (λ x. (x.0, x.1.now)) result (make_at bytes.now) }
{
    let (number, rest) = number_8(bytes)?;
    let (role, rest) = role(rest)?;
    let (user, rest) = text(alloc, rest)?;
    let (container, rest) = text(alloc, rest)?;
    let (name, rest) = text(alloc, rest)?;
    let (address, rest) = text(alloc, rest)?;
    let number = TerminusNumber(number);
    let key = LinkKey {
        role,
        user,
        container,
        name,
    };
    Ok((
        Terminus {
            number,
            key,
            address,
        },
        rest,
    ))
}

#[tactic(auto, unfolding(crate::specs::Reading::tag_at))]
fn tag(bytes: &[u8]) -> Result<(DeliveryTag, &[u8]), ReadFault>
    ensures { Gives (λ x. (x.0.items, x.1.now)) result (tag_at bytes.now) }
{
    let (size, rest) = byte(bytes)?;
    if size > 32 {
        return Err(ReadFault::Misspelt);
    }
    let (name, rest) = chunk(usize::from(size), rest)?;
    let mut tag = DeliveryTag::new();
    match tag.try_extend_from_slice(name) {
        Err(_) => Err(ReadFault::Misspelt),
        Ok(()) => Ok((tag, rest)),
    }
}

fn terminus_or_no(number: u64) -> Option<TerminusNumber>
    ensures { result ≡ terminus_or_none number }
{
    if number == 0 {
        None
    } else {
        Some(TerminusNumber(number))
    }
}

#[tactic(auto, unfolding(crate::specs::Reading::payload_at))]
fn payload(alloc: Global, bytes: &[u8]) -> Result<(Bytes, &[u8]), ReadFault>
    ensures { Gives (λ x. (x.0, x.1.now)) result (payload_at bytes.now) }
{
    let (size, rest) = number_4(bytes)?;
    let (payload, rest) = chunk(size as usize, rest)?;
    Ok((Bytes::copy_from_slice(alloc, payload)?, rest))
}

#[tactic(auto, unfolding(crate::specs::Reading::admission_at))]
fn admission(alloc: Global, bytes: &[u8]) -> Result<(Admission, &[u8]), ReadFault>
    ensures { Gives (λ x. (x.0, x.1.now)) result (admission_at bytes.now) }
{
    let (row, rest) = number_8(bytes)?;
    let (producer, rest) = number_8(rest)?;
    let (tag, rest) = tag(rest)?;
    let (consumer, rest) = number_8(rest)?;
    let (format, rest) = number_4(rest)?;
    let (payload, rest) = payload(alloc, rest)?;
    Ok((
        Admission {
            row: RowNumber(row),
            producer: TerminusNumber(producer),
            tag,
            consumer: terminus_or_no(consumer),
            format,
            payload,
        },
        rest,
    ))
}

fn ends(state: &DeliveryState) -> bool
    ensures { result ≡ is_terminal state.now }
{
    !matches!(state, DeliveryState::Received(_) | DeliveryState::Other(_))
}

/// Whether bytes are the canonical encoding of a state.
fn spells(alloc: Global, state: &DeliveryState, bytes: &[u8]) -> Result<bool, AllocError>
    ensures { IfOk result (λ b. b ≡ pointwise ◌==◌ (state_spelling state.now) bytes.now) }
{
    let mut spelling = Vec::new(alloc);
    write_state(alloc, state, &mut spelling)?;
    Ok(spelling.as_slice() == bytes)
}

#[tactic(auto, unfolding(crate::specs::Reading::outcome_of))]
fn outcome(alloc: Global, bytes: &[u8]) -> Result<DeliveryState, ReadFault>
    ensures { Gives (λ x. x) result (outcome_of bytes.now) }
{
    match read_state(alloc, bytes) {
        Err(PerfFault::Memory) => Err(ReadFault::Memory),
        Err(_) => Err(ReadFault::Misspelt),
        Ok((state, len)) => {
            let whole = len == bytes.len();
            let terminal = ends(&state);
            let canonical = spells(alloc, &state, bytes)?;
            if whole && terminal && canonical {
                Ok(state)
            } else {
                Err(ReadFault::Misspelt)
            }
        }
    }
}

/// What a batch keeps of an outcome: what its canonical encoding gives back, where that has at most 400 bytes and is a
/// terminal state's. Each outcome that `append` takes, and the book, is kept as it is (`outcomes_are_kept`).
///
/// # Errors
///
/// `AllocError` where memory was refused.
pub fn kept_outcome(
    alloc: Global,
    state: &DeliveryState,
) -> Result<Option<DeliveryState>, AllocError>
    ensures { IfOk result (λ kept. kept ≡ kept_outcome state.now) }
{
    let spelling = spelling_of(alloc, state)?;
    if spelling.len() > MAX_OUTCOME {
        return Ok(None);
    }
    match outcome(alloc, spelling.as_slice()) {
        Ok(kept) => Ok(Some(kept)),
        Err(ReadFault::Misspelt) => Ok(None),
        Err(ReadFault::Memory) => Err(AllocError),
    }
}

#[tactic(auto, unfolding(crate::specs::Reading::decision_at))]
fn decision(alloc: Global, bytes: &[u8]) -> Result<(Decision, &[u8]), ReadFault>
    ensures { Gives (λ x. (x.0, x.1.now)) result (decision_at bytes.now) }
{
    let (row, rest) = number_8(bytes)?;
    let (spelled, rest) = sized(rest)?;
    let outcome = outcome(alloc, spelled)?;
    let row = RowNumber(row);
    Ok((Decision { row, outcome }, rest))
}

#[tactic(auto, unfolding(crate::specs::Reading::act_behind))]
fn behind_kind(alloc: Global, kind: u8, bytes: &[u8]) -> Result<(Act, &[u8]), ReadFault>
    ensures { Gives (λ x. (x.0, x.1.now)) result (act_behind kind bytes.now) }
{
    match kind {
        1 => {
            let (terminus, rest) = terminus(alloc, bytes)?;
            Ok((Act::Make(terminus), rest))
        }
        2 => {
            let (admission, rest) = admission(alloc, bytes)?;
            Ok((Act::Admit(admission), rest))
        }
        3 => {
            let (decision, rest) = decision(alloc, bytes)?;
            Ok((Act::Decide(decision), rest))
        }
        4 => {
            let (row, rest) = number_8(bytes)?;
            Ok((Act::Forget(RowNumber(row)), rest))
        }
        5 => {
            let (terminus, rest) = number_8(bytes)?;
            Ok((Act::Drop(TerminusNumber(terminus)), rest))
        }
        _ => Err(ReadFault::Misspelt),
    }
}

/// The act at the front, and what follows it.
#[tactic(auto, unfolding(crate::specs::Reading::act_at))]
pub(crate) fn act(alloc: Global, bytes: &[u8]) -> Result<(Act, &[u8]), ReadFault>
    ensures { Gives (λ x. (x.0, x.1.now)) result (act_at bytes.now) }
{
    let (kind, rest) = byte(bytes)?;
    behind_kind(alloc, kind, rest)
}

/// The bytes of the acts of the batch at the front, and what follows it, which isn't empty.
#[tactic(auto, unfolding(crate::specs::Reading::inside_at))]
pub(crate) fn inside(bytes: &[u8]) -> Result<(&[u8], &[u8]), ReadFault>
    ensures { Gives (λ x. (x.0.now, x.1.now)) result (inside_at bytes.now) }
{
    let (size, rest) = number_4(bytes)?;
    if size == 0 {
        return Err(ReadFault::Misspelt);
    }
    if size > BATCH_LIMIT {
        return Err(ReadFault::Misspelt);
    }
    let (inside, behind) = chunk(size as usize, rest)?;
    if behind.is_empty() {
        return Err(ReadFault::Misspelt);
    }
    Ok((inside, behind))
}

//! The delivery that an event admits to the book.
ghost use Rattle.std.specs.Prelude.{◌≡◌, [], List, option_map, unwrap_or, IfOk, OnOk};
ghost use Rattle.router_trace.specs.Trace.{Entry};
ghost use Rattle.router_trace.specs.Links.{link, durable_key};
ghost use Rattle.router_state.specs.Tables.{TablesFit};
ghost use Rattle.state_messages.specs.Messages.{IsChosen};
ghost use Rattle.reply_rows.specs.Admitting.{ChosenFor, terminus_for, admission_of, admitted_to, whole_admission, part_admission, answer_admission, row_in};

use crate::answer::Answer;
use amqp_link::{Delivery, Part};
use amqp_model::DeliveryTag;
use book_core::Book;
use book_model::{Act, Admission, LinkKey, RowNumber, TerminusNumber};
use bytes::Bytes;
use reply_transfers::claimed_id;
use router_state::{LinkPlace, State};
use router_trace::{Attachment, ConnectionId};
use std::alloc::AllocError;

/// The number of a durable link's terminus in the book.
fn terminus_for(book: &Book, key: Option<&LinkKey>) -> Option<TerminusNumber>
    ensures { result ≡ terminus_for book.now (option_map (λ k. k.now) key.entry) }
{
    match book.terminus_of(key?) {
        None => None,
        Some(terminus) => Some(terminus.number),
    }
}

/// A copy of a delivery's tag; the empty one if it has none.
fn copied(tag: &Option<DeliveryTag>) -> Result<DeliveryTag, AllocError>
    ensures { IfOk result (λ copy. copy ≡ unwrap_or tag.now (record { items = [] })) }
{
    match tag {
        None => Ok(DeliveryTag::new()),
        Some(tag) => tag.clone(),
    }
}

/// The admission of a delivery from this producer to this consumer.
fn admission_of(
    book: &Book,
    producer: TerminusNumber,
    consumer: Option<TerminusNumber>,
    delivery: &Delivery,
    payload: &Bytes,
) -> Result<Admission, AllocError>
    ensures { IfOk result (λ admission. admission ≡ admission_of book.now producer consumer delivery.now payload.now) }
{
    Ok(Admission {
        row: book.next_row(),
        producer,
        tag: copied(&delivery.tag)?,
        consumer,
        format: delivery.format.unwrap_or(0),
        payload: payload.clone()?,
    })
}

/// A message that an event admits if the book takes it.
#[derive(Drop)]
pub struct Admittable {
    /// Its admission.
    pub admission: Admission,
    /// The consumer that is chosen for it.
    pub consumer: Attachment,
}

/// The admission of a whole delivery; none if it isn't to have a row, or no consumer of its address is chosen.
fn whole_admission(
    state: &mut State,
    book: &Book,
    at: LinkPlace,
    delivery: &Delivery,
    payload: &Bytes,
) -> Result<Option<Admittable>, AllocError>
    ensures admission { IfOk result (λ found. (t : List Entry) → TablesFit state.old t → option_map (λ x. x.admission) found ≡ whole_admission book.now t at.conn.0 at.own at.handle delivery.now payload.now) }
    ensures chosen { IfOk result (λ found. (t : List Entry) → TablesFit state.old t → IsChosen t (link t at.conn.0 at.own at.handle) (option_map (λ x. x.consumer) found)) }
    ensures fits { OnOk result ((t : List Entry) → TablesFit state.old t → TablesFit state.new t) }
{
    if delivery.resume || claimed_id(state, at, delivery.id).is_none() {
        return Ok(None);
    }
    let Some(producer) = terminus_for(book, state.durable_key(at)) else {
        return Ok(None);
    };
    let Some(chosen) = state.consumer_for(at)? else {
        return Ok(None);
    };
    let consumer = terminus_for(book, state.durable_key(LinkPlace::of(chosen)));
    let admission = admission_of(book, producer, consumer, delivery, payload)?;
    Ok(Some(Admittable {
        admission,
        consumer: chosen,
    }))
}

/// The delivery that an event admits, after the event, if it ends no connection for its full outbox: a whole delivery of a durable link, whose producer
/// hasn't settled it and doesn't resume it, and for which a consumer of its address is chosen (AMQP 1.0 part 2, section 2.6.12); with that consumer.
///
/// # Errors
///
/// `AllocError` if memory was refused.
pub fn admission_for(
    state: &mut State,
    book: &Book,
    conn: ConnectionId,
    answer: &Answer,
    part: &Option<Part>,
) -> Result<Option<Admittable>, AllocError>
    ensures admission { IfOk result (λ found. (t : List Entry) → TablesFit state.old t → option_map (λ x. x.admission) found ≡ answer_admission book.now t conn.0 answer.now part.now) }
    ensures chosen { IfOk result (λ found. (t : List Entry) → TablesFit state.old t → ChosenFor t conn.0 answer.now (option_map (λ x. x.consumer) found)) }
    ensures fits { OnOk result ((t : List Entry) → TablesFit state.old t → TablesFit state.new t) }
{
    match (answer, part) {
        (Answer::Taken { own, handle }, Some(Part::Whole(delivery, payload))) => {
            let at = LinkPlace {
                conn,
                own: *own,
                handle: *handle,
            };
            whole_admission(state, book, at, delivery, payload)
        }
        _ => Ok(None),
    }
}

/// The row that acts admit.
pub fn row_in(acts: &[Act]) -> Option<RowNumber>
    ensures { result ≡ row_in acts.now }
{
    for act in acts {
        if let Act::Admit(admission) = act {
            return Some(admission.row);
        }
    }
    None
}

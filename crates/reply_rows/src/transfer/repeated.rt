//! A transfer that starts a delivery with the tag of one that is unsettled: why it is refused after all.
ghost use Rattle.std.specs.Prelude.{◌≡◌, List, option_map, ℕ};
ghost use Rattle.router_trace.specs.Trace.{Entry};
ghost use Rattle.router_state.specs.Tables.{TablesFind};
ghost use Rattle.reply_rows.specs.Booking.{stands_from, repeats_tag, repeats, starts_again, TakesOn, booked_transfer};
ghost use Rattle.router_trace.specs.Deliveries.{tag_in};
ghost use Rattle.router_trace.specs.Links.{link_place};
ghost use Rattle.router_trace.specs.Settling.{middle_on};
ghost use Rattle.state_links.specs.Looking.{key_on};

use crate::answer::Answer;
use amqp_link::Delivery;
use amqp_model::{DeliveryTag, Detach, Transfer};
use book_core::Book;
use book_model::{LinkKey, Terminus};
use router_state::{LinkPlace, State};
use router_trace::{Condition, ConnectionId};

/// Whether the producer of a terminus has yet to settle a row with this tag.
fn stands_from(book: &Book, terminus: Option<&Terminus>, tag: &DeliveryTag) -> bool
    ensures { result ≡ stands_from (option_map (λ x. x.now) terminus.entry) tag.now.items book.now.rows }
{
    match terminus {
        None => false,
        Some(terminus) => book.row_named(terminus.number, tag).is_some(),
    }
}

/// Whether a transfer has the tag of an unsettled delivery, or, unless it resumes one, of a row that its producer has yet to settle, on the durable link with
/// this key.
fn repeats_tag(
    state: &State,
    book: &Book,
    at: LinkPlace,
    resume: bool,
    key: &LinkKey,
    tag: &DeliveryTag,
) -> bool
    ensures { (t : List Entry) → TablesFind state.now t → result ≡ repeats_tag book.now t at.conn.0 at.own at.handle resume key.now tag.now.items }
{
    state.uses_tag(at, tag.as_slice()) || (!resume && stands_from(book, book.terminus_of(key), tag))
}

/// The same of the link with this key, if it is durable, and the tag, if there is one.
fn repeats(
    state: &State,
    book: &Book,
    at: LinkPlace,
    key: Option<&LinkKey>,
    transfer: &Transfer,
) -> bool
    ensures { (t : List Entry) → TablesFind state.now t → result ≡ repeats book.now t at.conn.0 at.own at.handle transfer.now.resume (option_map (λ k. k.now) key.entry) (tag_in transfer.now) }
{
    match key {
        None => false,
        Some(key) => match &transfer.delivery_tag {
            None => false,
            Some(tag) => { repeats_tag(state, book, at, transfer.resume, key, tag) }
        },
    }
}

/// Whether a transfer that is taken starts a delivery with such a tag, on a link with this delivery in the middle, and with this key if it is
/// durable.
fn starts_again(
    state: &State,
    book: &Book,
    at: LinkPlace,
    middle: Option<&Delivery>,
    key: Option<&LinkKey>,
    transfer: &Transfer,
) -> bool
    ensures { (t : List Entry) → TablesFind state.now t → result ≡ starts_again book.now t at.conn.0 at.own at.handle (option_map (λ d. d.now) middle.entry) (option_map (λ k. k.now) key.entry) transfer.now }
{
    middle.is_none() && repeats(state, book, at, key, transfer)
}

/// The answer to a transfer on a session whose row gave this one, on a link with this delivery in the middle, and with this key if it is durable: if
/// it starts a delivery there with the tag of a delivery that is unsettled, or, without resuming it, of a row that its producer has yet to settle, the
/// link is detached (AMQP 1.0 part 2, section 2.6.12).
pub(crate) fn booked_transfer(
    state: &State,
    book: &Book,
    conn: u64,
    middle: Option<&Delivery>,
    key: Option<&LinkKey>,
    transfer: &Transfer,
    answer: Answer,
) -> Answer
    ensures { (t : List Entry) (on : ℕ) → TablesFind state.now t → TakesOn on (link_place t conn on transfer.now.handle) answer
        → option_map (λ d. d.now) middle.entry ≡ middle_on (link_place t conn on transfer.now.handle)
        → option_map (λ k. k.now) key.entry ≡ key_on (link_place t conn on transfer.now.handle)
        → result ≡ booked_transfer book.now t conn transfer.now answer }
{
    let Answer::Taken { own, handle } = answer else {
        return answer;
    };
    let at = LinkPlace {
        conn: ConnectionId(conn),
        own,
        handle,
    };
    if starts_again(state, book, at, middle, key, transfer) {
        return Answer::Detach {
            own,
            handle,
            closed: false,
            error: Some(Condition::NotAllowed),
        };
    }
    Answer::Taken { own, handle }
}

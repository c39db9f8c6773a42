//! The rows of a transfer: what its handle stands for, the delivery that it starts or goes on with, and what the book says.
ghost use Rattle.std.specs.Prelude.{◌≡◌, List, option_map, ℕ, Some, Bool};
ghost use Rattle.router_trace.specs.Trace.{Entry};
ghost use Rattle.router_state.specs.Tables.{TablesFind};
ghost use Rattle.reply_rows.specs.Booking.{booked_transfer};
ghost use Rattle.router_trace.specs.Links.{link_place, LinkPlace, found_link, receives};
ghost use Rattle.router_trace.specs.Settling.{middle_on, is_claimed, middle_by};
ghost use Rattle.amqp_session.specs.Session.{Session};
ghost use Rattle.amqp_session.specs.Figures.{window_of};
ghost use Rattle.router_trace.specs.Sessions.{place};
ghost use Rattle.router_state.specs.Finding.{IsFoundBy, IsFoundLink};
ghost use Rattle.reply_rows.specs.Rows.{transfer_reply};
ghost use Rattle.reply_rows.specs.LinkRows.{is_among, session_transfer_reply, is_serial, start_on, is_same_id, is_same_tag, continue_on, delivery_on};
ghost use Rattle.amqp_link.specs.Receiving.{Received, unused as unused_of};

mod admitting;
mod repeated;
mod settling;

use crate::answer::Answer;
use crate::frame::{detach_for, end_not_allowed, end_unattached, no_session_reply};
use crate::transfer::repeated::booked_transfer;
pub use admitting::{Admittable, admission_for, row_in};
use amqp_link::Delivery;
use amqp_model::{DeliveryTag, Transfer};
use amqp_session::Window;
use book_core::Book;
use router_state::{Found, State};
use router_trace::{Condition, LinkAt};
pub(crate) use settling::does;
use state_links::FoundLink;
use state_sessions::Place;

/// Whether a transfer has an id.
fn has_serial(id: Option<u32>) -> bool
    ensures { result ≡ is_serial id }
{
    match id {
        None => false,
        Some(_) => true,
    }
}

/// The answer to a transfer that starts a delivery.
fn start_on(
    own: u16,
    handle: u32,
    durable: bool,
    unused: u32,
    claimed: bool,
    transfer: &Transfer,
) -> Answer
    ensures { (ids : ℕ → Bool) → claimed ≡ is_among ids transfer.now.delivery_id → result ≡ start_on own handle durable unused ids transfer.now }
{
    if !has_serial(transfer.delivery_id) || transfer.delivery_tag.is_none() {
        return detach_for(own, handle, durable, Condition::NotAllowed);
    }
    if claimed {
        return end_not_allowed(own);
    }
    if unused == 0 {
        return detach_for(own, handle, durable, Condition::TransferLimitExceeded);
    }
    Answer::Taken { own, handle }
}

/// Whether a later transfer has no id, or that of the first.
fn is_same_id(id: Option<u32>, first: Option<u32>) -> bool
    ensures { result ≡ is_same_id id first }
{
    match id {
        None => true,
        Some(id) => match first {
            None => false,
            Some(first) => id == first,
        },
    }
}

/// Whether a later transfer has no tag, or that of the first.
fn is_same_tag(tag: &Option<DeliveryTag>, first: &Option<DeliveryTag>) -> bool
    ensures { result ≡ is_same_tag (option_map (λ tag. tag.items) tag.now) (option_map (λ tag. tag.items) first.now) }
{
    match tag {
        None => true,
        Some(tag) => match first {
            None => false,
            Some(first) => tag.as_slice() == first.as_slice(),
        },
    }
}

/// The answer to a transfer that continues a delivery.
fn continue_on(
    own: u16,
    handle: u32,
    durable: bool,
    first: &Delivery,
    transfer: &Transfer,
) -> Answer
    ensures { result ≡ continue_on own handle durable first.now transfer.now }
{
    if is_same_id(transfer.delivery_id, first.id)
        && is_same_tag(&transfer.delivery_tag, &first.tag)
    {
        return Answer::Taken { own, handle };
    }
    detach_for(own, handle, durable, Condition::NotAllowed)
}

/// The answer to a transfer on a link on which the peer is the sender: it starts a delivery, or continues the one in the middle.
fn delivery_on(
    own: u16,
    handle: u32,
    durable: bool,
    unused: u32,
    claimed: bool,
    middle: Option<&Delivery>,
    transfer: &Transfer,
) -> Answer
    ensures { (list : Received) (ids : ℕ → Bool) → unused ≡ unused_of list → claimed ≡ is_among ids transfer.now.delivery_id
        → option_map (λ d. d.now) middle.entry ≡ middle_by (receives list) → result ≡ delivery_on own handle durable ids (receives list) transfer.now }
{
    match middle {
        None => start_on(own, handle, durable, unused, claimed, transfer),
        Some(first) => continue_on(own, handle, durable, first, transfer),
    }
}

/// A transfer on a session: on a handle that stands for no link it ends the session with `amqp:session:unattached-handle`, beyond the
/// session's window with `amqp:session:window-violation`, on a link on which the router is the sender with `amqp:not-allowed`. One that starts
/// a delivery without id or tag detaches the link with `amqp:not-allowed`, one beyond the credit with `amqp:link:transfer-limit-exceeded`;
/// with the id of a delivery that isn't settled yet it ends the session with `amqp:not-allowed`. A later one with another id or tag than
/// the first detaches the link with `amqp:not-allowed`. Any other is taken (AMQP 1.0 part 2, sections 2.5.6, 2.6.7, 2.6.12 and 2.7.5).
fn session_transfer_reply(
    own: u16,
    window: Window,
    at: LinkAt,
    claimed: bool,
    middle: Option<&Delivery>,
    transfer: &Transfer,
) -> Answer
    ensures { (h : Session) (link : LinkPlace) (ids : ℕ → Bool) → window ≡ window_of h → at ≡ found_link link
        → claimed ≡ is_among ids transfer.now.delivery_id → option_map (λ d. d.now) middle.entry ≡ middle_on link
        → result ≡ session_transfer_reply own h ids link transfer.now }
{
    match at {
        LinkAt::Nowhere => end_unattached(own),
        _ if window.allowance() == 0 => Answer::End {
            own,
            error: Some(Condition::WindowViolation),
        },
        LinkAt::Detaching => Answer::Nothing,
        LinkAt::Sends { .. } => end_not_allowed(own),
        LinkAt::Receives {
            handle,
            unused,
            durable,
            ..
        } => delivery_on(own, handle, durable, unused, claimed, middle, transfer),
    }
}

/// Whether a transfer has a delivery-id whose delivery the peer has not settled.
fn is_among(state: &State, conn: u64, own: u16, id: Option<u32>) -> bool
    ensures { (t : List Entry) → TablesFind state.now t → result ≡ is_among (is_claimed t conn own) id }
{
    match id {
        None => false,
        Some(id) => state.is_claimed(conn, own, id),
    }
}

/// The answer to a transfer on a session, by what it finds on its handle and by the book.
fn transfer_on(
    state: &State,
    book: &Book,
    conn: u64,
    own: u16,
    window: Window,
    link: &FoundLink<'_>,
    transfer: &Transfer,
) -> Answer
    ensures { (t : List Entry) (h : Session) → TablesFind state.now t → window ≡ window_of h
        → IsFoundLink (link_place t conn own transfer.now.handle) link.now
        → result ≡ booked_transfer book.now t conn transfer.now (session_transfer_reply own h (is_claimed t conn own) (link_place t conn own transfer.now.handle) transfer.now) }
{
    let claimed = is_among(state, conn, own, transfer.delivery_id);
    let answer = session_transfer_reply(own, window, link.place, claimed, link.middle, transfer);
    booked_transfer(state, book, conn, link.middle, link.key, transfer, answer)
}

/// The answer to a transfer, by what it finds and by the book.
pub(crate) fn transfer_answer(
    state: &State,
    book: &Book,
    conn: u64,
    found: &Found<'_>,
    transfer: &Transfer,
) -> Answer
    ensures { (t : List Entry) (channel : ℕ) → TablesFind state.now t → IsFoundBy t conn channel (Some transfer.now.handle) found.now
        → result ≡ booked_transfer book.now t conn transfer.now (transfer_reply (place t conn channel) (link_place t conn) (is_claimed t conn) transfer.now) }
{
    match found.session {
        Place::Nowhere => no_session_reply(),
        Place::Ending => Answer::Nothing,
        Place::On { own, window } => {
            transfer_on(state, book, conn, own, window, &found.link, transfer)
        }
    }
}

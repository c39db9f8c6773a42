//! The rows of an attach: what its handle stands for, whether its terminus can be had, and what the book says.
ghost use Rattle.std.specs.Prelude.{◌≡◌, List, ℕ, IfOk, Some};
ghost use Rattle.router_trace.specs.Trace.{Entry};
ghost use Rattle.router_state.specs.Tables.{TablesFind};
ghost use Rattle.reply_rows.specs.Booking.{booked_attach, book_refusal};
ghost use Rattle.router_trace.specs.Links.{free_handle, link_place, LinkPlace, found_link};
ghost use Rattle.router_trace.specs.Sessions.{place};
ghost use Rattle.router_state.specs.Finding.{IsFoundBy};
ghost use Rattle.reply_rows.specs.Rows.{attach_reply};
ghost use Rattle.reply_rows.specs.LinkRows.{attach_fresh, session_attach_reply};

mod durable;
mod refusal;
mod resuming;
mod taking;

use crate::answer::Answer;
use crate::attach::durable::booked_attach;
use crate::attach::refusal::refusal;
use crate::frame::no_session_reply;
use amqp_model::Attach;
use book_core::Book;
pub use durable::{wanted_address, wanted_key, wants_durable};
pub use refusal::LINK_TEXT;
pub use resuming::{ConsumerResumption, ProducerResumption, Resumption, told_map};
use router_state::{Found, State};
use router_trace::{Condition, HANDLE_MAX, LinkAt};
use state_sessions::Place;
use std::alloc::AllocError;
pub(crate) use taking::does;

/// The answer to an attach on a handle of the peer that stands for nothing.
fn attach_fresh(own: u16, free: Option<u32>, attach: &Attach) -> Answer
    ensures { result ≡ attach_fresh own free attach.now }
{
    let Some(handle) = free else {
        return Answer::End {
            own,
            error: Some(Condition::ResourceLimitExceeded),
        };
    };
    match refusal(attach) {
        None => Answer::Attach { own },
        Some(error) => Answer::Refuse { own, handle, error },
    }
}

/// An attach on a session: a handle above 63 closes with `amqp:connection:framing-error`; a handle that stands for a link ends the session
/// with `amqp:session:handle-in-use`; if the router has no free handle that the peer accepts, it ends with `amqp:resource-limit-exceeded`. A
/// link whose terminus at the router's side isn't available is refused; any other is taken. While the peer's detach is awaited the attach is
/// dropped (AMQP 1.0 part 2, sections 2.6.3 and 2.7.3).
fn session_attach_reply(own: u16, at: LinkAt, free: Option<u32>, attach: &Attach) -> Answer
    ensures { (link : LinkPlace) → at ≡ found_link link → result ≡ session_attach_reply own link free attach.now }
{
    if attach.handle > HANDLE_MAX {
        return Answer::CloseWith(Condition::FramingError);
    }
    match at {
        LinkAt::Nowhere => attach_fresh(own, free, attach),
        LinkAt::Detaching => Answer::Nothing,
        LinkAt::Sends { .. } | LinkAt::Receives { .. } => Answer::End {
            own,
            error: Some(Condition::HandleInUse),
        },
    }
}

/// The answer to an attach, by what it finds.
fn attach_reply(state: &State, conn: u64, found: &Found<'_>, attach: &Attach) -> Answer
    ensures { (t : List Entry) (channel : ℕ) → TablesFind state.now t → IsFoundBy t conn channel (Some attach.now.handle) found.now
        → result ≡ attach_reply (place t conn channel) (link_place t conn) (free_handle t conn) attach.now }
{
    match found.session {
        Place::Nowhere => no_session_reply(),
        Place::Ending => Answer::Nothing,
        Place::On { own, .. } => {
            let free = state.free_handle(conn, own);
            session_attach_reply(own, found.link.place, free, attach)
        }
    }
}

/// The answer to an attach, by what it finds and by the book.
pub(crate) fn attach_answer(
    state: &State,
    book: &Book,
    full: bool,
    conn: u64,
    found: &Found<'_>,
    attach: &Attach,
) -> Result<Answer, AllocError>
    ensures { IfOk result (λ r. (t : List Entry) (channel : ℕ) → TablesFind state.now t → IsFoundBy t conn channel (Some attach.now.handle) found.now
        → r ≡ booked_attach (free_handle t conn) (book_refusal full book.now t conn attach.now)
        (attach_reply (place t conn channel) (link_place t conn) (free_handle t conn) attach.now)) }
{
    let answer = attach_reply(state, conn, found, attach);
    booked_attach(state, book, full, conn, attach, answer)
}

//! Durable links and the book of durable deliveries: why a link that its row would take is refused after all.
ghost use Rattle.std.specs.Prelude.{◌≡◌, [], List, option_map, unwrap_or, IfOk};
ghost use Rattle.router_trace.specs.Trace.{Entry};
ghost use Rattle.router_trace.specs.LinkFrames.{other};
ghost use Rattle.router_state.specs.Tables.{TablesFind};
ghost use Rattle.reply_rows.specs.Booking.{wanted_key, wanted_address, wants_durable, new_terminus, has_room, durable_refusal, attach_unless, booked_attach, book_refusal};
ghost use Rattle.router_trace.specs.Links.{free_handle};
ghost use Rattle.book_model.specs.Book.{terminus_of, same_bytes, is_short};
ghost use Rattle.reply_rows.specs.LinkRows.{refusal};

use crate::answer::Answer;
use crate::attach::refusal::{LINK_TEXT, refusal};
use amqp_model::{Attach, Role, Text};
use book_core::Book;
use book_model::{LinkKey, LinkRole, Terminus};
use router_state::State;
use router_trace::{Condition, is_durable};
use state_links::address_by;
use std::alloc::AllocError;

/// The most termini that a book keeps.
const TERMINI: usize = 1_024;

/// The router's role on a link on which the peer has this one.
fn other(role: Role) -> Role
    ensures { result ≡ other role }
{
    match role {
        Role::Sender => Role::Receiver,
        Role::Receiver => Role::Sender,
    }
}

/// Whether a peer's attach asks for a durable link.
pub fn wants_durable(attach: &Attach) -> bool
    ensures { result ≡ wants_durable attach.now }
{
    is_durable(other(attach.role), attach)
}

/// The address, at the router's side, of the link that a peer's attach asks for; none if it names none.
pub fn wanted_address(attach: &Attach) -> Option<&Text>
    ensures { unwrap_or (option_map (λ a. a.now) result) [] ≡ wanted_address attach.now }
{
    address_by(other(attach.role), attach)
}

/// The key of the link that a peer's attach asks for.
pub fn wanted_key(state: &State, conn: u64, attach: &Attach) -> Result<LinkKey, AllocError>
    ensures { IfOk result (λ key. (t : List Entry) → TablesFind state.now t → key ≡ wanted_key t conn attach.now) }
{
    let mut key = state.key_of(conn, attach)?;
    key.role = match attach.role {
        Role::Sender => LinkRole::Producer,
        Role::Receiver => LinkRole::Consumer,
    };
    Ok(key)
}

/// Whether the text has at most 1,024 bytes.
fn is_short(text: &Text) -> bool
    ensures { result ≡ is_short text.now }
{
    text.as_str().len() <= LINK_TEXT
}

/// Whether the text of an address, if there is one, has at most 1,024 bytes.
fn is_short_address(address: Option<&Text>) -> bool
    ensures { result ≡ is_short (unwrap_or (option_map (λ a. a.now) address.entry) []) }
{
    match address {
        None => true,
        Some(text) => is_short(text),
    }
}

/// Whether there is room for one more terminus, with this key and address.
fn has_room(full: bool, book: &Book, key: &LinkKey, address: Option<&Text>) -> bool
    ensures { result ≡ has_room full book.now (new_terminus book.now key.now (unwrap_or (option_map (λ a. a.now) address.entry) [])) }
{
    let short = is_short(&key.user)
        && is_short(&key.container)
        && is_short(&key.name)
        && is_short_address(address);
    !full && book.terminus_count() < TERMINI && short
}

/// Whether a terminus has this address.
fn has_address(terminus: &Terminus, address: Option<&Text>) -> bool
    ensures { result ≡ same_bytes terminus.now.address (unwrap_or (option_map (λ a. a.now) address.entry) []) }
{
    match address {
        None => terminus.address.as_str().is_empty(),
        Some(text) => terminus.address.as_str() == text.as_str(),
    }
}

/// Why a durable link is refused, by the terminus that its key has in the book, if it is.
fn durable_refusal(book: &Book, full: bool, key: &LinkKey, attach: &Attach) -> Option<Condition>
    ensures { result ≡ durable_refusal book.now (terminus_of key.now book.now.termini) attach.now (has_room full book.now (new_terminus book.now key.now (wanted_address attach.now))) }
{
    let address = wanted_address(attach);
    match book.terminus_of(key) {
        Some(terminus) if has_address(terminus, address) => None,
        Some(_) => Some(Condition::NotAllowed),
        None if !has_room(full, book, key, address) => Some(Condition::ResourceLimitExceeded),
        None => None,
    }
}

/// The answer to an attach that its row takes, on the router's lowest free handle, if the book refuses it.
fn attach_unless(own: u16, free: Option<u32>, refusal: Option<Condition>) -> Answer
    ensures { result ≡ attach_unless own free refusal }
{
    let Some(error) = refusal else {
        return Answer::Attach { own };
    };
    match free {
        Some(handle) => Answer::Refuse { own, handle, error },
        None => Answer::End {
            own,
            error: Some(Condition::ResourceLimitExceeded),
        },
    }
}

/// The answer to an attach of a durable link, which its row takes.
fn durable_answer(
    state: &State,
    book: &Book,
    full: bool,
    conn: u64,
    own: u16,
    attach: &Attach,
) -> Result<Answer, AllocError>
    ensures { IfOk result (λ answer. (t : List Entry) → TablesFind state.now t
        → answer ≡ attach_unless own (free_handle t conn own) (durable_refusal book.now (terminus_of (wanted_key t conn attach.now) book.now.termini) attach.now
        (has_room full book.now (new_terminus book.now (wanted_key t conn attach.now) (wanted_address attach.now))))) }
{
    let free = state.free_handle(conn, own);
    let key = wanted_key(state, conn, attach)?;
    let refusal = durable_refusal(book, full, &key, attach);
    Ok(attach_unless(own, free, refusal))
}

/// The answer to an attach, which its row takes, by the book.
fn taken_attach(
    state: &State,
    book: &Book,
    full: bool,
    conn: u64,
    own: u16,
    attach: &Attach,
) -> Result<Answer, AllocError>
    ensures { IfOk result (λ answer. (t : List Entry) → TablesFind state.now t
        → answer ≡ attach_unless own (free_handle t conn own) (book_refusal full book.now t conn attach.now)) }
{
    if wants_durable(attach) {
        return durable_answer(state, book, full, conn, own, attach);
    }
    Ok(Answer::Attach { own })
}

/// The answer to an attach whose row gave this one, by the book.
pub(crate) fn booked_attach(
    state: &State,
    book: &Book,
    full: bool,
    conn: u64,
    attach: &Attach,
    answer: Answer,
) -> Result<Answer, AllocError>
    ensures { IfOk result (λ r. (t : List Entry) → TablesFind state.now t → r ≡ booked_attach (free_handle t conn) (book_refusal full book.now t conn attach.now) answer) }
{
    match answer {
        Answer::Attach { own } => taken_attach(state, book, full, conn, own, attach),
        _ => Ok(answer),
    }
}

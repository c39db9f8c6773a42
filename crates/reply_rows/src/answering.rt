//! The choice of the row that answers an item.
ghost use Rattle.std.specs.Prelude.{◌≡◌, List, IfOk};
ghost use Rattle.router_trace.specs.Trace.{Entry};
ghost use Rattle.router_state.specs.Tables.{TablesFind};
ghost use Rattle.amqp_conn.specs.Phase.{frame_in_turn};
ghost use Rattle.router_state.specs.Finding.{IsFound, IsFoundBy, handle_in};
ghost use Rattle.reply_rows.specs.Rows.{in_turn, is_awaited, turn_by, perf_reply};
ghost use Rattle.reply_rows.specs.Booking.{booked_perf, answer_at};
ghost use Rattle.reply_rows.specs.Finding.{finds};

use crate::answer::Answer;
use crate::attach::attach_answer;
use crate::begin::begin_reply;
use crate::close::close_reply;
use crate::detach::detach_reply;
use crate::disposition::disposition_reply;
use crate::end::end_reply;
use crate::flow::flow_reply;
use crate::frame::{bad_frame_reply, beat_reply, early_frame_reply, header_reply, out_of_turn};
use crate::open::open_reply;
use crate::transfer::transfer_answer;
use amqp_conn::Conn;
use amqp_model::{Attach, Begin, Detach, Disposition, Flow, Item, Open, Perf, Transfer};
use book_core::Book;
use router_state::{Found, State};
use std::alloc::AllocError;

/// The answer to a performative other than open and close, on an open connection, by what it finds and by the book.
fn in_turn(
    state: &State,
    book: &Book,
    full: bool,
    conn: u64,
    channel: u16,
    found: &Found<'_>,
    perf: &Perf,
) -> Result<Answer, AllocError>
    ensures { IfOk result (λ r. (t : List Entry) → TablesFind state.now t → IsFoundBy t conn channel (handle_in perf.now) found.now
        → r ≡ booked_perf full book.now t conn perf.now (in_turn (finds t conn) channel perf.now)) }
{
    match perf {
        Perf::Begin(begin) => {
            let begin = begin.as_ref();
            let free = state.free_channel(conn);
            let awaits = awaits(state, conn, begin.remote_channel);
            Ok(begin_reply(found.session, free, awaits, channel, begin))
        }
        Perf::Attach(attach) => attach_answer(state, book, full, conn, found, attach.as_ref()),
        Perf::Flow(flow) => Ok(flow_reply(found, flow)),
        Perf::Transfer(transfer) => Ok(transfer_answer(state, book, conn, found, transfer)),
        Perf::Disposition(disposition) => Ok(disposition_reply(found.session, disposition)),
        Perf::Detach(detach) => Ok(detach_reply(found, detach)),
        Perf::End(_) => Ok(end_reply(found.session)),
        _ => Ok(early_frame_reply()),
    }
}

/// Whether a begin of the router awaits the peer's on the channel that a begin names, if it names one.
fn awaits(state: &State, conn: u64, named: Option<u16>) -> bool
    ensures { (t : List Entry) → TablesFind state.now t → result ≡ is_awaited (finds t conn).awaits named }
{
    match named {
        None => false,
        Some(own) => state.awaits(conn, own),
    }
}

/// The answer to a performative other than open and close, on this channel, by the book.
fn turn_by(
    state: &State,
    book: &Book,
    full: bool,
    conn: u64,
    phase: Conn,
    channel: u16,
    found: &Found<'_>,
    perf: &Perf,
) -> Result<Answer, AllocError>
    ensures { IfOk result (λ r. (t : List Entry) → TablesFind state.now t → IsFoundBy t conn channel (handle_in perf.now) found.now
        → r ≡ booked_perf full book.now t conn perf.now (turn_by (finds t conn) channel perf.now (frame_in_turn channel phase))) }
{
    match phase.take_frame(channel) {
        Ok(()) => in_turn(state, book, full, conn, channel, found, perf),
        Err(fault) => Ok(out_of_turn(fault)),
    }
}

/// The answer to a performative in a frame that isn't a SASL frame, by the book.
fn perf_answer(
    state: &State,
    book: &Book,
    full: bool,
    conn: u64,
    phase: Conn,
    channel: u16,
    found: &Found<'_>,
    perf: &Perf,
) -> Result<Answer, AllocError>
    ensures { IfOk result (λ r. (t : List Entry) → TablesFind state.now t → IsFoundBy t conn channel (handle_in perf.now) found.now
        → r ≡ booked_perf full book.now t conn perf.now (perf_reply phase (finds t conn) channel perf.now)) }
{
    match perf {
        Perf::Open(open) => Ok(open_reply(phase, open.as_ref())),
        Perf::Close(_) => Ok(close_reply(phase, channel)),
        _ => turn_by(state, book, full, conn, phase, channel, found, perf),
    }
}

/// The router's answer to an item on a live connection in this phase, by what it finds (`State::find`): that of its row, unless the book stands in
/// the way. `full` says that the journal has no room for a terminus.
///
/// # Errors
///
/// `AllocError` if memory was refused.
pub fn item_answer(
    state: &State,
    book: &Book,
    full: bool,
    conn: u64,
    phase: Conn,
    found: &Found<'_>,
    item: &Item,
) -> Result<Answer, AllocError>
    ensures { IfOk result (λ answer. (t : List Entry) → TablesFind state.now t → IsFound t conn item.now found.now
        → answer ≡ answer_at full book.now t conn phase item.now) }
{
    match item {
        Item::Header { .. } => Ok(header_reply(phase)),
        Item::Frame {
            sasl,
            channel,
            perf,
            ..
        } => {
            if *sasl {
                Ok(early_frame_reply())
            } else {
                perf_answer(state, book, full, conn, phase, *channel, found, perf)
            }
        }
        Item::Beat { channel } => Ok(beat_reply(*channel)),
        Item::Bad(fault) => Ok(bad_frame_reply(*fault)),
    }
}

//! The reply to an event that was handled: the closes because of full outboxes, then the event's own row.
ghost use Rattle.std.specs.Prelude.{◌≡◌, ◌∷◌, ℕ, List, OnOk, true, false};
ghost use Rattle.router_trace.specs.Trace.{Entry, did, step_of, goes, puts_of};
ghost use Rattle.router_trace.specs.Connection.{due, found, phase_found, standing};
ghost use Rattle.router_trace.specs.Sessions.{theirs, maps};
ghost use Rattle.router_trace.specs.Links.{link_place};
ghost use Rattle.router_trace.specs.Settling.{part_of};
ghost use Rattle.state_links.specs.Fits.{channel_of};
ghost use Rattle.router_state.specs.Tables.{TablesFit, beats};
ghost use Rattle.reply_rows.specs.Acts.{answer_of, answer_to_event, book_in};
ghost use Rattle.reply_rows.specs.Admitting.{ChosenFor, ChoseUnlessEnds, EventChose};
ghost use Rattle.router_reply.specs.Heard.{ids_named, ItemHeard, IsHeard};
ghost use Rattle.reply_rows.specs.Planning.{HasTold};
ghost use Rattle.reply_rows.specs.Resuming.{map_resumed, told_map};
ghost use Rattle.reply_transfers.specs.Transfers.{given_after, disposition_in};
ghost use Rattle.router_reply.specs.Replies.{replied, replied_after, after_answer, attach_put, settled_put, row_found};
ghost use Rattle.router_trace.specs.declared.event.Event.TheVariants as event;

use crate::attaching::answer_item;
use crate::closing::{close_all, say};
use crate::heard::Heard;
use amqp_conn::Conn;
use amqp_model::Item;
use book_core::Book;
use book_model::RowNumber;
use reply_rows::{Answer, Plan, told_map};
use reply_transfers::{disposition_in, settle, take_part};
use router_state::{LinkPlace, State};
use router_trace::{Attachment, ConnectionId, Event, RouterId};
use std::alloc::AllocError;
use std::mem;

/// The deliveries that a disposition decides without settling them, and that are answered.
fn on_settle(
    state: &mut State,
    id: &RouterId,
    conn: ConnectionId,
    own: u16,
    item: &Item,
    ids: &[u32],
) -> Result<(), AllocError>
    ensures { OnOk result ((t after : List Entry) → TablesFit state.old after → ids_named t conn.0 own (disposition_in item.now) ids.now
        → TablesFit state.new (goes (settled_put t conn.0 own (disposition_in item.now)) after)) }
{
    if let Some(disposition) = disposition_in(item) {
        settle(state, id, conn.0, own, ids, disposition)?;
    }
    Ok(())
}

/// An item whose row gave this answer, after the closes: puts the answer, except what an attach puts.
fn begin_item(
    state: &mut State,
    id: &RouterId,
    book: &Book,
    conn: ConnectionId,
    phase: Conn,
    item: &Item,
    answer: &Answer,
    row: Option<RowNumber>,
    consumer: Option<Attachment>,
    heard: &mut Heard,
) -> Result<(), AllocError>
    ensures { OnOk result ((t after : List Entry) → TablesFit state.old after → ItemHeard t conn item.now answer.now heard.old → ChosenFor after conn.0 answer.now consumer
        → answer.now ≡ answer_of t conn.0 phase item.now
        → book.now ≡ book_in t → row ≡ row_found t → (u : List Entry) × TablesFit state.new u
        × (goes (attach_put u conn.0 (told_map t (event.Item conn item.now) answer.now) item.now answer.now) u ≡ after_answer id.now t after conn.0 phase item.now answer.now)) }
{
    match answer {
        Answer::Taken { own, handle } => {
            let at = LinkPlace {
                conn,
                own: *own,
                handle: *handle,
            };
            take_part(state, id, book, at, row, consumer, heard.part.take())
        }
        Answer::Settle { own } => on_settle(state, id, conn, *own, item, &heard.ids),
        _ => say(state, id, conn.0, phase, answer),
    }
}

/// An item of an event that was decided so, after the closes.
fn on_item(
    state: &mut State,
    id: &RouterId,
    book: &Book,
    conn: ConnectionId,
    item: Item,
    plan: &mut Plan,
    row: Option<RowNumber>,
    heard: &mut Heard,
) -> Result<(), AllocError>
    ensures plan { HasTold plan.old plan.new }
    ensures fits { OnOk result ((t after : List Entry) → TablesFit state.old after → plan.old.phase ≡ standing (found t (event.Item conn item) conn.0)
        → plan.old.answer ≡ answer_to_event t (event.Item conn item) → book.now ≡ book_in t → row ≡ row_found t
        → map_resumed plan.old.resumption ≡ told_map t (event.Item conn item) plan.old.answer
        → ItemHeard t conn item plan.old.answer heard.old → ChosenFor after conn.0 plan.old.answer plan.old.consumer
        → TablesFit state.new (replied_after id.now t after (event.Item conn item))) }
{
    let Some(phase) = plan.phase else {
        drop(item);
        return Ok(());
    };
    let Ok(()) = begin_item(
        state,
        id,
        book,
        conn,
        phase,
        &item,
        &plan.answer,
        row,
        plan.consumer,
        heard,
    ) else {
        drop(item);
        return Err(AllocError);
    };
    let ours = told_map(state.alloc(), &mut plan.resumption);
    answer_item(state, id, conn.0, item, &plan.answer, ours)
}

/// The heartbeats that a tick made due.
fn on_tick(state: &mut State, heard: &mut Heard) -> Result<(), AllocError>
    ensures { OnOk result ((t after : List Entry) (ms : ℕ) → TablesFit state.old after → puts_of heard.old.beats.items ≡ beats t (event.Tick ms) ms
        → TablesFit state.new (goes (beats t (event.Tick ms) ms) after)) }
{
    let beats = mem::replace(&mut heard.beats, Vec::new(state.alloc()));
    state.put_all(beats)
}

/// What an event's own row puts, after the closes.
fn own_row(
    state: &mut State,
    id: &RouterId,
    book: &Book,
    event: Event,
    plan: &mut Plan,
    row: Option<RowNumber>,
    heard: &mut Heard,
) -> Result<(), AllocError>
    ensures plan { HasTold plan.old plan.new }
    ensures fits { OnOk result ((t after : List Entry) → TablesFit state.old after → plan.old.phase ≡ phase_found t event → plan.old.answer ≡ answer_to_event t event
        → book.now ≡ book_in t → row ≡ row_found t → map_resumed plan.old.resumption ≡ told_map t event plan.old.answer
        → IsHeard t event plan.old.answer heard.old → EventChose after event plan.old.answer plan.old.consumer
        → TablesFit state.new (replied_after id.now t after event)) }
{
    match event {
        Event::Item(conn, item) => on_item(state, id, book, conn, item, plan, row, heard),
        Event::Tick(_) => on_tick(state, heard),
        Event::Up(_, peer) => {
            drop(peer);
            Ok(())
        }
        Event::Down(_) => Ok(()),
        Event::Start => Ok(()),
    }
}

/// Replies to an event that was decided and heard so, by the book after its acts and the row that these admit: the closes of the connections whose
/// outboxes were full, then the event's own row. A message is bound to the consumer in the plan, if one was chosen. What the plan has of the router's
/// map is told, and is no longer in it.
///
/// # Errors
///
/// `AllocError` if memory was refused; the tables' contents are unspecified then.
pub fn reply(
    state: &mut State,
    id: &RouterId,
    book: &Book,
    event: Event,
    plan: &mut Plan,
    row: Option<RowNumber>,
    heard: &mut Heard,
) -> Result<(), AllocError>
    ensures plan { HasTold plan.old plan.new }
    ensures fits { OnOk result ((t : List Entry) → TablesFit state.old (did event ∷ t) → plan.old.ends.items ≡ due t event → plan.old.phase ≡ phase_found t event
        → plan.old.answer ≡ answer_to_event t event → book.now ≡ book_in t → row ≡ row_found t → map_resumed plan.old.resumption ≡ told_map t event plan.old.answer
        → IsHeard t event plan.old.answer heard.old → ChoseUnlessEnds plan.old.ends.items (did event ∷ t) event plan.old.answer plan.old.consumer
        → TablesFit state.new (replied id.now t (step_of event))) }
{
    let Ok(()) = close_all(state, id, &plan.ends) else {
        drop(event);
        return Err(AllocError);
    };
    own_row(state, id, book, event, plan, row, heard)
}

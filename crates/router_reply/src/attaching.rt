//! Attaches that are taken or refused.
ghost use Rattle.std.specs.Prelude.{◌≡◌, ◌∷◌, [], List, ℕ, OnOk, IfOk, Some, None, not, if◌then◌else◌};
ghost use Rattle.router_trace.specs.declared.condition.Condition.TheVariants as condition;
ghost use Rattle.amqp_model.specs.declared.perf.Attach.{Attach as AnAttach};
ghost use Rattle.router_trace.specs.Trace.{Entry, goes, puts};
ghost use Rattle.router_trace.specs.Links.{holder, key_at, free_handle};
ghost use Rattle.router_trace.specs.LinkFrames.{fits, detach_item, answer_to};
ghost use Rattle.router_state.specs.Tables.{TablesFit};
ghost use Rattle.router_reply.specs.Replies.{stolen_by, unless_too_large, with_map, attach_answer, taken, refused, put_for_attach, attach_put_in, attach_put};
ghost use Rattle.router_trace.specs.Peers.{largest_frame};

use crate::closing::write_detach;
use amqp_frames::item_len;
use amqp_model::{Attach, Item, Perf, Unsettled, UnsettledDelivery};
use book_model::LinkKey;
use reply_rows::Answer;
use router_state::State;
use router_trace::{Condition, RouterId, attach_item, is_durable};
use std::alloc::AllocError;

/// Whether an item's frame is no longer than `largest` bytes.
fn fits(id: &RouterId, largest: u32, item: &Item) -> Result<bool, AllocError>
    ensures { IfOk result (λ fit. fit ≡ fits largest item.now) }
{
    let length = item_len(id.alloc(), item)?;
    Ok(length as u64 <= u64::from(largest))
}

/// Detaches the link with this key, if one is attached, because another takes its place (AMQP 1.0 part 2, section 2.6.1).
fn steal(state: &mut State, id: &RouterId, key: &LinkKey) -> Result<(), AllocError>
    ensures { OnOk result ((t : List Entry) → TablesFit state.old t → TablesFit state.new (goes (stolen_by (holder t key.now)) t)) }
{
    let Some(older) = state.holder(key) else {
        return Ok(());
    };
    let item = id.detach_item(older.channel, older.handle, false, Some(Condition::Stolen))?;
    state.put(older.conn.0, item)?;
    Ok(())
}

/// The item, if its frame is no longer than `largest` bytes.
fn within(id: &RouterId, largest: u32, item: Item) -> Result<Option<Item>, AllocError>
    ensures { IfOk result (λ r. r ≡ (if fits largest item then Some item else None)) }
{
    match fits(id, largest, &item) {
        Ok(true) => Ok(Some(item)),
        Ok(false) => {
            drop(item);
            Ok(None)
        }
        Err(error) => {
            drop(item);
            Err(error)
        }
    }
}

/// Puts the answer to an attach, or a detach instead if it doesn't fit, which closes the link unless the link is durable.
fn put_answer(
    state: &mut State,
    id: &RouterId,
    conn: u64,
    largest: u32,
    own: u16,
    answer: Attach,
) -> Result<(), AllocError>
    ensures { OnOk result ((t : List Entry) → TablesFit state.old t → TablesFit state.new (puts conn (unless_too_large largest own answer.handle answer) t)) }
{
    let handle = answer.handle;
    let durable = is_durable(answer.role, &answer);
    let item = attach_item(id.alloc(), own, answer)?;
    match within(id, largest, item)? {
        Some(item) => state.put(conn, item)?,
        None => write_too_large(state, id, conn, own, handle, !durable)?,
    }
    Ok(())
}

/// Writes the detach that stands in the place of an answer that doesn't fit.
fn write_too_large(
    state: &mut State,
    id: &RouterId,
    conn: u64,
    own: u16,
    handle: u32,
    closed: bool,
) -> Result<(), AllocError>
    ensures { OnOk result ((t : List Entry) → TablesFit state.old t → TablesFit state.new (puts conn (detach_item own handle closed (Some condition.FrameSizeTooSmall) ∷ []) t)) }
{
    let item = id.detach_item(own, handle, closed, Some(Condition::FrameSizeTooSmall))?;
    state.put(conn, item)?;
    Ok(())
}

/// An answer that was made for the handle 0, on the handle that it gets.
#[tactic(auto, using(crate::proofs::Answering::on_handle))]
fn on_handle(answer: Attach, handle: u32) -> Attach
    ensures answer { (a : AnAttach) → answer ≡ answer_to a 0 → result ≡ answer_to a handle }
    ensures handle { result.handle ≡ handle }
{
    let mut answer = answer;
    answer.handle = handle;
    answer
}

/// An answer with the router's map, if that has entries.
fn with_map(answer: Attach, ours: Vec<UnsettledDelivery>) -> Attach
    ensures answer { result ≡ with_map ours.items answer }
    ensures handle { result.handle ≡ answer.handle }
{
    if ours.is_empty() {
        drop(ours);
        return answer;
    }
    let mut answer = answer;
    answer.unsettled = Some(Unsettled::new(ours));
    answer
}

/// Detaches the link with the answer's key, if one is attached, and returns the lowest handle that is free then.
fn make_way(
    state: &mut State,
    id: &RouterId,
    conn: u64,
    own: u16,
    answer: &Attach,
) -> Result<Option<u32>, AllocError>
    ensures fits { OnOk result ((t : List Entry) → TablesFit state.old t → TablesFit state.new (goes (stolen_by (holder t (key_at t conn answer.now))) t)) }
    ensures handle { IfOk result (λ handle. (t : List Entry) → TablesFit state.old t → handle ≡ free_handle (goes (stolen_by (holder t (key_at t conn answer.now))) t) conn own) }
{
    let key = state.key_of(conn, answer)?;
    steal(state, id, &key)?;
    Ok(state.free_handle(conn, own))
}

/// Answers an attach that is taken: detaches the older link with its key, and puts the answer, with the router's map, on
/// the lowest handle that is free then.
fn take_link(
    state: &mut State,
    id: &RouterId,
    conn: u64,
    own: u16,
    attach: Attach,
    ours: Vec<UnsettledDelivery>,
) -> Result<(), AllocError>
    ensures { OnOk result ((t : List Entry) → TablesFit state.old t → TablesFit state.new (goes (taken t conn own ours.items attach) t)) }
{
    let largest = state.largest_frame(conn);
    let Ok(answer) = id.answer_to(attach, 0) else {
        drop(ours);
        return Err(AllocError);
    };
    match make_way(state, id, conn, own, &answer) {
        Err(error) => {
            drop(answer);
            drop(ours);
            return Err(error);
        }
        Ok(None) => {
            drop(answer);
            drop(ours);
        }
        Ok(Some(handle)) => {
            let answer = on_handle(answer, handle);
            let answer = with_map(answer, ours);
            put_answer(state, id, conn, largest, own, answer)?;
        }
    }
    Ok(())
}

/// Answers an attach that is refused: an answer without the terminus at the router's side, and a detach; the detach alone if the answer
/// doesn't fit (AMQP 1.0 part 2, section 2.6.3).
fn refuse_link(
    state: &mut State,
    id: &RouterId,
    conn: u64,
    own: u16,
    handle: u32,
    error: Condition,
    attach: Attach,
) -> Result<(), AllocError>
    ensures { OnOk result ((t : List Entry) → TablesFit state.old t → TablesFit state.new (puts conn (refused (largest_frame t conn) own handle error attach) t)) }
{
    let largest = state.largest_frame(conn);
    let refusal = attach_item(id.alloc(), own, id.refusal_of(attach, handle))?;
    match within(id, largest, refusal)? {
        None => write_detach(state, id, conn, own, handle, error)?,
        Some(item) => {
            state.put(conn, item)?;
            write_detach(state, id, conn, own, handle, error)?;
        }
    }
    Ok(())
}

/// Puts the items of an answer to an attach into outboxes.
fn answer_attach(
    state: &mut State,
    id: &RouterId,
    conn: u64,
    attach: Attach,
    answer: &Answer,
    ours: Vec<UnsettledDelivery>,
) -> Result<(), AllocError>
    ensures { OnOk result ((t : List Entry) → TablesFit state.old t → TablesFit state.new (goes (put_for_attach t conn ours.items attach answer.now) t)) }
{
    match answer {
        Answer::Attach { own } => take_link(state, id, conn, *own, attach, ours)?,
        Answer::Refuse { own, handle, error } => {
            drop(ours);
            refuse_link(state, id, conn, *own, *handle, *error, attach)?
        }
        _ => {
            drop(attach);
            drop(ours);
        }
    }
    Ok(())
}

/// Puts the items of an answer to a performative into outboxes, beyond the answer's own items.
fn answer_perf(
    state: &mut State,
    id: &RouterId,
    conn: u64,
    perf: Perf,
    answer: &Answer,
    ours: Vec<UnsettledDelivery>,
) -> Result<(), AllocError>
    ensures { OnOk result ((t : List Entry) → TablesFit state.old t → TablesFit state.new (goes (attach_put_in t conn ours.items perf answer.now) t)) }
{
    match perf.into_attach() {
        Some(attach) => answer_attach(state, id, conn, attach, answer, ours)?,
        None => drop(ours),
    }
    Ok(())
}

/// Puts the items of an answer to an item into outboxes, beyond the answer's own items, if the item is an attach; the
/// answer to one that is taken has `ours` as the router's map.
pub fn answer_item(
    state: &mut State,
    id: &RouterId,
    conn: u64,
    item: Item,
    answer: &Answer,
    ours: Vec<UnsettledDelivery>,
) -> Result<(), AllocError>
    ensures { OnOk result ((t : List Entry) → TablesFit state.old t → TablesFit state.new (goes (attach_put t conn ours.items item answer.now) t)) }
{
    match answer {
        Answer::Attach { .. } | Answer::Refuse { .. } => answer_frame(
            state, id, conn, item, answer, ours,
        ),
        _ => {
            drop(item);
            drop(ours);
            Ok(())
        }
    }
}

/// Puts the items of an answer to an attach into outboxes, if the item is one.
fn answer_frame(
    state: &mut State,
    id: &RouterId,
    conn: u64,
    item: Item,
    answer: &Answer,
    ours: Vec<UnsettledDelivery>,
) -> Result<(), AllocError>
    ensures { OnOk result ((t : List Entry) → TablesFit state.old t → TablesFit state.new (goes (attach_put t conn ours.items item answer.now) t)) }
{
    match item {
        Item::Frame {
            sasl: _sasl,
            channel: _channel,
            perf,
            payload: _payload,
        } => answer_perf(state, id, conn, perf, answer, ours)?,
        other => {
            drop(other);
            drop(ours);
        }
    }
    Ok(())
}

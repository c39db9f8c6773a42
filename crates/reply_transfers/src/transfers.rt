//! Transfers that are taken, and dispositions whose deliveries are answered.
ghost use Rattle.std.specs.Prelude.{◌∷◌, [], List, ℕ, OnOk, Some, None, true, nat_lt, map, option_map, unwrap_or, IfOk, ◌≡◌};
ghost use Rattle.amqp_model.specs.declared.perf.Role.TheVariants.{Sender};
ghost use Rattle.router_trace.specs.Trace.{Entry, puts};
ghost use Rattle.router_trace.specs.Links.{link};
ghost use Rattle.router_trace.specs.Settling.{unbound};
ghost use Rattle.router_trace.specs.Deliveries.{terminal, last_of};
ghost use Rattle.router_trace.specs.DeliveryFrames.{outcome_item};
ghost use Rattle.state_messages.specs.Messages.{IsChosen, with_bound, binding_for, consumer_of, copies_for};
ghost use Rattle.router_state.specs.Copying.{copied_to};
ghost use Rattle.router_trace.specs.Following.{link_of};
ghost use Rattle.router_state.specs.Tables.{TablesFit};
ghost use Rattle.reply_transfers.specs.Transfers.{claimed_id, from_link, origin_of, may_pass, let_down, let_down_as, let_down_by, let_go, lasts_on, fresh_copied, given_after, ignored_put, joined_on, resumed_put, resumed_bound, unbound_put, consumer_for, whole_put, whole_bound, whole_copied, fresh_bound, part_put, part_bound, settled_answers, disposition_in, disposition_of};

use crate::joining::row_under;
use amqp_link::{Delivery, Part};
use amqp_model::{Boxed, DeliveryState, Disposition, Fault, Item, Perf, Rejected, Role, Symbol};
use book_core::Book;
use book_model::{Row, RowNumber};
use bytes::Bytes;
use reply_frames::outcome_item;
use router_state::{LinkPlace, State};
use router_trace::{Attachment, Condition, Holding, Origin, RouterId};
use std::alloc::{AllocError, Global};

/// The most unsettled deliveries of a link that came whole and are bound to no consumer.
pub const UNBOUND: usize = 1024;

/// The delivery's id, if its producer hasn't settled it.
pub fn claimed_id(state: &State, at: LinkPlace, id: Option<u32>) -> Option<u32>
    ensures { (t : List Entry) → TablesFit state.now t → result ≡ claimed_id t at.conn.0 at.own at.handle id }
{
    let id = id?;
    if state.is_claimed_on(at, id) {
        Some(id)
    } else {
        None
    }
}

/// Whether a delivery may be bound: on a durable link one that its producer hasn't settled needs a row.
fn may_pass(durable: bool, claimed: Option<u32>, row: Option<RowNumber>) -> bool
    ensures { result ≡ may_pass durable claimed row }
{
    match claimed {
        None => true,
        Some(_) => !durable || row.is_some(),
    }
}

/// Reports the outcome of one delivery, and settles it or not.
fn put_outcome(
    state: &mut State,
    id: &RouterId,
    conn: u64,
    own: u16,
    role: Role,
    delivery: u32,
    settled: bool,
    outcome: &DeliveryState,
) -> Result<(), AllocError>
    ensures { OnOk result ((t : List Entry) → TablesFit state.old t → TablesFit state.new (puts conn (outcome_item own role delivery settled outcome.now ∷ []) t)) }
{
    let item = outcome_item(id.alloc(), own, role, delivery, settled, outcome)?;
    state.put(conn, item)?;
    Ok(())
}

/// Detaches a link, which is closed unless it is durable.
fn let_go(
    state: &mut State,
    id: &RouterId,
    at: LinkPlace,
    error: Condition,
) -> Result<(), AllocError>
    ensures { OnOk result ((t : List Entry) → TablesFit state.old t → TablesFit state.new (puts at.conn.0 (let_go t at.conn.0 at.own at.handle error) t)) }
{
    let closed = !state.is_durable(at);
    let item = id.detach_item(at.own, at.handle, closed, Some(error))?;
    state.put(at.conn.0, item)?;
    Ok(())
}

/// Whether a link has more unsettled deliveries that are bound to no consumer than the router allows.
fn has_many(state: &State, at: LinkPlace) -> bool
    ensures { (t : List Entry) → TablesFit state.now t → result ≡ nat_lt 1024 (unbound t at.conn.0 at.own at.handle) }
{
    state.unbound(at) > UNBOUND
}

/// What a delivery that is bound to no consumer becomes: on a multicast address it is rejected, since no outcome could be told of many copies; else it
/// is released.
fn let_down_as(alloc: Global, multicast: bool) -> Result<DeliveryState, AllocError>
    ensures { IfOk result (λ outcome. outcome ≡ let_down_as multicast) }
{
    if !multicast {
        return Ok(DeliveryState::Released);
    }
    let text = String::from_str(alloc, Condition::NotImplemented.text())?;
    let fault = Fault {
        condition: Symbol::new(text),
        description: None,
        info: None,
    };
    let error = Boxed::new(alloc, fault)?;
    Ok(DeliveryState::Rejected(Rejected { error: Some(error) }))
}

/// Reports what becomes of a delivery that is bound to no consumer. On a durable link its producer settles it; a link with more of these than the router
/// allows is detached.
fn let_down_by(
    state: &mut State,
    id: &RouterId,
    at: LinkPlace,
    outcome: &DeliveryState,
    delivery: u32,
) -> Result<(), AllocError>
    ensures { OnOk result ((t : List Entry) → TablesFit state.old t → TablesFit state.new (puts at.conn.0 (let_down_by t at.conn.0 at.own at.handle (lasts_on (link t at.conn.0 at.own at.handle)) outcome.now delivery) t)) }
{
    let durable = state.is_durable(at);
    if durable && has_many(state, at) {
        let_go(state, id, at, Condition::ResourceLimitExceeded)?;
        return Ok(());
    }
    put_outcome(
        state,
        id,
        at.conn.0,
        at.own,
        Role::Receiver,
        delivery,
        !durable,
        outcome,
    )?;
    Ok(())
}

/// The same, unless its producer has settled it.
fn let_down(
    state: &mut State,
    id: &RouterId,
    at: LinkPlace,
    claimed: Option<u32>,
) -> Result<(), AllocError>
    ensures { OnOk result ((t : List Entry) → TablesFit state.old t → TablesFit state.new (puts at.conn.0 (let_down t at.conn.0 at.own at.handle claimed) t)) }
{
    let Some(delivery) = claimed else {
        return Ok(());
    };
    let outcome = let_down_as(id.alloc(), state.goes_to_all(at))?;
    let_down_by(state, id, at, &outcome, delivery)?;
    Ok(())
}

/// Ignores a resumed delivery; a link with more unsettled ones than the router ignores is detached.
fn ignore(
    state: &mut State,
    id: &RouterId,
    at: LinkPlace,
    claimed: Option<u32>,
) -> Result<(), AllocError>
    ensures { OnOk result ((t : List Entry) → TablesFit state.old t → TablesFit state.new (puts at.conn.0 (ignored_put t at.conn.0 at.own at.handle claimed) t)) }
{
    if claimed.is_none() {
        return Ok(());
    }
    if !has_many(state, at) {
        return Ok(());
    }
    let_go(state, id, at, Condition::ResourceLimitExceeded)?;
    Ok(())
}

/// Binds a message that its producer has settled to a consumer of its address: to `known`, if it was chosen before. If none is chosen, each consumer that
/// gets a copy has one; on an address that isn't multicast there are none, and the message is dropped.
fn pass_settled(
    state: &mut State,
    from: Attachment,
    known: Option<Attachment>,
    row: Option<RowNumber>,
    format: u32,
    payload: Bytes,
) -> Result<(), AllocError>
    ensures { OnOk result ((t : List Entry) → IsChosen t (link_of t from) known → TablesFit state.old t → TablesFit state.new (copied_to format payload (copies_for t (link_of t from)) (with_bound (binding_for t from None row format payload) t))) }
{
    let shared = payload.clone()?;
    let chosen = state.pass(from, known, None, row, format, payload)?;
    if chosen {
        return Ok(());
    }
    let to = state.copies_for(from)?;
    state.pass_copies(to, format, &shared)?;
    Ok(())
}

/// Binds a message of the link on this handle to a consumer of its address: to `known`, if it was chosen before. If none is chosen, the delivery is
/// let down, or copied if its producer has settled it.
fn bind(
    state: &mut State,
    id: &RouterId,
    from: Attachment,
    known: Option<Attachment>,
    claimed: Option<u32>,
    row: Option<RowNumber>,
    format: u32,
    payload: Bytes,
) -> Result<(), AllocError>
    ensures { OnOk result ((t : List Entry) → IsChosen t (link_of t from) known → TablesFit state.old t → TablesFit state.new (fresh_copied t from.conn.0 from.channel from.handle format payload claimed
        (puts from.conn.0 (unbound_put t from.conn.0 from.channel from.handle claimed (consumer_of t (link_of t from)))
        (with_bound (binding_for t from (option_map (origin_of from) claimed) row format payload) t)))) }
{
    let Some(delivery) = claimed else {
        return pass_settled(state, from, known, row, format, payload);
    };
    let origin = Origin {
        link: from,
        id: delivery,
    };
    let chosen = state.pass(from, known, Some(origin), row, format, payload)?;
    if chosen {
        return Ok(());
    }
    let_down(state, id, LinkPlace::of(from), claimed)?;
    Ok(())
}

/// A whole delivery that isn't resumed: it is bound or copied if its link is attached and it may be, else let down.
fn pass_fresh(
    state: &mut State,
    id: &RouterId,
    at: LinkPlace,
    delivery: &Delivery,
    row: Option<RowNumber>,
    known: Option<Attachment>,
    payload: Bytes,
) -> Result<(), AllocError>
    ensures { OnOk result ((t : List Entry) → IsChosen t (link t at.conn.0 at.own at.handle) known → TablesFit state.old t → TablesFit state.new (fresh_copied t at.conn.0 at.own at.handle (unwrap_or delivery.now.format 0) payload (claimed_id t at.conn.0 at.own at.handle delivery.now.id)
        (puts at.conn.0 (unbound_put t at.conn.0 at.own at.handle (claimed_id t at.conn.0 at.own at.handle delivery.now.id) (consumer_for t at.conn.0 at.own at.handle delivery.now row))
        (with_bound (fresh_bound t at.conn.0 at.own at.handle delivery.now row payload (link t at.conn.0 at.own at.handle)) t)))) }
{
    let claimed = claimed_id(state, at, delivery.id);
    if !may_pass(state.is_durable(at), claimed, row) {
        drop(payload);
        let_down(state, id, at, claimed)?;
        return Ok(());
    }
    let Some(from) = state.attachment(at) else {
        drop(payload);
        let_down(state, id, at, claimed)?;
        return Ok(());
    };
    let format = delivery.format.unwrap_or(0);
    bind(state, id, from, known, claimed, row, format, payload)?;
    Ok(())
}

/// A resumed delivery joins a row: from now on the row's outcome is reported to it.
fn join(state: &mut State, at: LinkPlace, delivery: u32, row: &Row) -> Result<(), AllocError>
    ensures { OnOk result ((t : List Entry) → TablesFit state.old t → TablesFit state.new (with_bound (joined_on t at.conn.0 at.own at.handle delivery row.now (link t at.conn.0 at.own at.handle)) t)) }
{
    match state.attachment(at) {
        None => Ok(()),
        Some(link) => {
            let holding = Holding::Resumed(Origin { link, id: delivery });
            state.join(holding, row.number, row.outcome.as_ref())
        }
    }
}

/// A whole delivery that is resumed: it joins its row, if its producer hasn't settled it and it has one; else it is ignored.
fn pass_resumed(
    state: &mut State,
    id: &RouterId,
    book: &Book,
    at: LinkPlace,
    claimed: Option<u32>,
) -> Result<(), AllocError>
    ensures { OnOk result ((t : List Entry) → TablesFit state.old t → TablesFit state.new (puts at.conn.0 (resumed_put book.now t at.conn.0 at.own at.handle claimed)
        (with_bound (resumed_bound book.now t at.conn.0 at.own at.handle claimed (link t at.conn.0 at.own at.handle)) t))) }
{
    let Some(delivery) = claimed else {
        return Ok(());
    };
    match row_under(state, book, at.conn.0, at.own, delivery) {
        None => ignore(state, id, at, claimed),
        Some(row) => join(state, at, delivery, row),
    }
}

/// A whole delivery: one that is resumed joins its row or is ignored.
fn pass_whole(
    state: &mut State,
    id: &RouterId,
    book: &Book,
    at: LinkPlace,
    delivery: &Delivery,
    row: Option<RowNumber>,
    known: Option<Attachment>,
    payload: Bytes,
) -> Result<(), AllocError>
    ensures { OnOk result ((t : List Entry) → IsChosen t (link t at.conn.0 at.own at.handle) known → TablesFit state.old t → TablesFit state.new (whole_copied t at.conn.0 at.own at.handle delivery.now payload
        (puts at.conn.0 (whole_put book.now t at.conn.0 at.own at.handle delivery.now row) (with_bound (whole_bound book.now t at.conn.0 at.own at.handle delivery.now row payload) t)))) }
{
    if delivery.resume {
        drop(payload);
        let claimed = claimed_id(state, at, delivery.id);
        pass_resumed(state, id, book, at, claimed)?;
        return Ok(());
    }
    pass_fresh(state, id, at, delivery, row, known, payload)?;
    Ok(())
}

/// Handles what a transfer that is taken makes of its delivery, by the book after the event's acts: a whole delivery is bound to a consumer of its
/// address, with its row if it has one, or copied for each, or let down; one that is resumed joins its row, or is ignored; one that is too large detaches
/// its link (AMQP 1.0 part 2, sections 2.6.12, 2.6.13, 2.7.3 and 2.7.5). If its consumer was chosen before (`State::consumer_for`), it is `known`.
pub fn take_part(
    state: &mut State,
    id: &RouterId,
    book: &Book,
    at: LinkPlace,
    row: Option<RowNumber>,
    known: Option<Attachment>,
    part: Option<Part>,
) -> Result<(), AllocError>
    ensures { OnOk result ((t : List Entry) → IsChosen t (link t at.conn.0 at.own at.handle) known → TablesFit state.old t → TablesFit state.new (given_after book.now t at.conn.0 at.own at.handle row part)) }
{
    match part {
        None => {}
        Some(Part::Whole(delivery, payload)) => {
            pass_whole(state, id, book, at, &delivery, row, known, payload)?;
        }
        Some(Part::TooLarge) => {
            let_go(state, id, at, Condition::MessageSizeExceeded)?;
        }
        Some(Part::More) => {}
        Some(Part::Aborted) => {}
        Some(Part::BeyondCredit) => {}
    }
    Ok(())
}

/// The disposition in an item.
pub fn disposition_in(item: &Item) -> Option<&Disposition>
    ensures { option_map (λ x. x.now) result ≡ disposition_in item.now }
{
    match item {
        Item::Frame { perf, .. } => disposition_of(perf),
        _ => None,
    }
}

/// The disposition in a performative.
fn disposition_of(perf: &Perf) -> Option<&Disposition>
    ensures { option_map (λ x. x.now) result ≡ disposition_of perf.now }
{
    match perf {
        Perf::Disposition(disposition) => Some(disposition),
        _ => None,
    }
}

/// The last delivery that a disposition names.
pub fn last_of(disposition: &Disposition) -> u32
    ensures { result ≡ last_of disposition.now }
{
    disposition.last.unwrap_or(disposition.first)
}

/// The state, if it is an outcome.
fn terminal(state: &Option<DeliveryState>) -> Option<&DeliveryState>
    ensures { option_map (λ s. s.now) result ≡ terminal state.now }
{
    match state {
        None => None,
        Some(DeliveryState::Received(_)) => None,
        Some(DeliveryState::Other(_)) => None,
        Some(outcome) => Some(outcome),
    }
}

/// Answers deliveries, each settled with this outcome.
fn settle_each(
    state: &mut State,
    id: &RouterId,
    conn: u64,
    own: u16,
    ids: &[u32],
    outcome: &DeliveryState,
) -> Result<(), AllocError>
    ensures { OnOk result ((t : List Entry) → TablesFit state.old t → TablesFit state.new (puts conn (map (λ n. outcome_item own Sender n true outcome.now) ids.now) t)) }
{
    for delivery in ids {
        put_outcome(state, id, conn, own, Role::Sender, *delivery, true, outcome)?;
    }
    Ok(())
}

/// Answers the deliveries that a disposition decides, each settled with its outcome (AMQP 1.0 part 2, sections 2.6.12 and 2.7.6).
pub fn settle(
    state: &mut State,
    id: &RouterId,
    conn: u64,
    own: u16,
    ids: &[u32],
    disposition: &Disposition,
) -> Result<(), AllocError>
    ensures { OnOk result ((t : List Entry) → TablesFit state.old t → TablesFit state.new (puts conn (settled_answers own (terminal disposition.now.state) ids.now) t)) }
{
    match terminal(&disposition.state) {
        None => {}
        Some(outcome) => settle_each(state, id, conn, own, ids, outcome)?,
    }
    Ok(())
}

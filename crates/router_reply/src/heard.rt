//! An event is handled before anything is put: what its answer needs is kept.
ghost use Rattle.std.specs.Prelude.{◌≡◌, ◌∷◌, ℕ, List, IfOk, OnOk, true, false};
ghost use Rattle.router_trace.specs.Trace.{Entry, did, puts_of};
ghost use Rattle.router_trace.specs.Deliveries.{acts_found, ended_first, giving, giving_of};
ghost use Rattle.router_trace.specs.Refusing.{refuses};
ghost use Rattle.router_trace.specs.declared.event.Event.TheVariants as event;
ghost use Rattle.router_state.specs.Tables.{TablesFit, TablesAt, TablesFind, beats};
ghost use Rattle.router_reply.specs.Heard.{ids_found, ItemHeard, IsHeard};
ghost use Rattle.reply_rows.specs.Planning.{IsChange, IsSession};

use amqp_link::Part;
use amqp_model::Item;
use reply_rows::{Answer, Plan};
use reply_transfers::{disposition_in, last_of};
use router_state::State;
use router_trace::{ConnectionId, Event, Outgoing};
use std::alloc::{AllocError, Global};

/// What is kept of an event that was handled, for its answer.
#[derive(Drop)]
pub struct Heard {
    /// What a transfer made of its delivery.
    pub part: Option<Part>,
    /// The deliveries that a disposition decided without settling them, by id.
    pub ids: Vec<u32>,
    /// The heartbeats that a tick made due.
    pub beats: Vec<Outgoing>,
}

impl Heard {
    /// Nothing.
    pub fn nothing(alloc: Global) -> Heard {
        Heard {
            part: None,
            ids: Vec::new(alloc),
            beats: Vec::new(alloc),
        }
    }
}

/// The deliveries that an item's disposition decides without settling them, if its answer says that they are answered.
fn ids_in(state: &State, conn: u64, item: &Item, answer: &Answer) -> Result<Vec<u32>, AllocError>
    ensures { IfOk result (λ ids. (t : List Entry) → TablesFind state.now t → ids_found t conn item.now answer.now ids.items) }
{
    let Answer::Settle { own } = answer else {
        return Ok(Vec::new(state.alloc()));
    };
    match disposition_in(item) {
        None => Ok(Vec::new(state.alloc())),
        Some(disposition) => { state.open_ids(conn, *own, disposition.first, last_of(disposition)) }
    }
}

/// Handles an item of an event that was decided so; what it changes at once is done.
fn hear_item(
    state: &mut State,
    conn: ConnectionId,
    item: &Item,
    plan: &mut Plan,
    heard: &mut Heard,
) -> Result<(), AllocError>
    ensures plan { plan.new ≡ record plan.old { change = plan.new.change } }
    ensures heard { OnOk result ((t : List Entry) (ends : List ℕ) → TablesAt state.old t (event.Item conn item.now) ends
        → IsSession t (event.Item conn item.now) plan.old.own → ItemHeard t conn item.now plan.old.answer heard.new) }
    ensures fits { OnOk result ((t : List Entry) → TablesAt state.old t (event.Item conn item.now) plan.old.ends.items
        → IsSession t (event.Item conn item.now) plan.old.own → IsChange plan.old.ends.items (event.Item conn item.now) plan.old.own plan.old.change
        → ended_first t ≡ plan.old.ends.items
        → giving item.now plan.old.acts.items ≡ giving item.now (acts_found t) → TablesFit state.new (did (event.Item conn item.now) ∷ t)) }
{
    heard.ids = ids_in(state, conn.0, item, &plan.answer)?;
    let change = plan.change.take();
    heard.part = state.hear(conn, plan.own, change, item, &plan.ends, &plan.acts)?;
    Ok(())
}

/// Handles a tick: the clock moves to this moment.
fn hear_tick(state: &mut State, moment: u64, heard: &mut Heard) -> Result<(), AllocError>
    ensures heard { OnOk result ((t : List Entry) (ends : List ℕ) → TablesAt state.old t (event.Tick moment) ends → puts_of heard.new.beats.items ≡ beats t (event.Tick moment) moment) }
    ensures fits { OnOk result ((t : List Entry) (ends : List ℕ) → TablesAt state.old t (event.Tick moment) ends → TablesFit state.new (did (event.Tick moment) ∷ t)) }
{
    heard.beats = state.beats(moment)?;
    state.tick(moment);
    Ok(())
}

/// Handles an event that was decided so (`decide`), and puts nothing: its connection, session, link and deliveries are as they are after it. Fills in what
/// its answer needs; the fields of `heard` that such an event doesn't fill stay as they were. What the plan has of a change at once is done, and is no
/// longer in it.
///
/// # Errors
///
/// `AllocError` if memory was refused; the tables' contents are unspecified then.
pub fn hear(
    state: &mut State,
    event: &Event,
    plan: &mut Plan,
    heard: &mut Heard,
) -> Result<(), AllocError>
    ensures plan { plan.new ≡ record plan.old { change = plan.new.change } }
    ensures heard { OnOk result ((t : List Entry) (ends : List ℕ) → TablesAt state.old t event.now ends
        → IsSession t event.now plan.old.own → IsHeard t event.now plan.old.answer heard.new) }
    ensures fits { OnOk result ((t : List Entry) → TablesAt state.old t event.now plan.old.ends.items
        → IsSession t event.now plan.old.own → IsChange plan.old.ends.items event.now plan.old.own plan.old.change
        → ended_first t ≡ plan.old.ends.items → refuses t event.now ≡ false
        → giving_of event.now plan.old.acts.items ≡ giving_of event.now (acts_found t) → TablesFit state.new (did event.now ∷ t)) }
{
    match event {
        Event::Up(conn, peer) => state.up(*conn, peer),
        Event::Item(conn, item) => hear_item(state, *conn, item, plan, heard),
        Event::Down(conn) => state.down(*conn),
        Event::Tick(moment) => hear_tick(state, *moment, heard),
        Event::Start => {
            state.start();
            Ok(())
        }
    }
}

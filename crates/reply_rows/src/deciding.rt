//! An event is decided: what it is answered with and what it does to the book of durable deliveries, before any of it is
//! done. A frame is taken apart here, once: what the router does with a performative stands in the module of that name.
ghost use Rattle.std.specs.Prelude.{◌≡◌, ◌++◌, ℕ, Bool, [], List, None, map, option_map, IfOk, OnOk};
ghost use Rattle.amqp_model.specs.Parts.{attach_of};
ghost use Rattle.reply_rows.specs.declared.answer.Answer.TheVariants as reply;
ghost use Rattle.router_trace.specs.Trace.{Entry};
ghost use Rattle.router_trace.specs.Connection.{due, phase_found};
ghost use Rattle.router_trace.specs.declared.event.Event.TheVariants as event;
ghost use Rattle.router_state.specs.Finding.{IsFound};
ghost use Rattle.router_state.specs.Tables.{TablesFind, TablesAt};
ghost use Rattle.reply_rows.specs.Booking.{TakesFound, TakesIn};
ghost use Rattle.state_deliveries.specs.Deciding.{decided_rows};
ghost use Rattle.journal_store.specs.Acting.{event_acts};
ghost use Rattle.journal_store.specs.Store.{IsSuited, Writable, book_of};
ghost use Rattle.reply_rows.specs.Acts.{live_answer, planned_acts};
ghost use Rattle.reply_rows.specs.Deciding.{as_kept, listed, lost, stolen_from, stolen_for, stolen_in, decided};
ghost use Rattle.reply_rows.specs.Deciding.{forgotten, forgotten_by, forgotten_in, terminus_by, terminus_in};
ghost use Rattle.reply_rows.specs.Deciding.{terminus_of_event};
ghost use Rattle.reply_rows.specs.Doing.{TakesUp};
ghost use Rattle.reply_rows.specs.Planning.{IsChange, IsPlan, IsPlanAs, IsSession, NoItem};
ghost use Rattle.reply_rows.specs.Resuming.{Resumes, attach_within, key_by, key_in};

use crate::answer::Answer;
use crate::answering::item_answer;
use crate::changes::{changed_rows, changes_lost, decided, ended_by, joined};
use crate::doings::Doings;
use crate::plan::Plan;
use crate::{attach, detach, disposition, transfer};
use amqp_conn::Conn;
use amqp_model::{Item, Perf};
use book_core::Book;
use book_model::{Act, Decision, RowNumber};
use disk_core::Twin;
use journal_store::{Store, TerminusAct};
use router_state::{Found, State, none_if_ended};
use router_trace::{ConnectionId, Event};
use state_deliveries::Change;
use state_links::FoundLink;
use std::alloc::AllocError;

/// What a performative with this answer does, on its session, but for a SASL frame; it finds this link on its handle.
fn done_by(
    state: &State,
    book: &Book,
    conn: u64,
    own: Option<u16>,
    link: &FoundLink<'_>,
    perf: &Perf,
    answer: &Answer,
) -> Result<Doings, AllocError>
    ensures stolen { IfOk result (λ does. (t : List Entry) (on : ℕ) → TablesFind state.now t
        → answer.now ≡ reply.Attach on → stolen_from does.stolen ≡ stolen_in t conn perf.now) }
    ensures forgotten { IfOk result (λ does. (t : List Entry) → TablesFind state.now t
        → TakesIn t conn perf.now link.now answer.now
        → does.forgotten.items ≡ forgotten_by book.now t conn own perf.now answer.now) }
    ensures terminus { IfOk result (λ does. (t : List Entry) → TablesFind state.now t
        → does.terminus ≡ terminus_by book.now t conn perf.now answer.now) }
    ensures resumed { IfOk result (λ does. (t : List Entry) → TablesFind state.now t
        → TakesUp book.now (attach_of perf.now) (key_by t conn perf.now answer.now) does) }
{
    match perf {
        Perf::Attach(attach) => attach::does(state, book, conn, attach.as_ref(), answer),
        Perf::Transfer(transfer) => transfer::does(state.alloc(), book, link, transfer, answer),
        Perf::Disposition(disposition) => disposition::does(state, book, conn, own, disposition),
        Perf::Detach(_) => detach::does(state, book, conn, answer),
        _ => Ok(Doings::nothing(state.alloc())),
    }
}

/// What an item with this answer does, on its session; it finds this link on its handle.
fn done_in(
    state: &State,
    book: &Book,
    conn: u64,
    own: Option<u16>,
    link: &FoundLink<'_>,
    item: &Item,
    answer: &Answer,
) -> Result<Doings, AllocError>
    ensures stolen { IfOk result (λ does. (t : List Entry) (on : ℕ) → TablesFind state.now t
        → answer.now ≡ reply.Attach on → stolen_from does.stolen ≡ stolen_for t conn item.now) }
    ensures forgotten { IfOk result (λ does. (t : List Entry) → TablesFind state.now t
        → TakesFound t conn item.now link.now answer.now
        → does.forgotten.items ≡ forgotten_in book.now t conn own item.now answer.now) }
    ensures terminus { IfOk result (λ does. (t : List Entry) → TablesFind state.now t
        → does.terminus ≡ terminus_in book.now t conn item.now answer.now) }
    ensures resumed { IfOk result (λ does. (t : List Entry) → TablesFind state.now t
        → TakesUp book.now (attach_within item.now) (key_in t conn item.now answer.now) does) }
{
    match item {
        Item::Frame { sasl, perf, .. } => {
            let does = done_by(state, book, conn, own, link, perf, answer)?;
            if *sasl {
                return Ok(does.without_rows(state.alloc()));
            }
            Ok(does)
        }
        _ => Ok(Doings::nothing(state.alloc())),
    }
}

/// All that an item with this answer does, by an event that ends these connections first; the item finds this link on its
/// handle, and its channel stands for the router's channel `own`.
fn done_at(
    state: &State,
    book: &Book,
    ends: &[u64],
    conn: ConnectionId,
    own: Option<u16>,
    link: &FoundLink<'_>,
    item: &Item,
    answer: &Answer,
) -> Result<Doings, AllocError>
    ensures decided { IfOk result (λ does. (t : List Entry) → TablesAt state.now t (event.Item conn item.now) ends.now
        → IsSession t (event.Item conn item.now) own
        → does.decided.items ≡ decided book.now t (event.Item conn item.now) answer.now) }
    ensures forgotten { IfOk result (λ does. (t : List Entry)
        → TablesAt state.now t (event.Item conn item.now) ends.now
        → IsSession t (event.Item conn item.now) own → TakesFound t conn.0 item.now link.now answer.now
        → does.forgotten.items ≡ forgotten book.now t (event.Item conn item.now) answer.now) }
    ensures terminus { IfOk result (λ does. (t : List Entry) → TablesAt state.now t (event.Item conn item.now) ends.now
        → does.terminus ≡ terminus_of_event book.now t (event.Item conn item.now) answer.now) }
    ensures resumed { IfOk result (λ does. (t : List Entry) → TablesAt state.now t (event.Item conn item.now) ends.now
        → Resumes book.now t (event.Item conn item.now) answer.now does.resumption) }
    ensures change { IfOk result (λ does. IsChange ends.now (event.Item conn item.now) own does.change) }
{
    let here = none_if_ended(ends, conn.0, own);
    let does = done_in(state, book, conn.0, here, link, item, answer)?;
    let change = Change::of_item(conn.0, here, item)?;
    let ended = ended_by(conn.0, answer, does.stolen);
    let (decided, change) = decided(state, change, ends, ended, does.decided)?;
    let forgotten = joined(does.forgotten, does.lacking)?;
    Ok(Doings {
        stolen: does.stolen,
        change,
        decided,
        forgotten,
        lacking: Vec::new(state.alloc()),
        terminus: does.terminus,
        resumption: does.resumption,
    })
}

/// The answer to an item that finds this, on a connection in this phase, as an event finds it; nothing if the connection
/// isn't live then.
fn answered(
    state: &State,
    book: &Book,
    full: bool,
    phase: Option<Conn>,
    conn: u64,
    found: &Found<'_>,
    item: &Item,
) -> Result<Answer, AllocError>
    ensures { IfOk result (λ answer. (t : List Entry) → TablesFind state.now t → IsFound t conn item.now found.now
        → answer ≡ live_answer full book.now t conn item.now phase) }
{
    match phase {
        Some(phase) => item_answer(state, book, full, conn, phase, found, item),
        None => Ok(Answer::Nothing),
    }
}

/// Decides an item of an event that ends these connections first.
fn decide_item<T: Twin>(
    state: &State,
    store: &Store<T>,
    full: bool,
    conn: ConnectionId,
    item: &Item,
    plan: &mut Plan,
) -> Result<(), AllocError>
    ensures ends { plan.new.ends ≡ plan.old.ends }
    ensures plan { OnOk result ((t : List Entry) → TablesAt state.now t (event.Item conn item.now) plan.old.ends.items
        → plan.old.phase ≡ phase_found t (event.Item conn item.now)
        → IsPlanAs full plan.old.ends.items (book_of store.now) t (event.Item conn item.now) plan.new) }
    ensures phase { plan.new.phase ≡ plan.old.phase }
    ensures writable { OnOk result (Writable (book_of store.now) plan.new.acts.items) }
{
    let book = store.book();
    let found = state.find(conn.0, item);
    let answer = answered(state, book, full, plan.phase, conn.0, &found, item)?;
    let does = done_at(
        state,
        book,
        &plan.ends,
        conn,
        found.own,
        &found.link,
        item,
        &answer,
    )?;
    plan.full = full;
    plan.own = found.own;
    plan.answer = answer;
    plan.change = does.change;
    plan.consumer = None;
    plan.resumption = does.resumption;
    plan.acts = store.event_acts(state.alloc(), does.decided, does.forgotten, does.terminus)?;
    Ok(())
}

/// The acts of an event that is no item: it loses a connection, if it is the loss of one, and those that it ends first.
fn lost_acts<T: Twin>(
    state: &State,
    store: &Store<T>,
    down: Option<u64>,
    ends: &[u64],
) -> Result<Vec<Act>, AllocError>
    ensures acts { IfOk result (λ acts. (t : List Entry) → TablesFind state.now t
        → acts.items ≡ event_acts (book_of store.now) (map as_kept (decided_rows t (listed (option_map lost down) ++ map lost ends.now)) ++ []) [] None) }
    ensures writable { IfOk result (λ acts. Writable (book_of store.now) acts.items) }
{
    let changes = changes_lost(state.alloc(), down, ends)?;
    let rows = changed_rows(state, &changes)?;
    let decided = joined(rows, Vec::new(state.alloc()))?;
    store.event_acts(state.alloc(), decided, Vec::new(state.alloc()), None)
}

/// The acts of an event that ends these connections first, if it is no item; a start decides the rows whose consumers are lost.
fn acts_without_item<T: Twin>(
    state: &State,
    store: &Store<T>,
    event: &Event,
    ends: &[u64],
) -> Result<Vec<Act>, AllocError>
    ensures acts { IfOk result (λ acts. (t : List Entry) (full : Bool) → TablesFind state.now t → ends.now ≡ due t event.now
        → NoItem event.now → acts.items ≡ planned_acts full (book_of store.now) t event.now) }
    ensures writable { IfOk result (λ acts. Writable (book_of store.now) acts.items) }
{
    match event {
        Event::Start => store.start_acts(state.alloc()),
        Event::Down(conn) => lost_acts(state, store, Some(conn.0), ends),
        _ => lost_acts(state, store, None, ends),
    }
}

/// Decides an event that finds the journal full, or one that finds room.
fn decide_as<T: Twin>(
    state: &State,
    store: &Store<T>,
    full: bool,
    event: &Event,
    plan: &mut Plan,
) -> Result<(), AllocError>
    ensures ends { plan.new.ends ≡ plan.old.ends }
    ensures phase { plan.new.phase ≡ plan.old.phase }
    ensures plan { OnOk result ((t : List Entry) → TablesAt state.now t event.now plan.old.ends.items
        → plan.old.phase ≡ phase_found t event.now → IsPlanAs full plan.old.ends.items (book_of store.now) t event.now plan.new) }
    ensures writable { OnOk result (Writable (book_of store.now) plan.new.acts.items) }
{
    if let Event::Item(conn, item) = event {
        return decide_item(state, store, full, *conn, item, plan);
    }
    plan.full = full;
    plan.own = None;
    plan.answer = Answer::Nothing;
    plan.change = None;
    plan.consumer = None;
    plan.resumption = None;
    plan.acts = acts_without_item(state, store, event, &plan.ends)?;
    Ok(())
}

/// Decides an event that isn't refused: what its item is answered with, by the tables as the event finds them and by the
/// book, what the event does to the book but for an admission, and what it takes up again. If there is no room for what it
/// would do then, the event finds the journal full, and what it does to a full one is decided. The plan has the
/// connections that the event's turn ended because their outboxes were full (`State::turn`), and the phase of its item's
/// connection as the event finds it (`state_connections::phase_found`); all else is filled in.
///
/// # Errors
///
/// `AllocError` if memory was refused. What is filled in is unspecified then.
pub fn decide<T: Twin>(
    state: &State,
    store: &Store<T>,
    event: &Event,
    plan: &mut Plan,
) -> Result<(), AllocError>
    ensures ends { plan.new.ends ≡ plan.old.ends }
    ensures phase { plan.new.phase ≡ plan.old.phase }
    ensures plan { OnOk result ((t : List Entry) → TablesAt state.now t event.now plan.old.ends.items
        → plan.old.phase ≡ phase_found t event.now → IsSuited store.now → IsPlan (book_of store.now) t event.now plan.new) }
    ensures writable { OnOk result (Writable (book_of store.now) plan.new.acts.items) }
{
    decide_as(state, store, false, event, plan)?;
    if !store.exceeds(&plan.acts)? {
        return Ok(());
    }
    decide_as(state, store, true, event, plan)
}

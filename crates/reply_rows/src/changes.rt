//! Which rows an event decides: by the changes of deliveries that it brings, and by the map of its attach.
ghost use Rattle.std.specs.Prelude.{◌≡◌, ◌++◌, ◌∷◌, [], List, ℕ, Option, map, option_map, is_some, IfOk, OnOk};
ghost use Rattle.amqp_model.specs.declared.item.Item.{Item};
ghost use Rattle.router_trace.specs.Trace.{Entry};
ghost use Rattle.reply_rows.specs.declared.answer.Answer.TheVariants as reply;
ghost use Rattle.router_state.specs.Tables.{TablesFind};
ghost use Rattle.state_deliveries.specs.Deciding.{decided_rows};
ghost use Rattle.state_deliveries.specs.declared.change.Change.{Change};
ghost use Rattle.reply_rows.specs.Deciding.{lost, listed, stolen_from, stolen_for, ended_by, as_kept};

use crate::answer::Answer;
use amqp_model::Item;
use book_model::Decision;
use reply_frames::kept_outcome;
use router_state::State;
use router_trace::Attachment;
use state_deliveries::{Change, Gone};
use std::alloc::{AllocError, Global};

/// Adds to a list.
pub(crate) fn add<T: Drop>(list: &mut Vec<T>, one: T) -> Result<(), AllocError>
    ensures { OnOk result (list.new.items ≡ list.old.items ++ one ∷ []) }
{
    if let Err(left) = list.push(one) {
        drop(left);
        return Err(AllocError);
    }
    Ok(())
}

/// The links of these connections, that are lost.
fn add_lost(changes: &mut Vec<Change>, ends: &[u64]) -> Result<(), AllocError>
    ensures { OnOk result (changes.new.items ≡ changes.old.items ++ map lost ends.now) }
{
    for conn in ends {
        add(changes, Change::lost(*conn))?;
    }
    Ok(())
}

/// The change that ends the older link with the key of one that is taken.
fn steal(older: Option<Attachment>) -> Option<Change>
    ensures { stolen_from older ≡ listed result }
{
    match older {
        None => None,
        Some(older) => Some(Change::Ends {
            gone: Gone::Link {
                conn: older.conn.0,
                own: older.channel,
                handle: older.handle,
            },
            closed: false,
        }),
    }
}

/// The links that an answer ends; `stolen` is the older link that it ends if it takes an attach.
pub(crate) fn ended_by(conn: u64, answer: &Answer, stolen: Option<Attachment>) -> Option<Change>
    ensures { (t : List Entry) (item : Item) → ((on : ℕ) → answer.now ≡ reply.Attach on
        → stolen_from stolen ≡ stolen_for t conn item)
        → listed result ≡ ended_by t conn item answer.now }
{
    match answer {
        Answer::Detach {
            own,
            handle,
            closed,
            error: _error,
        } => Some(Change::Ends {
            gone: Gone::Link {
                conn,
                own: *own,
                handle: *handle,
            },
            closed: *closed,
        }),
        Answer::End { own, error: _error } => Some(Change::Ends {
            gone: Gone::Session { conn, own: *own },
            closed: false,
        }),
        Answer::Close => Some(Change::lost(conn)),
        Answer::CloseWith(_) => Some(Change::lost(conn)),
        Answer::Attach { own: _own } => steal(stolen),
        _ => None,
    }
}

/// Adds a change, if there is one.
fn add_some(changes: &mut Vec<Change>, change: Option<Change>) -> Result<(), AllocError>
    ensures { OnOk result (changes.new.items ≡ changes.old.items ++ listed change) }
{
    match change {
        None => Ok(()),
        Some(change) => add(changes, change),
    }
}

/// Changes of deliveries: that by an item, if there is one, those by the loss of these connections, and that by an
/// answer.
fn changes(
    alloc: Global,
    first: Option<Change>,
    ends: &[u64],
    ended: Option<Change>,
) -> Result<Vec<Change>, AllocError>
    ensures { IfOk result (λ changes. changes.items ≡ listed first ++ map lost ends.now ++ listed ended) }
{
    let mut changes = Vec::new(alloc);
    add_some(&mut changes, first)?;
    add_lost(&mut changes, ends)?;
    add_some(&mut changes, ended)?;
    Ok(changes)
}

/// The changes of deliveries by the loss of a connection, if there is one, and of these.
pub(crate) fn changes_lost(
    alloc: Global,
    down: Option<u64>,
    ends: &[u64],
) -> Result<Vec<Change>, AllocError>
    ensures { IfOk result (λ changes. changes.items ≡ listed (option_map lost down) ++ map lost ends.now) }
{
    let mut changes = Vec::new(alloc);
    if let Some(conn) = down {
        add(&mut changes, Change::lost(conn))?;
    }
    add_lost(&mut changes, ends)?;
    Ok(changes)
}

/// A decision with its outcome as the router keeps it.
fn as_kept(alloc: Global, decision: &Decision) -> Result<Decision, AllocError>
    ensures { IfOk result (λ kept. kept ≡ as_kept decision.now) }
{
    Ok(Decision {
        row: decision.row,
        outcome: kept_outcome(alloc, &decision.outcome)?,
    })
}

/// A list, then another.
pub(crate) fn joined<T: Drop>(list: Vec<T>, more: Vec<T>) -> Result<Vec<T>, AllocError>
    ensures { IfOk result (λ all. all.items ≡ list.items ++ more.items) }
{
    let mut all = list;
    let mut more = more;
    all.append(&mut more)?;
    Ok(all)
}

/// Decisions with their outcomes as the router keeps them.
fn all_kept(alloc: Global, rows: &[Decision]) -> Result<Vec<Decision>, AllocError>
    ensures { IfOk result (λ kept. kept.items ≡ map as_kept rows.now) }
{
    let mut kept = Vec::new(alloc);
    for decision in rows {
        let one = as_kept(alloc, decision)?;
        add(&mut kept, one)?;
    }
    Ok(kept)
}

/// The rows that changes of deliveries decide, each with its outcome as the router keeps it: `change`, that by an item, if
/// there is one, those by the loss of these connections, and `ended`, that by an answer; then `by_map`, those that the map
/// of an attach decides. The change by the item is given back.
///
/// # Errors
///
/// `AllocError` if memory was refused.
pub(crate) fn decided(
    state: &State,
    change: Option<Change>,
    ends: &[u64],
    ended: Option<Change>,
    by_map: Vec<Decision>,
) -> Result<(Vec<Decision>, Option<Change>), AllocError>
    ensures rows { IfOk result (λ made. (t : List Entry) → TablesFind state.now t → made.0.items
        ≡ map as_kept (decided_rows t (listed change ++ map lost ends.now ++ listed ended)) ++ by_map.items) }
    ensures change { IfOk result (λ made. made.1 ≡ change) }
{
    let is_first = change.is_some();
    let Ok(changes) = changes(state.alloc(), change, ends, ended) else {
        drop(by_map);
        return Err(AllocError);
    };
    let Ok(rows) = changed_rows(state, &changes) else {
        drop(by_map);
        drop(changes);
        return Err(AllocError);
    };
    let Ok(rows) = joined(rows, by_map) else {
        drop(changes);
        return Err(AllocError);
    };
    Ok((rows, first_of(is_first, changes)))
}

/// The first change of a list, if it begins with one that was given.
fn first_of(is_first: bool, changes: Vec<Change>) -> Option<Change>
    ensures { (first : Option Change) (more last : List Change) → is_first ≡ is_some first
        → changes.items ≡ listed first ++ more ++ last → result ≡ first }
{
    if !is_first {
        return None;
    }
    changes.into_iter().next()
}

/// The rows that these changes of deliveries decide, each with its outcome as the router keeps it.
pub(crate) fn changed_rows(state: &State, changes: &[Change]) -> Result<Vec<Decision>, AllocError>
    ensures { IfOk result (λ rows. (t : List Entry) → TablesFind state.now t
        → rows.items ≡ map as_kept (decided_rows t changes.now)) }
{
    let rows = state.decided_rows(changes)?;
    all_kept(state.alloc(), &rows)
}

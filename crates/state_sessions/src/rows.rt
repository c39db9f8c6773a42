//! The sessions of all connections, without the marks.
ghost use Rattle.std.specs.Prelude.{◌≡◌, ◌==◌, ◌∷◌, List, ℕ, Bool, None, true, false, is_some, if◌then◌else◌, OnOk, IfOk};
ghost use Rattle.state_collections.specs.NumberMap.{at_number};
ghost use Rattle.router_trace.specs.Trace.{Entry, Out, did};
ghost use Rattle.state_sessions.specs.Windows.{is_narrow_window, is_narrow_at};
ghost use Rattle.state_sessions.specs.Fits.{RowsFit, SameRows, is_begin, theirs_in, window_in};
ghost use Rattle.router_trace.specs.declared.event.ConnectionId.{ConnectionId as AConnection};
ghost use Rattle.router_trace.specs.declared.event.Event.TheVariants as event;
ghost use Rattle.amqp_model.specs.declared.item.Item.TheVariants as item;
ghost use Rattle.amqp_model.specs.declared.perf.Perf.TheVariants as perf;
ghost use Rattle.amqp_model.specs.declared.perf.Transfer.{Transfer};
ghost use Rattle.amqp_model.specs.declared.perf.End.{End};

use crate::connection::ConnectionSessions;
use amqp_model::{Begin, Flow, Perf};
use router_trace::ConnectionId;
use state_collections::NumberMap;
use std::alloc::{AllocError, Global};

/// A performative was received on a connection. Returns whether its session's window is narrow.
pub fn hear(
    rows: &mut NumberMap<ConnectionSessions>,
    conn: ConnectionId,
    channel: u16,
    perf: &Perf,
) -> Result<bool, AllocError>
    ensures fits { OnOk result ((t : List Entry) (payload : List ℕ) → (if is_begin perf.now then is_some (at_number rows.old conn.0) else true) ≡ true → RowsFit (at_number rows.old) t
        → RowsFit (at_number rows.new) (did (event.Item conn (item.Frame false channel perf.now payload)) ∷ t)) }
    ensures others { OnOk result ((c o : ℕ) → (conn.0 == c) ≡ false → window_in (at_number rows.new c) o ≡ window_in (at_number rows.old c) o) }
    ensures marks { IfOk result (λ narrow. narrow ≡ false → (o : ℕ) → is_narrow_window (window_in (at_number rows.old conn.0) o) ≡ false
        → is_narrow_window (window_in (at_number rows.new conn.0) o) ≡ false) }
    ensures narrow { IfOk result (λ narrow. narrow ≡ is_narrow_at (theirs_in (at_number rows.new conn.0) channel) (window_in (at_number rows.new conn.0))) }
{
    match rows.get_mut(conn.0) {
        None => Ok(false),
        Some(row) => row.hear(channel, perf),
    }
}

/// The router begins a session. Returns whether its window is narrow.
pub fn begin(
    rows: &mut NumberMap<ConnectionSessions>,
    conn: u64,
    own: u16,
    begin: &Begin,
) -> Result<bool, AllocError>
    ensures fits { OnOk result ((t : List Entry) (sasl : Bool) (payload : List ℕ) → RowsFit (at_number rows.old) t
        → RowsFit (at_number rows.new) (Out conn (item.Frame sasl own (perf.Begin begin.now) payload) ∷ t)) }
    ensures others { OnOk result ((c o : ℕ) → (conn == c) ≡ false → window_in (at_number rows.new c) o ≡ window_in (at_number rows.old c) o) }
    ensures windows { OnOk result ((o : ℕ) → (own == o) ≡ false → window_in (at_number rows.new conn) o ≡ window_in (at_number rows.old conn) o) }
    ensures narrow { IfOk result (λ narrow. narrow ≡ is_narrow_window (window_in (at_number rows.new conn) own)) }
{
    match rows.get_mut(conn) {
        None => Err(AllocError),
        Some(row) => row.begin(own, begin),
    }
}

/// The router sends a flow with its window. Returns whether it is narrow.
pub fn tell(rows: &mut NumberMap<ConnectionSessions>, conn: u64, own: u16, flow: &Flow) -> bool
    ensures fits { (t : List Entry) (sasl : Bool) (payload : List ℕ) → RowsFit (at_number rows.old) t
        → RowsFit (at_number rows.new) (Out conn (item.Frame sasl own (perf.Flow flow.now) payload) ∷ t) }
    ensures others { (c o : ℕ) → (conn == c) ≡ false → window_in (at_number rows.new c) o ≡ window_in (at_number rows.old c) o }
    ensures windows { (o : ℕ) → (own == o) ≡ false → window_in (at_number rows.new conn) o ≡ window_in (at_number rows.old conn) o }
    ensures narrow { result ≡ is_narrow_window (window_in (at_number rows.new conn) own) }
{
    match rows.get_mut(conn) {
        None => false,
        Some(row) => row.tell(own, flow),
    }
}

/// The router sends a transfer.
pub fn send(rows: &mut NumberMap<ConnectionSessions>, conn: u64, own: u16)
    ensures fits { (t : List Entry) (sasl : Bool) (payload : List ℕ) (x : Transfer) → RowsFit (at_number rows.old) t
        → RowsFit (at_number rows.new) (Out conn (item.Frame sasl own (perf.Transfer x) payload) ∷ t) }
    ensures windows { (c o : ℕ) → is_narrow_window (window_in (at_number rows.new c) o) ≡ is_narrow_window (window_in (at_number rows.old c) o) }
{
    if let Some(row) = rows.get_mut(conn) {
        row.send(own);
    }
}

/// The router ends a session.
pub fn end(rows: &mut NumberMap<ConnectionSessions>, conn: u64, own: u16)
    ensures fits { (t : List Entry) (sasl : Bool) (payload : List ℕ) (x : End) → RowsFit (at_number rows.old) t
        → RowsFit (at_number rows.new) (Out conn (item.Frame sasl own (perf.End x) payload) ∷ t) }
    ensures windows { (c o : ℕ) → is_narrow_window (window_in (at_number rows.old c) o) ≡ false → is_narrow_window (window_in (at_number rows.new c) o) ≡ false }
{
    if let Some(row) = rows.get_mut(conn) {
        row.end(own);
    }
}

/// Forgets a connection.
pub fn forget(rows: &mut NumberMap<ConnectionSessions>, conn: u64)
    ensures rows { (c : ℕ) → at_number rows.new c ≡ (if conn == c then None else at_number rows.old c) }
    ensures windows { (c o : ℕ) → is_narrow_window (window_in (at_number rows.old c) o) ≡ false → is_narrow_window (window_in (at_number rows.new c) o) ≡ false }
{
    let _ = rows.remove(conn);
}

/// Gives a connection a row if it has none.
pub fn know(
    alloc: Global,
    rows: &mut NumberMap<ConnectionSessions>,
    conn: u64,
) -> Result<(), AllocError>
    ensures same { OnOk result (SameRows (at_number rows.old) (at_number rows.new)) }
    ensures there { OnOk result (is_some (at_number rows.new conn) ≡ true) }
{
    if rows.get(conn).is_some() {
        return Ok(());
    }
    let _ = rows.insert(conn, ConnectionSessions::new(alloc))?;
    Ok(())
}

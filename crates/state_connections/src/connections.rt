//! The table of connections, with their outboxes.
ghost use Rattle.std.specs.Prelude.{◌≡◌, ◌==◌, ◌≤◌, ◌∷◌, ◌++◌, ℕ, List, [], Some, None, length, nat_eq, nat_lt, true, false, not, filter, slice_get, option_map, option_and_then, OnOk, OnErr, IfOk, if◌then◌else◌};
ghost use Rattle.std.specs.Option.{option_copied};
ghost use Rattle.state_collections.specs.NumberMap.{at_number};
ghost use Rattle.router_trace.specs.Trace.{Beginning, Trace};
ghost use Rattle.router_trace.specs.Configuration.{opened};
ghost use Rattle.router_trace.specs.Trace.{Entry, Out, Took, did, newest};
ghost use Rattle.router_trace.specs.Connection.{conn as known, took, standing, is_live, is_full, is_ready, with_item, is_due, has, ended, unless_due, due, phase_before, phase_found};
ghost use Rattle.state_connections.specs.Emptied.{emptied, NoneWaits};
ghost use Rattle.state_connections.specs.Fits.{IsBatch, count, ConnectionsFit, ConnectionsAt};
ghost use Rattle.state_connections.specs.Waiting.{waiting_of};
ghost use Rattle.router_trace.specs.Refusing.{refuses, rises, is_loss};
ghost use Rattle.router_trace.specs.declared.event.Event.TheVariants as event;

use crate::row::{CONNECTIONS, Row, Taken};
use amqp_conn::Conn;
use amqp_model::Item;
use router_trace::{ConnectionId, Event, Peer};
use state_collections::NumberMap;
use std::alloc::{AllocError, Global};

/// The router refuses an event: one about a connection that isn't live, or about a new one whose number doesn't rise.
#[derive(Clone, Copy, Debug, PartialEq, Eq)]
pub struct Refused;

/// The table of connections: those that are live, and those that are over and still have items waiting.
#[derive(Drop)]
pub struct Connections {
    alloc: Global,
    rows: NumberMap<Row>,
    // the live ones, by number
    live: Vec<u64>,
    // the last one that came up
    newest: Option<u64>,
    // true only if no live connection's outbox is full
    roomy: bool,
}

impl Connections {
    /// An empty table.
    pub fn new(alloc: Global) -> Connections
        ensures { (g : Beginning) (below : Trace) → ConnectionsFit result (opened g below) }
    {
        Connections {
            alloc,
            rows: NumberMap::new(alloc, CONNECTIONS),
            live: Vec::new(alloc),
            newest: None,
            roomy: true,
        }
    }

    /// The phase of the connection of an event's item, before the event; none of another event. `Refused` exactly if the event is refused.
    pub fn phase_before(&self, event: &Event) -> Result<Option<Conn>, Refused>
        ensures refused { OnErr result ((t : List Entry) → ConnectionsFit self.now t → refuses t event.now ≡ true) }
        ensures free { OnOk result ((t : List Entry) → ConnectionsFit self.now t → refuses t event.now ≡ false) }
        ensures phase { IfOk result (λ phase. (t : List Entry) → ConnectionsFit self.now t → phase ≡ phase_before t event.now) }
    {
        match event {
            Event::Up(conn, _) => match self.newest {
                Some(newest) if conn.0 <= newest => Err(Refused),
                _ => Ok(None),
            },
            Event::Item(conn, _) => match self.standing(conn.0) {
                None => Err(Refused),
                Some(phase) => Ok(Some(phase)),
            },
            Event::Down(conn) => match self.standing(conn.0) {
                None => Err(Refused),
                Some(_) => Ok(None),
            },
            Event::Tick(_) => Ok(None),
            Event::Start => Ok(None),
        }
    }

    /// The phase of a live connection.
    pub fn standing(&self, conn: u64) -> Option<Conn>
        ensures { result ≡ standing (at_number self.now.rows conn) }
    {
        match self.rows.get(conn) {
            None => None,
            Some(row) => row.standing(),
        }
    }

    /// The live connections, by number.
    pub fn live(&self) -> &[u64]
        ensures { result.now ≡ self.now.live.items }
    {
        &self.live
    }

    /// The phase of a connection, whether live or over.
    pub fn phase(&self, conn: u64) -> Option<Conn>
        ensures { result ≡ option_map (λ v. v.phase) (at_number self.now.rows conn) }
    {
        match self.rows.get(conn) {
            None => None,
            Some(row) => Some(row.phase()),
        }
    }

    /// Whether a connection is ready: an item is waiting in its outbox, or it is over.
    pub fn is_ready(&self, conn: u64) -> bool
        ensures { result ≡ is_ready (at_number self.now.rows conn) }
    {
        match self.rows.get(conn) {
            None => false,
            Some(row) => row.is_ready(),
        }
    }

    /// How many items wait in a connection's outbox.
    pub fn waits(&self, conn: u64) -> usize
        ensures { result ≡ length (waiting_of (at_number self.now.rows conn)) }
    {
        match self.rows.get(conn) {
            None => 0,
            Some(row) => row.waits(),
        }
    }

    /// The item at this place of a connection's outbox, counted from 0 at the front.
    pub fn waiting(&self, conn: u64, place: usize) -> Option<&Item>
        ensures { option_copied result ≡ slice_get (waiting_of (at_number self.now.rows conn)) place }
    {
        match self.rows.get(conn) {
            None => None,
            Some(row) => row.waiting(place),
        }
    }

    /// Whether an event ends a connection because its outbox is full.
    fn is_due(&self, event: &Event, conn: u64) -> bool
        ensures { result ≡ is_due event.now conn (at_number self.now.rows conn) }
    {
        match event {
            Event::Down(lost) => lost.0 != conn && self.is_full(conn),
            _ => self.is_full(conn),
        }
    }

    /// Whether a connection is live and its outbox is full.
    fn is_full(&self, conn: u64) -> bool
        ensures { result ≡ is_full (at_number self.now.rows conn) }
    {
        match self.rows.get(conn) {
            None => false,
            Some(row) => row.is_full(),
        }
    }

    /// The live connections that an event ends because their outboxes are full.
    fn gather(&self, event: &Event) -> Result<Vec<u64>, AllocError>
        ensures { IfOk result (λ gathered. gathered.items ≡ filter (λ k. is_due event.now k (at_number self.now.rows k)) self.now.live.items) }
    {
        let mut gathered = Vec::new(self.alloc);
        for conn in &self.live {
            if self.is_due(event, *conn) {
                match gathered.push(*conn) {
                    Ok(()) => {}
                    Err(_) => return Err(AllocError),
                }
            }
        }
        Ok(gathered)
    }

    /// NumberSet a connection as over.
    fn end(&mut self, conn: u64)
        ensures rows { (c : ℕ) → at_number self.new.rows c ≡ (if conn == c then option_map ended (at_number self.old.rows c) else at_number self.old.rows c) }
        ensures live { self.new.live ≡ self.old.live }
        ensures newest { self.new.newest ≡ self.old.newest }
        ensures roomy { self.new.roomy ≡ self.old.roomy }
    {
        if let Some(row) = self.rows.get_mut(conn) {
            row.end();
        }
    }

    /// NumberSet these connections as over.
    fn end_all(&mut self, ends: &[u64])
        ensures rows { (c : ℕ) → at_number self.new.rows c ≡ unless_due ends.now (at_number self.old.rows) c }
        ensures live { self.new.live.items ≡ filter (λ k. not (has k ends.now)) self.old.live.items }
        ensures last { self.new.newest ≡ self.old.newest }
        ensures roomy { self.new.roomy ≡ self.old.roomy }
    {
        for conn in ends {
            self.end(*conn);
        }
        leave_all(&mut self.live, ends);
    }

    /// Ends the connections that an event ends because their outboxes are full, and returns them by number. The caller has to put
    /// out their closes. If memory is refused, the table's contents are unspecified.
    pub fn turn(&mut self, event: &Event) -> Result<Vec<u64>, AllocError>
        ensures at { OnOk result ((t : List Entry) → ConnectionsFit self.old t → ConnectionsAt self.new t event.now) }
        ensures due { IfOk result (λ ends. (t : List Entry) → ConnectionsFit self.old t → ends.items ≡ due t event.now) }
    {
        if self.roomy {
            return Ok(Vec::new(self.alloc));
        }
        let ends = self.gather(event)?;
        self.end_all(&ends);
        self.roomy = !is_loss(event);
        Ok(ends)
    }

    /// A connection comes up. If memory is refused, the table's contents are unspecified.
    pub fn up(&mut self, conn: ConnectionId, peer: &Peer) -> Result<(), AllocError>
        ensures { OnOk result ((t : List Entry) → ConnectionsAt self.old t (event.Up conn peer.now) → rises conn.0 (newest t) ≡ true → ConnectionsFit self.new (did (event.Up conn peer.now) ∷ t)) }
    {
        let live = self.live.len();
        let row = Row::new(self.alloc, live);
        add_row(&mut self.rows, conn.0, row)?;
        join(&mut self.live, conn.0)?;
        self.newest = Some(conn.0);
        Ok(())
    }

    /// A connection is lost.
    pub fn down(&mut self, conn: ConnectionId)
        ensures { (t : List Entry) → ConnectionsAt self.old t (event.Down conn) → ConnectionsFit self.new (did (event.Down conn) ∷ t) }
    {
        remove_row(&mut self.rows, conn.0);
        leave(&mut self.live, conn.0);
    }

    /// Notes that a connection is over, or that its outbox is full.
    fn note(&mut self, conn: u64, over: bool, full: bool)
        ensures rows { self.new.rows ≡ self.old.rows }
        ensures live { self.new.live.items ≡ (if over then filter (λ k. not (nat_eq conn k)) self.old.live.items else self.old.live.items) }
        ensures last { self.new.newest ≡ self.old.newest }
        ensures roomy { self.new.roomy ≡ (if full then false else self.old.roomy) }
    {
        if full {
            self.roomy = false;
        }
        if over {
            leave(&mut self.live, conn);
        }
    }

    /// Takes up to `most` items out of an outbox; none if the connection is unknown. If memory is refused, the table's contents
    /// are unspecified.
    pub fn take(&mut self, conn: u64, most: usize) -> Result<Option<Taken>, AllocError>
        ensures batched { IfOk result (λ taken. (t : List Entry) → ConnectionsFit self.old t → IsBatch most (known t conn) taken) }
        ensures fits { IfOk result (λ taken. (t : List Entry) → ConnectionsFit self.old t → ConnectionsFit self.new (Took conn (count taken) ∷ t)) }
        ensures most { IfOk result (λ taken. count taken ≤ most) }
    {
        take_from(self.alloc, &mut self.rows, conn, most)
    }

    /// Puts an item into an outbox. If memory is refused, the table's contents are unspecified.
    pub fn put(&mut self, conn: u64, item: Item) -> Result<(), AllocError>
        ensures { OnOk result ((t : List Entry) → ConnectionsFit self.old t → ConnectionsFit self.new (Out conn item ∷ t)) }
    {
        let fill = put_in(&mut self.rows, conn, item)?;
        self.note(conn, fill.over, fill.full);
        Ok(())
    }

    /// Forgets the items in all outboxes. It takes no memory. The table then agrees with no trace in which one of them waits.
    pub fn give_up(&mut self)
        ensures none { NoneWaits self.new }
        ensures rows { (c : ℕ) → at_number self.new.rows c ≡ option_map emptied (at_number self.old.rows c) }
        ensures live { self.new.live ≡ self.old.live }
        ensures last { self.new.newest ≡ self.old.newest }
    {
        self.rows.empty_all();
    }
}

/// Takes items out of a row's outbox, if the row exists; a row that is over is removed with its last item.
fn take_from(
    alloc: Global,
    rows: &mut NumberMap<Row>,
    conn: u64,
    most: usize,
) -> Result<Option<Taken>, AllocError>
    ensures batched { IfOk result (λ taken. IsBatch most (at_number rows.old conn) taken) }
    ensures rows { IfOk result (λ taken. (c : ℕ) → at_number rows.new c ≡ (if conn == c then option_and_then (took (count taken)) (at_number rows.old c) else at_number rows.old c)) }
    ensures most { IfOk result (λ taken. count taken ≤ most) }
{
    let taken = match rows.get_mut(conn) {
        None => return Ok(None),
        Some(row) => row.take(alloc, most)?,
    };
    if taken.ended {
        remove_row(rows, conn);
    }
    Ok(Some(taken))
}

/// The state of a connection after an item was put into its outbox.
#[derive(Clone, Copy)]
struct Fill {
    // it isn't live
    over: bool,
    // it is live, and its outbox is full
    full: bool,
}

/// Puts an item into a row's outbox, if the row exists.
fn put_in(rows: &mut NumberMap<Row>, conn: u64, item: Item) -> Result<Fill, AllocError>
    ensures rows { OnOk result ((c : ℕ) → at_number rows.new c ≡ (if conn == c then option_map (with_item item) (at_number rows.old c) else at_number rows.old c)) }
    ensures over { IfOk result (λ fill. fill.over ≡ not (is_live (option_map (with_item item) (at_number rows.old conn)))) }
    ensures full { IfOk result (λ fill. fill.full ≡ is_full (option_map (with_item item) (at_number rows.old conn))) }
{
    match rows.get_mut(conn) {
        None => {
            discard(item);
            Ok(Fill {
                over: true,
                full: false,
            })
        }
        Some(row) => {
            row.put(item)?;
            Ok(Fill {
                over: row.standing().is_none(),
                full: row.is_full(),
            })
        }
    }
}

/// Adds a row.
fn add_row(rows: &mut NumberMap<Row>, conn: u64, row: Row) -> Result<(), AllocError>
    ensures { OnOk result ((c : ℕ) → at_number rows.new c ≡ (if conn == c then Some row else at_number rows.old c)) }
{
    let _ = rows.insert(conn, row)?;
    Ok(())
}

/// Removes a row.
fn remove_row(rows: &mut NumberMap<Row>, conn: u64)
    ensures { (c : ℕ) → at_number rows.new c ≡ (if conn == c then None else at_number rows.old c) }
{
    let _ = rows.remove(conn);
}

/// Appends a number to a list, which has room for 64.
fn join(live: &mut Vec<u64>, conn: u64) -> Result<(), AllocError>
    ensures { OnOk result (live.new.items ≡ (if nat_lt (length live.old.items) 64 then live.old.items ++ conn ∷ [] else live.old.items)) }
{
    if live.len() >= CONNECTIONS {
        return Ok(());
    }
    match live.push(conn) {
        Ok(()) => Ok(()),
        Err(_) => Err(AllocError),
    }
}

/// Removes a number from a list.
fn leave(live: &mut Vec<u64>, conn: u64)
    ensures { live.new.items ≡ filter (λ k. not (nat_eq conn k)) live.old.items }
{
    live.retain(|live| conn != *live);
}

/// Removes these numbers from a list.
fn leave_all(live: &mut Vec<u64>, ends: &[u64])
    ensures { live.new.items ≡ filter (λ k. not (has k ends.now)) live.old.items }
{
    live.retain(|live| !ends.contains(live));
}

/// Drops an item.
fn discard(_item: Item) {}

/// The phase of the connection of an event's item as the event finds it, once these connections ended because their outboxes were full;
/// none of another event. `before` is its phase before the event (`Connections::phase_before`).
pub fn phase_found(event: &Event, ends: &[u64], before: Option<Conn>) -> Option<Conn>
    ensures { (t : List Entry) → ends.now ≡ due t event.now → before ≡ phase_before t event.now → result ≡ phase_found t event.now }
{
    let Event::Item(conn, _) = event else {
        return before;
    };
    if ends.contains(&conn.0) {
        return None;
    }
    before
}

/// Whether an event reports a lost connection.
fn is_loss(event: &Event) -> bool
    ensures { result ≡ is_loss event.now }
{
    match event {
        Event::Down(_) => true,
        _ => false,
    }
}

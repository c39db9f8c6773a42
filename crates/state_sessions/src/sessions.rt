//! The table of sessions of all connections.
ghost use Rattle.std.specs.Prelude.{◌≡◌, ◌<◌, ◌∷◌, ◌++◌, List, ℕ, Bool, true, false, is_some, OnOk};
ghost use Rattle.std.specs.Ordering.{nat_cmp};
ghost use Rattle.std.specs.BTreeSet.{contains};
ghost use Rattle.state_collections.specs.NumberMap.{at_number};
ghost use Rattle.router_trace.specs.Trace.{Beginning, Trace};
ghost use Rattle.router_trace.specs.Configuration.{opened};
ghost use Rattle.router_trace.specs.Trace.{Entry, Out, did, puts_of};
ghost use Rattle.std.specs.List.{find};
ghost use Rattle.router_trace.specs.Sessions.{place, session, session_on, theirs, awaited, is_channel, answers_begin, is_free, free_channel};
ghost use Rattle.state_sessions.specs.Windows.{flow_due, flows_below, is_narrow_window};
ghost use Rattle.state_sessions.specs.Fits.{SessionsFit, with_mark, window_in, found_of, listed};
ghost use Rattle.router_trace.specs.declared.event.Event.TheVariants as event;
ghost use Rattle.amqp_model.specs.declared.item.Item.TheVariants as item;
ghost use Rattle.amqp_model.specs.declared.perf.Perf.TheVariants as perf;
ghost use Rattle.amqp_model.specs.declared.perf.Transfer.{Transfer};
ghost use Rattle.amqp_model.specs.declared.perf.End.{End};

use crate::connection::ConnectionSessions;
use crate::place::{FoundSession, Place};
use crate::rows;
use amqp_model::{Begin, Flow, Item, Perf};
use amqp_session::Window;
use router_trace::{ConnectionId, Outgoing};
use state_collections::NumberMap;
use std::alloc::{AllocError, Global};
use std::collections::BTreeSet;

/// The number of channels that the router accepts.
const CHANNEL_COUNT: u16 = 15;

/// The channels that the router accepts.
pub const CHANNELS: [u16; 15] = [0, 1, 2, 3, 4, 5, 6, 7, 8, 9, 10, 11, 12, 13, 14];

// Numbers of connections rise by one, and no more than this are live.
const PLACES: usize = 64;

/// The sessions of all connections.
#[derive(Drop)]
pub struct Sessions {
    alloc: Global,
    rows: NumberMap<ConnectionSessions>,
    // the connections that may have a narrow window
    narrow: BTreeSet<u64>,
}

impl Sessions {
    /// An empty table.
    pub fn new(alloc: Global) -> Sessions
        ensures { (g : Beginning) (below : Trace) → SessionsFit result (opened g below) }
    {
        Sessions {
            alloc,
            rows: NumberMap::new(alloc, PLACES),
            narrow: BTreeSet::new(alloc),
        }
    }

    /// What a channel of the peer stands for.
    pub fn find(&self, conn: u64, channel: u16) -> FoundSession
        ensures own { (t : List Entry) → SessionsFit self.now t → result.own ≡ session_on t conn channel }
        ensures place { (t : List Entry) → SessionsFit self.now t → result.place ≡ found_of (place t conn channel) }
    {
        match self.rows.get(conn) {
            None => FoundSession {
                own: None,
                place: Place::Nowhere,
            },
            Some(row) => row.find(channel),
        }
    }

    /// The router's lowest channel that the peer accepts too and that is free: it has no session, and no begin on it awaits an answer.
    #[tactic(auto, unfolding(router_trace::specs::Sessions::free_channel))]
    pub fn free_channel(&self, conn: u64, channel_max: u16) -> Option<u16>
        ensures { (t : List Entry) → SessionsFit self.now t → result ≡ free_channel t conn channel_max }
    {
        self.first_free(conn, channel_max, &CHANNELS)
    }

    /// The first of these channels that the peer accepts too and that is free.
    fn first_free(&self, conn: u64, channel_max: u16, channels: &[u16]) -> Option<u16>
        ensures { (t : List Entry) → SessionsFit self.now t → result ≡ find (is_free channel_max (session t conn) (awaited t conn)) channels.now }
    {
        for own in channels {
            if self.is_free(conn, channel_max, *own) {
                return Some(*own);
            }
        }
        None
    }

    /// Whether the peer accepts a channel too and it is free.
    fn is_free(&self, conn: u64, channel_max: u16, own: u16) -> bool
        ensures { (t : List Entry) → SessionsFit self.now t → result ≡ is_free channel_max (session t conn) (awaited t conn) own }
    {
        own <= channel_max && self.window(conn, own).is_none() && !self.awaits(conn, own)
    }

    /// Whether the router's begin on a channel awaits an answer.
    pub fn awaits(&self, conn: u64, own: u16) -> bool
        ensures { (t : List Entry) → SessionsFit self.now t → result ≡ is_some (awaited t conn own) }
    {
        match self.rows.get(conn) {
            None => false,
            Some(row) => row.awaits(own),
        }
    }

    /// The router's channel whose begin this performative answers, if it does.
    pub fn answered(&self, conn: u64, channel: u16, perf: &Perf) -> Option<u16>
        ensures { (t : List Entry) → SessionsFit self.now t → (o : ℕ) → is_channel result o ≡ answers_begin perf.now o (theirs t conn channel) (awaited t conn o) }
    {
        match perf {
            Perf::Begin(_) => self.rows.get(conn)?.answered(channel, perf),
            _ => None,
        }
    }

    /// The windows of a session.
    pub fn window(&self, conn: u64, own: u16) -> Option<Window>
        ensures { result ≡ window_in (at_number self.now.rows conn) own }
    {
        match self.rows.get(conn) {
            None => None,
            Some(row) => row.window(own),
        }
    }

    /// The flow that is due on a session because its window is narrow.
    fn due(&self, conn: u64, own: u16) -> Option<Outgoing>
        ensures { (t : List Entry) → SessionsFit self.now t → flow_due conn own (session t conn own) ≡ puts_of (listed result) }
    {
        self.rows.get(conn)?.due(conn, own)
    }

    /// Adds the flows that are due on a connection, by the router's channel.
    fn gather(&self, conn: u64, flows: &mut Vec<Outgoing>) -> Result<(), AllocError>
        ensures { OnOk result ((t : List Entry) → SessionsFit self.now t → puts_of flows.new.items ≡ puts_of flows.old.items ++ flows_below conn (session t conn) 15) }
    {
        for own in 0..CHANNEL_COUNT {
            add(flows, self.due(conn, own))?;
        }
        Ok(())
    }

    /// Adds the flows that are due on a connection, by the router's channel; none is due if the connection isn't marked.
    pub fn due_on(&self, conn: u64, flows: &mut Vec<Outgoing>) -> Result<(), AllocError>
        ensures { OnOk result ((t : List Entry) → SessionsFit self.now t → puts_of flows.new.items ≡ puts_of flows.old.items ++ flows_below conn (session t conn) 15) }
    {
        if self.narrow.contains(&conn) {
            self.gather(conn, flows)?;
        }
        Ok(())
    }

    /// Whether no connection is marked, so that no flow is due on any.
    pub fn is_calm(&self) -> bool
        ensures { result ≡ true → (c : ℕ) → contains nat_cmp self.now.narrow c ≡ false }
    {
        self.narrow.is_empty()
    }

    /// Unmarks a connection that has no narrow window left.
    pub fn settle(&mut self, conn: u64)
        ensures { (t : List Entry) → SessionsFit self.old t → SessionsFit self.new t }
    {
        if !self.has_narrow(conn) {
            let _ = self.narrow.remove(&conn);
        }
    }

    /// Whether a connection has a narrow window.
    fn has_narrow(&self, conn: u64) -> bool
        ensures { result ≡ false → (o : ℕ) → o < 15 → is_narrow_window (window_in (at_number self.now.rows conn) o) ≡ false }
    {
        for own in 0..CHANNEL_COUNT {
            if self.is_narrow(conn, own) {
                return true;
            }
        }
        false
    }

    /// Whether the window of a session is narrow.
    fn is_narrow(&self, conn: u64, own: u16) -> bool
        ensures { result ≡ is_narrow_window (window_in (at_number self.now.rows conn) own) }
    {
        match self.rows.get(conn) {
            None => false,
            Some(row) => row.is_narrow(own),
        }
    }

    /// An item was received on a connection. If memory is refused, the table's contents are unspecified.
    pub fn hear(&mut self, conn: ConnectionId, item: &Item) -> Result<(), AllocError>
        ensures { OnOk result ((t : List Entry) → SessionsFit self.old t → SessionsFit self.new (did (event.Item conn item.now) ∷ t)) }
    {
        match item {
            Item::Frame {
                sasl,
                channel,
                perf,
                ..
            } => {
                if !*sasl {
                    self.hear_perf(conn, *channel, perf)?;
                }
            }
            _ => {}
        }
        Ok(())
    }

    /// A performative was received on a connection.
    fn hear_perf(&mut self, conn: ConnectionId, channel: u16, perf: &Perf) -> Result<(), AllocError>
        ensures { OnOk result ((t : List Entry) (payload : List ℕ) → SessionsFit self.old t
            → SessionsFit self.new (did (event.Item conn (item.Frame false channel perf.now payload)) ∷ t)) }
    {
        if let Perf::Begin(_) = perf {
            rows::know(self.alloc, &mut self.rows, conn.0)?;
        }
        let narrow = rows::hear(&mut self.rows, conn, channel, perf)?;
        mark(&mut self.narrow, conn.0, narrow)?;
        Ok(())
    }

    /// A connection is lost.
    pub fn down(&mut self, conn: ConnectionId)
        ensures { (t : List Entry) → SessionsFit self.old t → SessionsFit self.new (did (event.Down conn) ∷ t) }
    {
        rows::forget(&mut self.rows, conn.0);
    }

    /// An item is put into the outbox of a connection. If memory is refused, the table's contents are unspecified.
    pub fn put(&mut self, conn: u64, item: &Item) -> Result<(), AllocError>
        ensures { OnOk result ((t : List Entry) → SessionsFit self.old t → SessionsFit self.new (Out conn item.now ∷ t)) }
    {
        match item {
            Item::Frame { channel, perf, .. } => self.put_perf(conn, *channel, perf)?,
            _ => {}
        }
        Ok(())
    }

    /// A performative is put into the outbox of a connection.
    fn put_perf(&mut self, conn: u64, own: u16, perf: &Perf) -> Result<(), AllocError>
        ensures { OnOk result ((t : List Entry) (sasl : Bool) (payload : List ℕ) → SessionsFit self.old t
            → SessionsFit self.new (Out conn (item.Frame sasl own perf.now payload) ∷ t)) }
    {
        match perf {
            Perf::Begin(begin) => self.put_begin(conn, own, begin.as_ref())?,
            Perf::Flow(flow) => self.put_flow(conn, own, flow)?,
            Perf::Transfer(_) => self.put_transfer(conn, own),
            Perf::End(_) => rows::end(&mut self.rows, conn, own),
            Perf::Close(_) => rows::forget(&mut self.rows, conn),
            _ => {}
        }
        Ok(())
    }

    /// The router begins a session.
    fn put_begin(&mut self, conn: u64, own: u16, begin: &Begin) -> Result<(), AllocError>
        ensures { OnOk result ((t : List Entry) (sasl : Bool) (payload : List ℕ) → SessionsFit self.old t
            → SessionsFit self.new (Out conn (item.Frame sasl own (perf.Begin begin.now) payload) ∷ t)) }
    {
        rows::know(self.alloc, &mut self.rows, conn)?;
        let narrow = rows::begin(&mut self.rows, conn, own, begin)?;
        mark(&mut self.narrow, conn, narrow)?;
        Ok(())
    }

    /// The router sends a transfer.
    pub fn put_transfer(&mut self, conn: u64, own: u16)
        ensures { (t : List Entry) (sasl : Bool) (payload : List ℕ) (x : Transfer) → SessionsFit self.old t
            → SessionsFit self.new (Out conn (item.Frame sasl own (perf.Transfer x) payload) ∷ t) }
    {
        rows::send(&mut self.rows, conn, own);
    }

    /// The router sends a flow with its window.
    pub fn put_flow(&mut self, conn: u64, own: u16, flow: &Flow) -> Result<(), AllocError>
        ensures { OnOk result ((t : List Entry) (sasl : Bool) (payload : List ℕ) → SessionsFit self.old t
            → SessionsFit self.new (Out conn (item.Frame sasl own (perf.Flow flow.now) payload) ∷ t)) }
    {
        let narrow = rows::tell(&mut self.rows, conn, own, flow);
        mark(&mut self.narrow, conn, narrow)?;
        Ok(())
    }
}

/// NumberSet a connection that has a narrow window.
fn mark(marks: &mut BTreeSet<u64>, conn: u64, narrow: bool) -> Result<(), AllocError>
    ensures { OnOk result ((c : ℕ) → contains nat_cmp marks.new c ≡ with_mark conn narrow (contains nat_cmp marks.old) c) }
{
    if !narrow {
        return Ok(());
    }
    match marks.insert(conn) {
        Ok(_) => Ok(()),
        Err(_) => Err(AllocError),
    }
}

/// Appends an item, if there is one.
fn add(flows: &mut Vec<Outgoing>, due: Option<Outgoing>) -> Result<(), AllocError>
    ensures { OnOk result (puts_of flows.new.items ≡ puts_of flows.old.items ++ puts_of (listed due)) }
{
    match due {
        None => Ok(()),
        Some(due) => match flows.push(due) {
            Ok(()) => Ok(()),
            Err(left) => {
                drop(left);
                Err(AllocError)
            }
        },
    }
}

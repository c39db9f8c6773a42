//! What peers' opens say, and when items were last put out.
ghost use Rattle.std.specs.Prelude.{◌≡◌, ◌==◌, ◌∷◌, List, ℕ, None, false, if◌then◌else◌, OnOk};
ghost use Rattle.state_collections.specs.NumberMap.{at_number};
ghost use Rattle.router_trace.specs.Trace.{Beginning, Trace};
ghost use Rattle.router_trace.specs.Configuration.{opened};
ghost use Rattle.router_trace.specs.Trace.{Entry, Out, did};
ghost use Rattle.router_trace.specs.Clocks.{terms, written, needs_beat, channel_max_of};
ghost use Rattle.state_connections.specs.Timing.{ClocksFit, is_close};
ghost use Rattle.router_trace.specs.declared.event.Event.TheVariants as event;
ghost use Rattle.amqp_model.specs.declared.perf.Perf.TheVariants as perf;
ghost use Rattle.amqp_model.specs.declared.item.Item.{Item as AnItem};
ghost use Rattle.amqp_model.specs.declared.item.Item.TheVariants as item;

use crate::row::CONNECTIONS;
use amqp_conn::Heartbeat;
use amqp_model::{Item, Open, Perf};
use router_trace::{ConnectionId, Terms};
use state_collections::NumberMap;
use std::alloc::{AllocError, Global};

/// For each peer what its open says and when an item was last put out; nothing for a connection that is closed or
/// lost. If an operation fails to allocate, the table's contents are unspecified.
#[derive(Drop)]
pub struct Clocks {
    moment: u64,
    terms: NumberMap<Terms>,
    written: NumberMap<u64>,
}

impl Clocks {
    /// An empty table.
    pub fn new(alloc: Global) -> Clocks
        ensures { (g : Beginning) (below : Trace) → ClocksFit result (opened g below) }
    {
        Clocks {
            moment: 0,
            terms: NumberMap::new(alloc, CONNECTIONS),
            written: NumberMap::new(alloc, CONNECTIONS),
        }
    }

    /// The highest channel that a peer accepts.
    pub fn channel_max(&self, conn: u64) -> u16
        ensures { (t : List Entry) → ClocksFit self.now t → result ≡ channel_max_of (terms t conn) }
    {
        match self.terms.get(conn) {
            None => u16::MAX,
            Some(terms) => terms.channel_max,
        }
    }

    /// Whether a heartbeat is due at this moment.
    pub fn needs_beat(&self, conn: u64, now: u64) -> bool
        ensures { (t : List Entry) → ClocksFit self.now t → result ≡ needs_beat (terms t conn) (written t conn) now }
    {
        let Some(terms) = self.terms.get(conn) else {
            return false;
        };
        let Some(written) = self.written.get(conn) else {
            return false;
        };
        let heartbeat = Heartbeat {
            idle_time_out: terms.idle_time_out,
            written: *written,
        };
        heartbeat.tick(now)
    }

    /// The clock moves to this moment.
    pub fn tick(&mut self, moment: u64)
        ensures { (t : List Entry) → ClocksFit self.old t → ClocksFit self.new (did (event.Tick moment) ∷ t) }
    {
        self.moment = moment;
    }

    /// A connection is lost.
    pub fn down(&mut self, conn: ConnectionId)
        ensures { (t : List Entry) → ClocksFit self.old t → ClocksFit self.new (did (event.Down conn) ∷ t) }
    {
        self.forget(conn.0);
    }

    /// An item was received on a connection.
    pub fn hear(&mut self, conn: ConnectionId, item: &Item) -> Result<(), AllocError>
        ensures { OnOk result ((t : List Entry) → ClocksFit self.old t → ClocksFit self.new (did (event.Item conn item.now) ∷ t)) }
    {
        match item {
            Item::Frame { sasl, perf, .. } => {
                if !*sasl {
                    self.hear_perf(conn, perf)?;
                }
            }
            _ => {}
        }
        Ok(())
    }

    /// A performative was received on a connection.
    fn hear_perf(&mut self, conn: ConnectionId, perf: &Perf) -> Result<(), AllocError>
        ensures { OnOk result ((t : List Entry) (channel : ℕ) (payload : List ℕ) → ClocksFit self.old t
            → ClocksFit self.new (did (event.Item conn (item.Frame false channel perf.now payload)) ∷ t)) }
    {
        match perf {
            Perf::Open(open) => self.hear_open(conn, open.as_ref())?,
            _ => {}
        }
        Ok(())
    }

    /// An open was received on a connection: only the first one counts.
    fn hear_open(&mut self, conn: ConnectionId, open: &Open) -> Result<(), AllocError>
        ensures { OnOk result ((t : List Entry) (channel : ℕ) (payload : List ℕ) → ClocksFit self.old t
            → ClocksFit self.new (did (event.Item conn (item.Frame false channel (perf.Open «open».now) payload)) ∷ t)) }
    {
        if self.terms.get(conn.0).is_some() {
            return Ok(());
        }
        let _ = self.terms.insert(conn.0, Terms::of(open))?;
        Ok(())
    }

    /// An item is put into the outbox of a connection.
    pub fn put(&mut self, conn: u64, item: &Item) -> Result<(), AllocError>
        ensures { OnOk result ((t : List Entry) → ClocksFit self.old t → ClocksFit self.new (Out conn item.now ∷ t)) }
    {
        if is_close(item) {
            self.forget(conn);
            return Ok(());
        }
        self.write(conn)?;
        Ok(())
    }

    /// An item that isn't a close is put into the outbox of a connection.
    pub fn write(&mut self, conn: u64) -> Result<(), AllocError>
        ensures { OnOk result ((t : List Entry) (i : AnItem) → is_close i ≡ false → ClocksFit self.old t → ClocksFit self.new (Out conn i ∷ t)) }
    {
        let _ = self.written.insert(conn, self.moment)?;
        Ok(())
    }

    /// Removes all that is known of a connection.
    fn forget(&mut self, conn: u64)
        ensures moment { self.new.moment ≡ self.old.moment }
        ensures terms { (c : ℕ) → at_number self.new.terms c ≡ (if conn == c then None else at_number self.old.terms c) }
        ensures written { (c : ℕ) → at_number self.new.written c ≡ (if conn == c then None else at_number self.old.written c) }
    {
        let _ = self.terms.remove(conn);
        let _ = self.written.remove(conn);
    }
}

/// Whether an item is a close.
pub(crate) fn is_close(item: &Item) -> bool
    ensures { result ≡ is_close item.now }
{
    match item {
        Item::Frame { perf, .. } => match perf {
            Perf::Close(_) => true,
            _ => false,
        },
        _ => false,
    }
}

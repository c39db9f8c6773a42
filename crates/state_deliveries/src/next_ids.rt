//! The next delivery-ids that the router gives, by session.
ghost use Rattle.std.specs.Prelude.{◌≡◌, ◌==◌, ◌∷◌, List, ℕ, Bool, None, if◌then◌else◌, OnOk, unwrap_or};
ghost use Rattle.std.specs.Ordering.{nat_cmp};
ghost use Rattle.std.specs.BTreeMap.{get};
ghost use Rattle.amqp_model.specs.declared.item.Item.TheVariants as item;
ghost use Rattle.router_trace.specs.Trace.{Beginning, Trace};
ghost use Rattle.router_trace.specs.Configuration.{opened};
ghost use Rattle.router_trace.specs.Trace.{Entry, Out, did};
ghost use Rattle.router_trace.specs.declared.event.Event.TheVariants as event;
ghost use Rattle.router_trace.specs.Deliveries.{next_id, after_id};
ghost use Rattle.state_collections.specs.Places.{in_map};
ghost use Rattle.state_collections.specs.NumberMap.{at_number};
ghost use Rattle.state_deliveries.specs.Fits.{NextIdsFit, next_in};

use amqp_model::{Item, Perf, Transfer};
use router_trace::ConnectionId;
use state_collections::NumberMap;
use std::alloc::{AllocError, Global};
use std::collections::BTreeMap;

/// The rows of so many connections with neighbouring numbers are found without an ordered map.
const PLACES: usize = 64;

/// The next delivery-id that the router gives on a session; 0 if no entry is kept.
#[derive(Drop)]
pub(crate) struct NextIds {
    alloc: Global,
    rows: NumberMap<BTreeMap<u16, u32>>,
}

impl NextIds {
    /// An empty table.
    pub(crate) fn new(alloc: Global) -> NextIds
        ensures { (g : Beginning) (below : Trace) → NextIdsFit result (opened g below) }
    {
        NextIds {
            alloc,
            rows: NumberMap::new(alloc, PLACES),
        }
    }

    /// The next id of a session.
    pub(crate) fn get(&self, conn: u64, own: u16) -> u32
        ensures { result ≡ next_in self.now conn own }
    {
        match self.rows.get(conn) {
            None => 0,
            Some(sessions) => sessions.get(&own).copied().unwrap_or(0),
        }
    }

    /// A connection is lost.
    pub(crate) fn down(&mut self, conn: ConnectionId)
        ensures { (t : List Entry) → NextIdsFit self.old t → NextIdsFit self.new (did (event.Down conn) ∷ t) }
    {
        let _ = self.rows.remove(conn.0);
    }

    /// An item is put into the outbox of a connection.
    pub(crate) fn put(&mut self, conn: u64, item: &Item) -> Result<(), AllocError>
        ensures { OnOk result ((t : List Entry) → NextIdsFit self.old t → NextIdsFit self.new (Out conn item.now ∷ t)) }
    {
        match item {
            Item::Frame { channel, perf, .. } => self.put_perf(conn, *channel, perf)?,
            _ => {}
        }
        Ok(())
    }

    /// A performative is put into the outbox of a connection, on a channel of the router.
    fn put_perf(&mut self, conn: u64, own: u16, perf: &Perf) -> Result<(), AllocError>
        ensures { OnOk result ((t : List Entry) (sasl : Bool) (payload : List ℕ) → NextIdsFit self.old t
            → NextIdsFit self.new (Out conn (item.Frame sasl own perf.now payload) ∷ t)) }
    {
        match perf {
            Perf::Begin(_) => self.reset(conn, own),
            Perf::Transfer(transfer) => self.count(conn, own, transfer)?,
            Perf::End(_) => self.reset(conn, own),
            Perf::Close(_) => {
                let _ = self.rows.remove(conn);
            }
            _ => {}
        }
        Ok(())
    }

    /// The ids of a session start at 0 again.
    fn reset(&mut self, conn: u64, own: u16)
        ensures { (c o : ℕ) → next_in self.new c o ≡ (if conn == c then (if own == o then 0 else next_in self.old c o) else next_in self.old c o) }
    {
        if let Some(sessions) = self.rows.get_mut(conn) {
            let _ = sessions.remove(&own);
        }
    }

    /// The router's transfer, which may have an id.
    pub(crate) fn count(
        &mut self,
        conn: u64,
        own: u16,
        transfer: &Transfer,
    ) -> Result<(), AllocError>
        ensures { OnOk result ((c o : ℕ) → next_in self.new c o
            ≡ (if conn == c then (if own == o then after_id transfer.now.delivery_id (next_in self.old c o) else next_in self.old c o) else next_in self.old c o)) }
    {
        if let Some(id) = transfer.delivery_id {
            self.set(conn, own, id.wrapping_add(1))?;
        }
        Ok(())
    }

    /// Sets the next id of a session.
    fn set(&mut self, conn: u64, own: u16, id: u32) -> Result<(), AllocError>
        ensures { OnOk result ((c o : ℕ) → next_in self.new c o ≡ (if conn == c then (if own == o then id else next_in self.old c o) else next_in self.old c o)) }
    {
        if let Some(sessions) = self.rows.get_mut(conn) {
            return set_in(sessions, own, id);
        }
        let mut sessions = BTreeMap::new(self.alloc);
        set_in(&mut sessions, own, id)?;
        self.rows.insert(conn, sessions)?;
        Ok(())
    }
}

/// Sets the next id of a session of a connection.
fn set_in(sessions: &mut BTreeMap<u16, u32>, own: u16, id: u32) -> Result<(), AllocError>
    ensures { OnOk result ((o : ℕ) → unwrap_or (get nat_cmp sessions.new o) 0 ≡ (if own == o then id else unwrap_or (get nat_cmp sessions.old o) 0)) }
{
    match sessions.insert(own, id) {
        Ok(_) => Ok(()),
        Err(_) => Err(AllocError),
    }
}

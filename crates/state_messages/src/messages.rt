//! Links, the deliveries on them and the pools of their addresses.
ghost use Rattle.std.specs.Prelude.{◌≡◌, ◌-◌, ℕ, Bool, List, ◌∷◌, OnOk, IfOk};
ghost use Rattle.amqp_model.specs.declared.item.Item.TheVariants as item;
ghost use Rattle.amqp_model.specs.declared.perf.Perf.TheVariants as perf;
ghost use Rattle.route_table.specs.Places.{FindsAs};
ghost use Rattle.router_trace.specs.Trace.{Beginning, Trace};
ghost use Rattle.router_trace.specs.Configuration.{opened};
ghost use Rattle.router_trace.specs.Trace.{Entry, Out, did};
ghost use Rattle.router_trace.specs.Deliveries.{acts_found, channels_found, giving};
ghost use Rattle.router_trace.specs.Sessions.{answers_item, awaited, is_channel, maps, theirs};
ghost use Rattle.router_trace.specs.Settling.{part_at};
ghost use Rattle.router_trace.specs.declared.event.Event.TheVariants as event;
ghost use Rattle.state_unsettled.specs.Incoming.{IncomingFit};
ghost use Rattle.state_deliveries.specs.Fits.{DeliveriesFit};
ghost use Rattle.state_deliveries.specs.Hearing.{heard_change};
ghost use Rattle.state_links.specs.Fits.{LinksFit, key_by, channel_of};
ghost use Rattle.state_messages.specs.Fits.{MessagesFit};

use crate::hearing::receiving;
use amqp_link::Part;
use amqp_model::{Disposition, Flow, Item, Transfer};
use book_model::{Act, LinkKey};
use bytes::Bytes;
use route_table::Table;
use router_trace::ConnectionId;
use state_deliveries::{Change, Deliveries};
use state_links::Links;
use state_pools::Pools;
use state_unsettled::IncomingDeliveries;
use std::alloc::{AllocError, Global};

/// Links, the deliveries on them, what peers have not settled, and the pools of addresses. If an operation fails to allocate, their contents
/// are unspecified.
#[derive(Drop)]
pub struct Messages {
    pub(crate) alloc: Global,
    pub(crate) links: Links,
    pub(crate) deliveries: Deliveries,
    pub(crate) incoming: IncomingDeliveries,
    pub(crate) pools: Pools,
}

impl Messages {
    /// Tables without any links; addresses are shared as this table says, and `last_row` is the last row that was admitted before.
    pub fn new(alloc: Global, table: Table, last_row: u64) -> Messages
        ensures { (g : Beginning) (below : Trace) → FindsAs table g.routing → last_row ≡ g.book.next_row - 1 → MessagesFit result (opened g below) }
    {
        Messages {
            alloc,
            links: Links::new(alloc),
            deliveries: Deliveries::new(alloc, last_row),
            incoming: IncomingDeliveries::new(alloc),
            pools: Pools::new(alloc, table),
        }
    }

    /// The links.
    pub fn links(&self) -> &Links
        ensures { (t : List Entry) → MessagesFit self.now t → LinksFit result.now t }
    {
        &self.links
    }

    /// The deliveries.
    pub fn deliveries(&self) -> &Deliveries
        ensures { (t : List Entry) → MessagesFit self.now t → DeliveriesFit result.now t }
    {
        &self.deliveries
    }

    /// What peers have not settled.
    pub fn incoming(&self) -> &IncomingDeliveries
        ensures { (t : List Entry) → MessagesFit self.now t → IncomingFit result.now t }
    {
        &self.incoming
    }

    /// A connection is lost.
    pub fn down(&mut self, conn: ConnectionId) -> Result<(), AllocError>
        ensures { OnOk result ((t : List Entry) → MessagesFit self.old t → MessagesFit self.new (did (event.Down conn) ∷ t)) }
    {
        self.links.down(conn)?;
        self.deliveries.down(conn)?;
        self.incoming.down(conn);
        Ok(())
    }

    /// An item was received on a connection; `own` is the router's channel of its session, if it has one, and `found` the
    /// same, unless the event ended the connection first; `answered` is the router's channel whose begin the item answers, if it
    /// does; `change` is what the item changes of deliveries at once (`Change::of_item`), and `acts` are those of the event. Returns
    /// what a transfer makes of its delivery.
    pub fn hear(
        &mut self,
        conn: ConnectionId,
        own: Option<u16>,
        found: Option<u16>,
        answered: Option<u16>,
        change: Option<Change>,
        item: &Item,
        acts: &[Act],
    ) -> Result<Option<Part>, AllocError>
        ensures part { IfOk result (λ part. (t : List Entry) → MessagesFit self.old t → part ≡ part_at t conn.0 own item.now) }
        ensures fits { OnOk result ((t : List Entry) → ((o : ℕ) → is_channel own o ≡ maps (theirs t conn.0 (channel_of item.now)) o)
            → ((o : ℕ) → is_channel found o ≡ maps (channels_found t conn.0 (channel_of item.now)) o)
            → ((o : ℕ) → is_channel answered o ≡ answers_item item.now o (theirs t conn.0) (awaited t conn.0 o))
            → change ≡ heard_change conn.0 found item.now
            → giving item.now acts.now ≡ giving item.now (acts_found t)
            → MessagesFit self.old t → MessagesFit self.new (did (event.Item conn item.now) ∷ t)) }
    {
        let link = receiving(&self.links, conn.0, own, item);
        self.incoming.hear(conn, own, item, link)?;
        self.deliveries.hear(conn, found, change, item, acts)?;
        let part = self.links.hear(conn, own, answered, item)?;
        Ok(part)
    }

    /// An item is put into the outbox of a connection; an attach comes with its key. Fails if memory is refused, and if no attachment number
    /// is left.
    pub fn put(&mut self, conn: u64, item: &Item, key: Option<LinkKey>) -> Result<(), AllocError>
        ensures { OnOk result ((t : List Entry) → key ≡ key_by t conn item.now → MessagesFit self.old t → MessagesFit self.new (Out conn item.now ∷ t)) }
    {
        self.incoming.put(conn, item)?;
        self.deliveries.put(conn, item)?;
        self.links.put(conn, item, key)?;
        Ok(())
    }

    /// The router's transfer with this payload is put into the outbox of a connection.
    pub fn put_transfer(
        &mut self,
        conn: u64,
        own: u16,
        transfer: &Transfer,
        payload: &Bytes,
    ) -> Result<(), AllocError>
        ensures { OnOk result ((t : List Entry) (sasl : Bool) → MessagesFit self.old t
            → MessagesFit self.new (Out conn (item.Frame sasl own (perf.Transfer transfer.now) payload.now) ∷ t)) }
    {
        self.deliveries.put_transfer(conn, own, transfer, payload)?;
        self.links.put_transfer(conn, own, transfer)?;
        Ok(())
    }

    /// The router's disposition is put into the outbox of a connection.
    pub fn put_disposition(
        &mut self,
        conn: u64,
        own: u16,
        disposition: &Disposition,
    ) -> Result<(), AllocError>
        ensures { OnOk result ((t : List Entry) (sasl : Bool) (payload : List ℕ) → MessagesFit self.old t
            → MessagesFit self.new (Out conn (item.Frame sasl own (perf.Disposition disposition.now) payload) ∷ t)) }
    {
        self.incoming.put_disposition(conn, own, disposition)?;
        self.deliveries.put_disposition(conn, own, disposition)?;
        Ok(())
    }

    /// The router's flow is put into the outbox of a connection.
    pub fn put_flow(&mut self, conn: u64, own: u16, flow: &Flow) -> Result<(), AllocError>
        ensures { OnOk result ((t : List Entry) (sasl : Bool) (payload : List ℕ) → MessagesFit self.old t
            → MessagesFit self.new (Out conn (item.Frame sasl own (perf.Flow flow.now) payload) ∷ t)) }
    {
        self.links.put_flow(conn, own, flow)?;
        Ok(())
    }

    /// Unmarks the connections on which no link owes a drain any more.
    pub fn settle_owed(&mut self)
        ensures { (t : List Entry) → MessagesFit self.old t → MessagesFit self.new t }
    {
        self.links.settle_owed();
    }
}

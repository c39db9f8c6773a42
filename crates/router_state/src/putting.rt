//! What the router puts out, told to the tables by which items are answered.
ghost use Rattle.std.specs.Prelude.{◌≡◌, ◌∷◌, ℕ, List, Bool, OnOk, IfOk};
ghost use Rattle.amqp_model.specs.declared.item.Item.TheVariants as item;
ghost use Rattle.amqp_model.specs.declared.perf.Perf.TheVariants as perf;
ghost use Rattle.router_trace.specs.Trace.{Entry, Out};
ghost use Rattle.state_connections.specs.Peering.{PeersFit};
ghost use Rattle.state_links.specs.Fits.{key_in, key_by};
ghost use Rattle.router_state.specs.Tables.{TablesFind};

use crate::tables::State;
use amqp_model::{Disposition, Flow, Item, Perf, Transfer};
use book_model::LinkKey;
use bytes::Bytes;
use state_connections::Peers;
use std::alloc::AllocError;

impl State {
    /// Notes an item that goes into the outbox of a connection in the tables by which items are answered. Transfers,
    /// dispositions and flows are three items of each message: only the tables that they change are told of them.
    pub(crate) fn note_put(&mut self, conn: u64, item: &Item) -> Result<(), AllocError>
        ensures found { OnOk result ((t : List Entry) → TablesFind self.old t → TablesFind self.new (Out conn item.now ∷ t)) }
        ensures connections { self.new.connections ≡ self.old.connections }
        ensures ready { self.new.ready ≡ self.old.ready }
    {
        match item {
            Item::Frame {
                channel,
                perf,
                payload,
                ..
            } => match perf {
                Perf::Transfer(transfer) => self.note_transfer(conn, *channel, transfer, payload)?,
                Perf::Disposition(disposition) => self.note_disposition(
                    conn,
                    *channel,
                    disposition,
                )?,
                Perf::Flow(flow) => self.note_flow(conn, *channel, flow)?,
                _ => self.note_other(conn, item)?,
            },
            _ => self.note_other(conn, item)?,
        }
        Ok(())
    }

    /// The router's transfer with this payload, on its channel `own`.
    fn note_transfer(
        &mut self,
        conn: u64,
        own: u16,
        transfer: &Transfer,
        payload: &Bytes,
    ) -> Result<(), AllocError>
        ensures found { OnOk result ((t : List Entry) (sasl : Bool) → TablesFind self.old t
            → TablesFind self.new (Out conn (item.Frame sasl own (perf.Transfer transfer.now) payload.now) ∷ t)) }
        ensures connections { self.new.connections ≡ self.old.connections }
        ensures ready { self.new.ready ≡ self.old.ready }
    {
        self.clocks.write(conn)?;
        self.messages.put_transfer(conn, own, transfer, payload)?;
        self.sessions.put_transfer(conn, own);
        Ok(())
    }

    /// The router's disposition, on its channel `own`.
    fn note_disposition(
        &mut self,
        conn: u64,
        own: u16,
        disposition: &Disposition,
    ) -> Result<(), AllocError>
        ensures found { OnOk result ((t : List Entry) (sasl : Bool) (payload : List ℕ) → TablesFind self.old t
            → TablesFind self.new (Out conn (item.Frame sasl own (perf.Disposition disposition.now) payload) ∷ t)) }
        ensures connections { self.new.connections ≡ self.old.connections }
        ensures ready { self.new.ready ≡ self.old.ready }
    {
        self.clocks.write(conn)?;
        self.messages.put_disposition(conn, own, disposition)?;
        Ok(())
    }

    /// The router's flow, on its channel `own`.
    fn note_flow(&mut self, conn: u64, own: u16, flow: &Flow) -> Result<(), AllocError>
        ensures found { OnOk result ((t : List Entry) (sasl : Bool) (payload : List ℕ) → TablesFind self.old t
            → TablesFind self.new (Out conn (item.Frame sasl own (perf.Flow flow.now) payload) ∷ t)) }
        ensures connections { self.new.connections ≡ self.old.connections }
        ensures ready { self.new.ready ≡ self.old.ready }
    {
        self.clocks.write(conn)?;
        self.messages.put_flow(conn, own, flow)?;
        self.sessions.put_flow(conn, own, flow)?;
        Ok(())
    }

    /// Any item of the router.
    fn note_other(&mut self, conn: u64, item: &Item) -> Result<(), AllocError>
        ensures found { OnOk result ((t : List Entry) → TablesFind self.old t → TablesFind self.new (Out conn item.now ∷ t)) }
        ensures connections { self.new.connections ≡ self.old.connections }
        ensures ready { self.new.ready ≡ self.old.ready }
    {
        self.clocks.put(conn, item)?;
        let key = key_by(&self.peers, conn, item)?;
        self.peers.put(conn, item);
        self.messages.put(conn, item, key)?;
        self.sessions.put(conn, item)?;
        Ok(())
    }
}

/// The key that the table of links needs for an outgoing item: that of an attach.
fn key_by(peers: &Peers, conn: u64, item: &Item) -> Result<Option<LinkKey>, AllocError>
    ensures { IfOk result (λ key. (t : List Entry) → PeersFit peers.now t → key ≡ key_by t conn item.now) }
{
    match item {
        Item::Frame { perf, .. } => key_in(peers, conn, perf),
        _ => Ok(None),
    }
}

/// The key that the table of links needs for a performative.
fn key_in(peers: &Peers, conn: u64, perf: &Perf) -> Result<Option<LinkKey>, AllocError>
    ensures { IfOk result (λ key. (t : List Entry) → PeersFit peers.now t → key ≡ key_in t conn perf.now) }
{
    match perf {
        Perf::Attach(attach) => Ok(Some(peers.key_of(conn, attach.as_ref())?)),
        _ => Ok(None),
    }
}

//! The deliveries of which more frames remain to be sent, by the router's handles.
ghost use Rattle.std.specs.Prelude.{◌≡◌, ◌==◌, ◌∷◌, List, ℕ, Bool, Option, None, if◌then◌else◌, OnOk, IfOk};
ghost use Rattle.std.specs.Ordering.{nat_cmp};
ghost use Rattle.std.specs.Map.{values_of};
ghost use Rattle.std.specs.BTreeMap.{IsOrdered};
ghost use Rattle.state_deliveries.specs.Finding.{IsListed};
ghost use Rattle.amqp_model.specs.declared.item.Item.TheVariants as item;
ghost use Rattle.router_trace.specs.Trace.{Beginning, Trace};
ghost use Rattle.router_trace.specs.Configuration.{opened};
ghost use Rattle.router_trace.specs.Trace.{Entry, Out, did};
ghost use Rattle.router_trace.specs.declared.event.Event.TheVariants as event;
ghost use Rattle.std.specs.Option.{option_and_then};
ghost use Rattle.router_trace.specs.declared.binding.DeliveryName.{DeliveryName as Name};
ghost use Rattle.router_trace.specs.Deliveries.{carried, number_tagged, tag_in};
ghost use Rattle.state_collections.specs.Places.{at};
ghost use Rattle.state_deliveries.specs.Calling.{at_name, NumbersFit};
ghost use Rattle.state_deliveries.specs.Fits.{SendingFit, carried_in, carried_by};

use crate::by_name::ByName;
use amqp_model::{Item, Perf, Transfer};
use router_trace::ConnectionId;
use state_collections::{ByHandle, InSession};
use std::alloc::{AllocError, Global};

/// The number of the delivery of which more frames remain to be sent, by the router's handle.
#[derive(Drop)]
pub(crate) struct Sending {
    numbers: ByHandle<u64>,
}

impl Sending {
    /// An empty table.
    pub(crate) fn new(alloc: Global) -> Sending
        ensures { (g : Beginning) (below : Trace) → SendingFit result (opened g below) }
    {
        Sending {
            numbers: ByHandle::new(alloc),
        }
    }

    /// The number of the delivery of which more frames remain to be sent on a handle of the router.
    pub(crate) fn on(&self, conn: u64, own: u16, handle: u32) -> Option<u64>
        ensures { result ≡ at self.now.numbers conn own handle }
    {
        self.numbers.get(conn, own, handle).copied()
    }

    /// The numbers of the deliveries of which more frames remain to be sent on a session, in order of the handles.
    pub(crate) fn all_on(&self, alloc: Global, conn: u64, own: u16) -> Result<Vec<u64>, AllocError>
        ensures { IfOk result (λ numbers. IsListed (at self.now.numbers conn own) numbers.items) }
    {
        match self.numbers.session(conn, own) {
            None => Ok(Vec::new(alloc)),
            Some(handles) => Ok(values(alloc, handles)?),
        }
    }

    /// A connection is lost.
    pub(crate) fn down(&mut self, conn: ConnectionId)
        ensures { (t : List Entry) → SendingFit self.old t → SendingFit self.new (did (event.Down conn) ∷ t) }
    {
        let _ = self.numbers.forget(conn.0);
    }

    /// An item is put into the outbox of a connection; `names` are those of the deliveries after it.
    pub(crate) fn put(&mut self, conn: u64, item: &Item, names: &ByName) -> Result<(), AllocError>
        ensures { OnOk result ((t : List Entry) → NumbersFit names.now (Out conn item.now ∷ t) → SendingFit self.old t → SendingFit self.new (Out conn item.now ∷ t)) }
    {
        match item {
            Item::Frame { channel, perf, .. } => self.put_perf(conn, *channel, perf, names)?,
            _ => {}
        }
        Ok(())
    }

    /// A performative is put into the outbox of a connection, on a channel of the router.
    fn put_perf(
        &mut self,
        conn: u64,
        own: u16,
        perf: &Perf,
        names: &ByName,
    ) -> Result<(), AllocError>
        ensures { OnOk result ((t : List Entry) (sasl : Bool) (payload : List ℕ) → NumbersFit names.now (Out conn (item.Frame sasl own perf.now payload) ∷ t)
            → SendingFit self.old t → SendingFit self.new (Out conn (item.Frame sasl own perf.now payload) ∷ t)) }
    {
        match perf {
            Perf::Transfer(transfer) => {
                let number = self.carried(conn, own, transfer, names.begun(transfer));
                self.put_transfer(conn, own, transfer, number)?
            }
            Perf::Detach(detach) => {
                let _ = self.numbers.remove(conn, own, detach.handle);
            }
            Perf::End(_) => {
                let _ = self.numbers.end(conn, own);
            }
            Perf::Close(_) => {
                let _ = self.numbers.forget(conn);
            }
            _ => {}
        }
        Ok(())
    }

    /// The router's transfer.
    pub(crate) fn put_transfer(
        &mut self,
        conn: u64,
        own: u16,
        transfer: &Transfer,
        number: Option<u64>,
    ) -> Result<(), AllocError>
        ensures { OnOk result ((c o h : ℕ) → at self.new.numbers c o h
            ≡ (if conn == c then (if own == o then (if transfer.now.handle == h then (if transfer.now.more then number else None)
            else at self.old.numbers c o h) else at self.old.numbers c o h) else at self.old.numbers c o h)) }
    {
        match unless_last(transfer, number) {
            None => {
                let _ = self.numbers.remove(conn, own, transfer.handle);
                Ok(())
            }
            Some(number) => self.numbers.insert(conn, own, transfer.handle, number),
        }
    }

    /// The delivery that a transfer of the router carries, where `begun` is the one that its tag names.
    pub(crate) fn carried(
        &self,
        conn: u64,
        own: u16,
        transfer: &Transfer,
        begun: Option<u64>,
    ) -> Option<u64>
        ensures { (names : Name → Option ℕ) → begun ≡ option_and_then (number_tagged names) (tag_in transfer.now)
            → result ≡ carried names (tag_in transfer.now) (at self.now.numbers conn own transfer.now.handle) }
    {
        match &transfer.delivery_tag {
            None => self.on(conn, own, transfer.handle),
            Some(_) => begun,
        }
    }

    /// The delivery that an item of the router carries.
    pub(crate) fn carried_by(&self, conn: u64, item: &Item, names: &ByName) -> Option<u64>
        ensures { result ≡ carried_by (at_name names.now) item.now (at self.now.numbers conn) }
    {
        match item {
            Item::Frame { channel, perf, .. } => self.carried_in(conn, *channel, perf, names),
            _ => None,
        }
    }

    /// The delivery that a performative of the router carries.
    fn carried_in(&self, conn: u64, own: u16, perf: &Perf, names: &ByName) -> Option<u64>
        ensures { result ≡ carried_in (at_name names.now) perf.now (at self.now.numbers conn own) }
    {
        match perf {
            Perf::Transfer(transfer) => { self.carried(conn, own, transfer, names.begun(transfer)) }
            _ => None,
        }
    }
}

/// The number, unless a transfer is the last one of its delivery.
fn unless_last(transfer: &Transfer, number: Option<u64>) -> Option<u64>
    ensures { result ≡ (if transfer.now.more then number else None) }
{
    if transfer.more { number } else { None }
}

/// The numbers of a session, in order of their handles.
fn values(alloc: Global, handles: &InSession<u64>) -> Result<Vec<u64>, AllocError>
    ensures values { IfOk result (λ numbers. numbers.items ≡ values_of handles.now.entries) }
    ensures ordered { IsOrdered nat_cmp handles.now }
{
    let mut numbers = Vec::new(alloc);
    for (_, number) in handles {
        numbers.push(*number)?;
    }
    Ok(numbers)
}

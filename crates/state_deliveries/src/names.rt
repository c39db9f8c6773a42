//! Deliveries by the delivery-ids that the router gave them.
ghost use Rattle.std.specs.Prelude.{◌≡◌, ◌==◌, ◌<◌, ◌^◌, ◌&&◌, ◌∷◌, List, ℕ, Bool, None, if◌then◌else◌, OnOk, IfOk};
ghost use Rattle.std.specs.Option.{option_and_then, is_some};
ghost use Rattle.state_collections.specs.NumberMap.{at_number};
ghost use Rattle.amqp_model.specs.declared.perf.Perf.TheVariants as perf;
ghost use Rattle.amqp_model.specs.declared.item.Item.TheVariants as item;
ghost use Rattle.router_trace.specs.Trace.{Beginning, Trace};
ghost use Rattle.router_trace.specs.Configuration.{opened};
ghost use Rattle.router_trace.specs.Trace.{Entry, Out, did};
ghost use Rattle.router_trace.specs.declared.event.Event.TheVariants as event;
ghost use Rattle.router_trace.specs.Deliveries.{delivery, is_id, number_tagged, tag_in, is_number};
ghost use Rattle.state_deliveries.specs.Calling.{at_name};
ghost use Rattle.state_collections.specs.Ids.{at_id};
ghost use Rattle.state_deliveries.specs.Fits.{StoreFit};
ghost use Rattle.amqp_session.specs.Ranges.{has, in_range};
ghost use Rattle.state_deliveries.specs.Hearing.{id_of, picks};
ghost use Rattle.state_deliveries.specs.Naming.{NamesFit, AreSmall, is_open, kept_name, detached_in, uses, opens};
ghost use Rattle.router_trace.specs.Settling.{ids_between};
ghost use Rattle.std.specs.List.{filter};

use crate::spots::Spot;
use crate::store::Store;
use amqp_model::{Item, Perf, Transfer};
use amqp_session::Serial;
use router_trace::ConnectionId;
use state_collections::BySession;
use std::alloc::{AllocError, Global};

/// The numbers of deliveries by the delivery-ids that the router gave them, by session; some of those that aren't undecided are
/// forgotten.
#[derive(Drop)]
pub(crate) struct Names {
    alloc: Global,
    ids: BySession<u64>,
}

impl Names {
    /// An empty table.
    pub(crate) fn new(alloc: Global) -> Names
        ensures { (g : Beginning) (below : Trace) → NamesFit result (opened g below) }
    {
        Names {
            alloc,
            ids: BySession::new(alloc),
        }
    }

    /// The number of the delivery that an id names.
    pub(crate) fn get(&self, conn: u64, own: u16, id: u32) -> Option<u64>
        ensures { result ≡ at_id self.now.ids conn own id }
    {
        self.ids.get(conn, own, id).copied()
    }

    /// The number of the delivery that the id at a place names, if the delivery has this id.
    pub(crate) fn picked(&self, store: &Store, place: Spot) -> Option<u64>
        ensures { (n : ℕ) → is_number result n ≡ picks (at_id self.now.ids place.conn place.own) n (id_of (at_number store.now.deliveries n)) place.at }
    {
        let number = self.get(place.conn, place.own, place.at)?;
        if store.has_id(number, place.at) {
            Some(number)
        } else {
            None
        }
    }

    /// Whether an id names an undecided delivery.
    pub(crate) fn is_used(&self, store: &Store, conn: u64, own: u16, id: u32) -> bool
        ensures { result ≡ uses (at_number store.now.deliveries) (at_id self.now.ids conn own id) }
    {
        match self.get(conn, own, id) {
            None => false,
            Some(number) => store.is_open(number),
        }
    }

    /// Whether an id names an undecided delivery of its session that has this id.
    fn names_open(&self, store: &Store, conn: u64, own: u16, id: u32) -> bool
        ensures { result ≡ opens (at_number store.now.deliveries) conn own id (at_id self.now.ids conn own id) }
    {
        match self.get(conn, own, id) {
            None => false,
            Some(number) => store.is_open_as(number, conn, own, id),
        }
    }

    /// The ids in a disposition's range that name undecided deliveries of the session, in the range's order.
    pub(crate) fn open_ids(
        &self,
        store: &Store,
        conn: u64,
        own: u16,
        first: u32,
        last: u32,
    ) -> Result<Vec<u32>, AllocError>
        ensures { IfOk result (λ found. AreSmall (at_id self.now.ids)
            → found.items ≡ filter (λ id. opens (at_number store.now.deliveries) conn own id (at_id self.now.ids conn own id)) (ids_between first last)) }
    {
        let mut found = Vec::new(self.alloc);
        let ids = self.ids.in_range(conn, own, first, last)?;
        for id in &ids {
            let id = id.number();
            if self.names_open(store, conn, own, id) {
                found.push(id)?;
            }
        }
        Ok(found)
    }

    /// The ids in a disposition's range that name deliveries, in the range's order.
    pub(crate) fn in_range(
        &self,
        conn: u64,
        own: u16,
        first: u32,
        last: u32,
    ) -> Result<Vec<Serial>, AllocError>
        ensures { IfOk result (λ ids. (id : ℕ) → id < 2 ^ 32
            → has id ids.items ≡ (in_range first last id && is_some (at_id self.now.ids conn own id))) }
    {
        Ok(self.ids.in_range(conn, own, first, last)?)
    }

    /// A connection is lost.
    pub(crate) fn down(&mut self, conn: ConnectionId)
        ensures { (t : List Entry) → NamesFit self.old t → NamesFit self.new (did (event.Down conn) ∷ t) }
    {
        self.ids.forget(conn.0);
    }

    /// An item is put into the outbox of a connection; the store has already applied it.
    pub(crate) fn put(&mut self, conn: u64, item: &Item, store: &Store) -> Result<(), AllocError>
        ensures { OnOk result ((t : List Entry) → StoreFit store.now (Out conn item.now ∷ t) → NamesFit self.old t → NamesFit self.new (Out conn item.now ∷ t)) }
    {
        match item {
            Item::Frame { channel, perf, .. } => { self.put_perf(conn, *channel, perf, store)? }
            _ => {}
        }
        Ok(())
    }

    /// A performative is put into the outbox of a connection, on a channel of the router.
    fn put_perf(
        &mut self,
        conn: u64,
        own: u16,
        perf: &Perf,
        store: &Store,
    ) -> Result<(), AllocError>
        ensures { OnOk result ((t : List Entry) (sasl : Bool) (payload : List ℕ) → StoreFit store.now (Out conn (item.Frame sasl own perf.now payload) ∷ t)
            → NamesFit self.old t → NamesFit self.new (Out conn (item.Frame sasl own perf.now payload) ∷ t)) }
    {
        match perf {
            Perf::Transfer(transfer) => {
                let number = store.by_name.begun(transfer);
                self.begin(conn, own, transfer, number, store)?
            }
            Perf::End(_) => self.ids.end(conn, own),
            Perf::Close(_) => self.ids.forget(conn),
            _ => {}
        }
        Ok(())
    }

    /// The router's transfer, which may begin a delivery with an id: the one with this number, if there is one.
    pub(crate) fn begin(
        &mut self,
        conn: u64,
        own: u16,
        transfer: &Transfer,
        number: Option<u64>,
        store: &Store,
    ) -> Result<(), AllocError>
        ensures named { OnOk result ((c o q : ℕ) → at_id self.new.ids c o q
            ≡ (if conn == c then (if own == o then (if is_id transfer.now.delivery_id q then kept_name number (at_number store.now.deliveries) else at_id self.old.ids c o q) else at_id self.old.ids c o q) else at_id self.old.ids c o q)) }
        ensures small { OnOk result (AreSmall (at_id self.old.ids) → AreSmall (at_id self.new.ids)) }
    {
        if let Some(id) = transfer.delivery_id {
            self.set(conn, own, id, kept_name(number, store))?;
        }
        Ok(())
    }

    /// Gives an id this name, or removes its name.
    fn set(&mut self, conn: u64, own: u16, id: u32, name: Option<u64>) -> Result<(), AllocError>
        ensures named { OnOk result ((c o q : ℕ) → at_id self.new.ids c o q
            ≡ (if conn == c then (if own == o then (if id == q then name else at_id self.old.ids c o q) else at_id self.old.ids c o q) else at_id self.old.ids c o q)) }
        ensures small { OnOk result (AreSmall (at_id self.old.ids) → AreSmall (at_id self.new.ids)) }
    {
        match name {
            None => self.ids.remove(conn, own, id),
            Some(number) => self.ids.insert(conn, own, id, number)?,
        }
        Ok(())
    }

    /// Forgets the id at a place, which names the delivery with this number, if that isn't undecided.
    pub(crate) fn forget_closed(&mut self, store: &Store, place: Spot, number: u64)
        ensures { (c o q : ℕ) → at_id self.new.ids c o q
            ≡ (if place.conn == c then (if place.own == o then (if place.at == q then (if is_open (at_number store.now.deliveries number) then at_id self.old.ids c o q else None) else at_id self.old.ids c o q) else at_id self.old.ids c o q) else at_id self.old.ids c o q) }
    {
        if !store.is_open(number) {
            self.ids.remove(place.conn, place.own, place.at);
        }
    }

    /// Forgets an id if it names a delivery which isn't undecided.
    fn settle_one(&mut self, store: &Store, conn: u64, own: u16, id: u32) -> Result<(), AllocError>
        ensures { OnOk result ((t : List Entry) → ((n : ℕ) → at_number store.now.deliveries n ≡ delivery t n) → NamesFit self.old t → NamesFit self.new t) }
    {
        let name = kept_name(self.get(conn, own, id), store);
        self.set(conn, own, id, name)?;
        Ok(())
    }

    /// After an item of the router, forgets those of these ids that name deliveries which aren't undecided, on its session.
    pub(crate) fn settle_put(
        &mut self,
        store: &Store,
        conn: u64,
        item: &Item,
        ids: &[u32],
    ) -> Result<(), AllocError>
        ensures { OnOk result ((t : List Entry) → ((n : ℕ) → at_number store.now.deliveries n ≡ delivery t n) → NamesFit self.old t → NamesFit self.new t) }
    {
        if let Some(own) = detached_in(item) {
            self.settle_all(store, conn, own, ids)?;
        }
        Ok(())
    }

    /// Forgets those of the ids at these places that name deliveries which aren't undecided.
    pub(crate) fn settle_at(&mut self, store: &Store, places: &[Spot]) -> Result<(), AllocError>
        ensures { OnOk result ((t : List Entry) → ((n : ℕ) → at_number store.now.deliveries n ≡ delivery t n) → NamesFit self.old t → NamesFit self.new t) }
    {
        for place in places {
            self.settle_one(store, place.conn, place.own, place.at)?;
        }
        Ok(())
    }

    /// Forgets those of these ids that name deliveries which aren't undecided.
    fn settle_all(
        &mut self,
        store: &Store,
        conn: u64,
        own: u16,
        ids: &[u32],
    ) -> Result<(), AllocError>
        ensures { OnOk result ((t : List Entry) → ((n : ℕ) → at_number store.now.deliveries n ≡ delivery t n) → NamesFit self.old t → NamesFit self.new t) }
    {
        for id in ids {
            self.settle_one(store, conn, own, *id)?;
        }
        Ok(())
    }
}

/// The router's channel of the session on which it detaches a link.
fn detached_in(item: &Item) -> Option<u16>
    ensures { result ≡ detached_in item.now }
{
    match item {
        Item::Frame { channel, perf, .. } => match perf {
            Perf::Detach(_) => Some(*channel),
            _ => None,
        },
        _ => None,
    }
}

/// The number of a delivery, if that is undecided.
fn kept_name(number: Option<u64>, store: &Store) -> Option<u64>
    ensures { result ≡ kept_name number (at_number store.now.deliveries) }
{
    let number = number?;
    if store.is_open(number) {
        Some(number)
    } else {
        None
    }
}

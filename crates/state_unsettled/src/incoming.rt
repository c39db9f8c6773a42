//! The deliveries that peers have not settled, by delivery-id.
ghost use Rattle.std.specs.Prelude.{◌≡◌, ◌==◌, ◌∷◌, List, ℕ, Bool, Some, None, true, if◌then◌else◌, OnOk, IfOk};
ghost use Rattle.std.specs.Option.{option_map};
ghost use Rattle.router_trace.specs.Trace.{Beginning, Trace};
ghost use Rattle.router_trace.specs.Configuration.{opened};
ghost use Rattle.router_trace.specs.Trace.{Entry, Out, Bound, did};
ghost use Rattle.router_trace.specs.declared.binding.Binding.{Binding};
ghost use Rattle.router_trace.specs.Claims.{claims, claim, unless_claimed, claimed_later, bound_claim, claim_after_in};
ghost use Rattle.router_trace.specs.Deliveries.{origin_of, tag_in};
ghost use Rattle.router_trace.specs.Settling.{ids_claimed, is_claimed, is_claimed_on, unbound, is_tag, is_tagged_on, uses_tag};
ghost use Rattle.router_trace.specs.Sessions.{theirs, maps, is_channel};
ghost use Rattle.router_trace.specs.Links.{their_handle, link};
ghost use Rattle.router_trace.specs.Channels.{channel_of};
ghost use Rattle.router_trace.specs.declared.event.Event.TheVariants as event;
ghost use Rattle.amqp_model.specs.declared.item.Item.TheVariants as item;
ghost use Rattle.amqp_model.specs.declared.perf.Perf.TheVariants as perf;
ghost use Rattle.amqp_session.specs.Ranges.{in_range};
ghost use Rattle.state_unsettled.specs.Incoming.{IncomingFit, AreSmall, AreMarked, TellsAny, tagged_at, unbound_handle, stand_of, claimed_at, heard_claim, settled_at, found_by, let_go_at, is_on};
ghost use Rattle.state_collections.specs.Ids.{at_id};
ghost use Rattle.state_collections.specs.NumberSet.{has};

use crate::by_link::{ByLink, Stand};
use amqp_model::{DeliveryTag, Disposition, Item, Perf, Role, Transfer};
use router_trace::{ConnectionId, Origin};
use state_collections::{BySession, NumberSet};
use std::alloc::{AllocError, Global};
use std::marker::Model;

/// Half of the delivery-ids. The last id of a disposition's range is less than this far from its first.
const HALF: u32 = 0x8000_0000;

/// An unsettled delivery of a peer.
#[derive(Drop)]
pub struct IncomingDelivery {
    /// The router's handle of its link.
    pub handle: u32,
    /// Whether it came whole and is bound to no consumer.
    pub unbound: bool,
    /// The delivery-tag of its first frame.
    pub tag: Option<DeliveryTag>,
}

impl Model for IncomingDelivery {
    ghost use Rattle.router_trace.specs.Claims.{Claim as View};
    ghost use Rattle.std.specs.Option.{option_map};

    ghost Value = { View };

    ghost view = { λ c. record { handle = c.handle; unbound = c.unbound; tag = option_map (λ tag. tag.items) c.tag } };
}

/// The delivery in the middle on a link: more frames of it are to come.
#[derive(Clone, Copy, Debug, PartialEq, Eq)]
pub struct Middle {
    /// Its delivery-id.
    pub id: Option<u32>,
}

/// A link on which a peer is the sender, as a transfer finds it.
#[derive(Clone, Copy, Debug, PartialEq, Eq)]
pub struct Receiving {
    /// The router's handle.
    pub handle: u32,
    /// The delivery in the middle.
    pub middle: Option<Middle>,
    /// Whether a delivery that begins now is beyond the credit.
    pub beyond: bool,
}

/// The deliveries that peers have not settled. What it keeps of each link goes when the router detaches that, or with its session or
/// connection, so that it doesn't grow with links that once were. After an error the table's contents are unspecified.
#[derive(Drop)]
pub struct IncomingDeliveries {
    alloc: Global,
    ids: BySession<IncomingDelivery>,
    // the ids of all claims by link, and how many are unbound
    by_link: ByLink,
}

impl IncomingDeliveries {
    /// An empty table.
    pub fn new(alloc: Global) -> IncomingDeliveries
        ensures { (g : Beginning) (below : Trace) → IncomingFit result (opened g below) }
    {
        IncomingDeliveries {
            alloc,
            ids: BySession::new(alloc),
            by_link: ByLink::new(alloc),
        }
    }

    /// A peer's claim to a delivery-id.
    pub fn get(&self, conn: u64, own: u16, id: u32) -> Option<&IncomingDelivery>
        ensures { (t : List Entry) → IncomingFit self.now t → option_map (λ c. c.now) result ≡ claims t conn own id }
    {
        self.ids.get(conn, own, id)
    }

    /// Whether a peer has not settled the delivery with this id of its own.
    pub fn is_claimed(&self, conn: u64, own: u16, id: u32) -> bool
        ensures { (t : List Entry) → IncomingFit self.now t → result ≡ is_claimed t conn own id }
    {
        self.ids.get(conn, own, id).is_some()
    }

    /// The ids in a disposition's range whose deliveries the peer has not settled, in the range's order (AMQP 1.0 part 2, section 2.7.6). In a range of
    /// more than 64 ids it looks only at those that are claimed, never at each id. Fails if memory is refused.
    pub fn ids_claimed(
        &self,
        conn: u64,
        own: u16,
        first: u32,
        last: u32,
    ) -> Result<Vec<u32>, AllocError>
        ensures { IfOk result (λ ids. (t : List Entry) → IncomingFit self.now t → ids.items ≡ ids_claimed t conn own first last) }
    {
        let mut found = Vec::new(self.alloc);
        let ids = self.ids.in_range(conn, own, first, last)?;
        for id in &ids {
            found.push(id.number())?;
        }
        Ok(found)
    }

    /// Whether a peer has not settled the delivery with this id of its own, on the link at a handle of the router.
    pub fn is_claimed_on(&self, conn: u64, own: u16, handle: u32, id: u32) -> bool
        ensures { (t : List Entry) → IncomingFit self.now t → result ≡ is_claimed_on t conn own handle id }
    {
        is_on(self.ids.get(conn, own, id), Some(handle))
    }

    /// How many unsettled deliveries of the peer came whole and are bound to no consumer, on the link at a handle of the router.
    pub fn unbound(&self, conn: u64, own: u16, handle: u32) -> usize
        ensures { (t : List Entry) → IncomingFit self.now t → result ≡ unbound t conn own handle }
    {
        self.by_link.unbound(conn, own, handle)
    }

    /// Whether an unsettled delivery of the peer has this delivery-tag, on the link at a handle of the router. It looks only at the
    /// unsettled deliveries of that link.
    pub fn uses_tag(&self, conn: u64, own: u16, handle: u32, tag: &[u8]) -> bool
        ensures { (t : List Entry) → IncomingFit self.now t → result ≡ uses_tag t conn own handle tag.now }
    {
        match self.by_link.row(conn, own, handle) {
            None => false,
            Some(row) => any_tagged(&self.ids, &row.ids, conn, own, handle, tag),
        }
    }

    /// A message of a peer was bound to a consumer, or joined to a row; the origin is its delivery, unless the peer settled it.
    pub fn bind(&mut self, origin: Option<Origin>) -> Result<(), AllocError>
        ensures { OnOk result ((t : List Entry) (b : Binding) → origin_of b.kind ≡ origin → IncomingFit self.old t → IncomingFit self.new (Bound b ∷ t)) }
    {
        let Some(origin) = origin else {
            return Ok(());
        };
        self.bind_id(origin.link.conn.0, origin.link.channel, origin.id);
        Ok(())
    }

    /// The delivery with an id is bound.
    fn bind_id(&mut self, conn: u64, own: u16, id: u32)
        ensures claims { (c o q : ℕ) → at_id self.new.ids c o q
            ≡ (if conn == c then (if own == o then (if id == q then option_map bound_claim (at_id self.old.ids c o q) else at_id self.old.ids c o q) else at_id self.old.ids c o q) else at_id self.old.ids c o q) }
        ensures marked { AreMarked self.old → AreMarked self.new }
    {
        let handle = bind_in(&mut self.ids, conn, own, id);
        self.by_link.bind(conn, own, handle);
    }

    /// A connection is lost.
    pub fn down(&mut self, conn: ConnectionId)
        ensures { (t : List Entry) → IncomingFit self.old t → IncomingFit self.new (did (event.Down conn) ∷ t) }
    {
        self.forget(conn.0);
    }

    /// An item was received on a connection; `own` is the router's channel of its session, if its channel has one, and `found` the link that a
    /// transfer names, if its handle stands for one on which the peer is the sender.
    pub fn hear(
        &mut self,
        conn: ConnectionId,
        own: Option<u16>,
        item: &Item,
        found: Option<Receiving>,
    ) -> Result<(), AllocError>
        ensures { OnOk result ((t : List Entry) → ((o : ℕ) → is_channel own o ≡ maps (theirs t conn.0 (channel_of item.now)) o)
            → ((o : ℕ) → is_channel own o ≡ true → found ≡ found_by item.now (their_handle t conn.0 o) (link t conn.0 o))
            → IncomingFit self.old t → IncomingFit self.new (did (event.Item conn item.now) ∷ t)) }
    {
        match item {
            Item::Frame { sasl, perf, .. } => {
                if !*sasl {
                    self.hear_perf(conn.0, own, perf, found)?;
                }
            }
            _ => {}
        }
        Ok(())
    }

    /// A performative was received on a connection.
    fn hear_perf(
        &mut self,
        conn: u64,
        own: Option<u16>,
        perf: &Perf,
        link: Option<Receiving>,
    ) -> Result<(), AllocError>
        ensures claims { OnOk result (AreSmall (at_id self.old.ids) → (c o q : ℕ) → at_id self.new.ids c o q
            ≡ (if conn == c then (if is_channel own o then heard_claim perf.now link q (at_id self.old.ids c o q) else at_id self.old.ids c o q) else at_id self.old.ids c o q)) }
        ensures small { OnOk result (AreSmall (at_id self.old.ids) → AreSmall (at_id self.new.ids)) }
        ensures marked { OnOk result (AreMarked self.old → AreMarked self.new) }
    {
        let Some(own) = own else {
            return Ok(());
        };
        match perf {
            Perf::Transfer(transfer) => {
                if let Some(link) = link {
                    self.hear_transfer(conn, own, transfer, link)?;
                }
            }
            Perf::Disposition(disposition) => {
                self.settle(Role::Sender, conn, own, disposition)?;
            }
            _ => {}
        }
        Ok(())
    }

    /// An item is put into the outbox of a connection.
    pub fn put(&mut self, conn: u64, item: &Item) -> Result<(), AllocError>
        ensures { OnOk result ((t : List Entry) → IncomingFit self.old t → IncomingFit self.new (Out conn item.now ∷ t)) }
    {
        match item {
            Item::Frame { channel, perf, .. } => self.put_perf(conn, *channel, perf)?,
            _ => {}
        }
        Ok(())
    }

    /// A performative is put into the outbox of a connection, on a channel of the router.
    fn put_perf(&mut self, conn: u64, own: u16, perf: &Perf) -> Result<(), AllocError>
        ensures claims { OnOk result (AreSmall (at_id self.old.ids) → (c o q : ℕ) → at_id self.new.ids c o q
            ≡ (if conn == c then claim_after_in perf.now own o q (at_id self.old.ids c o q) else at_id self.old.ids c o q)) }
        ensures small { OnOk result (AreSmall (at_id self.old.ids) → AreSmall (at_id self.new.ids)) }
        ensures marked { OnOk result (AreSmall (at_id self.old.ids) → AreMarked self.old → AreMarked self.new) }
    {
        match perf {
            Perf::Disposition(disposition) => {
                self.settle(Role::Receiver, conn, own, disposition)?;
            }
            Perf::Detach(detach) => self.detach(conn, own, detach.handle)?,
            Perf::End(_) => self.end(conn, own),
            Perf::Close(_) => self.forget(conn),
            _ => {}
        }
        Ok(())
    }

    /// The router's disposition.
    pub fn put_disposition(
        &mut self,
        conn: u64,
        own: u16,
        disposition: &Disposition,
    ) -> Result<(), AllocError>
        ensures { OnOk result ((t : List Entry) (sasl : Bool) (payload : List ℕ) → IncomingFit self.old t
            → IncomingFit self.new (Out conn (item.Frame sasl own (perf.Disposition disposition.now) payload) ∷ t)) }
    {
        self.settle(Role::Receiver, conn, own, disposition)?;
        Ok(())
    }

    /// A disposition settles deliveries of a peer, if it comes from an end with this role.
    fn settle(
        &mut self,
        role: Role,
        conn: u64,
        own: u16,
        disposition: &Disposition,
    ) -> Result<(), AllocError>
        ensures claims { OnOk result (AreSmall (at_id self.old.ids) → (c o q : ℕ) → at_id self.new.ids c o q
            ≡ (if conn == c then (if own == o then settled_at role disposition.now q (at_id self.old.ids c o q) else at_id self.old.ids c o q) else at_id self.old.ids c o q)) }
        ensures small { OnOk result (AreSmall (at_id self.old.ids) → AreSmall (at_id self.new.ids)) }
        ensures marked { OnOk result (AreMarked self.old → AreMarked self.new) }
    {
        if disposition.role != role || !disposition.settled {
            return Ok(());
        }
        let last = disposition.last.unwrap_or(disposition.first);
        self.let_go_ids(conn, own, disposition.first, last)?;
        Ok(())
    }

    /// The router detaches a link: the claims on it are removed.
    fn detach(&mut self, conn: u64, own: u16, link: u32) -> Result<(), AllocError>
        ensures claims { OnOk result (AreSmall (at_id self.old.ids) → (c o q : ℕ) → at_id self.new.ids c o q ≡ let_go_at (conn == c) (own == o) true (Some link) (at_id self.old.ids c o q)) }
        ensures small { OnOk result (AreSmall (at_id self.old.ids) → AreSmall (at_id self.new.ids)) }
        ensures marked { OnOk result (AreSmall (at_id self.old.ids) → AreMarked self.old → AreMarked self.new) }
    {
        self.let_go(conn, own, 0, HALF - 1, Some(link))?;
        self.let_go(conn, own, HALF, u32::MAX, Some(link))?;
        self.by_link.detach(conn, own, link);
        Ok(())
    }

    /// A peer's transfer, on a link on which the peer is the sender.
    fn hear_transfer(
        &mut self,
        conn: u64,
        own: u16,
        transfer: &Transfer,
        link: Receiving,
    ) -> Result<(), AllocError>
        ensures claims { OnOk result ((c o q : ℕ) → at_id self.new.ids c o q
            ≡ (if conn == c then (if own == o then claimed_at transfer.now (Some link) q (at_id self.old.ids c o q) else at_id self.old.ids c o q) else at_id self.old.ids c o q)) }
        ensures small { OnOk result (AreSmall (at_id self.old.ids) → AreSmall (at_id self.new.ids)) }
        ensures marked { OnOk result (AreMarked self.old → AreMarked self.new) }
    {
        match link.middle {
            None => match transfer.delivery_id {
                None => {}
                Some(id) => {
                    if !link.beyond {
                        self.begin(conn, own, id, link.handle, transfer)?;
                    }
                }
            },
            Some(middle) => match middle.id {
                None => {}
                Some(id) => self.go_on(conn, own, id, link.handle, transfer)?,
            },
        }
        Ok(())
    }

    /// A transfer begins the delivery with an id on a link, unless the id is claimed already.
    fn begin(
        &mut self,
        conn: u64,
        own: u16,
        id: u32,
        handle: u32,
        transfer: &Transfer,
    ) -> Result<(), AllocError>
        ensures claims { OnOk result ((c o q : ℕ) → at_id self.new.ids c o q
            ≡ (if conn == c then (if own == o then (if id == q then unless_claimed (at_id self.old.ids c o q) (claim handle (tag_in transfer.now) transfer.now) else at_id self.old.ids c o q) else at_id self.old.ids c o q) else at_id self.old.ids c o q)) }
        ensures small { OnOk result (AreSmall (at_id self.old.ids) → AreSmall (at_id self.new.ids)) }
        ensures marked { OnOk result (AreMarked self.old → AreMarked self.new) }
    {
        match self.ids.get(conn, own, id) {
            Some(_) => Ok(()),
            None => {
                let tag = copy_of(&transfer.delivery_tag)?;
                let stood = stand_of(None);
                self.set(conn, own, id, stood, claimed(handle, tag, transfer))
            }
        }
    }

    /// A transfer continues the delivery with an id on a link, if it is claimed there.
    fn go_on(
        &mut self,
        conn: u64,
        own: u16,
        id: u32,
        handle: u32,
        transfer: &Transfer,
    ) -> Result<(), AllocError>
        ensures claims { OnOk result ((c o q : ℕ) → at_id self.new.ids c o q
            ≡ (if conn == c then (if own == o then (if id == q then claimed_later handle transfer.now (at_id self.old.ids c o q) else at_id self.old.ids c o q) else at_id self.old.ids c o q) else at_id self.old.ids c o q)) }
        ensures small { OnOk result (AreSmall (at_id self.old.ids) → AreSmall (at_id self.new.ids)) }
        ensures marked { OnOk result (AreMarked self.old → AreMarked self.new) }
    {
        let Some(claim) = self.ids.get(conn, own, id) else {
            return Ok(());
        };
        if claim.handle != handle {
            return Ok(());
        }
        let stood = stand_of(Some(claim));
        let tag = copy_of(&claim.tag)?;
        self.set(conn, own, id, stood, claimed(handle, tag, transfer))
    }

    /// Frees the ids of a range on a session. One id alone is looked up, and no list of ids is made.
    fn let_go_ids(&mut self, conn: u64, own: u16, first: u32, last: u32) -> Result<(), AllocError>
        ensures claims { OnOk result (AreSmall (at_id self.old.ids) → (c o q : ℕ) → at_id self.new.ids c o q
            ≡ let_go_at (conn == c) (own == o) (in_range first last q) None (at_id self.old.ids c o q)) }
        ensures small { OnOk result (AreSmall (at_id self.old.ids) → AreSmall (at_id self.new.ids)) }
        ensures marked { OnOk result (AreMarked self.old → AreMarked self.new) }
    {
        if first == last {
            self.let_go_one(conn, own, first, None);
            return Ok(());
        }
        self.let_go(conn, own, first, last, None)?;
        Ok(())
    }

    /// Frees the ids of a range on a session: those claimed on this link of the router, or all.
    fn let_go(
        &mut self,
        conn: u64,
        own: u16,
        first: u32,
        last: u32,
        link: Option<u32>,
    ) -> Result<(), AllocError>
        ensures claims { OnOk result (AreSmall (at_id self.old.ids) → (c o q : ℕ) → at_id self.new.ids c o q
            ≡ let_go_at (conn == c) (own == o) (in_range first last q) link (at_id self.old.ids c o q)) }
        ensures small { OnOk result (AreSmall (at_id self.old.ids) → AreSmall (at_id self.new.ids)) }
        ensures marked { OnOk result (AreMarked self.old → AreMarked self.new) }
    {
        let ids = self.ids.in_range(conn, own, first, last)?;
        for id in &ids {
            self.let_go_one(conn, own, id.number(), link);
        }
        Ok(())
    }

    /// Frees an id if it is claimed on this link of the router, or on any.
    fn let_go_one(&mut self, conn: u64, own: u16, id: u32, link: Option<u32>)
        ensures claims { (c o q : ℕ) → at_id self.new.ids c o q ≡ let_go_at (conn == c) (own == o) (id == q) link (at_id self.old.ids c o q) }
        ensures marked { AreMarked self.old → AreMarked self.new }
    {
        let old = self.ids.get(conn, own, id);
        if is_on(old, link) {
            let stood = stand_of(old);
            self.clear(conn, own, id, stood);
        }
    }

    /// Removes the claims on a session.
    fn end(&mut self, conn: u64, own: u16)
        ensures claims { (c o q : ℕ) → at_id self.new.ids c o q ≡ (if conn == c then (if own == o then None else at_id self.old.ids c o q) else at_id self.old.ids c o q) }
        ensures marked { AreMarked self.old → AreMarked self.new }
    {
        self.ids.end(conn, own);
        self.by_link.end(conn, own);
    }

    /// Removes the claims on a connection.
    fn forget(&mut self, conn: u64)
        ensures claims { (c o q : ℕ) → at_id self.new.ids c o q ≡ (if conn == c then None else at_id self.old.ids c o q) }
        ensures marked { AreMarked self.old → AreMarked self.new }
    {
        self.ids.forget(conn);
        self.by_link.forget(conn);
    }

    /// Removes the claim to an id, which stands here.
    fn clear(&mut self, conn: u64, own: u16, id: u32, stood: Option<Stand>)
        ensures claims { (c o q : ℕ) → at_id self.new.ids c o q
            ≡ (if conn == c then (if own == o then (if id == q then None else at_id self.old.ids c o q) else at_id self.old.ids c o q) else at_id self.old.ids c o q) }
        ensures marked { stood ≡ stand_of (at_id self.old.ids conn own id) → AreMarked self.old → AreMarked self.new }
    {
        self.by_link.leave(conn, own, stood, id);
        self.ids.remove(conn, own, id);
    }

    /// Gives an id this claim and replaces the one that it had, which stands here.
    fn put_claim(
        &mut self,
        conn: u64,
        own: u16,
        id: u32,
        stood: Option<Stand>,
        claim: IncomingDelivery,
    ) -> Result<(), AllocError>
        ensures claims { OnOk result ((c o q : ℕ) → at_id self.new.ids c o q
            ≡ (if conn == c then (if own == o then (if id == q then Some claim else at_id self.old.ids c o q) else at_id self.old.ids c o q) else at_id self.old.ids c o q)) }
        ensures marked { OnOk result (stood ≡ stand_of (at_id self.old.ids conn own id) → AreMarked self.old → AreMarked self.new) }
    {
        self.by_link.shift(conn, own, stood, stand(&claim), id)?;
        self.ids.insert(conn, own, id, claim)?;
        Ok(())
    }

    /// Gives an id this claim in place of the one that it had, which stands here, or removes that.
    fn set(
        &mut self,
        conn: u64,
        own: u16,
        id: u32,
        stood: Option<Stand>,
        claim: Option<IncomingDelivery>,
    ) -> Result<(), AllocError>
        ensures claims { OnOk result ((c o q : ℕ) → at_id self.new.ids c o q
            ≡ (if conn == c then (if own == o then (if id == q then claim else at_id self.old.ids c o q) else at_id self.old.ids c o q) else at_id self.old.ids c o q)) }
        ensures small { OnOk result (AreSmall (at_id self.old.ids) → AreSmall (at_id self.new.ids)) }
        ensures marked { OnOk result (stood ≡ stand_of (at_id self.old.ids conn own id) → AreMarked self.old → AreMarked self.new) }
    {
        match claim {
            None => self.clear(conn, own, id, stood),
            Some(claim) => self.put_claim(conn, own, id, stood, claim)?,
        }
        Ok(())
    }
}

/// The claim by a transfer that begins or continues a delivery with this tag.
fn claimed(handle: u32, tag: Option<DeliveryTag>, transfer: &Transfer) -> Option<IncomingDelivery>
    ensures { result ≡ claim handle (option_map (λ tag. tag.items) tag) transfer.now }
{
    if transfer.settled || transfer.aborted {
        return None;
    }
    Some(IncomingDelivery {
        handle,
        unbound: !transfer.more,
        tag,
    })
}

/// The delivery with an id is bound, on a session of a connection. Returns the router's handle of its link if it was unbound.
fn bind_in(ids: &mut BySession<IncomingDelivery>, conn: u64, own: u16, id: u32) -> Option<u32>
    ensures gives { result ≡ unbound_handle (at_id ids.old conn own id) }
    ensures claims { (c o q : ℕ) → at_id ids.new c o q
        ≡ (if conn == c then (if own == o then (if id == q then option_map bound_claim (at_id ids.old c o q) else at_id ids.old c o q) else at_id ids.old c o q) else at_id ids.old c o q) }
{
    match ids.get_mut(conn, own, id) {
        None => None,
        Some(claim) => bind_claim(claim),
    }
}

/// A claim is bound. Returns the router's handle of its link if it was unbound.
fn bind_claim(claim: &mut IncomingDelivery) -> Option<u32>
    ensures gives { result ≡ unbound_handle (Some claim.old) }
    ensures claims { claim.new ≡ bound_claim claim.old }
{
    let handle = unbound_handle(Some(&*claim));
    claim.unbound = false;
    handle
}

/// A copy of a tag.
fn copy_of(tag: &Option<DeliveryTag>) -> Result<Option<DeliveryTag>, AllocError>
    ensures same { IfOk result (λ copy. copy ≡ tag.now) }
    ensures text { IfOk result (λ copy. option_map (λ tag. tag.items) copy ≡ option_map (λ tag. tag.items) tag.now) }
{
    match tag {
        None => Ok(None),
        Some(tag) => Ok(Some(tag.clone()?)),
    }
}

/// Where a claim stands, if there is one.
fn stand_of(claim: Option<&IncomingDelivery>) -> Option<Stand>
    ensures { result ≡ stand_of (option_map (λ c. c.now) claim.entry) }
{
    match claim {
        None => None,
        Some(claim) => Some(stand(claim)),
    }
}

/// Where a claim stands.
fn stand(claim: &IncomingDelivery) -> Stand
    ensures { Some result ≡ stand_of (Some claim.now) }
{
    Stand {
        handle: claim.handle,
        unbound: claim.unbound,
    }
}

/// Whether the claim of one of these ids has this tag, on a link of the router.
fn any_tagged(
    claims: &BySession<IncomingDelivery>,
    ids: &NumberSet,
    conn: u64,
    own: u16,
    handle: u32,
    tag: &[u8],
) -> bool
    ensures { TellsAny (has ids.now) (tagged_at handle tag.now (at_id claims.now conn own)) result }
{
    let mut next = ids.first();
    while let Some(id) = next {
        if tagged_at(claims, conn, own, handle, id, tag) {
            return true;
        }
        next = ids.after(id);
    }
    false
}

/// Whether the claim of an id has this tag, on a link of the router.
fn tagged_at(
    claims: &BySession<IncomingDelivery>,
    conn: u64,
    own: u16,
    handle: u32,
    id: u64,
    tag: &[u8],
) -> bool
    ensures { result ≡ tagged_at handle tag.now (at_id claims.now conn own) id }
{
    match u32::try_from(id) {
        Err(_) => false,
        Ok(id) => is_tagged_on(claims.get(conn, own, id), handle, tag),
    }
}

/// Whether a claim has this tag, on a link of the router.
fn is_tagged_on(claim: Option<&IncomingDelivery>, handle: u32, tag: &[u8]) -> bool
    ensures { result ≡ is_tagged_on handle tag.now (option_map (λ c. c.now) claim.entry) }
{
    match claim {
        None => false,
        Some(claim) => claim.handle == handle && is_tag(&claim.tag, tag),
    }
}

/// Whether a tag is this one.
fn is_tag(own: &Option<DeliveryTag>, tag: &[u8]) -> bool
    ensures { result ≡ is_tag (option_map (λ tag. tag.items) own.now) tag.now }
{
    match own {
        None => false,
        Some(own) => own.as_slice() == tag,
    }
}

/// The router's handle of an unbound claim.
fn unbound_handle(claim: Option<&IncomingDelivery>) -> Option<u32>
    ensures { result ≡ unbound_handle (option_map (λ c. c.now) claim.entry) }
{
    match claim {
        None => None,
        Some(claim) => {
            if claim.unbound {
                Some(claim.handle)
            } else {
                None
            }
        }
    }
}

/// Whether a claim is on this link of the router, or on any.
fn is_on(claim: Option<&IncomingDelivery>, link: Option<u32>) -> bool
    ensures { result ≡ is_on (option_map (λ c. c.now) claim.entry) link }
{
    match (claim, link) {
        (None, _) => false,
        (Some(_), None) => true,
        (Some(claim), Some(link)) => claim.handle == link,
    }
}

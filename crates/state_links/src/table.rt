//! The links that the router took, with their keys and numbers.
ghost use Rattle.std.specs.Prelude.{◌≡◌, ◌==◌, ◌+◌, ◌||◌, ◌&&◌, ◌∷◌, List, ℕ, Bool, Some, None, true, false, if◌then◌else◌, IfOk, OnOk};
ghost use Rattle.std.specs.Option.{option_map};
ghost use Rattle.std.specs.Ordering.{nat_cmp, is_eq};
ghost use Rattle.std.specs.BTreeMap.{get};
ghost use Rattle.std.specs.BTreeSet.{contains};
ghost use Rattle.state_collections.specs.NumberSet.{has};
ghost use Rattle.amqp_model.specs.declared.perf.Perf.TheVariants as perf;
ghost use Rattle.amqp_model.specs.declared.perf.End.{End};
ghost use Rattle.amqp_model.specs.declared.perf.Close.{Close};
ghost use Rattle.amqp_model.specs.declared.item.Item.TheVariants as item;
ghost use Rattle.book_model.specs.Keys.{key_cmp};
ghost use Rattle.book_model.specs.declared.terminus.LinkKey.{LinkKey as AKey};
ghost use Rattle.router_trace.specs.Trace.{Beginning, Trace};
ghost use Rattle.router_trace.specs.Configuration.{opened};
ghost use Rattle.router_trace.specs.Trace.{Entry, Out, did};
ghost use Rattle.router_trace.specs.Sessions.{is_channel, maps, theirs};
ghost use Rattle.router_trace.specs.Links.{is_handle, their_handle, asked, key_at, is_attached, if_attached, holder, place_of};
ghost use Rattle.router_trace.specs.declared.event.Event.TheVariants as event;
ghost use Rattle.state_links.specs.declared.link.Side.TheVariants.{Peer};
ghost use Rattle.state_links.specs.Ends.{begun, noted, after_our_flow, after_our_transfer};
ghost use Rattle.state_links.specs.Giving.{part_here, part_named};
ghost use Rattle.state_links.specs.Looking.{middle_here, durable_at, attachment_of, numbered_here};
ghost use Rattle.state_links.specs.Fits.{TableFit, with_mark, asks_drain, names_in, key_in, asked_in, found_at, attachment};
ghost use Rattle.state_links.specs.Naming.{on_conn, on_session, on_handle, Thinned};
ghost use Rattle.state_collections.specs.Places.{at};
ghost use Rattle.state_links.specs.Owed.{owed_of, owes_on};
ghost use Rattle.state_links.specs.Touching.{is_numbered, named_link, in_session, in_connection, Touched, IsLowest};
ghost use Rattle.state_collections.specs.NumberMap.{at_number};

use crate::found::FoundLink;
use crate::link::{Link, Side, address_by};
use crate::names::Names;
use crate::owed::{append_all, settle};
use crate::touched::{touch, touch_at, touch_connection, touch_session};
use amqp_link::Part;
use amqp_model::{Attach, Detach, Flow, Perf, Text, Transfer};
use book_model::LinkKey;
use bytes::Bytes;
use router_trace::{Asked, Attachment, ConnectionId, LinkAt};
use state_collections::{ByHandle, InConnection, InSession, NumberSet};
use std::alloc::{AllocError, Global};
use std::collections::BTreeSet;

/// The links that the router took, with their keys and numbers. If an operation fails to allocate, the table's contents are unspecified.
#[derive(Drop)]
pub struct LinkTable {
    alloc: Global,
    // by the router's handle
    links: ByHandle<Link>,
    names: Names,
    // how many attachments there were
    count: u64,
    // the connections that may have a link that owes a drain
    owing: BTreeSet<u64>,
    // the numbers of links that may have changed
    touched: NumberSet,
}

impl LinkTable {
    /// An empty table.
    pub fn new(alloc: Global) -> LinkTable
        ensures fits { (g : Beginning) (below : Trace) → TableFit result (opened g below) }
        ensures untouched { (k : ℕ) → has result.touched k ≡ false }
    {
        LinkTable {
            alloc,
            links: ByHandle::new(alloc),
            names: Names::new(alloc),
            count: 0,
            owing: BTreeSet::new(alloc),
            touched: NumberSet::new(alloc),
        }
    }

    /// What is on a handle of the router.
    pub fn find(&self, conn: u64, own: u16, handle: u32) -> FoundLink<'_>
        ensures place { result.place ≡ found_at handle (at self.now.links conn own handle) }
        ensures middle { option_map (λ d. d.now) result.middle ≡ middle_here (at self.now.links conn own handle) }
        ensures key { option_map (λ k. k.now) result.key ≡ durable_at (at self.now.links conn own handle) }
    {
        match self.links.get(conn, own, handle) {
            None => FoundLink::unlinked(LinkAt::Nowhere),
            Some(link) => FoundLink {
                place: link.place(handle),
                middle: link.middle(),
                key: link.durable_key(),
            },
        }
    }

    /// The link on a handle of the router.
    pub fn link(&self, conn: u64, own: u16, handle: u32) -> Option<&Link>
        ensures { option_map (λ l. l.now) result ≡ at self.now.links conn own handle }
    {
        self.links.get(conn, own, handle)
    }

    /// The attachment of the link on a handle of the router.
    pub fn attachment(&self, conn: u64, own: u16, handle: u32) -> Option<Attachment>
        ensures { result ≡ option_map (attachment_of conn own handle) (at self.now.links conn own handle) }
    {
        match self.links.get(conn, own, handle) {
            None => None,
            Some(link) => Some(Attachment {
                number: link.number,
                conn: ConnectionId(conn),
                channel: own,
                handle,
            }),
        }
    }

    /// The key of the link on a handle of the router, if that link is durable.
    pub fn durable_key(&self, conn: u64, own: u16, handle: u32) -> Option<&LinkKey>
        ensures { option_map (λ k. k.now) result ≡ durable_at (at self.now.links conn own handle) }
    {
        match self.links.get(conn, own, handle) {
            None => None,
            Some(link) => link.durable_key(),
        }
    }

    /// The attachment with a key.
    pub fn holder(&self, key: &LinkKey) -> Option<Attachment>
        ensures { (t : List Entry) → TableFit self.now t → result ≡ holder t key.now }
    {
        self.if_attached(self.names.of_key(key))
    }

    /// The attachment with a number.
    pub fn place_of(&self, number: u64) -> Option<Attachment>
        ensures { (t : List Entry) → TableFit self.now t → result ≡ place_of t number }
    {
        self.if_attached(self.names.of_number(number))
    }

    /// The link of the attachment with a number, if it still has it.
    pub fn by_number(&self, number: u64) -> Option<&Link>
        ensures { option_map (λ l. l.now) result ≡ numbered_here (at self.now.links) (at_number self.now.names.numbers.entries number) }
    {
        let place = self.names.of_number(number)?;
        let link = self.links.get(place.conn.0, place.channel, place.handle)?;
        if link.number == place.number {
            Some(link)
        } else {
            None
        }
    }

    /// The attachment, if it still has its link.
    fn if_attached(&self, attachment: Option<Attachment>) -> Option<Attachment>
        ensures { (t : List Entry) → TableFit self.now t → result ≡ if_attached t attachment }
    {
        let attachment = attachment?;
        if self.is_attached(attachment) {
            Some(attachment)
        } else {
            None
        }
    }

    /// Whether an attachment still has its link.
    fn is_attached(&self, attachment: Attachment) -> bool
        ensures { (t : List Entry) → TableFit self.now t → result ≡ is_attached t attachment }
    {
        match self
            .links
            .get(attachment.conn.0, attachment.channel, attachment.handle)
        {
            None => false,
            Some(link) => link.number == attachment.number,
        }
    }

    /// How many attachments there were.
    pub fn attachments(&self) -> u64
        ensures { result ≡ self.now.count }
    {
        self.count
    }

    /// The attachments of the links that owe a drain and on which the router is the sender, by connection and by channel.
    pub fn owed(&self) -> Result<Vec<Attachment>, AllocError>
        ensures { IfOk result (λ xs. xs.items ≡ owed_of (at_number self.now.links.rows) self.now.owing.keys) }
    {
        let mut owed = Vec::new(self.alloc);
        append_all(&mut owed, &self.owing, &self.links)?;
        Ok(owed)
    }

    /// Unmarks the connections on which no link owes a drain.
    pub fn settle_owed(&mut self)
        ensures rest { self.new ≡ record self.old { owing = self.new.owing } }
        ensures marks { (c : ℕ) → contains nat_cmp self.new.owing c ≡ (owes_on (at_number self.old.links.rows c) && contains nat_cmp self.old.owing c) }
    {
        settle(&mut self.owing, &self.links);
    }

    /// The lowest number of a link that may have changed since its number was forgotten.
    pub fn touched(&self) -> Option<u64>
        ensures { IsLowest (has self.now.touched) result }
    {
        self.touched.first()
    }

    /// Forgets that the link with a number may have changed.
    pub fn forget_touched(&mut self, number: u64)
        ensures rest { self.new ≡ record self.old { touched = self.new.touched } }
        ensures gone { (k : ℕ) → has self.new.touched k ≡ (if number == k then false else has self.old.touched k) }
    {
        self.touched.remove(number);
    }

    /// A connection is lost.
    pub fn down(&mut self, conn: ConnectionId) -> Result<(), AllocError>
        ensures fits { (t : List Entry) → TableFit self.old t → TableFit self.new (did (event.Down conn) ∷ t) }
        ensures touches { OnOk result (Touched self.old self.new) }
    {
        self.forget(conn.0)
    }

    /// A performative of the peer was received on the session with the router's channel `own`, for the link on the router's handle
    /// `handle`, if there are such. Returns what a transfer makes of its delivery.
    pub fn hear(
        &mut self,
        conn: ConnectionId,
        own: Option<u16>,
        handle: Option<u32>,
        perf: &Perf,
        payload: &Bytes,
    ) -> Result<Option<Part>, AllocError>
        ensures fits { OnOk result ((t : List Entry) (channel : ℕ) → ((o : ℕ) → is_channel own o ≡ maps (theirs t conn.0 channel) o)
            → ((o h : ℕ) → is_channel own o ≡ true → is_handle handle h ≡ names_in perf.now (their_handle t conn.0 o) h)
            → TableFit self.old t → TableFit self.new (did (event.Item conn (item.Frame false channel perf.now payload.now)) ∷ t)) }
        ensures part { IfOk result (λ p. p ≡ part_named Peer perf.now payload.now own handle (at self.old.links conn.0)) }
        ensures touches { OnOk result (Touched self.old self.new) }
    {
        mark(&mut self.owing, conn.0, asks_drain(perf))?;
        let part = note(
            &mut self.touched,
            &mut self.links,
            conn.0,
            own,
            handle,
            Side::Peer,
            perf,
            payload,
        )?;
        Ok(part)
    }

    /// A performative is put into the outbox of a connection, on a channel of the router. An attach comes with its key and with
    /// what the peer's last attach asks for.
    pub fn put(
        &mut self,
        conn: u64,
        own: u16,
        perf: &Perf,
        payload: &Bytes,
        key: Option<LinkKey>,
        last: Option<&Asked>,
    ) -> Result<(), AllocError>
        ensures fits { OnOk result ((t : List Entry) (sasl : Bool) → key ≡ key_in t conn perf.now → option_map (λ a. a.now) last.entry ≡ asked_in t conn perf.now
            → TableFit self.old t → TableFit self.new (Out conn (item.Frame sasl own perf.now payload.now) ∷ t)) }
        ensures touches { OnOk result (Touched self.old self.new) }
    {
        match perf {
            Perf::Attach(attach) => self.put_attach(conn, own, attach.as_ref(), key, last)?,
            Perf::Flow(flow) => self.put_flow(conn, own, flow)?,
            Perf::Transfer(transfer) => self.put_transfer(conn, own, transfer)?,
            Perf::Detach(detach) => self.put_detach(conn, own, detach)?,
            Perf::End(_) => self.put_end(conn, own)?,
            Perf::Close(_) => self.forget(conn)?,
            _ => {}
        }
        Ok(())
    }

    /// The router's attach, which may take a link.
    fn put_attach(
        &mut self,
        conn: u64,
        own: u16,
        attach: &Attach,
        key: Option<LinkKey>,
        last: Option<&Asked>,
    ) -> Result<(), AllocError>
        ensures fits { OnOk result ((t : List Entry) (sasl : Bool) (payload : List ℕ) → key ≡ Some (key_at t conn attach.now) → option_map (λ a. a.now) last.entry ≡ asked t conn
            → TableFit self.old t → TableFit self.new (Out conn (item.Frame sasl own (perf.Attach attach.now) payload) ∷ t)) }
        ensures touches { OnOk result (Touched self.old self.new) }
    {
        touch_at(&mut self.touched, &self.links, conn, own, attach.handle)?;
        leave(&mut self.links, &mut self.names, conn, own, attach.handle);
        let Some(address) = address_by(attach.role, attach) else {
            return Ok(());
        };
        let Some(key) = key else {
            return Err(AllocError);
        };
        self.join(conn, own, attach, key, address, last)?;
        Ok(())
    }

    /// Takes a link.
    fn join(
        &mut self,
        conn: u64,
        own: u16,
        attach: &Attach,
        key: LinkKey,
        address: &Text,
        last: Option<&Asked>,
    ) -> Result<(), AllocError>
        ensures links { OnOk result ((c o h : ℕ) → at self.new.links c o h
            ≡ (if conn == c then (if own == o then (if attach.now.handle == h then Some (begun (self.old.count + 1) key attach.now (option_map (λ a. a.now) last.entry) address.now) else at self.old.links c o h) else at self.old.links c o h) else at self.old.links c o h)) }
        ensures count { OnOk result (self.new.count ≡ self.old.count + 1) }
        ensures keys { OnOk result ((k : AKey) → get key_cmp self.new.names.keys.entries k
            ≡ (if is_eq (key_cmp key k) then Some (attachment (self.old.count + 1) conn own attach.now.handle) else get key_cmp self.old.names.keys.entries k)) }
        ensures numbers { OnOk result ((n : ℕ) → at_number self.new.names.numbers.entries n
            ≡ (if self.old.count + 1 == n then Some (attachment (self.old.count + 1) conn own attach.now.handle) else at_number self.old.names.numbers.entries n)) }
        ensures owing { self.new.owing ≡ self.old.owing }
        ensures touched { OnOk result ((k : ℕ) → has self.new.touched k ≡ (if self.old.count + 1 == k then true else has self.old.touched k)) }
    {
        let Some(number) = self.count.checked_add(1) else {
            return Err(AllocError);
        };
        touch(&mut self.touched, number)?;
        let link = Link::begun(self.alloc, number, key.clone()?, attach, last, address)?;
        self.links.insert(conn, own, attach.handle, link)?;
        self.names.take(
            key,
            Attachment {
                number,
                conn: ConnectionId(conn),
                channel: own,
                handle: attach.handle,
            },
        )?;
        self.count = number;
        Ok(())
    }

    /// The router's transfer.
    pub fn put_transfer(
        &mut self,
        conn: u64,
        own: u16,
        transfer: &Transfer,
    ) -> Result<(), AllocError>
        ensures fits { OnOk result ((t : List Entry) (sasl : Bool) (payload : List ℕ) → TableFit self.old t
            → TableFit self.new (Out conn (item.Frame sasl own (perf.Transfer transfer.now) payload) ∷ t)) }
        ensures touches { OnOk result (Touched self.old self.new) }
    {
        note_transfer(&mut self.touched, &mut self.links, conn, own, transfer)?;
        Ok(())
    }

    /// The router's flow, which may be on a link.
    pub fn put_flow(&mut self, conn: u64, own: u16, flow: &Flow) -> Result<(), AllocError>
        ensures fits { OnOk result ((t : List Entry) (sasl : Bool) (payload : List ℕ) → TableFit self.old t
            → TableFit self.new (Out conn (item.Frame sasl own (perf.Flow flow.now) payload) ∷ t)) }
        ensures touches { OnOk result (Touched self.old self.new) }
    {
        note_flow(
            &mut self.touched,
            &mut self.links,
            conn,
            own,
            flow.handle,
            flow,
        )?;
        Ok(())
    }

    /// The router's detach.
    fn put_detach(&mut self, conn: u64, own: u16, detach: &Detach) -> Result<(), AllocError>
        ensures fits { OnOk result ((t : List Entry) (sasl : Bool) (payload : List ℕ) → TableFit self.old t
            → TableFit self.new (Out conn (item.Frame sasl own (perf.Detach detach.now) payload) ∷ t)) }
        ensures touches { OnOk result (Touched self.old self.new) }
    {
        touch_at(&mut self.touched, &self.links, conn, own, detach.handle)?;
        leave(&mut self.links, &mut self.names, conn, own, detach.handle);
        Ok(())
    }

    /// The router's end.
    fn put_end(&mut self, conn: u64, own: u16) -> Result<(), AllocError>
        ensures fits { (t : List Entry) (sasl : Bool) (payload : List ℕ) (x : End) → TableFit self.old t
            → TableFit self.new (Out conn (item.Frame sasl own (perf.End x) payload) ∷ t) }
        ensures touches { OnOk result (Touched self.old self.new) }
    {
        match self.links.end(conn, own) {
            None => Ok(()),
            Some(handles) => leave_session(&mut self.names, &mut self.touched, conn, own, handles),
        }
    }

    /// Removes all links of a connection.
    fn forget(&mut self, conn: u64) -> Result<(), AllocError>
        ensures down { (t : List Entry) → TableFit self.old t → TableFit self.new (did (event.Down (record { 0 = conn })) ∷ t) }
        ensures closed { (t : List Entry) (sasl : Bool) (own : ℕ) (payload : List ℕ) (x : Close) → TableFit self.old t
            → TableFit self.new (Out conn (item.Frame sasl own (perf.Close x) payload) ∷ t) }
        ensures touches { OnOk result (Touched self.old self.new) }
    {
        let _ = self.owing.remove(&conn);
        match self.links.forget(conn) {
            None => Ok(()),
            Some(sessions) => leave_connection(&mut self.names, &mut self.touched, conn, sessions),
        }
    }
}

/// Removes the link at a place, if there is one, and its names.
fn leave(links: &mut ByHandle<Link>, names: &mut Names, conn: u64, own: u16, handle: u32)
    ensures links { (c o h : ℕ) → at links.new c o h
        ≡ (if conn == c then (if own == o then (if handle == h then None else at links.old c o h) else at links.old c o h) else at links.old c o h) }
    ensures names { Thinned (on_handle conn own handle) names.old names.new }
    ensures others { (k : ℕ) → is_numbered k (at links.old conn own handle) ≡ false → at_number names.old.numbers.entries k ≡ at_number names.new.numbers.entries k }
{
    if let Some(link) = links.remove(conn, own, handle) {
        names.forget(conn, own, handle, &link);
    }
}

/// Removes the names of the links of a session that ended, and touches the links.
fn leave_session(
    names: &mut Names,
    touched: &mut NumberSet,
    conn: u64,
    own: u16,
    handles: InSession<Link>,
) -> Result<(), AllocError>
    ensures names { Thinned (on_session conn own) names.old names.new }
    ensures others { (k : ℕ) → in_session k handles ≡ false → at_number names.old.numbers.entries k ≡ at_number names.new.numbers.entries k }
    ensures touched { OnOk result ((k : ℕ) → has touched.new k ≡ (in_session k handles || has touched.old k)) }
{
    names.forget_session(conn, own, &handles);
    touch_session(touched, &handles)
}

/// Removes the names of the links of a connection that ended, and touches the links.
fn leave_connection(
    names: &mut Names,
    touched: &mut NumberSet,
    conn: u64,
    sessions: InConnection<Link>,
) -> Result<(), AllocError>
    ensures names { Thinned (on_conn conn) names.old names.new }
    ensures others { (k : ℕ) → in_connection k sessions ≡ false → at_number names.old.numbers.entries k ≡ at_number names.new.numbers.entries k }
    ensures touched { OnOk result ((k : ℕ) → has touched.new k ≡ (in_connection k sessions || has touched.old k)) }
{
    names.forget_connection(conn, &sessions);
    touch_connection(touched, &sessions)
}

/// Applies a performative of one side to a link, if there is one, and touches it. Returns what a transfer of the peer makes of its delivery.
fn note(
    touched: &mut NumberSet,
    links: &mut ByHandle<Link>,
    conn: u64,
    own: Option<u16>,
    handle: Option<u32>,
    side: Side,
    perf: &Perf,
    payload: &Bytes,
) -> Result<Option<Part>, AllocError>
    ensures links { OnOk result ((c o h : ℕ) → at links.new c o h
        ≡ (if conn == c then (if is_channel own o then (if is_handle handle h then option_map (noted side perf.now payload.now) (at links.old c o h) else at links.old c o h) else at links.old c o h) else at links.old c o h)) }
    ensures part { IfOk result (λ p. p ≡ part_named side perf.now payload.now own handle (at links.old conn)) }
    ensures touched { OnOk result ((k : ℕ) → has touched.new k
        ≡ (if is_numbered k (named_link own handle (at links.old conn)) then true else has touched.old k)) }
{
    let (Some(own), Some(handle)) = (own, handle) else {
        return Ok(None);
    };
    note_at(touched, links, conn, own, handle, side, perf, payload)
}

/// Applies a performative of one side to the link at a place, if there is one, and touches it. Returns what a transfer of the peer makes of its
/// delivery. If memory is refused, the link's state is unspecified.
fn note_at(
    touched: &mut NumberSet,
    links: &mut ByHandle<Link>,
    conn: u64,
    own: u16,
    handle: u32,
    side: Side,
    perf: &Perf,
    payload: &Bytes,
) -> Result<Option<Part>, AllocError>
    ensures links { OnOk result ((c o h : ℕ) → at links.new c o h
        ≡ (if conn == c then (if own == o then (if handle == h then option_map (noted side perf.now payload.now) (at links.old c o h) else at links.old c o h) else at links.old c o h) else at links.old c o h)) }
    ensures part { IfOk result (λ p. p ≡ part_here side perf.now payload.now (at links.old conn own handle)) }
    ensures touched { OnOk result ((k : ℕ) → has touched.new k
        ≡ (if is_numbered k (at links.old conn own handle) then true else has touched.old k)) }
{
    match links.get_mut(conn, own, handle) {
        None => Ok(None),
        Some(link) => {
            touch(touched, link.number)?;
            link.note(side, perf, payload)
        }
    }
}

/// Applies a transfer of the router to the link on its handle, if there is one, and touches it.
fn note_transfer(
    touched: &mut NumberSet,
    links: &mut ByHandle<Link>,
    conn: u64,
    own: u16,
    transfer: &Transfer,
) -> Result<(), AllocError>
    ensures links { OnOk result ((c o h : ℕ) → at links.new c o h
        ≡ (if conn == c then (if own == o then (if transfer.now.handle == h then option_map (after_our_transfer transfer.now) (at links.old c o h) else at links.old c o h) else at links.old c o h) else at links.old c o h)) }
    ensures touched { OnOk result ((k : ℕ) → has touched.new k
        ≡ (if is_numbered k (at links.old conn own transfer.now.handle) then true else has touched.old k)) }
{
    match links.get_mut(conn, own, transfer.handle) {
        None => Ok(()),
        Some(link) => {
            link.on_our_transfer(transfer);
            touch(touched, link.number)
        }
    }
}

/// Applies a flow of the router to the link on a handle, if it is on one, and touches that.
fn note_flow(
    touched: &mut NumberSet,
    links: &mut ByHandle<Link>,
    conn: u64,
    own: u16,
    handle: Option<u32>,
    flow: &Flow,
) -> Result<(), AllocError>
    ensures links { OnOk result ((c o h : ℕ) → at links.new c o h
        ≡ (if conn == c then (if own == o then (if is_handle handle h then option_map (after_our_flow flow.now) (at links.old c o h) else at links.old c o h) else at links.old c o h) else at links.old c o h)) }
    ensures touched { OnOk result ((k : ℕ) → has touched.new k
        ≡ (if is_numbered k (named_link (Some own) handle (at links.old conn)) then true else has touched.old k)) }
{
    let Some(handle) = handle else {
        return Ok(());
    };
    match links.get_mut(conn, own, handle) {
        None => Ok(()),
        Some(link) => {
            link.on_our_flow(flow);
            touch(touched, link.number)
        }
    }
}

/// Whether a performative asks for a drain.
fn asks_drain(perf: &Perf) -> bool
    ensures { result ≡ asks_drain perf.now }
{
    match perf {
        Perf::Flow(flow) => flow.drain,
        _ => false,
    }
}

/// NumberSet a connection on which a drain is asked for.
fn mark(marks: &mut BTreeSet<u64>, conn: u64, drains: bool) -> Result<(), AllocError>
    ensures { OnOk result ((c : ℕ) → contains nat_cmp marks.new c ≡ with_mark conn drains (contains nat_cmp marks.old) c) }
{
    if !drains {
        return Ok(());
    }
    match marks.insert(conn) {
        Ok(_) => Ok(()),
        Err(_) => Err(AllocError),
    }
}

//! The table of links.
ghost use Rattle.std.specs.Prelude.{◌≡◌, ◌==◌, ◌&&◌, ◌∷◌, List, ℕ, Bool, Some, true, false, if◌then◌else◌, IfOk, OnOk};
ghost use Rattle.amqp_model.specs.declared.item.Item.TheVariants as item;
ghost use Rattle.amqp_model.specs.declared.perf.Perf.TheVariants as perf;
ghost use Rattle.router_trace.specs.Trace.{Beginning, Trace};
ghost use Rattle.router_trace.specs.Configuration.{opened};
ghost use Rattle.router_trace.specs.Trace.{Entry, Out, did};
ghost use Rattle.router_trace.specs.Sessions.{answers_begin, answers_item, awaited, is_channel, maps, theirs};
ghost use Rattle.router_trace.specs.Links.{attachments, link, link_place, found_link, free_handle, holder, place_of, durable_key};
ghost use Rattle.router_trace.specs.Settling.{part_at, middle_on};
ghost use Rattle.state_links.specs.Ends.{link_of};
ghost use Rattle.state_links.specs.Looking.{attachment_on, key_on, numbered_link};
ghost use Rattle.state_links.specs.Owed.{is_listed, is_marked, owes_on};
ghost use Rattle.router_trace.specs.Following.{owes_one};
ghost use Rattle.router_trace.specs.declared.handle.Attachment.{Attachment as Attached};
ghost use Rattle.state_links.specs.Touching.{Touches, is_touched, IsLowest};
ghost use Rattle.std.specs.Option.{option_map};
ghost use Rattle.router_trace.specs.declared.event.Event.TheVariants as event;
ghost use Rattle.state_links.specs.Fits.{LinksFit, key_in, key_by, asked_in, channel_of};
ghost use Rattle.state_links.specs.Handled.{HandlesFit};
ghost use Rattle.state_collections.specs.NumberMap.{at_number};

use crate::found::FoundLink;
use crate::handles::HandleTable;
use crate::link::Link;
use crate::table::LinkTable;
use amqp_link::Part;
use amqp_model::{Flow, Item, Perf, Transfer};
use book_model::LinkKey;
use bytes::Bytes;
use router_trace::{Asked, Attachment, ConnectionId, LinkAt, PeerHandle};
use std::alloc::{AllocError, Global};

/// The links of all connections. If an operation fails to allocate, the table's contents are unspecified.
#[derive(Drop)]
pub struct Links {
    handles: HandleTable,
    table: LinkTable,
}

impl Links {
    /// An empty table.
    pub fn new(alloc: Global) -> Links
        ensures fits { (g : Beginning) (below : Trace) → LinksFit result (opened g below) }
        ensures untouched { (k : ℕ) → is_touched result k ≡ false }
    {
        Links {
            handles: HandleTable::new(alloc),
            table: LinkTable::new(alloc),
        }
    }

    /// What is on a peer's handle, on the session with the router's channel `own`, with the delivery in the middle of the link there, and the
    /// link's key if it is durable.
    #[tactic(auto, using(crate::proofs::Looks::found_follows, crate::proofs::Looks::middle_found, crate::proofs::Looks::key_found))]
    pub fn find(&self, conn: u64, own: u16, handle: u32) -> FoundLink<'_>
        ensures place { (t : List Entry) → LinksFit self.now t → result.place ≡ found_link (link_place t conn own handle) }
        ensures middle { (t : List Entry) → LinksFit self.now t → option_map (λ d. d.now) result.middle ≡ middle_on (link_place t conn own handle) }
        ensures key { (t : List Entry) → LinksFit self.now t → option_map (λ k. k.now) result.key ≡ key_on (link_place t conn own handle) }
    {
        let handle = match self.handles.theirs(conn, own, handle) {
            None => return FoundLink::unlinked(LinkAt::Nowhere),
            Some(PeerHandle::Detaching) => return FoundLink::unlinked(LinkAt::Detaching),
            Some(PeerHandle::Mapped(handle)) => handle,
        };
        self.table.find(conn, own, handle)
    }

    /// The link at an attachment's place; its number says whether it is that attachment's.
    pub fn link(&self, place: Attachment) -> Option<&Link>
        ensures { (t : List Entry) → LinksFit self.now t → option_map (λ l. l.now) result ≡ option_map link_of (link t place.conn.0 place.channel place.handle) }
    {
        self.table.link(place.conn.0, place.channel, place.handle)
    }

    /// The attachment of the link on a router's handle, of the session with the router's channel `own`.
    #[tactic(auto, using(crate::proofs::Looks::attachment_follows))]
    pub fn attachment(&self, conn: u64, own: u16, handle: u32) -> Option<Attachment>
        ensures { (t : List Entry) → LinksFit self.now t → result ≡ attachment_on conn own handle (link t conn own handle) }
    {
        self.table.attachment(conn, own, handle)
    }

    /// The key of the durable link on a router's handle, of the session with the router's channel `own`.
    #[tactic(auto, using(crate::proofs::Looks::durable_follows))]
    pub fn durable_key(&self, conn: u64, own: u16, handle: u32) -> Option<&LinkKey>
        ensures { (t : List Entry) → LinksFit self.now t → option_map (λ k. k.now) result ≡ durable_key (link t conn own handle) }
    {
        self.table.durable_key(conn, own, handle)
    }

    /// The router's lowest handle, of 64, that the session's peer accepts too and on which nothing is attached.
    pub fn free_handle(&self, conn: u64, own: u16) -> Option<u32>
        ensures { (t : List Entry) → LinksFit self.now t → result ≡ free_handle t conn own }
    {
        self.handles.free_handle(conn, own)
    }

    /// The attachment with a key.
    pub fn holder(&self, key: &LinkKey) -> Option<Attachment>
        ensures { (t : List Entry) → LinksFit self.now t → result ≡ holder t key.now }
    {
        self.table.holder(key)
    }

    /// The attachment with a number, if it still has its link.
    pub fn place_of(&self, number: u64) -> Option<Attachment>
        ensures { (t : List Entry) → LinksFit self.now t → result ≡ place_of t number }
    {
        self.table.place_of(number)
    }

    /// How many attachments there were; it is the number of the newest.
    pub fn attachments(&self) -> u64
        ensures { (t : List Entry) → LinksFit self.now t → result ≡ attachments t }
    {
        self.table.attachments()
    }

    /// The link of the attachment with a number, if it still has it.
    #[tactic(auto, using(crate::proofs::Looks::numbered_follows))]
    pub fn by_number(&self, number: u64) -> Option<&Link>
        ensures { (t : List Entry) → LinksFit self.now t → option_map (λ l. l.now) result ≡ option_map link_of (numbered_link t number) }
    {
        self.table.by_number(number)
    }

    /// The attachments of the links that owe a drain and on which the router is the sender, by connection and by channel. Only
    /// marked connections are looked at.
    pub fn owed(&self) -> Result<Vec<Attachment>, AllocError>
        ensures owes { (t : List Entry) → LinksFit self.now t
            → IfOk result (λ xs. (a : Attached) → is_listed a xs.items ≡ owes_one (link t a.conn.0 a.channel a.handle) a.number) }
        ensures stands { (t : List Entry) → LinksFit self.now t
            → IfOk result (λ xs. (a : Attached) → is_listed a xs.items ≡ true → place_of t a.number ≡ Some a) }
    {
        let owed = self.table.owed()?;
        Ok(owed)
    }

    /// Unmarks the connections on which no link owes a drain any more.
    pub fn settle_owed(&mut self)
        ensures fits { (t : List Entry) → LinksFit self.old t → LinksFit self.new t }
        ensures marks { (c : ℕ) → is_marked self.new c ≡ (owes_on (at_number self.old.table.links.rows c) && is_marked self.old c) }
        ensures touched { (k : ℕ) → is_touched self.new k ≡ is_touched self.old k }
        ensures links { self.new.table.links ≡ self.old.table.links }
        ensures names { self.new.table.names ≡ self.old.table.names }
    {
        self.table.settle_owed();
    }

    /// The lowest number of a link that may have changed since its number was forgotten.
    pub fn touched(&self) -> Option<u64>
        ensures { IsLowest (is_touched self.now) result }
    {
        self.table.touched()
    }

    /// Forgets that the link with a number may have changed.
    pub fn forget_touched(&mut self, number: u64)
        ensures fits { (t : List Entry) → LinksFit self.old t → LinksFit self.new t }
        ensures gone { (k : ℕ) → is_touched self.new k ≡ (if number == k then false else is_touched self.old k) }
        ensures links { self.new.table.links ≡ self.old.table.links }
        ensures names { self.new.table.names ≡ self.old.table.names }
    {
        self.table.forget_touched(number);
    }

    /// A connection is lost.
    pub fn down(&mut self, conn: ConnectionId) -> Result<(), AllocError>
        ensures fits { (t : List Entry) → LinksFit self.old t → LinksFit self.new (did (event.Down conn) ∷ t) }
        ensures touches { OnOk result (Touches self.old self.new) }
    {
        self.handles.down(conn);
        self.table.down(conn)
    }

    /// An item was received on a connection; `own` is the router's channel of its session, if its channel has one, and `answered` the
    /// router's channel whose begin it answers, if it does. Returns what a transfer makes of its delivery, on the link that it names.
    pub fn hear(
        &mut self,
        conn: ConnectionId,
        own: Option<u16>,
        answered: Option<u16>,
        item: &Item,
    ) -> Result<Option<Part>, AllocError>
        ensures fits { OnOk result ((t : List Entry) → ((o : ℕ) → is_channel own o ≡ maps (theirs t conn.0 (channel_of item.now)) o)
            → ((o : ℕ) → is_channel answered o ≡ answers_item item.now o (theirs t conn.0) (awaited t conn.0 o))
            → LinksFit self.old t → LinksFit self.new (did (event.Item conn item.now) ∷ t)) }
        ensures part { (t : List Entry) → LinksFit self.old t → IfOk result (λ p. p ≡ part_at t conn.0 own item.now) }
        ensures touches { OnOk result (Touches self.old self.new) }
    {
        match item {
            Item::Frame {
                sasl,
                perf,
                payload,
                ..
            } => {
                if *sasl {
                    return Ok(None);
                }
                let part = self.hear_perf(conn, own, answered, perf, payload)?;
                Ok(part)
            }
            _ => Ok(None),
        }
    }

    /// A performative was received on a connection.
    fn hear_perf(
        &mut self,
        conn: ConnectionId,
        own: Option<u16>,
        answered: Option<u16>,
        perf: &Perf,
        payload: &Bytes,
    ) -> Result<Option<Part>, AllocError>
        ensures fits { OnOk result ((t : List Entry) (channel : ℕ) → ((o : ℕ) → is_channel own o ≡ maps (theirs t conn.0 channel) o)
            → ((o : ℕ) → is_channel answered o ≡ answers_begin perf.now o (theirs t conn.0 channel) (awaited t conn.0 o))
            → LinksFit self.old t → LinksFit self.new (did (event.Item conn (item.Frame false channel perf.now payload.now)) ∷ t)) }
        ensures part { (t : List Entry) (channel : ℕ) → LinksFit self.old t
            → IfOk result (λ p. p ≡ part_at t conn.0 own (item.Frame false channel perf.now payload.now)) }
        ensures touches { OnOk result (Touches self.old self.new) }
    {
        let handle = self.handles.named(conn.0, own, perf);
        let part = self.table.hear(conn, own, handle, perf, payload)?;
        self.handles.hear(conn, own, answered, perf)?;
        Ok(part)
    }

    /// An item is put into the outbox of a connection; an attach comes with its key. Fails if memory is refused, if
    /// no attachment number is left, and for an attach without its key.
    pub fn put(&mut self, conn: u64, item: &Item, key: Option<LinkKey>) -> Result<(), AllocError>
        ensures fits { OnOk result ((t : List Entry) → key ≡ key_by t conn item.now → LinksFit self.old t → LinksFit self.new (Out conn item.now ∷ t)) }
        ensures touches { OnOk result (Touches self.old self.new) }
    {
        match item {
            Item::Frame {
                channel,
                perf,
                payload,
                ..
            } => self.put_perf(conn, *channel, perf, payload, key)?,
            _ => {}
        }
        Ok(())
    }

    /// The router's transfer is put into the outbox of a connection.
    pub fn put_transfer(
        &mut self,
        conn: u64,
        own: u16,
        transfer: &Transfer,
    ) -> Result<(), AllocError>
        ensures fits { OnOk result ((t : List Entry) (sasl : Bool) (payload : List ℕ) → LinksFit self.old t
            → LinksFit self.new (Out conn (item.Frame sasl own (perf.Transfer transfer.now) payload) ∷ t)) }
        ensures touches { OnOk result (Touches self.old self.new) }
    {
        self.table.put_transfer(conn, own, transfer)?;
        Ok(())
    }

    /// The router's flow is put into the outbox of a connection.
    pub fn put_flow(&mut self, conn: u64, own: u16, flow: &Flow) -> Result<(), AllocError>
        ensures fits { OnOk result ((t : List Entry) (sasl : Bool) (payload : List ℕ) → LinksFit self.old t
            → LinksFit self.new (Out conn (item.Frame sasl own (perf.Flow flow.now) payload) ∷ t)) }
        ensures touches { OnOk result (Touches self.old self.new) }
    {
        self.table.put_flow(conn, own, flow)?;
        Ok(())
    }

    /// A performative is put into the outbox of a connection.
    fn put_perf(
        &mut self,
        conn: u64,
        own: u16,
        perf: &Perf,
        payload: &Bytes,
        key: Option<LinkKey>,
    ) -> Result<(), AllocError>
        ensures fits { OnOk result ((t : List Entry) (sasl : Bool) → key ≡ key_in t conn perf.now → LinksFit self.old t
            → LinksFit self.new (Out conn (item.Frame sasl own perf.now payload.now) ∷ t)) }
        ensures touches { OnOk result (Touches self.old self.new) }
    {
        let last = asked_by(&self.handles, conn, perf);
        self.table.put(conn, own, perf, payload, key, last)?;
        self.handles.put(conn, own, perf)?;
        Ok(())
    }
}

/// What the peer's last attach asks for, if the router puts an attach.
fn asked_by<'a>(handles: &'a HandleTable, conn: u64, perf: &Perf) -> Option<&'a Asked>
    ensures { (t : List Entry) → HandlesFit handles.now t → option_map (λ a. a.now) result ≡ asked_in t conn perf.now }
{
    match perf {
        Perf::Attach(_) => handles.asked(conn),
        _ => None,
    }
}

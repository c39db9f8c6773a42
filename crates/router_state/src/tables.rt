//! All tables, changed together.
ghost use Rattle.std.specs.Prelude.{◌≡◌, ◌==◌, ◌-◌, ◌≤◌, ◌&&◌, nat_lt, if◌then◌else◌, ◌∷◌, ◌++◌, ℕ, List, [], true, false, length, slice_get, Option, option_copied, option_map, OnOk, OnErr, IfOk};
ghost use Rattle.std.specs.Prelude.{is_some};
ghost use Rattle.route_table.specs.Places.{FindsAs};
ghost use Rattle.router_trace.specs.Trace.{Beginning, Trace};
ghost use Rattle.router_trace.specs.Configuration.{opened};
ghost use Rattle.router_trace.specs.Sessions.{answers_item, awaited, is_channel, theirs, maps, session, session_on};
ghost use Rattle.router_trace.specs.Frames.{told_of};
ghost use Rattle.router_trace.specs.Links.{link, place_of, is_attached, durable_key};
ghost use Rattle.router_trace.specs.Claims.{claims};
ghost use Rattle.router_trace.specs.Settling.{part_of, is_claimed, is_claimed_on, ids_claimed, open_ids, unbound};
ghost use Rattle.router_trace.specs.Deliveries.{called, joined_by, owned_in, acts_found, delivery, rank_at, ended_first, none_if_ended, giving, is_to_tell, sending, named, next_id};
ghost use Rattle.router_trace.specs.declared.binding.DeliveryName.TheVariants.{Row};
ghost use Rattle.router_trace.specs.Following.{link_of, is_unsent_on, is_wide, is_busy, is_used, takes_more};
ghost use Rattle.state_deliveries.specs.Calling.{Knows};
ghost use Rattle.state_deliveries.specs.Hearing.{heard_change};
ghost use Rattle.state_deliveries.specs.Finding.{IsFirst, IsFirstBy, is_above, is_beyond};
ghost use Rattle.state_messages.specs.Messages.{IsChosen, attachment_at, consumer_of, binding_for, taken_up_by, with_bound, grants_due, grant_flow};
ghost use Rattle.state_messages.specs.Asking.{consumer_with, has_unsent, goes_on, owes_drain, drained_state};
ghost use Rattle.router_trace.specs.Trace.{Bound as BoundTo, Entry, Out, Took, did, newest, goes, puts_of};
ghost use Rattle.router_trace.specs.Sessions.{free_channel};
ghost use Rattle.router_trace.specs.Clocks.{terms, channel_max_of};
ghost use Rattle.router_trace.specs.Peers.{user, container, largest_frame};
ghost use Rattle.router_trace.specs.Links.{link_place, free_handle, holder, key_of};
ghost use Rattle.state_links.specs.Fits.{channel_of};
ghost use Rattle.state_connections.specs.Timing.{ClocksFit};
ghost use Rattle.amqp_session.specs.Session.{Session};
ghost use Rattle.state_sessions.specs.Fits.{SessionsFit, window_by};
ghost use Rattle.state_sessions.specs.Windows.{windows};
ghost use Rattle.router_trace.specs.Connection.{conn as known, standing, phase_before, is_ready, has};
ghost use Rattle.state_connections.specs.Fits.{at_number, IsLeast, IsBatch, count};
ghost use Rattle.state_connections.specs.Noting.{is_noted};
ghost use Rattle.state_connections.specs.Waiting.{waiting_of};
ghost use Rattle.router_trace.specs.Refusing.{rises, refuses};
ghost use Rattle.router_state.specs.Tables.{TablesFit, TablesAt, TablesFind, beat_if, beats_over, beats};
ghost use Rattle.router_trace.specs.declared.event.Event.{Event as E};
ghost use Rattle.router_trace.specs.declared.event.Event.TheVariants as event;

use crate::durable::none_if_ended;
use crate::place::LinkPlace;
use amqp_conn::Conn;
use amqp_link::Part;
use amqp_model::{Attach, DeliveryState, Item};
use amqp_session::{FlowState, Window};
use book_model::{Act, LinkKey, RowNumber};
use bytes::Bytes;
use route_table::Table;
use router_trace::{
    Attachment, ConnectionId, DeliveryName, Event, Holding, LinkState, Origin, Outgoing, Peer,
    Resumed, SESSION_WINDOW, beat_item, link_flow_item,
};
use state_connections::{Clocks, Connections, Peers, Ready, Refused, Taken};
use state_deliveries::{Change, Delivery as Bound};
use state_messages::{LinkGrant, Messages};
use state_sessions::Sessions;
use state_unsettled::IncomingDelivery;
use std::alloc::{AllocError, Global};

/// The router's tables. If an operation fails to allocate, their contents are unspecified.
#[derive(Drop)]
pub struct State {
    alloc: Global,
    pub(crate) connections: Connections,
    ready: Ready,
    pub(crate) clocks: Clocks,
    pub(crate) peers: Peers,
    pub(crate) sessions: Sessions,
    pub(crate) messages: Messages,
}

impl State {
    /// The tables of a new router; addresses are shared as this table says, and `last_row` is the last row that was admitted before.
    pub fn new(alloc: Global, table: Table, last_row: u64) -> State
        ensures { (g : Beginning) (below : Trace) → FindsAs table g.routing → last_row ≡ g.book.next_row - 1 → TablesFit result (opened g below) }
    {
        State {
            alloc,
            connections: Connections::new(alloc),
            ready: Ready::new(alloc),
            clocks: Clocks::new(alloc),
            peers: Peers::new(alloc),
            sessions: Sessions::new(alloc),
            messages: Messages::new(alloc, table, last_row),
        }
    }

    /// The allocator of the tables.
    pub fn alloc(&self) -> Global {
        self.alloc
    }

    /// The phase of the connection of an event's item, before the event; none of another event. `Refused` exactly if the event is refused.
    pub fn phase_before(&self, event: &Event) -> Result<Option<Conn>, Refused>
        ensures refused { OnErr result ((t : List Entry) → TablesFit self.now t → refuses t event.now ≡ true) }
        ensures free { OnOk result ((t : List Entry) → TablesFit self.now t → refuses t event.now ≡ false) }
        ensures phase { IfOk result (λ phase. (t : List Entry) → TablesFit self.now t → phase ≡ phase_before t event.now) }
    {
        self.connections.phase_before(event)
    }

    /// The phase of a connection; none if it isn't live.
    pub fn standing(&self, conn: u64) -> Option<Conn>
        ensures { (t : List Entry) → TablesFit self.now t → result ≡ standing (known t conn) }
    {
        self.connections.standing(conn)
    }

    /// The phase of a connection, whether live or over; none if the connection is unknown.
    pub fn phase(&self, conn: u64) -> Option<Conn>
        ensures { (t : List Entry) → TablesFit self.now t → result ≡ option_map (λ v. v.phase) (known t conn) }
    {
        self.connections.phase(conn)
    }

    /// Whether a begin of the router on its channel `own` awaits the peer's, as an event finds it.
    pub fn awaits(&self, conn: u64, own: u16) -> bool
        ensures { (t : List Entry) → TablesFind self.now t → result ≡ is_some (awaited t conn own) }
    {
        self.sessions.awaits(conn, own)
    }

    /// The router's lowest channel, as an event finds it, that the peer accepts too and that is free: it has no session, and no begin of
    /// the router on it awaits an answer.
    pub fn free_channel(&self, conn: u64) -> Option<u16>
        ensures { (t : List Entry) → TablesFind self.now t → result ≡ free_channel t conn (channel_max_of (terms t conn)) }
    {
        self.sessions
            .free_channel(conn, self.clocks.channel_max(conn))
    }

    /// The router's lowest handle, of 64, that the session's peer accepts too and on which nothing is attached.
    pub fn free_handle(&self, conn: u64, own: u16) -> Option<u32>
        ensures now { (t : List Entry) → TablesFit self.now t → result ≡ free_handle t conn own }
        ensures found { (t : List Entry) → TablesFind self.now t → result ≡ free_handle t conn own }
    {
        self.messages.links().free_handle(conn, own)
    }

    /// The attachment with a key.
    pub fn holder(&self, key: &LinkKey) -> Option<Attachment>
        ensures now { (t : List Entry) → TablesFit self.now t → result ≡ holder t key.now }
        ensures found { (t : List Entry) → TablesFind self.now t → result ≡ holder t key.now }
    {
        self.messages.links().holder(key)
    }

    /// The key of the durable link on a handle of the router.
    pub fn durable_key(&self, at: LinkPlace) -> Option<&LinkKey>
        ensures now { (t : List Entry) → TablesFit self.now t → option_map (λ k. k.now) result ≡ durable_key (link t at.conn.0 at.own at.handle) }
        ensures found { (t : List Entry) → TablesFind self.now t → option_map (λ k. k.now) result ≡ durable_key (link t at.conn.0 at.own at.handle) }
    {
        self.messages
            .links()
            .durable_key(at.conn.0, at.own, at.handle)
    }

    /// The key of the link that an attach names on a connection. Fails if memory is refused.
    pub fn key_of(&self, conn: u64, attach: &Attach) -> Result<LinkKey, AllocError>
        ensures now { IfOk result (λ key. (t : List Entry) → TablesFit self.now t → key ≡ key_of (user t conn) (container t conn) attach.now) }
        ensures found { IfOk result (λ key. (t : List Entry) → TablesFind self.now t → key ≡ key_of (user t conn) (container t conn) attach.now) }
    {
        self.peers.key_of(conn, attach)
    }

    /// The largest frame that a peer accepts, in bytes; 4,294,967,295 if it states none.
    pub fn largest_frame(&self, conn: u64) -> u32
        ensures now { (t : List Entry) → TablesFit self.now t → result ≡ largest_frame t conn }
        ensures found { (t : List Entry) → TablesFind self.now t → result ≡ largest_frame t conn }
    {
        self.peers.largest_frame(conn)
    }

    /// The heartbeats that are due at a moment on the connections that are live as an event finds them, by connection number.
    pub fn beats(&self, now: u64) -> Result<Vec<Outgoing>, AllocError>
        ensures { IfOk result (λ due. (t : List Entry) (e : E) (ends : List ℕ) → TablesAt self.now t e ends → puts_of due.items ≡ beats t e now) }
    {
        beats_over(self.alloc, &self.clocks, self.connections.live(), now)
    }

    /// Whether no session's window may be narrow, so that no flow is due.
    pub fn is_calm(&self) -> bool
        ensures { result ≡ true → (t : List Entry) → TablesFit self.now t → windows t ≡ [] }
    {
        self.sessions.is_calm()
    }

    /// The flows that restore narrow windows, by connection and by the router's channel.
    pub fn windows(&self) -> Result<Vec<Outgoing>, AllocError>
        ensures { IfOk result (λ flows. (t : List Entry) → TablesFit self.now t → puts_of flows.items ≡ windows t) }
    {
        let mut flows = Vec::new(self.alloc);
        for conn in self.connections.live() {
            self.sessions.due_on(*conn, &mut flows)?;
        }
        Ok(flows)
    }

    /// Unmarks the connections that have no narrow window any more.
    pub fn settle(&mut self)
        ensures { (t : List Entry) → TablesFit self.old t → TablesFit self.new t }
    {
        settle_all(&mut self.sessions, self.connections.live());
    }

    /// Unmarks the connections on which no link owes a drain any more.
    pub fn settle_drains(&mut self)
        ensures { (t : List Entry) → TablesFit self.old t → TablesFit self.new t }
    {
        self.messages.settle_owed();
    }

    /// Ends the connections that an event ends because their outboxes are full, and returns them by number. The caller has to put
    /// out their closes.
    pub fn turn(&mut self, event: &Event) -> Result<Vec<u64>, AllocError>
        ensures { IfOk result (λ ends. (t : List Entry) → TablesFit self.old t → TablesAt self.new t event.now ends.items) }
    {
        let ends = self.connections.turn(event)?;
        note_all(&mut self.ready, &self.connections, &ends)?;
        Ok(ends)
    }

    /// A connection comes up.
    pub fn up(&mut self, conn: ConnectionId, peer: &Peer) -> Result<(), AllocError>
        ensures { OnOk result ((t : List Entry) (ends : List ℕ) → TablesAt self.old t (event.Up conn peer.now) ends → rises conn.0 (newest t) ≡ true → TablesFit self.new (did (event.Up conn peer.now) ∷ t)) }
    {
        self.connections.up(conn, peer)?;
        self.peers.up(conn, peer)?;
        note(&mut self.ready, &self.connections, conn.0)?;
        Ok(())
    }

    /// An item was received on a connection, by an event that ended these connections first (`State::turn`) and has these
    /// acts; `own` is the router's channel of its session, if its channel has one (`State::own_channel`), and `change`
    /// what it changes of deliveries at once (`Change::of_item`), on that session unless the event ended the connection.
    /// Returns what a transfer makes of its delivery.
    pub fn hear(
        &mut self,
        conn: ConnectionId,
        own: Option<u16>,
        change: Option<Change>,
        item: &Item,
        ends: &[u64],
        acts: &[Act],
    ) -> Result<Option<Part>, AllocError>
        ensures part { IfOk result (λ part. (t : List Entry) (ends : List ℕ) (o : ℕ) → TablesAt self.old t (event.Item conn item.now) ends
            → own ≡ session_on t conn.0 (channel_of item.now) → maps (theirs t conn.0 (channel_of item.now)) o ≡ true
            → part ≡ part_of item.now (link_place t conn.0 o)) }
        ensures fits { OnOk result ((t : List Entry) → TablesAt self.old t (event.Item conn item.now) ends.now
            → own ≡ session_on t conn.0 (channel_of item.now)
            → change ≡ heard_change conn.0 (none_if_ended ends.now conn.0 own) item.now → ended_first t ≡ ends.now
            → giving item.now acts.now ≡ giving item.now (acts_found t) → TablesFit self.new (did (event.Item conn item.now) ∷ t)) }
    {
        let found = none_if_ended(ends, conn.0, own);
        self.clocks.hear(conn, item)?;
        self.peers.hear(conn, item)?;
        let answered = self.answered(conn.0, item);
        let part = self
            .messages
            .hear(conn, own, found, answered, change, item, acts)?;
        self.sessions.hear(conn, item)?;
        Ok(part)
    }

    /// The router's channel whose begin an item answers, if it does.
    fn answered(&self, conn: u64, item: &Item) -> Option<u16>
        ensures { (t : List Entry) → SessionsFit self.now.sessions t → (o : ℕ) → is_channel result o ≡ answers_item item.now o (theirs t conn) (awaited t conn o) }
    {
        match item {
            Item::Frame {
                sasl,
                channel,
                perf,
                ..
            } => {
                if *sasl {
                    return None;
                }
                self.sessions.answered(conn, *channel, perf)
            }
            _ => None,
        }
    }

    /// The clock moves to this moment.
    pub fn tick(&mut self, moment: u64)
        ensures { (t : List Entry) (ends : List ℕ) → TablesAt self.old t (event.Tick moment) ends → TablesFit self.new (did (event.Tick moment) ∷ t) }
    {
        self.clocks.tick(moment);
    }

    /// The router starts with its journal, which changes no table.
    pub fn start(&mut self)
        ensures { (t : List Entry) (ends : List ℕ) → TablesAt self.old t event.Start ends → TablesFit self.new (did event.Start ∷ t) }
    {}

    /// A connection is lost.
    pub fn down(&mut self, conn: ConnectionId) -> Result<(), AllocError>
        ensures { OnOk result ((t : List Entry) (ends : List ℕ) → TablesAt self.old t (event.Down conn) ends → TablesFit self.new (did (event.Down conn) ∷ t)) }
    {
        self.connections.down(conn);
        self.clocks.down(conn);
        self.peers.down(conn);
        self.sessions.down(conn);
        self.messages.down(conn)?;
        note(&mut self.ready, &self.connections, conn.0)
    }

    /// Puts an item into the outbox of a connection.
    pub fn put(&mut self, conn: u64, item: Item) -> Result<(), AllocError>
        ensures { OnOk result ((t : List Entry) → TablesFit self.old t → TablesFit self.new (Out conn item ∷ t)) }
    {
        let Ok(()) = self.note_put(conn, &item) else {
            return Err(let_go(item));
        };
        self.connections.put(conn, item)?;
        note(&mut self.ready, &self.connections, conn)?;
        Ok(())
    }

    /// Puts items into the outboxes of their connections, in order.
    pub fn put_all(&mut self, items: Vec<Outgoing>) -> Result<(), AllocError>
        ensures { OnOk result ((t : List Entry) → TablesFit self.old t → TablesFit self.new (goes (puts_of items.items) t)) }
    {
        for outgoing in items {
            self.put(outgoing.conn.0, outgoing.item)?;
        }
        Ok(())
    }

    /// Takes up to `most` items out of an outbox; none if the connection is unknown.
    #[tactic(auto, using(crate::proofs::Bound::messages_taken))]
    pub fn take(&mut self, conn: u64, most: usize) -> Result<Option<Taken>, AllocError>
        ensures batched { IfOk result (λ taken. (t : List Entry) → TablesFit self.old t → IsBatch most (known t conn) taken) }
        ensures fits { IfOk result (λ taken. (t : List Entry) → TablesFit self.old t → TablesFit self.new (Took conn (count taken) ∷ t)) }
        ensures most { IfOk result (λ taken. count taken ≤ most) }
    {
        let taken = self.connections.take(conn, most)?;
        note(&mut self.ready, &self.connections, conn)?;
        Ok(taken)
    }

    /// Whether a connection is ready: an item is waiting in its outbox, or it is over.
    pub fn is_ready(&self, conn: u64) -> bool
        ensures { (t : List Entry) → TablesFit self.now t → result ≡ is_ready (known t conn) }
    {
        self.ready.has(conn)
    }

    /// How many items wait in a connection's outbox.
    pub fn waits(&self, conn: u64) -> usize
        ensures { (t : List Entry) → TablesFit self.now t → result ≡ length (waiting_of (known t conn)) }
    {
        self.connections.waits(conn)
    }

    /// The item at this place of a connection's outbox, counted from 0 at the front.
    pub fn waiting(&self, conn: u64, place: usize) -> Option<&Item>
        ensures { (t : List Entry) → TablesFit self.now t → option_copied result ≡ slice_get (waiting_of (known t conn)) place }
    {
        self.connections.waiting(conn, place)
    }

    /// The lowest ready connection above a number.
    pub fn ready_after(&self, conn: u64) -> Option<u64>
        ensures { (t : List Entry) → TablesFit self.now t → IsLeast (λ c. nat_lt conn c && is_ready (known t c)) result }
    {
        self.ready.after(conn)
    }

    /// The lowest ready connection: an item is waiting in its outbox, or it is over.
    pub fn ready(&self) -> Option<u64>
        ensures { (t : List Entry) → TablesFit self.now t → IsLeast (λ c. is_ready (known t c)) result }
    {
        self.ready.first()
    }

    /// Whether a peer has not settled the delivery with this id of its own.
    pub fn is_claimed(&self, conn: u64, own: u16, id: u32) -> bool
        ensures now { (t : List Entry) → TablesFit self.now t → result ≡ is_claimed t conn own id }
        ensures found { (t : List Entry) → TablesFind self.now t → result ≡ is_claimed t conn own id }
    {
        self.messages.incoming().is_claimed(conn, own, id)
    }

    /// A peer's claim to a delivery-id: its delivery with this id, if it hasn't settled that.
    pub fn claim(&self, conn: u64, own: u16, id: u32) -> Option<&IncomingDelivery>
        ensures now { (t : List Entry) → TablesFit self.now t → option_map (λ c. c.now) result ≡ claims t conn own id }
        ensures found { (t : List Entry) → TablesFind self.now t → option_map (λ c. c.now) result ≡ claims t conn own id }
    {
        self.messages.incoming().get(conn, own, id)
    }

    /// Whether a peer has not settled the delivery with this id of its own, on the link at a handle of the router.
    pub fn is_claimed_on(&self, at: LinkPlace, id: u32) -> bool
        ensures { (t : List Entry) → TablesFit self.now t → result ≡ is_claimed_on t at.conn.0 at.own at.handle id }
    {
        self.messages
            .incoming()
            .is_claimed_on(at.conn.0, at.own, at.handle, id)
    }

    /// The ids in a range that name undecided deliveries of a session, in order, as an event finds them.
    pub fn open_ids(
        &self,
        conn: u64,
        own: u16,
        first: u32,
        last: u32,
    ) -> Result<Vec<u32>, AllocError>
        ensures { IfOk result (λ ids. (t : List Entry) → TablesFind self.now t → ids.items ≡ open_ids t conn own first last) }
    {
        self.messages.deliveries().open_ids(conn, own, first, last)
    }

    /// The ids in a disposition's range whose deliveries the peer has not settled, in the range's order. It costs by those that are claimed, not by the
    /// range.
    pub fn ids_claimed(
        &self,
        conn: u64,
        own: u16,
        first: u32,
        last: u32,
    ) -> Result<Vec<u32>, AllocError>
        ensures { IfOk result (λ ids. (t : List Entry) → TablesFind self.now t → ids.items ≡ ids_claimed t conn own first last) }
    {
        self.messages.incoming().ids_claimed(conn, own, first, last)
    }

    /// How many unsettled deliveries of a link came whole and are bound to no consumer.
    pub fn unbound(&self, at: LinkPlace) -> usize
        ensures { (t : List Entry) → TablesFit self.now t → result ≡ unbound t at.conn.0 at.own at.handle }
    {
        self.messages
            .incoming()
            .unbound(at.conn.0, at.own, at.handle)
    }

    /// The attachment on a handle of the router.
    pub fn attachment(&self, at: LinkPlace) -> Option<Attachment>
        ensures { (t : List Entry) → TablesFit self.now t → result ≡ attachment_at t at.conn.0 at.own at.handle }
    {
        self.messages
            .links()
            .attachment(at.conn.0, at.own, at.handle)
    }

    /// Binds a message of a producer's link to the chosen consumer of its address; returns whether there is one. If [`State::consumer_for`] was
    /// asked for this message, `known` is what it answered, and none is chosen again. A durable message comes with the number of its row.
    pub fn pass(
        &mut self,
        from: Attachment,
        known: Option<Attachment>,
        origin: Option<Origin>,
        row: Option<RowNumber>,
        format: u32,
        payload: Bytes,
    ) -> Result<bool, AllocError>
        ensures chosen { IfOk result (λ chosen. (t : List Entry) → IsChosen t (link_of t from) known → TablesFit self.old t → chosen ≡ is_some (consumer_of t (link_of t from))) }
        ensures bound { OnOk result ((t : List Entry) → IsChosen t (link_of t from) known → TablesFit self.old t → TablesFit self.new (with_bound (binding_for t from origin row format payload) t)) }
    {
        let chosen = self
            .messages
            .pass(from, known, origin, row, format, payload)?;
        Ok(chosen)
    }

    /// The attachment with a key, if the router is the sender on its link.
    pub fn consumer_with(&self, key: &LinkKey) -> Option<Attachment>
        ensures { (t : List Entry) → TablesFit self.now t → result ≡ consumer_with t key.now }
    {
        self.messages.consumer_with(key)
    }

    /// Binds a row to the consumer's link that takes it up again, to be sent as `how` says; its producer's delivery is
    /// that of the delivery which it had until now.
    pub fn take_up(
        &mut self,
        consumer: Attachment,
        row: RowNumber,
        how: Resumed,
        format: u32,
        payload: Bytes,
    ) -> Result<(), AllocError>
        ensures { OnOk result ((t : List Entry) → TablesFit self.old t → TablesFit self.new (BoundTo (taken_up_by t row how format payload consumer) ∷ t)) }
    {
        self.messages.take_up(consumer, row, how, format, payload)?;
        Ok(())
    }

    /// A producer's link has a row like this from now on, which has this outcome if it is decided. If its producer resumed it, the row's outcome is
    /// reported to the producer's delivery.
    pub fn join(
        &mut self,
        holding: Holding,
        row: RowNumber,
        outcome: Option<&DeliveryState>,
    ) -> Result<(), AllocError>
        ensures { OnOk result ((t : List Entry) → TablesFit self.old t → TablesFit self.new (BoundTo (joined_by t holding row (option_copied outcome.entry)) ∷ t)) }
    {
        self.messages.join(holding, row, outcome)?;
        Ok(())
    }

    /// The producer's link, attached again, that has a row which its producer has neither resumed nor settled since.
    pub fn owner_of(&self, row: RowNumber) -> Option<Origin>
        ensures { (t : List Entry) → TablesFit self.now t → result ≡ owned_in (called t (Row row)) }
    {
        let deliveries = self.messages.deliveries();
        deliveries.producers_of(DeliveryName::Row(row)).owned
    }

    /// The first delivery, in the order of binding, behind that with a number or of all, that is decided and whose outcome must be reported to its
    /// producer.
    pub fn to_tell_after(&self, number: Option<u64>) -> Option<u64>
        ensures { (t : List Entry) → TablesFit self.now t → IsFirstBy (rank_at t) (λ n. is_beyond (rank_at t) number n && is_to_tell (delivery t n)) result }
    {
        self.messages.deliveries().to_tell_after(number)
    }

    /// Whether an attachment still has its link.
    pub fn is_attached(&self, at: Attachment) -> bool
        ensures { (t : List Entry) → TablesFit self.now t → result ≡ is_attached t at }
    {
        self.messages.is_attached(at)
    }

    /// The delivery with a number.
    pub fn delivery(&self, number: u64) -> Option<&Bound>
        ensures { (t : List Entry) → TablesFit self.now t → option_map (λ d. d.now) result ≡ delivery t number }
    {
        self.messages.deliveries().delivery(number)
    }

    /// The lowest number, above another, of a link on which frames of deliveries remain to be sent.
    pub fn unsent_link_after(&self, link: Option<u64>) -> Option<u64>
        ensures { (t : List Entry) → TablesFit self.now t → IsFirst (λ k. is_above link k && has_unsent t k) result }
    {
        self.messages.deliveries().unsent_link_after(link)
    }

    /// The first delivery of a link, in the order of binding, behind that with a number or of all, of which frames remain to be sent.
    pub fn unsent_after(&self, link: u64, number: Option<u64>) -> Option<u64>
        ensures { (t : List Entry) → TablesFit self.now t → IsFirstBy (rank_at t) (λ n. is_beyond (rank_at t) number n && is_unsent_on link (delivery t n)) result }
    {
        self.messages.deliveries().unsent_after(link, number)
    }

    /// Whether frames of deliveries remain to be sent on a link.
    pub fn has_unsent(&self, link: u64) -> bool
        ensures { (t : List Entry) → TablesFit self.now t → result ≡ has_unsent t link }
    {
        self.messages.deliveries().has_unsent(link)
    }

    /// The place of an attachment, while it is attached.
    pub fn place_of(&self, number: u64) -> Option<Attachment>
        ensures { (t : List Entry) → TablesFit self.now t → result ≡ place_of t number }
    {
        self.messages.links().place_of(number)
    }

    /// Whether the window of a session is open.
    pub fn is_wide(&self, conn: u64, own: u16) -> bool
        ensures { (t : List Entry) → TablesFit self.now t → result ≡ is_wide (session t conn own) }
    {
        can_send(self.sessions.window(conn, own))
    }

    /// The session state that a flow of the router has.
    pub fn told(&self, conn: u64, own: u16) -> Option<FlowState>
        ensures { (t : List Entry) → TablesFit self.now t → result ≡ option_map told_of (session t conn own) }
    {
        told_by(self.sessions.window(conn, own))
    }

    /// The number of the delivery of which more frames remain to be sent on a handle of the router; it may be missing if the delivery is gone.
    pub fn sending(&self, conn: u64, own: u16, handle: u32) -> Option<u64>
        ensures { (t : List Entry) → TablesFit self.now t → Knows (delivery t) result (sending t conn own handle) }
    {
        self.messages.deliveries().sending(conn, own, handle)
    }

    /// Whether a delivery has begun on a session of which more frames remain to be sent.
    pub fn is_busy(&self, conn: u64, own: u16) -> Result<bool, AllocError>
        ensures { IfOk result (λ busy. (t : List Entry) → TablesFit self.now t → busy ≡ is_busy t conn own) }
    {
        self.messages.is_busy(conn, own)
    }

    /// Whether an id that the router gave on a session names an undecided delivery.
    pub fn is_used(&self, conn: u64, own: u16, id: u32) -> bool
        ensures { (t : List Entry) → TablesFit self.now t → result ≡ is_used t (named t conn own id) }
    {
        self.messages.deliveries().is_used(conn, own, id)
    }

    /// The next delivery-id that the router gives on a session.
    pub fn next_id(&self, conn: u64, own: u16) -> u32
        ensures { (t : List Entry) → TablesFit self.now t → result ≡ next_id t conn own }
    {
        self.messages.deliveries().next_id(conn, own)
    }

    /// Whether an attachment's link has credit left and no delivery in progress.
    pub fn takes_more(&self, at: Attachment) -> bool
        ensures { (t : List Entry) → TablesFit self.now t → result ≡ takes_more (link_of t at) at.number }
    {
        self.messages.takes_more(at)
    }

    /// Whether the router has begun a delivery on an attachment's link of which more frames remain to be sent.
    pub fn goes_on(&self, at: Attachment) -> bool
        ensures { (t : List Entry) → TablesFit self.now t → result ≡ goes_on (link_of t at) at.number }
    {
        self.messages.goes_on(at)
    }

    /// The lowest number, above another, of an attachment whose link owes a drain.
    pub fn owing_after(&self, number: Option<u64>) -> Result<Option<u64>, AllocError>
        ensures { IfOk result (λ owing. (t : List Entry) → TablesFit self.now t → IsFirst (λ n. is_above number n && owes_drain t n) owing) }
    {
        self.messages.owing_after(number)
    }

    /// The link state of the flow that answers the drain of an attachment's link.
    pub fn drained(&self, at: Attachment) -> Option<LinkState>
        ensures { (t : List Entry) → TablesFit self.now t → result ≡ drained_state at.handle (link_of t at) }
    {
        self.messages.drained(at)
    }

    /// The grants that are due.
    pub fn grants(&mut self) -> Result<Vec<Outgoing>, AllocError>
        ensures due { IfOk result (λ flows. (t : List Entry) → TablesFit self.old t → puts_of flows.items ≡ grants_due t) }
        ensures fits { OnOk result ((t : List Entry) → TablesFit self.old t → TablesFit self.new t) }
    {
        let grants = self.messages.grants()?;
        let mut flows = Vec::new(self.alloc);
        for grant in &grants {
            self.add_grant(&mut flows, *grant)?;
        }
        Ok(flows)
    }

    /// Adds the flow that carries a grant.
    fn add_grant(&self, flows: &mut Vec<Outgoing>, grant: LinkGrant) -> Result<(), AllocError>
        ensures { OnOk result ((t : List Entry) → TablesFit self.now t → puts_of flows.new.items ≡ puts_of flows.old.items ++ grant_flow grant (session t grant.at.conn.0 grant.at.channel)) }
    {
        let Some(told) = self.told(grant.at.conn.0, grant.at.channel) else {
            return Ok(());
        };
        let flow = Outgoing {
            conn: grant.at.conn,
            item: link_flow_item(grant.at.channel, told, grant.state),
        };
        match flows.push(flow) {
            Ok(()) => Ok(()),
            Err(left) => {
                drop(left);
                Err(AllocError)
            }
        }
    }
}

/// Drops an item after memory was refused.
fn let_go(item: Item) -> AllocError {
    drop(item);
    AllocError
}

/// Whether a session's window is open, if there is a session.
fn can_send(window: Option<Window>) -> bool
    ensures { (session : Option Session) → window ≡ window_by session → result ≡ is_wide session }
{
    match window {
        None => false,
        Some(window) => window.can_send(),
    }
}

/// The session state that a flow of the router has, if there is a session.
fn told_by(window: Option<Window>) -> Option<FlowState>
    ensures { (session : Option Session) → window ≡ window_by session → result ≡ option_map told_of session }
{
    let mut window = window?;
    Some(window.flow_state(SESSION_WINDOW))
}

/// The heartbeats that are due at a moment on these connections, by connection number.
fn beats_over(
    alloc: Global,
    clocks: &Clocks,
    conns: &[u64],
    now: u64,
) -> Result<Vec<Outgoing>, AllocError>
    ensures { IfOk result (λ due. (t : List Entry) → ClocksFit clocks.now t → puts_of due.items ≡ beats_over t now conns.now) }
{
    let mut due = Vec::new(alloc);
    for conn in conns {
        add_beat(&mut due, *conn, clocks.needs_beat(*conn, now))?;
    }
    Ok(due)
}

/// Adds a heartbeat for a connection, if one is needed.
fn add_beat(due: &mut Vec<Outgoing>, conn: u64, needed: bool) -> Result<(), AllocError>
    ensures { OnOk result (puts_of due.new.items ≡ puts_of due.old.items ++ beat_if needed conn) }
{
    if !needed {
        return Ok(());
    }
    let beat = Outgoing {
        conn: ConnectionId(conn),
        item: beat_item(),
    };
    match due.push(beat) {
        Ok(()) => Ok(()),
        Err(left) => {
            drop(left);
            Err(AllocError)
        }
    }
}

/// Unmarks those of these connections that have no narrow window any more.
fn settle_all(sessions: &mut Sessions, conns: &[u64])
    ensures { (t : List Entry) → SessionsFit sessions.old t → SessionsFit sessions.new t }
{
    for conn in conns {
        sessions.settle(*conn);
    }
}

/// Notes whether a connection is ready.
fn note(ready: &mut Ready, connections: &Connections, conn: u64) -> Result<(), AllocError>
    ensures { OnOk result ((c : ℕ) → is_noted ready.new c ≡ (if conn == c then is_ready (at_number connections.now.rows c) else is_noted ready.old c)) }
{
    ready.note(conn, connections.is_ready(conn))
}

/// Notes whether each of these connections is ready.
fn note_all(ready: &mut Ready, connections: &Connections, ends: &[u64]) -> Result<(), AllocError>
    ensures { OnOk result ((c : ℕ) → is_noted ready.new c ≡ (if has c ends.now then is_ready (at_number connections.now.rows c) else is_noted ready.old c)) }
{
    for conn in ends {
        note(ready, connections, *conn)?;
    }
    Ok(())
}

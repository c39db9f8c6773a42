//! The users of connections, and what their opens say of links.
ghost use Rattle.std.specs.Prelude.{◌≡◌, ◌==◌, ◌∷◌, [], List, ℕ, Option, None, false, if◌then◌else◌, unwrap_or, OnOk, IfOk};
ghost use Rattle.state_collections.specs.NumberMap.{at_number};
ghost use Rattle.router_trace.specs.Trace.{Beginning, Trace};
ghost use Rattle.router_trace.specs.Configuration.{opened};
ghost use Rattle.router_trace.specs.Trace.{Entry, Out, did};
ghost use Rattle.router_trace.specs.Links.{key_of, way_of};
ghost use Rattle.router_trace.specs.Peers.{user, container, container_of, container_id, largest_frame};
ghost use Rattle.state_connections.specs.Peering.{PeersFit};
ghost use Rattle.router_trace.specs.declared.event.Event.TheVariants as event;
ghost use Rattle.amqp_model.specs.declared.perf.Perf.TheVariants as perf;
ghost use Rattle.amqp_model.specs.declared.item.Item.TheVariants as item;

use crate::clocks::is_close;
use crate::row::CONNECTIONS;
use amqp_model::{Attach, Item, Open, Perf, Role, Text};
use book_model::{LinkKey, LinkRole};
use router_trace::{ConnectionId, Peer};
use state_collections::NumberMap;
use std::alloc::{AllocError, Global};
use std::marker::Model;

/// What links need of a peer's first open (AMQP 1.0 part 2, section 2.7.1).
#[derive(Drop)]
pub struct Container {
    id: Text,
    // the largest frame that the peer accepts, in bytes
    largest: u32,
}

impl Model for Container {
    ghost use Rattle.router_trace.specs.Peers.{Container};

    ghost Value = { Container };

    ghost view = { λ c. record { id = c.id; largest = c.largest } };
}

impl Container {
    /// What an open says.
    fn of(open: &Open) -> Result<Container, AllocError>
        ensures { IfOk result (λ c. c ≡ container_of «open».now) }
    {
        Ok(Container {
            id: open.container_id.clone()?,
            largest: open.max_frame_size,
        })
    }
}

/// The users of connections, and what their first opens say; nothing for a connection that is closed or lost. If an operation
/// fails to allocate, the table's contents are unspecified.
#[derive(Drop)]
pub struct Peers {
    alloc: Global,
    users: NumberMap<Text>,
    containers: NumberMap<Container>,
}

impl Peers {
    /// An empty table.
    pub fn new(alloc: Global) -> Peers
        ensures { (g : Beginning) (below : Trace) → PeersFit result (opened g below) }
    {
        Peers {
            alloc,
            users: NumberMap::new(alloc, CONNECTIONS),
            containers: NumberMap::new(alloc, CONNECTIONS),
        }
    }

    /// The largest frame that a peer accepts, in bytes; 4,294,967,295 if it states none.
    pub fn largest_frame(&self, conn: u64) -> u32
        ensures { (t : List Entry) → PeersFit self.now t → result ≡ largest_frame t conn }
    {
        match self.containers.get(conn) {
            None => u32::MAX,
            Some(container) => container.largest,
        }
    }

    /// The key of the link that the router's attach names on a connection. Fails if memory is refused.
    pub fn key_of(&self, conn: u64, attach: &Attach) -> Result<LinkKey, AllocError>
        ensures { IfOk result (λ key. (t : List Entry) → PeersFit self.now t → key ≡ key_of (user t conn) (container t conn) attach.now) }
    {
        Ok(LinkKey {
            role: way_of(attach.role),
            user: self.user(conn)?,
            container: self.container_id(conn)?,
            name: attach.name.clone()?,
        })
    }

    /// The user of a connection; the empty text if the connection is unknown.
    fn user(&self, conn: u64) -> Result<Text, AllocError>
        ensures { IfOk result (λ text. text ≡ unwrap_or (at_number self.now.users conn) []) }
    {
        match self.users.get(conn) {
            None => Ok(Text::new(String::new(self.alloc))),
            Some(user) => user.clone(),
        }
    }

    /// The container-id of a connection's peer; the empty text if it gave none.
    fn container_id(&self, conn: u64) -> Result<Text, AllocError>
        ensures { IfOk result (λ text. text ≡ container_id (at_number self.now.containers conn)) }
    {
        match self.containers.get(conn) {
            None => Ok(Text::new(String::new(self.alloc))),
            Some(container) => container.id.clone(),
        }
    }

    /// A connection comes up.
    pub fn up(&mut self, conn: ConnectionId, peer: &Peer) -> Result<(), AllocError>
        ensures { OnOk result ((t : List Entry) → PeersFit self.old t → PeersFit self.new (did (event.Up conn peer.now) ∷ t)) }
    {
        let _ = self.users.insert(conn.0, peer.user.clone()?)?;
        Ok(())
    }

    /// A connection is lost.
    pub fn down(&mut self, conn: ConnectionId)
        ensures { (t : List Entry) → PeersFit self.old t → PeersFit self.new (did (event.Down conn) ∷ t) }
    {
        self.forget(conn.0);
    }

    /// An item was received on a connection.
    pub fn hear(&mut self, conn: ConnectionId, item: &Item) -> Result<(), AllocError>
        ensures { OnOk result ((t : List Entry) → PeersFit self.old t → PeersFit self.new (did (event.Item conn item.now) ∷ t)) }
    {
        match item {
            Item::Frame { sasl, perf, .. } => {
                if !*sasl {
                    self.hear_perf(conn, perf)?;
                }
            }
            _ => {}
        }
        Ok(())
    }

    /// A performative was received on a connection.
    fn hear_perf(&mut self, conn: ConnectionId, perf: &Perf) -> Result<(), AllocError>
        ensures { OnOk result ((t : List Entry) (channel : ℕ) (payload : List ℕ) → PeersFit self.old t
            → PeersFit self.new (did (event.Item conn (item.Frame false channel perf.now payload)) ∷ t)) }
    {
        match perf {
            Perf::Open(open) => self.hear_open(conn, open.as_ref())?,
            _ => {}
        }
        Ok(())
    }

    /// An open was received on a connection: only the first one counts.
    fn hear_open(&mut self, conn: ConnectionId, open: &Open) -> Result<(), AllocError>
        ensures { OnOk result ((t : List Entry) (channel : ℕ) (payload : List ℕ) → PeersFit self.old t
            → PeersFit self.new (did (event.Item conn (item.Frame false channel (perf.Open «open».now) payload)) ∷ t)) }
    {
        if self.containers.get(conn.0).is_some() {
            return Ok(());
        }
        let _ = self.containers.insert(conn.0, Container::of(open)?)?;
        Ok(())
    }

    /// An item is put into the outbox of a connection: a close removes all that is known of it.
    pub fn put(&mut self, conn: u64, item: &Item)
        ensures { (t : List Entry) → PeersFit self.old t → PeersFit self.new (Out conn item.now ∷ t) }
    {
        if is_close(item) {
            self.forget(conn);
        }
    }

    /// Removes all that is known of a connection.
    fn forget(&mut self, conn: u64)
        ensures users { (c : ℕ) → at_number self.new.users c ≡ (if conn == c then None else at_number self.old.users c) }
        ensures containers { (c : ℕ) → at_number self.new.containers c ≡ (if conn == c then None else at_number self.old.containers c) }
    {
        let _ = self.users.remove(conn);
        let _ = self.containers.remove(conn);
    }
}

/// The direction of deliveries on a link whose router end has this role.
fn way_of(role: Role) -> LinkRole
    ensures { result ≡ way_of role }
{
    match role {
        Role::Sender => LinkRole::Consumer,
        Role::Receiver => LinkRole::Producer,
    }
}

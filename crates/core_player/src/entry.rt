//! What happened in a run of a router, as it is shown.
ghost use Rattle.std.specs.Prelude.{◌≡◌, IfOk};
ghost use Rattle.amqp_model.specs.ItemSpelling.{item_spelling};
ghost use Rattle.core_player.specs.Entries.{came_of};

use amqp_frames::write_item;
use amqp_model::{Binary, Item};
use book_model::Act;
use router_trace::{ConnectionId, Event, Peer};
use std::alloc::{AllocError, Global};
use std::marker::Model;

/// What came to a router: an event, with the canonical bytes of its item.
#[derive(Debug, Drop)]
pub enum Came {
    /// A connection came up.
    Up(ConnectionId, Peer),
    /// An item was received on a connection: its canonical encoding, which is empty where bytes came that are no item.
    Item(ConnectionId, Binary),
    /// A connection was lost.
    Down(ConnectionId),
    /// The time, in milliseconds.
    Tick(u64),
    /// The router starts.
    Start,
}

/// The acts of an event, in order.
#[derive(Debug, Drop)]
pub struct Acts {
    acts: Vec<Act>,
}

impl Model for Acts {
    ghost use Rattle.std.specs.Prelude.{List};
    ghost use Rattle.book_model.specs.declared.act.Act.{Act as AnAct};

    ghost Value = { List AnAct };

    ghost view = { λ a. a.acts.items };
}

impl Acts {
    /// These acts.
    pub fn new(acts: Vec<Act>) -> Acts
        ensures { result ≡ acts.items }
    {
        Acts { acts }
    }

    /// The acts.
    pub fn as_slice(&self) -> &[Act]
        ensures { result.now ≡ self.now }
    {
        self.acts.as_slice()
    }
}

/// One thing that happened in the runs of a play, and outlived their stops.
#[derive(Debug, Drop)]
pub enum Entry {
    /// An event was handled, and did these acts to the book.
    Event {
        /// What came.
        came: Came,
        /// The acts.
        acts: Acts,
    },
    /// An item was put into the outbox of a connection.
    Out {
        /// The connection.
        conn: ConnectionId,
        /// The item's canonical encoding.
        bytes: Binary,
    },
    /// Items left the outbox of a connection.
    Took {
        /// The connection.
        conn: ConnectionId,
        /// How many: at least one.
        count: usize,
    },
    /// The run was stopped.
    Stop,
}

/// What comes with an event.
pub(crate) fn came_of(alloc: Global, event: &Event) -> Result<Came, AllocError>
    ensures { IfOk result (λ came. came ≡ came_of event.now) }
{
    match event {
        Event::Up(conn, peer) => Ok(Came::Up(*conn, copy_of(peer)?)),
        Event::Item(conn, item) => Ok(Came::Item(*conn, bytes_of(alloc, item)?)),
        Event::Down(conn) => Ok(Came::Down(*conn)),
        Event::Tick(ms) => Ok(Came::Tick(*ms)),
        Event::Start => Ok(Came::Start),
    }
}

/// The same peer.
fn copy_of(peer: &Peer) -> Result<Peer, AllocError>
    ensures { IfOk result (λ copy. copy ≡ peer.now) }
{
    Ok(Peer {
        user: peer.user.clone()?,
        role: peer.role,
    })
}

/// An item's canonical encoding.
pub(crate) fn bytes_of(alloc: Global, item: &Item) -> Result<Binary, AllocError>
    ensures { IfOk result (λ bytes. bytes ≡ item_spelling item.now) }
{
    let mut bytes = Vec::new(alloc);
    write_item(alloc, item, &mut bytes)?;
    Ok(Binary::new(bytes))
}

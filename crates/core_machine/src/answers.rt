//! What a router answers.
ghost use Rattle.std.specs.Prelude.{◌≡◌};

use amqp_model::Item;
use book_model::Act;
use router_trace::ConnectionId;
use state_connections::Taken;

/// An event was handled.
#[derive(Debug, Drop)]
pub struct Done {
    /// The batch that the event wrote to the journal: its number, from 1 on, and its acts. None where it wrote nothing.
    pub journal: Option<(u64, Vec<Act>)>,
    /// Whether the event found the journal full: it had acts, or a delivery to admit, and there was no room for them.
    pub full: bool,
}

/// Items that were taken from an outbox. Only [`take`](crate::take) makes one.
#[derive(Debug, Drop)]
pub struct Batch {
    conn: ConnectionId,
    first: u64,
    items: Vec<Item>,
    ended: bool,
}

impl Batch {
    /// What was taken from the outbox of a connection.
    pub(crate) fn new(conn: ConnectionId, taken: Taken) -> Batch
        ensures { result ≡ record { conn = conn; first = taken.first; items = taken.items; ended = taken.ended } }
    {
        let Taken {
            first,
            items,
            ended,
        } = taken;
        Batch {
            conn,
            first,
            items,
            ended,
        }
    }

    /// The connection.
    pub fn conn(&self) -> ConnectionId
        ensures { result ≡ self.now.conn }
    {
        self.conn
    }

    /// The number of the first item, from 0: how many items left the outbox before.
    pub fn first(&self) -> u64
        ensures { result ≡ self.now.first }
    {
        self.first
    }

    /// The items, in order.
    pub fn items(&self) -> &[Item]
        ensures { result.now ≡ self.now.items.items }
    {
        self.items.as_slice()
    }

    /// The items, in order.
    pub fn into_items(self) -> Vec<Item>
        ensures { result ≡ self.items }
    {
        self.items
    }

    /// Whether the router ended the connection and these were its last items.
    pub fn is_last(&self) -> bool
        ensures { result ≡ self.now.ended }
    {
        self.ended
    }
}

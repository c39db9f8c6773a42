//! Outgoing items.
use crate::event::ConnectionId;
use amqp_model::Item;

/// An item to put into a connection's outbox.
#[derive(Debug, Drop)]
pub struct Outgoing {
    /// The connection.
    pub conn: ConnectionId,
    /// The item.
    pub item: Item,
}

//! Observation points of readers and writers.

use amqp_model::Item;
use router_trace::ConnectionId;
use std::sync::Wait;

/// One of the two threads of a connection.
#[derive(Clone, Copy, Debug, PartialEq, Eq)]
pub enum Side {
    /// The reader.
    Reader,
    /// The writer.
    Writer,
}

/// The gate that readers and writers pass: it may hold them, and it sees the items that they carry.
pub trait Gate {
    /// Whether `pass` may hold a thread of this side until something happens. What a reader's earlier items bring happens before it does: they are
    /// submitted first, and not together with the next one.
    fn holds(&self, side: Side) -> bool;

    /// A reader is about to submit its item with this number, or a writer to write its batch with this number, from 0.
    fn pass<R: Wait>(&self, rt: &R, conn: ConnectionId, side: Side, number: u64);

    /// A reader is about to submit this item, or a writer to write it.
    fn see<R: Wait>(&self, rt: &R, conn: ConnectionId, side: Side, item: &Item);
}

/// A gate that holds no thread.
#[derive(Clone, Copy, Debug, Drop)]
pub struct OpenGate {}

impl Gate for OpenGate {
    fn holds(&self, _side: Side) -> bool {
        false
    }

    fn pass<R: Wait>(&self, _rt: &R, _conn: ConnectionId, _side: Side, _number: u64) {}

    fn see<R: Wait>(&self, _rt: &R, _conn: ConnectionId, _side: Side, _item: &Item) {}
}

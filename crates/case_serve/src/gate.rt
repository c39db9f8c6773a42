//! The gate that holds the threads of a row in its order.
use crate::row::{Row, Way};
use crate::wire::Wire;
use amqp_model::Item;
use router_serve::{Gate, Side};
use router_trace::ConnectionId;
use std::sync::Wait;

/// Holds a reader before each item, and a writer before each batch, until all that the row has above it was written.
#[derive(Drop)]
pub struct InOrder<'a> {
    /// The row.
    pub row: &'a Row,
    /// The connection whose threads pass here.
    pub wire: &'a Wire,
}

impl<'a> Gate for InOrder<'a> {
    fn holds(&self, _side: Side) -> bool {
        true
    }

    fn pass<R: Wait>(&self, rt: &R, _conn: ConnectionId, side: Side, number: u64) {
        let place = match side {
            Side::Reader => self.row.next(Way::In, self.wire.at, number as usize),
            Side::Writer => {
                *self.wire.held.lock(rt) = true;
                let written = self.wire.written.lock(rt).len();
                self.row.next(Way::Out, self.wire.at, written)
            }
        };
        self.row.wait_for(rt, place);
    }

    fn see<R: Wait>(&self, _rt: &R, _conn: ConnectionId, _side: Side, _item: &Item) {}
}

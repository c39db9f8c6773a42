//! The deliveries that a book has.
use crate::terminus::TerminusNumber;
use amqp_model::{DeliveryState, DeliveryTag};
use bytes::Bytes;
use std::fmt;

/// The number of a row: from 1, in the order in which rows were admitted, and never reused.
#[derive(Clone, Copy, Debug, PartialEq, Eq)]
pub struct RowNumber(pub u64);

impl fmt::Display for RowNumber {
    fn fmt<W: fmt::Write>(&self, f: &mut fmt::Formatter<W>) -> fmt::Result {
        let number = self.0;
        write!(f, "{number}")
    }
}

/// A durable delivery.
#[derive(Debug, Drop)]
pub struct Row {
    /// Its number.
    pub number: RowNumber,
    /// The terminus of the link on which it came.
    pub producer: TerminusNumber,
    /// Its delivery-tag, given by the producer.
    pub tag: DeliveryTag,
    /// The terminus of the link to which it is bound; none where that link is not durable.
    pub consumer: Option<TerminusNumber>,
    /// The format of its message (AMQP 1.0 part 2, section 2.8.11).
    pub format: u32,
    /// Its message, carried unread.
    pub payload: Bytes,
    /// Its outcome, once it is decided.
    pub outcome: Option<DeliveryState>,
    /// Whether its producer has settled it.
    pub forgotten: bool,
}

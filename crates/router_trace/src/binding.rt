//! Messages bound to consumer links.
ghost use Rattle.std.specs.Prelude.{◌≡◌};
ghost use Rattle.router_trace.specs.Deliveries.{has_row, link_held, resumed_held, rank_of, is_earlier};

use crate::handle::Attachment;
use amqp_model::DeliveryState;
use book_model::RowNumber;
use bytes::Bytes;

/// The producer's delivery, to which the outcome is reported.
#[derive(Clone, Copy, Debug, PartialEq, Eq)]
pub struct Origin {
    /// The producer's link.
    pub link: Attachment,
    /// The delivery-id that the producer gave it.
    pub id: u32,
}

/// The name of a delivery, from which its tag is made.
#[derive(Clone, Copy, Debug, PartialEq, Eq)]
pub enum DeliveryName {
    /// A durable delivery: the number of its row in the book.
    Row(RowNumber),
    /// Any other: a counter of these, from 1.
    Counter(u64),
}

impl DeliveryName {
    /// Whether it is that of a durable delivery, which has a row in the book.
    pub fn has_row(self) -> bool
        ensures { result ≡ has_row self }
    {
        match self {
            DeliveryName::Row(_) => true,
            DeliveryName::Counter(_) => false,
        }
    }
}

/// A delivery's place in the order of binding. A row stands by its number, as often as it is bound; a message without a row stands behind the
/// last row that was admitted before it, by its counter.
#[derive(Clone, Copy, Debug, PartialEq, Eq)]
pub struct Rank {
    /// The number of its row, or of the last row that was admitted before it.
    pub row: u64,
    /// Its counter; 0 of a row.
    pub counter: u64,
}

impl DeliveryName {
    /// The place in the order of binding of a delivery with this name; `last` is the last row that was admitted before it.
    pub fn rank(self, last: u64) -> Rank
        ensures { result ≡ rank_of self last }
    {
        match self {
            DeliveryName::Row(row) => Rank {
                row: row.0,
                counter: 0,
            },
            DeliveryName::Counter(counter) => Rank { row: last, counter },
        }
    }
}

impl Rank {
    /// Whether it is before another.
    pub fn is_earlier(self, other: Rank) -> bool
        ensures { result ≡ is_earlier self other }
    {
        self.row < other.row || (self.row == other.row && self.counter < other.counter)
    }
}

/// How a row is sent after its consumer's link was attached again (AMQP 1.0 part 2, section 2.6.13).
#[derive(Debug, Drop)]
pub enum Resumed {
    /// A settled transfer with resume true and this outcome, without payload.
    Settled(DeliveryState),
    /// The whole message, with resume true.
    Again,
    /// The whole message, as a new delivery with the same tag.
    Anew,
    /// Not at all, as long as this attachment lasts: its incomplete map lacks the row, of which nothing is known.
    Kept,
}

/// What a row brings along when its consumer's link takes it up again.
#[derive(Debug, Drop)]
pub struct TakenUp {
    /// How it is sent.
    pub how: Resumed,
    /// The producer's delivery, to which the outcome is reported; none if no report is due to it, or if the producer's link isn't attached.
    pub origin: Option<Origin>,
    /// The producer's delivery once its outcome was told, as long as the producer has yet to settle it.
    pub told: Option<Origin>,
    /// The producer's delivery, if the producer settled it before the row was decided.
    pub early: Option<Origin>,
    /// The producer's link, if that was attached again, and its producer hasn't resumed or settled the row since.
    pub owned: Option<Origin>,
}

/// How a producer's link has a row that it had at an earlier attachment (AMQP 1.0 part 2, section 2.6.13).
#[derive(Clone, Copy, Debug, PartialEq, Eq)]
pub enum Holding {
    /// By this delivery, with which the producer resumed it: from now on the row's outcome is reported to that.
    Resumed(Origin),
    /// By itself: the producer has neither resumed nor settled the row since the link was attached. It counts for the link.
    Unresumed(Attachment),
    /// The producer has settled the row. It counts for the link until it is decided.
    Settled(Attachment),
}

impl Holding {
    /// The producer's link.
    pub fn link(self) -> Attachment
        ensures { result ≡ link_held self }
    {
        match self {
            Holding::Resumed(origin) => origin.link,
            Holding::Unresumed(link) => link,
            Holding::Settled(link) => link,
        }
    }

    /// The producer's delivery, if the producer resumed the row.
    pub fn resumed(self) -> Option<Origin>
        ensures { result ≡ resumed_held self }
    {
        match self {
            Holding::Resumed(origin) => Some(origin),
            _ => None,
        }
    }
}

/// The delivery of a row that a producer's link has.
#[derive(Debug, Drop)]
pub enum JoinedTo {
    /// The one that has the row now. It keeps its number, its link, its id, and what was sent of it.
    Standing,
    /// A new one, since none has the row: it has the row's outcome, or else it is suspended. Nothing of it is sent. A row that its producer settled is
    /// undecided.
    New(Option<DeliveryState>),
}

/// What is bound, and the producer's delivery of it.
#[derive(Debug, Drop)]
pub enum BindingKind {
    /// A message that came: the producer's delivery; none if the producer had settled it.
    Message(Option<Origin>),
    /// A row that was bound before, or in an earlier run, and that its consumer's link takes up again. No consumer is chosen.
    TakenUp(TakenUp),
    /// A row that its producer's link has from now on like this. No consumer is chosen.
    Joined(Holding, JoinedTo),
}

/// A message bound to a consumer's link.
#[derive(Debug, Drop)]
pub struct Binding {
    /// The consumer's link; the producer's, if a row is joined to that.
    pub consumer: Attachment,
    /// Its row in the book, if it is durable.
    pub row: Option<RowNumber>,
    /// Whether the consumer's link is durable: a row then stays undecided if the link is suspended.
    pub lasting: bool,
    /// The message format.
    pub format: u32,
    /// The message.
    pub payload: Bytes,
    /// What it is: a message that came, or a row that is bound again.
    pub kind: BindingKind,
}

//! Where a delivery stands: at its consumer's link, and by its producer.
ghost use Rattle.std.specs.Prelude.{◌≡◌, None, Some, if◌then◌else◌};
ghost use Rattle.router_trace.specs.Deliveries.{is_over, unless_over};
ghost use Rattle.state_deliveries.specs.Indexing.{seat_of, no_consumer, at_consumer, consumer_if, durable_id, is_on, no_producer, at_producer, producer_if, producer_of, on_link, turn_on};
ghost use Rattle.state_deliveries.specs.Placing.{spot_of, on_spot, from_spot, id_spot, own_spot};

use crate::by_rank::Turn;
use crate::delivery::Delivery;
use crate::spots::Spot;
use router_trace::{Attachment, DeliveryName, Origin, Rank};

/// What places a delivery in the indexes and stays as long as it lives.
#[derive(Clone, Copy)]
pub(crate) struct Seat {
    /// The consumer's link.
    pub(crate) link: Attachment,
    /// Its place in the order of binding.
    pub(crate) rank: Rank,
}

/// How a delivery stands at its consumer's link.
#[derive(Clone, Copy, PartialEq, Eq)]
pub(crate) struct AtConsumer {
    /// Whether it waits to start.
    pub(crate) waits: bool,
    /// Whether frames of it remain to be sent.
    pub(crate) goes_on: bool,
    /// Whether it is undecided, and its link isn't suspended.
    pub(crate) undecided: bool,
    /// The id that the router gave it, if it is undecided and has a row in the journal.
    pub(crate) durable: Option<u32>,
}

/// The entries of a delivery by its producer.
#[derive(Clone, Copy, PartialEq, Eq)]
pub(crate) struct AtProducer {
    /// The producer's link from which it is held.
    pub(crate) held: Option<u64>,
    /// Its turn among those whose outcome must be reported to their producer, if it is one; all are under the link 0.
    pub(crate) to_tell: Option<Turn>,
    /// The place of its producer's link, if the producer still needs its outcome.
    pub(crate) from: Option<Spot>,
    /// The place of the id that its producer gave it, if the producer still needs its outcome.
    pub(crate) by_id: Option<Spot>,
}

/// What is left to do of a delivery that was changed in its place: one that is over is removed, and so is its name.
#[derive(Clone, Copy)]
pub(crate) struct Left {
    /// Its name.
    pub(crate) name: DeliveryName,
    /// Whether it is over.
    pub(crate) over: bool,
}

impl Seat {
    /// That of a delivery.
    pub(crate) fn of(delivery: &Delivery) -> Seat
        ensures { result ≡ seat_of delivery.now }
    {
        Seat {
            link: delivery.link,
            rank: delivery.rank,
        }
    }

    /// The turn of its delivery on its link, if `holds`.
    pub(crate) fn turn(self, holds: bool) -> Option<Turn>
        ensures { result ≡ turn_on self.link.number self.rank holds }
    {
        turn_on(self.link.number, self.rank, holds)
    }

    /// The place of its link, if `holds`.
    pub(crate) fn spot(self, holds: bool) -> Option<Spot>
        ensures { result ≡ on_spot (spot_of self.link) holds }
    {
        on_spot(spot_of(self.link), holds)
    }

    /// The place of an id that the router gave on its link's session, if it gave one.
    pub(crate) fn id_spot(self, id: Option<u32>) -> Option<Spot>
        ensures { result ≡ own_spot self.link id }
    {
        match id {
            None => None,
            Some(id) => Some(Spot {
                conn: self.link.conn.0,
                own: self.link.channel,
                at: id,
            }),
        }
    }
}

impl AtConsumer {
    /// It has no entries there.
    pub(crate) fn nowhere() -> AtConsumer
        ensures { result ≡ no_consumer }
    {
        AtConsumer {
            waits: false,
            goes_on: false,
            undecided: false,
            durable: None,
        }
    }

    /// How a delivery stands.
    pub(crate) fn of(delivery: &Delivery) -> AtConsumer
        ensures { result ≡ at_consumer delivery.now }
    {
        AtConsumer {
            waits: delivery.id.is_none() && delivery.going_on,
            goes_on: delivery.going_on,
            undecided: delivery.outcome.is_none() && !delivery.suspended,
            durable: durable_id(delivery),
        }
    }

    /// The same, if a change may move it.
    pub(crate) fn when(moves: bool, delivery: &Delivery) -> Option<AtConsumer>
        ensures { result ≡ consumer_if moves delivery.now }
    {
        if moves {
            Some(AtConsumer::of(delivery))
        } else {
            None
        }
    }

    /// Whether the end of its link would change it.
    pub(crate) fn is_on(self) -> bool
        ensures { result ≡ is_on self }
    {
        self.goes_on || self.undecided
    }
}

impl AtProducer {
    /// No entries.
    pub(crate) fn nowhere() -> AtProducer
        ensures { result ≡ no_producer }
    {
        AtProducer {
            held: None,
            to_tell: None,
            from: None,
            by_id: None,
        }
    }

    /// The entries of a delivery.
    pub(crate) fn of(delivery: &Delivery) -> AtProducer
        ensures { result ≡ at_producer delivery.now }
    {
        let undecided = delivery.outcome.is_none();
        AtProducer {
            held: match delivery.holder() {
                None => None,
                Some(origin) => on_link(origin.link.number, undecided || delivery.name.has_row()),
            },
            to_tell: turn_on(0, delivery.rank, !undecided && delivery.origin.is_some()),
            from: from_spot(delivery.sender()),
            by_id: id_spot(delivery.source()),
        }
    }

    /// The same, if a change may move them.
    pub(crate) fn when(moves: bool, delivery: &Delivery) -> Option<AtProducer>
        ensures { result ≡ producer_if moves delivery.now }
    {
        if moves {
            Some(AtProducer::of(delivery))
        } else {
            None
        }
    }

    /// The entries of a delivery, unless that is over.
    pub(crate) fn of_kept(delivery: &Delivery, over: bool) -> AtProducer
        ensures { over ≡ is_over delivery.now → result ≡ producer_of (unless_over delivery.now) }
    {
        if over {
            AtProducer::nowhere()
        } else {
            AtProducer::of(delivery)
        }
    }
}

/// The id that the router gave to an undecided delivery with a row, if it gave it one.
fn durable_id(delivery: &Delivery) -> Option<u32>
    ensures { result ≡ durable_id delivery.now }
{
    if delivery.is_undecided() && delivery.name.has_row() {
        delivery.id
    } else {
        None
    }
}

/// The link, if `holds`.
fn on_link(link: u64, holds: bool) -> Option<u64>
    ensures { result ≡ on_link link holds }
{
    if holds { Some(link) } else { None }
}

/// The turn of a rank on a link, if `holds`.
fn turn_on(link: u64, rank: Rank, holds: bool) -> Option<Turn>
    ensures { result ≡ turn_on link rank holds }
{
    if holds {
        Some(Turn { link, rank })
    } else {
        None
    }
}

/// The place of a link.
fn spot_of(link: Attachment) -> Spot
    ensures { result ≡ spot_of link }
{
    Spot {
        conn: link.conn.0,
        own: link.channel,
        at: link.handle,
    }
}

/// The place, if `holds`.
fn on_spot(spot: Spot, holds: bool) -> Option<Spot>
    ensures { result ≡ on_spot spot holds }
{
    if holds { Some(spot) } else { None }
}

/// The place of the producer's link, if there is one.
fn from_spot(origin: Option<Origin>) -> Option<Spot>
    ensures { result ≡ from_spot origin }
{
    match origin {
        None => None,
        Some(origin) => Some(spot_of(origin.link)),
    }
}

/// The place of the id that the producer gave, if there is one.
fn id_spot(origin: Option<Origin>) -> Option<Spot>
    ensures { result ≡ id_spot origin }
{
    match origin {
        None => None,
        Some(origin) => Some(Spot {
            conn: origin.link.conn.0,
            own: origin.link.channel,
            at: origin.id,
        }),
    }
}

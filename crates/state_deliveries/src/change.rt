//! How ending links and dispositions change deliveries.
ghost use Rattle.std.specs.Prelude.{◌≡◌, IfOk, false};
ghost use Rattle.amqp_session.specs.Ranges.{in_range};
ghost use Rattle.state_deliveries.specs.Hearing.{heard_change, heard_in_change, disposed_change, decided_by};
ghost use Rattle.state_deliveries.specs.declared.change.Change.TheVariants as change;
ghost use Rattle.state_deliveries.specs.declared.change.Gone.TheVariants as gone;
ghost use Rattle.state_deliveries.specs.Stepping.{is_gone, is_gone_from, comes_with_id, put_by, put_change, told_by, untold_by, is_in};
ghost use Rattle.state_deliveries.specs.Indexing.{moves_consumer};

use crate::state::decision;
use amqp_model::{DeliveryState, Disposition, Item, Perf, Role};
use amqp_session::Serial;
use router_trace::{Attachment, Origin};
use std::alloc::AllocError;

/// The links that end, by their place.
#[derive(Clone, Copy, Debug, PartialEq, Eq)]
pub enum Gone {
    /// The link on a handle of the router.
    Link {
        /// The connection.
        conn: u64,
        /// The router's channel of the session.
        own: u16,
        /// The router's handle.
        handle: u32,
    },
    /// All links of a session.
    Session {
        /// The connection.
        conn: u64,
        /// The router's channel of the session.
        own: u16,
    },
    /// All links of a connection.
    Connection(u64),
}

/// A change to deliveries.
#[derive(Drop)]
pub enum Change {
    /// Links end.
    Ends {
        /// Which ones.
        gone: Gone,
        /// Whether they are closed for good; a durable one is suspended else.
        closed: bool,
    },
    /// Deliveries whose producer needs no outcome any more: on this session, with ids from the producer in this range (AMQP 1.0 part 2, section
    /// 2.7.6).
    Untold {
        /// The connection.
        conn: u64,
        /// The router's channel of the session.
        own: u16,
        /// The first delivery-id.
        first: u32,
        /// The last one.
        last: u32,
    },
    /// Deliveries whose producers were told the outcome, and have yet to settle it: the same.
    Told {
        /// The connection.
        conn: u64,
        /// The router's channel of the session.
        own: u16,
        /// The first delivery-id.
        first: u32,
        /// The last one.
        last: u32,
    },
    /// Deliveries that a consumer decides: on this session, with ids from the router in this range (AMQP 1.0 part 2, section 2.7.6).
    Decided {
        /// The connection.
        conn: u64,
        /// The router's channel of the session.
        own: u16,
        /// The first delivery-id.
        first: u32,
        /// The last one.
        last: u32,
        /// The outcome.
        outcome: DeliveryState,
    },
}

impl Change {
    /// A connection is lost, or closed.
    pub fn lost(conn: u64) -> Change
        ensures { result ≡ change.Ends (gone.Connection conn) false }
    {
        Change::Ends {
            gone: Gone::Connection(conn),
            closed: false,
        }
    }

    /// The immediate change to deliveries by an item of the peer, on the session with the router's channel `own`, if there is one.
    pub fn of_item(conn: u64, own: Option<u16>, item: &Item) -> Result<Option<Change>, AllocError>
        ensures { IfOk result (λ made. made ≡ heard_change conn own item.now) }
    {
        match item {
            Item::Frame { sasl, perf, .. } => {
                if *sasl {
                    return Ok(None);
                }
                after_perf(conn, own, perf)
            }
            _ => Ok(None),
        }
    }

    /// Whether it may move a delivery at its consumer's link. That the producer was told or has settled it moves
    /// nothing there.
    pub(crate) fn moves_consumer(&self) -> bool
        ensures { result ≡ moves_consumer self.now }
    {
        match self {
            Change::Ends { .. } => true,
            Change::Decided { .. } => true,
            _ => false,
        }
    }
}

impl Gone {
    /// Whether a link ends.
    pub(crate) fn has(self, link: Attachment) -> bool
        ensures { result ≡ is_gone self link }
    {
        match self {
            Gone::Link { conn, own, handle } => {
                link.conn.0 == conn && (own == link.channel && handle == link.handle)
            }
            Gone::Session { conn, own } => link.conn.0 == conn && own == link.channel,
            Gone::Connection(conn) => link.conn.0 == conn,
        }
    }

    /// Whether the producer's link ends.
    pub(crate) fn has_origin(self, origin: Option<Origin>) -> bool
        ensures { result ≡ is_gone_from self origin }
    {
        match origin {
            None => false,
            Some(origin) => self.has(origin.link),
        }
    }
}

/// The immediate change to deliveries when the router sends a performative on its channel `own`.
pub(crate) fn after_put(conn: u64, own: u16, perf: &Perf) -> Option<Change>
    ensures { result ≡ put_change conn own perf.now }
{
    match perf {
        Perf::Disposition(disposition) => after_disposition(conn, own, disposition),
        Perf::Detach(detach) => Some(Change::Ends {
            gone: Gone::Link {
                conn,
                own,
                handle: detach.handle,
            },
            closed: detach.closed,
        }),
        Perf::End(_) => Some(Change::Ends {
            gone: Gone::Session { conn, own },
            closed: false,
        }),
        Perf::Close(_) => Some(Change::Ends {
            gone: Gone::Connection(conn),
            closed: false,
        }),
        _ => None,
    }
}

/// The immediate change to deliveries when the router sends a disposition on its channel `own`.
pub(crate) fn after_disposition(conn: u64, own: u16, disposition: &Disposition) -> Option<Change>
    ensures { result ≡ put_by disposition.now.role conn own disposition.now }
{
    match disposition.role {
        Role::Sender => None,
        Role::Receiver => Some(told_by(conn, own, disposition)),
    }
}

/// The deliveries on a session whose outcomes the router's disposition tells, settled or not.
fn told_by(conn: u64, own: u16, disposition: &Disposition) -> Change
    ensures { result ≡ told_by conn own disposition.now }
{
    let first = disposition.first;
    let last = disposition.last.unwrap_or(first);
    if disposition.settled {
        Change::Untold {
            conn,
            own,
            first,
            last,
        }
    } else {
        Change::Told {
            conn,
            own,
            first,
            last,
        }
    }
}

/// The deliveries on a session whose producers need no outcome any more after a disposition, if it settles.
pub(crate) fn untold_by(conn: u64, own: u16, disposition: &Disposition) -> Option<Change>
    ensures { result ≡ untold_by conn own disposition.now }
{
    if !disposition.settled {
        return None;
    }
    Some(Change::Untold {
        conn,
        own,
        first: disposition.first,
        last: disposition.last.unwrap_or(disposition.first),
    })
}

/// The immediate change to deliveries by a performative of the peer.
fn after_perf(conn: u64, own: Option<u16>, perf: &Perf) -> Result<Option<Change>, AllocError>
    ensures { IfOk result (λ change. change ≡ heard_in_change conn own perf.now) }
{
    match perf {
        Perf::Disposition(disposition) => disposed(conn, own, disposition),
        _ => Ok(None),
    }
}

/// The change to deliveries by a disposition of the peer.
fn disposed(
    conn: u64,
    own: Option<u16>,
    disposition: &Disposition,
) -> Result<Option<Change>, AllocError>
    ensures { IfOk result (λ change. change ≡ disposed_change disposition.now.role conn own disposition.now) }
{
    let Some(own) = own else {
        return Ok(None);
    };
    match disposition.role {
        Role::Sender => Ok(untold_by(conn, own, disposition)),
        Role::Receiver => Ok(decided_by(conn, own, disposition, decision(disposition)?)),
    }
}

/// The deliveries that a disposition decides, if it has an outcome.
fn decided_by(
    conn: u64,
    own: u16,
    disposition: &Disposition,
    outcome: Option<DeliveryState>,
) -> Option<Change>
    ensures { result ≡ decided_by conn own disposition.now outcome }
{
    match outcome {
        None => None,
        Some(outcome) => Some(Change::Decided {
            conn,
            own,
            first: disposition.first,
            last: disposition.last.unwrap_or(disposition.first),
            outcome,
        }),
    }
}

/// Whether a producer gave a delivery an id in this range, on a session.
pub(crate) fn comes_with_id(
    origin: Option<Origin>,
    conn: u64,
    own: u16,
    first: u32,
    last: u32,
) -> bool
    ensures { result ≡ comes_with_id origin conn own first last }
{
    match origin {
        None => false,
        Some(origin) => {
            origin.link.conn.0 == conn
                && origin.link.channel == own
                && in_range(first, last, origin.id)
        }
    }
}

/// Whether an id is in a disposition's range (AMQP 1.0 part 2, section 2.7.6).
pub(crate) fn in_range(first: u32, last: u32, id: u32) -> bool
    ensures { result ≡ in_range first last id }
{
    let first = Serial::new(first);
    let reach = first.distance_to(Serial::new(last));
    reach < 0x8000_0000 && first.distance_to(Serial::new(id)) <= reach
}

/// Whether a delivery has an id in a disposition's range.
pub(crate) fn is_in(id: Option<u32>, first: u32, last: u32) -> bool
    ensures { result ≡ is_in id first last }
{
    match id {
        None => false,
        Some(id) => in_range(first, last, id),
    }
}

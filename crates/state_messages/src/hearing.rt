//! The link that a transfer of a peer names.
ghost use Rattle.std.specs.Prelude.{◌≡◌, ℕ, List, true};
ghost use Rattle.router_trace.specs.Trace.{Entry};
ghost use Rattle.router_trace.specs.Links.{their_handle, link};
ghost use Rattle.router_trace.specs.Sessions.{is_channel};
ghost use Rattle.state_links.specs.Fits.{LinksFit};
ghost use Rattle.state_unsettled.specs.Incoming.{found_by, found_in, receiving_at};

use amqp_model::{Item, Perf};
use router_trace::LinkAt;
use state_links::Links;
use state_unsettled::{Middle, Receiving};

/// The link on which the peer is the sender and that its transfer names, on the session with the router's channel `own`.
pub(crate) fn receiving(
    links: &Links,
    conn: u64,
    own: Option<u16>,
    item: &Item,
) -> Option<Receiving>
    ensures { (t : List Entry) → LinksFit links.now t → (o : ℕ) → is_channel own o ≡ true → result ≡ found_by item.now (their_handle t conn o) (link t conn o) }
{
    let own = own?;
    match item {
        Item::Frame { perf, .. } => receiving_in(links, conn, own, perf),
        _ => None,
    }
}

/// The link that a performative names.
fn receiving_in(links: &Links, conn: u64, own: u16, perf: &Perf) -> Option<Receiving>
    ensures { (t : List Entry) → LinksFit links.now t → result ≡ found_in perf.now (their_handle t conn own) (link t conn own) }
{
    match perf {
        Perf::Transfer(transfer) => receiving_at(links, conn, own, transfer.handle),
        _ => None,
    }
}

/// The link on a peer's handle, if the peer is its sender.
fn receiving_at(links: &Links, conn: u64, own: u16, handle: u32) -> Option<Receiving>
    ensures { (t : List Entry) → LinksFit links.now t → result ≡ receiving_at (their_handle t conn own handle) (link t conn own) }
{
    let found = links.find(conn, own, handle);
    let LinkAt::Receives {
        handle: at,
        unused,
        ..
    } = found.place
    else {
        return None;
    };
    let middle = match found.middle {
        None => None,
        Some(told) => Some(Middle { id: told.id }),
    };
    Some(Receiving {
        handle: at,
        middle,
        beyond: middle.is_none() && unused == 0,
    })
}

//! What an item finds.
ghost use Rattle.std.specs.Prelude.{◌≡◌, List};
ghost use Rattle.router_trace.specs.Trace.{Entry};
ghost use Rattle.router_state.specs.Finding.{IsFound, IsFoundBy, IsFoundLink, handle_in, place_found};
ghost use Rattle.router_state.specs.Tables.{TablesFind};

use crate::tables::State;
use amqp_model::{Item, Perf};
use router_trace::LinkAt;
use state_links::FoundLink;
use state_sessions::Place;

/// What an item of a peer finds, each looked up once: what its channel stands for, and what its performative's handle
/// stands for on the session there.
#[derive(Clone, Copy)]
pub struct Found<'a> {
    /// The router's channel that its channel stands for, if it stands for one.
    pub own: Option<u16>,
    /// What is on its channel.
    pub session: Place,
    /// What is on its handle; nothing if its channel stands for no session, or if its performative has no handle.
    pub link: FoundLink<'a>,
}

impl State {
    /// What an item on a connection finds, as an event finds it.
    pub fn find(&self, conn: u64, item: &Item) -> Found<'_>
        ensures { (t : List Entry) → TablesFind self.now t → IsFound t conn item.now result }
    {
        match item {
            Item::Frame { channel, perf, .. } => self.find_on(conn, *channel, handle_in(perf)),
            _ => self.find_on(conn, 0, None),
        }
    }

    /// What is on a channel of the peer, and on a handle of the session there.
    fn find_on(&self, conn: u64, channel: u16, handle: Option<u32>) -> Found<'_>
        ensures { (t : List Entry) → TablesFind self.now t → IsFoundBy t conn channel handle result }
    {
        let session = self.sessions.find(conn, channel);
        Found {
            own: session.own,
            session: session.place,
            link: self.find_link(conn, session.own, handle),
        }
    }

    /// What is on a handle of a session; nothing if there is no session or no handle.
    fn find_link(&self, conn: u64, own: Option<u16>, handle: Option<u32>) -> FoundLink<'_>
        ensures { (t : List Entry) → TablesFind self.now t → IsFoundLink (place_found t conn own handle) result }
    {
        match (own, handle) {
            (Some(own), Some(handle)) => self.messages.links().find(conn, own, handle),
            _ => FoundLink::unlinked(LinkAt::Nowhere),
        }
    }
}

/// The handle that a performative has, if it has one.
fn handle_in(perf: &Perf) -> Option<u32>
    ensures { result ≡ handle_in perf.now }
{
    match perf {
        Perf::Attach(attach) => Some(attach.as_ref().handle),
        Perf::Flow(flow) => flow.handle,
        Perf::Transfer(transfer) => Some(transfer.handle),
        Perf::Detach(detach) => Some(detach.handle),
        _ => None,
    }
}

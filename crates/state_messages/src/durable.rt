//! Which links are durable: their unsettled deliveries outlive them (AMQP 1.0 part 3, section 3.5.5).
ghost use Rattle.std.specs.Prelude.{◌≡◌, List, is_some};
ghost use Rattle.router_trace.specs.Trace.{Entry};
ghost use Rattle.router_trace.specs.Links.{durable_key, link};
ghost use Rattle.state_links.specs.Fits.{LinksFit};
ghost use Rattle.state_messages.specs.Fits.{MessagesFit};
ghost use Rattle.state_messages.specs.Messages.{lasts};

use crate::messages::Messages;
use router_trace::Attachment;
use state_links::Links;

impl Messages {
    /// Whether the link on a handle of the router is durable.
    pub fn is_durable(&self, conn: u64, own: u16, handle: u32) -> bool
        ensures { (t : List Entry) → MessagesFit self.now t → result ≡ is_some (durable_key (link t conn own handle)) }
    {
        is_durable(&self.links, conn, own, handle)
    }
}

/// Whether an attachment's link is durable.
pub(crate) fn lasts(links: &Links, at: Attachment) -> bool
    ensures { (t : List Entry) → LinksFit links.now t → result ≡ lasts t at }
{
    is_durable(links, at.conn.0, at.channel, at.handle)
}

/// Whether the link on a handle of the router is durable.
fn is_durable(links: &Links, conn: u64, own: u16, handle: u32) -> bool
    ensures { (t : List Entry) → LinksFit links.now t → result ≡ is_some (durable_key (link t conn own handle)) }
{
    links.durable_key(conn, own, handle).is_some()
}

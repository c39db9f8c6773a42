//! Sessions on which a delivery is in progress.
ghost use Rattle.std.specs.Prelude.{◌≡◌, List, Some, IfOk};
ghost use Rattle.router_trace.specs.Trace.{Entry};
ghost use Rattle.router_trace.specs.Deliveries.{delivery, is_number, stands_on};
ghost use Rattle.router_trace.specs.Links.{Link as View};
ghost use Rattle.router_trace.specs.Following.{goes_on_at, is_busy, is_going_on, link_of};
ghost use Rattle.state_links.specs.Ends.{link_of as link_of_view};
ghost use Rattle.state_messages.specs.Asking.{some_go_on};
ghost use Rattle.state_messages.specs.Fits.{MessagesFit};

use crate::messages::Messages;
use router_trace::Attachment;
use state_links::Link;
use std::alloc::AllocError;

impl Messages {
    /// Whether a delivery is in progress on a session: it has begun, and more frames of it remain to be sent.
    pub fn is_busy(&self, conn: u64, own: u16) -> Result<bool, AllocError>
        ensures { IfOk result (λ busy. (t : List Entry) → MessagesFit self.now t → busy ≡ is_busy t conn own) }
    {
        let numbers = self.deliveries.sending_on(conn, own)?;
        Ok(self.some_go_on(conn, own, numbers.as_slice()))
    }

    /// Whether one of the deliveries with these numbers is in progress on a session.
    fn some_go_on(&self, conn: u64, own: u16, numbers: &[u64]) -> bool
        ensures { (t : List Entry) → MessagesFit self.now t → result ≡ some_go_on t conn own numbers.now }
    {
        for number in numbers {
            if self.is_going_on(conn, own, *number) {
                return true;
            }
        }
        false
    }

    /// Whether the delivery with this number is in progress on a session.
    fn is_going_on(&self, conn: u64, own: u16, number: u64) -> bool
        ensures { (t : List Entry) → MessagesFit self.now t → result ≡ is_going_on t conn own number (delivery t number) }
    {
        let Some(delivery) = self.deliveries.delivery(number) else {
            return false;
        };
        let at = delivery.link;
        let sent = self.deliveries.sending(at.conn.0, at.channel, at.handle);
        is_on(at, conn, own)
            && ((delivery.id.is_some() && delivery.going_on) && self.is_sent_on(at, sent, number))
    }

    /// Whether frames of this delivery remain to be sent on an attachment's link, where `sent` is the delivery on its handle.
    fn is_sent_on(&self, at: Attachment, sent: Option<u64>, number: u64) -> bool
        ensures { (t : List Entry) → MessagesFit self.now t → result ≡ goes_on_at (link_of t at) at.number sent number }
    {
        match self.links.link(at) {
            None => false,
            Some(link) => link_sends(link, at.number, sent, number),
        }
    }
}

/// Whether the link has this number and goes on with this delivery, where `sent` is the delivery on its handle.
fn link_sends(link: &Link, at: u64, sent: Option<u64>, number: u64) -> bool
    ensures { (l : View) → link.now ≡ link_of_view l → result ≡ goes_on_at (Some l) at sent number }
{
    link.number == at && (link.going_on && is_number(sent, number))
}

/// Whether there is a number and it is this one.
fn is_number(sent: Option<u64>, number: u64) -> bool
    ensures { result ≡ is_number sent number }
{
    match sent {
        None => false,
        Some(sent) => sent == number,
    }
}

/// Whether an attachment is on a session.
fn is_on(at: Attachment, conn: u64, own: u16) -> bool
    ensures { result ≡ stands_on at conn own }
{
    at.conn.0 == conn && at.channel == own
}

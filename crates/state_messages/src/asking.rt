//! Queries on the links of attachments.
ghost use Rattle.std.specs.Prelude.{◌≡◌, List, Some};
ghost use Rattle.router_trace.specs.Trace.{Entry};
ghost use Rattle.router_trace.specs.Links.{Link as View, has_number, is_attached};
ghost use Rattle.router_trace.specs.Following.{link_of, takes_more};
ghost use Rattle.state_links.specs.Ends.{link_of as link_of_view};
ghost use Rattle.state_messages.specs.Asking.{consumer_with, drained_by, drained_state, goes_on, is_consumer};
ghost use Rattle.state_messages.specs.Fits.{MessagesFit};

use crate::messages::Messages;
use book_model::LinkKey;
use router_trace::{Attachment, LinkState};
use state_links::Link;

impl Messages {
    /// Whether an attachment's link can start a waiting delivery: it is attached, no delivery is in progress there, and the peer granted credit.
    pub fn takes_more(&self, at: Attachment) -> bool
        ensures { (t : List Entry) → MessagesFit self.now t → result ≡ takes_more (link_of t at) at.number }
    {
        match self.links.link(at) {
            None => false,
            Some(link) => link_takes_more(link, at.number),
        }
    }

    /// Whether a delivery is in progress on an attachment's link.
    pub fn goes_on(&self, at: Attachment) -> bool
        ensures { (t : List Entry) → MessagesFit self.now t → result ≡ goes_on (link_of t at) at.number }
    {
        match self.links.link(at) {
            None => false,
            Some(link) => link_goes_on(link, at.number),
        }
    }

    /// The link state of the flow that answers a drain at an attachment's place, if the router is the sender there.
    pub fn drained(&self, at: Attachment) -> Option<LinkState>
        ensures { (t : List Entry) → MessagesFit self.now t → result ≡ drained_state at.handle (link_of t at) }
    {
        match self.links.link(at) {
            None => None,
            Some(link) => link_drained(link, at.handle),
        }
    }

    /// The attachment with a key, if the router is the sender on its link.
    pub fn consumer_with(&self, key: &LinkKey) -> Option<Attachment>
        ensures { (t : List Entry) → MessagesFit self.now t → result ≡ consumer_with t key.now }
    {
        match self.links.holder(key) {
            None => None,
            Some(at) if self.is_consumer(at) => Some(at),
            Some(_) => None,
        }
    }

    /// Whether the router is the sender on the link at an attachment's place.
    fn is_consumer(&self, at: Attachment) -> bool
        ensures { (t : List Entry) → MessagesFit self.now t → result ≡ is_consumer (link_of t at) }
    {
        match self.links.link(at) {
            None => false,
            Some(link) => link.is_consumer(),
        }
    }

    /// Whether an attachment still has its link.
    pub fn is_attached(&self, at: Attachment) -> bool
        ensures { (t : List Entry) → MessagesFit self.now t → result ≡ is_attached t at }
    {
        match self.links.link(at) {
            None => false,
            Some(link) => link_has(link, at.number),
        }
    }
}

/// Whether the link has this number and can start a waiting delivery.
#[tactic(auto, using(crate::proofs::Asked::takes_is))]
fn link_takes_more(link: &Link, number: u64) -> bool
    ensures { (l : View) → link.now ≡ link_of_view l → result ≡ takes_more (Some l) number }
{
    link.number == number && !link.going_on && link.credit() > 0
}

/// Whether the link has this number and a delivery is in progress on it.
fn link_goes_on(link: &Link, number: u64) -> bool
    ensures { (l : View) → link.now ≡ link_of_view l → result ≡ goes_on (Some l) number }
{
    link.number == number && link.going_on
}

/// The link state of the flow that answers a drain of a link on this handle.
#[tactic(auto, using(crate::proofs::Asked::drained_is, crate::proofs::Asked::drained_not))]
fn link_drained(link: &Link, handle: u32) -> Option<LinkState>
    ensures { (l : View) → link.now ≡ link_of_view l → result ≡ drained_by handle l.happened }
{
    if link.is_consumer() {
        let count = link.count().plus(link.credit());
        return Some(LinkState {
            handle,
            count,
            credit: 0,
            drain: true,
        });
    }
    None
}

/// Whether a link has this number.
fn link_has(link: &Link, number: u64) -> bool
    ensures { (l : View) → link.now ≡ link_of_view l → result ≡ has_number number (Some l) }
{
    link.number == number
}

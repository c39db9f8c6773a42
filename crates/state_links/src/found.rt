//! What a frame finds on a handle.
ghost use Rattle.std.specs.Prelude.{◌≡◌, None};

use amqp_link::Delivery;
use book_model::LinkKey;
use router_trace::LinkAt;

/// What a frame finds on a handle of the peer, by one look-up of the handle and one of its link.
#[derive(Clone, Copy)]
pub struct FoundLink<'a> {
    /// What the handle stands for.
    pub place: LinkAt,
    /// The delivery in the middle of its link, if the peer is the sender and there is one.
    pub middle: Option<&'a Delivery>,
    /// The key of its link, if that is durable.
    pub key: Option<&'a LinkKey>,
}

impl<'a> FoundLink<'a> {
    /// A handle that stands for no link.
    pub fn unlinked(place: LinkAt) -> FoundLink<'a>
        ensures place { result.place ≡ place }
        ensures middle { result.middle ≡ None }
        ensures key { result.key ≡ None }
    {
        FoundLink {
            place,
            middle: None,
            key: None,
        }
    }
}

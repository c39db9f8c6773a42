//! Grants of link credit.
use router_trace::{Attachment, LinkState};

/// A grant of link credit to a producer (AMQP 1.0 part 2, section 2.6.7).
#[derive(Clone, Copy, Debug, PartialEq, Eq)]
pub struct LinkGrant {
    /// The producer's link.
    pub at: Attachment,
    /// The peer's delivery-count, and all the link credit that it has from there on.
    pub state: LinkState,
}

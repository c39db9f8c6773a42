//! Credit, as a receiver grants it.
ghost use Rattle.std.specs.Prelude.{◌≡◌};
ghost use Rattle.amqp_link.specs.Credit.{limit, left};

use amqp_session::Serial;

/// What a flow of a receiver grants: a number of deliveries, from a delivery-count on (AMQP 1.0 part 2, section 2.6.7).
#[derive(Clone, Copy, Debug, PartialEq, Eq)]
pub struct Grant {
    /// The delivery-count that the receiver knew of.
    pub count: Serial,
    /// How many deliveries it accepts from there on: the link-credit.
    pub credit: u32,
}

impl Grant {
    /// The credit that a sender with this delivery-count has left of it: the distance to the end of the grant, and none
    /// where that is 2^31 or more.
    pub fn left(self, count: Serial) -> u32
        ensures { result ≡ left (limit self) count }
    {
        let distance = count.distance_to(self.count.plus(self.credit));
        if distance < 0x8000_0000 { distance } else { 0 }
    }
}

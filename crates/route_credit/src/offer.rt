//! What a consumer link has.
ghost use Rattle.route_credit.specs.Ranks.{offer_rank};

use crate::weigh::Weigh;
use route_table::Distribution;

/// What a consumer link has: credit that is free, and deliveries that it hasn't decided yet.
#[derive(Clone, Copy, Debug, PartialEq, Eq)]
pub struct Offer {
    pub free: u64,
    pub undecided: u64,
}

impl Weigh for Offer {
    ghost rank = { offer_rank };

    ghost amount = { λ offer. offer.free };

    #[inline]
    fn rank(self, distribution: Distribution) -> Option<u64> {
        if self.free == 0 {
            return None;
        }
        match distribution {
            Distribution::Balanced => Some(self.undecided),
            Distribution::Closest | Distribution::Multicast => Some(0),
        }
    }

    #[inline]
    fn is_same(self, other: Self) -> bool {
        self == other
    }

    #[inline]
    fn amount(self) -> u64 {
        self.free
    }
}

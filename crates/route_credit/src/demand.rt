//! What a producer link has.
ghost use Rattle.std.specs.Prelude.{◌≡◌};
ghost use Rattle.route_credit.specs.Pool.{lent_of, need_of, part_of};

use crate::weigh::Weigh;
use route_table::Distribution;

/// The limit of a producer link's credit and deliveries.
const MOST: u32 = 64;

/// The unused credit at which a multicast address grants again.
const LOW: u32 = 32;

/// What a producer link has: its unused credit, how much is due to it, and the deliveries that the router holds. What
/// is unused above what is due is lent.
#[derive(Clone, Copy, Debug, PartialEq, Eq)]
pub struct Demand {
    pub unused: u32,
    pub due: u32,
    pub held: u32,
}

impl Demand {
    /// The lent credit of a link: what is unused less what is due.
    #[inline]
    fn lent(self) -> u32
        ensures { result ≡ lent_of self }
    {
        self.unused.saturating_sub(self.due)
    }

    /// How much the next grant gives, where the link is in need.
    #[inline]
    pub(crate) fn part(self, distribution: Distribution) -> u32
        ensures { result ≡ part_of distribution self }
    {
        match distribution {
            Distribution::Balanced | Distribution::Closest => 1,
            Distribution::Multicast => MOST.saturating_sub(self.unused),
        }
    }
}

impl Weigh for Demand {
    ghost rank = { need_of };

    ghost amount = { lent_of };

    #[inline]
    fn rank(self, distribution: Distribution) -> Option<u64> {
        let lent = u64::from(self.lent());
        let needs = match distribution {
            Distribution::Balanced | Distribution::Closest => {
                lent + u64::from(self.held) < u64::from(MOST)
            }
            Distribution::Multicast => self.unused <= LOW,
        };
        if needs { Some(lent) } else { None }
    }

    #[inline]
    fn is_same(self, other: Self) -> bool {
        self == other
    }

    #[inline]
    fn amount(self) -> u64 {
        u64::from(self.lent())
    }
}

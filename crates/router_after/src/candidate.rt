//! Deliveries and links that may go next, with their places.
ghost use Rattle.std.specs.Prelude.{◌≡◌};
ghost use Rattle.router_trace.specs.Numbers.{is_before};
ghost use Rattle.state_deliveries.specs.Finding.{is_behind};
ghost use Rattle.router_after.specs.Soonest.{is_sooner, sooner};

use router_trace::{Attachment, Rank};

/// A delivery or a link that may go next.
#[derive(Clone, Copy, PartialEq, Eq)]
pub(crate) struct Candidate {
    /// Its number.
    pub(crate) number: u64,
    /// Its place.
    pub(crate) place: Attachment,
    /// Its rank among those of one place.
    pub(crate) rank: Rank,
}

/// Of two candidates the one that goes first.
pub(crate) fn sooner(best: Option<Candidate>, other: Option<Candidate>) -> Option<Candidate>
    ensures { result ≡ sooner best other }
{
    match best {
        None => other,
        Some(best) => match other {
            None => Some(best),
            Some(other) => {
                if other.is_sooner(&best) {
                    Some(other)
                } else {
                    Some(best)
                }
            }
        },
    }
}

impl Candidate {
    /// Whether it goes before another.
    fn is_sooner(&self, other: &Candidate) -> bool
        ensures { result ≡ is_sooner self.now other.now }
    {
        is_before(self.place, other.place)
            || (!is_before(other.place, self.place)
                && is_less(self.rank, self.number, other.rank, other.number))
    }
}

/// Whether a rank and a number are less than others.
fn is_less(rank: Rank, number: u64, other: Rank, other_number: u64) -> bool
    ensures { result ≡ is_behind rank number other other_number }
{
    rank.is_earlier(other) || (!other.is_earlier(rank) && number < other_number)
}

/// Whether a place is before another, by connection and by the router's channel.
fn is_before(place: Attachment, other: Attachment) -> bool
    ensures { result ≡ is_before place other }
{
    place.conn.0 < other.conn.0 || (place.conn.0 == other.conn.0 && place.channel < other.channel)
}

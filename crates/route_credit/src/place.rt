//! The place of a link in the order of turns.
ghost use Rattle.std.specs.Prelude.{◌≡◌, ◌+◌, ℕ, true, false, nat_lt, if◌then◌else◌};
ghost use Rattle.route_credit.specs.Few.{IsBefore, IsFirst, is_there, once, place_of};
ghost use Rattle.route_credit.specs.declared.place.Place.{Place};

/// The place of a link: by its rank, and of several with one rank by its number.
#[derive(Clone, Copy, Debug, PartialEq, Eq, PartialOrd, Ord)]
pub(crate) struct Place {
    pub(crate) rank: u64,
    pub(crate) id: u64,
}

impl Place {
    /// The place of a link with this rank, if it has one.
    #[inline]
    pub(crate) fn of(id: u64, rank: Option<u64>) -> Option<Place>
        ensures { result ≡ place_of id rank }
    {
        match rank {
            None => None,
            Some(rank) => Some(Place { rank, id }),
        }
    }

    /// Whether it is before another in the order, or the same.
    #[inline]
    fn is_before(self, other: Place) -> bool
        ensures before { result ≡ true → IsBefore self other }
        ensures after { result ≡ false → IsBefore other self }
    {
        self.rank < other.rank || (self.rank == other.rank && self.id <= other.id)
    }
}

/// The first of two places, where there are two.
#[inline]
pub(crate) fn sooner(one: Option<Place>, other: Option<Place>) -> Option<Place>
    ensures { (f g : Place → ℕ) → IsFirst f one → IsFirst g other → IsFirst (λ place. f place + g place) result }
{
    match (one, other) {
        (None, other) => other,
        (one, None) => one,
        (Some(one), Some(other)) => Some(if one.is_before(other) { one } else { other }),
    }
}

/// This place, if its link has a number above another.
#[inline]
pub(crate) fn behind(found: Option<Place>, id: u64) -> Option<Place>
    ensures { IsFirst (λ place. if nat_lt id place.id then once (is_there found place) else 0) result }
{
    match found {
        None => None,
        Some(found) => { if id < found.id { Some(found) } else { None } }
    }
}

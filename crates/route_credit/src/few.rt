//! A few places.
ghost use Rattle.std.specs.Prelude.{◌≡◌, ◌+◌, ◌<◌, ℕ, true, false, None, length, slice_index_or, slice_set, nat_lt, if◌then◌else◌};
ghost use Rattle.route_credit.specs.Few.{count, IsFirst, is_there, once};
ghost use Rattle.route_credit.specs.declared.place.Place.{Place};

use crate::place::{Place, behind, sooner};

/// So many places stand in an array.
const FEW: usize = 4;

/// Up to four places, in no order.
#[derive(Clone, Copy, Debug)]
pub(crate) struct Few {
    places: [Option<Place>; 4],
    ghost four: { length places ≡ 4 },
}

impl Few {
    /// No place.
    pub(crate) fn new() -> Few
        ensures { (place : Place) → count result.places place ≡ 0 }
    {
        Few { places: [None; 4] }
    }

    /// Whether this stands there: a place, or none.
    #[inline]
    fn stands(&self, at: usize, wanted: Option<Place>) -> bool
        requires { at < 4 }
        ensures there { result ≡ true → slice_index_or self.now.places at None ≡ wanted }
        ensures other { result ≡ false → slice_index_or self.now.places at None ≡ wanted → ⊥ }
    {
        self.places[at] == wanted
    }

    /// Puts this there.
    #[inline]
    fn set(&mut self, at: usize, place: Option<Place>)
        requires { at < 4 }
        ensures { self.new.places ≡ slice_set self.old.places at place }
    {
        self.places[at] = place;
    }

    /// Puts a place, or none, where another one stands, or none; whether that one was found.
    #[inline]
    pub(crate) fn replace(&mut self, before: Option<Place>, after: Option<Place>) -> bool
        ensures replaced { result ≡ true → (place : Place) → count self.new.places place + once (is_there before place) ≡ count self.old.places place + once (is_there after place) }
        ensures kept { result ≡ false → self.new ≡ self.old }
        ensures absent { result ≡ false → (place : Place) → is_there before place ≡ true → count self.old.places place ≡ 0 }
    {
        for at in 0..FEW {
            if self.stands(at, before) {
                self.set(at, after);
                return true;
            }
        }
        false
    }

    /// The first in order.
    #[inline]
    pub(crate) fn first(&self) -> Option<Place>
        ensures { IsFirst (count self.now.places) result }
    {
        let one = sooner(self.places[0], self.places[1]);
        sooner(one, sooner(self.places[2], self.places[3]))
    }

    /// The first in order of the links with a number above this one.
    pub(crate) fn first_after(&self, id: u64) -> Option<Place>
        ensures { IsFirst (λ place. if nat_lt id place.id then count self.now.places place else 0) result }
    {
        let one = sooner(behind(self.places[0], id), behind(self.places[1], id));
        sooner(
            one,
            sooner(behind(self.places[2], id), behind(self.places[3], id)),
        )
    }
}

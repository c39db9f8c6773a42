//! A few numbers in place.
ghost use Rattle.std.specs.Prelude.{◌≡◌, ◌==◌, ◌<◌, ◌≤◌, ◌+◌, ◌&&◌, ◌||◌, not, nat_lt, ℕ, true, false, Bool, length, slice_index_or, slice_set};
ghost use Rattle.state_collections.specs.Among.{is_among, IsLeast};

/// So many numbers stand in place.
const FEW: usize = 4;

/// Up to four numbers, at the first so many of four places, in no order. (Where the lowest is sought the loop is over all four places, which the
/// compiler writes out as four tests.)
#[derive(Clone, Copy)]
pub(crate) struct Few {
    places: [u64; 4],
    count: usize,
    ghost four: { length places ≡ 4 },
    ghost fits: { count ≤ 4 },
}

impl Few {
    /// No number.
    pub(crate) fn new() -> Few
        ensures { (n : ℕ) → is_among result.count result.places n ≡ false }
    {
        Few {
            places: [0; 4],
            count: 0,
        }
    }

    /// The number at a place.
    #[inline]
    fn at(&self, place: usize) -> u64
        requires { place < 4 }
        ensures { result ≡ slice_index_or self.now.places place 0 }
    {
        self.places[place]
    }

    /// Whether a number is one of them.
    #[inline]
    pub(crate) fn has(&self, number: u64) -> bool
        ensures { result ≡ is_among self.now.count self.now.places number }
    {
        for place in 0..self.count {
            if self.at(place) == number {
                return true;
            }
        }
        false
    }

    /// Puts a number after the others, if there is a place; whether there is one.
    #[inline]
    pub(crate) fn put(&mut self, number: u64) -> bool
        ensures put { result ≡ true → (n : ℕ) → is_among self.new.count self.new.places n ≡ (number == n || is_among self.old.count self.old.places n) }
        ensures full { result ≡ false → self.new ≡ self.old }
    {
        if self.count >= FEW {
            return false;
        }
        self.places[self.count] = number;
        self.count += 1;
        true
    }

    /// Takes a number away, wherever it stands.
    #[inline]
    pub(crate) fn remove(&mut self, number: u64)
        ensures gone { (n : ℕ) → is_among self.new.count self.new.places n ≡ (not (number == n) && is_among self.old.count self.old.places n) }
        ensures most { self.new.count ≤ self.old.count }
        ensures fewer { is_among self.old.count self.old.places number ≡ true → self.new.count < self.old.count }
    {
        let mut place = 0;
        while place < self.count {
            if self.at(place) == number {
                self.close(place);
            } else {
                place += 1;
            }
        }
    }

    /// Closes the gap at a place with the last number.
    #[inline]
    fn close(&mut self, place: usize)
        requires { place < self.old.count }
        ensures count { self.new.count + 1 ≡ self.old.count }
        ensures places { self.new.places ≡ slice_set self.old.places place (slice_index_or self.old.places self.new.count 0) }
    {
        self.count -= 1;
        self.places[place] = self.places[self.count];
    }

    /// The lowest.
    #[inline]
    pub(crate) fn lowest(&self) -> Option<u64>
        ensures { IsLeast (λ n. is_among self.now.count self.now.places n) result }
    {
        let mut least = None;
        for place in 0..FEW {
            if place == self.count {
                return least;
            }
            least = lower(least, Some(self.at(place)));
        }
        least
    }

    /// The lowest above a number.
    #[inline]
    pub(crate) fn lowest_above(&self, number: u64) -> Option<u64>
        ensures { IsLeast (λ n. nat_lt number n && is_among self.now.count self.now.places n) result }
    {
        let mut least = None;
        for place in 0..FEW {
            if place == self.count {
                return least;
            }
            least = lower(least, above(self.at(place), number));
        }
        least
    }
}

/// This number, if it is above another.
#[inline]
fn above(found: u64, number: u64) -> Option<u64>
    ensures { IsLeast (λ n. nat_lt number n && found == n) result }
{
    if number < found { Some(found) } else { None }
}

/// The lower of two numbers, where there are two.
#[inline]
pub(crate) fn lower(one: Option<u64>, other: Option<u64>) -> Option<u64>
    ensures { (p q : ℕ → Bool) → IsLeast p one → IsLeast q other → IsLeast (λ n. p n || q n) result }
{
    match (one, other) {
        (None, other) => other,
        (one, None) => one,
        (Some(one), Some(other)) => Some(one.min(other)),
    }
}

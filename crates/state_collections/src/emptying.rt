//! All values of a table by number, emptied where they stand.
ghost use Rattle.std.specs.Prelude.{◌≡◌, ℕ};
ghost use Rattle.std.specs.Option.{option_map};
ghost use Rattle.state_collections.specs.NumberMap.{at_number, in_places};
ghost use Rattle.state_collections.specs.Emptying.{with_rest};

use crate::number_map::{Entry, NumberMap, Places};

/// A value whose contents can be forgotten where it stands.
pub trait Empties: Drop {
    /// What is left of a value.
    ghost rest: { Self → Self };

    /// Forgets the contents.
    fn empty(&mut self)
        ensures { self.new ≡ rest self.old };
}

impl<V: Empties> NumberMap<V> {
    /// Forgets the contents of all values. It takes no memory, and looks at each place: for rare calls.
    pub fn empty_all(&mut self)
        ensures { (n : ℕ) → at_number self.new n ≡ option_map V.rest (at_number self.old n) }
    {
        self.placed.empty_all();
        self.others.retain(|_number, value| {
            value.empty();
            true
        });
    }
}

impl<V: Empties> Places<V> {
    /// Forgets the contents of all values that stand in their places.
    fn empty_all(&mut self)
        ensures { (n : ℕ) → in_places self.new n ≡ option_map V.rest (in_places self.old n) }
    {
        self.places.retain_mut(|place| {
            empty_place(place);
            true
        });
    }
}

/// Forgets the contents of the value of a place.
fn empty_place<V: Empties>(place: &mut Option<Entry<V>>)
    ensures { place.new ≡ option_map (with_rest V.rest) place.old }
{
    if let Some(entry) = place {
        entry.value.empty();
    }
}

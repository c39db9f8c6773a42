//! Sets of numbers.
ghost use Rattle.std.specs.Prelude.{◌≡◌, ◌==◌, ℕ, true, if◌then◌else◌, OnOk};
ghost use Rattle.std.specs.Ordering.{nat_cmp};
ghost use Rattle.std.specs.BTreeSet.{contains};
ghost use Rattle.state_collections.specs.NumberSet.{has as is_marked};
ghost use Rattle.state_deliveries.specs.Finding.{IsFirst};

use state_collections::NumberSet;
use std::alloc::AllocError;
use std::collections::BTreeSet;

/// Puts a number into a set.
pub(crate) fn add(numbers: &mut BTreeSet<u64>, number: u64) -> Result<(), AllocError>
    ensures { OnOk result ((n : ℕ) → contains nat_cmp numbers.new n ≡ (if number == n then true else contains nat_cmp numbers.old n)) }
{
    match numbers.insert(number) {
        Ok(_) => Ok(()),
        Err(_) => Err(AllocError),
    }
}

/// The lowest number of a set.
pub(crate) fn first(numbers: &NumberSet) -> Option<u64>
    ensures { IsFirst (is_marked numbers.now) result }
{
    numbers.first()
}

//! How many deliveries each link has.
ghost use Rattle.std.specs.Prelude.{◌≡◌, ◌==◌, ◌+◌, ◌-◌, ℕ, Option, None, false, if◌then◌else◌, OnOk};
ghost use Rattle.state_collections.specs.NumberMap.{at_number};
ghost use Rattle.router_trace.specs.Deliveries.{is_number};
ghost use Rattle.state_deliveries.specs.Tallying.{tally, is_zero, IsTallied};

use state_collections::NumberMap;
use std::alloc::{AllocError, Global};

/// The counts of so many links with neighbouring numbers are found without an ordered map.
const PLACES: usize = 1024;

/// How many deliveries each link has; a link without any has no entry.
#[derive(Drop)]
pub(crate) struct Tallies {
    counts: NumberMap<usize>,
}

impl Tallies {
    /// No link has any.
    #[tactic(auto, using(crate::proofs::Tallied::none_tallied))]
    pub(crate) fn new(alloc: Global) -> Tallies
        ensures { IsTallied result (λ n. None) }
    {
        Tallies {
            counts: NumberMap::new(alloc, PLACES),
        }
    }

    /// How many a link has.
    pub(crate) fn count(&self, link: u64) -> usize
        ensures { result ≡ tally self.now link }
    {
        self.counts.get(link).copied().unwrap_or(0)
    }

    /// A delivery moves from one link to another. Fails if memory is refused, and if the count overflows.
    pub(crate) fn shift(
        &mut self,
        before: Option<u64>,
        after: Option<u64>,
    ) -> Result<(), AllocError>
        ensures { OnOk result ((number : ℕ) (known : ℕ → Option ℕ) → known number ≡ before → IsTallied self.old known
            → IsTallied self.new (λ n. if number == n then after else known n)) }
    {
        if before == after {
            return Ok(());
        }
        self.drop_from(before);
        self.add_to(after)?;
        Ok(())
    }

    /// A link has one less, if there is one.
    fn drop_from(&mut self, link: Option<u64>)
        ensures counts { (k : ℕ) → tally self.new k ≡ (if is_number link k then tally self.old k - 1 else tally self.old k) }
        ensures needed { (k : ℕ) → is_zero (at_number self.old.counts k) ≡ false → is_zero (at_number self.new.counts k) ≡ false }
    {
        let Some(link) = link else {
            return;
        };
        let Some(count) = self.counts.get_mut(link) else {
            return;
        };
        if *count > 1 {
            *count -= 1;
            return;
        }
        let _ = self.counts.remove(link);
    }

    /// A link has one more, if there is one.
    fn add_to(&mut self, link: Option<u64>) -> Result<(), AllocError>
        ensures counts { OnOk result ((k : ℕ) → tally self.new k ≡ (if is_number link k then tally self.old k + 1 else tally self.old k)) }
        ensures needed { OnOk result ((k : ℕ) → is_zero (at_number self.old.counts k) ≡ false → is_zero (at_number self.new.counts k) ≡ false) }
    {
        let Some(link) = link else {
            return Ok(());
        };
        if let Some(count) = self.counts.get_mut(link) {
            return add_one(count);
        }
        self.counts.insert(link, 1)?;
        Ok(())
    }
}

/// Counts one more.
fn add_one(count: &mut usize) -> Result<(), AllocError>
    ensures { OnOk result (count.new ≡ count.old + 1) }
{
    let Some(more) = count.checked_add(1) else {
        return Err(AllocError);
    };
    *count = more;
    Ok(())
}

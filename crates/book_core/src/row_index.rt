//! The index by which the rows of a book are found and counted.
ghost use Rattle.std.specs.Prelude.{◌≡◌, ◌+◌, ◌-◌, ◌∷◌, ◌++◌, [], None, Some, OnOk, false, count_by, ℕ, List};
ghost use Rattle.std.specs.BTreeMap.{get};
ghost use Rattle.std.specs.List.{list_any};
ghost use Rattle.std.specs.Ordering.{nat_cmp};
ghost use Rattle.amqp_model.specs.declared.state.DeliveryState.{DeliveryState};
ghost use Rattle.book_model.specs.Book.{admitted, decided, forgotten, has_tag, is_from, keeps, row_at, undecided_for, with_row};
ghost use Rattle.book_core.specs.Indexed.{IsIndexed, SameIndexBefore, IsIndexSettled, IsIndexBack, one_for, left_by};
ghost use Rattle.book_core.specs.Numbers.{number_at, earlier};
ghost use Rattle.book_core.specs.Rising.{Rises};
ghost use Rattle.book_model.specs.declared.row.Row.{Row};

use crate::numbers::Numbers;
use crate::row_name::{RowName, set_name};
use book_model::{Admission, LinkRole, Row, TerminusNumber};
use std::alloc::{AllocError, Global};

/// The numbers of rows by name, and how many rows each terminus has.
#[derive(Drop)]
pub(crate) struct RowIndex {
    /// The number of the unforgotten row with a name.
    pub(crate) names: Numbers<RowName>,
    /// How many rows came on the link of a terminus.
    pub(crate) from: Numbers<u64>,
    /// How many of them aren't forgotten.
    pub(crate) unforgotten: Numbers<u64>,
    /// How many undecided rows are bound to the link of a terminus.
    pub(crate) waiting: Numbers<u64>,
}

impl RowIndex {
    pub(crate) fn new(alloc: Global) -> RowIndex
        ensures indexed { IsIndexed result [] }
        ensures settled { IsIndexSettled result }
    {
        RowIndex {
            names: Numbers::new(alloc),
            from: Numbers::new(alloc),
            unforgotten: Numbers::new(alloc),
            waiting: Numbers::new(alloc),
        }
    }

    /// How many rows came on the link of a terminus.
    pub(crate) fn count_from(&self, terminus: TerminusNumber) -> u64
        ensures { (rs : List Row) → IsIndexed self.now rs → result ≡ count_by (is_from terminus.0) rs }
    {
        self.from.at(&terminus.0)
    }

    /// How many undecided rows are bound to the link of a terminus; 0 if none is given.
    pub(crate) fn count_waiting(&self, terminus: Option<TerminusNumber>) -> u64
        ensures { (rs : List Row) → IsIndexed self.now rs → result ≡ undecided_for terminus rs }
    {
        match terminus {
            None => 0,
            Some(terminus) => self.waiting.at(&terminus.0),
        }
    }

    /// Whether a row keeps a terminus of this role.
    #[tactic(auto, using(crate::proofs::Counted::any_counted))]
    pub(crate) fn keeps(&self, role: LinkRole, terminus: TerminusNumber) -> bool
        ensures { (rs : List Row) → IsIndexed self.now rs → result ≡ list_any (keeps role terminus.0) rs }
    {
        match role {
            LinkRole::Producer => self.unforgotten.at(&terminus.0) > 0,
            LinkRole::Consumer => self.waiting.at(&terminus.0) > 0,
        }
    }

    /// Admits a row, whose name no row has.
    pub(crate) fn admit(&mut self, admission: &Admission) -> Result<(), AllocError>
        ensures indexed { (rs : List Row) → IsIndexed self.old rs → list_any (has_tag admission.now.producer.0 admission.now.tag.items) rs ≡ false → OnOk result (IsIndexed self.new (rs ++ admitted admission.now ∷ [])) }
        ensures before { SameIndexBefore self.old self.new }
    {
        set_name(
            &mut self.names,
            admission.producer,
            &admission.tag,
            admission.row.0,
        )?;
        add_one(&mut self.from, Some(admission.producer))?;
        add_one(&mut self.unforgotten, Some(admission.producer))?;
        add_one(&mut self.waiting, admission.consumer)?;
        Ok(())
    }

    /// Decides a row that wasn't decided.
    pub(crate) fn decide(&mut self, row: &Row) -> Result<(), AllocError>
        ensures indexed { (rs : List Row) (n : ℕ) (outcome : DeliveryState) → Rises (λ (r : Row). r.number.0) rs → IsIndexed self.old rs → row_at n rs ≡ Some row.now → row.now.outcome ≡ None → OnOk result (IsIndexed self.new (with_row n (decided outcome) rs)) }
        ensures before { SameIndexBefore self.old self.new }
    {
        take_one(&mut self.from, left_by(row.forgotten, row))?;
        take_one(&mut self.waiting, row.consumer)?;
        Ok(())
    }

    /// Forgets a row that wasn't forgotten.
    pub(crate) fn forget(&mut self, row: &Row) -> Result<(), AllocError>
        ensures indexed { (rs : List Row) (n : ℕ) → Rises (λ (r : Row). r.number.0) rs → IsIndexed self.old rs → row_at n rs ≡ Some row.now → row.now.forgotten ≡ false → OnOk result (IsIndexed self.new (with_row n forgotten rs)) }
        ensures before { SameIndexBefore self.old self.new }
    {
        take_one(&mut self.from, left_by(row.outcome.is_some(), row))?;
        take_one(&mut self.unforgotten, Some(row.producer))?;
        set_name(&mut self.names, row.producer, &row.tag, 0)?;
        Ok(())
    }

    /// Undoes each change since the last commit.
    pub(crate) fn rollback(&mut self)
        ensures back { IsIndexBack self.old self.new }
        ensures settled { IsIndexSettled self.new }
    {
        self.names.rollback();
        self.from.rollback();
        self.unforgotten.rollback();
        self.waiting.rollback();
    }

    /// Makes each change since the last commit permanent.
    pub(crate) fn commit(&mut self)
        ensures indexed { (rs : List Row) → IsIndexed self.old rs → IsIndexed self.new rs }
        ensures settled { IsIndexSettled self.new }
    {
        self.names.commit();
        self.from.commit();
        self.unforgotten.commit();
        self.waiting.commit();
    }
}

/// The terminus that has one row less, if the row leaves.
fn left_by(leaves: bool, row: &Row) -> Option<TerminusNumber>
    ensures { result ≡ left_by leaves row.now }
{
    if leaves { Some(row.producer) } else { None }
}

/// Counts one more for a terminus, if one is given.
#[tactic(auto, using(crate::proofs::Counted::one_more))]
fn add_one(counts: &mut Numbers<u64>, terminus: Option<TerminusNumber>) -> Result<(), AllocError>
    ensures counts { OnOk result ((n : ℕ) → number_at nat_cmp counts.new n ≡ number_at nat_cmp counts.old n + one_for terminus n) }
    ensures was { earlier nat_cmp counts.new.log.items (get nat_cmp counts.new.numbers) ≡ earlier nat_cmp counts.old.log.items (get nat_cmp counts.old.numbers) }
{
    match terminus {
        None => Ok(()),
        Some(TerminusNumber(number)) => {
            let Some(more) = counts.at(&number).checked_add(1) else {
                return Err(AllocError);
            };
            counts.set(number, number, more)
        }
    }
}

/// Counts one less for a terminus, if one is given.
#[tactic(auto, using(crate::proofs::Counted::one_less))]
fn take_one(counts: &mut Numbers<u64>, terminus: Option<TerminusNumber>) -> Result<(), AllocError>
    ensures counts { OnOk result ((n : ℕ) → number_at nat_cmp counts.new n ≡ number_at nat_cmp counts.old n - one_for terminus n) }
    ensures was { earlier nat_cmp counts.new.log.items (get nat_cmp counts.new.numbers) ≡ earlier nat_cmp counts.old.log.items (get nat_cmp counts.old.numbers) }
{
    match terminus {
        None => Ok(()),
        Some(TerminusNumber(number)) => {
            let less = counts.at(&number).saturating_sub(1);
            counts.set(number, number, less)
        }
    }
}

//! What an event decides and forgets, found by the numbers of rows.
ghost use Rattle.std.specs.Prelude.{◌≡◌, ◌++◌, ◌==◌, ◌||◌, ℕ, Some, OnOk, IfOk, if◌then◌else◌, List};
ghost use Rattle.std.specs.BTreeMap.{get};
ghost use Rattle.std.specs.BTreeSet.{contains};
ghost use Rattle.std.specs.Ordering.{nat_cmp};
ghost use Rattle.book_model.specs.declared.act.Decision.{Decision as ADecision};
ghost use Rattle.book_model.specs.declared.row.RowNumber.{RowNumber as ARowNumber};
ghost use Rattle.book_model.specs.Book.{row_at, is_for};
ghost use Rattle.journal_store.specs.Acting.{journal_outcome, outcome_for, is_among, decides, forgets, settles};
ghost use Rattle.journal_store.specs.Settling.{Names, found_decision, found_forgotten, keeps_after, lets_go_after};

use crate::acting::add;
use crate::lost::failed;
use amqp_model::DeliveryState;
use book_core::Book;
use book_model::{Act, Decision, LinkRole, Row, RowNumber, TerminusNumber};
use gate_journal::kept_outcome;
use std::alloc::{AllocError, Global};
use std::collections::{BTreeMap, BTreeSet};

/// The outcomes that an event decides, by the numbers of rows, and the numbers of the rows that it forgets.
#[derive(Drop)]
pub(crate) struct Settling {
    outcomes: BTreeMap<u64, DeliveryState>,
    forgotten: BTreeSet<u64>,
}

/// Sets the outcome for a row.
fn set_outcome(
    outcomes: &mut BTreeMap<u64, DeliveryState>,
    decision: Decision,
) -> Result<(), AllocError>
    ensures { OnOk result ((n : ℕ) → get nat_cmp outcomes.new n ≡ (if decision.row.0 == n then Some decision.outcome else get nat_cmp outcomes.old n)) }
{
    let Decision { row, outcome } = decision;
    match outcomes.insert(row.0, outcome) {
        Ok(before) => {
            drop(before);
            Ok(())
        }
        Err(left) => {
            drop(left);
            Err(AllocError)
        }
    }
}

/// The outcome for each row that decisions name: the first of them counts.
#[tactic(auto, using(crate::proofs::Gathered::one_outcome))]
fn outcomes_of(
    alloc: Global,
    decided: Vec<Decision>,
) -> Result<BTreeMap<u64, DeliveryState>, AllocError>
    ensures { IfOk result (λ outcomes. (n : ℕ) → get nat_cmp outcomes n ≡ outcome_for n decided.items) }
{
    let mut decided = decided;
    let mut outcomes = BTreeMap::new(alloc);
    while let Some(decision) = decided.pop() {
        set_outcome(&mut outcomes, decision)?;
    }
    Ok(outcomes)
}

/// Adds a number.
fn add_number(numbers: &mut BTreeSet<u64>, number: u64) -> Result<(), AllocError>
    ensures { OnOk result ((n : ℕ) → contains nat_cmp numbers.new n ≡ (number == n || contains nat_cmp numbers.old n)) }
{
    match numbers.insert(number) {
        Ok(_) => Ok(()),
        Err(_) => Err(AllocError),
    }
}

/// The set of these numbers.
#[tactic(auto, using(crate::proofs::Gathered::one_number))]
fn numbers_of(alloc: Global, rows: Vec<RowNumber>) -> Result<BTreeSet<u64>, AllocError>
    ensures { IfOk result (λ numbers. (n : ℕ) → contains nat_cmp numbers n ≡ is_among n rows.items) }
{
    let mut rows = rows;
    let mut numbers = BTreeSet::new(alloc);
    while let Some(row) = rows.pop() {
        add_number(&mut numbers, row.0)?;
    }
    Ok(numbers)
}

/// The outcome that is written.
fn journal_outcome(alloc: Global, outcome: &DeliveryState) -> Result<DeliveryState, AllocError>
    ensures { IfOk result (λ written. written ≡ journal_outcome outcome.now) }
{
    match kept_outcome(alloc, outcome)? {
        Some(kept) => Ok(kept),
        None => Ok(failed()),
    }
}

/// Appends the decision of the row with a number, if it is there and undecided.
fn add_decision(
    alloc: Global,
    acts: &mut Vec<Act>,
    book: &Book,
    number: u64,
    outcome: &DeliveryState,
) -> Result<(), AllocError>
    ensures { OnOk result (acts.new.items ≡ acts.old.items ++ found_decision outcome.now (row_at number book.now.rows)) }
{
    let Some(row) = book.row(RowNumber(number)) else {
        return Ok(());
    };
    if row.outcome.is_some() {
        return Ok(());
    }
    let outcome = journal_outcome(alloc, outcome)?;
    add(
        acts,
        Act::Decide(Decision {
            row: row.number,
            outcome,
        }),
    )
}

/// Appends that the row with a number is forgotten, if it is there and isn't forgotten.
fn add_forgotten(acts: &mut Vec<Act>, book: &Book, number: u64) -> Result<(), AllocError>
    ensures { OnOk result (acts.new.items ≡ acts.old.items ++ found_forgotten (row_at number book.now.rows)) }
{
    let Some(row) = book.row(RowNumber(number)) else {
        return Ok(());
    };
    if row.forgotten {
        return Ok(());
    }
    add(acts, Act::Forget(row.number))
}

/// Whether a row is bound to the link of a terminus.
fn is_bound_to(row: &Row, terminus: TerminusNumber) -> bool
    ensures { result ≡ is_for terminus.0 row.now }
{
    match row.consumer {
        None => false,
        Some(consumer) => consumer.0 == terminus.0,
    }
}

impl Settling {
    /// What an event decides and forgets.
    pub(crate) fn new(
        alloc: Global,
        decided: Vec<Decision>,
        forgotten: Vec<RowNumber>,
    ) -> Result<Settling, AllocError>
        ensures { IfOk result (λ s. Names s decided.items forgotten.items) }
    {
        Ok(Settling {
            outcomes: outcomes_of(alloc, decided)?,
            forgotten: numbers_of(alloc, forgotten)?,
        })
    }

    /// The acts that decide and forget rows of a book.
    pub(crate) fn acts(&self, alloc: Global, book: &Book) -> Result<Vec<Act>, AllocError>
        ensures { (ds : List ADecision) (numbers : List ARowNumber) → Names self.now ds numbers
            → IfOk result (λ acts. acts.items ≡ settles book.now ds numbers) }
    {
        let mut acts = Vec::new(alloc);
        self.add_decisions(alloc, &mut acts, book)?;
        self.add_forgotten(&mut acts, book)?;
        Ok(acts)
    }

    /// Appends the decisions of rows.
    fn add_decisions(
        &self,
        alloc: Global,
        acts: &mut Vec<Act>,
        book: &Book,
    ) -> Result<(), AllocError>
        ensures { (ds : List ADecision) (numbers : List ARowNumber) → Names self.now ds numbers
            → OnOk result (acts.new.items ≡ acts.old.items ++ decides book.now ds) }
    {
        book.rows_rise();
        for (number, outcome) in &self.outcomes {
            add_decision(alloc, acts, book, *number, outcome)?;
        }
        Ok(())
    }

    /// Appends what is forgotten of rows.
    fn add_forgotten(&self, acts: &mut Vec<Act>, book: &Book) -> Result<(), AllocError>
        ensures { (ds : List ADecision) (numbers : List ARowNumber) → Names self.now ds numbers
            → OnOk result (acts.new.items ≡ acts.old.items ++ forgets book.now numbers) }
    {
        book.rows_rise();
        for number in &self.forgotten {
            add_forgotten(acts, book, *number)?;
        }
        Ok(())
    }

    /// Whether a row keeps its terminus, of this role and number, after these acts.
    fn is_kept_by(&self, row: &Row, role: LinkRole, terminus: TerminusNumber) -> bool
        ensures { (ds : List ADecision) (numbers : List ARowNumber) → Names self.now ds numbers
            → result ≡ keeps_after ds numbers role terminus.0 row.now }
    {
        match role {
            LinkRole::Producer => {
                row.producer.0 == terminus.0
                    && !row.forgotten
                    && !self.forgotten.contains(&row.number.0)
            }
            LinkRole::Consumer => {
                is_bound_to(row, terminus)
                    && row.outcome.is_none()
                    && !self.outcomes.contains_key(&row.number.0)
            }
        }
    }

    /// Whether a book lets go of a terminus after these acts.
    pub(crate) fn lets_go(&self, book: &Book, number: TerminusNumber) -> bool
        ensures { (ds : List ADecision) (numbers : List ARowNumber) → Names self.now ds numbers
            → result ≡ lets_go_after book.now ds numbers number }
    {
        let Some(terminus) = book.terminus(number) else {
            return false;
        };
        for row in book.rows_of(terminus.number) {
            if self.is_kept_by(row, terminus.key.role, terminus.number) {
                return false;
            }
        }
        true
    }
}

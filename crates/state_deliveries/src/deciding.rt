//! Which rows changes would decide, before they are made.
ghost use Rattle.std.specs.Prelude.{◌≡◌, ◌++◌, List, Some, IfOk, OnOk};
ghost use Rattle.std.specs.List.{flat_map};
ghost use Rattle.std.specs.List.Sorted.{IsStrictlySortedBy};
ghost use Rattle.std.specs.Option.{option_map};
ghost use Rattle.std.specs.Ordering.{nat_cmp};
ghost use Rattle.state_collections.specs.NumberMap.{at_number};
ghost use Rattle.router_trace.specs.Trace.{Entry};
ghost use Rattle.state_deliveries.specs.Deciding.{bare, changed_by, row_of, open_row, outcome_of_row, decision_of, decided_rows};
ghost use Rattle.state_deliveries.specs.Fits.{StoreFit};

use crate::change::Change;
use crate::delivery::Delivery;
use crate::store::Store;
use amqp_model::DeliveryState;
use book_model::{Decision, RowNumber};
use router_trace::DeliveryName;
use std::alloc::{AllocError, Global};
use std::collections::BTreeSet;

/// The rows that these changes would decide, one after another, each with its outcome, in order of the deliveries' numbers. It looks
/// only at the deliveries that the indexes give for the changes, and copies no message.
pub(crate) fn decided_rows(
    store: &Store,
    alloc: Global,
    changes: &[Change],
) -> Result<Vec<Decision>, AllocError>
    ensures { IfOk result (λ rows. (t : List Entry) → StoreFit store.now t → rows.items ≡ decided_rows t changes.now) }
{
    let numbers = store.deciding_by(changes)?;
    let mut rows = Vec::new(alloc);
    append_decisions(&mut rows, store, &numbers, changes)?;
    Ok(rows)
}

/// Appends what changes decide of the deliveries with these numbers.
fn append_decisions(
    rows: &mut Vec<Decision>,
    store: &Store,
    numbers: &BTreeSet<u64>,
    changes: &[Change],
) -> Result<(), AllocError>
    ensures rows { OnOk result (rows.new.items ≡ rows.old.items ++ flat_map (λ n. decision_of changes.now (at_number store.now.deliveries n)) numbers.now.keys) }
    ensures rise { OnOk result (IsStrictlySortedBy nat_cmp numbers.now.keys) }
{
    for number in numbers {
        append_decision(rows, store.get(*number), changes)?;
    }
    Ok(())
}

/// Appends what changes decide of a delivery, if there is one.
fn append_decision(
    rows: &mut Vec<Decision>,
    delivery: Option<&Delivery>,
    changes: &[Change],
) -> Result<(), AllocError>
    ensures { OnOk result (rows.new.items ≡ rows.old.items ++ decision_of changes.now (option_map (λ d. d.now) delivery.entry)) }
{
    match delivery {
        None => Ok(()),
        Some(delivery) => append_decision_of(rows, delivery, changes),
    }
}

/// Appends what changes decide of a delivery.
fn append_decision_of(
    rows: &mut Vec<Decision>,
    delivery: &Delivery,
    changes: &[Change],
) -> Result<(), AllocError>
    ensures { OnOk result (rows.new.items ≡ rows.old.items ++ decision_of changes.now (Some delivery.now)) }
{
    match open_row(delivery) {
        None => Ok(()),
        Some(row) => append_outcome(rows, row, outcome_after(delivery, changes)?),
    }
}

/// Appends the decision of a row, if there is an outcome.
fn append_outcome(
    rows: &mut Vec<Decision>,
    row: RowNumber,
    outcome: Option<DeliveryState>,
) -> Result<(), AllocError>
    ensures { OnOk result (rows.new.items ≡ rows.old.items ++ outcome_of_row row outcome) }
{
    let Some(outcome) = outcome else {
        return Ok(());
    };
    match rows.push(Decision { row, outcome }) {
        Ok(_) => Ok(()),
        Err(left) => {
            drop(left);
            Err(AllocError)
        }
    }
}

/// The outcome that an undecided delivery has after changes, if any.
fn outcome_after(
    delivery: &Delivery,
    changes: &[Change],
) -> Result<Option<DeliveryState>, AllocError>
    ensures { IfOk result (λ made. made ≡ (changed_by changes.now (bare delivery.now)).outcome) }
{
    let mut later = delivery.bare();
    later.change_by(changes)?;
    Ok(later.outcome)
}

/// The row of a delivery that is undecided and has one.
fn open_row(delivery: &Delivery) -> Option<RowNumber>
    ensures { result ≡ open_row delivery.now }
{
    if delivery.is_undecided() {
        row_of(delivery.name)
    } else {
        None
    }
}

/// The row of a durable delivery.
fn row_of(name: DeliveryName) -> Option<RowNumber>
    ensures { result ≡ row_of name }
{
    match name {
        DeliveryName::Row(row) => Some(row),
        DeliveryName::Counter(_) => None,
    }
}

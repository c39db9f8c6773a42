//! The rows whose consumers a stop took.
ghost use Rattle.std.specs.Prelude.{◌≡◌, Bool, IfOk};
ghost use Rattle.journal_store.specs.Lost.{failed, is_lost, failure_of, start_acts};
ghost use Rattle.book_model.specs.declared.act.Act.{Act as AnAct};

use amqp_model::{DeliveryState, Modified};
use book_core::Book;
use book_model::{Act, Decision, Row, RowNumber};
use std::alloc::{AllocError, Global};

/// Whether nothing is decided of a row whose consumer's link was not durable.
fn is_lost(row: &Row) -> bool
    ensures { result ≡ is_lost row.now }
{
    row.outcome.is_none() && row.consumer.is_none()
}

/// The outcome of a delivery whose consumer had it and is gone.
pub(crate) fn failed() -> DeliveryState
    ensures { result ≡ failed }
{
    DeliveryState::Modified(Modified {
        delivery_failed: true,
        undeliverable_here: false,
        message_annotations: None,
    })
}

/// The decision that a row's delivery failed at its consumer.
fn failure(number: RowNumber) -> Act
    ensures { result ≡ AnAct.Decide (record { row = number; outcome = failed }) }
{
    Act::Decide(Decision {
        row: number,
        outcome: failed(),
    })
}

/// The acts of a router that starts on a journal: each undecided row that was bound to a link which doesn't outlive its
/// connection is decided as modified with delivery-failed, by number (AMQP 1.0 part 3, section 3.4.5).
pub fn start_acts(alloc: Global, book: &Book) -> Result<Vec<Act>, AllocError>
    ensures { IfOk result (λ acts. acts.items ≡ start_acts book.now) }
{
    let mut acts = Vec::new(alloc);
    for row in book.rows() {
        if is_lost(row) {
            if let Err(left) = acts.push(failure(row.number)) {
                drop(left);
                return Err(AllocError);
            }
        }
    }
    Ok(acts)
}

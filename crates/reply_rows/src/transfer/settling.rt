//! What a transfer does to the book: one that makes a resumed delivery whole, and is settled, forgets its row.
ghost use Rattle.std.specs.Prelude.{◌≡◌, ℕ, List, None, option_map, IfOk};
ghost use Rattle.std.specs.Option.{option_copied};
ghost use Rattle.router_trace.specs.Trace.{Entry};
ghost use Rattle.router_trace.specs.Links.{link_place};
ghost use Rattle.router_state.specs.Finding.{IsFoundLink};
ghost use Rattle.reply_rows.specs.Booking.{IsAt, TakesOnLink};
ghost use Rattle.reply_rows.specs.Joining.{settled_again, settled_whole, row_alone, settled_on_link};
ghost use Rattle.reply_rows.specs.Joining.{settled_by_transfer};
ghost use Rattle.reply_rows.specs.Doing.{TakesNothing};

use crate::answer::Answer;
use crate::changes::add;
use crate::doings::Doings;
use amqp_link::Delivery;
use amqp_model::{DeliveryTag, Transfer};
use book_core::Book;
use book_model::{Row, RowNumber};
use reply_transfers::row_joined;
use state_links::FoundLink;
use std::alloc::{AllocError, Global};

/// The tag of the delivery to which a transfer belongs, if that is resumed and settled; `earlier` is what its earlier
/// frames say, if there are some.
fn settled_again<'a>(
    transfer: &'a Transfer,
    earlier: Option<&'a Delivery>,
) -> Option<&'a DeliveryTag>
    ensures { option_map (λ g. g.now.items) result
        ≡ settled_again transfer.now (option_map (λ d. d.now) earlier.entry) }
{
    match earlier {
        None => {
            if transfer.resume && transfer.settled {
                return transfer.delivery_tag.as_ref();
            }
            None
        }
        Some(earlier) => {
            if earlier.resume && (transfer.settled || earlier.settled) {
                return earlier.tag.as_ref();
            }
            None
        }
    }
}

/// The same, if the transfer makes it whole.
fn settled_whole<'a>(
    transfer: &'a Transfer,
    earlier: Option<&'a Delivery>,
) -> Option<&'a DeliveryTag>
    ensures { option_map (λ g. g.now.items) result
        ≡ settled_whole transfer.now (option_map (λ d. d.now) earlier.entry) }
{
    if transfer.more || transfer.aborted {
        return None;
    }
    settled_again(transfer, earlier)
}

/// A row alone, if there is one.
fn row_alone(alloc: Global, row: Option<&Row>) -> Result<Vec<RowNumber>, AllocError>
    ensures { IfOk result (λ rows. rows.items ≡ row_alone (option_copied row.entry)) }
{
    let mut rows = Vec::new(alloc);
    match row {
        None => Ok(rows),
        Some(row) => {
            add(&mut rows, row.number)?;
            Ok(rows)
        }
    }
}

/// The row that a transfer on this link settles: that which its delivery joins, if it makes a settled one whole.
fn settled_on_link(
    alloc: Global,
    book: &Book,
    link: &FoundLink<'_>,
    transfer: &Transfer,
) -> Result<Vec<RowNumber>, AllocError>
    ensures { IfOk result (λ rows. (t : List Entry) (conn own handle : ℕ)
        → IsFoundLink (link_place t conn own transfer.now.handle) link.now
        → IsAt (link_place t conn own transfer.now.handle) handle
        → rows.items ≡ settled_on_link book.now t conn own handle transfer.now) }
{
    let tag = settled_whole(transfer, link.middle);
    let row = row_joined(book, link.key, tag);
    row_alone(alloc, row)
}

/// The same of a transfer with this answer, which finds this link: one that isn't taken settles none.
fn settled_by_transfer(
    alloc: Global,
    book: &Book,
    link: &FoundLink<'_>,
    transfer: &Transfer,
    answer: &Answer,
) -> Result<Vec<RowNumber>, AllocError>
    ensures { IfOk result (λ rows. (t : List Entry) (conn : ℕ)
        → TakesOnLink t conn transfer.now link.now answer.now
        → rows.items ≡ settled_by_transfer book.now t conn transfer.now answer.now) }
{
    match answer {
        Answer::Taken { .. } => settled_on_link(alloc, book, link, transfer),
        _ => Ok(Vec::new(alloc)),
    }
}

/// What a transfer with this answer does, which finds this link on its handle.
///
/// # Errors
///
/// `AllocError` if memory was refused.
pub(crate) fn does(
    alloc: Global,
    book: &Book,
    link: &FoundLink<'_>,
    transfer: &Transfer,
    answer: &Answer,
) -> Result<Doings, AllocError>
    ensures forgotten { IfOk result (λ does. (t : List Entry) (conn : ℕ)
        → TakesOnLink t conn transfer.now link.now answer.now
        → does.forgotten.items ≡ settled_by_transfer book.now t conn transfer.now answer.now) }
    ensures stolen { IfOk result (λ does. does.stolen ≡ None) }
    ensures terminus { IfOk result (λ does. does.terminus ≡ None) }
    ensures resumption { IfOk result (λ does. TakesNothing does) }
{
    let rows = settled_by_transfer(alloc, book, link, transfer, answer)?;
    Ok(Doings::forgetting(alloc, rows))
}

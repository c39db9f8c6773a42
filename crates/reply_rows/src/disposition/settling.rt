//! What a disposition does to the book: that of a producer, which settles its deliveries, forgets their rows.
ghost use Rattle.std.specs.Prelude.{◌≡◌, List, None, filter_map, IfOk};
ghost use Rattle.router_trace.specs.Trace.{Entry};
ghost use Rattle.router_state.specs.Tables.{TablesFind};
ghost use Rattle.reply_rows.specs.Deciding.{settled_on};
ghost use Rattle.reply_rows.specs.Joining.{rows_claimed};
ghost use Rattle.reply_rows.specs.Doing.{TakesNothing};

use crate::changes::add;
use crate::doings::Doings;
use amqp_model::{Disposition, Role};
use book_core::Book;
use book_model::RowNumber;
use reply_transfers::row_under;
use router_state::State;
use std::alloc::AllocError;

/// The rows of the deliveries with an id in a range, on a session, that its peer hasn't settled, in order of the ids.
fn rows_claimed(
    state: &State,
    book: &Book,
    conn: u64,
    own: u16,
    first: u32,
    last: u32,
) -> Result<Vec<RowNumber>, AllocError>
    ensures { IfOk result (λ rows. (t : List Entry) → TablesFind state.now t
        → rows.items ≡ rows_claimed book.now t conn own first last) }
{
    let mut rows = Vec::new(state.alloc());
    let ids = state.ids_claimed(conn, own, first, last)?;
    for id in &ids {
        if let Some(row) = row_under(state, book, conn, own, *id) {
            add(&mut rows, row.number)?;
        }
    }
    Ok(rows)
}

/// The rows that a disposition forgets: those that their producer settles.
fn settled_on(
    state: &State,
    book: &Book,
    conn: u64,
    own: Option<u16>,
    disposition: &Disposition,
) -> Result<Vec<RowNumber>, AllocError>
    ensures { IfOk result (λ rows. (t : List Entry) → TablesFind state.now t
        → rows.items ≡ settled_on book.now t conn own disposition.now.role disposition.now) }
{
    match (own, disposition.role) {
        (Some(own), Role::Sender) if disposition.settled => rows_claimed(
            state,
            book,
            conn,
            own,
            disposition.first,
            disposition.last.unwrap_or(disposition.first),
        ),
        _ => Ok(Vec::new(state.alloc())),
    }
}

/// What a disposition on this session does; nothing if there is none.
///
/// # Errors
///
/// `AllocError` if memory was refused.
pub(crate) fn does(
    state: &State,
    book: &Book,
    conn: u64,
    own: Option<u16>,
    disposition: &Disposition,
) -> Result<Doings, AllocError>
    ensures forgotten { IfOk result (λ does. (t : List Entry) → TablesFind state.now t
        → does.forgotten.items ≡ settled_on book.now t conn own disposition.now.role disposition.now) }
    ensures stolen { IfOk result (λ does. does.stolen ≡ None) }
    ensures terminus { IfOk result (λ does. does.terminus ≡ None) }
    ensures resumption { IfOk result (λ does. TakesNothing does) }
{
    let rows = settled_on(state, book, conn, own, disposition)?;
    Ok(Doings::forgetting(state.alloc(), rows))
}

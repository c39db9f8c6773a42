//! What a detach does to the book: one that closes a durable link for good drops its terminus, and forgets the rows
//! that came on it.
ghost use Rattle.std.specs.Prelude.{◌≡◌, List, None, map, filter, option_map, IfOk};
ghost use Rattle.book_model.specs.Book.{is_from};
ghost use Rattle.journal_store.specs.declared.acting.TerminusAct.TheVariants as act;
ghost use Rattle.router_trace.specs.Trace.{Entry};
ghost use Rattle.router_state.specs.Tables.{TablesFind};
ghost use Rattle.reply_rows.specs.Deciding.{closed_terminus, sent_by, sent_from};
ghost use Rattle.reply_rows.specs.Doing.{TakesNothing};

use crate::answer::Answer;
use crate::changes::add;
use crate::doings::Doings;
use book_core::Book;
use book_model::{LinkRole, RowNumber, Terminus, TerminusNumber};
use journal_store::TerminusAct;
use router_state::{LinkPlace, State};
use router_trace::ConnectionId;
use std::alloc::{AllocError, Global};

/// The rows that came on the link of a terminus.
fn sent_by(alloc: Global, book: &Book, number: TerminusNumber) -> Result<Vec<RowNumber>, AllocError>
    ensures { IfOk result (λ rows. rows.items ≡ map (λ r. r.number) (filter (is_from number.0) book.now.rows)) }
{
    let mut numbers = Vec::new(alloc);
    for row in book.rows() {
        if row.producer == number {
            add(&mut numbers, row.number)?;
        }
    }
    Ok(numbers)
}

/// The rows that came on the link of a terminus; none if it is a consumer's.
fn sent_from(
    alloc: Global,
    book: &Book,
    terminus: Option<&Terminus>,
) -> Result<Vec<RowNumber>, AllocError>
    ensures { IfOk result (λ rows. rows.items ≡ sent_from book.now (option_map (λ x. x.now) terminus.entry)) }
{
    match terminus {
        None => Ok(Vec::new(alloc)),
        Some(terminus) => match terminus.key.role {
            LinkRole::Producer => sent_by(alloc, book, terminus.number),
            LinkRole::Consumer => Ok(Vec::new(alloc)),
        },
    }
}

/// The terminus of a durable link that its peer closes, by the answer to the detach.
fn closed_terminus<'a>(
    state: &State,
    book: &'a Book,
    conn: u64,
    answer: &Answer,
) -> Option<&'a Terminus>
    ensures { (t : List Entry) → TablesFind state.now t
        → option_map (λ x. x.now) result ≡ closed_terminus book.now t conn answer.now }
{
    match answer {
        Answer::Detach {
            own,
            handle,
            closed: true,
            error: None,
        } => {
            let at = LinkPlace {
                conn: ConnectionId(conn),
                own: *own,
                handle: *handle,
            };
            match state.durable_key(at) {
                None => None,
                Some(key) => book.terminus_of(key),
            }
        }
        _ => None,
    }
}

/// The act that drops a terminus.
fn dropped(terminus: Option<&Terminus>) -> Option<TerminusAct>
    ensures { result ≡ option_map (λ x. act.Drop x.now.number) terminus.entry }
{
    match terminus {
        None => None,
        Some(terminus) => Some(TerminusAct::Drop(terminus.number)),
    }
}

/// What a detach with this answer does.
///
/// # Errors
///
/// `AllocError` if memory was refused.
pub(crate) fn does(
    state: &State,
    book: &Book,
    conn: u64,
    answer: &Answer,
) -> Result<Doings, AllocError>
    ensures forgotten { IfOk result (λ does. (t : List Entry) → TablesFind state.now t
        → does.forgotten.items ≡ sent_from book.now (closed_terminus book.now t conn answer.now)) }
    ensures terminus { IfOk result (λ does. (t : List Entry) → TablesFind state.now t
        → does.terminus ≡ option_map (λ x. act.Drop x.number) (closed_terminus book.now t conn answer.now)) }
    ensures stolen { IfOk result (λ does. does.stolen ≡ None) }
    ensures resumption { IfOk result (λ does. TakesNothing does) }
{
    let closed = closed_terminus(state, book, conn, answer);
    let rows = sent_from(state.alloc(), book, closed)?;
    Ok(Doings {
        terminus: dropped(closed),
        ..Doings::forgetting(state.alloc(), rows)
    })
}

//! What a producer's durable link has from its attach on: the rows of its terminus, until its producer resumes or settles them (AMQP 1.0 part 2,
//! section 2.6.13).
ghost use Rattle.std.specs.Prelude.{◌≡◌, ◌∷◌, List, [], Some, filter, if◌then◌else◌, OnOk};
ghost use Rattle.std.specs.Option.{option_copied, option_map};
ghost use Rattle.book_core.specs.Rows.{rows_left};
ghost use Rattle.book_model.specs.declared.act.Act.TheVariants.{Forget};
ghost use Rattle.book_model.specs.Book.{is_from};
ghost use Rattle.reply_rows.specs.Booking.{sent_rows};
ghost use Rattle.router_trace.specs.Deliveries.{joined_by};
ghost use Rattle.router_trace.specs.Trace.{Bound, Entry};
ghost use Rattle.router_state.specs.Tables.{TablesFit};
ghost use Rattle.reply_rows.specs.Asking.{all_rows};
ghost use Rattle.router_reply.specs.Holding.{as_held, held_to, held_if, with_held, freed_by, freed_from, freed};

use book_core::{Book, Rows};
use book_model::{Act, LinkKey, Row, RowNumber, Terminus, TerminusNumber};
use router_state::State;
use router_trace::{Attachment, Holding};
use std::alloc::AllocError;

/// How a producer's link has a row of its terminus once it is attached.
fn as_held(at: Attachment, row: &Row) -> Holding
    ensures { result ≡ as_held at row.now }
{
    if row.forgotten {
        Holding::Settled(at)
    } else {
        Holding::Unresumed(at)
    }
}

/// Whether a row came from a terminus.
fn is_from(row: &Row, terminus: TerminusNumber) -> bool
    ensures { result ≡ is_from terminus.0 row.now }
{
    row.producer.0 == terminus.0
}

/// A producer's link has a row of its terminus.
fn hold_row(state: &mut State, at: Attachment, row: &Row) -> Result<(), AllocError>
    ensures { OnOk result ((t : List Entry) → TablesFit state.old t → TablesFit state.new (Bound (joined_by t (as_held at row.now) row.now.number row.now.outcome) ∷ t)) }
{
    state.join(as_held(at, row), row.number, row.outcome.as_ref())
}

/// A producer's link has a row, if that came from its terminus.
fn hold(
    state: &mut State,
    at: Attachment,
    terminus: TerminusNumber,
    row: &Row,
) -> Result<(), AllocError>
    ensures { OnOk result ((t : List Entry) → TablesFit state.old t → TablesFit state.new (held_to at (filter (is_from terminus.0) (row.now ∷ [])) t)) }
{
    if is_from(row, terminus) {
        hold_row(state, at, row)
    } else {
        Ok(())
    }
}

/// A producer's link has those of these rows that came from its terminus.
fn hold_all(
    state: &mut State,
    at: Attachment,
    terminus: TerminusNumber,
    rows: Rows<'_>,
) -> Result<(), AllocError>
    ensures { OnOk result ((t : List Entry) → TablesFit state.old t → TablesFit state.new (held_to at (filter (is_from terminus.0) (rows_left rows.entry)) t)) }
{
    for row in rows {
        hold(state, at, terminus, row)?;
    }
    Ok(())
}

/// A producer's link has the rows of its terminus, if there is one.
fn hold_terminus(
    state: &mut State,
    at: Attachment,
    book: &Book,
    terminus: Option<&Terminus>,
) -> Result<(), AllocError>
    ensures { OnOk result ((t : List Entry) → TablesFit state.old t → TablesFit state.new (held_to at (all_rows book.now (option_copied terminus.entry)) t)) }
{
    match terminus {
        None => Ok(()),
        Some(terminus) => { hold_all(state, at, terminus.number, book.rows_of(terminus.number)) }
    }
}

/// The producer's durable link with this key, if it is attached, has the rows of its terminus from now on.
pub(crate) fn hold_rows(state: &mut State, book: &Book, key: &LinkKey) -> Result<(), AllocError>
    ensures { OnOk result ((t : List Entry) → TablesFit state.old t → TablesFit state.new (with_held book.now (Some key.now) t)) }
{
    match state.holder(key) {
        None => Ok(()),
        Some(at) => hold_terminus(state, at, book, book.terminus_of(key)),
    }
}

/// A row that was forgotten is settled, if a producer's link has it without a delivery.
fn free_row(state: &mut State, row: RowNumber) -> Result<(), AllocError>
    ensures { OnOk result ((t : List Entry) → TablesFit state.old t → TablesFit state.new (freed_by (Forget row) t)) }
{
    match state.owner_of(row) {
        None => Ok(()),
        Some(owner) => state.join(Holding::Settled(owner.link), row, None),
    }
}

/// The same of what an act forgets.
fn free(state: &mut State, act: &Act) -> Result<(), AllocError>
    ensures { OnOk result ((t : List Entry) → TablesFit state.old t → TablesFit state.new (freed_by act.now t)) }
{
    match act {
        Act::Forget(row) => free_row(state, *row),
        _ => Ok(()),
    }
}

/// Settles the rows that the acts of an event forget and that a producer's link has without a delivery. It is called after the reply to the event.
///
/// # Errors
///
/// `AllocError` if memory was refused; the tables' contents are unspecified then.
pub fn free_rows(state: &mut State, acts: &[Act]) -> Result<(), AllocError>
    ensures { OnOk result ((t : List Entry) → TablesFit state.old t → TablesFit state.new (freed acts.now t)) }
{
    for act in acts {
        free(state, act)?;
    }
    Ok(())
}

//! What a durable link takes up again is done after the reply to its attach (AMQP 1.0 part 2, section 2.6.13): a consumer's rows are bound to it, and a
//! producer's link has those of its terminus.
ghost use Rattle.std.specs.Prelude.{◌≡◌, ◌∷◌, List, Some, OnOk};
ghost use Rattle.router_trace.specs.Trace.{Bound, Entry};
ghost use Rattle.router_state.specs.Tables.{TablesFit};
ghost use Rattle.state_messages.specs.Messages.{taken_up_by};
ghost use Rattle.reply_rows.specs.Resuming.{key_resumed, key_held, rows_resumed};
ghost use Rattle.router_reply.specs.Holding.{with_held};
ghost use Rattle.router_reply.specs.Resuming.{bound_to, bound_if, with_rows};

use crate::holding::hold_rows;
use book_core::Book;
use reply_rows::{ConsumerResumption, ProducerResumption, Resumption};
use resume_core::Sending;
use router_state::State;
use router_trace::Attachment;
use std::alloc::AllocError;

/// Binds a row to the consumer's link that takes it up again.
fn bind(state: &mut State, at: Attachment, sending: Sending) -> Result<(), AllocError>
    ensures { OnOk result ((t : List Entry) → TablesFit state.old t → TablesFit state.new (Bound (taken_up_by t sending.row sending.how sending.format sending.payload at) ∷ t)) }
{
    let Sending {
        row,
        how,
        format,
        payload,
    } = sending;
    state.take_up(at, row, how, format, payload)
}

/// Binds rows to the consumer's link that takes them up again, in order.
fn bind_all(state: &mut State, at: Attachment, rows: Vec<Sending>) -> Result<(), AllocError>
    ensures { OnOk result ((t : List Entry) → TablesFit state.old t → TablesFit state.new (bound_to at rows.items t)) }
{
    for row in rows {
        bind(state, at, row)?;
    }
    Ok(())
}

/// The same, if there is such a link.
fn bind_if(state: &mut State, at: Option<Attachment>, rows: Vec<Sending>) -> Result<(), AllocError>
    ensures { OnOk result ((t : List Entry) → TablesFit state.old t → TablesFit state.new (bound_if at rows.items t)) }
{
    match at {
        None => {
            drop(rows);
            Ok(())
        }
        Some(at) => bind_all(state, at, rows),
    }
}

/// Binds the rows that a consumer's attach takes up again to the link with their key, in order, if it is attached.
fn take_up_rows(state: &mut State, taken: ConsumerResumption) -> Result<(), AllocError>
    ensures { OnOk result ((t : List Entry) → TablesFit state.old t → TablesFit state.new (with_rows (Some taken.key) taken.rows.items t)) }
{
    let ConsumerResumption { key, map, rows } = taken;
    drop(map);
    let at = state.consumer_with(&key);
    drop(key);
    bind_if(state, at, rows)
}

/// The producer's link with its key has the rows of its terminus from now on, if it is attached.
fn hold_up(state: &mut State, book: &Book, taken: ProducerResumption) -> Result<(), AllocError>
    ensures { OnOk result ((t : List Entry) → TablesFit state.old t → TablesFit state.new (with_held book.now (Some taken.key) t)) }
{
    let ProducerResumption { key, map } = taken;
    drop(map);
    let held = hold_rows(state, book, &key);
    drop(key);
    held
}

/// Binds the rows that an attach takes up again to the consumer's link with their key, in order, if it is attached; or joins the rows of its
/// terminus, in the book after the event's acts, to the producer's link with its key. It is called after the reply to the attach.
///
/// # Errors
///
/// `AllocError` if memory was refused; the tables' contents are unspecified then.
pub fn take_up(
    state: &mut State,
    book: &Book,
    resumption: Option<Resumption>,
) -> Result<(), AllocError>
    ensures { OnOk result ((t : List Entry) → TablesFit state.old t
        → TablesFit state.new (with_held book.now (key_held resumption) (with_rows (key_resumed resumption) (rows_resumed resumption) t))) }
{
    match resumption {
        Some(Resumption::Consumer(taken)) => take_up_rows(state, taken),
        Some(Resumption::Producer(taken)) => hold_up(state, book, taken),
        None => Ok(()),
    }
}

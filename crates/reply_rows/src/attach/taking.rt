//! What an attach does to the book: one that is taken ends the older link with its key; if its link is durable, it
//! makes the link's terminus, and what that has is taken up again.
ghost use Rattle.std.specs.Prelude.{◌≡◌, ℕ, [], List, Some, None, option_map, unwrap_or, IfOk};
ghost use Rattle.journal_store.specs.declared.acting.TerminusAct.TheVariants as act;
ghost use Rattle.router_trace.specs.Trace.{Entry};
ghost use Rattle.router_trace.specs.Links.{holder};
ghost use Rattle.router_state.specs.Tables.{TablesFind};
ghost use Rattle.reply_rows.specs.Booking.{wanted_key, wanted_address, new_terminus};
ghost use Rattle.reply_rows.specs.declared.answer.Answer.TheVariants as reply;
ghost use Rattle.reply_rows.specs.Deciding.{made_for, made_by, stolen_from};
ghost use Rattle.reply_rows.specs.Doing.{TakesNothing, TakesUp};
ghost use Rattle.reply_rows.specs.Resuming.{asked_key, key_taken};

use crate::answer::Answer;
use crate::attach::durable::{wanted_address, wanted_key, wants_durable};
use crate::attach::resuming::{Mapping, mapping_of};
use crate::doings::Doings;
use amqp_model::{Attach, Text};
use book_core::Book;
use book_model::{LinkKey, Terminus};
use journal_store::TerminusAct;
use router_state::State;
use router_trace::Attachment;
use std::alloc::{AllocError, Global};

/// A copy of a text; the empty one if there is none.
fn copied(alloc: Global, text: Option<&Text>) -> Result<Text, AllocError>
    ensures { IfOk result (λ copy. copy ≡ unwrap_or (option_map (λ a. a.now) text.entry) []) }
{
    match text {
        None => Ok(Text::new(String::new(alloc))),
        Some(text) => text.clone(),
    }
}

/// The terminus that is made for a durable link with this key.
fn new_terminus(
    alloc: Global,
    book: &Book,
    key: &LinkKey,
    attach: &Attach,
) -> Result<Terminus, AllocError>
    ensures { IfOk result (λ terminus. terminus ≡ new_terminus book.now key.now (wanted_address attach.now)) }
{
    let key = key.clone()?;
    let Ok(address) = copied(alloc, wanted_address(attach)) else {
        drop(key);
        return Err(AllocError);
    };
    Ok(Terminus {
        number: book.next_terminus(),
        key,
        address,
    })
}

/// What the attach of a durable link with this key does, if it is taken; `stolen` is the older link with the key.
fn durable(
    alloc: Global,
    book: &Book,
    attach: &Attach,
    stolen: Option<Attachment>,
    key: LinkKey,
) -> Result<Doings, AllocError>
    ensures stolen { IfOk result (λ does. does.stolen ≡ stolen) }
    ensures forgotten { IfOk result (λ does. does.forgotten.items ≡ []) }
    ensures terminus { IfOk result (λ does. does.terminus
        ≡ Some (act.Make (new_terminus book.now key (wanted_address attach.now)))) }
    ensures resumed { IfOk result (λ does. TakesUp book.now (Some attach.now) (Some key) does) }
{
    let Ok(terminus) = new_terminus(alloc, book, &key, attach) else {
        drop(key);
        return Err(AllocError);
    };
    let Mapping {
        decided,
        lacking,
        resumption,
    } = mapping_of(alloc, book, attach, key)?;
    Ok(Doings {
        stolen,
        decided,
        lacking,
        terminus: Some(TerminusAct::Make(terminus)),
        resumption: Some(resumption),
        ..Doings::nothing(alloc)
    })
}

/// What the attach of a link does that isn't durable, if it is taken; `stolen` is the older link with its key.
fn volatile(alloc: Global, stolen: Option<Attachment>) -> Doings
    ensures stolen { result.stolen ≡ stolen }
    ensures forgotten { result.forgotten.items ≡ [] }
    ensures terminus { result.terminus ≡ None }
    ensures resumption { TakesNothing result }
{
    Doings {
        stolen,
        ..Doings::nothing(alloc)
    }
}

/// What an attach does whose link is taken.
fn taken(state: &State, book: &Book, conn: u64, attach: &Attach) -> Result<Doings, AllocError>
    ensures stolen { IfOk result (λ does. (t : List Entry) → TablesFind state.now t
        → stolen_from does.stolen ≡ stolen_from (holder t (wanted_key t conn attach.now))) }
    ensures forgotten { IfOk result (λ does. does.forgotten.items ≡ []) }
    ensures terminus { IfOk result (λ does. (t : List Entry) → TablesFind state.now t
        → does.terminus ≡ made_for book.now (wanted_key t conn attach.now) attach.now) }
    ensures resumed { IfOk result (λ does. (t : List Entry) → TablesFind state.now t
        → TakesUp book.now (Some attach.now) (asked_key t conn attach.now) does) }
{
    let key = wanted_key(state, conn, attach)?;
    let stolen = state.holder(&key);
    if wants_durable(attach) {
        return durable(state.alloc(), book, attach, stolen, key);
    }
    drop(key);
    Ok(volatile(state.alloc(), stolen))
}

/// What an attach with this answer does.
///
/// # Errors
///
/// `AllocError` if memory was refused.
pub(crate) fn does(
    state: &State,
    book: &Book,
    conn: u64,
    attach: &Attach,
    answer: &Answer,
) -> Result<Doings, AllocError>
    ensures stolen { IfOk result (λ does. (t : List Entry) (on : ℕ) → TablesFind state.now t
        → answer.now ≡ reply.Attach on → stolen_from does.stolen
        ≡ stolen_from (holder t (wanted_key t conn attach.now))) }
    ensures forgotten { IfOk result (λ does. does.forgotten.items ≡ []) }
    ensures terminus { IfOk result (λ does. (t : List Entry) → TablesFind state.now t
        → does.terminus ≡ made_by book.now t conn attach.now answer.now) }
    ensures resumed { IfOk result (λ does. (t : List Entry) → TablesFind state.now t
        → TakesUp book.now (Some attach.now) (key_taken t conn attach.now answer.now) does) }
{
    match answer {
        Answer::Attach { own: _own } => taken(state, book, conn, attach),
        _ => Ok(Doings::nothing(state.alloc())),
    }
}

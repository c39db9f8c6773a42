//! What a durable link takes up again when it is attached, as the map of the attach says (AMQP 1.0 part 2, section 2.6.13): what is
//! forgotten or decided of the rows of its terminus, the router's map of them, and how a consumer's are sent.
ghost use Rattle.std.specs.Prelude.{◌≡◌, [], not, Some, None, IfOk};
ghost use Rattle.book_model.specs.Book.{terminus_of};
ghost use Rattle.resume_core.specs.Resuming.{entries_of, forgotten_rows, producer_map, decisions, consumer_map, sendings};
ghost use Rattle.reply_rows.specs.Asking.{if_receives, if_sends, rows_with, decided_for, forgotten_for, all_rows};
ghost use Rattle.reply_rows.specs.Resuming.{rows_for, map_for, key_resumed, key_held, map_resumed, rows_resumed};

use amqp_model::{Attach, Role, UnsettledDelivery};
use book_core::Book;
use book_model::{Decision, LinkKey, RowNumber};
use resume_core::{ConsumerPlan, ProducerPlan, Sending, consumer_plan, producer_plan};
use std::alloc::{AllocError, Global};
use std::mem;

/// What a durable link takes up again when it is attached.
#[derive(Drop)]
pub enum Resumption {
    /// A producer's link.
    Producer(ProducerResumption),
    /// A consumer's link.
    Consumer(ConsumerResumption),
}

/// What a producer's durable link takes up again when it is attached.
#[derive(Drop)]
pub struct ProducerResumption {
    /// The link's key.
    pub key: LinkKey,
    /// The router's map in the answer to the attach, until it is told (AMQP 1.0 part 2, section 2.7.3).
    pub map: Vec<UnsettledDelivery>,
}

/// What a consumer's durable link takes up again when it is attached.
#[derive(Drop)]
pub struct ConsumerResumption {
    /// The link's key.
    pub key: LinkKey,
    /// The router's map in the answer to the attach, until it is told (AMQP 1.0 part 2, section 2.7.3).
    pub map: Vec<UnsettledDelivery>,
    /// What is sent of the rows of its terminus, by number.
    pub rows: Vec<Sending>,
}

/// What the map of an attach does to the rows of its link's terminus.
#[derive(Drop)]
pub(crate) struct Mapping {
    /// What it decides of them, by number.
    pub(crate) decided: Vec<Decision>,
    /// Those that it lacks, which are forgotten, by number.
    pub(crate) lacking: Vec<RowNumber>,
    /// What is taken up again.
    pub(crate) resumption: Resumption,
}

/// What a producer's attach does to the rows of the terminus with this key; nothing if there is no terminus.
fn producer_plan_for(
    alloc: Global,
    book: &Book,
    attach: &Attach,
    key: &LinkKey,
) -> Result<ProducerPlan, AllocError>
    ensures forgotten { IfOk result (λ plan. plan.forgotten.items ≡ forgotten_rows (not attach.now.incomplete_unsettled) (entries_of attach.now.unsettled) (all_rows book.now (terminus_of key.now book.now.termini))) }
    ensures mapped { IfOk result (λ plan. plan.map.items ≡ producer_map (not attach.now.incomplete_unsettled) (entries_of attach.now.unsettled) (all_rows book.now (terminus_of key.now book.now.termini))) }
{
    let Some(terminus) = book.terminus_of(key) else {
        return Ok(ProducerPlan {
            forgotten: Vec::new(alloc),
            map: Vec::new(alloc),
            due: Vec::new(alloc),
        });
    };
    let complete = !attach.incomplete_unsettled;
    let rows = book.rows_of(terminus.number);
    producer_plan(
        alloc,
        terminus.number,
        rows,
        attach.unsettled.as_ref(),
        complete,
    )
}

/// What the map of a producer's attach does, if its link has this key.
fn producer_mapping(
    alloc: Global,
    book: &Book,
    attach: &Attach,
    key: LinkKey,
) -> Result<Mapping, AllocError>
    ensures lacking { IfOk result (λ mapped. mapped.lacking.items ≡ forgotten_rows (not attach.now.incomplete_unsettled) (entries_of attach.now.unsettled) (all_rows book.now (terminus_of key book.now.termini))) }
    ensures decided { IfOk result (λ mapped. mapped.decided.items ≡ []) }
    ensures key { IfOk result (λ mapped. key_held (Some mapped.resumption) ≡ Some key) }
    ensures other { IfOk result (λ mapped. key_resumed (Some mapped.resumption) ≡ None) }
    ensures map { IfOk result (λ mapped. map_resumed (Some mapped.resumption) ≡ producer_map (not attach.now.incomplete_unsettled) (entries_of attach.now.unsettled) (all_rows book.now (terminus_of key book.now.termini))) }
    ensures rows { IfOk result (λ mapped. rows_resumed (Some mapped.resumption) ≡ []) }
{
    match producer_plan_for(alloc, book, attach, &key) {
        Ok(plan) => {
            let ProducerPlan {
                forgotten,
                map,
                due,
            } = plan;
            drop(due);
            Ok(Mapping {
                decided: Vec::new(alloc),
                lacking: forgotten,
                resumption: Resumption::Producer(ProducerResumption { key, map }),
            })
        }
        Err(error) => {
            drop(key);
            Err(error)
        }
    }
}

/// What a consumer's attach does to the rows of the terminus with this key; nothing if there is no terminus.
fn plan_for(
    alloc: Global,
    book: &Book,
    attach: &Attach,
    key: &LinkKey,
) -> Result<ConsumerPlan, AllocError>
    ensures decided { IfOk result (λ plan. plan.decisions.items ≡ decisions (entries_of attach.now.unsettled) (rows_with book.now key.now)) }
    ensures mapped { IfOk result (λ plan. plan.map.items ≡ consumer_map (entries_of attach.now.unsettled) (rows_with book.now key.now)) }
    ensures sent { IfOk result (λ plan. plan.sendings.items ≡ sendings (not attach.now.incomplete_unsettled) (entries_of attach.now.unsettled) (rows_with book.now key.now)) }
{
    match book.terminus_of(key) {
        None => Ok(ConsumerPlan::new(alloc)),
        Some(terminus) => consumer_plan(
            alloc,
            terminus.number,
            book.rows_of(terminus.number),
            attach.unsettled.as_ref(),
            !attach.incomplete_unsettled,
        ),
    }
}

/// What the map of a consumer's attach does, if its link has this key.
fn consumer_mapping(
    alloc: Global,
    book: &Book,
    attach: &Attach,
    key: LinkKey,
) -> Result<Mapping, AllocError>
    ensures lacking { IfOk result (λ mapped. mapped.lacking.items ≡ []) }
    ensures decided { IfOk result (λ mapped. mapped.decided.items ≡ decisions (entries_of attach.now.unsettled) (rows_with book.now key)) }
    ensures key { IfOk result (λ mapped. key_resumed (Some mapped.resumption) ≡ Some key) }
    ensures other { IfOk result (λ mapped. key_held (Some mapped.resumption) ≡ None) }
    ensures map { IfOk result (λ mapped. map_resumed (Some mapped.resumption) ≡ consumer_map (entries_of attach.now.unsettled) (rows_with book.now key)) }
    ensures rows { IfOk result (λ mapped. rows_resumed (Some mapped.resumption) ≡ sendings (not attach.now.incomplete_unsettled) (entries_of attach.now.unsettled) (rows_with book.now key)) }
{
    match plan_for(alloc, book, attach, &key) {
        Ok(plan) => {
            let ConsumerPlan {
                decisions,
                map,
                sendings,
            } = plan;
            Ok(Mapping {
                decided: decisions,
                lacking: Vec::new(alloc),
                resumption: Resumption::Consumer(ConsumerResumption {
                    key,
                    map,
                    rows: sendings,
                }),
            })
        }
        Err(error) => {
            drop(key);
            Err(error)
        }
    }
}

/// What the map of an attach does, if its link has this key.
pub(crate) fn mapping_of(
    alloc: Global,
    book: &Book,
    attach: &Attach,
    key: LinkKey,
) -> Result<Mapping, AllocError>
    ensures key { IfOk result (λ mapped. key_resumed (Some mapped.resumption) ≡ if_receives (Some attach.now) (Some key)) }
    ensures held { IfOk result (λ mapped. key_held (Some mapped.resumption) ≡ if_sends (Some attach.now) (Some key)) }
    ensures lacking { IfOk result (λ mapped. mapped.lacking.items ≡ forgotten_for book.now (Some attach.now) (Some key)) }
    ensures decided { IfOk result (λ mapped. mapped.decided.items ≡ decided_for book.now (Some attach.now) (if_receives (Some attach.now) (Some key))) }
    ensures map { IfOk result (λ mapped. map_resumed (Some mapped.resumption) ≡ map_for book.now (Some attach.now) (Some key)) }
    ensures rows { IfOk result (λ mapped. rows_resumed (Some mapped.resumption) ≡ rows_for book.now (Some attach.now) (if_receives (Some attach.now) (Some key))) }
{
    match attach.role {
        Role::Sender => producer_mapping(alloc, book, attach, key),
        Role::Receiver => consumer_mapping(alloc, book, attach, key),
    }
}

/// The router's map in the answer to the attach of what it takes up again, which is told by it; it has no entries if that
/// is nothing.
pub fn told_map(alloc: Global, resumption: &mut Option<Resumption>) -> Vec<UnsettledDelivery>
    ensures map { result.items ≡ map_resumed resumption.old }
    ensures key { key_resumed resumption.new ≡ key_resumed resumption.old }
    ensures held { key_held resumption.new ≡ key_held resumption.old }
    ensures rows { rows_resumed resumption.new ≡ rows_resumed resumption.old }
{
    match resumption {
        Some(Resumption::Producer(taken)) => mem::replace(&mut taken.map, Vec::new(alloc)),
        Some(Resumption::Consumer(taken)) => mem::replace(&mut taken.map, Vec::new(alloc)),
        None => Vec::new(alloc),
    }
}

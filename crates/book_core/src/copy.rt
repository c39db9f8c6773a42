//! Copies of what a book keeps. The bytes of a payload are shared.
ghost use Rattle.std.specs.Prelude.{◌≡◌, IfOk};
ghost use Rattle.std.specs.Option.{ForSome};
ghost use Rattle.book_model.specs.Book.{admitted, decided, forgotten};
ghost use Rattle.book_model.specs.Restoring.{admission_of};

use amqp_model::{DeliveryState, DeliveryTag, copy_state};
use book_model::{Admission, Row, Terminus};
use std::alloc::AllocError;

fn tag(tag: &DeliveryTag) -> Result<DeliveryTag, AllocError>
    ensures { IfOk result (λ t. t ≡ tag.now) }
{
    tag.clone()
}

pub(crate) fn terminus(terminus: &Terminus) -> Result<Terminus, AllocError>
    ensures { IfOk result (λ t. t ≡ terminus.now) }
{
    Ok(Terminus {
        number: terminus.number,
        key: terminus.key.clone()?,
        address: terminus.address.clone()?,
    })
}

/// The row of a delivery just admitted.
pub(crate) fn admitted_row(admission: &Admission) -> Result<Row, AllocError>
    ensures { IfOk result (λ r. r ≡ admitted admission.now) }
{
    Ok(Row {
        number: admission.row,
        producer: admission.producer,
        tag: tag(&admission.tag)?,
        consumer: admission.consumer,
        format: admission.format,
        payload: admission.payload.clone()?,
        outcome: None,
        forgotten: false,
    })
}

/// The Admit of a row.
pub(crate) fn admission(row: &Row) -> Result<Admission, AllocError>
    ensures { IfOk result (λ a. a ≡ admission_of row.now) }
{
    Ok(Admission {
        row: row.number,
        producer: row.producer,
        tag: tag(&row.tag)?,
        consumer: row.consumer,
        format: row.format,
        payload: row.payload.clone()?,
    })
}

/// A row after it is decided; none if it leaves.
pub(crate) fn decided_row(row: &Row, decision: &DeliveryState) -> Result<Option<Row>, AllocError>
    ensures row { IfOk result (λ r. r ≡ decided decision.now row.now) }
    ensures same { IfOk result (λ o. ForSome o (λ r. r.number.0 ≡ row.now.number.0)) }
{
    if row.forgotten {
        return Ok(None);
    }
    Ok(Some(Row {
        number: row.number,
        producer: row.producer,
        tag: tag(&row.tag)?,
        consumer: row.consumer,
        format: row.format,
        payload: row.payload.clone()?,
        outcome: Some(copy_state(decision)?),
        forgotten: false,
    }))
}

/// A row after it is forgotten; none if it leaves.
pub(crate) fn forgotten_row(row: &Row) -> Result<Option<Row>, AllocError>
    ensures row { IfOk result (λ r. r ≡ forgotten row.now) }
    ensures same { IfOk result (λ o. ForSome o (λ r. r.number.0 ≡ row.now.number.0)) }
{
    if row.outcome.is_some() {
        return Ok(None);
    }
    Ok(Some(Row {
        number: row.number,
        producer: row.producer,
        tag: tag(&row.tag)?,
        consumer: row.consumer,
        format: row.format,
        payload: row.payload.clone()?,
        outcome: None,
        forgotten: true,
    }))
}

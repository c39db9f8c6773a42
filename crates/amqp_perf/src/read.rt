//! Reading a performative, or a delivery state, at the front of bytes.
ghost use Rattle.std.specs.Prelude.{◌≡◌, ◌≤◌, length, IfOk};
ghost use Rattle.amqp_perf.specs.Contract.{Gives, GivesAs};
ghost use Rattle.amqp_perf.specs.Places.{at_of};
ghost use Rattle.amqp_perf.specs.Performative.{performative, performative_at, state, body, sasl_body, limit_of};

use crate::fields::Fields;
use crate::opening::{Opening, listed, opening_of};
use crate::read_perfs::{
    attach_fields, begin_fields, close_fields, detach_fields, disposition_fields, end_fields,
    flow_fields, open_fields, sasl_challenge_fields, sasl_init_fields, sasl_mechanisms_fields,
    sasl_outcome_fields, sasl_response_fields, transfer_fields,
};
use crate::read_states::state_of;
use amqp_model::{Boxed, DeliveryState, Descriptor, Perf, PerfFault};
use amqp_types::skip_at;
use std::alloc::Global;

/// The levels of nesting in a performative (AMQP 1.0 sets no limit; this one is the router's).
const DEPTH: u32 = 32;

/// Decodes the performative or SASL body at the front of the bytes, and answers it with the number of bytes that encode it:
/// what follows is a transfer's payload (AMQP 1.0 part 2, sections 2.3.2 and 2.7).
///
/// # Errors
///
/// The first fault from the front: `Spelling` where a value is encoded wrongly, `NotPerformative` where no list with a known
/// descriptor stands there, `TooManyFields` before the first field, then field by field `MissingField`, `WrongKind`,
/// `TagTooLong` and `DuplicateTag`; `Memory` where an allocation was refused.
#[tactic(auto, unfolding(crate::specs::Performative::performative))]
pub fn read_perf(alloc: Global, bytes: &[u8]) -> Result<(Perf, usize), PerfFault>
    ensures exact { Gives result (performative bytes.now) }
    ensures within { IfOk result (λ x. x.1 ≤ length bytes.now) }
{
    let (perf, rest) = performative_of(alloc, bytes)?;
    Ok((perf, bytes.len().saturating_sub(rest.len())))
}

/// Decodes the delivery state at the front of the bytes, and answers it with the number of bytes that encode it (AMQP 1.0
/// part 3, section 3.4).
///
/// # Errors
///
/// As a delivery state that is a field has them; a null is `MissingField`.
#[tactic(auto, unfolding(crate::specs::Performative::state))]
pub fn read_state(alloc: Global, bytes: &[u8]) -> Result<(DeliveryState, usize), PerfFault>
    ensures exact { Gives result (state bytes.now) }
    ensures within { IfOk result (λ x. x.1 ≤ length bytes.now) }
{
    let (state, rest) = state_of(alloc, DEPTH, bytes)?;
    let state = state.ok_or(PerfFault::MissingField)?;
    Ok((state, bytes.len().saturating_sub(rest.len())))
}

/// The performative at the front, and the bytes after it.
#[inline(always)]
#[tactic(auto, unfolding(crate::specs::Performative::performative_at))]
fn performative_of(alloc: Global, bytes: &[u8]) -> Result<(Perf, &[u8]), PerfFault>
    ensures { GivesAs (λ x. (x.0, x.1.now)) result (performative_at bytes.now) }
{
    let (opening, rest) = opening_of(DEPTH, bytes)?;
    match opening {
        Opening::Described(Some(descriptor)) => {
            let limit = limit_of(descriptor).ok_or(PerfFault::NotPerformative)?;
            let (mut fields, behind) = listed(DEPTH - 1, limit, PerfFault::NotPerformative, rest)?;
            Ok((body_of(alloc, descriptor, &mut fields)?, behind))
        }
        Opening::Described(None) => Err(PerfFault::NotPerformative),
        Opening::Null | Opening::Other => {
            skip_at(DEPTH, bytes)?;
            Err(PerfFault::NotPerformative)
        }
    }
}

/// How many fields the list after a descriptor has, where it is a performative's or a SASL body's.
fn limit_of(descriptor: Descriptor) -> Option<u32>
    ensures { result ≡ limit_of descriptor }
{
    match descriptor {
        Descriptor::Open => Some(10),
        Descriptor::Begin => Some(8),
        Descriptor::Attach => Some(14),
        Descriptor::Flow => Some(11),
        Descriptor::Transfer => Some(11),
        Descriptor::Disposition => Some(6),
        Descriptor::Detach => Some(3),
        Descriptor::End => Some(1),
        Descriptor::Close => Some(1),
        Descriptor::SaslMechanisms => Some(1),
        Descriptor::SaslInit => Some(3),
        Descriptor::SaslChallenge => Some(1),
        Descriptor::SaslResponse => Some(1),
        Descriptor::SaslOutcome => Some(2),
        Descriptor::Error
        | Descriptor::Received
        | Descriptor::Accepted
        | Descriptor::Rejected
        | Descriptor::Released
        | Descriptor::Modified
        | Descriptor::Source
        | Descriptor::Target => None,
    }
}

/// The fields after a descriptor.
#[inline(always)]
fn body_of(
    alloc: Global,
    descriptor: Descriptor,
    fields: &mut Fields<'_>,
) -> Result<Perf, PerfFault>
    ensures { Gives result (body descriptor (at_of fields.old)) }
{
    match descriptor {
        Descriptor::Open => Ok(Perf::Open(Boxed::new(alloc, open_fields(alloc, fields)?)?)),
        Descriptor::Begin => Ok(Perf::Begin(Boxed::new(alloc, begin_fields(alloc, fields)?)?)),
        Descriptor::Attach => Ok(Perf::Attach(Boxed::new(alloc, attach_fields(alloc, fields)?)?)),
        Descriptor::Flow => Ok(Perf::Flow(flow_fields(alloc, fields)?)),
        Descriptor::Transfer => Ok(Perf::Transfer(transfer_fields(alloc, fields)?)),
        Descriptor::Disposition => Ok(Perf::Disposition(disposition_fields(alloc, fields)?)),
        Descriptor::Detach => Ok(Perf::Detach(detach_fields(alloc, fields)?)),
        Descriptor::End => Ok(Perf::End(end_fields(alloc, fields)?)),
        Descriptor::Close => Ok(Perf::Close(close_fields(alloc, fields)?)),
        _ => sasl_body_of(alloc, descriptor, fields),
    }
}

/// The fields after the descriptor of a SASL body.
fn sasl_body_of(
    alloc: Global,
    descriptor: Descriptor,
    fields: &mut Fields<'_>,
) -> Result<Perf, PerfFault>
    ensures { Gives result (sasl_body descriptor (at_of fields.old)) }
{
    match descriptor {
        Descriptor::SaslMechanisms => Ok(Perf::SaslMechanisms(sasl_mechanisms_fields(
            alloc, fields,
        )?)),
        Descriptor::SaslInit => Ok(Perf::SaslInit(sasl_init_fields(alloc, fields)?)),
        Descriptor::SaslChallenge => Ok(Perf::SaslChallenge(sasl_challenge_fields(alloc, fields)?)),
        Descriptor::SaslResponse => Ok(Perf::SaslResponse(sasl_response_fields(alloc, fields)?)),
        Descriptor::SaslOutcome => Ok(Perf::SaslOutcome(sasl_outcome_fields(alloc, fields)?)),
        _ => Err(PerfFault::NotPerformative),
    }
}

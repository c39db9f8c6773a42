//! The performatives that carry messages, read from their usual spellings: a transfer, a disposition and a flow, each as
//! a described list whose size and count have one byte. Of anything else nothing is said here: that is for the reader of
//! all spellings.
ghost use Rattle.std.specs.Prelude.{◌≡◌, ◌≤◌, length, Ok, IfSome};
ghost use Rattle.amqp_perf.specs.Performative as performatives;
ghost use Rattle.amqp_frames.specs.Shorts.{Heads, place};

use crate::short_fields::ShortFields;
use amqp_model::{Disposition, Flow, Perf, Transfer};

/// The performative at the front, and the number of bytes that encode it, where it stands there in its usual spelling:
/// by the number of its descriptor a transfer (0x14), a disposition (0x15) or a flow (0x13), with as many fields as the
/// standard's list has, or fewer (AMQP 1.0 part 2, sections 2.7.4 to 2.7.6).
pub(crate) fn read_short(bytes: &[u8]) -> Option<(Perf, usize)>
    ensures exact { IfSome result (λ x. performatives.performative bytes.now ≡ Ok x) }
    ensures within { IfSome result (λ x. x.1 ≤ length bytes.now) }
{
    let (code, mut fields, end) = head(bytes)?;
    match code {
        0x14 if fields.left <= 11 => Some((Perf::Transfer(transfer(&mut fields)?), end)),
        0x15 if fields.left <= 6 => Some((Perf::Disposition(disposition(&mut fields)?), end)),
        0x13 if fields.left <= 11 => Some((Perf::Flow(flow(&mut fields)?), end)),
        _ => None,
    }
}

/// The number of the descriptor, the place of the first field, and where the list ends.
#[inline(always)]
fn head(bytes: &[u8]) -> Option<(u8, ShortFields<'_>, usize)>
    ensures heads { IfSome result (λ x. Heads bytes.now x.0 x.1 x.2) }
    ensures within { IfSome result (λ x. x.2 ≤ length bytes.now) }
{
    let [0x00, 0x53, code, 0xc0, size, count, rest @ ..] = bytes else {
        return None;
    };
    let size = usize::from(*size);
    if size == 0 || rest.len() < size - 1 {
        return None;
    }
    let (list, _) = rest.split_at(size - 1);
    let fields = ShortFields {
        left: u32::from(*count),
        rest: list,
    };
    Some((*code, fields, 5 + size))
}

/// The fields of a transfer.
#[inline(always)]
#[tactic(auto, unfolding(amqp_perf::specs::Performative::transfer_fields))]
fn transfer(fields: &mut ShortFields<'_>) -> Option<Transfer>
    ensures { IfSome result (λ x. performatives.transfer_fields (place fields.old) ≡ Ok x) }
{
    let handle = fields.required_uint()?;
    let delivery_id = fields.uint()?;
    let delivery_tag = fields.tag()?;
    let message_format = fields.uint()?;
    let settled = fields.flag()?;
    let more = fields.flag()?;
    fields.nothing()?;
    fields.nothing()?;
    let resume = fields.flag()?;
    let aborted = fields.flag()?;
    let batchable = fields.flag()?;
    fields.ended()?;
    Some(Transfer {
        handle,
        delivery_id,
        delivery_tag: Some(delivery_tag),
        message_format,
        settled,
        more,
        rcv_settle_mode: None,
        state: None,
        resume,
        aborted,
        batchable,
    })
}

/// The fields of a disposition.
#[inline(always)]
#[tactic(auto, unfolding(amqp_perf::specs::Performative::disposition_fields))]
fn disposition(fields: &mut ShortFields<'_>) -> Option<Disposition>
    ensures { IfSome result (λ x. performatives.disposition_fields (place fields.old) ≡ Ok x) }
{
    let role = fields.required_role()?;
    let first = fields.required_uint()?;
    let last = fields.uint()?;
    let settled = fields.flag()?;
    let state = fields.state()?;
    let batchable = fields.flag()?;
    fields.ended()?;
    Some(Disposition {
        role,
        first,
        last,
        settled,
        state,
        batchable,
    })
}

/// The fields of a flow.
#[inline(always)]
#[tactic(auto, unfolding(amqp_perf::specs::Performative::flow_fields))]
fn flow(fields: &mut ShortFields<'_>) -> Option<Flow>
    ensures { IfSome result (λ x. performatives.flow_fields (place fields.old) ≡ Ok x) }
{
    let next_incoming_id = fields.uint()?;
    let incoming_window = fields.required_uint()?;
    let next_outgoing_id = fields.required_uint()?;
    let outgoing_window = fields.required_uint()?;
    let handle = fields.uint()?;
    let delivery_count = fields.uint()?;
    let link_credit = fields.uint()?;
    let available = fields.uint()?;
    let drain = fields.flag()?;
    let echo = fields.flag()?;
    fields.nothing()?;
    fields.ended()?;
    Some(Flow {
        next_incoming_id,
        incoming_window,
        next_outgoing_id,
        outgoing_window,
        handle,
        delivery_count,
        link_credit,
        available,
        drain,
        echo,
        properties: None,
    })
}

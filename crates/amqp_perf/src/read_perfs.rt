//! Reading performatives and SASL bodies, each by a list of calls of field readers.
ghost use Rattle.std.specs.Prelude.{◌≡◌};
ghost use Rattle.amqp_perf.specs.Contract.{Gives};
ghost use Rattle.amqp_perf.specs.Places.{Took, at_of};
ghost use Rattle.amqp_perf.specs.Performative as performatives;

use crate::fields::Fields;
use amqp_model::{
    Attach, Begin, Close, Detach, Disposition, End, Flow, Map, Open, PerfFault, Role,
    SaslChallenge, SaslInit, SaslMechanisms, SaslOutcome, SaslResponse, SourceTerminus, Symbols,
    TargetTerminus, Text, Transfer, Unsettled,
};
use std::alloc::Global;

impl<'a> Fields<'a> {
    /// The role of an end of a link.
    #[tactic(auto, unfolding(crate::specs::Performative::required_role))]
    fn required_role(&mut self) -> Result<Role, PerfFault>
        ensures { Took (λ x. x) result (at_of self.new) (performatives.required_role (at_of self.old)) }
    {
        if self.required_flag()? {
            Ok(Role::Receiver)
        } else {
            Ok(Role::Sender)
        }
    }
}

#[tactic(auto, unfolding(crate::specs::Performative::open_fields))]
pub(crate) fn open_fields(alloc: Global, fields: &mut Fields<'_>) -> Result<Open, PerfFault>
    ensures { Gives result (performatives.open_fields (at_of fields.old)) }
{
    let container_id = fields.required_text(alloc)?;
    let hostname = fields.text(alloc)?;
    let max_frame_size = fields.uint()?;
    let channel_max = fields.ushort()?;
    let idle_time_out = fields.uint()?;
    let outgoing_locales = fields.symbols(alloc)?;
    let incoming_locales = fields.symbols(alloc)?;
    let offered_capabilities = fields.symbols(alloc)?;
    let desired_capabilities = fields.symbols(alloc)?;
    let properties = fields.map(alloc)?;
    fields.ended()?;
    Ok(Open {
        container_id,
        hostname,
        max_frame_size: max_frame_size.unwrap_or(4294967295),
        channel_max: channel_max.unwrap_or(65535),
        idle_time_out,
        outgoing_locales,
        incoming_locales,
        offered_capabilities,
        desired_capabilities,
        properties,
    })
}

#[tactic(auto, unfolding(crate::specs::Performative::begin_fields))]
pub(crate) fn begin_fields(alloc: Global, fields: &mut Fields<'_>) -> Result<Begin, PerfFault>
    ensures { Gives result (performatives.begin_fields (at_of fields.old)) }
{
    let remote_channel = fields.ushort()?;
    let next_outgoing_id = fields.required_uint()?;
    let incoming_window = fields.required_uint()?;
    let outgoing_window = fields.required_uint()?;
    let handle_max = fields.uint()?;
    let offered_capabilities = fields.symbols(alloc)?;
    let desired_capabilities = fields.symbols(alloc)?;
    let properties = fields.map(alloc)?;
    fields.ended()?;
    Ok(Begin {
        remote_channel,
        next_outgoing_id,
        incoming_window,
        outgoing_window,
        handle_max: handle_max.unwrap_or(4294967295),
        offered_capabilities,
        desired_capabilities,
        properties,
    })
}

/// The first fields of an attach: which link it is, and its ends.
#[derive(Drop)]
struct LinkEnds {
    name: Text,
    handle: u32,
    role: Role,
    snd_settle_mode: u8,
    rcv_settle_mode: u8,
    source: Option<SourceTerminus>,
    target: Option<TargetTerminus>,
}

#[tactic(auto, unfolding(crate::specs::Performative::ends_at))]
fn ends_of(alloc: Global, fields: &mut Fields<'_>) -> Result<LinkEnds, PerfFault>
    ensures { Took (λ x. x) result (at_of fields.new) (performatives.ends_at (at_of fields.old)) }
{
    let name = fields.required_text(alloc)?;
    let handle = fields.required_uint()?;
    let role = fields.required_role()?;
    let snd_settle_mode = fields.ubyte()?;
    let rcv_settle_mode = fields.ubyte()?;
    let source = fields.source(alloc)?;
    let target = fields.target(alloc)?;
    Ok(LinkEnds {
        name,
        handle,
        role,
        snd_settle_mode: snd_settle_mode.unwrap_or(2),
        rcv_settle_mode: rcv_settle_mode.unwrap_or(0),
        source,
        target,
    })
}

/// The next fields of an attach: what its end holds and accepts.
#[derive(Drop)]
struct LinkHoldings {
    unsettled: Option<Unsettled>,
    incomplete_unsettled: bool,
    initial_delivery_count: Option<u32>,
    max_message_size: Option<u64>,
}

#[tactic(auto, unfolding(crate::specs::Performative::holdings_at))]
fn holdings_of(alloc: Global, fields: &mut Fields<'_>) -> Result<LinkHoldings, PerfFault>
    ensures { Took (λ x. x) result (at_of fields.new) (performatives.holdings_at (at_of fields.old)) }
{
    let unsettled = fields.unsettled(alloc)?;
    let incomplete_unsettled = fields.flag()?;
    let initial_delivery_count = fields.uint()?;
    let max_message_size = fields.ulong()?;
    Ok(LinkHoldings {
        unsettled,
        incomplete_unsettled,
        initial_delivery_count,
        max_message_size,
    })
}

/// The last fields of an attach: what it can do, and what its end would like.
#[derive(Drop)]
struct LinkExtras {
    offered_capabilities: Symbols,
    desired_capabilities: Symbols,
    properties: Option<Map>,
}

#[tactic(auto, unfolding(crate::specs::Performative::extras_fields))]
fn extras_of(alloc: Global, fields: &mut Fields<'_>) -> Result<LinkExtras, PerfFault>
    ensures { Gives result (performatives.extras_fields (at_of fields.old)) }
{
    let offered_capabilities = fields.symbols(alloc)?;
    let desired_capabilities = fields.symbols(alloc)?;
    let properties = fields.map(alloc)?;
    fields.ended()?;
    Ok(LinkExtras {
        offered_capabilities,
        desired_capabilities,
        properties,
    })
}

#[tactic(auto, unfolding(crate::specs::Performative::attach_fields))]
pub(crate) fn attach_fields(alloc: Global, fields: &mut Fields<'_>) -> Result<Attach, PerfFault>
    ensures { Gives result (performatives.attach_fields (at_of fields.old)) }
{
    let ends = ends_of(alloc, fields)?;
    let holdings = holdings_of(alloc, fields)?;
    let extras = extras_of(alloc, fields)?;
    Ok(Attach {
        name: ends.name,
        handle: ends.handle,
        role: ends.role,
        snd_settle_mode: ends.snd_settle_mode,
        rcv_settle_mode: ends.rcv_settle_mode,
        source: ends.source,
        target: ends.target,
        unsettled: holdings.unsettled,
        incomplete_unsettled: holdings.incomplete_unsettled,
        initial_delivery_count: holdings.initial_delivery_count,
        max_message_size: holdings.max_message_size,
        offered_capabilities: extras.offered_capabilities,
        desired_capabilities: extras.desired_capabilities,
        properties: extras.properties,
    })
}

#[tactic(auto, unfolding(crate::specs::Performative::flow_fields))]
pub(crate) fn flow_fields(alloc: Global, fields: &mut Fields<'_>) -> Result<Flow, PerfFault>
    ensures { Gives result (performatives.flow_fields (at_of fields.old)) }
{
    let next_incoming_id = fields.uint()?;
    let incoming_window = fields.required_uint()?;
    let next_outgoing_id = fields.required_uint()?;
    let outgoing_window = fields.required_uint()?;
    let handle = fields.uint()?;
    let delivery_count = fields.uint()?;
    let link_credit = fields.uint()?;
    let available = fields.uint()?;
    let drain = fields.flag()?;
    let echo = fields.flag()?;
    let properties = fields.map(alloc)?;
    fields.ended()?;
    Ok(Flow {
        next_incoming_id,
        incoming_window,
        next_outgoing_id,
        outgoing_window,
        handle,
        delivery_count,
        link_credit,
        available,
        drain,
        echo,
        properties,
    })
}

#[tactic(auto, unfolding(crate::specs::Performative::transfer_fields))]
pub(crate) fn transfer_fields(alloc: Global, fields: &mut Fields<'_>) -> Result<Transfer, PerfFault>
    ensures { Gives result (performatives.transfer_fields (at_of fields.old)) }
{
    let handle = fields.required_uint()?;
    let delivery_id = fields.uint()?;
    let delivery_tag = fields.tag()?;
    let message_format = fields.uint()?;
    let settled = fields.flag()?;
    let more = fields.flag()?;
    let rcv_settle_mode = fields.ubyte()?;
    let state = fields.boxed_state(alloc)?;
    let resume = fields.flag()?;
    let aborted = fields.flag()?;
    let batchable = fields.flag()?;
    fields.ended()?;
    Ok(Transfer {
        handle,
        delivery_id,
        delivery_tag,
        message_format,
        settled,
        more,
        rcv_settle_mode,
        state,
        resume,
        aborted,
        batchable,
    })
}

#[tactic(auto, unfolding(crate::specs::Performative::disposition_fields))]
pub(crate) fn disposition_fields(
    alloc: Global,
    fields: &mut Fields<'_>,
) -> Result<Disposition, PerfFault>
    ensures { Gives result (performatives.disposition_fields (at_of fields.old)) }
{
    let role = fields.required_role()?;
    let first = fields.required_uint()?;
    let last = fields.uint()?;
    let settled = fields.flag()?;
    let state = fields.state(alloc)?;
    let batchable = fields.flag()?;
    fields.ended()?;
    Ok(Disposition {
        role,
        first,
        last,
        settled,
        state,
        batchable,
    })
}

#[tactic(auto, unfolding(crate::specs::Performative::detach_fields))]
pub(crate) fn detach_fields(alloc: Global, fields: &mut Fields<'_>) -> Result<Detach, PerfFault>
    ensures { Gives result (performatives.detach_fields (at_of fields.old)) }
{
    let handle = fields.required_uint()?;
    let closed = fields.flag()?;
    let error = fields.error(alloc)?;
    fields.ended()?;
    Ok(Detach {
        handle,
        closed,
        error,
    })
}

#[tactic(auto, unfolding(crate::specs::Performative::end_fields))]
pub(crate) fn end_fields(alloc: Global, fields: &mut Fields<'_>) -> Result<End, PerfFault>
    ensures { Gives result (performatives.end_fields (at_of fields.old)) }
{
    let error = fields.error(alloc)?;
    fields.ended()?;
    Ok(End { error })
}

#[tactic(auto, unfolding(crate::specs::Performative::close_fields))]
pub(crate) fn close_fields(alloc: Global, fields: &mut Fields<'_>) -> Result<Close, PerfFault>
    ensures { Gives result (performatives.close_fields (at_of fields.old)) }
{
    let error = fields.error(alloc)?;
    fields.ended()?;
    Ok(Close { error })
}

#[tactic(auto, unfolding(crate::specs::Performative::sasl_mechanisms_fields))]
pub(crate) fn sasl_mechanisms_fields(
    alloc: Global,
    fields: &mut Fields<'_>,
) -> Result<SaslMechanisms, PerfFault>
    ensures { Gives result (performatives.sasl_mechanisms_fields (at_of fields.old)) }
{
    let mechanisms = fields.required_symbols(alloc)?;
    fields.ended()?;
    Ok(SaslMechanisms { mechanisms })
}

#[tactic(auto, unfolding(crate::specs::Performative::sasl_init_fields))]
pub(crate) fn sasl_init_fields(
    alloc: Global,
    fields: &mut Fields<'_>,
) -> Result<SaslInit, PerfFault>
    ensures { Gives result (performatives.sasl_init_fields (at_of fields.old)) }
{
    let mechanism = fields.required_symbol(alloc)?;
    let initial_response = fields.binary(alloc)?;
    let hostname = fields.text(alloc)?;
    fields.ended()?;
    Ok(SaslInit {
        mechanism,
        initial_response,
        hostname,
    })
}

#[tactic(auto, unfolding(crate::specs::Performative::sasl_challenge_fields))]
pub(crate) fn sasl_challenge_fields(
    alloc: Global,
    fields: &mut Fields<'_>,
) -> Result<SaslChallenge, PerfFault>
    ensures { Gives result (performatives.sasl_challenge_fields (at_of fields.old)) }
{
    let challenge = fields.required_binary(alloc)?;
    fields.ended()?;
    Ok(SaslChallenge { challenge })
}

#[tactic(auto, unfolding(crate::specs::Performative::sasl_response_fields))]
pub(crate) fn sasl_response_fields(
    alloc: Global,
    fields: &mut Fields<'_>,
) -> Result<SaslResponse, PerfFault>
    ensures { Gives result (performatives.sasl_response_fields (at_of fields.old)) }
{
    let response = fields.required_binary(alloc)?;
    fields.ended()?;
    Ok(SaslResponse { response })
}

#[tactic(auto, unfolding(crate::specs::Performative::sasl_outcome_fields))]
pub(crate) fn sasl_outcome_fields(
    alloc: Global,
    fields: &mut Fields<'_>,
) -> Result<SaslOutcome, PerfFault>
    ensures { Gives result (performatives.sasl_outcome_fields (at_of fields.old)) }
{
    let code = fields.required_ubyte()?;
    let additional_data = fields.binary(alloc)?;
    fields.ended()?;
    Ok(SaslOutcome {
        code,
        additional_data,
    })
}

//! Writing performatives and SASL bodies.
ghost use Rattle.std.specs.Prelude.{◌≡◌, ◌++◌, option_map, IfOk, OnOk, OnErr};
ghost use Rattle.amqp_model.specs.declared.descriptor.Descriptor.TheVariants as is;
ghost use Rattle.amqp_model.specs.Texts as texts;
ghost use Rattle.amqp_model.specs.PerfSpelling as spellings;
ghost use Rattle.amqp_perf.specs.NestedViews.{nested_view};
ghost use Rattle.amqp_perf.specs.TextViews.{fields_view};

use crate::text::{Field, put_described, symbols_text};
use crate::write_states::{Nested, boxed_state_text, error_text, state_text, unsettled_text};
use crate::write_termini::{source_text, target_text};
use amqp_model::{
    Attach, Begin, Close, Descriptor, Detach, Disposition, End, Flow, Open, SaslChallenge,
    SaslInit, SaslMechanisms, SaslOutcome, SaslResponse, Transfer,
};
use amqp_types::Plain;
use std::alloc::{AllocError, Global};

pub(crate) fn put_open(alloc: Global, out: &mut Vec<u8>, opening: &Open) -> Result<(), AllocError>
    ensures ok { OnOk result (out.new.items ≡ out.old.items ++ texts.described_text is.Open (spellings.open_texts opening.now)) }
    ensures err { OnErr result (out.new.items ≡ out.old.items) }
{
    let outgoing_locales = symbols_text(alloc, &opening.outgoing_locales)?;
    let incoming_locales = symbols_text(alloc, &opening.incoming_locales)?;
    let offered = symbols_text(alloc, &opening.offered_capabilities)?;
    let desired = symbols_text(alloc, &opening.desired_capabilities)?;
    put_open_with(
        out,
        opening,
        &outgoing_locales,
        &incoming_locales,
        &offered,
        &desired,
    )
}

/// An open whose symbols are encoded.
fn put_open_with<'a>(
    out: &mut Vec<u8>,
    opening: &'a Open,
    outgoing_locales: &'a Option<Vec<u8>>,
    incoming_locales: &'a Option<Vec<u8>>,
    offered: &'a Option<Vec<u8>>,
    desired: &'a Option<Vec<u8>>,
) -> Result<(), AllocError>
    requires outgoing { option_map (λ v. v.items) outgoing_locales.now ≡ texts.symbols_text opening.now.outgoing_locales }
    requires incoming { option_map (λ v. v.items) incoming_locales.now ≡ texts.symbols_text opening.now.incoming_locales }
    requires offered { option_map (λ v. v.items) offered.now ≡ texts.symbols_text opening.now.offered_capabilities }
    requires desired { option_map (λ v. v.items) desired.now ≡ texts.symbols_text opening.now.desired_capabilities }
    ensures ok { OnOk result (out.new.items ≡ out.old.items ++ texts.described_text is.Open (spellings.open_texts opening.now)) }
    ensures err { OnErr result (out.new.items ≡ out.old.items) }
{
    let fields = [
        Field::Plain(Plain::String(opening.container_id.as_str())),
        Field::text(&opening.hostname),
        Field::uint_unless(u32::MAX, opening.max_frame_size),
        Field::ushort_unless(u16::MAX, opening.channel_max),
        Field::uint(opening.idle_time_out),
        Field::spelt(outgoing_locales),
        Field::spelt(incoming_locales),
        Field::spelt(offered),
        Field::spelt(desired),
        Field::map(&opening.properties),
    ];
    put_described(out, Descriptor::Open, &fields)
}

pub(crate) fn put_begin(alloc: Global, out: &mut Vec<u8>, begin: &Begin) -> Result<(), AllocError>
    ensures ok { OnOk result (out.new.items ≡ out.old.items ++ texts.described_text is.Begin (spellings.begin_texts begin.now)) }
    ensures err { OnErr result (out.new.items ≡ out.old.items) }
{
    let offered = symbols_text(alloc, &begin.offered_capabilities)?;
    let desired = symbols_text(alloc, &begin.desired_capabilities)?;
    put_begin_with(out, begin, &offered, &desired)
}

/// A begin whose symbols are encoded.
fn put_begin_with<'a>(
    out: &mut Vec<u8>,
    begin: &'a Begin,
    offered: &'a Option<Vec<u8>>,
    desired: &'a Option<Vec<u8>>,
) -> Result<(), AllocError>
    requires offered { option_map (λ v. v.items) offered.now ≡ texts.symbols_text begin.now.offered_capabilities }
    requires desired { option_map (λ v. v.items) desired.now ≡ texts.symbols_text begin.now.desired_capabilities }
    ensures ok { OnOk result (out.new.items ≡ out.old.items ++ texts.described_text is.Begin (spellings.begin_texts begin.now)) }
    ensures err { OnErr result (out.new.items ≡ out.old.items) }
{
    let fields = [
        Field::ushort(begin.remote_channel),
        Field::Plain(Plain::Uint(begin.next_outgoing_id)),
        Field::Plain(Plain::Uint(begin.incoming_window)),
        Field::Plain(Plain::Uint(begin.outgoing_window)),
        Field::uint_unless(u32::MAX, begin.handle_max),
        Field::spelt(offered),
        Field::spelt(desired),
        Field::map(&begin.properties),
    ];
    put_described(out, Descriptor::Begin, &fields)
}

/// The fields of an attach that hold other values, encoded.
#[derive(Drop)]
struct AttachParts {
    source: Option<Vec<u8>>,
    target: Option<Vec<u8>>,
    unsettled: Option<Vec<u8>>,
    offered_capabilities: Option<Vec<u8>>,
    desired_capabilities: Option<Vec<u8>>,
}

fn attach_parts(alloc: Global, attach: &Attach) -> Result<AttachParts, AllocError>
    ensures source { IfOk result (λ x. option_map (λ v. v.items) x.source ≡ spellings.source_text attach.now.source) }
    ensures target { IfOk result (λ x. option_map (λ v. v.items) x.target ≡ spellings.target_text attach.now.target) }
    ensures unsettled { IfOk result (λ x. option_map (λ v. v.items) x.unsettled ≡ spellings.unsettled_text attach.now.unsettled) }
    ensures offered { IfOk result (λ x. option_map (λ v. v.items) x.offered_capabilities ≡ texts.symbols_text attach.now.offered_capabilities) }
    ensures desired { IfOk result (λ x. option_map (λ v. v.items) x.desired_capabilities ≡ texts.symbols_text attach.now.desired_capabilities) }
{
    let source = source_text(alloc, &attach.source)?;
    let target = target_text(alloc, &attach.target)?;
    let unsettled = unsettled_text(alloc, &attach.unsettled)?;
    let offered_capabilities = symbols_text(alloc, &attach.offered_capabilities)?;
    let desired_capabilities = symbols_text(alloc, &attach.desired_capabilities)?;
    Ok(AttachParts {
        source,
        target,
        unsettled,
        offered_capabilities,
        desired_capabilities,
    })
}

pub(crate) fn put_attach(
    alloc: Global,
    out: &mut Vec<u8>,
    attach: &Attach,
) -> Result<(), AllocError>
    ensures ok { OnOk result (out.new.items ≡ out.old.items ++ texts.described_text is.Attach (spellings.attach_texts attach.now)) }
    ensures err { OnErr result (out.new.items ≡ out.old.items) }
{
    let parts = attach_parts(alloc, attach)?;
    put_attach_with(out, attach, &parts)
}

/// An attach whose fields that hold other values are encoded.
fn put_attach_with<'a>(
    out: &mut Vec<u8>,
    attach: &'a Attach,
    parts: &'a AttachParts,
) -> Result<(), AllocError>
    requires source { option_map (λ v. v.items) parts.now.source ≡ spellings.source_text attach.now.source }
    requires target { option_map (λ v. v.items) parts.now.target ≡ spellings.target_text attach.now.target }
    requires unsettled { option_map (λ v. v.items) parts.now.unsettled ≡ spellings.unsettled_text attach.now.unsettled }
    requires offered { option_map (λ v. v.items) parts.now.offered_capabilities ≡ texts.symbols_text attach.now.offered_capabilities }
    requires desired { option_map (λ v. v.items) parts.now.desired_capabilities ≡ texts.symbols_text attach.now.desired_capabilities }
    ensures ok { OnOk result (out.new.items ≡ out.old.items ++ texts.described_text is.Attach (spellings.attach_texts attach.now)) }
    ensures err { OnErr result (out.new.items ≡ out.old.items) }
{
    let fields = [
        Field::Plain(Plain::String(attach.name.as_str())),
        Field::Plain(Plain::Uint(attach.handle)),
        Field::role(attach.role),
        Field::ubyte_unless(2, attach.snd_settle_mode),
        Field::ubyte_unless(0, attach.rcv_settle_mode),
        Field::spelt(&parts.source),
        Field::spelt(&parts.target),
        Field::spelt(&parts.unsettled),
        Field::flag(attach.incomplete_unsettled),
        Field::uint(attach.initial_delivery_count),
        Field::ulong(attach.max_message_size),
        Field::spelt(&parts.offered_capabilities),
        Field::spelt(&parts.desired_capabilities),
        Field::map(&attach.properties),
    ];
    put_described(out, Descriptor::Attach, &fields)
}

pub(crate) fn put_flow(out: &mut Vec<u8>, flow: &Flow) -> Result<(), AllocError>
    ensures ok { OnOk result (out.new.items ≡ out.old.items ++ texts.described_text is.Flow (spellings.flow_texts flow.now)) }
    ensures err { OnErr result (out.new.items ≡ out.old.items) }
{
    let fields = [
        Field::uint(flow.next_incoming_id),
        Field::Plain(Plain::Uint(flow.incoming_window)),
        Field::Plain(Plain::Uint(flow.next_outgoing_id)),
        Field::Plain(Plain::Uint(flow.outgoing_window)),
        Field::uint(flow.handle),
        Field::uint(flow.delivery_count),
        Field::uint(flow.link_credit),
        Field::uint(flow.available),
        Field::flag(flow.drain),
        Field::flag(flow.echo),
        Field::map(&flow.properties),
    ];
    put_described(out, Descriptor::Flow, &fields)
}

pub(crate) fn put_transfer(
    alloc: Global,
    out: &mut Vec<u8>,
    transfer: &Transfer,
) -> Result<(), AllocError>
    ensures ok { OnOk result (out.new.items ≡ out.old.items ++ texts.described_text is.Transfer (spellings.transfer_texts transfer.now)) }
    ensures err { OnErr result (out.new.items ≡ out.old.items) }
{
    let state = boxed_state_text(alloc, &transfer.state)?;
    put_transfer_with(out, transfer, &state)
}

/// A transfer whose state is encoded.
fn put_transfer_with<'a>(
    out: &mut Vec<u8>,
    transfer: &'a Transfer,
    state: &'a Option<Nested>,
) -> Result<(), AllocError>
    requires { option_map nested_view state.now ≡ spellings.state_text transfer.now.state }
    ensures ok { OnOk result (out.new.items ≡ out.old.items ++ texts.described_text is.Transfer (spellings.transfer_texts transfer.now)) }
    ensures err { OnErr result (out.new.items ≡ out.old.items) }
{
    put_described(out, Descriptor::Transfer, &transfer_fields(transfer, state))
}

/// The fields of a transfer whose state is encoded.
pub(crate) fn transfer_fields<'a>(
    transfer: &'a Transfer,
    state: &'a Option<Nested>,
) -> [Field<'a>; 11]
    requires { option_map nested_view state.now ≡ spellings.state_text transfer.now.state }
    ensures { fields_view result ≡ spellings.transfer_texts transfer.now }
{
    [
        Field::Plain(Plain::Uint(transfer.handle)),
        Field::uint(transfer.delivery_id),
        Field::tag(&transfer.delivery_tag),
        Field::uint(transfer.message_format),
        Field::flag(transfer.settled),
        Field::flag(transfer.more),
        Field::ubyte(transfer.rcv_settle_mode),
        Field::nested(state),
        Field::flag(transfer.resume),
        Field::flag(transfer.aborted),
        Field::flag(transfer.batchable),
    ]
}

pub(crate) fn put_disposition(
    alloc: Global,
    out: &mut Vec<u8>,
    disposition: &Disposition,
) -> Result<(), AllocError>
    ensures ok { OnOk result (out.new.items ≡ out.old.items ++ texts.described_text is.Disposition (spellings.disposition_texts disposition.now)) }
    ensures err { OnErr result (out.new.items ≡ out.old.items) }
{
    let state = state_text(alloc, &disposition.state)?;
    put_disposition_with(out, disposition, &state)
}

/// A disposition whose state is encoded.
fn put_disposition_with<'a>(
    out: &mut Vec<u8>,
    disposition: &'a Disposition,
    state: &'a Option<Nested>,
) -> Result<(), AllocError>
    requires { option_map nested_view state.now ≡ spellings.state_text disposition.now.state }
    ensures ok { OnOk result (out.new.items ≡ out.old.items ++ texts.described_text is.Disposition (spellings.disposition_texts disposition.now)) }
    ensures err { OnErr result (out.new.items ≡ out.old.items) }
{
    let fields = [
        Field::role(disposition.role),
        Field::Plain(Plain::Uint(disposition.first)),
        Field::uint(disposition.last),
        Field::flag(disposition.settled),
        Field::nested(state),
        Field::flag(disposition.batchable),
    ];
    put_described(out, Descriptor::Disposition, &fields)
}

pub(crate) fn put_detach(
    alloc: Global,
    out: &mut Vec<u8>,
    detach: &Detach,
) -> Result<(), AllocError>
    ensures ok { OnOk result (out.new.items ≡ out.old.items ++ texts.described_text is.Detach (spellings.detach_texts detach.now)) }
    ensures err { OnErr result (out.new.items ≡ out.old.items) }
{
    let error = error_text(alloc, &detach.error)?;
    let fields = [
        Field::Plain(Plain::Uint(detach.handle)),
        Field::flag(detach.closed),
        Field::spelt(&error),
    ];
    put_described(out, Descriptor::Detach, &fields)
}

pub(crate) fn put_end(alloc: Global, out: &mut Vec<u8>, end: &End) -> Result<(), AllocError>
    ensures ok { OnOk result (out.new.items ≡ out.old.items ++ texts.described_text is.End (spellings.end_texts end.now)) }
    ensures err { OnErr result (out.new.items ≡ out.old.items) }
{
    let error = error_text(alloc, &end.error)?;
    let fields = [Field::spelt(&error)];
    put_described(out, Descriptor::End, &fields)
}

pub(crate) fn put_close(alloc: Global, out: &mut Vec<u8>, close: &Close) -> Result<(), AllocError>
    ensures ok { OnOk result (out.new.items ≡ out.old.items ++ texts.described_text is.Close (spellings.close_texts close.now)) }
    ensures err { OnErr result (out.new.items ≡ out.old.items) }
{
    let error = error_text(alloc, &close.error)?;
    let fields = [Field::spelt(&error)];
    put_described(out, Descriptor::Close, &fields)
}

pub(crate) fn put_sasl_mechanisms(
    alloc: Global,
    out: &mut Vec<u8>,
    mechanisms: &SaslMechanisms,
) -> Result<(), AllocError>
    ensures ok { OnOk result (out.new.items ≡ out.old.items ++ texts.described_text is.SaslMechanisms (spellings.sasl_mechanisms_texts mechanisms.now)) }
    ensures err { OnErr result (out.new.items ≡ out.old.items) }
{
    let mechanisms = symbols_text(alloc, &mechanisms.mechanisms)?;
    let fields = [Field::spelt(&mechanisms)];
    put_described(out, Descriptor::SaslMechanisms, &fields)
}

pub(crate) fn put_sasl_init(out: &mut Vec<u8>, init: &SaslInit) -> Result<(), AllocError>
    ensures ok { OnOk result (out.new.items ≡ out.old.items ++ texts.described_text is.SaslInit (spellings.sasl_init_texts init.now)) }
    ensures err { OnErr result (out.new.items ≡ out.old.items) }
{
    let fields = [
        Field::Plain(Plain::Symbol(init.mechanism.as_str())),
        Field::binary(&init.initial_response),
        Field::text(&init.hostname),
    ];
    put_described(out, Descriptor::SaslInit, &fields)
}

pub(crate) fn put_sasl_challenge(
    out: &mut Vec<u8>,
    challenge: &SaslChallenge,
) -> Result<(), AllocError>
    ensures ok { OnOk result (out.new.items ≡ out.old.items ++ texts.described_text is.SaslChallenge (spellings.sasl_challenge_texts challenge.now)) }
    ensures err { OnErr result (out.new.items ≡ out.old.items) }
{
    let fields = [Field::Plain(Plain::Binary(challenge.challenge.as_slice()))];
    put_described(out, Descriptor::SaslChallenge, &fields)
}

pub(crate) fn put_sasl_response(
    out: &mut Vec<u8>,
    response: &SaslResponse,
) -> Result<(), AllocError>
    ensures ok { OnOk result (out.new.items ≡ out.old.items ++ texts.described_text is.SaslResponse (spellings.sasl_response_texts response.now)) }
    ensures err { OnErr result (out.new.items ≡ out.old.items) }
{
    let fields = [Field::Plain(Plain::Binary(response.response.as_slice()))];
    put_described(out, Descriptor::SaslResponse, &fields)
}

pub(crate) fn put_sasl_outcome(out: &mut Vec<u8>, outcome: &SaslOutcome) -> Result<(), AllocError>
    ensures ok { OnOk result (out.new.items ≡ out.old.items ++ texts.described_text is.SaslOutcome (spellings.sasl_outcome_texts outcome.now)) }
    ensures err { OnErr result (out.new.items ≡ out.old.items) }
{
    let fields = [
        Field::Plain(Plain::Ubyte(outcome.code)),
        Field::binary(&outcome.additional_data),
    ];
    put_described(out, Descriptor::SaslOutcome, &fields)
}

//! Writing a performative, or a delivery state.
ghost use Rattle.std.specs.Prelude.{◌≡◌, ◌++◌, OnOk, OnErr};
ghost use Rattle.amqp_model.specs.PerfSpelling.{spelling, state_spelling};

use crate::write_perfs::{
    put_attach, put_begin, put_close, put_detach, put_disposition, put_end, put_flow, put_open,
    put_sasl_challenge, put_sasl_init, put_sasl_mechanisms, put_sasl_outcome, put_sasl_response,
    put_transfer,
};
use crate::write_states::put_state;
use amqp_model::{DeliveryState, Perf};
use std::alloc::{AllocError, Global};

/// Appends the canonical encoding of a performative: a field that has its default is null, and the nulls at the end are left
/// out (AMQP 1.0 part 1, section 1.4).
///
/// # Errors
///
/// `AllocError` where memory was refused, or a length doesn't fit in four bytes; the vector is then as it was.
#[tactic(auto, unfolding(amqp_model::specs::PerfSpelling::spelling))]
pub fn write_perf(alloc: Global, perf: &Perf, out: &mut Vec<u8>) -> Result<(), AllocError>
    ensures ok { OnOk result (out.new.items ≡ out.old.items ++ spelling perf.now) }
    ensures err { OnErr result (out.new.items ≡ out.old.items) }
{
    match perf {
        Perf::Open(open) => put_open(alloc, out, open.as_ref()),
        Perf::Begin(begin) => put_begin(alloc, out, begin.as_ref()),
        Perf::Attach(attach) => put_attach(alloc, out, attach.as_ref()),
        Perf::Flow(flow) => put_flow(out, flow),
        Perf::Transfer(transfer) => put_transfer(alloc, out, transfer),
        Perf::Disposition(disposition) => put_disposition(alloc, out, disposition),
        Perf::Detach(detach) => put_detach(alloc, out, detach),
        Perf::End(end) => put_end(alloc, out, end),
        Perf::Close(close) => put_close(alloc, out, close),
        Perf::SaslMechanisms(mechanisms) => put_sasl_mechanisms(alloc, out, mechanisms),
        Perf::SaslInit(init) => put_sasl_init(out, init),
        Perf::SaslChallenge(challenge) => put_sasl_challenge(out, challenge),
        Perf::SaslResponse(response) => put_sasl_response(out, response),
        Perf::SaslOutcome(outcome) => put_sasl_outcome(out, outcome),
    }
}

/// Appends the canonical encoding of a delivery state.
///
/// # Errors
///
/// `AllocError` where memory was refused, or a length doesn't fit in four bytes; the vector is then as it was.
pub fn write_state(
    alloc: Global,
    state: &DeliveryState,
    out: &mut Vec<u8>,
) -> Result<(), AllocError>
    ensures ok { OnOk result (out.new.items ≡ out.old.items ++ state_spelling state.now) }
    ensures err { OnErr result (out.new.items ≡ out.old.items) }
{
    put_state(alloc, out, state)
}

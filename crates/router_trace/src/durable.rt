//! Durable links.
ghost use Rattle.std.specs.Prelude.{◌≡◌};
ghost use Rattle.router_trace.specs.Durable.{outlives, is_lasting_source, is_lasting_target, is_durable};

use amqp_model::{Attach, Role, SourceTerminus, TargetTerminus};

/// The `durable` of a terminus that keeps its unsettled deliveries (AMQP 1.0 part 3, section 3.5.5).
const UNSETTLED_STATE: u32 = 2;

fn outlives(durable: u32) -> bool
    ensures { result ≡ outlives durable }
{
    durable == UNSETTLED_STATE
}

fn is_lasting_source(source: &Option<SourceTerminus>) -> bool
    ensures { result ≡ is_lasting_source source.now }
{
    match source {
        Some(SourceTerminus::Source(source)) => outlives(source.durable),
        _ => false,
    }
}

fn is_lasting_target(target: &Option<TargetTerminus>) -> bool
    ensures { result ≡ is_lasting_target target.now }
{
    match target {
        Some(TargetTerminus::Target(target)) => outlives(target.durable),
        _ => false,
    }
}

/// Whether a link is durable: the router's terminus, in this role of the router, outlives its connections.
pub fn is_durable(router: Role, attach: &Attach) -> bool
    ensures { result ≡ is_durable router attach.now }
{
    match router {
        Role::Sender => is_lasting_source(&attach.source),
        Role::Receiver => is_lasting_target(&attach.target),
    }
}

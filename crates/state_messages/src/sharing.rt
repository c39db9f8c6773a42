//! How the links of an address share its messages.
ghost use Rattle.std.specs.Prelude.{◌≡◌, List};
ghost use Rattle.router_trace.specs.Configuration.{distribution, is_multicast};
ghost use Rattle.router_trace.specs.Trace.{Entry};
ghost use Rattle.state_messages.specs.Fits.{MessagesFit};

use crate::messages::Messages;
use route_table::Distribution;

impl Messages {
    /// Whether each message of an address goes to every consumer.
    pub fn is_multicast(&self, address: &str) -> bool
        ensures { (t : List Entry) → MessagesFit self.now t → result ≡ is_multicast (distribution t address.now) }
    {
        is_multicast(self.pools.distribution(address))
    }
}

/// Whether a message goes to every consumer.
fn is_multicast(distribution: Distribution) -> bool
    ensures { result ≡ is_multicast distribution }
{
    match distribution {
        Distribution::Multicast => true,
        Distribution::Balanced | Distribution::Closest => false,
    }
}

//! What producers are granted for the deliveries that they may resume.
ghost use Rattle.std.specs.Prelude.{◌≡◌, ◌+◌, ◌-◌, ℕ, List, nat_lt, if◌then◌else◌};
ghost use Rattle.route_table.specs.declared.sections.Distribution.{Distribution};
ghost use Rattle.router_trace.specs.Links.{Link as View};
ghost use Rattle.state_links.specs.Ends.{link_of};
ghost use Rattle.state_messages.specs.Figures.{owed_by};
ghost use Rattle.state_messages.specs.Fits.{ShareAs};

use route_table::Distribution;
use state_links::Link;
use state_pools::Pools;

/// The unused credit that a producer on a multicast address has after a grant.
const FULL: u32 = 64;

/// What a producer's link is still to be granted for what is due. The pools are asked how its address is shared only if
/// something is due.
pub(crate) fn owed(pools: &Pools, link: &Link) -> u32
    ensures { (share : List ℕ → Distribution) (l : View) → ShareAs pools.now share → link.now ≡ link_of l → result ≡ owed_by (share l.address) l.owes_due }
{
    if link.owes_due == 0 {
        return 0;
    }
    owed_by(pools.distribution(link.address.as_str()), link.owes_due)
}

/// What is granted for what is due, if the address is shared so.
fn owed_by(distribution: Distribution, due: u32) -> u32
    ensures { result ≡ owed_by distribution due }
{
    match distribution {
        Distribution::Balanced | Distribution::Closest => due,
        Distribution::Multicast => topped_up(due),
    }
}

/// What is due, topped up to 64 if it is less; nothing if nothing is due.
fn topped_up(due: u32) -> u32
    ensures { result ≡ (if nat_lt 0 due then due + (64 - due) else 0) }
{
    if due == 0 {
        return 0;
    }
    due.max(FULL)
}

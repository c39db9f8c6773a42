//! What each link offers and wants.
ghost use Rattle.std.specs.Prelude.{◌≡◌, ◌+◌, ◌||◌, ℕ, List, Option, Some, OnOk, IfOk};
ghost use Rattle.router_trace.specs.Configuration.{distribution};
ghost use Rattle.router_trace.specs.Trace.{Entry};
ghost use Rattle.router_trace.specs.Links.{Link as View};
ghost use Rattle.state_links.specs.Ends.{link_of};
ghost use Rattle.state_links.specs.Fits.{LinksFit};
ghost use Rattle.state_links.specs.Looking.{credit_on};
ghost use Rattle.state_deliveries.specs.Fits.{DeliveriesFit};
ghost use Rattle.state_messages.specs.Fits.{IsTold};
ghost use Rattle.state_messages.specs.Figures.{figure, figure_by, free_of, lacks_rows, unused_by};

use crate::due::owed;
use state_deliveries::Deliveries;
use state_links::{Link, Links};
use state_pools::Pools;
use std::alloc::AllocError;

/// The most undecided deliveries that a link may have at once.
const UNDECIDED: u64 = 64;

/// Tells the pools what a link has now.
pub(crate) fn tell(
    pools: &mut Pools,
    links: &Links,
    deliveries: &Deliveries,
    number: u64,
) -> Result<(), AllocError>
    ensures { OnOk result ((t : List Entry) → LinksFit links.now t → DeliveriesFit deliveries.now t → IsTold (distribution t) pools.old pools.new number (figure t number)) }
{
    match links.by_number(number) {
        None => pools.leave(number)?,
        Some(link) => tell_link(pools, deliveries, number, link)?,
    }
    Ok(())
}

/// Tells the pools what this link has now.
fn tell_link(
    pools: &mut Pools,
    deliveries: &Deliveries,
    number: u64,
    link: &Link,
) -> Result<(), AllocError>
    ensures { OnOk result ((t : List Entry) (l : View) → link.now ≡ link_of l → l.number ≡ number → DeliveriesFit deliveries.now t
        → IsTold (distribution t) pools.old pools.new number (Some (figure_by t l l.happened))) }
{
    let address = link.address.as_str();
    if link.is_consumer() {
        let undecided = deliveries.undecided(number) as u64;
        let free = free(link, deliveries.waiting(number) as u64, undecided);
        pools.offer(number, address, free, undecided)?;
        return Ok(());
    }
    let granted = unused(link)?;
    let owed = owed(pools, link);
    let unused = with_owed(granted, owed)?;
    let due = small(link.due.len())?;
    let held = small(deliveries.held(number))?;
    pools.want(number, address, unused, due, held)?;
    Ok(())
}

/// The number in 32 bits.
fn small(count: usize) -> Result<u32, AllocError>
    ensures { IfOk result (λ small. small ≡ count) }
{
    match u32::try_from(count) {
        Ok(small) => Ok(small),
        Err(_) => Err(AllocError),
    }
}

/// The free credit of a consumer's link with this many waiting and undecided deliveries.
fn free(link: &Link, waiting: u64, undecided: u64) -> u64
    ensures { (l : View) → link.now ≡ link_of l → result ≡ free_of (l.drains || lacks_rows l) (credit_on l.happened) waiting undecided }
{
    if link.drains || lacks_rows(link) {
        return 0;
    }
    let left = u64::from(link.credit()).saturating_sub(waiting);
    left.min(UNDECIDED.saturating_sub(undecided))
}

/// Whether the attach of a durable link says that its map is incomplete.
fn lacks_rows(link: &Link) -> bool
    ensures { (l : View) → link.now ≡ link_of l → result ≡ lacks_rows l }
{
    link.durable && link.incomplete
}

/// Unused credit with this much that a link is still to be granted.
fn with_owed(unused: u32, owed: u32) -> Result<u32, AllocError>
    ensures { IfOk result (λ sum. sum ≡ unused + owed) }
{
    match unused.checked_add(owed) {
        Some(sum) => Ok(sum),
        None => Err(AllocError),
    }
}

/// The unused credit of a producer's link, plus one for a delivery in the middle.
fn unused(link: &Link) -> Result<u32, AllocError>
    ensures { IfOk result (λ unused. (l : View) → link.now ≡ link_of l → unused ≡ unused_by l.happened) }
{
    if !link.is_in_middle() {
        return Ok(link.unused());
    }
    match link.unused().checked_add(1) {
        Some(unused) => Ok(unused),
        None => Err(AllocError),
    }
}

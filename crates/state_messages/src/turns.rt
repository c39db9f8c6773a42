//! Whose turn it is to be granted credit: the producers of an address, or the newest link if it is owed some.
ghost use Rattle.std.specs.Prelude.{◌≡◌, ℕ, List, Option, Some, is_some, option_map};
ghost use Rattle.route_credit.specs.Links.{link_at};
ghost use Rattle.route_credit.specs.Pool.{by_id};
ghost use Rattle.router_trace.specs.Links.{Link as View};
ghost use Rattle.router_trace.specs.Trace.{Entry};
ghost use Rattle.state_links.specs.Ends.{link_of};
ghost use Rattle.state_links.specs.Fits.{LinksFit};
ghost use Rattle.state_messages.specs.Messages.{owed_at};
ghost use Rattle.state_messages.specs.Turns.{first_link, order_of, place_in, whose_turn};

use route_credit::ProducerId;
use state_links::{Link, Links};
use std::cmp::Ordering;

/// The order, in bytes, of two addresses: that of these sums, and that where the newest link is owed credit for what is
/// due. The sums come first if it is owed none, and it comes first if there are no sums.
pub(crate) fn whose_turn(links: &Links, newest: u64, sums: &[(ProducerId, u32)]) -> Ordering
    ensures { (t : List Entry) → LinksFit links.now t → result ≡ whose_turn t newest (by_id sums.now) }
{
    match links.by_number(newest) {
        None => Ordering::Less,
        Some(link) => order_with(links, link, sums),
    }
}

/// The same for this link, the newest.
fn order_with(links: &Links, newest: &Link, sums: &[(ProducerId, u32)]) -> Ordering
    ensures { (t : List Entry) (l : View) → LinksFit links.now t → newest.now ≡ link_of l → result ≡ order_of (owed_at (Some l)) (place_in (first_link t (by_id sums.now))) }
{
    if newest.owes_due == 0 {
        return Ordering::Less;
    }
    match first_link(links, sums) {
        None => Ordering::Greater,
        Some(first) => first.address.as_str().cmp(newest.address.as_str()),
    }
}

/// The link of the first of these sums.
fn first_link<'a>(links: &'a Links, sums: &[(ProducerId, u32)]) -> Option<&'a Link>
    ensures { (t : List Entry) → LinksFit links.now t → option_map (λ l. l.now) result ≡ option_map link_of (first_link t (by_id sums.now)) }
{
    match sums.first() {
        None => None,
        Some(sum) => links.by_number(sum.0.0),
    }
}

/// Whether a producer's link is among these sums.
pub(crate) fn is_among(sums: &[(ProducerId, u32)], number: u64) -> bool
    ensures { result ≡ is_some (link_at (by_id sums.now) number) }
{
    for sum in sums {
        if number == sum.0.0 {
            return true;
        }
    }
    false
}

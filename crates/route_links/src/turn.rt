//! The turn of a transfer: it waits, goes whole, or goes in pieces.
ghost use Rattle.std.specs.Prelude.{◌≡◌, Some, None, if◌then◌else◌, IfOk, IfErr};
ghost use Rattle.route_links.specs.Parts.{starts};
ghost use Rattle.route_links.specs.Turns.{held_back, id_at, stays, goes, released, released_as, named};

use crate::allowed::{Allowed, Stop, Turn};
use crate::cut::{Carried, Cut, cut_to};
use crate::middle::Middle;
use crate::passing::Passing;
use std::alloc::{AllocError, Global};

/// What a transfer's turn comes to.
#[derive(Debug, Drop)]
pub(crate) struct Released {
    /// What is answered.
    pub(crate) turn: Turn,
    /// What is left of the transfer.
    pub(crate) left: Option<Passing>,
    /// The delivery in the middle then.
    pub(crate) went: Middle,
}

/// What the turn of this transfer comes to, which goes out on this handle behind the delivery in the middle. An error, which tells that
/// memory was refused, gives it back.
pub(crate) fn release_transfer(
    alloc: Global,
    allowed: &Allowed,
    handle: u32,
    went: Middle,
    mut carried: Carried,
) -> Result<Released, Carried>
    ensures released { IfOk result (λ r. r ≡ released allowed.now handle went carried) }
    ensures err { IfErr result (λ same. same ≡ carried) }
{
    if let Some(stop) = held_back(allowed, went) {
        return Ok(stays(stop, went, carried));
    }
    let came_on = carried.transfer.handle;
    let came_as = carried.transfer.delivery_id;
    carried.transfer.handle = handle;
    carried.transfer.delivery_id = id_at(allowed, went);
    match cut_to(alloc, allowed.largest, carried) {
        Ok(Cut::Whole(whole)) => Ok(goes(went, whole, None)),
        Ok(Cut::Pieces(piece, rest)) => Ok(goes(went, piece, Some(Passing::of_carried(rest)))),
        Ok(Cut::TooLarge(mut carried)) => {
            carried.transfer.handle = came_on;
            carried.transfer.delivery_id = came_as;
            Ok(stays(Stop::TooLarge, went, carried))
        }
        Err(mut carried) => {
            carried.transfer.handle = came_on;
            carried.transfer.delivery_id = came_as;
            Err(carried)
        }
    }
}

/// Why no transfer goes behind this delivery in the middle, however small it is.
fn held_back(allowed: &Allowed, went: Middle) -> Option<Stop>
    ensures { result ≡ held_back allowed.now went }
{
    if allowed.window == 0 {
        return Some(Stop::Window);
    }
    if went.starts() && allowed.credit == 0 {
        return Some(Stop::Credit);
    }
    if went.starts() && allowed.free_ids == 0 {
        return Some(Stop::Id);
    }
    None
}

/// The delivery-id of the next transfer: that of a start, and none of a later one.
fn id_at(allowed: &Allowed, went: Middle) -> Option<u32>
    ensures { result ≡ id_at allowed.now went }
{
    if went.starts() {
        Some(allowed.next_id.number())
    } else {
        None
    }
}

/// A transfer that stays.
fn stays(stop: Stop, went: Middle, carried: Carried) -> Released
    ensures { result ≡ stays stop went carried }
{
    Released {
        turn: Turn::Stopped(stop),
        left: Some(Passing::of_carried(carried)),
        went,
    }
}

/// A transfer that goes, and what is left of it.
fn goes(went: Middle, carried: Carried, left: Option<Passing>) -> Released
    ensures { result ≡ goes went carried left }
{
    let behind = went.after_transfer(&carried.transfer);
    Released {
        turn: Turn::Passed(Passing::of_carried(carried)),
        left,
        went: behind,
    }
}

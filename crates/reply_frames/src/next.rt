//! The next frame of a delivery: all that remains to be sent, or as much as the peer accepts.
ghost use Rattle.std.specs.Prelude.{◌≡◌, ◌≤◌, ℕ, List, length, take, drop, IfOk};
ghost use Rattle.amqp_model.specs.Room.{transfer_frame};
ghost use Rattle.router_trace.specs.LinkFrames.{fits};
ghost use Rattle.router_trace.specs.Numbers.{most_of};
ghost use Rattle.router_trace.specs.DeliveryFrames.{next_frame, part_frame, with_more};

use amqp_frames::transfer_room;
use amqp_model::{Item, Perf, Transfer};
use bytes::Bytes;
use std::alloc::{AllocError, Global};

/// The next frame of a delivery, of which this many payload bytes were sent: `next_frame` with the bytes after them.
///
/// # Errors
///
/// `AllocError` if memory was refused.
pub fn delivery_frame(
    alloc: Global,
    largest: u32,
    own: u16,
    transfer: Transfer,
    payload: &Bytes,
    sent: u64,
) -> Result<Item, AllocError>
    ensures { IfOk result (λ item. item ≡ next_frame largest own transfer (drop sent payload.now)) }
{
    let start = payload.len().min(sent as usize);
    let rest = payload.slice(start..)?;
    next_frame(alloc, largest, own, transfer, &rest)
}

/// A frame with this transfer, on the router's channel `own`. It carries the whole rest if the peer accepts a frame that long; else as many
/// bytes of it as fit, and says that more is to come (AMQP 1.0 part 2, section 2.7.5). The rest is shared, not copied.
///
/// # Errors
///
/// `AllocError` if memory was refused.
pub fn next_frame(
    alloc: Global,
    largest: u32,
    own: u16,
    mut transfer: Transfer,
    rest: &Bytes,
) -> Result<Item, AllocError>
    ensures { IfOk result (λ item. item ≡ next_frame largest own transfer rest.now) }
{
    if takes(alloc, largest, &transfer, rest)? {
        return Ok(transfer_frame(own, transfer, rest.clone()?));
    }
    transfer.more = true;
    let part = filling(alloc, largest, &transfer, rest)?;
    Ok(transfer_frame(own, transfer, part))
}

/// Whether a frame with this transfer and the whole rest has at most `largest` bytes.
fn takes(alloc: Global, largest: u32, transfer: &Transfer, rest: &Bytes) -> Result<bool, AllocError>
    ensures { IfOk result (λ taken. (own : ℕ) → taken ≡ fits largest (transfer_frame own transfer.now rest.now)) }
{
    match transfer_room(alloc, transfer, largest)? {
        None => Ok(false),
        Some(room) => Ok(rest.len() <= room),
    }
}

/// The first bytes of the rest, as many as a frame with this transfer of at most `largest` bytes has room for.
fn filling(
    alloc: Global,
    largest: u32,
    transfer: &Transfer,
    rest: &Bytes,
) -> Result<Bytes, AllocError>
    ensures { IfOk result (λ part. (own : ℕ) → part ≡ take (most_of (length rest.now) (λ n. fits largest (transfer_frame own transfer.now (take n rest.now)))) rest.now) }
{
    let count = room_for(alloc, largest, transfer, rest)?;
    Ok(rest.slice(..count)?)
}

/// How many bytes of the rest a frame with this transfer, of at most `largest` bytes, has room for.
fn room_for(
    alloc: Global,
    largest: u32,
    transfer: &Transfer,
    rest: &Bytes,
) -> Result<usize, AllocError>
    ensures count { IfOk result (λ count. (own : ℕ) → count ≡ most_of (length rest.now) (λ n. fits largest (transfer_frame own transfer.now (take n rest.now)))) }
    ensures within { IfOk result (λ count. count ≤ length rest.now) }
{
    match transfer_room(alloc, transfer, largest)? {
        None => Ok(0),
        Some(room) => Ok(room.min(rest.len())),
    }
}

/// A transfer with its payload, on a channel.
fn transfer_frame(own: u16, transfer: Transfer, payload: Bytes) -> Item
    ensures { result ≡ transfer_frame own transfer payload }
{
    Item::Frame {
        sasl: false,
        channel: own,
        perf: Perf::Transfer(transfer),
        payload,
    }
}

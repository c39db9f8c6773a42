//! Gathers the bytes of an item that comes in several pieces.
ghost use Rattle.std.specs.Prelude.{◌≡◌, ◌≤◌, ◌++◌, ◌⊎◌, max, length, take, [], IfOk, OnOk, vec_len};
ghost use Rattle.amqp_frames.specs.Contract.{IsGathered};
ghost use Rattle.amqp_frames.specs.Extents.{extent};
ghost use Rattle.amqp_frames.specs.Frames.{front, more};

use crate::extent::{Extent, MIN_SIZE, extent_of};
use std::alloc::AllocError;

/// Appends to the beginning of an item what the piece has of it, and gives the bytes after that. Room for all of the
/// item is made as soon as its first bytes show the size, so that the bytes after those are never moved again.
#[tactic(auto, using(crate::proofs::Sizes::unknown_below, crate::proofs::Gathers::whole_gathered))]
pub(crate) fn gather_item<'a>(buffer: &mut Vec<u8>, piece: &'a [u8]) -> Result<&'a [u8], AllocError>
    requires { front buffer.old.items ≡ more }
    ensures joined { IfOk result (λ behind. buffer.new.items ++ behind.now ≡ buffer.old.items ++ piece.now) }
    ensures gathered { IfOk result (λ behind. IsGathered (extent buffer.new.items) buffer.new.items behind.now) }
    ensures kept { take (length buffer.old.items) buffer.new.items ≡ buffer.old.items }
{
    let behind = gather(buffer, MIN_SIZE, piece)?;
    match extent_of(buffer.as_slice()) {
        Extent::Whole(size) => gather(buffer, size, behind),
        Extent::Unknown | Extent::Wrong(_) => Ok(behind),
    }
}

/// Appends bytes of the piece until there are this many, and gives the bytes after those.
fn gather<'a>(buffer: &mut Vec<u8>, size: usize, piece: &'a [u8]) -> Result<&'a [u8], AllocError>
    ensures joined { IfOk result (λ behind. buffer.new.items ++ behind.now ≡ buffer.old.items ++ piece.now) }
    ensures filled { IfOk result (λ behind. (size ≤ length buffer.new.items) ⊎ (behind.now ≡ [])) }
    ensures within { length buffer.new.items ≤ max (length buffer.old.items) size }
    ensures kept { take (length buffer.old.items) buffer.new.items ≡ buffer.old.items }
{
    let lacking = size.saturating_sub(buffer.len());
    let (own, behind) = piece.split_at(lacking.min(piece.len()));
    if own.is_empty() {
        return Ok(behind);
    }
    buffer.reserve_exact(lacking)?;
    buffer.extend_from_slice(own)?;
    Ok(behind)
}

//! How a transfer is cut into frames that the peer takes (AMQP 1.0 part 2, section 2.7.5).
ghost use Rattle.std.specs.Prelude.{◌≡◌, ◌-◌, nat_le, if◌then◌else◌, [], take, drop, Some, None, is_some, IfOk, IfErr, OnErr};
ghost use Rattle.route_links.specs.Cutting.{size, later, goes_whole, cut_of, pieces_of};

use amqp_frames::transfer_room;
use amqp_model::Transfer;
use bytes::Bytes;
use std::alloc::{AllocError, Global};

/// A transfer with its payload.
#[derive(Debug, Drop)]
pub(crate) struct Carried {
    /// Its fields.
    pub(crate) transfer: Transfer,
    /// Its payload.
    pub(crate) payload: Bytes,
}

/// What becomes of a transfer whose turn it is.
#[derive(Debug, Drop)]
pub(crate) enum Cut {
    /// It goes whole.
    Whole(Carried),
    /// The first goes, and the second is left of it.
    Pieces(Carried, Carried),
    /// Even without payload it is larger than a frame may be.
    TooLarge(Carried),
}

/// What becomes of this transfer where a frame may have at most `largest` bytes. Its payload is shared, not copied. An error, which
/// tells that memory was refused, gives it back.
pub(crate) fn cut_to(alloc: Global, largest: u32, carried: Carried) -> Result<Cut, Carried>
    ensures cut { IfOk result (λ cut. cut ≡ cut_of largest carried) }
    ensures err { IfErr result (λ same. same ≡ carried) }
{
    match fits(alloc, largest, &carried.transfer, &carried.payload) {
        Err(AllocError) => Err(carried),
        Ok(true) => Ok(Cut::Whole(carried)),
        Ok(false) => pieces(alloc, largest, carried),
    }
}

/// What becomes of a transfer that doesn't go whole. An error gives it back.
fn pieces(alloc: Global, largest: u32, carried: Carried) -> Result<Cut, Carried>
    ensures pieces { IfOk result (λ cut. cut ≡ pieces_of largest carried) }
    ensures err { IfErr result (λ same. same ≡ carried) }
{
    let Carried {
        mut transfer,
        mut payload,
    } = carried;
    let rest = later(&transfer);
    transfer.more = true;
    transfer.aborted = false;
    match split(alloc, largest, &transfer, &mut payload) {
        Ok(Some(front)) => Ok(Cut::Pieces(
            Carried {
                transfer,
                payload: front,
            },
            Carried {
                transfer: rest,
                payload,
            },
        )),
        Ok(None) => {
            transfer.more = rest.more;
            transfer.aborted = rest.aborted;
            Ok(Cut::TooLarge(Carried { transfer, payload }))
        }
        Err(AllocError) => {
            transfer.more = rest.more;
            transfer.aborted = rest.aborted;
            Err(Carried { transfer, payload })
        }
    }
}

/// The transfer of what is left of this one behind its first piece: it says what every transfer says, and nothing else.
fn later(transfer: &Transfer) -> Transfer
    ensures { result ≡ later transfer.now }
{
    Transfer {
        handle: transfer.handle,
        delivery_id: None,
        delivery_tag: None,
        message_format: None,
        settled: transfer.settled,
        more: transfer.more,
        rcv_settle_mode: None,
        state: None,
        resume: false,
        aborted: transfer.aborted,
        batchable: false,
    }
}

/// Splits off the bytes for which a frame with this transfer has room; none where it has none even without payload.
#[tactic(auto, using(crate::proofs::Rooms::taken, crate::proofs::Rooms::dropped))]
fn split(
    alloc: Global,
    largest: u32,
    transfer: &Transfer,
    payload: &mut Bytes,
) -> Result<Option<Bytes>, AllocError>
    ensures front { IfOk result (λ front. front ≡ (if nat_le (size transfer.now []) largest then Some (take (largest - size transfer.now []) payload.old) else None)) }
    ensures rest { IfOk result (λ front. payload.new ≡ (if is_some front then drop (largest - size transfer.now []) payload.old else payload.old)) }
    ensures err { OnErr result (payload.new ≡ payload.old) }
{
    match room(alloc, largest, transfer)? {
        None => Ok(None),
        Some(room) => {
            let count = room.min(payload.len());
            Ok(Some(payload.split_to(count)?))
        }
    }
}

/// The payload, in bytes, for which a frame with this transfer has room; none where it has none even without payload.
fn room(alloc: Global, largest: u32, transfer: &Transfer) -> Result<Option<usize>, AllocError>
    ensures { IfOk result (λ room. room ≡ (if nat_le (size transfer.now []) largest then Some (largest - size transfer.now []) else None)) }
{
    Ok(transfer_room(alloc, transfer, largest)?)
}

/// Whether a frame with this transfer and this payload has at most `largest` bytes.
fn fits(
    alloc: Global,
    largest: u32,
    transfer: &Transfer,
    payload: &Bytes,
) -> Result<bool, AllocError>
    ensures { IfOk result (λ fits. fits ≡ goes_whole largest transfer.now payload.now) }
{
    match transfer_room(alloc, transfer, largest)? {
        None => Ok(false),
        Some(room) => Ok(payload.len() <= room),
    }
}

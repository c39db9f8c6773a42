//! Reads a stream that comes in pieces.
ghost use Rattle.std.specs.Prelude.{◌≡◌, ◌≤◌, ◌⊎◌, ◌↔◌, ◌++◌, List, [], ◌∷◌, length, take, drop, true, false, IsTrue, IfOk, IfErr, OnErr};
ghost use Rattle.amqp_frames.specs.Contract.{loaded};
ghost use Rattle.amqp_frames.specs.Cuts.{Cuts};
ghost use Rattle.amqp_frames.specs.Frames.{front, more};
ghost use Rattle.amqp_model.specs.declared.item.Item.{Item as AnItem};

use crate::cut::cut;
use crate::extent::{Extent, extent_of};
use crate::gather::gather_item;
use crate::read::{load, read_item};
use amqp_model::{FrameFault, Item};
use bytes::Bytes;
use std::alloc::{AllocError, AllocFailed, Global};
use std::marker::Model;
use std::mem;

/// Reads the items of a stream that comes in pieces. A contract sees the bytes after the items that it gave, and
/// whether it takes no more.
#[derive(Drop)]
pub struct FrameReader {
    alloc: Global,
    buffer: Vec<u8>,
    failed: bool,
}

impl Model for FrameReader {
    ghost use Rattle.std.specs.Prelude.{◌≡◌, false};
    ghost use Rattle.amqp_frames.specs.Cuts.{Stream};
    ghost use Rattle.amqp_frames.specs.Frames.{front, more};

    ghost Value = { Stream };

    ghost view = { λ r. record { rest = r.buffer.items; failed = r.failed } };

    ghost invariant = { λ r. r.failed ≡ false → front r.buffer.items ≡ more };
}

impl FrameReader {
    /// A reader at the beginning of a stream.
    #[tactic(auto, using(crate::proofs::Steps::front_nothing))]
    pub fn new(alloc: Global) -> FrameReader
        ensures rest { result.rest ≡ [] }
        ensures failed { result.failed ≡ false }
    {
        FrameReader {
            alloc,
            buffer: Vec::new(alloc),
            failed: false,
        }
    }

    /// Takes the next piece, and gives the items that it completes. A `Bad` is the last item of a stream: it is
    /// given as soon as the bytes that show it have come.
    ///
    /// # Errors
    ///
    /// `Memory` where memory was refused; `Failed` after a `Bad` or a `Memory`. Nothing of the piece was taken then.
    pub fn feed(&mut self, piece: &[u8]) -> Result<Vec<Item>, FrameFault>
        ensures cut { IfOk result (λ items. Cuts self.new.failed (self.old.rest ++ piece.now) items.items self.new.rest) }
        ensures failed { (result ≡ Err FrameFault.Failed) ↔ IsTrue self.old.failed }
        ensures faults { IfErr result (λ fault. (fault ≡ FrameFault.Memory) ⊎ (fault ≡ FrameFault.Failed)) }
        ensures err { OnErr result ((self.new.rest ≡ self.old.rest) × (self.new.failed ≡ true)) }
    {
        if self.failed {
            return Err(FrameFault::Failed);
        }
        let kept = self.buffer.len();
        match take_in(self.alloc, &mut self.buffer, piece) {
            Ok((items, ended)) => {
                self.failed = ended;
                Ok(items)
            }
            Err(_) => {
                self.buffer.truncate(kept);
                self.failed = true;
                Err(FrameFault::Memory)
            }
        }
    }

    /// The bytes after the items that were given: less than an item, or the bytes from a `Bad` on.
    pub fn rest(&self) -> &[u8]
        ensures { result.now ≡ self.now.rest }
    {
        self.buffer.as_slice()
    }
}

/// Cuts the buffer, which holds less than an item, and the piece into items, and leaves the rest in the buffer. Gives
/// whether the last item is a `Bad`. An error leaves the buffer's bytes, with more after them.
#[tactic(auto, using(crate::proofs::Steps::cut_item))]
fn take_in(
    alloc: Global,
    buffer: &mut Vec<u8>,
    piece: &[u8],
) -> Result<(Vec<Item>, bool), AllocError>
    requires { front buffer.old.items ≡ more }
    ensures cut { IfOk result (λ taken. Cuts taken.1 (buffer.old.items ++ piece.now) taken.0.items buffer.new.items) }
    ensures kept { OnErr result (take (length buffer.old.items) buffer.new.items ≡ buffer.old.items) }
{
    let behind = gather_item(buffer, piece)?;
    match extent_of(buffer.as_slice()) {
        Extent::Unknown => Ok((Vec::new(alloc), false)),
        Extent::Wrong(fault) => take_fault(alloc, buffer, fault, behind),
        Extent::Whole(size) if buffer.len() < size => Ok((Vec::new(alloc), false)),
        Extent::Whole(_) => match read_item(alloc, buffer.as_slice()) {
            Ok((item, payload_at)) => take_item(alloc, buffer, item, payload_at, behind),
            Err(FrameFault::Memory) => Err(AllocError),
            Err(fault) => take_fault(alloc, buffer, fault, behind),
        },
    }
}

/// The buffer begins no item: all that has come stays.
fn take_fault(
    alloc: Global,
    buffer: &mut Vec<u8>,
    fault: FrameFault,
    behind: &[u8],
) -> Result<(Vec<Item>, bool), AllocError>
    ensures items { IfOk result (λ taken. (taken.0.items ≡ AnItem.Bad fault ∷ []) × (taken.1 ≡ true)) }
    ensures rest { IfOk result (λ taken. buffer.new.items ≡ buffer.old.items ++ behind.now) }
    ensures err { OnErr result (buffer.new.items ≡ buffer.old.items) }
{
    let mut items = Vec::new(alloc);
    items.push(Item::Bad(fault))?;
    buffer.extend_from_slice(behind)?;
    Ok((items, true))
}

/// The buffer is the bytes of this item, whose payload begins at a place in it. Gives the item and the items
/// after it.
fn take_item(
    alloc: Global,
    buffer: &mut Vec<u8>,
    item: Item,
    payload_at: usize,
    behind: &[u8],
) -> Result<(Vec<Item>, bool), AllocError>
    requires { payload_at ≤ length buffer.old.items }
    ensures cut { IfOk result (λ taken. (others : List AnItem) × (taken.0.items ≡ loaded item (drop payload_at buffer.old.items) ∷ others) × Cuts taken.1 behind.now others buffer.new.items) }
    ensures err { OnErr result (buffer.new.items ≡ buffer.old.items) }
{
    match cut_behind(alloc, behind) {
        Ok((mut items, ended, rest)) => {
            // Only one step can still fail: that the item's payload takes the buffer.
            let loaded = share(buffer, rest, item, payload_at)?;
            drop(mem::replace(&mut items[0], loaded));
            Ok((items, ended))
        }
        Err(fault) => {
            drop(item);
            Err(fault)
        }
    }
}

/// The items of these bytes, after a slot for the item before them; whether they end in a `Bad`; and the rest.
fn cut_behind(alloc: Global, behind: &[u8]) -> Result<(Vec<Item>, bool, Vec<u8>), AllocError>
    ensures { IfOk result (λ found. (others : List AnItem) × (found.0.items ≡ AnItem.Beat 0 ∷ others) × Cuts found.1 behind.now others found.2.items) }
{
    let mut items = Vec::new(alloc);
    items.push(Item::Beat { channel: 0 })?;
    let (ended, rest) = cut(alloc, &mut items, behind)?;
    let rest = keep(alloc, rest)?;
    Ok((items, ended, rest))
}

/// These bytes in a buffer of their own, which has room for the item that they begin.
#[tactic(auto, using(crate::proofs::Steps::front_nothing))]
fn keep(alloc: Global, rest: &[u8]) -> Result<Vec<u8>, AllocError>
    ensures { IfOk result (λ kept. kept.items ≡ rest.now) }
{
    let mut buffer = Vec::new(alloc);
    let behind = gather_item(&mut buffer, rest)?;
    buffer.extend_from_slice(behind)?;
    Ok(buffer)
}

/// Puts the rest into the buffer. The buffer's old bytes become the item's payload, from the place on, without a copy.
fn share(
    buffer: &mut Vec<u8>,
    rest: Vec<u8>,
    item: Item,
    payload_at: usize,
) -> Result<Item, AllocError>
    requires { payload_at ≤ length buffer.old.items }
    ensures item { IfOk result (λ shared. shared ≡ loaded item (drop payload_at buffer.old.items)) }
    ensures rest { IfOk result (λ shared. buffer.new.items ≡ rest.items) }
    ensures err { OnErr result (buffer.new.items ≡ buffer.old.items) }
{
    if payload_at == buffer.len() {
        *buffer = rest;
        return Ok(load(item, Bytes::new()));
    }
    match Bytes::from_vec(mem::replace(buffer, rest)) {
        Ok(mut payload) => {
            payload.advance(payload_at);
            Ok(load(item, payload))
        }
        Err(AllocFailed { value }) => {
            *buffer = value;
            drop(item);
            Err(AllocError)
        }
    }
}

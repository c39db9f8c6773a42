//! Cuts bytes into the items at their front.
ghost use Rattle.std.specs.Prelude.{◌≡◌, ◌++◌, List, IfOk};
ghost use Rattle.amqp_frames.specs.Contract.{next_front, IsShorter};
ghost use Rattle.amqp_frames.specs.Cuts.{Cuts};
ghost use Rattle.amqp_frames.specs.Frames.{front};
ghost use Rattle.amqp_model.specs.declared.item.Item.{Item as AnItem};

use crate::extent::{Extent, extent_of};
use crate::read::{load, read_item};
use amqp_model::{FrameFault, Item};
use bytes::Bytes;
use std::alloc::{AllocError, Global};

/// What stands at the front of some bytes.
#[derive(Drop)]
pub(crate) enum Next<'a> {
    /// Less than an item.
    More,
    /// An item, and the bytes after it.
    Found(Item, &'a [u8]),
    /// Bytes that begin no item.
    Wrong(FrameFault),
}

/// What stands at the front of these bytes. A payload is copied.
#[tactic(auto, using(crate::proofs::Fronts::front_unknown, crate::proofs::Fronts::front_wrong, crate::proofs::Fronts::front_short, crate::proofs::Fronts::front_item, crate::proofs::Fronts::front_fault, crate::proofs::Fronts::behind_shorter))]
pub(crate) fn next_item(alloc: Global, bytes: &[u8]) -> Result<Next<'_>, AllocError>
    ensures front { IfOk result (λ next. front bytes.now ≡ next_front next) }
    ensures shorter { IfOk result (λ next. IsShorter next bytes.now) }
{
    match extent_of(bytes) {
        Extent::Unknown => Ok(Next::More),
        Extent::Wrong(fault) => Ok(Next::Wrong(fault)),
        Extent::Whole(size) if bytes.len() < size => Ok(Next::More),
        Extent::Whole(size) => {
            let (text, after) = bytes.split_at(size);
            match read_item(alloc, text) {
                Ok((item, at)) => {
                    match Bytes::copy_from_slice(alloc, &text[at..]) {
                        Ok(payload) => Ok(Next::Found(load(item, payload), after)),
                        Err(fault) => {
                            drop(item);
                            Err(fault)
                        }
                    }
                }
                Err(FrameFault::Memory) => Err(AllocError),
                Err(fault) => Ok(Next::Wrong(fault)),
            }
        }
    }
}

/// Adds the items at the front of these bytes. Gives whether the bytes after them begin no item, and those bytes.
pub(crate) fn cut<'a>(
    alloc: Global,
    items: &mut Vec<Item>,
    bytes: &'a [u8],
) -> Result<(bool, &'a [u8]), AllocError>
    ensures { IfOk result (λ cut. (more : List AnItem) × (items.new.items ≡ items.old.items ++ more) × Cuts cut.0 bytes.now more cut.1.now) }
{
    let mut rest = bytes;
    loop {
        match next_item(alloc, rest)? {
            Next::More => return Ok((false, rest)),
            Next::Found(item, after) => {
                items.push(item)?;
                rest = after;
            }
            Next::Wrong(fault) => {
                items.push(Item::Bad(fault))?;
                return Ok((true, rest));
            }
        }
    }
}

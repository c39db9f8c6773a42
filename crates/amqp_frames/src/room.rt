//! How long items are, and how much a frame has room for.
ghost use Rattle.std.specs.Prelude.{◌≡◌, ◌≤◌, ◌↔◌, ℕ, List, length, is_none, true, IfOk, IsOk};
ghost use Rattle.amqp_model.specs.declared.perf.Perf.TheVariants as perf;
ghost use Rattle.amqp_model.specs.ItemSpelling.{item_spelling};
ghost use Rattle.amqp_model.specs.Room.{transfer_frame, FitsInto};

use crate::extent::MIN_SIZE;
use crate::write::write_item;
use amqp_model::{Item, Transfer};
use amqp_perf::transfer_len;
use std::alloc::{AllocError, Global};

/// How many bytes `write_item` writes for an item: 0 for a `Bad`. It writes them to count them, so use it for rare frames.
///
/// # Errors
///
/// `AllocError` where memory was refused, and for a frame whose size doesn't fit its four bytes.
pub fn item_len(alloc: Global, item: &Item) -> Result<usize, AllocError>
    ensures { IfOk result (λ len. len ≡ length (item_spelling item.now)) }
{
    let mut text = Vec::new(alloc);
    write_item(alloc, item, &mut text)?;
    Ok(text.len())
}

/// The greatest payload, in bytes, that a frame with this transfer can carry where the whole frame, with its 8 bytes of header,
/// may have at most `most` bytes. None where not even an empty payload fits (AMQP 1.0 part 2, sections 2.3.1 and 2.7.5).
/// It allocates only for a state that says more than that a delivery is accepted or released.
///
/// # Errors
///
/// `AllocError` where memory was refused.
pub fn transfer_room(
    alloc: Global,
    transfer: &Transfer,
    most: u32,
) -> Result<Option<usize>, AllocError>
    ensures exact { IfOk result (λ room. (channel : ℕ) (payload : List ℕ) → (length (item_spelling (transfer_frame channel transfer.now payload)) ≤ most) ↔ FitsInto room (length payload)) }
    ensures stateless { is_none transfer.now.state ≡ true → IsOk result }
{
    let taken = transfer_len(alloc, transfer)?.saturating_add(MIN_SIZE);
    Ok((most as usize).checked_sub(taken))
}

//! What a head has behind its gate: epoch, base and checkpoint.
ghost use Rattle.std.specs.Prelude.{◌≡◌, ◌+◌, List, ℕ, length, IfSome, IfNone, IfOk, IsErrOf};
ghost use Rattle.twin_journal.specs.Checkpoints.{NoStamp};
ghost use Rattle.twin_journal.specs.Format.{checkpoint_size};
ghost use Rattle.twin_journal.specs.Reading.{IsSized, AreFields, BeginsWithStamp, IsWritten, IsFill};

use crate::checkpoint::{put_checkpoint, read_checkpoint};
use crate::numbers::{LARGEST, number_4, put_4, put_8, small_number};
use crate::room::size_with;
use crate::scratch::Scratch;
use book_core::Book;
use journal_codec::ReadFault;
use std::alloc::{AllocError, Global};

/// What a head says.
#[derive(Drop)]
pub(crate) struct Stamp {
    /// The epoch of its side.
    pub(crate) epoch: u64,
    /// The number of the last batch in its checkpoint.
    pub(crate) base: u64,
    /// The bytes of the checkpoint.
    pub(crate) size: usize,
    /// The book of the checkpoint.
    pub(crate) book: Book,
}

/// The fields of a head, its checkpoint as bytes.
#[derive(Clone, Copy, Debug)]
struct Fields<'a> {
    epoch: u64,
    base: u64,
    checkpoint: &'a [u8],
    behind: &'a [u8],
}

/// The checkpoint after its length, and what follows it, which isn't empty.
fn sized(bytes: &[u8]) -> Option<(&[u8], &[u8])>
    ensures some { IfSome result (λ x. IsSized bytes.now x.0.now x.1.now) }
    ensures none { IfNone result ((checkpoint behind : List ℕ) → IsSized bytes.now checkpoint behind → ⊥) }
{
    match number_4(bytes) {
        None => None,
        Some((size, rest)) => {
            let size = size as usize;
            if rest.len() <= size {
                return None;
            }
            Some(rest.split_at(size))
        }
    }
}

/// The fields at the front of these bytes, with something behind them.
fn fields_of(bytes: &[u8]) -> Option<Fields<'_>>
    ensures some { IfSome result (λ f. AreFields bytes.now f.epoch f.base f.checkpoint.now f.behind.now) }
    ensures none { IfNone result ((epoch base : ℕ) (checkpoint behind : List ℕ)
        → AreFields bytes.now epoch base checkpoint behind → ⊥) }
{
    let (epoch, behind_epoch) = small_number(bytes)?;
    let (base, behind_base) = small_number(behind_epoch)?;
    let (checkpoint, behind) = sized(behind_base)?;
    Some(Fields {
        epoch,
        base,
        checkpoint,
        behind,
    })
}

/// What follows an open gate on a side that can be active, and what follows that: at least a gate.
///
/// # Errors
///
/// `Misspelt` where no epoch, base and checkpoint with something behind them stand at the front; `Memory`.
pub(crate) fn read_stamp(alloc: Global, bytes: &[u8]) -> Result<(Stamp, &[u8]), ReadFault>
    ensures read { IfOk result (λ x. BeginsWithStamp bytes.now x.0.epoch x.0.base x.0.size x.0.book x.1.now) }
    ensures none { IsErrOf result ReadFault.Misspelt → NoStamp bytes.now }
{
    match fields_of(bytes) {
        None => Err(ReadFault::Misspelt),
        Some(fields) => match read_checkpoint(alloc, fields.checkpoint) {
            Err(fault) => Err(fault),
            Ok(book) => Ok((
                Stamp {
                    epoch: fields.epoch,
                    base: fields.base,
                    size: fields.checkpoint.len(),
                    book,
                },
                fields.behind,
            )),
        },
    }
}

/// How many bytes stand around a checkpoint behind a gate: epoch, base and length, and a closed gate.
const AROUND: usize = 21;

/// What a side gets behind its gate.
#[derive(Drop)]
pub(crate) struct Fill {
    /// Epoch, base, a checkpoint, and a closed gate.
    pub(crate) bytes: Vec<u8>,
    /// The bytes of the checkpoint.
    pub(crate) size: usize,
}

/// What a side gets behind its gate for a checkpoint of this book, in the buffer that is kept for it. It is counted
/// first, and encoded once.
///
/// # Errors
///
/// `AllocError` where memory is refused, a number is too large to be read again, or an act can't be encoded.
pub(crate) fn fill_of(
    scratch: &mut Scratch,
    epoch: u64,
    base: u64,
    book: &Book,
) -> Result<Fill, AllocError>
    ensures fill { IfOk result (λ f. IsWritten book.now → IsFill f.bytes.items epoch base f.size book.now) }
    ensures size { IfOk result (λ f. f.size ≡ checkpoint_size book.now) }
    ensures len { IfOk result (λ f. length f.bytes.items ≡ f.size + 21) }
{
    if epoch > LARGEST || base > LARGEST {
        return Err(AllocError);
    }
    let alloc = scratch.alloc();
    let acts = book.acts()?;
    let count = size_with(alloc, acts.as_slice())?;
    let Ok(size) = u32::try_from(count) else {
        return Err(AllocError);
    };
    let mut bytes = scratch.take(AROUND + size as usize)?;
    put_8(&mut bytes, epoch)?;
    put_8(&mut bytes, base)?;
    put_4(&mut bytes, size)?;
    put_checkpoint(alloc, &mut bytes, book, acts.as_slice())?;
    bytes.push(0)?;
    Ok(Fill {
        bytes,
        size: size as usize,
    })
}

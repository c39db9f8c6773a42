//! A book as a checkpoint, and back.
ghost use Rattle.std.specs.Prelude.{◌≡◌, ◌≢◌, ◌++◌, None, OnOk, IfOk, IsErrOf};
ghost use Rattle.book_model.specs.Book.{BookView};
ghost use Rattle.book_model.specs.Restoring.{acts_of_book, restore_fault, restored};
ghost use Rattle.twin_journal.specs.Checkpoints.{IsCheckpoint};
ghost use Rattle.twin_journal.specs.Format.{checkpoint_bytes};
ghost use Rattle.twin_journal.specs.Reading.{IsWritten};

use crate::numbers::{LARGEST, put_8, small_number};
use book_core::Book;
use book_model::{Act, BookFault, RowNumber, TerminusNumber};
use journal_codec::{ReadFault, put_acts, read_acts};
use std::alloc::{AllocError, Global};

/// Appends the checkpoint of a book whose acts these are: the numbers that come next in it, and its acts.
///
/// # Errors
///
/// `AllocError` where memory is refused, a number is too large to be read again, or an act can't be encoded.
pub(crate) fn put_checkpoint(
    alloc: Global,
    out: &mut Vec<u8>,
    book: &Book,
    acts: &[Act],
) -> Result<(), AllocError>
    requires { acts.now ≡ acts_of_book book.now }
    ensures put { OnOk result (out.new.items ≡ out.old.items
        ++ checkpoint_bytes book.now.next_terminus book.now.next_row (acts_of_book book.now)) }
    ensures is_read { OnOk result (IsWritten book.now
        → IsCheckpoint (checkpoint_bytes book.now.next_terminus book.now.next_row (acts_of_book book.now)) book.now) }
{
    book.is_sound();
    let next_terminus = book.next_terminus().0;
    let next_row = book.next_row().0;
    if next_terminus > LARGEST || next_row > LARGEST {
        return Err(AllocError);
    }
    put_8(out, next_terminus)?;
    put_8(out, next_row)?;
    put_acts(alloc, out, acts)
}

/// The book of a checkpoint.
///
/// # Errors
///
/// `Misspelt` where the bytes are no checkpoint; `Memory`.
pub(crate) fn read_checkpoint(alloc: Global, bytes: &[u8]) -> Result<Book, ReadFault>
    ensures read { IfOk result (λ book. IsCheckpoint bytes.now book) }
    ensures none { IsErrOf result ReadFault.Misspelt → (book : BookView) → IsCheckpoint bytes.now book → ⊥ }
{
    let Some((next_terminus, rest)) = small_number(bytes) else {
        return Err(ReadFault::Misspelt);
    };
    let Some((next_row, inside)) = small_number(rest) else {
        return Err(ReadFault::Misspelt);
    };
    match read_acts(alloc, inside) {
        Err(fault) => Err(fault),
        Ok(acts) => restored(
            alloc,
            TerminusNumber(next_terminus),
            RowNumber(next_row),
            acts.as_slice(),
        ),
    }
}

/// Reads a book back from acts.
fn restored(
    alloc: Global,
    next_terminus: TerminusNumber,
    next_row: RowNumber,
    acts: &[Act],
) -> Result<Book, ReadFault>
    ensures reads { OnOk result (restore_fault next_terminus.0 next_row.0 acts.now ≡ None) }
    ensures book { IfOk result (λ book. book ≡ restored next_terminus.0 next_row.0 acts.now) }
    ensures none { IsErrOf result ReadFault.Misspelt
        → restore_fault next_terminus.0 next_row.0 acts.now ≢ None }
{
    match Book::restore(alloc, next_terminus, next_row, acts) {
        Ok(book) => Ok(book),
        Err(BookFault::Memory) => Err(ReadFault::Memory),
        Err(_) => Err(ReadFault::Misspelt),
    }
}

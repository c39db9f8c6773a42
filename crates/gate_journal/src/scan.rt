//! The batches of a file, one after another.
ghost use Rattle.std.specs.Prelude.{◌≡◌, ◌≢◌, ◌++◌, [], ◌∷◌, List, ℕ, ◌<◌, ◌≤◌, ◌⊎◌, length, take, None, IfNone, IfSome, IfOk, IfErr, IsErrOf};
ghost use Rattle.book_model.specs.declared.act.Act.{Act};
ghost use Rattle.book_model.specs.Book.{first_fault, effects};
ghost use Rattle.journal_codec.specs.Format.{magic, batch};
ghost use Rattle.journal_codec.specs.Batches.{IsBatch};
ghost use Rattle.gate_journal.specs.Opening.{Explains, IsFoundFrom, IsFound};
ghost use Rattle.gate_journal.specs.Scanning.{BeginsWith, StopsFrom, IsNoNext, refused_as};

use crate::fault::OpenFault;
use book_core::Book;
use book_model::{Act, BookFault};
use journal_codec::{ReadFault, read_batch};
use std::alloc::Global;

/// The first bytes of each journal of this format.
pub(crate) const MAGIC: [u8; 8] = *b"AMQRJ001";

/// What follows an open gate.
pub(crate) fn behind_gate(rest: &[u8]) -> Option<&[u8]>
    ensures open_gate { IfSome result (λ inside. rest.now ≡ 1 ∷ inside.now) }
    ensures shut_gate { IfNone result ((gate : ℕ) (behind : List ℕ) → rest.now ≡ gate ∷ behind → gate ≢ 1) }
{
    match rest {
        [1, inside @ ..] => Some(inside),
        _ => None,
    }
}

/// Why a file can't be opened when its book refuses a batch.
fn refused(fault: BookFault, at: usize) -> OpenFault
    ensures { result ≡ refused_as fault at }
{
    match fault {
        BookFault::Memory => OpenFault::Memory,
        _ => OpenFault::Damaged { at },
    }
}

/// Applies the batch after an open gate at a place, and gives it with what follows it.
pub(crate) fn next_batch<'a>(
    alloc: Global,
    book: &mut Book,
    inside: &'a [u8],
    at: usize,
) -> Result<(Vec<Act>, &'a [u8]), OpenFault>
    ensures spelled { IfOk result (λ x. inside.now ≡ batch x.0.items ++ x.1.now) }
    ensures is_batch { IfOk result (λ x. IsBatch x.0.items) }
    ensures behind { IfOk result (λ x. x.1.now ≢ []) }
    ensures applies { IfOk result (λ x. first_fault book.old x.0.items ≡ None) }
    ensures applied { IfOk result (λ x. book.new ≡ effects book.old x.0.items) }
    ensures fault { IfErr result (IsNoNext book.old inside.now at) }
{
    match read_batch(alloc, inside) {
        Err(ReadFault::Memory) => Err(OpenFault::Memory),
        Err(ReadFault::Misspelt) => Err(OpenFault::Damaged { at }),
        Ok((acts, behind)) => match book.apply(acts.as_slice()) {
            Err(fault) => Err(refused(fault, at)),
            Ok(()) => Ok((acts, behind)),
        },
    }
}

/// What follows the head of a file.
pub(crate) fn behind_head(bytes: &[u8]) -> Option<&[u8]>
    ensures head { IfSome result (λ rest. bytes.now ≡ magic ++ rest.now) }
    ensures behind { IfSome result (λ rest. rest.now ≢ []) }
    ensures none { IfNone result ((length bytes.now < 9) ⊎ (take 8 bytes.now ≢ magic)) }
{
    if bytes.len() < 9 {
        return None;
    }
    let (head, behind) = bytes.split_at(8);
    if head != MAGIC.as_slice() {
        return None;
    }
    Some(behind)
}

/// What was found in a file.
#[derive(Drop)]
pub struct Found {
    /// The book after the batches.
    pub book: Book,
    /// The place of the gate that ends them, in bytes from the file's beginning.
    pub place: usize,
    /// Their number.
    pub count: u64,
}

/// The batches of a file above a book, from the gate behind its head: up to the first gate that isn't open.
///
/// # Errors
///
/// `Damaged` where an open gate has no batch; `Memory`.
pub fn walk(alloc: Global, start: Book, bytes: &[u8], from_gate: &[u8]) -> Result<Found, OpenFault>
    requires within { length from_gate.now ≤ length bytes.now }
    ensures found { IfOk result (λ f. (head : List ℕ) → BeginsWith head bytes.now from_gate.now
        → IsFoundFrom head start bytes.now f.book f.place f.count) }
    ensures fault { IfErr result (λ f. (head : List ℕ) → BeginsWith head bytes.now from_gate.now
        → StopsFrom head start bytes.now f) }
    ensures never_disk { IsErrOf result OpenFault.Disk → ⊥ }
{
    let mut book = start;
    let mut rest = from_gate;
    let mut count = 0u64;
    while let Some(inside) = behind_gate(rest) {
        let at = bytes.len() - rest.len();
        match next_batch(alloc, &mut book, inside, at) {
            Err(fault) => return Err(fault),
            Ok((_acts, behind)) => {
                let Some(next) = count.checked_add(1) else {
                    return Err(OpenFault::Memory);
                };
                count = next;
                rest = behind;
            }
        }
    }
    let place = bytes.len() - rest.len();
    Ok(Found { book, place, count })
}

/// The batches of a journal's file.
pub(crate) fn scan(alloc: Global, bytes: &[u8]) -> Result<Found, OpenFault>
    ensures found { IfOk result (λ f. IsFound bytes.now f.book f.place f.count) }
    ensures fault { IfErr result (Explains bytes.now) }
    ensures never_disk { IsErrOf result OpenFault.Disk → ⊥ }
{
    let Some(behind) = behind_head(bytes) else {
        return Err(OpenFault::NotAJournal);
    };
    walk(alloc, Book::empty(alloc), bytes, behind)
}

//! The acts of a journal, one by one.
ghost use Rattle.std.specs.Prelude.{◌≡◌, ◌<◌, ◌≤◌, ◌++◌, List, ℕ, length, OnOk, IfOk, IfErr, IsErrOf};
ghost use Rattle.disk_core.specs.Disk.{NoMore, Only, LeavesOnly};
ghost use Rattle.gate_journal.specs.Opening.{Explains};
ghost use Rattle.gate_journal.specs.Listing.{placed};
ghost use Rattle.gate_journal.specs.Listed.{IsListedFrom, IsListed};
ghost use Rattle.gate_journal.specs.Scanning.{BeginsWith, StopsFrom};

use crate::fault::OpenFault;
use crate::scan::{behind_gate, behind_head, next_batch};
use crate::whole::read_all;
use book_core::Book;
use book_model::Act;
use disk_core::Disk;
use std::alloc::{AllocError, Global};

/// An act, and its place.
#[derive(Debug, Drop)]
pub struct Entry {
    /// The place of its batch's gate, in bytes from the file's beginning.
    pub place: usize,
    /// The act.
    pub act: Act,
}

/// The acts of a journal.
#[derive(Drop)]
pub struct Listing {
    /// The acts, in the order of the file.
    pub entries: Vec<Entry>,
    /// The place of the gate that ends the journal.
    pub place: usize,
    /// The book after the batches.
    pub book: Book,
}

/// Adds the acts of a batch.
fn add(entries: &mut Vec<Entry>, place: usize, acts: Vec<Act>) -> Result<(), AllocError>
    ensures { OnOk result (entries.new.items ≡ entries.old.items ++ placed place acts.items) }
{
    for act in acts {
        entries.push(Entry { place, act })?;
    }
    Ok(())
}

/// The acts of a file's batches above a book, from the gate behind its head.
///
/// # Errors
///
/// `Damaged` where an open gate has no batch; `Memory`.
pub fn list_from(
    alloc: Global,
    start: Book,
    bytes: &[u8],
    from_gate: &[u8],
) -> Result<Listing, OpenFault>
    requires within { length from_gate.now ≤ length bytes.now }
    ensures listed { IfOk result (λ l. (head : List ℕ) → BeginsWith head bytes.now from_gate.now
        → IsListedFrom head start bytes.now l.entries.items l.place l.book) }
    ensures fault { IfErr result (λ f. (head : List ℕ) → BeginsWith head bytes.now from_gate.now
        → StopsFrom head start bytes.now f) }
    ensures never_disk { IsErrOf result OpenFault.Disk → ⊥ }
{
    let mut book = start;
    let mut rest = from_gate;
    let mut entries = Vec::new(alloc);
    while let Some(inside) = behind_gate(rest) {
        let at = bytes.len() - rest.len();
        match next_batch(alloc, &mut book, inside, at) {
            Err(fault) => return Err(fault),
            Ok((acts, behind)) => {
                add(&mut entries, at, acts)?;
                rest = behind;
            }
        }
    }
    let place = bytes.len() - rest.len();
    Ok(Listing {
        entries,
        place,
        book,
    })
}

/// The acts of a journal's file.
fn list_file(alloc: Global, bytes: &[u8]) -> Result<Listing, OpenFault>
    ensures listed { IfOk result (λ l. IsListed bytes.now l.entries.items l.place l.book) }
    ensures fault { IfErr result (Explains bytes.now) }
    ensures never_disk { IsErrOf result OpenFault.Disk → ⊥ }
{
    let Some(behind) = behind_head(bytes) else {
        return Err(OpenFault::NotAJournal);
    };
    list_from(alloc, Book::empty(alloc), bytes, behind)
}

/// Lists a journal: each act with the place of its batch's gate. It begins with a sync, as opening does, and changes nothing.
pub fn list<D: Disk>(alloc: Global, disk: &mut D) -> Result<Listing, OpenFault>
    ensures listed { IfOk result (λ l. IsListed (D.seen disk.old) l.entries.items l.place l.book) }
    ensures fault { IfErr result (Explains (D.seen disk.old)) }
    ensures disk { IsErrOf result OpenFault.Disk → D.failures disk.old < D.failures disk.new }
    ensures seen { OnOk result (D.seen disk.new ≡ D.seen disk.old) }
    ensures crash { NoMore (D.may_leave disk.old) (D.may_leave disk.new) }

    // A crash at any moment of the call leaves what it might have left before.
    ensures any_moment { LeavesOnly D.moment D.left_since disk.old disk.new (D.may_leave disk.old) }

    // Whatever is answered for the file, it was synced, and a read gives what it gave.
    ensures durable { (IsErrOf result OpenFault.Disk → ⊥) → (IsErrOf result OpenFault.Memory → ⊥)
        → Only (D.seen disk.new) (D.may_leave disk.new) }
    ensures unchanged { (IsErrOf result OpenFault.Disk → ⊥) → (IsErrOf result OpenFault.Memory → ⊥)
        → D.seen disk.new ≡ D.seen disk.old }
{
    let bytes = read_all(alloc, disk)?;
    list_file(alloc, bytes.as_slice())
}

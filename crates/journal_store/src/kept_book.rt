//! The book of a store, and what can be written to it.
ghost use Rattle.std.specs.Prelude.{◌≡◌, ◌≤◌, None, false, length, OnOk, OnErr, IfOk};
ghost use Rattle.book_model.specs.Book.{first_fault, effects};
ghost use Rattle.book_model.specs.Sound.{IsSound};
ghost use Rattle.journal_codec.specs.Batches.{HaveOutcomes};
ghost use Rattle.journal_codec.specs.Format.{acts_bytes};
ghost use Rattle.journal_store.specs.Acting.{admission_acts, event_acts};
ghost use Rattle.journal_store.specs.Exceeding.{exceeds};
ghost use Rattle.journal_store.specs.Lost.{start_acts};
ghost use Rattle.journal_store.specs.Writable.{Writable};

use crate::acting::{TerminusAct, admission_acts, event_acts};
use crate::lost::start_acts;
use book_core::Book;
use book_model::{Act, Admission, BookFault, Decision, RowNumber};
use std::alloc::{AllocError, Global};

/// The book of a store. It is sound, as each `Book` is: its numbers rise and no limit is passed, whether acts made it or it
/// was read back. What can be written to it rests on that alone.
#[derive(Drop)]
pub struct KeptBook {
    book: Book,
}

impl KeptBook {
    /// Keeps a book.
    pub fn new(book: Book) -> KeptBook
        ensures { result.book ≡ book }
    {
        KeptBook { book }
    }

    /// The book, which is sound.
    pub fn book(&self) -> &Book
        ensures same { result.now ≡ self.now.book }
        ensures sound { IsSound result.now }
    {
        self.book.is_sound();
        &self.book
    }

    /// Does acts that apply. At an `Err` memory was refused, and the book is as it was.
    pub fn apply(&mut self, acts: &[Act]) -> Result<(), BookFault>
        requires applies { first_fault self.old.book acts.now ≡ None }
        ensures applied { OnOk result (self.new.book ≡ effects self.old.book acts.now) }
        ensures unchanged { OnErr result (self.new.book ≡ self.old.book) }
    {
        self.book.apply(acts)
    }

    /// What a router decides when it starts on this book. It can be written: the acts apply, they fit a batch, and their
    /// outcomes are given back by their encodings. A journal of the book is never too full for it.
    pub fn start_acts(&self, alloc: Global) -> Result<Vec<Act>, AllocError>
        ensures acts { IfOk result (λ acts. acts.items ≡ start_acts self.now.book) }
        ensures applies { IfOk result (λ acts. first_fault self.now.book acts.items ≡ None) }
        ensures small { IfOk result (λ acts. length (acts_bytes acts.items) ≤ 4194304) }
        ensures outcomes { IfOk result (λ acts. HaveOutcomes acts.items) }
        ensures fits { exceeds self.now.book (start_acts self.now.book) ≡ false }
    {
        self.book.is_sound();
        start_acts(alloc, &self.book)
    }

    /// The act of an admission, if the book admits it.
    pub fn admission_acts(
        &self,
        alloc: Global,
        admission: Admission,
    ) -> Result<Vec<Act>, AllocError>
        ensures acts { IfOk result (λ acts. acts.items ≡ admission_acts self.now.book admission) }
        ensures writable { IfOk result (λ acts. Writable self.now.book acts.items) }
    {
        admission_acts(alloc, &self.book, admission)
    }

    /// The acts of an event, from what it decides, the numbers of the rows that it forgets, and what it asks for a terminus.
    pub fn event_acts(
        &self,
        alloc: Global,
        decided: Vec<Decision>,
        forgotten: Vec<RowNumber>,
        terminus: Option<TerminusAct>,
    ) -> Result<Vec<Act>, AllocError>
        ensures acts { IfOk result (λ acts. acts.items ≡ event_acts self.now.book decided.items forgotten.items terminus) }
        ensures writable { IfOk result (λ acts. Writable self.now.book acts.items) }
    {
        self.book.is_sound();
        event_acts(alloc, &self.book, decided, forgotten, terminus)
    }
}

//! Reading a book back from a list of acts.
ghost use Rattle.std.specs.Prelude.{◌≡◌, None, Some, OnOk, IfOk, IfErr, ℕ};
ghost use Rattle.std.specs.List.{list_all};
ghost use Rattle.book_model.specs.Book.{BookView};
ghost use Rattle.book_model.specs.Restoring.{restore_make_refusal, restore_admit_refusal, restore_refusal, restore_effect, first_unread, book_read, is_between, is_within, has_termini, closing_fault, restore_fault, restored};
ghost use Rattle.book_core.specs.Rows.{rows_left};
ghost use Rattle.book_core.specs.Slots.{rows_in};
ghost use Rattle.book_core.specs.Tables.{Shows, WasRead};
ghost use Rattle.book_model.specs.declared.act.Act.TheVariants as act;
ghost use Rattle.book_model.specs.declared.fault.BookFault.TheVariants as fault;

use crate::book::Book;
use crate::look;
use crate::rows::Rows;
use crate::tables::{MAX_PAYLOAD, MAX_ROWS, MAX_ROWS_OF_TERMINUS, Tables};
use book_model::{Act, Admission, BookFault, LinkRole, Row, RowNumber, Terminus, TerminusNumber};
use std::alloc::Global;

impl Book {
    /// Reads a book back from acts, such as those of [`Book::acts`], with the numbers that come next in it. Acts apply
    /// in turn to the empty book, but their numbers need only rise, below the next ones; and what they say of termini,
    /// and the limits of 64, are tested after the last act.
    ///
    /// # Errors
    ///
    /// `NoTerminus` or `NoRow` for a next number of 0; the fault of the first act that isn't read; then `Limit` for more
    /// than 64 rows of a terminus, then `NoTerminus` for one that a row keeps and that isn't there; `Memory`.
    pub fn restore(
        alloc: Global,
        next_terminus: TerminusNumber,
        next_row: RowNumber,
        acts: &[Act],
    ) -> Result<Book, BookFault>
        ensures reads { OnOk result (restore_fault next_terminus.0 next_row.0 acts.now ≡ None) }
        ensures book { IfOk result (λ b. b ≡ restored next_terminus.0 next_row.0 acts.now) }
        ensures first { IfErr result (λ f. (f ≡ fault.Memory → ⊥)
            → restore_fault next_terminus.0 next_row.0 acts.now ≡ Some f) }
    {
        if next_terminus.0 == 0 {
            return Err(BookFault::NoTerminus);
        }
        if next_row.0 == 0 {
            return Err(BookFault::NoRow);
        }
        let mut tables = Tables::new(alloc);
        tables.read_all(next_terminus, next_row, acts)?;
        if let Some(fault) = tables.why_not_close() {
            return Err(fault);
        }
        tables.counters.next_terminus = next_terminus.0;
        tables.counters.next_row = next_row.0;
        tables.commit();
        Ok(Book { tables })
    }
}

/// Whether a number is above the last one and below the next one given.
fn is_between(after_last: u64, next: u64, number: u64) -> bool
    ensures { result ≡ is_between after_last next number }
{
    after_last <= number && number < next
}

impl Tables {
    /// Reads a terminus back, whose number is to be below this one.
    fn read_make(&mut self, next: TerminusNumber, terminus: &Terminus) -> Result<(), BookFault>
        ensures { (b : BookView) → Shows self.old b
            → WasRead result self.new (restore_make_refusal next.0 b terminus.now)
            (restore_effect b (act.Make terminus.now)) }
    {
        let number = terminus.number.0;
        if !is_between(self.counters.next_terminus, next.0, number) {
            return Err(BookFault::NoTerminus);
        }
        self.counters.next_terminus = number;
        match self.why_not_make(terminus) {
            Some(fault) => Err(fault),
            None => match self.make(terminus) {
                Ok(()) => Ok(()),
                Err(_) => Err(BookFault::Memory),
            },
        }
    }

    /// Why a row isn't read back, whose number is to be below this one.
    fn why_not_read(&self, next: RowNumber, admission: &Admission) -> Option<BookFault>
        ensures { (b : BookView) → Shows self.now b → result ≡ restore_admit_refusal next.0 b admission.now }
    {
        let rows = self.rows.slots.as_slice();
        if !is_between(self.counters.next_row, next.0, admission.row.0) {
            return Some(BookFault::NoRow);
        }
        if look::has_named(rows, &self.index.names, admission.producer, &admission.tag) {
            return Some(BookFault::TagInUse);
        }
        if self.counters.rows >= MAX_ROWS {
            return Some(BookFault::Limit);
        }
        if admission.payload.len() > MAX_PAYLOAD {
            return Some(BookFault::Limit);
        }
        None
    }

    /// Reads a row back, whose number is to be below this one.
    fn read_admit(&mut self, next: RowNumber, admission: &Admission) -> Result<(), BookFault>
        ensures { (b : BookView) → Shows self.old b
            → WasRead result self.new (restore_admit_refusal next.0 b admission.now)
            (restore_effect b (act.Admit admission.now)) }
    {
        match self.why_not_read(next, admission) {
            Some(fault) => Err(fault),
            None => {
                self.counters.next_row = admission.row.0;
                match self.admit(admission) {
                    Ok(()) => Ok(()),
                    Err(_) => Err(BookFault::Memory),
                }
            }
        }
    }

    /// Reads an act back, whose number is to be below the one of its kind.
    fn read(
        &mut self,
        next_terminus: TerminusNumber,
        next_row: RowNumber,
        act: &Act,
    ) -> Result<(), BookFault>
        ensures { (b : BookView) → Shows self.old b
            → WasRead result self.new (restore_refusal next_terminus.0 next_row.0 b act.now)
            (restore_effect b act.now) }
    {
        match act {
            Act::Make(terminus) => self.read_make(next_terminus, terminus),
            Act::Admit(admission) => self.read_admit(next_row, admission),
            Act::Decide(_) => self.step(act),
            Act::Forget(_) => self.step(act),
            Act::Drop(_) => self.step(act),
        }
    }

    /// Reads acts back, up to the first that isn't read.
    fn read_all(
        &mut self,
        next_terminus: TerminusNumber,
        next_row: RowNumber,
        acts: &[Act],
    ) -> Result<(), BookFault>
        ensures { (b : BookView) → Shows self.old b
            → WasRead result self.new (first_unread next_terminus.0 next_row.0 b acts.now) (book_read b acts.now) }
    {
        for act in acts {
            match self.read(next_terminus, next_row, act) {
                Ok(()) => {}
                Err(fault) => return Err(fault),
            }
        }
        Ok(())
    }

    /// All rows, by number.
    #[tactic(auto, using(crate::proofs::Looked::all_wanted))]
    fn all_rows(&self) -> Rows<'_>
        ensures { rows_left result ≡ rows_in self.now.rows.slots.items }
    {
        Rows {
            slots: &self.rows.slots,
            terminus: None,
        }
    }

    /// Whether the termini of a row have at most 64: rows that came on the link of its producer's, and undecided ones
    /// that are bound to its consumer's.
    fn is_within(&self, row: &Row) -> bool
        ensures { (b : BookView) → Shows self.now b → result ≡ is_within b.rows row.now }
    {
        self.index.count_from(row.producer) <= MAX_ROWS_OF_TERMINUS
            && self.index.count_waiting(row.consumer) <= MAX_ROWS_OF_TERMINUS
    }

    /// Whether the termini stand that a row keeps.
    fn has_termini(&self, row: &Row) -> bool
        ensures { (b : BookView) → Shows self.now b → result ≡ has_termini b.termini row.now }
    {
        (row.forgotten || self.has_role(row.producer, LinkRole::Producer))
            && (row.outcome.is_some() || self.may_bind(row.consumer))
    }

    /// Whether no terminus has more rows than 64.
    fn all_within(&self) -> bool
        ensures { (b : BookView) → Shows self.now b → result ≡ list_all (is_within b.rows) b.rows }
    {
        for row in self.all_rows() {
            if !self.is_within(row) {
                return false;
            }
        }
        true
    }

    /// Whether each row has the termini that it keeps.
    fn all_have_termini(&self) -> bool
        ensures { (b : BookView) → Shows self.now b → result ≡ list_all (has_termini b.termini) b.rows }
    {
        for row in self.all_rows() {
            if !self.has_termini(row) {
                return false;
            }
        }
        true
    }

    /// Why what was read isn't a whole book.
    fn why_not_close(&self) -> Option<BookFault>
        ensures { (b : BookView) → Shows self.now b → result ≡ closing_fault b }
    {
        if !self.all_within() {
            return Some(BookFault::Limit);
        }
        if !self.all_have_termini() {
            return Some(BookFault::NoTerminus);
        }
        None
    }
}

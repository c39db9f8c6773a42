//! The book.
ghost use Rattle.std.specs.Prelude.{◌≡◌, None, Some, OnOk, OnErr, IfErr, filter, length};
ghost use Rattle.std.specs.Option.{option_copied};
ghost use Rattle.book_model.specs.Book.{empty_book, first_fault, effects, make_refusal, admit_refusal, is_of, row_at, row_named, terminus_at, terminus_of};
ghost use Rattle.book_model.specs.Sound.{IsSound};
ghost use Rattle.book_core.specs.Rising.{Rises};
ghost use Rattle.book_core.specs.Rows.{rows_left};
ghost use Rattle.book_model.specs.declared.fault.BookFault.TheVariants as fault;
ghost use Rattle.book_model.specs.declared.row.Row.{Row as ARow};

use crate::look;
use crate::rows::Rows;
use crate::tables::Tables;
use amqp_model::DeliveryTag;
use book_model::{Act, Admission, BookFault, LinkKey, Row, RowNumber, Terminus, TerminusNumber};
use std::alloc::Global;
use std::marker::Model;

/// The book of a router: the termini of its durable links and the deliveries that it has admitted.
#[derive(Drop)]
pub struct Book {
    pub(crate) tables: Tables,
}

impl Model for Book {
    ghost use Rattle.book_model.specs.Book.{BookView};

    ghost Value = { BookView };

    ghost use Rattle.book_core.specs.Tables.{shown_by, IsWhole};

    ghost view = { λ b. shown_by b.tables };

    ghost invariant = { λ b. IsWhole b.tables };
}

impl Book {
    /// An empty book.
    pub fn empty(alloc: Global) -> Book
        ensures { result ≡ empty_book }
    {
        Book {
            tables: Tables::new(alloc),
        }
    }

    /// Applies acts in turn, each to the book after those before it: all of them, or none.
    pub fn apply(&mut self, acts: &[Act]) -> Result<(), BookFault>
        ensures applies { OnOk result (first_fault self.old acts.now ≡ None) }
        ensures applied { OnOk result (self.new ≡ effects self.old acts.now) }
        ensures first { IfErr result (λ f. (f ≡ fault.Memory → ⊥) → first_fault self.old acts.now ≡ Some f) }
        ensures unchanged { OnErr result (self.new ≡ self.old) }
    {
        let counters = self.tables.counters;
        match self.tables.run(acts) {
            Ok(()) => {
                self.tables.commit();
                Ok(())
            }
            Err(fault) => {
                self.tables.rollback(counters);
                Err(fault)
            }
        }
    }

    /// Why the book refuses to make a terminus; it is made where nothing does.
    pub fn make_refusal(&self, terminus: &Terminus) -> Option<BookFault>
        ensures { result ≡ make_refusal self.now terminus.now }
    {
        self.tables.why_not_make(terminus)
    }

    /// Why the book refuses to admit a row; it is admitted where nothing does.
    pub fn admit_refusal(&self, admission: &Admission) -> Option<BookFault>
        ensures { result ≡ admit_refusal self.now admission.now }
    {
        self.tables.why_not_admit(admission)
    }

    /// The rows that came on the link of a terminus or are bound to it, forgotten ones too, by number. It allocates
    /// nothing.
    pub fn rows_of(&self, terminus: TerminusNumber) -> Rows<'_>
        ensures { rows_left result ≡ filter (is_of terminus.0) self.now.rows }
    {
        Rows {
            slots: &self.tables.rows.slots,
            terminus: Some(terminus),
        }
    }

    /// All rows, by number. It allocates nothing.
    #[tactic(auto, using(crate::proofs::Looked::all_wanted))]
    pub fn rows(&self) -> Rows<'_>
        ensures { rows_left result ≡ self.now.rows }
    {
        Rows {
            slots: &self.tables.rows.slots,
            terminus: None,
        }
    }

    /// The numbers of its rows rise. It does nothing.
    #[tactic(auto, using(crate::proofs::Looked::shown_rise))]
    pub fn rows_rise(&self)
        ensures { Rises (λ (r : ARow). r.number.0) self.now.rows }
    {
        let _rows = &self.tables.rows;
    }

    /// It is as each book is that acts made, or that was read back. It does nothing.
    pub fn is_sound(&self)
        ensures { IsSound self.now }
    {
        let _tables = &self.tables;
    }

    /// The row with a number.
    pub fn row(&self, number: RowNumber) -> Option<&Row>
        ensures { option_copied result ≡ row_at number.0 self.now.rows }
    {
        look::row(&self.tables.rows.slots, number.0)
    }

    /// The unforgotten row of a producer's terminus with this tag.
    pub fn row_named(&self, producer: TerminusNumber, tag: &DeliveryTag) -> Option<&Row>
        ensures { option_copied result ≡ row_named producer.0 tag.now.items self.now.rows }
    {
        look::row_named(
            &self.tables.rows.slots,
            &self.tables.index.names,
            producer,
            tag,
        )
    }

    /// The terminus with a number.
    pub fn terminus(&self, number: TerminusNumber) -> Option<&Terminus>
        ensures { option_copied result ≡ terminus_at number.0 self.now.termini }
    {
        look::terminus(&self.tables.termini.slots, number)
    }

    /// The terminus of the link with this key.
    pub fn terminus_of(&self, key: &LinkKey) -> Option<&Terminus>
        ensures { option_copied result ≡ terminus_of key.now self.now.termini }
    {
        look::terminus_with(&self.tables.termini.slots, &self.tables.keys, key)
    }

    /// How many rows there are.
    pub fn row_count(&self) -> usize
        ensures { result ≡ length self.now.rows }
    {
        self.tables.counters.rows
    }

    /// How many termini there are.
    pub fn terminus_count(&self) -> usize
        ensures { result ≡ length self.now.termini }
    {
        self.tables.counters.termini
    }

    /// The number of the next terminus.
    pub fn next_terminus(&self) -> TerminusNumber
        ensures { result.0 ≡ self.now.next_terminus }
    {
        TerminusNumber(self.tables.counters.next_terminus)
    }

    /// The number of the next row.
    pub fn next_row(&self) -> RowNumber
        ensures { result.0 ≡ self.now.next_row }
    {
        RowNumber(self.tables.counters.next_row)
    }
}

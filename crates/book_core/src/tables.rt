//! The tables of a book, one act at a time.
ghost use Rattle.std.specs.Prelude.{◌≡◌, ◌+◌, ◌-◌, if◌then◌else◌, ◌∷◌, ◌++◌, [], None, OnOk, OnErr, IfOk, IfErr, filter, not, ◌==◌, length, nat_le, is_some};
ghost use Rattle.amqp_model.specs.PerfSpelling.{state_spelling};
ghost use Rattle.book_model.specs.Book.{BookView, empty_book, refusal, effect, make_refusal, admit_refusal, decide_refusal, forget_refusal, drop_refusal, decided, forgotten, admitted, with_row, has_short_texts, has_role, may_bind, terminus_at, row_at};
ghost use Rattle.std.specs.BTreeMap.{get};
ghost use Rattle.book_core.specs.Indexed.{IsIndexBack};
ghost use Rattle.book_model.specs.Keys.{key_cmp};
ghost use Rattle.book_core.specs.Numbers.{earlier};
ghost use Rattle.book_core.specs.Table.{before};
ghost use Rattle.book_core.specs.Tables.{Shows, SameBefore, IsNew, IsSettled, IsSwept, Stepped, Ran, row_number, terminus_number};
ghost use Rattle.book_model.specs.declared.act.Act.TheVariants as act;
ghost use Rattle.book_model.specs.declared.terminus.LinkRole.TheVariants as role;

use crate::keys::set_key;
use crate::numbers::Numbers;
use crate::place::{row_place, terminus_place};
use crate::row_index::RowIndex;
use crate::slot::{RowSlot, TerminusSlot};
use crate::table::Table;
use crate::{copy, look};
use amqp_model::DeliveryState;
use amqp_perf::write_state;
use book_model::{
    Act, Admission, BookFault, Decision, LinkKey, LinkRole, Row, RowNumber, Terminus,
    TerminusNumber,
};
use std::alloc::{AllocError, Global};

/// The most termini of a book.
const MAX_TERMINI: usize = 1024;
/// The most rows of a book.
pub(crate) const MAX_ROWS: usize = 4096;
/// The most rows of one producer's terminus, and the most undecided rows of one consumer's.
pub(crate) const MAX_ROWS_OF_TERMINUS: u64 = 64;
/// The most bytes of a text of a terminus.
const MAX_TEXT: usize = 1024;
/// The most bytes of a payload.
pub(crate) const MAX_PAYLOAD: usize = 65536;
/// The most bytes of an encoded outcome.
const MAX_OUTCOME: usize = 400;

/// The tables of a book.
#[derive(Drop)]
pub(crate) struct Tables {
    pub(crate) alloc: Global,
    pub(crate) termini: Table<TerminusSlot>,
    pub(crate) rows: Table<RowSlot>,
    pub(crate) keys: Numbers<LinkKey>,
    pub(crate) index: RowIndex,
    pub(crate) counters: Counters,
}

/// The counters of a book.
#[derive(Clone, Copy)]
pub(crate) struct Counters {
    /// The number of the next terminus.
    pub(crate) next_terminus: u64,
    /// The number of the next row.
    pub(crate) next_row: u64,
    /// How many termini there are.
    pub(crate) termini: usize,
    /// How many rows there are.
    pub(crate) rows: usize,
}

fn is_short(text: &str) -> bool
    ensures { result ≡ nat_le (length text.now) 1024 }
{
    text.len() <= MAX_TEXT
}

fn has_short(terminus: &Terminus) -> bool
    ensures { result ≡ has_short_texts terminus.now }
{
    is_short(terminus.key.user.as_str())
        && is_short(terminus.key.container.as_str())
        && is_short(terminus.key.name.as_str())
        && is_short(terminus.address.as_str())
}

/// How many bytes encode an outcome.
fn spelled_len(alloc: Global, outcome: &DeliveryState) -> Result<usize, AllocError>
    ensures { IfOk result (λ n. n ≡ length (state_spelling outcome.now)) }
{
    let mut spelling = Vec::new(alloc);
    write_state(alloc, outcome, &mut spelling)?;
    Ok(spelling.len())
}

impl Tables {
    pub(crate) fn new(alloc: Global) -> Tables
        ensures shows { Shows result empty_book }
        ensures settled { IsSettled result }
    {
        Tables {
            alloc,
            termini: Table::new(alloc),
            rows: Table::new(alloc),
            keys: Numbers::new(alloc),
            index: RowIndex::new(alloc),
            counters: Counters {
                next_terminus: 1,
                next_row: 1,
                termini: 0,
                rows: 0,
            },
        }
    }

    pub(crate) fn has_role(&self, number: TerminusNumber, role: LinkRole) -> bool
        ensures { (b : BookView) → Shows self.now b → result ≡ has_role role (terminus_at number.0 b.termini) }
    {
        match look::terminus(&self.termini.slots, number) {
            None => false,
            Some(terminus) => look::is_role(terminus.key.role, role),
        }
    }

    pub(crate) fn may_bind(&self, consumer: Option<TerminusNumber>) -> bool
        ensures { (b : BookView) → Shows self.now b → result ≡ may_bind consumer b.termini }
    {
        match consumer {
            None => true,
            Some(consumer) => self.has_role(consumer, LinkRole::Consumer),
        }
    }

    pub(crate) fn why_not_make(&self, terminus: &Terminus) -> Option<BookFault>
        ensures { (b : BookView) → Shows self.now b → result ≡ make_refusal b terminus.now }
    {
        if terminus.number.0 != self.counters.next_terminus {
            return Some(BookFault::NoTerminus);
        }
        if look::has_key(&self.termini.slots, &self.keys, &terminus.key) {
            return Some(BookFault::NoTerminus);
        }
        if self.counters.termini >= MAX_TERMINI {
            return Some(BookFault::Limit);
        }
        if !has_short(terminus) {
            return Some(BookFault::Limit);
        }
        None
    }

    pub(crate) fn why_not_admit(&self, admission: &Admission) -> Option<BookFault>
        ensures { (b : BookView) → Shows self.now b → result ≡ admit_refusal b admission.now }
    {
        let producer = admission.producer;
        let rows = self.rows.slots.as_slice();
        if !self.has_role(producer, LinkRole::Producer) {
            return Some(BookFault::NoTerminus);
        }
        if !self.may_bind(admission.consumer) {
            return Some(BookFault::NoTerminus);
        }
        if admission.row.0 != self.counters.next_row {
            return Some(BookFault::NoRow);
        }
        if look::has_named(rows, &self.index.names, producer, &admission.tag) {
            return Some(BookFault::TagInUse);
        }
        if self.counters.rows >= MAX_ROWS {
            return Some(BookFault::Limit);
        }
        if self.index.count_from(producer) >= MAX_ROWS_OF_TERMINUS {
            return Some(BookFault::Limit);
        }
        if self.index.count_waiting(admission.consumer) >= MAX_ROWS_OF_TERMINUS {
            return Some(BookFault::Limit);
        }
        if admission.payload.len() > MAX_PAYLOAD {
            return Some(BookFault::Limit);
        }
        None
    }

    fn why_not_decide(&self, decision: &Decision) -> Result<Option<BookFault>, AllocError>
        ensures { (b : BookView) → Shows self.now b → IfOk result (λ r. r ≡ decide_refusal (row_at decision.now.row.0 b.rows) decision.now.outcome) }
    {
        match look::row(&self.rows.slots, decision.row.0) {
            None => Ok(Some(BookFault::NoRow)),
            Some(row) => {
                if row.outcome.is_some() {
                    return Ok(Some(BookFault::AlreadyDecided));
                }
                if spelled_len(self.alloc, &decision.outcome)? > MAX_OUTCOME {
                    return Ok(Some(BookFault::Limit));
                }
                Ok(None)
            }
        }
    }

    fn why_not_forget(&self, number: RowNumber) -> Option<BookFault>
        ensures { (b : BookView) → Shows self.now b → result ≡ forget_refusal (row_at number.0 b.rows) }
    {
        match look::row(&self.rows.slots, number.0) {
            None => Some(BookFault::NoRow),
            Some(row) => {
                if row.forgotten {
                    Some(BookFault::NoRow)
                } else {
                    None
                }
            }
        }
    }

    pub(crate) fn why_not_drop(&self, number: TerminusNumber) -> Option<BookFault>
        ensures { (b : BookView) → Shows self.now b → result ≡ drop_refusal (terminus_at number.0 b.termini) b.rows }
    {
        match look::terminus(&self.termini.slots, number) {
            None => Some(BookFault::NoTerminus),
            Some(terminus) => {
                if self.index.keeps(terminus.key.role, terminus.number) {
                    Some(BookFault::NoTerminus)
                } else {
                    None
                }
            }
        }
    }

    /// Why an act doesn't apply.
    fn why_not(&self, act: &Act) -> Result<Option<BookFault>, AllocError>
        ensures { (b : BookView) → Shows self.now b → IfOk result (λ r. r ≡ refusal b act.now) }
    {
        match act {
            Act::Make(terminus) => Ok(self.why_not_make(terminus)),
            Act::Admit(admission) => Ok(self.why_not_admit(admission)),
            Act::Decide(decision) => self.why_not_decide(decision),
            Act::Forget(row) => Ok(self.why_not_forget(*row)),
            Act::Drop(terminus) => Ok(self.why_not_drop(*terminus)),
        }
    }

    /// Makes a terminus; the act applies.
    pub(crate) fn make(&mut self, terminus: &Terminus) -> Result<(), AllocError>
        ensures shows { (b : BookView) → Shows self.old b → make_refusal b terminus.now ≡ None → OnOk result (Shows self.new (effect b (act.Make terminus.now))) }
        ensures before { SameBefore self.old self.new }
    {
        let Some(next) = self.counters.next_terminus.checked_add(1) else {
            return Err(AllocError);
        };
        let Some(termini) = self.counters.termini.checked_add(1) else {
            return Err(AllocError);
        };
        let made = copy::terminus(terminus)?;
        set_key(&mut self.keys, &terminus.key, terminus.number.0)?;
        self.termini.add(TerminusSlot {
            number: terminus.number.0,
            terminus: Some(made),
        })?;
        self.counters.next_terminus = next;
        self.counters.termini = termini;
        Ok(())
    }

    /// Admits a row of the next number, under a tag that no unforgotten row of its producer has.
    pub(crate) fn admit(&mut self, admission: &Admission) -> Result<(), AllocError>
        ensures shows { (b : BookView) → Shows self.old b → IsNew b admission.now → OnOk result (Shows self.new (effect b (act.Admit admission.now))) }
        ensures before { SameBefore self.old self.new }
    {
        let Some(next) = self.counters.next_row.checked_add(1) else {
            return Err(AllocError);
        };
        let Some(rows) = self.counters.rows.checked_add(1) else {
            return Err(AllocError);
        };
        let row = copy::admitted_row(admission)?;
        self.index.admit(admission)?;
        self.rows.add(RowSlot {
            number: admission.row.0,
            row: Some(row),
        })?;
        self.counters.next_row = next;
        self.counters.rows = rows;
        Ok(())
    }

    /// Decides a row that is there and undecided.
    fn decide(&mut self, decision: &Decision) -> Result<(), AllocError>
        ensures shows { (b : BookView) → Shows self.old b → decide_refusal (row_at decision.now.row.0 b.rows) decision.now.outcome ≡ None → OnOk result (Shows self.new (effect b (act.Decide decision.now))) }
        ensures before { SameBefore self.old self.new }
    {
        let number = decision.row.0;
        match row_place(&self.rows.slots, number) {
            None => Ok(()),
            Some(at) => match &self.rows.slots[at].row {
                None => Ok(()),
                Some(row) => {
                    let after = copy::decided_row(row, &decision.outcome)?;
                    let rows = rows_after(self.counters.rows, &after);
                    self.index.decide(row)?;
                    self.rows.replace(at, RowSlot { number, row: after })?;
                    self.counters.rows = rows;
                    Ok(())
                }
            },
        }
    }

    /// Forgets a row; the act applies.
    fn forget(&mut self, number: RowNumber) -> Result<(), AllocError>
        ensures shows { (b : BookView) → Shows self.old b → forget_refusal (row_at number.0 b.rows) ≡ None → OnOk result (Shows self.new (effect b (act.Forget number))) }
        ensures before { SameBefore self.old self.new }
    {
        let number = number.0;
        match row_place(&self.rows.slots, number) {
            None => Ok(()),
            Some(at) => match &self.rows.slots[at].row {
                None => Ok(()),
                Some(row) => {
                    let after = copy::forgotten_row(row)?;
                    let rows = rows_after(self.counters.rows, &after);
                    self.index.forget(row)?;
                    self.rows.replace(at, RowSlot { number, row: after })?;
                    self.counters.rows = rows;
                    Ok(())
                }
            },
        }
    }

    /// Removes a terminus, if it is there.
    fn remove(&mut self, number: TerminusNumber) -> Result<(), AllocError>
        ensures shows { (b : BookView) → Shows self.old b → OnOk result (Shows self.new (effect b (act.Drop number))) }
        ensures before { SameBefore self.old self.new }
    {
        let number = number.0;
        match terminus_place(&self.termini.slots, number) {
            None => Ok(()),
            Some(at) => match &self.termini.slots[at].terminus {
                None => Ok(()),
                Some(terminus) => {
                    set_key(&mut self.keys, &terminus.key, 0)?;
                    let terminus = None;
                    self.termini.replace(at, TerminusSlot { number, terminus })?;
                    self.counters.termini = self.counters.termini.saturating_sub(1);
                    Ok(())
                }
            },
        }
    }

    /// Performs an act that applies.
    fn perform(&mut self, act: &Act) -> Result<(), AllocError>
        ensures shows { (b : BookView) → Shows self.old b → refusal b act.now ≡ None → OnOk result (Shows self.new (effect b act.now)) }
        ensures before { SameBefore self.old self.new }
    {
        match act {
            Act::Make(terminus) => self.make(terminus),
            Act::Admit(admission) => self.admit(admission),
            Act::Decide(decision) => self.decide(decision),
            Act::Forget(row) => self.forget(*row),
            Act::Drop(terminus) => self.remove(*terminus),
        }
    }

    /// Performs an act, if it applies.
    pub(crate) fn step(&mut self, act: &Act) -> Result<(), BookFault>
        ensures step { (b : BookView) → Shows self.old b → Stepped result self.new b act.now }
        ensures before { SameBefore self.old self.new }
    {
        match self.why_not(act) {
            Err(_) => Err(BookFault::Memory),
            Ok(Some(fault)) => Err(fault),
            Ok(None) => match self.perform(act) {
                Ok(()) => Ok(()),
                Err(_) => Err(BookFault::Memory),
            },
        }
    }

    /// Applies acts up to the first that doesn't apply.
    pub(crate) fn run(&mut self, acts: &[Act]) -> Result<(), BookFault>
        ensures run { (b : BookView) → Shows self.old b → Ran result self.new b acts.now }
        ensures before { SameBefore self.old self.new }
    {
        for act in acts {
            match self.step(act) {
                Ok(()) => {}
                Err(fault) => return Err(fault),
            }
        }
        Ok(())
    }

    /// Undoes each act since the last commit, and sets the counters back to these.
    pub(crate) fn rollback(&mut self, counters: Counters)
        ensures termini { self.new.termini.slots.items ≡ before self.old.termini.log.items self.old.termini.slots.items }
        ensures rows { self.new.rows.slots.items ≡ before self.old.rows.log.items self.old.rows.slots.items }
        ensures keys { get key_cmp self.new.keys.numbers ≡ earlier key_cmp self.old.keys.log.items (get key_cmp self.old.keys.numbers) }
        ensures index { IsIndexBack self.old.index self.new.index }
        ensures counters { self.new.counters ≡ counters }
        ensures settled { IsSettled self.new }
    {
        self.termini.rollback();
        self.rows.rollback();
        self.keys.rollback();
        self.index.rollback();
        self.counters = counters;
    }

    /// Makes each act since the last commit permanent, and removes empty slots once they are more than the others.
    pub(crate) fn commit(&mut self)
        ensures shows { (b : BookView) → Shows self.old b → Shows self.new b }
        ensures settled { IsSettled self.new }
    {
        sweep_termini(&mut self.termini.slots, self.counters.termini);
        self.termini.commit();
        sweep_rows(&mut self.rows.slots, self.counters.rows);
        self.rows.commit();
        self.keys.commit();
        self.index.commit();
    }
}

/// How many rows there are after a change that leaves this of a row.
fn rows_after(rows: usize, after: &Option<Row>) -> usize
    ensures { result ≡ (if is_some after.now then rows else rows - 1) }
{
    if after.is_some() {
        rows
    } else {
        rows.saturating_sub(1)
    }
}

/// Removes empty slots, if fewer than half of all are taken.
fn sweep_termini(slots: &mut Vec<TerminusSlot>, taken: usize)
    ensures { IsSwept terminus_number (λ s. s.terminus) slots.old.items slots.new.items }
{
    if taken < slots.len() / 2 {
        drop_empty_termini(slots);
    }
}

/// The same for the slots of rows.
fn sweep_rows(slots: &mut Vec<RowSlot>, taken: usize)
    ensures { IsSwept row_number (λ s. s.row) slots.old.items slots.new.items }
{
    if taken < slots.len() / 2 {
        drop_empty_rows(slots);
    }
}

fn drop_empty_termini(slots: &mut Vec<TerminusSlot>)
    ensures { slots.new.items ≡ filter (λ s. is_some s.terminus) slots.old.items }
{
    slots.retain(|slot| slot.terminus.is_some());
}

fn drop_empty_rows(slots: &mut Vec<RowSlot>)
    ensures { slots.new.items ≡ filter (λ s. is_some s.row) slots.old.items }
{
    slots.retain(|slot| slot.row.is_some());
}

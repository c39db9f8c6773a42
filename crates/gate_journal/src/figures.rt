//! The figures of a journal: how long it is, how much room it keeps free, and how many batches it has.
ghost use Rattle.std.specs.Prelude.{◌≡◌, ◌≤◌, ◌+◌, ◌-◌, ◌^◌, sum, sum_by, length, IfNone, IfSome, IsTrue, ◌↔◌};
ghost use Rattle.gate_journal.specs.Reserve.{row_reserve, reserve, growth, release};

use book_core::Book;
use book_model::{Act, Row};

/// The figures of a journal.
#[derive(Clone, Copy, Debug)]
pub(crate) struct Figures {
    /// The place of the gate that ends the journal.
    pub(crate) place: usize,
    /// The bytes that are kept free.
    pub(crate) reserve: u64,
    /// The number of batches.
    pub(crate) count: u64,
}

/// A sum; none where it is too large for its type.
pub fn total(parts: &[u64]) -> Option<u64>
    ensures sum { IfSome result (λ n. n ≡ sum parts.now) }
    ensures none { IfNone result (2 ^ 64 ≤ sum parts.now) }
{
    let mut total = 0u64;
    for part in parts {
        total = total.checked_add(*part)?;
    }
    Some(total)
}

fn growth_of(act: &Act) -> u64
    ensures { result ≡ growth act.now }
{
    match act {
        Act::Make(_) => 14,
        Act::Admit(_) => 430,
        _ => 0,
    }
}

fn release_of(act: &Act) -> u64
    ensures { result ≡ release act.now }
{
    match act {
        Act::Decide(_) => 416,
        Act::Forget(_) | Act::Drop(_) => 14,
        _ => 0,
    }
}

fn reserve_of_row(row: &Row) -> u64
    ensures { result ≡ row_reserve row.now }
{
    let undecided = if row.outcome.is_none() { 416 } else { 0 };
    let unforgotten = if row.forgotten { 0 } else { 14 };
    undecided + unforgotten
}

/// The reserve of all rows of a book.
fn reserve_of_rows(book: &Book) -> Option<u64>
    ensures sum { IfSome result (λ n. n ≡ sum_by row_reserve book.now.rows) }
    ensures none { IfNone result (2 ^ 64 ≤ sum_by row_reserve book.now.rows) }
{
    let mut total = 0u64;
    for row in book.rows() {
        total = total.checked_add(reserve_of_row(row))?;
    }
    Some(total)
}

/// What a journal keeps free for a book; none where it is too much for its type.
#[tactic(auto, unfolding(crate::specs::Reserve::reserve))]
pub fn reserve_of(book: &Book) -> Option<u64>
    ensures reserve { IfSome result (λ n. n ≡ reserve book.now) }
    ensures none { IfNone result (2 ^ 64 ≤ reserve book.now) }
{
    let rows = reserve_of_rows(book)?;
    let termini = 14u64.checked_mul(book.terminus_count() as u64)?;
    rows.checked_add(termini)
}

/// By how much acts make the reserve larger; none where it is too much for its type.
pub fn growth_by(acts: &[Act]) -> Option<u64>
    ensures growth { IfSome result (λ n. n ≡ sum_by growth acts.now) }
    ensures none { IfNone result (2 ^ 64 ≤ sum_by growth acts.now) }
{
    let mut total = 0u64;
    for act in acts {
        total = total.checked_add(growth_of(act))?;
    }
    Some(total)
}

/// By how much acts make the reserve smaller; none where it is too much for its type.
pub fn release_by(acts: &[Act]) -> Option<u64>
    ensures release { IfSome result (λ n. n ≡ sum_by release acts.now) }
    ensures none { IfNone result (2 ^ 64 ≤ sum_by release acts.now) }
{
    let mut total = 0u64;
    for act in acts {
        total = total.checked_add(release_of(act))?;
    }
    Some(total)
}

impl Figures {
    /// The figures after one more batch, by its bytes from its length to the gate after it, the gate included.
    pub(crate) fn after(self, bytes: usize, growth: u64, release: u64) -> Option<Figures>
        ensures place { IfSome result (λ f. f.place ≡ self.place + bytes) }
        ensures reserve { IfSome result (λ f. f.reserve ≡ self.reserve + growth - release) }
        ensures count { IfSome result (λ f. f.count ≡ self.count + 1) }
    {
        Some(Figures {
            place: self.place.checked_add(bytes)?,
            reserve: self.reserve.checked_add(growth)?.saturating_sub(release),
            count: self.count.checked_add(1)?,
        })
    }
}

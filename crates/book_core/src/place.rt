//! Which place has a number.
ghost use Rattle.std.specs.Prelude.{IfSome, IfNone};
ghost use Rattle.book_core.specs.Rising.{Rises, Lacks, IsAt};

use crate::slot::{RowSlot, TerminusSlot};

pub(crate) fn row_place(slots: &[RowSlot], number: u64) -> Option<usize>
    ensures found { IfSome result (λ at. IsAt (λ (s : RowSlot). s.number) number slots.now at) }
    ensures missing { IfNone result (Rises (λ (s : RowSlot). s.number) slots.now → Lacks (λ (s : RowSlot). s.number) number slots.now) }
{
    slots.binary_search_by_key(&number, |slot| slot.number).ok()
}

pub(crate) fn terminus_place(slots: &[TerminusSlot], number: u64) -> Option<usize>
    ensures found { IfSome result (λ at. IsAt (λ (s : TerminusSlot). s.number) number slots.now at) }
    ensures missing { IfNone result (Rises (λ (s : TerminusSlot). s.number) slots.now → Lacks (λ (s : TerminusSlot). s.number) number slots.now) }
{
    slots.binary_search_by_key(&number, |slot| slot.number).ok()
}

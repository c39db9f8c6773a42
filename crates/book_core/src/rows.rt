//! Walks over rows.
ghost use Rattle.book_core.specs.Rows.{rows_left};
ghost use Rattle.std.specs.Iterator.{YieldsFirstRef, item_count};

use crate::look::is_wanted_row;
use crate::slot::RowSlot;
use book_model::{Row, TerminusNumber};

/// The rows of a book, or those that came on the link of a terminus or are bound to it, by number.
#[derive(Drop)]
pub struct Rows<'a> {
    pub(crate) slots: &'a [RowSlot],
    pub(crate) terminus: Option<TerminusNumber>,
}

impl<'a> Iterator for Rows<'a> {
    type Item = &'a Row;

    ghost next_gives = { YieldsFirstRef rows_left };

    ghost remaining = { item_count rows_left };

    fn next(&mut self) -> Option<&'a Row> {
        while let Some((first, others)) = self.slots.split_first() {
            self.slots = others;
            match &first.row {
                Some(row) if is_wanted_row(row, self.terminus) => return Some(row),
                _ => {}
            }
        }
        None
    }
}

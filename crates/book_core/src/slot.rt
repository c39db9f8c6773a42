//! The slots of a book's tables, in the order of their numbers. What was removed leaves an empty slot until a commit.
ghost use Rattle.std.specs.Prelude.{◌≡◌};
ghost use Rattle.std.specs.Option.{ForSome};

use book_model::{Row, Terminus};

/// A slot for a row.
#[derive(Drop)]
pub(crate) struct RowSlot {
    pub(crate) number: u64,
    pub(crate) row: Option<Row>,
    ghost same: { ForSome row (λ r. r.number.0 ≡ number) },
}

/// A slot for a terminus.
#[derive(Drop)]
pub(crate) struct TerminusSlot {
    pub(crate) number: u64,
    pub(crate) terminus: Option<Terminus>,
    ghost same: { ForSome terminus (λ t. t.number.0 ≡ number) },
}

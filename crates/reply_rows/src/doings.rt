//! What an item does to deliveries and to the book, but for an admission.
ghost use Rattle.std.specs.Prelude.{◌≡◌, [], None};
ghost use Rattle.reply_rows.specs.Doing.{TakesNothing};

use crate::attach::Resumption;
use book_model::{Decision, RowNumber};
use journal_store::TerminusAct;
use router_trace::Attachment;
use state_deliveries::Change;
use std::alloc::Global;

/// What a frame does besides being answered, as the module of its performative has it. The changes of deliveries that follow from its answer, and the
/// rows that these decide, are added to it.
#[derive(Drop)]
pub(crate) struct Doings {
    /// The older link with the key of one that is taken, which it ends.
    pub(crate) stolen: Option<Attachment>,
    /// What it changes of deliveries at once, unless its event ends its connection first.
    pub(crate) change: Option<Change>,
    /// The rows that it decides, each with its outcome: first those that the map of an attach decides.
    pub(crate) decided: Vec<Decision>,
    /// The rows that it forgets.
    pub(crate) forgotten: Vec<RowNumber>,
    /// The rows that it forgets because the map of an attach lacks them.
    pub(crate) lacking: Vec<RowNumber>,
    /// The terminus that it makes or drops.
    pub(crate) terminus: Option<TerminusAct>,
    /// What it takes up again.
    pub(crate) resumption: Option<Resumption>,
}

impl Doings {
    /// Nothing.
    pub(crate) fn nothing(alloc: Global) -> Doings
        ensures stolen { result.stolen ≡ None }
        ensures forgotten { result.forgotten.items ≡ [] }
        ensures terminus { result.terminus ≡ None }
        ensures resumption { TakesNothing result }
    {
        Doings::forgetting(alloc, Vec::new(alloc))
    }

    /// These rows are forgotten, and nothing else is done.
    pub(crate) fn forgetting(alloc: Global, rows: Vec<RowNumber>) -> Doings
        ensures stolen { result.stolen ≡ None }
        ensures forgotten { result.forgotten ≡ rows }
        ensures terminus { result.terminus ≡ None }
        ensures resumption { TakesNothing result }
    {
        Doings {
            stolen: None,
            change: None,
            decided: Vec::new(alloc),
            forgotten: rows,
            lacking: Vec::new(alloc),
            terminus: None,
            resumption: None,
        }
    }

    /// The same, but no row is forgotten, except those that the map of an attach lacks.
    pub(crate) fn without_rows(self, alloc: Global) -> Doings
        ensures forgotten { result.forgotten.items ≡ [] }
        ensures rest { result ≡ record self { forgotten = result.forgotten } }
    {
        Doings {
            forgotten: Vec::new(alloc),
            ..self
        }
    }
}

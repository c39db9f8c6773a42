//! What a book of durable links speaks of: termini, rows, the acts that change them, and why acts don't apply. The book itself is `book_core`'s.
#![tactic(auto)]

mod act;
mod fault;
mod key_order;
mod row;
mod terminus;

pub use act::{Act, ActKind, Admission, Decision};
pub use fault::BookFault;
pub use row::{Row, RowNumber};
pub use terminus::{LinkKey, LinkRole, Terminus, TerminusNumber};

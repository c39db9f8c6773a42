//! The book of a router: which durable links have a terminus, which deliveries are admitted, and their outcomes.
//!
//! A book changes only by acts. A list of acts is applied whole or not at all.
#![tactic(auto)]

mod acts;
pub mod book;
mod copy;
mod keys;
mod look;
mod numbers;
mod place;
mod restore;
mod row_index;
mod row_name;
pub mod rows;
mod slot;
mod table;
mod tables;

pub use book::Book;
pub use book_model::{
    Act, ActKind, Admission, BookFault, Decision, LinkKey, LinkRole, Row, RowNumber, Terminus,
    TerminusNumber,
};
pub use rows::Rows;

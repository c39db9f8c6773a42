//! What a list of acts says of the book that it leaves, and which books are read back (`docs/book.md`). Nothing runs
//! here: each function is a law of the book's definitions.
#![tactic(auto)]

pub mod laws;
pub mod restoring;

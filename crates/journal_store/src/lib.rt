//! The delivery store of a router: the book of its durable deliveries, and the journal that keeps it on two files.
//! What is written to the store is on them, whole or not at all, wherever a crash comes.
#![tactic(auto)]

mod acting;
mod kept_book;
pub mod laws;
mod lost;
mod settling;
mod store;

pub use acting::TerminusAct;
pub use lost::start_acts;
pub use store::Store;

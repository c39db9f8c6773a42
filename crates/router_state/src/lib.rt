//! The router's tables, changed together.
#![tactic(auto)]

mod copies;
mod durable;
mod finding;
mod place;
mod putting;
mod tables;

pub use durable::none_if_ended;
pub use finding::Found;
pub use place::LinkPlace;
pub use tables::State;

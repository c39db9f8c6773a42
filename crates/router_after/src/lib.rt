//! What follows an event's rows.
#![tactic(auto)]

mod candidate;
mod draining;
mod following;
mod phase;
mod sending;
mod telling;
mod waiting;

pub use following::after;

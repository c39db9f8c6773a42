//! Runs of the router: groups of events, one after another.
#![tactic(auto)]

mod driving;

pub use driving::{Driven, Sent, drive};

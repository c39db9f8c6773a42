//! A router under one lock: the threads' seats and what they count, the bells at which writers sleep, and the history that the lock keeps true.
//!
//! What the router is made of is a type parameter: anything that is a [`Machine`](core_machine::Machine).
#![tactic(auto)]

mod bells;
mod kind;
mod ledgers;
mod locked;
mod seat;
mod shared;
mod sleepers;
mod tally;
mod totals;

pub use ledgers::{Blanks, Ledgers, Names, SEATS};
pub use locked::{Closed, Log, NoLog, Receipt};
pub use seat::Seat;
pub use shared::{Quiet, Shared};

//! The table of deliveries that the router passes on (AMQP 1.0 part 2, sections 2.6.12 and 2.7.6).
//!
//! [`Deliveries`] follows the trace, one entry at a time: `bind` for a message that was bound, `join` for a row that a
//! producer's link has, `put` for an item that the router put out, `hear` for an item received, with the router's channel of its session and the event's acts, and `down` for a lost connection. Its state
//! is read by `delivery`, `waiting`, `undecided`, `held`, `to_tell_after`, `named`, `sending` and `next_id`.
//!
//! Before a change is made, `decided_rows` tells which rows it would decide, so that these decisions can be written down first.
//!
//! A delivery is in the table from its binding until it is over. The end of a link visits only the deliveries that go to it or
//! come from it, and a disposition only those that its ids name. An id is forgotten once its delivery is decided.
#![tactic(auto)]

mod by_id;
mod by_name;
mod by_rank;
mod change;
mod consumers;
mod deciding;
mod deliveries;
mod delivery;
mod giving;
mod handles;
mod hearing;
mod in_place;
mod index;
mod names;
mod next_ids;
mod rows;
mod sending;
mod sets;
mod spots;
mod standing;
mod state;
mod store;
mod tag;
mod tallies;
mod touched;

pub use change::{Change, Gone};
pub use deliveries::Deliveries;
pub use delivery::{Delivery, Producers};

//! The table of deliveries that peers have not settled (AMQP 1.0 part 2, sections 2.6.12 and 2.7.6).
//!
//! [`IncomingDeliveries`] follows the trace, one entry at a time: `bind` for a message that was bound, `put` for an item that the router put out,
//! `hear` for an item received, with the router's channel of its session and the link that a transfer names, and `down` for a lost
//! connection. Its state is read by `get`, `is_claimed`, `is_claimed_on`, `unbound` and `uses_tag`.
//!
//! A claim is in the table from its delivery's first frame until the delivery is settled, aborted, or its link, session or connection is gone.
#![tactic(auto)]

mod by_link;
mod incoming;

pub use incoming::{IncomingDeliveries, IncomingDelivery, Middle, Receiving};

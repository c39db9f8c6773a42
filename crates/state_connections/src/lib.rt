//! The tables of connections: their phases and outboxes, the connections that are ready, and their clocks.
#![tactic(auto)]

mod clocks;
mod connections;
mod peers;
mod ready;
mod row;

pub use clocks::Clocks;
pub use connections::{Connections, Refused, phase_found};
pub use peers::Peers;
pub use ready::Ready;
pub use row::{CONNECTIONS, OUTBOX, Taken};

//! The router's core: events in, items out.
#![tactic(auto)]

mod group;
mod held;
mod machine;
mod router;

pub use core_door::{Config, Door, DoorAnswer};
pub use core_machine::{Batch, CoreFault, Counts, Done};
pub use router::Core;
pub use router_trace::{ConnectionId, Event, Peer, PeerRole};

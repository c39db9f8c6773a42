//! Plays a script against the router, in memory: connections come up, bytes are received, and bytes are sent.
#![tactic(auto)]

mod finish;
mod runs;
mod script;
mod surviving;

pub use core_player::{Acts, Came, Entry, Line, Step};
pub use router_core::{Config, ConnectionId, CoreFault, PeerRole};
pub use runs::play_runs;
pub use script::{Report, Run, Stop};

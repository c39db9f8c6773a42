//! Plays the steps of a script against a machine, in memory: connections come up, bytes are received, and bytes are sent.
//!
//! What the router is made of is a type parameter: any [`Fused`](core_machine::Fused) machine.
#![tactic(auto)]

mod entry;
mod line;
mod listening;
mod player;
mod recorder;
mod script;
mod socket;
mod sockets;

pub use entry::{Acts, Came, Entry};
pub use line::Line;
pub use player::{Played, play};
pub use recorder::Cut;
pub use script::Step;

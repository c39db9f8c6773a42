//! Connections on sockets, each served by threads of its own, over a router that is known as a service.
#![tactic(auto)]

mod connection;
mod lines;
mod links;
mod listening;
mod moment;
mod program;
mod sentence;
mod socket;
mod spoken;
mod state;
mod streams;
mod telling;
mod watch;

pub use lines::{Lines, write_lines};
pub use listening::listen;
pub use program::Program;
pub use state::{ProgramState, THREADS};

//! The tables of sessions, by connection and channel.
#![tactic(auto)]

mod connection;
mod place;
mod rows;
mod sessions;

pub use connection::{NARROW, flow_state};
pub use place::{FoundSession, Place};
pub use sessions::{CHANNELS, Sessions};

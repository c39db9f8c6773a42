//! The replies to events.
#![tactic(auto)]

mod attaching;
mod closing;
mod events;
mod heard;
mod holding;
mod resuming;

pub use events::reply;
pub use heard::{Heard, hear};
pub use holding::free_rows;
pub use resuming::take_up;

//! A router as those see it who hand events in and take items out: the trait [`Machine`], what it answers, and what it counts.
#![tactic(auto)]

mod answers;
mod counts;
mod fault;
mod machine;

pub use answers::{Batch, Done};
pub use counts::Counts;
pub use fault::CoreFault;
pub use machine::{Fused, Machine, take};
pub use state_connections::Taken;

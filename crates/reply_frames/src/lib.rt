//! The frames of deliveries: outcomes as the router keeps and reports them, and transfers that fill the frames of a peer.
#![tactic(auto)]

mod laws;
mod next;
mod outcome;
mod transfer;

pub use laws::{frames_are_filled, frames_have_room, outcomes_are_short, settling_is_one_frame};
pub use next::{delivery_frame, next_frame};
pub use outcome::{kept_outcome, outcome_item};
pub use transfer::{Resuming, first_transfer, later_transfer, tag_of};

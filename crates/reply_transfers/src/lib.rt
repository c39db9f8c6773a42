//! What a transfer that is taken makes of its delivery, and the answers to the deliveries that a disposition decides.
#![tactic(auto)]

mod joining;
mod transfers;

pub use joining::{row_joined, row_under};
pub use transfers::{UNBOUND, claimed_id, disposition_in, last_of, settle, take_part};

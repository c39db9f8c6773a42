//! Links, the deliveries on them and the pools of their addresses, changed together.
#![tactic(auto)]

mod asking;
mod busy;
mod copies;
mod due;
mod durable;
mod figures;
mod grant;
mod granting;
mod hearing;
mod messages;
mod owing;
mod sharing;
mod turns;

pub use grant::LinkGrant;
pub use messages::Messages;

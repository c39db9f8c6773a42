//! The links of one address: which consumer gets the next delivery, and which producers get credit.
//!
//! [`Pool`] is given what each link has, and answers both.
#![tactic(auto)]

mod demand;
mod few;
mod ids;
pub mod laws;
mod links;
mod offer;
mod place;
mod pool;
mod ranking;
mod side;
mod tally;
mod weigh;

pub use demand::Demand;
pub use ids::{ConsumerId, ProducerId};
pub use offer::Offer;
pub use pool::Pool;

//! What the router decides of an event before any of it is done: the row of the reply table that answers an item, and what the event does to the book of
//! durable deliveries. What is decided of a performative stands in the module of its name.
#![tactic(auto)]

mod answer;
mod answering;
mod attach;
mod begin;
mod changes;
mod close;
mod deciding;
mod detach;
mod disposition;
mod doings;
mod end;
mod flow;
mod frame;
mod open;
mod plan;
mod transfer;

pub use answer::Answer;
pub use answering::item_answer;
pub use attach::{
    ConsumerResumption, LINK_TEXT, ProducerResumption, Resumption, told_map, wanted_address,
    wanted_key, wants_durable,
};
pub use deciding::decide;
pub use open::CONTAINER_ID;
pub use plan::Plan;
pub use transfer::{Admittable, admission_for, row_in};

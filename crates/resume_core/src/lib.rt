//! What happens when a durable link is attached again (AMQP 1.0 part 2, section 2.6.13): pure functions over the rows of its terminus and the
//! unsettled map of the peer's attach. They change nothing: the caller writes the acts and sends what the plan says.
#![tactic(auto)]

mod consumer;
mod entry;
mod laws;
mod peer_map;
mod producer;

pub use consumer::{ConsumerPlan, Sending, consumer_plan};
pub use laws::{
    complete_maps_agree, complete_maps_send_what_is_listed, decided_rows_stay,
    each_tag_stands_once, empty_maps_forget_all, incomplete_maps_forget_nothing,
    other_entries_change_nothing, outcomes_given_are_short, rows_are_of_the_terminus,
};
pub use producer::{ProducerPlan, producer_plan};
pub use router_trace::Resumed;

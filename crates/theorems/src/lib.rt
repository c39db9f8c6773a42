//! The theorem of the router: what it promises, whatever peers send, and whenever it is stopped.
#![tactic(auto)]

mod theorems;

pub use theorems::{
    a_delivery_has_one_consumer, a_router_goes_on, a_stop_leaves_a_prefix, accepted_is_told_truly,
    connections_are_answered_alone, connections_keep_order, durable_links_are_kept_first,
    durable_messages_are_kept_first, durable_outcomes_are_kept_first, frames_carry_what_was_bound,
    messages_are_bound_once, no_delivery_starts_beyond_credit, outcomes_are_as_given,
    outcomes_are_kept_as_told, outcomes_are_told_once, pieces_make_no_difference,
    producers_are_told_rightly, rows_stay_with_consumers, scripts_keep_order,
    scripts_keep_windows_and_credit, takes_make_no_difference, the_headline, the_lock_keeps_them,
    windows_are_kept,
};

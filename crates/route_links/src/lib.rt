//! One direction of a routed link: the frames that came on one end and go out on the other, in order and in parts that no
//! cut changes (AMQP 1.0 part 2, sections 2.6.14, 2.7.4 to 2.7.7); and the delivery-ids of the link on both of its ends.
//! Nothing here knows a connection, a channel or a table.
#![tactic(auto)]

mod allowed;
mod cut;
mod heard;
mod ids;
mod laws;
mod leg;
mod middle;
mod names;
mod passing;
mod turn;

pub use allowed::{Allowed, Stop, Turn};
pub use ids::{Ids, ReceiverId, SenderId};
pub use laws::{
    a_cut_changes_no_part, a_delivery_that_went_has_an_id, a_disposition_names_what_came,
    a_held_disposition_has_its_id, a_turn_mirrors, an_id_names_its_delivery,
    an_id_names_no_settled_delivery, an_unsettled_delivery_is_named, ids_count_what_came_and_went,
    no_two_have_one_id,
};
pub use leg::Leg;
pub use middle::Middle;
pub use passing::{Passing, StartNumber};

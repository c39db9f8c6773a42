//! The credit of a link, at the end that sends and at the end that receives, and deliveries gathered from their transfer
//! frames (AMQP 1.0 part 2, sections 2.6.7, 2.6.8 and 2.6.14).
#![tactic(auto)]

pub mod fault;
mod gathering;
pub mod grant;
pub mod laws;
pub mod part;
pub mod recv_end;
pub mod send_end;

pub use fault::LinkFault;
pub use gathering::MAX_MESSAGE_SIZE;
pub use grant::Grant;
pub use part::{Delivery, Part};
pub use recv_end::{MAX_CREDIT, RecvEnd};
pub use send_end::SendEnd;

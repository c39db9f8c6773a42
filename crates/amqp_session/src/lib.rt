//! The windows of a session: how many transfers each end may still send (AMQP 1.0 part 2, section 2.5.6), and the serial
//! numbers that they are given in (RFC 1982).
#![tactic(auto)]

pub mod delivery_ids;
pub mod fault;
pub mod laws;
pub mod serial;
pub mod states;
pub mod window;

pub use delivery_ids::DeliveryIds;
pub use fault::SessionFault;
pub use serial::Serial;
pub use states::{BeginState, FlowState};
pub use window::Window;
